//! Why reading stops.

ghost use Rattle.std.specs.Prelude.{◌≡◌};
ghost use Rattle.yaml_profile.specs.declared.stop.Stop.TheVariants as stops;

use edt_base::Rule;
use std::alloc::{AllocError, AllocFailed};

/// A broken rule and the byte at which it is broken.
#[derive(Clone, Copy, Debug)]
pub struct Broken {
    /// The rule.
    pub rule: Rule,
    /// The byte.
    pub at: u64,
}

/// Why reading stops before the end.
#[derive(Debug, Drop)]
pub enum Stop {
    /// A rule is broken.
    Broken(Broken),
    /// Memory was wanted.
    Memory,
}

impl From<AllocError> for Stop {
    ghost from_gives = { λ _ stop. stop ≡ stops.Memory };

    fn from(_e: AllocError) -> Stop {
        Stop::Memory
    }
}

impl<T: Drop> From<AllocFailed<T>> for Stop {
    ghost from_gives = { λ _ stop. stop ≡ stops.Memory };

    fn from(_e: AllocFailed<T>) -> Stop {
        Stop::Memory
    }
}

/// This rule is broken at this byte.
pub(crate) fn stop_at(rule: Rule, at: u64) -> Stop
    ensures { result ≡ stops.Broken (record { rule = rule; at = at }) }
{
    Stop::Broken(Broken { rule, at })
}
