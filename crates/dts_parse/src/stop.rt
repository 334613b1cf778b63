//! Why reading stops.

ghost use Rattle.std.specs.Prelude.{◌≡◌, alloc_error};
ghost use Rattle.dts_parse.specs.declared.stop.Stop.TheVariants as stops;

use crate::mode::Breach;
use std::alloc::{AllocError, AllocFailed};

/// Why reading stops.
#[derive(Debug, Drop)]
pub(crate) enum Stop {
    /// A rule is broken at this byte.
    Broken(Breach, u64),
    /// Memory was wanted.
    Memory(AllocError),
}

impl From<AllocError> for Stop {
    ghost from_gives = { λ e stop. stop ≡ stops.Memory e };

    fn from(e: AllocError) -> Stop {
        Stop::Memory(e)
    }
}

impl<T: Drop> From<AllocFailed<T>> for Stop {
    ghost from_gives = { λ _ stop. stop ≡ stops.Memory alloc_error };

    fn from(_e: AllocFailed<T>) -> Stop {
        Stop::Memory(AllocError)
    }
}
