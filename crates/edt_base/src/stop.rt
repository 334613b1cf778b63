//! Why a node's value isn't read to its end, before the place is told.

ghost use Rattle.std.specs.Prelude.{◌≡◌, alloc_error};
ghost use Rattle.edt_base.specs.declared.stop.Stop.TheVariants as stop;

use crate::Rule;
use std::alloc::{AllocError, AllocFailed};

/// A broken rule of the node at hand, or want of memory. `NodeRec::told` adds the place.
#[derive(Drop)]
pub enum Stop {
    /// The first rule that is broken.
    Broken(Rule),
    /// Memory was wanted.
    Memory(AllocError),
}

impl From<AllocError> for Stop {
    ghost from_gives = { λ e end. end ≡ stop.Memory e };

    fn from(e: AllocError) -> Stop {
        Stop::Memory(e)
    }
}

impl<T: Drop> From<AllocFailed<T>> for Stop {
    ghost from_gives = { λ _ end. end ≡ stop.Memory alloc_error };

    fn from(_e: AllocFailed<T>) -> Stop {
        Stop::Memory(AllocError)
    }
}
