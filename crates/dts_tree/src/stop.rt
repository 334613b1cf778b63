//! Why the statements of a source were not carried out.

ghost use Rattle.std.specs.Prelude.{◌≡◌, alloc_error};
ghost use Rattle.dts_tree.specs.declared.stop.Stop.TheVariants as stop;

use std::alloc::{AllocError, AllocFailed};

/// Why the statements of a source were not carried out.
#[derive(Drop)]
pub enum Stop {
    /// The reference at this byte names no node.
    Unnamed(u64),
    /// Memory was wanted.
    Memory(AllocError),
}

impl From<AllocError> for Stop {
    ghost from_gives = { λ e end. end ≡ stop.Memory e };

    fn from(e: AllocError) -> Stop {
        Stop::Memory(e)
    }
}

impl<T: Drop> From<AllocFailed<T>> for Stop {
    ghost from_gives = { λ _ end. end ≡ stop.Memory alloc_error };

    fn from(_e: AllocFailed<T>) -> Stop {
        Stop::Memory(AllocError)
    }
}
