//! Why there is no order.

ghost use Rattle.std.specs.Prelude.{◌≡◌, alloc_error};
ghost use Rattle.dep_order.specs.declared.ends.OrderEnd.TheVariants as ending;

use edt_base::NodeId;
use std::alloc::{AllocError, AllocFailed};

/// Why the nodes got no order.
#[derive(Debug, Drop)]
pub enum OrderEnd {
    /// Some nodes require one another in a circle. Names the first node in preorder that can't be
    /// numbered, in the circle or after it.
    Cycle(NodeId),
    /// Memory was wanted; there may be an order.
    Memory(AllocError),
}

impl From<AllocError> for OrderEnd {
    ghost from_gives = { λ e end. end ≡ ending.Memory e };

    fn from(e: AllocError) -> OrderEnd {
        OrderEnd::Memory(e)
    }
}

impl<T: Drop> From<AllocFailed<T>> for OrderEnd {
    ghost from_gives = { λ _ end. end ≡ ending.Memory alloc_error };

    fn from(_e: AllocFailed<T>) -> OrderEnd {
        OrderEnd::Memory(AllocError)
    }
}
