//! The data that all layers share: texts and bytes, faults and their places, and the traits of the
//! outside with the objects in memory that have them.
#![tactic(auto)]

mod block;
mod bound;
mod bytes;
mod cells;
mod fault;
mod id_len;
mod index;
mod memory;
mod node;
mod ords;
mod outside;
mod prop_order;
mod stop;
mod strings;
mod text;
mod tree;
mod tree_laws;
mod value;
mod words;
mod yaml;

pub use block::{Block, flush, put, put_byte};
pub use bound::{Bound, BoundNode, Entry, Inst, Irq, Prop, PropType, Range, Reg, Val};
pub use bytes::Bytes;
pub use cells::Cells;
pub use fault::{End, Fault, Place, Rule};
pub use memory::{GoodFiles, MemFiles, MemSink, NullSink};
pub use node::{FileNo, Kind, NodeId, NodeRec, Part, PropVal};
pub use outside::{Call, Files, ReadEnd, Sink, WriteFailed, is_binding_below, write_text};
pub use stop::Stop;
pub use strings::{entry_name, names_fit};
pub use text::Text;
pub use tree::Tree;
pub use tree_laws::{
    a_root_alone_is_bound, a_root_alone_is_well_formed, ancestors_are_the_parent_and_its_ancestors,
    children_rise, parents_are_before,
};
pub use words::Words;
pub use yaml::Yaml;
