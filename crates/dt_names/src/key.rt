//! What a name is looked up by.

/// The numbers of a name's texts: that of the id, that of the property where the name speaks of
/// one, that of what tells an entry, and that of what is left.
#[derive(Clone, Copy, Debug, PartialEq, Eq, Hash)]
pub(crate) struct Key {
    pub(crate) base: usize,
    pub(crate) prop: usize,
    pub(crate) entry: usize,
    pub(crate) last: usize,
}
