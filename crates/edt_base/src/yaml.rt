//! A YAML value, as binding files hold them.

use crate::Text;

/// A value of the YAML in which Zephyr 3.7's bindings are written. In clauses it is plain data,
/// `value_of` it.
///
/// A value is dropped by recursion, so what builds one bounds how deep it nests: the reader of
/// binding files refuses more than 32 levels first.
#[derive(Debug, Drop)]
pub enum Yaml {
    /// A map: its keys with their values, in written order.
    Map(Vec<(Text, Yaml)>),
    /// A list, in written order.
    List(Vec<Yaml>),
    /// A string, without its quotes and escapes.
    Str(Text),
    /// A whole number.
    Int(i128),
    /// A boolean.
    Bool(bool),
    /// No value.
    Null,
    /// A scalar of a number's characters that is no whole number, as `1.5`. Its text isn't kept.
    Other,
}
