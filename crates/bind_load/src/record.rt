//! The record of a binding file.

use edt_base::{PropType, Text, Yaml};

/// What one binding file says, level by level (Zephyr 3.7, "Devicetree bindings syntax"). In
/// clauses it is plain data, `record_of` it: the list of its levels, from the top down.
#[derive(Debug, Drop)]
pub struct BindingRec {
    /// What the node is; empty where it is no text.
    pub description: Option<Text>,
    /// The compatible string that the binding is for.
    pub compatible: Option<Text>,
    /// The buses that the node's children are on.
    pub buses: Option<Vec<Text>>,
    /// The bus that the node is on.
    pub on_bus: Option<Text>,
    /// For each space of specifiers the names of the cells, in order.
    pub cells: Vec<(Text, Vec<Text>)>,
    /// The files that this level includes, in order.
    pub includes: Vec<Include>,
    /// The properties with their settings, in written order.
    pub props: Vec<(Text, PropSpec)>,
    /// The binding of the node's children.
    pub child: Option<Box<BindingRec>>,
}

/// The settings of a property.
#[derive(Debug, Drop)]
pub struct PropSpec {
    /// `type`.
    pub ty: Option<PropType>,
    /// `required`.
    pub required: Option<bool>,
    /// `deprecated`.
    pub deprecated: Option<bool>,
    /// `default`.
    pub default: Option<Yaml>,
    /// `const`.
    pub constant: Option<Yaml>,
    /// `enum`.
    pub choices: Option<Vec<Yaml>>,
    /// `specifier-space`.
    pub space: Option<Text>,
    /// `description`; empty where it is no text.
    pub description: Option<Text>,
}

/// A file that a binding includes.
#[derive(Debug, Drop)]
pub struct Include {
    /// The file's base name.
    pub name: Text,
    /// What is let through of it.
    pub filter: Filter,
}

/// What is let through of an included file: at each level the properties of the first list, where
/// there is one, but for those of the second. In clauses it is plain data, `filter_of` it: the list
/// of its levels.
#[derive(Debug, Drop)]
pub struct Filter {
    /// `property-allowlist`.
    pub allow: Option<Vec<Text>>,
    /// `property-blocklist`.
    pub block: Option<Vec<Text>>,
    /// The filter of the child-binding's properties.
    pub child: Option<Box<Filter>>,
}
