//! The laws of the definitions' names, as contracts.

ghost use Rattle.dt_names.specs.Inner.Alike.{NamesHaveTexts};
ghost use Rattle.dt_names.specs.Inner.Keys.{PropertiesNameThem};
ghost use Rattle.dt_names.specs.Names.{NamesAreTold};

/// Two definitions' names are spelled alike only where their markers, words and numbers are the
/// same.
pub fn names_are_told()
    ensures { NamesAreTold }
{}

/// Two definitions' names are spelled alike exactly where their texts of the id, of the property,
/// of what tells an entry and of what is left are the same.
pub(crate) fn names_have_four_texts()
    ensures { NamesHaveTexts }
{}

/// The name of each definition of a property speaks of the property.
pub(crate) fn property_definitions_name_it()
    ensures { PropertiesNameThem }
{}
