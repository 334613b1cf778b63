//! What a merged binding declares.

ghost use Rattle.std.specs.Prelude.{◌≡◌, ◌++◌, IfOk, OnOk, map, option_map};
ghost use Rattle.std.specs.Option.{option_to_list};
ghost use Rattle.prop_types.specs.Declaring.{declared_at, declared_in};
ghost use Rattle.prop_types.specs.Inner.Seen.{seen};

use crate::properties::Declared;
use bind_merge::View;
use edt_base::Text;
use std::alloc::{AllocError, Global};

/// The properties that a merged binding declares, in byte order of their names. The one error is
/// want of memory.
pub(crate) fn declared_in<'a>(
    alloc: Global,
    view: &View<'a>,
) -> Result<Vec<Declared<'a>>, AllocError>
    ensures { IfOk result (λ v. map seen v.items ≡ declared_in view.now) }
{
    let names = view.names(alloc)?;
    let mut declared = Vec::with_capacity(alloc, names.len())?;
    for name in names.as_slice() {
        push_some(&mut declared, declared_at(view, *name))?;
    }
    Ok(declared)
}

// The declared property of a name, where the binding has it.
fn declared_at<'a>(view: &View<'a>, name: &'a Text) -> Option<Declared<'a>>
    ensures { option_map seen result ≡ declared_at view.now name.now }
{
    let property = view.prop(name)?;
    Some(Declared {
        name: name.as_str(),
        ty: property.ty(),
        required: property.required(),
        default: property.default(),
        constant: property.constant(),
        choices: match property.choices() {
            Some(choices) => Some(choices.as_slice()),
            None => None,
        },
    })
}

fn push_some<'a>(
    declared: &mut Vec<Declared<'a>>,
    property: Option<Declared<'a>>,
) -> Result<(), AllocError>
    ensures { OnOk result (declared.new.items ≡ declared.old.items ++ option_to_list property.entry) }
{
    match property {
        Some(property) => {
            declared.push(property)?;
            Ok(())
        }
        None => Ok(()),
    }
}
