//! The properties that a binding declares, typed.

ghost use Rattle.std.specs.Prelude.{◌≡◌, ◌++◌, ◌<◌, IfErr, IfOk, OnOk, Ok, length, map, option_map};
ghost use Rattle.std.specs.Prelude.{true};
ghost use Rattle.std.specs.Option.{option_map_or, option_to_list};
ghost use Rattle.edt_base.specs.Refusals.{IsStop};
ghost use Rattle.edt_base.specs.ValData.{val_data};
ghost use Rattle.edt_base.specs.YamlData.{value_of};
ghost use Rattle.prop_types.specs.Given.{is_constant};
ghost use Rattle.prop_types.specs.Inner.Seen.{seen};
ghost use Rattle.prop_types.specs.Typing.{choices_in, typed_all, typed_one, unwritten, with_value};

use crate::choices::{Choices, choices_of};
use crate::given::{given, is_constant};
use crate::written::written;
use edt_base::{NodeId, Prop, PropType, PropVal, Rule, Stop, Text, Tree, Val, Yaml};
use std::alloc::{AllocError, Global};

/// A property that a binding declares, with what it says of the value.
#[derive(Clone, Copy)]
pub(crate) struct Declared<'a> {
    /// The name.
    pub(crate) name: &'a str,
    /// The type.
    pub(crate) ty: PropType,
    /// Whether an okay node has to have it.
    pub(crate) required: bool,
    /// `default`: its value where it isn't written.
    pub(crate) default: Option<&'a Yaml>,
    /// `const`: the only value that it may have.
    pub(crate) constant: Option<&'a Yaml>,
    /// `enum`: what each tested value has to be one of.
    pub(crate) choices: Option<&'a [Yaml]>,
}

/// The declared properties of a node, in order. Broken by the first rule of the first property that
/// breaks one: V11 and V20 where its value isn't of its type, V10 where it isn't written though an
/// okay node has to have it, V13 where a value is no entry of `enum`, V14 where it isn't `const`.
#[tactic(auto, using(crate::proofs::TypingLaws::joined_next, crate::proofs::TypingLaws::joined_nothing, crate::proofs::TypingLaws::joined_whole))]
pub(crate) fn typed_all(
    alloc: Global,
    t: &Tree,
    id: NodeId,
    declared: &[Declared<'_>],
) -> Result<Vec<Prop>, Stop>
    requires { id < length t.now.nodes }
    ensures is { IfOk result (λ v. typed_all t.now.nodes id (map seen declared.now) ≡ Ok v.items) }
    ensures stop { IfErr result (IsStop (typed_all t.now.nodes id (map seen declared.now))) }
{
    let okay = t.is_okay(id);
    let mut props = Vec::new(alloc);
    for property in declared {
        let prop = typed_one(alloc, t, okay, property, t.prop(id, property.name))?;
        push_some(&mut props, prop)?;
    }
    Ok(props)
}

fn push_some(props: &mut Vec<Prop>, prop: Option<Prop>) -> Result<(), AllocError>
    ensures { OnOk result (props.new.items ≡ props.old.items ++ option_to_list prop) }
{
    match prop {
        Some(prop) => {
            props.push(prop)?;
            Ok(())
        }
        None => Ok(()),
    }
}

// A declared property of a node; None where it isn't written and has no default.
fn typed_one(
    alloc: Global,
    t: &Tree,
    okay: bool,
    declared: &Declared<'_>,
    value: Option<&PropVal>,
) -> Result<Option<Prop>, Stop>
    ensures is { IfOk result (λ p. typed_one t.now.nodes okay (seen declared.now)
        (option_map (λ v. v.now) value.entry) ≡ Ok (option_to_list p)) }
    ensures stop { IfErr result (IsStop (typed_one t.now.nodes okay (seen declared.now)
        (option_map (λ v. v.now) value.entry))) }
{
    match value {
        Some(value) => {
            let val = written(alloc, t, declared.ty, value)?;
            Ok(Some(with_value(alloc, declared, val)?))
        }
        None if okay && declared.required => Err(Stop::Broken(Rule::V10)),
        None => match unwritten(alloc, declared)? {
            Some(val) => Ok(Some(with_value(alloc, declared, val)?)),
            None => Ok(None),
        },
    }
}

// The value of a property that isn't written: its default; a boolean's is 0.
fn unwritten(alloc: Global, declared: &Declared<'_>) -> Result<Option<Val>, AllocError>
    ensures { IfOk result (λ v. option_map val_data v
        ≡ unwritten declared.now.ty (seen declared.now).default) }
{
    match (declared.ty, declared.default) {
        (PropType::Boolean, _) => Ok(Some(Val::Bool(false))),
        (ty, Some(default)) => given(alloc, ty, default),
        (_, None) => Ok(None),
    }
}

// The property with its value, which is tested against `enum` and `const`.
fn with_value(alloc: Global, declared: &Declared<'_>, val: Val) -> Result<Prop, Stop>
    ensures is { IfOk result (λ p. with_value (seen declared.now) (val_data val) ≡ Ok p) }
    ensures stop { IfErr result (IsStop (with_value (seen declared.now) (val_data val))) }
{
    let Some(choices) = choices_in(alloc, declared.choices, &val)? else {
        return Err(Stop::Broken(Rule::V13));
    };
    if !is_as_wanted(alloc, declared, &val)? {
        return Err(Stop::Broken(Rule::V14));
    }
    Ok(Prop {
        name: Text::new(String::from_str(alloc, declared.name)?),
        ty: declared.ty,
        val,
        choices,
    })
}

// The choices of a value, of which there are none without `enum`; None where a tested value is no
// entry.
fn choices_in(
    alloc: Global,
    entries: Option<&[Yaml]>,
    val: &Val,
) -> Result<Option<Choices>, AllocError>
    ensures { IfOk result (λ v. option_map (λ c. c.items) v
        ≡ choices_in (option_map (λ e. map value_of e.now) entries.entry) (val_data val.now)) }
{
    match entries {
        Some(entries) => choices_of(alloc, entries, val),
        None => Ok(Some(Vec::new(alloc))),
    }
}

// Whether a value is `const`, where the binding has one.
fn is_as_wanted(alloc: Global, declared: &Declared<'_>, val: &Val) -> Result<bool, AllocError>
    ensures { IfOk result (λ is. is ≡ option_map_or
        (λ c. is_constant declared.now.ty c (val_data val.now)) (seen declared.now).constant true) }
{
    match declared.constant {
        Some(wanted) => is_constant(alloc, declared.ty, wanted, val),
        None => Ok(true),
    }
}
