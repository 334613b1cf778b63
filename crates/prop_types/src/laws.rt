//! Laws of typed properties, each the contract of a function without a body.

ghost use Rattle.std.specs.Prelude.{◌≡◌, ℕ, All, List, Ok, Err, length};
ghost use Rattle.edt_base.specs.NodeData.{NodeData};
ghost use Rattle.edt_base.specs.PropData.{IsTyped, PropData};
ghost use Rattle.edt_base.specs.declared.fault.Rule.{Rule};
ghost use Rattle.prop_types.specs.Broken.{ArePropsOf, IsFirstBroken};
ghost use Rattle.prop_types.specs.Held.{DeclaredAreHeld};
ghost use Rattle.prop_types.specs.Typing.{DeclaredData, typed_all};

use bind_merge::views_show;

/// What the view of a merged binding declares, at each child-binding step, are the properties of
/// which its file holds a type along its includes, filters and child-bindings, in byte order of
/// their names; each setting is the one that the file holds.
pub fn declared_properties_are_held()
    ensures { DeclaredAreHeld }
{
    views_show();
}

/// Declared properties are typed exactly where none of them breaks a rule, and then they are in
/// order those that have a value, each with the value and its choices. Else the rule that is told
/// is broken by the first of them that breaks one, and is the first of V11, V20, V10, V13 and V14
/// that this one breaks, each said without the others.
pub fn declared_properties_are_typed()
    ensures typed { (nodes : List NodeData) (id : ℕ) (ds : List DeclaredData)
        (props : List PropData)
        → typed_all nodes id ds ≡ Ok props → ArePropsOf nodes id ds props }
    ensures each_typed { (nodes : List NodeData) (id : ℕ) (ds : List DeclaredData)
        (props : List PropData) → ArePropsOf nodes id ds props → typed_all nodes id ds ≡ Ok props }
    ensures broken { (nodes : List NodeData) (id : ℕ) (ds : List DeclaredData) (r : Rule)
        → typed_all nodes id ds ≡ Err r → IsFirstBroken nodes id ds r }
    ensures each_broken { (nodes : List NodeData) (id : ℕ) (ds : List DeclaredData) (r : Rule)
        → IsFirstBroken nodes id ds r → typed_all nodes id ds ≡ Err r }
{}

/// Typed properties keep what each property of a bound tree keeps: a value of the type, nodes that
/// are there, and no choices or one of each tested value.
pub fn typed_properties_are_whole()
    ensures { (nodes : List NodeData) (id : ℕ) (ds : List DeclaredData) (props : List PropData)
        → typed_all nodes id ds ≡ Ok props → All (IsTyped (length nodes)) props }
{}
