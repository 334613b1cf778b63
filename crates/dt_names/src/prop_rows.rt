//! The definitions of a node on its properties.

ghost use Rattle.std.specs.Prelude.{◌≡◌, ◌∷◌, [], option_map, unwrap_or, MatchBool};
ghost use Rattle.std.specs.List.{flat_map};
ghost use Rattle.std.specs.Option.{option_map_or};
ghost use Rattle.edt_base.specs.Nodes.{path_at};
ghost use Rattle.dt_names.specs.Inner.Rows.{body_pieces};
ghost use Rattle.dt_names.specs.Inner.Groups.{shown_as};
ghost use Rattle.dt_names.specs.declared.piece.Params.TheVariants.{Plain};
ghost use Rattle.dt_names.specs.Facts.{choice_lines, choice_of, count_facts, counted, each, elem_lines, elements, elem_choices, is_compound, is_shown, is_uncounted, of_prop, plain, prop_facts, shown_facts, there, value_body};

use crate::elem_rows::{ElemRows, choice_rows};
use crate::elems::{elem_count, elems_of};
use crate::fact::{Fact, Queue, Single};
use crate::list::Values;
use crate::piece::Piece;
use crate::row::{At, Body, Ending, Things};
use crate::rows::{number, plain, walks};
use crate::word::Name;
use edt_base::{Bound, Prop, PropType, Text, Val};
use std::marker::Model;

/// The definitions on a property that are left.
#[derive(Drop)]
pub(crate) struct PropRows<'a> {
    value: Single<'a>,
    choice: Queue<'a>,
    elems: ElemRows<'a>,
    counts: CountRows<'a>,
    exists: Single<'a>,
}

impl<'a> Model for PropRows<'a> {
    ghost use Rattle.std.specs.Prelude.{◌++◌, List};
    ghost use Rattle.dt_names.specs.Facts.{FactData};

    ghost Value = { List FactData };

    ghost view = { λ s. s.value ++ (s.choice ++ (s.elems ++ (s.counts ++ s.exists))) };
}

impl<'a> PropRows<'a> {
    // Those of a property that makes definitions.
    fn new(bound: &'a Bound, n: u32, prop: &'a Prop) -> PropRows<'a>
        ensures { result
            ≡ shown_facts bound.now.tree.nodes n (path_at bound.now.tree.nodes n) prop.now }
    {
        PropRows::of(bound, n, Name::new(name_of(prop)), prop)
    }

    // The same, where its name's form is counted.
    fn of(bound: &'a Bound, n: u32, name: Name<'a>, prop: &'a Prop) -> PropRows<'a>
        ensures { result
            ≡ shown_as bound.now.tree.nodes n (path_at bound.now.tree.nodes n) name.entry.text.now
            prop.now }
    {
        PropRows {
            value: value_row(bound, n, name, prop),
            choice: prop_choice(bound, n, name, prop),
            elems: prop_elems(bound, n, name, prop),
            counts: prop_counts(bound, n, name, prop),
            exists: Single::new(
                bound,
                Some(number(n, At::Prop(name), Ending::Mark("_EXISTS"), 1)),
            ),
        }
    }

    /// Puts the next definition into `fact`; false exactly where none is left.
    pub(crate) fn next(&mut self, fact: &mut Fact<'a>) -> bool
        ensures { MatchBool result (self.old ≡ fact.new ∷ self.new) ((self.old ≡ [])
            × (self.new ≡ [])) }
    {
        if self.value.next(fact) {
            return true;
        }
        if self.choice.next(fact) {
            return true;
        }
        if self.elems.next(fact) {
            return true;
        }
        if self.counts.next(fact) {
            return true;
        }
        self.exists.next(fact)
    }
}

/// The definitions on the number of a property's elements that are left, with the walks over them.
#[derive(Drop)]
struct CountRows<'a> {
    len: Single<'a>,
    walks: Queue<'a>,
}

impl<'a> Model for CountRows<'a> {
    ghost use Rattle.std.specs.Prelude.{◌++◌, List};
    ghost use Rattle.dt_names.specs.Facts.{FactData};

    ghost Value = { List FactData };

    ghost view = { λ s. s.len ++ s.walks };
}

impl<'a> CountRows<'a> {
    fn none(bound: &'a Bound) -> CountRows<'a>
        ensures { result ≡ [] }
    {
        CountRows {
            len: Single::new(bound, None),
            walks: Queue::none(bound),
        }
    }

    // Those of so many elements.
    fn new(bound: &'a Bound, n: u32, name: Name<'a>, count: usize) -> CountRows<'a>
        ensures { result
            ≡ count_facts n (path_at bound.now.tree.nodes n) name.entry.text.now count }
    {
        let at = At::Prop(name);
        CountRows {
            len: Single::new(
                bound,
                Some(number(n, at, Ending::Mark("_LEN"), count as u128)),
            ),
            walks: walks(
                bound,
                n,
                at,
                "_FOREACH_PROP_ELEM",
                Things::Elems(name, count),
            ),
        }
    }

    fn next(&mut self, fact: &mut Fact<'a>) -> bool
        ensures { MatchBool result (self.old ≡ fact.new ∷ self.new) ((self.old ≡ [])
            × (self.new ≡ [])) }
    {
        if self.len.next(fact) {
            return true;
        }
        self.walks.next(fact)
    }
}

// The choice of an int or a string.
fn prop_choice<'a>(bound: &'a Bound, n: u32, name: Name<'a>, prop: &'a Prop) -> Queue<'a>
    ensures { result
        ≡ option_map_or (choice_lines n (path_at bound.now.tree.nodes n)
        (of_prop name.entry.text.now [])) (choice_of prop.now.choices prop.now.val) [] }
{
    choice_rows(bound, n, At::Prop(name), first_choice(prop))
}

// The elements.
fn prop_elems<'a>(bound: &'a Bound, n: u32, name: Name<'a>, prop: &'a Prop) -> ElemRows<'a>
    ensures { result
        ≡ each (elem_lines bound.now.tree.nodes n (path_at bound.now.tree.nodes n)
        name.entry.text.now (elem_choices prop.now.choices prop.now.val)) 0
        (elements prop.now.ty prop.now.val) }
{
    ElemRows::new(bound, n, name, elem_choices(prop), elems_of(prop))
}

// The number of the elements, where they are counted.
fn prop_counts<'a>(bound: &'a Bound, n: u32, name: Name<'a>, prop: &'a Prop) -> CountRows<'a>
    ensures { result
        ≡ option_map_or (count_facts n (path_at bound.now.tree.nodes n) name.entry.text.now)
        (counted prop.now) [] }
{
    match counted(prop) {
        Some(count) => CountRows::new(bound, n, name, count),
        None => CountRows::none(bound),
    }
}

fn name_of(prop: &Prop) -> &[u8]
    ensures { result.now ≡ prop.now.name }
{
    prop.name.as_str().as_bytes()
}

// The value, where it is one thing.
fn value_row<'a>(bound: &'a Bound, n: u32, name: Name<'a>, prop: &'a Prop) -> Single<'a>
    ensures { result
        ≡ there (option_map
        (λ body. plain n (path_at bound.now.tree.nodes n) (of_prop name.entry.text.now []) body)
        (value_body bound.now.tree.nodes prop.now.val)) }
{
    match &prop.val {
        Val::Bool(truth) => {
            let truth = if *truth { 1 } else { 0 };
            value_of(bound, n, name, Body::One(Piece::Num(truth)))
        }
        Val::Int(int) => value_of(bound, n, name, Body::One(Piece::Num(*int as u128))),
        Val::Str(text) => value_of(
            bound,
            n,
            name,
            Body::One(Piece::Str(text.as_str().as_bytes())),
        ),
        Val::Ints(ints) => value_of(bound, n, name, Body::Braces(Values::Ints(ints.as_slice()))),
        Val::U8s(bytes) => value_of(
            bound,
            n,
            name,
            Body::Braces(Values::Bytes(bytes.as_slice())),
        ),
        Val::Strs(texts) => value_of(
            bound,
            n,
            name,
            Body::Braces(Values::Texts(texts.as_slice())),
        ),
        Val::Node(node) => value_of(bound, n, name, Body::Id(node.0 as usize)),
        Val::Nodes(_) => Single::new(bound, None),
        Val::Entries(_) => Single::new(bound, None),
        Val::Compound => Single::new(bound, None),
    }
}

fn value_of<'a>(bound: &'a Bound, n: u32, name: Name<'a>, body: Body<'a>) -> Single<'a>
    ensures { result
        ≡ plain n (path_at bound.now.tree.nodes n) (of_prop name.entry.text.now [])
        (body_pieces bound.now.tree.nodes n Plain body.entry) ∷ [] }
{
    Single::new(bound, Some(plain(n, At::Prop(name), Ending::Nothing, body)))
}

fn first_choice(prop: &Prop) -> Option<&(u32, Text)>
    ensures { option_map (λ c. c.now) result ≡ choice_of prop.now.choices prop.now.val }
{
    match &prop.val {
        Val::Int(_) => prop.choices.get(0),
        Val::Str(_) => prop.choices.get(0),
        _ => None,
    }
}

// The choices of the elements; that of a string stands behind the property.
fn elem_choices(prop: &Prop) -> &[(u32, Text)]
    ensures { result.now ≡ elem_choices prop.now.choices prop.now.val }
{
    match &prop.val {
        Val::Str(_) => &[],
        _ => prop.choices.as_slice(),
    }
}

// How many elements are counted.
fn counted(prop: &Prop) -> Option<usize>
    ensures { result ≡ counted prop.now }
{
    if is_uncounted(prop.name.as_str()) {
        return None;
    }
    elem_count(elems_of(prop))
}

// The elements of a property of this name are counted otherwise.
fn is_uncounted(name: &str) -> bool
    ensures { result ≡ is_uncounted name.now }
{
    name == "reg" || name == "interrupts" || name == "ranges" || name == "dma-ranges"
}

// The property makes definitions.
fn is_shown(prop: &Prop) -> bool
    ensures { result ≡ is_shown prop.now }
{
    let name = prop.name.as_str().as_bytes();
    !name.starts_with(b"#") && !name.ends_with(b"-map") && !is_compound(prop.ty)
}

fn is_compound(ty: PropType) -> bool
    ensures { result ≡ is_compound ty }
{
    match ty {
        PropType::Compound => true,
        _ => false,
    }
}

/// The definitions on a property, where it makes some.
pub(crate) fn shown<'a>(bound: &'a Bound, n: u32, prop: &'a Prop) -> Option<PropRows<'a>>
    ensures { unwrap_or result []
        ≡ prop_facts bound.now.tree.nodes n (path_at bound.now.tree.nodes n) prop.now }
{
    if is_shown(prop) {
        return Some(PropRows::new(bound, n, prop));
    }
    None
}

// Puts the definitions on a property in the place of others. Apart from `next`, which needn't hold
// room for them.
#[inline(never)]
fn begin_prop<'a>(rows: &mut Option<PropRows<'a>>, bound: &'a Bound, n: u32, prop: &'a Prop)
    ensures { unwrap_or rows.new []
        ≡ prop_facts bound.now.tree.nodes n (path_at bound.now.tree.nodes n) prop.now }
{
    *rows = shown(bound, n, prop);
}

/// The definitions on a node's properties that are left.
#[derive(Drop)]
pub(crate) struct PropsRows<'a> {
    bound: &'a Bound,
    owner: u32,
    prop: Option<PropRows<'a>>,
    rest: &'a [Prop],
}

impl<'a> Model for PropsRows<'a> {
    ghost use Rattle.std.specs.Prelude.{◌++◌, [], List, unwrap_or};
    ghost use Rattle.std.specs.List.{flat_map};
    ghost use Rattle.edt_base.specs.Nodes.{path_at};
    ghost use Rattle.dt_names.specs.Facts.{FactData, prop_facts};

    ghost Value = { List FactData };

    ghost view = { λ s. unwrap_or s.prop [] ++ flat_map
        (prop_facts s.bound.now.tree.nodes s.owner (path_at s.bound.now.tree.nodes s.owner))
        s.rest.now };
}

impl<'a> PropsRows<'a> {
    /// Those of the node n.
    pub(crate) fn new(bound: &'a Bound, n: u32, props: &'a [Prop]) -> PropsRows<'a>
        ensures { result
            ≡ flat_map (prop_facts bound.now.tree.nodes n (path_at bound.now.tree.nodes n))
            props.now }
    {
        PropsRows {
            bound,
            owner: n,
            prop: None,
            rest: props,
        }
    }

    /// Puts the next definition into `fact`; false exactly where none is left.
    pub(crate) fn next(&mut self, fact: &mut Fact<'a>) -> bool
        ensures { MatchBool result (self.old ≡ fact.new ∷ self.new) ((self.old ≡ [])
            × (self.new ≡ [])) }
    {
        loop {
            if let Some(prop) = &mut self.prop {
                if prop.next(fact) {
                    return true;
                }
            }
            let Some((prop, rest)) = self.rest.split_first() else {
                return false;
            };
            begin_prop(&mut self.prop, self.bound, self.owner, prop);
            self.rest = rest;
        }
    }
}
