//! The tree of drafts, or the first rule that a node breaks.

ghost use Rattle.std.specs.Prelude.{◌≡◌, ◌≤◌, None, IfOk, codes, find, length, map, option_map};
ghost use Rattle.std.specs.List.{filter_map, list_any};
ghost use Rattle.dts_tree.specs.Final.{all_props, naming_prop, props_at, tree_of};
ghost use Rattle.dts_tree.specs.Rules.{cell_dangles, dangles, first_bad_phandle, first_mistyped};
ghost use Rattle.dts_tree.specs.Rules.{has_bad_alias, part_dangles};
ghost use Rattle.dts_tree.specs.Outcome.{numbered_or, settled};
ghost use Rattle.dts_tree.specs.References.{Answers};
ghost use Rattle.dts_tree.specs.Inner.DraftForm.{draft_part_data};
ghost use Rattle.dts_tree.specs.Inner.DraftRules.{AreDrafts};
ghost use Rattle.dts_tree.specs.Inner.Nodes.{AreNumbered};

use crate::draft::{Draft, DraftCell, DraftPart};
use crate::faults::fault;
use crate::named::{is_one_nameless_at, named_at, paths_of};
use crate::nodes::{children_of, is_mistyped, nodes};
use crate::phandles::{first_bad_phandle, phandles};
use crate::values::{Props, all_props};
use edt_base::{End, NodeId, Rule, Text, Tree};
use std::alloc::{AllocError, Global};

/// The tree, or the first rule that a node breaks.
pub(crate) fn finish(alloc: Global, drafts: Vec<Draft>) -> Result<Tree, End>
    requires { AreDrafts drafts.items }
    ensures { Answers (settled drafts.items) result }
{
    match first_dangling(drafts.as_slice()) {
        Some(draft) => return Err(fault(alloc, Rule::V1, draft.path.as_str())),
        None => {}
    }
    match first_bad_phandle(alloc, drafts.as_slice())? {
        Some(draft) => return Err(fault(alloc, Rule::V2, draft.path.as_str())),
        None => {}
    }
    numbered(alloc, drafts)
}

// The tree of drafts whose references and phandles are good.
fn numbered(alloc: Global, drafts: Vec<Draft>) -> Result<Tree, End>
    requires { AreNumbered drafts.items }
    ensures { Answers (numbered_or drafts.items None) result }
{
    let all = properties(alloc, drafts.as_slice())?;
    let names = names(alloc, drafts.as_slice(), all.as_slice())?;
    if names.is_one_nameless {
        return Err(fault(alloc, Rule::V3, "/aliases"));
    }
    match first_mistyped(drafts.as_slice(), all.as_slice()) {
        Some(draft) => return Err(fault(alloc, Rule::V11, draft.path.as_str())),
        None => {}
    }
    Ok(tree(alloc, drafts, all, names)?)
}

// Each node's properties, its phandle among them.
#[tactic(auto, unfolding(crate::specs::Final::all_props))]
fn properties(alloc: Global, drafts: &[Draft]) -> Result<Vec<Props>, AllocError>
    requires { AreDrafts drafts.now }
    ensures { IfOk result (λ v. v.items ≡ all_props drafts.now) }
{
    let numbers = phandles(alloc, drafts)?;
    all_props(alloc, drafts, numbers.as_slice())
}

// The nodes that `/aliases` and `/chosen` name, and whether a property of `/aliases` names none.
#[derive(Drop)]
struct Named {
    aliases: Vec<(Text, NodeId)>,
    chosen: Vec<(Text, NodeId)>,
    is_one_nameless: bool,
}

fn names(alloc: Global, drafts: &[Draft], all: &[Props]) -> Result<Named, AllocError>
    requires { length drafts.now ≤ 65535 }
    ensures aliases { IfOk result
        (λ n. n.aliases.items ≡ filter_map (naming_prop drafts.now)
        (props_at drafts.now all.now (codes "/aliases"))) }
    ensures chosen { IfOk result
        (λ n. n.chosen.items ≡ filter_map (naming_prop drafts.now)
        (props_at drafts.now all.now (codes "/chosen"))) }
    ensures nameless { IfOk result (λ n. n.is_one_nameless ≡ has_bad_alias drafts.now all.now) }
{
    let paths = paths_of(alloc, drafts)?;
    let aliases = named_at(alloc, &paths, all, "/aliases")?;
    let chosen = named_at(alloc, &paths, all, "/chosen")?;
    Ok(Named {
        aliases,
        chosen,
        is_one_nameless: is_one_nameless_at(&paths, all, "/aliases"),
    })
}

// The tree of drafts with these properties and names.
fn tree(
    alloc: Global,
    drafts: Vec<Draft>,
    all: Vec<Props>,
    names: Named,
) -> Result<Tree, AllocError>
    requires numbered { AreNumbered drafts.items }
    requires props { all.items ≡ all_props drafts.items }
    requires aliases { names.aliases.items
        ≡ filter_map (naming_prop drafts.items)
        (props_at drafts.items (all_props drafts.items) (codes "/aliases")) }
    requires chosen { names.chosen.items
        ≡ filter_map (naming_prop drafts.items)
        (props_at drafts.items (all_props drafts.items) (codes "/chosen")) }
    ensures { IfOk result (λ t. t ≡ tree_of drafts.items) }
{
    let children = children_of(alloc, drafts.as_slice())?;
    let nodes = nodes(alloc, drafts, all, children)?;
    let Named {
        aliases,
        chosen,
        is_one_nameless: _,
    } = names;
    Tree::new(alloc, nodes, aliases, chosen)
}

// The first node with a reference that names no node that is left.
fn first_dangling(drafts: &[Draft]) -> Option<&Draft>
    ensures { option_map (λ d. d.now) result ≡ find dangles drafts.now }
{
    drafts.iter().find(|draft| dangles(draft))
}

fn dangles(draft: &Draft) -> bool
    ensures { result ≡ dangles draft.now }
{
    draft
        .props
        .as_slice()
        .iter()
        .any(|prop| value_dangles(prop.parts.as_slice()))
}

fn value_dangles(parts: &[DraftPart]) -> bool
    ensures { result ≡ list_any part_dangles (map draft_part_data parts.now) }
{
    for part in parts {
        if part_dangles(part) {
            return true;
        }
    }
    false
}

fn part_dangles(part: &DraftPart) -> bool
    ensures { result ≡ part_dangles (draft_part_data part.now) }
{
    match part {
        DraftPart::Ready(_) => false,
        DraftPart::Mixed(cells) => one_dangles(cells.as_slice()),
        DraftPart::PathTo(place) => place.is_none(),
    }
}

fn one_dangles(cells: &[DraftCell]) -> bool
    ensures { result ≡ list_any cell_dangles cells.now }
{
    for cell in cells {
        if cell_dangles(cell) {
            return true;
        }
    }
    false
}

fn cell_dangles(cell: &DraftCell) -> bool
    ensures { result ≡ cell_dangles cell.now }
{
    match cell {
        DraftCell::Num(_) => false,
        DraftCell::Ref(place) => place.is_none(),
    }
}

// The first node whose `compatible` or `status` is mistyped.
fn first_mistyped<'d>(drafts: &'d [Draft], all: &[Props]) -> Option<&'d Draft>
    requires { length all.now ≡ length drafts.now }
    ensures { option_map (λ d. d.now) result ≡ first_mistyped drafts.now all.now }
{
    for (place, props) in all.iter().enumerate() {
        if is_mistyped(props) {
            return drafts.get(place);
        }
    }
    None
}
