//! Properties with their values in bytes.

ghost use Rattle.std.specs.Prelude.{◌≡◌, ◌++◌, ◌∷◌, [], None, IfOk, OnOk, ℕ, List, map, option_map};
ghost use Rattle.std.specs.Prelude.{slice_index_or};
ghost use Rattle.std.specs.List.{flat_map, IsDistinct};
ghost use Rattle.std.specs.Str.{bytes_eq};
ghost use Rattle.edt_base.specs.Cells.{cell_bytes};
ghost use Rattle.edt_base.specs.NodeData.{prop_of};
ghost use Rattle.dts_tree.specs.Drafts.{DraftPartData};
ghost use Rattle.dts_tree.specs.Final.{cell_value, path_at, part_of, prop_value, given_prop};
ghost use Rattle.dts_tree.specs.Final.{props_of, props_with};
ghost use Rattle.dts_tree.specs.Inner.DraftForm.{draft_part_data};
ghost use Rattle.dts_tree.specs.Inner.DraftRules.{AreDrafts};

use crate::draft::{Draft, DraftCell, DraftPart, DraftProp};
use crate::phandles::draft_prop;
use edt_base::{Bytes, Kind, Part, PropVal, Text};
use indexmap::IndexMap;
use std::alloc::{AllocError, Global};
use std::marker::Model;

/// The properties of a node, in order.
#[derive(Drop)]
pub(crate) struct Props {
    pub(crate) map: IndexMap<Text, PropVal>,
}

impl Model for Props {
    ghost use Rattle.std.specs.Prelude.{ℕ, List};
    ghost use Rattle.edt_base.specs.declared.node.Part.{Part};

    ghost Value = { List (List ℕ × List Part) };

    ghost view = { λ p. p.map.entries };
}

impl Props {
    fn new(alloc: Global) -> Props
        ensures { result ≡ [] }
    {
        Props {
            map: IndexMap::new(alloc),
        }
    }

    // One more, whose name none has.
    #[tactic(auto, using(crate::proofs::PropLaws::insert_new))]
    fn add(&mut self, name: Text, value: PropVal) -> Result<(), AllocError>
        requires { prop_of name self.old ≡ None }
        ensures { OnOk result (self.new ≡ self.old ++ (name, value) ∷ []) }
    {
        let _ = self.map.insert(name, value)?;
        Ok(())
    }

    /// The value of the property of this name.
    pub(crate) fn get(&self, name: &str) -> Option<&PropVal>
        ensures { option_map (λ v. v.now) result ≡ prop_of name.now self.now }
    {
        for (key, value) in self.map.iter() {
            if key.as_str() == name {
                return Some(value);
            }
        }
        None
    }
}

/// Each node's properties, where the nodes have these phandles.
pub(crate) fn all_props(
    alloc: Global,
    drafts: &[Draft],
    numbers: &[Option<u32>],
) -> Result<Vec<Props>, AllocError>
    requires { AreDrafts drafts.now }
    ensures { IfOk result (λ v. v.items ≡ props_with drafts.now numbers.now) }
{
    let mut all = Vec::new(alloc);
    for (place, draft) in drafts.iter().enumerate() {
        all.push(props_of(alloc, drafts, numbers, draft, number_of(numbers, place))?)?;
    }
    Ok(all)
}

fn number_of(numbers: &[Option<u32>], place: usize) -> Option<u32>
    ensures { result ≡ slice_index_or numbers.now place None }
{
    match numbers.get(place) {
        Some(number) => *number,
        None => None,
    }
}

fn props_of(
    alloc: Global,
    drafts: &[Draft],
    numbers: &[Option<u32>],
    draft: &Draft,
    number: Option<u32>,
) -> Result<Props, AllocError>
    requires { IsDistinct bytes_eq
        (map (λ (p : List ℕ × List DraftPartData). p.0) draft.now.props) }
    ensures { IfOk result (λ p. p ≡ props_of drafts.now numbers.now draft.now number) }
{
    let mut props = written_props(alloc, drafts, numbers, draft.props.as_slice())?;
    match number {
        Some(n) => match draft_prop(draft.props.as_slice(), "phandle") {
            Some(_) => {}
            None => props.add(text(alloc, "phandle")?, cell_value(alloc, n)?)?,
        },
        None => {}
    }
    Ok(props)
}

fn written_props(
    alloc: Global,
    drafts: &[Draft],
    numbers: &[Option<u32>],
    props: &[DraftProp],
) -> Result<Props, AllocError>
    requires { IsDistinct bytes_eq (map (λ (p : List ℕ × List DraftPartData). p.0) props.now) }
    ensures { IfOk result (λ p. p ≡ map (prop_value drafts.now numbers.now) props.now) }
{
    let mut written = Props::new(alloc);
    for prop in props {
        let value = value_of(alloc, drafts, numbers, prop.parts.as_slice())?;
        written.add(prop.name.copy(alloc)?, value)?;
    }
    Ok(written)
}

fn value_of(
    alloc: Global,
    drafts: &[Draft],
    numbers: &[Option<u32>],
    parts: &[DraftPart],
) -> Result<PropVal, AllocError>
    ensures { IfOk result
        (λ v. v ≡ map (part_of drafts.now numbers.now) (map draft_part_data parts.now)) }
{
    let mut made = Vec::new(alloc);
    for part in parts {
        made.push(part_of(alloc, drafts, numbers, part)?)?;
    }
    Ok(PropVal { parts: made })
}

fn part_of(
    alloc: Global,
    drafts: &[Draft],
    numbers: &[Option<u32>],
    part: &DraftPart,
) -> Result<Part, AllocError>
    ensures { IfOk result (λ p. p ≡ part_of drafts.now numbers.now (draft_part_data part.now)) }
{
    match part {
        DraftPart::Ready(part) => Ok(Part {
            kind: part.kind,
            bytes: part.bytes.copy(alloc)?,
        }),
        DraftPart::Mixed(cells) => Ok(Part {
            kind: Kind::Cells,
            bytes: bytes_of(alloc, numbers, cells.as_slice())?,
        }),
        DraftPart::PathTo(place) => Ok(Part {
            kind: Kind::Path,
            bytes: path_bytes(alloc, drafts, *place)?,
        }),
    }
}

fn bytes_of(
    alloc: Global,
    numbers: &[Option<u32>],
    cells: &[DraftCell],
) -> Result<Bytes, AllocError>
    ensures { IfOk result
        (λ b. b ≡ flat_map (λ c. cell_bytes (cell_value numbers.now c)) cells.now) }
{
    let mut bytes = Vec::new(alloc);
    for cell in cells {
        let n = number(numbers, cell);
        bytes.extend_from_slice(&n.to_be_bytes())?;
    }
    Ok(Bytes::new(bytes))
}

fn number(numbers: &[Option<u32>], cell: &DraftCell) -> u32
    ensures { result ≡ cell_value numbers.now cell.now }
{
    match cell {
        DraftCell::Num(n) => *n,
        DraftCell::Ref(Some(place)) => number_of(numbers, *place).unwrap_or(0),
        DraftCell::Ref(None) => 0,
    }
}

// The path of a node with a zero after it.
fn path_bytes(alloc: Global, drafts: &[Draft], place: Option<usize>) -> Result<Bytes, AllocError>
    ensures { IfOk result (λ b. b ≡ path_at drafts.now place ++ 0 ∷ []) }
{
    let mut bytes = Vec::from_slice(alloc, path_of(drafts, place).as_bytes())?;
    bytes.push(0)?;
    Ok(Bytes::new(bytes))
}

fn path_of(drafts: &[Draft], place: Option<usize>) -> &str
    ensures { result.now ≡ path_at drafts.now place }
{
    match place {
        Some(place) => match drafts.get(place) {
            Some(draft) => draft.path.as_str(),
            None => "",
        },
        None => "",
    }
}

/// A value of one cell.
fn cell_value(alloc: Global, n: u32) -> Result<PropVal, AllocError>
    ensures { IfOk result (λ v. v ≡ (given_prop n).1) }
{
    let mut parts = Vec::new(alloc);
    parts.push(Part {
        kind: Kind::Cells,
        bytes: Bytes::new(Vec::from_slice(alloc, &n.to_be_bytes())?),
    })?;
    Ok(PropVal { parts })
}

/// A text of these bytes.
pub(crate) fn text(alloc: Global, s: &str) -> Result<Text, AllocError>
    ensures { IfOk result (λ t. t ≡ s.now) }
{
    Ok(Text::new(String::from_str(alloc, s)?))
}
