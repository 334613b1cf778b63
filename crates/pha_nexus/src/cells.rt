//! Runs of cells in a value that is read cell by cell.

ghost use Rattle.std.specs.Prelude.{◌≡◌, ◌*◌, ◌<◌, ◌≤◌, IfOk, IfErr, Ok, true, false, drop, length, take};
ghost use Rattle.edt_base.specs.Cells.{cells_of};
ghost use Rattle.edt_base.specs.Refusals.{IsStop};
ghost use Rattle.pha_nexus.specs.Inner.Reading.{parent_cells};
ghost use Rattle.pha_nexus.specs.Rows.{are_same};

use edt_base::{Cells, Rule, Stop};
use std::alloc::Global;

/// Reads as many cells as these, and tells whether they are the same.
pub(crate) fn begin_with(cells: &mut Cells<'_>, wanted: &[u32]) -> bool
    ensures same { result ≡ are_same (take (length wanted.now) (cells_of cells.old)) wanted.now }
    ensures rest { cells.new ≡ drop (4 * length wanted.now) cells.old }
{
    let mut left = wanted;
    let mut are_same = true;
    while let Some((wanted, behind)) = left.split_first() {
        are_same = match cells.next() {
            Some(cell) => are_same && cell == *wanted,
            None => false,
        };
        left = behind;
    }
    are_same
}

/// Passes over so many cells, and tells whether they are there.
pub(crate) fn skip(cells: &mut Cells<'_>, count: usize) -> bool
    ensures there { result ≡ true → (cells.new ≡ drop (4 * count) cells.old)
        × (count ≤ length (cells_of cells.old)) }
    ensures short { result ≡ false → length (cells_of cells.old) < count }
{
    for _ in 0..count {
        let Some(_cell) = cells.next() else {
            return false;
        };
    }
    true
}

/// The parent cells of a row, so many; V26 where they aren't there.
pub(crate) fn parent_cells(
    alloc: Global,
    cells: &mut Cells<'_>,
    width: usize,
) -> Result<Vec<u32>, Stop>
    ensures cells { IfOk result (λ v. parent_cells width (cells_of cells.old) ≡ Ok v.items) }
    ensures stop { IfErr result (IsStop (parent_cells width (cells_of cells.old))) }
{
    let mut parent = Vec::new(alloc);
    for _ in 0..width {
        match cells.next() {
            Some(cell) => parent.push(cell)?,
            None => return Err(Stop::Broken(Rule::V26)),
        }
    }
    Ok(parent)
}
