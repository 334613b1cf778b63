//! Numbers of several cells, and counts of cells.

ghost use Rattle.std.specs.Prelude.{◌≡◌, ◌+◌, ◌*◌, ◌%◌, ◌^◌, ◌≤◌, ◌<◌, IfSome, length, take, drop, option_map};
ghost use Rattle.std.specs.Int.{from_be_bytes, w32};
ghost use Rattle.edt_base.specs.Cells.{cells_of};
ghost use Rattle.edt_base.specs.NodeData.{bytes_of};
ghost use Rattle.reg_ranges.specs.Cutting.{first_number, some_number, up_to_four, counted, are_whole};

use edt_base::{Cells, Part, PropVal};

/// The number of so many cells, the big end first; of fewer at the end.
pub(crate) fn number(cells: &mut Cells<'_>, count: usize) -> u128
    requires { count ≤ 4 }
    ensures number { result ≡ first_number count (cells_of cells.old) }
    ensures rest { cells_of cells.new ≡ drop count (cells_of cells.old) }
{
    let mut number = 0;
    for _ in 0..count {
        let Some(cell) = cells.next() else {
            return number;
        };
        number = number * (1 << 32) + u128::from(cell);
    }
    number
}

/// The same; none of no cells.
pub(crate) fn some_number(cells: &mut Cells<'_>, count: usize) -> Option<u128>
    requires { count ≤ 4 }
    ensures number { result ≡ some_number count (cells_of cells.old) }
    ensures rest { cells_of cells.new ≡ drop count (cells_of cells.old) }
{
    if count == 0 {
        return None;
    }
    Some(number(cells, count))
}

/// The count of cells that a value gives, or this one where there is no value. `None` where the
/// value isn't one cell, or is more than 4.
pub(crate) fn cell_count(value: Option<&PropVal>, default: usize) -> Option<usize>
    ensures count { result ≡ counted default (option_map (λ v. v.now) value.entry) }
    ensures bound { default ≤ 4 → IfSome result (λ n. n ≤ 4) }
{
    match value {
        None => Some(default),
        Some(value) => up_to_four(value.single_cell()?),
    }
}

fn up_to_four(count: u32) -> Option<usize>
    ensures { result ≡ up_to_four count }
{
    if count <= 4 {
        Some(count as usize)
    } else {
        None
    }
}

/// Whether a value is whole entries of so many cells; of no cells, whether it is empty.
pub(crate) fn is_whole(parts: &[Part], cells: usize) -> bool
    requires { cells ≤ 12 }
    ensures { result ≡ are_whole cells (length (bytes_of parts.now)) }
{
    if cells == 0 {
        Cells::of(parts).is_at_end()
    } else {
        bytes_over(parts, 4 * cells) == 0
    }
}

/// The number of a value's bytes modulo another.
fn bytes_over(parts: &[Part], unit: usize) -> usize
    requires some { 0 < unit }
    requires few { unit < 100 }
    ensures { result ≡ length (bytes_of parts.now) % unit }
{
    let mut over = 0;
    for part in parts {
        over = (over + part.bytes.as_slice().len() % unit) % unit;
    }
    over
}
