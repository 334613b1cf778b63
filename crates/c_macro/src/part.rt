//! The parts of a body (ISO C, 6.10.3.2 and 6.10.3.3).

ghost use Rattle.std.specs.Prelude.{◌≡◌, ◌∷◌, ◌+◌, ◌≤◌, ◌<◌, Bool, IfOk, option_map, length, map, drop, false, Some, None, ◌&&◌, ◌||◌, not, if◌then◌else◌};
ghost use Rattle.c_macro.specs.Directive.{all_params, is_va_args};
ghost use Rattle.c_macro.specs.Bodies as bodies;
ghost use Rattle.c_macro.specs.Bodies.{place_of, param_of, is_join, join_next, plain_part, text_of, parts};
ghost use Rattle.c_macro.specs.Pending.{part_data};
ghost use Rattle.c_macro.specs.Reading.{read_data};

use crate::places::Places;
use crate::tokens::{copy_tok, is_punct};
use c_tokens::Tok;
use edt_base::Text;
use std::alloc::{AllocError, Global};

/// A part of a body.
#[derive(Debug, Drop)]
pub(crate) enum Part {
    /// A token of the body.
    Own(Tok),
    /// `##` between two sides.
    Join,
    /// `#` and a parameter, by its number; whether white space stands before it.
    Text(bool, usize),
    /// A parameter beside a `##`.
    Written(bool, usize),
    /// A parameter elsewhere.
    Full(bool, usize),
}

/// A part of a body that is being read.
#[derive(Clone, Copy)]
enum ReadPart<'a> {
    Own(&'a Tok),
    Join,
    Text(bool, usize),
    Written(bool, usize),
    Full(bool, usize),
}

/// A part that was read, to be kept. The one error is want of memory.
fn kept(alloc: Global, part: ReadPart<'_>) -> Result<Part, AllocError>
    ensures { IfOk result (λ p. part_data p ≡ read_data part.entry) }
{
    match part {
        ReadPart::Own(tok) => Ok(Part::Own(copy_tok(alloc, tok)?)),
        ReadPart::Join => Ok(Part::Join),
        ReadPart::Text(spaced, number) => Ok(Part::Text(spaced, number)),
        ReadPart::Written(spaced, number) => Ok(Part::Written(spaced, number)),
        ReadPart::Full(spaced, number) => Ok(Part::Full(spaced, number)),
    }
}

/// Whether a token is a `##` that joins, and not the right side of one.
fn joins(tok: &Tok, right: bool) -> bool
    ensures { result ≡ (is_join tok.now && not right) }
{
    is_join(tok) && !right
}

/// Whether a token is a side of a `##`.
fn is_side(right: bool, next: &Tok) -> bool
    ensures { result ≡ (right || is_join next.now) }
{
    right || is_join(next)
}

fn is_join(tok: &Tok) -> bool
    ensures { result ≡ is_join tok.now }
{
    is_punct("##", tok)
}

/// The number of the parameter of which a `#` makes a string.
fn text_of(calls: bool, places: &Places, t: &Tok, u: &Tok) -> Option<usize>
    ensures { result ≡ text_of calls places.now t.now u.now }
{
    if calls && is_punct("#", t) {
        places.number(u)
    } else {
        None
    }
}

fn plain_part<'a>(joined: bool, tok: &'a Tok, param: Option<usize>) -> ReadPart<'a>
    ensures { read_data result ≡ plain_part joined tok.now param }
{
    match param {
        None => ReadPart::Own(tok),
        Some(i) if joined => ReadPart::Written(tok.spaced, i),
        Some(i) => ReadPart::Full(tok.spaced, i),
    }
}

/// The part that begins with a token, what is left behind it, and whether it was a `##`.
fn next_part<'a>(
    calls: bool,
    places: &Places,
    right: bool,
    tok: &'a Tok,
    rest: &'a [Tok],
) -> (ReadPart<'a>, &'a [Tok], bool)
    ensures part { parts calls places.now right (tok.now ∷ rest.now) ≡ read_data result.0 ∷ parts calls places.now result.2 result.1.now }
    ensures shorter { length result.1.now ≤ length rest.now }
{
    if joins(tok, right) {
        return (ReadPart::Join, rest, true);
    }
    let Some((next, behind)) = rest.split_first() else {
        return (plain_part(right, tok, places.number(tok)), rest, false);
    };
    if let Some(i) = text_of(calls, places, tok, next) {
        return (ReadPart::Text(tok.spaced, i), behind, false);
    }
    (
        plain_part(is_side(right, next), tok, places.number(tok)),
        rest,
        false,
    )
}

/// The parts of a body. The one error is want of memory.
pub(crate) fn parts(
    alloc: Global,
    calls: bool,
    names: &[Text],
    variadic: bool,
    body: &[Tok],
) -> Result<Vec<Part>, AllocError>
    ensures { IfOk result (λ v. map part_data v.items ≡ parts calls (all_params names.now variadic) false body.now) }
{
    let places = Places::of(alloc, names, variadic)?;
    let made = parts_by(alloc, calls, &places, body)?;
    Ok(made)
}

fn parts_by(
    alloc: Global,
    calls: bool,
    places: &Places,
    body: &[Tok],
) -> Result<Vec<Part>, AllocError>
    ensures { IfOk result (λ v. map part_data v.items ≡ parts calls places.now false body.now) }
{
    let mut made = Vec::with_capacity(alloc, body.len())?;
    let mut left = body;
    let mut right = false;
    while let Some((tok, rest)) = left.split_first() {
        let (part, behind, join) = next_part(calls, places, right, tok, rest);
        made.push(kept(alloc, part)?)?;
        left = behind;
        right = join;
    }
    Ok(made)
}
