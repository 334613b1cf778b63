//! The lines of definitions, and the comments before them.

ghost use Rattle.std.specs.Prelude.{◌≡◌, is_ok, option_map};
ghost use Rattle.dt_names.specs.Pieces.{spells};
ghost use Rattle.head_write.specs.Header.{body_text, entry_text, heading_text, line, params_text};
ghost use Rattle.edt_base.specs.Put.{Put};

use crate::entry::Entry;
use crate::text::{put_piece, put_pieces};
use dt_names::{Fact, Params, Pieces};
use edt_base::{Block, Sink, WriteFailed, put};

/// Puts the comment before a definition, and its line where it is no double.
pub(crate) fn put_entry<S: Sink>(
    out: &mut S,
    block: &mut Block,
    entry: &Entry<'_>,
) -> Result<(), WriteFailed>
    ensures { Put (S.seen out.old) (S.seen out.new) block.old block.new (entry_text entry.now)
        (is_ok result) }
{
    put_heading(out, block, entry.fact.heading())?;
    if entry.is_double {
        return Ok(());
    }
    put_line(out, block, &entry.fact)
}

#[tactic(auto, unfolding(crate::specs::Header::heading_text))]
// Puts the comment before a definition, where one stands there.
fn put_heading<S: Sink>(
    out: &mut S,
    block: &mut Block,
    heading: Option<&[u8]>,
) -> Result<(), WriteFailed>
    ensures { Put (S.seen out.old) (S.seen out.new) block.old block.new
        (heading_text (option_map (λ h. h.now) heading.entry)) (is_ok result) }
{
    let Some(title) = heading else {
        return Ok(());
    };
    put(out, block, b"/* ")?;
    put(out, block, title)?;
    put(out, block, b" */\n")
}

/// Puts the line of a definition.
pub(crate) fn put_line<S: Sink>(
    out: &mut S,
    block: &mut Block,
    fact: &Fact<'_>,
) -> Result<(), WriteFailed>
    ensures { Put (S.seen out.old) (S.seen out.new) block.old block.new (line fact.now)
        (is_ok result) }
{
    put(out, block, b"#define ")?;
    put_pieces(out, block, fact.name())?;
    put(out, block, params_text(fact.params()).as_bytes())?;
    put_body(out, block, fact.body())?;
    put(out, block, b"\n")
}

/// The parameters of a definition as text.
pub(crate) fn params_text(params: Params) -> &'static str
    ensures { result.now ≡ params_text params }
{
    match params {
        Params::Plain => "",
        Params::Fn => "(fn)",
        Params::FnSep => "(fn, sep)",
        Params::FnVargs => "(fn, ...)",
    }
}

// Puts a body with a space before it; nothing for an empty one.
fn put_body<S: Sink>(
    out: &mut S,
    block: &mut Block,
    mut body: Pieces<'_>,
) -> Result<(), WriteFailed>
    ensures { Put (S.seen out.old) (S.seen out.new) block.old block.new (body_text body.entry)
        (is_ok result) }
{
    match body.next() {
        None => Ok(()),
        Some(first) => {
            put(out, block, b" ")?;
            put_piece(out, block, first)?;
            put_pieces(out, block, body)
        }
    }
}
