//! The length of the header, without writing it.

ghost use Rattle.std.specs.Prelude.{◌≡◌, ◌-◌, ◌^◌, length, min, option_map};
ghost use Rattle.dt_names.specs.Inner.Lengths.{spelled_size};
ghost use Rattle.head_write.specs.Header.{body_text, entry_text, header_text, heading_text, line};

use crate::entry::{Entries, Entry};
use crate::line::params_text;
use dt_names::{Fact, Pieces};
use edt_base::Bound;

#[tactic(auto, unfolding(crate::specs::Header::header_text))]
/// The length of the header of a bound tree in bytes, at most the greatest 64-bit number: that of
/// what `emit` writes. Adds up the lengths of names and doesn't walk them: a small source can have
/// definitions of many gigabytes. Takes no memory.
pub fn measure(bound: &Bound) -> u64
    ensures { result ≡ min (length (header_text bound.now)) (2 ^ 64 - 1) }
{
    let mut len: u64 = 0;
    let mut entries = Entries::new(bound);
    while let Some(entry) = entries.next() {
        len = len.saturating_add(entry_len(&entry));
    }
    len
}

// The length of a definition's text.
fn entry_len(entry: &Entry<'_>) -> u64
    ensures { result ≡ min (length (entry_text entry.now)) (2 ^ 64 - 1) }
{
    let heading = heading_len(entry.fact.heading());
    if entry.is_double {
        return heading;
    }
    heading.saturating_add(line_len(&entry.fact))
}

#[tactic(auto, unfolding(crate::specs::Header::heading_text))]
// The length of the comment before a definition.
fn heading_len(heading: Option<&[u8]>) -> u64
    ensures { result
        ≡ min (length (heading_text (option_map (λ h. h.now) heading.entry))) (2 ^ 64 - 1) }
{
    match heading {
        Some(title) => (title.len() as u64).saturating_add(7),
        None => 0,
    }
}

#[tactic(auto, unfolding(crate::specs::Header::line))]
// The length of a definition's line.
fn line_len(fact: &Fact<'_>) -> u64
    ensures { result ≡ min (length (line fact.now)) (2 ^ 64 - 1) }
{
    let name = fact.name().spelled_len();
    let params = params_text(fact.params()).len() as u64;
    name.saturating_add(params)
        .saturating_add(body_len(fact.body()))
        .saturating_add(9)
}

// The length of a body with a space before it.
fn body_len(mut body: Pieces<'_>) -> u64
    ensures { result ≡ min (length (body_text body.entry)) (2 ^ 64 - 1) }
{
    let len = body.spelled_len();
    match body.next() {
        Some(_) => len.saturating_add(1),
        None => 0,
    }
}
