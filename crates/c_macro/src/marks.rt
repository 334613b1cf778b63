//! What tokens are within a call (ISO C, 6.10.3, 10 and 11).

ghost use Rattle.std.specs.Prelude.{◌≡◌};
ghost use Rattle.c_macro.specs.Calls.{mark_of};
ghost use Rattle.c_macro.specs.Marking.{mark_data};

use crate::tokens::is_punct;
use c_tokens::Tok;

/// What a token is within a call.
#[derive(Clone, Copy, Debug, PartialEq, Eq)]
pub(crate) enum Mark {
    Opens,
    Closes,
    Parts,
    Inner,
}

pub(crate) fn mark_of(tok: &Tok) -> Mark
    ensures { mark_data result ≡ mark_of tok.now }
{
    if is_punct("(", tok) {
        Mark::Opens
    } else if is_punct(")", tok) {
        Mark::Closes
    } else if is_punct(",", tok) {
        Mark::Parts
    } else {
        Mark::Inner
    }
}
