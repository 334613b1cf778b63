//! Whether two definitions are the same (ISO C, 6.10.3, 1 and 2).

ghost use Rattle.std.specs.Prelude.{◌≡◌, ◌&&◌, option_map};
ghost use Rattle.c_macro.specs.Directive.{same_kind, same_tok, same_bool, same_spaced, same_body, same_names, same_params, same_macro};

use crate::def::Def;
use c_tokens::{Tok, TokKind};
use edt_base::Text;

fn same_kind(a: TokKind, b: TokKind) -> bool
    ensures { result ≡ same_kind a b }
{
    a == b
}

fn same_bool(a: bool, b: bool) -> bool
    ensures { result ≡ same_bool a b }
{
    a == b
}

fn same_tok(a: &Tok, b: &Tok) -> bool
    ensures { result ≡ same_tok a.now b.now }
{
    same_kind(a.kind, b.kind) && a.spell.as_str() == b.spell.as_str()
}

fn same_with_space(a: &Tok, b: &Tok) -> bool
    ensures { result ≡ (same_tok a.now b.now && same_bool a.now.spaced b.now.spaced) }
{
    same_tok(a, b) && same_bool(a.spaced, b.spaced)
}

/// Whether tokens are the same with the same white space between them.
fn same_spaced(a: &[Tok], b: &[Tok]) -> bool
    ensures { result ≡ same_spaced a.now b.now }
{
    let (mut a, mut b) = (a, b);
    while let Some((t, ts)) = a.split_first() {
        let Some((u, us)) = b.split_first() else {
            return false;
        };
        if !same_with_space(t, u) {
            return false;
        }
        a = ts;
        b = us;
    }
    b.is_empty()
}

/// The same, but for white space before the first.
fn same_body(a: &[Tok], b: &[Tok]) -> bool
    ensures { result ≡ same_body a.now b.now }
{
    match (a, b) {
        ([], []) => true,
        ([t, ts @ ..], [u, us @ ..]) => same_tok(t, u) && same_spaced(ts, us),
        _ => false,
    }
}

fn same_names(a: &[Text], b: &[Text]) -> bool
    ensures { result ≡ same_names a.now b.now }
{
    let (mut a, mut b) = (a, b);
    while let Some((x, xs)) = a.split_first() {
        let Some((y, ys)) = b.split_first() else {
            return false;
        };
        if x.as_str() != y.as_str() {
            return false;
        }
        a = xs;
        b = ys;
    }
    b.is_empty()
}

fn same_params(a: &Option<Vec<Text>>, b: &Option<Vec<Text>>) -> bool
    ensures { result ≡ same_params (option_map (λ v. v.items) a.now) (option_map (λ v. v.items) b.now) }
{
    match (a, b) {
        (None, None) => true,
        (Some(a), Some(b)) => same_names(a.as_slice(), b.as_slice()),
        _ => false,
    }
}

/// Whether parameters, tokens and the white space between tokens agree.
pub(crate) fn same_macro(a: &Def, b: &Def) -> bool
    ensures { result ≡ same_macro a.now b.now }
{
    same_params(&a.params, &b.params)
        && same_bool(a.variadic, b.variadic)
        && same_body(a.body.as_slice(), b.body.as_slice())
}
