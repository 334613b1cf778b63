//! What a token is to macros.

ghost use Rattle.std.specs.Prelude.{◌≡◌, ◌&&◌, not, IfOk, List, ℕ, drop};
ghost use Rattle.std.specs.List.{list_any};
ghost use Rattle.std.specs.Str.{bytes_eq};
ghost use Rattle.c_macro.specs.Directive.{is_word, is_punct, is_param, is_reserved, is_va_args, is_among, begins_among, va_args};

use c_tokens::{Tok, TokKind};
use edt_base::Text;
use std::alloc::{AllocError, Global};

/// The name by which a body has its variable part.
pub(crate) const VA_ARGS: &str = "__VA_ARGS__";

/// Whether a token is an identifier.
pub(crate) fn is_word(tok: &Tok) -> bool
    ensures { result ≡ is_word tok.now }
{
    tok.kind == TokKind::Ident
}

/// Whether a token is the punctuator of these bytes.
pub(crate) fn is_punct(bytes: &str, tok: &Tok) -> bool
    ensures { result ≡ is_punct bytes.now tok.now }
{
    tok.kind == TokKind::Punct && tok.spell.as_str() == bytes
}

/// Whether a token is the name of the variable part.
pub(crate) fn is_va_args(tok: &Tok) -> bool
    ensures { result ≡ is_va_args tok.now }
{
    is_word(tok) && tok.spell.as_str() == VA_ARGS
}

/// Whether a token may be a parameter.
pub(crate) fn is_param(tok: &Tok) -> bool
    ensures { result ≡ is_param tok.now }
{
    is_word(tok) && tok.spell.as_str() != VA_ARGS
}

/// Whether no macro may have this name.
pub(crate) fn is_reserved(name: &Text) -> bool
    ensures { result ≡ is_reserved name.now }
{
    let name = name.as_str();
    name == "defined" || name == VA_ARGS || name == "__VA_OPT__"
}

/// Whether this is the directive's name.
pub(crate) fn is_named(tok: &Tok, name: &str) -> bool
    ensures { result ≡ (is_word tok.now && bytes_eq tok.now.spell name.now) }
{
    is_word(tok) && tok.spell.as_str() == name
}

/// A copy of a token.
pub(crate) fn copy_tok(alloc: Global, tok: &Tok) -> Result<Tok, AllocError>
    ensures { IfOk result (λ t. t ≡ tok.now) }
{
    Ok(Tok {
        spell: tok.spell.copy(alloc)?,
        kind: tok.kind,
        spaced: tok.spaced,
    })
}

/// A copy of tokens.
pub(crate) fn copy_toks(alloc: Global, toks: &[Tok]) -> Result<Vec<Tok>, AllocError>
    ensures { IfOk result (λ v. v.items ≡ toks.now) }
{
    let mut copy = Vec::with_capacity(alloc, toks.len())?;
    for tok in toks {
        copy.push(copy_tok(alloc, tok)?)?;
    }
    Ok(copy)
}
