//! Names and references as texts.

ghost use Rattle.std.specs.Prelude.{◌≡◌, ◌++◌, [], true, IfOk, List};
ghost use Rattle.std.specs.List.{list_all};
ghost use Rattle.dts_parse.specs.Statements.{omits};
ghost use Rattle.dts_parse.specs.Texts.{begins_path, target_of, within};
ghost use Rattle.dts_parse.specs.Token.{is_ascii};
ghost use Rattle.dts_parse.specs.declared.terminal.Terminal.TheVariants as terminal;

use crate::script::{Act, Stmt, Target};
use crate::texts::within;
use crate::token::Token;
use edt_base::Text;
use std::alloc::{AllocError, Global};

/// A text of ASCII bytes.
pub(crate) fn text_of(alloc: Global, bytes: &[u8]) -> Result<Text, AllocError>
    requires { list_all is_ascii bytes.now ≡ true }
    ensures { IfOk result (λ t. t ≡ bytes.now) }
{
    match str::from_utf8(bytes) {
        Ok(text) => Ok(Text::new(String::from_str(alloc, text)?)),
        Err(_) => unreachable!(),
    }
}

/// What a reference names.
pub(crate) fn target_of(alloc: Global, token: &Token<'_>) -> Result<Target, AllocError>
    requires { token.now.terminal ≡ terminal.Ref }
    ensures { IfOk result (λ t. t ≡ target_of token.now.spot.text) }
{
    named_target(alloc, token.text)
}

fn named_target(alloc: Global, text: &[u8]) -> Result<Target, AllocError>
    requires { list_all is_ascii text.now ≡ true }
    ensures { IfOk result (λ t. t ≡ target_of text.now) }
{
    match text {
        [] => Ok(Target::ByLabel(text_of(alloc, text)?)),
        [_, rest @ ..] => {
            if begins_path(rest) {
                Ok(Target::ByPath(text_of(alloc, within(1, rest))?))
            } else {
                Ok(Target::ByLabel(text_of(alloc, rest)?))
            }
        }
    }
}

fn begins_path(text: &[u8]) -> bool
    ensures { result ≡ begins_path text.now }
{
    match text {
        [first, ..] => *first == b'{',
        [] => false,
    }
}

/// The marks on a child, as statements after its end.
pub(crate) fn omits(alloc: Global, marks: &[u64], name: &[u8]) -> Result<Vec<Stmt>, AllocError>
    requires { list_all is_ascii name.now ≡ true }
    ensures { IfOk result (λ v. v.items ≡ omits marks.now name.now) }
{
    let mut stmts = Vec::new(alloc);
    for at in marks {
        let act = Act::Omit(Target::Child(text_of(alloc, name)?));
        stmts.push(Stmt { at: *at, act })?;
    }
    Ok(stmts)
}
