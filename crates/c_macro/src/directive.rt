//! Reads directives (ISO C, 6.10.3 and 6.10.5).

ghost use Rattle.std.specs.Prelude.{◌≡◌, ◌&&◌, ◌++◌, not, IfOk, Some, None, option_map, drop, length, map, ◌<◌};
ghost use Rattle.std.specs.List.{list_any};
ghost use Rattle.std.specs.Str.{bytes_eq};
ghost use Rattle.c_macro.specs.Directive.{all_differ, all_params, begins_among, is_among, begins_join, ends_join, is_body, hashes_fit, some_params, params_of, object_macro, is_function, function_macro, macro_of, definition_of, undefinition_of, directive_of, line_directive, is_va_args};
ghost use Rattle.c_macro.specs.Reading.{params_data, directive_data};

use crate::def::Def;
use crate::places::Places;
use crate::tokens::{copy_toks, is_named, is_param, is_punct, is_reserved, is_va_args, is_word};
use c_tokens::{Line, Tok};
use edt_base::Text;
use std::alloc::{AllocError, Global};

/// The parameters of a definition, and the tokens behind their closing bracket.
#[derive(Drop)]
struct Params<'a> {
    names: Vec<Text>,
    variadic: bool,
    rest: &'a [Tok],
}

/// What a line does.
#[derive(Drop)]
pub(crate) enum Directive<'a> {
    /// Nothing.
    Nothing,
    /// Defines a name.
    Define(&'a Text, Def),
    /// Takes a name's definition away.
    Undefine(&'a Text),
}

/// One parameter or more. The one error is want of memory.
fn some_params(alloc: Global, toks: &[Tok]) -> Result<Option<Params<'_>>, AllocError>
    ensures { IfOk result (λ r. option_map params_data r ≡ some_params toks.now) }
{
    let mut names = Vec::new(alloc);
    let mut left = toks;
    while let [t, u, rest @ ..] = left {
        if is_punct("...", t) && is_punct(")", u) {
            return Ok(Some(Params {
                names,
                variadic: true,
                rest,
            }));
        }
        if !is_param(t) {
            return Ok(None);
        }
        names.push(t.spell.copy(alloc)?)?;
        if is_punct(")", u) {
            return Ok(Some(Params {
                names,
                variadic: false,
                rest,
            }));
        }
        if !is_punct(",", u) {
            return Ok(None);
        }
        left = rest;
    }
    Ok(None)
}

/// The parameters behind the opening bracket.
fn params_of(alloc: Global, toks: &[Tok]) -> Result<Option<Params<'_>>, AllocError>
    ensures { IfOk result (λ r. option_map params_data r ≡ params_of toks.now) }
{
    let Some((first, rest)) = toks.split_first() else {
        return Ok(None);
    };
    if is_punct(")", first) {
        return Ok(Some(Params {
            names: Vec::new(alloc),
            variadic: false,
            rest,
        }));
    }
    let params = some_params(alloc, toks)?;
    Ok(params)
}

/// Whether no name stands twice. Takes time as sorting the names does.
fn all_differ(alloc: Global, names: &[Text]) -> Result<bool, AllocError>
    ensures { IfOk result (λ differ. differ ≡ all_differ names.now) }
{
    let mut sorted = texts_of(alloc, names)?;
    sorted.sort_unstable();
    Ok(sorted.is_sorted_by(|before, after| before < after))
}

fn texts_of(alloc: Global, names: &[Text]) -> Result<Vec<&str>, AllocError>
    ensures { IfOk result (λ texts. map (λ b. b.now) texts.items ≡ names.now) }
{
    let mut texts = Vec::with_capacity(alloc, names.len())?;
    for name in names {
        texts.push(name.as_str())?;
    }
    Ok(texts)
}

fn begins_join(body: &[Tok]) -> bool
    ensures { result ≡ begins_join body.now }
{
    match body.first() {
        None => false,
        Some(tok) => is_punct("##", tok),
    }
}

fn ends_join(body: &[Tok]) -> bool
    ensures { result ≡ ends_join body.now }
{
    match body.split_last() {
        None => false,
        Some((tok, _)) => is_punct("##", tok),
    }
}

fn has_va_args(body: &[Tok]) -> bool
    ensures { result ≡ list_any is_va_args body.now }
{
    body.iter().any(|tok| is_va_args(tok))
}

/// Whether no `##` stands at an end, and the variable part is named only where there is one.
fn is_body(variadic: bool, body: &[Tok]) -> bool
    ensures { result ≡ is_body variadic body.now }
{
    !begins_join(body) && !ends_join(body) && (variadic || !has_va_args(body))
}

/// Whether a parameter stands behind each `#`.
fn hashes_fit(places: &Places, body: &[Tok]) -> bool
    ensures { result ≡ hashes_fit places.now body.now }
{
    let mut left = body;
    while let Some((tok, rest)) = left.split_first() {
        if is_punct("#", tok) && !begins_among(places, rest) {
            return false;
        }
        left = rest;
    }
    true
}

fn begins_among(places: &Places, toks: &[Tok]) -> bool
    ensures { result ≡ begins_among places.now toks.now }
{
    match toks.first() {
        None => false,
        Some(tok) => places.has(tok),
    }
}

/// An object-like macro.
fn object_macro(alloc: Global, body: &[Tok]) -> Result<Option<Def>, AllocError>
    ensures { IfOk result (λ r. r ≡ object_macro body.now) }
{
    if !is_body(false, body) {
        return Ok(None);
    }
    Ok(Some(Def {
        params: None,
        variadic: false,
        body: copy_toks(alloc, body)?,
    }))
}

/// Whether these parameters and their body make a macro.
fn is_function(alloc: Global, params: &Params<'_>) -> Result<bool, AllocError>
    ensures { IfOk result (λ b. b ≡ is_function (params_data params.now)) }
{
    let names = params.names.as_slice();
    let differ = all_differ(alloc, names)?;
    let places = Places::of(alloc, names, params.variadic)?;
    Ok(differ && is_body(params.variadic, params.rest) && hashes_fit(&places, params.rest))
}

/// A function-like macro, of the tokens behind the opening bracket of its parameters.
fn function_macro(alloc: Global, toks: &[Tok]) -> Result<Option<Def>, AllocError>
    ensures { IfOk result (λ r. r ≡ function_macro (params_of toks.now)) }
{
    let Some(params) = params_of(alloc, toks)? else {
        return Ok(None);
    };
    if !is_function(alloc, &params)? {
        return Ok(None);
    }
    Ok(Some(Def {
        params: Some(params.names),
        variadic: params.variadic,
        body: copy_toks(alloc, params.rest)?,
    }))
}

/// The macro that the tokens behind its name define.
fn macro_of(alloc: Global, toks: &[Tok]) -> Result<Option<Def>, AllocError>
    ensures { IfOk result (λ r. r ≡ macro_of toks.now) }
{
    let made = match toks.split_first() {
        None => object_macro(alloc, toks)?,
        Some((first, _)) if first.spaced => object_macro(alloc, toks)?,
        Some((first, rest)) if is_punct("(", first) => function_macro(alloc, rest)?,
        Some(_) => None,
    };
    Ok(made)
}

fn definition_of(alloc: Global, toks: &[Tok]) -> Result<Option<Directive<'_>>, AllocError>
    ensures { IfOk result (λ r. option_map directive_data r ≡ definition_of toks.now) }
{
    let Some((name, rest)) = toks.split_first() else {
        return Ok(None);
    };
    if !is_word(name) || is_reserved(&name.spell) {
        return Ok(None);
    }
    match macro_of(alloc, rest)? {
        None => Ok(None),
        Some(def) => Ok(Some(Directive::Define(&name.spell, def))),
    }
}

fn undefinition_of(toks: &[Tok]) -> Option<Directive<'_>>
    ensures { option_map directive_data result ≡ undefinition_of toks.now }
{
    match toks {
        [name] if is_word(name) => Some(Directive::Undefine(&name.spell)),
        _ => None,
    }
}

/// The directive of the tokens behind its `#`.
fn directive_of(alloc: Global, toks: &[Tok]) -> Result<Option<Directive<'_>>, AllocError>
    ensures { IfOk result (λ r. option_map directive_data r ≡ directive_of toks.now) }
{
    let Some((first, rest)) = toks.split_first() else {
        return Ok(Some(Directive::Nothing));
    };
    if is_named(first, "define") {
        let made = definition_of(alloc, rest)?;
        return Ok(made);
    }
    if is_named(first, "undef") {
        return Ok(undefinition_of(rest));
    }
    Ok(None)
}

/// What a line does; `None` where it is text, or a directive that is another one or malformed.
pub(crate) fn line_directive(
    alloc: Global,
    line: &Line,
) -> Result<Option<Directive<'_>>, AllocError>
    ensures { IfOk result (λ r. option_map directive_data r ≡ line_directive line.now) }
{
    let toks = line.toks.as_slice();
    if line.directive {
        let read = directive_of(alloc, behind_first(toks))?;
        return Ok(read);
    }
    if toks.is_empty() {
        return Ok(Some(Directive::Nothing));
    }
    Ok(None)
}

fn behind_first(toks: &[Tok]) -> &[Tok]
    ensures { result.now ≡ drop 1 toks.now }
{
    if toks.is_empty() { toks } else { &toks[1..] }
}
