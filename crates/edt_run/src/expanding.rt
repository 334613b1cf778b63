//! The lines of a text over definitions: each line of text is expanded and put before the next one
//! is read (ISO C, 6.10.3).

ghost use Rattle.std.specs.Prelude.{◌≡◌, ◌++◌, [], IfOk, IfErr, OnOk, Some, None, codes, is_ok};
ghost use Rattle.std.specs.List.{flat_map};
ghost use Rattle.c_macro.specs.Table.{known_of};
ghost use Rattle.c_tokens.specs.Reading.{IfRule};
ghost use Rattle.c_tokens.specs.Shown.{shown, with_space};
ghost use Rattle.edt_base.specs.Put.{Put};
ghost use Rattle.edt_run.specs.ExpandAnswer.{OutputFrom, breach_at, from_start};
ghost use Rattle.edt_run.specs.ExpandSteps.{IsEnded, IsNext, IsPut, IsPutNext, IsToldBehind};

use crate::refusal::{Refusal, refuse};
use crate::top::Status;
use c_macro::{Defs, expand};
use c_tokens::{CEnd, Lines, Tok};
use edt_base::{Block, Fault, Place, Rule, Sink, Text, WriteFailed, flush, put};
use std::alloc::{AllocError, Global};

/// What comes next in a text.
#[derive(Drop)]
pub(crate) enum Next {
    /// No line is left.
    End,
    /// A directive, which was carried out.
    Silent,
    /// A line of text, which comes to these tokens.
    Text(Vec<Tok>),
}

/// Why no more lines were put.
#[derive(Drop)]
pub(crate) enum Halt {
    /// No line was left.
    Done,
    /// The line of this number breaks this rule; all lines before it were put.
    Rule(Rule, u64),
    /// Memory was wanted; whole lines were put.
    Memory,
    /// A write failed.
    Failed,
}

/// How the writing of a text's output ended.
#[derive(Drop)]
pub(crate) enum Ended {
    /// The output was written, and this is to be said: all is done, or a line breaks a rule.
    Said(Refusal),
    /// Memory was wanted; whole lines were written.
    Memory,
    /// A write failed.
    Failed,
}

/// Writes the output of a text: the lines up to its end, or up to the first that breaks a rule.
/// `defs` is what is defined before the text's first line, and `name` the text's.
pub(crate) fn write_output<S: Sink>(
    alloc: Global,
    defs: &mut Defs,
    name: &Text,
    text: &[u8],
    out: &mut S,
) -> Ended
    ensures { IsEnded (known_of defs.old) name.now text.now (S.seen out.old) (S.seen out.new) result }
{
    let mut block = Block::new();
    match put_lines(alloc, defs, text, out, &mut block) {
        Halt::Failed => Ended::Failed,
        Halt::Memory => match flush(out, &mut block) {
            Ok(()) => Ended::Memory,
            Err(_) => Ended::Failed,
        },
        Halt::Done => match flush(out, &mut block) {
            Ok(()) => Ended::Said(Refusal {
                status: Status::Done,
                line: String::new(alloc),
            }),
            Err(_) => Ended::Failed,
        },
        Halt::Rule(rule, number) => match flush(out, &mut block) {
            Ok(()) => match told_behind(alloc, name, rule, number) {
                Ok(said) => Ended::Said(said),
                Err(_) => Ended::Memory,
            },
            Err(_) => Ended::Failed,
        },
    }
}

/// What is said of a rule that a line breaks.
fn told_behind(alloc: Global, name: &Text, rule: Rule, number: u64) -> Result<Refusal, AllocError>
    ensures { IfOk result (λ r. IsToldBehind name.now (breach_at rule number) r) }
{
    let place = Place::Line(name.copy(alloc)?, number);
    refuse(alloc, &Fault { rule, place })
}

/// Puts the output of a text, line by line.
fn put_lines<S: Sink>(
    alloc: Global,
    defs: &mut Defs,
    text: &[u8],
    out: &mut S,
    block: &mut Block,
) -> Halt
    ensures { IsPut (known_of defs.old) (from_start text.now) (S.seen out.old) (S.seen out.new) block.old block.new result }
{
    let mut lines = Lines::new(text);
    loop {
        match put_next(alloc, defs, &mut lines, out, block) {
            Ok(()) => {}
            Err(halt) => return halt,
        }
    }
}

/// Puts what the next line adds to the output; `Done` where no line is left.
fn put_next<S: Sink>(
    alloc: Global,
    defs: &mut Defs,
    lines: &mut Lines<'_>,
    out: &mut S,
    block: &mut Block,
) -> Result<(), Halt>
    ensures one { OnOk result (IsPutNext (known_of defs.old) lines.old (S.seen out.old) (S.seen out.new)
        block.old block.new (known_of defs.new) lines.new) }
    ensures halted { IfErr result (λ halt. IsPut (known_of defs.old) lines.old (S.seen out.old) (S.seen out.new)
        block.old block.new halt) }
{
    let number = lines.number();
    match next_output(alloc, defs, lines) {
        Ok(Next::End) => Err(Halt::Done),
        Ok(Next::Silent) => Ok(()),
        Ok(Next::Text(toks)) => match put_line(out, block, toks.as_slice()) {
            Ok(()) => Ok(()),
            Err(_) => Err(Halt::Failed),
        },
        Err(CEnd::Rule(rule)) => Err(Halt::Rule(rule, number)),
        Err(CEnd::Memory(_)) => Err(Halt::Memory),
    }
}

/// Reads the next line: carries out a directive, and expands text.
fn next_output(alloc: Global, defs: &mut Defs, lines: &mut Lines<'_>) -> Result<Next, CEnd>
    ensures next { IfOk result
        (λ n. IsNext (known_of defs.old) lines.old n (known_of defs.new) lines.new) }
    ensures stopped { IfErr result (λ end. IfRule end
        (λ r. OutputFrom (known_of defs.old) lines.old [] (Some (breach_at r lines.old.number)))) }
{
    match lines.next(alloc)? {
        None => Ok(Next::End),
        Some(line) => {
            if line.directive {
                defs.apply(&line)?;
                return Ok(Next::Silent);
            }
            let toks = expand(alloc, defs, &line.toks)?;
            Ok(Next::Text(toks))
        }
    }
}

/// Puts a line of tokens: their spellings, a space between every two, and a newline.
fn put_line<S: Sink>(out: &mut S, block: &mut Block, toks: &[Tok]) -> Result<(), WriteFailed>
    ensures { Put (S.seen out.old) (S.seen out.new) block.old block.new (shown toks.now ++ codes "\n") (is_ok result) }
{
    put_toks(out, block, toks)?;
    put(out, block, b"\n")?;
    Ok(())
}

fn put_toks<S: Sink>(out: &mut S, block: &mut Block, toks: &[Tok]) -> Result<(), WriteFailed>
    ensures { Put (S.seen out.old) (S.seen out.new) block.old block.new (shown toks.now) (is_ok result) }
{
    let Some((first, rest)) = toks.split_first() else {
        return Ok(());
    };
    put_spelling(out, block, first)?;
    put_all_spaced(out, block, rest)?;
    Ok(())
}

/// Puts tokens, each with a space before it.
fn put_all_spaced<S: Sink>(out: &mut S, block: &mut Block, toks: &[Tok]) -> Result<(), WriteFailed>
    ensures { Put (S.seen out.old) (S.seen out.new) block.old block.new (flat_map with_space toks.now) (is_ok result) }
{
    for tok in toks {
        put_spaced(out, block, tok)?;
    }
    Ok(())
}

fn put_spaced<S: Sink>(out: &mut S, block: &mut Block, tok: &Tok) -> Result<(), WriteFailed>
    ensures { Put (S.seen out.old) (S.seen out.new) block.old block.new (with_space tok.now) (is_ok result) }
{
    put(out, block, b" ")?;
    put_spelling(out, block, tok)?;
    Ok(())
}

fn put_spelling<S: Sink>(out: &mut S, block: &mut Block, tok: &Tok) -> Result<(), WriteFailed>
    ensures { Put (S.seen out.old) (S.seen out.new) block.old block.new tok.now.spell (is_ok result) }
{
    put(out, block, tok.spell.as_str().as_bytes())
}
