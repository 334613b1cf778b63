//! Reads a source, token for token.

ghost use Rattle.std.specs.Prelude.{◌≡◌, ◌≤◌, ◌+◌, IfOk, IfErr, List, length};
ghost use Rattle.dts_lex.specs.Left.{Left};
ghost use Rattle.dts_parse.specs.Inner.Outcome.{IsAnswer, IsStop};
ghost use Rattle.dts_parse.specs.Source.{BreaksNone, IsFirstFault, IsScript, rule_of};
ghost use Rattle.dts_parse.specs.StmtData.{StmtData};

use crate::mode::Breach;
use crate::parser::Parser;
use crate::script::{Script, Stmt};
use crate::stop::Stop;
use crate::token::Token;
use dts_lex::Lexer;
use edt_base::{End, Fault, Place, Rule, Text};
use std::alloc::Global;

/// Reads the source of a base or of an overlay (Devicetree Specification v0.4, chapter 6; Zephyr
/// 3.7's devicetrees): its statements, or the first of these faults, by byte and at one byte S1
/// last. S1 stands at the first token that continues no source, or at the end, or at a byte where
/// no token stands. S2 stands at a brace or bracket that nests above 64, and at the 4,097th token
/// of an element's expression. S5 stands at an element without a value, or with one that doesn't
/// fit. S6 stands at `/include/` and `/incbin/`. `file` names the source in the fault.
pub fn parse(alloc: Global, file: &Text, src: &[u8], base: bool) -> Result<Script, End>
    ensures found { IfOk result (λ s. IsScript src.now base s) }
    ensures only { IfOk result
        (λ s. (other : List StmtData) → IsScript src.now base other → s ≡ other) }
    ensures sound { IfOk result (λ s. BreaksNone src.now base) }
    ensures first { IsFirstFault file.now src.now base result }
{
    match read(alloc, src, base) {
        Ok(stmts) => Ok(Script { stmts }),
        Err(Stop::Broken(breach, at)) => {
            let name = file.copy(alloc)?;
            Err(End::Fault(Fault {
                rule: rule_of(breach),
                place: Place::Byte(name, at),
            }))
        }
        Err(Stop::Memory(e)) => Err(End::Memory(e)),
    }
}

fn rule_of(breach: Breach) -> Rule
    ensures { result ≡ rule_of breach }
{
    match breach {
        Breach::S1 => Rule::S1,
        Breach::S2 => Rule::S2,
        Breach::S5 => Rule::S5,
        Breach::S6 => Rule::S6,
    }
}

/// The statements of a source, or why reading stops.
fn read(alloc: Global, src: &[u8], base: bool) -> Result<Vec<Stmt>, Stop>
    ensures answer { IfOk result (λ v. IsAnswer src.now base v.items) }
    ensures stop { IfErr result (λ stop. IsStop src.now base stop) }
{
    let mut lexer = Lexer::new(src);
    let mut parser = Parser::new(alloc, base);
    'tokens: loop {
        match lexer.next() {
            Err(fault) => return Err(Stop::Broken(Breach::S1, fault.at)),
            Ok(None) => break 'tokens,
            Ok(Some(span)) => {
                if let Err(stop) = parser.take(alloc, &Token::of(src, span)) {
                    return Err(stop);
                }
            }
        }
    }
    if parser.is_whole() {
        Ok(parser.out)
    } else {
        Err(Stop::Broken(Breach::S1, src.len() as u64))
    }
}
