//! Expressions: what a token makes of where one stands in them.

ghost use Rattle.std.specs.Prelude.{◌≡◌, ◌<◌, ◌∷◌, [], Ok, Some, None, true, false, suc, reverse};
ghost use Rattle.dts_parse.specs.Exprs.{more};
ghost use Rattle.dts_parse.specs.Fronts.{is_opening};
ghost use Rattle.dts_parse.specs.Inner.Machine.{Climbed, before_operand, behind_operand, chosen, chosen_case, climbed, closed_case, closed_round, joined, operand_is, put, refused, tested, waits};
ghost use Rattle.dts_parse.specs.Statements.{below};
ghost use Rattle.dts_parse.specs.Inner.Shown.{Leaves, shown};
ghost use Rattle.dts_parse.specs.Token.{bin_of, op_level, un_of};
ghost use Rattle.dts_parse.specs.declared.mode.Frame.TheVariants as frame;
ghost use Rattle.dts_parse.specs.declared.mode.Mode.TheVariants as mode;
ghost use Rattle.dts_parse.specs.declared.terminal.Terminal.TheVariants as terminal;

use crate::expr::BinOp;
use crate::frames::{COND_LEVEL, TEST_LEVEL, bin_of, climb, op_level, un_of};
use crate::mode::{Breach, Frame, Mode};
use crate::parser::Parser;
use crate::stop::Stop;
use crate::terminal::{Terminal, Width};
use crate::token::Token;

/// How many tokens an element's expression may have.
pub(crate) const MOST_TOKENS: u32 = 4096;

fn more(long: u32) -> u32
    ensures { result ≡ more long }
{
    if MOST_TOKENS <= long { long } else { long + 1 }
}

impl<'a> Parser<'a> {
    /// Where an operand begins.
    pub(crate) fn before_operand(&mut self, width: Width, token: &Token<'a>) -> Result<(), Stop>
        requires { is_opening true token.now.terminal ≡ true → (shown self.old).depth < 64 }
        ensures { Leaves (shown self.new) result
            (before_operand width (shown self.old) token.now.spot token.now.terminal) }
    {
        match token.terminal {
            Terminal::Number(n) => self.operand_is(width, self.huge, Some(n)),
            Terminal::Huge => self.operand_is(width, true, None),
            Terminal::Char(byte) => self.operand_is(width, self.huge, Some(u64::from(byte))),
            Terminal::LeftRound => self.at_round(),
            terminal => match un_of(terminal) {
                Some(op) => self.waits(width, Frame::Un(op)),
                None => Err(Stop::Broken(Breach::S1, token.at)),
            },
        }
    }

    fn operand_is(&mut self, width: Width, huge: bool, worth: Option<u64>) -> Result<(), Stop>
        ensures { Leaves (shown self.new) result (operand_is width (shown self.old) huge worth) }
    {
        self.mode = Mode::Operator(width, worth);
        self.long = more(self.long);
        self.huge = huge;
        Ok(())
    }

    fn at_round(&mut self) -> Result<(), Stop>
        requires { (shown self.old).depth < 64 }
        ensures { Leaves (shown self.new) result
            (Ok (record (shown self.old) {
              depth = suc (shown self.old).depth;
              long = more (shown self.old).long;
              frames =
                  frame.Round ∷ (shown self.old).frames;
            })) }
    {
        self.depth += 1;
        self.long = more(self.long);
        self.frames.push(Frame::Round)?;
        Ok(())
    }

    /// A case that waits for its last operand.
    fn waits(&mut self, width: Width, case: Frame) -> Result<(), Stop>
        ensures { Leaves (shown self.new) result
            (waits width (shown self.old) case (shown self.old).frames) }
    {
        self.mode = Mode::Operand(width);
        self.long = more(self.long);
        self.frames.push(case)?;
        Ok(())
    }

    /// Behind an operand.
    pub(crate) fn behind_operand(
        &mut self,
        width: Width,
        worth: Option<u64>,
        token: &Token<'a>,
    ) -> Result<(), Stop>
        ensures { Leaves (shown self.new) result
            (behind_operand width worth (shown self.old) token.now.spot token.now.terminal) }
    {
        match token.terminal {
            Terminal::RightRound => self.closed_round(width, worth, token),
            Terminal::Colon => self.chosen(width, worth, token),
            Terminal::Question => self.tested(width, worth),
            terminal => match bin_of(terminal) {
                Some(op) => self.joined(width, worth, op),
                None => Err(Stop::Broken(Breach::S1, token.at)),
            },
        }
    }

    /// At an operator between two operands.
    fn joined(&mut self, width: Width, worth: Option<u64>, op: BinOp) -> Result<(), Stop>
        ensures { Leaves (shown self.new) result
            (joined width (shown self.old) op
            (climbed (op_level op) (shown self.old).frames worth)) }
    {
        let left = climb(&mut self.frames, op_level(op), worth);
        self.waits(width, Frame::Bin(op, left))
    }

    /// At `?`.
    fn tested(&mut self, width: Width, worth: Option<u64>) -> Result<(), Stop>
        ensures { Leaves (shown self.new) result
            (tested width (shown self.old) (climbed 11 (shown self.old).frames worth)) }
    {
        let test = climb(&mut self.frames, TEST_LEVEL, worth);
        self.waits(width, Frame::Cond(test))
    }

    /// At `:`.
    fn chosen(&mut self, width: Width, worth: Option<u64>, token: &Token<'a>) -> Result<(), Stop>
        ensures { Leaves (shown self.new) result
            (chosen width (shown self.old) token.now.spot
            (climbed 12 (shown self.old).frames worth)) }
    {
        let yes_case = climb(&mut self.frames, COND_LEVEL, worth);
        match self.frames.pop() {
            Some(Frame::Cond(test)) => self.waits(width, Frame::Else(test, yes_case)),
            _ => Err(Stop::Broken(Breach::S1, token.at)),
        }
    }

    /// At `)`.
    fn closed_round(
        &mut self,
        width: Width,
        worth: Option<u64>,
        token: &Token<'a>,
    ) -> Result<(), Stop>
        ensures { Leaves (shown self.new) result
            (closed_round width (shown self.old) token.now.spot
            (climbed 12 (shown self.old).frames worth)) }
    {
        let worth = climb(&mut self.frames, COND_LEVEL, worth);
        match self.frames.pop() {
            None => self.closed_group(width, worth),
            Some(Frame::Round) => {
                self.mode = Mode::Operator(width, worth);
                self.depth = self.depth.saturating_sub(1);
                self.long = more(self.long);
                Ok(())
            }
            _ => Err(Stop::Broken(Breach::S1, token.at)),
        }
    }

    /// At the `)` that ends an element.
    fn closed_group(&mut self, width: Width, worth: Option<u64>) -> Result<(), Stop>
        requires { (shown self.old).frames ≡ [] }
        ensures { Leaves (shown self.new) result
            (put width (shown self.old).huge worth (shown self.old).begin
            (record (shown self.old) {
              depth = below (shown self.old).depth;
              begin = 0;
              long = 0;
              huge = false;
              frames = [];
            })) }
    {
        let huge = self.huge;
        let begin = self.begin;
        self.depth = self.depth.saturating_sub(1);
        self.begin = 0;
        self.long = 0;
        self.huge = false;
        self.put(width, huge, worth, begin)
    }
}
