//! Open cases of an expression on a stack, so that no depth of it costs the machine's.

ghost use Rattle.std.specs.Prelude.{◌≡◌, Some, None, option_map, reverse};
ghost use Rattle.dts_parse.specs.Inner.Machine.{Climbed, climbed, reduced};
ghost use Rattle.dts_parse.specs.Token.{bin_of, op_level, un_of};
ghost use Rattle.dts_parse.specs.Worth.{bin, cond, un, with_left};

use crate::expr::{BinOp, UnOp, decided, is_true, strict, un};
use crate::mode::Frame;
use crate::terminal::Terminal;

/// The strength of an operator: the least level binds tightest (ISO C, 6.5).
pub(crate) fn op_level(op: BinOp) -> u32
    ensures { result ≡ op_level op }
{
    match op {
        BinOp::Mul | BinOp::Div | BinOp::Rem => 2,
        BinOp::Add | BinOp::Sub => 3,
        BinOp::Shl | BinOp::Shr => 4,
        BinOp::Lt | BinOp::Gt | BinOp::Le | BinOp::Ge => 5,
        BinOp::Eq | BinOp::Ne => 6,
        BinOp::BitAnd => 7,
        BinOp::BitXor => 8,
        BinOp::BitOr => 9,
        BinOp::And => 10,
        BinOp::Or => 11,
    }
}

/// The level of an operator before its operand, and of `?:`.
pub(crate) const COND_LEVEL: u32 = 12;

/// The level in front of `?`.
pub(crate) const TEST_LEVEL: u32 = 11;

/// The operator before an operand that a terminal is.
pub(crate) fn un_of(terminal: Terminal) -> Option<UnOp>
    ensures { result ≡ un_of terminal }
{
    match terminal {
        Terminal::Minus => Some(UnOp::Neg),
        Terminal::Tilde => Some(UnOp::Flip),
        Terminal::Bang => Some(UnOp::Not),
        _ => None,
    }
}

/// The operator between operands that a terminal is.
pub(crate) fn bin_of(terminal: Terminal) -> Option<BinOp>
    ensures { result ≡ bin_of terminal }
{
    match terminal {
        Terminal::Minus => Some(BinOp::Sub),
        Terminal::Slash => Some(BinOp::Div),
        Terminal::Less => Some(BinOp::Lt),
        Terminal::Greater => Some(BinOp::Gt),
        Terminal::Op(BinOp::Sub | BinOp::Div | BinOp::Lt | BinOp::Gt) => None,
        Terminal::Op(op) => Some(op),
        _ => None,
    }
}

fn un_worth(op: UnOp, worth: Option<u64>) -> Option<u64>
    ensures { result ≡ option_map (un op) worth }
{
    Some(un(op, worth?))
}

fn bin_worth(op: BinOp, left: Option<u64>, right: Option<u64>) -> Option<u64>
    ensures { result ≡ bin op left right }
{
    let left = left?;
    match decided(op, left) {
        Some(value) => Some(value),
        None => strict(op, left, right?),
    }
}

fn cond_worth(test: Option<u64>, yes_case: Option<u64>, no_case: Option<u64>) -> Option<u64>
    ensures { result ≡ cond test yes_case no_case }
{
    if is_true(test?) { yes_case } else { no_case }
}

/// What a case makes of its last operand, where an operator of this level closes it.
fn reduced(level: u32, frame: Frame, worth: Option<u64>) -> Option<Option<u64>>
    ensures { result ≡ reduced level frame worth }
{
    match frame {
        Frame::Round | Frame::Cond(_) => None,
        Frame::Un(op) => Some(un_worth(op, worth)),
        Frame::Bin(op, left) => {
            if op_level(op) <= level {
                Some(bin_worth(op, left, worth))
            } else {
                None
            }
        }
        Frame::Else(test, yes_case) => {
            if COND_LEVEL <= level {
                Some(cond_worth(test, yes_case, worth))
            } else {
                None
            }
        }
    }
}

/// Closes the cases that an operator of this level closes, and gives what they are worth.
pub(crate) fn climb(frames: &mut Vec<Frame>, level: u32, worth: Option<u64>) -> Option<u64>
    ensures { climbed level (reverse frames.old.items) worth
        ≡ record { left = reverse frames.new.items; worth = result } }
{
    let mut worth = worth;
    while let Some(frame) = frames.last().copied() {
        match reduced(level, frame, worth) {
            None => return worth,
            Some(next) => {
                frames.pop();
                worth = next;
            }
        }
    }
    worth
}
