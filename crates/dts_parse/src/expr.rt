//! Expressions in cells, and what they are worth (Devicetree Specification v0.4, 6.3).

ghost use Rattle.std.specs.Prelude.{◌≡◌, Option, Some, None, option_map, OnErr, IfOk};
ghost use Rattle.std.specs.Option.{option_and_then};
ghost use Rattle.dts_parse.specs.Worth.{bin, cond, decided, is_true, shl, shr, strict, truth, un, with_left, worth};

use thiserror::Error;

/// An operator with one operand.
#[derive(Clone, Copy, Debug, PartialEq, Eq)]
pub enum UnOp {
    /// `-`.
    Neg,
    /// `~`.
    Flip,
    /// `!`.
    Not,
}

/// An operator with two operands.
#[derive(Clone, Copy, Debug, PartialEq, Eq)]
pub enum BinOp {
    /// `*`.
    Mul,
    /// `/`.
    Div,
    /// `%`.
    Rem,
    /// `+`.
    Add,
    /// `-`.
    Sub,
    /// `<<`.
    Shl,
    /// `>>`.
    Shr,
    /// `<`.
    Lt,
    /// `>`.
    Gt,
    /// `<=`.
    Le,
    /// `>=`.
    Ge,
    /// `==`.
    Eq,
    /// `!=`.
    Ne,
    /// `&`.
    BitAnd,
    /// `^`.
    BitXor,
    /// `|`.
    BitOr,
    /// `&&`.
    And,
    /// `||`.
    Or,
}

/// An expression. It is evaluated and dropped by recursion, one level at a time.
#[derive(Debug, Drop)]
pub enum Expr {
    /// A number or a character.
    Num(u64),
    /// An operator before its operand.
    Un(UnOp, Box<Expr>),
    /// An operator between its operands.
    Bin(BinOp, Box<Expr>, Box<Expr>),
    /// `?:`: what is tested, and the two that it chooses from.
    Cond(Box<Expr>, Box<Expr>, Box<Expr>),
}

/// An expression has no value, since an evaluated divisor is 0.
#[derive(Clone, Copy, Debug, PartialEq, Eq, Error)]
#[error("a divisor is 0")]
pub struct ExprFault;

/// What an expression is worth by C's rules, in 64 bits without a sign: arithmetic wraps, a shift
/// by 64 or more gives 0, truth is 1 or 0, and of `&&`, `||` and `?:` only what C evaluates counts.
/// The error comes exactly where an evaluated divisor is 0. Takes no memory.
pub fn eval(e: &Expr) -> Result<u64, ExprFault>
    ensures value { IfOk result (λ n. worth e.now ≡ Some n) }
    ensures none { OnErr result (worth e.now ≡ None) }
{
    worth(e).ok_or(ExprFault)
}

fn worth(e: &Expr) -> Option<u64>
    ensures { result ≡ worth e.now }
{
    match e {
        Expr::Num(n) => Some(*n),
        Expr::Un(op, operand) => Some(un(*op, worth(operand)?)),
        Expr::Bin(op, left, right) => {
            let left = worth(left)?;
            match decided(*op, left) {
                Some(value) => Some(value),
                None => strict(*op, left, worth(right)?),
            }
        }
        Expr::Cond(test, yes_case, no_case) => {
            if is_true(worth(test)?) {
                worth(yes_case)
            } else {
                worth(no_case)
            }
        }
    }
}

pub(crate) fn is_true(n: u64) -> bool
    ensures { result ≡ is_true n }
{
    n != 0
}

fn truth(b: bool) -> u64
    ensures { result ≡ truth b }
{
    if b { 1 } else { 0 }
}

pub(crate) fn un(op: UnOp, a: u64) -> u64
    ensures { result ≡ un op a }
{
    match op {
        UnOp::Neg => 0u64.wrapping_sub(a),
        UnOp::Flip => u64::MAX - a,
        UnOp::Not => truth(a == 0),
    }
}

/// What the left operand decides alone.
pub(crate) fn decided(op: BinOp, a: u64) -> Option<u64>
    ensures { result ≡ decided op a }
{
    match op {
        BinOp::And => (!is_true(a)).then_some(0),
        BinOp::Or => is_true(a).then_some(1),
        _ => None,
    }
}

/// An operator at two evaluated operands.
pub(crate) fn strict(op: BinOp, a: u64, b: u64) -> Option<u64>
    ensures { result ≡ strict op a b }
{
    Some(match op {
        BinOp::Mul => a.wrapping_mul(b),
        BinOp::Div => a.checked_div(b)?,
        BinOp::Rem => a.checked_rem(b)?,
        BinOp::Add => a.wrapping_add(b),
        BinOp::Sub => a.wrapping_sub(b),
        BinOp::Shl => shifted_left(a, b),
        BinOp::Shr => shifted_right(a, b),
        BinOp::Lt => truth(a < b),
        BinOp::Gt => truth(a > b),
        BinOp::Le => truth(a <= b),
        BinOp::Ge => truth(a >= b),
        BinOp::Eq => truth(a == b),
        BinOp::Ne => truth(a != b),
        BinOp::BitAnd => a & b,
        BinOp::BitXor => a ^ b,
        BinOp::BitOr => a | b,
        BinOp::And => truth(is_true(a) && is_true(b)),
        BinOp::Or => truth(is_true(a) || is_true(b)),
    })
}

fn shifted_left(a: u64, b: u64) -> u64
    ensures { result ≡ shl a b }
{
    if b < 64 { a << b } else { 0 }
}

fn shifted_right(a: u64, b: u64) -> u64
    ensures { result ≡ shr a b }
{
    if b < 64 { a >> b } else { 0 }
}
