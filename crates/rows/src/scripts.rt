//! Rows of `dts_parse`.
//!
//! - `base` or `overlay` is a source. The answer has its statements: O a node's opening, C its
//!   close, L a label, A a property with its value, P and D deletions, X a mark, each with its
//!   byte; or the rule that it breaks, with its byte.
//! - `cut` is a base. The answer has the lengths at which the source can be cut without a token
//!   being missed.
//! - `tree` is an expression, operators after their operands, and `cell` is the same one as it
//!   stands in a cell. The answer is what each is worth.

use crate::table::Row;
use dts_parse::{Act, BinOp, Expr, RawCell, RawPart, Stmt, Target, UnOp, eval, parse};
use edt_base::{End, Kind, Place, Text};
use std::alloc::{AllocError, Global};

pub fn answer(alloc: Global, row: &Row) -> Result<Option<String>, AllocError> {
    if let Some(source) = row.bytes("base") {
        Ok(Some(read(alloc, source, true)?))
    } else if let Some(source) = row.bytes("overlay") {
        Ok(Some(read(alloc, source, false)?))
    } else if let Some(source) = row.bytes("cut") {
        Ok(Some(cuts(alloc, source)?))
    } else if let Some(tree) = row.text("tree") {
        worth(alloc, tree, row.text("cell"))
    } else {
        Ok(None)
    }
}

/// The statements of a source, or its fault.
fn read(alloc: Global, source: &[u8], base: bool) -> Result<String, AllocError> {
    let file = Text::new(String::from_str(alloc, "b.dts")?);
    let mut out = String::new(alloc);
    match parse(alloc, &file, source, base) {
        Ok(script) => show_stmts(&mut out, script.stmts.as_slice())?,
        Err(End::Fault(fault)) => {
            write!(out, "!{}", fault.rule)?;
            if let Place::Byte(_, at) = &fault.place {
                write!(out, "@{at}")?;
            }
        }
        Err(End::Memory(e)) => return Err(e),
    }
    Ok(out)
}

/// The lengths at which a source may be cut so that it breaks another rule than S1, or none.
fn cuts(alloc: Global, source: &[u8]) -> Result<String, AllocError> {
    let mut out = String::new(alloc);
    for (end, _) in source.iter().enumerate() {
        let (cut, _) = source.split_at(end);
        let found = read(alloc, cut, true)?;
        if !found.starts_with("!S1@") {
            write!(out, "{end} ")?;
        }
    }
    Ok(out)
}

/// What a tree is worth, and what a cell that holds it.
fn worth(alloc: Global, tree: &str, cell: Option<&str>) -> Result<Option<String>, AllocError> {
    let Some(tree) = tree_of(alloc, tree)? else {
        return Ok(None);
    };
    let mut out = String::new(alloc);
    match eval(&tree) {
        Ok(n) => write!(out, "{n}")?,
        Err(fault) => write!(out, "{fault}")?,
    }
    if let Some(cell) = cell {
        let source = format!(in alloc; "/dts-v1/; / {{ p = <({cell})>; }};")?;
        let read = read(alloc, source.as_str().as_bytes(), true)?;
        write!(out, " {}", read.as_str())?;
    }
    Ok(Some(out))
}

/// The tree of an expression whose operators stand after their operands.
fn tree_of(alloc: Global, text: &str) -> Result<Option<Expr>, AllocError> {
    let mut trees = Vec::new(alloc);
    for word in text.split(' ') {
        let tree = if let Ok(n) = word.parse::<u64>() {
            Some(Expr::Num(n))
        } else if let Some(op) = unary_of(word) {
            unary(alloc, op, trees.pop())?
        } else if let Some(op) = binary_of(word) {
            let right = trees.pop();
            binary(alloc, op, trees.pop(), right)?
        } else if word == "?" {
            let no_case = trees.pop();
            let yes_case = trees.pop();
            conditional(alloc, trees.pop(), yes_case, no_case)?
        } else {
            None
        };
        match tree {
            Some(tree) => trees.push(tree)?,
            None => return Ok(None),
        }
    }
    Ok(trees.pop())
}

fn unary(alloc: Global, op: UnOp, operand: Option<Expr>) -> Result<Option<Expr>, AllocError> {
    match operand {
        Some(operand) => Ok(Some(Expr::Un(op, Box::new(alloc, operand)?))),
        None => Ok(None),
    }
}

fn binary(
    alloc: Global,
    op: BinOp,
    left: Option<Expr>,
    right: Option<Expr>,
) -> Result<Option<Expr>, AllocError> {
    match (left, right) {
        (Some(left), Some(right)) => {
            let left = Box::new(alloc, left)?;
            Ok(Some(Expr::Bin(op, left, Box::new(alloc, right)?)))
        }
        _ => Ok(None),
    }
}

fn conditional(
    alloc: Global,
    test: Option<Expr>,
    yes_case: Option<Expr>,
    no_case: Option<Expr>,
) -> Result<Option<Expr>, AllocError> {
    match (test, yes_case, no_case) {
        (Some(test), Some(yes_case), Some(no_case)) => {
            let test = Box::new(alloc, test)?;
            let yes_case = Box::new(alloc, yes_case)?;
            Ok(Some(Expr::Cond(test, yes_case, Box::new(alloc, no_case)?)))
        }
        _ => Ok(None),
    }
}

/// The operator before an operand that is spelled so; `neg` stands for `-`.
fn unary_of(word: &str) -> Option<UnOp> {
    match word {
        "neg" => Some(UnOp::Neg),
        "~" => Some(UnOp::Flip),
        "!" => Some(UnOp::Not),
        _ => None,
    }
}

/// The operator between operands that is spelled so.
fn binary_of(word: &str) -> Option<BinOp> {
    match word {
        "*" => Some(BinOp::Mul),
        "/" => Some(BinOp::Div),
        "%" => Some(BinOp::Rem),
        "+" => Some(BinOp::Add),
        "-" => Some(BinOp::Sub),
        "<<" => Some(BinOp::Shl),
        ">>" => Some(BinOp::Shr),
        "<" => Some(BinOp::Lt),
        ">" => Some(BinOp::Gt),
        "<=" => Some(BinOp::Le),
        ">=" => Some(BinOp::Ge),
        "==" => Some(BinOp::Eq),
        "!=" => Some(BinOp::Ne),
        "&" => Some(BinOp::BitAnd),
        "^" => Some(BinOp::BitXor),
        "|" => Some(BinOp::BitOr),
        "&&" => Some(BinOp::And),
        "||" => Some(BinOp::Or),
        _ => None,
    }
}

fn show_stmts(out: &mut String, stmts: &[Stmt]) -> Result<(), AllocError> {
    for (at, stmt) in stmts.iter().enumerate() {
        if at > 0 {
            out.push_str(" ")?;
        }
        show_act(out, &stmt.act)?;
        write!(out, "@{}", stmt.at)?;
    }
    Ok(())
}

fn show_act(out: &mut String, act: &Act) -> Result<(), AllocError> {
    match act {
        Act::Open(target) => show_target(out, "O", target),
        Act::Close => out.push_str("C"),
        Act::Label(name) => write!(out, "L{}", name.as_str()),
        Act::Assign(name, parts) => {
            write!(out, "A{}", name.as_str())?;
            if !parts.is_empty() {
                out.push_str("=")?;
            }
            for part in parts.iter() {
                show_part(out, part)?;
            }
            Ok(())
        }
        Act::DelProp(name) => write!(out, "P{}", name.as_str()),
        Act::DelNode(target) => show_target(out, "D", target),
        Act::Omit(target) => show_target(out, "X", target),
    }
}

fn show_target(out: &mut String, mark: &str, target: &Target) -> Result<(), AllocError> {
    out.push_str(mark)?;
    match target {
        Target::Root => Ok(()),
        Target::Child(name) | Target::ByLabel(name) => out.push_str(name.as_str()),
        Target::ByPath(path) => write!(out, "{{{}}}", path.as_str()),
    }
}

fn show_part(out: &mut String, part: &RawPart) -> Result<(), AllocError> {
    match part {
        RawPart::Plain(part) => {
            let (begin, end) = match part.kind {
                Kind::Str => ("\"", "\""),
                Kind::Hex => ("[", "]"),
                _ => ("{", "}"),
            };
            out.push_str(begin)?;
            for byte in part.bytes.as_slice() {
                write!(out, "{byte:02x}")?;
            }
            out.push_str(end)
        }
        RawPart::Cells(cells) => show_cells(out, cells.as_slice()),
        RawPart::Path(target) => show_target(out, "&", target),
    }
}

fn show_cells(out: &mut String, cells: &[RawCell]) -> Result<(), AllocError> {
    out.push_str("<")?;
    for (at, cell) in cells.iter().enumerate() {
        if at > 0 {
            out.push_str(" ")?;
        }
        match cell {
            RawCell::Num(n) => write!(out, "{n}")?,
            RawCell::Ref(target) => show_target(out, "&", target)?,
        }
    }
    out.push_str(">")
}
