//! Rows of `edt_base`: files, sinks and places of faults.
//!
//! - `calls` has calls of files in memory, one a line: `list` or `read`, a name, and how many names
//!   or bytes it takes at most. `held` names the files, one a line; each holds its own name.
//!   `failing` has the numbers of the calls that fail; with `good` none fails. The answer has what
//!   each call gives: `-` where it fails, `+` where there is too much.
//! - `pieces` has the texts that a sink in memory is given, one a line. `room` is how many bytes it
//!   has room for, `most` how many it takes at a write, and `failing` has the numbers of the writes
//!   that fail. The answer has for each piece whether it was taken, and what the sink then holds.
//! - `place` is the place of a fault: `byte`, `line`, `file` or `node`, a name, and a number where
//!   it has one. The answer is the fault of rule S1 there, as it is told.

use crate::table::{Row, numbers_of, text_of};
use edt_base::{
    Bytes, Fault, Files, GoodFiles, MemFiles, MemSink, NullSink, Place, ReadEnd, Rule, Text,
    write_text,
};
use std::alloc::{AllocError, Global};

pub fn answer(alloc: Global, row: &Row) -> Result<Option<String>, AllocError> {
    let mut out = String::new(alloc);
    if let Some(calls) = row.text("calls") {
        let held = held_by(alloc, row)?;
        if row.text("good").is_some() {
            push_calls(alloc, &mut GoodFiles::new(held), calls, &mut out)?;
        } else {
            let failing = numbers_of(alloc, row, "failing")?;
            push_calls(alloc, &mut MemFiles::new(held, failing), calls, &mut out)?;
        }
    } else if let Some(pieces) = row.text("pieces") {
        push_writes(alloc, row, pieces, &mut out)?;
    } else if let Some(place) = row.text("place") {
        let place = place_of(alloc, place)?;
        let fault = Fault {
            rule: Rule::S1,
            place,
        };
        write!(out, "{fault}")?;
    } else {
        return Ok(None);
    }
    Ok(Some(out))
}

/// The files of a row, each of which holds its name.
fn held_by(alloc: Global, row: &Row) -> Result<Vec<(Text, Bytes)>, AllocError> {
    let mut held = Vec::new(alloc);
    for name in row.text("held").unwrap_or("").split('\n') {
        let bytes = Bytes::new(Vec::from_slice(alloc, name.as_bytes())?);
        held.push((Text::new(String::from_str(alloc, name)?), bytes))?;
    }
    Ok(held)
}

fn push_calls<F: Files>(
    alloc: Global,
    files: &mut F,
    calls: &str,
    out: &mut String,
) -> Result<(), AllocError> {
    for line in calls.split('\n') {
        let (call, rest) = line.split_once(' ').unwrap_or((line, ""));
        let (name, most) = rest.split_once(' ').unwrap_or((rest, ""));
        let name = Text::new(String::from_str(alloc, name)?);
        let most = most.parse::<u32>().unwrap_or(0);
        if call == "list" {
            push_names(files.list(alloc, &name, most), out)?;
        } else {
            push_bytes(files.read(alloc, &name, u64::from(most)), out)?;
        }
        out.push_str(";")?;
    }
    Ok(())
}

fn push_names(answer: Result<Vec<Text>, ReadEnd>, out: &mut String) -> Result<(), AllocError> {
    match answer {
        Ok(names) => {
            for name in names.iter() {
                write!(out, " {}", name.as_str())?;
            }
            Ok(())
        }
        Err(end) => push_end(end, out),
    }
}

fn push_bytes(answer: Result<Bytes, ReadEnd>, out: &mut String) -> Result<(), AllocError> {
    match answer {
        Ok(bytes) => write!(out, " '{}'", text_of(bytes.as_slice())),
        Err(end) => push_end(end, out),
    }
}

fn push_end(end: ReadEnd, out: &mut String) -> Result<(), AllocError> {
    match end {
        ReadEnd::Failed => out.push_str(" -"),
        ReadEnd::TooBig => out.push_str(" +"),
        ReadEnd::Memory(e) => Err(e),
    }
}

fn push_writes(alloc: Global, row: &Row, pieces: &str, out: &mut String) -> Result<(), AllocError> {
    let most = row.number_or("most", 100).max(1);
    let failing = numbers_of(alloc, row, "failing")?;
    let mut sink = MemSink::new(alloc, row.number_or("room", 100), most, failing)?;
    for piece in pieces.split('\n') {
        let taken = write_text(&mut sink, piece.as_bytes()).is_ok();
        write!(out, "{taken} {}; ", text_of(sink.bytes()))?;
        if write_text(&mut NullSink::new(), piece.as_bytes()).is_err() {
            out.push_str("refused for nothing; ")?;
        }
    }
    Ok(())
}

fn place_of(alloc: Global, text: &str) -> Result<Place, AllocError> {
    let (kind, rest) = text.split_once(' ').unwrap_or((text, ""));
    let (name, number) = rest.split_once(' ').unwrap_or((rest, ""));
    let name = Text::new(String::from_str(alloc, name)?);
    let number = number.parse::<u64>().unwrap_or(0);
    Ok(match kind {
        "byte" => Place::Byte(name, number),
        "line" => Place::Line(name, number),
        "file" => Place::File(name),
        _ => Place::Node(name),
    })
}
