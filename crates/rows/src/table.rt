//! Tables of rows: what a layer is asked, and the answer that is wanted.
//!
//! A table is text. A line that begins with `#` is a comment, and an empty line ends a row. Every
//! other line gives a field of its row some text:
//!
//! - `NAME: TEXT` puts a line of text into the field, behind a newline if the field has text
//!   already;
//! - `NAME+ TEXT` goes on in the same line;
//! - `NAME*COUNT TEXT` goes on with so many copies of the text.
//!
//! In a text `\n`, `\r`, `\t`, `\s`, `\\` and `\xHH` stand for a newline, a carriage return, a tab,
//! a space, a backslash and any byte; in copies `\i` stands for the number of the copy, counted
//! from 0, and `\j` for the next number.

use std::alloc::{AllocError, Global};

/// A part of a row.
#[derive(Drop)]
struct Field {
    name: String,
    bytes: Vec<u8>,
}

/// A row of a table. It can be asked for its fields by their names.
#[derive(Drop)]
pub struct Row {
    /// The line on which it begins, counted from 1.
    pub line: u64,
    /// All of its lines have the form of a table's lines.
    pub is_formed: bool,
    fields: Vec<Field>,
}

impl Row {
    /// A row without fields.
    fn new(alloc: Global, line: u64) -> Row {
        Row {
            line,
            is_formed: true,
            fields: Vec::new(alloc),
        }
    }

    /// The bytes of a field; none where the row has no such field.
    pub fn bytes(&self, name: &str) -> Option<&[u8]> {
        for field in self.fields.iter() {
            if field.name.as_str() == name {
                return Some(field.bytes.as_slice());
            }
        }
        None
    }

    /// The text of a field; none where the row has no such field, or one that isn't UTF-8.
    pub fn text(&self, name: &str) -> Option<&str> {
        str::from_utf8(self.bytes(name)?).ok()
    }

    /// The number of a field, or the one that stands for it.
    pub fn number_or(&self, name: &str, other: u64) -> u64 {
        match self.text(name) {
            Some(text) => text.parse::<u64>().unwrap_or(other),
            None => other,
        }
    }

    /// Adds a line of the table. Says whether it has the form of one.
    fn add(&mut self, alloc: Global, line: &str) -> Result<bool, AllocError> {
        let (head, text) = line.split_once(' ').unwrap_or((line, ""));
        if let Some(name) = head.strip_suffix(':') {
            if !self.goes_on(alloc, name)? {
                self.fill("\n", 1)?;
            }
            self.fill(text, 1)
        } else if let Some(name) = head.strip_suffix('+') {
            self.goes_on(alloc, name)?;
            self.fill(text, 1)
        } else if let Some((name, count)) = head.split_once('*') {
            self.goes_on(alloc, name)?;
            self.fill(text, count.parse::<u32>().unwrap_or(0))
        } else {
            Ok(false)
        }
    }

    /// Makes the field of this name the last, a new one unless it is. Says whether it is new.
    fn goes_on(&mut self, alloc: Global, name: &str) -> Result<bool, AllocError> {
        if let Some(field) = self.fields.last() {
            if field.name.as_str() == name {
                return Ok(false);
            }
        }
        self.fields.push(Field {
            name: String::from_str(alloc, name)?,
            bytes: Vec::new(alloc),
        })?;
        Ok(true)
    }

    /// Adds copies of a text to the last field. Says whether its escapes are good.
    fn fill(&mut self, text: &str, copies: u32) -> Result<bool, AllocError> {
        let Some(field) = self.fields.last_mut() else {
            return Ok(false);
        };
        let mut is_good = copies > 0;
        for copy in 0..copies {
            is_good = push_read(&mut field.bytes, text.as_bytes(), copy)? && is_good;
        }
        Ok(is_good)
    }
}

/// Which byte of an escape comes next.
#[derive(Clone, Copy)]
enum Next {
    Plain,
    Escape,
    High,
    Low(u8),
    /// The text has a bad escape.
    Bad,
}

/// Adds the bytes for which a text stands. Says whether its escapes are good.
fn push_read(out: &mut Vec<u8>, text: &[u8], copy: u32) -> Result<bool, AllocError> {
    let mut next = Next::Plain;
    for byte in text {
        next = match next {
            Next::Plain if *byte == b'\\' => Next::Escape,
            Next::Plain => {
                out.push(*byte)?;
                Next::Plain
            }
            Next::Escape => push_escape(out, *byte, copy)?,
            Next::High => match digit(*byte) {
                Some(high) => Next::Low(high),
                None => Next::Bad,
            },
            Next::Low(high) => match digit(*byte) {
                Some(low) => {
                    out.push(high.wrapping_mul(16).wrapping_add(low))?;
                    Next::Plain
                }
                None => Next::Bad,
            },
            Next::Bad => Next::Bad,
        };
    }
    Ok(matches!(next, Next::Plain))
}

/// Adds what a backslash and this letter stand for.
fn push_escape(out: &mut Vec<u8>, letter: u8, copy: u32) -> Result<Next, AllocError> {
    match letter {
        b'n' => out.push(b'\n')?,
        b'r' => out.push(b'\r')?,
        b't' => out.push(b'\t')?,
        b's' => out.push(b' ')?,
        b'\\' => out.push(b'\\')?,
        b'i' => push_number(out, copy)?,
        b'j' => push_number(out, copy.saturating_add(1))?,
        b'x' => return Ok(Next::High),
        _ => return Ok(Next::Bad),
    }
    Ok(Next::Plain)
}

fn push_number(out: &mut Vec<u8>, number: u32) -> Result<(), AllocError> {
    let mut digits = itoa::Buffer::new();
    out.extend_from_slice(digits.format(number).as_bytes())
}

/// The number that a hexadecimal digit stands for.
fn digit(byte: u8) -> Option<u8> {
    match byte {
        b'0'..=b'9' => Some(byte - b'0'),
        b'a'..=b'f' => Some(byte - b'a' + 10),
        _ => None,
    }
}

/// The numbers of a field, with blanks between them.
pub fn numbers_of(alloc: Global, row: &Row, name: &str) -> Result<Vec<u32>, AllocError> {
    let mut numbers = Vec::new(alloc);
    for word in row.text(name).unwrap_or("").split(' ') {
        if let Ok(number) = word.parse::<u32>() {
            numbers.push(number)?;
        }
    }
    Ok(numbers)
}

/// Bytes as text, where they are.
pub fn text_of(bytes: &[u8]) -> &str {
    str::from_utf8(bytes).unwrap_or("no UTF-8")
}

/// The rows of a table.
pub fn rows(alloc: Global, table: &str) -> Result<Vec<Row>, AllocError> {
    let mut rows = Vec::new(alloc);
    let mut row = Row::new(alloc, 1);
    let mut number = 0u64;
    for line in table.split('\n') {
        number = number.saturating_add(1);
        if line.is_empty() {
            if !row.fields.is_empty() {
                rows.push(row)?;
            }
            row = Row::new(alloc, number.saturating_add(1));
        } else if !line.starts_with('#') {
            let is_formed = row.add(alloc, line)?;
            row.is_formed = row.is_formed && is_formed;
        }
    }
    if !row.fields.is_empty() {
        rows.push(row)?;
    }
    Ok(rows)
}
