//! The reader: what is open, and what is kept of the innermost case.

ghost use Rattle.std.specs.Prelude.{◌≡◌};
ghost use Rattle.yaml_profile.specs.Reading.{at_start};
ghost use Rattle.yaml_profile.specs.Inner.Shown.{shown};

use crate::block_text::ScalarText;
use crate::folding::FoldingText;
use crate::front::{Frame, Role};
use edt_base::Yaml;
use std::alloc::Global;

/// What there is of the innermost value at the start of a line.
#[derive(Clone, Copy, Debug)]
pub enum Waiting {
    /// Nothing of the whole file.
    Fresh,
    /// Nothing.
    Nothing,
    /// A plain text that may go on: `text`.
    Going,
    /// All of it: `value`.
    Whole,
}

/// Where the reader stands in the innermost case.
#[derive(Clone, Copy, Debug)]
pub enum Place {
    /// In the spaces of the line that begins at `start`.
    Line {
        start: u64,
        waiting: Waiting,
    },
    /// Where a value may begin, on the line that begins at `start`.
    Value {
        start: u64,
        mapped: bool,
        spaced: bool,
    },
    /// In a plain text that began at `begun`; so for the other texts.
    Plain {
        role: Role,
        begun: u64,
        spaced: bool,
    },
    /// Between single quotes.
    Single {
        role: Role,
        begun: u64,
    },
    /// Before the second of two single quotes.
    Second {
        role: Role,
        begun: u64,
    },
    /// Between double quotes.
    Double {
        role: Role,
        begun: u64,
    },
    /// After a backslash.
    Escape {
        role: Role,
        begun: u64,
    },
    /// In the digits of `\x` and `\u`.
    Digits {
        role: Role,
        begun: u64,
        left: u8,
        number: u16,
    },
    /// After a quoted text.
    Quoted {
        role: Role,
        begun: u64,
        spaced: bool,
    },
    /// After `]` or `---`.
    After {
        waiting: Waiting,
        spaced: bool,
    },
    /// In a comment.
    Comment {
        waiting: Waiting,
    },
    /// Before so many more dashes of `---`.
    Mark {
        left: u8,
    },
    /// After `|` or `>`.
    Header {
        signed: bool,
        spaced: bool,
    },
    /// In a comment there.
    HeaderComment,
    /// In the spaces of a line of a block scalar.
    TextLine {
        start: u64,
    },
    /// After the spaces of a blank one.
    BlankEnd {
        spaces: u64,
    },
    /// In a line of its text.
    InText,
}

/// A file that is read up to a place.
#[derive(Debug, Drop)]
pub struct Reader {
    pub(crate) alloc: Global,
    /// The open collections, the innermost last.
    pub(crate) frames: Vec<Frame>,
    pub(crate) place: Place,
    /// The plain or quoted text that is read.
    pub(crate) text: FoldingText,
    /// The quoted text that was read last.
    pub(crate) quoted: String,
    /// The value that was read last.
    pub(crate) value: Yaml,
    /// The block scalar that is read.
    pub(crate) block: ScalarText,
}

impl Reader {
    /// Before the first character of a file.
    pub(crate) fn new(alloc: Global) -> Reader
        ensures { shown result ≡ at_start }
    {
        Reader {
            alloc,
            frames: Vec::new(alloc),
            place: Place::Line {
                start: 0,
                waiting: Waiting::Fresh,
            },
            text: FoldingText::new(alloc),
            quoted: String::new(alloc),
            value: Yaml::Null,
            block: ScalarText::new(alloc, false),
        }
    }
}
