//! Block scalars, a character at a time.

ghost use Rattle.std.specs.Prelude.{◌≡◌, ◌<◌, ◌+◌, ◌^◌, Ok, true, false};
ghost use Rattle.yaml_profile.specs.Answers.{Leaves};
ghost use Rattle.yaml_profile.specs.Signs.{is_digit};
ghost use Rattle.yaml_profile.specs.Fronts.{front, InHeader};
ghost use Rattle.yaml_profile.specs.Layout.{with_chomp, in_header, in_header_comment, is_text_line};
ghost use Rattle.yaml_profile.specs.Layout.{begin_text, is_indented, end_blank, end_block};
ghost use Rattle.yaml_profile.specs.Layout.{at_text_line, at_blank_end, in_text_line};
ghost use Rattle.yaml_profile.specs.Inner.Shown.{frames_of, shown};

use crate::block_text::{Chomp, ScalarText};
use crate::front::{Frame, is_deeper};
use crate::reader::{Place, Reader, Waiting};
use crate::rest::{Here, Rest};
use crate::stop::{Stop, stop_at};
use crate::values::place_of;
use edt_base::{Rule, Text, Yaml};

/// Whether the line that has this column is one of text.
fn is_text_line(frames: &[Frame], block: &ScalarText, column: u64) -> bool
    ensures { result ≡ is_text_line (frames_of frames.now) block.now column }
{
    match block.indent() {
        None => is_deeper(column, frames),
        Some(indent) => indent <= column,
    }
}

/// Whether the indentation is complete at a column.
fn is_indented(block: &ScalarText, column: u64) -> bool
    ensures { result ≡ is_indented block.now column }
{
    match block.indent() {
        None => false,
        Some(indent) => indent <= column,
    }
}

fn is_digit(c: char) -> bool
    ensures { result ≡ is_digit c }
{
    '0' <= c && c <= '9'
}

impl Reader {
    /// Takes what stands after `|` or `>`.
    #[tactic(auto, unfolding(crate::specs::Layout::in_header))]
    pub(crate) fn in_header(&mut self, signed: bool, spaced: bool, here: Here) -> Result<(), Stop>
        ensures { Leaves (shown self.new) result
            (in_header (frames_of self.old.frames.items) self.old.block signed spaced here.at
            here.c) }
    {
        if here.c == ' ' {
            self.place = Place::Header {
                signed,
                spaced: true,
            };
            Ok(())
        } else if here.c == '\n' {
            self.place = Place::TextLine { start: here.at + 1 };
            Ok(())
        } else if here.c == '#' && spaced {
            self.place = Place::HeaderComment;
            Ok(())
        } else if is_digit(here.c) && !spaced {
            Err(stop_at(Rule::Y2, here.at))
        } else if (here.c == '+' || here.c == '-') && !spaced && !signed {
            self.set_chomp(here.c);
            Ok(())
        } else {
            Err(stop_at(Rule::Y1, place_of(here)))
        }
    }

    /// Takes the indicator after `|` or `>`.
    fn set_chomp(&mut self, c: char)
        ensures { shown self.new ≡ front (frames_of self.old.frames.items)
            (InHeader (with_chomp self.old.block c) true false) }
    {
        if c == '+' {
            self.block.set_chomp(Chomp::Keep);
        } else {
            self.block.set_chomp(Chomp::Strip);
        }
        self.place = Place::Header {
            signed: true,
            spaced: false,
        };
    }

    /// Takes a character of a comment after `|` or `>`.
    #[tactic(auto, unfolding(crate::specs::Layout::in_header_comment))]
    pub(crate) fn in_header_comment(&mut self, here: Here)
        ensures { in_header_comment (frames_of self.old.frames.items) self.old.block here.at here.c
            ≡ Ok (shown self.new) }
    {
        if here.c == '\n' {
            self.place = Place::TextLine { start: here.at + 1 };
        } else {
            self.place = Place::HeaderComment;
        }
    }

    /// A line of text begins.
    fn begin_text(&mut self, column: u64, c: char) -> Result<(), Stop>
        ensures { Leaves (shown self.new) result
            (begin_text (frames_of self.old.frames.items) self.old.block column c) }
    {
        match self.block.indent() {
            None => self.block.first_line(self.alloc, column, c)?,
            Some(_) => self.block.begin_line(c)?,
        }
        self.place = Place::InText;
        Ok(())
    }

    /// A line ends that has only spaces.
    fn end_blank(&mut self, spaces: u64, at: u64) -> Result<(), Stop>
        requires { at < 2 ^ 63 + 4 }
        ensures { Leaves (shown self.new) result
            (end_blank (frames_of self.old.frames.items) spaces self.old.block at) }
    {
        self.block.blank_line(spaces)?;
        self.place = Place::TextLine { start: at + 1 };
        Ok(())
    }

    /// The block scalar ends before the line on which this stands.
    fn end_block(&mut self, start: u64, here: Here, rest: &Rest<'_>) -> Result<(), Stop>
        ensures { Leaves (shown self.new) result
            (end_block (frames_of self.old.frames.items) self.old.block start here.at here.c
            rest.now) }
    {
        let text = self.block.take(self.alloc)?;
        self.value = Yaml::Str(Text::new(text));
        self.in_line(Waiting::Whole, start, here, rest)
    }

    /// Takes a character at the start of a line of a block scalar.
    #[tactic(auto, unfolding(crate::specs::Layout::at_text_line))]
    pub(crate) fn at_text_line(
        &mut self,
        start: u64,
        here: Here,
        rest: &Rest<'_>,
    ) -> Result<(), Stop>
        ensures { Leaves (shown self.new) result
            (at_text_line (frames_of self.old.frames.items) self.old.block start here.at here.c
            rest.now) }
    {
        let column = here.at.saturating_sub(start);
        if here.c == '\n' {
            self.end_blank(column, here.at)
        } else if here.c == '\r' && rest.begins_with('\n') {
            self.place = Place::BlankEnd { spaces: column };
            Ok(())
        } else if here.c == ' ' && !is_indented(&self.block, column) {
            self.place = Place::TextLine { start };
            Ok(())
        } else if is_text_line(self.frames.as_slice(), &self.block, column)
            && !(column == 0 && rest.ends_mark(here.c))
        {
            self.begin_text(column, here.c)
        } else {
            self.end_block(start, here, rest)
        }
    }

    /// Takes the line end after the spaces of a blank line.
    #[tactic(auto, unfolding(crate::specs::Layout::at_blank_end))]
    pub(crate) fn at_blank_end(&mut self, spaces: u64, here: Here) -> Result<(), Stop>
        ensures { Leaves (shown self.new) result
            (at_blank_end (frames_of self.old.frames.items) spaces self.old.block here.at) }
    {
        self.end_blank(spaces, here.at)
    }

    /// Takes a character of a line of text.
    #[tactic(auto, unfolding(crate::specs::Layout::in_text_line))]
    pub(crate) fn in_text_line(&mut self, here: Here) -> Result<(), Stop>
        ensures { Leaves (shown self.new) result
            (in_text_line (frames_of self.old.frames.items) self.old.block here.at here.c) }
    {
        if here.c == '\n' {
            self.place = Place::TextLine { start: here.at + 1 };
        } else {
            self.block.go_on(here.c)?;
            self.place = Place::InText;
        }
        Ok(())
    }
}
