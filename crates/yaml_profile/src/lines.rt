//! The starts of lines: which open blocks end there, and what begins.

ghost use Rattle.std.specs.Prelude.{◌≡◌, Ok, map};
ghost use Rattle.edt_base.specs.YamlData.{value_of};
ghost use Rattle.yaml_profile.specs.Answers.{Leaves};
ghost use Rattle.yaml_profile.specs.Layout.{is_dash, next_item, ends_block, next_entry, settle};
ghost use Rattle.yaml_profile.specs.Layout.{begin_comment, blank_line, begin_on_line};
ghost use Rattle.yaml_profile.specs.Layout.{value_on_line, block_line, flow_line, mark_line};
ghost use Rattle.yaml_profile.specs.Layout.{line_content, in_line, in_comment, in_mark};
ghost use Rattle.yaml_profile.specs.Inner.Shown.{frame_of, frames_of, shown, waiting_of};

use crate::front::{Frame, Role, close, is_deeper, is_flow, is_map_at, pop, push};
use crate::reader::{Place, Reader, Waiting};
use crate::rest::{Here, Rest};
use crate::scalar::scalar_of;
use crate::stop::{Stop, stop_at};
use crate::values::{behind, place_of};
use edt_base::{Rule, Yaml};
use std::mem;

/// Whether this is a dash of a list.
fn is_dash(here: Here, rest: &Rest<'_>) -> bool
    ensures { result ≡ is_dash here.c rest.now }
{
    here.c == '-' && rest.ends_word()
}

/// Whether the innermost block ends where something begins at this column.
fn ends_block(frame: &Frame, around: &[Frame], column: u64, dash: bool) -> bool
    ensures { result ≡ ends_block (frame_of frame.now) (frames_of around.now) column dash }
{
    match frame {
        Frame::Map { column: own, .. } => column < *own,
        Frame::List { column: own, .. } => column < *own
            || (*own == column && !dash && is_map_at(*own, around)),
        Frame::Flow { .. } => false,
    }
}

impl Reader {
    /// Takes the dash of a further item.
    #[tactic(auto, unfolding(crate::specs::Layout::next_item))]
    fn next_item(
        &mut self,
        column: u64,
        items: Vec<Yaml>,
        start: u64,
        here: Here,
        rest: &Rest<'_>,
    ) -> Result<(), Stop>
        ensures { Leaves (shown self.new) result
            (next_item (frames_of self.old.frames.items) column (map value_of items.items) start
            here.at here.c rest.now) }
    {
        if is_dash(here, rest) {
            push(&mut self.frames, Frame::List { column, items })?;
            self.place = Place::Value {
                start,
                mapped: true,
                spaced: false,
            };
            Ok(())
        } else if here.c == '-' {
            Err(stop_at(Rule::Y1, behind(here, rest)))
        } else {
            Err(stop_at(Rule::Y1, place_of(here)))
        }
    }

    /// A further entry of the block at this column begins.
    #[tactic(auto, unfolding(crate::specs::Layout::next_entry), using(crate::proofs::FrameLaws::map_push))]
    fn next_entry(
        &mut self,
        frame: Frame,
        value: Yaml,
        start: u64,
        here: Here,
        rest: &Rest<'_>,
    ) -> Result<(), Stop>
        ensures { Leaves (shown self.new) result
            (next_entry (frame_of frame) (frames_of self.old.frames.items) (value_of value) start
            here.at here.c rest.now) }
    {
        let column = here.at.saturating_sub(start);
        match frame {
            Frame::Map {
                column: own,
                keys,
                mut values,
            } => {
                if own != column {
                    return Err(stop_at(Rule::Y1, place_of(here)));
                }
                values.push(value)?;
                push(
                    &mut self.frames,
                    Frame::Map {
                        column: own,
                        keys,
                        values,
                    },
                )?;
                self.begin_value(Role::Key, here, rest)
            }
            Frame::List {
                column: own,
                mut items,
            } => {
                if own != column {
                    return Err(stop_at(Rule::Y1, place_of(here)));
                }
                items.push(value)?;
                self.next_item(own, items, start, here, rest)
            }
            Frame::Flow { .. } => Err(stop_at(Rule::Y1, place_of(here))),
        }
    }

    /// The value is whole, and something begins at a column: closes the blocks that end there.
    #[tactic(auto, unfolding(crate::specs::Layout::settle))]
    fn settle(&mut self, value: Yaml, start: u64, here: Here, rest: &Rest<'_>) -> Result<(), Stop>
        ensures { Leaves (shown self.new) result
            (settle (frames_of self.old.frames.items) (value_of value) start here.at here.c
            rest.now) }
    {
        let column = here.at.saturating_sub(start);
        let dash = is_dash(here, rest);
        let mut value = value;
        while let Some(frame) = pop(&mut self.frames) {
            if !ends_block(&frame, self.frames.as_slice(), column, dash) {
                return self.next_entry(frame, value, start, here, rest);
            }
            value = close(self.alloc, frame, value)?;
        }
        Err(stop_at(Rule::Y1, place_of(here)))
    }

    /// A value begins on a line of its own.
    #[tactic(auto, unfolding(crate::specs::Layout::begin_on_line))]
    fn begin_on_line(&mut self, start: u64, here: Here, rest: &Rest<'_>) -> Result<(), Stop>
        ensures { Leaves (shown self.new) result
            (begin_on_line (frames_of self.old.frames.items) start here.at here.c rest.now) }
    {
        let column = here.at.saturating_sub(start);
        if is_dash(here, rest) {
            self.open_list(start, column, here.at)
        } else {
            self.begin_value(Role::Either(column), here, rest)
        }
    }

    /// Something begins where no value stands yet.
    #[tactic(auto, unfolding(crate::specs::Layout::value_on_line))]
    fn value_on_line(&mut self, start: u64, here: Here, rest: &Rest<'_>) -> Result<(), Stop>
        ensures { Leaves (shown self.new) result
            (value_on_line (frames_of self.old.frames.items) start here.at here.c rest.now) }
    {
        let column = here.at.saturating_sub(start);
        if is_deeper(column, self.frames.as_slice()) {
            self.begin_on_line(start, here, rest)
        } else if is_map_at(column, self.frames.as_slice()) && is_dash(here, rest) {
            self.open_list(start, column, here.at)
        } else {
            self.settle(Yaml::Null, start, here, rest)
        }
    }

    /// Something begins on a line outside flow lists.
    #[tactic(auto, unfolding(crate::specs::Layout::block_line))]
    fn block_line(
        &mut self,
        waiting: Waiting,
        start: u64,
        here: Here,
        rest: &Rest<'_>,
    ) -> Result<(), Stop>
        ensures { Leaves (shown self.new) result
            (block_line (frames_of self.old.frames.items)
            (waiting_of waiting self.old.text (value_of self.old.value)) start here.at here.c
            rest.now) }
    {
        match waiting {
            Waiting::Fresh | Waiting::Nothing => self.value_on_line(start, here, rest),
            Waiting::Going => {
                if is_deeper(here.at.saturating_sub(start), self.frames.as_slice()) {
                    return self.in_plain(Role::Value, here.at, false, here, rest);
                }
                let value = scalar_of(self.text.take_text(self.alloc));
                self.settle(value, start, here, rest)
            }
            Waiting::Whole => {
                let value = self.take_value();
                self.settle(value, start, here, rest)
            }
        }
    }

    /// The value that was read last.
    fn take_value(&mut self) -> Yaml
        ensures taken { value_of result ≡ value_of self.old.value }
        ensures frames { self.new.frames ≡ self.old.frames }
    {
        mem::replace(&mut self.value, Yaml::Null)
    }

    /// Something stands on a line of a flow list.
    #[tactic(auto, unfolding(crate::specs::Layout::flow_line))]
    fn flow_line(
        &mut self,
        waiting: Waiting,
        start: u64,
        here: Here,
        rest: &Rest<'_>,
    ) -> Result<(), Stop>
        ensures { Leaves (shown self.new) result
            (flow_line (frames_of self.old.frames.items)
            (waiting_of waiting self.old.text (value_of self.old.value)) start here.at here.c
            rest.now) }
    {
        match waiting {
            Waiting::Fresh | Waiting::Nothing => {
                if here.c == ']' {
                    self.end_flow(here.at)
                } else {
                    self.begin_value(Role::Value, here, rest)
                }
            }
            Waiting::Going => {
                if is_deeper(here.at.saturating_sub(start), self.frames.as_slice()) {
                    return self.in_plain(Role::Value, here.at, false, here, rest);
                }
                let value = scalar_of(self.text.take_text(self.alloc));
                self.after_item(value, here)
            }
            Waiting::Whole => {
                let value = self.take_value();
                self.after_item(value, here)
            }
        }
    }

    /// `---` or `...` begins.
    fn mark_line(&mut self, waiting: Waiting, here: Here) -> Result<(), Stop>
        ensures { Leaves (shown self.new) result
            (mark_line (frames_of self.old.frames.items)
            (waiting_of waiting self.old.text (value_of self.old.value)) here.at here.c) }
    {
        match waiting {
            Waiting::Fresh => {
                if here.c == '-' {
                    self.place = Place::Mark { left: 2 };
                    Ok(())
                } else {
                    Err(stop_at(Rule::Y2, here.at))
                }
            }
            _ => Err(stop_at(Rule::Y2, here.at)),
        }
    }

    /// Takes the first character of a line that is no space.
    #[tactic(auto, unfolding(crate::specs::Layout::line_content))]
    fn line_content(
        &mut self,
        waiting: Waiting,
        start: u64,
        here: Here,
        rest: &Rest<'_>,
    ) -> Result<(), Stop>
        ensures { Leaves (shown self.new) result
            (line_content (frames_of self.old.frames.items)
            (waiting_of waiting self.old.text (value_of self.old.value)) start here.at here.c
            rest.now) }
    {
        if is_flow(self.frames.as_slice()) {
            self.flow_line(waiting, start, here, rest)
        } else if here.at.saturating_sub(start) == 0 && rest.ends_mark(here.c) {
            self.mark_line(waiting, here)
        } else {
            self.block_line(waiting, start, here, rest)
        }
    }

    /// A comment ends a plain text.
    fn begin_comment(&mut self, waiting: Waiting) -> Result<(), Stop>
        ensures { Leaves (shown self.new) result
            (begin_comment (frames_of self.old.frames.items)
            (waiting_of waiting self.old.text (value_of self.old.value))) }
    {
        match waiting {
            Waiting::Going => {
                self.value = scalar_of(self.text.take_text(self.alloc));
                self.place = Place::Comment {
                    waiting: Waiting::Whole,
                };
            }
            _ => self.place = Place::Comment { waiting },
        }
        Ok(())
    }

    /// A line ends that has only spaces.
    fn blank_line(&mut self, waiting: Waiting, here: Here) -> Result<(), Stop>
        ensures { Leaves (shown self.new) result
            (blank_line (frames_of self.old.frames.items)
            (waiting_of waiting self.old.text (value_of self.old.value)) here.at) }
    {
        if let Waiting::Going = waiting {
            self.text.end_line()?;
        }
        self.place = Place::Line {
            start: here.at + 1,
            waiting,
        };
        Ok(())
    }

    /// Takes a character at the start of a line.
    #[tactic(auto, unfolding(crate::specs::Layout::in_line))]
    pub(crate) fn in_line(
        &mut self,
        waiting: Waiting,
        start: u64,
        here: Here,
        rest: &Rest<'_>,
    ) -> Result<(), Stop>
        ensures { Leaves (shown self.new) result
            (in_line (frames_of self.old.frames.items)
            (waiting_of waiting self.old.text (value_of self.old.value)) start here.at here.c
            rest.now) }
    {
        match here.c {
            ' ' => {
                self.place = Place::Line { start, waiting };
                Ok(())
            }
            '\n' => self.blank_line(waiting, here),
            '\t' => Err(stop_at(Rule::Y1, here.at)),
            '#' => self.begin_comment(waiting),
            _ => self.line_content(waiting, start, here, rest),
        }
    }

    /// Takes a character of a comment.
    #[tactic(auto, unfolding(crate::specs::Layout::in_comment))]
    pub(crate) fn in_comment(&mut self, waiting: Waiting, here: Here)
        ensures { in_comment (frames_of self.old.frames.items)
            (waiting_of waiting self.old.text (value_of self.old.value)) here.at here.c
            ≡ Ok (shown self.new) }
    {
        if here.c == '\n' {
            self.place = Place::Line {
                start: here.at + 1,
                waiting,
            };
        } else {
            self.place = Place::Comment { waiting };
        }
    }

    /// Takes a dash of a `---`.
    #[tactic(auto, unfolding(crate::specs::Layout::in_mark))]
    pub(crate) fn in_mark(&mut self, left: u8)
        ensures { in_mark (frames_of self.old.frames.items) left ≡ Ok (shown self.new) }
    {
        if left <= 1 {
            self.place = Place::After {
                waiting: Waiting::Nothing,
                spaced: false,
            };
        } else {
            self.place = Place::Mark { left: left - 1 };
        }
    }
}
