//! Where values begin, and what stands after them.

ghost use Rattle.std.specs.Prelude.{◌≡◌};
ghost use Rattle.edt_base.specs.YamlData.{value_of};
ghost use Rattle.yaml_profile.specs.Answers.{Leaves};
ghost use Rattle.yaml_profile.specs.Signs.{is_blank, is_flow_sign, is_word_sign, is_left_out};
ghost use Rattle.yaml_profile.specs.Signs.{begins_nothing, place_of, behind};
ghost use Rattle.yaml_profile.specs.Pieces.{after_item, end_flow, in_after_value, begin_block};
ghost use Rattle.yaml_profile.specs.Pieces.{begin_sign, is_value_sign, begin_plain, begin_value};
ghost use Rattle.yaml_profile.specs.Pieces.{in_at_value};
ghost use Rattle.yaml_profile.specs.Inner.Shown.{frames_of, shown, waiting_of};
ghost use Rattle.yaml_profile.specs.Fronts.{value_so_far};

use crate::block_text::ScalarText;
use crate::folding::FoldingText;
use crate::front::{Frame, Role, is_flow, list_of, pop, push};
use crate::keys::is_key_only;
use crate::reader::{Place, Reader, Waiting};
use crate::rest::{Here, Rest};
use crate::scalar::scalar_of;
use crate::stop::{Stop, stop_at};
use edt_base::{Rule, Yaml};
use std::alloc::Global;
use std::mem;

/// A space or a tab.
pub(crate) fn is_blank(c: char) -> bool
    ensures { result ≡ is_blank c }
{
    c == ' ' || c == '\t'
}

/// What ends a plain text inside a flow list.
pub(crate) fn is_flow_sign(c: char) -> bool
    ensures { result ≡ is_flow_sign c }
{
    c == ',' || c == '[' || c == ']' || c == '{' || c == '}'
}

fn is_word_sign(c: char) -> bool
    ensures { result ≡ is_word_sign c }
{
    c == '-' || c == '?' || c == ':'
}

fn is_left_out(c: char) -> bool
    ensures { result ≡ is_left_out c }
{
    c == '&' || c == '*' || c == '!' || c == '%' || c == '{'
}

fn is_value_sign(c: char) -> bool
    ensures { result ≡ is_value_sign c }
{
    c == '[' || c == '|' || c == '>' || is_left_out(c)
}

fn begins_nothing(c: char) -> bool
    ensures { result ≡ begins_nothing c }
{
    c == ',' || c == ']' || c == '}' || c == '#' || c == '@' || c == '`'
}

/// The byte at which a character that isn't taken is refused: a carriage return may begin a line
/// end.
pub(crate) fn place_of(here: Here) -> u64
    ensures { result ≡ place_of here.at here.c }
{
    if here.c == '\r' { here.at + 1 } else { here.at }
}

/// The byte at which what stands after a character is refused.
pub(crate) fn behind(here: Here, rest: &Rest<'_>) -> u64
    ensures { result ≡ behind here.at rest.now }
{
    if rest.begins_with('\r') {
        here.at + 2
    } else {
        here.at + 1
    }
}

/// The value so far; nothing stays of it.
pub(crate) fn take_so_far(
    alloc: Global,
    waiting: Waiting,
    text: &mut FoldingText,
    value: &mut Yaml,
) -> Yaml
    ensures { value_of result ≡ value_so_far (waiting_of waiting text.old (value_of value.old)) }
{
    match waiting {
        Waiting::Fresh => Yaml::Null,
        Waiting::Nothing => Yaml::Null,
        Waiting::Going => scalar_of(text.take_text(alloc)),
        Waiting::Whole => mem::replace(value, Yaml::Null),
    }
}

impl Reader {
    /// Takes what stands after an item of a flow list.
    #[tactic(auto, unfolding(crate::specs::Pieces::after_item), using(crate::proofs::FrameLaws::map_push))]
    pub(crate) fn after_item(&mut self, value: Yaml, here: Here) -> Result<(), Stop>
        ensures { Leaves (shown self.new) result
            (after_item (frames_of self.old.frames.items) (value_of value) here.at here.c) }
    {
        match pop(&mut self.frames) {
            Some(Frame::Flow { mut items }) => {
                if here.c != ',' && here.c != ']' {
                    return Err(stop_at(Rule::Y1, place_of(here)));
                }
                items.push(value)?;
                if here.c == ',' {
                    push(&mut self.frames, Frame::Flow { items })?;
                    self.await_value();
                } else {
                    self.value = list_of(items);
                    self.place = Place::After {
                        waiting: Waiting::Whole,
                        spaced: false,
                    };
                }
                Ok(())
            }
            _ => Err(stop_at(Rule::Y1, place_of(here))),
        }
    }

    /// Takes the bracket that ends a flow list without an item before it.
    #[tactic(auto, unfolding(crate::specs::Pieces::end_flow))]
    pub(crate) fn end_flow(&mut self, at: u64) -> Result<(), Stop>
        ensures { Leaves (shown self.new) result (end_flow (frames_of self.old.frames.items) at) }
    {
        match pop(&mut self.frames) {
            Some(Frame::Flow { items }) => {
                self.value = list_of(items);
                self.place = Place::After {
                    waiting: Waiting::Whole,
                    spaced: false,
                };
                Ok(())
            }
            _ => Err(stop_at(Rule::Y1, at)),
        }
    }

    /// Takes what stands after a whole value.
    #[tactic(auto, unfolding(crate::specs::Pieces::in_after_value))]
    pub(crate) fn in_after_value(
        &mut self,
        waiting: Waiting,
        spaced: bool,
        here: Here,
    ) -> Result<(), Stop>
        ensures { Leaves (shown self.new) result
            (in_after_value (frames_of self.old.frames.items)
            (waiting_of waiting self.old.text (value_of self.old.value)) spaced here.at here.c) }
    {
        if here.c == ' ' {
            self.place = Place::After {
                waiting,
                spaced: true,
            };
            Ok(())
        } else if here.c == '\n' {
            self.place = Place::Line {
                start: here.at + 1,
                waiting,
            };
            Ok(())
        } else if here.c == '#' && spaced {
            self.place = Place::Comment { waiting };
            Ok(())
        } else {
            let value = take_so_far(self.alloc, waiting, &mut self.text, &mut self.value);
            self.after_item(value, here)
        }
    }

    /// A block scalar begins.
    fn begin_block(&mut self, folded: bool, at: u64) -> Result<(), Stop>
        ensures { Leaves (shown self.new) result
            (begin_block (frames_of self.old.frames.items) folded at) }
    {
        if is_flow(self.frames.as_slice()) {
            return Err(stop_at(Rule::Y1, at));
        }
        self.block = ScalarText::new(self.alloc, folded);
        self.place = Place::Header {
            signed: false,
            spaced: false,
        };
        Ok(())
    }

    /// Takes the indicator of a value that isn't a text.
    #[tactic(auto, unfolding(crate::specs::Pieces::begin_sign))]
    fn begin_sign(&mut self, here: Here) -> Result<(), Stop>
        ensures { Leaves (shown self.new) result
            (begin_sign (frames_of self.old.frames.items) here.at here.c) }
    {
        match here.c {
            '[' => self.open_flow(here.at),
            '|' => self.begin_block(false, here.at),
            '>' => self.begin_block(true, here.at),
            _ => Err(stop_at(Rule::Y2, here.at)),
        }
    }

    /// A plain text begins.
    fn begin_plain(&mut self, role: Role, here: Here) -> Result<(), Stop>
        ensures { Leaves (shown self.new) result
            (begin_plain (frames_of self.old.frames.items) role here.at here.c) }
    {
        self.text = FoldingText::new(self.alloc);
        if here.c == '\t' {
            self.text.put_blank(here.c)?;
        } else {
            self.text.put(here.c)?;
        }
        self.place = Place::Plain {
            role,
            begun: here.at,
            spaced: false,
        };
        Ok(())
    }

    /// A value begins, or a further key.
    #[tactic(auto, unfolding(crate::specs::Pieces::begin_value))]
    pub(crate) fn begin_value(
        &mut self,
        role: Role,
        here: Here,
        rest: &Rest<'_>,
    ) -> Result<(), Stop>
        ensures { Leaves (shown self.new) result
            (begin_value (frames_of self.old.frames.items) role here.at here.c rest.now) }
    {
        let begun = here.at;
        if here.c == '"' {
            self.text = FoldingText::new(self.alloc);
            self.place = Place::Double { role, begun };
            Ok(())
        } else if here.c == '\'' {
            self.text = FoldingText::new(self.alloc);
            self.place = Place::Single { role, begun };
            Ok(())
        } else if is_word_sign(here.c) && rest.ends_word() {
            if here.c == '?' && rest.begins_with(' ') {
                Err(stop_at(Rule::Y2, here.at))
            } else {
                Err(stop_at(Rule::Y1, behind(here, rest)))
            }
        } else if is_value_sign(here.c) && !is_key_only(role) {
            self.begin_sign(here)
        } else if is_value_sign(here.c) || begins_nothing(here.c) {
            Err(stop_at(Rule::Y1, here.at))
        } else {
            self.begin_plain(role, here)
        }
    }

    /// Takes a character where a value may begin.
    #[tactic(auto, unfolding(crate::specs::Pieces::in_at_value))]
    pub(crate) fn in_at_value(
        &mut self,
        start: u64,
        mapped: bool,
        spaced: bool,
        here: Here,
        rest: &Rest<'_>,
    ) -> Result<(), Stop>
        ensures { Leaves (shown self.new) result
            (in_at_value (frames_of self.old.frames.items) start mapped spaced here.at here.c
            rest.now) }
    {
        if here.c == ' ' {
            self.place = Place::Value {
                start,
                mapped,
                spaced: true,
            };
            Ok(())
        } else if here.c == '\n' {
            self.place = Place::Line {
                start: here.at + 1,
                waiting: Waiting::Nothing,
            };
            Ok(())
        } else if here.c == '#' && spaced {
            self.place = Place::Comment {
                waiting: Waiting::Nothing,
            };
            Ok(())
        } else if here.c == ']' && is_flow(self.frames.as_slice()) {
            self.end_flow(here.at)
        } else {
            let role = if mapped {
                Role::Either(here.at.saturating_sub(start))
            } else {
                Role::Value
            };
            self.begin_value(role, here, rest)
        }
    }
}
