//! Plain and quoted texts, a character at a time.

ghost use Rattle.std.specs.Prelude.{◌≡◌, if◌then◌else◌, string_bytes};
ghost use Rattle.yaml_profile.specs.Answers.{Leaves};
ghost use Rattle.yaml_profile.specs.Folding.{end_line, join_line};
ghost use Rattle.yaml_profile.specs.Pieces.{plain_comment, plain_line, more_plain, in_plain};
ghost use Rattle.yaml_profile.specs.Pieces.{end_quotes, single_line, double_line, in_single};
ghost use Rattle.yaml_profile.specs.Pieces.{at_second_quote, in_double, escaped, put_escaped};
ghost use Rattle.yaml_profile.specs.Pieces.{in_escape, end_digits, in_digits, quoted_key};
ghost use Rattle.yaml_profile.specs.Pieces.{in_after_quoted};
ghost use Rattle.yaml_profile.specs.Inner.Shown.{frames_of, shown};

use crate::front::{Role, is_flow};
use crate::keys::{is_key_only, is_value_only};
use crate::reader::{Place, Reader, Waiting};
use crate::rest::{Here, Rest};
use crate::scalar::{digit, scalar_of};
use crate::stop::{Stop, stop_at};
use crate::values::{behind, is_blank, is_flow_sign, place_of};
use edt_base::{Rule, Text, Yaml};
use std::mem;

/// The character of an escape of one character, 256 where it is none.
fn escaped(c: char) -> u32
    ensures { result ≡ escaped c }
{
    match c {
        '0' => 0,
        'a' => 7,
        'b' => 8,
        't' => 9,
        'n' => 10,
        'v' => 11,
        'f' => 12,
        'r' => 13,
        'e' => 27,
        '"' => 34,
        '/' => 47,
        '\\' => 92,
        _ => 256,
    }
}

impl Reader {
    /// A comment ends a plain text.
    fn plain_comment(&mut self, role: Role, at: u64) -> Result<(), Stop>
        ensures { Leaves (shown self.new) result
            (plain_comment (frames_of self.old.frames.items) role self.old.text at) }
    {
        if is_key_only(role) {
            return Err(stop_at(Rule::Y1, at));
        }
        self.value = scalar_of(self.text.take_text(self.alloc));
        self.place = Place::Comment {
            waiting: Waiting::Whole,
        };
        Ok(())
    }

    /// A line of a plain text ends.
    fn plain_line(&mut self, role: Role, here: Here) -> Result<(), Stop>
        ensures { Leaves (shown self.new) result
            (plain_line (frames_of self.old.frames.items) role self.old.text here.at) }
    {
        if is_key_only(role) {
            return Err(stop_at(Rule::Y1, here.at));
        }
        self.text.end_line()?;
        self.place = Place::Line {
            start: here.at + 1,
            waiting: Waiting::Going,
        };
        Ok(())
    }

    /// Takes a character of a plain text, or what ends it.
    #[tactic(auto, unfolding(crate::specs::Pieces::in_plain))]
    pub(crate) fn in_plain(
        &mut self,
        role: Role,
        begun: u64,
        spaced: bool,
        here: Here,
        rest: &Rest<'_>,
    ) -> Result<(), Stop>
        ensures { Leaves (shown self.new) result
            (in_plain (frames_of self.old.frames.items) self.old.text role begun spaced here.at
            here.c rest.now) }
    {
        if here.c == ':' && rest.ends_word() {
            let key = self.text.take_text(self.alloc);
            self.plain_key(role, key, begun, behind(here, rest))
        } else if here.c == '#' && spaced {
            self.plain_comment(role, here.at)
        } else if here.c == '\n' {
            self.plain_line(role, here)
        } else if is_flow_sign(here.c) && is_flow(self.frames.as_slice()) {
            let value = scalar_of(self.text.take_text(self.alloc));
            self.after_item(value, here)
        } else {
            self.more_plain(role, begun, here)
        }
    }

    /// Takes a character of a plain text.
    fn more_plain(&mut self, role: Role, begun: u64, here: Here) -> Result<(), Stop>
        ensures { Leaves (shown self.new) result
            (more_plain (frames_of self.old.frames.items) self.old.text role begun here.c) }
    {
        if is_blank(here.c) {
            self.text.put_blank(here.c)?;
        } else {
            self.text.put(here.c)?;
        }
        self.place = Place::Plain {
            role,
            begun,
            spaced: here.c == ' ',
        };
        Ok(())
    }

    /// A line ends between single quotes.
    fn single_line(&mut self, role: Role, begun: u64, at: u64) -> Result<(), Stop>
        ensures { Leaves (shown self.new) result
            (single_line (frames_of self.old.frames.items) role (end_line self.old.text) begun at) }
    {
        if is_key_only(role) {
            return Err(stop_at(Rule::Y1, at));
        }
        self.text.end_line()?;
        self.place = Place::Single {
            role: Role::Value,
            begun,
        };
        Ok(())
    }

    /// The closing quote.
    fn end_quotes(&mut self, role: Role, begun: u64) -> Result<(), Stop>
        ensures { Leaves (shown self.new) result
            (end_quotes (frames_of self.old.frames.items) self.old.text role begun) }
    {
        self.quoted = self.text.take_quoted(self.alloc)?;
        self.place = Place::Quoted {
            role,
            begun,
            spaced: false,
        };
        Ok(())
    }

    /// Takes a character between single quotes, or the closing one.
    #[tactic(auto, unfolding(crate::specs::Pieces::in_single))]
    pub(crate) fn in_single(
        &mut self,
        role: Role,
        begun: u64,
        here: Here,
        rest: &Rest<'_>,
    ) -> Result<(), Stop>
        ensures { Leaves (shown self.new) result
            (in_single (frames_of self.old.frames.items) self.old.text role begun here.at here.c
            rest.now) }
    {
        if here.c == '\'' {
            if rest.begins_with('\'') {
                self.place = Place::Second { role, begun };
                return Ok(());
            }
            return self.end_quotes(role, begun);
        }
        if here.c == '\n' {
            return self.single_line(role, begun, here.at);
        }
        if is_blank(here.c) {
            self.text.put_blank(here.c)?;
        } else {
            self.text.put(here.c)?;
        }
        self.place = Place::Single { role, begun };
        Ok(())
    }

    /// Takes the second of two single quotes.
    #[tactic(auto, unfolding(crate::specs::Pieces::at_second_quote))]
    pub(crate) fn at_second_quote(&mut self, role: Role, begun: u64, here: Here) -> Result<(), Stop>
        ensures { Leaves (shown self.new) result
            (at_second_quote (frames_of self.old.frames.items) self.old.text role begun here.c) }
    {
        self.text.put(here.c)?;
        self.place = Place::Single { role, begun };
        Ok(())
    }

    /// A line ends between double quotes; after a backslash it joins.
    fn double_line(&mut self, role: Role, begun: u64, at: u64, joins: bool) -> Result<(), Stop>
        ensures { Leaves (shown self.new) result
            (double_line (frames_of self.old.frames.items) role
            (if joins then join_line self.old.text else end_line self.old.text) begun at) }
    {
        if is_key_only(role) {
            return Err(stop_at(Rule::Y1, at));
        }
        if joins {
            self.text.join_line()?;
        } else {
            self.text.end_line()?;
        }
        self.place = Place::Double {
            role: Role::Value,
            begun,
        };
        Ok(())
    }

    /// Takes a character between double quotes, or the closing one.
    #[tactic(auto, unfolding(crate::specs::Pieces::in_double))]
    pub(crate) fn in_double(&mut self, role: Role, begun: u64, here: Here) -> Result<(), Stop>
        ensures { Leaves (shown self.new) result
            (in_double (frames_of self.old.frames.items) self.old.text role begun here.at here.c) }
    {
        if here.c == '"' {
            return self.end_quotes(role, begun);
        }
        if here.c == '\\' {
            self.place = Place::Escape { role, begun };
            return Ok(());
        }
        if here.c == '\n' {
            return self.double_line(role, begun, here.at, false);
        }
        if is_blank(here.c) {
            self.text.put_blank(here.c)?;
        } else {
            self.text.put(here.c)?;
        }
        self.place = Place::Double { role, begun };
        Ok(())
    }

    /// Takes the character after a backslash.
    #[tactic(auto, unfolding(crate::specs::Pieces::in_escape))]
    pub(crate) fn in_escape(&mut self, role: Role, begun: u64, here: Here) -> Result<(), Stop>
        ensures { Leaves (shown self.new) result
            (in_escape (frames_of self.old.frames.items) self.old.text role begun here.at here.c) }
    {
        match here.c {
            'x' => {
                self.place = Place::Digits {
                    role,
                    begun,
                    left: 2,
                    number: 0,
                };
                Ok(())
            }
            'u' => {
                self.place = Place::Digits {
                    role,
                    begun,
                    left: 4,
                    number: 0,
                };
                Ok(())
            }
            '\n' => self.double_line(role, begun, here.at, true),
            _ => self.put_escaped(role, begun, here),
        }
    }

    /// Takes an escape of one character.
    fn put_escaped(&mut self, role: Role, begun: u64, here: Here) -> Result<(), Stop>
        ensures { Leaves (shown self.new) result
            (put_escaped (frames_of self.old.frames.items) self.old.text role begun here.at here.c) }
    {
        let code = escaped(here.c);
        if code == 256 {
            return Err(stop_at(Rule::Y1, place_of(here)));
        }
        self.text.put(code as u8 as char)?;
        self.place = Place::Double { role, begun };
        Ok(())
    }

    /// The last digit of an escape is read.
    fn end_digits(&mut self, role: Role, begun: u64, at: u64, number: u16) -> Result<(), Stop>
        ensures { Leaves (shown self.new) result
            (end_digits (frames_of self.old.frames.items) self.old.text role begun at number) }
    {
        match char::from_u32(number as u32) {
            Some(c) => {
                self.text.put(c)?;
                self.place = Place::Double { role, begun };
                Ok(())
            }
            None => Err(stop_at(Rule::Y1, at)),
        }
    }

    /// Takes a digit of an escape.
    #[tactic(auto, unfolding(crate::specs::Pieces::in_digits))]
    pub(crate) fn in_digits(
        &mut self,
        role: Role,
        begun: u64,
        left: u8,
        number: u16,
        here: Here,
    ) -> Result<(), Stop>
        ensures { Leaves (shown self.new) result
            (in_digits (frames_of self.old.frames.items) self.old.text role begun left number
            here.at here.c) }
    {
        let value = digit(here.c as u32);
        if value == 16 {
            return Err(stop_at(Rule::Y1, here.at));
        }
        let number = ((number as u32 * 16 + value) % 65_536) as u16;
        if left <= 1 {
            return self.end_digits(role, begun, here.at, number);
        }
        self.place = Place::Digits {
            role,
            begun,
            left: left - 1,
            number,
        };
        Ok(())
    }

    /// Takes a colon after a quoted text.
    fn quoted_key(
        &mut self,
        role: Role,
        begun: u64,
        here: Here,
        rest: &Rest<'_>,
    ) -> Result<(), Stop>
        ensures { Leaves (shown self.new) result
            (quoted_key (frames_of self.old.frames.items) (string_bytes self.old.quoted) role begun
            here.at rest.now) }
    {
        if rest.ends_word() || is_value_only(role) {
            let key = mem::replace(&mut self.quoted, String::new(self.alloc));
            self.key_of(role, key, begun, here.at)
        } else {
            Err(stop_at(Rule::Y1, behind(here, rest)))
        }
    }

    /// Takes what stands after a quoted text.
    #[tactic(auto, unfolding(crate::specs::Pieces::in_after_quoted))]
    pub(crate) fn in_after_quoted(
        &mut self,
        role: Role,
        begun: u64,
        spaced: bool,
        here: Here,
        rest: &Rest<'_>,
    ) -> Result<(), Stop>
        ensures { Leaves (shown self.new) result
            (in_after_quoted (frames_of self.old.frames.items) (string_bytes self.old.quoted) role
            begun spaced here.at here.c rest.now) }
    {
        if here.c == ' ' {
            self.place = Place::Quoted {
                role,
                begun,
                spaced: true,
            };
            Ok(())
        } else if here.c == ':' {
            self.quoted_key(role, begun, here, rest)
        } else if is_key_only(role) {
            Err(stop_at(Rule::Y1, here.at))
        } else {
            let text = mem::replace(&mut self.quoted, String::new(self.alloc));
            self.value = Yaml::Str(Text::new(text));
            self.in_after_value(Waiting::Whole, spaced, here)
        }
    }
}
