//! The characters that are left of a file, and where they stand.

ghost use Rattle.std.specs.Prelude.{◌≡◌, ◌∷◌, ◌++◌, ◌+◌, ◌<◌, ◌^◌, [], length, MatchOption, IfSome};
ghost use Rattle.std.specs.Char.{len_utf8};
ghost use Rattle.std.specs.Str.{chars};
ghost use Rattle.yaml_profile.specs.Signs.{begins_with, ends_line, ends_word, begins_mark};
ghost use Rattle.yaml_profile.specs.Signs.{broken_off};

use std::marker::Model;

/// What is left of a file: a text, and whether a character is broken off after it. Contracts see
/// the characters.
#[derive(Drop)]
pub(crate) struct Rest<'a> {
    text: &'a str,
    broken: bool,
}

impl<'a> Model for Rest<'a> {
    ghost use Rattle.std.specs.Prelude.{List, ℕ, ◌++◌};
    ghost use Rattle.std.specs.Str.{chars};
    ghost use Rattle.yaml_profile.specs.Signs.{broken_off};

    ghost Value = { List ℕ };

    ghost view = { λ r. chars r.text.now ++ broken_off r.broken };
}

impl<'a> Rest<'a> {
    /// The next character.
    pub(crate) fn next(&mut self) -> Option<char>
        ensures { MatchOption result ((self.old ≡ []) × (self.new ≡ []))
            (λ c. self.old ≡ c ∷ self.new) }
    {
        match split_first(self.text) {
            Some((c, behind)) => {
                self.text = behind;
                Some(c)
            }
            None => {
                let broken = self.broken;
                self.broken = false;
                broken.then_some('é')
            }
        }
    }

    fn ahead(&self) -> Rest<'a>
        ensures { result ≡ self.now }
    {
        Rest {
            text: self.text,
            broken: self.broken,
        }
    }

    /// Whether this character stands next.
    pub(crate) fn begins_with(&self, wanted: char) -> bool
        ensures { result ≡ begins_with wanted self.now }
    {
        match self.ahead().next() {
            Some(c) => c == wanted,
            None => false,
        }
    }

    /// Whether a line ends here.
    pub(crate) fn ends_line(&self) -> bool
        ensures { result ≡ ends_line self.now }
    {
        let mut ahead = self.ahead();
        match ahead.next() {
            Some(c) => c == '\n' || (c == '\r' && ahead.begins_with('\n')),
            None => true,
        }
    }

    /// Whether a space stands here, or a line ends.
    pub(crate) fn ends_word(&self) -> bool
        ensures { result ≡ ends_word self.now }
    {
        self.begins_with(' ') || self.ends_line()
    }

    /// Whether `---` or `...` as a word begins with the character before this.
    pub(crate) fn ends_mark(&self, first: char) -> bool
        ensures { result ≡ begins_mark first self.now }
    {
        if first != '-' && first != '.' {
            return false;
        }
        let mut ahead = self.ahead();
        match (ahead.next(), ahead.next()) {
            (Some(second), Some(third)) => second == first && third == first && ahead.ends_word(),
            _ => false,
        }
    }
}

/// The first character of a text, and the text after it.
fn split_first(text: &str) -> Option<(char, &str)>
    ensures first { MatchOption result (chars text.now ≡ [])
        (λ r. chars text.now ≡ r.0 ∷ chars r.1.now) }
    ensures width { IfSome result (λ r. length text.now ≡ len_utf8 r.0 + length r.1.now) }
{
    let mut chars = text.chars();
    let c = chars.next()?;
    Some((c, chars.as_str()))
}

/// A character of the file, and its first byte.
#[derive(Clone, Copy)]
pub(crate) struct Here {
    pub(crate) at: u64,
    pub(crate) c: char,
    ghost in_range: { at < 2 ^ 63 + 4 },
}

/// What is left of a file, and the byte at which that begins. Contracts see the characters and the
/// byte.
#[derive(Drop)]
pub(crate) struct Source<'a> {
    text: &'a str,
    broken: bool,
    at: u64,
}

impl<'a> Model for Source<'a> {
    ghost use Rattle.std.specs.Prelude.{List, ℕ, ◌+◌, ◌<◌, ◌^◌, ◌++◌, length};
    ghost use Rattle.std.specs.Str.{chars};
    ghost use Rattle.yaml_profile.specs.Signs.{broken_off, broken_len, Left};

    ghost Value = { Left };

    ghost view = { λ s. record { at = s.at; chars = chars s.text.now ++ broken_off s.broken } };

    ghost invariant = { λ s. s.at + length s.text.now + broken_len s.broken < 2 ^ 63 + 2 };
}

impl<'a> Source<'a> {
    /// A file of this text, and whether a character is broken off after it.
    pub(crate) fn of(text: &'a str, broken: bool) -> Source<'a>
        ensures { result ≡ record { at = 0; chars = chars text.now ++ broken_off broken } }
    {
        Source {
            text,
            broken,
            at: 0,
        }
    }

    /// The next character.
    pub(crate) fn next(&mut self) -> Option<Here>
        ensures { MatchOption result ((self.old.chars ≡ []) × (self.new ≡ self.old))
            (λ h. (self.old.chars ≡ h.c ∷ self.new.chars) × (h.at ≡ self.old.at)
            × (self.new.at ≡ h.at + len_utf8 h.c)) }
    {
        let at = self.at;
        if let Some((c, behind)) = split_first(self.text) {
            self.text = behind;
            self.at = at + c.len_utf8() as u64;
            return Some(Here { at, c });
        }
        if self.broken {
            self.broken = false;
            self.at = at + 2;
            return Some(Here { at, c: 'é' });
        }
        None
    }

    /// What is left.
    pub(crate) fn rest(&self) -> Rest<'a>
        ensures { result ≡ self.now.chars }
    {
        Rest {
            text: self.text,
            broken: self.broken,
        }
    }
}
