//! What is open where a token begins, told by counts.

ghost use Rattle.std.specs.Prelude.{◌≡◌, ◌≤◌, ◌<◌, ◌+◌, ◌^◌};
ghost use Rattle.dts_lex.specs.Left.{nothing_open};
ghost use Rattle.dts_lex.specs.Tokens.{at_least, behind, behind_directive, behind_punctuator, below};
ghost use Rattle.dts_lex.specs.Tokens.{in_rounds, is_narrow};
ghost use Rattle.dts_lex.specs.Inner.Counts.{AreAtMost};

use crate::lexer::SpanKind;

/// What is open, and what else decides the kinds of words.
#[derive(Clone, Copy)]
pub(crate) struct Opened {
    /// How many parentheses are open.
    pub(crate) rounds: u64,
    /// How many square brackets are open.
    pub(crate) squares: u64,
    /// How many angle brackets are open.
    pub(crate) angles: u64,
    /// How many of the next words are numbers.
    pub(crate) numbers: u64,
    /// Whether this is after a `=`, before the next `;`.
    pub(crate) value: bool,
}

impl Opened {
    /// Where a source begins.
    pub(crate) fn nothing() -> Opened
        ensures { result ≡ nothing_open }
    {
        Opened {
            rounds: 0,
            squares: 0,
            angles: 0,
            numbers: 0,
            value: false,
        }
    }

    /// A parenthesis is open.
    pub(crate) fn in_rounds(self) -> bool
        ensures { result ≡ in_rounds self }
    {
        self.rounds > 0
    }

    /// Words have letters, digits and `_` alone.
    pub(crate) fn is_narrow(self) -> bool
        ensures { result ≡ is_narrow self }
    {
        self.rounds > 0 || self.angles > 0 || self.value
    }

    /// What is open after a token. No more is open than `most`.
    pub(crate) fn behind(self, kind: SpanKind, text: &[u8], most: u64) -> Opened
        requires counts { AreAtMost self most }
        requires room { most + 1 < 2 ^ 64 }
        ensures opened { result ≡ behind self kind text.now }
        ensures counts { AreAtMost result (most + 1) }
    {
        match kind {
            SpanKind::Number => self.behind_number(),
            SpanKind::Directive => self.behind_directive(text),
            SpanKind::Punct => match text {
                [byte] => self.behind_punctuator(*byte, most),
                _ => self,
            },
            _ => self,
        }
    }

    fn behind_number(self) -> Opened
        ensures { result ≡ record self { numbers = below self.numbers } }
    {
        Opened {
            numbers: self.numbers.saturating_sub(1),
            ..self
        }
    }

    fn behind_directive(self, text: &[u8]) -> Opened
        ensures { result ≡ behind_directive self text.now }
    {
        if text.starts_with(b"/bits/") {
            self.with_numbers(1)
        } else if text.starts_with(b"/memreserve/") {
            self.with_numbers(2)
        } else {
            self
        }
    }

    fn with_numbers(self, least: u64) -> Opened
        ensures { result ≡ record self { numbers = at_least self.numbers least } }
    {
        let numbers = if self.numbers < least {
            least
        } else {
            self.numbers
        };
        Opened { numbers, ..self }
    }

    fn behind_punctuator(self, byte: u8, most: u64) -> Opened
        requires counts { AreAtMost self most }
        requires room { most + 1 < 2 ^ 64 }
        ensures opened { result ≡ behind_punctuator self byte }
        ensures counts { AreAtMost result (most + 1) }
    {
        match byte {
            b'(' => Opened {
                rounds: self.rounds + 1,
                ..self
            },
            b')' => Opened {
                rounds: self.rounds.saturating_sub(1),
                ..self
            },
            b'[' => Opened {
                squares: self.squares + 1,
                ..self
            },
            b']' => Opened {
                squares: self.squares.saturating_sub(1),
                ..self
            },
            b'<' if !self.in_rounds() => Opened {
                angles: self.angles + 1,
                ..self
            },
            b'>' if !self.in_rounds() => Opened {
                angles: self.angles.saturating_sub(1),
                ..self
            },
            b'=' => Opened {
                value: true,
                ..self
            },
            b';' => Opened {
                value: false,
                ..self
            },
            _ => self,
        }
    }
}
