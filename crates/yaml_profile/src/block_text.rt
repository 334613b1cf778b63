//! The text of a block scalar (YAML 1.2, section 8.1).

ghost use Rattle.std.specs.Prelude.{◌≡◌, ◌++◌, IfOk, string_bytes};
ghost use Rattle.yaml_profile.specs.BlockText.{no_lines, begin_line, go_on, empty_line};
ghost use Rattle.yaml_profile.specs.BlockText.{more_spaces, spaces_line, lead_in, first_line};
ghost use Rattle.yaml_profile.specs.BlockText.{blank_line, feed_each, block_text};

use std::alloc::{AllocError, Global};
use std::marker::Model;

/// What becomes of the line ends after the text.
#[derive(Clone, Copy, Debug)]
pub enum Chomp {
    /// `-`: all are dropped.
    Strip,
    /// No indicator: one stays.
    Clip,
    /// `+`: all stay.
    Keep,
}

/// A block scalar so far.
#[derive(Debug, Drop)]
pub struct ScalarText {
    folded: bool,
    chomp: Chomp,
    /// The spaces of each blank line before the first line of text.
    leading: Vec<u64>,
    indent: Option<u64>,
    text: String,
    begun: bool,
    spaced: bool,
    feeds: String,
}

impl Model for ScalarText {
    ghost use Rattle.std.specs.String.{string_bytes};
    ghost use Rattle.yaml_profile.specs.BlockText.{BlockText};

    ghost Value = { BlockText };

    ghost view = { λ b. record {
      folded = b.folded;
      chomp = b.chomp;
      leading = b.leading.items;
      indent = b.indent;
      text = string_bytes b.text;
      begun = b.begun;
      spaced = b.spaced;
      feeds = string_bytes b.feeds;
    } };
}

impl ScalarText {
    /// After `|`, or after `>`, which folds.
    pub(crate) fn new(alloc: Global, folded: bool) -> ScalarText
        ensures { result ≡ no_lines folded }
    {
        ScalarText {
            folded,
            chomp: Chomp::Clip,
            leading: Vec::new(alloc),
            indent: None,
            text: String::new(alloc),
            begun: false,
            spaced: false,
            feeds: String::new(alloc),
        }
    }

    /// The indicator after `|` or `>`.
    pub(crate) fn set_chomp(&mut self, chomp: Chomp)
        ensures { self.new ≡ record self.old { chomp = chomp } }
    {
        self.chomp = chomp;
    }

    /// The indentation, if a line of text stands already.
    pub(crate) fn indent(&self) -> Option<u64>
        ensures { result ≡ self.now.indent }
    {
        self.indent
    }

    /// Takes the first character of a line of text.
    pub(crate) fn begin_line(&mut self, c: char) -> Result<(), AllocError>
        ensures { IfOk result (λ _. self.new ≡ begin_line self.old c) }
    {
        let spaced = c == ' ';
        if !self.begun {
            self.text.push_str(self.feeds.as_str())?;
        } else if self.folded && !self.spaced && !spaced {
            if self.feeds.is_empty() {
                self.text.push_str(" ")?;
            } else {
                self.text.push_str(self.feeds.as_str())?;
            }
        } else {
            self.text.push_str("\n")?;
            self.text.push_str(self.feeds.as_str())?;
        }
        self.text.push(c)?;
        self.begun = true;
        self.spaced = spaced;
        self.feeds.clear();
        Ok(())
    }

    /// Takes a further character of a line of text.
    pub(crate) fn go_on(&mut self, c: char) -> Result<(), AllocError>
        ensures { IfOk result (λ _. self.new ≡ go_on self.old c) }
    {
        self.text.push(c)?;
        Ok(())
    }

    /// Takes an empty line.
    fn empty_line(&mut self) -> Result<(), AllocError>
        ensures { IfOk result (λ _. self.new ≡ empty_line self.old) }
    {
        self.feeds.push_str("\n")?;
        Ok(())
    }

    /// Takes so many spaces more of a line of text.
    fn more_spaces(&mut self, count: u64) -> Result<(), AllocError>
        ensures { IfOk result (λ _. self.new ≡ more_spaces self.old count) }
    {
        for _ in 0..count {
            self.go_on(' ')?;
        }
        Ok(())
    }

    /// Takes a line of so many spaces beyond the indentation.
    fn spaces_line(&mut self, count: u64) -> Result<(), AllocError>
        ensures { IfOk result (λ _. self.new ≡ spaces_line self.old count) }
    {
        if count == 0 {
            return self.empty_line();
        }
        self.begin_line(' ')?;
        self.more_spaces(count - 1)
    }

    /// Takes the blank lines before the first line of text.
    fn lead_in(&mut self, indent: u64, leading: &[u64]) -> Result<(), AllocError>
        ensures { IfOk result (λ _. self.new ≡ lead_in self.old indent leading.now) }
    {
        for spaces in leading {
            self.spaces_line(spaces.saturating_sub(indent))?;
        }
        Ok(())
    }

    /// Takes the first character of the first line of text, which tells the indentation.
    #[tactic(auto, unfolding(crate::specs::BlockText::first_line))]
    pub(crate) fn first_line(
        &mut self,
        alloc: Global,
        indent: u64,
        c: char,
    ) -> Result<(), AllocError>
        ensures { IfOk result (λ _. self.new ≡ first_line self.old indent c) }
    {
        let leading = std::mem::replace(&mut self.leading, Vec::new(alloc));
        self.indent = Some(indent);
        self.lead_in(indent, leading.as_slice())?;
        self.begin_line(c)
    }

    /// Takes a blank line of so many spaces.
    pub(crate) fn blank_line(&mut self, spaces: u64) -> Result<(), AllocError>
        ensures { IfOk result (λ _. self.new ≡ blank_line self.old spaces) }
    {
        match self.indent {
            None => {
                self.leading.push(spaces)?;
                Ok(())
            }
            Some(_) => self.empty_line(),
        }
    }

    /// The value. Nothing stays.
    #[tactic(auto, unfolding(crate::specs::BlockText::block_text))]
    pub(crate) fn take(&mut self, alloc: Global) -> Result<String, AllocError>
        ensures { IfOk result (λ s. string_bytes s ≡ block_text self.old) }
    {
        let mut text = std::mem::replace(&mut self.text, String::new(alloc));
        match self.chomp {
            Chomp::Strip => {}
            Chomp::Clip => {
                if self.begun {
                    text.push_str("\n")?;
                }
            }
            Chomp::Keep => {
                if self.begun {
                    text.push_str("\n")?;
                }
                feed_each(&mut text, self.leading.as_slice())?;
                text.push_str(self.feeds.as_str())?;
            }
        }
        Ok(text)
    }
}

/// A line feed for each of the blank lines.
fn feed_each(text: &mut String, leading: &[u64]) -> Result<(), AllocError>
    ensures { IfOk result (λ _. string_bytes text.new ≡ string_bytes text.old
        ++ feed_each leading.now) }
{
    for _ in leading {
        text.push_str("\n")?;
    }
    Ok(())
}
