//! A text over several lines, as plain and quoted texts fold (YAML 1.2, sections 6.5 and 7.3).

ghost use Rattle.std.specs.Prelude.{◌≡◌, [], IfOk, string_bytes};
ghost use Rattle.yaml_profile.specs.Folding.{nothing_yet, put, put_blank, end_line, join_line};
ghost use Rattle.yaml_profile.specs.Folding.{caught_up};

use std::alloc::{AllocError, Global};
use std::marker::Model;

/// What ended the line before.
#[derive(Clone, Copy, Debug)]
pub enum Seam {
    /// Nothing: the text's last character stands on this line.
    Inside,
    /// A line end, which folds.
    Folds,
    /// A line end after a backslash, which joins.
    Joins,
}

/// A text so far. It is made once: what stands between two lines is put in with the first character
/// of the second.
#[derive(Debug, Drop)]
pub struct FoldingText {
    text: String,
    blanks: String,
    seam: Seam,
    feeds: String,
}

impl Model for FoldingText {
    ghost use Rattle.std.specs.String.{string_bytes};
    ghost use Rattle.yaml_profile.specs.Folding.{Folding};

    ghost Value = { Folding };

    ghost view = { λ t. record {
      text = string_bytes t.text;
      blanks = string_bytes t.blanks;
      seam = t.seam;
      feeds = string_bytes t.feeds;
    } };
}

impl FoldingText {
    /// No character yet.
    pub(crate) fn new(alloc: Global) -> FoldingText
        ensures { result ≡ nothing_yet }
    {
        FoldingText {
            text: String::new(alloc),
            blanks: String::new(alloc),
            seam: Seam::Inside,
            feeds: String::new(alloc),
        }
    }

    /// Puts in all that stands before the next character.
    fn catch_up(&mut self) -> Result<(), AllocError>
        ensures { IfOk result (λ _. self.new ≡ record {
          text = caught_up self.old;
          blanks = [];
          seam = Seam.Inside;
          feeds = [];
        }) }
    {
        match self.seam {
            Seam::Inside => {}
            Seam::Folds => {
                if self.feeds.is_empty() {
                    self.text.push_str(" ")?;
                } else {
                    self.text.push_str(self.feeds.as_str())?;
                }
            }
            Seam::Joins => self.text.push_str(self.feeds.as_str())?,
        }
        self.text.push_str(self.blanks.as_str())?;
        self.blanks.clear();
        self.feeds.clear();
        self.seam = Seam::Inside;
        Ok(())
    }

    /// Takes one character that is no blank of the source.
    pub(crate) fn put(&mut self, c: char) -> Result<(), AllocError>
        ensures { IfOk result (λ _. self.new ≡ put self.old c) }
    {
        self.catch_up()?;
        self.text.push(c)?;
        Ok(())
    }

    /// Takes a space or tab of the source.
    pub(crate) fn put_blank(&mut self, c: char) -> Result<(), AllocError>
        ensures { IfOk result (λ _. self.new ≡ put_blank self.old c) }
    {
        if let Seam::Inside = self.seam {
            self.blanks.push(c)?;
        }
        Ok(())
    }

    /// Takes a line end.
    pub(crate) fn end_line(&mut self) -> Result<(), AllocError>
        ensures { IfOk result (λ _. self.new ≡ end_line self.old) }
    {
        self.blanks.clear();
        match self.seam {
            Seam::Inside => {
                self.seam = Seam::Folds;
                self.feeds.clear();
            }
            _ => self.feeds.push_str("\n")?,
        }
        Ok(())
    }

    /// Takes a line end after a backslash.
    pub(crate) fn join_line(&mut self) -> Result<(), AllocError>
        ensures { IfOk result (λ _. self.new ≡ join_line self.old) }
    {
        self.catch_up()?;
        self.seam = Seam::Joins;
        Ok(())
    }

    /// The text, without the blanks after it; nothing stays.
    pub(crate) fn take_text(&mut self, alloc: Global) -> String
        ensures { string_bytes result ≡ self.old.text }
    {
        std::mem::replace(&mut self.text, String::new(alloc))
    }

    /// The text of what stands between quotes, with the blanks before the closing one.
    pub(crate) fn take_quoted(&mut self, alloc: Global) -> Result<String, AllocError>
        ensures { IfOk result (λ s. string_bytes s ≡ caught_up self.old) }
    {
        self.catch_up()?;
        Ok(self.take_text(alloc))
    }
}
