//! The words of a command line, read as a job.

ghost use Rattle.std.specs.Prelude.{◌≡◌, ◌<◌, IfOk, OnOk, length, take};
ghost use Rattle.std.specs.List.{count_by, list_all};
ghost use Rattle.edt_run.specs.Job.{job_of, job_for, cmd_of, row_of, fits, takes, has_input_once, is_name, is_standard_input};

use crate::asked::{Cmd, Job};
use edt_base::{Text, Words};
use std::alloc::{AllocError, Global};
use std::marker::Model;

/// How many names stand after a command.
#[derive(Clone, Copy)]
struct Row {
    least: usize,
    most: usize,
}

impl Model for Row {
    ghost use Rattle.edt_run.specs.Job.{RowData};

    ghost Value = { RowData };

    ghost view = { λ r. record { least = r.least; most = r.most } };

    ghost inverse = { λ r. record { least = r.least; most = r.most } };
}

/// What the words after the program's name ask for: a command, then names in order. None exactly
/// where they are no job of the table of commands. The one error is want of memory.
pub fn job(alloc: Global, words: &Words) -> Result<Option<Job>, AllocError>
    ensures { IfOk result (λ j. j ≡ job_of words.now) }
{
    match words.list().as_slice() {
        [] => Ok(None),
        [command, names @ ..] => match cmd_of(command.as_str()) {
            Some(cmd) => job_for(alloc, cmd, names),
            None => Ok(None),
        },
    }
}

/// The job of a command with the words after it.
fn job_for(alloc: Global, cmd: Cmd, names: &[Text]) -> Result<Option<Job>, AllocError>
    ensures { IfOk result (λ j. j ≡ job_for cmd names.now) }
{
    if !fits(&row_of(cmd), names) {
        return Ok(None);
    }
    let names = copied(alloc, names)?;
    Ok(Some(Job { cmd, names }))
}

/// Copies of the names.
fn copied(alloc: Global, names: &[Text]) -> Result<Vec<Text>, AllocError>
    ensures { IfOk result (λ v. v.items ≡ names.now) }
{
    let mut copies = Vec::new(alloc);
    for name in names {
        copies.push(name.copy(alloc)?)?;
    }
    Ok(copies)
}

/// The command of a word.
#[tactic(auto, unfolding(crate::specs::Job::cmd_of))]
fn cmd_of(word: &str) -> Option<Cmd>
    ensures { result ≡ cmd_of word.now }
{
    match word {
        "gen" => Some(Cmd::Gen),
        "dts" => Some(Cmd::Dts),
        "expand" => Some(Cmd::Expand),
        _ => None,
    }
}

/// What stands after a command.
fn row_of(cmd: Cmd) -> Row
    ensures { result ≡ row_of cmd }
{
    match cmd {
        Cmd::Gen => Row { least: 1, most: 1 },
        Cmd::Dts => Row { least: 1, most: 32 },
        Cmd::Expand => Row { least: 1, most: 33 },
    }
}

/// Whether the words after a command are those that its row tells.
fn fits(row: &Row, names: &[Text]) -> bool
    ensures { result ≡ fits row.now names.now }
{
    row.takes(names.len()) && are_names(names) && has_input_once(names)
}

impl Row {
    /// Whether so many names may stand.
    fn takes(&self, count: usize) -> bool
        ensures { result ≡ takes self.now count }
    {
        self.least <= count && count <= self.most
    }
}

/// Whether each word can name a source.
fn are_names(names: &[Text]) -> bool
    ensures { result ≡ list_all is_name names.now }
{
    names.iter().all(|name| is_name(name))
}

/// Whether standard input is named once at most.
fn has_input_once(names: &[Text]) -> bool
    ensures { result ≡ has_input_once names.now }
{
    count_standard_input(names) <= 1
}

/// How many of the names are that of standard input.
fn count_standard_input(names: &[Text]) -> usize
    ensures { result ≡ count_by is_standard_input names.now }
{
    names.iter().filter(|name| is_standard_input(name)).count()
}

/// Whether a word is the name of standard input.
fn is_standard_input(word: &Text) -> bool
    ensures { result ≡ is_standard_input word.now }
{
    word.as_str() == "-"
}

/// Whether a word can name a source: standard input, or a word that begins with no dash.
fn is_name(word: &Text) -> bool
    ensures { result ≡ is_name word.now }
{
    is_standard_input(word) || !word.as_str().as_bytes().starts_with(b"-")
}
