//! What a run decides once it has read what its job names: all that can be refused before a byte is
//! written is refused here. `expand` refuses a line of its text later, once the lines before it are
//! written.

ghost use Rattle.std.specs.Prelude.{◌≡◌, ◌<◌, ◌≤◌, IfOk, Some, false, length, true};
ghost use Rattle.edt_base.specs.Outside.{held_of};
ghost use Rattle.edt_run.specs.Answer.{refused};
ghost use Rattle.edt_run.specs.ExpandAnswer.{IsExpandAnswer};
ghost use Rattle.edt_run.specs.Promises.{IsAnswerOf, is_early, writes_early};
ghost use Rattle.edt_run.specs.SmallAnswer.{IsSmallAnswer};
ghost use Rattle.edt_run.specs.TreeAnswer.{IsTreeAnswer};
ghost use Rattle.edt_run.specs.Steps.{IsRefusedBy, IsWanted, LeadsTo};

use crate::asked::{Cmd, Job};
use crate::definitions::definitions;
use crate::node::Node;
use crate::reader::read_small;
use crate::refusal::{Refusal, refuse};
use crate::sources::{Stop, read_sources};
use crate::top::Status;
use crate::tree_job::tree_of;
use c_macro::Defs;
use edt_base::{Bytes, End, Fault, Files, Place, Rule, Text, Tree};
use std::alloc::{AllocError, Global};

/// What a run wants to do.
#[derive(Drop)]
pub(crate) enum Decision {
    /// Write the header of these nodes.
    Header(Vec<Node>),
    /// Write this tree as a source.
    Source(Tree),
    /// Write the lines of this text, expanded over these definitions; its name comes before it.
    Lines(Defs, Text, Bytes),
    /// Write nothing but this line to the note, and end so.
    Refused(Refusal),
}

/// Reads what a job names, and decides. The one error is want of memory.
pub(crate) fn decide<F: Files>(
    alloc: Global,
    job: &Job,
    files: &mut F,
) -> Result<Decision, AllocError>
    ensures wanted { IfOk result (λ d. LeadsTo (writes_early (Some job.now)) d
        (IsWanted (F.seen files.old) (F.seen files.new) (Some job.now))) }
    ensures held { held_of (F.seen files.new) ≡ held_of (F.seen files.old) }
    ensures count { (F.seen files.old).faults ≤ (F.seen files.new).faults }
{
    match read_sources(alloc, job, files) {
        Ok(sources) => over_sources(alloc, job, sources.as_slice()),
        Err(stop) => stopped(alloc, stop),
    }
}

/// The refusal of a job whose sources couldn't be read.
fn stopped(alloc: Global, stop: Stop) -> Result<Decision, AllocError>
    ensures { IfOk result (λ d. LeadsTo false d (IsRefusedBy stop)) }
{
    match stop {
        Stop::Failed(name) => {
            let line = format!(in alloc; "edt: read {}\n", name.as_str())?;
            Ok(Decision::Refused(Refusal {
                status: Status::Read,
                line,
            }))
        }
        Stop::TooLong(rule, name) => {
            let place = Place::File(name);
            let said = refuse(alloc, &Fault { rule, place })?;
            Ok(Decision::Refused(said))
        }
        Stop::Memory(e) => Err(e),
    }
}

/// What a job does over its sources.
fn over_sources(alloc: Global, job: &Job, sources: &[Bytes]) -> Result<Decision, AllocError>
    requires { length sources.now ≡ length job.now.names }
    ensures { IfOk result (λ d. LeadsTo (is_early job.now.cmd) d
        (IsAnswerOf job.now.cmd job.now.names sources.now)) }
{
    job.has_names();
    match job.cmd {
        Cmd::Gen => small_header(alloc, &job.names[0], &sources[0]),
        Cmd::Dts => left_tree(alloc, &job.names, sources),
        Cmd::Expand => text_lines(alloc, job.names.as_slice(), sources),
    }
}

/// The header of a small source, or S6.
fn small_header(alloc: Global, name: &Text, source: &Bytes) -> Result<Decision, AllocError>
    ensures { IfOk result (λ d. LeadsTo false d (IsSmallAnswer name.now source.now)) }
{
    match read_small(alloc, source.as_slice())? {
        Some(nodes) => Ok(Decision::Header(nodes)),
        None => {
            let place = Place::Byte(name.copy(alloc)?, 0);
            let rule = Rule::S6;
            let said = refuse(alloc, &Fault { rule, place })?;
            Ok(Decision::Refused(said))
        }
    }
}

/// The tree that sources leave, or their first fault.
fn left_tree(alloc: Global, names: &Vec<Text>, sources: &[Bytes]) -> Result<Decision, AllocError>
    requires { length sources.now ≡ length names.now.items }
    ensures { IfOk result (λ d. LeadsTo false d (IsTreeAnswer names.now.items sources.now)) }
{
    match tree_of(alloc, names, sources) {
        Ok(tree) => Ok(Decision::Source(tree)),
        Err(End::Fault(fault)) => Ok(Decision::Refused(refuse(alloc, &fault)?)),
        Err(End::Memory(e)) => Err(e),
    }
}

/// The last source as a text over the definitions of those before it, or their first fault.
fn text_lines(alloc: Global, names: &[Text], sources: &[Bytes]) -> Result<Decision, AllocError>
    requires as_many { length sources.now ≡ length names.now }
    requires text { 0 < length names.now }
    ensures { IfOk result (λ d. LeadsTo true d (IsExpandAnswer names.now sources.now)) }
{
    match definitions(alloc, names, sources) {
        Ok(defs) => {
            let last = names.len() - 1;
            let name = names[last].copy(alloc)?;
            let text = sources[last].copy(alloc)?;
            Ok(Decision::Lines(defs, name, text))
        }
        Err(End::Fault(fault)) => Ok(Decision::Refused(refuse(alloc, &fault)?)),
        Err(End::Memory(e)) => Err(e),
    }
}
