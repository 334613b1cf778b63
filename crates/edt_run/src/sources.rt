//! Reads the sources of a job, in their order and within the limits on their bytes.

ghost use Rattle.std.specs.Prelude.{◌≡◌, ◌<◌, ◌≤◌, IfOk, IfErr, alloc_error, length};
ghost use Rattle.edt_base.specs.Outside.{held_of};
ghost use Rattle.edt_run.specs.Steps.{AreRead, AreTogether, IsReadStop, IsGroupStop};
ghost use Rattle.edt_run.specs.declared.asked.Cmd.TheVariants as cmd;
ghost use Rattle.edt_run.specs.declared.sources.Stop.TheVariants.{Memory};

use crate::asked::{Cmd, Job};
use edt_base::{Bytes, Files, ReadEnd, Rule, Text};
use std::alloc::{AllocError, AllocFailed, Global};

/// How many bytes the sources of a tree have together at most.
const SOURCE_LIMIT: u64 = 2_097_152;

/// How many bytes the files of definitions have together at most.
const DEFS_LIMIT: u64 = 33_554_432;

/// How many bytes a text to expand has at most.
const TEXT_LIMIT: u64 = 1_048_576;

/// Why reading the sources stopped.
#[derive(Drop)]
pub(crate) enum Stop {
    /// The source of this name couldn't be read.
    Failed(Text),
    /// With the source of this name there are more bytes than this limit.
    TooLong(Rule, Text),
    /// Memory was wanted.
    Memory(AllocError),
}

impl From<AllocError> for Stop {
    ghost from_gives = { λ e stop. stop ≡ Memory e };

    fn from(e: AllocError) -> Stop {
        Stop::Memory(e)
    }
}

impl<T: Drop> From<AllocFailed<T>> for Stop {
    ghost from_gives = { λ _ stop. stop ≡ Memory alloc_error };

    fn from(_e: AllocFailed<T>) -> Stop {
        Stop::Memory(AllocError)
    }
}

/// The bytes of a job's sources, or why reading them stopped; none is read after that.
pub(crate) fn read_sources<F: Files>(
    alloc: Global,
    job: &Job,
    files: &mut F,
) -> Result<Vec<Bytes>, Stop>
    ensures read { IfOk result (λ v. AreRead (held_of (F.seen files.old)) job.now.cmd job.now.names v.items) }
    ensures stopped { IfErr result
        (λ stop. IsReadStop (F.seen files.old) (F.seen files.new) job.now.cmd job.now.names stop) }
    ensures held { held_of (F.seen files.new) ≡ held_of (F.seen files.old) }
    ensures count { (F.seen files.old).faults ≤ (F.seen files.new).faults }
{
    let names = job.names.as_slice();
    match job.cmd {
        Cmd::Gen => read_together(alloc, names, SOURCE_LIMIT, Rule::L1, files),
        Cmd::Dts => read_together(alloc, names, SOURCE_LIMIT, Rule::L1, files),
        Cmd::Expand => {
            job.has_names();
            read_expansion(alloc, names, files)
        }
    }
}

/// The bytes of files of definitions, and last those of a text.
fn read_expansion<F: Files>(
    alloc: Global,
    names: &[Text],
    files: &mut F,
) -> Result<Vec<Bytes>, Stop>
    requires { 0 < length names.now }
    ensures read { IfOk result (λ v. AreRead (held_of (F.seen files.old)) cmd.Expand names.now v.items) }
    ensures stopped { IfErr result
        (λ stop. IsReadStop (F.seen files.old) (F.seen files.new) cmd.Expand names.now stop) }
    ensures held { held_of (F.seen files.new) ≡ held_of (F.seen files.old) }
    ensures count { (F.seen files.old).faults ≤ (F.seen files.new).faults }
{
    let (defs, text) = names.split_at(names.len() - 1);
    let mut sources = read_together(alloc, defs, DEFS_LIMIT, Rule::L6, files)?;
    let mut last = read_together(alloc, text, TEXT_LIMIT, Rule::L5, files)?;
    sources.append(&mut last)?;
    Ok(sources)
}

/// The bytes of sources that have so many bytes together at most, or why reading them stopped.
fn read_together<F: Files>(
    alloc: Global,
    names: &[Text],
    most: u64,
    limit: Rule,
    files: &mut F,
) -> Result<Vec<Bytes>, Stop>
    ensures read { IfOk result (λ v. AreTogether (held_of (F.seen files.old)) most names.now v.items) }
    ensures stopped { IfErr result
        (λ stop. IsGroupStop (F.seen files.old) (F.seen files.new) most limit names.now stop) }
    ensures held { held_of (F.seen files.new) ≡ held_of (F.seen files.old) }
    ensures count { (F.seen files.old).faults ≤ (F.seen files.new).faults }
{
    let mut sources = Vec::new(alloc);
    let mut left = most;
    for name in names {
        match files.read(alloc, name, left) {
            Ok(source) => {
                left -= source.as_slice().len() as u64;
                sources.push(source)?;
            }
            Err(ReadEnd::Failed) => return Err(Stop::Failed(name.copy(alloc)?)),
            Err(ReadEnd::TooBig) => return Err(Stop::TooLong(limit, name.copy(alloc)?)),
            Err(ReadEnd::Memory(e)) => return Err(Stop::Memory(e)),
        }
    }
    Ok(sources)
}
