//! The statements of sources, carried out one after another.

ghost use Rattle.std.specs.Prelude.{◌≡◌, ◌<◌, length};
ghost use Rattle.dts_tree.specs.Inner.Machine.{carried_all, reader_start};
ghost use Rattle.dts_tree.specs.Ends.{EndsAs};
ghost use Rattle.dts_tree.specs.Reading.{read_all, start};
ghost use Rattle.dts_tree.specs.References.{or_fault, unnamed_fault, Answers, Tells, IsFault};
ghost use Rattle.edt_base.specs.declared.fault.Rule.TheVariants as rule;
ghost use Rattle.edt_base.specs.declared.fault.Place.TheVariants as place;

use crate::reader::Reader;
use crate::stop::Stop;
use dts_parse::Script;
use edt_base::{End, Fault, Place, Rule, Text};
use std::alloc::Global;

/// Tests whether every reference of a statement names a node that is there then: each label that of
/// its last labelling and each path a node that was opened, of all that no later statement deleted.
/// The sources' statements are taken in order as one list, the base's first. `files` are the names
/// of the sources. The first reference that names none is refused with S3, at its byte
/// (Devicetree Specification v0.4, 6.3; a label or a path that isn't there can't be opened, deleted
/// or marked).
///
/// Takes time n log n in the statements.
pub fn check_references(alloc: Global, files: &Vec<Text>, scripts: &Vec<Script>) -> Result<(), End>
    requires { length files.now.items ≡ length scripts.now.items }
    ensures { Tells (or_fault files.now.items (read_all 0 start scripts.now.items)) result }
{
    match read(alloc, files, scripts) {
        Ok(_) => Ok(()),
        Err(end) => Err(end),
    }
}

/// Carries the statements of all sources out.
pub(crate) fn read<'a>(
    alloc: Global,
    files: &Vec<Text>,
    scripts: &'a Vec<Script>,
) -> Result<Reader<'a>, End>
    requires { length files.now.items ≡ length scripts.now.items }
    ensures { Answers (or_fault files.now.items
        (carried_all 0 reader_start scripts.now.items)) result }
{
    let mut reader = Reader::new(alloc)?;
    for (source, script) in scripts.as_slice().iter().enumerate() {
        match reader.read(alloc, script.stmts.as_slice()) {
            Ok(()) => {}
            Err(stop) => return Err(end_of(alloc, stop, files, source)),
        }
    }
    Ok(reader)
}

// Why the statements of a source weren't carried out, as the end of the call.
fn end_of(alloc: Global, stop: Stop, files: &Vec<Text>, source: usize) -> End
    requires { source < length files.now.items }
    ensures { EndsAs files.now.items source stop result }
{
    match stop {
        Stop::Unnamed(at) => unnamed(alloc, &files[source], at),
        Stop::Memory(e) => End::Memory(e),
    }
}

fn unnamed(alloc: Global, file: &Text, at: u64) -> End
    ensures { IsFault (record { rule = rule.S3; place = place.Byte file.now at }) result }
{
    match file.copy(alloc) {
        Ok(file) => End::Fault(Fault {
            rule: Rule::S3,
            place: Place::Byte(file, at),
        }),
        Err(e) => End::Memory(e),
    }
}
