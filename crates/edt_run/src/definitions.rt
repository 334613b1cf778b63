//! What the files of definitions of `expand` define (ISO C, 6.10.3).

ghost use Rattle.std.specs.Prelude.{◌≡◌, ◌<◌, ◌-◌, IfOk, IfErr, OnOk, Ok, length};
ghost use Rattle.c_macro.specs.Table.{known_of};
ghost use Rattle.c_tokens.specs.Reading.{IfRule};
ghost use Rattle.edt_run.specs.ExpandAnswer.{DefinedFrom, breach_at, from_start};
ghost use Rattle.edt_run.specs.ExpandSteps.{AnswersFrom, AreUndefined, IsDefinedNext, IsDefineStop};

use c_macro::Defs;
use c_tokens::{CEnd, Lines};
use edt_base::{Bytes, End, Fault, Place, Text};
use std::alloc::Global;

/// What all files but the last define, in their order; else the first rule that a line of them
/// breaks, with the line as its place. The last file is the text, which isn't read here.
pub(crate) fn definitions(alloc: Global, names: &[Text], sources: &[Bytes]) -> Result<Defs, End>
    requires as_many { length sources.now ≡ length names.now }
    requires text { 0 < length names.now }
    ensures known { IfOk result
        (λ d. AnswersFrom (length names.now - 1) (known_of d) names.now sources.now) }
    ensures stopped { IfErr result (λ end. AreUndefined names.now sources.now end) }
{
    let mut defs = Defs::new(alloc);
    for i in 0..names.len() - 1 {
        define_all(alloc, &mut defs, &names[i], sources[i].as_slice())?;
    }
    Ok(defs)
}

/// Carries out the lines of a file of definitions.
fn define_all(alloc: Global, defs: &mut Defs, name: &Text, source: &[u8]) -> Result<(), End>
    ensures known { OnOk result
        (DefinedFrom (known_of defs.old) (from_start source.now) (Ok (known_of defs.new))) }
    ensures stopped { IfErr result
        (λ end. IsDefineStop (known_of defs.old) (from_start source.now) name.now end) }
{
    let mut lines = Lines::new(source);
    loop {
        let number = lines.number();
        match define_next(alloc, defs, &mut lines) {
            Ok(true) => {}
            Ok(false) => return Ok(()),
            Err(CEnd::Rule(rule)) => {
                let place = Place::Line(name.copy(alloc)?, number);
                return Err(End::Fault(Fault { rule, place }));
            }
            Err(CEnd::Memory(e)) => return Err(End::Memory(e)),
        }
    }
}

/// Carries out the next line, and says whether there was one.
fn define_next(alloc: Global, defs: &mut Defs, lines: &mut Lines<'_>) -> Result<bool, CEnd>
    ensures next { IfOk result
        (λ more. IsDefinedNext (known_of defs.old) lines.old more (known_of defs.new) lines.new) }
    ensures stopped { IfErr result (λ end. IfRule end
        (λ r. DefinedFrom (known_of defs.old) lines.old (Err (breach_at r lines.old.number)))) }
{
    match lines.next(alloc)? {
        None => Ok(false),
        Some(line) => {
            defs.apply(&line)?;
            Ok(true)
        }
    }
}
