//! Reads a file.

ghost use Rattle.std.specs.Prelude.{◌≡◌, IfOk, string_bytes, take};
ghost use Rattle.std.specs.Str.{error_len};
ghost use Rattle.std.specs.Str.Lossy.{utf8_error_len, utf8_valid_len};
ghost use Rattle.edt_base.specs.YamlData.{Value, a_text, value_of};
ghost use Rattle.yaml_profile.specs.Answers.{Gives, Leaves};
ghost use Rattle.yaml_profile.specs.BlockText.{block_text};
ghost use Rattle.yaml_profile.specs.Fronts.{all_closed};
ghost use Rattle.yaml_profile.specs.Reading.{at_start, taken, takes_return, step, walk};
ghost use Rattle.yaml_profile.specs.Reading.{outside_flow, last_line, ends, begun_len};
ghost use Rattle.yaml_profile.specs.Reading.{broken_place, reading};
ghost use Rattle.yaml_profile.specs.Reads.{Reads};
ghost use Rattle.yaml_profile.specs.Written.{IsSpelled};
ghost use Rattle.yaml_profile.specs.Yaml.{IsYaml, IsFirst, IfValue, IfFault, IsFirstFault};
ghost use Rattle.yaml_profile.specs.declared.stop.Broken.{Broken};
ghost use Rattle.yaml_profile.specs.Inner.Shown.{frames_of, inner_of, shown};

use crate::front::{Frame, close, is_flow, pop};
use crate::keys::is_key_only;
use crate::reader::{Place, Reader};
use crate::rest::{Here, Rest, Source};
use crate::scalar::scalar_of;
use crate::stop::{Stop, stop_at};
use crate::values::take_so_far;
use edt_base::{End, Fault, Rule, Text, Yaml};
use std::alloc::{AllocError, Global};
use std::str::Utf8Error;

/// Whether a carriage return before a line feed is taken with it here.
fn takes_return(place: Place) -> bool
    ensures { (text : _) (quoted : _) (value : _) (block : _)
        → result ≡ takes_return (inner_of place text quoted value block) }
{
    match place {
        Place::Digits { .. } | Place::TextLine { .. } => false,
        Place::Quoted { role, .. } => !is_key_only(role),
        _ => true,
    }
}

/// The value of a file whose innermost value this is.
fn close_all(alloc: Global, frames: &mut Vec<Frame>, value: Yaml) -> Result<Yaml, AllocError>
    ensures { IfOk result (λ v. value_of v ≡ all_closed (frames_of frames.old.items)
        (value_of value)) }
{
    let mut value = value;
    while let Some(frame) = pop(frames) {
        value = close(alloc, frame, value)?;
    }
    Ok(value)
}

/// The value of a file that ends here, unless a flow list is open.
fn outside_flow(alloc: Global, frames: &mut Vec<Frame>, value: Yaml, at: u64) -> Result<Yaml, Stop>
    ensures { Gives value_of result (outside_flow (frames_of frames.old.items) (value_of value) at) }
{
    if is_flow(frames.as_slice()) {
        return Err(stop_at(Rule::Y1, at));
    }
    Ok(close_all(alloc, frames, value)?)
}

impl Reader {
    /// Takes a character as the innermost case wants it.
    #[tactic(auto, unfolding(crate::specs::Reading::taken))]
    fn take(&mut self, here: Here, rest: &Rest<'_>) -> Result<(), Stop>
        ensures { Leaves (shown self.new) result
            (taken (frames_of self.old.frames.items)
            (inner_of self.old.place self.old.text (string_bytes self.old.quoted)
            (value_of self.old.value) self.old.block) here.at here.c rest.now) }
    {
        match self.place {
            Place::Line { start, waiting } => self.in_line(waiting, start, here, rest),
            Place::Value {
                start,
                mapped,
                spaced,
            } => self.in_at_value(start, mapped, spaced, here, rest),
            Place::Plain {
                role,
                begun,
                spaced,
            } => self.in_plain(role, begun, spaced, here, rest),
            Place::Single { role, begun } => self.in_single(role, begun, here, rest),
            Place::Second { role, begun } => self.at_second_quote(role, begun, here),
            Place::Double { role, begun } => self.in_double(role, begun, here),
            Place::Escape { role, begun } => self.in_escape(role, begun, here),
            Place::Digits {
                role,
                begun,
                left,
                number,
            } => self.in_digits(role, begun, left, number, here),
            Place::Quoted {
                role,
                begun,
                spaced,
            } => self.in_after_quoted(role, begun, spaced, here, rest),
            Place::After { waiting, spaced } => self.in_after_value(waiting, spaced, here),
            Place::Comment { waiting } => {
                self.in_comment(waiting, here);
                Ok(())
            }
            Place::Mark { left } => {
                self.in_mark(left);
                Ok(())
            }
            Place::Header { signed, spaced } => self.in_header(signed, spaced, here),
            Place::HeaderComment => {
                self.in_header_comment(here);
                Ok(())
            }
            Place::TextLine { start } => self.at_text_line(start, here, rest),
            Place::BlankEnd { spaces } => self.at_blank_end(spaces, here),
            Place::InText => self.in_text_line(here),
        }
    }

    /// Takes the next character of the file.
    #[tactic(auto, unfolding(crate::specs::Reading::step))]
    fn step(&mut self, here: Here, rest: &Rest<'_>) -> Result<(), Stop>
        ensures { Leaves (shown self.new) result (step (shown self.old) here.at here.c rest.now) }
    {
        if here.c == '\r' && rest.begins_with('\n') && takes_return(self.place) {
            return Ok(());
        }
        self.take(here, rest)
    }

    /// The value of a block scalar that ends where the file does.
    fn end_text(&mut self, spaces: u64) -> Result<Yaml, AllocError>
        ensures value { IfOk result (λ v. value_of v
            ≡ a_text (block_text (last_line self.old.block spaces))) }
        ensures frames { self.new.frames ≡ self.old.frames }
    {
        if spaces != 0 {
            self.block.blank_line(spaces)?;
        }
        Ok(Yaml::Str(Text::new(self.block.take(self.alloc)?)))
    }

    /// The value of a file that ends at this byte.
    #[tactic(auto, unfolding(crate::specs::Reading::ends))]
    fn end(mut self, at: u64) -> Result<Yaml, Stop>
        ensures { Gives value_of result
            (ends (frames_of self.frames.items)
            (inner_of self.place self.text (string_bytes self.quoted) (value_of self.value)
            self.block) at) }
    {
        let alloc = self.alloc;
        match self.place {
            Place::Line { waiting, .. }
            | Place::After { waiting, .. }
            | Place::Comment { waiting } => {
                let value = take_so_far(alloc, waiting, &mut self.text, &mut self.value);
                outside_flow(alloc, &mut self.frames, value, at)
            }
            Place::Value { .. } => outside_flow(alloc, &mut self.frames, Yaml::Null, at),
            Place::Plain { role, .. } => {
                if is_key_only(role) {
                    return Err(stop_at(Rule::Y1, at));
                }
                let value = scalar_of(self.text.take_text(alloc));
                outside_flow(alloc, &mut self.frames, value, at)
            }
            Place::Quoted { role, .. } => {
                if is_key_only(role) {
                    return Err(stop_at(Rule::Y1, at));
                }
                let value = Yaml::Str(Text::new(self.quoted));
                outside_flow(alloc, &mut self.frames, value, at)
            }
            Place::Header { .. } | Place::HeaderComment | Place::InText => {
                let value = self.end_text(0)?;
                outside_flow(alloc, &mut self.frames, value, at)
            }
            Place::TextLine { start } => {
                let value = self.end_text(at.saturating_sub(start))?;
                outside_flow(alloc, &mut self.frames, value, at)
            }
            Place::BlankEnd { spaces } => {
                let value = self.end_text(spaces)?;
                outside_flow(alloc, &mut self.frames, value, at)
            }
            _ => Err(stop_at(Rule::Y1, at)),
        }
    }
}

/// How many of the bytes that begin no character may begin one.
fn begun_len(bytes: &[u8], fault: Utf8Error) -> usize
    requires { error_len fault ≡ utf8_error_len bytes.now }
    ensures { result ≡ begun_len bytes.now }
{
    match bytes.first() {
        None => 0,
        Some(first) => {
            if 0xC2 <= *first && *first <= 0xF4 {
                fault.error_len().unwrap_or(bytes.len())
            } else {
                0
            }
        }
    }
}

/// The text of a file, and where it stops being UTF-8.
fn parts(src: &[u8]) -> (&str, Option<u64>)
    ensures text { result.0.now ≡ take (utf8_valid_len src.now) src.now }
    ensures broken { result.1 ≡ broken_place src.now }
{
    match str::from_utf8(src) {
        Ok(text) => (text, None),
        Err(fault) => {
            let valid = fault.valid_up_to();
            let broken = valid + begun_len(&src[valid..], fault);
            match str::from_utf8(&src[..valid]) {
                Ok(text) => (text, Some(broken as u64)),
                Err(_) => unreachable!(),
            }
        }
    }
}

/// Reads characters from the first to the last.
#[tactic(auto, unfolding(crate::specs::Reading::walk))]
fn walk(alloc: Global, source: &mut Source<'_>) -> Result<Reader, Stop>
    ensures { Gives shown result (walk at_start source.old.at source.old.chars) }
{
    let mut reader = Reader::new(alloc);
    while let Some(here) = source.next() {
        let rest = source.rest();
        reader.step(here, &rest)?;
    }
    Ok(reader)
}

/// The value of a file, or its first broken rule.
#[tactic(auto, unfolding(crate::specs::Reading::reading))]
fn value(alloc: Global, src: &[u8]) -> Result<Yaml, Stop>
    ensures { Gives value_of result (reading src.now) }
{
    let (text, broken) = parts(src);
    let mut source = Source::of(text, broken.is_some());
    let reader = walk(alloc, &mut source)?;
    match broken {
        None => reader.end(src.len() as u64),
        Some(at) => Err(stop_at(Rule::Y1, at)),
    }
}

/// The answer of `read`.
fn answer(alloc: Global, file: &Text, src: &[u8]) -> Result<Yaml, End>
    ensures { Reads file.now result (reading src.now) }
{
    match value(alloc, src) {
        Ok(value) => Ok(value),
        Err(Stop::Memory) => Err(End::Memory(AllocError)),
        Err(Stop::Broken(broken)) => Err(End::Fault(Fault {
            rule: broken.rule,
            place: edt_base::Place::Byte(file.copy(alloc)?, broken.at),
        })),
    }
}

/// Reads a binding file: the YAML in which Zephyr 3.7's bindings are written (its page on bindings
/// syntax; the forms are those of YAML 1.2, sections 6 to 8 and 10). `file` is the name that a
/// fault tells, `src` are the bytes of the file.
///
/// Gives the file's value, which is the only one. A map's pairs stand in written order, no key
/// twice, and at most 32 maps and lists nest.
///
/// # Errors
///
/// `End::Fault` with the first broken rule and its byte, and only where one is broken: Y1 where no
/// text of the profile goes on, Y2 where a form begins that the profile leaves out, Y3 where a key
/// begins that its map has already, Y4 where the 33rd map or list begins. At one byte Y1 comes
/// last. `End::Memory` where memory was wanted.
pub fn read(alloc: Global, file: &Text, src: &[u8]) -> Result<Yaml, End>
    ensures spelled { IfValue result (IsSpelled src.now) }
    ensures unique { IfValue result (λ given. (v : Value) → IsSpelled src.now v → v ≡ given) }
    ensures unspelled { IfFault result (λ _. (v : Value) → IsSpelled src.now v → ⊥) }
    ensures found { IfValue result (IsYaml src.now) }
    ensures only { IfValue result (λ given. (v : Value) → IsYaml src.now v → v ≡ given) }
    ensures good { IfValue result (λ _. (b : Broken) → IsFirst src.now b → ⊥) }
    ensures first { IfFault result (IsFirstFault file.now src.now) }
    ensures exact { Reads file.now result (reading src.now) }
{
    answer(alloc, file, src)
}
