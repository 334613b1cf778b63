//! The program: makes the words and the real files and streams, and calls `run`.
#![tactic(auto)]

mod real;
#[cfg(test)]
mod tests;

use edt_base::{Text, Words, write_text};
use edt_run::{Status, run};
use real::{RealFiles, RealOut};
use std::alloc::{AllocError, Global};
use std::env;
use std::env::Env;
use std::io::ErrorKind;
use std::process::ExitCode;

fn main(rt: HostRuntime) -> ExitCode {
    let alloc = rt.alloc();
    let mut files = RealFiles::new(&rt);
    let mut out = RealOut::new(rt.stdout());
    let mut note = RealOut::new(rt.stderr());
    let status = match words_of(alloc, &rt) {
        Ok(words) => run(alloc, &words, &mut files, &mut out, &mut note),
        Err(_) => match write_text(&mut note, b"edt: memory\n") {
            Ok(()) => Status::Memory,
            Err(_) => Status::Write,
        },
    };
    ExitCode::from(status as u8)
}

/// The arguments after the program's name. Where one isn't UTF-8 there are no words, and so no job.
/// The one error is want of memory.
fn words_of<R: Env + AllocGlobal>(alloc: Global, rt: &R) -> Result<Words, AllocError> {
    let mut words = Vec::new(alloc);
    match env::args(rt) {
        Ok(args) => {
            for word in args.skip(1) {
                words.push(Text::new(word))?;
            }
        }
        Err(e) if e.kind() == ErrorKind::OutOfMemory => return Err(AllocError),
        Err(_) => {}
    }
    Ok(Words::new(words))
}
