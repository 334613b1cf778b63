//! The outside: files to read and sinks to write to, and what a call of them may do.

ghost use Rattle.std.specs.Prelude.{◌≡◌, ◌<◌, ◌≤◌, [], OnErr, IfOk, IfSome, IsOk, IsErrOf, length, take, vec_len, is_ok};
ghost use Rattle.std.specs.List.Sorted.{IsPermutation, IsSorted};
ghost use Rattle.std.specs.Ordering.{nat_cmp};
ghost use Rattle.std.specs.Cmp.Lexicographic.{slice_cmp};
ghost use Rattle.edt_base.specs.declared.outside.Call.TheVariants as call;
ghost use Rattle.edt_base.specs.Outside.{FilesSeen, SinkSeen, FailsAs, Rose, Gains, IsSure, Wrote, held_of, content, names_below, is_below, is_binding_below, AreBelow};
ghost use Rattle.edt_base.specs.declared.outside.ReadEnd.TheVariants.{Memory};
ghost use Rattle.std.specs.Prelude.{alloc_error};

use crate::{Bytes, Text};
use std::alloc::{AllocError, AllocFailed, Global};
use thiserror::Error;

/// A call of the outside that reads.
#[derive(Drop)]
pub enum Call {
    /// A listing of the folder of this name.
    List(Text),
    /// A read of the file of this name.
    Read(Text),
}

/// Why a read or a listing gave nothing.
#[derive(Debug, Drop)]
pub enum ReadEnd {
    /// The outside failed; its count of faults rose.
    Failed,
    /// There is more than was asked for at most.
    TooBig,
    /// Memory was wanted.
    Memory(AllocError),
}

impl From<AllocError> for ReadEnd {
    ghost from_gives = { λ e end. end ≡ Memory e };

    fn from(e: AllocError) -> ReadEnd {
        ReadEnd::Memory(e)
    }
}

impl<T: Drop> From<AllocFailed<T>> for ReadEnd {
    ghost from_gives = { λ _ end. end ≡ Memory alloc_error };

    fn from(_e: AllocFailed<T>) -> ReadEnd {
        ReadEnd::Memory(AllocError)
    }
}

/// A write that the outside refused; the sink's count of faults rose.
#[derive(Debug, Drop, Error)]
#[error("a write failed")]
pub struct WriteFailed;

/// Files by their names: a finite map from names to bytes, which contracts see where the files tell
/// it, as those in memory do and a disk doesn't. No call changes the map.
pub trait Files {
    ghost seen: { Self → FilesSeen };

    /// The names of the binding files below a folder, folders in it included: those that end
    /// `.yaml` or `.yml`, each beginning with the folder's name and `/`, in byte order. Fails as
    /// `FailsAs` says; `TooBig` where more than `most` names were met.
    fn list(&mut self, alloc: Global, dir: &Text, most: u32) -> Result<Vec<Text>, ReadEnd>
        ensures fails { FailsAs (call.List dir.now) (seen self.old) (seen self.new) result }
        ensures count { (seen self.old).faults ≤ (seen self.new).faults }
        ensures held { held_of (seen self.new) ≡ held_of (seen self.old) }
        ensures at_most { IfOk result (λ names. vec_len names ≤ most) }
        ensures in_order { IfOk result (λ names. IsSorted (slice_cmp nat_cmp) names.items) }
        ensures below { IfOk result (λ names. AreBelow dir.now names.items) }
        ensures names { IfSome (held_of (seen self.old)) (λ held. IfOk result (λ names.
            IsPermutation (names_below dir.now held) names.items)) }
        ensures too_big { IfSome (held_of (seen self.old)) (λ held. IsErrOf result ReadEnd.TooBig →
            most < length (names_below dir.now held)) };

    /// The bytes of a file. Fails as `FailsAs` says; `TooBig` where more than `most` bytes were
    /// met.
    fn read(&mut self, alloc: Global, name: &Text, most: u64) -> Result<Bytes, ReadEnd>
        ensures fails { FailsAs (call.Read name.now) (seen self.old) (seen self.new) result }
        ensures count { (seen self.old).faults ≤ (seen self.new).faults }
        ensures held { held_of (seen self.new) ≡ held_of (seen self.old) }
        ensures at_most { IfOk result (λ bytes. length bytes ≤ most) }
        ensures bytes { IfSome (held_of (seen self.old)) (λ held. IfOk result (λ bytes.
            bytes ≡ content held name.now)) }
        ensures too_big { IfSome (held_of (seen self.old)) (λ held. IsErrOf result ReadEnd.TooBig →
            most < length (content held name.now)) };
}

/// A place to write to. Contracts see the bytes so far where the sink tells them, the count of its
/// faults, and its sure room: while that isn't 0, no write fails.
pub trait Sink {
    ghost seen: { Self → SinkSeen };

    /// Takes a prefix of the piece, at least one byte of a piece that isn't empty, and says how
    /// many bytes it took. After `WriteFailed` the bytes so far are as before.
    fn write(&mut self, piece: &[u8]) -> Result<u64, WriteFailed>
        ensures taken { IfOk result (λ n. (n ≤ length piece.now) × (0 < length piece.now → 0 < n)
            × Gains (seen self.old) (seen self.new) (take n piece.now)) }
        ensures failed { OnErr result (Rose (seen self.old).faults (seen self.new).faults
            × Gains (seen self.old) (seen self.new) []) }
        ensures count { (seen self.old).faults ≤ (seen self.new).faults }
        ensures sure { 0 < (seen self.old).room →
            IsOk result × (IfOk result (λ n. IsSure (seen self.old) (seen self.new) n)) };
}

/// Whether a name stands below a folder.
pub(crate) fn is_below(dir: &Text, name: &Text) -> bool
    ensures { result ≡ is_below dir.now name.now }
{
    let dir = dir.as_str().as_bytes();
    let name = name.as_str().as_bytes();
    name.starts_with(dir) && name[dir.len()..].starts_with(b"/")
}

/// Whether a name is one that a listing of a folder gives: below the folder, and that of a binding
/// file. Takes no memory.
pub fn is_binding_below(dir: &Text, name: &Text) -> bool
    ensures { result ≡ is_binding_below dir.now name.now }
{
    let bytes = name.as_str().as_bytes();
    is_below(dir, name) && (bytes.ends_with(b".yaml") || bytes.ends_with(b".yml"))
}

/// Writes a text, piece by piece as the sink takes it. With `WriteFailed` a prefix of it was
/// written. Takes no memory.
pub fn write_text<S: Sink>(out: &mut S, text: &[u8]) -> Result<(), WriteFailed>
    ensures { Wrote (S.seen out.old) (S.seen out.new) text.now (is_ok result) }
{
    let mut rest = text;
    while !rest.is_empty() {
        let taken = out.write(rest)?;
        rest = &rest[taken as usize..];
    }
    Ok(())
}
