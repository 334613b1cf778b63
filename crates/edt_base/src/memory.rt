//! Files and sinks in memory, which tell what they hold, and can be told to fail.

ghost use Rattle.std.specs.Prelude.{◌≡◌, ◌<◌, ◌≤◌, ◌||◌, ◌&&◌, [], None, Some, OnErr, IfOk, IfSome, IsOk, IsErr, IsSome, IsTrue, false, IsErrOf, ◌++◌, length, take, vec_len, option_map, nat_eq, not, is_err};
ghost use Rattle.std.specs.List.Sorted.{IsPermutation, IsSorted};
ghost use Rattle.std.specs.Ordering.{nat_cmp};
ghost use Rattle.std.specs.Cmp.Lexicographic.{slice_cmp};
ghost use Rattle.edt_base.specs.declared.outside.Call.TheVariants as call;
ghost use Rattle.edt_base.specs.Outside.{FailsAs, Rose, Gains, IsSure, held_of, held_at, content, names_below, AreBelow};
ghost use Rattle.edt_base.specs.Memory.{MemFilesData, MemSinkData, mem_files_seen, mem_sink_seen, good_files_seen, null_sink_seen, next_read, list_fails, is_listed, holds_folder, number_after, CountsCall, refuses, taken_of, sink_after, sink_refused};

use crate::outside::is_below;
use crate::{Bytes, Call, Files, ReadEnd, Sink, Text, WriteFailed, is_binding_below};
use std::alloc::{AllocError, Global};
use std::marker::Model;

/// Files in memory. They tell what they hold. Of a name that is held twice the first bytes count.
#[derive(Drop)]
pub struct MemFiles {
    held: Vec<(Text, Bytes)>,
    fail: Vec<u32>,
    calls: u64,
    last: Option<Call>,
    faults: u64,
}

impl Model for MemFiles {
    ghost use Rattle.edt_base.specs.Memory.{MemFilesData};

    ghost Value = { MemFilesData };

    ghost view = { λ m. record { held = m.held.items; fail = m.fail.items; calls = m.calls; last = m.last; faults = m.faults } };
}

impl MemFiles {
    /// Files that hold these names with their bytes. The calls numbered in `fail` fail, counted
    /// from 1, `list` and `read` together. Takes no memory.
    pub fn new(held: Vec<(Text, Bytes)>, fail: Vec<u32>) -> MemFiles
        ensures { result
            ≡ record { held = held.items; fail = fail.items; calls = 0; last = None; faults = 0 } }
    {
        MemFiles {
            held,
            fail,
            calls: 0,
            last: None,
            faults: 0,
        }
    }

    /// Counts a call, and says whether it is one that fails.
    fn counts_listed_call(&mut self) -> bool
        ensures listed { result ≡ is_listed self.old.fail (number_after self.old.calls) }
        ensures counted { self.new ≡ record self.old { calls = number_after self.old.calls } }
    {
        self.calls = self.calls.saturating_add(1);
        is_listed(self.fail.as_slice(), self.calls)
    }

    /// Notes that this call failed.
    fn note_failed(&mut self, call: Call) -> ReadEnd
        ensures failed { result ≡ ReadEnd.Failed }
        ensures noted { self.new
            ≡ record self.old { last = Some call; faults = number_after self.old.faults } }
        ensures count { self.old.faults ≤ self.new.faults }
    {
        self.last = Some(call);
        self.faults = self.faults.saturating_add(1);
        ReadEnd::Failed
    }
}

/// Whether a number is among those listed.
fn is_listed(fail: &[u32], call: u64) -> bool
    ensures { result ≡ is_listed fail.now call }
{
    fail.iter().any(|n| u64::from(*n) == call)
}

/// The bytes of a name.
fn held_in<'a>(held: &'a [(Text, Bytes)], name: &Text) -> Option<&'a Bytes>
    ensures { option_map (λ b. b.now) result ≡ held_at held.now name.now }
{
    for (key, bytes) in held {
        if *key == *name {
            return Some(bytes);
        }
    }
    None
}

/// Whether a name below a folder is held.
fn holds_folder(held: &[(Text, Bytes)], dir: &Text) -> bool
    ensures { result ≡ holds_folder held.now dir.now }
{
    for (name, _) in held {
        if is_below(dir, name) {
            return true;
        }
    }
    false
}

/// How many binding files stand below a folder.
fn count_below(held: &[(Text, Bytes)], dir: &Text) -> usize
    ensures { result ≡ length (names_below dir.now held.now) }
{
    let mut count: usize = 0;
    for (name, _) in held {
        if is_binding_below(dir, name) {
            count += 1;
        }
    }
    count
}

/// The names of the binding files below a folder, as they are held.
fn names_below(alloc: Global, held: &[(Text, Bytes)], dir: &Text) -> Result<Vec<Text>, AllocError>
    ensures { IfOk result (λ names. names.items ≡ names_below dir.now held.now) }
{
    let mut names = Vec::new(alloc);
    for (name, _) in held {
        if is_binding_below(dir, name) {
            names.push(name.copy(alloc)?)?;
        }
    }
    Ok(names)
}

/// The names of the binding files below a folder in byte order, where they are at most so many.
fn sorted_below(
    alloc: Global,
    held: &[(Text, Bytes)],
    dir: &Text,
    most: u32,
) -> Result<Vec<Text>, ReadEnd>
    ensures names { IfOk result
        (λ names. IsPermutation (names_below dir.now held.now) names.items) }
    ensures in_order { IfOk result (λ names. IsSorted (slice_cmp nat_cmp) names.items) }
    ensures below { IfOk result (λ names. AreBelow dir.now names.items) }
    ensures at_most { IfOk result (λ names. vec_len names ≤ most) }
    ensures too_big { IsErrOf result ReadEnd.TooBig → most < length (names_below dir.now held.now) }
    ensures no_fault { IsErrOf result ReadEnd.Failed → ⊥ }
{
    if count_below(held, dir) > most as usize {
        return Err(ReadEnd::TooBig);
    }
    let mut names = names_below(alloc, held, dir)?;
    names.sort()?;
    Ok(names)
}

/// The same bytes once more, where they are at most so many.
fn copied(alloc: Global, bytes: &[u8], most: u64) -> Result<Bytes, ReadEnd>
    ensures bytes { IfOk result (λ copy. copy ≡ bytes.now) }
    ensures at_most { IfOk result (λ copy. length copy ≤ most) }
    ensures too_big { IsErrOf result ReadEnd.TooBig → most < length bytes.now }
    ensures no_fault { IsErrOf result ReadEnd.Failed → ⊥ }
{
    if bytes.len() as u64 > most {
        return Err(ReadEnd::TooBig);
    }
    Ok(Bytes::new(Vec::from_slice(alloc, bytes)?))
}

impl Files for MemFiles {
    ghost seen = { mem_files_seen };

    fn list(&mut self, alloc: Global, dir: &Text, most: u32) -> Result<Vec<Text>, ReadEnd>
        ensures fails { FailsAs (call.List dir.now) (mem_files_seen self.old) (mem_files_seen self.new) result }
        ensures count { (mem_files_seen self.old).faults ≤ (mem_files_seen self.new).faults }
        ensures held { held_of (mem_files_seen self.new) ≡ held_of (mem_files_seen self.old) }
        ensures at_most { IfOk result (λ names. vec_len names ≤ most) }
        ensures in_order { IfOk result (λ names. IsSorted (slice_cmp nat_cmp) names.items) }
        ensures below { IfOk result (λ names. AreBelow dir.now names.items) }
        ensures names { IfSome (held_of (mem_files_seen self.old)) (λ held. IfOk result (λ names.
            IsPermutation (names_below dir.now held) names.items)) }
        ensures too_big { IfSome (held_of (mem_files_seen self.old))
            (λ held. IsErrOf result ReadEnd.TooBig →
            most < length (names_below dir.now held)) }

        // It fails exactly at a listed call and at an absent folder, and each call counts.
        ensures only_listed { IsErrOf result ReadEnd.Failed → IsTrue (list_fails self.old dir.now) }
        ensures all_listed { IsTrue (list_fails self.old dir.now) → IsErr result }
        ensures big_unlisted { IsErrOf result ReadEnd.TooBig → list_fails self.old dir.now ≡ false }
        ensures counted { CountsCall self.old self.new }
    {
        let listed = self.counts_listed_call();
        if listed || !holds_folder(self.held.as_slice(), dir) {
            let name = dir.copy(alloc)?;
            return Err(self.note_failed(Call::List(name)));
        }
        sorted_below(alloc, self.held.as_slice(), dir, most)
    }

    fn read(&mut self, alloc: Global, name: &Text, most: u64) -> Result<Bytes, ReadEnd>
        ensures fails { FailsAs (call.Read name.now) (mem_files_seen self.old) (mem_files_seen self.new) result }
        ensures count { (mem_files_seen self.old).faults ≤ (mem_files_seen self.new).faults }
        ensures held { held_of (mem_files_seen self.new) ≡ held_of (mem_files_seen self.old) }
        ensures at_most { IfOk result (λ bytes. length bytes ≤ most) }
        ensures bytes { IfSome (held_of (mem_files_seen self.old)) (λ held. IfOk result (λ bytes.
            bytes ≡ content held name.now)) }
        ensures too_big { IfSome (held_of (mem_files_seen self.old))
            (λ held. IsErrOf result ReadEnd.TooBig →
            most < length (content held name.now)) }

        // It fails exactly at a listed call and at an absent name, and each call counts.
        ensures only_listed { IsErrOf result ReadEnd.Failed → next_read self.old name.now ≡ None }
        ensures all_listed { next_read self.old name.now ≡ None → IsErr result }
        ensures big_unlisted { IsErrOf result ReadEnd.TooBig
            → IsSome (next_read self.old name.now) }
        ensures counted { CountsCall self.old self.new }
    {
        let listed = self.counts_listed_call();
        match held_in(self.held.as_slice(), name) {
            Some(bytes) if !listed => copied(alloc, bytes.as_slice(), most),
            _ => {
                let name = name.copy(alloc)?;
                Err(self.note_failed(Call::Read(name)))
            }
        }
    }
}

/// Files in memory that never fail: an absent file has no bytes, and an absent folder no names.
#[derive(Drop)]
pub struct GoodFiles {
    held: Vec<(Text, Bytes)>,
}

impl Model for GoodFiles {
    ghost use Rattle.std.specs.Prelude.{List, ℕ};

    ghost Value = { List (List ℕ × List ℕ) };

    ghost view = { λ g. g.held.items };
}

impl GoodFiles {
    /// Files that hold these names with their bytes. Of a name that is held twice the first bytes
    /// count. Takes no memory.
    pub fn new(held: Vec<(Text, Bytes)>) -> GoodFiles
        ensures { result ≡ held.items }
    {
        GoodFiles { held }
    }
}

impl Files for GoodFiles {
    ghost seen = { good_files_seen };

    fn list(&mut self, alloc: Global, dir: &Text, most: u32) -> Result<Vec<Text>, ReadEnd> {
        sorted_below(alloc, self.held.as_slice(), dir, most)
    }

    fn read(&mut self, alloc: Global, name: &Text, most: u64) -> Result<Bytes, ReadEnd> {
        match held_in(self.held.as_slice(), name) {
            Some(bytes) => copied(alloc, bytes.as_slice(), most),
            None => Ok(Bytes::new(Vec::new(alloc))),
        }
    }
}

/// A sink in memory. It tells the bytes that it took.
#[derive(Drop)]
pub struct MemSink {
    taken: Vec<u8>,
    room: u64,
    most: u64,
    fail: Vec<u32>,
    calls: u64,
    faults: u64,
}

impl Model for MemSink {
    ghost use Rattle.std.specs.Prelude.{◌<◌, ◌≤◌, length, vec_capacity};
    ghost use Rattle.edt_base.specs.Memory.{MemSinkData};

    ghost Value = { MemSinkData };

    ghost view = { λ s. record { taken = s.taken.items; room = s.room; most = s.most; fail = s.fail.items; calls = s.calls; faults = s.faults } };

    ghost invariant = { λ s. (0 < s.most) × (length s.taken.items ≤ s.room)
        × (s.room ≤ vec_capacity s.taken) };
}

impl MemSink {
    /// A sink with the memory for `room` bytes. A write takes at most `most` bytes, at least 1; the
    /// writes numbered in `fail` fail, counted from 1. The one error is want of memory.
    pub fn new(alloc: Global, room: u64, most: u64, fail: Vec<u32>) -> Result<MemSink, AllocError>
        requires { 0 < most }
        ensures { IfOk result (λ s. s ≡ record {
          taken = [];
          room = room;
          most = most;
          fail = fail.items;
          calls = 0;
          faults = 0;
        }) }
    {
        let taken = Vec::with_capacity(alloc, room as usize)?;
        Ok(MemSink {
            taken,
            room,
            most,
            fail,
            calls: 0,
            faults: 0,
        })
    }

    /// The bytes so far. Takes no memory.
    pub fn bytes(&self) -> &[u8]
        ensures { result.now ≡ self.now.taken }
    {
        self.taken.as_slice()
    }

    /// Whether the write of this number is refused for a piece of this many bytes.
    fn refuses(&self, call: u64, len: usize) -> bool
        ensures { result
            ≡ (is_listed self.now.fail call
            || (not (nat_eq len 0) && nat_eq (length self.now.taken) self.now.room)) }
    {
        is_listed(self.fail.as_slice(), call) || (len != 0 && self.taken.len() as u64 == self.room)
    }

    /// Takes a prefix of a piece, as much as one write and the room allow.
    fn take(&mut self, piece: &[u8]) -> u64
        ensures taken { result ≡ taken_of self.old piece.now }
        ensures after { self.new
            ≡ record self.old { taken = self.old.taken ++ take result piece.now } }
    {
        let left = self.room - self.taken.len() as u64;
        let count = (piece.len() as u64).min(self.most).min(left);
        match self.taken.extend_from_slice(&piece[..count as usize]) {
            Ok(()) => count,
            Err(_) => unreachable!(),
        }
    }
}

impl Sink for MemSink {
    ghost seen = { mem_sink_seen };

    fn write(&mut self, piece: &[u8]) -> Result<u64, WriteFailed>
        ensures taken { IfOk result (λ n. (n ≤ length piece.now) × (0 < length piece.now → 0 < n)
            × Gains (mem_sink_seen self.old) (mem_sink_seen self.new) (take n piece.now)) }
        ensures failed { OnErr result (Rose (mem_sink_seen self.old).faults (mem_sink_seen self.new).faults
            × Gains (mem_sink_seen self.old) (mem_sink_seen self.new) []) }
        ensures count { (mem_sink_seen self.old).faults ≤ (mem_sink_seen self.new).faults }
        ensures sure { 0 < (mem_sink_seen self.old).room →
            IsOk result × (IfOk result
            (λ n. IsSure (mem_sink_seen self.old) (mem_sink_seen self.new) n)) }

        // It fails exactly at a listed write and, for a piece with bytes, at a full room.
        ensures exactly { is_err result ≡ refuses self.old piece.now }
        ensures took { IfOk result
            (λ n. (n ≡ taken_of self.old piece.now)
            × (self.new ≡ sink_after self.old (take n piece.now))) }
        ensures refused { OnErr result (self.new ≡ sink_refused self.old) }
    {
        self.calls = self.calls.saturating_add(1);
        if self.refuses(self.calls, piece.len()) {
            self.faults = self.faults.saturating_add(1);
            return Err(WriteFailed);
        }
        Ok(self.take(piece))
    }
}

/// A sink that never fails and keeps only the number of bytes that it took.
#[derive(Drop)]
pub struct NullSink {
    taken: u64,
}

impl Model for NullSink {
    ghost use Rattle.std.specs.Prelude.{ℕ};

    ghost Value = { ℕ };

    ghost view = { λ s. s.taken };
}

impl NullSink {
    /// A sink that took nothing so far. Takes no memory.
    pub fn new() -> NullSink
        ensures { result ≡ 0 }
    {
        NullSink { taken: 0 }
    }
}

impl Sink for NullSink {
    ghost seen = { null_sink_seen };

    fn write(&mut self, piece: &[u8]) -> Result<u64, WriteFailed> {
        let count = piece.len() as u64;
        self.taken = self.taken.saturating_add(count);
        Ok(count)
    }
}
