//! The bytes of a property's value, and the kinds of its parts.

ghost use Rattle.std.specs.Prelude.{◌≡◌, ◌-◌, ◌^◌, IfOk, length, min};
ghost use Rattle.std.specs.List.{list_all};
ghost use Rattle.edt_base.specs.NodeData.{bytes_of};
ghost use Rattle.edt_base.specs.Values.{is_kind, are_all};

use crate::{Bytes, Kind, Part, PropVal};
use std::alloc::{AllocError, Global};

impl PropVal {
    /// How many bytes the value has, at most the greatest 64-bit number. Takes no memory.
    pub fn byte_len(&self) -> u64
        ensures { result ≡ min (length (bytes_of self.now)) (2 ^ 64 - 1) }
    {
        byte_len(self.parts.as_slice())
    }

    /// A copy of the value's bytes. The one error is want of memory.
    pub fn bytes(&self, alloc: Global) -> Result<Bytes, AllocError>
        ensures { IfOk result (λ b. b ≡ bytes_of self.now) }
    {
        bytes_of(alloc, self.parts.as_slice())
    }

    /// Whether all parts are of this kind, as also where there are none. Takes no memory.
    pub fn are_all(&self, kind: Kind) -> bool
        ensures { result ≡ are_all kind self.now }
    {
        are_all(self.parts.as_slice(), kind)
    }
}

impl Part {
    /// Whether the part is of this kind.
    pub fn is(&self, kind: Kind) -> bool
        ensures { result ≡ is_kind kind self.now.kind }
    {
        match kind {
            Kind::Str => matches!(self.kind, Kind::Str),
            Kind::Cells => matches!(self.kind, Kind::Cells),
            Kind::Hex => matches!(self.kind, Kind::Hex),
            Kind::Wide => matches!(self.kind, Kind::Wide),
            Kind::Path => matches!(self.kind, Kind::Path),
        }
    }
}

fn are_all(parts: &[Part], kind: Kind) -> bool
    ensures { result ≡ are_all kind parts.now }
{
    parts.iter().all(|part| part.is(kind))
}

fn byte_len(parts: &[Part]) -> u64
    ensures { result ≡ min (length (bytes_of parts.now)) (2 ^ 64 - 1) }
{
    let mut len: u64 = 0;
    for part in parts {
        len = len.saturating_add(part.bytes.as_slice().len() as u64);
    }
    len
}

fn bytes_of(alloc: Global, parts: &[Part]) -> Result<Bytes, AllocError>
    ensures { IfOk result (λ b. b ≡ bytes_of parts.now) }
{
    let mut bytes = Vec::new(alloc);
    for part in parts {
        bytes.extend_from_slice(part.bytes.as_slice())?;
    }
    Ok(Bytes::new(bytes))
}
