ghost use Rattle.std.specs.Prelude.{◌≡◌, ◌==◌, ◌≤◌, length, take, drop, option_map, IfOk};
ghost use Rattle.gs_wire.specs.Reading.{varint_at, bytes_at};

use crate::varint::varint_at;
use bytes::Bytes;
use std::alloc::AllocError;
use std::marker::Model;

/// What is left to read of a body, or of one message inside it. Contracts see the bytes that are left. The reader keeps its
/// place in the body, so that values which are kept share the body.
#[derive(Drop)]
pub(crate) struct Reader<'a> {
    body: &'a Bytes,
    start: usize,
    bytes: &'a [u8],
}

impl<'a> Model for Reader<'a> {
    ghost use Rattle.std.specs.Prelude.{List, ℕ};
    ghost use Rattle.gs_wire.specs.Placed.{IsPlaced};

    ghost Value = { List ℕ };

    ghost view = { λ r. r.bytes.now };

    ghost invariant = { λ r. IsPlaced r.body.now r.start r.bytes.now };
}

impl<'a> Reader<'a> {
    pub(crate) fn new(body: &'a Bytes) -> Reader<'a>
        ensures { result ≡ body.now }
    {
        Reader {
            body,
            start: 0,
            bytes: body.as_slice(),
        }
    }

    pub(crate) fn is_empty(&self) -> bool
        ensures { result ≡ (length self.now == 0) }
    {
        self.bytes.is_empty()
    }

    /// Returns a reader of the same bytes. This reader does not advance with it.
    pub(crate) fn again(&self) -> Reader<'a>
        ensures { result ≡ self.now }
    {
        Reader {
            body: self.body,
            start: self.start,
            bytes: self.bytes,
        }
    }

    /// Returns what is left, as bytes that share the body.
    pub(crate) fn to_bytes(&self) -> Result<Bytes, AllocError>
        ensures { IfOk result (λ bytes. bytes ≡ self.now) }
    {
        self.body.slice(self.start..self.start + self.bytes.len())
    }

    /// Splits off the first `count` bytes.
    fn split_to(&mut self, count: usize) -> Reader<'a>
        requires { count ≤ length self.old }
        ensures front { result ≡ take count self.old }
        ensures rest { self.new ≡ drop count self.old }
    {
        let (front, rest) = self.bytes.split_at(count);
        let start = self.start;
        self.start += count;
        self.bytes = rest;
        Reader {
            body: self.body,
            start,
            bytes: front,
        }
    }

    #[tactic(auto, unfolding(crate::specs::Reading::varint_at))]
    pub(crate) fn varint(&mut self) -> Option<u64>
        ensures { option_map (λ number. (number, self.new)) result ≡ varint_at self.old }
    {
        let (number, count) = varint_at(self.bytes)?;
        self.split_to(count);
        Some(number)
    }

    /// Returns the next `count` bytes, or none where fewer are left.
    pub(crate) fn bytes(&mut self, count: u64) -> Option<Reader<'a>>
        ensures { option_map (λ bytes. (bytes, self.new)) result ≡ bytes_at count self.old }
    {
        if (self.bytes.len() as u64) < count {
            return None;
        }
        Some(self.split_to(count as usize))
    }
}
