//! RPCs that are gathered, so that they go out as one.
ghost use Rattle.std.specs.Prelude.{◌≡◌, ◌≤◌, ◌+◌, ◌++◌, None, Some, Ok, true, false, IfOk, IfSome, OnOk, OnErr, option_map, length, vec_len, vec_capacity};
ghost use Rattle.std.specs.List.{flat_map};
ghost use Rattle.gs_base.specs.declared.rpc.Rpc.{Rpc as RpcValue};
ghost use Rattle.gs_wire.specs.Codec.{codec};
ghost use Rattle.gs_wire.specs.Gathering.{as_one};
ghost use Rattle.gs_wire.specs.Joining.{joined_rpc, joined_rpcs, joined_to};
ghost use Rattle.gs_wire.specs.Messages.{frame, longest_body};
ghost use Rattle.gs_wire.specs.Sections.{control_length, control_part, section};

use crate::encoding::put_len;
use crate::rpc::{MAX_BODY, RPC_CONTROL, control_record_len};
use crate::sections::{Section, WrittenRpc};
use crate::varint::{put_varint, varint_len};
use bytes::Bytes;
use gs_base::{Shared, clone_of};
use std::alloc::{AllocError, Global};
use std::marker::Model;

/// RPCs that go out as one. Contracts see the RPC that they are joined to, or none where none was gathered.
#[derive(Drop)]
pub struct Gathered {
    parts: Vec<Shared<WrittenRpc>>,
    /// The length of everything that they say outside of their control messages.
    plain: usize,
    /// The length of all their control messages, where they have some.
    control: Option<usize>,
}

impl Model for Gathered {
    ghost use Rattle.std.specs.Prelude.{Option};
    ghost use Rattle.gs_base.specs.declared.rpc.Rpc.{Rpc as RpcValue};
    ghost use Rattle.gs_wire.specs.Joining.{joined_rpcs};
    ghost use Rattle.gs_wire.specs.Gathering.{IsMeasured, as_one};

    ghost Value = { Option RpcValue };

    ghost view = { λ g. joined_rpcs g.parts.items };

    ghost invariant = { λ g. IsMeasured (as_one (joined_rpcs g.parts.items)) g.plain g.control };
}

impl Gathered {
    /// Returns a value that has gathered nothing. It takes no memory.
    pub fn new(alloc: Global) -> Gathered
        ensures { result ≡ None }
    {
        Gathered {
            parts: Vec::new(alloc),
            plain: 0,
            control: None,
        }
    }

    /// Joins one more RPC to the gathered ones and returns true, or returns false where that would not fit a frame.
    ///
    /// # Errors
    /// `AllocError` when out of memory. After an error, and after false, nothing has changed.
    pub fn gather(&mut self, part: &Shared<WrittenRpc>) -> Result<bool, AllocError>
        ensures fits { IfOk result (λ fits. fits ≡ codec.fits (joined_to self.old part.now)) }
        ensures joined { result ≡ Ok true → self.new ≡ Some (joined_to self.old part.now) }
        ensures too_long { result ≡ Ok false → self.new ≡ self.old }
        ensures kept { OnErr result (self.new ≡ self.old) }
    {
        let plain = self.plain + part.get().plain_len();
        let control = both_lens(self.control, part.get().control_len());
        if plain + control_record_len(control) > MAX_BODY {
            return Ok(false);
        }
        self.parts.push(clone_of(part)?)?;
        self.plain = plain;
        self.control = control;
        Ok(true)
    }

    /// Takes the frame of what was gathered, and returns none where nothing was gathered.
    ///
    /// # Errors
    /// `AllocError` when out of memory.
    pub fn take_frame(&mut self, alloc: Global) -> Result<Option<Bytes>, AllocError>
        ensures frame { IfOk result (λ text. text ≡ option_map frame self.old) }
        ensures taken { OnOk result (self.new ≡ None) }
        ensures kept { OnErr result (self.new ≡ self.old) }
    {
        let frame = self.frame(alloc)?;
        self.parts.clear();
        self.plain = 0;
        self.control = None;
        Ok(frame)
    }

    /// Returns the frame. That of a single RPC is shared. For several RPCs, their written sections are copied.
    fn frame(&self, alloc: Global) -> Result<Option<Bytes>, AllocError>
        ensures { IfOk result (λ text. text ≡ option_map frame self.now) }
    {
        match self.parts.as_slice() {
            [] => Ok(None),
            [alone] => Ok(Some(alone.get().frame()?)),
            _ => Ok(Some(self.joined_frame(alloc)?)),
        }
    }

    fn joined_frame(&self, alloc: Global) -> Result<Bytes, AllocError>
        ensures { IfOk result (λ text. text ≡ frame (as_one self.now)) }
    {
        let len = self.plain + control_record_len(self.control);
        let mut frame = Vec::new(alloc);
        frame.reserve(varint_len(len as u64) + len)?;
        put_varint(&mut frame, len as u64);
        copy_section(&mut frame, &self.parts, Section::Subscriptions);
        copy_section(&mut frame, &self.parts, Section::Messages);
        copy_control(&mut frame, &self.parts, self.control);
        let shared = Bytes::from_vec(frame)?;
        Ok(shared)
    }
}

/// Copies what is written for a section in each of the parts.
fn copy_section(buffer: &mut Vec<u8>, parts: &[Shared<WrittenRpc>], wanted: Section)
    requires room { vec_len buffer.old + length (section wanted (as_one (joined_rpcs parts.now))) ≤ vec_capacity buffer.old }
    ensures written { buffer.new.items ≡ buffer.old.items ++ section wanted (as_one (joined_rpcs parts.now)) }
    ensures capacity { vec_capacity buffer.old ≤ vec_capacity buffer.new }
{
    for part in parts {
        let _fits = buffer.extend_from_slice(part.get().section(wanted));
    }
}

/// Copies what is written for each of these sections, one section after the other.
fn copy_sections(buffer: &mut Vec<u8>, parts: &[Shared<WrittenRpc>], wanted: &[Section])
    requires room { vec_len buffer.old + length (flat_map (λ s. section s (as_one (joined_rpcs parts.now))) wanted.now)
        ≤ vec_capacity buffer.old }
    ensures written { buffer.new.items
        ≡ buffer.old.items ++ flat_map (λ s. section s (as_one (joined_rpcs parts.now))) wanted.now }
    ensures capacity { vec_capacity buffer.old ≤ vec_capacity buffer.new }
{
    for one in wanted {
        copy_section(buffer, parts, *one);
    }
}

/// Writes the record of all their control messages, which have this length, where there are some.
fn copy_control(buffer: &mut Vec<u8>, parts: &[Shared<WrittenRpc>], len: Option<usize>)
    requires len { len ≡ control_length (as_one (joined_rpcs parts.now)) }
    requires room { vec_len buffer.old + length (control_part (as_one (joined_rpcs parts.now)).control) ≤ vec_capacity buffer.old }
    ensures { buffer.new.items ≡ buffer.old.items ++ control_part (as_one (joined_rpcs parts.now)).control }
{
    let Some(len) = len else {
        return;
    };
    put_len(buffer, RPC_CONTROL, len);
    copy_sections(buffer, parts, &Section::OF_CONTROL);
}

/// Returns the length of joined control messages from both lengths, or none where neither RPC has some.
fn both_lens(first: Option<usize>, second: Option<usize>) -> Option<usize>
    requires first_fits { IfSome first (λ len. len ≤ longest_body) }
    requires second_fits { IfSome second (λ len. len ≤ longest_body) }
    ensures { (u v : RpcValue)
        → first ≡ control_length u
        → second ≡ control_length v
        → result ≡ control_length (joined_rpc u v) }
{
    match (first, second) {
        (Some(first), Some(second)) => Some(first + second),
        (Some(only), None) => Some(only),
        (None, only) => only,
    }
}
