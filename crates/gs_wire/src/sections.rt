//! RPCs that are written once, with the places of their sections. So several are joined by copying what is written.
ghost use Rattle.std.specs.Prelude.{◌≡◌, ◌⊎◌, ◌↔◌, ◌<◌, ◌≤◌, ◌+◌, ◌++◌, Err, IfOk, IfErr, List, ℕ, length, min, option_map, unwrap_or, vec_len, vec_capacity};
ghost use Rattle.gs_wire.specs.Records.{records_text};
ghost use Rattle.gs_wire.specs.Fields.{part_records};
ghost use Rattle.gs_wire.specs.Controls.{control_records, no_control};
ghost use Rattle.gs_wire.specs.Messages.{body, frame, longest_body};
ghost use Rattle.gs_wire.specs.Sections.{ControlStands, SectionsStand, control_length, control_part, place_of, plain_length, section};

use crate::control::{CONTROL_GRAFT, CONTROL_IHAVE, CONTROL_IWANT, CONTROL_PRUNE};
use crate::encoding::{Encode, put_len, put_parts};
use crate::fault::WireFault;
use crate::rpc::{RPC_CONTROL, RPC_PUBLISH, RPC_SUBSCRIPTIONS, body_len, control_len};
use crate::varint::{put_varint, varint_len};
use bytes::Bytes;
use gs_base::{Control, Rpc, Shared, clone_of};
use std::alloc::{AllocError, Global};
use std::marker::Model;

/// A section of a body: the records of one field, in the order in which they are written. The field is one of an RPC or of
/// its control messages.
#[derive(Clone, Copy)]
pub(crate) enum Section {
    Subscriptions,
    Messages,
    Offers,
    Requests,
    Grafts,
    Prunes,
}

impl Section {
    /// The sections of control messages, in their order.
    pub(crate) const OF_CONTROL: [Section; 4] = [
        Section::Offers,
        Section::Requests,
        Section::Grafts,
        Section::Prunes,
    ];
}

/// Where a section stands in a frame.
#[derive(Clone, Copy)]
struct Place {
    start: usize,
    end: usize,
}

/// Where the sections of an RPC stand in its frame.
#[derive(Clone, Copy)]
struct Places {
    subscriptions: Place,
    messages: Place,
    control: ControlPlaces,
}

/// Where the sections of an RPC's control messages stand. They are empty where it has none.
#[derive(Clone, Copy)]
struct ControlPlaces {
    offers: Place,
    requests: Place,
    grafts: Place,
    prunes: Place,
}

/// An RPC with its frame. Contracts see the RPC.
#[derive(Drop)]
pub struct WrittenRpc {
    rpc: Shared<Rpc>,
    frame: Bytes,
    places: Places,
}

impl Model for WrittenRpc {
    ghost use Rattle.gs_base.specs.declared.rpc.Rpc.{Rpc as RpcValue};

    ghost Value = { RpcValue };

    ghost use Rattle.gs_wire.specs.Sections.{IsWritten};

    ghost view = { λ w. w.rpc };

    ghost invariant = { λ w. IsWritten w.rpc w.frame w.places };
}

impl WrittenRpc {
    /// Writes the frame of an RPC.
    ///
    /// # Errors
    /// `TooLong` exactly if the body is longer than `MAX_BODY`. `NoMemory` when out of memory.
    pub fn new(alloc: Global, rpc: &Shared<Rpc>) -> Result<WrittenRpc, WireFault>
        ensures written { IfOk result (λ written. written ≡ rpc.now) }
        ensures too_long { (result ≡ Err WireFault.TooLong) ↔ (longest_body < length (body rpc.now)) }
        ensures no_other { IfErr result (λ fault. (fault ≡ WireFault.TooLong) ⊎ (fault ≡ WireFault.NoMemory)) }
    {
        let control = control_len(rpc.get());
        let len = body_len(rpc.get(), control)?;
        let written = write(alloc, rpc, control, len)?;
        Ok(written)
    }

    /// Returns the RPC.
    pub fn rpc(&self) -> &Rpc
        ensures { result.now ≡ self.now }
    {
        self.rpc.get()
    }

    /// Returns its frame, shared.
    ///
    /// # Errors
    /// `AllocError` when out of memory.
    pub fn frame(&self) -> Result<Bytes, AllocError>
        ensures { IfOk result (λ text. text ≡ frame self.now) }
    {
        clone_of(&self.frame)
    }

    /// Returns the length of everything that it says outside of its control messages.
    pub(crate) fn plain_len(&self) -> usize
        ensures len { result ≡ plain_length self.now }
        ensures fits { length (body self.now) ≤ longest_body }
    {
        self.places.messages.end - self.places.subscriptions.start
    }

    /// Returns the length of its control messages, where it has some.
    pub(crate) fn control_len(&self) -> Option<usize>
        ensures { result ≡ control_length self.now }
    {
        match self.rpc.get().control {
            Some(_) => Some(self.places.control.prunes.end - self.places.control.offers.start),
            None => None,
        }
    }

    /// Returns what its frame has for a section.
    pub(crate) fn section(&self, wanted: Section) -> &[u8]
        ensures { result.now ≡ section wanted self.now }
    {
        let Place { start, end } = self.places.of(wanted);
        &self.frame[start..end]
    }
}

impl Places {
    fn of(self, wanted: Section) -> Place
        ensures { result ≡ place_of wanted self }
    {
        match wanted {
            Section::Subscriptions => self.subscriptions,
            Section::Messages => self.messages,
            Section::Offers => self.control.offers,
            Section::Requests => self.control.requests,
            Section::Grafts => self.control.grafts,
            Section::Prunes => self.control.prunes,
        }
    }
}

/// Writes the frame of an RPC whose body has this length.
fn write(
    alloc: Global,
    rpc: &Shared<Rpc>,
    control: Option<usize>,
    len: usize,
) -> Result<WrittenRpc, AllocError>
    requires sized { control ≡
        option_map (λ c. min usize.MAX (length (records_text (control_records c)))) rpc.now.control }
    requires len { len ≡ length (body rpc.now) }
    requires fits { len ≤ longest_body }
    ensures { IfOk result (λ written. written ≡ rpc.now) }
{
    let mut buffer = Vec::new(alloc);
    buffer.reserve(varint_len(len as u64) + len)?;
    put_varint(&mut buffer, len as u64);
    let places = put_sections(&mut buffer, rpc.get(), control);
    let frame = Bytes::from_vec(buffer)?;
    Ok(WrittenRpc {
        rpc: clone_of(rpc)?,
        frame,
        places,
    })
}

/// Writes the body of an RPC, and returns where its sections stand.
fn put_sections(buffer: &mut Vec<u8>, rpc: &Rpc, control: Option<usize>) -> Places
    requires sized { control ≡
        option_map (λ c. min usize.MAX (length (records_text (control_records c)))) rpc.now.control }
    requires room { vec_len buffer.old + length (body rpc.now) ≤ vec_capacity buffer.old }
    ensures written { buffer.new.items ≡ buffer.old.items ++ body rpc.now }
    ensures stand { SectionsStand buffer.new.items result rpc.now }
{
    let subscriptions = put_section(buffer, RPC_SUBSCRIPTIONS, rpc.subs.as_slice());
    let messages = put_section(buffer, RPC_PUBLISH, rpc.publish.as_slice());
    let control = put_control(buffer, &rpc.control, control);
    Places {
        subscriptions,
        messages,
        control,
    }
}

/// Writes the record of control messages of this length, where there are some. It returns where their sections stand.
fn put_control(buffer: &mut Vec<u8>, control: &Option<Control>, len: Option<usize>) -> ControlPlaces
    requires sized { len ≡
        option_map (λ c. min usize.MAX (length (records_text (control_records c)))) control.now }
    requires room { vec_len buffer.old + length (control_part control.now) ≤ vec_capacity buffer.old }
    ensures written { buffer.new.items ≡ buffer.old.items ++ control_part control.now }
    ensures stand { ControlStands buffer.new.items result (unwrap_or control.now no_control) }
{
    let (Some(control), Some(len)) = (control, len) else {
        return no_sections(buffer.len());
    };
    put_len(buffer, RPC_CONTROL, len);
    put_control_sections(buffer, control)
}

fn put_control_sections(buffer: &mut Vec<u8>, control: &Control) -> ControlPlaces
    requires room { vec_len buffer.old + length (records_text (control_records control.now)) ≤ vec_capacity buffer.old }
    ensures written { buffer.new.items ≡ buffer.old.items ++ records_text (control_records control.now) }
    ensures stand { ControlStands buffer.new.items result control.now }
{
    let offers = put_section(buffer, CONTROL_IHAVE, control.ihave.as_slice());
    let requests = put_section(buffer, CONTROL_IWANT, control.iwant.as_slice());
    let grafts = put_section(buffer, CONTROL_GRAFT, control.graft.as_slice());
    let prunes = put_section(buffer, CONTROL_PRUNE, control.prune.as_slice());
    ControlPlaces {
        offers,
        requests,
        grafts,
        prunes,
    }
}

fn no_sections(place: usize) -> ControlPlaces
    ensures { (text : List ℕ) → place ≡ length text → ControlStands text result no_control }
{
    let empty = Place {
        start: place,
        end: place,
    };
    ControlPlaces {
        offers: empty,
        requests: empty,
        grafts: empty,
        prunes: empty,
    }
}

/// Writes the records of a field, and returns where they stand.
fn put_section<M: Encode>(buffer: &mut Vec<u8>, field: u64, parts: &[M]) -> Place
    requires small { field < 16 }
    requires room { vec_len buffer.old + length (records_text (part_records M.records field parts.now))
        ≤ vec_capacity buffer.old }
    ensures written { buffer.new.items ≡ buffer.old.items ++ records_text (part_records M.records field parts.now) }
    ensures capacity { vec_capacity buffer.old ≤ vec_capacity buffer.new }
    ensures start { result.start ≡ vec_len buffer.old }
    ensures end { result.end ≡ vec_len buffer.new }
    ensures len { result.end ≡ result.start + length (records_text (part_records M.records field parts.now)) }
{
    let start = buffer.len();
    put_parts(buffer, field, parts);
    Place {
        start,
        end: buffer.len(),
    }
}
