//! RPCs as bodies and frames.
ghost use Rattle.std.specs.Prelude.{◌≡◌, ◌⊎◌, ◌<◌, ◌≤◌, ◌+◌, ◌++◌, ◌↔◌, Err, IfOk, IfErr, OnOk, OnErr, IsErrOf, List, [], ◌∷◌, Option, min, option_map, option_to_list, unwrap_or, length, vec_len, vec_capacity};
ghost use Rattle.gs_base.specs.declared.rpc.Rpc.{Rpc as RpcValue};
ghost use Rattle.gs_base.specs.declared.control.Control.{Control as ControlValue};
ghost use Rattle.gs_wire.specs.Records.{Record as Spelled, SpellRecords, len_values, records_text};
ghost use Rattle.gs_wire.specs.Fields.{part_records};
ghost use Rattle.gs_wire.specs.Controls.{SaysControl, SaysMerged, no_control, control_records};
ghost use Rattle.gs_wire.specs.Messages.{SaysRpc, SpellsRpc, longest_body, body, frame};
ghost use Rattle.gs_wire.specs.Sections.{plain_length};
ghost use Rattle.gs_wire.specs.Views.{view};
ghost use Rattle.gs_base.specs.Rpcs.{publication};

use crate::decoding::{Decode, DecodeError, merge_all};
use crate::encoding::{Encode, len_record_len, parts_len, put_parts, put_sized_part};
use crate::fault::WireFault;
use crate::merging::merge_part;
use crate::reader::Reader;
use crate::record::Record;
use crate::varint::{put_varint, varint_len};
use bytes::Bytes;
use gs_base::{Control, Rpc, Topic};
use std::alloc::Global;

/// `RPC.subscriptions`, repeated `SubOpts` (libp2p pubsub, "The RPC": `rpc.proto`).
pub(crate) const RPC_SUBSCRIPTIONS: u64 = 1;
/// `RPC.publish`, repeated `Message`.
pub(crate) const RPC_PUBLISH: u64 = 2;
/// `RPC.control`, a `ControlMessage`.
pub(crate) const RPC_CONTROL: u64 = 3;

/// The longest body that is written, in bytes.
pub const MAX_BODY: usize = 1_048_576;

/// Returns the control that was read before, or an empty one, with the records of one more value merged into it.
fn merged(alloc: Global, before: Option<Control>, bytes: Reader<'_>) -> Result<Control, DecodeError>
    ensures merged { IfOk result (λ control. (records : List Spelled)
        × SpellRecords bytes.entry records
        × ((front : List Spelled) → SaysControl front (unwrap_or before no_control)
        → SaysControl (front ++ records) control)) }
    ensures malformed { IsErrOf result DecodeError.Malformed
        → (front records after : List Spelled) (other : ControlValue)
        → SpellRecords bytes.entry records
        → ¬ SaysControl (front ++ (records ++ after)) other }
{
    let mut control = match before {
        Some(control) => control,
        None => Control::empty(alloc),
    };
    merge_all(alloc, bytes, &mut control)?;
    Ok(control)
}

/// Merges the control that a record holds into the control that was read before.
fn merge_control(
    alloc: Global,
    record: &Record<'_>,
    control: &mut Option<Control>,
) -> Result<(), DecodeError>
    ensures merged { OnOk result ((before : List Spelled)
        → SaysMerged (len_values 3 before) control.old
        → SaysMerged (len_values 3 (before ++ view «record».now ∷ [])) control.new) }
    ensures malformed { IsErrOf result DecodeError.Malformed
        → (before after : List Spelled) (other : Option ControlValue)
        → ¬ SaysMerged (len_values 3 (before ++ view «record».now ∷ after)) other }
{
    let Some(bytes) = record.bytes_in(RPC_CONTROL) else {
        return Ok(());
    };
    *control = Some(merged(alloc, control.take(), bytes)?);
    Ok(())
}

impl Decode for Rpc {
    ghost says = { SaysRpc };

    fn empty(alloc: Global) -> Rpc {
        Rpc::empty(alloc)
    }

    fn merge(&mut self, alloc: Global, record: Record<'_>) -> Result<(), DecodeError> {
        merge_part(alloc, &record, RPC_SUBSCRIPTIONS, &mut self.subs)?;
        merge_part(alloc, &record, RPC_PUBLISH, &mut self.publish)?;
        merge_control(alloc, &record, &mut self.control)?;
        Ok(())
    }
}

/// Adds what a body spells to an RPC that says nothing yet, and shares one copy of the body. After an error, the RPC is of
/// no use.
pub(crate) fn read_body(alloc: Global, body: &[u8], rpc: &mut Rpc) -> Result<(), DecodeError>
    requires { SaysRpc [] rpc.old }
    ensures spelled { OnOk result (SpellsRpc body.now rpc.new) }
    ensures malformed { IsErrOf result DecodeError.Malformed → (rpc : RpcValue) → ¬ SpellsRpc body.now rpc }
{
    let shared = Bytes::copy_from_slice(alloc, body)?;
    merge_all(alloc, Reader::new(&shared), rpc)?;
    Ok(())
}

/// Returns the RPC that a body spells. It skips unknown fields, and known ones of another wire type. For a field that isn't
/// repeated, the last value is used. Each varint may have any of its spellings. The RPC keeps one copy of the body, which
/// its payloads and topics share.
///
/// # Errors
/// `Malformed` only if the body spells no RPC. `NoMemory` when out of memory, which may come instead of any answer. Only
/// tests show that a body which spells no RPC isn't refused as out of memory.
pub fn decode(alloc: Global, body: &[u8]) -> Result<Rpc, WireFault>
    ensures spelled { IfOk result (λ rpc. SpellsRpc body.now rpc) }
    ensures malformed { IsErrOf result WireFault.Malformed → (rpc : RpcValue) → ¬ SpellsRpc body.now rpc }
    ensures no_other { IfErr result (λ fault. (fault ≡ WireFault.Malformed) ⊎ (fault ≡ WireFault.NoMemory)) }
{
    let mut rpc = Rpc::empty(alloc);
    match read_body(alloc, body, &mut rpc) {
        Ok(()) => Ok(rpc),
        Err(DecodeError::Malformed) => Err(WireFault::Malformed),
        Err(DecodeError::NoMemory) => Err(WireFault::NoMemory),
    }
}

/// Returns the length of the control of an RPC, where it has one.
pub(crate) fn control_len(rpc: &Rpc) -> Option<usize>
    ensures { result ≡ option_map (λ c. min usize.MAX (length (records_text (control_records c)))) rpc.now.control }
{
    match &rpc.control {
        Some(control) => Some(control.encoded_len()),
        None => None,
    }
}

/// Returns the length of the record of a control of this length, where there is one.
pub(crate) fn control_record_len(len: Option<usize>) -> usize
    ensures { (control : Option ControlValue)
        → len ≡ option_map (λ c. min usize.MAX (length (records_text (control_records c)))) control
        → result ≡ min usize.MAX (length (records_text (part_records control_records 3 (option_to_list control)))) }
{
    match len {
        Some(len) => len_record_len(len),
        None => 0,
    }
}

/// Returns the length of everything that an RPC says outside of its control messages, up to the largest `usize`.
pub(crate) fn plain_len(rpc: &Rpc) -> usize
    ensures { result ≡ min usize.MAX (plain_length rpc.now) }
{
    parts_len(rpc.subs.as_slice()).saturating_add(parts_len(rpc.publish.as_slice()))
}

/// Returns the length of the body of an RPC, up to the largest `usize`.
pub(crate) fn full_len(rpc: &Rpc, control: Option<usize>) -> usize
    requires { control ≡ option_map (λ c. min usize.MAX (length (records_text (control_records c)))) rpc.now.control }
    ensures { result ≡ min usize.MAX (length (body rpc.now)) }
{
    plain_len(rpc).saturating_add(control_record_len(control))
}

/// Returns the length of the body of an RPC, where that isn't too long.
pub(crate) fn body_len(rpc: &Rpc, control: Option<usize>) -> Result<usize, WireFault>
    requires { control ≡ option_map (λ c. min usize.MAX (length (records_text (control_records c)))) rpc.now.control }
    ensures len { IfOk result (λ len. (len ≡ length (body rpc.now)) × (len ≤ longest_body)) }
    ensures too_long { IfErr result (λ fault. (fault ≡ WireFault.TooLong) × (longest_body < length (body rpc.now))) }
{
    let len = full_len(rpc, control);
    if len > MAX_BODY {
        return Err(WireFault::TooLong);
    }
    Ok(len)
}

fn put_body(buffer: &mut Vec<u8>, rpc: &Rpc, control: Option<usize>)
    requires sized { control ≡
        option_map (λ c. min usize.MAX (length (records_text (control_records c)))) rpc.now.control }
    requires room { vec_len buffer.old + length (body rpc.now) ≤ vec_capacity buffer.old }
    ensures { buffer.new.items ≡ buffer.old.items ++ body rpc.now }
{
    put_parts(buffer, RPC_SUBSCRIPTIONS, rpc.subs.as_slice());
    put_parts(buffer, RPC_PUBLISH, rpc.publish.as_slice());
    if let (Some(part), Some(len)) = (&rpc.control, control) {
        put_sized_part(buffer, RPC_CONTROL, part, len);
    }
}

/// Writes the body of an RPC at the end of a buffer. Fields are ascending, repeated ones are in order, varints are shortest,
/// and nothing is written for what is absent.
///
/// # Errors
/// `TooLong` exactly if the body is longer than `MAX_BODY`. `NoMemory` only if the buffer lacked the room. After an error,
/// the buffer is as it was.
pub fn encode(rpc: &Rpc, buffer: &mut Vec<u8>) -> Result<(), WireFault>
    ensures written { OnOk result (buffer.new.items ≡ buffer.old.items ++ body rpc.now) }
    ensures kept { OnErr result (buffer.new.items ≡ buffer.old.items) }
    ensures too_long { (result ≡ Err WireFault.TooLong) ↔ (longest_body < length (body rpc.now)) }
    ensures no_memory { result ≡ Err WireFault.NoMemory
        → vec_capacity buffer.old < vec_len buffer.old + length (body rpc.now) }
    ensures no_other { IfErr result (λ fault. (fault ≡ WireFault.TooLong) ⊎ (fault ≡ WireFault.NoMemory)) }
{
    let control = control_len(rpc);
    let len = body_len(rpc, control)?;
    buffer.reserve(len)?;
    put_body(buffer, rpc, control);
    Ok(())
}

/// Writes the frame of an RPC at the end of a buffer: the length of its body, and the body.
///
/// # Errors
/// `TooLong` exactly if the body is longer than `MAX_BODY`. `NoMemory` only if the buffer lacked the room. After an error,
/// the buffer is as it was.
pub fn encode_frame(rpc: &Rpc, buffer: &mut Vec<u8>) -> Result<(), WireFault>
    ensures written { OnOk result (buffer.new.items ≡ buffer.old.items ++ frame rpc.now) }
    ensures kept { OnErr result (buffer.new.items ≡ buffer.old.items) }
    ensures too_long { (result ≡ Err WireFault.TooLong) ↔ (longest_body < length (body rpc.now)) }
    ensures no_memory { result ≡ Err WireFault.NoMemory
        → vec_capacity buffer.old < vec_len buffer.old + length (frame rpc.now) }
    ensures no_other { IfErr result (λ fault. (fault ≡ WireFault.TooLong) ⊎ (fault ≡ WireFault.NoMemory)) }
{
    let control = control_len(rpc);
    let len = body_len(rpc, control)?;
    buffer.reserve(varint_len(len as u64) + len)?;
    put_varint(buffer, len as u64);
    put_body(buffer, rpc, control);
    Ok(())
}

/// Returns the length, in bytes, of the body of an RPC that publishes one message under StrictNoSign. It takes no memory.
pub fn publish_len(topic: &Topic, payload: &[u8]) -> usize
    requires { length topic.now.0 ≤ 1024 }
    ensures { result ≡ length (body (publication topic.now payload.now)) }
{
    len_record_len(len_record_len(payload.len()) + len_record_len(topic.0.len()))
}
