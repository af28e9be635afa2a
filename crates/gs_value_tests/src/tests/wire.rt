//! Bodies of RPCs and their frames, written by hand, and what spells no RPC.
mod gathered;
mod gathering;
mod joining;
mod proto;
mod said;
mod sizes;
mod streams;

use crate::tests::wire::proto::{BODIES, MALFORMED};
use crate::tests::wire::said::is_read_and_written;
use crate::tests::wire::sizes::published;
use bytes::Bytes;
use gs_base::{Rpc, Shared, Topic};
use gs_wire::{
    WireFault, WrittenRpc, a_body_spells_its_rpc, a_graft_fits_a_frame, a_joined_body_is_no_longer,
    a_message_by_itself_is_no_longer, a_prune_fits_a_frame, a_reader_holds_the_unread_end,
    a_request_fits_a_frame, a_stream_is_one, a_stream_may_be_cut_anywhere,
    a_written_frame_is_read_back, an_offer_fits_a_frame, bodies_in_a_row_spell_the_joined_rpc,
    bytes_spell_one_list_of_records, bytes_spell_one_rpc, decode, encode, encode_frame,
    every_list_of_bytes_is_a_stream, no_frame_begins_another, rpcs_are_joined_in_any_grouping,
    the_written_varint_is_shortest, what_was_read_fits_a_frame,
    what_was_read_is_no_longer_when_written,
};
use std::alloc::{AllocError, Global};

#[test]
fn bodies_are_read_and_written(rt: HostRuntime) {
    for (name, body, says, frame) in &BODIES {
        assert!(rt;
            matches!(is_read_and_written(rt.alloc(), body, says, frame), Ok(true)),
            "{name}"
        );
    }
}

#[test]
fn what_spells_no_rpc_is_malformed(rt: HostRuntime) {
    for (name, body) in &MALFORMED {
        let fault = decode(rt.alloc(), body).err();
        assert!(rt; matches!(fault, Some(WireFault::Malformed)), "{name}");
    }
}

/// Whether no way to write the RPC takes it, since its body is too long. Then nothing is written.
fn is_too_long(alloc: Global, rpc: &Shared<Rpc>) -> bool {
    let mut written = Vec::new(alloc);
    let body = encode(rpc.get(), &mut written);
    let frame = encode_frame(rpc.get(), &mut written);
    matches!(
        (body, frame, WrittenRpc::new(alloc, rpc).err()),
        (
            Err(WireFault::TooLong),
            Err(WireFault::TooLong),
            Some(WireFault::TooLong)
        )
    ) && written.is_empty()
}

/// Whether a payload of this length is too long.
fn is_refused(alloc: Global, len: usize) -> Result<bool, WireFault> {
    let rpc = Shared::new(alloc, published(alloc, len)?)?;
    Ok(is_too_long(alloc, &rpc))
}

/// A payload has eleven bytes of records round it here. `sizes.rt` and `gathered.rt` have the longest that is taken.
#[test]
fn a_body_may_have_a_mebibyte(rt: HostRuntime) {
    assert!(rt; matches!(is_refused(rt.alloc(), 1_048_566), Ok(true)));
}

/// Writes the body of an RPC that leaves the topic `a`.
fn write_leaving(alloc: Global, buffer: &mut Vec<u8>) -> Result<(), WireFault> {
    let rpc = Rpc::announcement(alloc, false, &Topic(Bytes::from_static(b"a")))?;
    encode(&rpc, buffer)
}

/// Whether that is written at the end of what the buffer has.
fn goes_to_the_end(alloc: Global) -> Result<bool, WireFault> {
    let mut buffer = Vec::from_slice(alloc, b"kept")?;
    write_leaving(alloc, &mut buffer)?;
    Ok(buffer.as_slice() == b"kept\x0a\x05\x08\x00\x12\x01\x61".as_slice())
}

#[test]
fn what_is_written_goes_to_the_end(rt: HostRuntime) {
    assert!(rt; matches!(goes_to_the_end(rt.alloc()), Ok(true)));
}

static TEXTS: [(WireFault, &str); 4] = [
    (WireFault::Malformed, "the bytes spell no RPC"),
    (WireFault::TooLong, "the body is too long"),
    (WireFault::Failed, "the stream has failed before"),
    (WireFault::NoMemory, "there was no memory"),
];

/// Whether the fault is shown as this text.
fn is_shown(alloc: Global, fault: WireFault, text: &str) -> Result<bool, AllocError> {
    let shown = format!(in alloc; "{fault}")?;
    Ok(shown.as_str() == text)
}

#[test]
fn each_fault_has_its_text(rt: HostRuntime) {
    for (fault, text) in &TEXTS {
        assert!(rt;
            matches!(is_shown(rt.alloc(), *fault, text), Ok(true)),
            "{text}"
        );
    }
}

/// The laws take nothing and give nothing, so the test only calls them.
#[test]
fn laws_can_be_called(_rt: HostRuntime) {
    bytes_spell_one_list_of_records();
    bytes_spell_one_rpc();
    a_body_spells_its_rpc();
    no_frame_begins_another();
    the_written_varint_is_shortest();
    a_stream_is_one();
    a_stream_may_be_cut_anywhere();
    a_reader_holds_the_unread_end();
    every_list_of_bytes_is_a_stream();
    a_written_frame_is_read_back();
    what_was_read_is_no_longer_when_written();
    what_was_read_fits_a_frame();
    a_message_by_itself_is_no_longer();
    an_offer_fits_a_frame();
    a_request_fits_a_frame();
    a_graft_fits_a_frame();
    a_prune_fits_a_frame();
    bodies_in_a_row_spell_the_joined_rpc();
    a_joined_body_is_no_longer();
    rpcs_are_joined_in_any_grouping();
}
