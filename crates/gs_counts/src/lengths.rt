//! How long RPCs are as bytes. The length of an RPC of one message with only a payload and a topic is computed, if the topic is
//! short enough. Any other RPC is written to find its length.
ghost use Rattle.std.specs.Prelude.{◌≡◌, ◌≤◌, ◌+◌, if◌then◌else◌, IfOk, IfSome, length, nat_le, None, Some};
ghost use Rattle.gs_base.specs.Rpcs.{passed_on, publication};
ghost use Rattle.gs_wire.specs.Messages.{body, frame, longest_body};
ghost use Rattle.gs_wire.specs.Varint.{varint};
ghost use Rattle.gs_counts.specs.Lengths.{body_length};

use gs_base::{LONGEST_TOPIC, Message, Rpc, Topic};
use gs_wire::{MAX_BODY, WireFault, encode, publish_len};
use std::alloc::{AllocError, Global};

/// The length of the body of an RPC, if that fits a frame.
pub(crate) fn body_len(alloc: Global, rpc: &Rpc) -> Result<Option<u64>, AllocError>
    ensures len { IfOk result (λ len. len ≡ body_length rpc.now) }
    ensures within { IfOk result (λ len. IfSome len (λ n. n ≤ longest_body)) }
{
    match publication_len(rpc) {
        Some(len) => Ok(fitting(len)),
        None => written_len(alloc, rpc),
    }
}

/// The length of the frame of an RPC that fits one.
pub(crate) fn frame_len(alloc: Global, rpc: &Rpc) -> Result<u64, AllocError>
    ensures { IfOk result (λ len. len ≡ length (frame rpc.now)) }
{
    match body_len(alloc, rpc)? {
        Some(len) => Ok(len + prefix_len(len)),
        None => Err(AllocError),
    }
}

/// The length of the prefix of a body of this length in a frame.
fn prefix_len(body: u64) -> u64
    requires { body ≤ longest_body }
    ensures len { result ≡ length (varint body) }
    ensures few { result ≤ 3 }
{
    if body < 128 {
        return 1;
    }
    if body < 16_384 {
        return 2;
    }
    3
}

/// The length of a body, if it fits a frame.
fn fitting(len: usize) -> Option<u64>
    ensures len { result ≡ (if nat_le len longest_body then Some len else None) }
    ensures within { IfSome result (λ n. n ≤ longest_body) }
{
    if len > MAX_BODY {
        return None;
    }
    Some(len as u64)
}

/// The length of the body of an RPC, if that fits a frame. The body is written to find it.
fn written_len(alloc: Global, rpc: &Rpc) -> Result<Option<u64>, AllocError>
    ensures len { IfOk result (λ len. len ≡ body_length rpc.now) }
    ensures within { IfOk result (λ len. IfSome len (λ n. n ≤ longest_body)) }
{
    let mut body = Vec::new(alloc);
    match encode(rpc, &mut body) {
        Ok(()) => Ok(fitting(body.len())),
        Err(WireFault::TooLong) => Ok(None),
        Err(_) => Err(AllocError),
    }
}

/// The length of the body of an RPC that is one message under StrictNoSign, and nothing else.
fn publication_len(rpc: &Rpc) -> Option<usize>
    ensures { IfSome result (λ len. len ≡ length (body rpc.now)) }
{
    if !rpc.subs.is_empty() || rpc.control.is_some() {
        return None;
    }
    match rpc.publish.as_slice() {
        [message] => message_len(message),
        _ => None,
    }
}

/// The length of the body of an RPC of one message, if that is a message under StrictNoSign.
fn message_len(message: &Message) -> Option<usize>
    ensures { IfSome result (λ len. len ≡ length (body (passed_on message.now))) }
{
    if message.is_signed() {
        return None;
    }
    match (&message.topic, &message.payload) {
        (Some(topic), Some(payload)) => unsigned_len(topic, payload.as_slice()),
        _ => None,
    }
}

/// The length of the body of an RPC of one message with only a payload and a topic, if the topic is short enough.
fn unsigned_len(topic: &Topic, payload: &[u8]) -> Option<usize>
    ensures { IfSome result (λ len. len ≡ length (body (publication topic.now payload.now))) }
{
    if topic.0.len() > LONGEST_TOPIC {
        return None;
    }
    Some(publish_len(topic, payload))
}
