//! Frames of a stream. A frame is a varint length, and then a body of this length.
ghost use Rattle.std.specs.Prelude.{◌≡◌, ◌↔◌, ◌++◌, ◌∷◌, [], ◌-◌, ◌≤◌, List, length, take, drop, None, IfOk, IfErr, IfSome, OnOk, OnErr, IsErrOf, IsTrue};
ghost use Rattle.gs_base.specs.declared.rpc.Rpc.{Rpc as RpcValue};
ghost use Rattle.gs_wire.specs.Messages.{SpellsRpc, longest_body};
ghost use Rattle.gs_wire.specs.Stream.{BeginsLength, GoesOn, IsStream, IsSpan};

use crate::decoding::{Decode, DecodeError};
use crate::rpc::read_body;
use crate::varint::{MAX_VARINT, varint_at};
use gs_base::Rpc;
use std::alloc::{AllocError, Global};

/// How a stream goes on after its whole frames.
#[derive(Clone, Copy, Debug, PartialEq, Eq)]
pub enum End {
    /// It waits for more of a frame, or for the next one.
    Waits,
    /// A length is above the limit.
    TooLong,
    /// No varint stands where a length must, or a body spells no RPC.
    Malformed,
}

/// Where the body of the frame at the front begins and ends, by the frame's length.
#[derive(Clone, Copy, Debug, PartialEq, Eq)]
pub(crate) struct Span {
    pub start: usize,
    pub end: usize,
}

/// What was read of a stream.
#[derive(Clone, Copy, Debug, PartialEq, Eq)]
pub(crate) struct Progress {
    /// How many bytes the whole frames take.
    pub taken: usize,
    /// Where the next body is, where its length is known.
    pub next: Option<Span>,
    /// How the stream goes on after the whole frames.
    pub end: End,
}

impl Progress {
    /// Returns the progress after `taken` bytes. The stream goes on as `end` says, and no length is known.
    fn without_length(taken: usize, end: End) -> Progress
        ensures { result ≡ record { taken = taken; next = None; end = end } }
    {
        Progress {
            taken,
            next: None,
            end,
        }
    }
}

/// Says whether the bytes are the front of a length, or nothing.
fn begins_length(bytes: &[u8]) -> bool
    ensures { IsTrue result ↔ BeginsLength bytes.now }
{
    bytes.len() < MAX_VARINT as usize && bytes.iter().all(|byte| *byte >= 128)
}

/// Returns where the body of the frame at the front is. Where no length says that, it returns how the stream goes on. A
/// length that was read before isn't read again.
fn span_at(limit: usize, known: Option<Span>, bytes: &[u8]) -> Result<Span, End>
    requires low { limit ≤ longest_body }
    requires known { IfSome known (λ span. IsSpan limit bytes.now span.start span.end) }
    ensures found { IfOk result (λ span. IsSpan limit bytes.now span.start span.end) }
    ensures no_length { IfErr result (λ end. GoesOn limit bytes.now end) }
{
    if let Some(span) = known {
        return Ok(span);
    }
    let Some((len, start)) = varint_at(bytes) else {
        return Err(if begins_length(bytes) {
            End::Waits
        } else {
            End::Malformed
        });
    };
    if len > limit as u64 {
        return Err(End::TooLong);
    }
    Ok(Span {
        start,
        end: start + len as usize,
    })
}

fn push_body(
    alloc: Global,
    span: Span,
    bytes: &[u8],
    rpcs: &mut Vec<Rpc>,
) -> Result<(), DecodeError>
    requires { (span.start ≤ span.end) × (span.end ≤ length bytes.now) }
    ensures pushed { OnOk result ((rpc : RpcValue)
        × SpellsRpc (take (span.end - span.start) (drop span.start bytes.now)) rpc
        × (rpcs.new.items ≡ rpcs.old.items ++ rpc ∷ [])) }
    ensures malformed { IsErrOf result DecodeError.Malformed
        → (rpc : RpcValue)
        → ¬ SpellsRpc (take (span.end - span.start) (drop span.start bytes.now)) rpc }
    ensures kept { OnErr result (rpcs.new.items ≡ rpcs.old.items) }
{
    let mut rpc = Rpc::empty(alloc);
    read_body(alloc, &bytes[span.start..span.end], &mut rpc)?;
    if rpcs.push(rpc).is_err() {
        return Err(DecodeError::NoMemory);
    }
    Ok(())
}

/// Adds the RPCs of the whole frames to a list. The length at the front may be known already.
pub(crate) fn read_frames(
    alloc: Global,
    limit: usize,
    known: Option<Span>,
    bytes: &[u8],
    rpcs: &mut Vec<Rpc>,
) -> Result<Progress, AllocError>
    requires low { limit ≤ longest_body }
    requires known { IfSome known (λ span. IsSpan limit bytes.now span.start span.end) }
    ensures within { IfOk result (λ p. p.taken ≤ length bytes.now) }
    ensures next { IfOk result (λ p.
        IfSome p.next (λ span. IsSpan limit (drop p.taken bytes.now) span.start span.end)) }
    ensures read { IfOk result (λ p. (found : List RpcValue)
        × IsStream limit bytes.now found (drop p.taken bytes.now) p.end
        × (rpcs.new.items ≡ rpcs.old.items ++ found)) }
    ensures kept { take (length rpcs.old.items) rpcs.new.items ≡ rpcs.old.items }
{
    let mut taken = 0;
    let mut next = known;
    loop {
        let rest = &bytes[taken..];
        let span = match span_at(limit, next, rest) {
            Ok(span) => span,
            Err(end) => return Ok(Progress::without_length(taken, end)),
        };
        if rest.len() < span.end {
            return Ok(Progress {
                taken,
                next: Some(span),
                end: End::Waits,
            });
        }
        match push_body(alloc, span, rest, rpcs) {
            Ok(()) => {
                taken += span.end;
                next = None;
            }
            Err(DecodeError::Malformed) => {
                return Ok(Progress::without_length(taken, End::Malformed));
            }
            Err(DecodeError::NoMemory) => return Err(AllocError),
        }
    }
}
