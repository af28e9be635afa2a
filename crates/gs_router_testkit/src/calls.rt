//! Calls of a router, as cases name them.
ghost use Rattle.std.specs.Prelude.{◌≡◌, ◌≤◌, true, IfOk};
ghost use Rattle.gs_rules.specs.Tables.{last_moment};
ghost use Rattle.gs_wire.specs.Codec.{codec};

use crate::cases::Call;
use crate::routers::topic_of;
use crate::rpcs::rpc_of;
use bytes::Bytes;
use gs_base::{Millis, PeerNo, Rpc};
use gs_params::SeededWords;
use gs_plan::Act;
use gs_router::{Router, RouterFault};
use gs_rules::Trace;
use gs_wire::{MAX_BODY, encode};
use std::alloc::{AllocError, Global};

/// What a call answers.
pub type Answer = Result<(), RouterFault>;

/// Whether no entry is later than the moment.
fn is_due(trace: &Trace, now: Millis) -> bool
    ensures { result ≡ true → last_moment trace.now ≤ now.0 }
{
    trace.last_moment().0 <= now.0
}

/// Whether an RPC fits a frame.
fn fits(alloc: Global, rpc: &Rpc) -> Result<bool, AllocError>
    ensures { IfOk result (λ is_short. is_short ≡ true → codec.fits rpc.now ≡ true) }
{
    let mut body = Vec::new(alloc);
    match encode(rpc, &mut body) {
        Ok(()) => Ok(body.len() <= MAX_BODY),
        Err(_) => Ok(false),
    }
}

/// An RPC that fits a frame; with any other the test fails.
fn fitting(alloc: Global, rpc: Rpc) -> Result<Rpc, AllocError>
    ensures { IfOk result (λ rpc. codec.fits rpc ≡ true) }
{
    match fits(alloc, &rpc)? {
        true => Ok(rpc),
        false => Err(AllocError),
    }
}

/// Makes a router hear an RPC.
fn listen(
    alloc: Global,
    router: &mut Router,
    now: Millis,
    call: Call<'_>,
    words: &mut SeededWords,
) -> Result<Answer, AllocError>
    requires { last_moment router.old.trace ≤ now.0 }
{
    match call {
        Call::Hear(from, parts) => {
            let rpc = fitting(alloc, rpc_of(alloc, parts)?)?;
            Ok(router.hear(PeerNo(from), rpc, now, words))
        }
        _ => Err(AllocError),
    }
}

/// Returns the act of a call, which must be one of the router's own user. With any other call the test fails.
pub fn act_of(alloc: Global, call: Call<'_>) -> Result<Act, AllocError> {
    match call {
        Call::Subscribe(name) => Ok(Act::Subscribe(topic_of(alloc, name)?)),
        Call::Unsubscribe(name) => Ok(Act::Unsubscribe(topic_of(alloc, name)?)),
        Call::Publish(name, payload) => {
            let topic = topic_of(alloc, name)?;
            let payload = Bytes::copy_from_slice(alloc, payload)?;
            Ok(Act::Publish(topic, payload))
        }
        Call::Raw(peer, bytes) => {
            let bytes = Bytes::copy_from_slice(alloc, bytes)?;
            Ok(Act::Raw(PeerNo(peer), bytes))
        }
        Call::HangUp(peer) => Ok(Act::HangUp(PeerNo(peer))),
        _ => Err(AllocError),
    }
}

/// Makes a router obey its own user.
fn obey(
    alloc: Global,
    router: &mut Router,
    now: Millis,
    call: Call<'_>,
    words: &mut SeededWords,
) -> Result<Answer, AllocError>
    requires { last_moment router.old.trace ≤ now.0 }
{
    let act = act_of(alloc, call)?;
    Ok(router.obey(act, now, words))
}

/// Makes a router do what comes with time, with the end of a link, or with the end of its run.
fn turn(
    router: &mut Router,
    now: Millis,
    call: Call<'_>,
    words: &mut SeededWords,
) -> Result<Answer, AllocError>
    requires { last_moment router.old.trace ≤ now.0 }
{
    match call {
        Call::Heartbeat => Ok(router.heartbeat(now, words)),
        Call::Decay => Ok(router.decay(now, words)),
        Call::EndRound(round) => Ok(router.end_round(round, now, words)),
        Call::Gone(peer) => Ok(router.gone(PeerNo(peer), now, words)),
        Call::Fault(peer) => Ok(router.fault(PeerNo(peer), now, words)),
        Call::Shut => Ok(router.shut(now, words)),
        _ => Err(AllocError),
    }
}

/// Makes one call of a router, by these words. With a moment that is past the test fails.
pub fn once(
    alloc: Global,
    router: &mut Router,
    now: Millis,
    call: Call<'_>,
    words: &mut SeededWords,
) -> Result<Answer, AllocError> {
    if !is_due(router.trace(), now) {
        return Err(AllocError);
    }
    match call {
        Call::Hear(_, _) => listen(alloc, router, now, call, words),
        Call::Subscribe(_)
        | Call::Unsubscribe(_)
        | Call::Publish(_, _)
        | Call::Raw(_, _)
        | Call::HangUp(_) => obey(alloc, router, now, call, words),
        _ => turn(router, now, call, words),
    }
}
