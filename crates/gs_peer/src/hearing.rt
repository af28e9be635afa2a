//! How a task passes what came to its router.
ghost use Rattle.std.specs.Prelude.{◌≡◌, [], ◌∷◌, ◌++◌, OnOk, List, Some, map};
ghost use Rattle.std.specs.List.{AllByRecursion};
ghost use Rattle.gs_params.specs.Seeding.{seeded_after, seeded_word};
ghost use Rattle.gs_rules.specs.Modes.{exact};
ghost use Rattle.gs_rules.specs.Rounds.{Hear};
ghost use Rattle.gs_peer.specs.Inboxes.{all_heard, heard_of, in_next_phase};
ghost use Rattle.gs_player.specs.Playing.{IsRunning, Runs, RpcsFit};

use crate::inbox::Inbox;
use gs_base::{Millis, PeerNo, Rpc};
use gs_params::SeededWords;
use gs_player::never_refused;
use gs_router::Router;
use std::alloc::{AllocError, Global};

/// Hears what is staged from each neighbour, one neighbour after the other, and begins the next phase.
pub fn hear(
    alloc: Global,
    router: &mut Router,
    words: &mut SeededWords,
    inboxes: &mut [Inbox],
    now: Millis,
) -> Result<(), AllocError>
    requires running { IsRunning now router.old }
    requires fit { AllByRecursion (λ x. RpcsFit x.stage) inboxes.old }
    ensures runs { OnOk result (Runs (exact seeded_word seeded_after) now (all_heard inboxes.old)
        router.old words.old router.new words.new []) }
    ensures in_next_phase { OnOk result (inboxes.new ≡ map in_next_phase inboxes.old) }
{
    for inbox in inboxes.iter_mut() {
        hear_from(alloc, router, words, inbox, now)?;
    }
    Ok(())
}

/// Hears what is staged from a neighbour: the RPCs, and then that it had a fault or is gone, if so.
fn hear_from(
    alloc: Global,
    router: &mut Router,
    words: &mut SeededWords,
    inbox: &mut Inbox,
    now: Millis,
) -> Result<(), AllocError>
    requires running { IsRunning now router.old }
    requires fit { RpcsFit inbox.old.stage }
    ensures runs { OnOk result (Runs (exact seeded_word seeded_after) now (heard_of inbox.old)
        router.old words.old router.new words.new []) }
    ensures in_next_phase { OnOk result (inbox.new ≡ in_next_phase inbox.old) }
{
    let from = inbox.peer();
    let rpcs = inbox.begin_phase(alloc);
    hear_each(router, words, from, rpcs, now)?;
    if inbox.is_broken_off() {
        never_refused(router.fault(from, now, words))?;
        return Ok(());
    }
    if inbox.is_closed() {
        never_refused(router.gone(from, now, words))?;
        return Ok(());
    }
    Ok(())
}

fn hear_each(
    router: &mut Router,
    words: &mut SeededWords,
    from: PeerNo,
    rpcs: Vec<Rpc>,
    now: Millis,
) -> Result<(), AllocError>
    requires running { IsRunning now router.old }
    requires fit { RpcsFit rpcs.items }
    ensures { OnOk result (Runs (exact seeded_word seeded_after) now (map (Hear from) rpcs.items)
        router.old words.old router.new words.new []) }
{
    for rpc in rpcs {
        match router.hear(from, rpc, now, words) {
            Ok(()) => {}
            Err(_) => return Err(AllocError),
        }
    }
    Ok(())
}
