ghost use Rattle.std.specs.Prelude.{◌≡◌, ◌≤◌, IfErr, IfOk, List, Ok, length, map, position};
ghost use Rattle.gs_peer.specs.declared.finished_task.FinishedTask.{FinishedTask as Life};
ghost use Rattle.gs_ends.specs.Pairs.{Pair};
ghost use Rattle.gs_net.specs.Lives.{IsTakenApart, first_without_memory, wants_memory};

use gs_base::PeerNo;
use gs_ends::LinkEnds;
use gs_link::{LinkRx, LinkTx};
use gs_peer::PeerFault;
use gs_report::Finished;
use gs_seats::NetFault;
use std::alloc::Global;
use std::sync::Wait;

/// What remains of each peer, by number, and the ends of each.
#[derive(Drop)]
pub struct Lives {
    pub peers: Vec<(PeerNo, Finished)>,
    pub ends: Vec<Vec<(PeerNo, LinkTx, LinkRx)>>,
}

/// Splits what the tasks of all peers gave into what remains of each peer and its ends, by number.
///
/// # Errors
/// `NoMemory` if a task gave a fault, or if memory runs out here. It names the lowest peer that ran out of memory, if one did.
pub fn lives_of<R: Wait + Drop>(
    alloc: Global,
    results: Vec<Result<gs_peer::FinishedTask<LinkEnds<R>>, PeerFault>>,
) -> Result<Lives, NetFault>
    requires { length results.items ≤ 4_096 }
    ensures lives { IfOk result (λ lives. (given : List (Life (List Pair)))
        × (map Ok given ≡ results.items)
        × IsTakenApart given lives) }
    ensures fault { IfErr result (λ fault. fault ≡ NetFault.NoMemory (first_without_memory results.items)) }
{
    if let Some(peer) = first_without_memory(&results) {
        return Err(NetFault::NoMemory(Some(peer)));
    }
    let mut peers = Vec::new(alloc);
    let mut ends = Vec::new(alloc);
    for result in results {
        let number = PeerNo(peers.len() as u16);
        let Ok(life) = result else {
            return Err(NetFault::NoMemory(None));
        };
        let gs_peer::FinishedTask {
            trace,
            refused,
            meshes,
            scores,
            ends: own,
        } = life;
        let left = Finished {
            trace,
            refused,
            meshes,
            scores,
        };
        let Ok(()) = peers.push((number, left)) else {
            return Err(NetFault::NoMemory(None));
        };
        let Ok(()) = ends.push(own.into_list()) else {
            return Err(NetFault::NoMemory(None));
        };
    }
    Ok(Lives { peers, ends })
}

/// Returns the lowest peer whose task ran out of memory, if one did.
fn first_without_memory<R: Wait + Drop>(
    results: &[Result<gs_peer::FinishedTask<LinkEnds<R>>, PeerFault>],
) -> Option<PeerNo>
    requires { length results.now ≤ 4_096 }
    ensures { result ≡ first_without_memory results.now }
{
    match place_of_want(results) {
        Some(place) => Some(PeerNo(place as u16)),
        None => None,
    }
}

/// Returns the place of the first task that ran out of memory, if one did.
fn place_of_want<R: Wait + Drop>(
    results: &[Result<gs_peer::FinishedTask<LinkEnds<R>>, PeerFault>],
) -> Option<usize>
    ensures { result ≡ position wants_memory results.now }
{
    results.iter().position(|given| wants_memory(given))
}

fn wants_memory<R: Wait + Drop>(
    given: &Result<gs_peer::FinishedTask<LinkEnds<R>>, PeerFault>,
) -> bool
    ensures { result ≡ wants_memory given.now }
{
    match given {
        Err(PeerFault::NoMemory(_)) => true,
        Err(PeerFault::Stopped(_)) => false,
        Err(PeerFault::Over) => false,
        Ok(_) => false,
    }
}
