//! What in a plan concerns one peer.
ghost use Rattle.std.specs.Prelude.{◌≡◌, ◌<◌, ◌++◌, ◌∷◌, ◌||◌, [], Bool, IfOk, OnOk, filter, length};
ghost use Rattle.gs_base.specs.Names.{same_peer};
ghost use Rattle.gs_base.specs.declared.names.PeerNo.{PeerNo as PeerNoValue};
ghost use Rattle.gs_seats.specs.ListsByPeer.{list_at};
ghost use Rattle.gs_seats.specs.Own.{AreByPeer, is_agreement_of, is_dial_of, is_score_of};

use crate::lists_by_peer::{empty_lists, put_if_there};
use gs_base::PeerNo;
use gs_plan::{App, Dial, Explicit};
use std::alloc::{AllocError, Global};

/// A part of a plan that concerns certain peers.
pub trait Concerning: Copy + Drop {
    /// Whether it concerns a peer.
    ghost is_of: { PeerNoValue → Self → Bool };

    /// Returns whether it concerns this peer.
    fn is_of(&self, peer: PeerNo) -> bool
        ensures { result ≡ is_of peer self.now };

    /// Returns the two peers that it concerns. If it concerns one peer, both are that one.
    fn both(&self) -> (PeerNo, PeerNo)
        ensures { (p : PeerNoValue) → is_of p self.now ≡ (same_peer result.0 p || same_peer result.1 p) };
}

impl Concerning for Dial {
    ghost is_of = { is_dial_of };

    fn is_of(&self, peer: PeerNo) -> bool {
        self.from == peer || self.to == peer
    }

    fn both(&self) -> (PeerNo, PeerNo) {
        (self.from, self.to)
    }
}

impl Concerning for App {
    ghost is_of = { is_score_of };

    fn is_of(&self, peer: PeerNo) -> bool {
        self.peer == peer
    }

    fn both(&self) -> (PeerNo, PeerNo) {
        (self.peer, self.peer)
    }
}

impl Concerning for Explicit {
    ghost is_of = { is_agreement_of };

    fn is_of(&self, peer: PeerNo) -> bool {
        self.peer == peer
    }

    fn both(&self) -> (PeerNo, PeerNo) {
        (self.peer, self.peer)
    }
}

/// What in a plan concerns one peer, in the order of the plan.
#[derive(Clone, Copy)]
pub struct Own<'a> {
    pub dials: &'a [Dial],
    /// The scores that the peer's application gives.
    pub apps: &'a [App],
    pub explicit: &'a [Explicit],
}

/// Returns those that concern a peer, in their order.
///
/// # Errors
/// `AllocError` when out of memory.
pub fn own_of<T: Concerning>(alloc: Global, all: &[T], peer: PeerNo) -> Result<Vec<T>, AllocError>
    ensures { IfOk result (λ own. own.items ≡ filter (T.is_of peer) all.now) }
{
    let mut own = Vec::new(alloc);
    for one in all {
        if one.is_of(peer) {
            own.push(*one)?;
        }
    }
    Ok(own)
}

/// Returns a list for each peer below this count, of those that concern the peer. Each list has their order.
///
/// # Errors
/// `AllocError` when out of memory.
pub fn own_by_peer<T: Concerning>(
    alloc: Global,
    all: &[T],
    count: usize,
) -> Result<Vec<Vec<T>>, AllocError>
    ensures { IfOk result (λ lists. AreByPeer T.is_of count all.now lists.items) }
{
    let mut lists = empty_lists(alloc, count)?;
    for one in all {
        put_for_both(&mut lists, *one)?;
    }
    Ok(lists)
}

/// Appends a value to the list of each peer that it concerns, if the peer has a list.
fn put_for_both<T: Concerning>(lists: &mut Vec<Vec<T>>, one: T) -> Result<(), AllocError>
    ensures count { length lists.new.items ≡ length lists.old.items }
    ensures put { OnOk result ((p : PeerNoValue)
        → p.0 < length lists.old.items
        → list_at lists.new.items p.0 ≡ list_at lists.old.items p.0 ++ filter (T.is_of p) (one ∷ [])) }
{
    let (peer, other) = one.both();
    put_if_there(lists, peer, one)?;
    if other == peer {
        return Ok(());
    }
    put_if_there(lists, other, one)?;
    Ok(())
}
