ghost use Rattle.std.specs.Prelude.{◌≡◌, ◌&&◌, IfOk, IsTrue, List, None, [], if◌then◌else◌, map, not, true};
ghost use Rattle.std.specs.List.{All, IsDistinct};
ghost use Rattle.gs_base.specs.Names.{same_peer};
ghost use Rattle.gs_base.specs.declared.names.PeerNo.{PeerNo as PeerNoValue};
ghost use Rattle.gs_link.specs.declared.item.Slot.{Slot};
ghost use Rattle.gs_link.specs.Items.{IsSendable};
ghost use Rattle.gs_link.specs.Ends.{IfGot, close_found_full, send_found_full, take_found_empty};
ghost use Rattle.gs_link.specs.Runs.{closes};
ghost use Rattle.gs_ends.specs.Ends.{IsFinished, IsPut, IsTaken, Joint, OthersStay, comes_from, has};
ghost use Rattle.gs_ends.specs.Ends.{TakesAll, TakesFront};
ghost use Rattle.gs_ends.specs.Lists.{BringsSendable, KeepsRoom, as_slots, counted, fresh_ends, listed_joint};
ghost use Rattle.gs_ends.specs.Lists.{accepted_in_lists, count_after, is_answered_full, joints_in_lists, senders_of, taken_in_lists};

use crate::ends::Ends;
use crate::inbound::Inbound;
use crate::outbound::Outbound;
use crate::position::position_of;
use gs_base::PeerNo;
use gs_link::{CloseRefused, Item, SendRefused, Taken};
use std::alloc::{AllocError, Global};
use std::marker::Model;

/// Ends that are lists in memory: for each neighbour, the items that come from it and those that were accepted for it. Contracts
/// see the list of the neighbours, each with its sending end, its given items, and how many slots of those were taken. They also
/// see how puts are counted. The ends belong to no link, and can refuse every n-th put.
#[derive(Drop)]
pub struct ListEnds {
    list: Vec<(PeerNo, Outbound, Inbound)>,
    every: u64,
    count: u64,
}

impl Model for ListEnds {
    ghost use Rattle.gs_ends.specs.Lists.{ListedEnds};

    ghost Value = { ListedEnds };

    ghost view = { λ s. record { lists = s.list.items; every = s.every; count = s.count } };
}

impl ListEnds {
    /// Creates ends from which the items of `inbound` come: for each neighbour its items in order, and then the close. No
    /// neighbour may stand in `inbound` twice, and each item must be one that may be sent. Nothing is accepted or taken yet.
    ///
    /// For each neighbour there is room for `room` slots, and the close takes one of them. Puts of items and of closes are
    /// counted over all neighbours together. A put to an end that has accepted the close is not counted. A counted put is
    /// answered `Full` if there is no room for it, or if its count is a multiple of `every`. Where `every` is 0, no put is
    /// refused for its count.
    ///
    /// # Errors
    /// `AllocError` if memory runs out. No later call takes memory.
    pub fn new(
        alloc: Global,
        inbound: Vec<(PeerNo, Vec<Item>)>,
        room: usize,
        every: u64,
    ) -> Result<ListEnds, AllocError>
        requires apart { IsDistinct same_peer (senders_of inbound.items) }
        requires size { All BringsSendable inbound.items }
        ensures ends { IfOk result (λ ends.
            ends ≡ record { lists = map (fresh_ends room) inbound.items; every = every; count = 0 }) }
        ensures joints { IfOk result (λ ends. joints_in_lists ends ≡ map listed_joint inbound.items) }
        ensures accepted { IfOk result (λ ends. (q : PeerNoValue) → accepted_in_lists ends q ≡ []) }
        ensures taken { IfOk result (λ ends. (q : PeerNoValue) → taken_in_lists ends q ≡ []) }
    {
        let mut list = Vec::new(alloc);
        for (who, items) in inbound {
            let outbound = Outbound::new(alloc, room)?;
            list.push((who, outbound, Inbound::new(items)))?;
        }
        Ok(ListEnds {
            list,
            every,
            count: 0,
        })
    }

    /// Returns the items that were accepted for a neighbour, in order, without the close.
    pub fn sent(&self, to: PeerNo) -> &[Item]
        requires known { has (joints_in_lists self.now) to ≡ true }
        ensures { as_slots result.now (closes (accepted_in_lists self.now to)) ≡ accepted_in_lists self.now to }
    {
        let place = position_of(self.list.as_slice(), to);
        let pair = &self.list[place];
        pair.1.items()
    }

    /// The slots that were taken from a neighbour are the first of those that were given for it, in order and without gaps. Once
    /// the close was taken, all of them were taken. Calls keep `joints`, so this also holds for ends that a task gives back.
    pub fn prove_taken_in_order(&self)
        ensures front { (q : PeerNoValue) → TakesFront (joints_in_lists self.now) (taken_in_lists self.now) q }
        ensures whole { (q : PeerNoValue) → TakesAll (joints_in_lists self.now) (taken_in_lists self.now) q }
    {}
}

// Counts a put, and says whether its count is a multiple of `every`.
fn is_counted_out(every: u64, count: &mut u64) -> bool
    ensures answer { result ≡ (counted every count.old).0 }
    ensures count { count.new ≡ (counted every count.old).1 }
{
    if every == 0 {
        return false;
    }
    if *count >= every - 1 {
        *count = 0;
        return true;
    }
    *count += 1;
    false
}

/// Whether a put is refused for its count. A put to an end that has accepted the close is not counted.
fn is_refused(every: u64, count: &mut u64, closed: bool) -> bool
    ensures answer { result ≡ (not closed && (counted every count.old).0) }
    ensures count { count.new ≡ if closed then count.old else (counted every count.old).1 }
{
    if closed {
        return false;
    }
    is_counted_out(every, count)
}

impl Ends for ListEnds {
    ghost joints = { λ s. joints_in_lists s };

    ghost accepted = { λ s q. accepted_in_lists s q };

    ghost taken = { λ s q. taken_in_lists s q };

    /// Puts the item at the back of what goes to a neighbour. It answers `Full` exactly where the end has not accepted the
    /// close, and the put is refused for its count or there is no room.
    fn put(&mut self, to: PeerNo, item: Item) -> Result<(), SendRefused>
        requires known { has (joints_in_lists self.old) to ≡ true }
        requires size { IsSendable item }
        ensures joints { joints_in_lists self.new ≡ joints_in_lists self.old }
        ensures accepted { IsPut (accepted_in_lists self.old to) (accepted_in_lists self.new to) item result }
        ensures others { OthersStay to (accepted_in_lists self.old) (accepted_in_lists self.new) }
        ensures taken { (q : PeerNoValue) → taken_in_lists self.new q ≡ taken_in_lists self.old q }
        ensures full { send_found_full result ≡ is_answered_full self.old to }
        ensures room { KeepsRoom self.old self.new (count_after self.old to) }
    {
        let place = position_of(self.list.as_slice(), to);
        let pair = &mut self.list[place];
        let closed = pair.1.is_closed();
        let refused = is_refused(self.every, &mut self.count, closed);
        pair.1.put(item, refused)
    }

    /// Puts the close at the back of what goes to a neighbour. It answers `Full` where a put of an item would answer `Full`.
    fn finish(&mut self, to: PeerNo) -> Result<(), CloseRefused>
        requires known { has (joints_in_lists self.old) to ≡ true }
        ensures joints { joints_in_lists self.new ≡ joints_in_lists self.old }
        ensures accepted { IsFinished (accepted_in_lists self.old to) (accepted_in_lists self.new to) result }
        ensures others { OthersStay to (accepted_in_lists self.old) (accepted_in_lists self.new) }
        ensures taken { (q : PeerNoValue) → taken_in_lists self.new q ≡ taken_in_lists self.old q }
        ensures full { close_found_full result ≡ is_answered_full self.old to }
        ensures room { KeepsRoom self.old self.new (count_after self.old to) }
    {
        let place = position_of(self.list.as_slice(), to);
        let pair = &mut self.list[place];
        let closed = pair.1.is_closed();
        let refused = is_refused(self.every, &mut self.count, closed);
        pair.1.finish(refused)
    }

    /// Takes the first slot from a neighbour that was not taken yet. Room and count stay as they are.
    fn take(&mut self, from: PeerNo) -> Taken
        requires known { has (joints_in_lists self.old) from ≡ true }
        ensures joints { joints_in_lists self.new ≡ joints_in_lists self.old }
        ensures taken { IsTaken (taken_in_lists self.old from) (taken_in_lists self.new from) result }
        ensures others { OthersStay from (taken_in_lists self.old) (taken_in_lists self.new) }
        ensures accepted { (q : PeerNoValue) → accepted_in_lists self.new q ≡ accepted_in_lists self.old q }
        ensures size { IfGot result IsSendable }
        ensures settled { IsTrue (take_found_empty result) → comes_from (joints_in_lists self.old) from ≡ None }
        ensures room { KeepsRoom self.old self.new self.old.count }
    {
        let place = position_of(self.list.as_slice(), from);
        let pair = &mut self.list[place];
        pair.2.take()
    }
}
