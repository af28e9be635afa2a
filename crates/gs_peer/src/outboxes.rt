ghost use Rattle.std.specs.Prelude.{◌≡◌, ◌≢◌, ◌<◌, ◌++◌, ◌∷◌, [], true, false, nat_eq, length, map, slice_get, Some, None, ◌&&◌, ◌||◌, if◌then◌else◌, OnOk, IfOk};
ghost use Rattle.std.specs.List.{AllByRecursion};
ghost use Rattle.gs_base.specs.declared.names.PeerNo.{PeerNo as PeerNoValue};
ghost use Rattle.gs_base.specs.Names.{same_peer};
ghost use Rattle.gs_base.specs.Tokens.{Byte, Close, EndOf};
ghost use Rattle.gs_wire.specs.Codec.{codec};
ghost use Rattle.gs_rules.specs.declared.event.Event.TheVariants.{Own};
ghost use Rattle.gs_rules.specs.Tables.{up_after};
ghost use Rattle.gs_rules.specs.Modes.{sent_to};
ghost use Rattle.gs_rules.specs.Saying.{AllFit, SendsFit, behind_entry, behind_event, cut_out, saying, sending, sending_all};
ghost use Rattle.gs_link.specs.Flat.{flat};
ghost use Rattle.gs_ends.specs.Ends.{OthersStay, has};
ghost use Rattle.gs_peer.specs.declared.outbox.Outbox.{Outbox as OutboxValue};
ghost use Rattle.gs_peer.specs.Moved.{MovesIf};
ghost use Rattle.gs_peer.specs.Moves.{is_silent};
ghost use Rattle.gs_peer.specs.Outboxes.{AcceptsOne, after_entries, box_of, gathered_in, is_neighbour, is_open, opens_after, outgoing_in, place_of, waiting};

use crate::frames::written_for;
use crate::outbox::Outbox;
use bytes::Bytes;
use gs_base::{PeerNo, Rpc, Shared, clone_of};
use gs_ends::Ends;
use gs_plan::Act;
use gs_rules::{Event, StoredEntry};
use gs_wire::WrittenRpc;
use indexmap::IndexMap;
use std::alloc::{AllocError, Global};

/// What waits to go to each neighbour, in the order of the neighbours. RPCs are gathered, and wait as one frame from the next
/// cut on. A cut is where a round ends, raw bytes go out, the link is closed, or one more RPC does not fit. Frames and raw
/// bytes wait whole and go out in pieces. All neighbours that get the same single RPC share its frame.
#[derive(Drop)]
pub struct Outboxes {
    boxes: IndexMap<PeerNo, Outbox>,
}

impl Outboxes {
    /// Creates outboxes for these neighbours, in which nothing waits and nothing is gathered.
    ///
    /// # Errors
    /// `AllocError` if memory runs out.
    pub fn new(alloc: Global, neighbours: &[PeerNo]) -> Result<Outboxes, AllocError>
        ensures open { IfOk result (λ out. AllByRecursion (λ q. is_open out q ≡ true) neighbours.now) }
        ensures alone { IfOk result (λ out. (q : PeerNoValue) → is_open out q ≡ is_neighbour neighbours.now q) }
        ensures silent { IfOk result (λ out. (q : PeerNoValue) → waiting out q ≡ []) }
        ensures nothing { IfOk result (λ out. (q : PeerNoValue) → gathered_in out q ≡ None) }
    {
        let mut out = Outboxes {
            boxes: IndexMap::with_capacity(alloc, neighbours.len())?,
        };
        for neighbour in neighbours {
            out.open(alloc, *neighbour)?;
        }
        Ok(out)
    }

    /// Adds an outbox for a neighbour, in which nothing waits.
    fn open(&mut self, alloc: Global, peer: PeerNo) -> Result<(), AllocError>
        ensures opened { OnOk result (is_open self.new peer ≡ true) }
        ensures alone { OnOk result ((q : PeerNoValue) → is_open self.new q ≡ (is_open self.old q || same_peer peer q)) }
        ensures silent { OnOk result ((q : PeerNoValue)
            → waiting self.new q ≡ (if same_peer peer q then [] else waiting self.old q)) }
        ensures gathered { OnOk result ((q : PeerNoValue)
            → gathered_in self.new q ≡ (if same_peer peer q then None else gathered_in self.old q)) }
    {
        self.boxes.insert(peer, Outbox::new(alloc))?;
        Ok(())
    }

    /// Queues for the neighbours what these entries say, from the first entry to the last.
    ///
    /// # Errors
    /// `AllocError` if memory runs out.
    pub fn tell_all(&mut self, alloc: Global, entries: &[StoredEntry]) -> Result<(), AllocError>
        requires { AllFit codec entries.now }
        ensures told { OnOk result ((q : PeerNoValue)
            → outgoing_in self.new q
            ≡ after_entries q (is_open self.old q) (outgoing_in self.old q) entries.now) }
        ensures open { OnOk result ((q : PeerNoValue)
            → is_open self.new q ≡ opens_after q (is_open self.old q) entries.now) }
    {
        for entry in entries {
            self.tell(alloc, entry)?;
        }
        Ok(())
    }

    /// Queues for the neighbours what an entry says.
    fn tell(&mut self, alloc: Global, entry: &StoredEntry) -> Result<(), AllocError>
        requires { SendsFit codec entry.now.effects.sends }
        ensures told { OnOk result ((q : PeerNoValue)
            → outgoing_in self.new q
            ≡ (if is_open self.old q
            then behind_entry codec q (outgoing_in self.old q) entry.now
            else outgoing_in self.old q)) }
        ensures open { OnOk result ((q : PeerNoValue)
            → is_open self.new q ≡ up_after q entry.now.event (is_open self.old q)) }
    {
        self.send_all(alloc, entry.sends())?;
        self.tell_event(alloc, entry.event())?;
        Ok(())
    }

    /// Gathers what an entry sends. An RPC that goes to several neighbours in a row is written once.
    fn send_all(&mut self, alloc: Global, sends: &[(PeerNo, Shared<Rpc>)]) -> Result<(), AllocError>
        requires { SendsFit codec sends.now }
        ensures told { OnOk result ((q : PeerNoValue)
            → outgoing_in self.new q
            ≡ (if is_open self.old q
            then sending_all codec (outgoing_in self.old q) (sent_to q sends.now)
            else outgoing_in self.old q)) }
        ensures open { OnOk result ((q : PeerNoValue) → is_open self.new q ≡ is_open self.old q) }
    {
        let mut last = None;
        for (to, rpc) in sends {
            let written = written_for(alloc, &mut last, rpc)?;
            self.send(alloc, *to, &written)?;
        }
        Ok(())
    }

    /// Gathers an RPC for a neighbour.
    fn send(
        &mut self,
        alloc: Global,
        to: PeerNo,
        rpc: &Shared<WrittenRpc>,
    ) -> Result<(), AllocError>
        requires { codec.fits rpc.now ≡ true }
        ensures told { OnOk result ((q : PeerNoValue)
            → outgoing_in self.new q
            ≡ (if is_open self.old q && same_peer to q
            then sending codec (outgoing_in self.old q) rpc.now
            else outgoing_in self.old q)) }
        ensures open { OnOk result ((q : PeerNoValue) → is_open self.new q ≡ is_open self.old q) }
    {
        match self.boxes.get_mut(&to) {
            Some(outbox) => {
                outbox.send(alloc, rpc)?;
                Ok(())
            }
            None => Ok(()),
        }
    }

    /// Queues what an event says after what is gathered.
    fn tell_event(&mut self, alloc: Global, event: &Event) -> Result<(), AllocError>
        ensures told { OnOk result ((q : PeerNoValue)
            → outgoing_in self.new q
            ≡ (if is_open self.old q
            then behind_event codec q (outgoing_in self.old q) event.now
            else outgoing_in self.old q)) }
        ensures open { OnOk result ((q : PeerNoValue) → is_open self.new q ≡ up_after q event.now (is_open self.old q)) }
    {
        match event {
            Event::RoundEnd(round) => self.mark_all(alloc, *round),
            Event::Shut => self.close_all(alloc),
            Event::Own(act) => self.tell_act(alloc, act.get()),
            Event::Lost(peer, _) => self.close(alloc, *peer),
            Event::Heard(_, _) => Ok(()),
            Event::Late(_, _) => Ok(()),
            Event::Part(_, _) => Ok(()),
            Event::BeatBegin => Ok(()),
            Event::Step(_) => Ok(()),
            Event::Decay => Ok(()),
        }
    }

    /// Queues what an act of the peer's own user says after what is gathered.
    fn tell_act(&mut self, alloc: Global, act: &Act) -> Result<(), AllocError>
        ensures told { OnOk result ((q : PeerNoValue)
            → outgoing_in self.new q
            ≡ (if is_open self.old q
            then behind_event codec q (outgoing_in self.old q) (Own act.now)
            else outgoing_in self.old q)) }
        ensures open { OnOk result ((q : PeerNoValue)
            → is_open self.new q ≡ up_after q (Own act.now) (is_open self.old q)) }
    {
        match act {
            Act::Raw(to, bytes) => self.put_raw(alloc, *to, clone_of(bytes)?),
            Act::HangUp(peer) => self.close(alloc, *peer),
            Act::Subscribe(_) => Ok(()),
            Act::Unsubscribe(_) => Ok(()),
            Act::Publish(_, _) => Ok(()),
        }
    }

    /// Queues raw bytes after what is gathered for a neighbour, if more may be said to it.
    fn put_raw(&mut self, alloc: Global, to: PeerNo, bytes: Bytes) -> Result<(), AllocError>
        ensures told { OnOk result ((q : PeerNoValue)
            → outgoing_in self.new q
            ≡ (if is_open self.old q && same_peer to q
            then saying (cut_out codec (outgoing_in self.old q)) (map Byte bytes)
            else outgoing_in self.old q)) }
        ensures open { OnOk result ((q : PeerNoValue) → is_open self.new q ≡ is_open self.old q) }
    {
        match self.boxes.get_mut(&to) {
            Some(outbox) => {
                outbox.put_raw(alloc, bytes)?;
                Ok(())
            }
            None => Ok(()),
        }
    }

    /// Queues the end of a round for each neighbour to which more may be said.
    fn mark_all(&mut self, alloc: Global, round: u64) -> Result<(), AllocError>
        ensures told { OnOk result ((q : PeerNoValue)
            → outgoing_in self.new q
            ≡ (if is_open self.old q
            then saying (cut_out codec (outgoing_in self.old q)) (EndOf round ∷ [])
            else outgoing_in self.old q)) }
        ensures open { OnOk result ((q : PeerNoValue) → is_open self.new q ≡ is_open self.old q) }
    {
        for place in 0..self.boxes.len() {
            self.mark_at(alloc, place, round)?;
        }
        Ok(())
    }

    /// Queues the end of a round for the neighbour at this place, if more may be said to it.
    fn mark_at(&mut self, alloc: Global, place: usize, round: u64) -> Result<(), AllocError>
        ensures told { OnOk result ((q : PeerNoValue)
            → outgoing_in self.new q
            ≡ (if is_open self.old q && nat_eq place (place_of self.old q)
            then saying (cut_out codec (outgoing_in self.old q)) (EndOf round ∷ [])
            else outgoing_in self.old q)) }
        ensures open { OnOk result ((q : PeerNoValue) → is_open self.new q ≡ is_open self.old q) }
        ensures places { OnOk result ((q : PeerNoValue) → place_of self.new q ≡ place_of self.old q) }
    {
        match self.boxes.get_index_mut(place) {
            Some(outbox) => {
                outbox.mark(alloc, round)?;
                Ok(())
            }
            None => Ok(()),
        }
    }

    /// Queues what is gathered for a neighbour and then the close, if more may be said to it. Nothing is said to it after that.
    fn close(&mut self, alloc: Global, to: PeerNo) -> Result<(), AllocError>
        ensures told { OnOk result ((q : PeerNoValue)
            → outgoing_in self.new q
            ≡ (if is_open self.old q && same_peer to q
            then saying (cut_out codec (outgoing_in self.old q)) (Close ∷ [])
            else outgoing_in self.old q)) }
        ensures open { OnOk result ((q : PeerNoValue)
            → is_open self.new q ≡ (if same_peer to q then false else is_open self.old q)) }
    {
        match self.boxes.get_mut(&to) {
            Some(outbox) => {
                outbox.close(alloc)?;
                Ok(())
            }
            None => Ok(()),
        }
    }

    /// Queues what is gathered and then the close, for each neighbour to which more may be said. Nothing is said after that.
    fn close_all(&mut self, alloc: Global) -> Result<(), AllocError>
        ensures told { OnOk result ((q : PeerNoValue)
            → outgoing_in self.new q
            ≡ (if is_open self.old q
            then saying (cut_out codec (outgoing_in self.old q)) (Close ∷ [])
            else outgoing_in self.old q)) }
        ensures open { OnOk result ((q : PeerNoValue) → is_open self.new q ≡ false) }
    {
        for place in 0..self.boxes.len() {
            self.close_at(alloc, place)?;
        }
        Ok(())
    }

    /// Queues what is gathered and then the close for the neighbour at this place, if more may be said to it.
    fn close_at(&mut self, alloc: Global, place: usize) -> Result<(), AllocError>
        ensures told { OnOk result ((q : PeerNoValue)
            → outgoing_in self.new q
            ≡ (if is_open self.old q && nat_eq place (place_of self.old q)
            then saying (cut_out codec (outgoing_in self.old q)) (Close ∷ [])
            else outgoing_in self.old q)) }
        ensures open { OnOk result ((q : PeerNoValue)
            → is_open self.new q ≡ (if nat_eq place (place_of self.old q) then false else is_open self.old q)) }
        ensures places { OnOk result ((q : PeerNoValue) → place_of self.new q ≡ place_of self.old q) }
    {
        match self.boxes.get_index_mut(place) {
            Some(outbox) => {
                outbox.close(alloc)?;
                Ok(())
            }
            None => Ok(()),
        }
    }

    /// Offers a neighbour what waits first for it, and returns whether something moved. Either one slot was accepted, or an
    /// empty frame was dropped. The outbox is looked for at the place `near` first, and then by the neighbour's number.
    ///
    /// # Errors
    /// `AllocError` if memory runs out.
    pub fn offer<S: Ends>(
        &mut self,
        ends: &mut S,
        to: PeerNo,
        near: usize,
    ) -> Result<bool, AllocError>
        requires { has (S.joints ends.old) to ≡ true }
        ensures joints { S.joints ends.new ≡ S.joints ends.old }
        ensures grew { AcceptsOne (S.accepted ends.old to) (S.accepted ends.new to) }
        ensures others { OthersStay to (S.accepted ends.old) (S.accepted ends.new) }
        ensures taken { (q : PeerNoValue) → S.taken ends.new q ≡ S.taken ends.old q }
        ensures says { OnOk result (
            flat (S.accepted ends.new to) ++ flat (waiting self.new to) ≡
            flat (S.accepted ends.old to) ++ flat (waiting self.old to)) }
        ensures stays { OnOk result ((q : PeerNoValue) → q ≢ to → waiting self.new q ≡ waiting self.old q) }
        ensures open { OnOk result ((q : PeerNoValue) → is_open self.new q ≡ is_open self.old q) }
        ensures gathered { OnOk result ((q : PeerNoValue) → gathered_in self.new q ≡ gathered_in self.old q) }
        ensures moved { IfOk result (λ moved.
            MovesIf moved (S.accepted ends.old to) (S.accepted ends.new to)
            (waiting self.old to) (waiting self.new to)) }
    {
        if self.is_at(to, near) {
            let (_, outbox) = self.boxes.pair_mut(near);
            let moved = outbox.offer(ends, to)?;
            return Ok(moved);
        }
        match self.boxes.get_mut(&to) {
            Some(outbox) => {
                let offered = outbox.offer(ends, to)?;
                Ok(offered)
            }
            None => Ok(false),
        }
    }

    /// Whether the outbox of a neighbour stands at this place.
    fn is_at(&self, to: PeerNo, place: usize) -> bool
        ensures within { result ≡ true → place < length self.now.boxes.entries }
        ensures there { result ≡ true → (box : OutboxValue)
            × (slice_get self.now.boxes.entries place ≡ Some (to, box))
            × (box_of self.now to ≡ Some box) }
    {
        match self.boxes.get_index(place) {
            Some((peer, _)) => *peer == to,
            None => false,
        }
    }

    /// Says whether nothing waits for a neighbour. The outbox is looked for at the place `near` first, and then by the
    /// neighbour's number.
    pub fn is_silent_near(&self, to: PeerNo, near: usize) -> bool
        ensures { result ≡ is_silent self.now to }
    {
        match self.boxes.get_index(near) {
            Some((peer, outbox)) => {
                if *peer == to {
                    return outbox.slots.is_empty();
                }
                self.is_silent(to)
            }
            None => self.is_silent(to),
        }
    }

    /// Says whether nothing waits for a neighbour.
    pub fn is_silent(&self, to: PeerNo) -> bool
        ensures silent { result ≡ true → waiting self.now to ≡ [] }
        ensures exact { result ≡ is_silent self.now to }
    {
        match self.boxes.get(&to) {
            Some(outbox) => outbox.slots.is_empty(),
            None => true,
        }
    }
}
