ghost use Rattle.std.specs.Prelude.{◌≡◌, ◌≤◌, ◌++◌, ◌∷◌, [], None, true, false, if◌then◌else◌, length, map, OnOk, IfOk};
ghost use Rattle.gs_base.specs.declared.names.PeerNo.{PeerNo as PeerNoValue};
ghost use Rattle.gs_base.specs.Tokens.{Byte, Close, EndOf};
ghost use Rattle.gs_link.specs.Flat.{flat};
ghost use Rattle.gs_link.specs.declared.item.Slot.TheVariants.{Piece, Close as Closing};
ghost use Rattle.gs_link.specs.Items.{IsPiece, IsSendable, slot_of};
ghost use Rattle.gs_ends.specs.Ends.{OthersStay, has};
ghost use Rattle.gs_peer.specs.Moved.{GrewIf, MovesIf};
ghost use Rattle.gs_peer.specs.Outboxes.{AcceptsOne, outgoing_of};
ghost use Rattle.gs_rules.specs.Saying.{cut_out, saying, sending};
ghost use Rattle.gs_wire.specs.Codec.{codec};

use crate::queue::SlotQueue;
use bytes::Bytes;
use gs_base::{PeerNo, Shared};
use gs_ends::Ends;
use gs_link::{Item, LONGEST_PIECE, SendRefused, Slot};
use gs_wire::{Gathered, WrittenRpc};
use std::alloc::{AllocError, Global};

/// What waits to go to a neighbour, the RPC that is gathered to go out after it, and whether more may be said.
#[derive(Drop)]
pub struct Outbox {
    pub(crate) slots: SlotQueue,
    pub(crate) gathered: Gathered,
    pub(crate) is_open: bool,
}

impl Outbox {
    /// Creates an outbox in which nothing waits. More may be said to its neighbour.
    pub(crate) fn new(alloc: Global) -> Outbox
        ensures slots { result.slots ≡ [] }
        ensures gathered { result.gathered ≡ None }
        ensures open { result.is_open ≡ true }
    {
        Outbox {
            slots: SlotQueue::new(alloc),
            gathered: Gathered::new(alloc),
            is_open: true,
        }
    }

    /// Gathers an RPC, if more may be said. If it does not fit one frame with what was gathered, that is queued first.
    pub(crate) fn send(&mut self, alloc: Global, rpc: &Shared<WrittenRpc>) -> Result<(), AllocError>
        requires fits { codec.fits rpc.now ≡ true }
        ensures told { OnOk result (outgoing_of self.new
            ≡ (if self.old.is_open then sending codec (outgoing_of self.old) rpc.now else outgoing_of self.old)) }
        ensures open { OnOk result (self.new.is_open ≡ self.old.is_open) }
    {
        if !self.is_open {
            return Ok(());
        }
        if self.gathered.gather(rpc)? {
            return Ok(());
        }
        self.put_out(alloc)?;
        self.gathered.gather(rpc)?;
        Ok(())
    }

    /// Queues raw bytes after what is gathered, if more may be said.
    pub(crate) fn put_raw(&mut self, alloc: Global, bytes: Bytes) -> Result<(), AllocError>
        ensures told { OnOk result (outgoing_of self.new
            ≡ (if self.old.is_open
            then saying (cut_out codec (outgoing_of self.old)) (map Byte bytes)
            else outgoing_of self.old)) }
        ensures open { OnOk result (self.new.is_open ≡ self.old.is_open) }
    {
        if !self.is_open {
            return Ok(());
        }
        self.put_out(alloc)?;
        self.slots.push_back(Slot::Piece(bytes))?;
        Ok(())
    }

    /// Queues the end of a round after what is gathered, if more may be said.
    pub(crate) fn mark(&mut self, alloc: Global, round: u64) -> Result<(), AllocError>
        ensures told { OnOk result (outgoing_of self.new
            ≡ (if self.old.is_open
            then saying (cut_out codec (outgoing_of self.old)) (EndOf round ∷ [])
            else outgoing_of self.old)) }
        ensures open { OnOk result (self.new.is_open ≡ self.old.is_open) }
    {
        if !self.is_open {
            return Ok(());
        }
        self.put_out(alloc)?;
        self.slots.push_back(Slot::Round(round))?;
        Ok(())
    }

    /// Queues what is gathered and then the close, if more may be said. Nothing is said after the close.
    pub(crate) fn close(&mut self, alloc: Global) -> Result<(), AllocError>
        ensures told { OnOk result (outgoing_of self.new
            ≡ (if self.old.is_open
            then saying (cut_out codec (outgoing_of self.old)) (Close ∷ [])
            else outgoing_of self.old)) }
        ensures open { OnOk result (self.new.is_open ≡ false) }
    {
        if !self.is_open {
            return Ok(());
        }
        self.put_out(alloc)?;
        self.slots.push_back(Slot::Close)?;
        self.is_open = false;
        Ok(())
    }

    /// Queues the frame of what is gathered, if anything is.
    fn put_out(&mut self, alloc: Global) -> Result<(), AllocError>
        ensures told { OnOk result (outgoing_of self.new ≡ cut_out codec (outgoing_of self.old)) }
        ensures open { OnOk result (self.new.is_open ≡ self.old.is_open) }
    {
        match self.gathered.take_frame(alloc)? {
            Some(frame) => {
                self.slots.push_back(Slot::Piece(frame))?;
                Ok(())
            }
            None => Ok(()),
        }
    }

    /// Offers a neighbour what waits first: the end of a round, the close, or a piece of what was queued whole. What is
    /// refused stays at the front.
    pub(crate) fn offer<S: Ends>(&mut self, ends: &mut S, to: PeerNo) -> Result<bool, AllocError>
        requires { has (S.joints ends.old) to ≡ true }
        ensures joints { S.joints ends.new ≡ S.joints ends.old }
        ensures grew { AcceptsOne (S.accepted ends.old to) (S.accepted ends.new to) }
        ensures others { OthersStay to (S.accepted ends.old) (S.accepted ends.new) }
        ensures taken { (q : PeerNoValue) → S.taken ends.new q ≡ S.taken ends.old q }
        ensures says { OnOk result (flat (S.accepted ends.new to) ++ flat self.new.slots
            ≡ flat (S.accepted ends.old to) ++ flat self.old.slots) }
        ensures open { OnOk result (self.new.is_open ≡ self.old.is_open) }
        ensures gathered { OnOk result (self.new.gathered ≡ self.old.gathered) }
        ensures moved { IfOk result (λ moved.
            MovesIf moved (S.accepted ends.old to) (S.accepted ends.new to) self.old.slots self.new.slots) }
    {
        match self.slots.pop_front() {
            None => Ok(false),
            Some(Slot::Piece(frame)) => self.offer_frame(ends, to, frame),
            Some(Slot::Round(round)) => self.offer_item(ends, to, Item::Round(round)),
            Some(Slot::Close) => self.offer_close(ends, to),
        }
    }

    /// Offers the first piece of a frame that was taken off the front, and puts the rest back.
    fn offer_frame<S: Ends>(
        &mut self,
        ends: &mut S,
        to: PeerNo,
        frame: Bytes,
    ) -> Result<bool, AllocError>
        requires { has (S.joints ends.old) to ≡ true }
        ensures joints { S.joints ends.new ≡ S.joints ends.old }
        ensures grew { AcceptsOne (S.accepted ends.old to) (S.accepted ends.new to) }
        ensures others { OthersStay to (S.accepted ends.old) (S.accepted ends.new) }
        ensures taken { (q : PeerNoValue) → S.taken ends.new q ≡ S.taken ends.old q }
        ensures says { OnOk result (flat (S.accepted ends.new to) ++ flat self.new.slots
            ≡ flat (S.accepted ends.old to) ++ (map Byte frame ++ flat self.old.slots)) }
        ensures open { OnOk result (self.new.is_open ≡ self.old.is_open) }
        ensures gathered { OnOk result (self.new.gathered ≡ self.old.gathered) }
        ensures moved { IfOk result (λ moved.
            MovesIf moved (S.accepted ends.old to) (S.accepted ends.new to)
            (Piece frame ∷ self.old.slots) self.new.slots) }
    {
        if frame.is_empty() {
            return Ok(true);
        }
        let piece = self.cut(frame)?;
        let moved = self.offer_item(ends, to, Item::Piece(piece))?;
        Ok(moved)
    }

    /// Cuts the first piece off a frame, and puts the rest of the frame at the front.
    fn cut(&mut self, mut frame: Bytes) -> Result<Bytes, AllocError>
        requires { 1 ≤ length frame }
        ensures sized { IfOk result IsPiece }
        ensures says { IfOk result (λ piece. flat (Piece piece ∷ self.new.slots)
            ≡ map Byte frame ++ flat self.old.slots) }
        ensures open { OnOk result (self.new.is_open ≡ self.old.is_open) }
        ensures gathered { OnOk result (self.new.gathered ≡ self.old.gathered) }
    {
        let piece = frame.split_to(frame.len().min(LONGEST_PIECE))?;
        if frame.is_empty() {
            return Ok(piece);
        }
        self.slots.push_rest(frame)?;
        Ok(piece)
    }

    /// Offers an item that was taken off the front. If it is refused, it goes back there.
    // Each piece goes out here. Inlining saves one move of it.
    #[inline(always)]
    fn offer_item<S: Ends>(
        &mut self,
        ends: &mut S,
        to: PeerNo,
        item: Item,
    ) -> Result<bool, AllocError>
        requires known { has (S.joints ends.old) to ≡ true }
        requires size { IsSendable item }
        ensures joints { S.joints ends.new ≡ S.joints ends.old }
        ensures grew { AcceptsOne (S.accepted ends.old to) (S.accepted ends.new to) }
        ensures others { OthersStay to (S.accepted ends.old) (S.accepted ends.new) }
        ensures taken { (q : PeerNoValue) → S.taken ends.new q ≡ S.taken ends.old q }
        ensures says { OnOk result (flat (S.accepted ends.new to) ++ flat self.new.slots
            ≡ flat (S.accepted ends.old to) ++ flat (slot_of item ∷ self.old.slots)) }
        ensures open { OnOk result (self.new.is_open ≡ self.old.is_open) }
        ensures gathered { OnOk result (self.new.gathered ≡ self.old.gathered) }
        ensures moved { IfOk result (λ moved. GrewIf moved (S.accepted ends.old to) (S.accepted ends.new to)) }
    {
        match ends.put(to, item) {
            Ok(()) => Ok(true),
            Err(SendRefused::Full(back)) => {
                self.put_back(back)?;
                Ok(false)
            }
            Err(SendRefused::Closed(back)) => {
                self.put_back(back)?;
                Ok(false)
            }
        }
    }

    /// Offers the close that was taken off the front. If it is refused, it goes back there.
    fn offer_close<S: Ends>(&mut self, ends: &mut S, to: PeerNo) -> Result<bool, AllocError>
        requires { has (S.joints ends.old) to ≡ true }
        ensures joints { S.joints ends.new ≡ S.joints ends.old }
        ensures grew { AcceptsOne (S.accepted ends.old to) (S.accepted ends.new to) }
        ensures others { OthersStay to (S.accepted ends.old) (S.accepted ends.new) }
        ensures taken { (q : PeerNoValue) → S.taken ends.new q ≡ S.taken ends.old q }
        ensures says { OnOk result (flat (S.accepted ends.new to) ++ flat self.new.slots
            ≡ flat (S.accepted ends.old to) ++ flat (Closing ∷ self.old.slots)) }
        ensures open { OnOk result (self.new.is_open ≡ self.old.is_open) }
        ensures gathered { OnOk result (self.new.gathered ≡ self.old.gathered) }
        ensures moved { IfOk result (λ moved. GrewIf moved (S.accepted ends.old to) (S.accepted ends.new to)) }
    {
        match ends.finish(to) {
            Ok(()) => Ok(true),
            Err(_) => {
                self.slots.push_front(Slot::Close)?;
                Ok(false)
            }
        }
    }

    // Not inlined: a link is seldom full.
    #[inline(never)]
    fn put_back(&mut self, item: Item) -> Result<(), AllocError>
        ensures says { OnOk result (flat self.new.slots ≡ flat (slot_of item ∷ self.old.slots)) }
        ensures open { OnOk result (self.new.is_open ≡ self.old.is_open) }
        ensures gathered { OnOk result (self.new.gathered ≡ self.old.gathered) }
    {
        match item {
            Item::Piece(piece) => self.slots.push_front(Slot::Piece(piece)),
            Item::Round(round) => self.slots.push_front(Slot::Round(round)),
        }
    }
}
