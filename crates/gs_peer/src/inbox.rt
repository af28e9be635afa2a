ghost use Rattle.std.specs.Prelude.{◌≡◌, false, true, IfOk, IsSome, OnErr, OnOk};
ghost use Rattle.gs_base.specs.declared.names.PeerNo.{PeerNo as PeerNoValue};
ghost use Rattle.gs_link.specs.Runs.{closes};
ghost use Rattle.gs_ends.specs.Ends.{OthersStay, has};
ghost use Rattle.gs_peer.specs.Inboxes.{FeedsPiece, Listens, in_next_phase, is_broken_off, is_full, is_mark, new_inbox};
ghost use Rattle.gs_peer.specs.Moved.{GrewIf};
ghost use Rattle.gs_peer.specs.Phases.{phase_of};

use crate::phase::Phase;
use gs_base::{PeerNo, Rpc};
use gs_ends::Ends;
use gs_link::{Item, Taken};
use gs_wire::{FrameReader, MAX_BODY, WireFault};
use std::alloc::{AllocError, Global};
use std::marker::Model;
use std::mem;

/// What a task keeps about what comes from a neighbour. That is what it has read and not handled, and whether all is taken
/// that it hears in its phase.
#[derive(Drop)]
pub struct Inbox {
    peer: PeerNo,
    reader: FrameReader,
    stage: Vec<Rpc>,
    is_marked: bool,
    is_closed: bool,
    /// The bytes no longer spell RPCs.
    is_failed: bool,
}

impl Model for Inbox {
    ghost use Rattle.std.specs.Prelude.{◌≡◌, is_none};
    ghost use Rattle.gs_peer.specs.Inboxes.{InboxView};

    ghost Value = { InboxView };

    ghost view = { λ x. record {
      peer = x.peer;
      reader = x.reader;
      stage = x.stage.items;
      is_marked = x.is_marked;
      is_closed = x.is_closed;
    } };

    ghost invariant = { λ x. is_none x.reader.held ≡ x.is_failed };
}

impl Inbox {
    /// Creates an inbox for a neighbour from which nothing was taken. It is full, since there is nothing to hear in the first
    /// round.
    pub fn new(alloc: Global, peer: PeerNo) -> Inbox
        ensures { result ≡ new_inbox peer }
    {
        Inbox {
            peer,
            reader: FrameReader::new(alloc, MAX_BODY),
            stage: Vec::new(alloc),
            is_marked: true,
            is_closed: false,
            is_failed: false,
        }
    }

    /// Returns the neighbour from which this inbox takes.
    pub fn peer(&self) -> PeerNo
        ensures { result ≡ self.now.peer }
    {
        self.peer
    }

    /// Says whether all is taken that is heard in this phase.
    pub fn is_full(&self) -> bool
        ensures { result ≡ is_full self.now }
    {
        self.is_marked || self.is_closed
    }

    /// Says whether the close was taken.
    pub fn is_closed(&self) -> bool
        ensures { result ≡ self.now.is_closed }
    {
        self.is_closed
    }

    /// Says whether its bytes spell no RPC, or end within one.
    pub fn is_broken_off(&self) -> bool
        ensures { result ≡ is_broken_off self.now }
    {
        self.is_failed || (self.is_closed && self.reader.pending() != 0)
    }

    /// Returns what is staged, and begins the next phase.
    pub fn begin_phase(&mut self, alloc: Global) -> Vec<Rpc>
        ensures staged { result.items ≡ self.old.stage }
        ensures in_next_phase { self.new ≡ in_next_phase self.old }
    {
        self.is_marked = false;
        mem::replace(&mut self.stage, Vec::new(alloc))
    }

    /// Takes what comes next from the neighbour, and returns whether anything came. No caller takes more after the round end
    /// that ends what is heard in a phase, so the stage holds what one round brought.
    ///
    /// # Errors
    /// `AllocError` if memory runs out.
    pub fn listen<S: Ends>(
        &mut self,
        alloc: Global,
        ends: &mut S,
        phase: Phase,
    ) -> Result<bool, AllocError>
        requires known { has (S.joints ends.old) self.old.peer ≡ true }
        requires open { closes (S.taken ends.old self.old.peer) ≡ false }
        ensures listened { OnOk result (Listens (phase_of phase)
            (S.taken ends.old self.old.peer) (S.taken ends.new self.old.peer) self.old self.new) }
        ensures joints { S.joints ends.new ≡ S.joints ends.old }
        ensures others { OthersStay self.old.peer (S.taken ends.old) (S.taken ends.new) }
        ensures accepted { (q : PeerNoValue) → S.accepted ends.new q ≡ S.accepted ends.old q }
        ensures moved { IfOk result (λ moved.
            GrewIf moved (S.taken ends.old self.old.peer) (S.taken ends.new self.old.peer)) }
    {
        match ends.take(self.peer) {
            Taken::Got(Item::Piece(piece)) => {
                self.read(alloc, &piece)?;
                Ok(true)
            }
            Taken::Got(Item::Round(round)) => {
                self.is_marked = ends_hearing(phase, round);
                Ok(true)
            }
            Taken::Empty => Ok(false),
            Taken::Closed => {
                self.is_closed = true;
                Ok(true)
            }
        }
    }

    /// Reads a piece, and stages the RPCs that are complete with it.
    ///
    /// # Errors
    /// `AllocError` if the reader runs out of memory. The inbox is then as it was, and its reader has not failed.
    fn read(&mut self, alloc: Global, piece: &[u8]) -> Result<(), AllocError>
        ensures fed { OnOk result (FeedsPiece self.old piece.now self.new) }
        ensures memory { OnErr result ((self.new ≡ self.old) × IsSome self.old.reader.held) }
    {
        match self.reader.feed(alloc, piece, &mut self.stage) {
            Ok(()) => Ok(()),
            Err(WireFault::Malformed) => {
                self.is_failed = true;
                Ok(())
            }
            Err(WireFault::TooLong) => {
                self.is_failed = true;
                Ok(())
            }
            Err(WireFault::Failed) => Ok(()),
            Err(WireFault::NoMemory) => Err(AllocError),
        }
    }
}

/// Whether the end of this round ends what is heard in a phase. In a round, that is the end of the round before.
fn ends_hearing(phase: Phase, round: u64) -> bool
    ensures { result ≡ is_mark (phase_of phase) round }
{
    match phase {
        Phase::Playing(now) => now > 0 && round == now - 1,
        Phase::Closing => false,
    }
}
