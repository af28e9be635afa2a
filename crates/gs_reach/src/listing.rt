//! What the peers of a run did, as far as it was seen.
ghost use Rattle.std.specs.Prelude.{◌≡◌, ◌≤◌, ◌^◌, ℕ, [], IfOk, OnOk};
ghost use Rattle.gs_base.specs.declared.names.PeerNo.{PeerNo as PeerNoValue};
ghost use Rattle.gs_rules.specs.Tables.{Entries};
ghost use Rattle.gs_report.specs.Seen.{AreLives, added};
ghost use Rattle.gs_report.specs.declared.report.Report.{Report as ReportValue};
ghost use Rattle.gs_reach.specs.Listing.{HasListed};
ghost use Rattle.gs_reach.specs.Messages.{messages};

use crate::listed::{Listed, joined};
use crate::messages::{MessageReach, messages_by, numbers_of};
use gs_base::{PeerNo, Seq};
use gs_plan::Plan;
use gs_rules::StoredEntry;
use std::alloc::{AllocError, Global};

/// What the traces of a run's peers say, as far as they were seen. It keeps no trace.
#[derive(Drop)]
pub struct Listing {
    /// What each peer's trace says, by number.
    peers: Vec<(PeerNo, Listed)>,
}

impl Listing {
    /// Returns a listing of this many peers, which have done nothing. A number has 16 bits, so there are at most 65,536.
    ///
    /// # Errors
    /// `AllocError` when out of memory.
    pub fn new(alloc: Global, count: usize) -> Result<Listing, AllocError>
        requires { count ≤ 2 ^ 16 }
        ensures { IfOk result (λ listing. HasListed count listing (λ p. [])) }
    {
        let mut peers = Vec::with_capacity(alloc, count)?;
        for number in 0..count {
            peers.push((PeerNo(number as u16), Listed::nothing(alloc)))?;
        }
        Ok(Listing { peers })
    }

    /// Notes what a peer did since it was seen last, the oldest entry first. What a peer past the count did is left out.
    ///
    /// # Errors
    /// `AllocError` when out of memory.
    pub fn see(&mut self, peer: PeerNo, entries: &[StoredEntry]) -> Result<(), AllocError>
        ensures { OnOk result ((count : ℕ) (before after : PeerNoValue → Entries)
            → ((p : PeerNoValue) → after p ≡ added before peer entries.now p)
            → HasListed count self.old before → HasListed count self.new after) }
    {
        match self.peers.get_mut(usize::from(peer.0)) {
            Some(part) => {
                part.1.note_all(peer, entries)?;
                Ok(())
            }
            None => Ok(()),
        }
    }

    /// Returns how far each message got. The messages are by moment, then by the number of their first publisher, then in
    /// the order of its trace.
    ///
    /// # Errors
    /// `AllocError` when out of memory.
    pub fn messages(self, alloc: Global, plan: &Plan) -> Result<Seq<MessageReach>, AllocError>
        ensures { IfOk result (λ list. (count : ℕ) (traces : PeerNoValue → Entries) (report : ReportValue)
            → HasListed count self traces
            → AreLives count traces report.peers.items
            → list ≡ messages plan.now report) }
    {
        let Listing { peers } = self;
        let numbers = numbers_of(alloc, peers.as_slice())?;
        let listed = joined(alloc, peers)?;
        let messages = messages_by(alloc, plan, numbers.as_slice(), listed);
        drop(numbers);
        messages
    }
}
