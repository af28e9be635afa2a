//! What is on its way between the peers of a run.
ghost use Rattle.std.specs.Prelude.{◌≡◌, ◌≢◌, ◌<◌, ◌+◌, ◌^◌, ◌++◌, ℕ, List, [], IfOk, OnOk, length};
ghost use Rattle.std.specs.List.{AllByRecursion};
ghost use Rattle.gs_base.specs.declared.names.PeerNo.{PeerNo as PeerNoValue};
ghost use Rattle.gs_seats.specs.ListsByPeer.{list_at};
ghost use Rattle.gs_player.specs.Playing.{IsRunning};
ghost use Rattle.gs_direct.specs.declared.letter.Letter.{Letter as LetterValue};
ghost use Rattle.gs_direct.specs.Letters.{LettersFit};
ghost use Rattle.gs_direct.specs.Outlets.{Within};
ghost use Rattle.gs_direct.specs.Runs.{IsEmpty, Turns};

use crate::letter::Letter;
use crate::peer::Peer;
use gs_base::{Millis, PeerNo};
use gs_cache::Payloads;
use gs_router::Retention;
use gs_seats::{empty_lists, take_list};
use std::alloc::{AllocError, Global};
use std::mem;

/// What is on its way between the peers of a run, and what they share.
#[derive(Drop)]
pub struct Post {
    alloc: Global,
    /// The letters of the round before, by the numbers of their receivers.
    pub mail: Vec<Vec<Letter>>,
    /// The letters of this round.
    pub next: Vec<Vec<Letter>>,
    /// The payloads that any of the peers has seen.
    payloads: Payloads,
}

impl Post {
    /// Returns a post for this many peers, with nothing on its way.
    ///
    /// # Errors
    /// `AllocError` when out of memory.
    pub fn new(alloc: Global, peers: usize) -> Result<Post, AllocError>
        ensures mail { IfOk result (λ post. (length post.mail.items ≡ peers) × IsEmpty post.mail.items) }
        ensures next { IfOk result (λ post. (length post.next.items ≡ peers) × IsEmpty post.next.items) }
    {
        Ok(Post {
            alloc,
            mail: empty_lists(alloc, peers)?,
            next: empty_lists(alloc, peers)?,
            payloads: Payloads::new(alloc),
        })
    }

    /// Takes the letters for a peer.
    pub fn take(&mut self, to: PeerNo) -> Vec<Letter>
        requires { to.0 < length self.old.mail.items }
        ensures taken { result.items ≡ list_at self.old.mail.items to.0 }
        ensures left { list_at self.new.mail.items to.0 ≡ [] }
        ensures count { length self.new.mail.items ≡ length self.old.mail.items }
        ensures others { (n : ℕ) → n ≢ to.0 → list_at self.new.mail.items n ≡ list_at self.old.mail.items n }
        ensures next { self.new.next ≡ self.old.next }
    {
        take_list(self.alloc, &mut self.mail, to)
    }

    /// Has a peer play a round, and keeps what it says in it for the next round.
    ///
    /// # Errors
    /// `AllocError` when out of memory.
    pub fn play<K: Retention>(
        &mut self,
        peer: &mut Peer<K>,
        number: PeerNo,
        round: u64,
        now: Millis,
    ) -> Result<(), AllocError>
        requires number { number.0 < length self.old.mail.items }
        requires running { IsRunning now peer.old.router }
        requires small { now.0 + peer.old.phase_ms < 2 ^ 64 }
        requires fit { LettersFit (list_at self.old.mail.items number.0) }
        requires within { AllByRecursion (Within (length self.old.next.items)) peer.old.outlets.items }
        ensures turns { OnOk result ((gives : PeerNoValue → List LetterValue)
            × Turns round now (list_at self.old.mail.items number.0) peer.old peer.new gives
            × ((p : PeerNoValue) → list_at self.new.next.items p.0 ≡ list_at self.old.next.items p.0 ++ gives p)) }
        ensures count { OnOk result (length self.new.next.items ≡ length self.old.next.items) }
        ensures left { OnOk result (list_at self.new.mail.items number.0 ≡ []) }
        ensures places { OnOk result (length self.new.mail.items ≡ length self.old.mail.items) }
        ensures others { OnOk result ((n : ℕ)
            → n ≢ number.0 → list_at self.new.mail.items n ≡ list_at self.old.mail.items n) }
    {
        let letters = self.take(number);
        peer.router.exchange_payloads(&mut self.payloads);
        peer.play(self.alloc, round, now, letters)?;
        peer.router.exchange_payloads(&mut self.payloads);
        peer.hand_over(self.alloc, &mut self.next)?;
        Ok(())
    }

    /// Ends the round: from now on, what was said in it is on its way.
    pub fn turn(&mut self)
        ensures mail { self.new.mail ≡ self.old.next }
        ensures next { self.new.next ≡ self.old.mail }
    {
        mem::swap(&mut self.mail, &mut self.next);
    }
}
