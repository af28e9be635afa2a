//! One peer of a run, between two rounds.
ghost use Rattle.std.specs.Prelude.{◌≡◌, ◌<◌, ◌+◌, ◌^◌, [], false, true, IfOk, OnOk, length, map};
ghost use Rattle.std.specs.List.{AllByRecursion};
ghost use Rattle.gs_params.specs.Seeding.{seeded_after, seeded_word};
ghost use Rattle.gs_plan.specs.Plans.{IsInRange};
ghost use Rattle.gs_rules.specs.Modes.{exact};
ghost use Rattle.gs_seats.specs.Rounds.{lines_in, neighbours_in};
ghost use Rattle.gs_rules.specs.Rounds.{Hear};
ghost use Rattle.gs_player.specs.Playing.{IsRunning, RpcsFit, Runs};
ghost use Rattle.gs_direct.specs.Letters.{LettersFit, all_heard, ending_heard, heard_of};
ghost use Rattle.gs_direct.specs.Outlets.{Within};
ghost use Rattle.gs_direct.specs.Peers.{Closes, HandsOver, IsNewPeer, PlaysRound, left_of};
ghost use Rattle.gs_report.specs.Seen.{remains_of};

use crate::letter::{Ending, Letter};
use crate::outlet::Outlet;
use crate::outlets::{hand_over, outlets_of, tell_round};
use gs_base::{Millis, Neighbour, PeerNo, Rpc, Seq, Shared};
use gs_params::SeededWords;
use gs_plan::{Line, Plan};
use gs_player::{Agenda, decay_and_beat, follow_all, never_refused};
use gs_report::{Finished, Remains};
use gs_router::{Retention, Router, WholeTrace};
use gs_rules::RefusedLine;
use gs_seats::{first_words, phase_of, router_of};
use std::alloc::{AllocError, Global};

/// A peer between two rounds.
#[derive(Drop)]
pub struct Peer<K: Retention> {
    /// Its number in the plan.
    pub number: PeerNo,
    /// Its lines of the script, by rounds.
    pub agenda: Agenda,
    /// For how many milliseconds it had been up when round 0 began.
    pub phase_ms: u64,
    pub router: Router<K>,
    /// Its random words.
    pub words: SeededWords,
    /// The lines that it could not follow so far.
    pub refused: Vec<RefusedLine>,
    /// What goes to each neighbour, ascending by their numbers.
    pub outlets: Vec<Outlet>,
}

impl<K: Retention> Peer<K> {
    /// Returns a peer of a plan that has done nothing, with its neighbours and its lines of the script.
    ///
    /// # Errors
    /// `AllocError` when out of memory.
    pub fn new(
        alloc: Global,
        plan: &Plan,
        number: PeerNo,
        neighbours: Vec<Neighbour>,
        lines: Vec<(usize, Line)>,
    ) -> Result<Peer<K>, AllocError>
        requires range { IsInRange plan.now }
        requires neighbours { neighbours.items ≡ neighbours_in plan.now number }
        requires own { lines.items ≡ lines_in plan.now number }
        ensures { IfOk result (IsNewPeer plan.now number) }
    {
        let words = first_words(alloc, plan, number)?;
        let agenda = Agenda::of(alloc, lines)?;
        let outlets = outlets_of(alloc, &neighbours)?;
        // (last, so that no exit has a router to drop)
        let router = router_of(alloc, plan, number, neighbours)?;
        Ok(Peer {
            number,
            agenda,
            phase_ms: phase_of(plan, number),
            router,
            words,
            refused: Vec::new(alloc),
            outlets,
        })
    }

    /// Plays a round. The peer hears what its neighbours said in the round before, and follows its lines. It lowers the
    /// counters of scores and has a heartbeat, each if it is due by how long it has been up, and ends the round.
    ///
    /// # Errors
    /// `AllocError` when out of memory.
    pub fn play(
        &mut self,
        alloc: Global,
        round: u64,
        now: Millis,
        letters: Vec<Letter>,
    ) -> Result<(), AllocError>
        requires running { IsRunning now self.old.router }
        requires fit { LettersFit letters.items }
        requires small { now.0 + self.old.phase_ms < 2 ^ 64 }
        ensures { OnOk result (PlaysRound round now letters.items self.old self.new) }
    {
        self.hear(letters, now)?;
        follow_all(
            &mut self.router,
            &mut self.words,
            &mut self.refused,
            self.agenda.at(round),
            now,
        )?;
        let clock = Millis(now.0 + self.phase_ms);
        decay_and_beat(&mut self.router, &mut self.words, round, now, clock)?;
        never_refused(self.router.end_round(round, now, &mut self.words))?;
        tell_round(alloc, &mut self.outlets, &self.router)
    }

    /// Hands over to its neighbours what it said in the round.
    ///
    /// # Errors
    /// `AllocError` when out of memory.
    pub fn hand_over(
        &mut self,
        alloc: Global,
        mail: &mut Vec<Vec<Letter>>,
    ) -> Result<(), AllocError>
        requires { AllByRecursion (Within (length mail.old.items)) self.old.outlets.items }
        ensures count { length mail.new.items ≡ length mail.old.items }
        ensures handed { OnOk result (HandsOver mail.old.items mail.new.items self.old self.new) }
    {
        hand_over(alloc, &mut self.outlets, self.number, mail)
    }

    /// Shuts down after the last round, and hears what is still on its way.
    ///
    /// # Errors
    /// `AllocError` when out of memory.
    pub fn close(&mut self, now: Millis, letters: Vec<Letter>) -> Result<(), AllocError>
        requires running { IsRunning now self.old.router }
        requires fit { LettersFit letters.items }
        ensures { OnOk result (Closes now letters.items self.old self.new) }
    {
        never_refused(self.router.shut(now, &mut self.words))?;
        self.hear(letters, now)?;
        Ok(())
    }

    /// Hears letters, one after the other.
    fn hear(&mut self, letters: Vec<Letter>, now: Millis) -> Result<(), AllocError>
        requires running { IsRunning now self.old.router }
        requires fit { LettersFit letters.items }
        ensures runs { OnOk result (Runs (exact seeded_word seeded_after) now (all_heard letters.items)
            self.old.router self.old.words self.new.router self.new.words []) }
        ensures others { OnOk result (self.new ≡ record self.old { router = self.new.router; words = self.new.words }) }
    {
        for letter in letters {
            hear(&mut self.router, &mut self.words, letter, now)?;
        }
        Ok(())
    }

    /// Returns what the run leaves of the peer besides its trace.
    ///
    /// # Errors
    /// `AllocError` when out of memory.
    pub fn remains(self, now: Millis) -> Result<Remains, AllocError>
        requires { self.router.is_stopped ≡ false }
        ensures { IfOk result (λ remains. remains ≡ remains_of (left_of now self)) }
    {
        let meshes = self.router.meshes()?;
        let scores = self.router.scores(now)?;
        let Peer { refused, .. } = self;
        Ok(Remains {
            refused: Seq::from(refused),
            meshes,
            scores,
        })
    }
}

impl Peer<WholeTrace> {
    /// Returns what the run leaves of the peer.
    ///
    /// # Errors
    /// `AllocError` when out of memory.
    pub fn finish(self, now: Millis) -> Result<Finished, AllocError>
        requires { self.router.is_stopped ≡ false }
        ensures { IfOk result (λ life. life ≡ left_of now self) }
    {
        let meshes = self.router.meshes()?;
        let scores = self.router.scores(now)?;
        let Peer {
            router,
            refused,
            ..
        } = self;
        Ok(Finished {
            trace: router.into_trace(),
            refused: Seq::from(refused),
            meshes,
            scores,
        })
    }
}

/// Hears a letter: its RPCs, and then how it ends.
fn hear<K: Retention>(
    router: &mut Router<K>,
    words: &mut SeededWords,
    letter: Letter,
    now: Millis,
) -> Result<(), AllocError>
    requires running { IsRunning now router.old }
    requires fit { RpcsFit letter.rpcs.items }
    ensures { OnOk result (Runs (exact seeded_word seeded_after) now (heard_of letter)
        router.old words.old router.new words.new []) }
{
    let Letter { from, rpcs, ending } = letter;
    hear_rpcs(router, words, from, rpcs, now)?;
    hear_ending(router, words, from, ending, now)
}

fn hear_rpcs<K: Retention>(
    router: &mut Router<K>,
    words: &mut SeededWords,
    from: PeerNo,
    rpcs: Vec<Shared<Rpc>>,
    now: Millis,
) -> Result<(), AllocError>
    requires running { IsRunning now router.old }
    requires fit { RpcsFit rpcs.items }
    ensures { OnOk result (Runs (exact seeded_word seeded_after) now (map (Hear from) rpcs.items)
        router.old words.old router.new words.new []) }
{
    for rpc in rpcs {
        match router.hear_shared(from, rpc, now, words) {
            Ok(()) => {}
            Err(_) => return Err(AllocError),
        }
    }
    Ok(())
}

fn hear_ending<K: Retention>(
    router: &mut Router<K>,
    words: &mut SeededWords,
    from: PeerNo,
    ending: Option<Ending>,
    now: Millis,
) -> Result<(), AllocError>
    requires { IsRunning now router.old }
    ensures { OnOk result (Runs (exact seeded_word seeded_after) now (ending_heard from ending)
        router.old words.old router.new words.new []) }
{
    match ending {
        None => Ok(()),
        Some(Ending::Fault) => never_refused(router.fault(from, now, words)),
        Some(Ending::Gone) => never_refused(router.gone(from, now, words)),
    }
}
