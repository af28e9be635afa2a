ghost use Rattle.std.specs.Prelude.{◌≡◌, ◌<◌, ◌+◌, ◌^◌, [], ◌∷◌, OnOk};
ghost use Rattle.std.specs.List.{AllByRecursion};
ghost use Rattle.gs_params.specs.Seeding.{seeded_after, seeded_word};
ghost use Rattle.gs_rules.specs.Modes.{exact};
ghost use Rattle.gs_rules.specs.Rounds.{Stop};
ghost use Rattle.gs_peer.specs.Inboxes.{all_heard};
ghost use Rattle.gs_player.specs.Playing.{IsRunning, Runs, RpcsFit, clock_at};
ghost use Rattle.gs_peer.specs.Players.{PlaysRound};

use crate::assignment::Assignment;
use crate::hearing;
use crate::inbox::Inbox;
use gs_base::Millis;
use gs_params::SeededWords;
use gs_player::{decay_and_beat, follow_all, never_refused};
use gs_router::Router;
use gs_rules::RefusedLine;
use std::alloc::{AllocError, Global};

/// What a task plays its rounds with.
#[derive(Drop)]
pub struct Player {
    pub router: Router,
    /// The random words that decide the router's choices.
    pub words: SeededWords,
    /// The lines that it could not follow so far.
    pub refused: Vec<RefusedLine>,
    /// What comes from each neighbour, in the order of their numbers.
    pub inboxes: Vec<Inbox>,
}

impl Player {
    /// Plays a round: hears what came, follows the lines of the round, and ends the round. Before the end it lowers the
    /// counters of scores if that is due, and then has a heartbeat if one is due, by how long the peer has been up.
    ///
    /// # Errors
    /// `AllocError` if memory runs out.
    pub fn play(
        &mut self,
        alloc: Global,
        assignment: &Assignment,
        round: u64,
        now: Millis,
    ) -> Result<(), AllocError>
        requires running { IsRunning now self.old.router }
        requires fit { AllByRecursion (λ x. RpcsFit x.stage) self.old.inboxes.items }
        requires small { now.0 + assignment.now.phase_ms < 2 ^ 64 }
        ensures { OnOk result (PlaysRound round now (clock_at assignment.now.phase_ms now)
            assignment.now.lines self.old self.new) }
    {
        hearing::hear(
            alloc,
            &mut self.router,
            &mut self.words,
            &mut self.inboxes,
            now,
        )?;
        follow_all(
            &mut self.router,
            &mut self.words,
            &mut self.refused,
            assignment.lines.at(round),
            now,
        )?;
        let clock = Millis(now.0 + assignment.phase_ms);
        decay_and_beat(&mut self.router, &mut self.words, round, now, clock)?;
        never_refused(self.router.end_round(round, now, &mut self.words))?;
        Ok(())
    }

    /// Shuts the peer down. It says nothing more after that.
    ///
    /// # Errors
    /// `AllocError` if memory runs out.
    pub fn shut(&mut self, now: Millis) -> Result<(), AllocError>
        requires { IsRunning now self.old.router }
        ensures runs { OnOk result (Runs (exact seeded_word seeded_after) now (Stop ∷ [])
            self.old.router self.old.words self.new.router self.new.words []) }
        ensures refused { self.new.refused ≡ self.old.refused }
        ensures inboxes { self.new.inboxes ≡ self.old.inboxes }
    {
        never_refused(self.router.shut(now, &mut self.words))?;
        Ok(())
    }

    /// Hears what came from each neighbour.
    ///
    /// # Errors
    /// `AllocError` if memory runs out.
    pub fn hear(&mut self, alloc: Global, now: Millis) -> Result<(), AllocError>
        requires running { IsRunning now self.old.router }
        requires fit { AllByRecursion (λ x. RpcsFit x.stage) self.old.inboxes.items }
        ensures runs { OnOk result (Runs (exact seeded_word seeded_after) now (all_heard self.old.inboxes.items)
            self.old.router self.old.words self.new.router self.new.words []) }
        ensures refused { self.new.refused ≡ self.old.refused }
    {
        hearing::hear(
            alloc,
            &mut self.router,
            &mut self.words,
            &mut self.inboxes,
            now,
        )?;
        Ok(())
    }
}
