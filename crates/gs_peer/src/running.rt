//! A peer's run, step by step.
ghost use Rattle.std.specs.Prelude.{◌≡◌, ◌<◌, ◌≤◌, ◌+◌, ◌-◌, ◌*◌, ◌^◌, ℕ, false, true, ◌&&◌, ◌||◌, if◌then◌else◌, length, min, IfOk, OnOk};
ghost use Rattle.gs_base.specs.declared.names.PeerNo.{PeerNo as PeerNoValue};
ghost use Rattle.gs_rules.specs.Legal.{Legal};
ghost use Rattle.gs_ends.specs.Ends.{GrewBy, has};
ghost use Rattle.gs_link.specs.Flat.{flat};
ghost use Rattle.gs_peer.specs.declared.phase.Phase.TheVariants.{Playing};
ghost use Rattle.gs_peer.specs.Life.{IsLife};
ghost use Rattle.gs_peer.specs.Moved.{GrewAt, MovesAt};
ghost use Rattle.gs_peer.specs.Moves.{are_full, are_silent, has_more_at, is_due, is_full_at, is_over, phase_after, turn_after, whose_turn};
ghost use Rattle.gs_peer.specs.Outboxes.{waiting};
ghost use Rattle.gs_peer.specs.Running.{AllFull, Goes, IsFresh, IsKept, IsOver, MayBegin, TellsSince, left_of, seat_of};
ghost use Rattle.gs_peer.specs.Stepping.{OnlyListens, OnlyLooks, OnlyOffers, Polls, StepsTo};

use crate::assignment::Assignment;
use crate::boxes::{Boxes, boxes_of};
use crate::finished_task::{FinalState, FinishedTask};
use crate::gate::Gate;
use crate::inbox::Inbox;
use crate::outboxes::Outboxes;
use crate::phase::Phase;
use crate::player::Player;
use gs_base::{Millis, PeerNo, Seq, Topic};
use gs_cache::Payloads;
use gs_ends::Ends;
use gs_params::SeededWords;
use gs_router::Router;
use std::alloc::{AllocError, Global};
use std::snapshot::Snapshot;

/// A router, and the random words that decide its choices.
#[derive(Drop)]
pub struct Chooser {
    pub router: Router,
    pub words: SeededWords,
}

/// A peer between two steps.
#[derive(Drop)]
pub struct Running<G: Gate, S: Ends> {
    alloc: Global,
    assignment: Assignment,
    gate: G,
    player: Player,
    /// The state of the random words at first, only for proofs.
    first: Snapshot<SeededWords>,
    phase: Phase,
    outboxes: Outboxes,
    /// The place of the neighbour that is looked at next.
    turn: usize,
    /// The place of the inbox that was last seen not full.
    last_not_full: usize,
    ends: S,
}

impl<G: Gate, S: Ends> Running<G, S> {
    /// Creates a peer that has done nothing yet.
    ///
    /// # Errors
    /// `AllocError` if memory runs out.
    pub fn new(
        alloc: Global,
        assignment: Assignment,
        chooser: Chooser,
        ends: S,
        gate: G,
    ) -> Result<Running<G, S>, AllocError>
        requires { MayBegin S.Ends assignment chooser.router ends }
        ensures kept { IfOk result (λ t. IsKept S.Ends t) }
        ensures fresh { IfOk result (λ t. IsFresh assignment chooser.router chooser.words ends t) }
    {
        let Boxes { inboxes, outboxes } = boxes_of(alloc, &assignment.neighbours)?;
        let Chooser { router, words } = chooser;
        let first = Snapshot::of(&words);
        Ok(Running {
            alloc,
            assignment,
            gate,
            player: Player {
                router,
                words,
                refused: Vec::new(alloc),
                inboxes,
            },
            first,
            phase: Phase::Playing(0),
            outboxes,
            turn: 0,
            last_not_full: 0,
            ends,
        })
    }

    /// Swaps what its router knows about payloads with `payloads`.
    pub fn exchange_payloads(&mut self, payloads: &mut Payloads)
        ensures { self.new ≡ self.old }
    {
        self.player.router.exchange_payloads(payloads);
    }

    /// Takes at most 64 steps, and returns whether the run has ended. It takes fewer only where nothing moves in more steps in a
    /// row than there are neighbours.
    ///
    /// # Errors
    /// `AllocError` if memory runs out.
    pub fn run(&mut self) -> Result<bool, AllocError>
        requires { IsKept S.Ends self.old }
        ensures goes { OnOk result (Goes S.Ends self.old self.new) }
        ensures taken { OnOk result (GrewBy 64 (S.taken self.old.ends) (S.taken self.new.ends)) }
        ensures accepted { OnOk result (GrewBy 64 (S.accepted self.old.ends) (S.accepted self.new.ends)) }
        ensures polls { OnOk result (Polls S.Ends 64 self.old self.new) }
        ensures over { IfOk result (λ over. over ≡ is_over self.new) }
    {
        let mut idle = 0;
        for _ in 0..64u8 {
            let moved = self.step()?;
            idle = idle_after(idle, moved);
            if idle > self.player.inboxes.len() {
                let over = self.is_over();
                return Ok(over);
            }
        }
        let over = self.is_over();
        Ok(over)
    }

    /// Looks at the neighbour whose turn it is, and returns whether something moved. It takes an item from the neighbour, plays
    /// the round if all is taken that is heard in it, and has an item accepted. The neighbour keeps its turn if something moved
    /// and more may move, so that no link is looked at in vain.
    fn step(&mut self) -> Result<bool, AllocError>
        requires { IsKept S.Ends self.old }
        ensures goes { OnOk result (Goes S.Ends self.old self.new) }
        ensures taken { OnOk result (GrewBy 1 (S.taken self.old.ends) (S.taken self.new.ends)) }
        ensures accepted { OnOk result (GrewBy 1 (S.accepted self.old.ends) (S.accepted self.new.ends)) }
        ensures steps { IfOk result (λ moved. StepsTo S.Ends moved self.old self.new) }
    {
        let listened = self.listen()?;
        let played = self.play_if_due()?;
        let offered = self.offer()?;
        let moved = is_any(listened, played, offered);
        let more = self.has_more();
        self.turn = next_turn(self.turn, self.player.inboxes.len(), moved, more);
        Ok(moved)
    }

    /// Whether more is to be taken from the neighbour whose turn it is, or something waits for it.
    fn has_more(&self) -> bool
        ensures { result ≡ has_more_at self.now self.now.turn }
    {
        if self.turn >= self.player.inboxes.len() {
            return false;
        }
        let inbox = &self.player.inboxes[self.turn];
        !inbox.is_full() || !self.outboxes.is_silent_near(inbox.peer(), self.turn)
    }

    /// Takes what comes next from the neighbour whose turn it is, unless all is taken that is heard from it in this phase.
    fn listen(&mut self) -> Result<bool, AllocError>
        requires { IsKept S.Ends self.old }
        ensures goes { OnOk result (Goes S.Ends self.old self.new) }
        ensures taken { OnOk result (GrewBy 1 (S.taken self.old.ends) (S.taken self.new.ends)) }
        ensures accepted { (q : PeerNoValue) → S.accepted self.new.ends q ≡ S.accepted self.old.ends q }
        ensures moved { IfOk result (λ moved.
            GrewAt (whose_turn self.old) moved (S.taken self.old.ends) (S.taken self.new.ends)) }
        ensures full { IfOk result (λ moved.
            is_full_at self.old.player.inboxes.items self.old.turn ≡ true → moved ≡ false) }
        ensures still { IfOk result (λ moved.
            moved ≡ false → self.new.player.inboxes.items ≡ self.old.player.inboxes.items) }
        ensures alone { OnOk result (OnlyListens self.old self.new) }
    {
        if self.turn >= self.player.inboxes.len() {
            return Ok(false);
        }
        let inbox = &mut self.player.inboxes[self.turn];
        if inbox.is_full() {
            return Ok(false);
        }
        let listened = inbox.listen(self.alloc, &mut self.ends, self.phase)?;
        Ok(listened)
    }

    /// Offers the neighbour whose turn it is what waits first for it.
    fn offer(&mut self) -> Result<bool, AllocError>
        requires { IsKept S.Ends self.old }
        ensures goes { OnOk result (Goes S.Ends self.old self.new) }
        ensures accepted { OnOk result (GrewBy 1 (S.accepted self.old.ends) (S.accepted self.new.ends)) }
        ensures taken { (q : PeerNoValue) → S.taken self.new.ends q ≡ S.taken self.old.ends q }
        ensures moved { IfOk result (λ moved.
            MovesAt (whose_turn self.old) moved (S.accepted self.old.ends) (S.accepted self.new.ends)
            (waiting self.old.outboxes) (waiting self.new.outboxes)) }
        ensures waits { IfOk result (λ moved. moved ≡ false
            → (q : PeerNoValue)
            → flat (waiting self.new.outboxes q) ≡ flat (waiting self.old.outboxes q)) }
        ensures alone { OnOk result (OnlyOffers self.old self.new) }
    {
        if self.turn >= self.player.inboxes.len() {
            return Ok(false);
        }
        let peer = self.player.inboxes[self.turn].peer();
        let offered = self.outboxes.offer(&mut self.ends, peer, self.turn)?;
        Ok(offered)
    }

    /// Plays the round if all is taken that is heard in it, and returns whether it did.
    fn play_if_due(&mut self) -> Result<bool, AllocError>
        requires { IsKept S.Ends self.old }
        ensures goes { OnOk result (Goes S.Ends self.old self.new) }
        ensures ends { self.new.ends ≡ self.old.ends }
        ensures turn { OnOk result (self.new.turn ≡ self.old.turn) }
        ensures due { IfOk result (λ played. played ≡ is_due self.old) }
        ensures still { IfOk result (λ played. played ≡ false → OnlyLooks self.old self.new) }
        ensures phase { IfOk result (λ played.
            played ≡ true → self.new.phase ≡ phase_after self.old.assignment.rounds self.old.phase) }
    {
        let Phase::Playing(round) = self.phase else {
            return Ok(false);
        };
        if !is_due(&self.player.inboxes, &mut self.last_not_full) {
            return Ok(false);
        }
        self.play(round)?;
        Ok(true)
    }

    /// Plays a round: hears what came, follows the lines, and ends the round. After the last round it shuts the peer down.
    // Not inlined: each round has many steps, which need not make room for its locals.
    #[inline(never)]
    fn play(&mut self, round: u64) -> Result<(), AllocError>
        requires kept { IsKept S.Ends self.old }
        requires full { AllFull self.old.player.inboxes.items }
        requires phase { self.old.phase ≡ Playing round }
        ensures goes { OnOk result (Goes S.Ends self.old self.new) }
        ensures ends { self.new.ends ≡ self.old.ends }
        ensures turn { OnOk result (self.new.turn ≡ self.old.turn) }
        ensures phase { OnOk result (self.new.phase ≡ phase_after self.old.assignment.rounds self.old.phase) }
    {
        self.gate.begin_round(self.assignment.worker, round);
        let now = Millis(round * self.assignment.round_ms);
        let told = self.player.router.trace().entries().len();
        self.player.play(self.alloc, &self.assignment, round, now)?;
        if round < self.assignment.rounds {
            tell_since(self.alloc, &mut self.outboxes, &self.player.router, told)?;
            self.phase = Phase::Playing(round + 1);
            return Ok(());
        }
        self.player.shut(now)?;
        tell_since(self.alloc, &mut self.outboxes, &self.player.router, told)?;
        self.phase = Phase::Closing;
        Ok(())
    }

    /// Whether the run has ended, except that what came last is not heard yet. The peer has shut down, each neighbour has
    /// closed, and all that was said is accepted.
    fn is_over(&self) -> bool
        ensures { result ≡ is_over self.now }
    {
        let Phase::Closing = self.phase else {
            return false;
        };
        all_full(&self.player.inboxes) && all_silent(&self.outboxes, &self.player.inboxes)
    }

    /// Hears what came last, and returns the state of the router after that.
    ///
    /// # Errors
    /// `AllocError` if memory runs out.
    pub fn final_state(&mut self) -> Result<FinalState, AllocError>
        requires kept { IsKept S.Ends self.old }
        requires over { IsOver self.old }
        ensures life { IfOk result (λ state.
            IsLife S.Ends (seat_of self.old) self.old.first.value (left_of self.new state)) }
        ensures ends { self.new.ends ≡ self.old.ends }
    {
        let now = Millis(self.assignment.rounds * self.assignment.round_ms);
        self.player.hear(self.alloc, now)?;
        let meshes = self.player.router.meshes()?;
        let scores = self.player.router.scores(now)?;
        Ok(FinalState { meshes, scores })
    }

    /// Returns what remains of the run, with this final state of the router.
    pub fn finish(self, state: FinalState) -> FinishedTask<S>
        ensures { result ≡ left_of self state }
    {
        let Running { player, ends, .. } = self;
        let Player {
            router,
            refused,
            ..
        } = player;
        let FinalState { meshes, scores } = state;
        FinishedTask {
            trace: router.into_trace(),
            refused: Seq::from(refused),
            meshes,
            scores,
            ends,
        }
    }
}

/// Queues for the neighbours what a router's trace says after its first `told` entries.
fn tell_since(
    alloc: Global,
    outboxes: &mut Outboxes,
    router: &Router,
    told: usize,
) -> Result<(), AllocError>
    requires known { told ≤ length router.now.trace }
    requires legal { Legal router.now.peer router.now.trace }
    ensures { OnOk result (TellsSince told router.now.trace outboxes.old outboxes.new) }
{
    outboxes.tell_all(alloc, &router.trace().entries()[told..])?;
    Ok(())
}

/// Whether all is taken that is heard in a phase. It looks first at the inbox that was last seen not full.
fn is_due(inboxes: &[Inbox], last_not_full: &mut usize) -> bool
    ensures { result ≡ are_full inboxes.now }
{
    *last_not_full = first_not_full(inboxes, *last_not_full);
    if *last_not_full < inboxes.len() {
        return false;
    }
    *last_not_full = 0;
    all_full(inboxes)
}

/// Returns the place of the first inbox, from this one on, that is not full. If there is none, it returns how many there are.
fn first_not_full(inboxes: &[Inbox], from: usize) -> usize
    ensures within { result ≤ length inboxes.now }
    ensures found { result < length inboxes.now → is_full_at inboxes.now result ≡ false }
    ensures first { (k : ℕ) → from ≤ k → k < result → is_full_at inboxes.now k ≡ true }
{
    for place in from..inboxes.len() {
        if !inboxes[place].is_full() {
            return place;
        }
    }
    inboxes.len()
}

fn all_full(inboxes: &[Inbox]) -> bool
    ensures { result ≡ are_full inboxes.now }
{
    for inbox in inboxes {
        if !inbox.is_full() {
            return false;
        }
    }
    true
}

fn all_silent(outboxes: &Outboxes, inboxes: &[Inbox]) -> bool
    ensures { result ≡ are_silent outboxes.now inboxes.now }
{
    for inbox in inboxes {
        if !outboxes.is_silent(inbox.peer()) {
            return false;
        }
    }
    true
}

/// Returns for how many steps in a row nothing has moved.
fn idle_after(idle: usize, moved: bool) -> usize
    ensures { result ≡ (if moved then 0 else min (idle + 1) (2 ^ 64 - 1)) }
{
    if moved { 0 } else { idle.saturating_add(1) }
}

/// Whether any of these moved something.
fn is_any(listened: bool, played: bool, offered: bool) -> bool
    ensures { result ≡ ((listened || played) || offered) }
{
    listened || played || offered
}

/// Returns whose turn is next. The turn goes to the next neighbour, unless something moved and more may move.
fn next_turn(turn: usize, neighbours: usize, moved: bool, more: bool) -> usize
    ensures { result ≡ turn_after turn neighbours (moved && more) }
{
    if moved && more {
        return turn;
    }
    if turn < neighbours { turn + 1 } else { 0 }
}
