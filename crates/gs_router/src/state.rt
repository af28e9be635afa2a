//! What a router knows, and how it takes a step.
ghost use Rattle.std.specs.Prelude.{◌≡◌, ◌≤◌, [], ◌∷◌, length, OnOk, OnErr, true, false};
ghost use Rattle.gs_wire.specs.Codec.{codec};
ghost use Rattle.gs_rules.specs.declared.event.Event.TheVariants as events;
ghost use Rattle.gs_rules.specs.Tables.{Entries, last_moment, up};
ghost use Rattle.gs_rules.specs.Owed.{owes};
ghost use Rattle.gs_rules.specs.Modes.{exact};
ghost use Rattle.gs_rules.specs.Legal.{MayAct, MayOpen, hearing};
ghost use Rattle.gs_rules.specs.Peers.{Peer};
ghost use Rattle.gs_router.specs.Tables.{Agrees, AgreesOnScores, AreMadeFor};
ghost use Rattle.gs_router.specs.State.{IsCurrent, IsDue, IsReady, Steps, WorkEnds, peer_of};

mod hearing;
mod heartbeat;
mod meshes;
mod scores;

use crate::entries;
use crate::known::Known;
use crate::log::{Log, Retention};
use gs_base::{Millis, PeerNo, Rpc, Seq, Shared};
use gs_cache::Payloads;
use gs_params::Words;
use gs_plan::Act;
use gs_rules::{Entry, Event, StoredEntry};
use std::alloc::AllocError;

/// A router's setup, its trace, and the tables that the trace determines.
///
/// After a failed step the trace ends with the last whole entry. The tables may no longer agree with the trace, so no
/// further step can be taken.
#[derive(Drop)]
pub struct State<K: Retention> {
    pub known: Known,
    pub trace: Log<K>,
}

impl<K: Retention> State<K> {
    /// Brings every table up to date from an entry, and adds that to the trace.
    ///
    /// # Errors
    /// `AllocError` if memory runs out. The trace is then as it was.
    fn append(&mut self, entry: Entry) -> Result<(), AllocError>
        requires time { self.old.known.tables.sightings.cache.moment ≤ entry.at.0 }
        requires few { self.old.known.tables.standings.scores.decays ≤ length self.old.trace }
        requires beats { self.old.known.tables.beats.count ≤ length self.old.trace }
        ensures added { OnOk result (self.new.trace ≡ entry ∷ self.old.trace) }
        ensures agrees { OnOk result ((L : Entries)
            → Agrees self.old.known.tables L
            → Agrees self.new.known.tables (entry ∷ L)) }
        ensures scores { OnOk result ((p : Peer) (L : Entries)
            → AgreesOnScores p self.old.known.tables.standings L
            → AgreesOnScores p self.new.known.tables.standings (entry ∷ L)) }
        ensures made { OnOk result ((p : Peer) → AreMadeFor self.old.known.tables p → AreMadeFor self.new.known.tables p) }
        ensures kept { OnErr result (self.new.trace ≡ self.old.trace) }
        ensures setup { self.new.known.setup ≡ self.old.known.setup }
    {
        self.trace.prove_length_fits();
        let stored = StoredEntry::new(self.known.alloc, entry)?;
        self.known.tables.note(&stored)?;
        self.trace.push(self.known.alloc, stored)
    }

    /// Does what the rule says about the event that comes next.
    fn step<W: Words>(&mut self, event: Event, now: Millis, words: &mut W) -> Result<(), AllocError>
        requires current { IsCurrent self.old }
        requires time { last_moment self.old.trace ≤ now.0 }
        requires next { IsDue self.old now event }
        ensures { Steps (exact W.word W.after) event now self.old words.old result self.new words.new }
    {
        self.step_with(&mut Payloads::new(self.known.alloc), event, now, words)
    }

    /// Does what `step` does, but does not hash known payloads again.
    fn step_with<W: Words>(
        &mut self,
        payloads: &mut Payloads,
        event: Event,
        now: Millis,
        words: &mut W,
    ) -> Result<(), AllocError>
        requires current { IsCurrent self.old }
        requires time { last_moment self.old.trace ≤ now.0 }
        requires next { IsDue self.old now event }
        ensures { Steps (exact W.word W.after) event now self.old words.old result self.new words.new }
    {
        let effects = entries::effects_of(&self.known, payloads, &event, now, words)?;
        self.append(Entry {
            at: now,
            event,
            effects,
        })
    }

    /// Does what the rule says about an event that owes nothing.
    pub fn open<W: Words>(
        &mut self,
        payloads: &mut Payloads,
        event: Event,
        now: Millis,
        words: &mut W,
    ) -> Result<(), AllocError>
        requires ready { IsReady self.old }
        requires time { last_moment self.old.trace ≤ now.0 }
        requires may { MayOpen (peer_of self.old) self.old.trace now.0 event }
        requires alone { owes (peer_of self.old) self.old.trace now.0 event ≡ [] }
        ensures { WorkEnds (exact W.word W.after) event now self.old words.old result self.new words.new }
    {
        self.step_with(payloads, event, now, words)
    }

    /// Does what the router's own user asks, which is allowed now.
    pub fn obey<W: Words>(
        &mut self,
        payloads: &mut Payloads,
        act: Act,
        now: Millis,
        words: &mut W,
    ) -> Result<(), AllocError>
        requires ready { IsReady self.old }
        requires time { last_moment self.old.trace ≤ now.0 }
        requires may { MayAct (peer_of self.old) self.old.trace now.0 act }
        ensures { WorkEnds (exact W.word W.after) (events.Own act) now self.old words.old result self.new words.new }
    {
        let act = Shared::new(self.known.alloc, act)?;
        self.open(payloads, Event::Own(act), now, words)
    }

    /// Hears an RPC. If its sender is up and not on the graylist, all its parts are heard too.
    pub fn hear<W: Words>(
        &mut self,
        payloads: &mut Payloads,
        from: PeerNo,
        rpc: Rpc,
        now: Millis,
        words: &mut W,
    ) -> Result<(), AllocError>
        requires ready { IsReady self.old }
        requires time { last_moment self.old.trace ≤ now.0 }
        requires fits { codec.fits rpc ≡ true }
        ensures { WorkEnds (exact W.word W.after) (hearing self.old.trace from rpc) now
            self.old words.old result self.new words.new }
    {
        let rpc = Shared::new(self.known.alloc, compact(payloads, rpc))?;
        self.hear_shared(payloads, from, rpc, now, words)
    }

    /// Hears an RPC that others share, as `hear` does.
    pub fn hear_shared<W: Words>(
        &mut self,
        payloads: &mut Payloads,
        from: PeerNo,
        rpc: Shared<Rpc>,
        now: Millis,
        words: &mut W,
    ) -> Result<(), AllocError>
        requires ready { IsReady self.old }
        requires time { last_moment self.old.trace ≤ now.0 }
        requires fits { codec.fits rpc ≡ true }
        ensures { WorkEnds (exact W.word W.after) (hearing self.old.trace from rpc) now
            self.old words.old result self.new words.new }
    {
        if !self.known.tables.neighbours.is_up(from) {
            return self.open(payloads, Event::Late(from, rpc), now, words);
        }
        if entries::thresholds::is_graylisted(&self.known, from, now) {
            return self.open(payloads, Event::Heard(from, rpc), now, words);
        }
        self.hear_up(payloads, from, &rpc, now, words)
    }
}

/// Returns the same RPC, made small for a trace. Its messages share known payloads, and their list has no unused room.
fn compact(payloads: &Payloads, rpc: Rpc) -> Rpc
    ensures { result ≡ rpc }
{
    let Rpc {
        subs,
        publish,
        control,
    } = rpc;
    let mut messages = publish.into_vec();
    payloads.share(&mut messages);
    messages.shrink_to_fit();
    Rpc {
        subs,
        publish: Seq::from(messages),
        control,
    }
}
