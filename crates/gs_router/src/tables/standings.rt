ghost use Rattle.std.specs.Prelude.{◌≡◌, ◌≤◌, ◌<◌, ◌+◌, ◌^◌, [], ◌∷◌, unsigned_abs, All, None, IfOk, OnOk, if◌then◌else◌};
ghost use Rattle.gs_base.specs.Names.{peers_of};
ghost use Rattle.gs_base.specs.declared.neighbour.Neighbour.{Neighbour as NeighbourValue};
ghost use Rattle.gs_params.specs.Params.{AreInRange};
ghost use Rattle.gs_params.specs.Picks.{IsAscending};
ghost use Rattle.gs_score.specs.Accounts.{rules_of};
ghost use Rattle.gs_score.specs.Formula.{p3};
ghost use Rattle.gs_score.specs.Histories.{Agrees, History, Marked, held_by};
ghost use Rattle.gs_rules.specs.Peers.{Peer};
ghost use Rattle.gs_rules.specs.Tables.{Entries, after_marks, lost};
ghost use Rattle.gs_rules.specs.Scoring.{changed_after, history, is_counted, marked_after, score, setting_of};
ghost use Rattle.gs_rules.specs.Scored.{parts_of_score, parts_on_topic, topics_of_neighbour};
ghost use Rattle.gs_router.specs.Tables.{AgreesOnScores};

use crate::topic_order::in_order;
use gs_base::{Mark, Millis, Neighbour, PeerNo, Topic};
use gs_params::Params;
use gs_rules::{Event, StoredEntry};
use gs_score::{ScoreParts, Scores, TopicParts};
use std::alloc::{AllocError, Global};

/// What counts for and against each neighbour, which makes up its score.
#[derive(Drop)]
pub struct Standings {
    scores: Scores,
}

impl Standings {
    /// Returns the standings before anything happened.
    ///
    /// # Errors
    /// `AllocError` if memory runs out.
    pub fn new(
        alloc: Global,
        params: &Params,
        neighbours: &[Neighbour],
    ) -> Result<Standings, AllocError>
        requires in_range { AreInRange params.now }
        requires ascending { IsAscending (peers_of neighbours.now) }
        requires apps { All (λ (n : NeighbourValue). unsigned_abs n.app ≤ 10 ^ 12) neighbours.now }
        ensures { IfOk result (λ standings. (p : Peer)
            → p.params ≡ params.now
            → p.neighbours ≡ neighbours.now
            → AgreesOnScores p standings []) }
    {
        let scores = Scores::new(alloc, params, neighbours)?;
        Ok(Standings { scores })
    }

    /// Returns the score of a neighbour at a moment, in millionths.
    pub fn score(&self, peer: PeerNo, now: Millis) -> i128
        ensures { (p : Peer) (L : Entries) → AgreesOnScores p self.now L → result ≡ score p L now.0 peer }
    {
        self.scores.score(peer, now)
    }

    /// Returns the square of what is missing of a neighbour's deliveries in the mesh of a topic, in millionths (P3).
    pub fn missing(&self, peer: PeerNo, topic: &Topic, now: Millis) -> u64
        ensures { (p : Peer) (L : Entries)
            → AgreesOnScores p self.now L
            → result ≡ p3 (rules_of p.params topic.now) now.0 (held_by p.params (history p L) peer topic.now) }
    {
        self.scores.missing(peer, topic, now)
    }

    /// Returns the parts of a neighbour's score at a moment.
    pub fn score_parts(&self, peer: PeerNo, now: Millis) -> ScoreParts
        ensures { (p : Peer) (L : Entries)
            → AgreesOnScores p self.now L
            → result ≡ parts_of_score p L now.0 peer }
    {
        self.scores.score_parts(peer, now)
    }

    /// Returns the parts of what a topic adds to a neighbour's score at a moment.
    pub fn topic_parts(&self, peer: PeerNo, topic: &Topic, now: Millis) -> TopicParts
        ensures { (p : Peer) (L : Entries)
            → AgreesOnScores p self.now L
            → result ≡ parts_on_topic p L now.0 peer topic.now }
    {
        self.scores.topic_parts(peer, topic, now)
    }

    /// Returns the topics on which anything is known about a neighbour, in the order of their bytes.
    ///
    /// # Errors
    /// `AllocError` if memory runs out.
    pub fn topics(&self, alloc: Global, peer: PeerNo) -> Result<Vec<Topic>, AllocError>
        ensures { IfOk result (λ list. (p : Peer) (L : Entries)
            → AgreesOnScores p self.now L
            → list.items ≡ topics_of_neighbour p L peer) }
    {
        let topics = self.scores.topics(alloc, peer)?;
        let list = in_order(alloc, topics.as_slice())?;
        Ok(list)
    }

    /// Notes what an entry says about neighbours. Its marks raise counters, and its event lowers them or shuts a neighbour
    /// out.
    ///
    /// # Errors
    /// `AllocError` if memory runs out. Some of the entry's marks may then have been noted.
    pub fn note(&mut self, entry: &StoredEntry) -> Result<(), AllocError>
        requires few { self.old.scores.decays < 2 ^ 63 }
        ensures { OnOk result ((p : Peer) (L : Entries)
            → AgreesOnScores p self.old L
            → AgreesOnScores p self.new (entry.now ∷ L)) }
    {
        self.note_event(entry.event());
        self.note_marks(entry.marks(), entry.at())?;
        Ok(())
    }

    fn note_event(&mut self, event: &Event)
        requires few { self.old.scores.decays < 2 ^ 63 }
        ensures { (p : Peer) (H : History)
            → Agrees (setting_of p) self.old.scores H
            → Agrees (setting_of p) self.new.scores (changed_after event.now H) }
    {
        match event.lost() {
            Some(peer) => self.scores.shut_out(peer),
            None => self.note_decay(event),
        }
    }

    /// Notes an event that loses no neighbour.
    fn note_decay(&mut self, event: &Event)
        requires keeps { lost event.now ≡ None }
        requires few { self.old.scores.decays < 2 ^ 63 }
        ensures { (p : Peer) (H : History)
            → Agrees (setting_of p) self.old.scores H
            → Agrees (setting_of p) self.new.scores (changed_after event.now H) }
    {
        match event {
            Event::Decay => self.scores.decay(),
            _ => {}
        }
    }

    fn note_marks(&mut self, marks: &[Mark], at: Millis) -> Result<(), AllocError>
        ensures { OnOk result ((p : Peer) (H : History)
            → Agrees (setting_of p) self.old.scores H
            → Agrees (setting_of p) self.new.scores (after_marks (marked_after p at) marks.now H)) }
    {
        for mark in marks {
            self.note_mark(mark, at)?;
        }
        Ok(())
    }

    /// Notes a mark that was made at a moment, if it counts.
    fn note_mark(&mut self, mark: &Mark, at: Millis) -> Result<(), AllocError>
        ensures { OnOk result ((p : Peer) (H : History)
            → Agrees (setting_of p) self.old.scores H
            → Agrees (setting_of p) self.new.scores (marked_after p at mark.now H)) }
    {
        match mark {
            Mark::Grafted(peer, topic) => {
                if !self.scores.has_room(*peer, topic) {
                    return Ok(());
                }
                self.scores.graft(*peer, topic, at)?;
                Ok(())
            }
            Mark::Pruned(peer, topic) => {
                self.scores.prune(*peer, topic);
                Ok(())
            }
            _ => self.apply(mark),
        }
    }

    /// Applies a mark that is not about meshes, if it counts.
    fn apply(&mut self, mark: &Mark) -> Result<(), AllocError>
        ensures { OnOk result ((p : Peer) (H : History)
            → Agrees (setting_of p) self.old.scores H
            → Agrees (setting_of p) self.new.scores (if is_counted p H mark.now then Marked mark.now ∷ H else H)) }
    {
        if !self.scores.accepts(mark) {
            return Ok(());
        }
        self.scores.apply(mark)?;
        Ok(())
    }
}
