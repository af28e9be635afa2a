//! Sees what a peer does, entry by entry, and says what it knew after that.
ghost use Rattle.std.specs.Prelude.{◌≡◌, ◌≤◌, ◌^◌, ◌∷◌, [], unsigned_abs, All, IfOk, OnOk};
ghost use Rattle.gs_base.specs.Names.{peers_of};
ghost use Rattle.gs_base.specs.declared.neighbour.Neighbour.{Neighbour as NeighbourValue};
ghost use Rattle.gs_params.specs.Params.{AreInRange};
ghost use Rattle.gs_params.specs.Picks.{IsAscending};
ghost use Rattle.gs_rules.specs.FellAway.{fell_away};
ghost use Rattle.gs_rules.specs.Peers.{Peer};
ghost use Rattle.gs_rules.specs.Scoring.{score};
ghost use Rattle.gs_rules.specs.Scored.{parts_of_score, parts_on_topic, topics_of_neighbour};
ghost use Rattle.gs_rules.specs.Tables.{Entries, last_moment};
ghost use Rattle.gs_router.specs.Watching.{Watches};

use crate::entries::fallen::fell_away;
use crate::known::Known;
use crate::setup::{Setup, explicit_among};
use crate::tables::Tables;
use gs_base::{Millis, Neighbour, PeerNo, Topic};
use gs_params::Params;
use gs_rules::{Fallen, StoredEntry};
use gs_score::{ScoreParts, TopicParts};
use std::alloc::{AllocError, Global};

/// The most entries that are seen. Counters of entries can't overflow below it.
const MOST_ENTRIES: u64 = 9_223_372_036_854_775_807;

/// What a peer knew after the entries that were seen. After it ran out of memory, its answers are unspecified.
#[derive(Drop)]
pub struct Watcher {
    known: Known,
    /// How many entries were seen.
    count: u64,
}

impl Watcher {
    /// Returns a watcher that has seen no entry. The peer has these parameters, which are in range, and these neighbours,
    /// ascending by number. The score that the application gives each neighbour is between -10^12 and 10^12 millionths.
    ///
    /// # Errors
    /// `AllocError` if memory runs out.
    pub fn new(
        alloc: Global,
        params: Params,
        neighbours: Vec<Neighbour>,
    ) -> Result<Watcher, AllocError>
        requires in_range { AreInRange params }
        requires ascending { IsAscending (peers_of neighbours.items) }
        requires apps { All (λ (n : NeighbourValue). unsigned_abs n.app ≤ 10 ^ 12) neighbours.items }
        ensures { IfOk result (λ watcher.
            Watches watcher (record { params = params; neighbours = neighbours.items }) []) }
    {
        let tables = Tables::new(alloc, &params, neighbours.as_slice())?;
        let explicit = explicit_among(alloc, neighbours.as_slice())?;
        Ok(Watcher {
            known: Known {
                alloc,
                setup: Setup {
                    params,
                    neighbours,
                    explicit,
                },
                tables,
            },
            count: 0,
        })
    }

    /// Sees the next entry, which is no earlier than the last one. It returns what neighbours sent or promised in vain, as
    /// seen at this entry.
    ///
    /// # Errors
    /// `AllocError` if memory runs out, or after 2^63 - 1 entries.
    pub fn see(&mut self, entry: &StoredEntry) -> Result<Vec<Fallen>, AllocError>
        requires { (p : Peer) × (L : Entries) × Watches self.old p L × (last_moment L ≤ entry.now.at.0) }
        ensures fallen { IfOk result (λ fallen. (p : Peer) (L : Entries)
            → Watches self.old p L
            → last_moment L ≤ entry.now.at.0
            → fallen.items ≡ fell_away p L entry.now.at entry.now.event) }
        ensures watches { OnOk result ((p : Peer) (L : Entries)
            → Watches self.old p L
            → last_moment L ≤ entry.now.at.0
            → Watches self.new p (entry.now ∷ L)) }
    {
        if self.count >= MOST_ENTRIES {
            return Err(AllocError);
        }
        let fallen = fell_away(&self.known, entry.event(), entry.at())?;
        self.known.tables.note(entry)?;
        self.count += 1;
        Ok(fallen)
    }

    /// Returns the score of a neighbour at a moment, in millionths (gossipsub v1.1, Peer Scoring, The Score Function).
    pub fn score(&self, peer: PeerNo, now: Millis) -> i128
        ensures { (p : Peer) (L : Entries) → Watches self.now p L → result ≡ score p L now.0 peer }
    {
        self.known.tables.standings.score(peer, now)
    }

    /// Returns the parts of a neighbour's score at a moment.
    pub fn score_parts(&self, peer: PeerNo, now: Millis) -> ScoreParts
        ensures { (p : Peer) (L : Entries) → Watches self.now p L → result ≡ parts_of_score p L now.0 peer }
    {
        self.known.tables.standings.score_parts(peer, now)
    }

    /// Returns the parts of what a topic adds to a neighbour's score at a moment.
    pub fn topic_parts(&self, peer: PeerNo, topic: &Topic, now: Millis) -> TopicParts
        ensures { (p : Peer) (L : Entries)
            → Watches self.now p L
            → result ≡ parts_on_topic p L now.0 peer topic.now }
    {
        self.known.tables.standings.topic_parts(peer, topic, now)
    }

    /// Returns the topics on which anything is known about a neighbour, in the order of their bytes.
    ///
    /// # Errors
    /// `AllocError` if memory runs out.
    pub fn topics(&self, peer: PeerNo) -> Result<Vec<Topic>, AllocError>
        ensures { IfOk result (λ list. (p : Peer) (L : Entries)
            → Watches self.now p L
            → list.items ≡ topics_of_neighbour p L peer) }
    {
        self.known.tables.standings.topics(self.known.alloc, peer)
    }
}
