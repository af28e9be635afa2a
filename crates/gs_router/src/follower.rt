//! Reads a trace that exists already, and says what its peer knew at each entry.
ghost use Rattle.std.specs.Prelude.{◌≡◌, ◌≤◌, ◌^◌, ◌∷◌, [], reverse, unsigned_abs, All, IfOk, Some, slice_get};
ghost use Rattle.gs_base.specs.Names.{peers_of};
ghost use Rattle.gs_base.specs.declared.neighbour.Neighbour.{Neighbour as NeighbourValue};
ghost use Rattle.gs_params.specs.Params.{AreInRange};
ghost use Rattle.gs_params.specs.Picks.{IsAscending};
ghost use Rattle.gs_rules.specs.Scoring.{score};
ghost use Rattle.gs_rules.specs.Scored.{parts_of_score, parts_on_topic, topics_of_neighbour};
ghost use Rattle.gs_router.specs.Following.{AreInOrder, Follows, GoesOn, Reading};

use crate::watcher::Watcher;
use gs_base::{Millis, Neighbour, PeerNo, Topic};
use gs_params::Params;
use gs_rules::{Fallen, StoredEntry, Trace};
use gs_score::{ScoreParts, TopicParts};
use std::alloc::{AllocError, Global};

/// A reader of a peer's trace. It says what the peer knew after the entries that it has seen. After it ran out of memory,
/// its answers are unspecified.
#[derive(Drop)]
pub struct Follower<'a> {
    watcher: Watcher,
    trace: &'a Trace,
    place: usize,
}

/// An entry that was seen.
#[derive(Drop)]
pub struct Followed<'a> {
    /// The entry.
    pub entry: &'a StoredEntry,
    /// What neighbours sent or promised in vain, as seen at this entry.
    pub fallen: Vec<Fallen>,
}

impl<'a> Follower<'a> {
    /// Returns a reader that has seen no entry of a trace. The trace is of a peer with these parameters, which are in range,
    /// and these neighbours, ascending by number. No entry is earlier than the one before it. The score that the application
    /// gives each neighbour is between -10^12 and 10^12 millionths.
    ///
    /// # Errors
    /// `AllocError` if memory runs out.
    pub fn new(
        alloc: Global,
        params: Params,
        neighbours: Vec<Neighbour>,
        trace: &'a Trace,
    ) -> Result<Follower<'a>, AllocError>
        requires in_range { AreInRange params }
        requires ascending { IsAscending (peers_of neighbours.items) }
        requires apps { All (λ (n : NeighbourValue). unsigned_abs n.app ≤ 10 ^ 12) neighbours.items }
        requires order { AreInOrder trace.now }
        ensures { IfOk result (λ follower. Follows follower (record {
          peer = record { params = params; neighbours = neighbours.items };
          before = [];
          left = reverse trace.now;
        })) }
    {
        let watcher = Watcher::new(alloc, params, neighbours)?;
        Ok(Follower {
            watcher,
            trace,
            place: 0,
        })
    }

    /// Sees the next entry and returns it, if one is left.
    ///
    /// # Errors
    /// `AllocError` if memory runs out.
    pub fn advance(&mut self) -> Result<Option<Followed<'a>>, AllocError>
        requires { (v : Reading) × Follows self.old v }
        ensures { IfOk result (λ seen. (v : Reading) → Follows self.old v → GoesOn v seen self.new) }
    {
        match self.trace.entries().get(self.place) {
            Some(entry) => {
                let seen = self.see(entry)?;
                Ok(Some(seen))
            }
            None => Ok(None),
        }
    }

    /// Sees the entry that comes next.
    fn see(&mut self, entry: &'a StoredEntry) -> Result<Followed<'a>, AllocError>
        requires follows { (v : Reading) × Follows self.old v }
        requires next { slice_get (reverse self.old.trace.now) self.old.place ≡ Some entry.now }
        ensures { IfOk result (λ seen. (v : Reading) → Follows self.old v → GoesOn v (Some seen) self.new) }
    {
        self.trace.prove_length_fits();
        let fallen = self.watcher.see(entry)?;
        self.place += 1;
        Ok(Followed { entry, fallen })
    }

    /// Returns the score of a neighbour at a moment, in millionths (gossipsub v1.1, Peer Scoring, The Score Function).
    pub fn score(&self, peer: PeerNo, now: Millis) -> i128
        ensures { (v : Reading) → Follows self.now v → result ≡ score v.peer v.before now.0 peer }
    {
        self.watcher.score(peer, now)
    }

    /// Returns the parts of a neighbour's score at a moment.
    pub fn score_parts(&self, peer: PeerNo, now: Millis) -> ScoreParts
        ensures { (v : Reading) → Follows self.now v → result ≡ parts_of_score v.peer v.before now.0 peer }
    {
        self.watcher.score_parts(peer, now)
    }

    /// Returns the parts of what a topic adds to a neighbour's score at a moment.
    pub fn topic_parts(&self, peer: PeerNo, topic: &Topic, now: Millis) -> TopicParts
        ensures { (v : Reading)
            → Follows self.now v
            → result ≡ parts_on_topic v.peer v.before now.0 peer topic.now }
    {
        self.watcher.topic_parts(peer, topic, now)
    }

    /// Returns the topics on which anything is known about a neighbour, in the order of their bytes.
    ///
    /// # Errors
    /// `AllocError` if memory runs out.
    pub fn topics(&self, peer: PeerNo) -> Result<Vec<Topic>, AllocError>
        ensures { IfOk result (λ list. (v : Reading)
            → Follows self.now v
            → list.items ≡ topics_of_neighbour v.peer v.before peer) }
    {
        self.watcher.topics(peer)
    }
}
