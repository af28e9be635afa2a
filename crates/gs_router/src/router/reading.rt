//! What a router reports about itself: its trace, its neighbours and their scores, its meshes.
ghost use Rattle.std.specs.Prelude.{◌≡◌, false, reverse, IfOk};
ghost use Rattle.gs_rules.specs.Tables.{last_moment, up};
ghost use Rattle.gs_rules.specs.Meshes.{mesh};
ghost use Rattle.gs_rules.specs.Scoring.{score};
ghost use Rattle.gs_rules.specs.Results.{meshes_of, scores_of};
ghost use Rattle.gs_router.specs.Log.{this_round};

use crate::log::{Retention, WholeTrace};
use crate::router::Router;
use crate::state::State;
use gs_base::{Millis, PeerNo, Seq, Topic};
use gs_rules::{StoredEntry, Trace};
use std::alloc::AllocError;

impl Router<WholeTrace> {
    /// Returns all that the router did, entry by entry.
    pub fn trace(&self) -> &Trace
        ensures { result.now ≡ self.now.trace }
    {
        self.state.trace.trace()
    }

    /// Consumes the router, and returns all that it did.
    pub fn into_trace(self) -> Trace
        ensures { result ≡ self.trace }
    {
        let Router { state, .. } = self;
        let State { trace, .. } = state;
        trace.into_trace()
    }
}

impl<K: Retention> Router<K> {
    /// Returns what the router did in the round in which it is, the oldest entry first. After the end of a round, this is
    /// the round that has ended, until the next entry.
    pub fn round(&self) -> &[StoredEntry]
        ensures { result.now ≡ reverse (this_round self.now.trace) }
    {
        self.state.trace.round()
    }

    /// Returns the moment of the last entry, or 0 if there is none.
    pub fn last_moment(&self) -> Millis
        ensures { result.0 ≡ last_moment self.now.trace }
    {
        self.state.trace.last_moment()
    }

    /// Says whether a neighbour is heard and sent to. After the router ran out of memory, the answer is unspecified.
    pub fn is_up(&self, peer: PeerNo) -> bool
        ensures { self.now.is_stopped ≡ false → result ≡ up self.now.trace peer }
    {
        self.state.known.tables.neighbours.is_up(peer)
    }

    /// Returns the time between heartbeats, in milliseconds.
    pub fn heartbeat_ms(&self) -> u64
        ensures { result ≡ self.now.peer.params.timing.heartbeat_ms }
    {
        self.state.known.setup.params.timing.heartbeat_ms
    }

    /// Returns the time between steps of the decay of scores, in milliseconds.
    pub fn decay_ms(&self) -> u64
        ensures { result ≡ self.now.peer.params.timing.decay_ms }
    {
        self.state.known.setup.params.timing.decay_ms
    }

    /// Returns the score of a neighbour at a moment, in millionths (gossipsub v1.1, Peer Scoring, The Score Function). A
    /// peer that is no neighbour is scored only by its marks, and has 0 without any. After the router ran out of memory, the
    /// answer is unspecified.
    pub fn score(&self, peer: PeerNo, now: Millis) -> i128
        ensures { self.now.is_stopped ≡ false → result ≡ score self.now.peer self.now.trace now.0 peer }
    {
        self.state.known.tables.standings.score(peer, now)
    }

    /// Returns the scores of all neighbours at a moment, by number. After the router ran out of memory, they are
    /// unspecified.
    ///
    /// # Errors
    /// `AllocError` if memory runs out.
    pub fn scores(&self, now: Millis) -> Result<Seq<(PeerNo, i128)>, AllocError>
        ensures { IfOk result (λ scores. self.now.is_stopped ≡ false
            → scores ≡ scores_of self.now.peer self.now.trace now.0) }
    {
        self.state.scores(now)
    }

    /// Returns who is in the mesh of a topic, ascending by number: nobody if there is no mesh. After the router ran out of
    /// memory, the answer is unspecified.
    pub fn members(&self, topic: &Topic) -> &[PeerNo]
        ensures { self.now.is_stopped ≡ false → result.now ≡ mesh self.now.trace topic.now }
    {
        self.state.known.tables.memberships.members(topic)
    }

    /// Returns the members of the meshes of the router's own topics. Topics stand by their bytes, members by number. After
    /// the router ran out of memory, the answer is unspecified.
    ///
    /// # Errors
    /// `AllocError` if memory runs out.
    pub fn meshes(&self) -> Result<Seq<(Topic, PeerNo)>, AllocError>
        ensures { IfOk result (λ meshes. self.now.is_stopped ≡ false → meshes ≡ meshes_of self.now.trace) }
    {
        self.state.meshes()
    }
}
