//! What a router knows in addition to its trace, so that no call searches the trace. Each table is updated from an entry and
//! nothing else: its event and its marks.
ghost use Rattle.std.specs.Prelude.{◌≡◌, ◌≤◌, ◌<◌, ◌^◌, [], ◌∷◌, unsigned_abs, All, OnOk, IfOk};
ghost use Rattle.gs_base.specs.Names.{peers_of};
ghost use Rattle.gs_base.specs.declared.neighbour.Neighbour.{Neighbour as NeighbourValue};
ghost use Rattle.gs_params.specs.Params.{AreInRange};
ghost use Rattle.gs_params.specs.Picks.{IsAscending};
ghost use Rattle.gs_rules.specs.Peers.{Peer};
ghost use Rattle.gs_rules.specs.Tables.{Entries};
ghost use Rattle.gs_router.specs.Tables.{Agrees, AgreesOnScores, AreMadeFor};

pub mod beats;
pub mod budgets;
pub mod kept_messages;
pub mod listeners;
pub mod memberships;
pub mod mesh_topics;
pub mod neighbours;
pub mod own_topics;
pub mod promises;
pub mod sightings;
pub mod standings;

use crate::tables::beats::Beats;
use crate::tables::budgets::{Budget, Budgets};
use crate::tables::kept_messages::Messages;
use crate::tables::listeners::Listeners;
use crate::tables::memberships::Memberships;
use crate::tables::mesh_topics::MeshTopics;
use crate::tables::neighbours::Neighbours;
use crate::tables::own_topics::OwnTopics;
use crate::tables::promises::Promises;
use crate::tables::sightings::Sightings;
use crate::tables::standings::Standings;
use gs_base::{MOST_IDENTIFIERS, Millis, Neighbour};
use gs_params::{Params, Timing};
use gs_rules::StoredEntry;
use std::alloc::{AllocError, Global};

/// What a router knows in addition to its trace.
#[derive(Drop)]
pub struct Tables {
    pub topics: OwnTopics,
    pub listeners: Listeners,
    pub sightings: Sightings,
    pub messages: Messages,
    pub budgets: Budgets,
    pub promises: Promises,
    pub memberships: Memberships,
    pub mesh_topics: MeshTopics,
    pub beats: Beats,
    pub standings: Standings,
    pub neighbours: Neighbours,
}

impl Tables {
    /// Returns the tables of a router that has done nothing, with these parameters and these neighbours.
    ///
    /// # Errors
    /// `AllocError` if memory runs out.
    pub fn new(
        alloc: Global,
        params: &Params,
        neighbours: &[Neighbour],
    ) -> Result<Tables, AllocError>
        requires in_range { AreInRange params.now }
        requires ascending { IsAscending (peers_of neighbours.now) }
        requires apps { All (λ (n : NeighbourValue). unsigned_abs n.app ≤ 10 ^ 12) neighbours.now }
        ensures agrees { IfOk result (λ tables. Agrees tables []) }
        ensures scores { IfOk result (λ tables. (p : Peer)
            → p.params ≡ params.now
            → p.neighbours ≡ neighbours.now
            → AgreesOnScores p tables.standings []) }
        ensures made { IfOk result (λ tables. (p : Peer) → p.params ≡ params.now → AreMadeFor tables p) }
    {
        let timing = &params.timing;
        let kept = timing.mcache_len as usize;
        let announced = timing.mcache_gossip as usize;
        let messages = Messages::new(alloc, kept, announced, timing.gossip_retransmission)?;
        let budget = Budget {
            offers: timing.max_ihave,
            ids: timing.max_ihave_ids.min(MOST_IDENTIFIERS),
        };
        let standings = Standings::new(alloc, params, neighbours)?;
        Ok(Tables {
            topics: OwnTopics::new(alloc),
            listeners: Listeners::new(alloc),
            sightings: Sightings::new(alloc, Millis(timing.seen_ttl_ms)),
            messages,
            budgets: Budgets::new(alloc, budget),
            promises: Promises::new(alloc),
            memberships: Memberships::new(alloc),
            mesh_topics: MeshTopics::new(alloc),
            beats: Beats::new(),
            standings,
            neighbours: Neighbours::new(alloc),
        })
    }

    /// Notes an entry, which comes no earlier than those before it.
    ///
    /// # Errors
    /// `AllocError` if memory runs out. Some of the tables may then have noted the entry.
    pub fn note(&mut self, entry: &StoredEntry) -> Result<(), AllocError>
        requires time { self.old.sightings.cache.moment ≤ entry.now.at.0 }
        requires few { self.old.standings.scores.decays < 2 ^ 63 }
        requires beats { self.old.beats.count < 2 ^ 63 }
        ensures agrees { OnOk result ((L : Entries) → Agrees self.old L → Agrees self.new (entry.now ∷ L)) }
        ensures scores { OnOk result ((p : Peer) (L : Entries)
            → AgreesOnScores p self.old.standings L
            → AgreesOnScores p self.new.standings (entry.now ∷ L)) }
        ensures made { OnOk result ((p : Peer) → AreMadeFor self.old p → AreMadeFor self.new p) }
    {
        self.topics.note(entry)?;
        self.listeners.note(entry)?;
        self.sightings.note(entry)?;
        self.messages.note(entry)?;
        self.budgets.note(entry)?;
        self.promises.note(entry)?;
        self.memberships.note(entry)?;
        self.mesh_topics.note(entry)?;
        self.beats.note(entry);
        self.standings.note(entry)?;
        self.neighbours.note(entry)?;
        Ok(())
    }
}
