ghost use Rattle.std.specs.Prelude.{◌≡◌, ◌≤◌, ℕ, not, ◌&&◌, [], ◌∷◌, Some, OnOk, is_some};
ghost use Rattle.std.specs.Option.{option_copied};
ghost use Rattle.gs_base.specs.declared.names.MsgId.{MsgId as MsgIdValue};
ghost use Rattle.gs_base.specs.declared.names.PeerNo.{PeerNo as PeerNoValue};
ghost use Rattle.gs_cache.specs.Sightings.{verdict_in, what_counts};
ghost use Rattle.gs_rules.specs.Tables.{Entries, last_moment, last_seen, seen};
ghost use Rattle.gs_rules.specs.Meshes.{noted, notes};
ghost use Rattle.gs_rules.specs.Outcomes.{is_soon};
ghost use Rattle.gs_router.specs.Tables.{AgreesOnSightings, neighbour_sighting, neighbour_sighting_after, noted_if, PassesOn, Sees};

use gs_base::{Mark, Millis, MsgId, PeerNo};
use gs_cache::{SeenCache, Sighting};
use gs_rules::StoredEntry;
use std::alloc::{AllocError, Global};

/// Which messages were seen lately. It forgets what no longer counts.
#[derive(Drop)]
pub struct Sightings {
    cache: SeenCache,
}

impl Sightings {
    /// Returns a table without sightings. A sighting will count for less than `ttl`.
    pub fn new(alloc: Global, ttl: Millis) -> Sightings
        ensures agrees { AgreesOnSightings result [] }
        ensures ttl { result.cache.ttl ≡ ttl.0 }
    {
        Sightings {
            cache: SeenCache::new(alloc, ttl),
        }
    }

    /// Says whether a message was seen lately.
    pub fn is_seen(&self, id: &MsgId, now: Millis) -> bool
        ensures { (L : Entries)
            → AgreesOnSightings self.now L
            → last_moment L ≤ now.0
            → result ≡ is_some (seen self.now.cache.ttl L id.now now.0) }
    {
        self.cache.seen(id, now).is_some()
    }

    /// Returns the last sighting of a message, if it was seen lately. One look-up says what the message was found to be, and
    /// whether it is near.
    pub fn lately(&self, id: &MsgId, now: Millis) -> Option<&Sighting>
        ensures counts { option_copied result ≡ what_counts self.now.cache id.now now.0 }
        ensures sees { (L : Entries)
            → AgreesOnSightings self.now L
            → last_moment L ≤ now.0
            → verdict_in (option_copied result) ≡ seen self.now.cache.ttl L id.now now.0 }
    {
        self.cache.counting(id, now)
    }

    /// Says whether a sighting that counts is at most `window` milliseconds old, and a neighbour was not noted for its
    /// message since.
    pub fn is_near(&self, sighting: &Sighting, peer: PeerNo, now: Millis, window: Millis) -> bool
        ensures { (L : Entries) (id : MsgIdValue)
            → AgreesOnSightings self.now L
            → last_moment L ≤ now.0
            → what_counts self.now.cache id now.0 ≡ Some sighting.now
            → result ≡ (is_soon window.0 now.0 (last_seen L id) && not (noted L id peer)) }
    {
        sighting.is_near(peer, now, window)
    }

    /// Notes an entry, which comes no earlier than those before it. Sightings are noted first and neighbours after them,
    /// whatever the order of the marks.
    pub fn note(&mut self, entry: &StoredEntry) -> Result<(), AllocError>
        requires { self.old.cache.moment ≤ entry.now.at.0 }
        ensures agrees { OnOk result ((L : Entries)
            → AgreesOnSightings self.old L
            → AgreesOnSightings self.new (entry.now ∷ L)) }
        ensures ttl { OnOk result (self.new.cache.ttl ≡ self.old.cache.ttl) }
    {
        self.note_sightings(entry.marks(), entry.at())?;
        self.note_neighbours(entry.marks())?;
        Ok(())
    }

    /// Notes which messages marks say were seen at a moment.
    fn note_sightings(&mut self, marks: &[Mark], at: Millis) -> Result<(), AllocError>
        requires { self.old.cache.moment ≤ at.0 }
        ensures { OnOk result (Sees at.0 marks.now self.old self.new) }
    {
        for mark in marks {
            self.note_sighting(mark, at)?;
        }
        Ok(())
    }

    /// Notes which message a mark says was seen at a moment, if any.
    fn note_sighting(&mut self, mark: &Mark, at: Millis) -> Result<(), AllocError>
        requires { self.old.cache.moment ≤ at.0 }
        ensures marks { OnOk result ((id : MsgIdValue) (q : PeerNoValue) (now : ℕ)
            → self.new.cache.moment ≤ now
            → neighbour_sighting self.new id q now
            ≡ neighbour_sighting_after self.old.cache.ttl now id at.0 mark.now (neighbour_sighting self.old id q now)) }
        ensures moment { OnOk result ((self.old.cache.moment ≤ self.new.cache.moment) × (self.new.cache.moment ≤ at.0)) }
        ensures ttl { OnOk result (self.new.cache.ttl ≡ self.old.cache.ttl) }
    {
        match mark {
            Mark::Seen(id, verdict) => {
                self.cache.mark(*id, at, *verdict)?;
                Ok(())
            }
            _ => Ok(()),
        }
    }

    /// Notes who passed on which message, as marks say.
    fn note_neighbours(&mut self, marks: &[Mark]) -> Result<(), AllocError>
        ensures { OnOk result (PassesOn marks.now self.old self.new) }
    {
        for mark in marks {
            self.note_neighbour(mark)?;
        }
        Ok(())
    }

    /// Notes who passed on which message, if a mark says so.
    fn note_neighbour(&mut self, mark: &Mark) -> Result<(), AllocError>
        ensures marks { OnOk result ((id : MsgIdValue) (q : PeerNoValue) (now : ℕ)
            → self.new.cache.moment ≤ now
            → neighbour_sighting self.new id q now ≡ noted_if (notes id q mark.now) (neighbour_sighting self.old id q now)) }
        ensures moment { OnOk result (self.new.cache.moment ≡ self.old.cache.moment) }
        ensures ttl { OnOk result (self.new.cache.ttl ≡ self.old.cache.ttl) }
    {
        match mark {
            Mark::First(peer, _topic, id) => {
                self.cache.note(id, *peer)?;
                Ok(())
            }
            Mark::Near(peer, _topic, id) => {
                self.cache.note(id, *peer)?;
                Ok(())
            }
            _ => Ok(()),
        }
    }
}
