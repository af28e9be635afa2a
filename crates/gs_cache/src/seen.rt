mod bucket;
mod sighting;

ghost use Rattle.std.specs.Prelude.{◌≡◌, ◌+◌, ◌*◌, ◌≤◌, [], length, IfSome, OnOk, OnErr};
ghost use Rattle.std.specs.Option.{option_copied};
ghost use Rattle.std.specs.Map.{lookup};
ghost use Rattle.gs_base.specs.declared.names.MsgId.{MsgId as MsgIdValue};
ghost use Rattle.gs_base.specs.Names.{same_id};
ghost use Rattle.gs_cache.specs.Sightings.{ChangesBy, is_near_in, noted, sighted, verdict_in, what_counts};

use crate::seen::bucket::{Bucket, is_past};
use gs_base::{Millis, MsgId, PeerNo, Seq, Verdict};
pub use sighting::Sighting;
use std::alloc::{AllocError, Global};
use std::marker::Model;

/// The messages that were seen less than a given time ago, with their verdicts and the neighbours that were noted for each
/// since (gossipsub v1.0, "Message Cache", the seen cache; v1.1, Peer Scoring, P3).
///
/// A message counts until the given time has passed since its last mark. A look-up may ask about any moment, but its answer
/// is promised only from the last mark's moment on. What no longer counts at that moment may have been forgotten.
///
/// Sightings lie in two buckets by time. The newer one takes marks for the given time, and then becomes the older one. A
/// bucket is dropped whole when its last mark is the given time ago or more. So the cache holds at most the messages of
/// twice the given time, however long a run is.
#[derive(Drop)]
pub struct SeenCache {
    alloc: Global,
    ttl: Millis,
    newer: Bucket,
    older: Bucket,
}

impl Model for SeenCache {
    ghost use Rattle.std.specs.Prelude.{◌++◌};
    ghost use Rattle.gs_cache.specs.Sightings.{Seen};
    ghost use Rattle.gs_cache.specs.Buckets.{AreKept};

    ghost Value = { Seen };

    ghost view = { λ cache. record {
      ttl = cache.ttl.0;
      moment = cache.newer.last.0;
      sightings = cache.newer.sightings.entries ++ cache.older.sightings.entries;
    } };

    ghost invariant = { λ cache. AreKept cache.ttl.0 cache.newer cache.older };
}

impl SeenCache {
    /// Returns a cache without sightings. A sighting will count for less than `ttl` milliseconds. It takes no memory.
    pub fn new(alloc: Global, ttl: Millis) -> SeenCache
        ensures { result ≡ record { ttl = ttl.0; moment = 0; sightings = [] } }
    {
        SeenCache {
            alloc,
            ttl,
            newer: Bucket::new(alloc, Millis(0)),
            older: Bucket::new(alloc, Millis(0)),
        }
    }

    /// Returns the verdict on a message, if it was marked as seen less than the cache's time ago.
    pub fn seen(&self, id: &MsgId, now: Millis) -> Option<Verdict>
        ensures { result ≡ verdict_in (what_counts self.now id.now now.0) }
    {
        let sighting = self.counting(id, now)?;
        Some(sighting.verdict)
    }

    /// Says whether a neighbour's delivery of a message comes soon after the first one, and is its first (gossipsub v1.1,
    /// Peer Scoring, P3). It comes soon if the message was marked as seen less than the cache's time ago, and at most
    /// `window` milliseconds ago. It is the neighbour's first if the neighbour was not noted for the message since.
    pub fn is_near(&self, id: &MsgId, peer: PeerNo, now: Millis, window: Millis) -> bool
        ensures { result ≡ is_near_in peer now.0 window.0 (what_counts self.now id.now now.0) }
    {
        match self.counting(id, now) {
            Some(sighting) => sighting.is_near(peer, now, window),
            None => false,
        }
    }

    /// Returns how many sightings are held, so that a caller can watch the memory. They are of messages that were marked at
    /// most twice the cache's time before the last mark. A message that was marked again may count twice.
    pub fn held(&self) -> usize
        ensures counts { result ≡ length self.now.sightings }
        ensures recent { (id : MsgIdValue)
            → IfSome (lookup (same_id id) self.now.sightings) (λ s. self.now.moment ≤ s.at.0 + 2 * self.now.ttl) }
    {
        self.newer.sightings.len() + self.older.sightings.len()
    }

    /// Marks a message as seen at a moment, which is no earlier than that of the last mark. An earlier mark of the message
    /// no longer counts, and no neighbour is noted for it yet.
    ///
    /// # Errors
    /// `AllocError` if memory runs out. The cache is then as it was.
    pub fn mark(&mut self, id: MsgId, now: Millis, verdict: Verdict) -> Result<(), AllocError>
        requires no_earlier { self.old.moment ≤ now.0 }
        ensures marks { OnOk result (ChangesBy (sighted id now verdict) now.0 self.old self.new) }
        ensures keeps_moment { OnOk result (self.new.moment ≡ now.0) }
        ensures keeps_ttl { OnOk result (self.new.ttl ≡ self.old.ttl) }
        ensures unchanged { OnErr result (self.new ≡ self.old) }
    {
        let sighting = Sighting {
            at: now,
            verdict,
            noted: Seq::new(self.alloc),
        };
        self.newer
            .take(self.alloc, self.ttl, &mut self.older, id, sighting)?;
        self.older.forget(self.alloc, self.ttl, now);
        Ok(())
    }

    /// Notes a neighbour for a message since its last mark. The mark stays as it is, and a message that was not marked stays
    /// unmarked.
    ///
    /// # Errors
    /// `AllocError` if memory runs out. The cache is then as it was.
    pub fn note(&mut self, id: &MsgId, peer: PeerNo) -> Result<(), AllocError>
        ensures notes { OnOk result (ChangesBy (noted id.now peer) self.old.moment self.old self.new) }
        ensures keeps_moment { OnOk result (self.new.moment ≡ self.old.moment) }
        ensures keeps_ttl { OnOk result (self.new.ttl ≡ self.old.ttl) }
        ensures unchanged { OnErr result (self.new ≡ self.old) }
    {
        if self.newer.note(id, peer)? {
            return Ok(());
        }
        self.older.note(id, peer)?;
        Ok(())
    }

    /// Returns the last sighting of a message, if it was marked as seen less than the cache's time ago. One look-up then
    /// says what `seen` and `is_near` say.
    pub fn counting(&self, id: &MsgId, now: Millis) -> Option<&Sighting>
        ensures { option_copied result ≡ what_counts self.now id.now now.0 }
    {
        let sighting = self.last(id)?;
        if is_past(sighting.at, self.ttl, now) {
            return None;
        }
        Some(sighting)
    }

    fn last(&self, id: &MsgId) -> Option<&Sighting>
        ensures { option_copied result ≡ lookup (same_id id.now) self.now.sightings }
    {
        match self.newer.sightings.get(id) {
            Some(sighting) => Some(sighting),
            None => self.older.sightings.get(id),
        }
    }
}
