ghost use Rattle.std.specs.Prelude.{◌≡◌, ◌≤◌, ◌-◌, [], None, false, nat_le, is_some, OnOk, OnErr, IfOk};
ghost use Rattle.gs_base.specs.declared.names.MsgId.{MsgId as MsgIdValue};
ghost use Rattle.gs_cache.specs.Buckets.{AreInOrder, Becomes, Forgets, Takes, IsUnchanged, Spans, put, sighting_in};
ghost use Rattle.gs_cache.specs.Sightings.{noted};

use crate::seen::sighting::Sighting;
use gs_base::{Millis, MsgId, PeerNo};
use indexmap::IndexMap;
use std::alloc::{AllocError, Global};
use std::mem::replace;

/// Sightings that were made from a first moment to a last one.
#[derive(Drop)]
pub struct Bucket {
    pub first: Millis,
    pub last: Millis,
    pub sightings: IndexMap<MsgId, Sighting>,
}

/// Says whether a moment is a given time ago or more.
pub fn is_past(moment: Millis, ttl: Millis, now: Millis) -> bool
    ensures { result ≡ nat_le ttl.0 (now.0 - moment.0) }
{
    ttl.0 <= now.0.saturating_sub(moment.0)
}

impl Bucket {
    /// Returns a bucket without sightings, which begins at a moment. It takes no memory.
    pub fn new(alloc: Global, first: Millis) -> Bucket
        ensures first { result.first ≡ first }
        ensures last { result.last ≡ first }
        ensures empty { result.sightings.entries ≡ [] }
    {
        Bucket {
            first,
            last: first,
            sightings: IndexMap::new(alloc),
        }
    }

    /// Returns a bucket with one sighting, at which the bucket begins.
    ///
    /// # Errors
    /// `AllocError` if memory runs out.
    pub fn of(alloc: Global, id: MsgId, sighting: Sighting) -> Result<Bucket, AllocError>
        ensures one { IfOk result (λ bucket. (other : MsgIdValue)
            → sighting_in bucket other ≡ put id sighting other None) }
        ensures first { IfOk result (λ bucket. bucket.first ≡ sighting.at) }
        ensures last { IfOk result (λ bucket. bucket.last ≡ sighting.at) }
    {
        let at = sighting.at;
        let mut sightings = IndexMap::new(alloc);
        sightings.insert(id, sighting)?;
        Ok(Bucket {
            first: at,
            last: at,
            sightings,
        })
    }

    /// Puts a sighting, which is now the last one. It replaces an earlier one of the same message.
    ///
    /// # Errors
    /// `AllocError` if memory runs out. Nothing is changed then.
    pub fn put(&mut self, id: MsgId, sighting: Sighting) -> Result<(), AllocError>
        ensures puts { OnOk result (Becomes (put id sighting) self.old.first sighting.at self.old self.new) }
        ensures err { OnErr result (IsUnchanged self.old self.new) }
    {
        let at = sighting.at;
        self.sightings.insert(id, sighting)?;
        self.last = at;
        Ok(())
    }

    /// Notes a neighbour at the sighting of a message, and says whether there is one.
    ///
    /// # Errors
    /// `AllocError` if memory runs out. Nothing is changed then.
    pub fn note(&mut self, id: &MsgId, peer: PeerNo) -> Result<bool, AllocError>
        ensures found { IfOk result (λ found. found ≡ is_some (sighting_in self.old id.now)) }
        ensures none { IfOk result (λ found. found ≡ false → IsUnchanged self.old self.new) }
        ensures notes { OnOk result (Becomes (noted id.now peer) self.old.first self.old.last self.old self.new) }
        ensures err { OnErr result (IsUnchanged self.old self.new) }
    {
        match self.sightings.get_mut(id) {
            Some(sighting) => {
                sighting.note(peer)?;
                Ok(true)
            }
            None => Ok(false),
        }
    }

    /// Forgets all sightings and frees their memory, if the last of them no longer counts.
    pub fn forget(&mut self, alloc: Global, ttl: Millis, now: Millis)
        requires { Spans ttl.0 self.old }
        ensures { Forgets ttl.0 now.0 self.old self.new }
    {
        if is_past(self.last, ttl, now) {
            self.sightings = IndexMap::new(alloc);
        }
    }

    /// Takes a sighting into this bucket. If this bucket began the given time ago or more, the sighting gets a new bucket
    /// instead. The new bucket is then the newer one, and this one the older one. The bucket that was the older one before
    /// is dropped, since what it held no longer counts.
    ///
    /// # Errors
    /// `AllocError` if memory runs out. Nothing is changed then.
    pub fn take(
        &mut self,
        alloc: Global,
        ttl: Millis,
        older: &mut Bucket,
        id: MsgId,
        sighting: Sighting,
    ) -> Result<(), AllocError>
        requires in_order { AreInOrder ttl.0 self.old older.old }
        requires no_earlier { self.old.last.0 ≤ sighting.at.0 }
        ensures takes { OnOk result (Takes ttl.0 id sighting self.old older.old self.new older.new) }
        ensures newer_err { OnErr result (IsUnchanged self.old self.new) }
        ensures older_err { OnErr result (older.new ≡ older.old) }
    {
        if is_past(self.first, ttl, sighting.at) {
            let newest = Bucket::of(alloc, id, sighting)?;
            *older = replace(self, newest);
            return Ok(());
        }
        self.put(id, sighting)?;
        Ok(())
    }
}
