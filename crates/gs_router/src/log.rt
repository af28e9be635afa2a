//! A trace that keeps all entries in memory, or only those of the last round.
ghost use Rattle.std.specs.Prelude.{◌≡◌, ◌<◌, ◌^◌, [], ◌∷◌, Bool, false, true, length, reverse, OnErr, OnOk};
ghost use Rattle.gs_rules.specs.Tables.{last_moment};
ghost use Rattle.gs_router.specs.Log.{this_round};

mod kept;

use crate::log::kept::Kept;
use gs_base::Millis;
use gs_rules::{StoredEntry, Trace};
use std::alloc::{AllocError, Global};
use std::marker::{Model, PhantomData};
use std::snapshot::Snapshot;

/// Which entries a router keeps in memory. Its contracts see all entries, whichever it keeps.
pub trait Retention {
    ghost keeps_all: { Bool };

    /// Says whether all entries are kept.
    fn keeps_all() -> bool
        ensures { result ≡ keeps_all };
}

/// All entries are kept.
#[derive(Debug)]
pub struct WholeTrace;

/// Only the entries of the last round are kept.
#[derive(Debug)]
pub struct LastRound;

impl Retention for WholeTrace {
    ghost keeps_all = { true };

    fn keeps_all() -> bool {
        true
    }
}

impl Retention for LastRound {
    ghost keeps_all = { false };

    fn keeps_all() -> bool {
        false
    }
}

/// A trace. Contracts see all entries, the newest first.
#[derive(Drop)]
pub struct Log<K: Retention> {
    kept: Kept,
    /// All entries, for proofs only. They take no memory.
    past: Vec<Snapshot<StoredEntry>>,
    retention: PhantomData<K>,
}

impl<K: Retention> Model for Log<K> {
    ghost use Rattle.std.specs.Prelude.{List};
    ghost use Rattle.gs_rules.specs.declared.trace.Entry.{Entry as EntryValue};
    ghost use Rattle.gs_router.specs.Log.{IsKept, seen_in};

    ghost Value = { List EntryValue };

    ghost view = { λ l. seen_in l.past.items };

    ghost invariant = { λ l. IsKept K.keeps_all l.kept.trace l.kept.start l.kept.is_over (seen_in l.past.items) };
}

impl<K: Retention> Log<K> {
    /// Returns the trace of a router that has done nothing. It takes no memory.
    pub fn new(alloc: Global) -> Log<K>
        ensures { result ≡ [] }
    {
        Log {
            kept: Kept::new(alloc),
            past: Vec::new(alloc),
            retention: PhantomData,
        }
    }

    /// Adds an entry as the newest.
    ///
    /// # Errors
    /// `AllocError` when out of memory; the trace is then as it was.
    pub fn push(&mut self, alloc: Global, entry: StoredEntry) -> Result<(), AllocError>
        ensures ok { OnOk result (self.new ≡ entry ∷ self.old) }
        ensures err { OnErr result (self.new ≡ self.old) }
    {
        self.past.push(Snapshot::of(&entry))?;
        match self.kept.push::<K>(alloc, entry) {
            Ok(()) => Ok(()),
            Err(fault) => {
                self.past.pop();
                Err(fault)
            }
        }
    }

    /// Returns the entries of the round in which the newest entry is, the oldest first.
    pub fn round(&self) -> &[StoredEntry]
        ensures { result.now ≡ reverse (this_round self.now) }
    {
        &self.kept.trace.entries()[self.kept.start..]
    }

    /// Returns the moment of the newest entry, or 0 if there is none.
    pub fn last_moment(&self) -> Millis
        ensures { result.0 ≡ last_moment self.now }
    {
        self.kept.trace.last_moment()
    }

    /// Proves that a trace has fewer than 2^63 entries, since they were counted in memory.
    pub fn prove_length_fits(&self)
        ensures { length self.now < 2 ^ 63 }
    {
        let _count = self.past.len();
    }
}

impl Log<WholeTrace> {
    /// Returns all entries.
    pub fn trace(&self) -> &Trace
        ensures { result.now ≡ self.now }
    {
        &self.kept.trace
    }

    /// Returns all entries by themselves.
    pub fn into_trace(self) -> Trace
        ensures { result ≡ self }
    {
        let Log { kept, .. } = self;
        let Kept { trace, .. } = kept;
        trace
    }
}
