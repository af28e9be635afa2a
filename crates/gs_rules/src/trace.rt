//! What a peer did, entry by entry. docs/PROTOCOL.md says which entries may follow each other.
ghost use Rattle.std.specs.Prelude.{◌≡◌, ◌<◌, ◌^◌, [], ◌∷◌, length, true, OnOk, OnErr};
ghost use Rattle.gs_rules.specs.Rule.{no_effects};

use crate::event::Event;
use crate::stored::StoredEntry;
use bytes::Bytes;
use gs_base::{Mark, Millis, MsgId, PeerNo, Rpc, Seq, Shared, Topic};
use std::alloc::{AllocError, Global};
use std::marker::Model;

/// What a neighbour promised by its offer: one of the messages that it was asked for (gossipsub v1.1, "Spam
/// Protection Measures").
#[derive(Clone, Copy, Debug, PartialEq, Eq)]
pub struct Promise {
    /// The neighbour that made the offer.
    pub from: PeerNo,
    /// The identifier that is watched, one of those that were asked for.
    pub id: MsgId,
    /// The moment from which the message is overdue: `iwant_followup_ms` after it was asked for.
    pub until: Millis,
}

/// What a peer did about an event.
#[derive(Debug, Drop, PartialEq, Eq)]
pub struct Effects {
    /// The RPCs that were sent, each with its receiver, in order. All receivers of an RPC share it.
    pub sends: Seq<(PeerNo, Shared<Rpc>)>,
    /// The topics and payloads of what was delivered to the peer's own user.
    pub delivered: Seq<(Topic, Bytes)>,
    /// What a neighbour promised, where it was asked for something.
    pub promise: Option<Shared<Promise>>,
    /// The facts to remember.
    pub marks: Seq<Mark>,
}

impl Effects {
    /// Returns effects that do nothing. It takes no memory.
    pub fn none(alloc: Global) -> Effects
        ensures { result ≡ no_effects }
    {
        Effects {
            sends: Seq::new(alloc),
            delivered: Seq::new(alloc),
            promise: None,
            marks: Seq::new(alloc),
        }
    }

    /// Says whether nothing was done.
    pub fn are_none(&self) -> bool
        ensures none { result ≡ true → self.now ≡ no_effects }
        ensures some { self.now ≡ no_effects → result ≡ true }
    {
        self.sends.is_empty()
            && self.delivered.is_empty()
            && self.promise.is_none()
            && self.marks.is_empty()
    }
}

/// One step of a peer: what happened, when, and what the peer did about it.
#[derive(Debug, Drop, PartialEq, Eq)]
pub struct Entry {
    /// The moment of the event.
    pub at: Millis,
    /// What happened.
    pub event: Event,
    /// What the peer did about it.
    pub effects: Effects,
}

/// What a peer did so far. Contracts see its entries with the newest first.
#[derive(Debug, Drop)]
pub struct Trace {
    entries: Vec<StoredEntry>,
}

impl Model for Trace {
    ghost use Rattle.std.specs.Prelude.{List, reverse};
    ghost use Rattle.gs_rules.specs.declared.trace.Entry.{Entry as EntryValue};

    ghost Value = { List EntryValue };

    ghost view = { λ t. reverse t.entries.items };
}

impl Trace {
    ghost use Rattle.std.specs.Prelude.{reverse};
    ghost use Rattle.gs_rules.specs.Tables.{last_moment};

    /// Returns the trace of a peer that has done nothing. It takes no memory.
    pub fn new(alloc: Global) -> Trace
        ensures { result ≡ [] }
    {
        Trace {
            entries: Vec::new(alloc),
        }
    }

    /// Returns the entries, the oldest first.
    pub fn entries(&self) -> &[StoredEntry]
        ensures { reverse result.now ≡ self.now }
    {
        self.entries.as_slice()
    }

    /// Returns the moment of the newest entry, or 0 if there is none.
    pub fn last_moment(&self) -> Millis
        ensures { result.0 ≡ last_moment self.now }
    {
        match self.entries.last() {
            Some(entry) => entry.at(),
            None => Millis(0),
        }
    }

    /// Proves that a trace has fewer than 2^63 entries, since it is in memory.
    pub fn prove_length_fits(&self)
        ensures { length self.now < 2 ^ 63 }
    {
        let _count = self.entries.len();
    }

    /// Adds an entry as the newest.
    ///
    /// # Errors
    /// `AllocError` when out of memory; the trace is then as it was.
    pub fn push(&mut self, entry: Entry) -> Result<(), AllocError>
        ensures ok { OnOk result (self.new ≡ entry ∷ self.old) }
        ensures err { OnErr result (self.new ≡ self.old) }
    {
        let stored = StoredEntry::new(*self.entries.allocator(), entry)?;
        self.push_stored(stored)
    }

    /// Adds a stored entry as the newest.
    ///
    /// # Errors
    /// `AllocError` when out of memory; the trace is then as it was.
    // Routers call it from two places, and it moves an entry.
    #[inline(always)]
    pub fn push_stored(&mut self, entry: StoredEntry) -> Result<(), AllocError>
        ensures ok { OnOk result (self.new ≡ entry ∷ self.old) }
        ensures err { OnErr result (self.new ≡ self.old) }
    {
        self.entries.push(entry)?;
        Ok(())
    }
}
