//! Entries as a trace stores them.
ghost use Rattle.std.specs.Prelude.{◌≡◌, [], IfOk};
ghost use Rattle.std.specs.Option.{option_copied};
ghost use Rattle.gs_rules.specs.Rule.{no_effects};

use crate::event::Event;
use crate::trace::{Effects, Entry, Promise};
use bytes::Bytes;
use gs_base::{Mark, Millis, PeerNo, Rpc, Shared, Topic};
use std::alloc::{AllocError, Global};
use std::marker::Model;

/// An entry as a trace stores it. Its effects are stored outside it, since most events have none: they are messages that
/// the peer has seen. Contracts see the entry.
#[derive(Debug, Drop)]
pub struct StoredEntry {
    at: Millis,
    event: Event,
    effects: Option<Shared<Effects>>,
}

impl Model for StoredEntry {
    ghost use Rattle.gs_rules.specs.declared.trace.Entry.{Entry as EntryValue};
    ghost use Rattle.gs_rules.specs.Stored.{entry_of};

    ghost Value = { EntryValue };

    ghost view = { λ k. entry_of k.at k.event k.effects };
}

impl StoredEntry {
    /// Returns the stored form of an entry.
    ///
    /// # Errors
    /// `AllocError` when out of memory for the effects.
    pub fn new(alloc: Global, entry: Entry) -> Result<StoredEntry, AllocError>
        ensures { IfOk result (λ stored. stored ≡ entry) }
    {
        let Entry { at, event, effects } = entry;
        if effects.are_none() {
            return Ok(StoredEntry {
                at,
                event,
                effects: None,
            });
        }
        let effects = Shared::new(alloc, effects)?;
        Ok(StoredEntry {
            at,
            event,
            effects: Some(effects),
        })
    }

    /// Returns the moment of the event.
    pub fn at(&self) -> Millis
        ensures { result ≡ self.now.at }
    {
        self.at
    }

    /// Returns what happened.
    pub fn event(&self) -> &Event
        ensures { result.now ≡ self.now.event }
    {
        &self.event
    }

    /// Returns the RPCs that were sent, each with its receiver, in order.
    pub fn sends(&self) -> &[(PeerNo, Shared<Rpc>)]
        ensures { result.now ≡ self.now.effects.sends }
    {
        match &self.effects {
            Some(effects) => effects.get().sends.as_slice(),
            None => &[],
        }
    }

    /// Returns the topics and payloads of what was delivered to the peer's own user.
    pub fn delivered(&self) -> &[(Topic, Bytes)]
        ensures { result.now ≡ self.now.effects.delivered }
    {
        match &self.effects {
            Some(effects) => effects.get().delivered.as_slice(),
            None => &[],
        }
    }

    /// Returns what a neighbour promised, if it was asked for something.
    pub fn promise(&self) -> Option<&Promise>
        ensures { option_copied result ≡ self.now.effects.promise }
    {
        match &self.effects {
            Some(effects) => match &effects.get().promise {
                Some(promise) => Some(promise.get()),
                None => None,
            },
            None => None,
        }
    }

    /// Returns the facts to remember.
    pub fn marks(&self) -> &[Mark]
        ensures { result.now ≡ self.now.effects.marks }
    {
        match &self.effects {
            Some(effects) => effects.get().marks.as_slice(),
            None => &[],
        }
    }
}
