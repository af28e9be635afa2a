//! What neighbours promised by their offers, and have not sent yet.
ghost use Rattle.std.specs.Prelude.{◌≡◌, ◌++◌, [], ◌∷◌, OnOk, filter, nat_lt, not};
ghost use Rattle.std.specs.Option.{option_copied};
ghost use Rattle.gs_base.specs.Names.{same_id};
ghost use Rattle.gs_rules.specs.Tables.{Entries, ended_after, fulfilled_after, made, promises};
ghost use Rattle.gs_router.specs.Tables.{AgreesOnPromises};

use gs_base::{Mark, Millis, MsgId};
use gs_rules::{Event, Promise, StoredEntry};
use std::alloc::{AllocError, Global};

/// The promises that still wait for their messages, the oldest first. They are few: at most one for each offer of a
/// neighbour that may count, in each heartbeat until a promise is overdue.
#[derive(Drop)]
pub struct Promises {
    waiting: Vec<Promise>,
}

impl Promises {
    /// Returns a table without promises. It takes no memory.
    pub fn new(alloc: Global) -> Promises
        ensures { AgreesOnPromises result [] }
    {
        Promises {
            waiting: Vec::new(alloc),
        }
    }

    /// Returns what was promised and has not come yet.
    pub fn waiting(&self) -> &[Promise]
        ensures { (L : Entries) → AgreesOnPromises self.now L → result.now ≡ promises L }
    {
        self.waiting.as_slice()
    }

    /// Notes an entry. A heartbeat ends promises, then a message that is seen fulfils the promises of it, and then the entry
    /// may make one.
    ///
    /// # Errors
    /// `AllocError` if memory runs out. What the entry ended or fulfilled is then noted.
    pub fn note(&mut self, entry: &StoredEntry) -> Result<(), AllocError>
        ensures { OnOk result ((L : Entries)
            → AgreesOnPromises self.old L
            → AgreesOnPromises self.new (entry.now ∷ L)) }
    {
        self.end(entry.event(), entry.at());
        for mark in entry.marks() {
            self.fulfil(mark);
        }
        self.make(entry.promise())?;
        Ok(())
    }

    /// Ends the overdue promises, if a heartbeat begins.
    fn end(&mut self, event: &Event, at: Millis)
        ensures { self.new.waiting.items ≡ ended_after event.now at.0 self.old.waiting.items }
    {
        match event {
            Event::BeatBegin => self.keep_until_after(at),
            _ => {}
        }
    }

    fn fulfil(&mut self, mark: &Mark)
        ensures { self.new.waiting.items ≡ fulfilled_after mark.now self.old.waiting.items }
    {
        match mark {
            Mark::Seen(id, _) => self.keep_others(id),
            _ => {}
        }
    }

    /// Keeps the promises whose time comes after a moment.
    fn keep_until_after(&mut self, at: Millis)
        ensures { self.new.waiting.items ≡ filter (λ promise. nat_lt at.0 promise.until.0) self.old.waiting.items }
    {
        self.waiting.retain(|promise| at.0 < promise.until.0);
    }

    /// Keeps the promises of other messages.
    fn keep_others(&mut self, id: &MsgId)
        ensures { self.new.waiting.items
            ≡ filter (λ promise. not (same_id id.now promise.id)) self.old.waiting.items }
    {
        self.waiting.retain(|promise| *id != promise.id);
    }

    fn make(&mut self, promise: Option<&Promise>) -> Result<(), AllocError>
        ensures { OnOk result (self.new.waiting.items ≡ self.old.waiting.items ++ made (option_copied promise.entry)) }
    {
        match promise {
            Some(promise) => {
                self.waiting.push(*promise)?;
                Ok(())
            }
            None => Ok(()),
        }
    }
}
