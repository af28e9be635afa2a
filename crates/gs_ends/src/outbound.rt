//! A sending end that is a list in memory.
ghost use Rattle.std.specs.Prelude.{◌≡◌, [], false, IfOk};
ghost use Rattle.gs_link.specs.Runs.{closes};
ghost use Rattle.gs_ends.specs.Ends.{IsFinished, IsPut};
ghost use Rattle.gs_link.specs.Ends.{close_found_full, send_found_full};
ghost use Rattle.gs_ends.specs.Lists.{as_slots, listed_sender, refuses};

use gs_link::{CloseRefused, Item, SendRefused};
use std::alloc::{AllocError, Global};
use std::marker::Model;

/// What was accepted for a neighbour. The memory for all of it is taken at `new`.
#[derive(Drop)]
pub(crate) struct Outbound {
    items: Vec<Item>,
    room: usize,
    closed: bool,
}

impl Model for Outbound {
    ghost use Rattle.std.specs.Prelude.{◌≤◌};
    ghost use Rattle.std.specs.Vec.{vec_capacity};
    ghost use Rattle.gs_link.specs.Ends.{SendingEnd};
    ghost use Rattle.gs_ends.specs.Lists.{listed_sender};

    ghost Value = { SendingEnd };

    ghost view = { λ s. listed_sender s.room s.items.items s.closed };

    ghost invariant = { λ s. s.room ≤ vec_capacity s.items };
}

impl Outbound {
    /// Creates an end that accepts `room` slots.
    pub(crate) fn new(alloc: Global, room: usize) -> Result<Outbound, AllocError>
        ensures { IfOk result (λ end. end ≡ listed_sender room [] false) }
    {
        let items = Vec::with_capacity(alloc, room)?;
        Ok(Outbound {
            items,
            room,
            closed: false,
        })
    }

    /// Puts the item at the back, if there is room and `refused` is not set.
    #[tactic(auto, using(crate::proofs::SlotLists::closes_as_slots, crate::proofs::SlotLists::as_slots_snoc, crate::proofs::SlotLists::length_as_slots))]
    pub(crate) fn put(&mut self, item: Item, refused: bool) -> Result<(), SendRefused>
        ensures link { self.new.link ≡ self.old.link }
        ensures capacity { self.new.capacity ≡ self.old.capacity }
        ensures put { IsPut self.old.accepted self.new.accepted item result }
        ensures full { send_found_full result ≡ refuses self.old refused }
    {
        if self.closed {
            return Err(SendRefused::Closed(item));
        }
        if refused || self.items.len() >= self.room {
            return Err(SendRefused::Full(item));
        }
        match self.items.push(item) {
            Ok(()) => Ok(()),
            Err(_) => unreachable!(),
        }
    }

    /// Puts the close at the back, if there is room and `refused` is not set.
    #[tactic(auto, using(crate::proofs::SlotLists::closes_as_slots, crate::proofs::SlotLists::as_slots_close, crate::proofs::SlotLists::length_as_slots))]
    pub(crate) fn finish(&mut self, refused: bool) -> Result<(), CloseRefused>
        ensures link { self.new.link ≡ self.old.link }
        ensures capacity { self.new.capacity ≡ self.old.capacity }
        ensures finished { IsFinished self.old.accepted self.new.accepted result }
        ensures full { close_found_full result ≡ refuses self.old refused }
    {
        if self.closed {
            return Err(CloseRefused::Closed);
        }
        if refused || self.items.len() >= self.room {
            return Err(CloseRefused::Full);
        }
        self.closed = true;
        Ok(())
    }

    /// Whether the close was accepted.
    #[tactic(auto, using(crate::proofs::SlotLists::closes_as_slots))]
    pub(crate) fn is_closed(&self) -> bool
        ensures { result ≡ closes self.now.accepted }
    {
        self.closed
    }

    /// The accepted items, without the close.
    #[tactic(auto, using(crate::proofs::SlotLists::closes_as_slots))]
    pub(crate) fn items(&self) -> &[Item]
        ensures { as_slots result.now (closes self.now.accepted) ≡ self.now.accepted }
    {
        self.items.as_slice()
    }
}
