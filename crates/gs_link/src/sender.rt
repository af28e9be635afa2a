ghost use Rattle.std.specs.Prelude.{◌≡◌, ◌++◌, ◌∷◌, [], OnOk, OnErr, IfErr, IsTrue};
ghost use Rattle.gs_link.specs.declared.item.Slot.TheVariants.{Close};
ghost use Rattle.gs_link.specs.Items.{IsSendable, slot_of};
ghost use Rattle.gs_link.specs.Runs.{closes};
ghost use Rattle.gs_link.specs.Ends.{FoundFull, handed_back, send_found_full, send_found_closed};
ghost use Rattle.gs_link.specs.Ends.{close_found_full, close_found_closed};

use crate::fault::{CloseRefused, SendRefused};
use crate::item::{Item, Slot};
use crate::rule::{End, Push, Queue};
use std::alloc::Global;
use std::marker::Model;
use std::sync::{Arc, Wait};

/// The sending end of a link. A contract sees its link, the link's capacity and the list of all slots that it accepted. That
/// list exists only in proofs.
#[derive(Drop)]
pub struct LinkTx {
    pub(crate) queue: Arc<Queue, Global>,
    pub(crate) end: End,
    pub(crate) closed: bool,
}

impl Model for LinkTx {
    ghost use Rattle.std.specs.Arc.{arc_value};
    ghost use Rattle.crossbeam_queue.specs.Passes.{view as known, IsPassOf, ruled_capacity};
    ghost use Rattle.gs_link.specs.Ends.{SendingEnd};
    ghost use Rattle.gs_link.specs.Fields.{sending_end, Sends};

    ghost Value = { SendingEnd };

    ghost view = { λ s. sending_end (ruled_capacity (arc_value s.queue)) s.end };

    ghost invariant = { λ s. IsPassOf (arc_value s.queue) s.end × Sends (known s.end) s.closed };
}

impl LinkTx {
    /// Puts the item at the back of what waits, in one step. It takes no memory.
    ///
    /// # Errors
    /// `Closed` if this end has closed; then it makes no step. `Full` if one step found the link full. Either hands the item
    /// back and changes nothing.
    pub fn send<R: Wait>(&mut self, rt: &R, item: Item) -> Result<(), SendRefused>
        requires size { IsSendable item }
        ensures link { self.new.link ≡ self.old.link }
        ensures capacity { self.new.capacity ≡ self.old.capacity }
        ensures sent { OnOk result (self.new.accepted ≡ self.old.accepted ++ slot_of item ∷ []) }
        ensures kept { OnErr result (self.new.accepted ≡ self.old.accepted) }
        ensures back { IfErr result (λ refused. handed_back refused ≡ item) }
        ensures full { IsTrue (send_found_full result) → FoundFull self.old }
        ensures closed { send_found_closed result ≡ closes self.old.accepted }
    {
        if self.closed {
            return Err(SendRefused::Closed(item));
        }
        let queue: &Queue = &self.queue;
        match queue.push_as::<Push, R>(rt, &mut self.end, Slot::of(item)) {
            Ok(()) => Ok(()),
            Err(Slot::Piece(bytes)) => Err(SendRefused::Full(Item::Piece(bytes))),
            Err(Slot::Round(round)) => Err(SendRefused::Full(Item::Round(round))),
            Err(Slot::Close) => unreachable!(),
        }
    }

    /// Puts the close at the back of what waits, in one step. The close takes one place of the link, and nothing is accepted
    /// after it. The call takes no memory.
    ///
    /// # Errors
    /// `Closed` if this end has closed before; then it makes no step. `Full` if one step found the link full. Either changes
    /// nothing.
    pub fn close<R: Wait>(&mut self, rt: &R) -> Result<(), CloseRefused>
        ensures link { self.new.link ≡ self.old.link }
        ensures capacity { self.new.capacity ≡ self.old.capacity }
        ensures sent { OnOk result (self.new.accepted ≡ self.old.accepted ++ Close ∷ []) }
        ensures kept { OnErr result (self.new.accepted ≡ self.old.accepted) }
        ensures full { IsTrue (close_found_full result) → FoundFull self.old }
        ensures closed { close_found_closed result ≡ closes self.old.accepted }
    {
        if self.closed {
            return Err(CloseRefused::Closed);
        }
        let queue: &Queue = &self.queue;
        match queue.push_as::<Push, R>(rt, &mut self.end, Slot::Close) {
            Ok(()) => {
                self.closed = true;
                Ok(())
            }
            Err(_) => Err(CloseRefused::Full),
        }
    }
}
