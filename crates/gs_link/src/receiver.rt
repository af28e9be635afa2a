ghost use Rattle.std.specs.Prelude.{◌≡◌, ◌++◌, ◌∷◌, [], IsTrue};
ghost use Rattle.gs_link.specs.Items.{IsSendable, slot_of};
ghost use Rattle.gs_link.specs.Runs.{closes};
ghost use Rattle.gs_link.specs.Ends.{IfGot, take_found_empty, take_found_closed, with_close};

use crate::item::{Item, Slot};
use crate::rule::{End, Pop, Queue};
use std::alloc::Global;
use std::marker::Model;
use std::sync::{Arc, Wait};

/// What a taking end found.
#[derive(Debug, PartialEq, Eq, Drop)]
pub enum Taken {
    /// The item that waited longest.
    Got(Item),
    /// Nothing waits now, but more may come.
    Empty,
    /// The close was taken: nothing more comes.
    Closed,
}

/// The taking end of a link. A contract sees its link, the link's capacity and the list of all slots that were taken. That list
/// exists only in proofs.
#[derive(Drop)]
pub struct LinkRx {
    pub(crate) queue: Arc<Queue, Global>,
    pub(crate) end: End,
    pub(crate) closed: bool,
}

impl Model for LinkRx {
    ghost use Rattle.std.specs.Arc.{arc_value};
    ghost use Rattle.crossbeam_queue.specs.Passes.{view as known, IsPassOf, ruled_capacity};
    ghost use Rattle.gs_link.specs.Ends.{TakingEnd};
    ghost use Rattle.gs_link.specs.Fields.{taking_end, Takes};

    ghost Value = { TakingEnd };

    ghost view = { λ s. taking_end (ruled_capacity (arc_value s.queue)) s.end };

    ghost invariant = { λ s. IsPassOf (arc_value s.queue) s.end × Takes (known s.end) s.closed };
}

impl LinkRx {
    /// Takes what waits at the front, in one step. It takes no memory.
    ///
    /// It answers `Empty` if one step found that nothing waits. It answers `Closed` if it takes the close now, or if the close
    /// was taken before. In the latter case it makes no step.
    pub fn take<R: Wait>(&mut self, rt: &R) -> Taken
        ensures link { self.new.link ≡ self.old.link }
        ensures capacity { self.new.capacity ≡ self.old.capacity }
        ensures got { IfGot result (λ item. self.new.taken ≡ self.old.taken ++ slot_of item ∷ []) }
        ensures size { IfGot result IsSendable }
        ensures empty { IsTrue (take_found_empty result) → self.new.taken ≡ self.old.taken }
        ensures close { IsTrue (take_found_closed result) → self.new.taken ≡ with_close self.old.taken }
        ensures closed { take_found_closed result ≡ closes self.new.taken }
    {
        if self.closed {
            return Taken::Closed;
        }
        let queue: &Queue = &self.queue;
        match queue.pop_as::<Pop, R>(rt, &mut self.end) {
            Some(Slot::Piece(bytes)) => Taken::Got(Item::Piece(bytes)),
            Some(Slot::Round(round)) => Taken::Got(Item::Round(round)),
            Some(Slot::Close) => {
                self.closed = true;
                Taken::Closed
            }
            None => Taken::Empty,
        }
    }
}
