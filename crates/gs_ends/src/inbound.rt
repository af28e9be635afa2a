//! A taking end that is a list in memory.
ghost use Rattle.std.specs.Prelude.{◌≡◌, false};
ghost use Rattle.std.specs.List.{All};
ghost use Rattle.gs_link.specs.Items.{IsSendable};
ghost use Rattle.gs_link.specs.Ends.{IfGot, take_found_empty};
ghost use Rattle.gs_ends.specs.Ends.{IsTaken};
ghost use Rattle.gs_ends.specs.Lists.{taken_of};

use gs_link::{Item, Taken};
use std::collections::VecDeque;
use std::marker::Model;
use std::snapshot::Snapshot;

/// What comes from a neighbour. Only proofs know which items those were at first.
#[derive(Drop)]
pub(crate) struct Inbound {
    left: VecDeque<Item>,
    all: Snapshot<Vec<Item>>,
    next: usize,
    closed: bool,
}

impl Model for Inbound {
    ghost use Rattle.gs_ends.specs.Lists.{Incoming, IsRest, slots_taken};

    ghost Value = { Incoming };

    ghost view = { λ s. record { given = s.all.value.items; count = slots_taken s.next s.closed } };

    ghost invariant = { λ s. IsRest s.next s.closed s.all.value.items s.left.items };
}

impl Inbound {
    /// Creates an end from which these items come, in this order.
    pub(crate) fn new(items: Vec<Item>) -> Inbound
        requires size { All IsSendable items.items }
        ensures { result ≡ record { given = items.items; count = 0 } }
    {
        let all = Snapshot::of(&items);
        // Its length is below 2^64, and so is what was taken of it.
        let _count = items.len();
        Inbound {
            left: VecDeque::from(items),
            all,
            next: 0,
            closed: false,
        }
    }

    /// Takes the first item of those that are left. After the last one it takes the close, and answers `Closed` to each later
    /// call.
    pub(crate) fn take(&mut self) -> Taken
        ensures given { self.new.given ≡ self.old.given }
        ensures taken { IsTaken (taken_of self.old) (taken_of self.new) result }
        ensures size { IfGot result IsSendable }
        ensures comes { take_found_empty result ≡ false }
    {
        if self.closed {
            return Taken::Closed;
        }
        match self.left.pop_front() {
            Some(item) => {
                self.next += 1;
                Taken::Got(item)
            }
            None => {
                self.closed = true;
                Taken::Closed
            }
        }
    }
}
