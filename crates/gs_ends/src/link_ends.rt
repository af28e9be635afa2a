ghost use Rattle.std.specs.Prelude.{◌≡◌, IsTrue, None};
ghost use Rattle.std.specs.List.{IsDistinct};
ghost use Rattle.gs_base.specs.Names.{same_peer};
ghost use Rattle.gs_base.specs.declared.names.PeerNo.{PeerNo as PeerNoValue};
ghost use Rattle.gs_link.specs.declared.item.Slot.{Slot};
ghost use Rattle.gs_link.specs.Ends.{take_found_empty};
ghost use Rattle.gs_ends.specs.Ends.{IsFinished, IsPut, IsTaken, Joint, OthersStay, comes_from, has};
ghost use Rattle.gs_ends.specs.Pairs.{accepted_for, joints_of, peers_in, taken_from};

use crate::ends::Ends;
use crate::position::position_near;
use gs_base::PeerNo;
use gs_link::{CloseRefused, Item, LinkRx, LinkTx, SendRefused, Taken};
use std::marker::Model;
use std::sync::Wait;

/// The ends of links, by neighbour. Contracts see the list of the neighbours, each with the end that sends to it and the end
/// that takes from it. A search for a neighbour begins at the place where one was found last.
#[derive(Drop)]
pub struct LinkEnds<R: Wait + Drop> {
    rt: R,
    list: Vec<(PeerNo, LinkTx, LinkRx)>,
    /// The place where a neighbour was found last.
    last: usize,
}

impl<R: Wait + Drop> Model for LinkEnds<R> {
    ghost use Rattle.std.specs.Prelude.{List};
    ghost use Rattle.std.specs.List.{IsDistinct};
    ghost use Rattle.gs_base.specs.Names.{same_peer};
    ghost use Rattle.gs_ends.specs.Pairs.{Pair, peers_in};

    ghost Value = { List Pair };

    ghost view = { λ s. s.list.items };

    ghost invariant = { λ s. IsDistinct same_peer (peers_in s.list.items) };
}

impl<R: Wait + Drop> LinkEnds<R> {
    /// Creates ends from this list, in which no neighbour may stand twice. The links wait through `rt`.
    pub fn new(rt: R, list: Vec<(PeerNo, LinkTx, LinkRx)>) -> LinkEnds<R>
        requires apart { IsDistinct same_peer (peers_in list.items) }
        ensures ends { result ≡ list.items }
    {
        LinkEnds { rt, list, last: 0 }
    }

    /// Returns the ends, in the order in which they were given to `new`.
    pub fn into_list(self) -> Vec<(PeerNo, LinkTx, LinkRx)>
        ensures ends { result.items ≡ self }
    {
        let LinkEnds { list, .. } = self;
        list
    }
}

impl<R: Wait + Drop> Ends for LinkEnds<R> {
    ghost joints = { λ s. joints_of s };

    ghost accepted = { λ s q. accepted_for s q };

    ghost taken = { λ s q. taken_from s q };

    // Each item goes through here. Inlining saves one move of it.
    #[inline(always)]
    fn put(&mut self, to: PeerNo, item: Item) -> Result<(), SendRefused> {
        let place = position_near(self.list.as_slice(), self.last, to);
        self.last = place;
        let pair = &mut self.list[place];
        pair.1.send(&self.rt, item)
    }

    fn finish(&mut self, to: PeerNo) -> Result<(), CloseRefused> {
        let place = position_near(self.list.as_slice(), self.last, to);
        self.last = place;
        let pair = &mut self.list[place];
        pair.1.close(&self.rt)
    }

    fn take(&mut self, from: PeerNo) -> Taken {
        let place = position_near(self.list.as_slice(), self.last, from);
        self.last = place;
        let pair = &mut self.list[place];
        pair.2.take(&self.rt)
    }
}
