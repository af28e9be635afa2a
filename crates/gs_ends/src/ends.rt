ghost use Rattle.std.specs.Prelude.{◌≡◌, IsTrue, List, None, true};
ghost use Rattle.gs_base.specs.declared.names.PeerNo.{PeerNo as PeerNoValue};
ghost use Rattle.gs_link.specs.declared.item.Slot.{Slot};
ghost use Rattle.gs_link.specs.Items.{IsSendable};
ghost use Rattle.gs_link.specs.Ends.{IfGot, take_found_empty};
ghost use Rattle.gs_ends.specs.Ends.{IsFinished, IsPut, IsTaken, Joint, OthersStay, comes_from, has};

use gs_base::PeerNo;
use gs_link::{CloseRefused, Item, SendRefused, Taken};

/// The ends of a peer's links: for each neighbour one that sends and one that takes. Contracts see which link each end belongs
/// to. For each neighbour they see the list of all that was accepted for it, and the list of all that was taken from it. Where
/// what comes from a neighbour is settled beforehand, they see that, too, and no call changes it. No call takes memory.
pub trait Ends: Drop {
    // Which neighbours there are, the links to and from each, and what comes from each, where that is settled beforehand.
    ghost joints: { Self → List Joint };

    // What was accepted for a neighbour.
    ghost accepted: { Self → PeerNoValue → List Slot };

    // What was taken from a neighbour.
    ghost taken: { Self → PeerNoValue → List Slot };

    /// Puts the item at the back of what goes to a neighbour.
    ///
    /// # Errors
    /// `Closed` if the end is closed, and `Full` if there is no room. Either hands the item back, and nothing is accepted.
    fn put(&mut self, to: PeerNo, item: Item) -> Result<(), SendRefused>
        requires known { has (joints self.old) to ≡ true }
        requires size { IsSendable item }
        ensures joints { joints self.new ≡ joints self.old }
        ensures accepted { IsPut (accepted self.old to) (accepted self.new to) item result }
        ensures others { OthersStay to (accepted self.old) (accepted self.new) }
        ensures taken { (q : PeerNoValue) → taken self.new q ≡ taken self.old q };

    /// Puts the close at the back of what goes to a neighbour. Nothing is accepted after it.
    ///
    /// # Errors
    /// `Closed` if the end is closed, and `Full` if there is no room. In either case nothing is accepted.
    fn finish(&mut self, to: PeerNo) -> Result<(), CloseRefused>
        requires known { has (joints self.old) to ≡ true }
        ensures joints { joints self.new ≡ joints self.old }
        ensures accepted { IsFinished (accepted self.old to) (accepted self.new to) result }
        ensures others { OthersStay to (accepted self.old) (accepted self.new) }
        ensures taken { (q : PeerNoValue) → taken self.new q ≡ taken self.old q };

    /// Takes the first slot from a neighbour that was not taken yet. It answers `Empty` if nothing waits, but never where what
    /// comes is settled beforehand. After the close it answers `Closed` again.
    fn take(&mut self, from: PeerNo) -> Taken
        requires known { has (joints self.old) from ≡ true }
        ensures joints { joints self.new ≡ joints self.old }
        ensures taken { IsTaken (taken self.old from) (taken self.new from) result }
        ensures others { OthersStay from (taken self.old) (taken self.new) }
        ensures accepted { (q : PeerNoValue) → accepted self.new q ≡ accepted self.old q }
        ensures size { IfGot result IsSendable }
        ensures settled { IsTrue (take_found_empty result) → comes_from (joints self.old) from ≡ None };
}
