ghost use Rattle.std.specs.Prelude.{◌≡◌, IsTrue, List};
ghost use Rattle.gs_link.specs.declared.item.Slot.{Slot as SlotValue};
ghost use Rattle.gs_link.specs.Runs.{closes, RunWithin};

use crate::receiver::LinkRx;
use crate::rule::JoinEnds;
use crate::sender::LinkTx;
use std::sync::Wait;

/// How a link ended.
#[derive(Clone, Copy, Debug, PartialEq, Eq)]
pub struct Settled {
    /// Whether the close was taken. If so, all that was sent was taken.
    pub whole: bool,
}

/// Joins the two ends of one link again, and says whether the close was taken, and so all that was sent. What still waits is
/// dropped.
pub fn settle<R: Wait>(rt: &R, tx: LinkTx, rx: LinkRx) -> Settled
    requires one { rx.link ≡ tx.link }
    ensures run { (waiting : List SlotValue) × RunWithin tx.capacity tx.accepted rx.taken waiting }
    ensures whole { result.whole ≡ closes rx.taken }
    ensures all { IsTrue result.whole → tx.accepted ≡ rx.taken }
{
    let LinkTx {
        queue,
        mut end,
        closed: _,
    } = tx;
    let LinkRx {
        queue: _,
        end: other,
        closed: whole,
    } = rx;
    queue.absorb::<JoinEnds>(&mut end, other);
    // The count of what waits shows that it is no more than the capacity.
    queue.len_as::<JoinEnds, R>(rt, &mut end);
    Settled { whole }
}
