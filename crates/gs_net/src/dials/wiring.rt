ghost use Rattle.std.specs.Prelude.{◌≡◌, IfOk, OnOk, length};
ghost use Rattle.std.specs.List.{All};
ghost use Rattle.gs_link.specs.Items.{IsCapacity};
ghost use Rattle.gs_net.specs.Dials.{AreWired, AtEach, HasCapacity, IsFresh, IsWiredOn, JoinsTwoOf};

use gs_base::PeerNo;
use gs_link::{LinkRx, LinkTx, open_link};
use gs_plan::Dial;
use gs_seats::{empty_lists, put_last};
use std::alloc::{AllocError, Global};

/// Opens two links for each dial, one in each direction, and returns the ends of each peer in the order of the dials. Each
/// element is a neighbour, the end that sends to it and the end that takes from it. In each link up to `capacity` slots wait,
/// 1 to 1,024. Each dial must join two different peers with numbers below `peers`.
///
/// # Errors
/// `AllocError` if memory runs out.
pub fn wire_all(
    alloc: Global,
    capacity: usize,
    peers: usize,
    dials: &[Dial],
) -> Result<Vec<Vec<(PeerNo, LinkTx, LinkRx)>>, AllocError>
    requires capacity { IsCapacity capacity }
    requires named { All (JoinsTwoOf peers) dials.now }
    ensures count { IfOk result (λ lists. length lists.items ≡ peers) }
    ensures wired { IfOk result (λ lists. AreWired dials.now lists.items) }
    ensures sized { IfOk result (λ lists. AtEach (HasCapacity capacity) lists.items) }
    ensures fresh { IfOk result (λ lists. AtEach IsFresh lists.items) }
{
    let mut lists = empty_lists(alloc, peers)?;
    for dial in dials {
        wire_dial(alloc, capacity, &mut lists, *dial)?;
    }
    Ok(lists)
}

fn wire_dial(
    alloc: Global,
    capacity: usize,
    lists: &mut Vec<Vec<(PeerNo, LinkTx, LinkRx)>>,
    dial: Dial,
) -> Result<(), AllocError>
    requires capacity { IsCapacity capacity }
    requires named { JoinsTwoOf (length lists.old.items) dial }
    ensures count { length lists.new.items ≡ length lists.old.items }
    ensures wired { OnOk result (IsWiredOn capacity dial lists.old.items lists.new.items) }
{
    let Ok((there, from_there)) = open_link(alloc, capacity) else {
        return Err(AllocError);
    };
    let Ok((back, from_back)) = open_link(alloc, capacity) else {
        return Err(AllocError);
    };
    put_last(lists, dial.from, (dial.to, there, from_back))?;
    put_last(lists, dial.to, (dial.from, back, from_there))?;
    Ok(())
}
