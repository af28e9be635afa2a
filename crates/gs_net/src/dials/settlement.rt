ghost use Rattle.std.specs.Prelude.{◌≡◌, ◌*◌, ◌<◌, ◌^◌, length, true};
ghost use Rattle.std.specs.List.{All, AllByRecursion, IsDistinct};
ghost use Rattle.gs_base.specs.Names.{same_peer};
ghost use Rattle.gs_base.specs.declared.names.PeerNo.{PeerNo as PeerNoValue};
ghost use Rattle.gs_link.specs.Runs.{closes};
ghost use Rattle.gs_ends.specs.Pairs.{peers_in};
ghost use Rattle.gs_seats.specs.ListsByPeer.{list_at};
ghost use Rattle.gs_net.specs.Dials.{AreWired, AtEach, IsClosed, IsExchanged, JoinsTwoOf};

use gs_base::PeerNo;
use gs_link::{LinkRx, LinkTx, settle};
use gs_plan::Dial;
use gs_seats::take_last;
use std::sync::Wait;

/// Settles the links of all dials, and returns how many of them are whole. That is all of them, since each taking end has taken
/// the close. The ends of each peer must stand in the order of the dials.
pub fn settle_all<R: Wait>(rt: &R, dials: &[Dial], lists: Vec<Vec<(PeerNo, LinkTx, LinkRx)>>) -> u64
    requires few { 2 * length dials.now < 2 ^ 64 }
    requires named { All (JoinsTwoOf (length lists.items)) dials.now }
    requires wired { AreWired dials.now lists.items }
    requires apart { (p : PeerNoValue) → IsDistinct same_peer (peers_in (list_at lists.items p.0)) }
    requires closed { AtEach IsClosed lists.items }
    ensures exchanged { AllByRecursion (IsExchanged lists.items) dials.now }
    ensures settled { result ≡ 2 * length dials.now }
{
    let mut left = dials;
    let mut lists = lists;
    let mut settled = 0;
    // From the last dial back, each peer's ends are a stack. What a dial gave stands last, so no end is searched for.
    while let Some((dial, rest)) = left.split_last() {
        let Some(one) = take_last(&mut lists, dial.from) else {
            unreachable!()
        };
        let Some(other) = take_last(&mut lists, dial.to) else {
            unreachable!()
        };
        settled += settle_dial(rt, one, other);
        left = rest;
    }
    settled
}

/// Settles both links of a dial, by the ends of its two peers, and counts those that are whole.
fn settle_dial<R: Wait>(
    rt: &R,
    one: (PeerNo, LinkTx, LinkRx),
    other: (PeerNo, LinkTx, LinkRx),
) -> u64
    requires there { other.2.link ≡ one.1.link }
    requires back { one.2.link ≡ other.1.link }
    requires closed_there { closes other.2.taken ≡ true }
    requires closed_back { closes one.2.taken ≡ true }
    ensures there { one.1.accepted ≡ other.2.taken }
    ensures back { other.1.accepted ≡ one.2.taken }
    ensures both { result ≡ 2 }
{
    let (_, there, from_back) = one;
    let (_, back, from_there) = other;
    let first = settle(rt, there, from_there);
    let second = settle(rt, back, from_back);
    u64::from(first.whole) + u64::from(second.whole)
}
