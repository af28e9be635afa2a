ghost use Rattle.std.specs.Prelude.{◌≡◌, ◌<◌, length, true};
ghost use Rattle.std.specs.List.{IsDistinct, list_any};
ghost use Rattle.gs_base.specs.Names.{same_peer};
ghost use Rattle.gs_ends.specs.Pairs.{is_of, peers_in, position_in};

use gs_base::PeerNo;

/// Returns the place of a neighbour that stands in the list. It looks at one after the other.
pub(crate) fn position_of<T, U>(list: &[(PeerNo, T, U)], who: PeerNo) -> usize
    requires known { list_any (is_of who) list.now ≡ true }
    ensures within { result < length list.now }
    ensures first { result ≡ position_in list.now who }
{
    for i in 0..list.len() {
        if list[i].0.0 == who.0 {
            return i;
        }
    }
    unreachable!()
}

/// The same for a list in which no neighbour stands twice. It looks first from the place where one was found last, since a
/// peer goes through its neighbours in their order.
pub(crate) fn position_near<T, U>(list: &[(PeerNo, T, U)], last: usize, who: PeerNo) -> usize
    requires known { list_any (is_of who) list.now ≡ true }
    requires apart { IsDistinct same_peer (peers_in list.now) }
    ensures within { result < length list.now }
    ensures first { result ≡ position_in list.now who }
{
    for place in last..list.len() {
        if list[place].0.0 == who.0 {
            return place;
        }
    }
    position_of(list, who)
}
