//! The links of dials, and lists by peer.
use gs_base::PeerNo;
use gs_link::{Item, LinkRx, LinkTx, SendRefused};
use gs_net::wire_all;
use gs_plan::Dial;
use gs_seats::{empty_lists, own_of, put_last, take_last};
use std::alloc::{AllocError, Global};
use std::test::*;

/// Peer 0 dials peer 1, and peer 2 dials peer 0.
static TWO: [Dial; 2] = [
    Dial {
        from: PeerNo(0),
        to: PeerNo(1),
    },
    Dial {
        from: PeerNo(2),
        to: PeerNo(0),
    },
];

const OTHER: Dial = Dial {
    from: PeerNo(1),
    to: PeerNo(2),
};

#[test]
fn a_peer_has_the_dials_that_it_makes_and_those_to_it(rt: HostRuntime) -> Result<(), Fail> {
    let own = own_of(rt.alloc(), &[TWO[0], OTHER, TWO[1]], PeerNo(0))?;
    assert!(rt; own.as_slice() == TWO.as_slice());
    Ok(())
}

/// The neighbours of a list, in order.
fn neighbours(alloc: Global, list: &[(PeerNo, LinkTx, LinkRx)]) -> Result<Vec<PeerNo>, AllocError> {
    let mut all = Vec::new(alloc);
    for pair in list {
        all.push(pair.0)?;
    }
    Ok(all)
}

#[test]
fn each_peer_has_its_neighbours_in_the_order_of_the_dials(rt: HostRuntime) -> Result<(), Fail> {
    let lists = wire_all(rt.alloc(), 1, 3, &TWO)?;
    assert!(rt; lists.len() == 3);
    let of_zero = neighbours(rt.alloc(), lists[0].as_slice())?;
    assert!(rt; of_zero.as_slice() == [PeerNo(1), PeerNo(2)].as_slice());
    let of_one = neighbours(rt.alloc(), lists[1].as_slice())?;
    assert!(rt; of_one.as_slice() == [PeerNo(0)].as_slice());
    let of_two = neighbours(rt.alloc(), lists[2].as_slice())?;
    assert!(rt; of_two.as_slice() == [PeerNo(0)].as_slice());
    Ok(())
}

#[test]
fn a_link_holds_as_many_as_its_capacity(rt: HostRuntime) -> Result<(), Fail> {
    let mut lists = wire_all(rt.alloc(), 1, 3, &TWO)?;
    let Some((_, mut to_zero, _)) = take_last(&mut lists, PeerNo(1)) else {
        panic!(rt; "peer 1 has no ends");
    };
    assert!(rt; to_zero.send(&rt, Item::Round(1)).is_ok());
    assert!(rt; to_zero.send(&rt, Item::Round(2)) == Err(SendRefused::Full(Item::Round(2))));
    Ok(())
}

#[test]
fn a_value_stands_after_the_others_of_its_peer(rt: HostRuntime) -> Result<(), Fail> {
    let mut lists = empty_lists(rt.alloc(), 3)?;
    put_last(&mut lists, PeerNo(1), 7u8)?;
    put_last(&mut lists, PeerNo(2), 8)?;
    put_last(&mut lists, PeerNo(1), 9)?;
    assert!(rt; lists.len() == 3);
    assert!(rt; lists[0].is_empty());
    assert!(rt; lists[1].as_slice() == [7, 9].as_slice());
    assert!(rt; lists[2].as_slice() == [8].as_slice());
    Ok(())
}
