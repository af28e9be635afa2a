//! Tables of peers, meshes, addresses and standings, by calls that no program makes.
use bytes::Bytes;
use gs_base::{Millis, Neighbour, PeerNo, Topic};
use gs_mesh::{Meshes, PeerList};
use gs_plan::{Dial, are_joined};
use gs_score::{Addresses, TopicStandings};
use std::alloc::{AllocError, Global};

#[test]
fn peers_that_are_taken_stand_in_the_order_of_their_numbers(
    rt: HostRuntime,
) -> Result<(), AllocError> {
    let mut list = PeerList::new(rt.alloc());
    for number in [7u16, 65_535, 3, 7, 8] {
        list.insert(PeerNo(number))?;
    }
    assert!(rt; list.remove(PeerNo(8)));
    let taken = list.take();
    assert_eq!(rt;
        taken.as_slice(),
        [PeerNo(3), PeerNo(7), PeerNo(65_535)].as_slice()
    );
    assert!(rt; list.as_slice().is_empty());
    Ok(())
}

/// Joins a topic, and grafts peers 5 and 2 on it.
fn graft_two(meshes: &mut Meshes, topic: &Topic) -> Result<(), AllocError> {
    meshes.join(topic)?;
    meshes.graft(PeerNo(5), topic)?;
    meshes.graft(PeerNo(2), topic)
}

/// Who was in the mesh that a peer left, and who is then.
fn left_mesh(alloc: Global) -> Result<(Vec<PeerNo>, usize), AllocError> {
    let topic = Topic(Bytes::from_static(b"news"));
    let mut meshes = Meshes::new(alloc);
    let grafted = graft_two(&mut meshes, &topic);
    let members = meshes.leave(&topic);
    let left = meshes.leave(&topic).len();
    drop(meshes);
    drop(topic);
    grafted?;
    Ok((members, left))
}

#[test]
fn who_leaves_a_topic_ends_its_mesh(rt: HostRuntime) -> Result<(), AllocError> {
    let (members, left) = left_mesh(rt.alloc())?;
    assert_eq!(rt; members.as_slice(), [PeerNo(2), PeerNo(5)].as_slice());
    assert_eq!(rt; left, 0);
    Ok(())
}

fn neighbour(peer: u16, address: &'static [u8], app: i128) -> Neighbour {
    Neighbour {
        app,
        ..Neighbour::new(PeerNo(peer), Bytes::from_static(address))
    }
}

/// Three neighbours, two of them at one address.
fn addresses(alloc: Global) -> Result<Addresses, AllocError> {
    let neighbours = [
        neighbour(1, b"x", 0),
        neighbour(2, b"x", 5),
        neighbour(4, b"y", -7),
    ];
    let addresses = Addresses::new(alloc, &neighbours);
    drop(neighbours);
    addresses
}

/// The scores that the application gives peers 2, 4 and 9, and how many neighbours count with 1 and 4. Peer 9 is no
/// neighbour.
type Told = ([i128; 3], [u64; 2]);

fn told(addresses: &Addresses) -> Told {
    (
        [
            addresses.app(PeerNo(2)),
            addresses.app(PeerNo(4)),
            addresses.app(PeerNo(9)),
        ],
        [
            addresses.number_with(PeerNo(1)),
            addresses.number_with(PeerNo(4)),
        ],
    )
}

/// The scores and numbers before neighbour 2 is shut out, and after it was shut out twice. Peer 9 is shut out, too.
fn told_twice(alloc: Global) -> Result<(Told, Told), AllocError> {
    let mut addresses = addresses(alloc)?;
    let before = told(&addresses);
    addresses.shut_out(PeerNo(2));
    addresses.shut_out(PeerNo(2));
    addresses.shut_out(PeerNo(9));
    let after = told(&addresses);
    drop(addresses);
    Ok((before, after))
}

#[test]
fn neighbours_count_at_their_addresses_until_they_are_shut_out(
    rt: HostRuntime,
) -> Result<(), AllocError> {
    let (before, after) = told_twice(rt.alloc())?;
    assert_eq!(rt; before, ([5, -7, 0], [2, 1]));
    assert_eq!(rt; after.1, [1, 1]);
    Ok(())
}

/// Grafts a neighbour on a topic of this name.
fn graft(standings: &mut TopicStandings, name: &'static [u8], at: u64) -> Result<(), AllocError> {
    standings.graft(&Topic(Bytes::from_static(name)), Millis(at))
}

/// Grafts it on topics `a` and `b`, and on `a` again.
fn graft_thrice(standings: &mut TopicStandings) -> Result<(), AllocError> {
    graft(standings, b"a", 1)?;
    graft(standings, b"b", 1)?;
    graft(standings, b"a", 2)
}

/// On how many topics a neighbour then has something.
fn topics_with_something(alloc: Global) -> Result<usize, AllocError> {
    let mut standings = TopicStandings::new(alloc);
    let grafted = graft_thrice(&mut standings);
    let count = standings.len();
    drop(standings);
    grafted?;
    Ok(count)
}

#[test]
fn a_neighbour_stands_on_each_topic_once(rt: HostRuntime) -> Result<(), AllocError> {
    assert_eq!(rt; topics_with_something(rt.alloc())?, 2);
    Ok(())
}

#[test]
fn a_dial_joins_two_peers_both_ways(rt: HostRuntime) {
    let dials = [Dial {
        from: PeerNo(3),
        to: PeerNo(1),
    }];
    assert!(rt; are_joined(&dials, PeerNo(1), PeerNo(3)));
    assert!(rt; are_joined(&dials, PeerNo(3), PeerNo(1)));
    assert!(rt; !are_joined(&dials, PeerNo(3), PeerNo(2)));
}
