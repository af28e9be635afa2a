//! How neighbours stand: what concerns no neighbour, and parameters that no scenario has.
ghost use Rattle.std.specs.Prelude.{IfOk};
ghost use Rattle.gs_params.specs.Params.{AreInRange};

use bytes::Bytes;
use gs_base::{Mark, Millis, MsgId, Neighbour, PeerNo, Topic};
use gs_params::{Params, TopicParams};
use gs_score::{Kind, Rulebook, Scores};
use std::alloc::{AllocError, Global};

fn topic(name: &'static [u8]) -> Topic {
    Topic(Bytes::from_static(name))
}

fn add_topics(
    alloc: Global,
    params: &mut Params,
    rows: &[(&'static [u8], i64)],
) -> Result<(), AllocError> {
    for (name, weight) in rows {
        let mut one = TopicParams::new(alloc);
        one.factors.w4 = *weight;
        params.topics.push((topic(*name), one))?;
    }
    Ok(())
}

/// Parameters of topics, each with a weight of invalid messages.
fn params(alloc: Global, rows: &[(&'static [u8], i64)]) -> Result<Params, AllocError>
    ensures { IfOk result AreInRange }
{
    let mut params = Params::new(alloc);
    add_topics(alloc, &mut params, rows)?;
    match params.check() {
        Ok(params) => Ok(params),
        Err(_) => Err(AllocError),
    }
}

/// The scores of neighbour 1.
fn scores(alloc: Global) -> Result<Scores, AllocError> {
    let params = params(alloc, &[(b"t", -1_000_000)])?;
    let neighbours = [Neighbour::new(PeerNo(1), Bytes::from_static(b"x"))];
    let scores = Scores::new(alloc, &params, &neighbours);
    drop(params);
    drop(neighbours);
    scores
}

/// On how many topics anything is known about a peer.
fn topic_count(alloc: Global, scores: &Scores, peer: PeerNo) -> Result<usize, AllocError> {
    Ok(scores.topics(alloc, peer)?.len())
}

/// Whether a peer has no score, nothing kept, and no topic.
fn has_nothing(alloc: Global, scores: &Scores, peer: PeerNo) -> Result<bool, AllocError> {
    let topics = topic_count(alloc, scores, peer)?;
    let t = topic(b"t");
    let parts = scores.topic_parts(peer, &t, Millis(5_000));
    let counts = [
        scores.misbehaviour(peer),
        scores.counter(peer, &t, Kind::First),
        scores.counter(peer, &t, Kind::Deficit),
        scores.missing(peer, &t, Millis(5_000)),
    ];
    Ok(
        counts == [0; 4]
            && parts.topic_score == 0
            && scores.score(peer, Millis(5_000)) == 0
            && topics == 0,
    )
}

/// Applies a mark, if it has a place in the scores.
fn apply(scores: &mut Scores, mark: &Mark) -> Result<(), AllocError> {
    if scores.accepts(mark) {
        return scores.apply(mark);
    }
    Ok(())
}

/// Prunes peer 4, and shuts it out.
fn lose_stranger(scores: &mut Scores) {
    scores.prune(PeerNo(4), &topic(b"t"));
    scores.shut_out(PeerNo(4));
}

fn has_nothing_after(
    alloc: Global,
    scores: &mut Scores,
    mark: &Mark,
    peer: PeerNo,
) -> Result<bool, AllocError> {
    apply(scores, mark)?;
    lose_stranger(scores);
    has_nothing(alloc, scores, peer)
}

/// Whether a peer has nothing after a mark, and after peer 4 is pruned and shut out.
fn is_without_effect(alloc: Global, mark: &Mark, peer: PeerNo) -> Result<bool, AllocError> {
    let mut scores = scores(alloc)?;
    let nothing = has_nothing_after(alloc, &mut scores, mark, peer);
    drop(scores);
    nothing
}

/// Whether marks of peer 4, which is no neighbour, leave a peer with nothing.
fn stays_without(alloc: Global, peer: u16) -> Result<bool, AllocError> {
    let peer = PeerNo(peer);
    let blamed = is_without_effect(alloc, &Mark::Misbehaviour(PeerNo(4)), peer)?;
    let first = Mark::First(PeerNo(4), topic(b"t"), MsgId([7; 32]));
    let credited = is_without_effect(alloc, &first, peer);
    drop(first);
    Ok(blamed && credited?)
}

#[test]
fn what_concerns_no_neighbour_changes_nothing(rt: HostRuntime) -> Result<(), AllocError> {
    for peer in [1u16, 4] {
        assert!(rt; stays_without(rt.alloc(), peer)?);
    }
    Ok(())
}

/// What a deficit of this amount adds to a neighbour's counter.
fn counted(alloc: Global, amount: i128) -> Result<u64, AllocError> {
    let mut scores = scores(alloc)?;
    let applied = apply(&mut scores, &Mark::Deficit(PeerNo(1), topic(b"t"), amount));
    let count = scores.counter(PeerNo(1), &topic(b"t"), Kind::Deficit);
    drop(scores);
    applied?;
    Ok(count)
}

#[test]
fn a_deficit_counts_from_0_to_a_million(rt: HostRuntime) -> Result<(), AllocError> {
    for (amount, count) in [
        (-1, 0),
        (2_250_000, 2_250_000),
        (10_000_000_000_000, 1_000_000_000_000),
    ] {
        assert_eq!(rt; counted(rt.alloc(), amount)?, count);
    }
    Ok(())
}

/// Lets counters decay by a step. There may be 2^63 steps.
fn decay(scores: &mut Scores) {
    if scores.decays() < 0x8000_0000_0000_0000 {
        scores.decay();
    }
}

/// How often counters have decayed after two steps.
fn steps_of_decay(alloc: Global) -> Result<u64, AllocError> {
    let mut scores = scores(alloc)?;
    decay(&mut scores);
    decay(&mut scores);
    let steps = scores.decays();
    drop(scores);
    Ok(steps)
}

#[test]
fn each_step_of_decay_counts(rt: HostRuntime) -> Result<(), AllocError> {
    assert_eq!(rt; steps_of_decay(rt.alloc())?, 2);
    Ok(())
}

/// The weight of a topic's invalid messages.
fn weight(rulebook: &Rulebook, name: &'static [u8]) -> i64 {
    rulebook.of(&topic(name)).factors.w4
}

/// The weights that are found for topics `a`, `b` and `c`, and whether any topic weighs.
fn found(alloc: Global, rows: &[(&'static [u8], i64)]) -> Result<([i64; 3], bool), AllocError> {
    let params = params(alloc, rows)?;
    let rulebook = Rulebook::new(alloc, &params);
    drop(params);
    let rulebook = rulebook?;
    let found = (
        [
            weight(&rulebook, b"a"),
            weight(&rulebook, b"b"),
            weight(&rulebook, b"c"),
        ],
        rulebook.any_weighs(),
    );
    drop(rulebook);
    Ok(found)
}

/// Topics and their weights. Topic `a` comes three times.
static REPEATED: [(&[u8], i64); 4] = [(b"a", -1), (b"a", -2), (b"b", -3), (b"a", -4)];

static WITHOUT_WEIGHT: [(&[u8], i64); 2] = [(b"a", 0), (b"b", 0)];

#[test]
fn the_first_parameters_of_a_topic_count(rt: HostRuntime) -> Result<(), AllocError> {
    let alloc = rt.alloc();
    assert_eq!(rt; found(alloc, &[])?, ([0; 3], false));
    assert_eq!(rt; found(alloc, &WITHOUT_WEIGHT)?, ([0; 3], false));
    assert_eq!(rt; found(alloc, &REPEATED)?, ([-1, -3, 0], true));
    Ok(())
}
