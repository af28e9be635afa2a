//! Calls of a router that no program makes, and what it says about itself.
use bytes::Bytes;
use gs_base::{Millis, PeerNo, Topic};
use gs_router_testkit::Call::{
    EndRound, Fault, Gone, HangUp, Hear, Heartbeat, Publish, Raw, Shut, Subscribe, Unsubscribe,
};
use gs_router_testkit::CasePart::{Graft, Message, On};
use gs_router_testkit::{Call, Case, Kind, NOTHING, Player};
use std::alloc::{AllocError, Global};

/// Makes a call of a router: 0, or the number of its refusal.
fn number_of(player: &mut Player, at: u64, call: Call<'_>) -> Result<u8, AllocError> {
    match player.answer(Millis(at), call)? {
        Ok(()) => Ok(0),
        Err(fault) => Ok(fault.number()),
    }
}

// ---- calls after a loss and after the end

/// What a router says after a call: the number of the call's refusal or 0, how many entries it has, the moment of the last
/// one, and whether each of the neighbours 1 and 2 is up.
type Told = (u8, usize, u64, bool, bool);

/// After the shutdown 21 goes before each other reason. All that is heard then is late, and a loss leaves no entry.
static AT_THE_END: [(u64, Call<'static>, Told); 24] = [
    (0, Subscribe("a"), (0, 1, 0, true, true)),
    (0, Subscribe(""), (0, 2, 0, true, true)),
    (0, Hear(1, &[Graft("a")]), (0, 4, 0, true, true)),
    // neighbour 1 is lost once, and what it says is late
    (1, Gone(1), (0, 5, 1, false, true)),
    (2, Gone(1), (0, 5, 1, false, true)),
    (2, Fault(1), (0, 5, 1, false, true)),
    (3, Hear(1, &[On("a")]), (0, 6, 3, false, true)),
    (3, HangUp(1), (33, 6, 3, false, true)),
    (4, EndRound(u64::MAX), (0, 7, 4, false, true)),
    (5, Shut, (0, 8, 5, false, false)),
    (6, Subscribe("a"), (21, 8, 5, false, false)),
    (6, Subscribe("b"), (21, 8, 5, false, false)),
    (6, Unsubscribe("a"), (21, 8, 5, false, false)),
    (6, Unsubscribe("b"), (21, 8, 5, false, false)),
    (6, Publish("a", b"abc"), (21, 8, 5, false, false)),
    (6, HangUp(2), (21, 8, 5, false, false)),
    (6, Raw(2, b"abc"), (21, 8, 5, false, false)),
    (6, Heartbeat, (21, 8, 5, false, false)),
    (6, EndRound(2), (21, 8, 5, false, false)),
    (6, Shut, (21, 8, 5, false, false)),
    (
        7,
        Hear(2, &[On("a"), Message("a", b"abc")]),
        (0, 9, 7, false, false),
    ),
    (8, Gone(1), (0, 9, 7, false, false)),
    (8, Gone(2), (0, 9, 7, false, false)),
    (8, Fault(2), (0, 9, 7, false, false)),
];

fn told(player: &mut Player, at: u64, call: Call<'_>) -> Result<Told, AllocError> {
    let number = number_of(player, at, call)?;
    let router = player.router();
    let entries = router.trace().entries().len();
    let ups = (router.is_up(PeerNo(1)), router.is_up(PeerNo(2)));
    Ok((number, entries, router.last_moment().0, ups.0, ups.1))
}

/// The first of these calls after which something else is said, with that.
fn first_wrong(player: &mut Player) -> Result<Option<(usize, Told)>, AllocError> {
    for (place, (at, call, wanted)) in AT_THE_END.iter().enumerate() {
        let came = told(player, *at, *call)?;
        if came != *wanted {
            return Ok(Some((place, came)));
        }
    }
    Ok(None)
}

#[test]
fn after_a_shutdown_all_is_refused_and_what_is_heard_is_late(
    rt: HostRuntime,
) -> Result<(), AllocError> {
    let mut player = Player::new(rt.alloc(), &NOTHING)?;
    let wrong = first_wrong(&mut player);
    drop(player);
    assert_eq!(rt; wrong?, None);
    Ok(())
}

// ---- topics and bodies that are too long

/// A topic of 1,024 bytes, which is as long as one may be.
static LONGEST: [u8; 1_024] = [b't'; 1_024];

/// One of 1,025 bytes.
static TOO_LONG: [u8; 1_025] = [b't'; 1_025];

/// How a router answers calls on a topic of each length, before its end and after it.
fn answers_on_long_topics(player: &mut Player) -> Result<[u8; 8], AllocError> {
    let (Ok(longest), Ok(long)) = (str::from_utf8(&LONGEST), str::from_utf8(&TOO_LONG)) else {
        return Err(AllocError);
    };
    Ok([
        number_of(player, 0, Subscribe(longest))?,
        number_of(player, 1, Subscribe(longest))?,
        number_of(player, 1, Subscribe(long))?,
        number_of(player, 1, Publish(longest, b"abc"))?,
        // (its length is looked at before what was seen)
        number_of(player, 1, Publish(long, b"abc"))?,
        number_of(player, 2, Shut)?,
        number_of(player, 2, Subscribe(long))?,
        number_of(player, 2, Publish(long, b"abc"))?,
    ])
}

#[test]
fn topics_are_bounded(rt: HostRuntime) -> Result<(), AllocError> {
    let mut player = Player::new(rt.alloc(), &NOTHING)?;
    let answers = answers_on_long_topics(&mut player);
    drop(player);
    assert_eq!(rt; answers?, [0, 18, 17, 0, 17, 0, 21, 21]);
    Ok(())
}

/// Subscribes to the topics that are named by the numbers below 1,024. Returns how many calls were refused.
fn subscribe_each(alloc: Global, player: &mut Player) -> Result<u16, AllocError> {
    let mut refused = 0u16;
    for number in 0..1_024u16 {
        let name = format!(in alloc; "{number}")?;
        if number_of(player, 0, Subscribe(name.as_str()))? != 0 {
            refused = refused.saturating_add(1);
        }
    }
    Ok(refused)
}

/// How a router answers calls after it joined 1,024 topics. A topic counts among these even after it was left.
fn answers_on_many_topics(player: &mut Player) -> Result<[u8; 7], AllocError> {
    let Ok(long) = str::from_utf8(&TOO_LONG) else {
        return Err(AllocError);
    };
    Ok([
        // (its length is looked at before their number)
        number_of(player, 0, Subscribe(long))?,
        number_of(player, 0, Subscribe("1024"))?,
        number_of(player, 0, Subscribe("7"))?,
        number_of(player, 0, Unsubscribe("7"))?,
        number_of(player, 0, Subscribe("1024"))?,
        number_of(player, 0, Subscribe("7"))?,
        number_of(player, 0, Subscribe("1024"))?,
    ])
}

fn on_many_topics(alloc: Global, player: &mut Player) -> Result<(u16, [u8; 7]), AllocError> {
    let refused = subscribe_each(alloc, player)?;
    let answers = answers_on_many_topics(player)?;
    Ok((refused, answers))
}

#[test]
fn a_topic_counts_among_1024_even_after_it_was_left(rt: HostRuntime) -> Result<(), AllocError> {
    let mut player = Player::new(rt.alloc(), &NOTHING)?;
    let answers = on_many_topics(rt.alloc(), &mut player);
    drop(player);
    assert_eq!(rt; answers?, (0, [17, 34, 18, 0, 34, 0, 34]));
    Ok(())
}

/// How a new router answers a publication of `length` zeros: 0, or the number of its refusal.
fn answer_to(alloc: Global, length: usize) -> Result<u8, AllocError> {
    let payload = vec![in alloc; 0u8; length]?;
    let mut player = Player::new(alloc, &NOTHING)?;
    let answer = number_of(&mut player, 0, Publish("a", payload.as_slice()));
    drop(player);
    answer
}

/// A body has at most 1,048,576 bytes, and 11 more than the payload: a key and a length of three bytes for the message,
/// the same for the payload, and three bytes for the topic.
#[test]
fn bodies_are_bounded(rt: HostRuntime) -> Result<(), AllocError> {
    assert_eq!(rt; answer_to(rt.alloc(), 1_048_565)?, 0);
    assert_eq!(rt; answer_to(rt.alloc(), 1_048_566)?, 17);
    Ok(())
}

// ---- what a router says about itself

/// Topic `a` has parameters twice.
const PRAISED: Case<'static> = Case {
    kinds: &[Kind::Praised],
    topics: &[("a", b"\xff"), ("a", b"\xaa")],
    ..NOTHING
};

/// How many messages the last entry delivers.
fn delivered(player: &Player) -> usize {
    match player.router().trace().entries().last() {
        Some(entry) => entry.delivered().len(),
        None => 0,
    }
}

/// To how many neighbours the last entry sends something.
fn told_to(player: &Player) -> usize {
    match player.router().trace().entries().last() {
        Some(entry) => entry.sends().len(),
        None => 0,
    }
}

/// To how many neighbours a subscription to the empty topic is announced, and how many deliveries a message without a topic
/// brings. Last, to how many a publication on the empty topic goes after one of two has subscribed to no topic.
fn on_an_absent_topic(player: &mut Player) -> Result<[usize; 3], AllocError> {
    let _ = number_of(player, 0, Subscribe(""))?;
    let announced = told_to(player);
    let _ = number_of(player, 0, Hear(1, &[Message("", b"x")]))?;
    let deliveries = delivered(player);
    let _ = number_of(player, 0, Hear(1, &[On("")]))?;
    let _ = number_of(player, 1, Publish("", b"abc"))?;
    Ok([announced, deliveries, told_to(player)])
}

#[test]
fn an_absent_topic_is_the_empty_one(rt: HostRuntime) -> Result<(), AllocError> {
    let mut player = Player::new(rt.alloc(), &NOTHING)?;
    let seen = on_an_absent_topic(&mut player);
    drop(player);
    assert_eq!(rt; seen?, [2, 1, 1]);
    Ok(())
}

/// How many deliveries each of two messages brings: one that the first parameters of the topic reject, and one that the
/// second ones would reject.
fn deliveries(player: &mut Player) -> Result<(usize, usize), AllocError> {
    let _ = number_of(player, 0, Subscribe("a"))?;
    let _ = number_of(player, 0, Hear(1, &[Message("a", b"\xff")]))?;
    let first = delivered(player);
    let _ = number_of(player, 0, Hear(1, &[Message("a", b"\xaa")]))?;
    Ok((first, delivered(player)))
}

/// The first member of a topic, how many members it has, and the scores of the neighbours.
type Standing = (Option<PeerNo>, usize, i128, i128);

fn standing(player: &mut Player, topic: &Topic) -> Result<Standing, AllocError> {
    let _ = number_of(player, 0, Hear(1, &[Graft("a")]))?;
    let router = player.router();
    let members = router.members(topic);
    let scores = (
        router.score(PeerNo(1), Millis(0)),
        router.score(PeerNo(2), Millis(0)),
    );
    Ok((members.first().copied(), members.len(), scores.0, scores.1))
}

fn seen_of_praised(
    player: &mut Player,
    topic: &Topic,
) -> Result<((usize, usize), Standing), AllocError> {
    let deliveries = deliveries(player)?;
    let standing = standing(player, topic)?;
    Ok((deliveries, standing))
}

/// The second parameters of a topic do not count. A neighbour that the application praises is the only member.
#[test]
fn a_router_tells_its_members_and_scores(rt: HostRuntime) -> Result<(), AllocError> {
    let topic = Topic(Bytes::copy_from_slice(rt.alloc(), b"a")?);
    let mut player = Player::new(rt.alloc(), &PRAISED)?;
    let seen = seen_of_praised(&mut player, &topic);
    drop(player);
    assert_eq!(rt; seen?, ((0, 1), (Some(PeerNo(1)), 1, 3_000_000, 0)));
    Ok(())
}
