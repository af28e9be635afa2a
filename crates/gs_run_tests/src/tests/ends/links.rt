//! One link, and its two ends.
ghost use Rattle.std.specs.Prelude.{◌≡◌, ◌≤◌, IfOk, length};
ghost use Rattle.gs_link.specs.Items.{IsCapacity, IsSendable};

use crate::tests::ends::answers::{
    Answer, Asked, closing, gets_piece, piece, sending, sends, taking,
};
use bytes::Bytes;
use gs_link::{Item, LinkFault, LinkRx, LinkTx, SendRefused, is_capacity, open_link, settle};
use std::alloc::{AllocError, Global};
use std::sync::Wait;
use std::test::*;

/// The bytes of a longest piece.
static LONGEST: [u8; 64] = [255; 64];

/// A link of one slot.
pub fn narrow(alloc: Global) -> Result<(LinkTx, LinkRx), LinkFault>
    ensures { IfOk result (λ ends. ends.1.link ≡ ends.0.link) }
{
    let ends = open_link(alloc, 1)?;
    Ok(ends)
}

fn answered<R: Wait>(rt: &R, tx: &mut LinkTx, rx: &mut LinkRx, asked: Asked) -> Answer {
    match asked {
        Asked::Send(round) => sending(rt, tx, round),
        Asked::Close => closing(rt, tx),
        Asked::Take => taking(rt, rx),
    }
}

/// How many of these, from the first on, are answered so.
fn right<R: Wait>(rt: &R, tx: &mut LinkTx, rx: &mut LinkRx, steps: &[(Asked, Answer)]) -> usize {
    let mut right = 0usize;
    for (asked, wanted) in steps {
        if answered(rt, tx, rx, *asked) != *wanted {
            return right;
        }
        right = right.saturating_add(1);
    }
    right
}

/// How many of these, from the first on, a new link answers so.
fn right_of_new<R: Wait>(
    rt: &R,
    alloc: Global,
    capacity: usize,
    steps: &[(Asked, Answer)],
) -> Result<usize, LinkFault>
    requires { IsCapacity capacity }
{
    let (mut tx, mut rx) = open_link(alloc, capacity)?;
    let right = right(rt, &mut tx, &mut rx, steps);
    Ok(right)
}

/// Whether a piece of these bytes is taken as it was sent, and nothing before it.
fn passes<R: Wait>(
    rt: &R,
    alloc: Global,
    tx: &mut LinkTx,
    rx: &mut LinkRx,
    bytes: &[u8],
) -> Result<bool, AllocError>
    requires { (1 ≤ length bytes.now) × (length bytes.now ≤ 64) }
{
    let piece = piece(alloc, bytes)?;
    let is_empty = taking(rt, rx) == Answer::Empty;
    let is_sent = sends(rt, tx, piece);
    Ok(is_empty && is_sent && gets_piece(rt, rx, bytes))
}

/// Whether a short and a longest piece pass.
fn both_pass<R: Wait>(
    rt: &R,
    alloc: Global,
    tx: &mut LinkTx,
    rx: &mut LinkRx,
) -> Result<bool, AllocError> {
    let short = passes(rt, alloc, tx, rx, b"\x07\x0a\x05")?;
    let long = passes(rt, alloc, tx, rx, &LONGEST)?;
    Ok(short && long)
}

#[test]
fn a_piece_that_was_sent_is_taken(rt: HostRuntime) -> Result<(), Fail> {
    let (mut tx, mut rx) = narrow(rt.alloc())?;
    let passed = both_pass(&rt, rt.alloc(), &mut tx, &mut rx);
    drop(tx);
    drop(rx);
    assert!(rt; passed?);
    Ok(())
}

/// Whether a piece comes back from a link in which something waits.
fn comes_back<R: Wait>(
    rt: &R,
    alloc: Global,
    tx: &mut LinkTx,
    bytes: &[u8],
) -> Result<bool, AllocError>
    requires { (1 ≤ length bytes.now) × (length bytes.now ≤ 64) }
{
    let piece = piece(alloc, bytes)?;
    let sent = tx.send(rt, piece);
    Ok(is_back(&sent, bytes))
}

/// Whether a piece of these bytes was handed back by a full link.
fn is_back(sent: &Result<(), SendRefused>, bytes: &[u8]) -> bool {
    match sent {
        Err(SendRefused::Full(Item::Piece(back))) => back.as_slice() == bytes,
        _ => false,
    }
}

/// Whether a link of one slot takes one mark and no piece, and then one mark at a time.
fn takes_one<R: Wait>(
    rt: &R,
    alloc: Global,
    tx: &mut LinkTx,
    rx: &mut LinkRx,
) -> Result<bool, AllocError> {
    let is_sent = sending(rt, tx, 1) == Answer::Done;
    let is_back = comes_back(rt, alloc, tx, b"abc")?;
    let are_right = right(rt, tx, rx, &ONE_AT_A_TIME) == 4;
    Ok(is_sent && is_back && are_right)
}

#[test]
fn a_link_of_one_slot_is_full_with_one(rt: HostRuntime) -> Result<(), Fail> {
    let (mut tx, mut rx) = narrow(rt.alloc())?;
    let taken = takes_one(&rt, rt.alloc(), &mut tx, &mut rx);
    drop(tx);
    drop(rx);
    assert!(rt; taken?);
    Ok(())
}

/// After the mark of round 1.
static ONE_AT_A_TIME: [(Asked, Answer); 4] = [
    (Asked::Take, Answer::Round(1)),
    (Asked::Send(2), Answer::Done),
    (Asked::Send(3), Answer::Full),
    (Asked::Take, Answer::Round(2)),
];

/// Whether a link takes 1,024 marks, and gives them in order.
fn takes_1024<R: Wait>(rt: &R, tx: &mut LinkTx, rx: &mut LinkRx) -> bool {
    for round in 0..1_024u64 {
        if sending(rt, tx, round) != Answer::Done {
            return false;
        }
    }
    if sending(rt, tx, 7) != Answer::Full {
        return false;
    }
    for round in 0..1_024u64 {
        if taking(rt, rx) != Answer::Round(round) {
            return false;
        }
    }
    taking(rt, rx) == Answer::Empty
}

#[test]
fn a_link_of_1024_slots_is_full_with_1024(rt: HostRuntime) -> Result<(), Fail> {
    let (mut tx, mut rx) = open_link(rt.alloc(), 1_024)?;
    let are_taken = takes_1024(&rt, &mut tx, &mut rx);
    drop(tx);
    drop(rx);
    assert!(rt; are_taken);
    Ok(())
}

static AFTER_THE_CLOSE: [(Asked, Answer); 10] = [
    (Asked::Send(0), Answer::Done),
    (Asked::Close, Answer::Done),
    (Asked::Close, Answer::Closed),
    (Asked::Send(1), Answer::Closed),
    (Asked::Close, Answer::Closed),
    (Asked::Send(1), Answer::Closed),
    (Asked::Take, Answer::Round(0)),
    (Asked::Take, Answer::Closed),
    (Asked::Take, Answer::Closed),
    (Asked::Take, Answer::Closed),
];

#[test]
fn after_the_close_all_is_closed_again_and_again(rt: HostRuntime) -> Result<(), Fail> {
    assert_eq!(rt; right_of_new(&rt, rt.alloc(), 3, &AFTER_THE_CLOSE)?, 10);
    Ok(())
}

static CLOSE_IN_ONE: [(Asked, Answer); 7] = [
    (Asked::Send(0), Answer::Done),
    (Asked::Close, Answer::Full),
    (Asked::Send(1), Answer::Full),
    (Asked::Take, Answer::Round(0)),
    (Asked::Close, Answer::Done),
    (Asked::Close, Answer::Closed),
    (Asked::Take, Answer::Closed),
];

#[test]
fn the_close_takes_one_slot(rt: HostRuntime) -> Result<(), Fail> {
    assert_eq!(rt; right_of_new(&rt, rt.alloc(), 1, &CLOSE_IN_ONE)?, 7);
    Ok(())
}

/// Whether a link accepts a piece and then a mark.
fn accepts_both<R: Wait>(rt: &R, tx: &mut LinkTx, piece: Item) -> bool
    requires { IsSendable piece }
{
    sends(rt, tx, piece) && sending(rt, tx, 0) == Answer::Done
}

/// Whether nothing else holds these bytes: first, after the drop of one end, and after the drop of both.
fn are_unique(kept: &Bytes, tx: LinkTx, rx: LinkRx) -> [bool; 3] {
    let first = kept.is_unique();
    drop(tx);
    let after_one = kept.is_unique();
    drop(rx);
    [first, after_one, kept.is_unique()]
}

/// Whether a piece of these bytes and a mark wait in a link, until both of its ends are dropped.
fn waits_for_the_drop<R: Wait>(
    rt: &R,
    alloc: Global,
    kept: &Bytes,
    piece: Item,
) -> Result<bool, LinkFault>
    requires { IsSendable piece }
{
    let (mut tx, rx) = open_link(alloc, 2)?;
    let are_accepted = accepts_both(rt, &mut tx, piece);
    let unique = are_unique(kept, tx, rx);
    Ok(are_accepted && unique == [false, false, true])
}

#[test]
fn what_waits_is_dropped_with_its_link(rt: HostRuntime) -> Result<(), Fail> {
    let kept = Bytes::copy_from_slice(rt.alloc(), b"news")?;
    let piece = Item::Piece(kept.clone()?);
    let has_waited = waits_for_the_drop(&rt, rt.alloc(), &kept, piece);
    drop(kept);
    assert!(rt; has_waited?);
    Ok(())
}

/// Whether a mark and the close go through a link.
fn takes_all<R: Wait>(rt: &R, tx: &mut LinkTx, rx: &mut LinkRx) -> bool
    ensures sender { tx.new.link ≡ tx.old.link }
    ensures receiver { rx.new.link ≡ rx.old.link }
{
    let sent = sending(rt, tx, 0) == Answer::Done;
    let closed = closing(rt, tx) == Answer::Done;
    let round = taking(rt, rx) == Answer::Round(0);
    let end = taking(rt, rx) == Answer::Closed;
    sent && closed && round && end
}

#[test]
fn a_link_whose_close_was_taken_is_whole(rt: HostRuntime) -> Result<(), Fail> {
    let (mut tx, mut rx) = open_link(rt.alloc(), 2)?;
    let are_taken = takes_all(&rt, &mut tx, &mut rx);
    let settled = settle(&rt, tx, rx);
    assert!(rt; are_taken && settled.whole);
    Ok(())
}

/// Whether a link accepts a piece and then the close.
fn accepts_the_last<R: Wait>(rt: &R, tx: &mut LinkTx, piece: Item) -> bool
    requires { IsSendable piece }
    ensures { tx.new.link ≡ tx.old.link }
{
    let is_sent = sends(rt, tx, piece);
    let is_closed = closing(rt, tx) == Answer::Done;
    is_sent && is_closed
}

/// Whether a link is unfinished in which this piece and the close wait.
fn is_unfinished<R: Wait>(rt: &R, alloc: Global, piece: Item) -> Result<bool, LinkFault>
    requires { IsSendable piece }
{
    let (mut tx, rx) = open_link(alloc, 2)?;
    let is_sent = accepts_the_last(rt, &mut tx, piece);
    let settled = settle(rt, tx, rx);
    Ok(is_sent && !settled.whole)
}

/// Whether an unused link is whole.
fn is_unused_whole<R: Wait>(rt: &R, alloc: Global) -> Result<bool, LinkFault> {
    let (tx, rx) = narrow(alloc)?;
    Ok(settle(rt, tx, rx).whole)
}

#[test]
fn a_link_whose_close_waits_is_unfinished(rt: HostRuntime) -> Result<(), Fail> {
    let kept = Bytes::copy_from_slice(rt.alloc(), b"news")?;
    let piece = Item::Piece(kept.clone()?);
    let is_unfinished = is_unfinished(&rt, rt.alloc(), piece);
    let is_dropped = kept.is_unique();
    drop(kept);
    assert!(rt; is_unfinished? && is_dropped);
    assert!(rt; !is_unused_whole(&rt, rt.alloc())?);
    Ok(())
}

/// Whether a piece of this many bytes may be sent.
fn is_sendable_at(alloc: Global, length: usize) -> Result<bool, AllocError> {
    let bytes = Bytes::from_vec(Vec::from_elem(alloc, 0u8, length)?)?;
    let piece = Item::Piece(bytes);
    Ok(piece.is_sendable())
}

/// Whether pieces around the shortest and the longest length may be sent.
fn are_sendable(alloc: Global) -> Result<[bool; 4], AllocError> {
    Ok([
        is_sendable_at(alloc, 0)?,
        is_sendable_at(alloc, 1)?,
        is_sendable_at(alloc, 64)?,
        is_sendable_at(alloc, 65)?,
    ])
}

#[test]
fn capacities_and_pieces_have_their_sizes(rt: HostRuntime) -> Result<(), Fail> {
    let capacities = [
        is_capacity(0),
        is_capacity(1),
        is_capacity(1_024),
        is_capacity(1_025),
    ];
    assert!(rt; capacities == [false, true, true, false]);
    assert!(rt; are_sendable(rt.alloc())? == [false, true, true, false]);
    assert!(rt; Item::Round(u64::MAX).is_sendable());
    Ok(())
}
