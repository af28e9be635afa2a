//! The ends of the links to and from each neighbour.
ghost use Rattle.std.specs.Prelude.{◌≡◌, IfOk, true};
ghost use Rattle.gs_base.specs.declared.names.PeerNo.{PeerNo as PeerNoValue};
ghost use Rattle.gs_ends.specs.Pairs.{joints_of};
ghost use Rattle.gs_ends.specs.Ends.{has};
ghost use Rattle.gs_ends.specs.Lists.{joints_in_lists};

use crate::tests::ends::answers::{Answer, Asked, asking, gets_piece, puts_piece, sending, taking};
use gs_base::PeerNo;
use gs_ends::{LinkEnds, ListEnds};
use gs_link::{Item, LinkFault, LinkRx, LinkTx, open_link};
use std::alloc::{AllocError, Global};
use std::sync::Wait;
use std::test::*;

// ---- links

/// The sending end of one link and the taking end of another.
type Side = (LinkTx, LinkRx);

/// A link each way, of two slots: the ends at one side, and those at the other.
fn two_links(alloc: Global) -> Result<(Side, Side), LinkFault> {
    let (near_tx, far_rx) = open_link(alloc, 2)?;
    let (far_tx, near_rx) = open_link(alloc, 2)?;
    Ok(((near_tx, near_rx), (far_tx, far_rx)))
}

/// Ends to neighbours 5 and 3, in this order. Then the far ends of the links of 5, and of those of 3.
fn five_and_three<R: Wait + Drop>(rt: R, alloc: Global) -> Result<(LinkEnds<R>, Side, Side), Fail>
    ensures five { IfOk result (λ made. has (joints_of made.0) (record { 0 = 5 }) ≡ true) }
    ensures three { IfOk result (λ made. has (joints_of made.0) (record { 0 = 3 }) ≡ true) }
{
    let ((to_five, from_five), far_five) = two_links(alloc)?;
    let ((to_three, from_three), far_three) = two_links(alloc)?;
    let list = vec![in alloc;
        (PeerNo(5), to_five, from_five),
        (PeerNo(3), to_three, from_three),
    ]?;
    let ends = LinkEnds::new(rt, list);
    Ok((ends, far_five, far_three))
}

/// A mark goes to neighbour 3 and a piece to 5, and then the close to 3.
fn puts_for_both<R: Wait + Drop>(ends: &mut LinkEnds<R>, alloc: Global) -> Result<bool, AllocError>
    requires three { has (joints_of ends.old) (record { 0 = 3 }) ≡ true }
    requires five { has (joints_of ends.old) (record { 0 = 5 }) ≡ true }
    ensures same { joints_of ends.new ≡ joints_of ends.old }
{
    let mark = asking(ends, PeerNo(3), Asked::Send(7)) == Answer::Done;
    let piece = puts_piece(ends, PeerNo(5), alloc, b"abc")?;
    let end = asking(ends, PeerNo(3), Asked::Close) == Answer::Done;
    Ok(mark && piece && end)
}

/// Whether the mark and the close came to 3, and only the piece to 5.
fn came<R: Wait>(rt: &R, at_three: &mut LinkRx, at_five: &mut LinkRx) -> bool {
    let mark = taking(rt, at_three) == Answer::Round(7);
    let end = taking(rt, at_three) == Answer::Closed;
    let piece = gets_piece(rt, at_five, b"abc");
    let nothing = taking(rt, at_five) == Answer::Empty;
    mark && end && piece && nothing
}

/// Whether a mark comes from 3, and nothing from 5.
fn comes_of_three<R: Wait + Drop>(ends: &mut LinkEnds<R>) -> bool
    requires three { has (joints_of ends.old) (record { 0 = 3 }) ≡ true }
    requires five { has (joints_of ends.old) (record { 0 = 5 }) ≡ true }
{
    let nothing = asking(ends, PeerNo(5), Asked::Take) == Answer::Empty;
    let mark = asking(ends, PeerNo(3), Asked::Take) == Answer::Round(1);
    nothing && mark
}

#[test]
fn an_item_goes_only_to_its_neighbour(rt: HostRuntime) -> Result<(), Fail> {
    let (mut ends, mut five, mut three) = five_and_three(rt, rt.alloc())?;
    let is_put = puts_for_both(&mut ends, rt.alloc());
    let has_come = came(&rt, &mut three.1, &mut five.1);
    let is_sent = sending(&rt, &mut three.0, 1) == Answer::Done;
    let comes = comes_of_three(&mut ends);
    drop(ends);
    drop((five, three));
    assert!(rt; is_put? && has_come && is_sent && comes);
    Ok(())
}

/// Ends to neighbour 9, and the far ends of its links. The link to it has one slot.
fn nine<R: Wait + Drop>(rt: R, alloc: Global) -> Result<(LinkEnds<R>, Side), Fail>
    ensures known { IfOk result (λ made. has (joints_of made.0) (record { 0 = 9 }) ≡ true) }
{
    let (tx, far_rx) = open_link(alloc, 1)?;
    let (far_tx, rx) = open_link(alloc, 2)?;
    let list = vec![in alloc; (PeerNo(9), tx, rx)]?;
    let ends = LinkEnds::new(rt, list);
    Ok((ends, (far_tx, far_rx)))
}

/// Whether a link of one place to neighbour 9 takes one mark, and then the close, and nothing else.
fn has_one_place<R: Wait + Drop>(rt: &R, ends: &mut LinkEnds<R>, far: &mut LinkRx) -> bool
    requires known { has (joints_of ends.old) (record { 0 = 9 }) ≡ true }
    ensures same { joints_of ends.new ≡ joints_of ends.old }
{
    let mark = asking(ends, PeerNo(9), Asked::Send(0)) == Answer::Done;
    let full = asking(ends, PeerNo(9), Asked::Send(1)) == Answer::Full;
    let late = asking(ends, PeerNo(9), Asked::Close) == Answer::Full;
    let came = taking(rt, far) == Answer::Round(0);
    mark && full && late && came
}

/// Whether such a link is closed, and takes nothing more.
fn takes_the_close<R: Wait + Drop>(rt: &R, ends: &mut LinkEnds<R>, far: &mut LinkRx) -> bool
    requires known { has (joints_of ends.old) (record { 0 = 9 }) ≡ true }
{
    let end = asking(ends, PeerNo(9), Asked::Close) == Answer::Done;
    let again = asking(ends, PeerNo(9), Asked::Close) == Answer::Closed;
    let closed = asking(ends, PeerNo(9), Asked::Send(2)) == Answer::Closed;
    let came = taking(rt, far) == Answer::Closed;
    end && again && closed && came
}

#[test]
fn links_refuse_what_is_past_their_room_or_their_close(rt: HostRuntime) -> Result<(), Fail> {
    let (mut ends, mut far) = nine(rt, rt.alloc())?;
    let place = has_one_place(&rt, &mut ends, &mut far.1);
    let close = takes_the_close(&rt, &mut ends, &mut far.1);
    drop(ends);
    drop(far);
    assert!(rt; place && close);
    Ok(())
}

/// Whether a mark comes from neighbour 9, and then the close again and again.
fn ends_with_the_close<R: Wait + Drop>(ends: &mut LinkEnds<R>) -> bool
    requires known { has (joints_of ends.old) (record { 0 = 9 }) ≡ true }
{
    let mark = asking(ends, PeerNo(9), Asked::Take) == Answer::Round(4);
    let end = asking(ends, PeerNo(9), Asked::Take) == Answer::Closed;
    let again = asking(ends, PeerNo(9), Asked::Take) == Answer::Closed;
    mark && end && again
}

#[test]
fn a_link_ends_with_its_close_again_and_again(rt: HostRuntime) -> Result<(), Fail> {
    let (mut ends, mut far) = nine(rt, rt.alloc())?;
    let is_sent = sending(&rt, &mut far.0, 4) == Answer::Done;
    let is_closed = far.0.close(&rt).is_ok();
    let is_over = ends_with_the_close(&mut ends);
    drop(ends);
    drop(far);
    assert!(rt; is_sent && is_closed && is_over);
    Ok(())
}

/// Whether the last of these ends is that of a neighbour, and sends to this far end. It is taken off the list.
fn last_is_of<R: Wait>(
    rt: &R,
    back: &mut Vec<(PeerNo, LinkTx, LinkRx)>,
    peer: PeerNo,
    far: &mut LinkRx,
) -> bool {
    let Some(mut last) = back.pop() else {
        return false;
    };
    let round = u64::from(peer.0);
    let is_sent = sending(rt, &mut last.1, round) == Answer::Done;
    let came = taking(rt, far) == Answer::Round(round);
    last.0 == peer && is_sent && came
}

#[test]
fn the_ends_come_back_in_their_order(rt: HostRuntime) -> Result<(), Fail> {
    let (ends, mut five, mut three) = five_and_three(rt, rt.alloc())?;
    let mut back = ends.into_list();
    let last = last_is_of(&rt, &mut back, PeerNo(3), &mut three.1);
    let first = last_is_of(&rt, &mut back, PeerNo(5), &mut five.1);
    let is_all = back.is_empty();
    drop(back);
    drop((five, three));
    assert!(rt; last && first && is_all);
    Ok(())
}

// ---- lists

/// Ends to two neighbours. From the first come two marks, from the second nothing.
fn two(alloc: Global, room: usize, every: u64) -> Result<ListEnds, AllocError>
    ensures five { IfOk result (λ ends. has (joints_in_lists ends) (record { 0 = 5 }) ≡ true) }
    ensures three { IfOk result (λ ends. has (joints_in_lists ends) (record { 0 = 3 }) ≡ true) }
{
    let from_five = vec![in alloc; Item::Round(1), Item::Round(2)]?;
    let from_three = Vec::new(alloc);
    let inbound = vec![in alloc; (PeerNo(5), from_five), (PeerNo(3), from_three)]?;
    let ends = ListEnds::new(alloc, inbound, room, every)?;
    Ok(ends)
}

#[derive(Clone, Copy)]
enum Neighbour {
    Five,
    Three,
}

/// A neighbour, what its ends are asked, and what they answer.
type Step = (Neighbour, Asked, Answer);

fn answered(ends: &mut ListEnds, neighbour: Neighbour, asked: Asked) -> Answer
    requires five { has (joints_in_lists ends.old) (record { 0 = 5 }) ≡ true }
    requires three { has (joints_in_lists ends.old) (record { 0 = 3 }) ≡ true }
    ensures same { joints_in_lists ends.new ≡ joints_in_lists ends.old }
{
    match neighbour {
        Neighbour::Five => asking(ends, PeerNo(5), asked),
        Neighbour::Three => asking(ends, PeerNo(3), asked),
    }
}

/// How many of these, from the first on, are answered so.
fn right(ends: &mut ListEnds, steps: &[Step]) -> usize
    requires five { has (joints_in_lists ends.old) (record { 0 = 5 }) ≡ true }
    requires three { has (joints_in_lists ends.old) (record { 0 = 3 }) ≡ true }
    ensures same { joints_in_lists ends.new ≡ joints_in_lists ends.old }
{
    let mut right = 0usize;
    for (neighbour, asked, wanted) in steps {
        if answered(ends, *neighbour, *asked) != *wanted {
            return right;
        }
        right = right.saturating_add(1);
    }
    right
}

/// How many of these, from the first on, new ends answer so, and how many items went to 3 then.
fn right_of_two(
    alloc: Global,
    room: usize,
    every: u64,
    steps: &[Step],
) -> Result<(usize, usize), AllocError> {
    let mut ends = two(alloc, room, every)?;
    let right = right(&mut ends, steps);
    let sent = ends.sent(PeerNo(3)).len();
    Ok((right, sent))
}

/// The first one's marks are taken in order, and then the close, again and again.
static TWO_AND_THE_CLOSE: [Step; 5] = [
    (Neighbour::Five, Asked::Take, Answer::Round(1)),
    (Neighbour::Three, Asked::Take, Answer::Closed),
    (Neighbour::Five, Asked::Take, Answer::Round(2)),
    (Neighbour::Five, Asked::Take, Answer::Closed),
    (Neighbour::Five, Asked::Take, Answer::Closed),
];

#[test]
fn what_comes_is_taken_in_order_and_then_the_close(rt: HostRuntime) -> Result<(), Fail> {
    let (right, sent) = right_of_two(rt.alloc(), 4, 0, &TWO_AND_THE_CLOSE)?;
    assert!(rt; right == 5 && sent == 0);
    Ok(())
}

/// After a piece to 3.
static IN_TURNS: [Step; 4] = [
    (Neighbour::Five, Asked::Send(7), Answer::Done),
    (Neighbour::Three, Asked::Send(8), Answer::Done),
    (Neighbour::Three, Asked::Close, Answer::Done),
    (Neighbour::Five, Asked::Send(9), Answer::Done),
];

/// Whether a piece and a mark went to 3.
fn went_to_three(ends: &ListEnds) -> bool
    requires three { has (joints_in_lists ends.now) (record { 0 = 3 }) ≡ true }
{
    match ends.sent(PeerNo(3)) {
        [Item::Piece(bytes), Item::Round(8)] => bytes.as_slice() == b"abc".as_slice(),
        _ => false,
    }
}

/// Whether two marks went to 5.
fn went_to_five(ends: &ListEnds) -> bool
    requires five { has (joints_in_lists ends.now) (record { 0 = 5 }) ≡ true }
{
    matches!(ends.sent(PeerNo(5)), [Item::Round(7), Item::Round(9)])
}

/// Whether all that is put goes to its own neighbour.
fn keeps_apart(ends: &mut ListEnds, alloc: Global) -> Result<bool, AllocError>
    requires five { has (joints_in_lists ends.old) (record { 0 = 5 }) ≡ true }
    requires three { has (joints_in_lists ends.old) (record { 0 = 3 }) ≡ true }
{
    let piece = puts_piece(ends, PeerNo(3), alloc, b"abc")?;
    let marks = right(ends, &IN_TURNS) == 4;
    Ok(piece && marks && went_to_three(ends) && went_to_five(ends))
}

#[test]
fn each_neighbour_has_its_own_items(rt: HostRuntime) -> Result<(), Fail> {
    let mut ends = two(rt.alloc(), 4, 0)?;
    let are_apart = keeps_apart(&mut ends, rt.alloc());
    drop(ends);
    assert!(rt; are_apart?);
    Ok(())
}

/// After the close of the second one its items are closed, and do not count where every second one is refused.
static NONE_AFTER_THE_CLOSE: [Step; 4] = [
    (Neighbour::Three, Asked::Close, Answer::Done),
    (Neighbour::Three, Asked::Send(0), Answer::Closed),
    (Neighbour::Three, Asked::Close, Answer::Closed),
    (Neighbour::Five, Asked::Send(1), Answer::Full),
];

#[test]
fn after_the_close_all_is_closed_and_not_counted(rt: HostRuntime) -> Result<(), Fail> {
    let (right, sent) = right_of_two(rt.alloc(), 4, 2, &NONE_AFTER_THE_CLOSE)?;
    assert!(rt; right == 4 && sent == 0);
    Ok(())
}

static EACH_THIRD: [Step; 7] = [
    (Neighbour::Three, Asked::Send(1), Answer::Done),
    (Neighbour::Five, Asked::Send(2), Answer::Done),
    (Neighbour::Three, Asked::Send(3), Answer::Full),
    (Neighbour::Three, Asked::Send(4), Answer::Done),
    (Neighbour::Three, Asked::Send(5), Answer::Done),
    (Neighbour::Five, Asked::Close, Answer::Full),
    (Neighbour::Five, Asked::Close, Answer::Done),
];

#[test]
fn every_third_is_refused_over_all_neighbours(rt: HostRuntime) -> Result<(), Fail> {
    let (right, sent) = right_of_two(rt.alloc(), 9, 3, &EACH_THIRD)?;
    assert!(rt; right == 7 && sent == 3);
    Ok(())
}

static EACH_SECOND: [Step; 4] = [
    (Neighbour::Three, Asked::Send(1), Answer::Done),
    (Neighbour::Three, Asked::Send(2), Answer::Full),
    (Neighbour::Three, Asked::Close, Answer::Done),
    (Neighbour::Five, Asked::Close, Answer::Full),
];

#[test]
fn every_second_is_refused(rt: HostRuntime) -> Result<(), Fail> {
    let (right, sent) = right_of_two(rt.alloc(), 9, 2, &EACH_SECOND)?;
    assert!(rt; right == 4 && sent == 1);
    Ok(())
}

/// There is room for one, and the close takes it.
static ROOM_FOR_ONE: [Step; 5] = [
    (Neighbour::Three, Asked::Send(1), Answer::Done),
    (Neighbour::Three, Asked::Send(2), Answer::Full),
    (Neighbour::Three, Asked::Close, Answer::Full),
    (Neighbour::Five, Asked::Close, Answer::Done),
    (Neighbour::Five, Asked::Close, Answer::Closed),
];

#[test]
fn past_the_room_is_refused_the_close_too(rt: HostRuntime) -> Result<(), Fail> {
    let (right, sent) = right_of_two(rt.alloc(), 1, 0, &ROOM_FOR_ONE)?;
    assert!(rt; right == 5 && sent == 1);
    Ok(())
}
