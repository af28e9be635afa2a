//! What is taken from lists is what was given for them.
ghost use Rattle.std.specs.Prelude.{◌≡◌, ◌∷◌, Some, [], IfOk, true};
ghost use Rattle.gs_link.specs.declared.item.Slot.TheVariants.{Close, Round};
ghost use Rattle.gs_link.specs.Runs.{closes};
ghost use Rattle.gs_ends.specs.Ends.{comes_from, has};
ghost use Rattle.gs_ends.specs.Lists.{joints_in_lists, taken_in_lists};

use crate::tests::ends::answers::{Answer, Asked, asking, is_piece, piece};
use gs_base::PeerNo;
use gs_ends::{Ends, ListEnds};
use gs_link::{Item, Taken};
use std::alloc::{AllocError, Global};
use std::test::*;

#[derive(Clone, Copy)]
enum Neighbour {
    Nine,
    Two,
    Five,
}

#[derive(Clone, Copy)]
enum Came<'a> {
    Piece(&'a [u8]),
    Round(u64),
    Closed,
}

/// What is taken in turns, where 9 is given two pieces with the end of a round after each, 2 nothing, and 5 one mark.
static TURNS: &[(Neighbour, Came<'static>)] = &[
    (Neighbour::Nine, Came::Piece(b"ab")),
    (Neighbour::Five, Came::Round(7)),
    (Neighbour::Nine, Came::Round(0)),
    (Neighbour::Two, Came::Closed),
    (Neighbour::Five, Came::Closed),
    (Neighbour::Nine, Came::Piece(b"c")),
    (Neighbour::Five, Came::Closed),
    (Neighbour::Nine, Came::Round(1)),
    (Neighbour::Two, Came::Closed),
    (Neighbour::Nine, Came::Closed),
    (Neighbour::Nine, Came::Closed),
];

/// For some N, how many of the marks that are put to 2 in those turns are accepted, where every N-th put is refused.
static ACCEPTED: &[(u64, usize)] = &[(0, 11), (1, 0), (2, 6), (3, 8)];

/// Ends to three neighbours, from which these items come.
fn ends_of(alloc: Global, every: u64) -> Result<ListEnds, AllocError>
    ensures nine { IfOk result (λ ends. has (joints_in_lists ends) (record { 0 = 9 }) ≡ true) }
    ensures two { IfOk result (λ ends. has (joints_in_lists ends) (record { 0 = 2 }) ≡ true) }
    ensures five { IfOk result (λ ends. has (joints_in_lists ends) (record { 0 = 5 }) ≡ true) }
    ensures given { IfOk result (λ ends.
        comes_from (joints_in_lists ends) (record { 0 = 5 }) ≡ Some (Round 7 ∷ Close ∷ [])) }
{
    let (first, second) = (piece(alloc, b"ab")?, piece(alloc, b"c")?);
    let of_nine = vec![in alloc; first, Item::Round(0), second, Item::Round(1)]?;
    let of_two = Vec::new(alloc);
    let of_five = vec![in alloc; Item::Round(7)]?;
    let inbound = vec![in alloc;
        (PeerNo(9), of_nine),
        (PeerNo(2), of_two),
        (PeerNo(5), of_five),
    ]?;
    let ends = ListEnds::new(alloc, inbound, 20, every)?;
    Ok(ends)
}

/// Takes what comes from a neighbour.
fn take_of(ends: &mut ListEnds, from: Neighbour) -> Taken
    requires nine { has (joints_in_lists ends.old) (record { 0 = 9 }) ≡ true }
    requires two { has (joints_in_lists ends.old) (record { 0 = 2 }) ≡ true }
    requires five { has (joints_in_lists ends.old) (record { 0 = 5 }) ≡ true }
    ensures same { joints_in_lists ends.new ≡ joints_in_lists ends.old }
{
    match from {
        Neighbour::Nine => ends.take(PeerNo(9)),
        Neighbour::Two => ends.take(PeerNo(2)),
        Neighbour::Five => ends.take(PeerNo(5)),
    }
}

fn is_taken(taken: &Taken, came: Came<'_>) -> bool {
    match came {
        Came::Piece(bytes) => is_piece(taken, bytes),
        Came::Round(round) => Answer::to_take(taken) == Answer::Round(round),
        Came::Closed => Answer::to_take(taken) == Answer::Closed,
    }
}

/// Whether this comes from a neighbour.
fn comes(ends: &mut ListEnds, from: Neighbour, came: Came<'_>) -> bool
    requires nine { has (joints_in_lists ends.old) (record { 0 = 9 }) ≡ true }
    requires two { has (joints_in_lists ends.old) (record { 0 = 2 }) ≡ true }
    requires five { has (joints_in_lists ends.old) (record { 0 = 5 }) ≡ true }
    ensures same { joints_in_lists ends.new ≡ joints_in_lists ends.old }
{
    let taken = take_of(ends, from);
    is_taken(&taken, came)
}

/// Puts a mark to 2 and takes, in each turn: the first turn in which something else comes, and how many marks were
/// accepted.
fn played(ends: &mut ListEnds, turns: &[(Neighbour, Came<'_>)]) -> (Option<usize>, usize)
    requires nine { has (joints_in_lists ends.old) (record { 0 = 9 }) ≡ true }
    requires two { has (joints_in_lists ends.old) (record { 0 = 2 }) ≡ true }
    requires five { has (joints_in_lists ends.old) (record { 0 = 5 }) ≡ true }
{
    let mut accepted = 0usize;
    for (turn, (from, came)) in turns.iter().enumerate() {
        if asking(ends, PeerNo(2), Asked::Send(3)) == Answer::Done {
            accepted = accepted.wrapping_add(1);
        }
        if !comes(ends, *from, *came) {
            return (Some(turn), accepted);
        }
    }
    (None, accepted)
}

/// What is played with new ends, where every N-th put is refused.
fn played_where(alloc: Global, every: u64) -> Result<(Option<usize>, usize), AllocError> {
    let mut ends = ends_of(alloc, every)?;
    let played = played(&mut ends, TURNS);
    Ok(played)
}

#[test]
fn what_is_taken_is_what_was_given(rt: HostRuntime) -> Result<(), Fail> {
    for (every, accepted) in ACCEPTED {
        assert_eq!(rt;
            played_where(rt.alloc(), *every)?,
            (None, *accepted),
            "{every}"
        );
    }
    Ok(())
}

// ---- by proof

/// Where the close of 5 was taken, its mark was, whichever calls were made.
fn prove_the_mark_was_taken(ends: &ListEnds)
    requires given { comes_from (joints_in_lists ends.now) (record { 0 = 5 }) ≡ Some (Round 7 ∷ Close ∷ []) }
    requires closed { closes (taken_in_lists ends.now (record { 0 = 5 })) ≡ true }
    ensures taken { taken_in_lists ends.now (record { 0 = 5 }) ≡ Round 7 ∷ Close ∷ [] }
{
    ends.prove_taken_in_order();
}

/// Takes the mark of 5 and its close.
fn take_all_of_five(ends: &mut ListEnds) -> bool
    requires five { has (joints_in_lists ends.old) (record { 0 = 5 }) ≡ true }
    requires given { comes_from (joints_in_lists ends.old) (record { 0 = 5 }) ≡ Some (Round 7 ∷ Close ∷ []) }
    ensures taken { result ≡ true → taken_in_lists ends.new (record { 0 = 5 }) ≡ Round 7 ∷ Close ∷ [] }
{
    let _mark = ends.take(PeerNo(5));
    match ends.take(PeerNo(5)) {
        Taken::Closed => {
            prove_the_mark_was_taken(ends);
            true
        }
        _ => false,
    }
}

#[test]
fn after_the_close_all_was_taken(rt: HostRuntime) -> Result<(), Fail> {
    let mut ends = ends_of(rt.alloc(), 2)?;
    let is_over = take_all_of_five(&mut ends);
    drop(ends);
    assert!(rt; is_over);
    Ok(())
}
