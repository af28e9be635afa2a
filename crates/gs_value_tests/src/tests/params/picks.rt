ghost use Rattle.std.specs.Prelude.{◌≡◌, ◌+◌, ◌%◌, ◌^◌, [], ◌∷◌, IfOk, drop, slice_index};
ghost use Rattle.gs_params.specs.Picks.{IsAscending, picked, picked_one, picked_one_words, picked_words, shuffled};

use gs_base::PeerNo;
use gs_params::{SeededWords, Words, a_pick_is_the_front_of_a_shuffle, pick, pick_one};
use std::alloc::{AllocError, Global};

const FIVE: [PeerNo; 5] = [PeerNo(1), PeerNo(2), PeerNo(3), PeerNo(4), PeerNo(5)];

/// Their places after the words 7 and 9 shuffled two of them. By 7 the first is exchanged with the third, and then by 9 the
/// second with the third.
const SHUFFLED: [PeerNo; 5] = [PeerNo(3), PeerNo(1), PeerNo(2), PeerNo(4), PeerNo(5)];

/// Those in the first two places, ascending.
const ODD: [PeerNo; 2] = [PeerNo(1), PeerNo(3)];

/// The worked example, of the definitions only. The state is the list of the words to come.
#[tactic(auto, unfolding(gs_params::specs::Picks::shuffled))]
fn the_definitions_shuffle_as_in_the_worked_example()
    ensures { shuffled 0 (7 ∷ 9 ∷ []) FIVE ≡ SHUFFLED }
{}

/// Who is picked there, and who where all are.
#[tactic(auto, unfolding(gs_params::specs::Picks::next_words, gs_params::specs::Picks::picked, gs_params::specs::Picks::shuffled))]
fn the_definitions_pick_as_in_the_worked_example()
    ensures some { picked (λ ws. slice_index ws 0) (drop 1) 2 FIVE (7 ∷ 9 ∷ []) ≡ ODD }
    ensures all { picked (λ ws. slice_index ws 0) (drop 1) 2 ODD (7 ∷ 9 ∷ []) ≡ ODD }
{}

/// Which words are left then.
#[tactic(auto, unfolding(gs_params::specs::Picks::after_words, gs_params::specs::Picks::picked_words))]
fn the_definitions_draw_as_in_the_worked_example()
    ensures some { picked_words (λ ws. slice_index ws 0) (drop 1) 2 FIVE (7 ∷ 9 ∷ []) ≡ [] }
    ensures all { picked_words (λ ws. slice_index ws 0) (drop 1) 2 ODD (7 ∷ 9 ∷ []) ≡ 7 ∷ 9 ∷ [] }
{}

/// One of three places, and of one, for which no word is drawn.
#[tactic(auto, unfolding(gs_params::specs::Picks::picked_one, gs_params::specs::Picks::picked_one_words))]
fn the_definitions_pick_one_as_in_the_worked_example()
    ensures one { picked_one (λ ws. slice_index ws 0) (drop 1) 3 (7 ∷ []) ≡ 1 }
    ensures one_drawn { picked_one_words (λ ws. slice_index ws 0) (drop 1) 3 (7 ∷ []) ≡ [] }
    ensures only { picked_one (λ ws. slice_index ws 0) (drop 1) 1 (7 ∷ []) ≡ 0 }
    ensures only_kept { picked_one_words (λ ws. slice_index ws 0) (drop 1) 1 (7 ∷ []) ≡ 7 ∷ [] }
{}

/// Two words in turn, and how many were drawn.
#[derive(Drop)]
struct InTurn {
    words: [u32; 2],
    drawn: u64,
}

impl Words for InTurn {
    ghost word = { λ s. slice_index s.words (s.drawn % 2) };

    ghost after = { λ s. record s { drawn = (s.drawn + 1) % 2 ^ 64 } };

    fn next_word(&mut self) -> u32 {
        let word = self.words[(self.drawn % 2) as usize];
        self.drawn = self.drawn.wrapping_add(1);
        word
    }
}

/// The words 7 and 9 in turn.
fn seven_and_nine() -> InTurn {
    InTurn {
        words: [7, 9],
        drawn: 0,
    }
}

fn numbered(alloc: Global, n: u16) -> Result<Vec<PeerNo>, AllocError>
    ensures { IfOk result (λ v. IsAscending v.items) }
{
    let mut peers = Vec::new(alloc);
    for i in 0..n {
        peers.push(PeerNo(i + 1))?;
    }
    Ok(peers)
}

/// Whether a pick of k from peers 1 to n, by the words 7 and 9 in turn, gives these, and draws this
/// many words.
fn picks(
    alloc: Global,
    n: u16,
    k: usize,
    wanted: &[PeerNo],
    drawn: u64,
) -> Result<bool, AllocError> {
    let mut words = seven_and_nine();
    let candidates = numbered(alloc, n)?;
    let chosen = pick(alloc, &candidates, k, &mut words)?;
    Ok(chosen.as_slice() == wanted && words.drawn == drawn)
}

/// Some of the candidates are picked by a word each, and all of them by none.
fn picks_by_words(alloc: Global) -> Result<bool, AllocError> {
    let two_of_five = picks(alloc, 5, 2, &ODD, 2)?;
    let three_of_four = picks(alloc, 4, 3, &[PeerNo(1), PeerNo(2), PeerNo(4)], 3)?;
    let two_of_two = picks(alloc, 2, 2, &[PeerNo(1), PeerNo(2)], 0)?;
    let nine_of_two = picks(alloc, 2, 9, &[PeerNo(1), PeerNo(2)], 0)?;
    let none_of_three = picks(alloc, 3, 0, &[], 0)?;
    let two_of_none = picks(alloc, 0, 2, &[], 0)?;
    Ok(two_of_five && three_of_four && two_of_two && nine_of_two && none_of_three && two_of_none)
}

#[test]
fn a_word_is_drawn_for_each_that_is_picked(rt: HostRuntime) -> Result<(), AllocError> {
    assert!(rt; picks_by_words(rt.alloc())?);
    Ok(())
}

#[test]
fn one_of_several_is_picked_by_a_word(rt: HostRuntime) {
    let mut words = seven_and_nine();
    assert_eq!(rt; pick_one(3, &mut words), 1);
    assert_eq!(rt; words.drawn, 1);
    assert_eq!(rt; pick_one(1, &mut words), 0);
    assert_eq!(rt; words.drawn, 1);
    assert_eq!(rt; pick_one(5, &mut words), 4);
    assert_eq!(rt; words.drawn, 2);
}

/// A pick takes seeded words from their front, and leaves the others.
fn picks_by_seeded_words(alloc: Global) -> Result<bool, AllocError> {
    let mut words = SeededWords::new(vec![in alloc; 7, 9, 11]?, 42, PeerNo(54));
    let candidates = numbered(alloc, 5)?;
    let chosen = pick(alloc, &candidates, 2, &mut words)?;
    Ok(chosen.as_slice() == ODD.as_slice() && words.next_word() == 11)
}

#[test]
fn a_pick_takes_the_next_seeded_words(rt: HostRuntime) -> Result<(), AllocError> {
    assert!(rt; picks_by_seeded_words(rt.alloc())?);
    Ok(())
}

/// What takes nothing and gives nothing: that it can be called is all there is to test.
#[test]
fn the_law_of_picks_can_be_called(_rt: HostRuntime) {
    the_definitions_shuffle_as_in_the_worked_example();
    the_definitions_pick_as_in_the_worked_example();
    the_definitions_draw_as_in_the_worked_example();
    the_definitions_pick_one_as_in_the_worked_example();
    a_pick_is_the_front_of_a_shuffle::<SeededWords>();
}
