ghost use Rattle.std.specs.Prelude.{◌≡◌, [], ◌∷◌};
ghost use Rattle.gs_params.specs.Picks.{next_words};
ghost use Rattle.gs_params.specs.Seeding.{new_seeded, seeded_after, seeded_word};

use gs_base::PeerNo;
use gs_params::{SeededWords, Words, seeded_words_give_their_list_first};
use std::alloc::{AllocError, Global};

/// The first words of the reference generator of PCG's C code, pcg32, at state 42 and stream 54.
static REFERENCE: [u32; 6] = [
    0xa15c_02b7,
    0x7b47_f409,
    0xba1d_3330,
    0x83d2_f293,
    0xbfa4_784b,
    0xcbed_606e,
];

/// The peer whose number is the stream of the reference.
const STREAM: PeerNo = PeerNo(54);

/// The definitions by themselves give the reference's words, after a list of two.
#[tactic(auto, unfolding(gs_params::specs::Picks::next_words))]
fn the_definitions_give_the_reference_words()
    ensures { next_words seeded_word seeded_after 8 (new_seeded (7 ∷ 9 ∷ []) 42 STREAM)
        ≡ 7 ∷ 9 ∷ 0xa15c02b7 ∷ 0x7b47f409 ∷ 0xba1d3330 ∷ 0x83d2f293 ∷ 0xbfa4784b ∷ 0xcbed606e ∷ [] }
{}

/// Whether these are the next words.
fn gives(words: &mut SeededWords, wanted: &[u32]) -> bool {
    for word in wanted {
        if words.next_word() != *word {
            return false;
        }
    }
    true
}

/// Seeded words give their list and then the words of its generator, and the latter at once where the
/// list is empty.
fn gives_the_list_first(alloc: Global) -> Result<bool, AllocError> {
    let mut words = SeededWords::new(vec![in alloc; 7, 9]?, 42, STREAM);
    let mut without_list = SeededWords::new(Vec::new(alloc), 42, STREAM);
    Ok(
        gives(&mut words, &[7, 9])
            && gives(&mut words, &REFERENCE)
            && gives(&mut without_list, &REFERENCE),
    )
}

#[test]
fn seeded_words_give_their_list_and_then_their_generator(
    rt: HostRuntime,
) -> Result<(), AllocError> {
    assert!(rt; gives_the_list_first(rt.alloc())?);
    Ok(())
}

/// What takes nothing and gives nothing: that it can be called is all there is to test.
#[test]
fn the_law_of_seeded_words_can_be_called(_rt: HostRuntime) {
    the_definitions_give_the_reference_words();
    seeded_words_give_their_list_first();
}
