//! The words that a peer of a scenario draws.
ghost use Rattle.std.specs.Prelude.{◌≡◌, ℕ, ◌+◌, List, ◌++◌, length};
ghost use Rattle.gs_base.specs.declared.names.PeerNo.{PeerNo as PeerNoValue};
ghost use Rattle.gs_params.specs.Picks.{next_words};
ghost use Rattle.gs_params.specs.Seeding.{generator_after, generator_of, generator_word, new_seeded, seeded_after, seeded_word};

use crate::words::Words;
use gs_base::PeerNo;
use rand_pcg::Pcg32;
use rand_pcg::rand_core::utils::NextWord;
use std::marker::Model;

/// The words of a list in order, and after its end those of a generator.
#[derive(Debug, Drop)]
pub struct SeededWords {
    list: Vec<u32>,
    given: usize,
    seed: u64,
    peer: PeerNo,
    generator: Pcg32,
}

impl Model for SeededWords {
    ghost use Rattle.gs_params.specs.Seeding.{SeededState};

    ghost Value = { SeededState };

    ghost view = { λ s. record {
      list = s.list.items;
      given = s.given;
      seed = s.seed;
      peer = s.peer;
      generator = s.generator;
    } };
}

impl SeededWords {
    /// Returns a source that gives the words of this list, and then those of a PCG32 generator. The generator begins at the
    /// seed, in the stream of the peer's number. It takes no memory.
    pub fn new(list: Vec<u32>, seed: u64, peer: PeerNo) -> SeededWords
        ensures { result ≡ new_seeded list.items seed peer }
    {
        SeededWords {
            list,
            given: 0,
            seed,
            peer,
            generator: Pcg32::new(seed, u64::from(peer.0)),
        }
    }
}

impl Words for SeededWords {
    ghost word = { seeded_word };

    ghost after = { seeded_after };

    fn next_word(&mut self) -> u32 {
        if self.given < self.list.len() {
            let word = self.list[self.given];
            self.given += 1;
            return word;
        }
        self.generator.next_word()
    }
}

/// Seeded words are their list in order, and then the words of their generator.
pub fn seeded_words_give_their_list_first()
    ensures { (list : List ℕ) (seed : ℕ) (peer : PeerNoValue) (n : ℕ)
        → next_words seeded_word seeded_after (length list + n) (new_seeded list seed peer) ≡
        list ++ next_words generator_word generator_after n (generator_of seed peer) }
{}
