//! Choices among peers by random words.
ghost use Rattle.std.specs.Prelude.{◌≡◌, ◌<◌, ℕ, IfOk, OnOk, OnErr, List, length, filter, take};
ghost use Rattle.std.specs.Set.{is_member};
ghost use Rattle.gs_base.specs.Names.{same_peer};
ghost use Rattle.gs_base.specs.declared.names.PeerNo.{PeerNo as PeerNoValue};
ghost use Rattle.gs_params.specs.Picks.{IsAscending, IsSample, after_words, next_words, picked, picked_one, picked_one_words, picked_words, shuffled};

use crate::words::Words;
use gs_base::PeerNo;
use std::alloc::{AllocError, Global};

/// Shuffles the first k places: exchanges each with itself or with one after it.
fn shuffle<W: Words>(places: &mut Vec<PeerNo>, k: usize, words: &mut W)
    requires { k < length places.old.items }
    ensures places { places.new.items ≡ shuffled 0 (next_words W.word W.after k words.old) places.old.items }
    ensures words { words.new ≡ after_words W.word W.after k words.old }
{
    for i in 0..k {
        let word = words.next_word() as usize;
        let j = i + word % (places.len() - i);
        places.swap(i, j);
    }
}

/// Keeps the peers that are among these, in their order, so that no pick needs sorting.
fn keep(peers: &mut Vec<PeerNo>, these: &[PeerNo])
    ensures { peers.new.items ≡ filter (is_member same_peer these.now) peers.old.items }
{
    peers.retain(|peer| these.contains(peer));
}

/// Picks k of the ascending candidates, or all of them if there are at most k. It draws a word for each pick, and none if
/// it picks all.
///
/// # Errors
/// `AllocError` when out of memory; no word was drawn then.
pub fn pick<W: Words>(
    alloc: Global,
    candidates: &[PeerNo],
    k: usize,
    words: &mut W,
) -> Result<Vec<PeerNo>, AllocError>
    requires { IsAscending candidates.now }
    ensures picked { IfOk result (λ v. v.items ≡ picked W.word W.after k candidates.now words.old) }
    ensures sample { IfOk result (λ v. IsSample k candidates.now v.items) }
    ensures words { OnOk result (words.new ≡ picked_words W.word W.after k candidates.now words.old) }
    ensures err { OnErr result (words.new ≡ words.old) }
{
    let mut chosen = candidates.to_vec(alloc)?;
    if candidates.len() <= k {
        return Ok(chosen);
    }
    let mut places = candidates.to_vec(alloc)?;
    shuffle(&mut places, k, words);
    places.truncate(k);
    keep(&mut chosen, &places);
    Ok(chosen)
}

/// Picks one of n places, numbered from 0, by a word. If there is only one place, it draws no word.
#[tactic(auto, unfolding(crate::specs::Picks::picked_one, crate::specs::Picks::picked_one_words))]
pub fn pick_one<W: Words>(n: usize, words: &mut W) -> usize
    requires { 0 < n }
    ensures picked { result ≡ picked_one W.word W.after n words.old }
    ensures place { result < n }
    ensures words { words.new ≡ picked_one_words W.word W.after n words.old }
{
    if n == 1 {
        return 0;
    }
    words.next_word() as usize % n
}

/// A pick has k of the candidates, or all if there are fewer, ascending and none twice. If there are more than k, the pick
/// has those in the first k places of the shuffle by the next k words.
pub fn a_pick_is_the_front_of_a_shuffle<W: Words>()
    ensures sample { (k : ℕ) (candidates : List PeerNoValue) (words : W)
        → IsAscending candidates
        → IsSample k candidates (picked W.word W.after k candidates words) }
    ensures front { (k : ℕ) (candidates : List PeerNoValue) (words : W) (p : PeerNoValue)
        → k < length candidates
        → is_member same_peer (picked W.word W.after k candidates words) p ≡
        is_member same_peer (take k (shuffled 0 (next_words W.word W.after k words) candidates)) p }
{}
