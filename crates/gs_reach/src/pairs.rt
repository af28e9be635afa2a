//! A message and a subscriber of it, and how many subscribers were reached.
ghost use Rattle.std.specs.Prelude.{◌≡◌, ◌++◌, if◌then◌else◌, IfOk, OnOk, option_to_list};
ghost use Rattle.gs_reach.specs.Reached.{is_reached_within, missed, reached, reached_within, rounds_of};

use gs_base::PeerNo;
use std::alloc::{AllocError, Global};

/// A message and a peer that could be reached by it.
#[derive(Clone, Copy, Debug, PartialEq, Eq)]
pub struct Pair {
    pub subscriber: PeerNo,
    /// In how many rounds the message reached it, or `None` if it did not.
    pub rounds: Option<u64>,
}

/// Returns how many of these subscribers were reached.
pub fn reached(pairs: &[Pair]) -> u64
    ensures { result ≡ reached pairs.now }
{
    let mut count: u64 = 0;
    for pair in pairs {
        count += one_if(pair.rounds.is_some());
    }
    count
}

/// Returns how many of these subscribers were not reached.
pub fn missed(pairs: &[Pair]) -> u64
    ensures { result ≡ missed pairs.now }
{
    let mut count: u64 = 0;
    for pair in pairs {
        count += one_if(pair.rounds.is_none());
    }
    count
}

/// Returns how many of these subscribers were reached in a number of rounds or fewer.
pub fn reached_within(rounds: u64, pairs: &[Pair]) -> u64
    ensures { result ≡ reached_within rounds pairs.now }
{
    let mut count: u64 = 0;
    for pair in pairs {
        count += one_if(is_reached_within(rounds, pair));
    }
    count
}

fn is_reached_within(limit: u64, pair: &Pair) -> bool
    ensures { result ≡ is_reached_within limit pair.now }
{
    match pair.rounds {
        Some(rounds) => rounds <= limit,
        None => false,
    }
}

/// The rounds of those that were reached.
pub(crate) fn rounds_of(alloc: Global, pairs: &[Pair]) -> Result<Vec<u64>, AllocError>
    ensures { IfOk result (λ rounds. rounds.items ≡ rounds_of pairs.now) }
{
    let mut all = Vec::new(alloc);
    for pair in pairs {
        push_rounds(&mut all, pair.rounds)?;
    }
    Ok(all)
}

fn push_rounds(all: &mut Vec<u64>, rounds: Option<u64>) -> Result<(), AllocError>
    ensures { OnOk result (all.new.items ≡ all.old.items ++ option_to_list rounds) }
{
    match rounds {
        Some(rounds) => {
            all.push(rounds)?;
            Ok(())
        }
        None => Ok(()),
    }
}

/// 1 if it is so, and else 0.
pub(crate) fn one_if(is_so: bool) -> u64
    ensures { result ≡ (if is_so then 1 else 0) }
{
    if is_so {
        return 1;
    }
    0
}
