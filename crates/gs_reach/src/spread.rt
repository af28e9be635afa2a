//! In how many rounds parts of all subscribers were reached.
ghost use Rattle.std.specs.Prelude.{◌≡◌, IfOk, slice_get, ◌-◌};
ghost use Rattle.gs_reach.specs.Order.{ascending};
ghost use Rattle.gs_reach.specs.Reached.{rank, spread};

use crate::pairs::{Pair, rounds_of};
use std::alloc::{AllocError, Global};

/// In how many rounds parts of all subscribers were reached, by nearest rank. A subscriber that was not reached counts as
/// later than all others. A part that includes one has no number.
#[derive(Clone, Copy, Debug, PartialEq, Eq)]
pub struct Spread {
    /// For the first of them.
    pub first: Option<u64>,
    /// For half of them.
    pub median: Option<u64>,
    /// For 90 percent of them.
    pub ninetieth: Option<u64>,
    /// For 99 percent of them.
    pub ninety_ninth: Option<u64>,
    /// For all of them.
    pub last: Option<u64>,
}

/// Returns in how many rounds parts of these subscribers were reached.
///
/// # Errors
/// `AllocError` when out of memory for a sorted copy.
pub fn spread_of(alloc: Global, pairs: &[Pair]) -> Result<Spread, AllocError>
    ensures { IfOk result (λ of_all. of_all ≡ spread pairs.now) }
{
    let rounds = sorted(rounds_of(alloc, pairs)?)?;
    let count = pairs.len();
    Ok(Spread {
        first: of_rank(1, &rounds),
        median: of_rank(median_rank(count), &rounds),
        ninetieth: of_rank(ninetieth_rank(count), &rounds),
        ninety_ninth: of_rank(ninety_ninth_rank(count), &rounds),
        last: of_rank(last_rank(count), &rounds),
    })
}

/// The same numbers, ascending.
fn sorted(numbers: Vec<u64>) -> Result<Vec<u64>, AllocError>
    ensures { IfOk result (λ sorted. sorted.items ≡ ascending (λ n. n) numbers.items) }
{
    let mut numbers = numbers;
    numbers.sort()?;
    Ok(numbers)
}

/// The number of a rank among ascending ones, where the first has rank 1.
fn of_rank(rank: usize, ascending: &[u64]) -> Option<u64>
    ensures { result ≡ slice_get ascending.now (rank - 1) }
{
    ascending.get(rank.saturating_sub(1)).copied()
}

/// The rank of the median.
fn median_rank(count: usize) -> usize
    ensures { result ≡ rank 50 count }
{
    (count - count / 2).max(1)
}

/// The rank of the 90th percentile.
fn ninetieth_rank(count: usize) -> usize
    ensures { result ≡ rank 90 count }
{
    (count - count / 10).max(1)
}

/// The rank of the 99th percentile.
fn ninety_ninth_rank(count: usize) -> usize
    ensures { result ≡ rank 99 count }
{
    (count - count / 100).max(1)
}

/// The rank of the last.
fn last_rank(count: usize) -> usize
    ensures { result ≡ rank 100 count }
{
    count.max(1)
}
