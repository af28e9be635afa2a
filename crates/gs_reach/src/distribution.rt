//! How many of all subscribers were reached within limits of rounds.
ghost use Rattle.std.specs.Prelude.{◌≡◌, ◌++◌, IfOk, OnOk, map};
ghost use Rattle.gs_reach.specs.Reached.{distribution, limits, reached, shown, within};

use crate::pairs::{Pair, missed, reached, reached_within};
use crate::spread::{Spread, spread_of};
use gs_base::Seq;
use std::alloc::{AllocError, Global};

/// How many subscribers were reached within a limit of rounds.
#[derive(Clone, Copy, Debug, PartialEq, Eq)]
pub struct Within {
    pub limit: u64,
    /// How many were reached in that number of rounds or fewer.
    pub reached: u64,
}

/// How many of all subscribers were reached, and in how many rounds.
#[derive(Debug, Drop, PartialEq, Eq)]
pub struct Distribution {
    /// How many pairs there are: one for each subscriber of each message.
    pub pairs: u64,
    /// How many were reached within 1, 2, 3, 5, 8 and more rounds. The last limit is the first within which all were reached
    /// that were reached at all.
    pub within: Seq<Within>,
    /// How many were not reached.
    pub missed: u64,
    pub spread: Spread,
}

/// The limits of rounds. From the third on, each is the sum of the two before it. The last one is above the rounds of the
/// longest run.
pub const LIMITS: [u64; 25] = [
    1, 2, 3, 5, 8, 13, 21, 34, 55, 89, 144, 233, 377, 610, 987, 1_597, 2_584, 4_181, 6_765, 10_946,
    17_711, 28_657, 46_368, 75_025, 121_393,
];

/// Returns how many of these subscribers were reached, and in how many rounds.
///
/// # Errors
/// `AllocError` when out of memory.
#[tactic(auto, unfolding(crate::specs::Reached::distribution))]
pub fn distribution_of(alloc: Global, pairs: &[Pair]) -> Result<Distribution, AllocError>
    ensures { IfOk result (λ of_all. of_all ≡ distribution pairs.now) }
{
    let spread = spread_of(alloc, pairs)?;
    let within = within_limits(alloc, pairs)?;
    Ok(Distribution {
        pairs: pairs.len() as u64,
        within,
        missed: missed(pairs),
        spread,
    })
}

fn within_limits(alloc: Global, pairs: &[Pair]) -> Result<Seq<Within>, AllocError>
    ensures { IfOk result (λ list. list ≡ map (within pairs.now) (shown pairs.now limits)) }
{
    let mut list = Seq::new(alloc);
    push_limits(&mut list, pairs, reached(pairs), &LIMITS)?;
    Ok(list)
}

/// Adds these limits, up to the first one within which all were reached that were reached at all.
fn push_limits(
    list: &mut Seq<Within>,
    pairs: &[Pair],
    all: u64,
    limits: &[u64],
) -> Result<(), AllocError>
    requires { all ≡ reached pairs.now }
    ensures { OnOk result (list.new ≡ list.old ++ map (within pairs.now) (shown pairs.now limits.now)) }
{
    for limit in limits {
        let reached = reached_within(*limit, pairs);
        list.push(Within {
            limit: *limit,
            reached,
        })?;
        if all <= reached {
            return Ok(());
        }
    }
    Ok(())
}
