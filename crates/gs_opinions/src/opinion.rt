//! What a peer scores a neighbour, and the lowest of that.
ghost use Rattle.std.specs.Prelude.{◌≡◌, Some};
ghost use Rattle.gs_opinions.specs.Noting.{lower_opinion, lower_score};
ghost use Rattle.gs_opinions.specs.Runs.{lowest_in};

use gs_base::{Millis, PeerNo};

/// What a peer scores a neighbour at a moment.
#[derive(Clone, Copy, Debug, PartialEq, Eq)]
pub struct Opinion {
    /// Who gives the score.
    pub by: PeerNo,
    /// The neighbour that gets it.
    pub of: PeerNo,
    /// In millionths.
    pub score: i128,
    pub at: Millis,
}

/// The lowest score of some opinions.
#[derive(Clone, Copy, Debug, PartialEq, Eq)]
pub struct Lowest {
    /// In millionths.
    pub score: i128,
    /// The first moment at which it was so low.
    pub at: Millis,
}

impl Opinion {
    /// Its score, and its moment.
    pub(crate) fn lowest(self) -> Lowest
        ensures { result ≡ lowest_in self }
    {
        Lowest {
            score: self.score,
            at: self.at,
        }
    }
}

/// The lowest so far, or the next opinion, if that is lower.
pub(crate) fn lower_opinion(before: Lowest, next: Opinion) -> Lowest
    ensures { Some result ≡ lower_opinion next (Some before) }
{
    if next.score < before.score {
        return next.lowest();
    }
    before
}

/// The lowest score so far, or else that of the next opinion, if that is lower.
pub(crate) fn lower_score(found: Option<i128>, next: Opinion) -> Option<i128>
    ensures { result ≡ lower_score next.score found }
{
    match found {
        None => Some(next.score),
        Some(before) => {
            if next.score < before {
                return Some(next.score);
            }
            found
        }
    }
}
