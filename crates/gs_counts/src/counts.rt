//! A row of a table: how often each kind happened, or how much of it.
ghost use Rattle.std.specs.Prelude.{◌≡◌, ◌<◌};
ghost use Rattle.gs_counts.specs.Rows.{count_at, counted, counted_at, no_counts, with_counts};

use crate::kind::{KINDS, Kind};

/// How often each kind happened, or how much of it. A number above the largest `u64` is given as the largest.
#[derive(Clone, Copy, Debug, PartialEq, Eq)]
pub struct Counts {
    amounts: [u64; KINDS],
}

/// Returns a row in which nothing happened.
pub fn no_counts() -> Counts
    ensures { result ≡ no_counts }
{
    Counts {
        amounts: [0; KINDS],
    }
}

impl Counts {
    /// Returns how often a kind happened, or how much of it.
    pub fn of(&self, kind: Kind) -> u64
        ensures { result ≡ count_at self.now kind }
    {
        self.amounts[kind.place()]
    }

    /// Returns the sum of two rows, number by number.
    pub fn with(&self, others: &Counts) -> Counts
        ensures { result ≡ with_counts self.now others.now }
    {
        let mut both = *self;
        for place in 0..KINDS {
            both.add_at(place, others.amounts[place]);
        }
        both
    }

    /// Adds an amount to a kind.
    pub(crate) fn add(&mut self, kind: Kind, amount: u64)
        ensures { self.new ≡ counted self.old kind amount }
    {
        self.add_at(kind.place(), amount);
    }

    /// Adds an amount at a place.
    fn add_at(&mut self, place: usize, amount: u64)
        requires { place < KINDS }
        ensures { self.new ≡ counted_at self.old place amount }
    {
        self.amounts[place] = self.amounts[place].saturating_add(amount);
    }
}
