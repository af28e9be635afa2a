//! When a score was below a bound, over a run.
ghost use Rattle.std.specs.Prelude.{◌≡◌, [], ℤ, OnOk};
ghost use Rattle.gs_snapshots.specs.Courses.{course_of, is_below};
ghost use Rattle.gs_snapshots.specs.Noting.{course_with};

use crate::snapshot::Snapshot;
use gs_base::{Millis, Seq};
use std::alloc::{AllocError, Global};

/// A moment at which a score crossed a bound.
#[derive(Clone, Copy, Debug, PartialEq, Eq)]
pub struct Crossing {
    /// When, in milliseconds from the start of the run.
    pub at: Millis,
    /// Whether the score is below the bound from then on.
    pub is_below: bool,
}

/// When a score was below a bound. Before the first moment, the score counts as not below the bound.
#[derive(Debug, Drop)]
pub struct Course {
    /// Whether the score is below the bound at the last moment.
    pub is_below: bool,
    /// The moments at which the score crossed the bound, the earliest first.
    pub crossings: Seq<Crossing>,
}

impl Course {
    /// Returns the course of no moment at all.
    pub(crate) fn new(alloc: Global) -> Course
        ensures { (bound : ℤ) → result ≡ course_of bound [] }
    {
        Course {
            is_below: false,
            crossings: Seq::new(alloc),
        }
    }

    /// Notes what a neighbour scores at the next moment.
    pub(crate) fn note(&mut self, bound: &i64, snapshot: &Snapshot) -> Result<(), AllocError>
        ensures { OnOk result (self.new ≡ course_with bound.now snapshot.now self.old) }
    {
        let is_below = is_below(bound, snapshot);
        if is_below == self.is_below {
            return Ok(());
        }
        self.is_below = is_below;
        self.crossings.push(Crossing {
            at: snapshot.moment.at,
            is_below,
        })
    }
}

/// Says whether a score is below a bound.
fn is_below(bound: &i64, snapshot: &Snapshot) -> bool
    ensures { result ≡ is_below bound.now snapshot.now }
{
    snapshot.parts.score < i128::from(*bound)
}
