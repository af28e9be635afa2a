//! Which scores are reported, and how.
ghost use Rattle.std.specs.Prelude.{◌≡◌};
ghost use Rattle.gs_trace.specs.Wanted.{spelled};
ghost use Rattle.gs_snapshots.specs.Wishes.{has_name, is_in_rounds, wishes_of};

use gs_base::PeerNo;
use gs_plan::Plan;
use gs_report::name_of;
use gs_trace::{RoundSpan, Wish};

/// Which scores are reported, and how: those that match each of these options.
#[derive(Clone, Copy, Debug, Drop)]
pub struct Wanted<'a> {
    /// Only scores that the peer with this name gives.
    pub peer: Wish<'a>,
    /// Only scores that the neighbour with this name gets.
    pub neighbour: Wish<'a>,
    /// Only scores at moments in these rounds.
    pub rounds: Option<RoundSpan>,
    /// The form of the text. None stands for JSON Lines.
    pub form: Option<Form>,
}

/// The form of the text that reports scores.
#[derive(Clone, Copy, Debug, PartialEq, Eq)]
pub enum Form {
    /// JSON Lines: a line for each neighbour at each moment.
    Json,
    /// CSV: a row for each part.
    Csv,
}

/// Says whether the name that an option asks for, if any, belongs to the peer with this number.
pub(crate) fn has_name(wish: Wish<'_>, plan: &Plan, number: PeerNo) -> bool
    ensures { result ≡ has_name (spelled wish.entry) plan.now number }
{
    match wish {
        Wish::Any => true,
        Wish::Only(name) => name_of(plan, number) == name,
    }
}

/// Says whether a round is among those that an option asks for. Without the option, each round is.
pub(crate) fn is_in_rounds(rounds: Option<RoundSpan>, round: u64) -> bool
    ensures { result ≡ is_in_rounds rounds round }
{
    match rounds {
        None => true,
        Some(rounds) => rounds.first <= round && round <= rounds.last,
    }
}
