//! The lowest that peers score each other.
ghost use Rattle.std.specs.Prelude.{◌≡◌, ◌++◌, ◌∷◌, [], if◌then◌else◌, IfOk, List, OnOk};
ghost use Rattle.gs_base.specs.Names.{same_peer};
ghost use Rattle.gs_base.specs.declared.names.PeerNo.{PeerNo as PeerNoValue};
ghost use Rattle.gs_plan.specs.declared.plan.Plan.{Plan as PlanValue};
ghost use Rattle.gs_opinions.specs.declared.opinion.Opinion.{Opinion as OpinionValue};
ghost use Rattle.gs_opinions.specs.Noting.{ShowsPairs, lower_opinion, lowest_of};

use crate::opinion::{Lowest, Opinion, lower_opinion};
use gs_base::PeerNo;
use gs_plan::Plan;
use std::alloc::{AllocError, Global};
use std::collections::BTreeMap;

/// The lowest that a peer scores others, by their numbers.
pub(crate) type PairRow = BTreeMap<PeerNo, Lowest>;

/// An empty row for each peer of a plan.
pub(crate) fn empty_rows(alloc: Global, plan: &Plan) -> Result<Vec<PairRow>, AllocError>
    ensures { IfOk result (λ rows. ShowsPairs plan.now rows.items []) }
{
    let mut rows = Vec::new(alloc);
    for _ in 0..plan.peers.len() {
        rows.push(BTreeMap::new(alloc))?;
    }
    Ok(rows)
}

/// Lowers what one peer scores another, if the plan has the first.
pub(crate) fn lower_between(rows: &mut Vec<PairRow>, opinion: Opinion) -> Result<(), AllocError>
    ensures { OnOk result ((plan : PlanValue) (os : List OpinionValue)
        → ShowsPairs plan rows.old.items os
        → ShowsPairs plan rows.new.items (os ++ opinion ∷ [])) }
{
    match rows.get_mut(usize::from(opinion.by.0)) {
        Some(row) => lower_of(row, opinion),
        None => Ok(()),
    }
}

fn lower_of(row: &mut PairRow, opinion: Opinion) -> Result<(), AllocError>
    ensures { OnOk result ((q : PeerNoValue) → lowest_of row.new q
        ≡ (if same_peer opinion.of q then lower_opinion opinion (lowest_of row.old q) else lowest_of row.old q)) }
{
    match row.get_mut(&opinion.of) {
        Some(lowest) => {
            *lowest = lower_opinion(*lowest, opinion);
            Ok(())
        }
        None => {
            row.insert(opinion.of, opinion.lowest())?;
            Ok(())
        }
    }
}
