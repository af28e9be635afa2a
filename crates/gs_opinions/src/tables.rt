//! The tables of a run while opinions are noted.
ghost use Rattle.std.specs.Prelude.{◌≡◌, ◌<◌, ◌++◌, ◌∷◌, [], IfOk, List, map, OnOk};
ghost use Rattle.std.specs.List.{AllZip};
ghost use Rattle.gs_plan.specs.Plans.{IsInRange};
ghost use Rattle.gs_plan.specs.declared.plan.Plan.{Plan as PlanValue};
ghost use Rattle.gs_reach.specs.declared.chosen.Chosen.{Chosen as ChosenValue};
ghost use Rattle.gs_opinions.specs.declared.opinion.Opinion.{Opinion as OpinionValue};
ghost use Rattle.gs_opinions.specs.Noting.{Shows, ShowsGroup, lowered_group, lowered_in_round};
ghost use Rattle.gs_opinions.specs.Runs.{round_of};

use crate::cells::{Cells, filled};
use crate::members::Members;
use crate::opinion::{Opinion, lower_score};
use crate::pairs::{PairRow, empty_rows, lower_between};
use gs_base::Millis;
use gs_plan::Plan;
use gs_reach::Chosen;
use std::alloc::{AllocError, Global};

/// The lowest opinions so far.
#[derive(Drop)]
pub(crate) struct Tables<'a> {
    round_ms: u64,
    /// A row for each peer, by number.
    pub pairs: Vec<PairRow>,
    /// The lowest score of each round.
    pub rounds: Cells<Option<i128>>,
    pub groups: Vec<GroupRounds<'a>>,
}

/// For each round, the lowest score that anybody gives a member of a group.
#[derive(Drop)]
pub(crate) struct GroupRounds<'a> {
    pub members: Members<'a>,
    pub rounds: Cells<Option<i128>>,
}

impl<'a> Tables<'a> {
    /// Tables that show no opinion.
    pub(crate) fn new(
        alloc: Global,
        plan: &Plan,
        groups: &'a [Chosen],
    ) -> Result<Tables<'a>, AllocError>
        requires { IsInRange plan.now }
        ensures { IfOk result (λ tables. Shows plan.now groups.now tables []) }
    {
        let pairs = empty_rows(alloc, plan)?;
        let rounds = filled(alloc, plan.rounds as usize + 1, None)?;
        let groups = all_rounds(alloc, plan, groups)?;
        Ok(Tables {
            round_ms: plan.round_ms,
            pairs,
            rounds,
            groups,
        })
    }

    /// Notes an opinion.
    pub(crate) fn note(&mut self, opinion: Opinion) -> Result<(), AllocError>
        ensures { OnOk result ((plan : PlanValue) (groups : List ChosenValue) (os : List OpinionValue)
            → Shows plan groups self.old os → Shows plan groups self.new (os ++ opinion ∷ [])) }
    {
        let round = round_of(self.round_ms, opinion.at);
        lower_in_round(&mut self.rounds, round, opinion);
        lower_groups(&mut self.groups, round, opinion);
        lower_between(&mut self.pairs, opinion)
    }
}

impl<'a> GroupRounds<'a> {
    fn new(alloc: Global, plan: &Plan, group: &'a Chosen) -> Result<GroupRounds<'a>, AllocError>
        requires { IsInRange plan.now }
        ensures { IfOk result (λ rounds. ShowsGroup plan.now [] group.now rounds) }
    {
        let members = Members::new(alloc, plan, group)?;
        let rounds = filled(alloc, plan.rounds as usize + 1, None)?;
        Ok(GroupRounds { members, rounds })
    }

    /// Notes an opinion, if it is about a member of the group.
    fn note(&mut self, round: usize, opinion: Opinion)
        ensures { self.new ≡ lowered_group round opinion self.old }
    {
        if self.members.contains(opinion.of) {
            lower_in_round(&mut self.rounds, round, opinion);
        }
    }
}

/// The round that a moment lies in, where rounds last this many milliseconds.
fn round_of(round_ms: u64, at: Millis) -> usize
    ensures { (plan : PlanValue) → 0 < plan.round_ms → round_ms ≡ plan.round_ms → result ≡ round_of plan at }
{
    (at.0 / round_ms.max(1)) as usize
}

/// Lowers the score of a round, if the round has a number of the table.
fn lower_in_round(cells: &mut Cells<Option<i128>>, round: usize, opinion: Opinion)
    ensures { cells.new ≡ lowered_in_round round opinion.score cells.old }
{
    if let Some(found) = cells.get(round) {
        cells.put(round, lower_score(found, opinion));
    }
}

/// Notes an opinion in the rounds of each group that has the scored peer as a member.
fn lower_groups(groups: &mut [GroupRounds<'_>], round: usize, opinion: Opinion)
    ensures { groups.new ≡ map (lowered_group round opinion) groups.old }
{
    for group in groups.iter_mut() {
        group.note(round, opinion);
    }
}

/// The rounds of each group, which show no opinion.
fn all_rounds<'a>(
    alloc: Global,
    plan: &Plan,
    groups: &'a [Chosen],
) -> Result<Vec<GroupRounds<'a>>, AllocError>
    requires { IsInRange plan.now }
    ensures { IfOk result (λ all. AllZip (ShowsGroup plan.now []) groups.now all.items) }
{
    let mut all = Vec::new(alloc);
    for group in groups {
        all.push(GroupRounds::new(alloc, plan, group)?)?;
    }
    Ok(all)
}
