//! The lowest opinions of a run.
ghost use Rattle.std.specs.Prelude.{◌≡◌, ◌++◌, IfOk, List, map, OnOk};
ghost use Rattle.std.specs.List.{range_with_len};
ghost use Rattle.gs_plan.specs.Plans.{IsInRange};
ghost use Rattle.gs_reach.specs.declared.chosen.Chosen.{Chosen as ChosenValue};
ghost use Rattle.gs_opinions.specs.declared.opinion.Opinion.{Opinion as OpinionValue};
ghost use Rattle.gs_opinions.specs.Listing.{all_rows, groups_at, pair_below, round_at, rows_at, rows_by};
ghost use Rattle.gs_opinions.specs.Noting.{Shows};
ghost use Rattle.gs_opinions.specs.Runs.{lowest_opinions};

use crate::cells::cell_at;
use crate::opinion::Lowest;
use crate::pairs::PairRow;
use crate::tables::{GroupRounds, Tables};
use gs_base::{PeerNo, Seq};
use gs_plan::Plan;
use gs_reach::Chosen;
use std::alloc::{AllocError, Global};

/// The lowest score that a peer gives a neighbour over a run.
#[derive(Clone, Copy, Debug, PartialEq, Eq)]
pub struct PairOpinion {
    /// Who gives the score.
    pub by: PeerNo,
    /// The neighbour that gets it.
    pub of: PeerNo,
    pub lowest: Lowest,
}

/// The lowest scores of a round, in millionths.
#[derive(Debug, Drop, PartialEq, Eq)]
pub struct RoundOpinions {
    /// Its number. The first round is 0.
    pub round: u64,
    /// The lowest of all, if there is any.
    pub lowest: Option<i128>,
    /// For each group, the lowest score that one of its members is given, if there is any.
    pub groups: Seq<Option<i128>>,
}

/// The lowest opinions of a run. Opinions are what peers score their neighbours at each heartbeat, decay and shutdown, after
/// what they did then. A decay brings counters nearer to 0, so the scores just before it count, too.
#[derive(Debug, Drop, PartialEq, Eq)]
pub struct Opinions {
    /// A row for each peer and each neighbour that it has an opinion of. Rows ascend by the number of the peer, and then by
    /// that of the neighbour.
    pub pairs: Seq<PairOpinion>,
    /// A row for each round, including the last one of the plan. Later opinions are in no row.
    pub rounds: Seq<RoundOpinions>,
}

/// The rows of these tables.
pub(crate) fn rows_of(
    alloc: Global,
    plan: &Plan,
    tables: &Tables<'_>,
) -> Result<Opinions, AllocError>
    requires range { IsInRange plan.now }
    requires shown { (groups : List ChosenValue) × (os : List OpinionValue) × Shows plan.now groups tables.now os }
    ensures { IfOk result (λ opinions. (groups : List ChosenValue) (os : List OpinionValue)
        → Shows plan.now groups tables.now os
        → opinions ≡ lowest_opinions plan.now groups os) }
{
    let pairs = pair_rows(alloc, plan.peers.len() as u16, &tables.pairs)?;
    let rounds = round_rows(alloc, plan.rounds + 1, tables)?;
    Ok(Opinions { pairs, rounds })
}

fn pair_rows(alloc: Global, count: u16, rows: &[PairRow]) -> Result<Seq<PairOpinion>, AllocError>
    ensures { IfOk result (λ pairs. pairs ≡ all_rows count rows.now) }
{
    let mut pairs = Seq::new(alloc);
    for number in 0..count {
        list_row(&mut pairs, count, rows, PeerNo(number))?;
    }
    Ok(pairs)
}

/// Lists what a peer scores each of this many peers, if there is a row for it.
fn list_row(
    pairs: &mut Seq<PairOpinion>,
    count: u16,
    rows: &[PairRow],
    by: PeerNo,
) -> Result<(), AllocError>
    ensures { OnOk result (pairs.new ≡ pairs.old ++ rows_at rows.now count by.0) }
{
    match rows.get(usize::from(by.0)) {
        Some(row) => list_pairs(pairs, count, by, row),
        None => Ok(()),
    }
}

fn list_pairs(
    pairs: &mut Seq<PairOpinion>,
    count: u16,
    by: PeerNo,
    row: &PairRow,
) -> Result<(), AllocError>
    ensures { OnOk result (pairs.new ≡ pairs.old ++ rows_by by row.now count) }
{
    for (of, lowest) in row {
        let pair = PairOpinion {
            by,
            of: *of,
            lowest: *lowest,
        };
        list_pair(pairs, count, pair)?;
    }
    Ok(())
}

/// Lists a pair, if it is about one of this many peers.
fn list_pair(pairs: &mut Seq<PairOpinion>, count: u16, pair: PairOpinion) -> Result<(), AllocError>
    ensures { OnOk result (pairs.new ≡ pairs.old ++ pair_below count pair) }
{
    if pair.of.0 < count {
        return pairs.push(pair);
    }
    Ok(())
}

fn round_rows(
    alloc: Global,
    count: u64,
    tables: &Tables<'_>,
) -> Result<Seq<RoundOpinions>, AllocError>
    ensures { IfOk result (λ rounds. rounds ≡ map (round_at tables.now) (range_with_len 0 count)) }
{
    let mut rounds = Seq::new(alloc);
    for round in 0..count {
        rounds.push(round_row(alloc, round, tables)?)?;
    }
    Ok(rounds)
}

fn round_row(alloc: Global, round: u64, tables: &Tables<'_>) -> Result<RoundOpinions, AllocError>
    ensures { IfOk result (λ row. row ≡ round_at tables.now round) }
{
    let groups = groups_at(alloc, round as usize, &tables.groups)?;
    Ok(RoundOpinions {
        round,
        lowest: cell_at(&tables.rounds, round as usize),
        groups,
    })
}

/// The lowest score of each group in a round.
fn groups_at(
    alloc: Global,
    round: usize,
    groups: &[GroupRounds<'_>],
) -> Result<Seq<Option<i128>>, AllocError>
    ensures { IfOk result (λ scores. scores ≡ groups_at round groups.now) }
{
    let mut scores = Seq::new(alloc);
    for group in groups {
        scores.push(cell_at(&group.rounds, round))?;
    }
    Ok(scores)
}
