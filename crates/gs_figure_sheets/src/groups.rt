//! The sheet of what passes from group to group.
ghost use Rattle.std.specs.Prelude.{◌≡◌, [], ◌∷◌, ◌++◌, IfOk, map, OnOk};
ghost use Rattle.std.specs.List.{flat_map};
ghost use Rattle.gs_figure_sheets.specs.Between.{lowest_between, span_between};
ghost use Rattle.gs_figure_sheets.specs.Groups.{count_by, dealt_of, group_pages, group_row, group_rows, group_sheet, is_nobody, mesh_values, name_values, pair_values, pairs_between, reach_values, rows_from, score_values, sent_values, spread_values};

use crate::between::{lowest_between, over_between, places_between, span_between};
use crate::columns::group_columns;
use crate::figures::{lowest_in, moment_of, score_of, score_or_none};
use crate::party::Party;
use crate::rows::{count_or_none, push_name, share_of, share_or_none};
use crate::standing::Standing;
use gs_base::Seq;
use gs_counts::{Kind, LinkCounts, Span};
use gs_opinions::{Lowest, PairOpinion};
use gs_reach::{Chosen, MessageReach, Pair, Spread, accepted_pairs, missed, reached, spread_of};
use gs_sheets::{Row, Sheet, Value, bytes_of};
use std::alloc::{AllocError, Global};

/// The facts that the rows of groups need.
#[derive(Clone, Copy, Drop)]
pub(crate) struct Dealings<'a> {
    pub messages: &'a [MessageReach],
    pub links: &'a [LinkCounts],
    pub peers: &'a [Standing],
    pub opinions: &'a [PairOpinion],
}

/// Appends the sheet of groups, if there are groups.
///
/// # Errors
/// `AllocError` when out of memory.
pub(crate) fn push_groups(
    alloc: Global,
    sheets: &mut Seq<Sheet>,
    dealings: &Dealings<'_>,
    parties: &[Party],
) -> Result<(), AllocError>
    ensures { OnOk result (sheets.new ≡ sheets.old ++ group_pages (dealt_of dealings.now) parties.now) }
{
    match parties {
        [] => Ok(()),
        [_, ..] => sheets.push(group_sheet(alloc, dealings, parties)?),
    }
}

#[tactic(auto, unfolding(crate::specs::Groups::group_sheet))]
fn group_sheet(
    alloc: Global,
    dealings: &Dealings<'_>,
    parties: &[Party],
) -> Result<Sheet, AllocError>
    ensures { IfOk result (λ sheet. sheet ≡ group_sheet (dealt_of dealings.now) parties.now) }
{
    let name = bytes_of(alloc, b"groups")?;
    let title = bytes_of(alloc, b"From group to group")?;
    let columns = group_columns(alloc)?;
    let rows = group_rows(alloc, dealings, parties)?;
    Ok(Sheet {
        name,
        title,
        columns,
        names: 2,
        rows,
    })
}

fn group_rows(
    alloc: Global,
    dealings: &Dealings<'_>,
    parties: &[Party],
) -> Result<Seq<Row>, AllocError>
    ensures { IfOk result (λ rows. rows ≡ group_rows (dealt_of dealings.now) parties.now) }
{
    let mut rows = Seq::new(alloc);
    for from in parties {
        push_rows_from(alloc, &mut rows, dealings, parties, from)?;
    }
    Ok(rows)
}

/// Appends the rows from one group to each group.
fn push_rows_from(
    alloc: Global,
    rows: &mut Seq<Row>,
    dealings: &Dealings<'_>,
    parties: &[Party],
    from: &Party,
) -> Result<(), AllocError>
    ensures { OnOk result (rows.new ≡ rows.old ++ rows_from (dealt_of dealings.now) parties.now from.now) }
{
    for to in parties {
        rows.push(group_row(alloc, dealings, from, to)?)?;
    }
    Ok(())
}

#[tactic(auto, unfolding(crate::specs::Groups::group_row))]
fn group_row(
    alloc: Global,
    dealings: &Dealings<'_>,
    from: &Party,
    to: &Party,
) -> Result<Row, AllocError>
    ensures { IfOk result (λ row. row ≡ group_row (dealt_of dealings.now) from.now to.now) }
{
    let mut row = Seq::new(alloc);
    push_names(alloc, &mut row, from, to)?;
    push_reached(alloc, &mut row, dealings.messages, from, to)?;
    push_sent(&mut row, dealings.links, from, to)?;
    push_meshes(&mut row, dealings.peers, from, to)?;
    push_scores(&mut row, dealings, from, to)?;
    Ok(row)
}

fn push_names(alloc: Global, row: &mut Row, from: &Party, to: &Party) -> Result<(), AllocError>
    ensures { OnOk result (row.new ≡ row.old ++ name_values from.now to.now) }
{
    push_name(alloc, row, from.name.as_slice())?;
    push_name(alloc, row, to.name.as_slice())
}

/// Appends how many subscribers in one group were reached by messages of another, and in how many rounds.
fn push_reached(
    alloc: Global,
    row: &mut Row,
    messages: &[MessageReach],
    from: &Party,
    to: &Party,
) -> Result<(), AllocError>
    ensures { OnOk result (row.new ≡ row.old ++ reach_values messages.now from.now to.now) }
{
    let pairs = accepted_pairs(alloc, &from.peers, &to.told, messages)?;
    let spread = spread_of(alloc, pairs.as_slice())?;
    push_pairs(row, pairs.as_slice())?;
    push_spread(row, &spread)
}

fn push_pairs(row: &mut Row, pairs: &[Pair]) -> Result<(), AllocError>
    ensures { OnOk result (row.new ≡ row.old ++ pair_values pairs.now) }
{
    let all = pairs.len() as u64;
    let reached = reached(pairs);
    row.push(Value::Count(all))?;
    row.push(Value::Count(reached))?;
    row.push(Value::Count(missed(pairs)))?;
    row.push(share_or_none(share_of(reached, all)))
}

fn push_spread(row: &mut Row, spread: &Spread) -> Result<(), AllocError>
    ensures { OnOk result (row.new ≡ row.old ++ spread_values spread.now) }
{
    row.push(count_or_none(spread.median))?;
    row.push(count_or_none(spread.ninetieth))?;
    row.push(count_or_none(spread.last))
}

/// Appends what goes over links from one group to another.
fn push_sent(
    row: &mut Row,
    links: &[LinkCounts],
    from: &Party,
    to: &Party,
) -> Result<(), AllocError>
    ensures { OnOk result (row.new ≡ row.old ++ sent_values links.now from.now to.now) }
{
    let rpcs = over_between(&from.told, &to.peers, Kind::RpcsSent, links);
    let bytes = over_between(&from.told, &to.peers, Kind::BytesSent, links);
    row.push(count_by(&from.told, rpcs))?;
    row.push(count_by(&from.told, bytes))
}

/// Returns a count of what these peers did. It is missing if there is no peer, because then not even a 0 is known.
fn count_by(by: &Chosen, number: u64) -> Value
    ensures { result ≡ count_by by.now number }
{
    if is_nobody(by) {
        return Value::Missing;
    }
    Value::Count(number)
}

/// Says whether no peer is chosen.
fn is_nobody(chosen: &Chosen) -> bool
    ensures { result ≡ is_nobody chosen.now }
{
    match chosen {
        Chosen::Any => false,
        Chosen::Only(peers) => peers.is_empty(),
    }
}

/// Appends how many places another group holds in the meshes of one group, and how many places those meshes have in all.
fn push_meshes(
    row: &mut Row,
    peers: &[Standing],
    from: &Party,
    to: &Party,
) -> Result<(), AllocError>
    ensures { OnOk result (row.new ≡ row.old ++ mesh_values peers.now from.now to.now) }
{
    let members = places_between(&from.told, &to.peers, peers);
    let places = places_between(&from.told, &Chosen::Any, peers);
    row.push(count_by(&from.told, members))?;
    row.push(count_by(&from.told, places))
}

/// Appends the lowest score that one group gives another, at the end and over the run.
fn push_scores(
    row: &mut Row,
    dealings: &Dealings<'_>,
    from: &Party,
    to: &Party,
) -> Result<(), AllocError>
    ensures { OnOk result (row.new ≡ row.old
        ++ score_values (span_between from.now.told to.now.peers dealings.now.peers.now)
        (lowest_between from.now.told to.now.peers dealings.now.opinions.now)) }
{
    let scores = span_between(&from.told, &to.peers, dealings.peers);
    let lowest = lowest_between(&from.told, &to.peers, dealings.opinions);
    push_lowest(row, &scores, &lowest)
}

fn push_lowest(
    row: &mut Row,
    scores: &Option<Span>,
    lowest: &Option<Lowest>,
) -> Result<(), AllocError>
    ensures { OnOk result (row.new ≡ row.old ++ score_values scores.now lowest.now) }
{
    row.push(score_or_none(lowest_in(scores)))?;
    row.push(score_or_none(score_of(lowest)))?;
    row.push(count_or_none(moment_of(lowest)))
}
