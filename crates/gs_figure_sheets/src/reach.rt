//! The sheets that say how many subscribers each message reached.
ghost use Rattle.std.specs.Prelude.{◌≡◌, ◌++◌, ◌∷◌, [], IfOk, OnOk, map};
ghost use Rattle.gs_figure_sheets.specs.Reach.{limit_sheet, message_row, message_sheet, sheets_among, spread_sheet};

use crate::columns::{limit_columns, message_columns, spread_columns};
use crate::rows::{limit_rows, message_row, spread_row};
use gs_base::Seq;
use gs_plan::Plan;
use gs_reach::{
    Chosen, Distribution, MessageReach, accepted_pairs, chosen_messages, distribution_of,
};
use gs_sheets::{Row, Sheet, bytes_of};
use std::alloc::{AllocError, Global};

/// Returns sheets that say how many subscribers these messages of a run reached. Only messages that the peers `by` published
/// first count, and only subscribers among the peers `among`. The first sheet has a row for each message. The other two are
/// about all pairs of a message that validation accepts and one of its subscribers. The second sheet states how many pairs
/// were reached within limits of rounds. The third states in how many rounds parts of all pairs were reached.
///
/// # Errors
/// `AllocError` when out of memory.
pub(crate) fn sheets_among(
    alloc: Global,
    plan: &Plan,
    by: &Chosen,
    among: &Chosen,
    messages: &[MessageReach],
) -> Result<Seq<Sheet>, AllocError>
    ensures { IfOk result (λ sheets. sheets ≡ sheets_among plan.now by.now among.now messages.now) }
{
    let chosen = chosen_messages(alloc, by, among, messages)?;
    let pairs = accepted_pairs(alloc, by, among, messages)?;
    let distribution = distribution_of(alloc, pairs.as_slice())?;
    let mut sheets = Seq::new(alloc);
    sheets.push(message_sheet(alloc, plan, chosen.as_slice())?)?;
    sheets.push(limit_sheet(alloc, &distribution)?)?;
    sheets.push(spread_sheet(alloc, &distribution)?)?;
    Ok(sheets)
}

#[tactic(auto, unfolding(crate::specs::Reach::message_sheet))]
fn message_sheet(alloc: Global, plan: &Plan, messages: &[MessageReach]) -> Result<Sheet, AllocError>
    ensures { IfOk result (λ sheet. sheet ≡ message_sheet plan.now messages.now) }
{
    let name = bytes_of(alloc, b"messages")?;
    let title = bytes_of(alloc, b"How far each message came")?;
    let columns = message_columns(alloc)?;
    let rows = message_rows(alloc, plan, messages)?;
    Ok(Sheet {
        name,
        title,
        columns,
        names: 4,
        rows,
    })
}

fn message_rows(
    alloc: Global,
    plan: &Plan,
    messages: &[MessageReach],
) -> Result<Seq<Row>, AllocError>
    ensures { IfOk result (λ rows. rows ≡ map (message_row plan.now) messages.now) }
{
    let mut rows = Seq::new(alloc);
    for message in messages {
        rows.push(message_row(alloc, plan, message)?)?;
    }
    Ok(rows)
}

#[tactic(auto, unfolding(crate::specs::Reach::limit_sheet))]
fn limit_sheet(alloc: Global, distribution: &Distribution) -> Result<Sheet, AllocError>
    ensures { IfOk result (λ sheet. sheet ≡ limit_sheet distribution.now) }
{
    let name = bytes_of(alloc, b"within")?;
    let title = bytes_of(
        alloc,
        b"Within how many rounds, of all pairs of an accepted message and a subscriber",
    )?;
    let columns = limit_columns(alloc)?;
    let rows = limit_rows(alloc, distribution)?;
    Ok(Sheet {
        name,
        title,
        columns,
        names: 1,
        rows,
    })
}

#[tactic(auto, unfolding(crate::specs::Reach::spread_sheet))]
fn spread_sheet(alloc: Global, distribution: &Distribution) -> Result<Sheet, AllocError>
    ensures { IfOk result (λ sheet. sheet ≡ spread_sheet distribution.now) }
{
    let name = bytes_of(alloc, b"parts")?;
    let title = bytes_of(
        alloc,
        b"In how many rounds parts of all these pairs were reached",
    )?;
    let columns = spread_columns(alloc)?;
    let rows = Seq::only(alloc, spread_row(alloc, distribution)?)?;
    Ok(Sheet {
        name,
        title,
        columns,
        names: 0,
        rows,
    })
}
