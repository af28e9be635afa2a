//! The rows of the sheets that say how many subscribers messages reached.
ghost use Rattle.std.specs.Prelude.{◌≡◌, ◌++◌, ◌∷◌, [], IfOk, OnOk, map};
ghost use Rattle.gs_reach.specs.Reached.{missed, reached};
ghost use Rattle.gs_sheets.specs.declared.sheet.Value.{Value as ValueValue};
ghost use Rattle.gs_sheets.specs.declared.sheet.Value.TheVariants.{Name as NameValue, Payload as PayloadValue};
ghost use Rattle.gs_figure_sheets.specs.Reach.{count_or_none, limit_rows, message_counts, message_names, message_row, message_rounds, missed_by, outcome_row, share_of, share_or_none, spread_row, verdict_word, within_row};

use gs_base::{Seq, Verdict};
use gs_plan::Plan;
use gs_reach::{Distribution, MessageReach, Spread, Within, missed, reached, spread_of};
use gs_report::name_of;
use gs_sheets::{Row, Value, bytes_of};
use std::alloc::{AllocError, Global};

/// Returns the word for the result of validation of a payload.
fn verdict_word(verdict: Verdict) -> &'static str
    ensures { result.now ≡ verdict_word verdict }
{
    match verdict {
        Verdict::Accept => "accept",
        Verdict::Reject => "reject",
        Verdict::Ignore => "ignore",
    }
}

pub(crate) fn count_or_none(number: Option<u64>) -> Value
    ensures { result ≡ count_or_none number }
{
    match number {
        None => Value::Missing,
        Some(number) => Value::Count(number),
    }
}

pub(crate) fn share_or_none(share: Option<u64>) -> Value
    ensures { result ≡ share_or_none share }
{
    match share {
        None => Value::Missing,
        Some(share) => Value::Share(share),
    }
}

/// Returns a part of a number in hundredths of a per cent, rounded down. Returns None if the number is 0.
pub(crate) fn share_of(part: u64, all: u64) -> Option<u64>
    ensures { result ≡ share_of part all }
{
    if all == 0 {
        return None;
    }
    let share = u128::from(part) * 10_000 / u128::from(all);
    Some(share.min(10_000) as u64)
}

/// Returns the row of a message.
///
/// # Errors
/// `AllocError` when out of memory.
#[tactic(auto, unfolding(crate::specs::Reach::message_row))]
pub(crate) fn message_row(
    alloc: Global,
    plan: &Plan,
    message: &MessageReach,
) -> Result<Row, AllocError>
    ensures { IfOk result (λ row. row ≡ message_row plan.now message.now) }
{
    let spread = spread_of(alloc, message.pairs.as_slice())?;
    let mut row = Seq::new(alloc);
    push_names(alloc, &mut row, plan, message)?;
    push_counts(&mut row, message)?;
    push_rounds(&mut row, &spread)?;
    Ok(row)
}

fn push_names(
    alloc: Global,
    row: &mut Row,
    plan: &Plan,
    message: &MessageReach,
) -> Result<(), AllocError>
    ensures { OnOk result (row.new ≡ row.old ++ message_names plan.now message.now) }
{
    let publication = &message.publication;
    push_name(alloc, row, publication.topic.0.as_slice())?;
    push_payload(alloc, row, publication.payload.as_slice())?;
    push_name(alloc, row, name_of(plan, publication.peer).as_bytes())?;
    push_name(alloc, row, verdict_word(message.verdict).as_bytes())
}

pub(crate) fn push_name(alloc: Global, row: &mut Row, name: &[u8]) -> Result<(), AllocError>
    ensures { OnOk result (row.new ≡ row.old ++ NameValue name.now ∷ []) }
{
    row.push(Value::Name(bytes_of(alloc, name)?))
}

fn push_payload(alloc: Global, row: &mut Row, payload: &[u8]) -> Result<(), AllocError>
    ensures { OnOk result (row.new ≡ row.old ++ PayloadValue payload.now ∷ []) }
{
    row.push(Value::Payload(bytes_of(alloc, payload)?))
}

fn push_counts(row: &mut Row, message: &MessageReach) -> Result<(), AllocError>
    ensures { OnOk result (row.new ≡ row.old ++ message_counts message.now) }
{
    let pairs = message.pairs.as_slice();
    row.push(Value::Count(message.publishers))?;
    row.push(Value::Count(message.publication.at.0))?;
    row.push(Value::Count(pairs.len() as u64))?;
    row.push(Value::Count(reached(pairs)))?;
    row.push(count_or_none(missed_by(message)))
}

/// Returns how many subscribers a message missed. Returns None if validation does not accept it, because then it should
/// reach nobody.
fn missed_by(message: &MessageReach) -> Option<u64>
    ensures { result ≡ missed_by message.now }
{
    match message.verdict {
        Verdict::Accept => Some(missed(message.pairs.as_slice())),
        Verdict::Reject => None,
        Verdict::Ignore => None,
    }
}

fn push_rounds(row: &mut Row, spread: &Spread) -> Result<(), AllocError>
    ensures { OnOk result (row.new ≡ row.old ++ message_rounds spread.now) }
{
    row.push(count_or_none(spread.first))?;
    row.push(count_or_none(spread.median))?;
    row.push(count_or_none(spread.ninetieth))?;
    row.push(count_or_none(spread.last))
}

/// Returns the rows of limits of rounds.
///
/// # Errors
/// `AllocError` when out of memory.
#[tactic(auto, unfolding(crate::specs::Reach::limit_rows))]
pub(crate) fn limit_rows(alloc: Global, distribution: &Distribution) -> Result<Seq<Row>, AllocError>
    ensures { IfOk result (λ rows. rows ≡ limit_rows distribution.now) }
{
    let all = distribution.pairs;
    let mut rows = Seq::new(alloc);
    push_limits(alloc, &mut rows, all, distribution.within.as_slice())?;
    rows.push(outcome_row(alloc, "missed", Value::Missing, distribution.missed, all)?)?;
    rows.push(outcome_row(alloc, "all", Value::Missing, all, all)?)?;
    Ok(rows)
}

fn push_limits(
    alloc: Global,
    rows: &mut Seq<Row>,
    all: u64,
    within: &[Within],
) -> Result<(), AllocError>
    ensures { OnOk result (rows.new ≡ rows.old ++ map (within_row all) within.now) }
{
    for limit in within {
        rows.push(within_row(alloc, all, *limit)?)?;
    }
    Ok(())
}

fn within_row(alloc: Global, all: u64, within: Within) -> Result<Row, AllocError>
    ensures { IfOk result (λ row. row ≡ within_row all within) }
{
    outcome_row(
        alloc,
        "reached",
        Value::Count(within.limit),
        within.reached,
        all,
    )
}

fn outcome_row(
    alloc: Global,
    word: &str,
    limit: Value,
    part: u64,
    all: u64,
) -> Result<Row, AllocError>
    ensures { IfOk result (λ row. row ≡ outcome_row word.now limit part all) }
{
    let mut row = Seq::new(alloc);
    push_name(alloc, &mut row, word.as_bytes())?;
    row.push(limit)?;
    row.push(Value::Count(part))?;
    row.push(share_or_none(share_of(part, all)))?;
    Ok(row)
}

/// Returns the row that says in how many rounds parts of all subscribers were reached.
///
/// # Errors
/// `AllocError` when out of memory.
#[tactic(auto, unfolding(crate::specs::Reach::spread_row))]
pub(crate) fn spread_row(alloc: Global, distribution: &Distribution) -> Result<Row, AllocError>
    ensures { IfOk result (λ row. row ≡ spread_row distribution.now) }
{
    let spread = &distribution.spread;
    let mut row = Seq::new(alloc);
    row.push(Value::Count(distribution.pairs))?;
    row.push(count_or_none(spread.first))?;
    row.push(count_or_none(spread.median))?;
    row.push(count_or_none(spread.ninetieth))?;
    row.push(count_or_none(spread.ninety_ninth))?;
    row.push(count_or_none(spread.last))?;
    Ok(row)
}
