//! The questions about each peer for a message, and their answers.
ghost use Rattle.std.specs.Prelude.{◌≡◌, [], ◌∷◌, ◌&&◌, ◌||◌, None, Some, false, filter, map, nat_lt, fold, if◌then◌else◌, IfOk, nat_eq, OnOk};
ghost use Rattle.std.specs.List.{list_any};
ghost use Rattle.gs_base.specs.declared.names.PeerNo.{PeerNo as PeerNoValue};
ghost use Rattle.gs_base.specs.Names.{same_peer};
ghost use Rattle.gs_reach.specs.declared.listed.Arrival.{Arrival as ArrivalValue};
ghost use Rattle.gs_reach.specs.declared.listed.Turn.{Turn as TurnValue};
ghost use Rattle.gs_reach.specs.Messages.{end_of, is_again, is_before, is_turn_of, lesser, rounds_among, rounds_by};
ghost use Rattle.gs_reach.specs.Tables.{AreTablesOf, cell};

use crate::catalogue::Catalogue;
use crate::listed::{Appearance, Arrival, Turn};
use crate::table::Table;
use gs_base::Millis;
use gs_plan::Plan;
use std::alloc::{AllocError, Global};

/// The questions about each peer for a message, and their answers.
#[derive(Drop)]
pub(crate) struct Tables {
    /// Whether it publishes the message.
    pub(crate) publishers: Table<bool>,
    /// Whether it was subscribed before.
    pub(crate) subscribed: Table<bool>,
    /// In how many rounds the message reached it, if it did.
    pub(crate) rounds: Table<Option<u64>>,
}

/// Answers the questions about each peer for a message. It goes through the publications of the payload on the topic twice. It
/// goes through the deliveries of the payload and the changes of the topic once.
pub(crate) fn tables_of(
    alloc: Global,
    plan: &Plan,
    all: &Catalogue,
    message: &Appearance,
) -> Result<Tables, AllocError>
    ensures { IfOk result (AreTablesOf plan.now all.now message.now) }
{
    let appearances = all.appearances(message)?;
    let end = end_of(plan.params.timing.seen_ttl_ms, message.at, appearances);
    let deliveries = all.deliveries(&message.payload)?;
    let rounds = rounds_among(alloc, plan, message.at, &end, deliveries)?;
    let publishers = publishers_at(alloc, message.at, appearances)?;
    let subscribed = subscribed_before(alloc, message.at, all.turns(&message.topic))?;
    Ok(Tables {
        publishers,
        subscribed,
        rounds,
    })
}

/// Which peers publish at a moment.
fn publishers_at(
    alloc: Global,
    at: Millis,
    published: &[Arrival],
) -> Result<Table<bool>, AllocError>
    ensures { IfOk result (λ table. (q : PeerNoValue)
        → cell table q ≡ list_any (λ (x : ArrivalValue). nat_eq x.at.0 at.0 && same_peer x.peer q) published.now) }
{
    let mut table = Table::new(alloc, false);
    for arrival in published {
        note_publisher(&mut table, at, *arrival)?;
    }
    Ok(table)
}

fn note_publisher(table: &mut Table<bool>, at: Millis, arrival: Arrival) -> Result<(), AllocError>
    ensures { OnOk result ((q : PeerNoValue)
        → cell table.new q ≡ (cell table.old q || (nat_eq arrival.at.0 at.0 && same_peer arrival.peer q))) }
{
    if arrival.at.0 == at.0 {
        table.put(arrival.peer, true)?;
        return Ok(());
    }
    Ok(())
}

/// Which peers were subscribed before a moment, according to who subscribed to the topic or left it.
fn subscribed_before(alloc: Global, at: Millis, turns: &[Turn]) -> Result<Table<bool>, AllocError>
    ensures { IfOk result (λ table. (q : PeerNoValue)
        → cell table q ≡ fold (λ before (x : TurnValue). if is_turn_of q at x then x.subscribes else before) false turns.now) }
{
    let mut table = Table::new(alloc, false);
    for turn in turns {
        note_turn(&mut table, at, *turn)?;
    }
    Ok(table)
}

fn note_turn(table: &mut Table<bool>, at: Millis, turn: Turn) -> Result<(), AllocError>
    ensures { OnOk result ((q : PeerNoValue)
        → cell table.new q ≡ (if is_turn_of q at turn then turn.subscribes else cell table.old q)) }
{
    if turn.at.0 < at.0 {
        table.put(turn.peer, turn.subscribes)?;
        return Ok(());
    }
    Ok(())
}

/// In how many rounds the first of these deliveries reached each peer.
fn rounds_among(
    alloc: Global,
    plan: &Plan,
    from: Millis,
    end: &Option<u64>,
    delivered: &[Arrival],
) -> Result<Table<Option<u64>>, AllocError>
    ensures { IfOk result (λ table. (q : PeerNoValue)
        → cell table q ≡ rounds_among plan.now from.0 end.now delivered.now q) }
{
    let mut table = Table::new(alloc, None);
    for arrival in delivered {
        note_rounds(&mut table, plan, from, end, *arrival)?;
    }
    Ok(table)
}

/// Notes how many rounds a delivery took, if it counts.
fn note_rounds(
    table: &mut Table<Option<u64>>,
    plan: &Plan,
    from: Millis,
    end: &Option<u64>,
    arrival: Arrival,
) -> Result<(), AllocError>
    ensures { OnOk result ((q : PeerNoValue) → cell table.new q ≡ fold lesser (cell table.old q)
        (map (rounds_by plan.now from.0 end.now) (filter (λ (x : ArrivalValue). same_peer x.peer q) (arrival ∷ [])))) }
{
    let before = table.get(arrival.peer);
    let rounds = rounds_by(plan, from, end, arrival);
    table.put(arrival.peer, lesser(before, rounds))?;
    Ok(())
}

fn rounds_by(plan: &Plan, from: Millis, end: &Option<u64>, arrival: Arrival) -> Option<u64>
    ensures { result ≡ rounds_by plan.now from.0 end.now arrival }
{
    if arrival.at.0 < from.0 {
        return rounds_before(plan.params.timing.seen_ttl_ms, from.0 - arrival.at.0);
    }
    if is_before(end, arrival.at) {
        return Some((arrival.at.0 - from.0) / plan.round_ms.max(1));
    }
    None
}

/// A delivery some milliseconds before takes no rounds, as long as the message is seen.
fn rounds_before(seen_ttl_ms: u64, ago: u64) -> Option<u64>
    ensures { result ≡ (if nat_lt ago seen_ttl_ms then Some 0 else None) }
{
    if ago < seen_ttl_ms {
        return Some(0);
    }
    None
}

fn is_before(end: &Option<u64>, at: Millis) -> bool
    ensures { result ≡ is_before end.now at.0 }
{
    match end {
        Some(end) => at.0 < *end,
        None => true,
    }
}

/// The lesser of two numbers that may be absent.
fn lesser(one: Option<u64>, other: Option<u64>) -> Option<u64>
    ensures { result ≡ lesser one other }
{
    match one {
        Some(number) => Some(at_most(number, other)),
        None => other,
    }
}

fn at_most(number: u64, other: Option<u64>) -> u64
    ensures { Some result ≡ lesser (Some number) other }
{
    match other {
        Some(limit) => number.min(limit),
        None => number,
    }
}

/// The moment of the first of these publications that is a new message again.
fn end_of(seen_ttl_ms: u64, from: Millis, published: &[Arrival]) -> Option<u64>
    ensures { result ≡ end_of seen_ttl_ms from.0 published.now }
{
    let mut end = None;
    for arrival in published {
        end = end_after(end, seen_ttl_ms, from, *arrival);
    }
    end
}

/// The earlier of a moment and the moment of a publication, if that is a new message again.
fn end_after(end: Option<u64>, seen_ttl_ms: u64, from: Millis, arrival: Arrival) -> Option<u64>
    ensures { result ≡ fold lesser end
        (map (λ (x : ArrivalValue). Some x.at.0) (filter (is_again seen_ttl_ms from.0) (arrival ∷ []))) }
{
    if is_again(seen_ttl_ms, from, arrival) {
        return lesser(end, Some(arrival.at.0));
    }
    end
}

fn is_again(seen_ttl_ms: u64, from: Millis, arrival: Arrival) -> bool
    ensures { result ≡ is_again seen_ttl_ms from.0 arrival }
{
    from.0 < arrival.at.0 && seen_ttl_ms <= arrival.at.0 - from.0
}
