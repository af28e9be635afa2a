//! How many rounds each accepted message on a topic took to reach its subscribers, and the same for all of them together.
ghost use Rattle.std.specs.Prelude.{◌≡◌, ◌<◌, ◌^◌, [], ◌∷◌, ◌++◌, fold, IfOk, max, OnOk, List, option_to_list};
ghost use Rattle.gs_reach.specs.Chosen.{is_accepted};
ghost use Rattle.gs_reach.specs.Messages.{messages};
ghost use Rattle.gs_reach.specs.Order.{ascending};
ghost use Rattle.gs_reach.specs.Reached.{rounds_of};
ghost use Rattle.gs_reach.specs.declared.pairs.Pair.{Pair as PairValue};
ghost use Rattle.gs_picture.specs.Courses.{begins_with, courses_of, each_course, has_pairs, longest, on_topic, step_at, steps};

use gs_base::{Seq, Topic, Verdict};
use gs_plan::Plan;
use gs_reach::{Chosen, MessageReach, Pair, Within, accepted_pairs, messages_of, pairs_among};
use gs_report::Report;
use std::alloc::{AllocError, Global};

/// How many rounds messages took to reach their subscribers.
#[derive(Drop)]
pub(crate) struct Courses {
    /// For each message that is drawn: its subscribers that count, and in how many rounds it reached each, if it did.
    pub(crate) each: Seq<Seq<Pair>>,
    /// The pairs of all these messages together.
    pub(crate) all: Seq<Pair>,
}

/// How many rounds the messages on a topic took to reach some peers.
pub(crate) fn courses_of(
    alloc: Global,
    plan: &Plan,
    report: &Report,
    topic: &Topic,
    of: &Chosen,
) -> Result<Courses, AllocError>
    ensures { IfOk result (λ found. found ≡ courses_of of.now (on_topic topic.now (messages plan.now report.now))) }
{
    let messages = on_topic(messages_of(alloc, plan, report)?, topic);
    let found = courses_among(alloc, of, &messages);
    drop(messages);
    found
}

/// Those of these messages that are on a topic.
fn on_topic(messages: Seq<MessageReach>, topic: &Topic) -> Vec<MessageReach>
    ensures { result.items ≡ on_topic topic.now messages }
{
    let mut messages = messages.into_vec();
    messages.retain(|message| message.publication.topic == *topic);
    messages
}

fn courses_among(
    alloc: Global,
    of: &Chosen,
    messages: &[MessageReach],
) -> Result<Courses, AllocError>
    ensures { IfOk result (λ found. found ≡ courses_of of.now messages.now) }
{
    let each = each_course(alloc, of, messages)?;
    let all = accepted_pairs(alloc, &Chosen::Any, of, messages)?;
    Ok(Courses { each, all })
}

/// The course of each of these messages that validation accepts and that has subscribers among some peers.
fn each_course(
    alloc: Global,
    of: &Chosen,
    messages: &[MessageReach],
) -> Result<Seq<Seq<Pair>>, AllocError>
    ensures { IfOk result (λ found. found ≡ each_course of.now messages.now) }
{
    let mut found = Seq::new(alloc);
    for message in messages {
        list_course(alloc, &mut found, of, message)?;
    }
    Ok(found)
}

fn list_course(
    alloc: Global,
    found: &mut Seq<Seq<Pair>>,
    of: &Chosen,
    message: &MessageReach,
) -> Result<(), AllocError>
    ensures { OnOk result (found.new ≡ found.old ++ each_course of.now (message.now ∷ [])) }
{
    if !is_accepted(message.verdict) {
        return Ok(());
    }
    let course = pairs_among(alloc, of, message.pairs.as_slice())?;
    if has_pairs(course.as_slice()) {
        return found.push(course);
    }
    Ok(())
}

/// Whether each subscriber should be reached.
fn is_accepted(verdict: Verdict) -> bool
    ensures { result ≡ is_accepted verdict }
{
    match verdict {
        Verdict::Accept => true,
        Verdict::Reject => false,
        Verdict::Ignore => false,
    }
}

fn has_pairs(pairs: &[Pair]) -> bool
    ensures { result ≡ has_pairs pairs.now }
{
    match pairs {
        [] => false,
        [_, ..] => true,
    }
}

/// In how many rounds subscribers were reached, ascending, and how many were reached within each of these numbers of rounds.
pub(crate) fn steps(alloc: Global, pairs: &[Pair]) -> Result<Vec<Within>, AllocError>
    ensures { IfOk result (λ found. found.items ≡ steps pairs.now) }
{
    let rounds = sorted(rounds_of(alloc, pairs)?)?;
    let found = steps_in(alloc, &rounds);
    drop(rounds);
    found
}

/// The same numbers, ascending.
fn sorted(numbers: Vec<u64>) -> Result<Vec<u64>, AllocError>
    ensures { IfOk result (λ sorted. sorted.items ≡ ascending (λ n. n) numbers.items) }
{
    let mut numbers = numbers;
    numbers.sort()?;
    Ok(numbers)
}

/// The steps of subscribers that were reached in these numbers of rounds, which ascend. Where several are the same, the last
/// of them has as many ahead of it as were reached within that number.
fn steps_in(alloc: Global, rounds: &[u64]) -> Result<Vec<Within>, AllocError>
    ensures { IfOk result (λ found. (pairs : List PairValue) → rounds.now ≡ ascending (λ n. n) (rounds_of pairs)
        → found.items ≡ steps pairs) }
{
    let mut found = Vec::new(alloc);
    for (place, round) in rounds.iter().enumerate() {
        push_step(&mut found, place, *round, &rounds[place + 1..])?;
    }
    Ok(found)
}

/// Adds the step at a number of rounds, unless the next number is the same.
fn push_step(
    found: &mut Vec<Within>,
    place: usize,
    round: u64,
    next: &[u64],
) -> Result<(), AllocError>
    requires { place < 2 ^ 63 }
    ensures { OnOk result (found.new.items ≡ found.old.items ++ step_at place round next.now) }
{
    if begins_with(round, next) {
        return Ok(());
    }
    found.push(Within {
        limit: round,
        reached: place as u64 + 1,
    })?;
    Ok(())
}

fn begins_with(number: u64, numbers: &[u64]) -> bool
    ensures { result ≡ begins_with number numbers.now }
{
    match numbers {
        [] => false,
        [first, ..] => number == *first,
    }
}

/// The rounds of those that were reached.
fn rounds_of(alloc: Global, pairs: &[Pair]) -> Result<Vec<u64>, AllocError>
    ensures { IfOk result (λ rounds. rounds.items ≡ rounds_of pairs.now) }
{
    let mut all = Vec::new(alloc);
    for pair in pairs {
        push_rounds(&mut all, pair.rounds)?;
    }
    Ok(all)
}

fn push_rounds(all: &mut Vec<u64>, rounds: Option<u64>) -> Result<(), AllocError>
    ensures { OnOk result (all.new.items ≡ all.old.items ++ option_to_list rounds) }
{
    match rounds {
        Some(rounds) => {
            all.push(rounds)?;
            Ok(())
        }
        None => Ok(()),
    }
}

/// The most rounds that one of these subscribers took.
pub(crate) fn longest(pairs: &[Pair]) -> u64
    ensures { result ≡ longest pairs.now }
{
    let mut so_far = 0;
    for pair in pairs {
        so_far = longer(so_far, pair.rounds);
    }
    so_far
}

fn longer(so_far: u64, rounds: Option<u64>) -> u64
    ensures { result ≡ fold max so_far (option_to_list rounds) }
{
    match rounds {
        Some(rounds) => so_far.max(rounds),
        None => so_far,
    }
}
