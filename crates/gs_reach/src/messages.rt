//! How far each message of a run got.
ghost use Rattle.std.specs.Prelude.{◌≡◌, [], ◌∷◌, ◌++◌, IfOk, OnOk, map};
ghost use Rattle.gs_reach.specs.Messages.{is_subscriber, message_reach, messages, messages_by, pairs_of, publishers};
ghost use Rattle.gs_reach.specs.Tables.{AreLinks, AreTablesOf};

use crate::catalogue::Catalogue;
use crate::firsts::firsts_in_order;
use crate::linked::{Linked, is_linked_at, links_of};
use crate::listed::{Appearance, Listed, list_all};
use crate::pairs::{Pair, one_if};
use crate::table::Table;
use crate::tables::{Tables, tables_of};
use crate::verdict::verdict_on;
use gs_base::{PeerNo, Seq, Verdict, clone_of};
use gs_plan::Plan;
use gs_report::Report;
use std::alloc::{AllocError, Global};

/// How far a message got. A message is a payload that was published on a topic at a moment.
///
/// A subscriber is a peer that does not publish the message. Before the message's moment, it was subscribed to the topic and
/// had at least one neighbour that it had not lost. A peer that subscribes only at that moment is too late.
#[derive(Debug, Drop, PartialEq, Eq)]
pub struct MessageReach {
    /// Its first publication: that of the peer with the lowest place among the peers, and of that peer the oldest one.
    pub publication: Appearance,
    /// How many peers published it at that moment.
    pub publishers: u64,
    /// What validation says about it. A message that it does not accept should reach nobody.
    pub verdict: Verdict,
    /// Each subscriber, in the order of the report's peers, and in how many rounds the message reached it. This is 0 if the
    /// payload was delivered to the subscriber before, on any topic, and it had not forgotten the payload. A delivery does
    /// not count once the payload is a new message again. That begins with the first publication on that topic that is at
    /// least `seen_ttl_ms` milliseconds later.
    pub pairs: Seq<Pair>,
}

/// A run of a plan, its peers, and what their traces say.
#[derive(Drop)]
struct Run<'a> {
    plan: &'a Plan,
    numbers: &'a [PeerNo],
    all: Catalogue,
    links: Table<Linked>,
}

/// Returns how far each message of a run got. The messages are by moment, then by the place of their first publisher among
/// the report's peers, then in the order of its trace.
///
/// # Errors
/// `AllocError` when out of memory.
pub fn messages_of(
    alloc: Global,
    plan: &Plan,
    report: &Report,
) -> Result<Seq<MessageReach>, AllocError>
    ensures { IfOk result (λ list. list ≡ messages plan.now report.now) }
{
    let numbers = numbers_of(alloc, report.peers.as_slice())?;
    let listed = list_all(alloc, report.peers.as_slice())?;
    let messages = messages_by(alloc, plan, numbers.as_slice(), listed);
    drop(numbers);
    messages
}

/// The numbers of peers, in their order.
pub(crate) fn numbers_of<T>(alloc: Global, peers: &[(PeerNo, T)]) -> Result<Vec<PeerNo>, AllocError>
    ensures { IfOk result (λ numbers. numbers.items ≡ map (λ x. x.0) peers.now) }
{
    let mut numbers = Vec::with_capacity(alloc, peers.len())?;
    for peer in peers {
        numbers.push(peer.0)?;
    }
    Ok(numbers)
}

/// How far each message got that the traces of these peers tell.
pub(crate) fn messages_by(
    alloc: Global,
    plan: &Plan,
    numbers: &[PeerNo],
    listed: Listed,
) -> Result<Seq<MessageReach>, AllocError>
    ensures { IfOk result (λ list. list ≡ messages_by plan.now listed numbers.now) }
{
    let all = Catalogue::of(alloc, listed)?;
    let links = links_of(alloc, plan.dials.as_slice(), all.listed().losses.as_slice())?;
    let firsts = firsts_in_order(alloc, all.listed().published.as_slice())?;
    let run = Run {
        plan,
        numbers,
        all,
        links,
    };
    let messages = reach_of_each(alloc, &run, &firsts);
    drop(firsts);
    drop(run);
    messages
}

fn reach_of_each(
    alloc: Global,
    run: &Run<'_>,
    publications: &[Appearance],
) -> Result<Seq<MessageReach>, AllocError>
    requires { AreLinks run.now.plan.now.dials run.now.all.losses run.now.links }
    ensures { IfOk result (λ list. list
        ≡ map (message_reach run.now.plan.now run.now.all run.now.numbers.now) publications.now) }
{
    let mut list = Seq::new(alloc);
    for publication in publications {
        list.push(reach_of(alloc, run, publication)?)?;
    }
    Ok(list)
}

#[tactic(auto, unfolding(crate::specs::Messages::message_reach))]
fn reach_of(alloc: Global, run: &Run<'_>, message: &Appearance) -> Result<MessageReach, AllocError>
    requires { AreLinks run.now.plan.now.dials run.now.all.losses run.now.links }
    ensures { IfOk result (λ reach. reach
        ≡ message_reach run.now.plan.now run.now.all run.now.numbers.now message.now) }
{
    let tables = tables_of(alloc, run.plan, &run.all, message)?;
    let publishers = publishers(run, message, &tables);
    let pairs = pairs_of(alloc, run, message, &tables);
    drop(tables);
    let topics = run.plan.params.topics.as_slice();
    Ok(MessageReach {
        publishers,
        verdict: verdict_on(topics, &message.topic, &message.payload),
        pairs: pairs?,
        publication: clone_of(message)?,
    })
}

/// How many peers publish a message.
fn publishers(run: &Run<'_>, message: &Appearance, tables: &Tables) -> u64
    requires { AreTablesOf run.now.plan.now run.now.all message.now tables.now }
    ensures { result ≡ publishers run.now.all.published message.now run.now.numbers.now }
{
    let mut count: u64 = 0;
    for peer in run.numbers {
        count += one_if(tables.publishers.get(*peer));
    }
    count
}

/// The subscribers of a message, and in how many rounds it reached each of them.
fn pairs_of(
    alloc: Global,
    run: &Run<'_>,
    message: &Appearance,
    tables: &Tables,
) -> Result<Seq<Pair>, AllocError>
    requires links { AreLinks run.now.plan.now.dials run.now.all.losses run.now.links }
    requires tables { AreTablesOf run.now.plan.now run.now.all message.now tables.now }
    ensures { IfOk result (λ pairs. pairs
        ≡ pairs_of run.now.plan.now run.now.all message.now run.now.numbers.now) }
{
    let mut pairs = Seq::new(alloc);
    for peer in run.numbers {
        push_pair(&mut pairs, run, message, tables, *peer)?;
    }
    Ok(pairs)
}

/// Adds a peer that could be reached.
fn push_pair(
    pairs: &mut Seq<Pair>,
    run: &Run<'_>,
    message: &Appearance,
    tables: &Tables,
    peer: PeerNo,
) -> Result<(), AllocError>
    requires links { AreLinks run.now.plan.now.dials run.now.all.losses run.now.links }
    requires tables { AreTablesOf run.now.plan.now run.now.all message.now tables.now }
    ensures { OnOk result (pairs.new
        ≡ pairs.old ++ pairs_of run.now.plan.now run.now.all message.now (peer ∷ [])) }
{
    if is_subscriber(run, message, tables, peer) {
        pairs.push(Pair {
            subscriber: peer,
            rounds: tables.rounds.get(peer),
        })?;
        return Ok(());
    }
    Ok(())
}

/// Whether a peer could be reached by a message.
fn is_subscriber(run: &Run<'_>, message: &Appearance, tables: &Tables, peer: PeerNo) -> bool
    requires links { AreLinks run.now.plan.now.dials run.now.all.losses run.now.links }
    requires tables { AreTablesOf run.now.plan.now run.now.all message.now tables.now }
    ensures { result ≡ is_subscriber run.now.plan.now.dials run.now.all message.now peer }
{
    !tables.publishers.get(peer)
        && tables.subscribed.get(peer)
        && is_linked_at(run.links.get(peer), message.at)
}
