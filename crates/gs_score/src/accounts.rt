ghost use Rattle.std.specs.Prelude.{◌≡◌, ◌≤◌, ◌*◌, ◌^◌, ℕ, true, [], List, IfOk, IsOk, OnOk, OnErr, unsigned_abs};
ghost use Rattle.std.specs.List.{IsDistinct, list_any};
ghost use Rattle.std.specs.Map.{keys_of};
ghost use Rattle.gs_base.specs.Names.{same_peer, same_topic};
ghost use Rattle.gs_base.specs.declared.names.PeerNo.{PeerNo as PeerNoValue};
ghost use Rattle.gs_base.specs.declared.names.Topic.{Topic as TopicValue};
ghost use Rattle.gs_base.specs.declared.neighbour.Neighbour.{Neighbour as NeighbourValue};
ghost use Rattle.gs_params.specs.Params.{AreInRange};
ghost use Rattle.gs_score.specs.Accounts.{Covers, has_topic, held_in, misbehaviour_decay, topic_sum};
ghost use Rattle.gs_score.specs.Counters.{most_counted, raised, read_at};
ghost use Rattle.gs_score.specs.Ledgers.{Adds, AreFew, Blames, Keeps, has_room, Puts, account_of, misbehaviour_of};
ghost use Rattle.gs_score.specs.Ledgers.{has_account, nothing_counted, standing_of, topics_of};
ghost use Rattle.gs_score.specs.Ranges.{RulesAreInRange};
ghost use Rattle.gs_score.specs.Standings.{grafted, pruned, raised_by};

use crate::counter::{Counter, Decay, MOST_COUNTED};
use crate::rulebook::Rulebook;
use crate::standing::{Raise, Standing};
use crate::topic_standings::TopicStandings;
use gs_base::{Millis, Neighbour, PeerNo, Topic};
use gs_params::Params;
use indexmap::IndexMap;
use std::alloc::{AllocError, Global};

/// What is counted for a neighbour.
#[derive(Drop)]
pub struct Account {
    /// What is counted by topic (P1 to P4).
    pub topics: TopicStandings,
    /// Its misbehaviour, which has no topic (P7).
    pub misbehaviour: Counter,
}

/// Returns an empty account for each neighbour.
///
/// # Errors
/// `AllocError` when out of memory.
pub(crate) fn open_accounts(
    alloc: Global,
    neighbours: &[Neighbour],
) -> Result<IndexMap<PeerNo, Account>, AllocError>
    ensures nothing { IfOk result (λ accounts. (q : PeerNoValue)
        → account_of accounts.entries q ≡ nothing_counted) }
    ensures all { IfOk result (λ accounts. (q : PeerNoValue)
        → has_account accounts.entries q
        ≡ list_any (λ (n : NeighbourValue). same_peer q n.peer) neighbours.now) }
{
    let mut accounts = IndexMap::new(alloc);
    for neighbour in neighbours {
        let account = Account {
            topics: TopicStandings::new(alloc),
            misbehaviour: Counter::new(),
        };
        accounts.insert(neighbour.peer, account)?;
    }
    Ok(accounts)
}

pub(crate) fn standing_of(
    accounts: &IndexMap<PeerNo, Account>,
    peer: PeerNo,
    topic: &Topic,
) -> Standing
    ensures { result ≡ standing_of accounts.now.entries peer topic.now }
{
    match accounts.get(&peer) {
        Some(account) => account.topics.standing(topic),
        None => Standing::new(),
    }
}

pub(crate) fn misbehaviour_of(accounts: &IndexMap<PeerNo, Account>, peer: PeerNo) -> Counter
    ensures { result ≡ misbehaviour_of accounts.now.entries peer }
{
    match accounts.get(&peer) {
        Some(account) => account.misbehaviour,
        None => Counter::new(),
    }
}

pub(crate) fn has_account(accounts: &IndexMap<PeerNo, Account>, peer: PeerNo) -> bool
    ensures { result ≡ has_account accounts.now.entries peer }
{
    accounts.get(&peer).is_some()
}

/// Says whether a neighbour has something on a topic, or room for one more.
pub(crate) fn has_room(accounts: &IndexMap<PeerNo, Account>, peer: PeerNo, topic: &Topic) -> bool
    ensures { result ≡ has_room accounts.now.entries peer topic.now }
{
    match accounts.get(&peer) {
        Some(account) => account.topics.has_room(topic),
        None => false,
    }
}

/// Raises a counter of a neighbour on a topic, from its value after these decays. It takes memory only if the neighbour had
/// nothing on the topic.
///
/// # Errors
/// `AllocError` when out of memory; nothing is changed then.
pub(crate) fn raise_standing(
    accounts: &mut IndexMap<PeerNo, Account>,
    peer: PeerNo,
    topic: &Topic,
    raise: Raise<'_>,
) -> Result<(), AllocError>
    requires room { has_room accounts.old.entries peer topic.now ≡ true }
    requires few { AreFew accounts.old.entries }
    requires in_range { RulesAreInRange raise.rules.now }
    ensures puts { OnOk result (Puts accounts.old.entries accounts.new.entries peer topic.now
        (raised_by raise.entry (standing_of accounts.old.entries peer topic.now))) }
    ensures adds { OnOk result (Adds accounts.old.entries accounts.new.entries peer topic.now) }
    ensures few { AreFew accounts.new.entries }
    ensures unchanged { OnErr result (accounts.new.entries ≡ accounts.old.entries) }
    ensures succeeds { has_topic (topics_of accounts.old.entries peer) topic.now ≡ true → IsOk result }
{
    match accounts.get_mut(&peer) {
        Some(account) => {
            account.topics.raise(topic, raise)?;
            Ok(())
        }
        None => Ok(()),
    }
}

/// Puts a neighbour into the mesh of a topic. It takes memory only if the neighbour had nothing on the topic.
///
/// # Errors
/// `AllocError` when out of memory; nothing is changed then.
pub(crate) fn graft_standing(
    accounts: &mut IndexMap<PeerNo, Account>,
    peer: PeerNo,
    topic: &Topic,
    now: Millis,
) -> Result<(), AllocError>
    requires room { has_room accounts.old.entries peer topic.now ≡ true }
    requires few { AreFew accounts.old.entries }
    ensures puts { OnOk result (Puts accounts.old.entries accounts.new.entries peer topic.now
        (grafted now (standing_of accounts.old.entries peer topic.now))) }
    ensures adds { OnOk result (Adds accounts.old.entries accounts.new.entries peer topic.now) }
    ensures few { AreFew accounts.new.entries }
    ensures unchanged { OnErr result (accounts.new.entries ≡ accounts.old.entries) }
    ensures succeeds { has_topic (topics_of accounts.old.entries peer) topic.now ≡ true → IsOk result }
{
    match accounts.get_mut(&peer) {
        Some(account) => {
            account.topics.graft(topic, now)?;
            Ok(())
        }
        None => Ok(()),
    }
}

/// Takes a neighbour out of the mesh of a topic. It takes no memory.
pub(crate) fn prune_standing(accounts: &mut IndexMap<PeerNo, Account>, peer: PeerNo, topic: &Topic)
    requires few { AreFew accounts.old.entries }
    ensures puts { Puts accounts.old.entries accounts.new.entries peer topic.now
        (pruned (standing_of accounts.old.entries peer topic.now)) }
    ensures keeps { Keeps accounts.old.entries accounts.new.entries }
    ensures few { AreFew accounts.new.entries }
{
    if let Some(account) = accounts.get_mut(&peer) {
        account.topics.prune(topic);
    }
}

/// Raises the misbehaviour of a neighbour by an amount, from its value after these decays. It takes no memory.
pub(crate) fn blame(
    accounts: &mut IndexMap<PeerNo, Account>,
    peer: PeerNo,
    by: u64,
    decay: Decay,
    decays: u64,
)
    requires known { has_account accounts.old.entries peer ≡ true }
    requires factor { decay.factor ≤ 10 ^ 6 }
    ensures { Blames accounts.old.entries accounts.new.entries peer (record {
      value = raised most_counted by (read_at decay decays (misbehaviour_of accounts.old.entries peer));
      decays = decays;
    }) }
{
    if let Some(account) = accounts.get_mut(&peer) {
        account.misbehaviour.raise(by, MOST_COUNTED, decay, decays);
    }
}

/// Returns what the topics of a neighbour give together, and its misbehaviour, both in millionths. The first is at most
/// 1,024 * 10^25 either way, and the second 0 to 10^12. The neighbour is looked up only once.
// Each score calls this. Inlined, it costs as much as code with only one caller.
#[inline(always)]
pub(crate) fn counts_of(
    accounts: &IndexMap<PeerNo, Account>,
    peer: PeerNo,
    rulebook: &Rulebook,
    decays: u64,
    now: Millis,
) -> (i128, u64)
    requires few { AreFew accounts.now.entries }
    ensures topics { (ts : List TopicValue)
        → Covers (held_in rulebook.now decays (topics_of accounts.now.entries peer)) ts
        → result.0 ≡ topic_sum rulebook.now now.0 (held_in rulebook.now decays (topics_of accounts.now.entries peer)) ts }
    ensures bound { unsigned_abs result.0 ≤ 1_024 * 10 ^ 25 }
    ensures misbehaviour { result.1
        ≡ read_at (misbehaviour_decay rulebook.now) decays (misbehaviour_of accounts.now.entries peer) }
    ensures most { result.1 ≤ 10 ^ 12 }
{
    let decay = misbehaviour_decay(rulebook.params());
    match accounts.get(&peer) {
        Some(account) => {
            let topics = account.topics.sum(rulebook, decays, now);
            (topics, account.misbehaviour.read(decay, decays))
        }
        None => (0, Counter::new().read(decay, decays)),
    }
}

/// Returns the topics on which something is kept for a neighbour, each once, in any order.
///
/// # Errors
/// `AllocError` when out of memory.
pub(crate) fn topics_of(
    alloc: Global,
    accounts: &IndexMap<PeerNo, Account>,
    peer: PeerNo,
) -> Result<Vec<Topic>, AllocError>
    ensures all { IfOk result (λ list. list.items ≡ keys_of (topics_of accounts.now.entries peer)) }
    ensures distinct { IfOk result (λ list. IsDistinct same_topic list.items) }
{
    match accounts.get(&peer) {
        Some(account) => {
            let list = account.topics.topics(alloc)?;
            Ok(list)
        }
        None => Ok(Vec::new(alloc)),
    }
}

/// Returns how misbehaviour decays.
pub(crate) fn misbehaviour_decay(params: &Params) -> Decay
    requires in_range { AreInRange params.now }
    ensures value { result ≡ misbehaviour_decay params.now }
    ensures factor { result.factor ≤ 10 ^ 6 }
{
    Decay {
        factor: params.factors.p7_decay,
        floor: params.factors.decay_to_zero,
    }
}
