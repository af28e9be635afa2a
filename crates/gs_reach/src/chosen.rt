//! Messages whose publisher is one of some peers, and subscribers that are among some peers.
ghost use Rattle.std.specs.Prelude.{◌≡◌, [], ◌∷◌, ◌++◌, IfOk, OnOk};
ghost use Rattle.std.specs.List.{list_any};
ghost use Rattle.gs_base.specs.Names.{same_peer};
ghost use Rattle.gs_reach.specs.Chosen.{accepted_pairs, chosen_messages, is_accepted, is_chosen, pairs_among, reach_among};

use crate::messages::MessageReach;
use crate::pairs::Pair;
use gs_base::{PeerNo, Seq, Verdict, clone_of};
use std::alloc::{AllocError, Global};

/// Which peers count.
#[derive(Debug, Drop, PartialEq, Eq)]
pub enum Chosen {
    /// Each peer.
    Any,
    /// Only these.
    Only(Seq<PeerNo>),
}

impl Chosen {
    /// Says whether a peer counts.
    pub fn contains(&self, peer: PeerNo) -> bool
        ensures { result ≡ is_chosen self.now peer }
    {
        match self {
            Chosen::Any => true,
            Chosen::Only(peers) => is_among(peers.as_slice(), peer),
        }
    }
}

fn is_among(peers: &[PeerNo], peer: PeerNo) -> bool
    ensures { result ≡ list_any (λ q. same_peer q peer) peers.now }
{
    peers.iter().any(|chosen| *chosen == peer)
}

/// Returns the messages whose first publisher is one of `by`. Each has only the pairs whose subscriber is one of `among`.
///
/// # Errors
/// `AllocError` when out of memory.
pub fn chosen_messages(
    alloc: Global,
    by: &Chosen,
    among: &Chosen,
    messages: &[MessageReach],
) -> Result<Seq<MessageReach>, AllocError>
    ensures { IfOk result (λ list. list ≡ chosen_messages by.now among.now messages.now) }
{
    let mut list = Seq::new(alloc);
    for message in messages {
        push_chosen(alloc, &mut list, by, among, message)?;
    }
    Ok(list)
}

fn push_chosen(
    alloc: Global,
    list: &mut Seq<MessageReach>,
    by: &Chosen,
    among: &Chosen,
    message: &MessageReach,
) -> Result<(), AllocError>
    ensures { OnOk result (list.new ≡ list.old ++ chosen_messages by.now among.now (message.now ∷ [])) }
{
    if by.contains(message.publication.peer) {
        list.push(reach_among(alloc, among, message)?)?;
        return Ok(());
    }
    Ok(())
}

fn reach_among(
    alloc: Global,
    among: &Chosen,
    message: &MessageReach,
) -> Result<MessageReach, AllocError>
    ensures { IfOk result (λ reach. reach ≡ reach_among among.now message.now) }
{
    let pairs = pairs_among(alloc, among, message.pairs.as_slice())?;
    let publication = clone_of(&message.publication)?;
    Ok(MessageReach {
        publication,
        publishers: message.publishers,
        verdict: message.verdict,
        pairs,
    })
}

/// Returns the pairs whose subscriber is one of `among`.
///
/// # Errors
/// `AllocError` when out of memory.
pub fn pairs_among(alloc: Global, among: &Chosen, pairs: &[Pair]) -> Result<Seq<Pair>, AllocError>
    ensures { IfOk result (λ list. list ≡ pairs_among among.now pairs.now) }
{
    let mut list = Seq::new(alloc);
    push_among(&mut list, among, pairs)?;
    Ok(list)
}

fn push_among(list: &mut Seq<Pair>, among: &Chosen, pairs: &[Pair]) -> Result<(), AllocError>
    ensures { OnOk result (list.new ≡ list.old ++ pairs_among among.now pairs.now) }
{
    for pair in pairs {
        push_pair(list, among, *pair)?;
    }
    Ok(())
}

fn push_pair(list: &mut Seq<Pair>, among: &Chosen, pair: Pair) -> Result<(), AllocError>
    ensures { OnOk result (list.new ≡ list.old ++ pairs_among among.now (pair ∷ [])) }
{
    if among.contains(pair.subscriber) {
        list.push(pair)?;
        return Ok(());
    }
    Ok(())
}

/// Returns all pairs of accepted messages whose first publisher is one of `by`, message by message. Only pairs count whose
/// subscriber is one of `among`.
///
/// # Errors
/// `AllocError` when out of memory.
pub fn accepted_pairs(
    alloc: Global,
    by: &Chosen,
    among: &Chosen,
    messages: &[MessageReach],
) -> Result<Seq<Pair>, AllocError>
    ensures { IfOk result (λ list. list ≡ accepted_pairs by.now among.now messages.now) }
{
    let mut list = Seq::new(alloc);
    for message in messages {
        push_accepted(&mut list, by, among, message)?;
    }
    Ok(list)
}

fn push_accepted(
    list: &mut Seq<Pair>,
    by: &Chosen,
    among: &Chosen,
    message: &MessageReach,
) -> Result<(), AllocError>
    ensures { OnOk result (list.new ≡ list.old ++ accepted_pairs by.now among.now (message.now ∷ [])) }
{
    if is_accepted(message.verdict) && by.contains(message.publication.peer) {
        push_among(list, among, message.pairs.as_slice())?;
        return Ok(());
    }
    Ok(())
}

/// Whether each subscriber should be reached.
fn is_accepted(verdict: Verdict) -> bool
    ensures { result ≡ is_accepted verdict }
{
    match verdict {
        Verdict::Accept => true,
        Verdict::Reject => false,
        Verdict::Ignore => false,
    }
}
