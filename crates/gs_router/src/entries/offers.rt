//! Offers: what a router asks for when a neighbour offers messages.
ghost use Rattle.std.specs.Prelude.{◌≡◌, ◌≤◌, ◌<◌, [], IfOk, OnOk, length, filter, take, get_or};
ghost use Rattle.std.specs.List.{AllByRecursion};
ghost use Rattle.gs_base.specs.Names.{HasIdentifierLength};
ghost use Rattle.gs_base.specs.Rpcs.{most_identifiers, requesting};
ghost use Rattle.gs_rules.specs.Tables.{Entries};
ghost use Rattle.gs_rules.specs.Rules.{asked_for, asking, counted, each_once, have_rule, is_wanted};
ghost use Rattle.gs_rules.specs.Modes.{Follows, exact};
ghost use Rattle.gs_router.specs.Known.{Knows, peer_with};
ghost use Rattle.gs_router.specs.Offers.{add_wanted};

use crate::entries::thresholds;
use crate::known::Known;
use bytes::Bytes;
use gs_base::{IHave, Mark, Millis, MsgId, PeerNo, Rpc, Seq, Shared, clone_of};
use gs_params::{Words, pick_one};
use gs_rules::{Effects, Promise};
use indexmap::IndexSet;
use std::alloc::{AllocError, Global};

/// Returns the effects of an offer (IHAVE). Its sender is asked for those offered messages that are wanted, within its
/// budget.
pub fn effects_of<W: Words>(
    known: &Known,
    from: PeerNo,
    offer: &IHave,
    now: Millis,
    words: &mut W,
) -> Result<Effects, AllocError>
    requires { (L : Entries) × Knows known.now now.0 L }
    ensures { IfOk result (λ effects. (L : Entries)
        → Knows known.now now.0 L
        → Follows (exact W.word W.after) (have_rule (peer_with known.now.setup) L now from offer.now)
        words.old effects words.new) }
{
    if thresholds::is_ignored(known, from, now) {
        return Ok(Effects::none(known.alloc));
    }
    let budget = known.tables.budgets.of(from);
    if budget.offers == 0 {
        return Ok(Effects::none(known.alloc));
    }
    if !known.tables.topics.is_joined_or_empty(&offer.topic) {
        return counted(known.alloc, from);
    }
    let ids = wanted(known, offer.ids.as_slice(), budget.ids, now)?;
    ask(known, from, ids, now, words)
}

/// The effects of an offer that counts, without more.
fn counted(alloc: Global, from: PeerNo) -> Result<Effects, AllocError>
    ensures { IfOk result (λ effects. effects ≡ counted from) }
{
    Ok(Effects {
        marks: Seq::only(alloc, Mark::Offered(from))?,
        ..Effects::none(alloc)
    })
}

// ---- what is wanted

/// Whether these bytes are the identifier of a message that was not seen lately.
fn is_wanted(known: &Known, bytes: &Bytes, now: Millis) -> bool
    ensures { (L : Entries)
        → Knows known.now now.0 L
        → result ≡ is_wanted (peer_with known.now.setup) L now.0 bytes.now }
{
    match MsgId::from_bytes(bytes.as_slice()) {
        Some(id) => !known.tables.sightings.is_seen(&id, now),
        None => false,
    }
}

/// Adds one offered identifier, if it is wanted.
fn add_wanted(
    known: &Known,
    found: &mut IndexSet<Bytes>,
    bytes: &Bytes,
    now: Millis,
) -> Result<(), AllocError>
    ensures { OnOk result ((L : Entries)
        → Knows known.now now.0 L
        → found.new.keys ≡ add_wanted (peer_with known.now.setup) L now.0 found.old.keys bytes.now) }
{
    if !is_wanted(known, bytes, now) {
        return Ok(());
    }
    found.insert(clone_of(bytes)?)?;
    Ok(())
}

/// The identifiers to ask for among those that are offered, at most `room`. They are shared, not copied.
fn wanted(
    known: &Known,
    offered: &[Bytes],
    room: u64,
    now: Millis,
) -> Result<Seq<Bytes>, AllocError>
    ensures { IfOk result (λ ids. (L : Entries)
        → Knows known.now now.0 L
        → ids ≡ take room (each_once (filter (is_wanted (peer_with known.now.setup) L now.0) offered.now))) }
{
    let mut found = IndexSet::new(known.alloc);
    for bytes in offered {
        add_wanted(known, &mut found, bytes, now)?;
    }
    found.truncate(room as usize);
    let ids = copied_ids(known.alloc, found.as_slice())?;
    Ok(ids)
}

/// Returns a new list of these identifiers, which shares them.
fn copied_ids(alloc: Global, ids: &[Bytes]) -> Result<Seq<Bytes>, AllocError>
    ensures { IfOk result (λ list. list ≡ ids.now) }
{
    let mut list = Seq::new(alloc);
    for id in ids {
        list.push(clone_of(id)?)?;
    }
    Ok(list)
}

// ---- what is asked

/// The effects of an offer, where these of its identifiers are wanted, if any are.
fn ask<W: Words>(
    known: &Known,
    from: PeerNo,
    ids: Seq<Bytes>,
    now: Millis,
    words: &mut W,
) -> Result<Effects, AllocError>
    requires few { length ids ≤ most_identifiers }
    requires each { AllByRecursion HasIdentifierLength ids }
    ensures { IfOk result (λ effects. Follows (exact W.word W.after)
        (asked_for (peer_with known.now.setup) now from ids) words.old effects words.new) }
{
    if ids.is_empty() {
        return counted(known.alloc, from);
    }
    let place = pick_one(ids.len(), words);
    let effects = asking(known, from, ids, place, now)?;
    Ok(effects)
}

/// Returns the effects of asking a neighbour for these. It promises the one at a place among them.
fn asking(
    known: &Known,
    from: PeerNo,
    ids: Seq<Bytes>,
    place: usize,
    now: Millis,
) -> Result<Effects, AllocError>
    requires few { length ids ≤ most_identifiers }
    requires below { place < length ids }
    requires long { HasIdentifierLength (get_or ids place []) }
    ensures { IfOk result (λ effects. effects ≡ asking (peer_with known.now.setup) now from ids place) }
{
    let alloc = known.alloc;
    let followup = known.setup.params.timing.iwant_followup_ms;
    let promise = Promise {
        from,
        id: MsgId::from_exact(ids.as_slice()[place].as_slice()),
        until: Millis(now.0.saturating_add(followup)),
    };
    let mut marks = Seq::only(alloc, Mark::Offered(from))?;
    marks.push(Mark::Asked(from, ids.len() as u32))?;
    let request = Shared::new(alloc, Rpc::requesting(alloc, ids)?)?;
    Ok(Effects {
        sends: Seq::only(alloc, (from, request))?,
        delivered: Seq::new(alloc),
        promise: Some(Shared::new(alloc, promise)?),
        marks,
    })
}
