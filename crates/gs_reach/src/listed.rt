//! What traces say about publications, deliveries, subscriptions and lost neighbours.
ghost use Rattle.std.specs.Prelude.{◌≡◌, [], ◌∷◌, ◌++◌, IfOk, OnOk};
ghost use Rattle.std.specs.List.{flat_map};
ghost use Rattle.gs_rules.specs.Tables.{lost};
ghost use Rattle.gs_reach.specs.Listed.{act_changed, act_published, changed_by, delivered_by, joined, listed, loss_of, published_by};

use bytes::Bytes;
use gs_base::{ExactClone, Millis, PeerNo, Seq, Topic, clone_of};
use gs_plan::Act;
use gs_report::Finished;
use gs_rules::{Event, StoredEntry};
use std::alloc::{AllocError, Global};

/// A payload on a topic. A peer published it, or it was delivered to the peer's user.
#[derive(Debug, Drop, PartialEq, Eq)]
pub struct Appearance {
    pub peer: PeerNo,
    pub at: Millis,
    pub topic: Topic,
    pub payload: Bytes,
}

impl Clone for Appearance {
    ghost is_clone = { λ source copy. copy ≡ source };

    fn clone(&self) -> Result<Appearance, AllocError> {
        Ok(Appearance {
            peer: self.peer,
            at: self.at,
            topic: clone_of(&self.topic)?,
            payload: clone_of(&self.payload)?,
        })
    }
}

impl ExactClone for Appearance {
    ghost exact = { λ source copy same. same };
}

/// Where and when something appears.
#[derive(Clone, Copy, Debug, PartialEq, Eq)]
pub struct Arrival {
    pub peer: PeerNo,
    pub at: Millis,
}

/// A peer subscribed to a topic or left it.
#[derive(Debug, Drop, PartialEq, Eq)]
pub struct Change {
    pub peer: PeerNo,
    pub at: Millis,
    pub topic: Topic,
    pub subscribes: bool,
}

/// A peer subscribed to some topic or left it.
#[derive(Clone, Copy, Debug, PartialEq, Eq)]
pub(crate) struct Turn {
    pub(crate) peer: PeerNo,
    pub(crate) at: Millis,
    pub(crate) subscribes: bool,
}

/// A peer lost a neighbour: it hung up on it, found its bytes at fault, or the neighbour closed its link.
#[derive(Clone, Copy, Debug, PartialEq, Eq)]
pub struct Loss {
    pub peer: PeerNo,
    pub neighbour: PeerNo,
    pub at: Millis,
}

/// What traces say, peer by peer, the oldest entry first.
#[derive(Drop)]
pub struct Listed {
    /// What peers published.
    pub published: Seq<Appearance>,
    /// What was delivered to their users.
    pub delivered: Seq<Appearance>,
    /// Which peers subscribed to a topic or left one.
    pub changes: Seq<Change>,
    /// Which peers lost a neighbour.
    pub losses: Seq<Loss>,
}

impl Listed {
    /// What traces say that have no entries. It takes no memory.
    pub(crate) fn nothing(alloc: Global) -> Listed
        ensures { result ≡ record { published = []; delivered = []; changes = []; losses = [] } }
    {
        Listed {
            published: Seq::new(alloc),
            delivered: Seq::new(alloc),
            changes: Seq::new(alloc),
            losses: Seq::new(alloc),
        }
    }

    /// Notes all that entries of a peer say, the oldest first.
    pub(crate) fn note_all(
        &mut self,
        peer: PeerNo,
        entries: &[StoredEntry],
    ) -> Result<(), AllocError>
        ensures published { OnOk result (self.new.published
            ≡ self.old.published ++ flat_map (λ e. published_by peer e.at e.event) entries.now) }
        ensures delivered { OnOk result (self.new.delivered
            ≡ self.old.delivered ++ flat_map (λ e. delivered_by peer e.at e.effects.delivered) entries.now) }
        ensures changes { OnOk result (self.new.changes
            ≡ self.old.changes ++ flat_map (λ e. changed_by peer e.at e.event) entries.now) }
        ensures losses { OnOk result (self.new.losses
            ≡ self.old.losses ++ flat_map (λ e. loss_of peer e.at (lost e.event)) entries.now) }
    {
        for entry in entries {
            self.note(peer, entry)?;
        }
        Ok(())
    }

    /// Notes all that an entry of a peer says.
    fn note(&mut self, peer: PeerNo, entry: &StoredEntry) -> Result<(), AllocError>
        ensures published { OnOk result (self.new.published
            ≡ self.old.published ++ published_by peer entry.now.at entry.now.event) }
        ensures delivered { OnOk result (self.new.delivered
            ≡ self.old.delivered ++ delivered_by peer entry.now.at entry.now.effects.delivered) }
        ensures changes { OnOk result (self.new.changes
            ≡ self.old.changes ++ changed_by peer entry.now.at entry.now.event) }
        ensures losses { OnOk result (self.new.losses
            ≡ self.old.losses ++ loss_of peer entry.now.at (lost entry.now.event)) }
    {
        let at = entry.at();
        list_publication(&mut self.published, peer, at, entry.event())?;
        list_delivered(&mut self.delivered, peer, at, entry.delivered())?;
        list_changed(&mut self.changes, peer, at, entry.event())?;
        list_loss(&mut self.losses, peer, at, entry.event().lost())?;
        Ok(())
    }

    /// Adds what other traces say. It moves each element.
    fn append(&mut self, other: Listed) -> Result<(), AllocError>
        ensures published { OnOk result (self.new.published ≡ self.old.published ++ other.published) }
        ensures delivered { OnOk result (self.new.delivered ≡ self.old.delivered ++ other.delivered) }
        ensures changes { OnOk result (self.new.changes ≡ self.old.changes ++ other.changes) }
        ensures losses { OnOk result (self.new.losses ≡ self.old.losses ++ other.losses) }
    {
        let Listed {
            published,
            delivered,
            changes,
            losses,
        } = other;
        append(&mut self.published, published)?;
        append(&mut self.delivered, delivered)?;
        append(&mut self.changes, changes)?;
        append(&mut self.losses, losses)?;
        Ok(())
    }
}

/// What all peers' traces say.
pub(crate) fn list_all(alloc: Global, peers: &[(PeerNo, Finished)]) -> Result<Listed, AllocError>
    ensures { IfOk result (λ all. all ≡ listed peers.now) }
{
    let mut all = Listed::nothing(alloc);
    for peer in peers {
        all.note_all(peer.0, peer.1.trace.entries())?;
    }
    Ok(all)
}

/// What several say, one after the other.
pub(crate) fn joined(alloc: Global, parts: Vec<(PeerNo, Listed)>) -> Result<Listed, AllocError>
    ensures { IfOk result (λ all. all ≡ joined parts.items) }
{
    let mut all = Listed::nothing(alloc);
    for part in parts {
        all.append(part.1)?;
    }
    Ok(all)
}

fn append<T: Drop>(list: &mut Seq<T>, more: Seq<T>) -> Result<(), AllocError>
    ensures { OnOk result (list.new ≡ list.old ++ more) }
{
    for one in more.into_vec() {
        list.push(one)?;
    }
    Ok(())
}

fn list_loss(
    list: &mut Seq<Loss>,
    peer: PeerNo,
    at: Millis,
    lost: Option<PeerNo>,
) -> Result<(), AllocError>
    ensures { OnOk result (list.new ≡ list.old ++ loss_of peer at lost) }
{
    match lost {
        Some(neighbour) => list.push(Loss {
            peer,
            neighbour,
            at,
        }),
        None => Ok(()),
    }
}

fn list_publication(
    list: &mut Seq<Appearance>,
    peer: PeerNo,
    at: Millis,
    event: &Event,
) -> Result<(), AllocError>
    ensures { OnOk result (list.new ≡ list.old ++ published_by peer at event.now) }
{
    match event {
        Event::Own(act) => list_act_published(list, peer, at, act.get()),
        _ => Ok(()),
    }
}

fn list_act_published(
    list: &mut Seq<Appearance>,
    peer: PeerNo,
    at: Millis,
    act: &Act,
) -> Result<(), AllocError>
    ensures { OnOk result (list.new ≡ list.old ++ act_published peer at act.now) }
{
    match act {
        Act::Publish(topic, payload) => list_appearance(list, peer, at, topic, payload),
        Act::Subscribe(_) => Ok(()),
        Act::Unsubscribe(_) => Ok(()),
        Act::Raw(_, _) => Ok(()),
        Act::HangUp(_) => Ok(()),
    }
}

fn list_changed(
    list: &mut Seq<Change>,
    peer: PeerNo,
    at: Millis,
    event: &Event,
) -> Result<(), AllocError>
    ensures { OnOk result (list.new ≡ list.old ++ changed_by peer at event.now) }
{
    match event {
        Event::Own(act) => list_act_changed(list, peer, at, act.get()),
        _ => Ok(()),
    }
}

fn list_act_changed(
    list: &mut Seq<Change>,
    peer: PeerNo,
    at: Millis,
    act: &Act,
) -> Result<(), AllocError>
    ensures { OnOk result (list.new ≡ list.old ++ act_changed peer at act.now) }
{
    match act {
        Act::Subscribe(topic) => list_change(list, peer, at, topic, true),
        Act::Unsubscribe(topic) => list_change(list, peer, at, topic, false),
        Act::Publish(_, _) => Ok(()),
        Act::Raw(_, _) => Ok(()),
        Act::HangUp(_) => Ok(()),
    }
}

fn list_appearance(
    list: &mut Seq<Appearance>,
    peer: PeerNo,
    at: Millis,
    topic: &Topic,
    payload: &Bytes,
) -> Result<(), AllocError>
    ensures { OnOk result (list.new
        ≡ list.old ++ record { peer = peer; at = at; topic = topic.now; payload = payload.now } ∷ []) }
{
    let topic = clone_of(topic)?;
    let payload = clone_of(payload)?;
    list.push(Appearance {
        peer,
        at,
        topic,
        payload,
    })
}

fn list_change(
    changes: &mut Seq<Change>,
    peer: PeerNo,
    at: Millis,
    topic: &Topic,
    subscribes: bool,
) -> Result<(), AllocError>
    ensures { OnOk result (changes.new
        ≡ changes.old ++ record { peer = peer; at = at; topic = topic.now; subscribes = subscribes } ∷ []) }
{
    let topic = clone_of(topic)?;
    changes.push(Change {
        peer,
        at,
        topic,
        subscribes,
    })
}

fn list_delivered(
    list: &mut Seq<Appearance>,
    peer: PeerNo,
    at: Millis,
    delivered: &[(Topic, Bytes)],
) -> Result<(), AllocError>
    ensures { OnOk result (list.new ≡ list.old ++ delivered_by peer at delivered.now) }
{
    for (topic, payload) in delivered {
        list_appearance(list, peer, at, topic, payload)?;
    }
    Ok(())
}
