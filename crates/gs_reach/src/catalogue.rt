//! What traces say, filed under what is looked up.
ghost use Rattle.std.specs.Prelude.{◌≡◌, [], ◌∷◌, ◌++◌, IfOk, List, OnOk};
ghost use Rattle.gs_reach.specs.declared.listed.Appearance.{Appearance as AppearanceValue};
ghost use Rattle.gs_reach.specs.declared.listed.Change.{Change as ChangeValue};
ghost use Rattle.gs_reach.specs.Filed.{FilesDelivered, FilesPublished, FilesTurns, said_of};
ghost use Rattle.gs_reach.specs.Messages.{appearances, arrival_of, arrivals, turn_of, turns};

use crate::filing::{file, found};
use crate::keys::{Payload, TopicPayload};
use crate::listed::{Appearance, Arrival, Change, Listed, Turn};
use bytes::Bytes;
use gs_base::{Topic, clone_of};
use indexmap::IndexMap;
use std::alloc::{AllocError, Global};
use std::marker::Model;

/// What traces say. Also, for each message, where it was published and delivered, and for each topic, who subscribed to it
/// or left it. Contracts see only what traces say.
#[derive(Drop)]
pub(crate) struct Catalogue {
    listed: Listed,
    published: IndexMap<TopicPayload, Vec<Arrival>>,
    delivered: IndexMap<Payload, Vec<Arrival>>,
    turns: IndexMap<Topic, Vec<Turn>>,
}

impl Model for Catalogue {
    ghost use Rattle.gs_reach.specs.declared.listed.Listed.{Listed};
    ghost use Rattle.gs_reach.specs.Filed.{FilesDelivered, FilesPublished, FilesTurns};

    ghost Value = { Listed };

    ghost view = { λ c. c.listed };

    ghost invariant = { λ c. FilesPublished c.published c.listed.published
        × FilesDelivered c.delivered c.listed.delivered × FilesTurns c.turns c.listed.changes };
}

impl Catalogue {
    /// Files what traces say.
    pub(crate) fn of(alloc: Global, listed: Listed) -> Result<Catalogue, AllocError>
        ensures { IfOk result (λ all. all ≡ listed) }
    {
        let published = file_published(alloc, listed.published.as_slice())?;
        let delivered = file_delivered(alloc, listed.delivered.as_slice())?;
        let turns = file_turns(alloc, listed.changes.as_slice())?;
        Ok(Catalogue {
            listed,
            published,
            delivered,
            turns,
        })
    }

    /// What they say.
    pub(crate) fn listed(&self) -> &Listed
        ensures { result.now ≡ self.now }
    {
        &self.listed
    }

    /// Where and when the payload of a message was published on its topic.
    pub(crate) fn appearances(&self, message: &Appearance) -> Result<&[Arrival], AllocError>
        ensures { IfOk result (λ found. found.now ≡ appearances message.now self.now.published) }
    {
        let said = said_of(message)?;
        let appearances = found(&self.published, &said);
        drop(said);
        Ok(appearances)
    }

    /// Where and when a payload was delivered, on whatever topic.
    pub(crate) fn deliveries(&self, payload: &Bytes) -> Result<&[Arrival], AllocError>
        ensures { IfOk result (λ found. found.now ≡ arrivals payload.now self.now.delivered) }
    {
        let payload = key_of(payload)?;
        let deliveries = found(&self.delivered, &payload);
        drop(payload);
        Ok(deliveries)
    }

    /// Which peers subscribed to a topic or left it, and when.
    pub(crate) fn turns(&self, topic: &Topic) -> &[Turn]
        ensures { result.now ≡ turns topic.now self.now.changes }
    {
        found(&self.turns, topic)
    }
}

pub(crate) fn said_of(one: &Appearance) -> Result<TopicPayload, AllocError>
    ensures { IfOk result (λ said. said ≡ said_of one.now) }
{
    Ok(TopicPayload {
        topic: clone_of(&one.topic)?,
        payload: clone_of(&one.payload)?,
    })
}

fn key_of(payload: &Bytes) -> Result<Payload, AllocError>
    ensures { IfOk result (λ key. key ≡ record { 0 = payload.now }) }
{
    Ok(Payload(clone_of(payload)?))
}

fn turn_of(one: &Change) -> Turn
    ensures { result ≡ turn_of one.now }
{
    Turn {
        peer: one.peer,
        at: one.at,
        subscribes: one.subscribes,
    }
}

fn arrival_of(one: &Appearance) -> Arrival
    ensures { result ≡ arrival_of one.now }
{
    Arrival {
        peer: one.peer,
        at: one.at,
    }
}

fn file_published(
    alloc: Global,
    all: &[Appearance],
) -> Result<IndexMap<TopicPayload, Vec<Arrival>>, AllocError>
    ensures { IfOk result (λ filed. FilesPublished filed all.now) }
{
    let mut filed = IndexMap::new(alloc);
    for one in all {
        file_publication(alloc, &mut filed, one)?;
    }
    Ok(filed)
}

/// Files a publication after those of its payload on its topic.
pub(crate) fn file_publication(
    alloc: Global,
    filed: &mut IndexMap<TopicPayload, Vec<Arrival>>,
    one: &Appearance,
) -> Result<(), AllocError>
    ensures { OnOk result ((before : List AppearanceValue)
        → FilesPublished filed.old before → FilesPublished filed.new (before ++ one.now ∷ [])) }
{
    let said = said_of(one)?;
    file(alloc, filed, said, arrival_of(one))?;
    Ok(())
}

fn file_delivered(
    alloc: Global,
    all: &[Appearance],
) -> Result<IndexMap<Payload, Vec<Arrival>>, AllocError>
    ensures { IfOk result (λ filed. FilesDelivered filed all.now) }
{
    let mut filed = IndexMap::new(alloc);
    for one in all {
        file_delivery(alloc, &mut filed, one)?;
    }
    Ok(filed)
}

/// Files a delivery after those of its payload.
fn file_delivery(
    alloc: Global,
    filed: &mut IndexMap<Payload, Vec<Arrival>>,
    one: &Appearance,
) -> Result<(), AllocError>
    ensures { OnOk result ((before : List AppearanceValue)
        → FilesDelivered filed.old before → FilesDelivered filed.new (before ++ one.now ∷ [])) }
{
    let payload = key_of(&one.payload)?;
    file(alloc, filed, payload, arrival_of(one))?;
    Ok(())
}

fn file_turns(alloc: Global, all: &[Change]) -> Result<IndexMap<Topic, Vec<Turn>>, AllocError>
    ensures { IfOk result (λ filed. FilesTurns filed all.now) }
{
    let mut filed = IndexMap::new(alloc);
    for one in all {
        file_turn(alloc, &mut filed, one)?;
    }
    Ok(filed)
}

/// Files a change after those of its topic.
fn file_turn(
    alloc: Global,
    filed: &mut IndexMap<Topic, Vec<Turn>>,
    one: &Change,
) -> Result<(), AllocError>
    ensures { OnOk result ((before : List ChangeValue)
        → FilesTurns filed.old before → FilesTurns filed.new (before ++ one.now ∷ [])) }
{
    let topic = clone_of(&one.topic)?;
    file(alloc, filed, topic, turn_of(one))?;
    Ok(())
}
