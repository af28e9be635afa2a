//! Happenings, and lists of them.
ghost use Rattle.std.specs.Prelude.{◌≡◌, [], ◌∷◌, ◌++◌, None, OnOk, Some};
ghost use Rattle.gs_base.specs.Names.{topic_or_empty};
ghost use Rattle.gs_counts.specs.Happenings.{by_neighbour, happening, heard_of, of_peer, on_topic};

use crate::kind::Kind;
use gs_base::{Millis, PeerNo, Topic, clone_of};
use std::alloc::AllocError;

/// Something that happened in a run, as often or as much as the amount says.
#[derive(Debug, Drop, PartialEq, Eq)]
pub struct Happening {
    pub kind: Kind,
    pub amount: u64,
    /// The moment at which it happened.
    pub at: Millis,
    /// The peer that did it: it heard, sent, delivered or refused something, for example.
    pub peer: PeerNo,
    /// The neighbour that it concerns, if it concerns one.
    pub neighbour: Option<PeerNo>,
    /// The topic that it is on, if it is on one.
    pub topic: Option<Topic>,
}

/// The moment and the peer at which something happens, and the neighbour that it concerns.
#[derive(Clone, Copy, Debug, PartialEq, Eq)]
pub(crate) struct Scene {
    pub at: Millis,
    pub peer: PeerNo,
    pub neighbour: Option<PeerNo>,
}

impl Scene {
    /// A scene at a peer that concerns no neighbour.
    pub(crate) fn of(at: Millis, peer: PeerNo) -> Scene
        ensures { result ≡ of_peer at peer }
    {
        Scene {
            at,
            peer,
            neighbour: None,
        }
    }

    /// The same scene, concerning a neighbour.
    pub(crate) fn with(self, neighbour: PeerNo) -> Scene
        ensures { result ≡ heard_of self neighbour }
    {
        Scene {
            neighbour: Some(neighbour),
            ..self
        }
    }

    /// The scene with a neighbour as its peer. It concerns this scene's peer.
    pub(crate) fn turned(self, neighbour: PeerNo) -> Scene
        ensures { result ≡ by_neighbour self neighbour }
    {
        Scene {
            at: self.at,
            peer: neighbour,
            neighbour: Some(self.peer),
        }
    }
}

/// Notes something that is on no topic.
pub(crate) fn note(
    list: &mut Vec<Happening>,
    scene: Scene,
    kind: Kind,
    amount: u64,
) -> Result<(), AllocError>
    ensures { OnOk result (list.new.items ≡ list.old.items ++ happening scene None kind amount ∷ []) }
{
    note_it(list, scene, None, kind, amount)
}

/// Notes something that is on a topic.
pub(crate) fn note_on(
    list: &mut Vec<Happening>,
    scene: Scene,
    topic: &Topic,
    kind: Kind,
    amount: u64,
) -> Result<(), AllocError>
    ensures { OnOk result (list.new.items ≡ list.old.items ++ on_topic scene topic.now kind amount ∷ []) }
{
    let topic = clone_of(topic)?;
    note_it(list, scene, Some(topic), kind, amount)
}

/// Notes something that is on the named topic. An absent name is the empty one.
pub(crate) fn note_on_named(
    list: &mut Vec<Happening>,
    scene: Scene,
    topic: &Option<Topic>,
    kind: Kind,
    amount: u64,
) -> Result<(), AllocError>
    ensures { OnOk result (list.new.items
        ≡ list.old.items ++ on_topic scene (topic_or_empty topic.now) kind amount ∷ []) }
{
    let topic = Topic::or_empty(topic)?;
    note_it(list, scene, Some(topic), kind, amount)
}

fn note_it(
    list: &mut Vec<Happening>,
    scene: Scene,
    topic: Option<Topic>,
    kind: Kind,
    amount: u64,
) -> Result<(), AllocError>
    ensures { OnOk result (list.new.items ≡ list.old.items ++ happening scene topic kind amount ∷ []) }
{
    list.push(Happening {
        kind,
        amount,
        at: scene.at,
        peer: scene.peer,
        neighbour: scene.neighbour,
        topic,
    })?;
    Ok(())
}
