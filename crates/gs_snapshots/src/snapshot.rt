//! The score of a neighbour at a moment, part by part.
ghost use Rattle.std.specs.Prelude.{◌≡◌, IfOk, map};
ghost use Rattle.gs_rules.specs.Scored.{topics_of_neighbour};
ghost use Rattle.gs_router.specs.Following.{Follows, Reading};
ghost use Rattle.gs_snapshots.specs.Snapshots.{on_topic, snapshot_of};

use crate::moments::Moment;
use gs_base::{Millis, PeerNo, Seq, Topic, clone_of};
use gs_router::Follower;
use gs_score::{ScoreParts, TopicParts};
use std::alloc::{AllocError, Global};

/// A topic and the parts of a neighbour's score on it.
#[derive(Debug, Drop)]
pub struct OnTopic {
    /// The topic.
    pub topic: Topic,
    /// The parts of the neighbour's score on this topic.
    pub parts: TopicParts,
}

/// The score of a neighbour at a moment, after what its peer did then.
#[derive(Debug, Drop)]
pub struct Snapshot {
    /// The moment, which also names the peer that scores.
    pub moment: Moment,
    /// The neighbour that is scored.
    pub neighbour: PeerNo,
    /// The score, and those of its parts that belong to no single topic.
    pub parts: ScoreParts,
    /// The topics on which anything is known about the neighbour, in the order of their bytes.
    pub topics: Seq<OnTopic>,
}

/// Returns the score of a neighbour at a moment, after the entries that a reader has seen.
pub(crate) fn snapshot_of(
    alloc: Global,
    follower: &Follower<'_>,
    moment: Moment,
    neighbour: PeerNo,
) -> Result<Snapshot, AllocError>
    ensures { IfOk result (λ snapshot. (v : Reading)
        → Follows follower.now v
        → snapshot ≡ snapshot_of v.peer (moment, v.before) neighbour) }
{
    let topics = topics_of(alloc, follower, moment.at, neighbour)?;
    Ok(Snapshot {
        moment,
        neighbour,
        parts: follower.score_parts(neighbour, moment.at),
        topics,
    })
}

/// Returns the parts of a neighbour's score on each topic on which anything is known about it.
fn topics_of(
    alloc: Global,
    follower: &Follower<'_>,
    at: Millis,
    neighbour: PeerNo,
) -> Result<Seq<OnTopic>, AllocError>
    ensures { IfOk result (λ list. (v : Reading)
        → Follows follower.now v
        → list ≡ map (on_topic v.peer v.before at.0 neighbour) (topics_of_neighbour v.peer v.before neighbour)) }
{
    let topics = follower.topics(neighbour)?;
    let mut list = Seq::new(alloc);
    for topic in &topics {
        list.push(on_topic(follower, at, neighbour, topic)?)?;
    }
    Ok(list)
}

/// Returns the parts of a neighbour's score on a topic.
fn on_topic(
    follower: &Follower<'_>,
    at: Millis,
    neighbour: PeerNo,
    topic: &Topic,
) -> Result<OnTopic, AllocError>
    ensures { IfOk result (λ told. (v : Reading)
        → Follows follower.now v
        → told ≡ on_topic v.peer v.before at.0 neighbour topic.now) }
{
    let parts = follower.topic_parts(neighbour, topic, at);
    Ok(OnTopic {
        topic: clone_of(topic)?,
        parts,
    })
}
