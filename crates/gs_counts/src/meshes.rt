//! The topics that a peer is subscribed to, and the members of their meshes, entry by entry.
ghost use Rattle.std.specs.Prelude.{◌≡◌, ◌≤◌, ◌++◌, [], ◌∷◌, drop, length, OnOk, take, true};
ghost use Rattle.gs_rules.specs.Tables.{after_marks};
ghost use Rattle.gs_counts.specs.Meshes.{is_place, members_after, members_in, put_member, stands_after, without_member};
ghost use Rattle.gs_counts.specs.Topics.{subscribed_after};

use crate::topics::note;
use gs_base::{Mark, PeerNo, Topic, clone_of};
use gs_rules::StoredEntry;
use std::alloc::{AllocError, Global};

/// The topics that a peer is subscribed to, and the members of all its meshes, each with its topic.
#[derive(Drop)]
pub(crate) struct Meshes {
    pub topics: Vec<Topic>,
    pub members: Vec<(Topic, PeerNo)>,
}

impl Meshes {
    pub(crate) fn new(alloc: Global) -> Meshes
        ensures topics { result.topics.items ≡ [] }
        ensures members { result.members.items ≡ [] }
    {
        Meshes {
            topics: Vec::new(alloc),
            members: Vec::new(alloc),
        }
    }

    /// Notes what an entry changes.
    pub(crate) fn note(&mut self, entry: &StoredEntry) -> Result<(), AllocError>
        ensures topics { OnOk result (self.new.topics.items ≡ subscribed_after entry.now.event self.old.topics.items) }
        ensures members { OnOk result (self.new.members.items
            ≡ after_marks members_after entry.now.effects.marks self.old.members.items) }
    {
        note(&mut self.topics, entry.event())?;
        note_marks(&mut self.members, entry.marks())
    }
}

fn note_marks(members: &mut Vec<(Topic, PeerNo)>, marks: &[Mark]) -> Result<(), AllocError>
    ensures { OnOk result (members.new.items ≡ after_marks members_after marks.now members.old.items) }
{
    for mark in marks {
        note_mark(members, mark)?;
    }
    Ok(())
}

/// Notes what a mark changes. Each mark is named, so that a new one must be decided on.
fn note_mark(members: &mut Vec<(Topic, PeerNo)>, mark: &Mark) -> Result<(), AllocError>
    ensures { OnOk result (members.new.items ≡ members_after mark.now members.old.items) }
{
    match mark {
        Mark::Grafted(peer, topic) => put_member(members, topic, *peer),
        Mark::Pruned(peer, topic) => {
            drop_member(members, topic, *peer);
            Ok(())
        }
        Mark::First(_, _, _) => Ok(()),
        Mark::Invalid(_, _) => Ok(()),
        Mark::Seen(_, _) => Ok(()),
        Mark::Near(_, _, _) => Ok(()),
        Mark::Deficit(_, _, _) => Ok(()),
        Mark::Misbehaviour(_) => Ok(()),
        Mark::Cached(_, _) => Ok(()),
        Mark::Answered(_, _) => Ok(()),
        Mark::Offered(_) => Ok(()),
        Mark::Asked(_, _) => Ok(()),
        Mark::Fanned(_, _) => Ok(()),
        Mark::Unfanned(_, _) => Ok(()),
        Mark::Backoff(_, _, _) => Ok(()),
        Mark::Published(_) => Ok(()),
    }
}

/// Puts a member in its place among the members of its topic, which ascend by number.
fn put_member(
    members: &mut Vec<(Topic, PeerNo)>,
    topic: &Topic,
    peer: PeerNo,
) -> Result<(), AllocError>
    ensures { OnOk result (members.new.items ≡ put_member topic.now peer members.old.items) }
{
    let place = place_of(members.as_slice(), topic, peer);
    if place < members.len() && members[place].1 == peer {
        return Ok(());
    }
    members.insert(place, (clone_of(topic)?, peer))?;
    Ok(())
}

/// How many members a member of a topic's mesh comes after, up to the first that it does not come after.
fn place_of(members: &[(Topic, PeerNo)], topic: &Topic, peer: PeerNo) -> usize
    ensures within { result ≤ length members.now }
    ensures place { put_member topic.now peer members.now
        ≡ take result members.now ++ put_member topic.now peer (drop result members.now) }
    ensures first { is_place topic.now peer (drop result members.now) ≡ true }
{
    let mut place = 0;
    while place < members.len() && stands_after(&members[place], topic, peer) {
        place += 1;
    }
    place
}

/// Whether a member of a topic's mesh comes after another.
fn stands_after(member: &(Topic, PeerNo), topic: &Topic, peer: PeerNo) -> bool
    ensures { result ≡ stands_after topic.now peer member.now }
{
    member.0 != *topic || member.1.0 < peer.0
}

fn drop_member(members: &mut Vec<(Topic, PeerNo)>, topic: &Topic, peer: PeerNo)
    ensures { members.new.items ≡ without_member topic.now peer members.old.items }
{
    members.retain(|member| !(member.0 == *topic && peer == member.1));
}

/// How many of these members of meshes are in that of a topic.
pub(crate) fn members_in(members: &[(Topic, PeerNo)], topic: &Topic) -> u64
    ensures { result ≡ members_in members.now topic.now }
{
    members.iter().filter(|member| member.0 == *topic).count() as u64
}
