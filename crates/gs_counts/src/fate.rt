//! What became of a message that was heard.
ghost use Rattle.std.specs.Prelude.{◌≡◌};
ghost use Rattle.std.specs.List.{list_any};
ghost use Rattle.gs_base.specs.Names.{message_id, payload_of, same_topic, topic_or_empty};
ghost use Rattle.gs_counts.specs.Fates.{again, found_so, kind_of_fate, known_fate, payload_kind, shown, shown_by, was_ignored};

use crate::kind::Kind;
use crate::memory::Memory;
use crate::verdicts::Verdicts;
use bytes::Bytes;
use gs_base::{Mark, Message, MsgId, Topic, Verdict};

/// What became of a message that was heard.
#[derive(Clone, Copy, Debug, PartialEq, Eq)]
pub enum Fate {
    /// It was new to the peer, and accepted.
    New,
    /// The peer had recently accepted it.
    Duplicate,
    /// Validation ignored it, or had ignored it recently.
    Ignored,
    /// It was rejected, or had been rejected recently, and counts against its sender.
    Rejected,
    /// It has a field that StrictNoSign forbids.
    Signed,
    /// It is on a topic that the peer is not subscribed to.
    OffTopic,
}

impl Fate {
    /// What a message of this fate counts as.
    pub(crate) fn kind(self) -> Kind
        ensures { result ≡ kind_of_fate self }
    {
        match self {
            Fate::New => Kind::New,
            Fate::Duplicate => Kind::Duplicates,
            Fate::Ignored => Kind::Ignored,
            Fate::Rejected => Kind::Rejected,
            Fate::Signed => Kind::Signed,
            Fate::OffTopic => Kind::OffTopic,
        }
    }

    /// What the bytes of its payload count as.
    pub(crate) fn payload_kind(self) -> Kind
        ensures { result ≡ payload_kind self }
    {
        match self {
            Fate::New => Kind::PayloadBytesNew,
            Fate::Duplicate => Kind::PayloadBytesAgain,
            Fate::Ignored => Kind::PayloadBytesAgain,
            Fate::Rejected => Kind::PayloadBytesAgain,
            Fate::Signed => Kind::PayloadBytesAgain,
            Fate::OffTopic => Kind::PayloadBytesAgain,
        }
    }
}

/// What became of a message whose entry has these marks, at a peer about which this is known.
pub(crate) fn fate_of(memory: &Memory, message: &Message, marks: &[Mark]) -> Fate
    ensures { result ≡ known_fate memory.now message.now marks.now }
{
    if !has_topic(&memory.meshes.topics, &message.topic) {
        return Fate::OffTopic;
    }
    if message.is_signed() {
        return Fate::Signed;
    }
    match shown_in(marks) {
        Some(fate) => fate,
        None => again(&memory.verdicts, message),
    }
}

/// Whether the named topic is among these. An absent name is the empty one.
fn has_topic(topics: &[Topic], topic: &Option<Topic>) -> bool
    ensures { result ≡ list_any (same_topic (topic_or_empty topic.now)) topics.now }
{
    match topic {
        Some(topic) => topics.contains(topic),
        None => topics.contains(&Topic(Bytes::new())),
    }
}

/// What these marks show: the first one that shows anything counts.
fn shown_in(marks: &[Mark]) -> Option<Fate>
    ensures { result ≡ shown marks.now }
{
    for mark in marks {
        if let Some(fate) = shown_by(mark) {
            return Some(fate);
        }
    }
    None
}

/// What a mark shows about what became of the message. Each mark is named, so that a new one must be decided on.
fn shown_by(mark: &Mark) -> Option<Fate>
    ensures { result ≡ shown_by mark.now }
{
    match mark {
        Mark::First(_, _, _) => Some(Fate::New),
        Mark::Invalid(_, _) => Some(Fate::Rejected),
        Mark::Seen(_, verdict) => found_so(*verdict),
        Mark::Near(_, _, _) => Some(Fate::Duplicate),
        Mark::Deficit(_, _, _) => None,
        Mark::Misbehaviour(_) => None,
        Mark::Cached(_, _) => None,
        Mark::Answered(_, _) => None,
        Mark::Offered(_) => None,
        Mark::Asked(_, _) => None,
        Mark::Grafted(_, _) => None,
        Mark::Pruned(_, _) => None,
        Mark::Fanned(_, _) => None,
        Mark::Unfanned(_, _) => None,
        Mark::Backoff(_, _, _) => None,
        Mark::Published(_) => None,
    }
}

fn found_so(verdict: Verdict) -> Option<Fate>
    ensures { result ≡ found_so verdict }
{
    match verdict {
        Verdict::Ignore => Some(Fate::Ignored),
        Verdict::Accept => None,
        Verdict::Reject => None,
    }
}

/// What became of a message that comes again. Its identifier is computed only if some message was ignored.
fn again(verdicts: &Verdicts, message: &Message) -> Fate
    ensures { result ≡ again (was_ignored verdicts.now (message_id (payload_of message.now))) }
{
    if verdicts.is_empty() {
        return Fate::Duplicate;
    }
    if verdicts.was_ignored(&MsgId::of(message.payload_bytes())) {
        return Fate::Ignored;
    }
    Fate::Duplicate
}
