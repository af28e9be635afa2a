//! Whether an entry, a part of it, or a line of the script names a topic.
ghost use Rattle.std.specs.Prelude.{◌≡◌, ℕ, List, Bool, false};
ghost use Rattle.std.specs.List.{list_any};
ghost use Rattle.gs_trace.specs.Topics.{act_names, control_names, delivery_names, effects_name, entry_names, event_names, graft_names, if_there, ihave_names, is_topic, line_names, mark_names, message_names, part_names, prune_names, rpc_names, send_names, step_names, sub_names};

use bytes::Bytes;
use gs_base::{
    Control, Graft, IHave, Mark, Message, PeerNo, Prune, Rpc, Seq, Shared, SubOpt, Topic,
};
use gs_plan::{Act, Plan};
use gs_rules::{BeatStep, Event, RpcPart, StoredEntry};

/// A value that may name topics.
trait Names {
    /// Whether it names the topic that has these bytes.
    ghost named: { List ℕ → Self → Bool };

    fn names(&self, topic: &[u8]) -> bool
        ensures { result ≡ named topic.now self.now };
}

impl Names for Topic {
    ghost named = { is_topic };

    fn names(&self, topic: &[u8]) -> bool {
        self.0.as_slice() == topic
    }
}

impl<T: Names> Names for Option<T> {
    ghost named = { λ topic value. if_there (T.named topic) value };

    fn names(&self, topic: &[u8]) -> bool {
        match self {
            Some(value) => value.names(topic),
            None => false,
        }
    }
}

impl<T: Names> Names for Seq<T> {
    ghost named = { λ topic values. list_any (T.named topic) values };

    fn names(&self, topic: &[u8]) -> bool {
        any_names(self.as_slice(), topic)
    }
}

/// Whether one of some values names a topic.
fn any_names<T: Names>(values: &[T], topic: &[u8]) -> bool
    ensures { result ≡ list_any (T.named topic.now) values.now }
{
    for value in values {
        if value.names(topic) {
            return true;
        }
    }
    false
}

impl Names for SubOpt {
    ghost named = { sub_names };

    fn names(&self, topic: &[u8]) -> bool {
        self.topic.names(topic)
    }
}

impl Names for Message {
    ghost named = { message_names };

    fn names(&self, topic: &[u8]) -> bool {
        self.topic.names(topic)
    }
}

impl Names for IHave {
    ghost named = { ihave_names };

    fn names(&self, topic: &[u8]) -> bool {
        self.topic.names(topic)
    }
}

impl Names for Graft {
    ghost named = { graft_names };

    fn names(&self, topic: &[u8]) -> bool {
        self.topic.names(topic)
    }
}

impl Names for Prune {
    ghost named = { prune_names };

    fn names(&self, topic: &[u8]) -> bool {
        self.topic.names(topic)
    }
}

impl Names for Control {
    ghost named = { control_names };

    fn names(&self, topic: &[u8]) -> bool {
        self.ihave.names(topic) || (self.graft.names(topic) || self.prune.names(topic))
    }
}

impl Names for Rpc {
    ghost named = { rpc_names };

    fn names(&self, topic: &[u8]) -> bool {
        self.subs.names(topic) || (self.publish.names(topic) || self.control.names(topic))
    }
}

impl Names for Mark {
    ghost named = { mark_names };

    fn names(&self, topic: &[u8]) -> bool {
        match self {
            Mark::Seen(_, _) => false,
            Mark::First(_, about, _) => about.names(topic),
            Mark::Near(_, about, _) => about.names(topic),
            Mark::Invalid(_, about) => about.names(topic),
            Mark::Deficit(_, about, _) => about.names(topic),
            Mark::Misbehaviour(_) => false,
            Mark::Cached(_, about) => about.names(topic),
            Mark::Answered(_, _) => false,
            Mark::Offered(_) => false,
            Mark::Asked(_, _) => false,
            Mark::Grafted(_, about) => about.names(topic),
            Mark::Pruned(_, about) => about.names(topic),
            Mark::Fanned(_, about) => about.names(topic),
            Mark::Unfanned(_, about) => about.names(topic),
            Mark::Backoff(_, about, _) => about.names(topic),
            Mark::Published(about) => about.names(topic),
        }
    }
}

impl Names for (PeerNo, Shared<Rpc>) {
    ghost named = { send_names };

    fn names(&self, topic: &[u8]) -> bool {
        shared_names(&self.1, topic)
    }
}

impl Names for (Topic, Bytes) {
    ghost named = { delivery_names };

    fn names(&self, topic: &[u8]) -> bool {
        self.0.names(topic)
    }
}

/// Whether an RPC that others may share names a topic.
fn shared_names(rpc: &Shared<Rpc>, topic: &[u8]) -> bool
    ensures { result ≡ rpc_names topic.now rpc.now }
{
    rpc.get().names(topic)
}

/// Whether an entry names a topic: its event, an RPC that was sent, a delivery or a mark.
pub(crate) fn entry_names(topic: &[u8], entry: &StoredEntry) -> bool
    ensures { result ≡ entry_names topic.now entry.now }
{
    event_names(entry.event(), topic) || effects_name(entry, topic)
}

fn effects_name(entry: &StoredEntry, topic: &[u8]) -> bool
    ensures { result ≡ effects_name topic.now entry.now.effects }
{
    any_names(entry.sends(), topic)
        || (any_names(entry.delivered(), topic) || any_names(entry.marks(), topic))
}

fn event_names(event: &Event, topic: &[u8]) -> bool
    ensures { result ≡ event_names topic.now event.now }
{
    match event {
        Event::Heard(_, rpc) => shared_names(rpc, topic),
        Event::Late(_, rpc) => shared_names(rpc, topic),
        Event::Part(_, part) => part_names(part, topic),
        Event::BeatBegin => false,
        Event::Step(step) => step_names(step, topic),
        Event::Own(act) => act_names(act.get(), topic),
        Event::Lost(_, _) => false,
        Event::Decay => false,
        Event::RoundEnd(_) => false,
        Event::Shut => false,
    }
}

fn part_names(part: &RpcPart, topic: &[u8]) -> bool
    ensures { result ≡ part_names topic.now part.now }
{
    match part {
        RpcPart::Sub(part) => part.get().names(topic),
        RpcPart::Msg(part) => part.get().names(topic),
        RpcPart::Have(part) => part.get().names(topic),
        RpcPart::Want(_) => false,
        RpcPart::GraftIn(part) => part.get().names(topic),
        RpcPart::PruneIn(part) => part.get().names(topic),
    }
}

fn step_names(step: &BeatStep, topic: &[u8]) -> bool
    ensures { result ≡ step_names topic.now step.now }
{
    match step {
        BeatStep::MeshBeat(about) => about.names(topic),
        BeatStep::FanBeat(about) => about.names(topic),
        BeatStep::FanEnd(about) => about.names(topic),
        BeatStep::GossipBeat(about) => about.names(topic),
        BeatStep::BeatEnd => false,
    }
}

fn act_names(act: &Act, topic: &[u8]) -> bool
    ensures { result ≡ act_names topic.now act.now }
{
    match act {
        Act::Subscribe(about) => about.names(topic),
        Act::Unsubscribe(about) => about.names(topic),
        Act::Publish(about, _) => about.names(topic),
        Act::Raw(_, _) => false,
        Act::HangUp(_) => false,
    }
}

/// Whether the line of the script at a place names a topic.
pub(crate) fn line_names(plan: &Plan, topic: &[u8], place: usize) -> bool
    ensures { result ≡ line_names plan.now topic.now place }
{
    match plan.script.as_slice().get(place) {
        Some(line) => act_names(&line.what, topic),
        None => false,
    }
}
