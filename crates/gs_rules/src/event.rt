//! The events of a peer, and the parts of RPCs and steps of heartbeats among them.
ghost use Rattle.std.specs.Prelude.{◌≡◌, IfSome, IfNone, Some, None};
ghost use Rattle.gs_rules.specs.Parts.{brought_by, subscription_in};
ghost use Rattle.gs_rules.specs.Tables.{lost, lost_by};

use gs_base::{
    Graft, IHave, IWant, Message, PeerNo, Prune, Rpc, Shared, SharedPart, SubOpt, Topic,
};
use gs_plan::Act;

/// What happened at a peer. Its long data is stored outside the event, so that an entry is small.
#[derive(Debug, Drop, PartialEq, Eq)]
pub enum Event {
    /// A neighbour's RPC came. Its parts follow, unless the neighbour is on the graylist.
    Heard(PeerNo, Shared<Rpc>),
    /// An RPC came from a neighbour that is no longer heard.
    Late(PeerNo, Shared<Rpc>),
    /// A part of an RPC that was heard.
    Part(PeerNo, RpcPart),
    /// A heartbeat began, and promises whose time had come ended. Its steps follow.
    BeatBegin,
    /// A step of a heartbeat.
    Step(BeatStep),
    /// The peer's own user made it do something.
    Own(Shared<Act>),
    /// A neighbour was lost.
    Lost(PeerNo, Loss),
    /// The counters of scores decayed by a step.
    Decay,
    /// The round with this number ended. Neighbours hear in the next round what was sent in this one.
    RoundEnd(u64),
    /// The peer shut down.
    Shut,
}

/// A part of an RPC.
#[derive(Debug, Drop, PartialEq, Eq)]
pub enum RpcPart {
    /// A neighbour subscribed to a topic or left it.
    Sub(SharedPart<SubOpt>),
    /// A neighbour passed on a message (gossipsub v1.0, "Message Processing").
    Msg(SharedPart<Message>),
    /// A neighbour offered messages (gossipsub v1.0, "Control Messages", IHAVE).
    Have(SharedPart<IHave>),
    /// A neighbour asked for messages (IWANT).
    Want(SharedPart<IWant>),
    /// A neighbour said that it put the peer into a mesh (GRAFT).
    GraftIn(SharedPart<Graft>),
    /// A neighbour said that it took the peer out of a mesh (PRUNE).
    PruneIn(SharedPart<Prune>),
}

/// A step of a heartbeat, after its beginning.
#[derive(Debug, Drop, PartialEq, Eq)]
pub enum BeatStep {
    /// The mesh of a topic was mended (gossipsub v1.0, "Mesh maintenance").
    MeshBeat(Topic),
    /// The fanout of a topic was mended (gossipsub v1.0, "Fanout maintenance").
    FanBeat(Topic),
    /// The fanout of a topic ended, since the peer has not published on the topic for `fanout_ttl_ms`.
    FanEnd(Topic),
    /// Identifiers of messages that were kept lately under a topic were gossiped (gossipsub v1.0, "Gossip Emission").
    GossipBeat(Topic),
    /// The heartbeat ended.
    BeatEnd,
}

/// How a neighbour is lost if the peer did not hang up on it.
#[derive(Clone, Copy, Debug, PartialEq, Eq)]
pub enum Loss {
    /// It closed its link.
    Gone,
    /// Its bytes spelled no RPC, or ended within one.
    Fault,
}

impl RpcPart {
    /// Returns the change of a subscription, if the part is one.
    pub fn subscription(&self) -> Option<&SubOpt>
        ensures some { IfSome result (λ sub. subscription_in self.now ≡ Some sub.now) }
        ensures none { IfNone result (subscription_in self.now ≡ None) }
    {
        match self {
            RpcPart::Sub(sub) => Some(sub.get()),
            RpcPart::Msg(_) => None,
            RpcPart::Have(_) => None,
            RpcPart::Want(_) => None,
            RpcPart::GraftIn(_) => None,
            RpcPart::PruneIn(_) => None,
        }
    }

    /// Returns the message, if the part is one.
    pub fn message(&self) -> Option<&SharedPart<Message>>
        ensures some { IfSome result (λ message. brought_by self.now ≡ Some message.now) }
        ensures none { IfNone result (brought_by self.now ≡ None) }
    {
        match self {
            RpcPart::Sub(_) => None,
            RpcPart::Msg(message) => Some(message),
            RpcPart::Have(_) => None,
            RpcPart::Want(_) => None,
            RpcPart::GraftIn(_) => None,
            RpcPart::PruneIn(_) => None,
        }
    }
}

impl Event {
    /// Returns the neighbour that the event loses, if any.
    pub fn lost(&self) -> Option<PeerNo>
        ensures { result ≡ lost self.now }
    {
        match self {
            Event::Lost(peer, _) => Some(*peer),
            Event::Own(act) => lost_by(act.get()),
            Event::Heard(_, _) => None,
            Event::Late(_, _) => None,
            Event::Part(_, _) => None,
            Event::BeatBegin => None,
            Event::Step(_) => None,
            Event::Decay => None,
            Event::RoundEnd(_) => None,
            Event::Shut => None,
        }
    }
}

/// Returns the neighbour on which the act hangs up, if any.
fn lost_by(act: &Act) -> Option<PeerNo>
    ensures { result ≡ lost_by act.now }
{
    match act {
        Act::HangUp(peer) => Some(*peer),
        Act::Subscribe(_) => None,
        Act::Unsubscribe(_) => None,
        Act::Publish(_, _) => None,
        Act::Raw(_, _) => None,
    }
}
