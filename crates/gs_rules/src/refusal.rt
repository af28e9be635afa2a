ghost use Rattle.std.specs.Prelude.{◌≡◌};
ghost use Rattle.gs_rules.specs.Refusals.{number_of};

use gs_base::Millis;

/// Why a peer refuses an act of its own user.
#[derive(Clone, Copy, Debug, PartialEq, Eq, thiserror::Error)]
pub enum Refusal {
    /// The message was seen lately.
    #[error("the message was seen lately")]
    AlreadySeen,
    /// The topic is longer than `LONGEST_TOPIC`, or the message makes a frame's body too long.
    #[error("the topic or the message is too long")]
    TooLong,
    /// The peer is subscribed to the topic.
    #[error("the topic is joined")]
    Joined,
    /// The peer is not subscribed to the topic.
    #[error("the topic is not joined")]
    NotJoined,
    /// The peer has shut down, or has run out of memory before.
    #[error("the peer has stopped")]
    Stopped,
    /// The neighbour is lost. It closed its link, its bytes spelled no RPC or ended within one, or the peer hung up on it.
    #[error("the link to the neighbour is not open")]
    NotOpen,
    /// The peer was subscribed to `MOST_TOPICS` other topics.
    #[error("too many topics were joined")]
    TooMany,
}

impl Refusal {
    /// Returns the number of the refusal, as docs/REFUSALS.md lists it: 16 to 19, 21, 33 and 34.
    pub fn number(self) -> u8
        ensures { result ≡ number_of self }
    {
        match self {
            Refusal::AlreadySeen => 16,
            Refusal::TooLong => 17,
            Refusal::Joined => 18,
            Refusal::NotJoined => 19,
            Refusal::Stopped => 21,
            Refusal::NotOpen => 33,
            Refusal::TooMany => 34,
        }
    }
}

/// A line of a script that a peer could not follow.
#[derive(Clone, Copy, Debug, PartialEq, Eq)]
pub struct RefusedLine {
    /// The moment at which it was refused.
    pub at: Millis,
    /// The place of the line in the plan's script, where the first is 0.
    pub line: usize,
    /// The first reason that held (`reasons`).
    pub why: Refusal,
}
