//! What is done to a router, and what it is made of.
use gs_params::{DEFAULT_FACTORS, Factors};

/// A part of an RPC. Messages that are offered or requested are named by their payloads.
#[derive(Clone, Copy, Debug)]
pub enum CasePart<'a> {
    /// Its sender subscribes to a topic. An empty name stands for an absent topic.
    On(&'a str),
    /// A message with only a topic, which an empty name leaves out, and a payload.
    Message(&'a str, &'a [u8]),
    Have(&'a str, &'a [&'a [u8]]),
    Want(&'a [&'a [u8]]),
    Graft(&'a str),
    /// With the seconds of its backoff, if it names any.
    Prune(&'a str, Option<u64>),
}

/// A call of a router.
#[derive(Clone, Copy, Debug)]
pub enum Call<'a> {
    /// It hears an RPC of a neighbour.
    Hear(u16, &'a [CasePart<'a>]),
    Subscribe(&'a str),
    Unsubscribe(&'a str),
    Publish(&'a str, &'a [u8]),
    /// It hangs up on a neighbour.
    HangUp(u16),
    /// It puts these bytes on the link to a neighbour.
    Raw(u16, &'a [u8]),
    Heartbeat,
    Decay,
    EndRound(u64),
    Gone(u16),
    Fault(u16),
    Shut,
}

/// What a neighbour is, apart from its number.
#[derive(Clone, Copy, Debug)]
pub enum Kind {
    /// It dialled, and the application says nothing about it.
    Plain,
    /// It was dialled.
    Dialled,
    /// It scores 3 by the application.
    Praised,
}

/// What a router is made of.
#[derive(Clone, Copy, Debug)]
pub struct Case<'a> {
    /// How many neighbours it has; their numbers begin at 1.
    pub neighbours: u16,
    /// The kinds of the first ones; the others are plain.
    pub kinds: &'a [Kind],
    pub factors: Factors,
    /// Topics that have parameters. With each, what rejected payloads begin with.
    pub topics: &'a [(&'a str, &'a [u8])],
}

/// A router with two neighbours and the default parameters.
pub const NOTHING: Case<'static> = Case {
    neighbours: 2,
    kinds: &[],
    factors: DEFAULT_FACTORS,
    topics: &[],
};
