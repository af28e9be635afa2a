//! A router: what one gossipsub peer does, and its trace. It neither receives nor sends by itself: the caller hands in what
//! comes, and the trace says what is sent.
ghost use Rattle.std.specs.Prelude.{◌≡◌, ◌≤◌, ◌^◌, ◌||◌, [], Some, false, unsigned_abs, All, IfOk};
ghost use Rattle.gs_base.specs.Names.{peers_of};
ghost use Rattle.gs_base.specs.declared.neighbour.Neighbour.{Neighbour as NeighbourValue};
ghost use Rattle.gs_params.specs.Params.{AreInRange};
ghost use Rattle.gs_params.specs.Picks.{IsAscending};
ghost use Rattle.gs_rules.specs.declared.event.Event.TheVariants as events;
ghost use Rattle.gs_rules.specs.Tables.{last_moment};
ghost use Rattle.gs_rules.specs.Modes.{exact};
ghost use Rattle.gs_router.specs.Router.{Calls, IsPlain, answer_of, fails};

mod hearing;
mod reading;

use crate::entries;
use crate::fault::RouterFault;
use crate::known::Known;
use crate::log::{Log, Retention, WholeTrace};
use crate::setup::{Setup, explicit_among};
use crate::state::State;
use crate::tables::Tables;
use gs_base::{Millis, Neighbour};
use gs_cache::Payloads;
use gs_params::{Params, Words};
use gs_plan::Act;
use gs_rules::{Event, Refusal};
use std::alloc::{AllocError, Global};
use std::marker::Model;
use std::mem;

/// A gossipsub router with its trace.
///
/// Each call that may change the router gets the words by which it chooses, and its choices draw from them. The random words
/// belong to the caller, so that one plan has one report. A call that has nothing to choose gets them too, since its
/// contract is about the source that it gets. A law says that such a call draws none (`what_is_given_draws_no_word`).
///
/// `now`, in milliseconds, is never earlier than the last moment of the trace. A call that is refused changes nothing and
/// draws no word. After the router ran out of memory, the trace ends with the last whole entry, and every call is refused
/// with `Stopped`. After `shut`, every call of the user is refused in the same way.
#[derive(Drop)]
pub struct Router<K: Retention = WholeTrace> {
    state: State<K>,
    payloads: Payloads,
    is_stopped: bool,
}

impl<K: Retention> Model for Router<K> {
    ghost use Rattle.gs_router.specs.Router.{IsSound, RouterView, view_of};

    ghost Value = { RouterView };

    ghost view = { λ r. view_of r.state r.is_stopped };

    ghost invariant = { λ r. IsSound r.state r.is_stopped };
}

impl<K: Retention> Router<K> {
    /// Returns a router that has done nothing. It has these parameters, which are in range, and these neighbours, ascending
    /// by number. The score that the application gives each neighbour is between -10^12 and 10^12 millionths.
    ///
    /// # Errors
    /// `AllocError` if memory runs out.
    pub fn new(
        alloc: Global,
        params: Params,
        neighbours: Vec<Neighbour>,
    ) -> Result<Router<K>, AllocError>
        requires in_range { AreInRange params }
        requires ascending { IsAscending (peers_of neighbours.items) }
        requires apps { All (λ (n : NeighbourValue). unsigned_abs n.app ≤ 10 ^ 12) neighbours.items }
        ensures { IfOk result (λ router. router ≡ record {
          peer = record { params = params; neighbours = neighbours.items };
          trace = [];
          is_stopped = false;
        }) }
    {
        let tables = Tables::new(alloc, &params, neighbours.as_slice())?;
        let explicit = explicit_among(alloc, neighbours.as_slice())?;
        Ok(Router {
            state: State {
                known: Known {
                    alloc,
                    setup: Setup {
                        params,
                        neighbours,
                        explicit,
                    },
                    tables,
                },
                trace: Log::new(alloc),
            },
            payloads: Payloads::new(alloc),
            is_stopped: false,
        })
    }

    /// Exchanges the router's store of payloads with the one that is lent. So all routers of one thread can share one store,
    /// and the hash of a payload is computed once. The payloads in the store do not affect what a router does.
    pub fn exchange_payloads(&mut self, payloads: &mut Payloads)
        ensures { self.new ≡ self.old }
    {
        mem::swap(&mut self.payloads, payloads);
    }

    /// Does what the router's own user asks, or refuses it (gossipsub v1.0 and v1.1; `Act` says what each act asks for).
    ///
    /// - `Subscribe` announces the topic to every neighbour that is up. It grafts up to `d` of the neighbours that may come
    ///   into the topic's mesh, members of its fanout first. Then that fanout ends ("Topic Membership").
    /// - `Unsubscribe` announces this to every neighbour that is up, and prunes each member of the mesh. No member may come
    ///   back for `unsubscribe_backoff_s` ("Topic Membership", "Prune Backoff").
    /// - `Publish` delivers the payload to the router's own user if the router is subscribed to the topic. With
    ///   `flood_publish` the payload goes to every neighbour that is up and on the topic. Without it, the payload goes to the
    ///   topic's mesh if the router is subscribed, and otherwise to the topic's fanout. An empty fanout is filled first. An
    ///   explicit neighbour that is up and on the topic gets the payload at any score. Any other neighbour that scores below
    ///   `publish_threshold` gets nothing ("Message Processing", "Flood Publishing", "Score Thresholds", "Explicit Peering
    ///   Agreements").
    /// - `Raw` puts any number of bytes on the link, after what was sent and before what is sent later. Nothing else changes.
    /// - `HangUp` closes the link after what was sent. The neighbour leaves every mesh and every fanout, and is charged with
    ///   what is missing of its deliveries there ("Peer Scoring", P3b). It no longer counts at its address (P6). Nothing
    ///   more is sent to it, and what still comes from it is late. Neither the end of its link nor its faults make an entry.
    ///
    /// # Errors
    /// `Stopped` first, for any act. Then, in this order, for `Subscribe` `TooLong`, `Joined`, `TooMany`; for `Unsubscribe`
    /// `NotJoined`; for `Publish` `TooLong`, `AlreadySeen`; for `Raw` and `HangUp` `NotOpen`. And `NoMemory`.
    pub fn obey<W: Words>(
        &mut self,
        act: Act,
        now: Millis,
        words: &mut W,
    ) -> Result<(), RouterFault>
        requires { last_moment self.old.trace ≤ now.0 }
        ensures { Calls (exact W.word W.after) (Some (events.Own act)) now
            self.old words.old result self.new words.new }
    {
        if self.is_stopped {
            return Err(RouterFault::Refused(Refusal::Stopped));
        }
        let known = &self.state.known;
        if let Some(why) = entries::refusal_of(known, &mut self.payloads, &act, now) {
            return Err(RouterFault::Refused(why));
        }
        let done = self.state.obey(&mut self.payloads, act, now, words);
        ended(&mut self.is_stopped, done)
    }

    /// Does a heartbeat (gossipsub v1.0, Heartbeat). It charges broken promises and mends each mesh. It mends each fanout,
    /// or ends it if nothing was published on it for `fanout_ttl_ms`. It gossips on each topic that has something to gossip.
    /// Then it begins a new window of kept messages.
    ///
    /// # Errors
    /// `Stopped`, and `NoMemory`.
    pub fn heartbeat<W: Words>(&mut self, now: Millis, words: &mut W) -> Result<(), RouterFault>
        requires { last_moment self.old.trace ≤ now.0 }
        ensures { Calls (exact W.word W.after) (Some events.BeatBegin) now
            self.old words.old result self.new words.new }
    {
        if self.is_stopped {
            return Err(RouterFault::Refused(Refusal::Stopped));
        }
        if let Some(why) = entries::refusal_of_anything(&self.state.known) {
            return Err(RouterFault::Refused(why));
        }
        let done = self.state.heartbeat(now, words);
        ended(&mut self.is_stopped, done)
    }

    /// Lowers by one step the counters that make up scores (gossipsub v1.1, Peer Scoring, Parameter Decay).
    ///
    /// # Errors
    /// `Stopped`, and `NoMemory`.
    pub fn decay<W: Words>(&mut self, now: Millis, words: &mut W) -> Result<(), RouterFault>
        requires { last_moment self.old.trace ≤ now.0 }
        ensures { Calls (exact W.word W.after) (Some events.Decay) now
            self.old words.old result self.new words.new }
    {
        self.open(Event::Decay, now, words)
    }

    /// Ends a round.
    ///
    /// # Errors
    /// `Stopped`, and `NoMemory`.
    pub fn end_round<W: Words>(
        &mut self,
        round: u64,
        now: Millis,
        words: &mut W,
    ) -> Result<(), RouterFault>
        requires { last_moment self.old.trace ≤ now.0 }
        ensures { Calls (exact W.word W.after) (Some (events.RoundEnd round)) now
            self.old words.old result self.new words.new }
    {
        self.open(Event::RoundEnd(round), now, words)
    }

    /// Shuts down: nothing is sent any more.
    ///
    /// # Errors
    /// `Stopped`, and `NoMemory`.
    pub fn shut<W: Words>(&mut self, now: Millis, words: &mut W) -> Result<(), RouterFault>
        requires { last_moment self.old.trace ≤ now.0 }
        ensures { Calls (exact W.word W.after) (Some events.Shut) now
            self.old words.old result self.new words.new }
    {
        self.open(Event::Shut, now, words)
    }

    /// Lets an event come, or refuses it. The event needs only that the router has not shut down.
    fn open<W: Words>(
        &mut self,
        event: Event,
        now: Millis,
        words: &mut W,
    ) -> Result<(), RouterFault>
        requires time { last_moment self.old.trace ≤ now.0 }
        requires plain { IsPlain event }
        ensures { Calls (exact W.word W.after) (Some event) now self.old words.old result self.new words.new }
    {
        if self.is_stopped {
            return Err(RouterFault::Refused(Refusal::Stopped));
        }
        let known = &self.state.known;
        if let Some(why) = entries::refusal_of_anything(known) {
            return Err(RouterFault::Refused(why));
        }
        let done = self.state.open(&mut self.payloads, event, now, words);
        ended(&mut self.is_stopped, done)
    }
}

/// Returns how a call ends. A router that ran out of memory has stopped.
fn ended(is_stopped: &mut bool, done: Result<(), AllocError>) -> Result<(), RouterFault>
    ensures answer { result ≡ answer_of done }
    ensures stopped { is_stopped.new ≡ (is_stopped.old || fails done) }
{
    match done {
        Ok(()) => Ok(()),
        Err(_) => {
            *is_stopped = true;
            Err(RouterFault::NoMemory)
        }
    }
}
