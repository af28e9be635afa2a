//! What comes to a router from its neighbours: RPCs, and the ends of their links.
ghost use Rattle.std.specs.Prelude.{◌≡◌, ◌≤◌, Some, true};
ghost use Rattle.gs_rules.specs.declared.event.Event.TheVariants as events;
ghost use Rattle.gs_rules.specs.declared.event.Loss.TheVariants as losses;
ghost use Rattle.gs_rules.specs.Tables.{last_moment};
ghost use Rattle.gs_rules.specs.Modes.{exact};
ghost use Rattle.gs_rules.specs.Legal.{hearing, losing};
ghost use Rattle.gs_wire.specs.Codec.{codec};
ghost use Rattle.gs_router.specs.Router.{Calls};

use crate::fault::RouterFault;
use crate::log::Retention;
use crate::router::{Router, ended};
use gs_base::{Millis, PeerNo, Rpc, Shared};
use gs_params::Words;
use gs_rules::{Event, Loss, Refusal};

impl<K: Retention> Router<K> {
    /// Hears an RPC that came from a neighbour and fits a frame, as every RPC from a reader does. If the neighbour is not
    /// up, the RPC is late and has no effect. If the neighbour is on the graylist, no part of the RPC has an effect
    /// (gossipsub v1.1, "Score Thresholds").
    ///
    /// # Errors
    /// `Stopped` after the router ran out of memory, and `NoMemory`.
    pub fn hear<W: Words>(
        &mut self,
        from: PeerNo,
        rpc: Rpc,
        now: Millis,
        words: &mut W,
    ) -> Result<(), RouterFault>
        requires time { last_moment self.old.trace ≤ now.0 }
        requires fits { codec.fits rpc ≡ true }
        ensures { Calls (exact W.word W.after) (Some (hearing self.old.trace from rpc)) now
            self.old words.old result self.new words.new }
    {
        if self.is_stopped {
            return Err(RouterFault::Refused(Refusal::Stopped));
        }
        let done = self.state.hear(&mut self.payloads, from, rpc, now, words);
        ended(&mut self.is_stopped, done)
    }

    /// Hears an RPC that others share, as `hear` does. What is kept from it is shared, and nothing is copied.
    ///
    /// # Errors
    /// `Stopped` after the router ran out of memory, and `NoMemory`.
    pub fn hear_shared<W: Words>(
        &mut self,
        from: PeerNo,
        rpc: Shared<Rpc>,
        now: Millis,
        words: &mut W,
    ) -> Result<(), RouterFault>
        requires time { last_moment self.old.trace ≤ now.0 }
        requires fits { codec.fits rpc ≡ true }
        ensures { Calls (exact W.word W.after) (Some (hearing self.old.trace from rpc)) now
            self.old words.old result self.new words.new }
    {
        if self.is_stopped {
            return Err(RouterFault::Refused(Refusal::Stopped));
        }
        let done = self
            .state
            .hear_shared(&mut self.payloads, from, rpc, now, words);
        ended(&mut self.is_stopped, done)
    }

    /// Notes that a neighbour has closed its link. If the neighbour is not up, this does nothing.
    ///
    /// # Errors
    /// `Stopped` after the router ran out of memory, and `NoMemory`.
    pub fn gone<W: Words>(
        &mut self,
        peer: PeerNo,
        now: Millis,
        words: &mut W,
    ) -> Result<(), RouterFault>
        requires { last_moment self.old.trace ≤ now.0 }
        ensures { Calls (exact W.word W.after) (losing self.old.trace peer (events.Lost peer losses.Gone)) now
            self.old words.old result self.new words.new }
    {
        self.lose(peer, Loss::Gone, now, words)
    }

    /// Notes that a neighbour's bytes spell no RPC, or end within one. If the neighbour is not up, this does nothing.
    ///
    /// # Errors
    /// `Stopped` after the router ran out of memory, and `NoMemory`.
    pub fn fault<W: Words>(
        &mut self,
        peer: PeerNo,
        now: Millis,
        words: &mut W,
    ) -> Result<(), RouterFault>
        requires { last_moment self.old.trace ≤ now.0 }
        ensures { Calls (exact W.word W.after) (losing self.old.trace peer (events.Lost peer losses.Fault)) now
            self.old words.old result self.new words.new }
    {
        self.lose(peer, Loss::Fault, now, words)
    }

    /// Loses a neighbour, if it is up.
    fn lose<W: Words>(
        &mut self,
        peer: PeerNo,
        loss: Loss,
        now: Millis,
        words: &mut W,
    ) -> Result<(), RouterFault>
        requires { last_moment self.old.trace ≤ now.0 }
        ensures { Calls (exact W.word W.after) (losing self.old.trace peer (events.Lost peer loss)) now
            self.old words.old result self.new words.new }
    {
        if self.is_stopped {
            return Err(RouterFault::Refused(Refusal::Stopped));
        }
        if !self.state.known.tables.neighbours.is_up(peer) {
            return Ok(());
        }
        let done = self
            .state
            .open(&mut self.payloads, Event::Lost(peer, loss), now, words);
        ended(&mut self.is_stopped, done)
    }
}
