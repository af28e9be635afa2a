//! How a router hears an RPC and its parts: one generic loop serves all kinds.
ghost use Rattle.std.specs.Prelude.{◌≡◌, ◌<◌, ◌≤◌, ◌++◌, List, length, OnOk, OnErr, false};
ghost use Rattle.gs_base.specs.declared.names.PeerNo.{PeerNo as PeerNoValue};
ghost use Rattle.gs_base.specs.declared.rpc.Rpc.{Rpc as RpcValue};
ghost use Rattle.gs_base.specs.Rpcs.{part_at};
ghost use Rattle.gs_rules.specs.declared.event.Event.{Event as EventValue};
ghost use Rattle.gs_rules.specs.declared.event.Event.TheVariants as events;
ghost use Rattle.gs_rules.specs.declared.event.RpcPart.{RpcPart as RpcPartValue};
ghost use Rattle.gs_rules.specs.declared.event.RpcPart.TheVariants as kinds;
ghost use Rattle.gs_rules.specs.Tables.{last_moment};
ghost use Rattle.gs_rules.specs.Parts.{after_grafts, after_messages, after_offers, after_prunes, after_requests, after_subs, events_of};
ghost use Rattle.gs_rules.specs.Scoring.{is_graylisted};
ghost use Rattle.gs_rules.specs.Modes.{exact};
ghost use Rattle.gs_rules.specs.Legal.{MayHear};
ghost use Rattle.gs_router.specs.State.{AreLeft, IsReady, Pays, PaysInPart, WorkEnds, peer_of};

use crate::log::Retention;
use crate::state::State;
use gs_base::{
    Graft, IHave, IWant, Message, Millis, Part, PeerNo, Prune, Rpc, Shared, SharedPart, SubOpt,
    clone_of,
};
use gs_cache::Payloads;
use gs_params::Words;
use gs_rules::{Event, RpcPart};
use std::alloc::AllocError;

/// A kind of part that a router hears.
pub trait HeardPart: Part {
    /// The part, as an event has it.
    ghost as_part: { Self → RpcPartValue };

    /// What an RPC has after its parts of this kind, as events.
    ghost after: { PeerNoValue → RpcValue → List EventValue };

    /// The part at a place of an RPC's list, as an event has it.
    fn heard_at(rpc: Shared<Rpc>, place: usize) -> RpcPart
        requires { place < length (Self.parts rpc) }
        ensures { result ≡ as_part (part_at Self.bare (Self.parts rpc) place) };
}

impl HeardPart for SubOpt {
    ghost as_part = { kinds.Sub };

    ghost after = { after_subs };

    fn heard_at(rpc: Shared<Rpc>, place: usize) -> RpcPart {
        RpcPart::Sub(SharedPart::at(rpc, place))
    }
}

impl HeardPart for Message {
    ghost as_part = { kinds.Msg };

    ghost after = { after_messages };

    fn heard_at(rpc: Shared<Rpc>, place: usize) -> RpcPart {
        RpcPart::Msg(SharedPart::at(rpc, place))
    }
}

impl HeardPart for IHave {
    ghost as_part = { kinds.Have };

    ghost after = { after_offers };

    fn heard_at(rpc: Shared<Rpc>, place: usize) -> RpcPart {
        RpcPart::Have(SharedPart::at(rpc, place))
    }
}

impl HeardPart for IWant {
    ghost as_part = { kinds.Want };

    ghost after = { after_requests };

    fn heard_at(rpc: Shared<Rpc>, place: usize) -> RpcPart {
        RpcPart::Want(SharedPart::at(rpc, place))
    }
}

impl HeardPart for Graft {
    ghost as_part = { kinds.GraftIn };

    ghost after = { after_grafts };

    fn heard_at(rpc: Shared<Rpc>, place: usize) -> RpcPart {
        RpcPart::GraftIn(SharedPart::at(rpc, place))
    }
}

impl HeardPart for Prune {
    ghost as_part = { kinds.PruneIn };

    ghost after = { after_prunes };

    fn heard_at(rpc: Shared<Rpc>, place: usize) -> RpcPart {
        RpcPart::PruneIn(SharedPart::at(rpc, place))
    }
}

impl<K: Retention> State<K> {
    /// Hears an RPC of a neighbour that is up and not on the graylist, and all its parts.
    pub fn hear_up<W: Words>(
        &mut self,
        payloads: &mut Payloads,
        from: PeerNo,
        rpc: &Shared<Rpc>,
        now: Millis,
        words: &mut W,
    ) -> Result<(), AllocError>
        requires ready { IsReady self.old }
        requires time { last_moment self.old.trace ≤ now.0 }
        requires may { MayHear self.old.trace from rpc.now }
        requires listened { is_graylisted (peer_of self.old) self.old.trace now.0 from ≡ false }
        ensures { WorkEnds (exact W.word W.after) (events.Heard from rpc.now) now
            self.old words.old result self.new words.new }
    {
        self.step(Event::Heard(from, clone_of(rpc)?), now, words)?;
        self.hear_parts::<SubOpt, W>(payloads, from, rpc, now, words)?;
        self.hear_parts::<Message, W>(payloads, from, rpc, now, words)?;
        self.hear_parts::<IHave, W>(payloads, from, rpc, now, words)?;
        self.hear_parts::<IWant, W>(payloads, from, rpc, now, words)?;
        self.hear_parts::<Graft, W>(payloads, from, rpc, now, words)?;
        self.hear_parts::<Prune, W>(payloads, from, rpc, now, words)?;
        Ok(())
    }

    /// Hears all parts of one kind of an RPC, which come next.
    fn hear_parts<P: HeardPart, W: Words>(
        &mut self,
        payloads: &mut Payloads,
        from: PeerNo,
        rpc: &Shared<Rpc>,
        now: Millis,
        words: &mut W,
    ) -> Result<(), AllocError>
        requires { AreLeft (exact W.word W.after) now
            (events_of P.as_part from (P.parts rpc.now) ++ P.after from rpc.now) self.old words.old }
        ensures left { OnOk result (AreLeft (exact W.word W.after) now (P.after from rpc.now) self.new words.new) }
        ensures pays { OnOk result (Pays (exact W.word W.after) now
            (events_of P.as_part from (P.parts rpc.now) ++ P.after from rpc.now) self.old words.old
            (P.after from rpc.now) self.new words.new) }
        ensures breaks { OnErr result (PaysInPart (exact W.word W.after) now
            (events_of P.as_part from (P.parts rpc.now) ++ P.after from rpc.now) self.old words.old self.new) }
    {
        for place in 0..P::parts_of(rpc.get()).len() {
            let part = P::heard_at(clone_of(rpc)?, place);
            self.step_with(payloads, Event::Part(from, part), now, words)?;
        }
        Ok(())
    }
}
