//! What happened at a peer, as members of a JSON object.
ghost use Rattle.std.specs.Prelude.{◌≡◌, ◌++◌, OnOk, codes, decimal};
ghost use Rattle.gs_base.specs.Names.{message_id, payload_of};
ghost use Rattle.gs_trace.specs.Texts.{hex_text, id_text, names_of, peer_text};
ghost use Rattle.gs_trace.specs.Rpcs.{message_text};
ghost use Rattle.gs_trace.specs.Events.{act_members, event_members, event_text, event_word, from_text, loss_word, part_text, part_word, payload_members, rpc_member, step_members, step_word, topic_member};

use crate::texts::{Shown, push_code, push_hex, push_number};
use gs_base::{Message, MsgId, PeerNo, Rpc, Shared, Topic};
use gs_plan::{Act, Plan, what_word};
use gs_rules::{BeatStep, Event, Loss, RpcPart};
use std::alloc::AllocError;

/// Adds the members that say what happened.
pub(crate) fn push_event(plan: &Plan, out: &mut Vec<u8>, event: &Event) -> Result<(), AllocError>
    ensures { OnOk result (out.new.items ≡ out.old.items ++ event_members (names_of plan.now) event.now) }
{
    match event {
        Event::Heard(from, rpc) => push_rpc_of(plan, out, b"heard", *from, rpc),
        Event::Late(from, rpc) => push_rpc_of(plan, out, b"late", *from, rpc),
        Event::Part(from, part) => push_part_of(plan, out, *from, part),
        Event::BeatBegin => push_word(out, b"heartbeat"),
        Event::Step(step) => push_step(plan, out, step),
        Event::Own(act) => push_act(plan, out, act.get()),
        Event::Lost(from, loss) => push_loss(plan, out, *from, *loss),
        Event::Decay => push_word(out, b"decay"),
        Event::RoundEnd(round) => push_round_end(out, *round),
        Event::Shut => push_word(out, b"shut"),
    }
}

/// The word of an event.
pub(crate) fn event_word(event: &Event) -> &'static [u8]
    ensures { result.now ≡ event_word event.now }
{
    match event {
        Event::Heard(_, _) => b"heard",
        Event::Late(_, _) => b"late",
        Event::Part(_, part) => word_of_part(part),
        Event::BeatBegin => b"heartbeat",
        Event::Step(step) => step_word(step),
        Event::Own(act) => what_word(act.get()).as_bytes(),
        Event::Lost(_, loss) => loss_word(*loss),
        Event::Decay => b"decay",
        Event::RoundEnd(_) => b"round_end",
        Event::Shut => b"shut",
    }
}

fn step_word(step: &BeatStep) -> &'static [u8]
    ensures { result.now ≡ step_word step.now }
{
    match step {
        BeatStep::MeshBeat(_) => b"mesh",
        BeatStep::FanBeat(_) => b"fanout",
        BeatStep::FanEnd(_) => b"fanout_end",
        BeatStep::GossipBeat(_) => b"gossip",
        BeatStep::BeatEnd => b"heartbeat_end",
    }
}

fn loss_word(loss: Loss) -> &'static [u8]
    ensures { result.now ≡ loss_word loss }
{
    match loss {
        Loss::Gone => b"gone",
        Loss::Fault => b"fault",
    }
}

/// Adds the member `event` with the word of an event.
///
/// # Errors
/// `AllocError` when out of memory. A part of the text may have been added then.
pub fn push_word(out: &mut Vec<u8>, word: &[u8]) -> Result<(), AllocError>
    ensures { OnOk result (out.new.items ≡ out.old.items ++ event_text word.now) }
{
    push_code(out, b"\"event\":\"")?;
    push_code(out, word)?;
    push_code(out, b"\"")
}

pub(crate) fn push_from(plan: &Plan, out: &mut Vec<u8>, from: PeerNo) -> Result<(), AllocError>
    ensures { OnOk result (out.new.items ≡ out.old.items ++ from_text (names_of plan.now) from) }
{
    push_code(out, b",\"from\":")?;
    from.push(plan, out)
}

pub(crate) fn push_rpc(plan: &Plan, out: &mut Vec<u8>, rpc: &Rpc) -> Result<(), AllocError>
    ensures { OnOk result (out.new.items ≡ out.old.items ++ rpc_member rpc.now) }
{
    push_code(out, b",\"rpc\":")?;
    rpc.push(plan, out)
}

/// Adds an RPC that others may share.
pub(crate) fn push_shared_rpc(
    plan: &Plan,
    out: &mut Vec<u8>,
    rpc: &Shared<Rpc>,
) -> Result<(), AllocError>
    ensures { OnOk result (out.new.items ≡ out.old.items ++ rpc_member rpc.now) }
{
    push_rpc(plan, out, rpc.get())
}

fn push_rpc_of(
    plan: &Plan,
    out: &mut Vec<u8>,
    word: &[u8],
    from: PeerNo,
    rpc: &Shared<Rpc>,
) -> Result<(), AllocError>
    ensures { OnOk result (out.new.items
        ≡ out.old.items ++ (event_text word.now ++ from_text (names_of plan.now) from ++ rpc_member rpc.now)) }
{
    push_word(out, word)?;
    push_from(plan, out, from)?;
    push_shared_rpc(plan, out, rpc)
}

fn push_part_of(
    plan: &Plan,
    out: &mut Vec<u8>,
    from: PeerNo,
    part: &RpcPart,
) -> Result<(), AllocError>
    ensures { OnOk result (out.new.items
        ≡ out.old.items
        ++ (event_text (part_word part.now) ++ from_text (names_of plan.now) from
        ++ codes ",\"part\":" ++ part_text part.now)) }
{
    push_part_word(out, part)?;
    push_from(plan, out, from)?;
    push_code(out, b",\"part\":")?;
    push_part(plan, out, part)
}

/// Adds which part of an RPC it is.
fn push_part_word(out: &mut Vec<u8>, part: &RpcPart) -> Result<(), AllocError>
    ensures { OnOk result (out.new.items ≡ out.old.items ++ event_text (part_word part.now)) }
{
    push_word(out, word_of_part(part))
}

fn word_of_part(part: &RpcPart) -> &'static [u8]
    ensures { result.now ≡ part_word part.now }
{
    match part {
        RpcPart::Sub(_) => b"subscription",
        RpcPart::Msg(_) => b"message",
        RpcPart::Have(_) => b"ihave",
        RpcPart::Want(_) => b"iwant",
        RpcPart::GraftIn(_) => b"graft",
        RpcPart::PruneIn(_) => b"prune",
    }
}

fn push_part(plan: &Plan, out: &mut Vec<u8>, part: &RpcPart) -> Result<(), AllocError>
    ensures { OnOk result (out.new.items ≡ out.old.items ++ part_text part.now) }
{
    match part {
        RpcPart::Sub(part) => part.get().push(plan, out),
        RpcPart::Msg(part) => push_message(plan, out, part.get()),
        RpcPart::Have(part) => part.get().push(plan, out),
        RpcPart::Want(part) => part.get().push(plan, out),
        RpcPart::GraftIn(part) => part.get().push(plan, out),
        RpcPart::PruneIn(part) => part.get().push(plan, out),
    }
}

/// Adds a message, and its identifier.
fn push_message(plan: &Plan, out: &mut Vec<u8>, message: &Message) -> Result<(), AllocError>
    ensures { OnOk result (out.new.items
        ≡ out.old.items ++ (message_text message.now ++ codes ",\"id\":"
        ++ id_text (message_id (payload_of message.now)))) }
{
    message.push(plan, out)?;
    push_code(out, b",\"id\":")?;
    push_message_id(plan, out, message)
}

fn push_message_id(plan: &Plan, out: &mut Vec<u8>, message: &Message) -> Result<(), AllocError>
    ensures { OnOk result (out.new.items ≡ out.old.items ++ id_text (message_id (payload_of message.now))) }
{
    push_id_of(plan, out, message.payload_bytes())
}

/// Adds the identifier that a payload has.
fn push_id_of(plan: &Plan, out: &mut Vec<u8>, payload: &[u8]) -> Result<(), AllocError>
    ensures { OnOk result (out.new.items ≡ out.old.items ++ id_text (message_id payload.now)) }
{
    MsgId::of(payload).push(plan, out)
}

fn push_round_end(out: &mut Vec<u8>, round: u64) -> Result<(), AllocError>
    ensures { OnOk result (out.new.items
        ≡ out.old.items ++ (event_text (codes "round_end") ++ codes ",\"number\":" ++ decimal round)) }
{
    push_word(out, b"round_end")?;
    push_code(out, b",\"number\":")?;
    push_number(out, round)
}

pub(crate) fn push_topic(plan: &Plan, out: &mut Vec<u8>, topic: &Topic) -> Result<(), AllocError>
    ensures { OnOk result (out.new.items ≡ out.old.items ++ topic_member topic.now) }
{
    push_code(out, b",\"topic\":")?;
    topic.push(plan, out)
}

fn push_word_on(
    plan: &Plan,
    out: &mut Vec<u8>,
    word: &[u8],
    topic: &Topic,
) -> Result<(), AllocError>
    ensures { OnOk result (out.new.items ≡ out.old.items ++ (event_text word.now ++ topic_member topic.now)) }
{
    push_word(out, word)?;
    push_topic(plan, out, topic)
}

fn push_step(plan: &Plan, out: &mut Vec<u8>, step: &BeatStep) -> Result<(), AllocError>
    ensures { OnOk result (out.new.items ≡ out.old.items ++ step_members step.now) }
{
    match step {
        BeatStep::MeshBeat(topic) => push_word_on(plan, out, b"mesh", topic),
        BeatStep::FanBeat(topic) => push_word_on(plan, out, b"fanout", topic),
        BeatStep::FanEnd(topic) => push_word_on(plan, out, b"fanout_end", topic),
        BeatStep::GossipBeat(topic) => push_word_on(plan, out, b"gossip", topic),
        BeatStep::BeatEnd => push_word(out, b"heartbeat_end"),
    }
}

/// Adds what was published, and its identifier.
pub(crate) fn push_payload(plan: &Plan, out: &mut Vec<u8>, payload: &[u8]) -> Result<(), AllocError>
    ensures { OnOk result (out.new.items ≡ out.old.items ++ payload_members payload.now) }
{
    push_code(out, b",\"data\":")?;
    push_hex(out, payload)?;
    push_code(out, b",\"id\":")?;
    push_id_of(plan, out, payload)
}

fn push_act(plan: &Plan, out: &mut Vec<u8>, act: &Act) -> Result<(), AllocError>
    ensures { OnOk result (out.new.items ≡ out.old.items ++ act_members (names_of plan.now) act.now) }
{
    match act {
        Act::Subscribe(topic) => push_word_on(plan, out, b"subscribe", topic),
        Act::Unsubscribe(topic) => push_word_on(plan, out, b"unsubscribe", topic),
        Act::Publish(topic, payload) => push_publish(plan, out, topic, payload.as_slice()),
        Act::Raw(to, bytes) => push_raw(plan, out, *to, bytes.as_slice()),
        Act::HangUp(to) => push_word_to(plan, out, b"hang_up", *to),
    }
}

fn push_publish(
    plan: &Plan,
    out: &mut Vec<u8>,
    topic: &Topic,
    payload: &[u8],
) -> Result<(), AllocError>
    ensures { OnOk result (out.new.items
        ≡ out.old.items ++ (event_text (codes "publish") ++ topic_member topic.now ++ payload_members payload.now)) }
{
    push_word(out, b"publish")?;
    push_topic(plan, out, topic)?;
    push_payload(plan, out, payload)
}

fn push_raw(plan: &Plan, out: &mut Vec<u8>, to: PeerNo, bytes: &[u8]) -> Result<(), AllocError>
    ensures { OnOk result (out.new.items
        ≡ out.old.items ++ (event_text (codes "raw") ++ codes ",\"to\":" ++ peer_text (names_of plan.now) to
        ++ codes ",\"bytes\":" ++ hex_text bytes.now)) }
{
    push_word(out, b"raw")?;
    push_code(out, b",\"to\":")?;
    to.push(plan, out)?;
    push_code(out, b",\"bytes\":")?;
    push_hex(out, bytes)
}

/// Adds which event it is, and the peer that it is for.
fn push_word_to(plan: &Plan, out: &mut Vec<u8>, word: &[u8], to: PeerNo) -> Result<(), AllocError>
    ensures { OnOk result (out.new.items
        ≡ out.old.items ++ (event_text word.now ++ codes ",\"to\":" ++ peer_text (names_of plan.now) to)) }
{
    push_word(out, word)?;
    push_code(out, b",\"to\":")?;
    to.push(plan, out)
}

fn push_loss(plan: &Plan, out: &mut Vec<u8>, from: PeerNo, loss: Loss) -> Result<(), AllocError>
    ensures { OnOk result (out.new.items
        ≡ out.old.items ++ (event_text (loss_word loss) ++ from_text (names_of plan.now) from)) }
{
    push_word(out, loss_word(loss))?;
    push_from(plan, out, from)
}
