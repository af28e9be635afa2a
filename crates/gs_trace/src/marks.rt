//! What a peer remembers about an event, as JSON objects.
ghost use Rattle.std.specs.Prelude.{◌≡◌, ◌++◌, OnOk, codes, decimal};
ghost use Rattle.gs_base.specs.declared.mark.Mark.TheVariants.{Answered, Asked, Backoff, Cached, Deficit, Published, Seen};
ghost use Rattle.gs_trace.specs.Texts.{id_text, names_of};
ghost use Rattle.gs_trace.specs.Events.{mark_members, mark_object, mark_of, mark_on, mark_text, verdict_word};

use crate::events::push_topic;
use crate::texts::{Shown, push_code, push_number, push_whole};
use gs_base::{Mark, Millis, MsgId, PeerNo, Topic, Verdict};
use gs_plan::Plan;
use std::alloc::AllocError;

impl Shown for Mark {
    ghost text = { mark_object };

    fn push(&self, plan: &Plan, out: &mut Vec<u8>) -> Result<(), AllocError> {
        push_mark(plan, out, self)?;
        push_code(out, b"}")
    }
}

fn push_mark(plan: &Plan, out: &mut Vec<u8>, mark: &Mark) -> Result<(), AllocError>
    ensures { OnOk result (out.new.items ≡ out.old.items ++ mark_members (names_of plan.now) mark.now) }
{
    match mark {
        Mark::Seen(id, verdict) => push_seen(plan, out, id, *verdict),
        Mark::First(peer, topic, id) => push_on_id(plan, out, b"first", *peer, topic, id),
        Mark::Near(peer, topic, id) => push_on_id(plan, out, b"near", *peer, topic, id),
        Mark::Invalid(peer, topic) => push_on(plan, out, b"invalid", *peer, topic),
        Mark::Deficit(peer, topic, millionths) => {
            push_deficit(plan, out, *peer, topic, millionths)
        }
        Mark::Misbehaviour(peer) => push_of(plan, out, b"misbehaviour", *peer),
        Mark::Cached(id, topic) => push_cached(plan, out, id, topic),
        Mark::Answered(peer, id) => push_answered(plan, out, *peer, id),
        Mark::Offered(peer) => push_of(plan, out, b"offered", *peer),
        Mark::Asked(peer, count) => push_asked(plan, out, *peer, *count),
        Mark::Grafted(peer, topic) => push_on(plan, out, b"grafted", *peer, topic),
        Mark::Pruned(peer, topic) => push_on(plan, out, b"pruned", *peer, topic),
        Mark::Fanned(peer, topic) => push_on(plan, out, b"fanned", *peer, topic),
        Mark::Unfanned(peer, topic) => push_on(plan, out, b"unfanned", *peer, topic),
        Mark::Backoff(peer, topic, until) => push_backoff(plan, out, *peer, topic, *until),
        Mark::Published(topic) => push_published(plan, out, topic),
    }
}

fn push_seen(plan: &Plan, out: &mut Vec<u8>, id: &MsgId, verdict: Verdict) -> Result<(), AllocError>
    ensures { OnOk result (out.new.items ≡ out.old.items ++ mark_members (names_of plan.now) (Seen id.now verdict)) }
{
    push_kind(out, b"seen")?;
    push_code(out, b",\"id\":")?;
    id.push(plan, out)?;
    push_code(out, b",\"verdict\":\"")?;
    push_verdict(out, verdict)?;
    push_code(out, b"\"")
}

fn push_on_id(
    plan: &Plan,
    out: &mut Vec<u8>,
    word: &[u8],
    peer: PeerNo,
    topic: &Topic,
    id: &MsgId,
) -> Result<(), AllocError>
    ensures { OnOk result (out.new.items
        ≡ out.old.items ++ (mark_on word.now (names_of plan.now) peer topic.now ++ codes ",\"id\":" ++ id_text id.now)) }
{
    push_on(plan, out, word, peer, topic)?;
    push_code(out, b",\"id\":")?;
    id.push(plan, out)
}

fn push_deficit(
    plan: &Plan,
    out: &mut Vec<u8>,
    peer: PeerNo,
    topic: &Topic,
    millionths: &i128,
) -> Result<(), AllocError>
    ensures { OnOk result (out.new.items
        ≡ out.old.items ++ mark_members (names_of plan.now) (Deficit peer topic.now millionths.now)) }
{
    push_on(plan, out, b"deficit", peer, topic)?;
    push_code(out, b",\"millionths\":")?;
    push_whole(out, millionths)
}

fn push_cached(plan: &Plan, out: &mut Vec<u8>, id: &MsgId, topic: &Topic) -> Result<(), AllocError>
    ensures { OnOk result (out.new.items
        ≡ out.old.items ++ mark_members (names_of plan.now) (Cached id.now topic.now)) }
{
    push_kind(out, b"cached")?;
    push_code(out, b",\"id\":")?;
    id.push(plan, out)?;
    push_topic(plan, out, topic)
}

fn push_answered(plan: &Plan, out: &mut Vec<u8>, peer: PeerNo, id: &MsgId) -> Result<(), AllocError>
    ensures { OnOk result (out.new.items
        ≡ out.old.items ++ mark_members (names_of plan.now) (Answered peer id.now)) }
{
    push_of(plan, out, b"answered", peer)?;
    push_code(out, b",\"id\":")?;
    id.push(plan, out)
}

fn push_asked(plan: &Plan, out: &mut Vec<u8>, peer: PeerNo, count: u32) -> Result<(), AllocError>
    ensures { OnOk result (out.new.items ≡ out.old.items ++ mark_members (names_of plan.now) (Asked peer count)) }
{
    push_of(plan, out, b"asked", peer)?;
    push_code(out, b",\"count\":")?;
    push_count(out, count)
}

fn push_count(out: &mut Vec<u8>, count: u32) -> Result<(), AllocError>
    ensures { OnOk result (out.new.items ≡ out.old.items ++ decimal count) }
{
    push_number(out, count as u64)
}

fn push_backoff(
    plan: &Plan,
    out: &mut Vec<u8>,
    peer: PeerNo,
    topic: &Topic,
    until: Millis,
) -> Result<(), AllocError>
    ensures { OnOk result (out.new.items
        ≡ out.old.items ++ mark_members (names_of plan.now) (Backoff peer topic.now until)) }
{
    push_on(plan, out, b"backoff", peer, topic)?;
    push_code(out, b",\"until\":")?;
    until.push(plan, out)
}

fn push_published(plan: &Plan, out: &mut Vec<u8>, topic: &Topic) -> Result<(), AllocError>
    ensures { OnOk result (out.new.items ≡ out.old.items ++ mark_members (names_of plan.now) (Published topic.now)) }
{
    push_kind(out, b"published")?;
    push_topic(plan, out, topic)
}

fn push_kind(out: &mut Vec<u8>, word: &[u8]) -> Result<(), AllocError>
    ensures { OnOk result (out.new.items ≡ out.old.items ++ mark_text word.now) }
{
    push_code(out, b"{\"mark\":\"")?;
    push_code(out, word)?;
    push_code(out, b"\"")
}

fn push_of(plan: &Plan, out: &mut Vec<u8>, word: &[u8], peer: PeerNo) -> Result<(), AllocError>
    ensures { OnOk result (out.new.items ≡ out.old.items ++ mark_of word.now (names_of plan.now) peer) }
{
    push_kind(out, word)?;
    push_code(out, b",\"peer\":")?;
    peer.push(plan, out)
}

fn push_on(
    plan: &Plan,
    out: &mut Vec<u8>,
    word: &[u8],
    peer: PeerNo,
    topic: &Topic,
) -> Result<(), AllocError>
    ensures { OnOk result (out.new.items ≡ out.old.items ++ mark_on word.now (names_of plan.now) peer topic.now) }
{
    push_of(plan, out, word, peer)?;
    push_topic(plan, out, topic)
}

fn push_verdict(out: &mut Vec<u8>, verdict: Verdict) -> Result<(), AllocError>
    ensures { OnOk result (out.new.items ≡ out.old.items ++ verdict_word verdict) }
{
    match verdict {
        Verdict::Accept => push_code(out, b"accept"),
        Verdict::Reject => push_code(out, b"reject"),
        Verdict::Ignore => push_code(out, b"ignore"),
    }
}
