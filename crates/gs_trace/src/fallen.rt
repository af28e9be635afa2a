//! What neighbours sent or promised without effect, as JSON objects.
ghost use Rattle.std.specs.Prelude.{◌≡◌, ◌++◌, OnOk, codes};
ghost use Rattle.gs_rules.specs.declared.fallen.Fallen.TheVariants.{Broken, Graft, Request};
ghost use Rattle.gs_trace.specs.Texts.{id_text, names_of};
ghost use Rattle.gs_trace.specs.Fallen.{fallen_members, fallen_object, fallen_of, no_answer_word, refusal_word, why_member};

use crate::events::{push_from, push_topic};
use crate::texts::{Shown, push_code};
use gs_base::{MsgId, PeerNo, Topic};
use gs_plan::Plan;
use gs_rules::{Fallen, GraftRefusal, NoAnswer, Promise};
use std::alloc::AllocError;

impl Shown for Fallen {
    ghost text = { fallen_object };

    fn push(&self, plan: &Plan, out: &mut Vec<u8>) -> Result<(), AllocError> {
        push_fallen(plan, out, self)?;
        push_code(out, b"}")
    }
}

fn push_fallen(plan: &Plan, out: &mut Vec<u8>, fallen: &Fallen) -> Result<(), AllocError>
    ensures { OnOk result (out.new.items ≡ out.old.items ++ fallen_members (names_of plan.now) fallen.now) }
{
    match fallen {
        Fallen::Graylisted(from) => push_of(plan, out, b"graylisted", *from),
        Fallen::Late(from) => push_of(plan, out, b"late", *from),
        Fallen::Graft(from, topic, why) => push_graft(plan, out, *from, topic, *why),
        Fallen::Request(from, id, why) => push_request(plan, out, *from, id, *why),
        Fallen::Broken(promise) => push_broken(plan, out, promise),
    }
}

/// Adds what had no effect, and the neighbour that sent or promised it.
fn push_of(plan: &Plan, out: &mut Vec<u8>, word: &[u8], from: PeerNo) -> Result<(), AllocError>
    ensures { OnOk result (out.new.items ≡ out.old.items ++ fallen_of word.now (names_of plan.now) from) }
{
    push_code(out, b"{\"what\":\"")?;
    push_code(out, word)?;
    push_code(out, b"\"")?;
    push_from(plan, out, from)
}

fn push_graft(
    plan: &Plan,
    out: &mut Vec<u8>,
    from: PeerNo,
    topic: &Topic,
    why: GraftRefusal,
) -> Result<(), AllocError>
    ensures { OnOk result (out.new.items
        ≡ out.old.items ++ fallen_members (names_of plan.now) (Graft from topic.now why)) }
{
    push_of(plan, out, b"graft", from)?;
    push_topic(plan, out, topic)?;
    push_why(out, refusal_word(why))
}

fn push_request(
    plan: &Plan,
    out: &mut Vec<u8>,
    from: PeerNo,
    id: &MsgId,
    why: NoAnswer,
) -> Result<(), AllocError>
    ensures { OnOk result (out.new.items
        ≡ out.old.items ++ fallen_members (names_of plan.now) (Request from id.now why)) }
{
    push_of(plan, out, b"iwant", from)?;
    push_code(out, b",\"id\":")?;
    id.push(plan, out)?;
    push_why(out, no_answer_word(why))
}

fn push_broken(plan: &Plan, out: &mut Vec<u8>, promise: &Promise) -> Result<(), AllocError>
    ensures { OnOk result (out.new.items
        ≡ out.old.items ++ fallen_members (names_of plan.now) (Broken promise.now)) }
{
    push_of(plan, out, b"promise", promise.from)?;
    push_code(out, b",\"id\":")?;
    promise.id.push(plan, out)?;
    push_code(out, b",\"until\":")?;
    promise.until.push(plan, out)
}

fn push_why(out: &mut Vec<u8>, word: &[u8]) -> Result<(), AllocError>
    ensures { OnOk result (out.new.items ≡ out.old.items ++ why_member word.now) }
{
    push_code(out, b",\"why\":\"")?;
    push_code(out, word)?;
    push_code(out, b"\"")
}

/// Why a GRAFT was refused.
fn refusal_word(why: GraftRefusal) -> &'static [u8]
    ensures { result.now ≡ refusal_word why }
{
    match why {
        GraftRefusal::Explicit => b"explicit",
        GraftRefusal::TooSoon => b"backoff",
        GraftRefusal::Negative => b"score",
        GraftRefusal::Full => b"full",
    }
}

/// Why an identifier is not answered.
fn no_answer_word(why: NoAnswer) -> &'static [u8]
    ensures { result.now ≡ no_answer_word why }
{
    match why {
        NoAnswer::Ignored => b"score",
        NoAnswer::NotKept => b"not_kept",
        NoAnswer::TooOften => b"too_often",
    }
}
