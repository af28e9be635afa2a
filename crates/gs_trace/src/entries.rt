//! The line of an entry: what happened at a peer, what it did about it, and what came to nothing.
ghost use Rattle.std.specs.Prelude.{◌≡◌, ◌++◌, OnOk};
ghost use Rattle.gs_trace.specs.Texts.{list_text, names_of, optional_text};
ghost use Rattle.gs_trace.specs.Events.{delivery_text, effects_members, event_members};
ghost use Rattle.gs_trace.specs.Events.{mark_object, promise_text, send_text};
ghost use Rattle.gs_trace.specs.Fallen.{fell_away_member};
ghost use Rattle.gs_trace.specs.Lines.{entry_members, line_start, line_text};
ghost use Rattle.gs_trace.specs.Lines.Told.{Did};
ghost use Rattle.gs_trace.specs.Turns.{entry_line};

use crate::events::{push_event, push_payload, push_shared_rpc};
use crate::pages::Told;
use crate::texts::{Shown, push_code, push_list, push_number};
use crate::turn::Turn;
use crate::wanted::is_entry_wanted;
use bytes::Bytes;
use gs_base::{Millis, PeerNo, Rpc, Shared, Topic};
use gs_plan::Plan;
use gs_router::Followed;
use gs_rules::{Fallen, Promise, StoredEntry};
use std::alloc::AllocError;

impl<'a> Told for Followed<'a> {
    ghost line = { entry_line };

    fn push(&self, turn: &Turn<'_>, page: &mut Vec<u8>) -> Result<(), AllocError> {
        if is_entry_wanted(turn, self) {
            return push_entry(turn, page, self);
        }
        Ok(())
    }
}

/// Adds the line of an entry.
fn push_entry(turn: &Turn<'_>, out: &mut Vec<u8>, followed: &Followed<'_>) -> Result<(), AllocError>
    ensures { OnOk result (out.new.items ≡ out.old.items ++ line_text turn.now.plan.now
        (Did turn.now.round turn.now.peer followed.now.entry.now followed.now.fallen.items)) }
{
    push_start_of(turn, out, followed.entry)?;
    push_members(turn.plan, out, followed)?;
    push_code(out, b"}\n")
}

/// Adds what happened, what the peer did about it, and what came to nothing.
fn push_members(plan: &Plan, out: &mut Vec<u8>, followed: &Followed<'_>) -> Result<(), AllocError>
    ensures { OnOk result (out.new.items ≡ out.old.items
        ++ entry_members (names_of plan.now) followed.now.entry.now followed.now.fallen.items) }
{
    push_event_of(plan, out, followed.entry)?;
    push_effects(plan, out, followed.entry)?;
    push_fell_away(plan, out, &followed.fallen)
}

fn push_event_of(plan: &Plan, out: &mut Vec<u8>, entry: &StoredEntry) -> Result<(), AllocError>
    ensures { OnOk result (out.new.items ≡ out.old.items ++ event_members (names_of plan.now) entry.now.event) }
{
    push_event(plan, out, entry.event())
}

/// Adds what begins the line of an entry.
fn push_start_of(turn: &Turn<'_>, out: &mut Vec<u8>, entry: &StoredEntry) -> Result<(), AllocError>
    ensures { OnOk result (out.new.items
        ≡ out.old.items ++ line_start (names_of turn.now.plan.now) turn.now.round entry.now.at turn.now.peer) }
{
    push_start(turn, out, entry.at())
}

/// Adds what begins a line of a turn.
pub(crate) fn push_start(turn: &Turn<'_>, out: &mut Vec<u8>, at: Millis) -> Result<(), AllocError>
    ensures { OnOk result (out.new.items
        ≡ out.old.items ++ line_start (names_of turn.now.plan.now) turn.now.round at turn.now.peer) }
{
    push_code(out, b"{\"round\":")?;
    push_number(out, turn.round)?;
    push_code(out, b",\"at\":")?;
    at.push(turn.plan, out)?;
    push_code(out, b",\"peer\":")?;
    turn.peer.push(turn.plan, out)?;
    push_code(out, b",")
}

/// Adds what came to nothing at an entry.
fn push_fell_away(plan: &Plan, out: &mut Vec<u8>, fallen: &[Fallen]) -> Result<(), AllocError>
    ensures { OnOk result (out.new.items ≡ out.old.items ++ fell_away_member (names_of plan.now) fallen.now) }
{
    push_code(out, b",\"fell_away\":")?;
    push_list(plan, out, fallen)
}

/// Adds what the peer did about the event.
fn push_effects(plan: &Plan, out: &mut Vec<u8>, entry: &StoredEntry) -> Result<(), AllocError>
    ensures { OnOk result (out.new.items ≡ out.old.items ++ effects_members (names_of plan.now) entry.now.effects) }
{
    push_code(out, b",\"sent\":")?;
    push_sends(plan, out, entry)?;
    push_code(out, b",\"delivered\":")?;
    push_deliveries(plan, out, entry)?;
    push_code(out, b",\"promise\":")?;
    push_promise(plan, out, entry)?;
    push_code(out, b",\"marks\":")?;
    push_marks(plan, out, entry)
}

fn push_sends(plan: &Plan, out: &mut Vec<u8>, entry: &StoredEntry) -> Result<(), AllocError>
    ensures { OnOk result (out.new.items
        ≡ out.old.items ++ list_text (send_text (names_of plan.now)) entry.now.effects.sends) }
{
    push_list(plan, out, entry.sends())
}

fn push_deliveries(plan: &Plan, out: &mut Vec<u8>, entry: &StoredEntry) -> Result<(), AllocError>
    ensures { OnOk result (out.new.items
        ≡ out.old.items ++ list_text delivery_text entry.now.effects.delivered) }
{
    push_list(plan, out, entry.delivered())
}

fn push_promise(plan: &Plan, out: &mut Vec<u8>, entry: &StoredEntry) -> Result<(), AllocError>
    ensures { OnOk result (out.new.items
        ≡ out.old.items ++ optional_text (promise_text (names_of plan.now)) entry.now.effects.promise) }
{
    match entry.promise() {
        Some(promise) => promise.push(plan, out),
        None => push_code(out, b"null"),
    }
}

fn push_marks(plan: &Plan, out: &mut Vec<u8>, entry: &StoredEntry) -> Result<(), AllocError>
    ensures { OnOk result (out.new.items
        ≡ out.old.items ++ list_text (mark_object (names_of plan.now)) entry.now.effects.marks) }
{
    push_list(plan, out, entry.marks())
}

impl Shown for (PeerNo, Shared<Rpc>) {
    ghost text = { send_text };

    fn push(&self, plan: &Plan, out: &mut Vec<u8>) -> Result<(), AllocError> {
        push_code(out, b"{\"to\":")?;
        self.0.push(plan, out)?;
        push_shared_rpc(plan, out, &self.1)?;
        push_code(out, b"}")
    }
}

impl Shown for (Topic, Bytes) {
    ghost text = { λ names delivery. delivery_text delivery };

    fn push(&self, plan: &Plan, out: &mut Vec<u8>) -> Result<(), AllocError> {
        push_code(out, b"{\"topic\":")?;
        self.0.push(plan, out)?;
        push_payload(plan, out, self.1.as_slice())?;
        push_code(out, b"}")
    }
}

impl Shown for Promise {
    ghost text = { promise_text };

    fn push(&self, plan: &Plan, out: &mut Vec<u8>) -> Result<(), AllocError> {
        push_code(out, b"{\"from\":")?;
        self.from.push(plan, out)?;
        push_code(out, b",\"id\":")?;
        self.id.push(plan, out)?;
        push_code(out, b",\"until\":")?;
        self.until.push(plan, out)?;
        push_code(out, b"}")
    }
}
