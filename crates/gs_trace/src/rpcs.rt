//! RPCs and their parts as JSON.
ghost use Rattle.gs_trace.specs.Rpcs.{control_text, graft_text, ihave_text, iwant_text, message_text, prune_text, rpc_text, sub_text};

use crate::texts::{Shown, push_code};
use gs_base::{Control, Graft, IHave, IWant, Message, Prune, Rpc, SubOpt};
use gs_plan::Plan;
use std::alloc::AllocError;

impl Shown for SubOpt {
    ghost text = { λ names sub. sub_text sub };

    fn push(&self, plan: &Plan, out: &mut Vec<u8>) -> Result<(), AllocError> {
        push_code(out, b"{\"subscribe\":")?;
        self.subscribe.push(plan, out)?;
        push_code(out, b",\"topicid\":")?;
        self.topic.push(plan, out)?;
        push_code(out, b"}")
    }
}

impl Shown for Message {
    ghost text = { λ names message. message_text message };

    fn push(&self, plan: &Plan, out: &mut Vec<u8>) -> Result<(), AllocError> {
        push_code(out, b"{\"from\":")?;
        self.origin.push(plan, out)?;
        push_code(out, b",\"data\":")?;
        self.payload.push(plan, out)?;
        push_code(out, b",\"seqno\":")?;
        self.seqno.push(plan, out)?;
        push_code(out, b",\"topic\":")?;
        self.topic.push(plan, out)?;
        push_code(out, b",\"signature\":")?;
        self.signature.push(plan, out)?;
        push_code(out, b",\"key\":")?;
        self.key.push(plan, out)?;
        push_code(out, b"}")
    }
}

impl Shown for IHave {
    ghost text = { λ names offer. ihave_text offer };

    fn push(&self, plan: &Plan, out: &mut Vec<u8>) -> Result<(), AllocError> {
        push_code(out, b"{\"topicID\":")?;
        self.topic.push(plan, out)?;
        push_code(out, b",\"messageIDs\":")?;
        self.ids.push(plan, out)?;
        push_code(out, b"}")
    }
}

impl Shown for IWant {
    ghost text = { λ names request. iwant_text request };

    fn push(&self, plan: &Plan, out: &mut Vec<u8>) -> Result<(), AllocError> {
        push_code(out, b"{\"messageIDs\":")?;
        self.ids.push(plan, out)?;
        push_code(out, b"}")
    }
}

impl Shown for Graft {
    ghost text = { λ names graft. graft_text graft };

    fn push(&self, plan: &Plan, out: &mut Vec<u8>) -> Result<(), AllocError> {
        push_code(out, b"{\"topicID\":")?;
        self.topic.push(plan, out)?;
        push_code(out, b"}")
    }
}

impl Shown for Prune {
    ghost text = { λ names prune. prune_text prune };

    fn push(&self, plan: &Plan, out: &mut Vec<u8>) -> Result<(), AllocError> {
        push_code(out, b"{\"topicID\":")?;
        self.topic.push(plan, out)?;
        push_code(out, b",\"backoff\":")?;
        self.backoff.push(plan, out)?;
        push_code(out, b"}")
    }
}

impl Shown for Control {
    ghost text = { λ names control. control_text control };

    fn push(&self, plan: &Plan, out: &mut Vec<u8>) -> Result<(), AllocError> {
        push_code(out, b"{\"ihave\":")?;
        self.ihave.push(plan, out)?;
        push_code(out, b",\"iwant\":")?;
        self.iwant.push(plan, out)?;
        push_code(out, b",\"graft\":")?;
        self.graft.push(plan, out)?;
        push_code(out, b",\"prune\":")?;
        self.prune.push(plan, out)?;
        push_code(out, b"}")
    }
}

impl Shown for Rpc {
    ghost text = { λ names rpc. rpc_text rpc };

    fn push(&self, plan: &Plan, out: &mut Vec<u8>) -> Result<(), AllocError> {
        push_code(out, b"{\"subscriptions\":")?;
        self.subs.push(plan, out)?;
        push_code(out, b",\"publish\":")?;
        self.publish.push(plan, out)?;
        push_code(out, b",\"control\":")?;
        self.control.push(plan, out)?;
        push_code(out, b"}")
    }
}
