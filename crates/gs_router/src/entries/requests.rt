//! Requests: what a router sends to a neighbour that asks.
ghost use Rattle.std.specs.Prelude.{◌≡◌, ◌++◌, ℕ, List, [], ◌∷◌, IfOk, OnOk, if◌then◌else◌, is_some};
ghost use Rattle.gs_base.specs.Names.{same_id};
ghost use Rattle.gs_base.specs.declared.names.MsgId.{MsgId as MsgIdValue};
ghost use Rattle.gs_base.specs.declared.mark.Mark.TheVariants as marks;
ghost use Rattle.gs_base.specs.declared.rpc.Message.{Message as MessageValue};
ghost use Rattle.gs_base.specs.Rpcs.{passed_on};
ghost use Rattle.gs_rules.specs.Tables.{Entries};
ghost use Rattle.gs_rules.specs.Rules.{answer, answering, answers, ids_in, times_in, want_rule, with_message};
ghost use Rattle.gs_rules.specs.FellAway.{why_no_answer, without_answers};
ghost use Rattle.gs_router.specs.Tables.{Agrees, AreMadeFor};
ghost use Rattle.gs_router.specs.Offers.{left_now};
ghost use Rattle.gs_router.specs.Requests.{Gives, Replies};
ghost use Rattle.gs_router.specs.Known.{Knows, peer_with};

use crate::entries::thresholds;
use crate::known::Known;
use bytes::Bytes;
use gs_base::{
    IWant, Mark, Message, Millis, MsgId, PeerNo, Rpc, Seq, Shared, SharedPart, clone_of,
};
use gs_rules::{Effects, Fallen, NoAnswer};
use indexmap::IndexMap;
use std::alloc::{AllocError, Global};

/// Returns the effects of a request (IWANT). Its sender gets those messages of it that are kept, as often as it may.
pub fn effects_of(
    known: &Known,
    from: PeerNo,
    request: &IWant,
    now: Millis,
) -> Result<Effects, AllocError>
    ensures { IfOk result (λ effects. (L : Entries)
        → Knows known.now now.0 L
        → effects ≡ want_rule (peer_with known.now.setup) L now from request.now) }
{
    if thresholds::is_ignored(known, from, now) {
        return Ok(Effects::none(known.alloc));
    }
    let effects = answering(known, from, request)?;
    Ok(effects)
}

/// Returns the effects of a request that is answered.
fn answering(known: &Known, from: PeerNo, request: &IWant) -> Result<Effects, AllocError>
    ensures { IfOk result (λ effects. (L : Entries)
        → Agrees known.now.tables L
        → AreMadeFor known.now.tables (peer_with known.now.setup)
        → effects ≡ answering from (answers (peer_with known.now.setup) L from [] (ids_in request.now.ids))) }
{
    let ids = ids_in(known.alloc, request.ids.as_slice())?;
    let reply = reply_to(known, from, &ids)?;
    let effects = Effects {
        sends: reply.sends,
        marks: reply.marks,
        ..Effects::none(known.alloc)
    };
    Ok(effects)
}

/// Returns the identifiers among these byte strings. Those of another length are passed over.
pub fn ids_in(alloc: Global, all: &[Bytes]) -> Result<Vec<MsgId>, AllocError>
    ensures { IfOk result (λ ids. ids.items ≡ ids_in all.now) }
{
    let mut ids = Vec::new(alloc);
    for bytes in all {
        if let Some(id) = MsgId::from_bytes(bytes.as_slice()) {
            ids.push(id)?;
        }
    }
    Ok(ids)
}

/// What a neighbour gets for its request, so far.
#[derive(Drop)]
struct Reply {
    sends: Seq<(PeerNo, Shared<Rpc>)>,
    marks: Seq<Mark>,
    /// How many answers are left for those that were sent: the tables count them once the entry is made.
    left: IndexMap<MsgId, u64>,
}

impl Reply {
    /// Nothing so far.
    fn none(alloc: Global) -> Reply
        ensures sends { result.sends ≡ [] }
        ensures marks { result.marks ≡ [] }
        ensures left { result.left.entries ≡ [] }
    {
        Reply {
            sends: Seq::new(alloc),
            marks: Seq::new(alloc),
            left: IndexMap::new(alloc),
        }
    }

    /// How many answers are left for a message, where `at_first` were left when the request came.
    fn left_now(&self, id: &MsgId, at_first: u64) -> u64
        ensures { result ≡ left_now self.now.left.entries id.now at_first }
    {
        match self.left.get(id) {
            Some(left) => *left,
            None => at_first,
        }
    }

    /// Gives a message, after which `left` answers are left.
    fn give(
        &mut self,
        alloc: Global,
        from: PeerNo,
        id: MsgId,
        message: &SharedPart<Message>,
        left: u64,
    ) -> Result<(), AllocError>
        ensures sends { OnOk result (self.new.sends ≡ self.old.sends ++ (from, passed_on message.now) ∷ []) }
        ensures marks { OnOk result (self.new.marks ≡ self.old.marks ++ marks.Answered from id ∷ []) }
        ensures left { OnOk result ((other : MsgIdValue) (n : ℕ)
            → left_now self.new.left.entries other n
            ≡ (if same_id id other then left else left_now self.old.left.entries other n)) }
    {
        let rpc = Shared::new(alloc, Rpc::passed_on(alloc, message.get())?)?;
        self.sends.push((from, rpc))?;
        self.marks.push(Mark::Answered(from, id))?;
        self.left.insert(id, left)?;
        Ok(())
    }
}

/// Answers for one more identifier of a request.
fn answer(known: &Known, from: PeerNo, id: &MsgId, reply: &mut Reply) -> Result<(), AllocError>
    ensures { OnOk result ((L : Entries) (ahead : List MsgIdValue) (given : List (MsgIdValue × MessageValue))
        → Agrees known.now.tables L
        → AreMadeFor known.now.tables (peer_with known.now.setup)
        → Replies (peer_with known.now.setup) L from ahead given reply.old
        → Replies (peer_with known.now.setup) L from (ahead ++ id.now ∷ [])
        (given ++ with_message id.now (answer (peer_with known.now.setup) L from id.now (times_in id.now ahead)))
        reply.new) }
{
    match known.tables.messages.answer_for(id, from) {
        Some(message) => {
            let left = reply.left_now(id, known.tables.messages.left_for(id, from));
            if left == 0 {
                return Ok(());
            }
            reply.give(known.alloc, from, *id, message, left - 1)?;
            Ok(())
        }
        None => Ok(()),
    }
}

/// What a neighbour gets for these identifiers.
fn reply_to(known: &Known, from: PeerNo, ids: &[MsgId]) -> Result<Reply, AllocError>
    ensures { IfOk result (λ reply. (L : Entries)
        → Agrees known.now.tables L
        → AreMadeFor known.now.tables (peer_with known.now.setup)
        → Gives from (answers (peer_with known.now.setup) L from [] ids.now) reply) }
{
    let mut reply = Reply::none(known.alloc);
    for id in ids {
        answer(known, from, id, &mut reply)?;
    }
    Ok(reply)
}

// ---- what is not answered

/// Returns those of these identifiers that get no message.
pub fn without_answers(
    known: &Known,
    from: PeerNo,
    ids: &[MsgId],
) -> Result<Vec<Fallen>, AllocError>
    ensures { IfOk result (λ list. (L : Entries)
        → Agrees known.now.tables L
        → AreMadeFor known.now.tables (peer_with known.now.setup)
        → list.items ≡ without_answers (peer_with known.now.setup) L from [] ids.now) }
{
    let mut reply = Reply::none(known.alloc);
    let mut list = Vec::new(known.alloc);
    for id in ids {
        if !is_answered(known, from, id, &mut reply)? {
            list.push(Fallen::Request(from, *id, why_no_answer(known, id, from)))?;
        }
    }
    Ok(list)
}

/// Answers for one more identifier of a request, and says whether there was an answer.
fn is_answered(
    known: &Known,
    from: PeerNo,
    id: &MsgId,
    reply: &mut Reply,
) -> Result<bool, AllocError>
    ensures replies { OnOk result ((L : Entries) (ahead : List MsgIdValue) (given : List (MsgIdValue × MessageValue))
        → Agrees known.now.tables L
        → AreMadeFor known.now.tables (peer_with known.now.setup)
        → Replies (peer_with known.now.setup) L from ahead given reply.old
        → Replies (peer_with known.now.setup) L from (ahead ++ id.now ∷ [])
        (given ++ with_message id.now (answer (peer_with known.now.setup) L from id.now (times_in id.now ahead)))
        reply.new) }
    ensures answered { IfOk result (λ is. (L : Entries) (ahead : List MsgIdValue) (given : List (MsgIdValue × MessageValue))
        → Agrees known.now.tables L
        → AreMadeFor known.now.tables (peer_with known.now.setup)
        → Replies (peer_with known.now.setup) L from ahead given reply.old
        → is ≡ is_some (answer (peer_with known.now.setup) L from id.now (times_in id.now ahead))) }
{
    let before = reply.marks.len();
    answer(known, from, id, reply)?;
    Ok(before < reply.marks.len())
}

/// Returns why a neighbour gets no message for an identifier.
fn why_no_answer(known: &Known, id: &MsgId, from: PeerNo) -> NoAnswer
    ensures { (L : Entries)
        → Agrees known.now.tables L
        → AreMadeFor known.now.tables (peer_with known.now.setup)
        → result ≡ why_no_answer (peer_with known.now.setup) L id.now }
{
    if known.tables.messages.is_kept(id, from) {
        return NoAnswer::TooOften;
    }
    NoAnswer::NotKept
}
