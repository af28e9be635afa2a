ghost use Rattle.std.specs.Prelude.{◌≡◌, ℕ, max, List, [], ◌∷◌, OnOk, IfOk, IfSome, IfNone, Option, Some, is_some, option_map};
ghost use Rattle.gs_base.specs.declared.names.MsgId.{MsgId as MsgIdValue};
ghost use Rattle.gs_base.specs.declared.names.PeerNo.{PeerNo as PeerNoValue};
ghost use Rattle.gs_rules.specs.declared.event.Event.TheVariants as events;
ghost use Rattle.gs_rules.specs.declared.trace.Entry.{Entry as EntryValue};
ghost use Rattle.gs_rules.specs.Peers.{Peer, windows};
ghost use Rattle.gs_rules.specs.Tables.{Entries, Keeping, answered_after, blank, kept, kept_after, message_in, message_of_act, message_of_part, order_after};
ghost use Rattle.gs_rules.specs.Gossip.{gossip};
ghost use Rattle.gs_rules.specs.Owed.{is_some_list};
ghost use Rattle.gs_router.specs.Tables.{AgreesOnMessages, HasKept, IsMadeAlike, answers_left, unmarked};

use gs_base::{Mark, Message, MsgId, PeerNo, Seq, SharedPart, Topic, clone_of};
use gs_cache::{Answer, MessageCache};
use gs_plan::Act;
use gs_rules::{BeatStep, Event, RpcPart, StoredEntry};
use std::alloc::{AllocError, Global};

/// The messages that are kept, and how often each neighbour may still get one.
#[derive(Drop)]
pub struct Messages {
    alloc: Global,
    cache: MessageCache,
}

impl Messages {
    /// Returns a table without messages. A message will be kept for `len` heartbeats, gossiped for `gossip`, and sent at
    /// most `answers` times to each neighbour that asks for it. A `len` of 0 counts as 1, the least that checked parameters
    /// have.
    ///
    /// # Errors
    /// `AllocError` if memory runs out.
    pub fn new(
        alloc: Global,
        len: usize,
        gossip: usize,
        answers: u64,
    ) -> Result<Messages, AllocError>
        ensures agrees { IfOk result (λ messages. AgreesOnMessages messages []) }
        ensures len { IfOk result (λ messages. messages.cache.len ≡ max 1 len) }
        ensures gossip { IfOk result (λ messages. messages.cache.gossip ≡ gossip) }
        ensures answers { IfOk result (λ messages. messages.cache.answers ≡ answers) }
    {
        let cache = MessageCache::new(alloc, len.max(1), gossip, answers)?;
        Ok(Messages { alloc, cache })
    }

    /// Returns the message that is kept under an identifier and may go to a neighbour. There is none if no message is kept,
    /// or if the neighbour got it as often as it may.
    pub fn answer_for(&self, id: &MsgId, peer: PeerNo) -> Option<&SharedPart<Message>>
        ensures some { IfSome result (λ message. (L : Entries)
            → AgreesOnMessages self.now L
            → option_map (λ (k : Keeping). k.message) (kept self.now.cache.len L id.now) ≡ Some message.now) }
        ensures none { IfNone result ((L : Entries)
            → AgreesOnMessages self.now L
            → answers_left self.now.cache.answers self.now.cache.len L peer id.now ≡ 0) }
    {
        match self.cache.answer_for(id, peer) {
            Answer::Given(message) => Some(message),
            Answer::Spent => None,
            Answer::Absent => None,
        }
    }

    /// Says whether a message is kept under an identifier. The answer is the same for every neighbour.
    pub fn is_kept(&self, id: &MsgId, peer: PeerNo) -> bool
        ensures { (L : Entries)
            → AgreesOnMessages self.now L
            → result ≡ is_some (kept self.now.cache.len L id.now) }
    {
        match self.cache.answer_for(id, peer) {
            Answer::Given(_) => true,
            Answer::Spent => true,
            Answer::Absent => false,
        }
    }

    /// Returns how often a neighbour may still get a message.
    pub fn left_for(&self, id: &MsgId, peer: PeerNo) -> u64
        ensures { (L : Entries)
            → AgreesOnMessages self.now L
            → result ≡ answers_left self.now.cache.answers self.now.cache.len L peer id.now }
    {
        self.cache.left_for(id, peer)
    }

    /// Returns the identifiers of what is gossiped on a topic, the oldest first.
    ///
    /// # Errors
    /// `AllocError` if memory runs out.
    pub fn gossip_ids(&self, topic: &Topic) -> Result<Seq<MsgId>, AllocError>
        ensures { IfOk result (λ ids. (p : Peer) (L : Entries)
            → AgreesOnMessages self.now L
            → self.now.cache.len ≡ windows p
            → self.now.cache.gossip ≡ p.params.timing.mcache_gossip
            → ids ≡ gossip p L topic.now) }
    {
        let ids = self.cache.gossip_ids(topic)?;
        Ok(ids)
    }

    /// Says whether anything is gossiped on a topic. It takes no memory.
    pub fn has_gossip(&self, topic: &Topic) -> bool
        ensures { (p : Peer) (L : Entries)
            → AgreesOnMessages self.now L
            → self.now.cache.len ≡ windows p
            → self.now.cache.gossip ≡ p.params.timing.mcache_gossip
            → result ≡ is_some_list (gossip p L topic.now) }
    {
        self.cache.has_gossip(topic)
    }

    /// Notes that an event came. The end of a heartbeat makes all that is kept older. It takes no memory.
    fn note_event(&mut self, event: &Event)
        ensures agrees { (e : EntryValue) (L : Entries)
            → e.event ≡ event.now
            → AgreesOnMessages self.old L
            → AgreesOnMessages self.new (unmarked e ∷ L) }
        ensures alike { IsMadeAlike self.old self.new }
    {
        match event {
            Event::Step(step) => self.note_step(step),
            _ => {}
        }
    }

    fn note_step(&mut self, step: &BeatStep)
        ensures agrees { (e : EntryValue) (L : Entries)
            → e.event ≡ events.Step step.now
            → AgreesOnMessages self.old L
            → AgreesOnMessages self.new (unmarked e ∷ L) }
        ensures alike { IsMadeAlike self.old self.new }
    {
        match step {
            BeatStep::MeshBeat(_) => {}
            BeatStep::FanBeat(_) => {}
            BeatStep::FanEnd(_) => {}
            BeatStep::GossipBeat(_) => {}
            BeatStep::BeatEnd => self.cache.shift(),
        }
    }

    fn note_mark(&mut self, mark: &Mark, event: &Event) -> Result<(), AllocError>
        ensures has { OnOk result ((last : MsgIdValue → Option Keeping)
            (given : PeerNoValue → MsgIdValue → ℕ)
            (order : List MsgIdValue)
            → HasKept self.old last given order
            → HasKept self.new
            (λ id. kept_after id event.now mark.now (last id))
            (λ q id. answered_after q id mark.now (given q id))
            (order_after mark.now order)) }
        ensures alike { OnOk result (IsMadeAlike self.old self.new) }
    {
        match mark {
            Mark::Cached(id, topic) => {
                let message = message_in(self.alloc, event)?;
                self.cache.put(*id, clone_of(topic)?, message)?;
                Ok(())
            }
            Mark::Answered(peer, id) => {
                self.cache.count_answer(id, *peer)?;
                Ok(())
            }
            _ => Ok(()),
        }
    }

    /// Notes an entry. The message that its event brings is kept (`Cached`), and answers are counted (`Answered`). The end
    /// of a heartbeat makes all that is kept older.
    ///
    /// # Errors
    /// `AllocError` if memory runs out. Some of the entry's marks may then have been noted.
    pub fn note(&mut self, entry: &StoredEntry) -> Result<(), AllocError>
        ensures agrees { OnOk result ((L : Entries)
            → AgreesOnMessages self.old L
            → AgreesOnMessages self.new (entry.now ∷ L)) }
        ensures alike { OnOk result (IsMadeAlike self.old self.new) }
    {
        self.note_event(entry.event());
        self.note_marks(entry)?;
        Ok(())
    }

    fn note_marks(&mut self, entry: &StoredEntry) -> Result<(), AllocError>
        ensures agrees { OnOk result ((L : Entries)
            → AgreesOnMessages self.old (unmarked entry.now ∷ L)
            → AgreesOnMessages self.new (entry.now ∷ L)) }
        ensures alike { OnOk result (IsMadeAlike self.old self.new) }
    {
        for mark in entry.marks() {
            self.note_mark(mark, entry.event())?;
        }
        Ok(())
    }
}

/// Returns the message that an event brings. Its payload is shared.
///
/// # Errors
/// `AllocError` if memory runs out.
fn message_in(alloc: Global, event: &Event) -> Result<SharedPart<Message>, AllocError>
    ensures { IfOk result (λ message. message ≡ message_in event.now) }
{
    match event {
        Event::Part(_, part) => message_of_part(alloc, part),
        Event::Own(act) => message_of_act(alloc, act.get()),
        _ => blank(alloc),
    }
}

fn message_of_part(alloc: Global, part: &RpcPart) -> Result<SharedPart<Message>, AllocError>
    ensures { IfOk result (λ message. message ≡ message_of_part part.now) }
{
    match part.message() {
        Some(message) => clone_of(message),
        None => blank(alloc),
    }
}

fn message_of_act(alloc: Global, act: &Act) -> Result<SharedPart<Message>, AllocError>
    ensures { IfOk result (λ message. message ≡ message_of_act act.now) }
{
    match act {
        Act::Subscribe(_) => blank(alloc),
        Act::Unsubscribe(_) => blank(alloc),
        Act::Publish(topic, payload) => {
            let message = Message::unsigned(topic, payload)?;
            message.share(alloc)
        }
        Act::Raw(_, _) => blank(alloc),
        Act::HangUp(_) => blank(alloc),
    }
}

/// A message without any field.
fn blank(alloc: Global) -> Result<SharedPart<Message>, AllocError>
    ensures { IfOk result (λ message. message ≡ blank) }
{
    Message::bare().share(alloc)
}
