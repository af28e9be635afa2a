mod announcing;
mod tally;
mod window;

ghost use Rattle.std.specs.Prelude.{◌≡◌, ◌<◌, ◌==◌, if◌then◌else◌, filter, is_some, length, not, unwrap_or, [], None, OnOk, OnErr, IfOk};
ghost use Rattle.gs_base.specs.declared.names.MsgId.{MsgId as MsgIdValue};
ghost use Rattle.gs_base.specs.declared.names.PeerNo.{PeerNo as PeerNoValue};
ghost use Rattle.gs_cache.specs.CachedMessages.{IsAnswer, IsSetUpAlike, aged, all_left, announced, cached, left, one_less, put_anew, put_last};

use crate::message_cache::announcing::{announce, announces_any};
use crate::message_cache::window::{Window, age_of, find};
pub use announcing::MOST_ANNOUNCED;
use gs_base::{Message, MsgId, PeerNo, Seq, SharedPart, Topic};
use std::alloc::{AllocError, Global};
use std::marker::Model;

/// What a neighbour that asks for a message gets.
#[derive(Debug, Drop)]
pub enum Answer<'a> {
    /// The message: the neighbour has answers left for it.
    Given(&'a SharedPart<Message>),
    /// Nothing: it got the message as often as it may since the last put.
    Spent,
    /// Nothing: the message is not held.
    Absent,
}

/// The messages of the last heartbeats, to announce their identifiers and to send them to neighbours that ask (gossipsub
/// v1.0, "Message Cache").
///
/// A message is held until the cache was shifted `len` times since its last put, and is announced until it was
/// shifted `gossip` times. Each neighbour gets it at most `answers` times since its last put.
///
/// Puts lie in `len` windows, the newest first. A put goes into the newest window; an older window may still have an earlier
/// put of the same message, which nothing finds. A look-up costs at most one hash look-up per window.
#[derive(Drop)]
pub struct MessageCache {
    alloc: Global,
    gossip: usize,
    answers: u64,
    windows: Vec<Window>,
}

impl Model for MessageCache {
    ghost use Rattle.std.specs.Prelude.{◌<◌, length};
    ghost use Rattle.gs_cache.specs.CachedMessages.{Messages};
    ghost use Rattle.gs_cache.specs.Windows.{order_of, puts_of};

    ghost Value = { Messages };

    ghost view = { λ cache. record {
      len = length cache.windows.items;
      gossip = cache.gossip;
      answers = cache.answers;
      puts = puts_of 0 cache.windows.items;
      order = order_of cache.windows.items;
    } };

    ghost invariant = { λ cache. 0 < length cache.windows.items };
}

impl MessageCache {
    /// Returns a cache without messages. A message will be held until the `len`-th shift after its last put, and announced
    /// until the `gossip`-th. Each neighbour will get it at most `answers` times. `len` is at least 1.
    ///
    /// # Errors
    /// `AllocError` if memory runs out.
    pub fn new(
        alloc: Global,
        len: usize,
        gossip: usize,
        answers: u64,
    ) -> Result<MessageCache, AllocError>
        requires some { 0 < len }
        ensures { IfOk result (λ cache. cache ≡ record {
          len = len;
          gossip = gossip;
          answers = answers;
          puts = [];
          order = [];
        }) }
    {
        let mut windows = Vec::with_capacity(alloc, len)?;
        for _ in 0..len {
            windows.push(Window::new(alloc))?;
        }
        Ok(MessageCache {
            alloc,
            gossip,
            answers,
            windows,
        })
    }

    /// Puts a message that was published on a topic. If the message is held, this put replaces the last one. The message
    /// counts as new, on this topic, and the answers that were given are forgotten.
    ///
    /// # Errors
    /// `AllocError` if memory runs out. The cache is then as it was.
    pub fn put(
        &mut self,
        id: MsgId,
        topic: Topic,
        message: SharedPart<Message>,
    ) -> Result<(), AllocError>
        ensures holds { OnOk result ((other : MsgIdValue)
            → cached self.new other ≡ put_anew id topic message other (cached self.old other)) }
        ensures resets { OnOk result ((other : MsgIdValue) (q : PeerNoValue)
            → left self.new other q ≡ all_left id self.old.answers other (left self.old other q)) }
        ensures orders { OnOk result (self.new.order ≡ put_last id self.old.order) }
        ensures set_up { OnOk result (IsSetUpAlike self.old self.new) }
        ensures unchanged { OnErr result (self.new ≡ self.old) }
    {
        self.windows[0].put(self.alloc, id, topic, message)?;
        Ok(())
    }

    /// Returns what a neighbour gets when it asks for a message (gossipsub v1.0, "Control Messages", IWANT; v1.1, "Spam
    /// Protection Measures").
    pub fn answer_for(&self, id: &MsgId, peer: PeerNo) -> Answer<'_>
        ensures { IsAnswer result (cached self.now id.now) (left self.now id.now peer) }
    {
        match find(self.windows.as_slice(), id) {
            Some(kept) => {
                if kept.left.left_to(peer, self.answers) == 0 {
                    return Answer::Spent;
                }
                Answer::Given(&kept.message)
            }
            None => Answer::Absent,
        }
    }

    /// Returns how many answers are left to a neighbour: none if the message is not held (gossipsub v1.1, "Spam Protection
    /// Measures").
    pub fn left_for(&self, id: &MsgId, peer: PeerNo) -> u64
        ensures { result ≡ unwrap_or (left self.now id.now peer) 0 }
    {
        match find(self.windows.as_slice(), id) {
            Some(kept) => kept.left.left_to(peer, self.answers),
            None => 0,
        }
    }

    /// Counts an answer that a neighbour got: one less is left to it, if any is (gossipsub v1.1, "Spam Protection
    /// Measures"). A message that is not held stays so.
    ///
    /// # Errors
    /// `AllocError` if memory runs out. The cache is then as it was.
    pub fn count_answer(&mut self, id: &MsgId, peer: PeerNo) -> Result<(), AllocError>
        ensures holds { OnOk result ((other : MsgIdValue) → cached self.new other ≡ cached self.old other) }
        ensures counts { OnOk result ((other : MsgIdValue) (q : PeerNoValue)
            → left self.new other q ≡ one_less id.now peer other q (left self.old other q)) }
        ensures orders { OnOk result (self.new.order ≡ self.old.order) }
        ensures set_up { OnOk result (IsSetUpAlike self.old self.new) }
        ensures unchanged { OnErr result (self.new ≡ self.old) }
    {
        match age_of(self.windows.as_slice(), id) {
            Some(age) => {
                self.windows[age].count_answer(id, peer, self.answers)?;
                Ok(())
            }
            None => Ok(()),
        }
    }

    /// Returns the identifiers to announce on a topic (gossipsub v1.0, "Gossip Emission"). They are of messages whose last
    /// put was on this topic, less than `gossip` shifts ago. They stand in the order of those puts. If there are more than
    /// 5,000, only the last 5,000 are returned.
    ///
    /// # Errors
    /// `AllocError` if memory runs out.
    pub fn gossip_ids(&self, topic: &Topic) -> Result<Seq<MsgId>, AllocError>
        ensures { IfOk result (λ ids. ids ≡ announced self.now topic.now) }
    {
        let ids = announce(self.alloc, self.windows.as_slice(), self.gossip, topic)?;
        Ok(Seq::from(ids))
    }

    /// Says whether `gossip_ids` returns any identifier for a topic. It takes no memory, and stops at the first one that it
    /// finds.
    pub fn has_gossip(&self, topic: &Topic) -> bool
        ensures { result ≡ not (length (announced self.now topic.now) == 0) }
    {
        announces_any(self.windows.as_slice(), self.gossip, topic)
    }

    /// Shifts the windows, as each heartbeat does. The puts of the oldest window are lost (gossipsub v1.0, "Message Cache").
    /// It takes no memory.
    pub fn shift(&mut self)
        ensures ages { (other : MsgIdValue) → cached self.new other ≡ aged self.old.len (cached self.old other) }
        ensures keeps { (other : MsgIdValue) (q : PeerNoValue)
            → left self.new other q ≡ (if is_some (cached self.new other) then left self.old other q else None) }
        ensures orders { self.new.order ≡ filter (λ id. is_some (cached self.new id)) self.old.order }
        ensures set_up { IsSetUpAlike self.old self.new }
    {
        self.windows.rotate_right(1);
        self.windows[0] = Window::new(self.alloc);
    }
}
