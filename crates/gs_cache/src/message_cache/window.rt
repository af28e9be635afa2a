ghost use Rattle.std.specs.Prelude.{◌≡◌, [], position, OnOk, OnErr};
ghost use Rattle.std.specs.Option.{option_copied};
ghost use Rattle.gs_cache.specs.Windows.{Counts, HasSame, Puts, has, kept_in};

use crate::message_cache::tally::Tally;
use gs_base::{Message, MsgId, PeerNo, SharedPart, Topic};
use indexmap::IndexMap;
use std::alloc::{AllocError, Global};

/// What is kept about a message that was put.
#[derive(Drop)]
pub struct Kept {
    /// Its place in the order of the puts.
    pub place: usize,
    pub topic: Topic,
    pub message: SharedPart<Message>,
    pub left: Tally,
}

/// The messages that were put between two shifts.
#[derive(Drop)]
pub struct Window {
    /// The identifiers in the order of the puts. If a message was put again, only its last place counts.
    pub order: Vec<MsgId>,
    /// What is kept about each message, by its identifier.
    pub puts: IndexMap<MsgId, Kept>,
}

impl Window {
    /// Returns a window without messages. It takes no memory.
    pub fn new(alloc: Global) -> Window
        ensures order { result.order.items ≡ [] }
        ensures puts { result.puts.entries ≡ [] }
    {
        Window {
            order: Vec::new(alloc),
            puts: IndexMap::new(alloc),
        }
    }

    /// Says whether the window has a message.
    pub fn has(&self, id: &MsgId) -> bool
        ensures { result ≡ has self.now id.now }
    {
        self.puts.contains_key(id)
    }

    /// Puts a message. It replaces an earlier put of the same message.
    ///
    /// # Errors
    /// `AllocError` if memory runs out. Nothing is changed then.
    pub fn put(
        &mut self,
        alloc: Global,
        id: MsgId,
        topic: Topic,
        message: SharedPart<Message>,
    ) -> Result<(), AllocError>
        ensures puts { OnOk result (Puts id topic message self.old self.new) }
        ensures err { OnErr result (HasSame self.old self.new) }
    {
        let kept = Kept {
            place: self.order.len(),
            topic,
            message,
            left: Tally::new(alloc),
        };
        self.order.reserve(1)?;
        self.puts.insert(id, kept)?;
        self.order.push_reserved(id);
        Ok(())
    }

    /// Counts an answer to a neighbour, if the window has the message.
    ///
    /// # Errors
    /// `AllocError` if memory runs out. Nothing is changed then.
    pub fn count_answer(&mut self, id: &MsgId, peer: PeerNo, answers: u64) -> Result<(), AllocError>
        ensures counts { OnOk result (Counts answers id.now peer self.old self.new) }
        ensures err { OnErr result (HasSame self.old self.new) }
    {
        match self.puts.get_mut(id) {
            Some(kept) => {
                kept.left.count(peer, answers)?;
                Ok(())
            }
            None => Ok(()),
        }
    }
}

/// Returns what is kept about a message by the first of the windows that has it.
pub fn find<'a>(windows: &'a [Window], id: &MsgId) -> Option<&'a Kept>
    ensures { option_copied result ≡ kept_in windows.now id.now }
{
    for window in windows {
        if let Some(kept) = window.puts.get(id) {
            return Some(kept);
        }
    }
    None
}

/// Returns the place of the first window that has a message.
pub fn age_of(windows: &[Window], id: &MsgId) -> Option<usize>
    ensures { result ≡ position (λ w. has w id.now) windows.now }
{
    windows.iter().position(|window| window.has(id))
}
