ghost use Rattle.std.specs.Prelude.{◌≡◌, ◌≤◌, ◌==◌, [], ◌∷◌, ◌++◌, length, OnOk, OnErr, MatchOption};
ghost use Rattle.gs_link.specs.declared.item.Slot.TheVariants.{Piece};
ghost use Rattle.gs_peer.specs.Queue.{ahead};

use bytes::Bytes;
use gs_base::clone_of;
use gs_link::Slot;
use std::alloc::{AllocError, Global};
use std::collections::VecDeque;
use std::marker::Model;
use std::mem;

/// What waits to go to a neighbour. Contracts see the slots, from the front to the back.
#[derive(Drop)]
pub struct SlotQueue {
    /// The rest of the frame that is going out, before the other slots. It is kept apart, so that cutting a piece off moves
    /// nothing in the queue.
    rest: Bytes,
    items: VecDeque<Slot>,
}

impl Model for SlotQueue {
    ghost use Rattle.std.specs.Prelude.{List};
    ghost use Rattle.gs_link.specs.declared.item.Slot.{Slot as SlotValue};
    ghost use Rattle.gs_peer.specs.Queue.{ahead};

    ghost Value = { List SlotValue };

    ghost view = { λ q. ahead q.rest q.items.items };
}

impl SlotQueue {
    /// Creates an empty queue. It takes no memory.
    pub fn new(alloc: Global) -> SlotQueue
        ensures { result ≡ [] }
    {
        SlotQueue {
            rest: Bytes::new(),
            items: VecDeque::new(alloc),
        }
    }

    /// Says whether nothing waits.
    pub fn is_empty(&self) -> bool
        ensures { result ≡ (length self.now == 0) }
    {
        self.rest.is_empty() && self.items.is_empty()
    }

    /// Takes the slot at the front, if there is one.
    #[inline(always)]
    pub fn pop_front(&mut self) -> Option<Slot>
        ensures { MatchOption result ((self.old ≡ []) × (self.new ≡ [])) (λ item. self.old ≡ item ∷ self.new) }
    {
        if self.rest.is_empty() {
            return self.items.pop_front();
        }
        Some(Slot::Piece(mem::replace(&mut self.rest, Bytes::new())))
    }

    /// Adds a slot at the back.
    ///
    /// # Errors
    /// `AllocError` if memory runs out. The queue is then as it was.
    pub fn push_back(&mut self, slot: Slot) -> Result<(), AllocError>
        ensures ok { OnOk result (self.new ≡ self.old ++ slot ∷ []) }
        ensures err { OnErr result (self.new ≡ self.old) }
    {
        self.items.push_back(slot)?;
        Ok(())
    }

    /// Puts the rest of a frame at the front.
    ///
    /// # Errors
    /// `AllocError` if memory runs out. The queue is then as it was.
    #[inline(always)]
    pub fn push_rest(&mut self, frame: Bytes) -> Result<(), AllocError>
        requires { 1 ≤ length frame }
        ensures ok { OnOk result (self.new ≡ Piece frame ∷ self.old) }
        ensures err { OnErr result (self.new ≡ self.old) }
    {
        put_ahead(&mut self.items, &self.rest)?;
        self.rest = frame;
        Ok(())
    }

    /// Puts a slot at the front.
    ///
    /// # Errors
    /// `AllocError` if memory runs out. The queue is then as it was.
    pub fn push_front(&mut self, slot: Slot) -> Result<(), AllocError>
        ensures ok { OnOk result (self.new ≡ slot ∷ self.old) }
        ensures err { OnErr result (self.new ≡ self.old) }
    {
        put_ahead(&mut self.items, &self.rest)?;
        self.rest = Bytes::new();
        self.items.push_front(slot)?;
        Ok(())
    }
}

/// Puts the rest of a frame before the slots, if anything is left of it.
// Nothing is left where a piece was just cut off a frame.
#[inline(always)]
fn put_ahead(items: &mut VecDeque<Slot>, rest: &Bytes) -> Result<(), AllocError>
    ensures ok { OnOk result (items.new.items ≡ ahead rest.now items.old.items) }
    ensures err { OnErr result (items.new.items ≡ items.old.items) }
{
    if rest.is_empty() {
        return Ok(());
    }
    items.push_front(Slot::Piece(clone_of(rest)?))?;
    Ok(())
}
