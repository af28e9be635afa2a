//! What a link carries.
ghost use Rattle.std.specs.Prelude.{◌≡◌, ◌↔◌, IsTrue};
ghost use Rattle.gs_link.specs.Items.{IsCapacity, IsSendable, slot_of};

use bytes::Bytes;

/// The most slots that may wait in a link. Calls require that a capacity is no larger, so a larger one is a mistake of the
/// caller.
pub const LARGEST_CAPACITY: usize = 1_024;

/// The most bytes that a piece may have.
pub const LONGEST_PIECE: usize = 64;

/// What is sent over a link.
#[derive(Debug, PartialEq, Eq, Drop)]
pub enum Item {
    /// 1 to 64 bytes. Frames may be cut into pieces or joined into one piece, in any way.
    Piece(Bytes),
    /// The end of a round, which stands after all bytes that were sent in it.
    Round(u64),
}

/// What lies in a link: an item, or the close, which comes last. It is no larger than an item, so a link costs no more than a
/// queue of items.
#[derive(Debug, PartialEq, Eq, Drop)]
pub enum Slot {
    /// 1 to 64 bytes from the frames that are sent.
    Piece(Bytes),
    /// The end of this round: the bytes that were sent in it stand before it.
    Round(u64),
    /// The close: nothing stands after it.
    Close,
}

impl Slot {
    pub(crate) fn of(item: Item) -> Slot
        ensures { result ≡ slot_of item }
    {
        match item {
            Item::Piece(bytes) => Slot::Piece(bytes),
            Item::Round(round) => Slot::Round(round),
        }
    }
}

/// Says whether a link may have this capacity: 1 to 1,024 slots.
pub fn is_capacity(capacity: usize) -> bool
    ensures { IsTrue result ↔ IsCapacity capacity }
{
    1 <= capacity && capacity <= LARGEST_CAPACITY
}

impl Item {
    /// Says whether the item may be sent: a piece must have 1 to 64 bytes.
    pub fn is_sendable(&self) -> bool
        ensures { IsTrue result ↔ IsSendable self.now }
    {
        match self {
            Item::Piece(bytes) => 1 <= bytes.len() && bytes.len() <= LONGEST_PIECE,
            Item::Round(_) => true,
        }
    }
}
