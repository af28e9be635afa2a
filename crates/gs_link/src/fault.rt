ghost use Rattle.std.specs.Prelude.{◌≡◌};
ghost use Rattle.gs_link.specs.Refusals.{link_number, send_number, close_number};

use crate::item::Item;

/// Why a link is not made.
#[derive(Clone, Copy, Debug, PartialEq, Eq, thiserror::Error)]
pub enum LinkFault {
    /// Memory ran out.
    #[error("there was no memory for a link")]
    NoMemory,
}

impl LinkFault {
    /// Returns the number of the refusal: 9.
    pub fn number(self) -> u8
        ensures { result ≡ link_number self }
    {
        match self {
            LinkFault::NoMemory => 9,
        }
    }
}

/// Why an item is not sent. It is handed back.
#[derive(Debug, PartialEq, Eq, Drop, thiserror::Error)]
pub enum SendRefused {
    /// This end has closed the link.
    #[error("the link is closed")]
    Closed(Item),
    /// As many slots wait as the link has room for.
    #[error("the link is full")]
    Full(Item),
}

impl SendRefused {
    /// Returns the number of the refusal: 10 if the link is full, and 11 if it is closed.
    pub fn number(&self) -> u8
        ensures { result ≡ send_number self.now }
    {
        match self {
            SendRefused::Full(_) => 10,
            SendRefused::Closed(_) => 11,
        }
    }
}

/// Why a link is not closed.
#[derive(Clone, Copy, Debug, PartialEq, Eq, thiserror::Error)]
pub enum CloseRefused {
    /// This end has already closed the link.
    #[error("the link is closed")]
    Closed,
    /// As many slots wait as the link has room for.
    #[error("the link is full")]
    Full,
}

impl CloseRefused {
    /// Returns the number of the refusal: 10 if the link is full, and 11 if it is closed.
    pub fn number(self) -> u8
        ensures { result ≡ close_number self }
    {
        match self {
            CloseRefused::Full => 10,
            CloseRefused::Closed => 11,
        }
    }
}
