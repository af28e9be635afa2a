//! A link from one peer to another: a sending end and a taking end over one queue without a lock. It carries pieces of bytes,
//! the ends of rounds and at last a close. Each goes over once and in order, between any two threads.
#![tactic(auto)]

mod fault;
mod item;
mod laws;
mod opening;
mod receiver;
mod rule;
mod sender;
mod settled;

pub use fault::{CloseRefused, LinkFault, SendRefused};
pub use item::{Item, LARGEST_CAPACITY, LONGEST_PIECE, Slot, is_capacity};
pub use laws::{cutting_does_not_show, what_stands_after_is_said_later};
pub use opening::open_link;
pub use receiver::{LinkRx, Taken};
pub use sender::LinkTx;
pub use settled::{Settled, settle};
