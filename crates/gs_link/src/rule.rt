//! The rule of a link's queue, and the moves that it allows. It exists only in proofs, and takes neither time nor memory.
use crate::item::Slot;
use crossbeam_queue::protocol::{Join, Lesson, Outcome, Protocol, Split};
use crossbeam_queue::{Pass, RuledArrayQueue};
use std::collections::LinkedList;

/// What a pass may do, and what it did. It exists only in proofs: no value of it is made.
pub struct Account {
    /// Whether it may send: at most one pass of a link may.
    pub sends: bool,
    /// Whether it may take: at most one pass of a link may.
    pub takes: bool,
    /// What it sent.
    pub accepted: LinkedList<Slot>,
    /// What it took.
    pub taken: LinkedList<Slot>,
}

/// The rule: what was accepted is what was taken, and then what waits.
pub struct InOrder;

impl Protocol<Slot, Account> for InOrder {
    ghost use Rattle.gs_link.specs.Moves.{InOrder, made};

    ghost holds = { InOrder };

    ghost first = { made };
}

/// Splits off the sender's pass.
pub struct SplitSender;

impl Split<Account> for SplitSender {
    ghost use Rattle.gs_link.specs.Moves.{split_sender};

    ghost left = { λ v. (split_sender v).0 };

    ghost right = { λ v. (split_sender v).1 };
}

/// Splits off the receiver's pass.
pub struct SplitReceiver;

impl Split<Account> for SplitReceiver {
    ghost use Rattle.gs_link.specs.Moves.{split_receiver};

    ghost left = { λ v. (split_receiver v).0 };

    ghost right = { λ v. (split_receiver v).1 };
}

/// A slot is put at the back, or the link is found full.
pub struct Push;

impl Outcome<Slot, Account> for Push {
    ghost use Rattle.gs_link.specs.Moves.{Pushes};

    ghost then = { Pushes };
}

impl Lesson<Slot, Account> for Push {
    ghost use Rattle.gs_link.specs.Moves.{FindsFull};

    ghost fact = { FindsFull };
}

/// The slot at the front is taken, or the link is found empty.
pub struct Pop;

impl Outcome<Slot, Account> for Pop {
    ghost use Rattle.gs_link.specs.Moves.{Pops};

    ghost then = { Pops };
}

impl Lesson<Slot, Account> for Pop {
    ghost use Rattle.gs_link.specs.Moves.{FindsEmpty};

    ghost fact = { FindsEmpty };
}

/// The two passes become one, which sees all that was accepted and taken.
pub struct JoinEnds;

impl Join<Account> for JoinEnds {
    ghost use Rattle.gs_link.specs.Moves.{join, spent};

    ghost both = { join };

    ghost spent = { spent };
}

impl Lesson<Slot, Account> for JoinEnds {
    ghost use Rattle.gs_link.specs.Moves.{SeesWhole};

    ghost fact = { SeesWhole };
}

/// The queue of a link, which takes no lock. Each of its steps keeps `InOrder`, whichever thread takes the step.
pub type Queue = RuledArrayQueue<Slot, Account, InOrder>;

/// What one end knows about its queue.
pub type End = Pass<Slot, Account>;
