//! What the ends of links are asked, and what they answer.
ghost use Rattle.std.specs.Prelude.{◌≡◌, ◌≤◌, IfOk, length, true};
ghost use Rattle.gs_link.specs.Items.{IsSendable};
ghost use Rattle.gs_ends.specs.Ends.{has};

use bytes::Bytes;
use gs_base::PeerNo;
use gs_ends::Ends;
use gs_link::{CloseRefused, Item, LinkRx, LinkTx, SendRefused, Taken};
use std::alloc::{AllocError, Global};
use std::sync::Wait;

/// What an end is asked.
#[derive(Clone, Copy)]
pub enum Asked {
    Send(u64),
    Close,
    Take,
}

/// What it answers. An item that is refused is handed back.
#[derive(Clone, Copy, PartialEq, Eq)]
pub enum Answer {
    Done,
    Full,
    Closed,
    Empty,
    Round(u64),
    Other,
}

impl Answer {
    /// The answer to the mark of this round.
    fn to_mark(sent: &Result<(), SendRefused>, round: u64) -> Answer {
        match sent {
            Ok(()) => Answer::Done,
            Err(SendRefused::Full(Item::Round(back))) if *back == round => Answer::Full,
            Err(SendRefused::Closed(Item::Round(back))) if *back == round => Answer::Closed,
            Err(_) => Answer::Other,
        }
    }

    /// The answer to the close.
    fn to_close(closed: Result<(), CloseRefused>) -> Answer {
        match closed {
            Ok(()) => Answer::Done,
            Err(CloseRefused::Full) => Answer::Full,
            Err(CloseRefused::Closed) => Answer::Closed,
        }
    }

    /// The answer to a take.
    pub fn to_take(taken: &Taken) -> Answer {
        match taken {
            Taken::Got(Item::Round(round)) => Answer::Round(*round),
            Taken::Got(Item::Piece(_)) => Answer::Other,
            Taken::Empty => Answer::Empty,
            Taken::Closed => Answer::Closed,
        }
    }
}

// ---- one link

/// Sends an item, and says whether it is accepted.
pub fn sends<R: Wait>(rt: &R, tx: &mut LinkTx, item: Item) -> bool
    requires { IsSendable item }
    ensures { tx.new.link ≡ tx.old.link }
{
    let sent = tx.send(rt, item);
    sent.is_ok()
}

/// Sends the mark of a round.
pub fn sending<R: Wait>(rt: &R, tx: &mut LinkTx, round: u64) -> Answer
    ensures { tx.new.link ≡ tx.old.link }
{
    let sent = tx.send(rt, Item::Round(round));
    Answer::to_mark(&sent, round)
}

/// Sends the close.
pub fn closing<R: Wait>(rt: &R, tx: &mut LinkTx) -> Answer
    ensures { tx.new.link ≡ tx.old.link }
{
    Answer::to_close(tx.close(rt))
}

/// Takes what comes.
pub fn taking<R: Wait>(rt: &R, rx: &mut LinkRx) -> Answer
    ensures { rx.new.link ≡ rx.old.link }
{
    let taken = rx.take(rt);
    Answer::to_take(&taken)
}

/// Takes what comes, and says whether it is a piece of these bytes.
pub fn gets_piece<R: Wait>(rt: &R, rx: &mut LinkRx, bytes: &[u8]) -> bool {
    let taken = rx.take(rt);
    is_piece(&taken, bytes)
}

/// Says whether a piece of these bytes was taken.
pub fn is_piece(taken: &Taken, bytes: &[u8]) -> bool {
    match taken {
        Taken::Got(Item::Piece(piece)) => piece.as_slice() == bytes,
        _ => false,
    }
}

// ---- the ends of a peer

/// Asks the ends to and from a neighbour.
pub fn asking<E: Ends>(ends: &mut E, peer: PeerNo, asked: Asked) -> Answer
    requires known { has (E.joints ends.old) peer ≡ true }
    ensures same { E.joints ends.new ≡ E.joints ends.old }
{
    match asked {
        Asked::Send(round) => marking(ends, peer, round),
        Asked::Close => Answer::to_close(ends.finish(peer)),
        Asked::Take => {
            let taken = ends.take(peer);
            Answer::to_take(&taken)
        }
    }
}

/// Puts the mark of a round to a neighbour.
fn marking<E: Ends>(ends: &mut E, to: PeerNo, round: u64) -> Answer
    requires known { has (E.joints ends.old) to ≡ true }
    ensures same { E.joints ends.new ≡ E.joints ends.old }
{
    let put = ends.put(to, Item::Round(round));
    Answer::to_mark(&put, round)
}

/// Puts a piece to a neighbour, and says whether it is accepted.
pub fn puts_piece<E: Ends>(
    ends: &mut E,
    to: PeerNo,
    alloc: Global,
    bytes: &[u8],
) -> Result<bool, AllocError>
    requires known { has (E.joints ends.old) to ≡ true }
    requires size { (1 ≤ length bytes.now) × (length bytes.now ≤ 64) }
    ensures same { E.joints ends.new ≡ E.joints ends.old }
{
    let piece = piece(alloc, bytes)?;
    let put = ends.put(to, piece);
    Ok(put.is_ok())
}

/// A piece of these bytes.
pub fn piece(alloc: Global, bytes: &[u8]) -> Result<Item, AllocError>
    requires { (1 ≤ length bytes.now) × (length bytes.now ≤ 64) }
    ensures { IfOk result IsSendable }
{
    let bytes = Bytes::copy_from_slice(alloc, bytes)?;
    Ok(Item::Piece(bytes))
}
