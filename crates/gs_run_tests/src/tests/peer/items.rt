//! What a peer and its neighbour say to each other, and what its user makes the peer do.
use bytes::Bytes;
use gs_base::PeerNo;
use gs_link::Item;
use gs_plan::Line;
use gs_router_testkit::{Call, act_of};
use std::alloc::{AllocError, Global};

/// The frame that subscribes to `a`.
pub const SUBSCRIBES: &[u8] = b"\x07\x0a\x05\x08\x01\x12\x01a";

/// The frame of the message `abc` on `a`.
pub const PUBLISHES: &[u8] = b"\x0a\x12\x08\x12\x03abc\x22\x01a";

/// What is said over a link.
#[derive(Clone, Copy, Debug)]
pub enum Word<'a> {
    /// These bytes, in one piece.
    Piece(&'a [u8]),
    /// The ends of the rounds from one to another.
    Rounds(u64, u64),
}

/// Adds the ends of the rounds from one to another.
fn rounds(items: &mut Vec<Item>, first: u64, last: u64) -> Result<(), AllocError> {
    for before in first..last {
        items.push(Item::Round(before))?;
    }
    items.push(Item::Round(last))?;
    Ok(())
}

/// Adds what is said.
fn say(alloc: Global, items: &mut Vec<Item>, word: Word<'_>) -> Result<(), AllocError> {
    match word {
        Word::Piece(bytes) => {
            items.push(Item::Piece(Bytes::copy_from_slice(alloc, bytes)?))?;
            Ok(())
        }
        Word::Rounds(first, last) => rounds(items, first, last),
    }
}

/// The items that say this.
pub fn said(alloc: Global, words: &[Word<'_>]) -> Result<Vec<Item>, AllocError> {
    let mut items = Vec::new(alloc);
    for word in words {
        say(alloc, &mut items, *word)?;
    }
    Ok(items)
}

/// The lines of a script, each with its place in the plan and its round.
pub fn lines(
    alloc: Global,
    script: &[(usize, u64, Call<'_>)],
) -> Result<Vec<(usize, Line)>, AllocError> {
    let mut lines = Vec::new(alloc);
    for (place, at, call) in script {
        let line = Line {
            at: *at,
            peer: PeerNo(1),
            what: act_of(alloc, *call)?,
        };
        lines.push((*place, line))?;
    }
    Ok(lines)
}
