ghost use Rattle.std.specs.Prelude.{◌≡◌, ◌≤◌, [], Some, None, length, unwrap_or};
ghost use Rattle.gs_wire.specs.Messages.{longest_body};
ghost use Rattle.gs_wire.specs.Stream.{EndsFeed, missing_of};

use crate::fault::WireFault;
use crate::frames::{End, Progress, Span, read_frames};
use bytes::BytesMut;
use gs_base::Rpc;
use std::alloc::Global;
use std::marker::Model;

/// Reads RPCs from a stream of frames that comes in pieces, however it is cut. Contracts see the reader's limit, and the
/// bytes that it holds of an unfinished frame. After a fault it holds none. It reads a length once, where the length comes
/// in one piece. It reads a body when the last byte of the body is there.
#[derive(Drop)]
pub struct FrameReader {
    limit: usize,
    held: BytesMut,
    next: Option<Span>,
    /// How many bytes of the body at the front have not come yet. It is 0 where the length of that body is not known.
    missing: usize,
    failed: bool,
}

impl Model for FrameReader {
    ghost use Rattle.std.specs.Prelude.{Some, None, if◌then◌else◌};
    ghost use Rattle.gs_wire.specs.Stream.{Holding, AwaitsBody};

    ghost Value = { Holding };

    ghost view = { λ r. record { limit = r.limit; held = if r.failed then None else Some r.held.items } };

    ghost invariant = { λ r. AwaitsBody r.limit r.held.items r.next r.missing r.failed };
}

/// Returns how many bytes of a frame are missing where `held` bytes are held.
fn missing_of(next: Option<Span>, held: usize) -> usize
    ensures { result ≡ missing_of next held }
{
    match next {
        Some(span) => span.end.saturating_sub(held),
        None => 0,
    }
}

impl FrameReader {
    /// Returns a reader for bodies of at most `limit` bytes, which has read nothing. It takes no memory.
    pub fn new(alloc: Global, limit: usize) -> FrameReader
        requires { limit ≤ longest_body }
        ensures { result ≡ record { limit = limit; held = Some [] } }
    {
        FrameReader {
            limit,
            held: BytesMut::new(alloc),
            next: None,
            missing: 0,
            failed: false,
        }
    }

    /// Returns how many bytes it holds of an unfinished frame. After a fault there are none.
    pub fn pending(&self) -> usize
        ensures { result ≡ length (unwrap_or self.now.held []) }
    {
        if self.failed { 0 } else { self.held.len() }
    }

    /// Takes the next piece of the stream, and adds the RPC of each frame that is whole now.
    ///
    /// # Errors
    /// `Failed` exactly if the reader met a fault before; nothing changes. `Malformed` or `TooLong` if that is the first
    /// fault of the stream. The RPCs before the fault are added, and the reader has failed. `NoMemory` when out of memory;
    /// the reader and the list are as they were. `NoMemory` may come instead of `Malformed` and `TooLong`. Only tests show
    /// that a fault of the stream isn't refused as out of memory.
    pub fn feed(
        &mut self,
        alloc: Global,
        piece: &[u8],
        rpcs: &mut Vec<Rpc>,
    ) -> Result<(), WireFault>
        ensures { EndsFeed self.old piece.now self.new rpcs.old.items rpcs.new.items result }
    {
        if piece.len() < self.missing {
            self.held.extend_from_slice(piece)?;
            self.missing -= piece.len();
            return Ok(());
        }
        self.feed_frames(alloc, piece, rpcs)
    }

    /// Takes a piece that may end a length or a body.
    #[inline(never)]
    fn feed_frames(
        &mut self,
        alloc: Global,
        piece: &[u8],
        rpcs: &mut Vec<Rpc>,
    ) -> Result<(), WireFault>
        ensures { EndsFeed self.old piece.now self.new rpcs.old.items rpcs.new.items result }
    {
        if self.failed {
            return Err(WireFault::Failed);
        }
        if self.held.is_empty() {
            return self.feed_whole(alloc, piece, rpcs);
        }
        let held = self.held.len();
        let count = rpcs.len();
        self.held.extend_from_slice(piece)?;
        let Ok(Progress { taken, next, end }) = read_frames(
            alloc,
            self.limit,
            self.next,
            self.held.as_slice(),
            rpcs,
        ) else {
            self.held.truncate(held);
            rpcs.truncate(count);
            return Err(WireFault::NoMemory);
        };
        self.next = None;
        self.missing = 0;
        match end {
            End::Waits => {
                self.held.advance(taken);
                self.next = next;
                self.missing = missing_of(next, self.held.len());
                Ok(())
            }
            End::TooLong => Err(self.fail(WireFault::TooLong)),
            End::Malformed => Err(self.fail(WireFault::Malformed)),
        }
    }

    /// Takes a piece where nothing is held. It reads the whole frames where they are, and copies only the rest.
    fn feed_whole(
        &mut self,
        alloc: Global,
        piece: &[u8],
        rpcs: &mut Vec<Rpc>,
    ) -> Result<(), WireFault>
        requires { self.old.held ≡ Some [] }
        ensures { EndsFeed self.old piece.now self.new rpcs.old.items rpcs.new.items result }
    {
        if piece.is_empty() {
            return Ok(());
        }
        let count = rpcs.len();
        let Ok(Progress { taken, next, end }) = read_frames(alloc, self.limit, None, piece, rpcs)
        else {
            rpcs.truncate(count);
            return Err(WireFault::NoMemory);
        };
        match end {
            End::Waits => {
                if self.held.extend_from_slice(&piece[taken..]).is_err() {
                    rpcs.truncate(count);
                    return Err(WireFault::NoMemory);
                }
                self.next = next;
                self.missing = missing_of(next, self.held.len());
                Ok(())
            }
            End::TooLong => Err(self.fail(WireFault::TooLong)),
            End::Malformed => Err(self.fail(WireFault::Malformed)),
        }
    }

    /// Marks the reader as failed, and returns the fault. From now on it takes nothing, and contracts see it hold nothing.
    /// The bytes that it held stay in memory until it is dropped.
    fn fail(&mut self, fault: WireFault) -> WireFault
        ensures same { result ≡ fault }
        ensures failed { self.new ≡ record { limit = self.old.limit; held = None } }
    {
        self.next = None;
        self.missing = 0;
        self.failed = true;
        fault
    }
}
