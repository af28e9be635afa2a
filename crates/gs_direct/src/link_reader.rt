//! The reader of a link on which raw bytes are put.
ghost use Rattle.std.specs.Prelude.{◌≡◌, ◌++◌, [], Some, OnOk, is_none, length, unwrap_or};
ghost use Rattle.gs_wire.specs.Messages.{frame, longest_body};
ghost use Rattle.gs_wire.specs.Stream.{FeedsOnce};
ghost use Rattle.gs_direct.specs.Outlets.{ReadsOn};

use gs_base::{Rpc, Shared};
use gs_wire::{FrameReader, MAX_BODY, WireFault, encode_frame};
use std::alloc::{AllocError, Global};
use std::marker::Model;

/// Reads everything that goes over a link as frames. Contracts see what it holds of an unfinished frame, which is nothing
/// after a fault.
#[derive(Drop)]
pub struct LinkReader {
    reader: FrameReader,
    has_failed: bool,
}

impl Model for LinkReader {
    ghost use Rattle.std.specs.Prelude.{◌≡◌, is_none};
    ghost use Rattle.gs_wire.specs.Stream.{Holding};

    ghost Value = { Holding };

    ghost view = { λ r. r.reader };

    ghost invariant = { λ r. r.has_failed ≡ is_none r.reader.held };
}

impl LinkReader {
    /// Returns a reader that has read nothing. It takes no memory.
    pub fn new(alloc: Global) -> LinkReader
        ensures { result ≡ record { limit = longest_body; held = Some [] } }
    {
        LinkReader {
            reader: FrameReader::new(alloc, MAX_BODY),
            has_failed: false,
        }
    }

    /// Says whether some of the bytes spelled no RPC.
    pub fn has_failed(&self) -> bool
        ensures { result ≡ is_none self.now.held }
    {
        self.has_failed
    }

    /// Returns how many bytes it holds of an unfinished frame.
    pub fn pending(&self) -> usize
        ensures { result ≡ length (unwrap_or self.now.held []) }
    {
        self.reader.pending()
    }

    /// Reads an RPC as it goes over the link, and adds the RPCs that are whole after that.
    ///
    /// # Errors
    /// `AllocError` when out of memory.
    pub fn read_frame(
        &mut self,
        alloc: Global,
        rpc: &Rpc,
        rpcs: &mut Vec<Shared<Rpc>>,
    ) -> Result<(), AllocError>
        ensures { OnOk result (ReadsOn self.old (frame rpc.now) self.new rpcs.old.items rpcs.new.items) }
    {
        let mut text = Vec::new(alloc);
        match encode_frame(rpc, &mut text) {
            Ok(()) => self.read(alloc, &text, rpcs),
            Err(_) => Err(AllocError),
        }
    }

    /// Reads bytes of the link, and adds the RPCs that are whole after that. After a fault it adds none.
    ///
    /// # Errors
    /// `AllocError` when out of memory.
    pub fn read(
        &mut self,
        alloc: Global,
        bytes: &[u8],
        rpcs: &mut Vec<Shared<Rpc>>,
    ) -> Result<(), AllocError>
        ensures { OnOk result (ReadsOn self.old bytes.now self.new rpcs.old.items rpcs.new.items) }
    {
        let mut found = Vec::new(alloc);
        self.feed(alloc, bytes, &mut found)?;
        push_shared(alloc, found, rpcs)
    }

    /// A fault of the bytes is no error here: the reader holds nothing after it.
    fn feed(&mut self, alloc: Global, bytes: &[u8], found: &mut Vec<Rpc>) -> Result<(), AllocError>
        requires { found.old.items ≡ [] }
        ensures { OnOk result (FeedsOnce self.old bytes.now self.new found.new.items) }
    {
        match self.reader.feed(alloc, bytes, found) {
            Ok(()) => Ok(()),
            Err(WireFault::Malformed) => {
                self.has_failed = true;
                Ok(())
            }
            Err(WireFault::TooLong) => {
                self.has_failed = true;
                Ok(())
            }
            Err(WireFault::Failed) => Ok(()),
            Err(WireFault::NoMemory) => Err(AllocError),
        }
    }
}

fn push_shared(
    alloc: Global,
    found: Vec<Rpc>,
    rpcs: &mut Vec<Shared<Rpc>>,
) -> Result<(), AllocError>
    ensures { OnOk result (rpcs.new.items ≡ rpcs.old.items ++ found.items) }
{
    for rpc in found {
        rpcs.push(Shared::new(alloc, rpc)?)?;
    }
    Ok(())
}
