//! Values by the numbers of peers.
ghost use Rattle.std.specs.Prelude.{◌≡◌, ◌<◌, OnOk, if◌then◌else◌, length};
ghost use Rattle.gs_base.specs.declared.names.PeerNo.{PeerNo as PeerNoValue};
ghost use Rattle.gs_base.specs.Names.{same_peer};
ghost use Rattle.gs_reach.specs.Tables.{cell};

use gs_base::PeerNo;
use std::alloc::{AllocError, Global};

/// A value for each peer, by its number. A look-up hashes nothing.
#[derive(Debug, Drop)]
pub(crate) struct Table<T: Copy> {
    cells: Vec<T>,
    /// The value of each peer after the last cell.
    other: T,
}

impl<T: Copy> Table<T> {
    /// A table with one value for all peers. It takes no memory.
    pub(crate) fn new(alloc: Global, value: T) -> Table<T>
        ensures { (q : PeerNoValue) → cell result q ≡ value }
    {
        Table {
            cells: Vec::new(alloc),
            other: value,
        }
    }

    /// The value of a peer.
    pub(crate) fn get(&self, peer: PeerNo) -> T
        ensures { result ≡ cell self.now peer }
    {
        match self.cells.get(usize::from(peer.0)) {
            Some(value) => *value,
            None => self.other,
        }
    }

    /// Gives a peer another value.
    pub(crate) fn put(&mut self, peer: PeerNo, value: T) -> Result<(), AllocError>
        ensures { OnOk result ((q : PeerNoValue)
            → cell self.new q ≡ (if same_peer peer q then value else cell self.old q)) }
    {
        self.cover(peer)?;
        self.cells[usize::from(peer.0)] = value;
        Ok(())
    }

    fn cover(&mut self, peer: PeerNo) -> Result<(), AllocError>
        ensures room { OnOk result (peer.0 < length self.new.cells.items) }
        ensures same { OnOk result ((q : PeerNoValue) → cell self.new q ≡ cell self.old q) }
    {
        let wanted = usize::from(peer.0) + 1;
        if wanted <= self.cells.len() {
            return Ok(());
        }
        self.cells.resize(wanted, self.other)?;
        Ok(())
    }
}
