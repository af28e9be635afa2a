ghost use Rattle.std.specs.Prelude.{◌≡◌, [], ◌∷◌, OnOk};
ghost use Rattle.gs_rules.specs.Tables.{Entries, is_shut, is_shut_after, up};
ghost use Rattle.gs_router.specs.Tables.{AgreesOnNeighbours};

use crate::peer_set::PeerSet;
use gs_base::PeerNo;
use gs_rules::{Event, StoredEntry};
use std::alloc::{AllocError, Global};

/// Which neighbours are heard and sent to. After `Shut` there are none.
#[derive(Drop)]
pub struct Neighbours {
    lost: PeerSet,
    is_shut: bool,
}

impl Neighbours {
    /// Returns a table by which each neighbour is heard and sent to.
    pub fn new(alloc: Global) -> Neighbours
        ensures { AgreesOnNeighbours result [] }
    {
        Neighbours {
            lost: PeerSet::new(alloc),
            is_shut: false,
        }
    }

    /// Says whether the router has shut down.
    pub fn is_shut(&self) -> bool
        ensures { (L : Entries) → AgreesOnNeighbours self.now L → result ≡ is_shut L }
    {
        self.is_shut
    }

    /// Says whether a neighbour is heard and sent to.
    pub fn is_up(&self, peer: PeerNo) -> bool
        ensures { (L : Entries) → AgreesOnNeighbours self.now L → result ≡ up L peer }
    {
        !(self.is_shut || self.lost.contains(peer))
    }

    /// Notes who is lost (`Event::lost`), and that the router shuts down (`Shut`).
    ///
    /// # Errors
    /// `AllocError` if memory runs out.
    pub fn note(&mut self, entry: &StoredEntry) -> Result<(), AllocError>
        ensures { OnOk result ((L : Entries)
            → AgreesOnNeighbours self.old L
            → AgreesOnNeighbours self.new (entry.now ∷ L)) }
    {
        match entry.event().lost() {
            Some(peer) => {
                self.lost.put(peer, true)?;
                Ok(())
            }
            None => {
                self.note_shut(entry.event());
                Ok(())
            }
        }
    }

    fn note_shut(&mut self, event: &Event)
        ensures shut { self.new.is_shut ≡ is_shut_after event.now self.old.is_shut }
        ensures same { self.new.lost ≡ self.old.lost }
    {
        match event {
            Event::Shut => self.is_shut = true,
            _ => {}
        }
    }
}
