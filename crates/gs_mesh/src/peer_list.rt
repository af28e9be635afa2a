ghost use Rattle.std.specs.Prelude.{◌≡◌, [], OnErr, OnOk};
ghost use Rattle.gs_params.specs.Picks.{IsAscending};
ghost use Rattle.gs_mesh.specs.Peers.{is_among, put_in, without};

use gs_base::PeerNo;
use std::alloc::{AllocError, Global};
use std::marker::Model;
use std::mem;

/// Peers, each once, ascending by number.
#[derive(Drop)]
pub struct PeerList {
    alloc: Global,
    peers: Vec<PeerNo>,
}

impl Model for PeerList {
    ghost use Rattle.std.specs.Prelude.{List};
    ghost use Rattle.gs_base.specs.declared.names.PeerNo.{PeerNo};
    ghost use Rattle.gs_params.specs.Picks.{IsAscending};

    ghost Value = { List PeerNo };

    ghost view = { λ list. list.peers.items };

    ghost invariant = { λ list. IsAscending list.peers.items };
}

impl PeerList {
    /// Returns a list without peers. It takes no memory.
    pub fn new(alloc: Global) -> PeerList
        ensures { result ≡ [] }
    {
        PeerList {
            alloc,
            peers: Vec::new(alloc),
        }
    }

    /// Returns the peers, ascending by number.
    pub fn as_slice(&self) -> &[PeerNo]
        ensures value { result.now ≡ self.now }
        ensures ascending { IsAscending result.now }
    {
        self.peers.as_slice()
    }

    /// Says whether a peer is in the list.
    pub fn contains(&self, peer: PeerNo) -> bool
        ensures { result ≡ is_among self.now peer }
    {
        self.peers.contains(&peer)
    }

    /// Puts a peer in its place, unless it is there.
    ///
    /// # Errors
    /// `AllocError` if memory runs out. Nothing is changed then.
    pub fn insert(&mut self, peer: PeerNo) -> Result<(), AllocError>
        ensures joins { OnOk result (self.new ≡ put_in peer self.old) }
        ensures unchanged { OnErr result (self.new ≡ self.old) }
    {
        put(&mut self.peers, peer)
    }

    /// Takes a peer out. Says whether it was there. It takes no memory.
    pub fn remove(&mut self, peer: PeerNo) -> bool
        ensures answer { result ≡ is_among self.old peer }
        ensures leaves { self.new ≡ without peer self.old }
    {
        let was_there = self.contains(peer);
        keep_others(&mut self.peers, peer);
        was_there
    }

    /// Takes all peers out. It takes no memory.
    pub fn clear(&mut self)
        ensures { self.new ≡ [] }
    {
        self.peers.clear();
    }

    /// Takes all peers out, and returns them. It takes no memory.
    pub fn take(&mut self) -> Vec<PeerNo>
        ensures value { result.items ≡ self.old }
        ensures ascending { IsAscending result.items }
        ensures leaves { self.new ≡ [] }
    {
        mem::replace(&mut self.peers, Vec::new(self.alloc))
    }
}

/// Puts a peer in its place among ascending ones, unless it is there.
///
/// # Errors
/// `AllocError` if memory runs out. Nothing is changed then.
fn put(peers: &mut Vec<PeerNo>, peer: PeerNo) -> Result<(), AllocError>
    requires { IsAscending peers.old.items }
    ensures joins { OnOk result (peers.new.items ≡ put_in peer peers.old.items) }
    ensures ascending { IsAscending peers.new.items }
    ensures unchanged { OnErr result (peers.new.items ≡ peers.old.items) }
{
    match peers.binary_search(&peer) {
        Ok(_) => Ok(()),
        Err(place) => {
            peers.insert(place, peer)?;
            Ok(())
        }
    }
}

fn keep_others(peers: &mut Vec<PeerNo>, peer: PeerNo)
    ensures { peers.new.items ≡ without peer peers.old.items }
{
    peers.retain(|other| peer != *other);
}
