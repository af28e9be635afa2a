ghost use Rattle.std.specs.Prelude.{◌≡◌, ◌+◌, ◌-◌, ◌≤◌, ◌<◌, ◌^◌, ℕ, List, [], map, drop, length, IfOk, OnOk};
ghost use Rattle.indexmap.specs.IndexMap.{insert_all};
ghost use Rattle.gs_base.specs.Names.{same_peer};
ghost use Rattle.gs_score.specs.Addresses.{address_entry_of, app_of, counts_at, is_counted, kept_number, number_at};
ghost use Rattle.gs_score.specs.Addresses.{number_with, one_if, same_address, shut_out};

use bytes::Bytes;
use gs_base::{Neighbour, PeerNo, clone_of};
use indexmap::IndexMap;
use std::alloc::{AllocError, Global};
use std::marker::Model;

/// The address of a neighbour, and its application score.
#[derive(Debug, Drop)]
pub struct AddressEntry {
    /// The score that the application gives it, in millionths (P5).
    pub app: i128,
    /// Its address. Neighbours at one address count against each other (P6).
    pub address: Bytes,
    /// Whether it counts at its address. It does until it is shut out.
    pub counted: bool,
}

/// The addresses of all neighbours. How many count at each address is stored, so that a score need not search the
/// neighbours.
#[derive(Drop)]
pub struct Addresses {
    addresses: IndexMap<PeerNo, AddressEntry>,
    numbers: IndexMap<Bytes, u64>,
}

impl Model for Addresses {
    ghost use Rattle.std.specs.Prelude.{◌≡◌, ℕ, List};
    ghost use Rattle.gs_base.specs.declared.names.PeerNo.{PeerNo};
    ghost use Rattle.gs_score.specs.declared.addresses.AddressEntry.{AddressEntry};
    ghost use Rattle.gs_score.specs.Addresses.{kept_number, number_at};

    ghost Value = { List (PeerNo × AddressEntry) };

    ghost view = { λ p. p.addresses.entries };

    ghost invariant = { λ p. (address : List ℕ)
        → kept_number p.numbers.entries address ≡ number_at p.addresses.entries address };
}

impl Addresses {
    /// Returns the addresses of neighbours. Each counts at its address. If neighbours have the same number, only the last
    /// one counts.
    ///
    /// # Errors
    /// `AllocError` when out of memory.
    pub fn new(alloc: Global, neighbours: &[Neighbour]) -> Result<Addresses, AllocError>
        ensures { IfOk result (λ p. p ≡ insert_all same_peer [] (map address_entry_of neighbours.now)) }
    {
        let addresses = enter_all(alloc, neighbours)?;
        let numbers = number_all(alloc, &addresses)?;
        Ok(Addresses { addresses, numbers })
    }

    /// Returns the score that the application gives a neighbour, in millionths. It is 0 for a peer that is no neighbour.
    pub fn app(&self, peer: PeerNo) -> i128
        ensures { result ≡ app_of self.now peer }
    {
        match self.addresses.get(&peer) {
            Some(entry) => entry.app,
            None => 0,
        }
    }

    /// Returns how many neighbours count at a neighbour's address.
    pub fn number_with(&self, peer: PeerNo) -> u64
        ensures { result ≡ number_with self.now peer }
    {
        match self.addresses.get(&peer) {
            Some(entry) => number_of(&self.numbers, &entry.address),
            None => 0,
        }
    }

    /// Returns what `app` and `number_with` return, but looks the neighbour up only once.
    // Each score calls this. Inlined, it costs as much as code with only one caller.
    #[inline(always)]
    pub(crate) fn app_and_number(&self, peer: PeerNo) -> (i128, u64)
        ensures app { result.0 ≡ app_of self.now peer }
        ensures number { result.1 ≡ number_with self.now peer }
    {
        match self.addresses.get(&peer) {
            Some(entry) => (entry.app, number_of(&self.numbers, &entry.address)),
            None => (0, 0),
        }
    }

    /// Stops counting a neighbour at its address. It takes no memory.
    pub fn shut_out(&mut self, peer: PeerNo)
        ensures { self.new ≡ shut_out peer self.old }
    {
        if !is_counted(&self.addresses, peer) {
            return;
        }
        if let Some(entry) = self.addresses.get_mut(&peer) {
            entry.counted = false;
            count_one_fewer(&mut self.numbers, &entry.address);
        }
    }
}

fn is_counted(addresses: &IndexMap<PeerNo, AddressEntry>, peer: PeerNo) -> bool
    ensures { result ≡ is_counted addresses.now.entries peer }
{
    match addresses.get(&peer) {
        Some(entry) => entry.counted,
        None => false,
    }
}

/// Returns the addresses of neighbours.
///
/// # Errors
/// `AllocError` when out of memory.
fn enter_all(
    alloc: Global,
    neighbours: &[Neighbour],
) -> Result<IndexMap<PeerNo, AddressEntry>, AllocError>
    ensures { IfOk result (λ p. p.entries ≡ insert_all same_peer [] (map address_entry_of neighbours.now)) }
{
    let mut addresses = IndexMap::new(alloc);
    for neighbour in neighbours {
        let entry = AddressEntry {
            app: neighbour.app,
            address: clone_of(&neighbour.address)?,
            counted: true,
        };
        addresses.insert(neighbour.peer, entry)?;
    }
    Ok(addresses)
}

/// Returns how many neighbours count at each address.
///
/// # Errors
/// `AllocError` when out of memory.
fn number_all(
    alloc: Global,
    addresses: &IndexMap<PeerNo, AddressEntry>,
) -> Result<IndexMap<Bytes, u64>, AllocError>
    ensures { IfOk result (λ n. (address : List ℕ)
        → kept_number n.entries address ≡ number_at addresses.now.entries address) }
{
    let mut numbers = IndexMap::new(alloc);
    for at in 0..addresses.len() {
        number_one(&mut numbers, addresses, at)?;
    }
    Ok(numbers)
}

/// Counts the neighbour at an index.
///
/// # Errors
/// `AllocError` when out of memory.
fn number_one(
    numbers: &mut IndexMap<Bytes, u64>,
    addresses: &IndexMap<PeerNo, AddressEntry>,
    at: usize,
) -> Result<(), AllocError>
    requires within { at < length addresses.now.entries }
    requires small { at < 2 ^ 64 - 1 }
    requires few { (address : List ℕ) → kept_number numbers.old.entries address ≤ at }
    ensures counts { OnOk result ((address : List ℕ)
        → kept_number numbers.new.entries address + number_at (drop (at + 1) addresses.now.entries) address
        ≡ kept_number numbers.old.entries address + number_at (drop at addresses.now.entries) address) }
    ensures few { OnOk result ((address : List ℕ) → kept_number numbers.new.entries address ≤ at + 1) }
{
    match addresses.get_index(at) {
        Some((_peer, entry)) => raise(numbers, entry)?,
        None => {}
    }
    Ok(())
}

/// Counts a neighbour at its address.
///
/// # Errors
/// `AllocError` when out of memory.
fn raise(numbers: &mut IndexMap<Bytes, u64>, entry: &AddressEntry) -> Result<(), AllocError>
    requires few { (address : List ℕ) → kept_number numbers.old.entries address < 2 ^ 64 - 1 }
    ensures { OnOk result ((address : List ℕ)
        → kept_number numbers.new.entries address
        ≡ kept_number numbers.old.entries address + one_if (counts_at address entry.now)) }
{
    if !entry.counted {
        return Ok(());
    }
    let number = number_of(numbers, &entry.address) + 1;
    numbers.insert(clone_of(&entry.address)?, number)?;
    Ok(())
}

/// Counts one neighbour fewer at an address.
fn count_one_fewer(numbers: &mut IndexMap<Bytes, u64>, address: &Bytes)
    ensures { (a : List ℕ)
        → kept_number numbers.new.entries a
        ≡ kept_number numbers.old.entries a - one_if (same_address address.now a) }
{
    if let Some(number) = numbers.get_mut(address) {
        *number = number.saturating_sub(1);
    }
}

/// Returns how many neighbours count at an address, by the stored numbers.
fn number_of(numbers: &IndexMap<Bytes, u64>, address: &Bytes) -> u64
    ensures { result ≡ kept_number numbers.now.entries address.now }
{
    numbers.get(address).copied().unwrap_or(0)
}
