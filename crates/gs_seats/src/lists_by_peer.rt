//! Lists, one for each peer.
ghost use Rattle.std.specs.Prelude.{◌≡◌, ◌≢◌, ℕ, ◌++◌, ◌∷◌, ◌<◌, [], IfNone, IfOk, OnErr, OnOk, length, option_to_list};
ghost use Rattle.gs_seats.specs.ListsByPeer.{list_at};

use gs_base::PeerNo;
use std::alloc::{AllocError, Global};
use std::mem;

/// Returns as many empty lists as the count says.
///
/// # Errors
/// `AllocError` when out of memory.
pub fn empty_lists<T: Drop>(alloc: Global, count: usize) -> Result<Vec<Vec<T>>, AllocError>
    ensures count { IfOk result (λ lists. length lists.items ≡ count) }
    ensures empty { IfOk result (λ lists. (n : ℕ) → list_at lists.items n ≡ []) }
{
    let mut lists = Vec::new(alloc);
    for _ in 0..count {
        lists.push(Vec::new(alloc))?;
    }
    Ok(lists)
}

/// Appends a value to a peer's list.
///
/// # Errors
/// `AllocError` when out of memory. The lists are as they were, and the value is dropped.
pub fn put_last<T: Drop>(lists: &mut Vec<Vec<T>>, peer: PeerNo, value: T) -> Result<(), AllocError>
    requires within { peer.0 < length lists.old.items }
    ensures count { length lists.new.items ≡ length lists.old.items }
    ensures put { OnOk result (list_at lists.new.items peer.0 ≡ list_at lists.old.items peer.0 ++ value ∷ []) }
    ensures kept { OnErr result (list_at lists.new.items peer.0 ≡ list_at lists.old.items peer.0) }
    ensures others { (n : ℕ) → n ≢ peer.0 → list_at lists.new.items n ≡ list_at lists.old.items n }
{
    let list = &mut lists[usize::from(peer.0)];
    list.push(value)?;
    Ok(())
}

/// Appends a value to a peer's list, if the peer has one.
///
/// # Errors
/// `AllocError` when out of memory. The lists are as they were, and the value is dropped.
pub fn put_if_there<T: Drop>(
    lists: &mut Vec<Vec<T>>,
    peer: PeerNo,
    value: T,
) -> Result<(), AllocError>
    ensures count { length lists.new.items ≡ length lists.old.items }
    ensures put { OnOk result (peer.0 < length lists.old.items
        → list_at lists.new.items peer.0 ≡ list_at lists.old.items peer.0 ++ value ∷ []) }
    ensures others { (n : ℕ) → n ≢ peer.0 → list_at lists.new.items n ≡ list_at lists.old.items n }
{
    if usize::from(peer.0) >= lists.len() {
        return Ok(());
    }
    put_last(lists, peer, value)?;
    Ok(())
}

/// Returns a peer's list.
pub fn list_of<T>(lists: &[Vec<T>], peer: PeerNo) -> &[T]
    requires { peer.0 < length lists.now }
    ensures { result.now ≡ list_at lists.now peer.0 }
{
    lists[usize::from(peer.0)].as_slice()
}

/// Takes a peer's list, and leaves an empty one in its place.
pub fn take_list<T: Drop>(alloc: Global, lists: &mut Vec<Vec<T>>, peer: PeerNo) -> Vec<T>
    requires { peer.0 < length lists.old.items }
    ensures taken { result.items ≡ list_at lists.old.items peer.0 }
    ensures left { list_at lists.new.items peer.0 ≡ [] }
    ensures count { length lists.new.items ≡ length lists.old.items }
    ensures others { (n : ℕ) → n ≢ peer.0 → list_at lists.new.items n ≡ list_at lists.old.items n }
{
    mem::replace(&mut lists[usize::from(peer.0)], Vec::new(alloc))
}

/// Takes the last element of a peer's list, if there is one.
pub fn take_last<T: Drop>(lists: &mut Vec<Vec<T>>, peer: PeerNo) -> Option<T>
    requires within { peer.0 < length lists.old.items }
    ensures count { length lists.new.items ≡ length lists.old.items }
    ensures taken { list_at lists.old.items peer.0 ≡ list_at lists.new.items peer.0 ++ option_to_list result }
    ensures none { IfNone result (list_at lists.old.items peer.0 ≡ []) }
    ensures others { (n : ℕ) → n ≢ peer.0 → list_at lists.new.items n ≡ list_at lists.old.items n }
{
    let list = &mut lists[usize::from(peer.0)];
    list.pop()
}
