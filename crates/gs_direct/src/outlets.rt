//! What a peer sends to its neighbours.
ghost use Rattle.std.specs.Prelude.{◌≡◌, ◌++◌, false, true, OnOk, IfOk, length, reverse};
ghost use Rattle.std.specs.List.{AllByRecursion, AllZip};
ghost use Rattle.gs_base.specs.declared.names.PeerNo.{PeerNo as PeerNoValue};
ghost use Rattle.gs_base.specs.Names.{peers_of};
ghost use Rattle.gs_rules.specs.Legal.{Legal};
ghost use Rattle.gs_rules.specs.Saying.{is_cut_by};
ghost use Rattle.gs_router.specs.Log.{this_round};
ghost use Rattle.gs_seats.specs.ListsByPeer.{list_at};
ghost use Rattle.gs_direct.specs.Outlets.{AllWritten, IsHandedOver, IsNew, IsSilent, Says, SaysAll, SendsWritten, Within, given};

use crate::letter::Letter;
use crate::outlet::Outlet;
use gs_base::{Neighbour, PeerNo};
use gs_plan::Act;
use gs_router::{Retention, Router};
use gs_rules::{Event, StoredEntry};
use gs_seats::put_last;
use std::alloc::{AllocError, Global};

/// Returns an outlet to each of these neighbours. Nothing was said to them.
///
/// # Errors
/// `AllocError` when out of memory.
pub fn outlets_of(alloc: Global, neighbours: &[Neighbour]) -> Result<Vec<Outlet>, AllocError>
    ensures { IfOk result (λ outlets. AllZip IsNew (peers_of neighbours.now) outlets.items) }
{
    let mut outlets = Vec::with_capacity(alloc, neighbours.len())?;
    for neighbour in neighbours {
        outlets.push(Outlet::new(alloc, neighbour.peer))?;
    }
    Ok(outlets)
}

/// Sends the neighbours what a router's trace says in the round in which it is.
///
/// # Errors
/// `AllocError` when out of memory.
pub fn tell_round<K: Retention>(
    alloc: Global,
    outlets: &mut [Outlet],
    router: &Router<K>,
) -> Result<(), AllocError>
    requires { Legal router.now.peer router.now.trace }
    ensures { OnOk result (AllZip (SaysAll (reverse (this_round router.now.trace))) outlets.old outlets.new) }
{
    tell_all(alloc, outlets, router.round())?;
    Ok(())
}

/// Sends the neighbours what these entries say, the first entry first.
fn tell_all(
    alloc: Global,
    outlets: &mut [Outlet],
    entries: &[StoredEntry],
) -> Result<(), AllocError>
    requires { AllWritten entries.now }
    ensures { OnOk result (AllZip (SaysAll entries.now) outlets.old outlets.new) }
{
    for entry in entries {
        tell(alloc, outlets, entry)?;
    }
    Ok(())
}

/// Sends the neighbours what an entry says.
fn tell(alloc: Global, outlets: &mut [Outlet], entry: &StoredEntry) -> Result<(), AllocError>
    requires { SendsWritten entry.now.effects.sends }
    ensures { OnOk result (AllZip (Says entry.now) outlets.old outlets.new) }
{
    if is_silent(entry) {
        return Ok(());
    }
    for outlet in outlets.iter_mut() {
        outlet.tell(alloc, entry)?;
    }
    Ok(())
}

/// Says whether an entry says nothing to any neighbour.
fn is_silent(entry: &StoredEntry) -> bool
    ensures { result ≡ true → IsSilent entry.now }
{
    if !entry.sends().is_empty() {
        return false;
    }
    match entry.event() {
        Event::RoundEnd(_) => false,
        Event::Shut => false,
        Event::Lost(_, _) => false,
        Event::Own(act) => is_silent_act(act.get()),
        Event::Heard(_, _) => true,
        Event::Late(_, _) => true,
        Event::Part(_, _) => true,
        Event::BeatBegin => true,
        Event::Step(_) => true,
        Event::Decay => true,
    }
}

/// Says whether an act of the peer's own user says nothing except the RPCs that are sent for it.
fn is_silent_act(act: &Act) -> bool
    ensures { result ≡ true → (q : PeerNoValue) → is_cut_by q act.now ≡ false }
{
    match act {
        Act::Raw(_, _) => false,
        Act::HangUp(_) => false,
        Act::Subscribe(_) => true,
        Act::Unsubscribe(_) => true,
        Act::Publish(_, _) => true,
    }
}

/// Hands over to each neighbour what was said to it in a round.
///
/// # Errors
/// `AllocError` when out of memory.
pub fn hand_over(
    alloc: Global,
    outlets: &mut [Outlet],
    from: PeerNo,
    mail: &mut Vec<Vec<Letter>>,
) -> Result<(), AllocError>
    requires { AllByRecursion (Within (length mail.old.items)) outlets.old }
    ensures count { length mail.new.items ≡ length mail.old.items }
    ensures given { OnOk result ((p : PeerNoValue)
        → list_at mail.new.items p.0 ≡ list_at mail.old.items p.0 ++ given from outlets.old p) }
    ensures handed { OnOk result (AllZip IsHandedOver outlets.old outlets.new) }
{
    for outlet in outlets.iter_mut() {
        if let Some(letter) = outlet.hand_over(alloc, from) {
            put_last(mail, outlet.to, letter)?;
        }
    }
    Ok(())
}
