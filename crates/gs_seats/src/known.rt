//! What the dials, scores and agreements of a peer say about others, for look-ups by number.
ghost use Rattle.std.specs.Prelude.{◌≡◌, ◌||◌, IfOk, List, None, OnOk, Some, find, if◌then◌else◌, option_map, ℕ};
ghost use Rattle.std.specs.BTreeMap.{get};
ghost use Rattle.std.specs.BTreeSet.{contains};
ghost use Rattle.std.specs.List.{list_any};
ghost use Rattle.std.specs.Option.{option_or};
ghost use Rattle.std.specs.Ordering.{nat_cmp};
ghost use Rattle.gs_base.specs.declared.names.PeerNo.{PeerNo as PeerNoValue};
ghost use Rattle.gs_plan.specs.declared.plan.App.{App as AppValue};
ghost use Rattle.gs_seats.specs.Own.{known_neighbour, neighbour_by};
ghost use Rattle.gs_seats.specs.Rounds.{is_about, is_agreed, is_dial};

use crate::own::Own;
use bytes::Bytes;
use gs_base::{Neighbour, PeerNo};
use gs_plan::{App, Dial, Explicit};
use std::alloc::{AllocError, Global};
use std::collections::{BTreeMap, BTreeSet};

/// What the dials, scores and agreements of a peer say about others, by the numbers of these.
#[derive(Drop)]
pub struct Known {
    /// Those that the peer dials.
    dialled: BTreeSet<u16>,
    /// The scores that the peer's application gives, in millionths.
    scores: BTreeMap<u16, i64>,
    /// Those with which the peer has a peering agreement.
    agreed: BTreeSet<u16>,
}

impl Known {
    /// Sorts what concerns a peer by the others. It walks over each part once.
    ///
    /// # Errors
    /// `AllocError` when out of memory.
    pub fn of(alloc: Global, own: Own<'_>, peer: PeerNo) -> Result<Known, AllocError>
        ensures { IfOk result (λ known. (address : List ℕ) (q : PeerNoValue)
            → known_neighbour known address q
            ≡ neighbour_by own.entry.dials.now own.entry.apps.now own.entry.explicit.now address peer q) }
    {
        let dialled = dialled_by(alloc, own.dials, peer)?;
        let scores = scores_by(alloc, own.apps, peer)?;
        let agreed = agreed_by(alloc, own.explicit, peer)?;
        Ok(Known {
            dialled,
            scores,
            agreed,
        })
    }

    /// Returns another peer as a neighbour of the peer, at this address.
    pub fn neighbour(&self, other: PeerNo, address: Bytes) -> Neighbour
        ensures { result ≡ known_neighbour self.now address other }
    {
        let value = match self.scores.get(&other.0) {
            Some(value) => *value,
            None => 0,
        };
        Neighbour {
            outbound: self.dialled.contains(&other.0),
            app: i128::from(value),
            explicit: self.agreed.contains(&other.0),
            ..Neighbour::new(other, address)
        }
    }
}

/// Returns the numbers of those that a peer dials.
fn dialled_by(alloc: Global, dials: &[Dial], peer: PeerNo) -> Result<BTreeSet<u16>, AllocError>
    ensures { IfOk result (λ dialled. (q : PeerNoValue)
        → contains nat_cmp dialled q.0 ≡ list_any (is_dial peer q) dials.now) }
{
    let mut dialled = BTreeSet::new(alloc);
    for dial in dials {
        put_dialled(&mut dialled, peer, dial)?;
    }
    Ok(dialled)
}

fn put_dialled(dialled: &mut BTreeSet<u16>, peer: PeerNo, dial: &Dial) -> Result<(), AllocError>
    ensures { OnOk result ((q : PeerNoValue)
        → contains nat_cmp dialled.new q.0 ≡ (contains nat_cmp dialled.old q.0 || is_dial peer q dial.now)) }
{
    if dial.from != peer {
        return Ok(());
    }
    dialled.insert(dial.to.0)?;
    Ok(())
}

/// Returns the scores that a peer's application gives. The first one about a peer counts.
fn scores_by(alloc: Global, apps: &[App], peer: PeerNo) -> Result<BTreeMap<u16, i64>, AllocError>
    ensures { IfOk result (λ scores. (q : PeerNoValue)
        → get nat_cmp scores q.0 ≡ option_map (λ (app : AppValue). app.value) (find (is_about peer q) apps.now)) }
{
    let mut scores = BTreeMap::new(alloc);
    for app in apps {
        put_score(&mut scores, peer, app)?;
    }
    Ok(scores)
}

fn put_score(scores: &mut BTreeMap<u16, i64>, peer: PeerNo, app: &App) -> Result<(), AllocError>
    ensures { OnOk result ((q : PeerNoValue)
        → get nat_cmp scores.new q.0
        ≡ option_or (get nat_cmp scores.old q.0) (if is_about peer q app.now then Some app.now.value else None)) }
{
    if app.peer != peer {
        return Ok(());
    }
    if scores.contains_key(&app.about.0) {
        return Ok(());
    }
    scores.insert(app.about.0, app.value)?;
    Ok(())
}

/// Returns the numbers of those with which a peer has a peering agreement.
fn agreed_by(
    alloc: Global,
    explicit: &[Explicit],
    peer: PeerNo,
) -> Result<BTreeSet<u16>, AllocError>
    ensures { IfOk result (λ agreed. (q : PeerNoValue)
        → contains nat_cmp agreed q.0 ≡ list_any (is_agreed peer q) explicit.now) }
{
    let mut agreed = BTreeSet::new(alloc);
    for agreement in explicit {
        put_agreed(&mut agreed, peer, agreement)?;
    }
    Ok(agreed)
}

fn put_agreed(
    agreed: &mut BTreeSet<u16>,
    peer: PeerNo,
    agreement: &Explicit,
) -> Result<(), AllocError>
    ensures { OnOk result ((q : PeerNoValue)
        → contains nat_cmp agreed.new q.0 ≡ (contains nat_cmp agreed.old q.0 || is_agreed peer q agreement.now)) }
{
    if agreement.peer != peer {
        return Ok(());
    }
    agreed.insert(agreement.about.0)?;
    Ok(())
}
