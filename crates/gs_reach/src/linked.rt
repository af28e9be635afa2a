//! Until when each peer was linked.
ghost use Rattle.std.specs.Prelude.{◌≡◌, ℕ, not, ◌&&◌, ◌||◌, IfOk, OnOk, nat_lt};
ghost use Rattle.gs_base.specs.declared.names.Millis.{Millis as MillisValue};
ghost use Rattle.gs_base.specs.declared.names.PeerNo.{PeerNo as PeerNoValue};
ghost use Rattle.gs_base.specs.Names.{same_peer};
ghost use Rattle.gs_reach.specs.Messages.{had_lost, is_loss_of, still_joins};
ghost use Rattle.gs_reach.specs.Tables.{AreLinks, cell, is_linked_at};

use crate::listed::Loss;
use crate::table::Table;
use gs_base::{Millis, PeerNo};
use gs_plan::Dial;
use std::alloc::{AllocError, Global};

/// Before which moments a peer had a neighbour that it did not lose.
#[derive(Clone, Copy, Debug, PartialEq, Eq)]
pub(crate) enum Linked {
    /// Before no moment: it has no neighbour.
    Never,
    /// Before each moment up to this one, in milliseconds. At this moment it lost its last neighbour.
    Until(u64),
    /// Before each moment.
    Always,
}

/// Whether a peer was linked before a moment.
pub(crate) fn is_linked_at(linked: Linked, at: Millis) -> bool
    ensures { result ≡ is_linked_at linked at.0 }
{
    match linked {
        Linked::Never => false,
        Linked::Until(last) => at.0 <= last,
        Linked::Always => true,
    }
}

/// Until when each peer was linked, according to these dials and losses.
pub(crate) fn links_of(
    alloc: Global,
    dials: &[Dial],
    losses: &[Loss],
) -> Result<Table<Linked>, AllocError>
    ensures { IfOk result (AreLinks dials.now losses.now) }
{
    let mut links = Table::new(alloc, Linked::Never);
    for dial in dials {
        note_dial(&mut links, losses, *dial)?;
    }
    Ok(links)
}

fn note_dial(links: &mut Table<Linked>, losses: &[Loss], dial: Dial) -> Result<(), AllocError>
    ensures { OnOk result ((q : PeerNoValue) (at : MillisValue)
        → is_linked_at (cell links.new q) at.0
        ≡ (is_linked_at (cell links.old q) at.0 || still_joins losses.now at q dial)) }
{
    link(links, dial.from, kept(losses, dial.from, dial.to))?;
    link(links, dial.to, kept(losses, dial.to, dial.from))?;
    Ok(())
}

/// Links a peer to a neighbour.
fn link(links: &mut Table<Linked>, peer: PeerNo, kept: Linked) -> Result<(), AllocError>
    ensures { OnOk result ((q : PeerNoValue) (at : ℕ)
        → is_linked_at (cell links.new q) at
        ≡ (is_linked_at (cell links.old q) at || (same_peer peer q && is_linked_at kept at))) }
{
    let before = links.get(peer);
    links.put(peer, later(before, kept))?;
    Ok(())
}

/// The one of the two that lasts longer.
fn later(one: Linked, other: Linked) -> Linked
    ensures { (at : ℕ) → is_linked_at result at ≡ (is_linked_at one at || is_linked_at other at) }
{
    match one {
        Linked::Never => other,
        Linked::Until(last) => later_than(last, other),
        Linked::Always => Linked::Always,
    }
}

fn later_than(last: u64, other: Linked) -> Linked
    ensures { (at : ℕ) → is_linked_at result at
        ≡ (is_linked_at (Linked.Until last) at || is_linked_at other at) }
{
    match other {
        Linked::Never => Linked::Until(last),
        Linked::Until(moment) => Linked::Until(last.max(moment)),
        Linked::Always => Linked::Always,
    }
}

/// Until when a peer kept a neighbour.
fn kept(losses: &[Loss], peer: PeerNo, neighbour: PeerNo) -> Linked
    ensures { (at : MillisValue) → not (is_linked_at result at.0) ≡ had_lost losses.now at peer neighbour }
{
    let mut kept = Linked::Always;
    for loss in losses {
        kept = kept_after(kept, peer, neighbour, *loss);
    }
    kept
}

fn kept_after(before: Linked, peer: PeerNo, neighbour: PeerNo, loss: Loss) -> Linked
    ensures { (at : MillisValue) → not (is_linked_at result at.0)
        ≡ (not (is_linked_at before at.0) || is_loss_of at peer neighbour loss) }
{
    if loss.peer == peer && loss.neighbour == neighbour {
        return sooner(before, loss.at.0);
    }
    before
}

/// The same, but until a moment at most.
fn sooner(before: Linked, moment: u64) -> Linked
    ensures { (at : ℕ) → not (is_linked_at result at) ≡ (not (is_linked_at before at) || nat_lt moment at) }
{
    match before {
        Linked::Never => Linked::Never,
        Linked::Until(last) => Linked::Until(last.min(moment)),
        Linked::Always => Linked::Until(moment),
    }
}
