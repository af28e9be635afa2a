//! Which messages are announced.
ghost use Rattle.std.specs.Prelude.{◌≡◌, ◌==◌, ◌++◌, [], ◌∷◌, filter, if◌then◌else◌, length, not, OnOk, IfOk};
ghost use Rattle.std.specs.List.{list_any};
ghost use Rattle.gs_cache.specs.CachedMessages.{last_of, most_announced};
ghost use Rattle.gs_cache.specs.Windows.{announced_in, has, is_listed, is_listed_at, listed, placed};

use crate::message_cache::window::Window;
use gs_base::{MOST_IDENTIFIERS, MsgId, Topic};
use std::alloc::{AllocError, Global};

/// The most identifiers of a topic that are announced at once: as many as one IHAVE may have.
pub const MOST_ANNOUNCED: usize = MOST_IDENTIFIERS as usize;

/// A window whose identifiers are listed, the windows that are newer, and the topic.
#[derive(Clone, Copy)]
struct Listing<'a> {
    window: &'a Window,
    newer: &'a [Window],
    topic: &'a Topic,
}

/// Returns the identifiers to announce on a topic, from the messages in the `gossip` newest windows. They are the last
/// `MOST_ANNOUNCED`, in the order of their last puts.
///
/// # Errors
/// `AllocError` if memory runs out.
pub fn announce(
    alloc: Global,
    windows: &[Window],
    gossip: usize,
    topic: &Topic,
) -> Result<Vec<MsgId>, AllocError>
    ensures { IfOk result (λ ids. ids.items ≡ last_of most_announced (announced_in 0 gossip topic.now windows.now)) }
{
    let mut ids = Vec::new(alloc);
    let end = gossip.min(windows.len());
    for done in 0..end {
        let age = end - 1 - done;
        let listing = Listing {
            window: &windows[age],
            newer: &windows[..age],
            topic,
        };
        list_window(&mut ids, listing)?;
    }
    keep_last(&mut ids);
    Ok(ids)
}

/// Keeps the last `MOST_ANNOUNCED`.
fn keep_last(ids: &mut Vec<MsgId>)
    ensures { ids.new.items ≡ last_of most_announced ids.old.items }
{
    let extra = ids.len().saturating_sub(MOST_ANNOUNCED);
    let kept = ids.len() - extra;
    ids.rotate_left(extra);
    ids.truncate(kept);
}

/// Says whether anything in the `gossip` newest windows is announced on a topic.
pub fn announces_any(windows: &[Window], gossip: usize, topic: &Topic) -> bool
    ensures { result ≡ not (length (announced_in 0 gossip topic.now windows.now) == 0) }
{
    let end = gossip.min(windows.len());
    for age in 0..end {
        let listing = Listing {
            window: &windows[age],
            newer: &windows[..age],
            topic,
        };
        if lists_any(listing) {
            return true;
        }
    }
    false
}

/// Whether any identifier of a window is announced.
fn lists_any(listing: Listing<'_>) -> bool
    ensures { result
        ≡ not (length (listed listing.entry.newer.now listing.entry.window.now listing.entry.topic.now) == 0) }
{
    for place in 0..listing.window.order.len() {
        if lists(listing, place, &listing.window.order[place]) {
            return true;
        }
    }
    false
}

/// Lists the identifiers of a window that are announced.
///
/// # Errors
/// `AllocError` if memory runs out.
fn list_window(ids: &mut Vec<MsgId>, listing: Listing<'_>) -> Result<(), AllocError>
    ensures { OnOk result (ids.new.items
        ≡ ids.old.items ++ listed listing.entry.newer.now listing.entry.window.now listing.entry.topic.now) }
{
    for place in 0..listing.window.order.len() {
        list_one(ids, listing, place, &listing.window.order[place])?;
    }
    Ok(())
}

/// Lists an identifier that stands at a place of a window, if it is announced.
///
/// # Errors
/// `AllocError` if memory runs out.
fn list_one(
    ids: &mut Vec<MsgId>,
    listing: Listing<'_>,
    place: usize,
    id: &MsgId,
) -> Result<(), AllocError>
    ensures { OnOk result (ids.new.items
        ≡ ids.old.items
        ++ filter (is_listed listing.entry.newer.now listing.entry.window.now listing.entry.topic.now)
        (placed listing.entry.window.now.puts.entries place (id.now ∷ []))) }
{
    if lists(listing, place, id) {
        ids.push(*id)?;
        return Ok(());
    }
    Ok(())
}

/// Whether an identifier that stands at a place of a window is announced.
fn lists(listing: Listing<'_>, place: usize, id: &MsgId) -> bool
    ensures { filter (is_listed listing.entry.newer.now listing.entry.window.now listing.entry.topic.now)
        (placed listing.entry.window.now.puts.entries place (id.now ∷ []))
        ≡ (if result then id.now ∷ [] else []) }
{
    is_placed_on(listing.window, listing.topic, place, id) && !any_has(listing.newer, id)
}

/// Whether the last put of a message in a window was at a place, and on a topic.
fn is_placed_on(window: &Window, topic: &Topic, place: usize, id: &MsgId) -> bool
    ensures { result ≡ is_listed_at window.now topic.now place id.now }
{
    match window.puts.get(id) {
        Some(kept) => kept.place == place && kept.topic == *topic,
        None => false,
    }
}

fn any_has(windows: &[Window], id: &MsgId) -> bool
    ensures { result ≡ list_any (λ w. has w id.now) windows.now }
{
    windows.iter().any(|window| window.has(id))
}
