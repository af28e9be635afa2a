//! What a cache of what was seen holds, and what a note changes.
ghost use Rattle.std.specs.Prelude.{◌≡◌, ◌≤◌};

use gs_base::{Millis, MsgId, PeerNo, Verdict};
use gs_cache::SeenCache;
use std::alloc::{AllocError, Global};

/// Messages count for a second.
const TTL: Millis = Millis(1_000);

/// The identifier of a message whose payload is a number.
fn id(number: u64) -> MsgId {
    MsgId::of(&number.to_le_bytes())
}

/// Marks a message every 100 ms, and tells whether there are never more than `most` sightings.
fn holds_at_most(alloc: Global, rounds: u32, most: usize) -> Result<bool, AllocError> {
    let mut cache = SeenCache::new(alloc, TTL);
    for round in 0..rounds {
        let round = round as u64;
        cache.mark(id(round), Millis(100 * round), Verdict::Accept)?;
        if most < cache.held() {
            return Ok(false);
        }
    }
    Ok(true)
}

/// One message a round of 100 ms, for 10,000 rounds: no more is held than the messages of 20 rounds.
#[test]
fn memory_follows_the_time_and_not_the_run(rt: HostRuntime) -> Result<(), AllocError> {
    assert!(rt; holds_at_most(rt.alloc(), 10_000, 20)?);
    assert!(rt; !holds_at_most(rt.alloc(), 20, 9)?);
    Ok(())
}

/// The second mark of message 1 replaces the first one, which is dropped at 1,950. Until then, message 1 counts twice.
fn held_as_marks_are_dropped(cache: &mut SeenCache) -> Result<[usize; 3], AllocError>
    requires fresh { cache.old.moment ≡ 0 }
{
    cache.mark(id(1), Millis(100), Verdict::Accept)?;
    cache.mark(id(2), Millis(950), Verdict::Ignore)?;
    cache.mark(id(1), Millis(1_200), Verdict::Ignore)?;
    let three = cache.held();
    cache.mark(id(3), Millis(1_949), Verdict::Accept)?;
    let four = cache.held();
    cache.mark(id(4), Millis(1_950), Verdict::Accept)?;
    Ok([three, four, cache.held()])
}

#[test]
fn an_old_mark_is_dropped_after_its_time(rt: HostRuntime) -> Result<(), AllocError> {
    let mut cache = SeenCache::new(rt.alloc(), TTL);
    let held = held_as_marks_are_dropped(&mut cache)?;
    drop(cache);
    assert_eq!(rt; held, [3, 4, 3]);
    Ok(())
}

/// Message 1 is marked, and message 2 is not. Both are noted for neighbour 1.
fn near_after_notes(cache: &mut SeenCache) -> Result<[bool; 3], AllocError>
    requires fresh { cache.old.moment ≡ 0 }
{
    cache.mark(id(1), Millis(500), Verdict::Accept)?;
    cache.note(&id(1), PeerNo(1))?;
    cache.note(&id(2), PeerNo(1))?;
    Ok([
        cache.is_near(&id(1), PeerNo(1), Millis(510), Millis(10)),
        cache.is_near(&id(1), PeerNo(2), Millis(510), Millis(10)),
        cache.is_near(&id(2), PeerNo(1), Millis(510), Millis(10)),
    ])
}

#[test]
fn a_note_counts_only_for_what_was_marked(rt: HostRuntime) -> Result<(), AllocError> {
    let mut cache = SeenCache::new(rt.alloc(), TTL);
    let near = near_after_notes(&mut cache)?;
    let seen = cache.seen(&id(2), Millis(510));
    drop(cache);
    assert_eq!(rt; near, [false, true, false]);
    assert_eq!(rt; seen, None);
    Ok(())
}
