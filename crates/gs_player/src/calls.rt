//! How a router does what there is to do in a round, except for what is heard.
ghost use Rattle.std.specs.Prelude.{◌≡◌, [], ◌∷◌, ◌++◌, OnOk, IfOk, List, Some, map};
ghost use Rattle.std.specs.Result.{IsOk};
ghost use Rattle.gs_params.specs.Seeding.{seeded_after, seeded_word};
ghost use Rattle.gs_rules.specs.declared.refusal.RefusedLine.{RefusedLine as RefusedValue};
ghost use Rattle.gs_rules.specs.Modes.{exact};
ghost use Rattle.gs_rules.specs.Rounds.{Obey, beats_in, decays_in, is_due, obey};
ghost use Rattle.gs_router.specs.Router.{Calls};
ghost use Rattle.gs_player.specs.Playing.{IsRunning, Runs};

use gs_base::{Millis, clone_of};
use gs_params::SeededWords;
use gs_plan::Line;
use gs_router::{Retention, Router, RouterFault};
use gs_rules::RefusedLine;
use std::alloc::AllocError;

/// Follows these lines, in order, and adds those that are refused to `refused`.
pub fn follow_all<K: Retention>(
    router: &mut Router<K>,
    words: &mut SeededWords,
    refused: &mut Vec<RefusedLine>,
    lines: &[(usize, Line)],
    now: Millis,
) -> Result<(), AllocError>
    requires { IsRunning now router.old }
    ensures { OnOk result ((more : List RefusedValue)
        × (refused.new.items ≡ refused.old.items ++ more)
        × Runs (exact seeded_word seeded_after) now (map obey lines.now)
        router.old words.old router.new words.new more) }
{
    for line in lines {
        follow(router, words, refused, line, now)?;
    }
    Ok(())
}

/// Follows a line of the script, or notes that it is refused.
fn follow<K: Retention>(
    router: &mut Router<K>,
    words: &mut SeededWords,
    refused: &mut Vec<RefusedLine>,
    line: &(usize, Line),
    now: Millis,
) -> Result<(), AllocError>
    requires { IsRunning now router.old }
    ensures { OnOk result ((more : List RefusedValue)
        × (refused.new.items ≡ refused.old.items ++ more)
        × Runs (exact seeded_word seeded_after) now (obey line.now ∷ [])
        router.old words.old router.new words.new more) }
{
    let (place, line) = line;
    match router.obey(clone_of(&line.what)?, now, words) {
        Ok(()) => Ok(()),
        Err(RouterFault::Refused(why)) => {
            refused.push(RefusedLine {
                at: now,
                line: *place,
                why,
            })?;
            Ok(())
        }
        Err(RouterFault::NoMemory) => Err(AllocError),
    }
}

/// Lowers the counters of scores and has a heartbeat, each if it is due in a round. `clock` is how long the peer has been up
/// at the moment `now` of the run.
pub fn decay_and_beat<K: Retention>(
    router: &mut Router<K>,
    words: &mut SeededWords,
    round: u64,
    now: Millis,
    clock: Millis,
) -> Result<(), AllocError>
    requires { IsRunning now router.old }
    ensures { OnOk result (Runs (exact seeded_word seeded_after) now
        (decays_in router.old.peer round clock ++ beats_in router.old.peer round clock)
        router.old words.old router.new words.new []) }
{
    decay_if_due(router, words, round, now, clock)?;
    beat_if_due(router, words, round, now, clock)?;
    Ok(())
}

/// Lowers the counters of scores by a step, if that is due in a round.
fn decay_if_due<K: Retention>(
    router: &mut Router<K>,
    words: &mut SeededWords,
    round: u64,
    now: Millis,
    clock: Millis,
) -> Result<(), AllocError>
    requires { IsRunning now router.old }
    ensures { OnOk result (Runs (exact seeded_word seeded_after) now (decays_in router.old.peer round clock)
        router.old words.old router.new words.new []) }
{
    if !is_due(router.decay_ms(), round, clock) {
        return Ok(());
    }
    never_refused(router.decay(now, words))?;
    Ok(())
}

/// Has a heartbeat, if one is due in a round.
fn beat_if_due<K: Retention>(
    router: &mut Router<K>,
    words: &mut SeededWords,
    round: u64,
    now: Millis,
    clock: Millis,
) -> Result<(), AllocError>
    requires { IsRunning now router.old }
    ensures { OnOk result (Runs (exact seeded_word seeded_after) now (beats_in router.old.peer round clock)
        router.old words.old router.new words.new []) }
{
    if !is_due(router.heartbeat_ms(), round, clock) {
        return Ok(());
    }
    never_refused(router.heartbeat(now, words))?;
    Ok(())
}

/// Whether something with this period in milliseconds is due in a round, where the peer has been up so long. Nothing is due in
/// the first round.
fn is_due(every: u64, round: u64, clock: Millis) -> bool
    ensures { result ≡ is_due every round clock }
{
    if round == 0 {
        return false;
    }
    clock.0.is_multiple_of(every)
}

/// Turns the answer of a call that is never refused into one that fails only if memory runs out.
pub fn never_refused(told: Result<(), RouterFault>) -> Result<(), AllocError>
    ensures { OnOk result (IsOk told) }
{
    match told {
        Ok(()) => Ok(()),
        Err(_) => Err(AllocError),
    }
}
