//! Lines about how far a run is.
ghost use Rattle.std.specs.Prelude.{◌≡◌, ◌∷◌, [], IfOk, string_bytes};
ghost use Rattle.gs_program.specs.Progress.{HasToldSince, ProgressStart, TellsAll, if_wanted, progress_line, round_words};

use gs_direct::{Gauge, Stage};
use gs_streams::try_to_write;
use std::alloc::{AllocError, Global};
use std::io::Write;

/// Writes a line at the end of each round, if lines are wanted.
pub struct Progress<'a, E> {
    /// What the lines are written to.
    pub errors: &'a mut E,
    /// What the memory for a line comes from.
    pub alloc: Global,
    /// Whether lines are wanted.
    pub wanted: bool,
    /// The number of the last round.
    pub rounds: u64,
}

impl<'a, E> Drop for Progress<'a, E> {
    fn drop(self)
        ensures { self.exit.0.now ≡ self.entry.errors.now }
    {
        let Progress {
            errors: _,
            alloc: _,
            wanted: _,
            rounds: _,
        } = self;
    }
}

impl<'a, E: Write> Gauge for Progress<'a, E> {
    ghost Start = { ProgressStart };

    ghost has_shown = { λ p start stages.
        HasToldSince start p.errors.ghost_name p.wanted p.rounds stages (E.contents p.errors.now) };

    fn show(&mut self, stage: Stage) {
        tell_stage(self.alloc, self.wanted, self.rounds, stage, self.errors);
    }
}

/// Writes the line of a stage or a front of it, if lines are wanted. When out of memory for the line, it writes nothing.
fn tell_stage<E: Write>(alloc: Global, wanted: bool, rounds: u64, stage: Stage, errors: &mut E)
    ensures { TellsAll rounds (if_wanted wanted (stage ∷ [])) (E.contents errors.old) (E.contents errors.new) }
{
    if !wanted {
        return;
    }
    match progress_line(alloc, rounds, stage) {
        Ok(line) => try_to_write(errors, line.as_str()),
        Err(_) => {}
    }
}

fn progress_line(alloc: Global, rounds: u64, stage: Stage) -> Result<String, AllocError>
    ensures { IfOk result (λ line. string_bytes line ≡ progress_line rounds stage) }
{
    let Stage { round, deliveries } = stage;
    let front = round_words(alloc, round, rounds)?;
    let word = " deliveries\n";
    Ok(format!(in alloc; "{front}, {deliveries}{word}")?)
}

fn round_words(alloc: Global, round: u64, rounds: u64) -> Result<String, AllocError>
    ensures { IfOk result (λ text. string_bytes text ≡ round_words round rounds) }
{
    Ok(format!(in alloc; "round {round} of {rounds}")?)
}
