ghost use Rattle.std.specs.Prelude.{◌≡◌, ◌++◌, ℕ, [], ◌∷◌, IfOk, OnOk, filter};
ghost use Rattle.gs_rules.specs.Rounds.{is_at};
ghost use Rattle.gs_player.specs.Agendas.{lines_at};

use gs_plan::Line;
use indexmap::IndexMap;
use std::alloc::{AllocError, Global};
use std::marker::Model;
use std::snapshot::Snapshot;

/// A peer's lines of a script, each with its place in the script, in file order. Contracts see that list. The lines are kept
/// by the rounds in which they are followed.
#[derive(Drop)]
pub struct Agenda {
    /// The lines by the number of the round, and in a round in file order.
    rounds: IndexMap<u64, Vec<(usize, Line)>>,
    /// All of them, for proofs only.
    all: Snapshot<Vec<(usize, Line)>>,
}

impl Model for Agenda {
    ghost use Rattle.std.specs.Prelude.{◌≡◌, ℕ, List, filter};
    ghost use Rattle.gs_plan.specs.declared.plan.Line.{Line as LineValue};
    ghost use Rattle.gs_rules.specs.Rounds.{is_at};
    ghost use Rattle.gs_player.specs.Agendas.{lines_at};

    ghost Value = { List (ℕ × LineValue) };

    ghost view = { λ s. s.all.value.items };

    ghost invariant = { λ s. (r : ℕ) → lines_at s.rounds r ≡ filter (is_at r) s.all.value.items };
}

impl Agenda {
    /// Creates the agenda of these lines. The lines of one round are followed in this order.
    ///
    /// # Errors
    /// `AllocError` if memory runs out.
    pub fn of(alloc: Global, lines: Vec<(usize, Line)>) -> Result<Agenda, AllocError>
        ensures { IfOk result (λ agenda. agenda ≡ lines.items) }
    {
        let all = Snapshot::of(&lines);
        let mut rounds = IndexMap::new(alloc);
        for line in lines {
            add(alloc, &mut rounds, line)?;
        }
        Ok(Agenda { rounds, all })
    }

    /// Returns the lines that are followed in a round, in file order.
    pub fn at(&self, round: u64) -> &[(usize, Line)]
        ensures { result.now ≡ filter (is_at round) self.now }
    {
        match self.rounds.get(&round) {
            Some(lines) => lines.as_slice(),
            None => &[],
        }
    }
}

/// Adds a line after those of its round.
fn add(
    alloc: Global,
    rounds: &mut IndexMap<u64, Vec<(usize, Line)>>,
    line: (usize, Line),
) -> Result<(), AllocError>
    ensures { OnOk result ((r : ℕ)
        → lines_at rounds.new r ≡ lines_at rounds.old r ++ filter (is_at r) (line ∷ [])) }
{
    let round = line.1.at;
    match rounds.get_mut(&round) {
        Some(lines) => {
            lines.push(line)?;
            Ok(())
        }
        None => {
            let lines = vec![in alloc; line]?;
            rounds.insert(round, lines)?;
            Ok(())
        }
    }
}
