//! A flag that stops tasks: one word of a table, and evidence of what was found in it.
ghost use Rattle.std.specs.Prelude.{◌≡◌, IfOk, MatchResult, [], ◌∷◌, false, nat_eq, not, true};
ghost use Rattle.gs_workers.specs.Flags.{IsFlag};

use atomic_table::{Badge, Play, Table, TableRule};
use std::alloc::{AllocError, Global};
use std::fmt::{Debug, Error, Formatter, Write};
use std::marker::Model;

/// What holds of a flag between any two steps.
struct Rule;

impl TableRule<(), bool, ()> for Rule {
    ghost holds = { λ _ s. IsFlag s.words s.views };

    ghost first = { λ _. false };
}

/// A look finds the flag set where its word is not 0.
struct Look;

impl Play<(), bool> for Look {
    ghost then = { λ _ _ found after. after.0 ≡ not (nat_eq found 0) };
}

/// A setter of the flag knows that it is set.
struct Setting;

impl Play<(), bool> for Setting {
    ghost then = { λ _ _ _ after. after ≡ (true, []) };
}

/// A flag that stops tasks. Once it was set, it stays set. Contracts see which flag it is.
#[derive(Drop)]
pub struct StopFlag {
    table: Table<(), bool, (), Rule, Global>,
}

impl Model for StopFlag {
    ghost use Rattle.std.specs.Prelude.{◌≡◌};
    ghost use Rattle.gs_workers.specs.Flags.{FlagId};

    ghost Value = { FlagId };

    ghost view = { λ s. s.table.shared.table_id };

    ghost invariant = { λ s. s.table.shared.table_id.words ≡ 1 };
}

/// Evidence that a flag was set. Only `StopFlag::set` makes it. Contracts see which flag that is.
#[derive(Drop)]
pub struct Raised {
    badge: Badge<bool>,
}

impl Model for Raised {
    ghost use Rattle.std.specs.Prelude.{◌≡◌, [], ◌∷◌, true};
    ghost use Rattle.gs_workers.specs.Flags.{FlagId};

    ghost Value = { FlagId };

    ghost view = { λ s. s.badge.table_id };

    ghost invariant = { λ s. s.badge.views ≡ true ∷ [] };
}

impl Debug for Raised {
    fn fmt<W: Write>(&self, formatter: &mut Formatter<W>) -> Result<(), Error> {
        formatter.write_str("Raised")
    }
}

/// Evidence that a flag was found set, after somebody set it. Only `StopFlag::look` makes it. Contracts see which flag that is.
#[derive(Drop)]
pub struct FoundSet {
    badge: Badge<bool>,
}

impl Model for FoundSet {
    ghost use Rattle.std.specs.Prelude.{◌≡◌, [], ◌∷◌, true};
    ghost use Rattle.gs_workers.specs.Flags.{FlagId};

    ghost Value = { FlagId };

    ghost view = { λ s. s.badge.table_id };

    ghost invariant = { λ s. s.badge.views ≡ true ∷ [] };
}

impl Debug for FoundSet {
    fn fmt<W: Write>(&self, formatter: &mut Formatter<W>) -> Result<(), Error> {
        formatter.write_str("FoundSet")
    }
}

/// Evidence that a flag was checked before anybody set it. Contracts see which flag that is.
#[derive(Drop)]
pub struct FoundUnset {
    badge: Badge<bool>,
}

impl Model for FoundUnset {
    ghost use Rattle.std.specs.Prelude.{◌≡◌, [], ◌∷◌, false};
    ghost use Rattle.gs_workers.specs.Flags.{FlagId};

    ghost Value = { FlagId };

    ghost view = { λ s. s.badge.table_id };

    ghost invariant = { λ s. s.badge.views ≡ false ∷ [] };
}

impl Debug for FoundUnset {
    fn fmt<W: Write>(&self, formatter: &mut Formatter<W>) -> Result<(), Error> {
        formatter.write_str("FoundUnset")
    }
}

impl StopFlag {
    /// Creates a flag that is not set.
    ///
    /// # Errors
    /// `AllocError` if memory runs out.
    pub fn new(alloc: Global) -> Result<StopFlag, AllocError> {
        let (table, _seat) = Table::of_words(alloc, &[0], &())?;
        Ok(StopFlag { table })
    }

    /// Sets the flag, and returns evidence of that.
    pub fn set(&self) -> Raised
        ensures { result ≡ self.now }
    {
        let (_found, seat) = self.table.shared.swap_new_seat::<Setting>(0, 1);
        Raised {
            badge: seat.into_badge(),
        }
    }

    /// Checks whether the flag is set, and returns evidence of what it found.
    ///
    /// # Errors
    /// `FoundSet` if the flag is set.
    pub fn look(&self) -> Result<FoundUnset, FoundSet>
        ensures { MatchResult result (λ unset. unset ≡ self.now) (λ set. set ≡ self.now) }
    {
        let (found, seat) = self.table.shared.load_new_seat::<Look>(0);
        if found == 0 {
            return Ok(FoundUnset {
                badge: seat.into_badge(),
            });
        }
        Err(FoundSet {
            badge: seat.into_badge(),
        })
    }

    /// Says whether the flag is set.
    pub fn is_set(&self) -> bool {
        self.look().is_err()
    }
}
