//! A document with the value of each argument at its key.
ghost use Rattle.std.specs.Prelude.{◌≡◌, map, string_bytes};
ghost use Rattle.toml.specs.View.{table_view};
ghost use Rattle.gs_edit.specs.Edits.{edited, edited_by};
ghost use Rattle.toml.specs.Errors.{IsMemory};
ghost use Rattle.gs_edit.specs.Endings.{Gives, no_place};

use crate::keys::{is_key, key_and_value};
use crate::places::{PlaceFault, set_in_table};
use std::alloc::Global;
use toml::de::Error;
use toml::{Table, Value};

/// Why an argument can't be followed. A number counts the arguments from 1.
#[derive(Clone, Copy, Debug, PartialEq, Eq)]
pub enum EditFault {
    /// The key of this argument is empty, or a part of it is no name.
    NoKey(usize),
    /// The value of this argument is no TOML.
    NoValue(usize),
    /// The key of this argument goes through what is neither a table nor an element of a list.
    NoTable(usize),
}

/// Why a scenario can't be changed in the way that the arguments ask for.
#[derive(Clone, Copy, Debug, PartialEq, Eq)]
pub enum Refusal {
    /// The scenario is longer than it may be.
    TooLong,
    /// The scenario is no TOML.
    NoToml,
    /// An argument can't be followed.
    Edit(EditFault),
    /// The changed scenario can't be written: it nests too deep, or holds an invalid date.
    NotWritable,
}

impl From<EditFault> for NoChange {
    ghost use Rattle.gs_edit.specs.declared.edits.NoChange.TheVariants.{Refused};
    ghost use Rattle.gs_edit.specs.declared.edits.Refusal.TheVariants.{Edit};

    ghost from_gives = { λ fault cause. cause ≡ Refused (Edit fault) };

    fn from(fault: EditFault) -> NoChange {
        NoChange::Refused(Refusal::Edit(fault))
    }
}

/// Why there is no text of a changed scenario.
#[derive(Clone, Copy, Debug, PartialEq, Eq)]
pub enum NoChange {
    /// The scenario can't be changed in the way that the arguments ask for.
    Refused(Refusal),
    /// A read of the input failed, or the input had not ended after `MOST_READS` reads.
    InputFailed,
    /// Out of memory.
    NoMemory,
}

/// Sets in a table, for each argument in turn, the argument's key to its value.
///
/// # Errors
/// `Refused` with the first refusal, and `NoMemory`. The table may then hold a placeholder.
pub(crate) fn edit_all(
    alloc: Global,
    table: &mut Table,
    arguments: &[String],
) -> Result<(), NoChange>
    ensures { Gives (λ _. table_view table.new) result (edited 1 (map string_bytes arguments.now) (table_view table.old)) }
{
    for number in 0..arguments.len() {
        edit_by(alloc, table, number + 1, &arguments[number])?;
    }
    Ok(())
}

/// Sets the key of the argument with this number to the argument's value.
#[tactic(auto, unfolding(crate::specs::Edits::edited_by))]
fn edit_by(alloc: Global, table: &mut Table, number: usize, argument: &str) -> Result<(), NoChange>
    ensures { Gives (λ _. table_view table.new) result (edited_by number argument.now (table_view table.old)) }
{
    let (key, text) = key_and_value(argument);
    if !is_key(key) {
        return Err(EditFault::NoKey(number).into());
    }
    let value = match Value::from_str(alloc, text) {
        Ok(value) => value,
        Err(fault) => return Err(no_value(&fault, number)),
    };
    match set_in_table(alloc, table, key, value) {
        Ok(()) => Ok(()),
        Err(fault) => Err(no_place(fault, number)),
    }
}

/// Why there is no change where the value of the argument with this number can't be read.
fn no_value(fault: &Error, number: usize) -> NoChange
    ensures memory { IsMemory fault.now → result ≡ NoChange.NoMemory }
    ensures other { ¬ IsMemory fault.now → result ≡ NoChange.Refused (Refusal.Edit (EditFault.NoValue number)) }
{
    if fault.is_memory() {
        return NoChange::NoMemory;
    }
    EditFault::NoValue(number).into()
}

/// Why the key of the argument with this number can't be set.
fn no_place(fault: PlaceFault, number: usize) -> NoChange
    ensures { result ≡ no_place number fault }
{
    match fault {
        PlaceFault::NoTable => EditFault::NoTable(number).into(),
        PlaceFault::NoMemory => NoChange::NoMemory,
    }
}
