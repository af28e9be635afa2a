//! Setting a value at a path below a table.
ghost use Rattle.std.specs.Prelude.{◌≡◌};
ghost use Rattle.toml.specs.View.{array_view, table_view, view};
ghost use Rattle.gs_edit.specs.Documents.{with_item, with_key, with_path};
ghost use Rattle.gs_edit.specs.Keys.{path_of};
ghost use Rattle.gs_edit.specs.Sets.{Sets};
ghost use Rattle.gs_edit.specs.Rest.{rest_of};

use crate::keys::{first_part, number_of};
use std::alloc::{AllocError, AllocFailed, Global};
use std::mem;
use toml::map::Map;
use toml::value::Array;
use toml::{Table, Value};

/// Why a value can't be set.
#[derive(Clone, Copy, Debug, PartialEq, Eq)]
pub(crate) enum PlaceFault {
    /// The path goes through what is neither a table nor an element of a list.
    NoTable,
    /// Out of memory.
    NoMemory,
}

impl From<AllocError> for PlaceFault {
    ghost use Rattle.gs_edit.specs.declared.places.PlaceFault.TheVariants.{NoMemory};

    ghost from_gives = { λ _ fault. fault ≡ NoMemory };

    fn from(_error: AllocError) -> PlaceFault {
        PlaceFault::NoMemory
    }
}

impl<T: Drop> From<AllocFailed<T>> for PlaceFault {
    ghost use Rattle.gs_edit.specs.declared.places.PlaceFault.TheVariants.{NoMemory};

    ghost from_gives = { λ _ fault. fault ≡ NoMemory };

    fn from(_error: AllocFailed<T>) -> PlaceFault {
        PlaceFault::NoMemory
    }
}

/// Sets a value in a table at a key. A table that the key goes through is made where it is absent.
///
/// # Errors
/// `NoTable` where the key goes through what is neither a table nor an element of a list, and `NoMemory`. The table may then
/// hold a placeholder.
#[cycle(set_in_table)]
pub(crate) fn set_in_table(
    alloc: Global,
    table: &mut Table,
    key: &str,
    value: Value,
) -> Result<(), PlaceFault>
    ensures { Sets (λ _. table_view table.new) result (with_key (path_of key.now) (view value) (table_view table.old)) }
{
    let (part, rest) = first_part(key);
    match table.get_mut(part) {
        Some(slot) => {
            let held = take(slot);
            *slot = with_rest(alloc, held, rest, value)?;
            Ok(())
        }
        None => {
            let made = with_rest(alloc, Value::Table(Map::new(alloc)), rest, value)?;
            table.insert(String::from_str(alloc, part)?, made)?;
            Ok(())
        }
    }
}

/// What a place holds with a value set at the end of a path below it.
#[cycle(set_in_table)]
fn with_rest(
    alloc: Global,
    held: Value,
    rest: Option<&str>,
    value: Value,
) -> Result<Value, PlaceFault>
    ensures { Sets view result (with_path (rest_of rest.entry) (view value) (view held)) }
{
    let Some(key) = rest else {
        return Ok(value);
    };
    match held {
        Value::Table(mut table) => {
            set_in_table(alloc, &mut table, key, value)?;
            Ok(Value::Table(table))
        }
        Value::Array(mut items) => {
            set_in_list(alloc, &mut items, key, value)?;
            Ok(Value::Array(items))
        }
        _ => Err(PlaceFault::NoTable),
    }
}

/// Sets a value below the element of a list that the first part of a key numbers.
#[cycle(set_in_table)]
fn set_in_list(alloc: Global, items: &mut Array, key: &str, value: Value) -> Result<(), PlaceFault>
    ensures { Sets (λ _. array_view items.new) result (with_item (path_of key.now) (view value) (array_view items.old)) }
{
    let (part, rest) = first_part(key);
    let Some(place) = number_of(part) else {
        return Err(PlaceFault::NoTable);
    };
    if place >= items.len() {
        return Err(PlaceFault::NoTable);
    }
    let held = take(&mut items[place]);
    items[place] = with_rest(alloc, held, rest, value)?;
    Ok(())
}

/// Moves a value out, to be changed and put back.
fn take(value: &mut Value) -> Value
    ensures { result ≡ value.old }
{
    mem::replace(value, Value::Boolean(false))
}
