//! How deep a document nests.
ghost use Rattle.std.specs.Prelude.{◌≡◌, nat_le};
ghost use Rattle.toml.specs.Data.{depth, items_depth, members_depth};
ghost use Rattle.toml.specs.View.{array_view, table_view, view};

use toml::value::Array;
use toml::{Table, Value};

/// Whether arrays and tables nest at most this deep in a value.
#[cycle(nesting)]
fn value_nests_within(value: &Value, limit: u32) -> bool
    ensures { result ≡ nat_le (depth (view value.now)) limit }
{
    match value {
        Value::Array(items) => limit > 0 && list_nests_within(items, limit - 1),
        Value::Table(members) => limit > 0 && table_nests_within(members, limit - 1),
        _ => true,
    }
}

#[cycle(nesting)]
fn list_nests_within(items: &Array, limit: u32) -> bool
    ensures { result ≡ nat_le (items_depth (array_view items.now)) limit }
{
    'items: for item in items {
        if !value_nests_within(item, limit) {
            return false;
        }
    }
    true
}

/// Whether arrays and tables nest at most this deep in the values of a table.
#[cycle(nesting)]
pub(crate) fn table_nests_within(table: &Table, limit: u32) -> bool
    ensures { result ≡ nat_le (members_depth (table_view table.now)) limit }
{
    'members: for (_key, member) in table.iter() {
        if !value_nests_within(member, limit) {
            return false;
        }
    }
    true
}
