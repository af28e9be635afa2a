//! Sheets as JSON (RFC 8259).
ghost use Rattle.std.specs.Prelude.{◌≡◌, ◌++◌, IfOk, OnOk};
ghost use Rattle.std.specs.List.{enumerate_from, flat_map};
ghost use Rattle.gs_sheets.specs.Sheets.{column_name, json_line, json_member, json_row, sheet_json, sheets_json};

use crate::csv::push_comma;
use crate::sheet::{Column, Row, Sheet, Value};
use crate::texts::push_json_value;
use std::alloc::{AllocError, Global};

/// Returns sheets as one JSON object. The object has a list for each sheet. Each list has an object for each row, on a line
/// of its own.
///
/// # Errors
/// `AllocError` if it runs out of memory.
pub fn sheets_json(alloc: Global, sheets: &[Sheet]) -> Result<Vec<u8>, AllocError>
    ensures { IfOk result (λ text. text.items ≡ sheets_json sheets.now) }
{
    let mut text = Vec::new(alloc);
    text.extend_from_slice(b"{")?;
    push_sheets(alloc, &mut text, sheets)?;
    text.extend_from_slice(b"\n}\n")?;
    Ok(text)
}

fn push_sheets(alloc: Global, text: &mut Vec<u8>, sheets: &[Sheet]) -> Result<(), AllocError>
    ensures { OnOk result (text.new.items ≡ text.old.items ++ flat_map sheet_json (enumerate_from 0 sheets.now)) }
{
    for (place, sheet) in sheets.iter().enumerate() {
        push_sheet(alloc, text, place, sheet)?;
    }
    Ok(())
}

fn push_sheet(
    alloc: Global,
    text: &mut Vec<u8>,
    place: usize,
    sheet: &Sheet,
) -> Result<(), AllocError>
    ensures { OnOk result (text.new.items ≡ text.old.items ++ sheet_json (place, sheet.now)) }
{
    push_comma(text, place)?;
    text.extend_from_slice(b"\n\"")?;
    text.extend_from_slice(sheet.name.as_slice())?;
    text.extend_from_slice(b"\":[")?;
    push_lines(alloc, text, sheet.columns.as_slice(), sheet.rows.as_slice())?;
    text.extend_from_slice(b"\n]")
}

fn push_lines(
    alloc: Global,
    text: &mut Vec<u8>,
    columns: &[Column],
    rows: &[Row],
) -> Result<(), AllocError>
    ensures { OnOk result (text.new.items
        ≡ text.old.items ++ flat_map (json_line columns.now) (enumerate_from 0 rows.now)) }
{
    for (place, row) in rows.iter().enumerate() {
        push_line(alloc, text, columns, place, row.as_slice())?;
    }
    Ok(())
}

fn push_line(
    alloc: Global,
    text: &mut Vec<u8>,
    columns: &[Column],
    place: usize,
    row: &[Value],
) -> Result<(), AllocError>
    ensures { OnOk result (text.new.items ≡ text.old.items ++ json_line columns.now (place, row.now)) }
{
    push_comma(text, place)?;
    text.extend_from_slice(b"\n")?;
    push_row(alloc, text, columns, row)
}

fn push_row(
    alloc: Global,
    text: &mut Vec<u8>,
    columns: &[Column],
    row: &[Value],
) -> Result<(), AllocError>
    ensures { OnOk result (text.new.items ≡ text.old.items ++ json_row columns.now row.now) }
{
    text.extend_from_slice(b"{")?;
    push_members(alloc, text, columns, row)?;
    text.extend_from_slice(b"}")
}

fn push_members(
    alloc: Global,
    text: &mut Vec<u8>,
    columns: &[Column],
    row: &[Value],
) -> Result<(), AllocError>
    ensures { OnOk result (text.new.items
        ≡ text.old.items ++ flat_map (json_member columns.now) (enumerate_from 0 row.now)) }
{
    for (place, value) in row.iter().enumerate() {
        push_member(alloc, text, columns, place, value)?;
    }
    Ok(())
}

/// Adds the name of the column at a place, and the value.
fn push_member(
    alloc: Global,
    text: &mut Vec<u8>,
    columns: &[Column],
    place: usize,
    value: &Value,
) -> Result<(), AllocError>
    ensures { OnOk result (text.new.items ≡ text.old.items ++ json_member columns.now (place, value.now)) }
{
    push_comma(text, place)?;
    text.extend_from_slice(b"\"")?;
    text.extend_from_slice(column_name(columns, place))?;
    text.extend_from_slice(b"\":")?;
    push_json_value(alloc, text, value)
}

/// The name of the column at a place.
fn column_name(columns: &[Column], place: usize) -> &[u8]
    ensures { result.now ≡ column_name columns.now place }
{
    match columns.get(place) {
        Some(column) => column.name.as_slice(),
        None => b"",
    }
}
