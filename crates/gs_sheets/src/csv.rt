//! Sheets as CSV (RFC 4180).
ghost use Rattle.std.specs.Prelude.{◌≡◌, ◌++◌, IfOk, OnOk};
ghost use Rattle.std.specs.List.{flat_map};
ghost use Rattle.gs_sheets.specs.Sheets.{between, comma, csv_columns, csv_row, sheet_csv, sheets_csv};

use crate::sheet::{Column, Row, Sheet, Value};
use crate::texts::push_csv_value;
use std::alloc::{AllocError, Global};

/// Returns sheets as CSV: each has a header and a line for each row. An empty line stands before each sheet except the
/// first.
///
/// # Errors
/// `AllocError` if it runs out of memory.
pub fn sheets_csv(alloc: Global, sheets: &[Sheet]) -> Result<Vec<u8>, AllocError>
    ensures { IfOk result (λ text. text.items ≡ sheets_csv sheets.now) }
{
    let mut text = Vec::new(alloc);
    for (place, sheet) in sheets.iter().enumerate() {
        push_between(&mut text, place)?;
        push_sheet(alloc, &mut text, sheet)?;
    }
    Ok(text)
}

/// Adds an empty line before a sheet that is not the first.
pub(crate) fn push_between(text: &mut Vec<u8>, place: usize) -> Result<(), AllocError>
    ensures { OnOk result (text.new.items ≡ text.old.items ++ between place) }
{
    if place == 0 {
        return Ok(());
    }
    text.extend_from_slice(b"\n")
}

/// Adds a comma before what is not the first.
pub(crate) fn push_comma(text: &mut Vec<u8>, place: usize) -> Result<(), AllocError>
    ensures { OnOk result (text.new.items ≡ text.old.items ++ comma place) }
{
    if place == 0 {
        return Ok(());
    }
    text.extend_from_slice(b",")
}

fn push_sheet(alloc: Global, text: &mut Vec<u8>, sheet: &Sheet) -> Result<(), AllocError>
    ensures { OnOk result (text.new.items ≡ text.old.items ++ sheet_csv sheet.now) }
{
    push_columns(text, sheet.columns.as_slice())?;
    push_rows(alloc, text, sheet.rows.as_slice())
}

fn push_columns(text: &mut Vec<u8>, columns: &[Column]) -> Result<(), AllocError>
    ensures { OnOk result (text.new.items ≡ text.old.items ++ csv_columns columns.now) }
{
    for (place, column) in columns.iter().enumerate() {
        push_comma(text, place)?;
        text.extend_from_slice(column.name.as_slice())?;
    }
    text.extend_from_slice(b"\n")
}

fn push_rows(alloc: Global, text: &mut Vec<u8>, rows: &[Row]) -> Result<(), AllocError>
    ensures { OnOk result (text.new.items ≡ text.old.items ++ flat_map csv_row rows.now) }
{
    for row in rows {
        push_row(alloc, text, row.as_slice())?;
    }
    Ok(())
}

fn push_row(alloc: Global, text: &mut Vec<u8>, row: &[Value]) -> Result<(), AllocError>
    ensures { OnOk result (text.new.items ≡ text.old.items ++ csv_row row.now) }
{
    for (place, value) in row.iter().enumerate() {
        push_comma(text, place)?;
        push_csv_value(alloc, text, value)?;
    }
    text.extend_from_slice(b"\n")
}
