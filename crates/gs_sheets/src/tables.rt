//! Sheets as tables that a person reads.
ghost use Rattle.std.specs.Prelude.{◌≡◌, ◌++◌, IfOk, OnOk, map};
ghost use Rattle.gs_sheets.specs.Sheets.{placed_table, sheet_table, sheets_table, table_header, table_of, table_row};
ghost use Rattle.gs_sheets.specs.Texts.{table_value};

use crate::csv::push_between;
use crate::sheet::{Column, Row as Values, Sheet, Value, bytes_of};
use crate::table::{Cell, Row, push_table};
use crate::texts::push_table_value;
use gs_base::Seq;
use std::alloc::{AllocError, Global};

/// Returns sheets as tables for a person, each under its title. An empty line stands before each table except the first.
/// Names stand to the left and numbers to the right, with two spaces or more between columns. A sheet without rows has the
/// line `none`.
///
/// # Errors
/// `AllocError` if it runs out of memory.
pub fn sheets_table(alloc: Global, sheets: &[Sheet]) -> Result<Vec<u8>, AllocError>
    ensures { IfOk result (λ text. text.items ≡ sheets_table sheets.now) }
{
    let mut text = Vec::new(alloc);
    for (place, sheet) in sheets.iter().enumerate() {
        push_placed(alloc, &mut text, place, sheet)?;
    }
    Ok(text)
}

/// Adds a table at its place among others.
#[tactic(auto, unfolding(crate::specs::Sheets::placed_table))]
fn push_placed(
    alloc: Global,
    text: &mut Vec<u8>,
    place: usize,
    sheet: &Sheet,
) -> Result<(), AllocError>
    ensures { OnOk result (text.new.items ≡ text.old.items ++ placed_table (place, sheet.now)) }
{
    push_between(text, place)?;
    push_sheet(alloc, text, sheet)
}

fn push_sheet(alloc: Global, text: &mut Vec<u8>, sheet: &Sheet) -> Result<(), AllocError>
    ensures { OnOk result (text.new.items ≡ text.old.items ++ sheet_table sheet.now) }
{
    text.extend_from_slice(sheet.title.as_slice())?;
    text.extend_from_slice(b"\n")?;
    push_rows(alloc, text, sheet)
}

fn push_rows(alloc: Global, text: &mut Vec<u8>, sheet: &Sheet) -> Result<(), AllocError>
    ensures { OnOk result (text.new.items ≡ text.old.items ++ table_of sheet.now) }
{
    if sheet.rows.is_empty() {
        return text.extend_from_slice(b"none\n");
    }
    let mut rows = Seq::only(alloc, header(alloc, sheet.columns.as_slice())?)?;
    list_rows(alloc, &mut rows, sheet.rows.as_slice())?;
    push_table(alloc, text, sheet.names, rows.as_slice())
}

fn header(alloc: Global, columns: &[Column]) -> Result<Row, AllocError>
    ensures { IfOk result (λ row. row ≡ table_header columns.now) }
{
    let mut row = Seq::new(alloc);
    for column in columns {
        row.push(bytes_of(alloc, column.header.as_slice())?)?;
    }
    Ok(row)
}

fn list_rows(alloc: Global, list: &mut Seq<Row>, rows: &[Values]) -> Result<(), AllocError>
    ensures { OnOk result (list.new ≡ list.old ++ map table_row rows.now) }
{
    for row in rows {
        list.push(cells_of(alloc, row.as_slice())?)?;
    }
    Ok(())
}

fn cells_of(alloc: Global, values: &[Value]) -> Result<Row, AllocError>
    ensures { IfOk result (λ row. row ≡ table_row values.now) }
{
    let mut row = Seq::new(alloc);
    for value in values {
        row.push(cell_of(alloc, value)?)?;
    }
    Ok(row)
}

fn cell_of(alloc: Global, value: &Value) -> Result<Cell, AllocError>
    ensures { IfOk result (λ cell. cell ≡ table_value value.now) }
{
    let mut cell = Vec::new(alloc);
    push_table_value(alloc, &mut cell, value)?;
    Ok(Seq::from(cell))
}
