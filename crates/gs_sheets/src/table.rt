//! Tables of texts, in columns that a person reads.
ghost use Rattle.std.specs.Prelude.{◌≡◌, ◌++◌, ◌∷◌, [], ◌+◌, ◌==◌, length, IfOk, OnOk};
ghost use Rattle.std.specs.List.{flat_map};
ghost use Rattle.gs_sheets.specs.Tables.{cell_text, cell_width, gap, row_text, spaces, table_text, to_the_left, to_the_right, width_at, width_of, widths};

use gs_base::Seq;
use std::alloc::{AllocError, Global};

/// A text of ASCII in a table. Its width is its number of bytes.
pub(crate) type Cell = Seq<u8>;

/// The cells of a line of a table.
pub(crate) type Row = Seq<Cell>;

/// How a table is laid out.
#[derive(Debug, Drop)]
struct Layout {
    /// The width of each column, in bytes.
    widths: Seq<usize>,
    /// How many columns are of names, which stand to the left. They come first.
    names: usize,
}

impl Layout {
    /// The width of a column, in bytes.
    fn width_at(&self, column: usize) -> usize
        ensures { result ≡ width_at self.now column }
    {
        match self.widths.as_slice().get(column) {
            Some(width) => *width,
            None => 0,
        }
    }
}

/// A place in a line of a table.
#[derive(Clone, Copy, Debug)]
struct Place {
    column: usize,
    /// Whether it is the last one of its line.
    is_last: bool,
}

/// Adds a table. The first row is its header, and the first `names` columns stand to the left.
///
/// # Errors
/// `AllocError` if it runs out of memory.
pub(crate) fn push_table(
    alloc: Global,
    text: &mut Vec<u8>,
    names: usize,
    rows: &[Row],
) -> Result<(), AllocError>
    ensures { OnOk result (text.new.items ≡ text.old.items ++ table_text names rows.now) }
{
    match rows {
        [] => Ok(()),
        [header, ..] => {
            let layout = Layout {
                widths: widths(alloc, header.as_slice(), rows)?,
                names,
            };
            push_rows(alloc, text, &layout, rows)
        }
    }
}

/// The widths of the columns of a header.
fn widths(alloc: Global, header: &[Cell], rows: &[Row]) -> Result<Seq<usize>, AllocError>
    ensures { IfOk result (λ list. list ≡ widths header.now rows.now) }
{
    let mut list = Seq::new(alloc);
    for (column, _) in header.iter().enumerate() {
        list.push(width_of(rows, column))?;
    }
    Ok(list)
}

fn width_of(rows: &[Row], column: usize) -> usize
    ensures { result ≡ width_of rows.now column }
{
    let mut width = 0;
    for row in rows {
        width = width.max(cell_width(row.as_slice(), column));
    }
    width
}

fn cell_width(row: &[Cell], column: usize) -> usize
    ensures { result ≡ cell_width column row.now }
{
    match row.get(column) {
        Some(cell) => cell.len(),
        None => 0,
    }
}

fn push_rows(
    alloc: Global,
    text: &mut Vec<u8>,
    layout: &Layout,
    rows: &[Row],
) -> Result<(), AllocError>
    ensures { OnOk result (text.new.items ≡ text.old.items ++ flat_map (row_text layout.now) rows.now) }
{
    for row in rows {
        push_row(alloc, text, layout, row.as_slice())?;
    }
    Ok(())
}

fn push_row(
    alloc: Global,
    text: &mut Vec<u8>,
    layout: &Layout,
    row: &[Cell],
) -> Result<(), AllocError>
    ensures { OnOk result (text.new.items ≡ text.old.items ++ row_text layout.now row.now) }
{
    for (column, cell) in row.iter().enumerate() {
        let place = Place {
            column,
            is_last: column + 1 == row.len(),
        };
        push_cell(alloc, text, layout, place, cell.as_slice())?;
    }
    text.extend_from_slice(b"\n")
}

/// Adds a cell at its place in a line.
fn push_cell(
    alloc: Global,
    text: &mut Vec<u8>,
    layout: &Layout,
    place: Place,
    cell: &[u8],
) -> Result<(), AllocError>
    ensures { OnOk result (text.new.items ≡ text.old.items ++ cell_text layout.now place cell.now) }
{
    let width = layout.width_at(place.column);
    push_gap(text, place.column)?;
    if place.column < layout.names {
        return push_left(alloc, text, width, place.is_last, cell);
    }
    push_right(alloc, text, width, cell)
}

fn push_gap(text: &mut Vec<u8>, column: usize) -> Result<(), AllocError>
    ensures { OnOk result (text.new.items ≡ text.old.items ++ gap column) }
{
    if column == 0 {
        return Ok(());
    }
    text.extend_from_slice(b"  ")
}

fn push_left(
    alloc: Global,
    text: &mut Vec<u8>,
    width: usize,
    is_last: bool,
    cell: &[u8],
) -> Result<(), AllocError>
    ensures { OnOk result (text.new.items ≡ text.old.items ++ to_the_left width is_last cell.now) }
{
    text.extend_from_slice(cell)?;
    if is_last {
        return Ok(());
    }
    push_spaces(alloc, text, width.saturating_sub(cell.len()))
}

fn push_right(
    alloc: Global,
    text: &mut Vec<u8>,
    width: usize,
    cell: &[u8],
) -> Result<(), AllocError>
    ensures { OnOk result (text.new.items ≡ text.old.items ++ to_the_right width cell.now) }
{
    push_spaces(alloc, text, width.saturating_sub(cell.len()))?;
    text.extend_from_slice(cell)
}

fn push_spaces(alloc: Global, text: &mut Vec<u8>, count: usize) -> Result<(), AllocError>
    ensures { OnOk result (text.new.items ≡ text.old.items ++ spaces count) }
{
    let blank = " ".repeat(alloc, count)?;
    text.extend_from_slice(blank.as_bytes())
}
