//! The table next to the chart where peers have no names: how many pairs of a message and a subscriber were reached
//! within some numbers of rounds.
ghost use Rattle.std.specs.Prelude.{◌≡◌, ◌++◌, OnOk};
ghost use Rattle.gs_picture.specs.Table.{down, percent, row_bar, row_limit, row_reached, row_text, rows_text, table_head, table_of, table_text};

use crate::pen::push_number;
use crate::pieces::{Part, Piece, push_part, push_piece};
use gs_reach::{Distribution, Pair, Within, distribution_of};
use std::alloc::{AllocError, Global};

/// Adds the table of these pairs, unless peers have names.
pub(crate) fn push_table(
    alloc: Global,
    text: &mut Vec<u8>,
    named: bool,
    pairs: &[Pair],
) -> Result<(), AllocError>
    ensures { OnOk result (text.new.items ≡ text.old.items ++ table_text named pairs.now) }
{
    if named {
        return Ok(());
    }
    let distribution = distribution_of(alloc, pairs)?;
    let pushed = push_distribution(alloc, text, &distribution);
    drop(distribution);
    pushed
}

fn push_distribution(
    alloc: Global,
    text: &mut Vec<u8>,
    distribution: &Distribution,
) -> Result<(), AllocError>
    ensures { OnOk result (text.new.items ≡ text.old.items ++ table_of distribution.now) }
{
    push_head(alloc, text, distribution.within.len())?;
    push_rows(
        alloc,
        text,
        distribution.pairs,
        distribution.within.as_slice(),
    )
}

/// Adds what stands above this many rows.
fn push_head(alloc: Global, text: &mut Vec<u8>, rows: usize) -> Result<(), AllocError>
    ensures { OnOk result (text.new.items ≡ text.old.items ++ table_head rows) }
{
    push_part(text, Part::TableHead)?;
    push_number(alloc, text, down(rows).saturating_sub(4))?;
    push_part(text, Part::TableHeadEnds)
}

/// Adds these rows. It recurses once for each row.
fn push_rows(
    alloc: Global,
    text: &mut Vec<u8>,
    count: u64,
    rows: &[Within],
) -> Result<(), AllocError>
    ensures { OnOk result (text.new.items ≡ text.old.items ++ rows_text count rows.now) }
{
    match rows {
        [] => Ok(()),
        [first, rest @ ..] => {
            push_row(alloc, text, count, down(rest.len()), *first)?;
            push_rows(alloc, text, count, rest)
        }
    }
}

/// Adds the row of a number of rounds, so far from the top.
fn push_row(
    alloc: Global,
    text: &mut Vec<u8>,
    count: u64,
    y: u128,
    row: Within,
) -> Result<(), AllocError>
    ensures { OnOk result (text.new.items ≡ text.old.items ++ row_text count y row) }
{
    let share = percent(count, row.reached);
    push_limit(alloc, text, y, row.limit)?;
    push_bar(alloc, text, y, share)?;
    push_reached(alloc, text, y, row.reached, share)
}

/// Begins a row with its number of rounds.
fn push_limit(alloc: Global, text: &mut Vec<u8>, y: u128, limit: u64) -> Result<(), AllocError>
    ensures { OnOk result (text.new.items ≡ text.old.items ++ row_limit y limit) }
{
    push_part(text, Part::RowBegins)?;
    push_number(alloc, text, y)?;
    push_piece(text, Piece::TagEnds)?;
    push_number(alloc, text, u128::from(limit))
}

/// Adds a bar of one unit for each percent.
fn push_bar(alloc: Global, text: &mut Vec<u8>, y: u128, share: u128) -> Result<(), AllocError>
    ensures { OnOk result (text.new.items ≡ text.old.items ++ row_bar y share) }
{
    push_part(text, Part::RowBar)?;
    push_number(alloc, text, y.saturating_sub(4))?;
    push_part(text, Part::RowBarTo)?;
    push_number(alloc, text, share)
}

/// Ends a row with how many pairs were reached, and how many percent they are.
fn push_reached(
    alloc: Global,
    text: &mut Vec<u8>,
    y: u128,
    reached: u64,
    share: u128,
) -> Result<(), AllocError>
    ensures { OnOk result (text.new.items ≡ text.old.items ++ row_reached y reached share) }
{
    push_part(text, Part::RowReached)?;
    push_number(alloc, text, y)?;
    push_piece(text, Piece::TagEnds)?;
    push_number(alloc, text, u128::from(reached))?;
    push_part(text, Part::RowShare)?;
    push_number(alloc, text, share)?;
    push_part(text, Part::RowEnds)
}

/// How far from the top a row stands that has this many rows below it.
fn down(below: usize) -> u128
    ensures { result ≡ down below }
{
    936u128.saturating_sub(15 * below as u128)
}

/// How many percent of `count` these are, rounded down.
fn percent(count: u64, part: u64) -> u128
    ensures { result ≡ percent count part }
{
    100 * u128::from(part) / u128::from(count).max(1)
}
