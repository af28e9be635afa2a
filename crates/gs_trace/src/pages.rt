//! The page of a text: lines that wait to be written together.
ghost use Rattle.std.specs.Prelude.{◌≡◌, ◌<◌, ◌++◌, List, [], ℕ, OnErr, OnOk, length};
ghost use Rattle.std.specs.List.{flat_map};
ghost use Rattle.gs_streams.specs.Streams.{AppendsFront};
ghost use Rattle.gs_trace.specs.Pages.{Adds};
ghost use Rattle.gs_trace.specs.declared.turn.Turn.{Turn as TurnValue};

use crate::fault::TraceFault;
use crate::turn::Turn;
use gs_streams::{WriteFailed, write_text};
use std::alloc::AllocError;
use std::io::Write;

/// A page is written once it has this many bytes.
const PAGE_SIZE: usize = 65_536;

/// What a peer's turn has a line for.
pub(crate) trait Told {
    /// Its line, or nothing if that is not wanted.
    ghost line: { TurnValue → Self → List ℕ };

    /// Adds its line, if that is wanted. After an error the page may have a part of it.
    fn push(&self, turn: &Turn<'_>, page: &mut Vec<u8>) -> Result<(), AllocError>
        ensures { OnOk result (page.new.items ≡ page.old.items ++ line turn.now self.now) };
}

/// Adds the lines of these values, and writes the page each time it is full.
pub(crate) fn write_lines<T: Told, W: Write>(
    turn: &Turn<'_>,
    all: &[T],
    page: &mut Vec<u8>,
    output: &mut W,
) -> Result<(), TraceFault>
    ensures added { OnOk result (Adds (flat_map (T.line turn.now) all.now)
        page.old.items page.new.items (W.contents output.old) (W.contents output.new)) }
    ensures front { OnErr result (AppendsFront (W.contents output.old) (W.contents output.new)
        (page.old.items ++ flat_map (T.line turn.now) all.now)) }
{
    for told in all {
        told.push(turn, page)?;
        write_full(page, output)?;
    }
    Ok(())
}

/// Writes and clears a page that is full. A page is full if it has 65,536 bytes or more.
///
/// # Errors
/// `WriteFailed` if a write failed or took nothing. A front of the page has then been written.
pub fn write_full<W: Write>(page: &mut Vec<u8>, output: &mut W) -> Result<(), WriteFailed>
    ensures added { OnOk result (Adds [] page.old.items page.new.items (W.contents output.old) (W.contents output.new)) }
    ensures short { OnOk result (length page.new.items < 65_536) }
    ensures front { OnErr result (AppendsFront (W.contents output.old) (W.contents output.new) page.old.items) }
{
    if page.len() < PAGE_SIZE {
        return Ok(());
    }
    write_page(page, output)
}

/// Writes and clears a page.
///
/// # Errors
/// `WriteFailed` if a write failed or took nothing. A front of the page has then been written.
pub fn write_page<W: Write>(page: &mut Vec<u8>, output: &mut W) -> Result<(), WriteFailed>
    ensures added { OnOk result (Adds [] page.old.items page.new.items (W.contents output.old) (W.contents output.new)) }
    ensures clear { OnOk result (page.new.items ≡ []) }
    ensures front { OnErr result (AppendsFront (W.contents output.old) (W.contents output.new) page.old.items) }
{
    write_text(output, page)?;
    page.clear();
    Ok(())
}
