//! The small parts of a picture's text.
ghost use Rattle.std.specs.Prelude.{◌≡◌, ◌++◌, decimal, OnOk};
ghost use Rattle.gs_figure_sheets.specs.Choices.{spelled};
ghost use Rattle.gs_picture.specs.Texts.{among_text, escaped, escaped_all, place_text, shortened, unmarked};

use crate::places::Point;
use gs_figure_sheets::Choice;
use std::alloc::{AllocError, Global};

/// Adds words as they are.
pub(crate) fn push(text: &mut Vec<u8>, words: &str) -> Result<(), AllocError>
    ensures { OnOk result (text.new.items ≡ text.old.items ++ words.now) }
{
    text.extend_from_slice(words.as_bytes())
}

/// Adds a number in decimal digits.
pub(crate) fn push_number(alloc: Global, text: &mut Vec<u8>, number: u128) -> Result<(), AllocError>
    ensures { OnOk result (text.new.items ≡ text.old.items ++ decimal number) }
{
    let digits = format!(in alloc; "{number}")?;
    text.extend_from_slice(digits.as_bytes())
}

/// Adds how far a place is from the left, and how far from above.
pub(crate) fn push_place(alloc: Global, text: &mut Vec<u8>, place: Point) -> Result<(), AllocError>
    ensures { OnOk result (text.new.items ≡ text.old.items ++ place_text place) }
{
    push_number(alloc, text, place.x)?;
    push(text, " ")?;
    push_number(alloc, text, place.y)
}

/// Adds a name, so that it is a text of XML whatever bytes it has.
pub(crate) fn push_name(alloc: Global, text: &mut Vec<u8>, name: &[u8]) -> Result<(), AllocError>
    ensures { OnOk result (text.new.items ≡ text.old.items ++ escaped_all name.now) }
{
    for byte in name {
        push_escaped(alloc, text, *byte)?;
    }
    Ok(())
}

fn push_escaped(alloc: Global, text: &mut Vec<u8>, byte: u8) -> Result<(), AllocError>
    ensures { OnOk result (text.new.items ≡ text.old.items ++ escaped byte) }
{
    match byte {
        b'&' => push(text, "&amp;"),
        b'<' => push(text, "&lt;"),
        b'>' => push(text, "&gt;"),
        b'"' => push(text, "&quot;"),
        b'\'' => push(text, "&apos;"),
        _ => push_other(alloc, text, byte),
    }
}

/// Adds a byte that neither begins markup nor ends a value.
fn push_other(alloc: Global, text: &mut Vec<u8>, byte: u8) -> Result<(), AllocError>
    ensures { OnOk result (text.new.items ≡ text.old.items ++ unmarked byte) }
{
    if byte < 32 || 126 < byte {
        let digits = hex::encode(alloc, &[byte])?;
        push(text, "\\x")?;
        return text.extend_from_slice(digits.as_bytes());
    }
    text.extend_from_slice(&[byte])
}

/// Adds which peers count, by their names, where not all do.
pub(crate) fn push_among(
    alloc: Global,
    text: &mut Vec<u8>,
    of: Choice<'_>,
) -> Result<(), AllocError>
    ensures { OnOk result (text.new.items ≡ text.old.items ++ among_text (spelled of.entry)) }
{
    match of {
        Choice::Any => Ok(()),
        Choice::Named(names) => {
            push(text, " among ")?;
            push_shortened(alloc, text, names.as_bytes())
        }
    }
}

/// Adds names, or a front of them where they are many.
fn push_shortened(alloc: Global, text: &mut Vec<u8>, names: &[u8]) -> Result<(), AllocError>
    ensures { OnOk result (text.new.items ≡ text.old.items ++ shortened names.now) }
{
    if names.len() <= 32 {
        return push_name(alloc, text, names);
    }
    push_name(alloc, text, &names[..32])?;
    push(text, "..")
}
