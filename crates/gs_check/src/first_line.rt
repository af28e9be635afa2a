//! The first line of a refusal.
ghost use Rattle.std.specs.Prelude.{◌≡◌, ◌++◌, IfOk, List, OnOk, codes, true, ℕ};
ghost use Rattle.std.specs.List.{list_all};
ghost use Rattle.gs_check.specs.FirstLine.{first_line, is_control, is_plain, shown, shown_byte};

use gs_scenario::ScenarioFault;
use std::alloc::{AllocError, Global};

/// Returns the first line of a refusal: its number, and its place where it has one. The byte of a control character is shown
/// in hexadecimal digits, such as `\x0a`. All other bytes are those of the scenario.
pub fn first_line(alloc: Global, fault: &ScenarioFault) -> Result<Vec<u8>, AllocError>
    ensures { IfOk result (λ line. line.items ≡ first_line fault.now ++ codes "\n") }
{
    let number = fault.number();
    let mut line = format!(in alloc; "{number}")?.into_bytes();
    if let Some(place) = fault.place() {
        line.push(b' ')?;
        push_shown(alloc, &mut line, place.as_str().as_bytes())?;
    }
    line.push(b'\n')?;
    Ok(line)
}

/// Adds a text's bytes as they are shown.
fn push_shown(alloc: Global, line: &mut Vec<u8>, text: &[u8]) -> Result<(), AllocError>
    ensures { OnOk result (line.new.items ≡ line.old.items ++ shown text.now) }
{
    for byte in text {
        push_byte(alloc, line, *byte)?;
    }
    Ok(())
}

/// Adds a byte as it is shown.
fn push_byte(alloc: Global, line: &mut Vec<u8>, byte: u8) -> Result<(), AllocError>
    ensures { OnOk result (line.new.items ≡ line.old.items ++ shown_byte byte) }
{
    if is_control(byte) {
        line.extend_from_slice(b"\\x")?;
        line.extend_from_slice(hex::encode(alloc, [byte].as_slice())?.as_bytes())
    } else {
        Ok(line.push(byte)?)
    }
}

/// Says whether a byte is a control character.
fn is_control(byte: u8) -> bool
    ensures { result ≡ is_control byte }
{
    byte < 32 || byte == 127
}

/// A place without control characters is shown unchanged.
pub fn plain_places_are_shown_as_they_stand()
    ensures { (text : List ℕ) → list_all is_plain text ≡ true → shown text ≡ text }
{}
