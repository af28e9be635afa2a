//! The texts of values.
ghost use Rattle.std.specs.Prelude.{◌≡◌, ◌<◌, ◌++◌, OnOk, codes, decimal};
ghost use Rattle.std.specs.List.{flat_map};
ghost use Rattle.hex.specs.Hex.{encode_lower};
ghost use Rattle.gs_report.specs.Text.{digit};
ghost use Rattle.gs_sheets.specs.Texts.{csv_value, escaped, json_value, plain_name, printable, quoted, share_text, short_payload, signed, table_value};

use crate::sheet::Value;
use gs_report::push_millionths;
use std::alloc::{AllocError, Global};

/// Adds a value as it stands in CSV.
pub(crate) fn push_csv_value(
    alloc: Global,
    text: &mut Vec<u8>,
    value: &Value,
) -> Result<(), AllocError>
    ensures { OnOk result (text.new.items ≡ text.old.items ++ csv_value value.now) }
{
    match value {
        Value::Name(name) => push_quoted(alloc, text, name.as_slice()),
        Value::Payload(payload) => push_quoted_hex(alloc, text, payload.as_slice()),
        Value::Count(number) => push_count(alloc, text, *number),
        Value::Whole(number) => push_signed(alloc, text, *number),
        Value::Score(millionths) => push_millionths(alloc, text, *millionths),
        Value::Share(share) => push_share(alloc, text, *share),
        Value::Missing => Ok(()),
    }
}

/// Adds a value as it stands in JSON.
pub(crate) fn push_json_value(
    alloc: Global,
    text: &mut Vec<u8>,
    value: &Value,
) -> Result<(), AllocError>
    ensures { OnOk result (text.new.items ≡ text.old.items ++ json_value value.now) }
{
    match value {
        Value::Name(name) => push_quoted(alloc, text, name.as_slice()),
        Value::Payload(payload) => push_quoted_hex(alloc, text, payload.as_slice()),
        Value::Count(number) => push_count(alloc, text, *number),
        Value::Whole(number) => push_signed(alloc, text, *number),
        Value::Score(millionths) => push_millionths(alloc, text, *millionths),
        Value::Share(share) => push_share(alloc, text, *share),
        Value::Missing => text.extend_from_slice(b"null"),
    }
}

/// Adds a value as it stands in a table for a person.
pub(crate) fn push_table_value(
    alloc: Global,
    text: &mut Vec<u8>,
    value: &Value,
) -> Result<(), AllocError>
    ensures { OnOk result (text.new.items ≡ text.old.items ++ table_value value.now) }
{
    match value {
        Value::Name(name) => push_plain(alloc, text, name.as_slice()),
        Value::Payload(payload) => push_short(alloc, text, payload.as_slice()),
        Value::Count(number) => push_count(alloc, text, *number),
        Value::Whole(number) => push_signed(alloc, text, *number),
        Value::Score(millionths) => push_millionths(alloc, text, *millionths),
        Value::Share(share) => push_share(alloc, text, *share),
        Value::Missing => text.extend_from_slice(b"-"),
    }
}

fn push_count(alloc: Global, text: &mut Vec<u8>, number: u64) -> Result<(), AllocError>
    ensures { OnOk result (text.new.items ≡ text.old.items ++ decimal number) }
{
    let digits = format!(in alloc; "{number}")?;
    text.extend_from_slice(digits.as_bytes())
}

fn push_signed(alloc: Global, text: &mut Vec<u8>, number: i128) -> Result<(), AllocError>
    ensures { OnOk result (text.new.items ≡ text.old.items ++ signed number) }
{
    let size = number.unsigned_abs();
    let digits = if number < 0 {
        format!(in alloc; "-{size}")?
    } else {
        format!(in alloc; "{size}")?
    };
    text.extend_from_slice(digits.as_bytes())
}

/// Adds hundredths of a per cent.
fn push_share(alloc: Global, text: &mut Vec<u8>, share: u64) -> Result<(), AllocError>
    ensures { OnOk result (text.new.items ≡ text.old.items ++ share_text share) }
{
    let whole = share / 100;
    let front = format!(in alloc; "{whole}.")?;
    text.extend_from_slice(front.as_bytes())?;
    text.extend_from_slice(&[digit(share, 10), digit(share, 1)])
}

/// The digit of a number at the place of a power of ten.
fn digit(number: u64, power: u64) -> u8
    requires { 0 < power }
    ensures { result ≡ digit number power }
{
    (number / power % 10) as u8 + b'0'
}

fn push_quoted_hex(alloc: Global, text: &mut Vec<u8>, bytes: &[u8]) -> Result<(), AllocError>
    ensures { OnOk result (text.new.items ≡ text.old.items ++ codes "\"" ++ encode_lower bytes.now ++ codes "\"") }
{
    let digits = hex::encode(alloc, bytes)?;
    text.extend_from_slice(b"\"")?;
    text.extend_from_slice(digits.as_bytes())?;
    text.extend_from_slice(b"\"")
}

fn push_quoted(alloc: Global, text: &mut Vec<u8>, name: &[u8]) -> Result<(), AllocError>
    ensures { OnOk result (text.new.items ≡ text.old.items ++ quoted name.now) }
{
    text.extend_from_slice(b"\"")?;
    push_escaped_all(alloc, text, name)?;
    text.extend_from_slice(b"\"")
}

fn push_escaped_all(alloc: Global, text: &mut Vec<u8>, name: &[u8]) -> Result<(), AllocError>
    ensures { OnOk result (text.new.items ≡ text.old.items ++ flat_map escaped name.now) }
{
    for byte in name {
        push_escaped(alloc, text, *byte)?;
    }
    Ok(())
}

/// Adds a byte of a text within quotes. A quote, a backslash and what is not printable ASCII are written as their numbers.
fn push_escaped(alloc: Global, text: &mut Vec<u8>, byte: u8) -> Result<(), AllocError>
    ensures { OnOk result (text.new.items ≡ text.old.items ++ escaped byte) }
{
    if byte < 32 || (byte > 126 || (byte == b'"' || byte == b'\\')) {
        let digits = hex::encode(alloc, &[byte])?;
        text.extend_from_slice(b"\\u00")?;
        return text.extend_from_slice(digits.as_bytes());
    }
    text.extend_from_slice(&[byte])
}

fn push_plain(alloc: Global, text: &mut Vec<u8>, name: &[u8]) -> Result<(), AllocError>
    ensures { OnOk result (text.new.items ≡ text.old.items ++ plain_name name.now) }
{
    for byte in name {
        push_printable(alloc, text, *byte)?;
    }
    Ok(())
}

/// Adds a byte of a name. A backslash and what is not printable ASCII are written as their numbers.
fn push_printable(alloc: Global, text: &mut Vec<u8>, byte: u8) -> Result<(), AllocError>
    ensures { OnOk result (text.new.items ≡ text.old.items ++ printable byte) }
{
    if byte < 32 || (byte > 126 || byte == b'\\') {
        let digits = hex::encode(alloc, &[byte])?;
        text.extend_from_slice(b"\\x")?;
        return text.extend_from_slice(digits.as_bytes());
    }
    text.extend_from_slice(&[byte])
}

/// Adds the first 8 bytes of a payload.
fn push_short(alloc: Global, text: &mut Vec<u8>, payload: &[u8]) -> Result<(), AllocError>
    ensures { OnOk result (text.new.items ≡ text.old.items ++ short_payload payload.now) }
{
    if payload.len() > 8 {
        let digits = hex::encode(alloc, &payload[..8])?;
        text.extend_from_slice(digits.as_bytes())?;
        return text.extend_from_slice(b"..");
    }
    let digits = hex::encode(alloc, payload)?;
    text.extend_from_slice(digits.as_bytes())
}
