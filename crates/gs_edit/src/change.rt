ghost use Rattle.std.specs.Prelude.{◌≡◌, ◌≢◌, Err, IfErr, IfOk, Some, false, map, string_bytes};
ghost use Rattle.toml.specs.Errors.{IsMemory};
ghost use Rattle.toml.specs.View.{table_view};
ghost use Rattle.gs_edit.specs.Program.{IsChanged, IsNotMade, IsTextOf, is_writable, unread};

use crate::edits::{NoChange, Refusal, edit_all};
use crate::nesting::table_nests_within;
use gs_streams::ReadFault;
use std::alloc::Global;
use toml::Table;
use toml::de::Error;

/// How deep a text may nest so that it can be read again.
const DEEPEST: u32 = 80;

/// The text of the scenario that was read, with each argument's value at its key.
///
/// # Errors
/// `InputFailed` where a read failed, or the input had not ended after `MOST_READS` reads; `Refused` with the first
/// refusal, and `NoMemory`.
pub(crate) fn changed(
    alloc: Global,
    arguments: &[String],
    reading: Result<Vec<u8>, ReadFault>,
) -> Result<String, NoChange>
    ensures made { IfOk reading (λ bytes. IfOk result
        (λ text. IsChanged (map string_bytes arguments.now) (Some bytes.items) (string_bytes text))) }
    ensures refused { IfOk reading (λ bytes. IfErr result (IsNotMade (map string_bytes arguments.now) bytes.items)) }
    ensures unread { IfErr reading (λ fault. result ≡ Err (unread fault)) }
{
    match reading {
        Ok(bytes) => changed_text(alloc, arguments, &bytes),
        Err(fault) => Err(unread(fault)),
    }
}

/// Why a scenario that was not read to its end is not changed.
fn unread(fault: ReadFault) -> NoChange
    ensures { result ≡ unread fault }
{
    match fault {
        ReadFault::Failed => NoChange::InputFailed,
        ReadFault::TooLong => NoChange::Refused(Refusal::TooLong),
        ReadFault::NoMemory => NoChange::NoMemory,
    }
}

/// The text of a scenario with each argument's value at its key.
fn changed_text(alloc: Global, arguments: &[String], bytes: &[u8]) -> Result<String, NoChange>
    ensures ok { IfOk result (λ text. IsChanged (map string_bytes arguments.now) (Some bytes.now) (string_bytes text)) }
    ensures err { IfErr result (IsNotMade (map string_bytes arguments.now) bytes.now) }
{
    let Ok(text) = str::from_utf8(bytes) else {
        return Err(NoChange::Refused(Refusal::NoToml));
    };
    let mut table = match toml::table_from_str(alloc, text) {
        Ok(table) => table,
        Err(fault) => return Err(no_document(&fault)),
    };
    edit_all(alloc, &mut table, arguments)?;
    text_of(alloc, &table)
}

/// Why a text is no document.
fn no_document(fault: &Error) -> NoChange
    ensures memory { IsMemory fault.now → result ≡ NoChange.NoMemory }
    ensures other { ¬ IsMemory fault.now → result ≡ NoChange.Refused Refusal.NoToml }
{
    if fault.is_memory() {
        return NoChange::NoMemory;
    }
    NoChange::Refused(Refusal::NoToml)
}

/// The text of a document; a document that can't be written is refused.
fn text_of(alloc: Global, table: &Table) -> Result<String, NoChange>
    ensures ok { IfOk result (λ text. IsTextOf (table_view table.now) (string_bytes text)) }
    ensures refused { result ≡ Err (NoChange.Refused Refusal.NotWritable) → is_writable (table_view table.now) ≡ false }
    ensures err { IfErr result (λ cause. cause ≢ NoChange.NoMemory → cause ≡ NoChange.Refused Refusal.NotWritable) }
{
    if !table_nests_within(table, DEEPEST) {
        return Err(NoChange::Refused(Refusal::NotWritable));
    }
    match toml::table_to_string(alloc, table) {
        Ok(text) => Ok(text),
        Err(toml::ser::Error::DateInvalid) => Err(NoChange::Refused(Refusal::NotWritable)),
        Err(toml::ser::Error::OutOfMemory) => Err(NoChange::NoMemory),
    }
}
