//! Refusals in words.
ghost use Rattle.std.specs.Prelude.{◌≡◌, IfOk, map, string_bytes};
ghost use Rattle.gs_edit.specs.Program.{key_at, no_key, no_table, no_value, reason, refusal_line};

use crate::edits::{EditFault, Refusal};
use crate::keys::key_and_value;
use std::alloc::{AllocError, Global};

pub(crate) fn refusal_line(
    alloc: Global,
    arguments: &[String],
    refusal: Refusal,
) -> Result<String, AllocError>
    ensures { IfOk result (λ line. string_bytes line ≡ refusal_line (map string_bytes arguments.now) refusal) }
{
    let reason = reason(alloc, arguments, refusal)?;
    format!(in alloc; "edit refused: {reason}\n")
}

fn reason(alloc: Global, arguments: &[String], refusal: Refusal) -> Result<String, AllocError>
    ensures { IfOk result (λ text. string_bytes text ≡ reason (map string_bytes arguments.now) refusal) }
{
    match refusal {
        Refusal::TooLong => String::from_str(alloc, "the scenario has more than 67108864 bytes"),
        Refusal::NoToml => String::from_str(alloc, "the scenario is no TOML"),
        Refusal::Edit(EditFault::NoKey(number)) => no_key(alloc, number),
        Refusal::Edit(EditFault::NoValue(number)) => no_value(alloc, key_at(arguments, number)),
        Refusal::Edit(EditFault::NoTable(number)) => no_table(alloc, key_at(arguments, number)),
        Refusal::NotWritable => String::from_str(
            alloc,
            "the changed scenario nests too deep, or holds a date that is none",
        ),
    }
}

fn no_key(alloc: Global, number: usize) -> Result<String, AllocError>
    ensures { IfOk result (λ text. string_bytes text ≡ no_key number) }
{
    format!(in alloc;
        "argument {number} has no key before its `=`: \
        a key is a name, or several with dots between them, of letters, digits, `_` and `-`"
    )
}

fn no_value(alloc: Global, key: &str) -> Result<String, AllocError>
    ensures { IfOk result (λ text. string_bytes text ≡ no_value key.now) }
{
    format!(in alloc; "the value of `{key}` is no TOML")
}

fn no_table(alloc: Global, key: &str) -> Result<String, AllocError>
    ensures { IfOk result (λ text. string_bytes text ≡ no_table key.now) }
{
    format!(in alloc; "`{key}` goes through what is neither a table nor an element of a list")
}

/// The key of the argument with this number, where the first is argument 1.
fn key_at(arguments: &[String], number: usize) -> &str
    ensures { result.now ≡ key_at (map string_bytes arguments.now) number }
{
    match arguments.get(number.saturating_sub(1)) {
        Some(argument) => key_and_value(argument.as_str()).0,
        None => "",
    }
}
