//! Arguments `KEY=VALUE`, and the parts of a key.
ghost use Rattle.std.specs.Char.{is_ascii_digit};
ghost use Rattle.std.specs.List.{list_all};
ghost use Rattle.std.specs.Prelude.{◌≡◌, ◌≤◌, ◌<◌, ◌^◌, ◌∷◌, IfNone, IfSome, Some, ℕ, length, map, string_bytes};
ghost use Rattle.gs_edit.specs.Keys.{are_edits, is_edit, is_key, is_name, is_name_byte, key_text, number_of, path_of, value_text};
ghost use Rattle.gs_edit.specs.Rest.{rest_of};

/// Whether there is an argument, and each has an equals sign.
pub(crate) fn are_edits(arguments: &[String]) -> bool
    ensures { result ≡ are_edits (map string_bytes arguments.now) }
{
    !arguments.is_empty() && all_are_edits(arguments)
}

fn all_are_edits(arguments: &[String]) -> bool
    ensures { result ≡ list_all is_edit (map string_bytes arguments.now) }
{
    for argument in arguments {
        if !is_edit(argument) {
            return false;
        }
    }
    true
}

fn is_edit(argument: &str) -> bool
    ensures { result ≡ is_edit argument.now }
{
    argument.split_once('=').is_some()
}

/// What stands before the first equals sign, and after it.
pub(crate) fn key_and_value(argument: &str) -> (&str, &str)
    ensures key { result.0.now ≡ key_text argument.now }
    ensures value { result.1.now ≡ value_text argument.now }
{
    match argument.split_once('=') {
        Some((key, value)) => (key, value),
        None => (argument, ""),
    }
}

/// Whether a text is one name, or several with dots between them.
pub(crate) fn is_key(text: &str) -> bool
    ensures { result ≡ is_key text.now }
{
    let (part, rest) = first_part(text);
    if !is_name(part) {
        return false;
    }
    match rest {
        Some(more) => is_key(more),
        None => true,
    }
}

/// What stands before the first dot of a key, and what stands after it, where there is one.
pub(crate) fn first_part(key: &str) -> (&str, Option<&str>)
    ensures parts { path_of key.now ≡ result.0.now ∷ rest_of result.1 }
    ensures shorter { IfSome result.1 (λ rest. length rest.now < length key.now) }
{
    match key.split_once('.') {
        Some((part, rest)) => (part, Some(rest)),
        None => (key, None),
    }
}

/// Whether a part of a key is some letters, digits, `_` and `-`.
fn is_name(part: &str) -> bool
    ensures { result ≡ is_name part.now }
{
    !part.is_empty() && are_name_bytes(part.as_bytes())
}

fn are_name_bytes(bytes: &[u8]) -> bool
    ensures { result ≡ list_all is_name_byte bytes.now }
{
    bytes.iter().all(|&byte| is_name_byte(byte))
}

/// The number that some decimal digits write.
pub(crate) fn number_of(part: &str) -> Option<usize>
    ensures number { IfSome result (λ n. number_of part.now ≡ Some n) }
    ensures none { IfNone result ((n : ℕ) → number_of part.now ≡ Some n → 2 ^ 64 ≤ n) }
{
    if part.is_empty() {
        return None;
    }
    if !are_digits(part.as_bytes()) {
        return None;
    }
    match part.parse::<usize>() {
        Ok(number) => Some(number),
        Err(_) => None,
    }
}

fn are_digits(bytes: &[u8]) -> bool
    ensures { result ≡ list_all is_ascii_digit bytes.now }
{
    bytes.iter().all(|byte| byte.is_ascii_digit())
}

fn is_name_byte(byte: u8) -> bool
    ensures { result ≡ is_name_byte byte }
{
    byte.is_ascii_alphanumeric() || byte == b'_' || byte == b'-'
}
