//! Rounds from a first to a last one, as an argument spells them: `A..B`.
ghost use Rattle.std.specs.Prelude.{◌≡◌};
ghost use Rattle.gs_trace.specs.Spans.{after_byte, first_of, in_order, last_of, rounds_in, with_digit};

use crate::wanted::RoundSpan;

/// What was read so far of `A..B`.
#[derive(Clone, Copy, Debug)]
enum Reading {
    Nothing,
    /// The first number, or a front of it.
    First(u64),
    /// The first number and a dot.
    Dot(u64),
    /// The first number and both dots.
    Dots(u64),
    /// The first number, and the last one or a front of it.
    Last(u64, u64),
}

/// Returns the rounds that a text spells, or `None` if it spells none. It has two decimal numbers with two dots between
/// them, and the first is at most the last.
pub fn rounds_in(text: &[u8]) -> Option<RoundSpan>
    ensures { result ≡ rounds_in text.now }
{
    let mut reading = Reading::Nothing;
    for byte in text {
        reading = after_byte(reading, *byte)?;
    }
    in_order(reading)
}

/// The rounds that were read, if both numbers were read and the first is at most the last.
fn in_order(reading: Reading) -> Option<RoundSpan>
    ensures { result ≡ in_order reading }
{
    match reading {
        Reading::Last(first, last) => {
            if first <= last {
                return Some(RoundSpan { first, last });
            }
            None
        }
        Reading::Nothing => None,
        Reading::First(_) => None,
        Reading::Dot(_) => None,
        Reading::Dots(_) => None,
    }
}

/// What was read after one more byte.
fn after_byte(reading: Reading, byte: u8) -> Option<Reading>
    ensures { result ≡ after_byte reading byte }
{
    match reading {
        Reading::Nothing => first_of(with_digit(0, byte)),
        Reading::First(first) => {
            if byte == b'.' {
                return Some(Reading::Dot(first));
            }
            first_of(with_digit(first, byte))
        }
        Reading::Dot(first) => {
            if byte == b'.' {
                return Some(Reading::Dots(first));
            }
            None
        }
        Reading::Dots(first) => last_of(first, with_digit(0, byte)),
        Reading::Last(first, last) => last_of(first, with_digit(last, byte)),
    }
}

fn first_of(number: Option<u64>) -> Option<Reading>
    ensures { result ≡ first_of number }
{
    match number {
        Some(number) => Some(Reading::First(number)),
        None => None,
    }
}

fn last_of(first: u64, number: Option<u64>) -> Option<Reading>
    ensures { result ≡ last_of first number }
{
    match number {
        Some(number) => Some(Reading::Last(first, number)),
        None => None,
    }
}

/// A number with one more decimal digit, if the byte is a digit and the number fits.
fn with_digit(number: u64, byte: u8) -> Option<u64>
    ensures { result ≡ with_digit number byte }
{
    if byte < b'0' {
        return None;
    }
    if byte > b'9' {
        return None;
    }
    number.checked_mul(10)?.checked_add((byte - b'0') as u64)
}
