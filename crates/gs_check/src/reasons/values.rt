//! A value of a scenario that is not what it must be.
use crate::reasons::keys::key_of;
use crate::reasons::ranges::{range_of, signed};
use crate::shown::{Quoted, Ticked};
use gs_scenario::{Found, Wanted};
use std::fmt;

/// What stands at a place, and what must.
#[derive(Clone, Copy)]
pub struct Mismatch<'a> {
    pub place: &'a str,
    pub found: &'a Found,
    pub wanted: Wanted,
}

impl<'a> fmt::Display for Mismatch<'a> {
    fn fmt<W: fmt::Write>(&self, f: &mut fmt::Formatter<W>) -> fmt::Result {
        if self.is_of_an_element() {
            f.write_str("an element of ")?;
        }
        write!(f, "{} is ", Ticked(self.place))?;
        self.write_found(f)?;
        f.write_str(": ")?;
        self.write_rule(f)?;
        f.write_str(self.quotes())
    }
}

impl<'a> Mismatch<'a> {
    /// Says whether the value is an element of the list at the place. There are lists of numbers and of hex digits.
    fn is_of_an_element(&self) -> bool {
        match self.wanted {
            Wanted::Hex => key_of(self.place) != "hex",
            Wanted::Number(_, _) => key_of(self.place) == "words",
            _ => false,
        }
    }

    fn write_found<W: fmt::Write>(&self, f: &mut fmt::Formatter<W>) -> fmt::Result {
        match self.found {
            Found::Number(number) => write!(f, "{number}"),
            Found::Float => f.write_str("a number that is not whole"),
            Found::Text(text) => write!(f, "{}", Quoted(text.as_str())),
            Found::TruthValue(value) => write!(f, "{value}"),
            Found::Date => f.write_str("a date or a time"),
            Found::List(0) => f.write_str("an empty list"),
            Found::List(1) => f.write_str("a list of 1 element"),
            Found::List(count) => write!(f, "a list of {count} elements"),
            Found::Table => f.write_str("a table"),
            Found::Default(number) => write!(f, "left out, which means {number}"),
            Found::LongInput => f.write_str("too long"),
        }
    }

    /// Returns the range of a parameter. The refusal states only the range of all numbers.
    fn range_of_parameter(&self) -> Option<(i64, i64)> {
        let lowest = match self.wanted {
            Wanted::Number(low, _) => signed(low),
            Wanted::SignedNumber(low, _) => low,
            _ => return None,
        };
        let (low, high) = range_of(key_of(self.place))?;
        Some((low.max(lowest), high))
    }

    fn write_rule<W: fmt::Write>(&self, f: &mut fmt::Formatter<W>) -> fmt::Result {
        if let Some((low, high)) = self.range_of_parameter() {
            return write!(f, "it must be a whole number from {low} to {high}");
        }
        match self.wanted {
            Wanted::Number(low, high) => {
                write!(f, "it must be a whole number from {low} to {high}")
            }
            Wanted::SignedNumber(low, high) => {
                write!(f, "it must be a whole number from {low} to {high}")
            }
            Wanted::Multiple(step) => {
                write!(f, "it must be a multiple of `round_ms`, which is {step}")
            }
            Wanted::Elements(low, high) => {
                write!(f, "it must be a list of {low} to {high} tables")
            }
            Wanted::ShortHex(most) => write!(f, "a line has at most {most} raw bytes"),
            Wanted::ShortInput(most) => write!(f, "a scenario has at most {most} bytes"),
            _ => f.write_str(self.plain_rule()),
        }
    }

    /// Returns the rule where it has no numbers.
    fn plain_rule(&self) -> &'static str {
        match self.wanted {
            Wanted::TruthValue => "it must be true or false",
            Wanted::Table => "it must be a table",
            Wanted::List => "it must be a list",
            Wanted::Text => "it must be a text",
            Wanted::Name => "a name has 1 to 32 of `a` to `z`, `0` to `9`, `_` and `-`",
            Wanted::Hex => "bytes are written in pairs of hex digits",
            Wanted::Verb => "it must be `subscribe`, `unsubscribe`, `publish`, `raw` or `hang_up`",
            _ => "a peer does not dial itself",
        }
    }

    /// Returns what a sentence adds about quotes: a text needs them, and a number has none.
    fn quotes(&self) -> &'static str {
        let is_text = matches!(self.found, Found::Text(_));
        match self.wanted {
            Wanted::Text | Wanted::Name | Wanted::Hex | Wanted::Verb if !is_text => {
                ", between quotes"
            }
            Wanted::Number(_, _) | Wanted::SignedNumber(_, _) | Wanted::TruthValue if is_text => {
                ", without quotes"
            }
            _ => "",
        }
    }
}
