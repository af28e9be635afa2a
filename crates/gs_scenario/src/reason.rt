//! What a refusal says about the value that it refuses.
ghost use Rattle.std.specs.Prelude.{◌≡◌, IfOk};
ghost use Rattle.toml.specs.View.{view};
ghost use Rattle.gs_scenario.specs.Refusal.{found_of};

use gs_base::Text;
use std::alloc::{AllocError, Global};
use toml::Value;

/// What a value must be where it stands.
#[derive(Clone, Copy, Debug, PartialEq, Eq)]
pub enum Wanted {
    /// A whole number, from the first to the second.
    Number(u64, u64),
    /// A whole number of either sign, from the first to the second.
    SignedNumber(i64, i64),
    /// A multiple of this number, such as the milliseconds of a round.
    Multiple(u64),
    /// True or false.
    TruthValue,
    /// A table. Its keys are read later.
    Table,
    /// A list of any length.
    List,
    /// A list whose number of elements is from the first to the second.
    Elements(usize, usize),
    /// Any text.
    Text,
    /// A name: a text of 1 to 32 of `a` to `z`, `0` to `9`, `_` and `-`.
    Name,
    /// A text with an even number of hex digits, in either case.
    Hex,
    /// A text of hex digits for at most this many bytes.
    ShortHex(usize),
    /// A word that says what a peer is to do, such as `subscribe`.
    Verb,
    /// The name of a peer other than the one that dials.
    AnotherPeer,
    /// An input of at most this many bytes.
    ShortInput(u64),
}

/// What stands there instead.
#[derive(Debug, Drop, PartialEq, Eq)]
pub enum Found {
    /// A whole number.
    Number(i64),
    /// A number with a fraction or an exponent, an infinity, or `nan`.
    Float,
    /// This text.
    Text(Text),
    /// True or false.
    TruthValue(bool),
    /// A date, a time, or both.
    Date,
    /// A list of this many elements.
    List(usize),
    /// A table.
    Table,
    /// Nothing. The key's default, which is this number, is used.
    Default(u64),
    /// More bytes than an input may have.
    LongInput,
}

impl Found {
    /// Returns how a refusal describes a value.
    #[tactic(auto, using(crate::proofs::Lists::item_count_view))]
    pub(crate) fn of(alloc: Global, value: &Value) -> Result<Found, AllocError>
        ensures { IfOk result (λ found. found ≡ found_of (view value.now)) }
    {
        match value {
            Value::String(text) => Ok(Found::Text(Text::from_str(alloc, text.as_str())?)),
            Value::Integer(number) => Ok(Found::Number(*number)),
            Value::Float(_) => Ok(Found::Float),
            Value::Boolean(value) => Ok(Found::TruthValue(*value)),
            Value::Datetime(_) => Ok(Found::Date),
            Value::Array(list) => Ok(Found::List(list.len())),
            Value::Table(_) => Ok(Found::Table),
        }
    }
}

/// What kind of thing a name must belong to.
#[derive(Clone, Copy, Debug, PartialEq, Eq)]
pub enum NameKind {
    /// A topic of the scenario.
    Topic,
    /// A peer of the scenario.
    Peer,
    /// A neighbour of the peer that the same table names. One of the two dials the other.
    Neighbour,
}
