//! Keys of a scenario that are unknown or missing.
ghost use Rattle.std.specs.Prelude.{◌≡◌, ◌≤◌, ◌++◌, ◌∷◌, [], IfOk, List, ℕ, length, map, option_map, string_bytes, true};
ghost use Rattle.gs_check.specs.Near.{IsNearestOf, IsNearestSoFar, edits};
ghost use Rattle.gs_check.specs.Shown.{is_plain_text};
ghost use Rattle.gs_check.specs.Words.{SaysUnknown, is_no_key, key_in, key_of, plain_place, suggestion, table_words, unknown_words};

use crate::shown::Ticked;
use gs_scenario::TableKind;
use std::alloc::{AllocError, Global};
use strsim::osa_distance;

/// A key that is longer than this is near no known key.
const LONGEST_NEAR: usize = 40;

/// A key that a scenario must have. It has the list in which its table stands (nothing for the top table), its name, and
/// what it holds.
type Required = (&'static str, &'static str, &'static str);

static REQUIRED: [Required; 22] = [
    (
        "",
        "round_ms",
        "the milliseconds of a round, a whole number from 1 to 60000",
    ),
    (
        "",
        "rounds",
        "the number of the last round, a whole number from 1 to 100000",
    ),
    (
        "",
        "workers",
        "how many threads run the peers, a whole number from 1 to 16",
    ),
    (
        "",
        "capacity",
        "how many items a link holds, a whole number from 1 to 1024",
    ),
    ("", "seed", "a whole number from 0 to 9223372036854775807"),
    (
        "",
        "topic",
        "a list of 1 to 32 tables, each written under `[[topic]]`",
    ),
    (
        "",
        "peer",
        "a list of at least one table, each written under `[[peer]]`",
    ),
    ("topic", "name", "a name that no other topic has"),
    ("peer", "name", "a name that no other peer has"),
    ("dial", "from", "the name of a peer"),
    ("dial", "to", "the name of another peer"),
    ("app", "peer", "the name of a peer"),
    ("app", "about", "the name of a neighbour of that peer"),
    (
        "app",
        "value",
        "millionths, a whole number from -1000000000 to 1000000000",
    ),
    ("explicit", "peer", "the name of a peer"),
    ("explicit", "about", "the name of a neighbour of that peer"),
    (
        "do",
        "what",
        "`subscribe`, `unsubscribe`, `publish`, `raw` or `hang_up`",
    ),
    ("do", "at", "the number of a round, from 0 to `rounds`"),
    ("do", "peer", "the name of a peer"),
    ("do", "topic", "the name of a topic"),
    ("do", "to", "the name of a neighbour of that peer"),
    (
        "do",
        "hex",
        "the payload or the raw bytes, in pairs of hex digits",
    ),
];

/// Returns the last part of a place: what follows its first point, or all of it where it has no point.
pub fn key_of(place: &str) -> &str
    ensures { result.now ≡ key_of place.now }
{
    match place.split_once('.') {
        Some((_, key)) => key,
        None => place,
    }
}

/// Returns the list of the top table in which a place lies, or nothing.
fn list_of(place: &str) -> &str {
    match place.split_once('[') {
        Some((list, _)) => list,
        None => "",
    }
}

/// Says that a required key is missing, and what it would hold.
pub fn missing(alloc: Global, place: &str) -> Result<String, AllocError> {
    let row = REQUIRED
        .iter()
        .find(|row| row.0 == list_of(place) && row.1 == key_of(place));
    let shown = Ticked(place);
    match row {
        Some((_, _, held)) => format!(in alloc; "{shown} is missing: it must be {held}\n"),
        None => format!(in alloc; "{shown} is missing\n"),
    }
}

/// Says that a key is not known, and which known key is near.
pub fn unknown(alloc: Global, place: &str, kind: TableKind) -> Result<String, AllocError>
    ensures { is_plain_text place.now ≡ true → IfOk result (λ text. SaysUnknown place.now kind (string_bytes text)) }
{
    let near = nearest(alloc, key_in(kind, place), kind.known_keys())?;
    unknown_words(alloc, place, kind, near)
}

fn unknown_words(
    alloc: Global,
    place: &str,
    kind: TableKind,
    near: Option<&'static str>,
) -> Result<String, AllocError>
    ensures { is_plain_text place.now ≡ true
        → IfOk result (λ text.
        string_bytes text ≡ unknown_words place.now kind (option_map (λ name. name.now) near.entry)) }
{
    let mut text = is_no_key(alloc, place)?;
    text.push_str(table_words(kind))?;
    text.push_str(suggestion(alloc, near)?.as_str())?;
    Ok(text)
}

fn is_no_key(alloc: Global, place: &str) -> Result<String, AllocError>
    ensures { is_plain_text place.now ≡ true → IfOk result (λ text. string_bytes text ≡ is_no_key place.now) }
{
    let shown = shown_place(alloc, place)?;
    Ok(format!(in alloc; "{shown} is no key of ")?)
}

/// Returns a place as it is shown.
fn shown_place(alloc: Global, place: &str) -> Result<String, AllocError>
    ensures { is_plain_text place.now ≡ true → IfOk result (λ text. string_bytes text ≡ plain_place place.now) }
{
    let shown = Ticked(place);
    format!(in alloc; "{shown}")
}

fn suggestion(alloc: Global, near: Option<&'static str>) -> Result<String, AllocError>
    ensures { IfOk result (λ text. string_bytes text ≡ suggestion (option_map (λ name. name.now) near.entry)) }
{
    match near {
        Some(name) => format!(in alloc; "; did you mean `{name}`?\n"),
        None => String::from_str(alloc, "\n"),
    }
}

/// Returns the key that a place names in a table of this kind. A key of the top table may have points.
fn key_in(kind: TableKind, place: &str) -> &str
    ensures { result.now ≡ key_in kind place.now }
{
    match kind {
        TableKind::Top => place,
        _ => key_of(place),
    }
}

fn table_words(kind: TableKind) -> &'static str
    ensures { result.now ≡ table_words kind }
{
    match kind {
        TableKind::Top => "the top table",
        TableKind::Params => "`[params]`",
        TableKind::Topic => "a `[[topic]]`",
        TableKind::Peer => "a `[[peer]]`",
        TableKind::Dial => "a `[[dial]]`",
        TableKind::App => "an `[[app]]`",
        TableKind::Explicit => "an `[[explicit]]`",
        TableKind::SubscriptionLine => "a `[[do]]` that subscribes or unsubscribes",
        TableKind::PublishLine => "a `[[do]]` that publishes",
        TableKind::RawLine => "a `[[do]]` that sends raw bytes",
        TableKind::HangUpLine => "a `[[do]]` that hangs up",
    }
}

/// Returns the known key that is the fewest edits away, and the first of several. There is none where that takes more edits
/// than a third of the bytes of the longer key. An edit inserts a character, deletes one, changes one, or swaps two adjacent
/// ones.
fn nearest(
    alloc: Global,
    key: &str,
    known: &[&'static str],
) -> Result<Option<&'static str>, AllocError>
    ensures { IfOk result (λ near.
        IsNearestOf key.now (map (λ name. name.now) known.now) (option_map (λ name. name.now) near)) }
{
    if key.len() > LONGEST_NEAR {
        return Ok(None);
    }
    let mut nearest = Candidate {
        name: None,
        edits: usize::MAX,
    };
    for name in known {
        let edits = osa_distance(alloc, key, name)?;
        nearest = nearest.or(key, name, edits);
    }
    Ok(nearest.name)
}

/// A known key, and how many edits away it is.
#[derive(Clone, Copy)]
struct Candidate {
    name: Option<&'static str>,
    edits: usize,
}

impl Candidate {
    /// Returns this candidate, or the named one where fewer edits lead to it.
    fn or(self, key: &str, name: &'static str, count: usize) -> Candidate
        requires short { length key.now ≤ 40 }
        requires edits { count ≡ edits key.now name.now }
        ensures { (seen : List (List ℕ))
            → IsNearestSoFar key.now seen (option_map (λ it. it.now) self.name) self.edits
            → IsNearestSoFar key.now (seen ++ (name.now ∷ [])) (option_map (λ it. it.now) result.name) result.edits }
    {
        if count > key.len().max(name.len()) / 3 {
            return self;
        }
        if count >= self.edits {
            return self;
        }
        Candidate {
            name: Some(name),
            edits: count,
        }
    }
}
