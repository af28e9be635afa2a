//! Which lines of a trace are wanted.
ghost use Rattle.std.specs.Prelude.{◌≡◌, ◌&&◌};
ghost use Rattle.gs_trace.specs.Events.{event_word, refused_word};
ghost use Rattle.gs_trace.specs.Lines.Told.{Did, Refused};
ghost use Rattle.gs_trace.specs.Wanted.{is_about, is_among, is_event, is_in_rounds, is_line_about, is_of_peer, is_wanted};
ghost use Rattle.gs_trace.specs.Wanted.{lies_in, suits, wishes_of};

use crate::events::event_word;
use crate::topics::{entry_names, line_names};
use crate::turn::Turn;
use gs_base::PeerNo;
use gs_plan::Plan;
use gs_report::name_of;
use gs_router::Followed;
use gs_rules::{RefusedLine, StoredEntry};

/// Which lines of a trace are wanted. The first line always is, and so are the lines that match all of these options.
#[derive(Clone, Copy, Debug, Drop)]
pub struct Wanted<'a> {
    /// Lines of the peer with this name.
    pub peer: Wish<'a>,
    /// Lines that name this topic in the event, in an RPC that was sent, in a delivery or in a mark. Also, lines for refused
    /// lines of the script that name it.
    pub topic: Wish<'a>,
    /// Lines of these rounds.
    pub rounds: Option<RoundSpan>,
    /// Lines whose event has one of these words. The words have commas between them.
    pub events: Wish<'a>,
}

/// The text that an option asks for.
#[derive(Clone, Copy, Debug, Drop)]
pub enum Wish<'a> {
    /// Any text will do.
    Any,
    /// This text, and no other.
    Only(&'a str),
}

/// Rounds from a first to a last one, both included.
#[derive(Clone, Copy, Debug, PartialEq, Eq)]
pub struct RoundSpan {
    /// The first one. The first round of a run is 0.
    pub first: u64,
    /// The last one. If it is below the first, the span has no round.
    pub last: u64,
}

/// Whether the line of an entry is wanted.
pub(crate) fn is_entry_wanted(turn: &Turn<'_>, followed: &Followed<'_>) -> bool
    ensures { result ≡ is_wanted (wishes_of turn.now.wanted.now) turn.now.plan.now
        (Did turn.now.round turn.now.peer followed.now.entry.now followed.now.fallen.items) }
{
    is_of(turn) && tells(turn.wanted, followed.entry)
}

/// Whether the trace's line for a refused line of the script is wanted.
pub(crate) fn is_refusal_wanted(turn: &Turn<'_>, refusal: RefusedLine) -> bool
    ensures { result ≡ is_wanted (wishes_of turn.now.wanted.now) turn.now.plan.now
        (Refused turn.now.round turn.now.peer refusal) }
{
    is_of(turn) && tells_refusal(turn.plan, turn.wanted, refusal.line)
}

/// Whether a turn is of the peer and in one of the rounds.
fn is_of(turn: &Turn<'_>) -> bool
    ensures { result ≡ (is_of_peer (wishes_of turn.now.wanted.now) turn.now.plan.now turn.now.peer
        && is_in_rounds (wishes_of turn.now.wanted.now) turn.now.round) }
{
    is_of_peer(turn.plan, turn.wanted, turn.peer) && is_in_rounds(turn.wanted.rounds, turn.round)
}

fn is_of_peer(plan: &Plan, wanted: &Wanted<'_>, peer: PeerNo) -> bool
    ensures { result ≡ is_of_peer (wishes_of wanted.now) plan.now peer }
{
    match wanted.peer {
        Wish::Any => true,
        Wish::Only(name) => name_of(plan, peer) == name,
    }
}

fn is_in_rounds(rounds: Option<RoundSpan>, round: u64) -> bool
    ensures { result ≡ suits (lies_in round) rounds }
{
    match rounds {
        None => true,
        Some(rounds) => rounds.first <= round && round <= rounds.last,
    }
}

/// Whether an entry has one of the events, and names the topic.
fn tells(wanted: &Wanted<'_>, entry: &StoredEntry) -> bool
    ensures { result ≡ (is_event (wishes_of wanted.now) (event_word entry.now.event)
        && is_about (wishes_of wanted.now) entry.now) }
{
    is_event(wanted, event_word(entry.event())) && is_about(wanted, entry)
}

/// Whether refused lines are among the events, and this one names the topic.
fn tells_refusal(plan: &Plan, wanted: &Wanted<'_>, place: usize) -> bool
    ensures { result ≡ (is_event (wishes_of wanted.now) refused_word
        && is_line_about (wishes_of wanted.now) plan.now place) }
{
    is_event(wanted, b"refused") && is_line_about(plan, wanted, place)
}

fn is_about(wanted: &Wanted<'_>, entry: &StoredEntry) -> bool
    ensures { result ≡ is_about (wishes_of wanted.now) entry.now }
{
    match wanted.topic {
        Wish::Any => true,
        Wish::Only(topic) => entry_names(topic.as_bytes(), entry),
    }
}

fn is_line_about(plan: &Plan, wanted: &Wanted<'_>, place: usize) -> bool
    ensures { result ≡ is_line_about (wishes_of wanted.now) plan.now place }
{
    match wanted.topic {
        Wish::Any => true,
        Wish::Only(topic) => line_names(plan, topic.as_bytes(), place),
    }
}

fn is_event(wanted: &Wanted<'_>, word: &[u8]) -> bool
    ensures { result ≡ is_event (wishes_of wanted.now) word.now }
{
    match wanted.events {
        Wish::Any => true,
        Wish::Only(words) => is_among(word, words),
    }
}

/// Whether a word is one of those in a text. The words have commas between them.
fn is_among(word: &[u8], words: &str) -> bool
    ensures { result ≡ is_among word.now words.now }
{
    words.split(',').any(|one| one.as_bytes() == word)
}
