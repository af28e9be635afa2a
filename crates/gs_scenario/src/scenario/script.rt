//! The script of a scenario: what the peers are to do.
ghost use Rattle.std.specs.Prelude.{◌≡◌, ◌≤◌, [], length, map};
ghost use Rattle.toml.specs.View.{view, items_view};
ghost use Rattle.gs_scenario.specs.declared.scenario.tables.TableKind.TheVariants as kinds;
ghost use Rattle.gs_scenario.specs.Refusal.{GivesSame};
ghost use Rattle.gs_scenario.specs.Keys.{read_each};
ghost use Rattle.gs_scenario.specs.Kinds.{word};
ghost use Rattle.gs_scenario.specs.Views.{held_at, read_as, section_of};
ghost use Rattle.gs_scenario.specs.PlanOf.{line_in, link_key, topic_key, what_in, verb_in, verb_of, line_kind, known_keys};

use crate::fault::ScenarioFault;
use crate::reason::Wanted;
use crate::scenario::field::{Field, table_of};
use crate::scenario::peers::{Dials, Peers, neighbour_of, peer_of};
use crate::scenario::place::Element;
use crate::scenario::section::Section;
use crate::scenario::tables::TableKind;
use crate::scenario::topics::{TopicEntry, topic_of};
use gs_base::{PeerNo, Seq, Topic};
use gs_plan::{Act, HANG_UP, LONGEST_RAW, Line, MOST_PEERS, PUBLISH, RAW, SUBSCRIBE, UNSUBSCRIBE};
use std::alloc::Global;
use toml::Value;

const WHAT: &str = "what";

const AT: &str = "at";

const PEER: &str = "peer";

const TOPIC: &str = "topic";

const TO: &str = "to";

const HEX: &str = "hex";

/// What the lines of a script may refer to.
#[derive(Clone, Copy)]
pub struct Known<'a> {
    pub topics: &'a [TopicEntry],
    pub peers: &'a Peers,
    pub dials: &'a Dials,
    /// The number of the last round.
    pub rounds: u64,
}

/// The word that says what a peer is to do.
#[derive(Clone, Copy)]
pub enum Verb {
    Subscribe,
    Unsubscribe,
    Publish,
    Raw,
    HangUp,
}

impl Verb {
    fn line_kind(self) -> TableKind
        ensures { result ≡ line_kind self }
    {
        match self {
            Verb::Subscribe | Verb::Unsubscribe => TableKind::SubscriptionLine,
            Verb::Publish => TableKind::PublishLine,
            Verb::Raw => TableKind::RawLine,
            Verb::HangUp => TableKind::HangUpLine,
        }
    }
}

/// Returns the keys of a line that tells a peer to subscribe or to unsubscribe.
pub fn subscription_keys() -> &'static [&'static str]
    ensures { map (λ key. key.now) result.now ≡ known_keys kinds.SubscriptionLine }
{
    &[WHAT, AT, PEER, TOPIC]
}

/// Returns the keys of a line that tells a peer to publish.
pub fn publish_keys() -> &'static [&'static str]
    ensures { map (λ key. key.now) result.now ≡ known_keys kinds.PublishLine }
{
    &[WHAT, AT, PEER, TOPIC, HEX]
}

/// Returns the keys of a line that tells a peer to put bytes on a link unchanged.
pub fn raw_keys() -> &'static [&'static str]
    ensures { map (λ key. key.now) result.now ≡ known_keys kinds.RawLine }
{
    &[WHAT, AT, PEER, TO, HEX]
}

/// Returns the keys of a line that tells a peer to close a link.
pub fn hang_up_keys() -> &'static [&'static str]
    ensures { map (λ key. key.now) result.now ≡ known_keys kinds.HangUpLine }
{
    &[WHAT, AT, PEER, TO]
}

/// Returns the lines of a list, in its order.
#[tactic(auto, unfolding(crate::specs::Keys::read_each))]
pub fn lines_in(alloc: Global, known: Known<'_>, list: &[Value]) -> Result<Seq<Line>, ScenarioFault>
    requires { length known.peers.now ≤ MOST_PEERS }
    ensures { let known = known.entry in GivesSame result (read_each
        (line_in known.topics.now known.peers.now known.dials.now known.rounds) [] (items_view list.now)) }
{
    // This does not use `read_each`: the prover takes no closure that holds three references.
    let mut lines = Seq::new(alloc);
    for value in list {
        let line = line_in(alloc, known, lines.as_slice(), value)?;
        lines.push(line)?;
    }
    Ok(lines)
}

/// Returns the line that stands in the list after the earlier ones.
#[tactic(auto, unfolding(crate::specs::PlanOf::line_in))]
fn line_in(
    alloc: Global,
    known: Known<'_>,
    earlier: &[Line],
    value: &Value,
) -> Result<Line, ScenarioFault>
    requires { length known.peers.now ≤ MOST_PEERS }
    ensures { let known = known.entry in GivesSame result
        (line_in known.topics.now known.peers.now known.dials.now known.rounds earlier.now (view value.now)) }
{
    let element = Element {
        list: "do",
        index: earlier.len(),
    };
    let section = table_of(alloc, element, value)?;
    let verb = verb_in(&section)?;
    let at = section.number(AT, 0, known.rounds)?;
    let peer = peer_of(known.peers, &section.required(PEER)?)?;
    let what = what_in(known, &section, peer, verb)?;
    Ok(Line { at, peer, what })
}

/// Returns what a line with this word tells a peer to do.
#[tactic(auto, unfolding(crate::specs::PlanOf::what_in))]
fn what_in(
    known: Known<'_>,
    section: &Section<'_>,
    peer: PeerNo,
    verb: Verb,
) -> Result<Act, ScenarioFault>
    requires { length known.peers.now ≤ MOST_PEERS }
    ensures { let known = known.entry in GivesSame result
        (what_in known.topics.now known.peers.now known.dials.now (section_of section.now) peer verb) }
{
    match verb {
        Verb::Subscribe => Ok(Act::Subscribe(topic_in(known, section)?)),
        Verb::Unsubscribe => Ok(Act::Unsubscribe(topic_in(known, section)?)),
        Verb::Publish => {
            let topic = topic_in(known, section)?;
            Ok(Act::Publish(topic, section.hex(HEX)?))
        }
        Verb::Raw => {
            let to = neighbour_in(known, section, peer)?;
            Ok(Act::Raw(to, section.short_hex(HEX, LONGEST_RAW)?))
        }
        Verb::HangUp => Ok(Act::HangUp(neighbour_in(known, section, peer)?)),
    }
}

/// Returns the topic that a line names.
fn topic_in(known: Known<'_>, section: &Section<'_>) -> Result<Topic, ScenarioFault>
    ensures { GivesSame result (held_at (topic_key known.entry.topics.now) section.now) }
{
    topic_of(known.topics, &section.required(TOPIC)?)
}

/// Returns the neighbour of a peer that a line names.
fn neighbour_in(
    known: Known<'_>,
    section: &Section<'_>,
    peer: PeerNo,
) -> Result<PeerNo, ScenarioFault>
    requires { length known.peers.now ≤ MOST_PEERS }
    ensures { let known = known.entry in GivesSame result
        (held_at (link_key known.peers.now known.dials.now peer) section.now) }
{
    neighbour_of(known.peers, known.dials, peer, &section.required(TO)?)
}

/// Returns what a line tells a peer to do. Such a line must have no other keys than its own.
#[tactic(auto, unfolding(crate::specs::PlanOf::verb_in))]
fn verb_in(section: &Section<'_>) -> Result<Verb, ScenarioFault>
    ensures { GivesSame result (verb_in (section_of section.now)) }
{
    let verb = verb_at(&section.required(WHAT)?)?;
    section.only(verb.line_kind())?;
    Ok(verb)
}

fn verb_at(field: &Field<'_>) -> Result<Verb, ScenarioFault>
    ensures { GivesSame result (read_as (word verb_of) field.now) }
{
    if let Some(text) = field.value.as_str() {
        if let Some(verb) = verb_of(text) {
            return Ok(verb);
        }
    }
    Err(field.out_of_range(Wanted::Verb)?)
}

fn verb_of(word: &str) -> Option<Verb>
    ensures { result ≡ verb_of word.now }
{
    match word {
        SUBSCRIBE => Some(Verb::Subscribe),
        UNSUBSCRIBE => Some(Verb::Unsubscribe),
        PUBLISH => Some(Verb::Publish),
        RAW => Some(Verb::Raw),
        HANG_UP => Some(Verb::HangUp),
        _ => None,
    }
}
