ghost use Rattle.std.specs.Prelude.{◌≡◌, ◌++◌, ◌<◌, IfOk, OnOk, string_bytes};
ghost use Rattle.std.specs.List.{flat_map};
ghost use Rattle.gs_report.specs.Text.{at_fault, delivered_line, digit, entry_faults, entry_lines, fault_line, lines_of, links_line, mesh_line, name_of, payload_text, refused_line, report_text, score_line, score_text, word_of};

use crate::{Finished, Report};
use bytes::Bytes;
use gs_base::{Millis, PeerNo, Topic};
use gs_plan::{Plan, what_word};
use gs_rules::{Event, Loss, RefusedLine, StoredEntry};
use std::alloc::{AllocError, Global};

/// Returns the text of a run's report. docs/OUTPUTS.md lists its lines. First comes a line for each message that was
/// delivered, peer by peer in the order of its trace. Then comes one for each refusal, peer by peer in the order of its
/// list. Then comes one for each fault of a neighbour, peer by peer in the order of its trace. Then come one for each member
/// of a mesh and one for each score of a neighbour. The line of the links is the last. A peer has the name that the plan
/// gives its number.
///
/// # Errors
/// `AllocError` when out of memory.
pub fn report_text(alloc: Global, plan: &Plan, report: &Report) -> Result<Vec<u8>, AllocError>
    ensures { IfOk result (λ text. text.items ≡ report_text plan.now report.now) }
{
    let mut text = Vec::new(alloc);
    push_section(alloc, &mut text, plan, Section::Delivered, &report.peers)?;
    push_section(alloc, &mut text, plan, Section::Refused, &report.peers)?;
    push_section(alloc, &mut text, plan, Section::Faults, &report.peers)?;
    push_section(alloc, &mut text, plan, Section::Meshes, &report.peers)?;
    push_section(alloc, &mut text, plan, Section::Scores, &report.peers)?;
    push_links(alloc, &mut text, report.settled)?;
    Ok(text)
}

/// A section of a report: lines of one kind, peer by peer.
#[derive(Clone, Copy, Debug, PartialEq, Eq)]
pub enum Section {
    /// What each peer delivered, in the order of its trace.
    Delivered,
    /// Which lines of the script each peer refused.
    Refused,
    /// Which neighbours each peer found at fault, in the order of its trace.
    Faults,
    /// Which peers were in the mesh of each topic at the end.
    Meshes,
    /// The scores of each peer's neighbours at the end.
    Scores,
}

fn push_section(
    alloc: Global,
    text: &mut Vec<u8>,
    plan: &Plan,
    section: Section,
    peers: &[(PeerNo, Finished)],
) -> Result<(), AllocError>
    ensures { OnOk result (text.new.items ≡ text.old.items ++ flat_map (lines_of section plan.now) peers.now) }
{
    for peer in peers {
        push_lines(alloc, text, plan, section, peer)?;
    }
    Ok(())
}

/// Adds a peer's lines of a section.
fn push_lines(
    alloc: Global,
    text: &mut Vec<u8>,
    plan: &Plan,
    section: Section,
    peer: &(PeerNo, Finished),
) -> Result<(), AllocError>
    ensures { OnOk result (text.new.items ≡ text.old.items ++ lines_of section plan.now peer.now) }
{
    let (number, life) = peer;
    let name = name_of(plan, *number);
    match section {
        Section::Delivered => push_entries(alloc, text, name, life.trace.entries()),
        Section::Refused => push_refusals(alloc, text, plan, name, life.refused.as_slice()),
        Section::Faults => push_faults(alloc, text, plan, name, life.trace.entries()),
        Section::Meshes => push_members(alloc, text, plan, name, life.meshes.as_slice()),
        Section::Scores => push_each_score(alloc, text, plan, name, life.scores.as_slice()),
    }
}

fn push_entries(
    alloc: Global,
    text: &mut Vec<u8>,
    name: &str,
    entries: &[StoredEntry],
) -> Result<(), AllocError>
    ensures { OnOk result (text.new.items ≡ text.old.items ++ flat_map (entry_lines name.now) entries.now) }
{
    for entry in entries {
        push_deliveries(alloc, text, name, entry.at(), entry.delivered())?;
    }
    Ok(())
}

fn push_deliveries(
    alloc: Global,
    text: &mut Vec<u8>,
    name: &str,
    at: Millis,
    deliveries: &[(Topic, Bytes)],
) -> Result<(), AllocError>
    ensures { OnOk result (text.new.items ≡ text.old.items ++ flat_map (delivered_line name.now at) deliveries.now) }
{
    for delivery in deliveries {
        push_delivery(alloc, text, name, at, delivery)?;
    }
    Ok(())
}

/// Adds a line `delivered PEER MOMENT TOPIC PAYLOAD`.
fn push_delivery(
    alloc: Global,
    text: &mut Vec<u8>,
    name: &str,
    at: Millis,
    delivery: &(Topic, Bytes),
) -> Result<(), AllocError>
    ensures { OnOk result (text.new.items ≡ text.old.items ++ delivered_line name.now at delivery.now) }
{
    let (topic, payload) = delivery;
    let moment = at.0;
    let front = format!(in alloc; "delivered {name} {moment} ")?;
    let payload = payload_text(alloc, payload)?;
    text.extend_from_slice(front.as_bytes())?;
    text.extend_from_slice(&topic.0)?;
    text.extend_from_slice(b" ")?;
    text.extend_from_slice(payload.as_bytes())?;
    text.extend_from_slice(b"\n")
}

fn push_refusals(
    alloc: Global,
    text: &mut Vec<u8>,
    plan: &Plan,
    name: &str,
    refusals: &[RefusedLine],
) -> Result<(), AllocError>
    ensures { OnOk result (text.new.items ≡ text.old.items ++ flat_map (refused_line plan.now name.now) refusals.now) }
{
    for refusal in refusals {
        push_refusal(alloc, text, plan, name, *refusal)?;
    }
    Ok(())
}

/// Adds a line `refused PEER MOMENT WHAT NUMBER`.
fn push_refusal(
    alloc: Global,
    text: &mut Vec<u8>,
    plan: &Plan,
    name: &str,
    refusal: RefusedLine,
) -> Result<(), AllocError>
    ensures { OnOk result (text.new.items ≡ text.old.items ++ refused_line plan.now name.now refusal) }
{
    let moment = refusal.at.0;
    let word = word_of(plan, refusal.line);
    let number = refusal.why.number();
    let front = format!(in alloc; "refused {name} {moment} ")?;
    let back = format!(in alloc; "{word} {number}\n")?;
    text.extend_from_slice(front.as_bytes())?;
    text.extend_from_slice(back.as_bytes())
}

fn push_faults(
    alloc: Global,
    text: &mut Vec<u8>,
    plan: &Plan,
    name: &str,
    trace: &[StoredEntry],
) -> Result<(), AllocError>
    ensures { OnOk result (text.new.items ≡ text.old.items ++ flat_map (entry_faults plan.now name.now) trace.now) }
{
    for entry in trace {
        push_fault(alloc, text, plan, name, entry)?;
    }
    Ok(())
}

/// Adds a line `fault PEER MOMENT NEIGHBOUR` if an entry found a neighbour at fault, or else no line.
fn push_fault(
    alloc: Global,
    text: &mut Vec<u8>,
    plan: &Plan,
    name: &str,
    entry: &StoredEntry,
) -> Result<(), AllocError>
    ensures { OnOk result (text.new.items ≡ text.old.items ++ entry_faults plan.now name.now entry.now) }
{
    match at_fault(entry.event()) {
        Some(peer) => {
            let moment = entry.at().0;
            let neighbour = name_of(plan, peer);
            let told = format!(in alloc; "fault {name} {moment} {neighbour}\n")?;
            text.extend_from_slice(told.as_bytes())
        }
        None => Ok(()),
    }
}

/// The neighbour that an event found at fault, if any. Each event is named, so that a new one must be decided on.
fn at_fault(event: &Event) -> Option<PeerNo>
    ensures { result ≡ at_fault event.now }
{
    match event {
        Event::Lost(peer, Loss::Fault) => Some(*peer),
        Event::Lost(_, Loss::Gone) => None,
        Event::Heard(_, _) => None,
        Event::Late(_, _) => None,
        Event::Part(_, _) => None,
        Event::BeatBegin => None,
        Event::Step(_) => None,
        Event::Own(_) => None,
        Event::Decay => None,
        Event::RoundEnd(_) => None,
        Event::Shut => None,
    }
}

fn push_members(
    alloc: Global,
    text: &mut Vec<u8>,
    plan: &Plan,
    name: &str,
    members: &[(Topic, PeerNo)],
) -> Result<(), AllocError>
    ensures { OnOk result (text.new.items ≡ text.old.items ++ flat_map (mesh_line plan.now name.now) members.now) }
{
    for member in members {
        push_member(alloc, text, plan, name, member)?;
    }
    Ok(())
}

/// Adds a line `mesh PEER TOPIC MEMBER`.
fn push_member(
    alloc: Global,
    text: &mut Vec<u8>,
    plan: &Plan,
    name: &str,
    member: &(Topic, PeerNo),
) -> Result<(), AllocError>
    ensures { OnOk result (text.new.items ≡ text.old.items ++ mesh_line plan.now name.now member.now) }
{
    let (topic, peer) = member;
    let front = format!(in alloc; "mesh {name} ")?;
    let back = format!(in alloc; " {}\n", name_of(plan, *peer))?;
    text.extend_from_slice(front.as_bytes())?;
    text.extend_from_slice(&topic.0)?;
    text.extend_from_slice(back.as_bytes())
}

fn push_each_score(
    alloc: Global,
    text: &mut Vec<u8>,
    plan: &Plan,
    name: &str,
    scores: &[(PeerNo, i128)],
) -> Result<(), AllocError>
    ensures { OnOk result (text.new.items ≡ text.old.items ++ flat_map (score_line plan.now name.now) scores.now) }
{
    for score in scores {
        push_score(alloc, text, plan, name, *score)?;
    }
    Ok(())
}

/// Adds a line `score PEER NEIGHBOUR SCORE`.
fn push_score(
    alloc: Global,
    text: &mut Vec<u8>,
    plan: &Plan,
    name: &str,
    scored: (PeerNo, i128),
) -> Result<(), AllocError>
    ensures { OnOk result (text.new.items ≡ text.old.items ++ score_line plan.now name.now scored) }
{
    let neighbour = name_of(plan, scored.0);
    let front = format!(in alloc; "score {name} {neighbour} ")?;
    text.extend_from_slice(front.as_bytes())?;
    push_millionths(alloc, text, scored.1)?;
    text.extend_from_slice(b"\n")
}

/// Adds a number of millionths as a decimal number with six digits after the point. Scores are shown in this form everywhere.
///
/// # Errors
/// `AllocError` when out of memory. A part of the number may have been added then.
pub fn push_millionths(alloc: Global, text: &mut Vec<u8>, score: i128) -> Result<(), AllocError>
    ensures { OnOk result (text.new.items ≡ text.old.items ++ score_text score) }
{
    let size = score.unsigned_abs();
    let whole = size / 1_000_000;
    let front = if score < 0 {
        format!(in alloc; "-{whole}.")?
    } else {
        format!(in alloc; "{whole}.")?
    };
    text.extend_from_slice(front.as_bytes())?;
    text.extend_from_slice(&[
        digit(size, 100_000),
        digit(size, 10_000),
        digit(size, 1_000),
        digit(size, 100),
        digit(size, 10),
        digit(size, 1),
    ])
}

/// The digit of a number at the place of a power of ten.
fn digit(number: u128, power: u128) -> u8
    requires { 0 < power }
    ensures { result ≡ digit number power }
{
    (number / power % 10) as u8 + b'0'
}

/// Adds the line `links NUMBER settled`.
fn push_links(alloc: Global, text: &mut Vec<u8>, settled: u64) -> Result<(), AllocError>
    ensures { OnOk result (text.new.items ≡ text.old.items ++ links_line settled) }
{
    let line = format!(in alloc; "links {settled} settled\n")?;
    text.extend_from_slice(line.as_bytes())
}

/// Returns the name of the peer with a number. If the plan has no such peer, the name is empty.
pub fn name_of(plan: &Plan, number: PeerNo) -> &str
    ensures { result.now ≡ name_of plan.now number }
{
    match plan.peers.as_slice().get(usize::from(number.0)) {
        Some(peer) => peer.name.as_str(),
        None => "",
    }
}

/// Returns the word of the script's line at a place. If there is no line at that place, the word is empty.
pub fn word_of(plan: &Plan, place: usize) -> &'static str
    ensures { result.now ≡ word_of plan.now place }
{
    match plan.script.as_slice().get(place) {
        Some(line) => what_word(&line.what),
        None => "",
    }
}

/// A payload in lower-case hexadecimal digits. An empty payload is `-`, so that each line has the same number of words.
fn payload_text(alloc: Global, payload: &[u8]) -> Result<String, AllocError>
    ensures { IfOk result (λ text. string_bytes text ≡ payload_text payload.now) }
{
    if payload.is_empty() {
        String::from_str(alloc, "-")
    } else {
        hex::encode(alloc, payload)
    }
}
