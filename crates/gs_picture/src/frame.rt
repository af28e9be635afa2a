//! What stands around the circle and the chart.
ghost use Rattle.std.specs.Prelude.{◌≡◌, ◌++◌, OnOk, decimal};
ghost use Rattle.gs_picture.specs.Frame.{longest_name, lowered, opening, room, room_of, title_text, width};

use crate::pen::{push_name, push_number};
use crate::pieces::{Part, Piece, push_part, push_piece};
use crate::places::{MOST_LEVEL, MOST_NAMED, are_named};
use gs_base::Topic;
use gs_plan::{Plan, PlannedPeer};
use std::alloc::{AllocError, Global};

/// How much room names that stand along the radius take above the circle, and below it.
pub(crate) fn room_of(plan: &Plan) -> u64
    ensures { result ≡ room_of plan.now }
{
    room(plan.peers.len(), longest_name(plan.peers.as_slice()))
}

fn room(count: usize, letters: usize) -> u64
    ensures { result ≡ room count letters }
{
    if count <= MOST_LEVEL || count > MOST_NAMED {
        return 0;
    }
    7 * letters.min(32) as u64
}

fn longest_name(peers: &[PlannedPeer]) -> usize
    ensures { result ≡ longest_name peers.now }
{
    let mut so_far = 0;
    for peer in peers {
        so_far = so_far.max(peer.name.as_str().len());
    }
    so_far
}

/// How wide a picture of this many peers is. A table stands next to the chart if they have no names.
#[tactic(auto, unfolding(crate::specs::Frame::width))]
fn width(count: usize) -> u128
    ensures { result ≡ width count }
{
    if are_named(count) {
        return 920;
    }
    1_200
}

/// Adds how wide a picture of this many peers is.
fn push_width(alloc: Global, text: &mut Vec<u8>, count: usize) -> Result<(), AllocError>
    ensures { OnOk result (text.new.items ≡ text.old.items ++ decimal (width count)) }
{
    push_number(alloc, text, width(count))
}

/// Adds the beginning of a picture of this many peers, with this height.
#[tactic(auto, unfolding(crate::specs::Frame::opening))]
pub(crate) fn push_opening(
    alloc: Global,
    text: &mut Vec<u8>,
    count: usize,
    tall: u128,
) -> Result<(), AllocError>
    ensures { OnOk result (text.new.items ≡ text.old.items ++ opening (width count) tall) }
{
    push_part(text, Part::Opening)?;
    push_width(alloc, text, count)?;
    push_part(text, Part::OpeningTall)?;
    push_number(alloc, text, tall)?;
    push_part(text, Part::ViewBox)?;
    push_width(alloc, text, count)?;
    push_part(text, Part::ViewBoxTall)?;
    push_number(alloc, text, tall)?;
    push_part(text, Part::OpeningEnds)
}

/// Adds the topic, and how many peers, rounds and drawn messages there are.
pub(crate) fn push_title(
    alloc: Global,
    text: &mut Vec<u8>,
    plan: &Plan,
    topic: &Topic,
    messages: usize,
) -> Result<(), AllocError>
    ensures { OnOk result (text.new.items ≡ text.old.items ++ title_text plan.now topic.now messages) }
{
    push_part(text, Part::TitleBegins)?;
    push_name(alloc, text, &topic.0)?;
    push_part(text, Part::Peers)?;
    push_number(alloc, text, plan.peers.len() as u128)?;
    push_part(text, Part::Rounds)?;
    push_number(alloc, text, u128::from(plan.rounds))?;
    push_part(text, Part::Messages)?;
    push_number(alloc, text, messages as u128)?;
    push_piece(text, Piece::TextEnds)
}

/// Begins a group that stands this far below its place.
pub(crate) fn push_lowered(alloc: Global, text: &mut Vec<u8>, down: u128) -> Result<(), AllocError>
    ensures { OnOk result (text.new.items ≡ text.old.items ++ lowered down) }
{
    push_part(text, Part::GroupBegins)?;
    push_number(alloc, text, down)?;
    push_part(text, Part::GroupPlaced)
}
