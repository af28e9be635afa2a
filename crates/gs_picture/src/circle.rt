//! The texts of what stands on and in the circle.
ghost use Rattle.std.specs.Prelude.{◌≡◌, ◌++◌, length, OnOk};
ghost use Rattle.std.specs.List.{flat_map};
ghost use Rattle.gs_picture.specs.Circle.{anchor, circle_text, class_mark, class_name, class_words, crowd_begins, crowd_ends, crowd_kind, disc_begins, disc_ends, disc_text, dot_radius, edge_kind, edge_text, filling, label_at, label_text, labels_text, marked, outward, stands, turn, unmarked_disc};

use crate::discs::{Class, Disc};
use crate::edges::Edge;
use crate::pen::{push, push_name, push_number, push_place};
use crate::pieces::{Part, Piece, push_part, push_piece};
use crate::places::{
    LABEL_RADIUS, MOST_LEVEL, MOST_NAMED, Point, are_named, degrees, on_circle, radius_of,
};
use gs_base::PeerNo;
use gs_plan::Plan;
use gs_report::name_of;
use std::alloc::{AllocError, Global};

/// Adds the edges, the discs and the names.
#[tactic(auto, unfolding(crate::specs::Circle::circle_text))]
pub(crate) fn push_circle(
    alloc: Global,
    text: &mut Vec<u8>,
    plan: &Plan,
    edges: &[Edge],
    discs: &[Disc],
) -> Result<(), AllocError>
    ensures { OnOk result (text.new.items
        ≡ text.old.items ++ circle_text plan.now (length plan.now.peers) edges.now discs.now) }
{
    let count = plan.peers.len();
    begin_crowd(text, count)?;
    push_edges(alloc, text, count, edges)?;
    push_discs(alloc, text, count, discs)?;
    end_crowd(text, count)?;
    push_labels(alloc, text, plan, count, discs)
}

/// Begins a group of discs and faint edges, if there are too many peers for names.
fn begin_crowd(text: &mut Vec<u8>, count: usize) -> Result<(), AllocError>
    ensures { OnOk result (text.new.items ≡ text.old.items ++ crowd_begins count) }
{
    if count <= MOST_NAMED {
        return Ok(());
    }
    push_part(text, Part::CrowdBegins)?;
    push(text, crowd_kind(count))?;
    push_piece(text, Piece::TagEnds)
}

/// How faint edges are.
fn crowd_kind(count: usize) -> &'static str
    ensures { result.now ≡ crowd_kind count }
{
    if count <= 256 {
        "hundreds"
    } else {
        "thousands"
    }
}

fn end_crowd(text: &mut Vec<u8>, count: usize) -> Result<(), AllocError>
    ensures { OnOk result (text.new.items ≡ text.old.items ++ crowd_ends count) }
{
    if count <= MOST_NAMED {
        return Ok(());
    }
    push_part(text, Part::GroupEnds)
}

fn push_edges(
    alloc: Global,
    text: &mut Vec<u8>,
    count: usize,
    edges: &[Edge],
) -> Result<(), AllocError>
    ensures { OnOk result (text.new.items ≡ text.old.items ++ flat_map (edge_text count) edges.now) }
{
    for edge in edges {
        push_edge(alloc, text, count, *edge)?;
    }
    Ok(())
}

fn push_discs(
    alloc: Global,
    text: &mut Vec<u8>,
    count: usize,
    discs: &[Disc],
) -> Result<(), AllocError>
    ensures { OnOk result (text.new.items ≡ text.old.items ++ flat_map (disc_text count) discs.now) }
{
    for disc in discs {
        push_disc(alloc, text, count, *disc)?;
    }
    Ok(())
}

fn push_labels(
    alloc: Global,
    text: &mut Vec<u8>,
    plan: &Plan,
    count: usize,
    discs: &[Disc],
) -> Result<(), AllocError>
    ensures { OnOk result (text.new.items ≡ text.old.items ++ labels_text plan.now count discs.now) }
{
    if count > MOST_NAMED {
        return Ok(());
    }
    push_each_label(alloc, text, plan, count, discs)
}

fn push_each_label(
    alloc: Global,
    text: &mut Vec<u8>,
    plan: &Plan,
    count: usize,
    discs: &[Disc],
) -> Result<(), AllocError>
    ensures { OnOk result (text.new.items ≡ text.old.items ++ flat_map (label_text plan.now count) discs.now) }
{
    for disc in discs {
        push_label(alloc, text, plan, count, *disc)?;
    }
    Ok(())
}

/// Where the disc of a peer stands, of `count` peers.
fn stands(count: usize, peer: PeerNo) -> Point
    ensures { result ≡ stands count peer }
{
    on_circle(radius_of(count, peer), degrees(count, peer))
}

fn push_edge(alloc: Global, text: &mut Vec<u8>, count: usize, edge: Edge) -> Result<(), AllocError>
    ensures { OnOk result (text.new.items ≡ text.old.items ++ edge_text count edge) }
{
    push_piece(text, Piece::EdgeBegins)?;
    push(text, edge_kind(edge.both))?;
    push_piece(text, Piece::EdgeFrom)?;
    push_place(alloc, text, stands(count, edge.from))?;
    push_piece(text, Piece::EdgeTo)?;
    push_place(alloc, text, stands(count, edge.to))?;
    push_piece(text, Piece::PathEnds)
}

fn edge_kind(both: bool) -> &'static str
    ensures { result.now ≡ edge_kind both }
{
    if both { "both" } else { "one" }
}

fn push_disc(alloc: Global, text: &mut Vec<u8>, count: usize, disc: Disc) -> Result<(), AllocError>
    ensures { OnOk result (text.new.items ≡ text.old.items ++ disc_text count disc) }
{
    begin_disc(
        alloc,
        text,
        stands(count, disc.peer),
        disc.class,
        disc.subscribed,
    )?;
    end_disc(alloc, text, count, disc.class)
}

/// Begins the disc of a class at a place.
pub(crate) fn begin_disc(
    alloc: Global,
    text: &mut Vec<u8>,
    place: Point,
    class: Class,
    subscribed: bool,
) -> Result<(), AllocError>
    ensures { OnOk result (text.new.items ≡ text.old.items ++ disc_begins place class subscribed) }
{
    push_piece(text, Piece::DiscBegins)?;
    push(text, class_name(class))?;
    push(text, filling(subscribed))?;
    push_piece(text, Piece::MarkPlace)?;
    push_place(alloc, text, place)
}

/// Ends the disc of a class, of this many peers. It is small and has no mark if peers have no names.
fn end_disc(alloc: Global, text: &mut Vec<u8>, count: usize, class: Class) -> Result<(), AllocError>
    ensures { OnOk result (text.new.items ≡ text.old.items ++ disc_ends count class) }
{
    if are_named(count) {
        return end_marked(text, class);
    }
    end_unmarked(alloc, text, dot_radius(count))
}

/// How large discs without marks are, of this many peers.
fn dot_radius(count: usize) -> u8
    ensures { result ≡ dot_radius count }
{
    if count > 256 {
        return 2;
    }
    3
}

/// Ends a large disc, with the mark of its class.
pub(crate) fn end_marked(text: &mut Vec<u8>, class: Class) -> Result<(), AllocError>
    ensures { OnOk result (text.new.items ≡ text.old.items ++ marked class) }
{
    push_piece(text, Piece::DiscMark)?;
    push(text, class_mark(class))?;
    push_piece(text, Piece::DiscEnds)
}

/// Ends a disc of this radius, without a mark.
pub(crate) fn end_unmarked(alloc: Global, text: &mut Vec<u8>, radius: u8) -> Result<(), AllocError>
    ensures { OnOk result (text.new.items ≡ text.old.items ++ unmarked_disc radius) }
{
    push_piece(text, Piece::DotRadius)?;
    push_number(alloc, text, u128::from(radius))?;
    push_piece(text, Piece::DotEnds)
}

/// The name of a class in the style.
fn class_name(class: Class) -> &'static str
    ensures { result.now ≡ class_name class }
{
    match class {
        Class::Fair => "fair",
        Class::BelowZero => "zero",
        Class::BelowGossip => "gossip",
        Class::BelowPublish => "publish",
        Class::BelowGraylist => "graylist",
        Class::Unscored => "unscored",
    }
}

/// Its mark in the disc.
fn class_mark(class: Class) -> &'static str
    ensures { result.now ≡ class_mark class }
{
    match class {
        Class::Fair => "+",
        Class::BelowZero => "-",
        Class::BelowGossip => "g",
        Class::BelowPublish => "p",
        Class::BelowGraylist => "x",
        Class::Unscored => "?",
    }
}

/// Its words in the legend.
#[tactic(auto, unfolding(crate::specs::Circle::class_words))]
pub(crate) fn class_words(class: Class) -> &'static str
    ensures { result.now ≡ class_words class }
{
    match class {
        Class::Fair => "0 or more",
        Class::BelowZero => "below 0",
        Class::BelowGossip => "below the gossip threshold",
        Class::BelowPublish => "below the publish threshold",
        Class::BelowGraylist => "below the graylist threshold",
        Class::Unscored => "there is no such score",
    }
}

/// A peer that is not subscribed is hollow.
fn filling(subscribed: bool) -> &'static str
    ensures { result.now ≡ filling subscribed }
{
    if subscribed { "" } else { " off" }
}

fn push_label(
    alloc: Global,
    text: &mut Vec<u8>,
    plan: &Plan,
    count: usize,
    disc: Disc,
) -> Result<(), AllocError>
    ensures { OnOk result (text.new.items ≡ text.old.items ++ label_text plan.now count disc) }
{
    let name = name_of(plan, disc.peer);
    let level = count <= MOST_LEVEL;
    push_label_at(alloc, text, level, degrees(count, disc.peer), name)
}

fn push_label_at(
    alloc: Global,
    text: &mut Vec<u8>,
    level: bool,
    degrees: u64,
    name: &str,
) -> Result<(), AllocError>
    ensures { OnOk result (text.new.items ≡ text.old.items ++ label_at level degrees name.now) }
{
    push_piece(text, Piece::NameBegins)?;
    push(text, anchor(level, degrees))?;
    push_piece(text, Piece::MarkPlace)?;
    push_place(alloc, text, on_circle(LABEL_RADIUS, degrees))?;
    push_piece(text, Piece::NameTurn)?;
    push_number(alloc, text, turn(level, degrees))?;
    push_piece(text, Piece::NameText)?;
    push_name(alloc, text, name.as_bytes())?;
    push_piece(text, Piece::TextEnds)
}

/// Whether a name begins, ends or has its middle at its place.
fn anchor(level: bool, degrees: u64) -> &'static str
    ensures { result.now ≡ anchor level degrees }
{
    if level && (degrees == 0 || degrees == 180) {
        return "middle";
    }
    if degrees < 180 { "start" } else { "end" }
}

/// By how many degrees a name is turned.
fn turn(level: bool, degrees: u64) -> u128
    ensures { result ≡ turn level degrees }
{
    if level {
        return 0;
    }
    let degrees = u128::from(degrees);
    if degrees < 180 {
        (degrees + 270) % 360
    } else {
        (degrees + 90) % 360
    }
}
