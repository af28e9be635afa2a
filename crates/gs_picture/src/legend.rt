//! The legend: what the discs and the lines between them mean.
ghost use Rattle.std.specs.Prelude.{◌≡◌, ◌++◌, OnOk};
ghost use Rattle.gs_figure_sheets.specs.Choices.{spelled};
ghost use Rattle.gs_picture.specs.Legend.{legend_class, legend_disc_ends, legend_head, legend_text, line_words};

use crate::circle::{begin_disc, class_words, end_marked, end_unmarked};
use crate::discs::Class;
use crate::pen::{push, push_among, push_number};
use crate::pieces::{Piece, push_crowd_words, push_legend_words, push_piece};
use crate::places::Point;
use gs_figure_sheets::Choice;
use std::alloc::{AllocError, Global};

/// Adds the legend of a picture in which peers have names, or have none.
#[tactic(auto, unfolding(crate::specs::Legend::legend_text))]
pub(crate) fn push_legend(
    alloc: Global,
    text: &mut Vec<u8>,
    named: bool,
    of: Choice<'_>,
) -> Result<(), AllocError>
    ensures { OnOk result (text.new.items ≡ text.old.items ++ legend_text named (spelled of.entry)) }
{
    push_head(alloc, text, of)?;
    push_line_words(text, named)?;
    push_class(alloc, text, named, (69, 612), Class::Fair)?;
    push_class(alloc, text, named, (329, 612), Class::BelowZero)?;
    push_class(alloc, text, named, (589, 612), Class::BelowGossip)?;
    push_class(alloc, text, named, (69, 636), Class::BelowPublish)?;
    push_class(alloc, text, named, (329, 636), Class::BelowGraylist)?;
    push_class(alloc, text, named, (589, 636), Class::Unscored)
}

/// Adds what lines and hollow discs mean, and where peers stand if they have no names.
fn push_line_words(text: &mut Vec<u8>, named: bool) -> Result<(), AllocError>
    ensures { OnOk result (text.new.items ≡ text.old.items ++ line_words named) }
{
    if named {
        return push_legend_words(text);
    }
    push_crowd_words(text)
}

/// Adds whose scores colour the discs.
fn push_head(alloc: Global, text: &mut Vec<u8>, of: Choice<'_>) -> Result<(), AllocError>
    ensures { OnOk result (text.new.items ≡ text.old.items ++ legend_head (spelled of.entry)) }
{
    push_piece(text, Piece::LegendHead)?;
    push_among(alloc, text, of)?;
    push_piece(text, Piece::LegendHeadEnds)
}

/// Adds a class: its disc, and its words beside it.
#[tactic(auto, unfolding(crate::specs::Legend::legend_class))]
fn push_class(
    alloc: Global,
    text: &mut Vec<u8>,
    named: bool,
    place: (u16, u16),
    class: Class,
) -> Result<(), AllocError>
    ensures { OnOk result (text.new.items ≡ text.old.items ++ legend_class named place.0 place.1 class) }
{
    let (x, y) = place;
    let centre = Point {
        x: u128::from(x),
        y: u128::from(y),
    };
    begin_disc(alloc, text, centre, class, true)?;
    end_legend_disc(alloc, text, named, class)?;
    push_piece(text, Piece::WordsAcross)?;
    push_number(alloc, text, u128::from(x) + 16)?;
    push_piece(text, Piece::WordsDown)?;
    push_number(alloc, text, u128::from(y) + 4)?;
    push_piece(text, Piece::TagEnds)?;
    push(text, class_words(class))?;
    push_piece(text, Piece::TextEnds)
}

/// Ends the disc of a class. It has a mark if the discs of peers have marks.
fn end_legend_disc(
    alloc: Global,
    text: &mut Vec<u8>,
    named: bool,
    class: Class,
) -> Result<(), AllocError>
    ensures { OnOk result (text.new.items ≡ text.old.items ++ legend_disc_ends named class) }
{
    if named {
        return end_marked(text, class);
    }
    end_unmarked(alloc, text, 9)
}
