//! The chart: the share of its subscribers that each message reached within each number of rounds, and the share for all
//! messages together.
ghost use Rattle.std.specs.Prelude.{◌≡◌, ◌<◌, ◌*◌, ◌^◌, ◌++◌, length, OnOk};
ghost use Rattle.std.specs.List.{flat_map};
ghost use Rattle.gs_figure_sheets.specs.Choices.{spelled};
ghost use Rattle.gs_picture.specs.Chart.{across, axes_text, axis_to, chart_head, chart_on, chart_text, first_above, level_text, levels, line_kind, line_text, lines_text, missed_text, spacings, step_text, tick_at, tick_text, ticks, up, whole_text};

use crate::courses::{Courses, longest, steps};
use crate::pen::{push, push_among, push_number};
use crate::pieces::{Part, Piece, push_chart_words, push_part, push_piece};
use gs_base::Seq;
use gs_figure_sheets::Choice;
use gs_reach::{Pair, Within, missed};
use std::alloc::{AllocError, Global};

/// The axis of rounds.
#[derive(Clone, Copy, Debug, PartialEq, Eq)]
struct Axis {
    /// The round at its end.
    end: u128,
    /// How many rounds lie between two ticks.
    spacing: u64,
}

/// How many rounds may lie between two ticks.
static SPACINGS: [u64; 13] = [
    1, 2, 5, 10, 20, 50, 100, 200, 500, 1_000, 2_000, 5_000, 10_000,
];

/// Adds the chart of how messages spread, with the names of the peers that count.
#[tactic(auto, unfolding(crate::specs::Chart::chart_text))]
pub(crate) fn push_chart(
    alloc: Global,
    text: &mut Vec<u8>,
    of: Choice<'_>,
    courses: &Courses,
) -> Result<(), AllocError>
    ensures { OnOk result (text.new.items ≡ text.old.items ++ chart_text (spelled of.entry) courses.now) }
{
    let axis = axis_to(longest(courses.all.as_slice()));
    push_head(alloc, text, of, courses.all.as_slice())?;
    push_axes(alloc, text, axis)?;
    push_lines(alloc, text, axis, courses)
}

/// Adds what stands above the axes and next to them.
fn push_head(
    alloc: Global,
    text: &mut Vec<u8>,
    of: Choice<'_>,
    all: &[Pair],
) -> Result<(), AllocError>
    ensures { OnOk result (text.new.items ≡ text.old.items ++ chart_head (spelled of.entry) all.now) }
{
    push_part(text, Part::ChartHead)?;
    push_among(alloc, text, of)?;
    push_part(text, Part::ChartHeadEnds)?;
    push_chart_words(text)?;
    push_missed(alloc, text, all)
}

/// Adds how many of these subscribers were not reached.
fn push_missed(alloc: Global, text: &mut Vec<u8>, all: &[Pair]) -> Result<(), AllocError>
    ensures { OnOk result (text.new.items ≡ text.old.items ++ missed_text all.now) }
{
    push_part(text, Part::MissedBegins)?;
    push_number(alloc, text, u128::from(missed(all)))?;
    push_part(text, Part::MissedOf)?;
    push_number(alloc, text, all.len() as u128)?;
    push_part(text, Part::MissedEnds)
}

/// The axis on which this many rounds are shown.
#[tactic(auto, unfolding(crate::specs::Chart::spacings))]
fn axis_to(rounds: u64) -> Axis
    ensures { result ≡ axis_to rounds }
{
    Axis {
        end: (u128::from(rounds) + 1).max(10),
        spacing: first_above(rounds, &SPACINGS),
    }
}

/// The first of these that is more than a tenth of a number, or 20,000 where there is none.
fn first_above(number: u64, spacings: &[u64]) -> u64
    ensures { result ≡ first_above number spacings.now }
{
    for spacing in spacings {
        if u128::from(number) < 10 * u128::from(*spacing) {
            return *spacing;
        }
    }
    20_000
}

fn push_axes(alloc: Global, text: &mut Vec<u8>, axis: Axis) -> Result<(), AllocError>
    ensures { OnOk result (text.new.items ≡ text.old.items ++ axes_text axis) }
{
    push_levels(alloc, text)?;
    push_ticks(alloc, text, axis)
}

#[tactic(auto, unfolding(crate::specs::Chart::levels))]
fn push_levels(alloc: Global, text: &mut Vec<u8>) -> Result<(), AllocError>
    ensures { OnOk result (text.new.items ≡ text.old.items ++ flat_map level_text levels) }
{
    push_each_level(alloc, text, &[0, 1, 2, 3, 4])
}

fn push_each_level(alloc: Global, text: &mut Vec<u8>, levels: &[u8]) -> Result<(), AllocError>
    ensures { OnOk result (text.new.items ≡ text.old.items ++ flat_map level_text levels.now) }
{
    for quarters in levels {
        push_level(alloc, text, *quarters)?;
    }
    Ok(())
}

/// Adds the line of this many quarters of the subscribers.
fn push_level(alloc: Global, text: &mut Vec<u8>, quarters: u8) -> Result<(), AllocError>
    ensures { OnOk result (text.new.items ≡ text.old.items ++ level_text quarters) }
{
    let quarters = u128::from(quarters);
    let level = 940u128.saturating_sub(50 * quarters);
    push_part(text, Part::LevelBegins)?;
    push_number(alloc, text, level)?;
    push_part(text, Part::LevelLabel)?;
    push_number(alloc, text, level + 4)?;
    push_piece(text, Piece::TagEnds)?;
    push_number(alloc, text, 25 * quarters)?;
    push_part(text, Part::LevelEnds)
}

#[tactic(auto, unfolding(crate::specs::Chart::ticks))]
fn push_ticks(alloc: Global, text: &mut Vec<u8>, axis: Axis) -> Result<(), AllocError>
    ensures { OnOk result (text.new.items ≡ text.old.items ++ flat_map (tick_text axis) ticks) }
{
    push_each_tick(alloc, text, axis, &[0, 1, 2, 3, 4, 5, 6, 7, 8, 9, 10])
}

fn push_each_tick(
    alloc: Global,
    text: &mut Vec<u8>,
    axis: Axis,
    ticks: &[u8],
) -> Result<(), AllocError>
    ensures { OnOk result (text.new.items ≡ text.old.items ++ flat_map (tick_text axis) ticks.now) }
{
    for tick in ticks {
        push_tick(alloc, text, axis, *tick)?;
    }
    Ok(())
}

/// Adds the line of this many ticks, as far as the axis goes.
fn push_tick(alloc: Global, text: &mut Vec<u8>, axis: Axis, ticks: u8) -> Result<(), AllocError>
    ensures { OnOk result (text.new.items ≡ text.old.items ++ tick_text axis ticks) }
{
    let round = rounds_of(axis, ticks);
    if round <= axis.end {
        return push_tick_at(alloc, text, axis, round);
    }
    Ok(())
}

/// How many rounds this many ticks are.
fn rounds_of(axis: Axis, ticks: u8) -> u128
    ensures product { result ≡ axis.spacing * ticks }
    ensures bound { result < 2 ^ 72 }
{
    u128::from(axis.spacing) * u128::from(ticks)
}

fn push_tick_at(
    alloc: Global,
    text: &mut Vec<u8>,
    axis: Axis,
    round: u128,
) -> Result<(), AllocError>
    requires { round < 2 ^ 72 }
    ensures { OnOk result (text.new.items ≡ text.old.items ++ tick_at axis round) }
{
    let place = across(axis, round);
    push_part(text, Part::TickBegins)?;
    push_number(alloc, text, place)?;
    push_part(text, Part::TickLabel)?;
    push_number(alloc, text, place)?;
    push_part(text, Part::TickText)?;
    push_number(alloc, text, round)?;
    push_piece(text, Piece::TextEnds)
}

/// Adds a thick line for all pairs together, and on top of it a thin one for each course.
fn push_lines(
    alloc: Global,
    text: &mut Vec<u8>,
    axis: Axis,
    courses: &Courses,
) -> Result<(), AllocError>
    ensures { OnOk result (text.new.items ≡ text.old.items ++ lines_text axis courses.now) }
{
    push_whole(alloc, text, axis, courses.all.as_slice())?;
    let kind = line_kind(courses.each.len());
    push_each_line(alloc, text, axis, kind, courses.each.as_slice())
}

fn push_each_line(
    alloc: Global,
    text: &mut Vec<u8>,
    axis: Axis,
    kind: &str,
    courses: &[Seq<Pair>],
) -> Result<(), AllocError>
    ensures { OnOk result (text.new.items ≡ text.old.items ++ flat_map (line_text axis kind.now) courses.now) }
{
    for pairs in courses {
        push_line(alloc, text, axis, kind, pairs.as_slice())?;
    }
    Ok(())
}

/// Adds the thick line of all together, where there are any.
fn push_whole(alloc: Global, text: &mut Vec<u8>, axis: Axis, all: &[Pair]) -> Result<(), AllocError>
    ensures { OnOk result (text.new.items ≡ text.old.items ++ whole_text axis all.now) }
{
    match all {
        [] => Ok(()),
        [_, ..] => push_line(alloc, text, axis, "all", all),
    }
}

/// Adds a line of a kind: the share of these subscribers that was reached within each number of rounds.
fn push_line(
    alloc: Global,
    text: &mut Vec<u8>,
    axis: Axis,
    kind: &str,
    pairs: &[Pair],
) -> Result<(), AllocError>
    ensures { OnOk result (text.new.items ≡ text.old.items ++ line_text axis kind.now pairs.now) }
{
    let steps = steps(alloc, pairs)?;
    push_part(text, Part::CourseBegins)?;
    push(text, kind)?;
    push_part(text, Part::CourseLine)?;
    push_steps(alloc, text, axis, pairs.len(), &steps)?;
    push_part(text, Part::CourseEnds)
}

fn push_steps(
    alloc: Global,
    text: &mut Vec<u8>,
    axis: Axis,
    count: usize,
    steps: &[Within],
) -> Result<(), AllocError>
    ensures { OnOk result (text.new.items ≡ text.old.items ++ flat_map (step_text axis count) steps.now) }
{
    for step in steps {
        push_step(alloc, text, axis, count, *step)?;
    }
    Ok(())
}

/// Adds that a line goes on to a number of rounds, and up to how many subscribers were reached within it.
fn push_step(
    alloc: Global,
    text: &mut Vec<u8>,
    axis: Axis,
    count: usize,
    step: Within,
) -> Result<(), AllocError>
    ensures { OnOk result (text.new.items ≡ text.old.items ++ step_text axis count step) }
{
    let across = across(axis, u128::from(step.limit));
    let up = up(count, step.reached);
    push(text, "H")?;
    push_number(alloc, text, across)?;
    push(text, "V")?;
    push_number(alloc, text, up)
}

/// Where a round lies from the left.
fn across(axis: Axis, round: u128) -> u128
    requires { round < 2 ^ 72 }
    ensures { result ≡ across axis round }
{
    60 + 800 * round / axis.end.max(1)
}

/// How far from the top the share of `reached` in `count` subscribers lies.
fn up(count: usize, reached: u64) -> u128
    ensures { result ≡ up count reached }
{
    940u128.saturating_sub(200 * u128::from(reached) / (count as u128).max(1))
}

/// How this many lines are drawn: the more there are, the paler they are.
fn line_kind(lines: usize) -> &'static str
    ensures { result.now ≡ line_kind lines }
{
    if lines <= 8 {
        return "few";
    }
    if lines <= 40 { "some" } else { "many" }
}
