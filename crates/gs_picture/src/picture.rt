//! The picture of a run.
ghost use Rattle.std.specs.Prelude.{◌≡◌, ◌++◌, IfOk, OnOk};
ghost use Rattle.gs_figure_sheets.specs.Choices.{spelled};
ghost use Rattle.gs_picture.specs.Picture.{lower_text, middle_text, picture, upper_text};

use crate::chart::push_chart;
use crate::circle::push_circle;
use crate::courses::{Courses, courses_of};
use crate::discs::discs;
use crate::edges::edges;
use crate::frame::{push_lowered, push_opening, push_title, room_of};
use crate::legend::push_legend;
use crate::pieces::{Part, push_part, push_style};
use crate::places::are_named;
use crate::table::push_table;
use gs_base::Topic;
use gs_figure_sheets::{Choice, chosen_by};
use gs_plan::Plan;
use gs_reach::Chosen;
use gs_report::Report;
use std::alloc::{AllocError, Global};

/// Returns the picture of a run of a plan, as SVG. It shows the mesh edges of the topic at the end, and how the chosen peers
/// score each peer. It also shows how many rounds each accepted message on the topic took to reach those peers.
///
/// # Errors
/// `AllocError` if it runs out of memory.
pub fn picture_svg(
    alloc: Global,
    plan: &Plan,
    report: &Report,
    topic: &Topic,
    of: Choice<'_>,
) -> Result<Vec<u8>, AllocError>
    ensures { IfOk result (λ bytes. bytes.items ≡ picture plan.now report.now topic.now (spelled of.entry)) }
{
    let chosen = chosen_by(alloc, plan, report, of)?;
    let courses = courses_of(alloc, plan, report, topic, &chosen)?;
    let mut text = Vec::new(alloc);
    push_upper(alloc, &mut text, plan, topic, courses.each.len())?;
    push_middle(alloc, &mut text, (plan, report), topic, &chosen)?;
    push_lower(alloc, &mut text, plan, of, &courses)?;
    Ok(text)
}

/// Adds what stands above the circle.
#[tactic(auto, unfolding(crate::specs::Picture::upper_text))]
fn push_upper(
    alloc: Global,
    text: &mut Vec<u8>,
    plan: &Plan,
    topic: &Topic,
    messages: usize,
) -> Result<(), AllocError>
    ensures { OnOk result (text.new.items ≡ text.old.items ++ upper_text plan.now topic.now messages) }
{
    let tall = 990 + 2 * u128::from(room_of(plan));
    push_opening(alloc, text, plan.peers.len(), tall)?;
    push_style(text)?;
    push_title(alloc, text, plan, topic, messages)
}

/// Adds the circle of a run, by the scores that some peers give.
#[tactic(auto, unfolding(crate::specs::Picture::middle_text))]
fn push_middle(
    alloc: Global,
    text: &mut Vec<u8>,
    run: (&Plan, &Report),
    topic: &Topic,
    of: &Chosen,
) -> Result<(), AllocError>
    ensures { OnOk result (text.new.items ≡ text.old.items ++ middle_text run.entry.0.now run.entry.1.now topic.now of.now) }
{
    let plan = run.0;
    let peers = run.1.peers.as_slice();
    let discs = discs(alloc, &plan.params.thresholds, of, peers, topic)?;
    let edges = edges(alloc, peers, topic)?;
    push_lowered(alloc, text, u128::from(room_of(plan)))?;
    push_circle(alloc, text, plan, &edges, &discs)
}

/// Adds what stands below the circle, with the names of those peers.
#[tactic(auto, unfolding(crate::specs::Picture::lower_text))]
fn push_lower(
    alloc: Global,
    text: &mut Vec<u8>,
    plan: &Plan,
    of: Choice<'_>,
    courses: &Courses,
) -> Result<(), AllocError>
    ensures { OnOk result (text.new.items ≡ text.old.items ++ lower_text plan.now (spelled of.entry) courses.now) }
{
    let named = are_named(plan.peers.len());
    push_part(text, Part::GroupEnds)?;
    push_lowered(alloc, text, 2 * u128::from(room_of(plan)))?;
    push_legend(alloc, text, named, of)?;
    push_chart(alloc, text, of, courses)?;
    push_table(alloc, text, named, courses.all.as_slice())?;
    push_part(text, Part::PictureEnds)
}
