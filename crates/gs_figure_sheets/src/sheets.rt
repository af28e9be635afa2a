//! Makes the sheets of a run that are wanted.
ghost use Rattle.std.specs.Prelude.{◌≡◌, IfOk};
ghost use Rattle.gs_figure_sheets.specs.FigureSheets.{sheets_of_links, sheets_of_rounds, sheets_of_topics, sheets_with};

use crate::found::Found;
use crate::groups::push_groups;
use crate::inquiry::Inquiry;
use crate::lines::{link_lines, round_lines, topic_lines};
use crate::pages::{Page, pages_of, push_pages};
use crate::reach::sheets_among;
use crate::wanted::Subject;
use gs_base::Seq;
use gs_counts::RunCounts;
use gs_opinions::Opinions;
use gs_plan::Plan;
use gs_sheets::Sheet;
use std::alloc::{AllocError, Global};

/// Returns the sheets about a whole run: how many subscribers messages reached, then peers, then groups.
///
/// # Errors
/// `AllocError` when out of memory.
pub(crate) fn run_sheets(
    alloc: Global,
    plan: &Plan,
    inquiry: &Inquiry,
    found: &Found,
) -> Result<Seq<Sheet>, AllocError>
    ensures { IfOk result (λ sheets. sheets ≡ sheets_with plan.now inquiry.now found.now) }
{
    let lines = found.peer_lines(alloc, plan, inquiry)?;
    let messages = found.messages.as_slice();
    let mut sheets = sheets_among(alloc, plan, &inquiry.by, &inquiry.among, messages)?;
    let parties = inquiry.parties.as_slice();
    let page = Page {
        subject: Subject::Run,
        parties,
        lines: lines.as_slice(),
    };
    push_pages(alloc, &mut sheets, inquiry.layout, &page)?;
    push_groups(alloc, &mut sheets, &found.dealings(), parties)?;
    Ok(sheets)
}

/// Returns the sheets about rounds.
///
/// # Errors
/// `AllocError` when out of memory.
pub(crate) fn round_sheets(
    alloc: Global,
    inquiry: &Inquiry,
    opinions: &Opinions,
    counts: &RunCounts,
) -> Result<Seq<Sheet>, AllocError>
    ensures { IfOk result (λ sheets. sheets ≡ sheets_of_rounds inquiry.now opinions.now counts.now) }
{
    let lines = round_lines(alloc, opinions, counts.rounds.as_slice())?;
    let page = Page {
        subject: Subject::Rounds,
        parties: inquiry.parties.as_slice(),
        lines: lines.as_slice(),
    };
    pages_of(alloc, inquiry.layout, &page)
}

/// Returns the sheets about topics.
///
/// # Errors
/// `AllocError` when out of memory.
pub(crate) fn topic_sheets(
    alloc: Global,
    inquiry: &Inquiry,
    counts: &RunCounts,
) -> Result<Seq<Sheet>, AllocError>
    ensures { IfOk result (λ sheets. sheets ≡ sheets_of_topics inquiry.now counts.now) }
{
    let lines = topic_lines(alloc, counts.topics.as_slice())?;
    let page = Page {
        subject: Subject::Topics,
        parties: &[],
        lines: lines.as_slice(),
    };
    pages_of(alloc, inquiry.layout, &page)
}

/// Returns the sheets about links.
///
/// # Errors
/// `AllocError` when out of memory.
pub(crate) fn link_sheets(
    alloc: Global,
    plan: &Plan,
    inquiry: &Inquiry,
    counts: &RunCounts,
) -> Result<Seq<Sheet>, AllocError>
    ensures { IfOk result (λ sheets. sheets ≡ sheets_of_links plan.now inquiry.now counts.now) }
{
    let lines = link_lines(alloc, plan, &inquiry.among, counts.links.as_slice())?;
    let page = Page {
        subject: Subject::Links,
        parties: &[],
        lines: lines.as_slice(),
    };
    pages_of(alloc, inquiry.layout, &page)
}
