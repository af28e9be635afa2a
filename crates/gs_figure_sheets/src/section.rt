//! Sections of figures, and which figures the rows of each subject have.
ghost use Rattle.std.specs.Prelude.{◌≡◌, ◌++◌, ◌∷◌, [], filter, IfOk, map, OnOk, true};
ghost use Rattle.std.specs.List.{range_with_len};
ghost use Rattle.gs_figure_sheets.specs.declared.figure.Figure.TheVariants.{LowestOf};
ghost use Rattle.gs_figure_sheets.specs.Sections.{all_figures, group_figures, has_groups, heard_figures, is_of_round, is_on_link, is_on_topic, is_count_of, is_shown, nothing_figures, section_figures, sent_figures, state_figures, whole_figures};

use crate::concern::Concern;
use crate::figure::Figure;
use crate::wanted::Subject;
use gs_counts::Kind;
use std::alloc::{AllocError, Global};

/// A section of figures, which is a table for a person.
#[derive(Clone, Copy, Debug, PartialEq, Eq)]
pub enum Section {
    /// What peers heard.
    Heard,
    /// What peers sent.
    Sent,
    /// What had no effect, and why.
    Nothing,
    /// Deliveries, meshes and scores.
    State,
}

impl Section {
    /// All sections, in the order of the tables.
    pub(crate) const ALL: [Section; 4] = [
        Section::Heard,
        Section::Sent,
        Section::Nothing,
        Section::State,
    ];
}

const HEARD: [Figure; 18] = [
    Figure::Of(Kind::RpcsHeard),
    Figure::BytesHeard,
    Figure::RawBytesHeard,
    Figure::Of(Kind::New),
    Figure::Of(Kind::Duplicates),
    Figure::Of(Kind::Ignored),
    Figure::Of(Kind::Rejected),
    Figure::Of(Kind::Signed),
    Figure::Of(Kind::OffTopic),
    Figure::Of(Kind::PayloadBytesNew),
    Figure::Of(Kind::PayloadBytesAgain),
    Figure::Of(Kind::SubscriptionsHeard),
    Figure::Of(Kind::IhaveHeard),
    Figure::Of(Kind::IdsOffered),
    Figure::Of(Kind::IwantHeard),
    Figure::Of(Kind::IdsAsked),
    Figure::Of(Kind::GraftHeard),
    Figure::Of(Kind::PruneHeard),
];

const SENT: [Figure; 15] = [
    Figure::Of(Kind::RpcsSent),
    Figure::Of(Kind::BytesSent),
    Figure::Of(Kind::RawBytesSent),
    Figure::Of(Kind::MessageBytesSent),
    Figure::Of(Kind::ControlBytesSent),
    Figure::Of(Kind::SubscriptionBytesSent),
    Figure::Of(Kind::SubscriptionsSent),
    Figure::Of(Kind::MessagesPushed),
    Figure::Of(Kind::MessagesAnswered),
    Figure::Of(Kind::IhaveSent),
    Figure::Of(Kind::IdsOfferedSent),
    Figure::Of(Kind::IwantSent),
    Figure::Of(Kind::IdsAskedSent),
    Figure::Of(Kind::GraftSent),
    Figure::Of(Kind::PruneSent),
];

const NOTHING: [Figure; 12] = [
    Figure::Of(Kind::RpcsGraylisted),
    Figure::Of(Kind::RpcsLate),
    Figure::Of(Kind::Faults),
    Figure::Of(Kind::GraftRefusedExplicit),
    Figure::Of(Kind::GraftRefusedBackoff),
    Figure::Of(Kind::GraftRefusedScore),
    Figure::Of(Kind::GraftRefusedFull),
    Figure::Of(Kind::IdsNotSentScore),
    Figure::Of(Kind::IdsNotSentTooOften),
    Figure::Of(Kind::IdsNotSentNotKept),
    Figure::Of(Kind::PromisesBroken),
    Figure::Of(Kind::RefusedLines),
];

const STATE: [Figure; 14] = [
    Figure::Of(Kind::Delivered),
    Figure::Of(Kind::Grafted),
    Figure::Of(Kind::GraftedByNeighbour),
    Figure::Of(Kind::GraftedByHeartbeat),
    Figure::Of(Kind::Pruned),
    Figure::Of(Kind::PrunedByNeighbour),
    Figure::Of(Kind::PrunedByHeartbeat),
    Figure::Of(Kind::PrunedByLoss),
    Figure::SmallestMesh,
    Figure::LargestMesh,
    Figure::LowestScore,
    Figure::HighestScore,
    Figure::LowestInRun,
    Figure::LowestAt,
];

/// Returns the figures of a section.
#[tactic(auto, unfolding(crate::specs::Sections::heard_figures, crate::specs::Sections::sent_figures, crate::specs::Sections::nothing_figures, crate::specs::Sections::state_figures))]
fn all_figures(section: Section) -> &'static [Figure]
    ensures { result.now ≡ all_figures section }
{
    match section {
        Section::Heard => &HEARD,
        Section::Sent => &SENT,
        Section::Nothing => &NOTHING,
        Section::State => &STATE,
    }
}

/// Says whether a figure stands in the row of a round.
fn is_of_round(figure: Figure) -> bool
    ensures { result ≡ is_of_round figure }
{
    match figure {
        Figure::Of(_) => true,
        Figure::BytesHeard => false,
        Figure::RawBytesHeard => false,
        Figure::SmallestMesh => true,
        Figure::LargestMesh => true,
        Figure::LowestScore => true,
        Figure::HighestScore => false,
        Figure::LowestInRun => false,
        Figure::LowestAt => false,
        Figure::LowestOf(_) => true,
    }
}

/// Says whether a figure stands in the rows of a subject.
fn is_shown(subject: Subject, figure: Figure) -> bool
    ensures { result ≡ is_shown subject figure }
{
    match subject {
        Subject::Run => true,
        Subject::Rounds => is_of_round(figure),
        Subject::Topics => is_on_topic(figure),
        Subject::Links => is_on_link(figure),
    }
}

/// Says whether a figure counts happenings on topics.
fn is_on_topic(figure: Figure) -> bool
    ensures { result ≡ is_count_of is_on_topic figure }
{
    match figure {
        Figure::Of(kind) => Concern::of(kind).is_on_topic(),
        _ => false,
    }
}

/// Says whether a figure counts happenings over links.
fn is_on_link(figure: Figure) -> bool
    ensures { result ≡ is_count_of is_on_link figure }
{
    match figure {
        Figure::Of(kind) => Concern::of(kind).is_on_link(),
        _ => false,
    }
}

/// Says whether the lowest scores of groups follow the figures of a section in the rows of a subject.
fn has_groups(subject: Subject, section: Section) -> bool
    ensures { result ≡ has_groups subject section }
{
    match subject {
        Subject::Run => false,
        Subject::Rounds => section == Section::State,
        Subject::Topics => false,
        Subject::Links => false,
    }
}

/// Returns the figures of a section in the rows of a subject, where `count` is the number of groups.
///
/// # Errors
/// `AllocError` when out of memory.
pub(crate) fn section_figures(
    alloc: Global,
    subject: Subject,
    count: usize,
    section: Section,
) -> Result<Vec<Figure>, AllocError>
    ensures { IfOk result (λ figures. figures.items ≡ section_figures subject count section) }
{
    let mut figures = Vec::new(alloc);
    push_section(&mut figures, subject, count, section)?;
    Ok(figures)
}

/// Returns the figures of all sections in the rows of a subject, where `count` is the number of groups.
///
/// # Errors
/// `AllocError` when out of memory.
pub(crate) fn whole_figures(
    alloc: Global,
    subject: Subject,
    count: usize,
) -> Result<Vec<Figure>, AllocError>
    ensures { IfOk result (λ figures. figures.items ≡ whole_figures subject count) }
{
    let mut figures = Vec::new(alloc);
    for section in &Section::ALL {
        push_section(&mut figures, subject, count, *section)?;
    }
    Ok(figures)
}

fn push_section(
    figures: &mut Vec<Figure>,
    subject: Subject,
    count: usize,
    section: Section,
) -> Result<(), AllocError>
    ensures { OnOk result (figures.new.items ≡ figures.old.items ++ section_figures subject count section) }
{
    push_shown(figures, subject, all_figures(section))?;
    push_groups(figures, has_groups(subject, section), count)
}

/// Appends those of these figures that stand in the rows of a subject.
fn push_shown(figures: &mut Vec<Figure>, subject: Subject, all: &[Figure]) -> Result<(), AllocError>
    ensures { OnOk result (figures.new.items ≡ figures.old.items ++ filter (is_shown subject) all.now) }
{
    for figure in all {
        if is_shown(subject, *figure) {
            figures.push(*figure)?;
        }
    }
    Ok(())
}

/// Appends the lowest scores of groups, if the rows have them.
fn push_groups(figures: &mut Vec<Figure>, are_there: bool, count: usize) -> Result<(), AllocError>
    ensures { OnOk result (figures.new.items ≡ figures.old.items ++ group_figures are_there count) }
{
    if !are_there {
        return Ok(());
    }
    for place in 0..count {
        figures.push(Figure::LowestOf(place))?;
    }
    Ok(())
}
