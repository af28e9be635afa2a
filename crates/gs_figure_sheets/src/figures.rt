//! The values in rows of figures, and the sums of several rows.
ghost use Rattle.std.specs.Prelude.{◌≡◌, ◌++◌, ◌∷◌, [], fold, IfOk, map, OnOk};
ghost use Rattle.gs_figure_sheets.specs.Lines.{line_of};
ghost use Rattle.gs_figure_sheets.specs.Rows.{has_chosen, highest_in, joined, joined_of, label_value, line_row, lowest_in, moment_of, no_figures, only_counts, score_at, score_of, score_or_none, sum_of, value_in, value_of, whole_or_none};

use crate::figure::Figure;
use crate::rows::count_or_none;
use crate::span::{joined_spans, lower};
use gs_base::{PeerNo, Seq};
use gs_counts::{Counts, Span, no_counts};
use gs_opinions::Lowest;
use gs_reach::Chosen;
use gs_sheets::{Row, Value, bytes_of};
use std::alloc::{AllocError, Global};

/// The figures of a row.
#[derive(Clone, Copy, Debug, PartialEq, Eq)]
pub struct RowFigures {
    pub counts: Counts,
    /// How many bytes neighbours put on their links to the peers of the row.
    pub bytes_heard: u64,
    /// How many of these are raw bytes, which the script put on a link.
    pub raw_bytes_heard: u64,
    /// How many members the smallest and the largest mesh have.
    pub meshes: Option<Span>,
    /// The lowest and the highest score that are given. For a round only the lowest is known, and it stands for both.
    pub scores: Option<Span>,
    /// The lowest score that is given over the run, and when it is first given.
    pub lowest: Option<Lowest>,
}

/// The figures of a peer.
#[derive(Clone, Copy, Debug, PartialEq, Eq)]
pub struct PeerFigures {
    pub peer: PeerNo,
    pub figures: RowFigures,
}

/// What a row is about.
#[derive(Debug, Drop)]
pub enum Label {
    Named(Seq<u8>),
    Numbered(u64),
}

/// A row of figures.
#[derive(Debug, Drop)]
pub struct Line {
    pub labels: Seq<Label>,
    /// None if the row is about nobody: then not even a count is known.
    pub figures: Option<RowFigures>,
    /// For each group, the lowest score that one of its members receives. It is empty if the row does not report groups.
    pub groups: Seq<Option<i128>>,
}

impl Line {
    /// Returns a row that does not report groups.
    pub(crate) fn of(alloc: Global, labels: Seq<Label>, figures: Option<RowFigures>) -> Line
        ensures { result ≡ line_of labels figures }
    {
        Line {
            labels,
            figures,
            groups: Seq::new(alloc),
        }
    }
}

/// Returns figures in which each count is 0, and there is no mesh and no score.
fn no_figures() -> RowFigures
    ensures { result ≡ no_figures }
{
    RowFigures::only_counts(no_counts())
}

impl RowFigures {
    /// Returns figures with these counts, and nothing else.
    pub(crate) fn only_counts(counts: Counts) -> RowFigures
        ensures { result ≡ only_counts counts }
    {
        RowFigures {
            counts,
            bytes_heard: 0,
            raw_bytes_heard: 0,
            meshes: None,
            scores: None,
            lowest: None,
        }
    }

    /// Returns the figures of both rows, joined.
    fn joined(&self, other: &RowFigures) -> RowFigures
        ensures { result ≡ joined self.now other.now }
    {
        RowFigures {
            counts: self.counts.with(&other.counts),
            bytes_heard: self.bytes_heard.saturating_add(other.bytes_heard),
            raw_bytes_heard: self.raw_bytes_heard.saturating_add(other.raw_bytes_heard),
            meshes: joined_spans(&self.meshes, &other.meshes),
            scores: joined_spans(&self.scores, &other.scores),
            lowest: lower(&self.lowest, &other.lowest),
        }
    }
}

/// Returns the joined figures of the chosen ones among these peers, or None if none of them is chosen.
pub(crate) fn joined_of(chosen: &Chosen, rows: &[PeerFigures]) -> Option<RowFigures>
    ensures { result ≡ joined_of chosen.now rows.now }
{
    if has_chosen(chosen, rows) {
        return Some(sum_of(chosen, rows));
    }
    None
}

/// Says whether some of these peers are chosen.
fn has_chosen(chosen: &Chosen, rows: &[PeerFigures]) -> bool
    ensures { result ≡ has_chosen chosen.now rows.now }
{
    rows.iter().any(|row| chosen.contains(row.peer))
}

/// Returns the joined figures of the chosen ones among these peers.
fn sum_of(chosen: &Chosen, rows: &[PeerFigures]) -> RowFigures
    ensures { result ≡ sum_of chosen.now rows.now }
{
    let mut sum = no_figures();
    for row in rows {
        if chosen.contains(row.peer) {
            sum = sum.joined(&row.figures);
        }
    }
    sum
}

// ---- values

fn whole_or_none(number: Option<i128>) -> Value
    ensures { result ≡ whole_or_none number }
{
    match number {
        Some(number) => Value::Whole(number),
        None => Value::Missing,
    }
}

pub(crate) fn score_or_none(score: Option<i128>) -> Value
    ensures { result ≡ score_or_none score }
{
    match score {
        Some(score) => Value::Score(score),
        None => Value::Missing,
    }
}

pub(crate) fn lowest_in(span: &Option<Span>) -> Option<i128>
    ensures { result ≡ lowest_in span.now }
{
    match span {
        Some(span) => Some(span.lowest),
        None => None,
    }
}

fn highest_in(span: &Option<Span>) -> Option<i128>
    ensures { result ≡ highest_in span.now }
{
    match span {
        Some(span) => Some(span.highest),
        None => None,
    }
}

pub(crate) fn score_of(lowest: &Option<Lowest>) -> Option<i128>
    ensures { result ≡ score_of lowest.now }
{
    match lowest {
        Some(lowest) => Some(lowest.score),
        None => None,
    }
}

pub(crate) fn moment_of(lowest: &Option<Lowest>) -> Option<u64>
    ensures { result ≡ moment_of lowest.now }
{
    match lowest {
        Some(lowest) => Some(lowest.at.0),
        None => None,
    }
}

/// Returns the score at an index, if there is one.
fn score_at(scores: &[Option<i128>], place: usize) -> Option<i128>
    ensures { result ≡ score_at scores.now place }
{
    match scores.get(place) {
        Some(score) => *score,
        None => None,
    }
}

/// Returns the value of a figure in a row. It is missing if the row is about nobody.
fn value_of(line: &Line, figure: Figure) -> Value
    ensures { result ≡ value_of line.now figure }
{
    match &line.figures {
        Some(figures) => value_in(figures, line.groups.as_slice(), figure),
        None => Value::Missing,
    }
}

/// Returns the value of a figure, from the figures of a row and the lowest scores of groups.
fn value_in(figures: &RowFigures, groups: &[Option<i128>], figure: Figure) -> Value
    ensures { result ≡ value_in figures.now groups.now figure }
{
    match figure {
        Figure::Of(kind) => Value::Count(figures.counts.of(kind)),
        Figure::BytesHeard => Value::Count(figures.bytes_heard),
        Figure::RawBytesHeard => Value::Count(figures.raw_bytes_heard),
        Figure::SmallestMesh => whole_or_none(lowest_in(&figures.meshes)),
        Figure::LargestMesh => whole_or_none(highest_in(&figures.meshes)),
        Figure::LowestScore => score_or_none(lowest_in(&figures.scores)),
        Figure::HighestScore => score_or_none(highest_in(&figures.scores)),
        Figure::LowestInRun => score_or_none(score_of(&figures.lowest)),
        Figure::LowestAt => count_or_none(moment_of(&figures.lowest)),
        Figure::LowestOf(place) => score_or_none(score_at(groups, place)),
    }
}

/// Returns a row: what it is about, and then these figures.
///
/// # Errors
/// `AllocError` when out of memory.
#[tactic(auto, unfolding(crate::specs::Rows::line_row))]
pub(crate) fn line_row(alloc: Global, figures: &[Figure], line: &Line) -> Result<Row, AllocError>
    ensures { IfOk result (λ row. row ≡ line_row figures.now line.now) }
{
    let mut row = Seq::new(alloc);
    push_labels(alloc, &mut row, line.labels.as_slice())?;
    push_values(&mut row, line, figures)?;
    Ok(row)
}

fn push_labels(alloc: Global, row: &mut Row, labels: &[Label]) -> Result<(), AllocError>
    ensures { OnOk result (row.new ≡ row.old ++ map label_value labels.now) }
{
    for label in labels {
        row.push(label_value(alloc, label)?)?;
    }
    Ok(())
}

fn label_value(alloc: Global, label: &Label) -> Result<Value, AllocError>
    ensures { IfOk result (λ value. value ≡ label_value label.now) }
{
    match label {
        Label::Named(name) => Ok(Value::Name(bytes_of(alloc, name.as_slice())?)),
        Label::Numbered(number) => Ok(Value::Count(*number)),
    }
}

fn push_values(row: &mut Row, line: &Line, figures: &[Figure]) -> Result<(), AllocError>
    ensures { OnOk result (row.new ≡ row.old ++ map (value_of line.now) figures.now) }
{
    for figure in figures {
        row.push(value_of(line, *figure))?;
    }
    Ok(())
}
