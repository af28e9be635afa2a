//! Sheets of figures: one sheet for all sections, or one for each section.
ghost use Rattle.std.specs.Prelude.{◌≡◌, [], ◌∷◌, ◌++◌, IfOk, map, OnOk};
ghost use Rattle.gs_figure_sheets.specs.Columns.{column_of};
ghost use Rattle.gs_figure_sheets.specs.declared.wanted.Layout.TheVariants.{Person};
ghost use Rattle.gs_figure_sheets.specs.declared.wanted.Subject.TheVariants.{Links};
ghost use Rattle.gs_figure_sheets.specs.Figures.{figure_column};
ghost use Rattle.gs_figure_sheets.specs.Pages.{figure_pages, figure_sheet, label_columns, links_title, name_columns, peers_title, rounds_title, section_name, section_sheet, section_title, subject_name, topics_title, whole_sheet, whole_title};
ghost use Rattle.gs_figure_sheets.specs.Rows.{line_row};

use crate::columns::{Column, column_of};
use crate::figure::{Figure, figure_column};
use crate::figures::{Line, line_row};
use crate::party::Party;
use crate::section::{Section, section_figures, whole_figures};
use crate::wanted::{Layout, Subject};
use gs_base::Seq;
use gs_sheets::{Column as SheetColumn, Row, Sheet, bytes_of};
use std::alloc::{AllocError, Global};

/// Rows of figures about one subject.
#[derive(Clone, Copy, Debug, Drop)]
pub(crate) struct Page<'a> {
    pub subject: Subject,
    /// The groups that columns are about.
    pub parties: &'a [Party],
    pub lines: &'a [Line],
}

fn section_name(section: Section) -> &'static str
    ensures { result.now ≡ section_name section }
{
    match section {
        Section::Heard => "heard",
        Section::Sent => "sent",
        Section::Nothing => "nothing",
        Section::State => "state",
    }
}

fn subject_name(subject: Subject) -> &'static str
    ensures { result.now ≡ subject_name subject }
{
    match subject {
        Subject::Run => "peers",
        Subject::Rounds => "rounds",
        Subject::Topics => "topics",
        Subject::Links => "links",
    }
}

fn peers_title(section: Section) -> &'static str
    ensures { result.now ≡ peers_title section }
{
    match section {
        Section::Heard => "What each peer heard",
        Section::Sent => "What each peer sent",
        Section::Nothing => "What came to nothing, and why",
        Section::State => "Deliveries, meshes and scores",
    }
}

fn rounds_title(section: Section) -> &'static str
    ensures { result.now ≡ rounds_title section }
{
    match section {
        Section::Heard => "What was heard in each round",
        Section::Sent => "What was sent in each round",
        Section::Nothing => "What came to nothing in each round, and why",
        Section::State => "Deliveries, meshes and scores in each round",
    }
}

fn topics_title(section: Section) -> &'static str
    ensures { result.now ≡ topics_title section }
{
    match section {
        Section::Heard => "What was heard on each topic",
        Section::Sent => "What was sent on each topic",
        Section::Nothing => "What came to nothing on each topic, and why",
        Section::State => "Deliveries and meshes on each topic",
    }
}

fn links_title(section: Section) -> &'static str
    ensures { result.now ≡ links_title section }
{
    match section {
        Section::Heard => "What was heard over each link",
        Section::Sent => "What was sent over each link",
        Section::Nothing => "What came to nothing over each link, and why",
        Section::State => "Who came into whose mesh, and left it",
    }
}

/// Returns the line above a table of one section.
fn section_title(subject: Subject, section: Section) -> &'static str
    ensures { result.now ≡ section_title subject section }
{
    match subject {
        Subject::Run => peers_title(section),
        Subject::Rounds => rounds_title(section),
        Subject::Topics => topics_title(section),
        Subject::Links => links_title(section),
    }
}

/// Returns the line above a table of all sections.
fn whole_title(subject: Subject) -> &'static str
    ensures { result.now ≡ whole_title subject }
{
    match subject {
        Subject::Run => "What each peer did",
        Subject::Rounds => "What happened in each round",
        Subject::Topics => "What happened on each topic",
        Subject::Links => "What happened over each link",
    }
}

/// Returns how many columns of names say what a row is about.
fn name_columns(subject: Subject) -> usize
    ensures { result ≡ name_columns subject }
{
    match subject {
        Subject::Run => 1,
        Subject::Rounds => 0,
        Subject::Topics => 1,
        Subject::Links => 2,
    }
}

/// Returns the sheets of rows about one subject.
///
/// # Errors
/// `AllocError` when out of memory.
pub(crate) fn pages_of(
    alloc: Global,
    layout: Layout,
    page: &Page<'_>,
) -> Result<Seq<Sheet>, AllocError>
    ensures { IfOk result (λ sheets. sheets
        ≡ figure_pages layout page.now.subject page.now.parties.now page.now.lines.now) }
{
    let mut sheets = Seq::new(alloc);
    push_pages(alloc, &mut sheets, layout, page)?;
    Ok(sheets)
}

/// Appends the sheets of rows about one subject. A person gets one sheet for each section, and a program gets one for all.
///
/// # Errors
/// `AllocError` when out of memory.
pub(crate) fn push_pages(
    alloc: Global,
    sheets: &mut Seq<Sheet>,
    layout: Layout,
    page: &Page<'_>,
) -> Result<(), AllocError>
    ensures { OnOk result (sheets.new
        ≡ sheets.old ++ figure_pages layout page.now.subject page.now.parties.now page.now.lines.now) }
{
    match layout {
        Layout::Person => push_sections(alloc, sheets, page),
        Layout::Data => sheets.push(whole_sheet(alloc, page)?),
    }
}

fn push_sections(alloc: Global, sheets: &mut Seq<Sheet>, page: &Page<'_>) -> Result<(), AllocError>
    ensures { OnOk result (sheets.new
        ≡ sheets.old ++ figure_pages Person page.now.subject page.now.parties.now page.now.lines.now) }
{
    for section in &Section::ALL {
        sheets.push(section_sheet(alloc, page, *section)?)?;
    }
    Ok(())
}

fn section_sheet(alloc: Global, page: &Page<'_>, section: Section) -> Result<Sheet, AllocError>
    ensures { IfOk result (λ sheet. sheet
        ≡ section_sheet page.now.subject page.now.parties.now page.now.lines.now section) }
{
    let figures = section_figures(alloc, page.subject, page.parties.len(), section)?;
    let title = section_title(page.subject, section);
    figure_sheet(alloc, page, section_name(section), title, &figures)
}

fn whole_sheet(alloc: Global, page: &Page<'_>) -> Result<Sheet, AllocError>
    ensures { IfOk result (λ sheet. sheet ≡ whole_sheet page.now.subject page.now.parties.now page.now.lines.now) }
{
    let figures = whole_figures(alloc, page.subject, page.parties.len())?;
    let title = whole_title(page.subject);
    figure_sheet(alloc, page, subject_name(page.subject), title, &figures)
}

/// Returns a sheet of these figures.
#[tactic(auto, unfolding(crate::specs::Pages::figure_sheet))]
fn figure_sheet(
    alloc: Global,
    page: &Page<'_>,
    name: &str,
    title: &str,
    figures: &[Figure],
) -> Result<Sheet, AllocError>
    ensures { IfOk result (λ sheet. sheet
        ≡ figure_sheet page.now.subject page.now.parties.now page.now.lines.now name.now title.now figures.now) }
{
    let name = bytes_of(alloc, name.as_bytes())?;
    let title = bytes_of(alloc, title.as_bytes())?;
    let columns = columns_of(alloc, page.subject, page.parties, figures)?;
    let rows = rows_of(alloc, page.lines, figures)?;
    Ok(Sheet {
        name,
        title,
        columns,
        names: name_columns(page.subject),
        rows,
    })
}

fn rows_of(alloc: Global, lines: &[Line], figures: &[Figure]) -> Result<Seq<Row>, AllocError>
    ensures { IfOk result (λ rows. rows ≡ map (line_row figures.now) lines.now) }
{
    let mut rows = Seq::new(alloc);
    for line in lines {
        rows.push(line_row(alloc, figures, line)?)?;
    }
    Ok(rows)
}

fn columns_of(
    alloc: Global,
    subject: Subject,
    parties: &[Party],
    figures: &[Figure],
) -> Result<Seq<SheetColumn>, AllocError>
    ensures { IfOk result (λ columns. columns
        ≡ map column_of (label_columns subject) ++ map (figure_column parties.now) figures.now) }
{
    let mut columns = Seq::new(alloc);
    push_labels(alloc, &mut columns, subject)?;
    push_figures(alloc, &mut columns, parties, figures)?;
    Ok(columns)
}

/// Appends the columns that say what a row is about.
fn push_labels(
    alloc: Global,
    columns: &mut Seq<SheetColumn>,
    subject: Subject,
) -> Result<(), AllocError>
    ensures { OnOk result (columns.new ≡ columns.old ++ map column_of (label_columns subject)) }
{
    match subject {
        Subject::Run => columns.push(column_of(alloc, Column::Peer)?),
        Subject::Rounds => columns.push(column_of(alloc, Column::Round)?),
        Subject::Topics => columns.push(column_of(alloc, Column::Topic)?),
        Subject::Links => push_ends(alloc, columns),
    }
}

/// Appends the columns of the two ends of a link.
fn push_ends(alloc: Global, columns: &mut Seq<SheetColumn>) -> Result<(), AllocError>
    ensures { OnOk result (columns.new ≡ columns.old ++ map column_of (label_columns Links)) }
{
    columns.push(column_of(alloc, Column::From)?)?;
    columns.push(column_of(alloc, Column::To)?)
}

fn push_figures(
    alloc: Global,
    columns: &mut Seq<SheetColumn>,
    parties: &[Party],
    figures: &[Figure],
) -> Result<(), AllocError>
    ensures { OnOk result (columns.new ≡ columns.old ++ map (figure_column parties.now) figures.now) }
{
    for figure in figures {
        columns.push(figure_column(alloc, parties, *figure)?)?;
    }
    Ok(())
}
