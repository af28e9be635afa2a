//! The columns of sheets.
ghost use Rattle.std.specs.Prelude.{◌≡◌, ◌++◌, IfOk, OnOk, map};
ghost use Rattle.gs_figure_sheets.specs.Columns.{column_name, column_of, group_columns, header_text, limit_columns, message_columns, spread_columns};

use gs_base::Seq;
use gs_sheets::{Column as SheetColumn, bytes_of};
use std::alloc::{AllocError, Global};

/// A column of figures.
#[derive(Clone, Copy, Debug)]
pub enum Column {
    Topic,
    Payload,
    /// The peer that published a message first.
    Publisher,
    /// The result of validation of a payload.
    Verdict,
    /// How many peers published a message at its moment.
    Publishers,
    /// When a message was first published, in milliseconds from the start of the run.
    At,
    /// How many subscribers a message could reach.
    Subscribers,
    Reached,
    Missed,
    /// In how many rounds the first subscriber was reached.
    First,
    /// In how many rounds half of the subscribers were reached.
    Median,
    /// In how many rounds 90% of the subscribers were reached.
    Ninetieth,
    /// In how many rounds 99% of the subscribers were reached.
    NinetyNinth,
    /// In how many rounds all subscribers were reached.
    Last,
    /// Whether subscribers were reached or missed.
    Outcome,
    /// Within how many rounds subscribers were reached.
    Within,
    /// How many pairs of a message and a subscriber there are.
    Pairs,
    /// The share of all pairs, in per cent.
    Share,
    /// The peer or group that a row is about.
    Peer,
    /// The round that a row is about.
    Round,
    /// The first end of a row: the sender of a link, or the first group.
    From,
    /// The second end of a row: the receiver of a link, or the second group.
    To,
    /// How many RPCs are sent.
    Rpcs,
    /// How many bytes are sent.
    Bytes,
    /// How many places in meshes the members of a group hold.
    MeshMembers,
    /// How many places those meshes have in all.
    MeshPlaces,
    /// The lowest score that is given at the end.
    LowestScore,
    /// The lowest score that is given over the run.
    LowestInRun,
    /// When that score is first given, in milliseconds from the start of the run.
    LowestAt,
}

/// Returns the name of a column in CSV and JSON.
fn column_name(column: Column) -> &'static str
    ensures { result.now ≡ column_name column }
{
    match column {
        Column::Topic => "topic",
        Column::Payload => "payload",
        Column::Publisher => "publisher",
        Column::Verdict => "verdict",
        Column::Publishers => "publishers",
        Column::At => "at_ms",
        Column::Subscribers => "subscribers",
        Column::Reached => "reached",
        Column::Missed => "missed",
        Column::First => "first_round",
        Column::Median => "median_round",
        Column::Ninetieth => "round_90",
        Column::NinetyNinth => "round_99",
        Column::Last => "last_round",
        Column::Outcome => "outcome",
        Column::Within => "within_rounds",
        Column::Pairs => "pairs",
        Column::Share => "share",
        Column::Peer => "peer",
        Column::Round => "round",
        Column::From => "from",
        Column::To => "to",
        Column::Rpcs => "rpcs_sent",
        Column::Bytes => "bytes_sent",
        Column::MeshMembers => "mesh_members",
        Column::MeshPlaces => "mesh_places",
        Column::LowestScore => "lowest_score",
        Column::LowestInRun => "lowest_in_run",
        Column::LowestAt => "lowest_at_ms",
    }
}

/// Returns the header of a column in a table for a person.
fn header_text(column: Column) -> &'static str
    ensures { result.now ≡ header_text column }
{
    match column {
        Column::Topic => "topic",
        Column::Payload => "payload",
        Column::Publisher => "from",
        Column::Verdict => "verdict",
        Column::Publishers => "publishers",
        Column::At => "at_ms",
        Column::Subscribers => "subscribers",
        Column::Reached => "reached",
        Column::Missed => "missed",
        Column::First => "first",
        Column::Median => "median",
        Column::Ninetieth => "90%",
        Column::NinetyNinth => "99%",
        Column::Last => "last",
        Column::Outcome => "outcome",
        Column::Within => "within rounds",
        Column::Pairs => "pairs",
        Column::Share => "% of pairs",
        Column::Peer => "peer",
        Column::Round => "round",
        Column::From => "from",
        Column::To => "to",
        Column::Rpcs => "RPCs",
        Column::Bytes => "bytes",
        Column::MeshMembers => "mesh places held",
        Column::MeshPlaces => "mesh places",
        Column::LowestScore => "lowest score",
        Column::LowestInRun => "lowest in run",
        Column::LowestAt => "lowest at ms",
    }
}

/// Returns the columns of the sheet of messages.
pub(crate) fn message_columns(alloc: Global) -> Result<Seq<SheetColumn>, AllocError>
    ensures { IfOk result (λ columns. columns ≡ map column_of message_columns) }
{
    let columns = message_list(alloc)?;
    columns_of(alloc, &columns)
}

#[tactic(auto, unfolding(crate::specs::Columns::message_columns))]
fn message_list(alloc: Global) -> Result<Vec<Column>, AllocError>
    ensures { IfOk result (λ columns. columns.items ≡ message_columns) }
{
    let list = vec![in alloc;
        Column::Topic,
        Column::Payload,
        Column::Publisher,
        Column::Verdict,
        Column::Publishers,
        Column::At,
        Column::Subscribers,
        Column::Reached,
        Column::Missed,
        Column::First,
        Column::Median,
        Column::Ninetieth,
        Column::Last,
    ]?;
    Ok(list)
}

/// Returns the columns of the sheet of limits of rounds.
pub(crate) fn limit_columns(alloc: Global) -> Result<Seq<SheetColumn>, AllocError>
    ensures { IfOk result (λ columns. columns ≡ map column_of limit_columns) }
{
    let columns = limit_list(alloc)?;
    columns_of(alloc, &columns)
}

#[tactic(auto, unfolding(crate::specs::Columns::limit_columns))]
fn limit_list(alloc: Global) -> Result<Vec<Column>, AllocError>
    ensures { IfOk result (λ columns. columns.items ≡ limit_columns) }
{
    let list = vec![in alloc;
        Column::Outcome,
        Column::Within,
        Column::Pairs,
        Column::Share,
    ]?;
    Ok(list)
}

/// Returns the columns of the sheet that says in how many rounds parts of all subscribers were reached.
pub(crate) fn spread_columns(alloc: Global) -> Result<Seq<SheetColumn>, AllocError>
    ensures { IfOk result (λ columns. columns ≡ map column_of spread_columns) }
{
    let columns = spread_list(alloc)?;
    columns_of(alloc, &columns)
}

#[tactic(auto, unfolding(crate::specs::Columns::spread_columns))]
fn spread_list(alloc: Global) -> Result<Vec<Column>, AllocError>
    ensures { IfOk result (λ columns. columns.items ≡ spread_columns) }
{
    let list = vec![in alloc;
        Column::Pairs,
        Column::First,
        Column::Median,
        Column::Ninetieth,
        Column::NinetyNinth,
        Column::Last,
    ]?;
    Ok(list)
}

/// Returns the columns of the sheet of groups.
pub(crate) fn group_columns(alloc: Global) -> Result<Seq<SheetColumn>, AllocError>
    ensures { IfOk result (λ columns. columns ≡ map column_of group_columns) }
{
    let columns = group_list(alloc)?;
    columns_of(alloc, &columns)
}

#[tactic(auto, unfolding(crate::specs::Columns::group_columns))]
fn group_list(alloc: Global) -> Result<Vec<Column>, AllocError>
    ensures { IfOk result (λ columns. columns.items ≡ group_columns) }
{
    let list = vec![in alloc;
        Column::From,
        Column::To,
        Column::Pairs,
        Column::Reached,
        Column::Missed,
        Column::Share,
        Column::Median,
        Column::Ninetieth,
        Column::Last,
        Column::Rpcs,
        Column::Bytes,
        Column::MeshMembers,
        Column::MeshPlaces,
        Column::LowestScore,
        Column::LowestInRun,
        Column::LowestAt,
    ]?;
    Ok(list)
}

fn columns_of(alloc: Global, columns: &[Column]) -> Result<Seq<SheetColumn>, AllocError>
    ensures { IfOk result (λ list. list ≡ map column_of columns.now) }
{
    let mut list = Seq::new(alloc);
    for column in columns {
        list.push(column_of(alloc, *column)?)?;
    }
    Ok(list)
}

/// Returns a column with its name and its header.
///
/// # Errors
/// `AllocError` when out of memory.
pub(crate) fn column_of(alloc: Global, column: Column) -> Result<SheetColumn, AllocError>
    ensures { IfOk result (λ made. made ≡ column_of column) }
{
    let name = bytes_of(alloc, column_name(column).as_bytes())?;
    let header = bytes_of(alloc, header_text(column).as_bytes())?;
    Ok(SheetColumn { name, header })
}
