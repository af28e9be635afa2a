//! The figures in rows, and their columns.
ghost use Rattle.std.specs.Prelude.{◌≡◌, ◌++◌, IfOk};
ghost use Rattle.gs_figure_sheets.specs.Figures.{figure_column, figure_end, figure_header, figure_name, kind_header, kind_name, party_name};

use crate::party::Party;
use gs_base::Seq;
use gs_counts::Kind;
use gs_sheets::Column as SheetColumn;
use std::alloc::{AllocError, Global};

/// A figure in a row.
#[derive(Clone, Copy, Debug, PartialEq, Eq)]
pub enum Figure {
    /// A count: how often, or how much, something of a kind happened.
    Of(Kind),
    /// How many bytes a peer's neighbours put on their links to it.
    BytesHeard,
    /// How many of these are raw bytes, which the script put on a link.
    RawBytesHeard,
    /// How many members the smallest mesh has.
    SmallestMesh,
    /// How many members the largest mesh has.
    LargestMesh,
    /// The lowest score that is given.
    LowestScore,
    /// The highest score that is given.
    HighestScore,
    /// The lowest score that is given over the run.
    LowestInRun,
    /// When that score is first given, in milliseconds from the start of the run.
    LowestAt,
    /// The lowest score that a member of one group receives. The number is the group's index.
    LowestOf(usize),
}

/// Returns the name of a count's column in CSV and JSON.
fn kind_name(kind: Kind) -> &'static str
    ensures { result.now ≡ kind_name kind }
{
    match kind {
        Kind::RpcsHeard => "rpcs_heard",
        Kind::New => "new",
        Kind::Duplicates => "duplicates",
        Kind::Ignored => "ignored",
        Kind::Rejected => "rejected",
        Kind::Signed => "signed",
        Kind::OffTopic => "off_topic",
        Kind::PayloadBytesNew => "payload_bytes_new",
        Kind::PayloadBytesAgain => "payload_bytes_again",
        Kind::SubscriptionsHeard => "subscriptions_heard",
        Kind::IhaveHeard => "ihave_heard",
        Kind::IdsOffered => "ids_offered",
        Kind::IwantHeard => "iwant_heard",
        Kind::IdsAsked => "ids_asked",
        Kind::GraftHeard => "graft_heard",
        Kind::PruneHeard => "prune_heard",
        Kind::RpcsSent => "rpcs_sent",
        Kind::BytesSent => "bytes_sent",
        Kind::RawBytesSent => "raw_bytes_sent",
        Kind::MessageBytesSent => "message_bytes_sent",
        Kind::ControlBytesSent => "control_bytes_sent",
        Kind::SubscriptionBytesSent => "subscription_bytes_sent",
        Kind::SubscriptionsSent => "subscriptions_sent",
        Kind::MessagesPushed => "messages_pushed",
        Kind::MessagesAnswered => "messages_answered",
        Kind::IhaveSent => "ihave_sent",
        Kind::IdsOfferedSent => "ids_offered_sent",
        Kind::IwantSent => "iwant_sent",
        Kind::IdsAskedSent => "ids_asked_sent",
        Kind::GraftSent => "graft_sent",
        Kind::PruneSent => "prune_sent",
        Kind::RpcsGraylisted => "rpcs_graylisted",
        Kind::RpcsLate => "rpcs_late",
        Kind::Faults => "faults",
        Kind::GraftRefusedExplicit => "graft_refused_explicit",
        Kind::GraftRefusedBackoff => "graft_refused_backoff",
        Kind::GraftRefusedScore => "graft_refused_score",
        Kind::GraftRefusedFull => "graft_refused_full",
        Kind::IdsNotSentScore => "ids_not_sent_score",
        Kind::IdsNotSentTooOften => "ids_not_sent_too_often",
        Kind::IdsNotSentNotKept => "ids_not_sent_not_kept",
        Kind::PromisesBroken => "promises_broken",
        Kind::RefusedLines => "refused_lines",
        Kind::Delivered => "delivered",
        Kind::Grafted => "grafted",
        Kind::GraftedByNeighbour => "grafted_by_neighbour",
        Kind::GraftedByHeartbeat => "grafted_by_heartbeat",
        Kind::Pruned => "pruned",
        Kind::PrunedByNeighbour => "pruned_by_neighbour",
        Kind::PrunedByHeartbeat => "pruned_by_heartbeat",
        Kind::PrunedByLoss => "pruned_by_loss",
    }
}

/// Returns the header of a count's column in a table for a person.
fn kind_header(kind: Kind) -> &'static str
    ensures { result.now ≡ kind_header kind }
{
    match kind {
        Kind::RpcsHeard => "RPCs",
        Kind::New => "new",
        Kind::Duplicates => "duplicates",
        Kind::Ignored => "ignored",
        Kind::Rejected => "rejected",
        Kind::Signed => "signed",
        Kind::OffTopic => "off topic",
        Kind::PayloadBytesNew => "new bytes",
        Kind::PayloadBytesAgain => "other bytes",
        Kind::SubscriptionsHeard => "subscriptions",
        Kind::IhaveHeard => "IHAVE",
        Kind::IdsOffered => "ids offered",
        Kind::IwantHeard => "IWANT",
        Kind::IdsAsked => "ids asked",
        Kind::GraftHeard => "GRAFT",
        Kind::PruneHeard => "PRUNE",
        Kind::RpcsSent => "RPCs",
        Kind::BytesSent => "bytes",
        Kind::RawBytesSent => "raw bytes",
        Kind::MessageBytesSent => "message bytes",
        Kind::ControlBytesSent => "control bytes",
        Kind::SubscriptionBytesSent => "subscription bytes",
        Kind::SubscriptionsSent => "subscriptions",
        Kind::MessagesPushed => "pushed",
        Kind::MessagesAnswered => "answered",
        Kind::IhaveSent => "IHAVE",
        Kind::IdsOfferedSent => "ids offered",
        Kind::IwantSent => "IWANT",
        Kind::IdsAskedSent => "ids asked",
        Kind::GraftSent => "GRAFT",
        Kind::PruneSent => "PRUNE",
        Kind::RpcsGraylisted => "graylisted",
        Kind::RpcsLate => "late",
        Kind::Faults => "faults",
        Kind::GraftRefusedExplicit => "GRAFT: explicit",
        Kind::GraftRefusedBackoff => "GRAFT: backoff",
        Kind::GraftRefusedScore => "GRAFT: score",
        Kind::GraftRefusedFull => "GRAFT: full",
        Kind::IdsNotSentScore => "ids not sent: score",
        Kind::IdsNotSentTooOften => "ids not sent: too often",
        Kind::IdsNotSentNotKept => "ids not sent: not kept",
        Kind::PromisesBroken => "broke promises",
        Kind::RefusedLines => "refused lines",
        Kind::Delivered => "delivered",
        Kind::Grafted => "came into mesh",
        Kind::GraftedByNeighbour => "grafted by its GRAFT",
        Kind::GraftedByHeartbeat => "grafted by heartbeat",
        Kind::Pruned => "left mesh",
        Kind::PrunedByNeighbour => "pruned by its PRUNE",
        Kind::PrunedByHeartbeat => "pruned by heartbeat",
        Kind::PrunedByLoss => "pruned by loss",
    }
}

/// Returns the name of a figure's column.
fn figure_name(figure: Figure) -> &'static str
    ensures { result.now ≡ figure_name figure }
{
    match figure {
        Figure::Of(kind) => kind_name(kind),
        Figure::BytesHeard => "bytes_heard",
        Figure::RawBytesHeard => "raw_bytes_heard",
        Figure::SmallestMesh => "smallest_mesh",
        Figure::LargestMesh => "largest_mesh",
        Figure::LowestScore => "lowest_score",
        Figure::HighestScore => "highest_score",
        Figure::LowestInRun => "lowest_in_run",
        Figure::LowestAt => "lowest_at_ms",
        Figure::LowestOf(_) => "lowest_score_",
    }
}

/// Returns the header of a figure's column.
fn figure_header(figure: Figure) -> &'static str
    ensures { result.now ≡ figure_header figure }
{
    match figure {
        Figure::Of(kind) => kind_header(kind),
        Figure::BytesHeard => "bytes",
        Figure::RawBytesHeard => "raw bytes",
        Figure::SmallestMesh => "smallest mesh",
        Figure::LargestMesh => "largest mesh",
        Figure::LowestScore => "lowest score",
        Figure::HighestScore => "highest score",
        Figure::LowestInRun => "lowest in run",
        Figure::LowestAt => "lowest at ms",
        Figure::LowestOf(_) => "lowest of ",
    }
}

/// Returns the name of the group at an index, or the empty name if there is none.
fn party_name(parties: &[Party], place: usize) -> &[u8]
    ensures { result.now ≡ party_name parties.now place }
{
    match parties.get(place) {
        Some(party) => party.name.as_slice(),
        None => &[],
    }
}

/// Returns what follows the words of a figure: the name of its group, or nothing.
fn figure_end(parties: &[Party], figure: Figure) -> &[u8]
    ensures { result.now ≡ figure_end parties.now figure }
{
    match figure {
        Figure::LowestOf(place) => party_name(parties, place),
        Figure::Of(_) => &[],
        Figure::BytesHeard => &[],
        Figure::RawBytesHeard => &[],
        Figure::SmallestMesh => &[],
        Figure::LargestMesh => &[],
        Figure::LowestScore => &[],
        Figure::HighestScore => &[],
        Figure::LowestInRun => &[],
        Figure::LowestAt => &[],
    }
}

/// Returns the column of a figure.
///
/// # Errors
/// `AllocError` when out of memory.
pub(crate) fn figure_column(
    alloc: Global,
    parties: &[Party],
    figure: Figure,
) -> Result<SheetColumn, AllocError>
    ensures { IfOk result (λ column. column ≡ figure_column parties.now figure) }
{
    let end = figure_end(parties, figure);
    let name = joined_text(alloc, figure_name(figure).as_bytes(), end)?;
    let header = joined_text(alloc, figure_header(figure).as_bytes(), end)?;
    Ok(SheetColumn { name, header })
}

/// Returns a text with another after it.
fn joined_text(alloc: Global, text: &[u8], end: &[u8]) -> Result<Seq<u8>, AllocError>
    ensures { IfOk result (λ joined. joined ≡ text.now ++ end.now) }
{
    let mut bytes = Vec::new(alloc);
    bytes.extend_from_slice(text)?;
    bytes.extend_from_slice(end)?;
    Ok(Seq::from(bytes))
}
