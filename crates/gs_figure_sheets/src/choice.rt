//! Chooses peers by their names.
ghost use Rattle.std.specs.Prelude.{◌≡◌, ◌++◌, filter, IfOk};
ghost use Rattle.gs_reach.specs.Messages.{numbers_of};
ghost use Rattle.gs_report.specs.Text.{name_of};
ghost use Rattle.gs_figure_sheets.specs.Choices.{chosen_among, chosen_by, fits, is_named, is_star, peers_named, spelled};

use gs_base::{PeerNo, Seq};
use gs_plan::Plan;
use gs_reach::Chosen;
use gs_report::{Finished, Report, name_of};
use std::alloc::{AllocError, Global};

/// Which peers are chosen.
#[derive(Clone, Copy, Debug, Drop)]
pub enum Choice<'a> {
    /// Each peer.
    Any,
    /// The peers that this text names. Names are separated by commas, and a `*` at the end of one stands for any rest.
    Named(&'a str),
}

/// Returns the peers of a run that a choice names. The names are those in the plan.
///
/// # Errors
/// `AllocError` when out of memory.
pub fn chosen_by(
    alloc: Global,
    plan: &Plan,
    report: &Report,
    choice: Choice<'_>,
) -> Result<Chosen, AllocError>
    ensures { IfOk result (λ chosen. chosen ≡ chosen_by plan.now report.now (spelled choice.entry)) }
{
    let peers = numbers_of(alloc, &report.peers)?;
    chosen_among(alloc, plan, &peers, choice)
}

fn numbers_of(alloc: Global, peers: &[(PeerNo, Finished)]) -> Result<Vec<PeerNo>, AllocError>
    ensures { IfOk result (λ numbers. numbers.items ≡ numbers_of peers.now) }
{
    let mut numbers = Vec::with_capacity(alloc, peers.len())?;
    for peer in peers {
        numbers.push(peer.0)?;
    }
    Ok(numbers)
}

/// Returns those of these peers that a choice names. The names are those in the plan.
///
/// # Errors
/// `AllocError` when out of memory.
pub(crate) fn chosen_among(
    alloc: Global,
    plan: &Plan,
    peers: &[PeerNo],
    choice: Choice<'_>,
) -> Result<Chosen, AllocError>
    ensures { IfOk result (λ chosen. chosen ≡ chosen_among plan.now peers.now (spelled choice.entry)) }
{
    match choice {
        Choice::Any => Ok(Chosen::Any),
        Choice::Named(words) => Ok(Chosen::Only(peers_named(alloc, plan, peers, words)?)),
    }
}

/// Returns those of these peers whose names match one of several words. Commas separate the words.
///
/// # Errors
/// `AllocError` when out of memory.
pub(crate) fn peers_named(
    alloc: Global,
    plan: &Plan,
    peers: &[PeerNo],
    words: &str,
) -> Result<Seq<PeerNo>, AllocError>
    ensures { IfOk result (λ list. list ≡ peers_named plan.now peers.now words.now) }
{
    let mut list = Seq::new(alloc);
    for peer in peers {
        if is_named(words, name_of(plan, *peer)) {
            list.push(*peer)?;
        }
    }
    Ok(list)
}

/// Says whether a name matches one of several words. Commas separate the words.
fn is_named(words: &str, name: &str) -> bool
    ensures { result ≡ is_named words.now name.now }
{
    words
        .split(',')
        .any(|word| fits(word.as_bytes(), name.as_bytes()))
}

/// Says whether a word equals a name, or ends with a `*` that stands for the rest of the name. It recurses at most once for
/// each byte of the name.
fn fits(word: &[u8], name: &[u8]) -> bool
    ensures { result ≡ fits word.now name.now }
{
    match word {
        [] => name.is_empty(),
        [first, rest @ ..] => match name {
            [] => is_star(word),
            [byte, more @ ..] => is_star(word) || (first == byte && fits(rest, more)),
        },
    }
}

/// Says whether a word is only a `*`.
fn is_star(word: &[u8]) -> bool
    ensures { result ≡ is_star word.now }
{
    match word {
        [] => false,
        [first, rest @ ..] => *first == b'*' && rest.is_empty(),
    }
}
