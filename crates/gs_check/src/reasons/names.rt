//! Names that may not stand where they do, and values that repeat an earlier one.
use crate::shown::{Quoted, Ticked};
use gs_scenario::NameKind;
use std::alloc::{AllocError, Global};
use std::fmt;
use toml::{Table, Value};

/// What is wrong with a peer that is no neighbour.
const NO_DIAL: &str = "that peer is no neighbour, since no dial joins the two";

/// Says why the name at a place of these bytes may not stand there. Either no topic or peer has it, or the peer that has it is
/// no neighbour.
pub fn unknown_name(
    alloc: Global,
    bytes: &[u8],
    place: &str,
    name: &str,
    kind: NameKind,
) -> Result<String, AllocError> {
    let why = match kind {
        NameKind::Topic => "no topic has that name",
        NameKind::Peer => "no peer has that name",
        NameKind::Neighbour => return no_neighbour(alloc, bytes, place, name),
    };
    let (place, name) = (Ticked(place), Quoted(name));
    format!(in alloc; "{place} is {name}: {why}\n")
}

/// Says that a peer is no neighbour of the peer that the same table names. The refusal doesn't say which peer that is, so it
/// is read again.
fn no_neighbour(
    alloc: Global,
    bytes: &[u8],
    place: &str,
    name: &str,
) -> Result<String, AllocError> {
    let (shown_place, shown_name) = (Ticked(place), Quoted(name));
    match toml::table_from_slice(alloc, bytes) {
        Ok(top) => {
            let why = NoNeighbour {
                top: &top,
                place,
                name,
            };
            format!(in alloc; "{shown_place} is {shown_name}: {why}\n")
        }
        Err(fault) if fault.is_memory() => Err(AllocError),
        Err(_) => format!(in alloc; "{shown_place} is {shown_name}: {NO_DIAL}\n"),
    }
}

/// Why the peer with this name is no neighbour, and which peers are.
#[derive(Clone, Copy)]
struct NoNeighbour<'a> {
    top: &'a Table,
    place: &'a str,
    name: &'a str,
}

impl<'a> fmt::Display for NoNeighbour<'a> {
    fn fmt<W: fmt::Write>(&self, f: &mut fmt::Formatter<W>) -> fmt::Result {
        let Some(peer) = peer_at(self.top, self.place) else {
            return f.write_str(NO_DIAL);
        };
        if peer != self.name {
            write!(f, "{NO_DIAL}; {} has ", Quoted(peer))?;
            write_neighbours(f, dials_of(self.top), peer)
        } else if self.place.starts_with("app[") {
            f.write_str("a peer does not score itself")
        } else if self.place.starts_with("explicit[") {
            f.write_str("a peer has no agreement with itself")
        } else {
            f.write_str("a peer has no link to itself")
        }
    }
}

/// Returns the peer that the table of a place names. Such a place is `app[0].about` or `do[2].to`.
fn peer_at<'a>(top: &'a Table, place: &str) -> Option<&'a str> {
    let (list, rest) = place.split_once('[')?;
    let (digits, _) = rest.split_once(']')?;
    let index = digits.parse::<usize>().ok()?;
    let table = top.get(list)?.get(index)?;
    table.get("peer")?.as_str()
}

fn dials_of(top: &Table) -> &[Value] {
    match top.get("dial").and_then(|dials| dials.as_array()) {
        Some(dials) => dials.as_slice(),
        None => &[],
    }
}

/// Writes the peers to which dials join a peer, in the order of the dials.
fn write_neighbours<W: fmt::Write>(
    f: &mut fmt::Formatter<W>,
    dials: &[Value],
    peer: &str,
) -> fmt::Result {
    let joined = dials.iter().filter(|dial| other_end(dial, peer).is_some());
    let mut before = match joined.count() {
        0 => return f.write_str("no neighbours"),
        1 => "the neighbour ",
        _ => "the neighbours ",
    };
    for dial in dials {
        if let Some(name) = other_end(dial, peer) {
            write!(f, "{before}{}", Quoted(name))?;
            before = ", ";
        }
    }
    Ok(())
}

/// Returns the other end of a dial, where a peer is at one end.
fn other_end<'a>(dial: &'a Value, peer: &str) -> Option<&'a str> {
    let from = dial.get("from")?.as_str()?;
    let to = dial.get("to")?.as_str()?;
    if from == peer {
        Some(to)
    } else if to == peer {
        Some(from)
    } else {
        None
    }
}

/// Says what the value at a place repeats.
pub fn repeated(alloc: Global, place: &str) -> Result<String, AllocError> {
    let what = if place.starts_with("topic[") {
        "is the name of an earlier topic"
    } else if place.starts_with("peer[") {
        "is the name of an earlier peer"
    } else if place.starts_with("dial[") {
        "joins two peers that an earlier dial joins"
    } else if place.starts_with("explicit[") {
        "is a second agreement of the same peer with the same neighbour"
    } else {
        "is a second value of the same peer for the same neighbour"
    };
    let place = Ticked(place);
    format!(in alloc; "{place} {what}\n")
}
