//! Routers with the neighbours and the parameters that cases name.
ghost use Rattle.std.specs.Prelude.{◌≡◌, ◌≤◌, ◌^◌, unsigned_abs, All, IfOk};
ghost use Rattle.gs_base.specs.Names.{peers_of};
ghost use Rattle.gs_base.specs.declared.neighbour.Neighbour.{Neighbour as NeighbourValue};
ghost use Rattle.gs_params.specs.Params.{AreInRange};
ghost use Rattle.gs_params.specs.Picks.{IsAscending};

use crate::cases::{Case, Kind};
use bytes::Bytes;
use gs_base::{Neighbour, PeerNo, Seq, Topic};
use gs_params::{Params, TopicParams};
use gs_router::Router;
use std::alloc::{AllocError, Global};

/// Returns the topic of this name.
pub fn topic_of(alloc: Global, name: &str) -> Result<Topic, AllocError> {
    Ok(Topic(Bytes::copy_from_slice(alloc, name.as_bytes())?))
}

// ---- neighbours

/// The score that the application gives a neighbour, in millionths.
fn app_of(kind: Kind) -> i128
    ensures { unsigned_abs result ≤ 10 ^ 12 }
{
    match kind {
        Kind::Plain | Kind::Dialled => 0,
        Kind::Praised => 3_000_000,
    }
}

fn neighbour_of(alloc: Global, number: u16, kind: Kind) -> Result<Neighbour, AllocError>
    ensures number { IfOk result (λ neighbour. neighbour.peer.0 ≡ number) }
    ensures app { IfOk result (λ neighbour. unsigned_abs neighbour.app ≤ 10 ^ 12) }
{
    let address = Bytes::copy_from_slice(alloc, &number.to_be_bytes())?;
    Ok(Neighbour {
        outbound: matches!(kind, Kind::Dialled),
        app: app_of(kind),
        ..Neighbour::new(PeerNo(number), address)
    })
}

/// Neighbours 1 to this number, the first ones of these kinds.
fn neighbours(alloc: Global, count: u16, kinds: &[Kind]) -> Result<Vec<Neighbour>, AllocError>
    ensures ascending { IfOk result (λ list. IsAscending (peers_of list.items)) }
    ensures apps { IfOk result (λ list. All (λ (n : NeighbourValue). unsigned_abs n.app ≤ 10 ^ 12) list.items) }
{
    let mut list = Vec::new(alloc);
    for below in 0..count {
        let kind = kinds
            .get(usize::from(below))
            .copied()
            .unwrap_or(Kind::Plain);
        let one = neighbour_of(alloc, below + 1, kind)?;
        list.push(one)?;
    }
    Ok(list)
}

// ---- parameters

/// The parameters of a topic that rejects payloads with this beginning.
fn topic_params(alloc: Global, reject: &[u8]) -> Result<TopicParams, AllocError> {
    let mut params = TopicParams::new(alloc);
    params.reject.push(Bytes::copy_from_slice(alloc, reject)?)?;
    Ok(params)
}

/// The parameters of topics.
fn topics(alloc: Global, list: &[(&str, &[u8])]) -> Result<Seq<(Topic, TopicParams)>, AllocError> {
    let mut topics = Seq::new(alloc);
    for (name, reject) in list {
        let topic = topic_of(alloc, name)?;
        topics.push((topic, topic_params(alloc, reject)?))?;
    }
    Ok(topics)
}

/// Returns the parameters of a case, which must pass their checks. Otherwise the test fails.
fn params_of(alloc: Global, case: &Case<'_>) -> Result<Params, AllocError>
    ensures { IfOk result AreInRange }
{
    let mut params = Params::new(alloc);
    params.factors = case.factors;
    params.topics = topics(alloc, case.topics)?;
    match params.check() {
        Ok(params) => Ok(params),
        Err(_) => Err(AllocError),
    }
}

/// Returns the router of a case, which has done nothing.
pub fn router_of(alloc: Global, case: &Case<'_>) -> Result<Router, AllocError> {
    let neighbours = neighbours(alloc, case.neighbours, case.kinds)?;
    let params = params_of(alloc, case)?;
    Router::new(alloc, params, neighbours)
}
