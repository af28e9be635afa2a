//! How much of what a neighbour sent or promised had no effect.
ghost use Rattle.std.specs.Prelude.{◌≡◌};
ghost use Rattle.gs_snapshots.specs.Falls.{falls_by, falls_with, no_falls, no_grafts, no_requests, of_whom, one_graft, one_request};
ghost use Rattle.gs_snapshots.specs.Noting.{falls_plus, grafts_plus, requests_plus};

use gs_base::PeerNo;
use gs_rules::{Fallen, GraftRefusal, NoAnswer};

/// How many GRAFTs of a neighbour were refused, by reason.
#[derive(Clone, Copy, Debug, PartialEq, Eq)]
pub struct RefusedGrafts {
    /// The neighbour is explicit.
    pub explicit: u64,
    /// A backoff had not ended.
    pub backoff: u64,
    /// The neighbour scored below 0.
    pub score: u64,
    /// The mesh was full.
    pub full: u64,
}

/// How many identifiers that a neighbour requested were not answered, by reason.
#[derive(Clone, Copy, Debug, PartialEq, Eq)]
pub struct UnansweredIds {
    /// The neighbour scored below `gossip_threshold`.
    pub score: u64,
    /// The neighbour had already received the message as often as it may.
    pub too_often: u64,
    /// No such message was kept.
    pub not_kept: u64,
}

/// How much of what a neighbour sent or promised had no effect. Each number is at most `u64::MAX`, even if more is counted.
#[derive(Clone, Copy, Debug, PartialEq, Eq)]
pub struct Falls {
    /// RPCs that were not heard, because the neighbour was graylisted.
    pub graylisted: u64,
    /// RPCs that arrived after the neighbour was lost.
    pub late: u64,
    /// GRAFTs that were refused.
    pub grafts: RefusedGrafts,
    /// Identifiers that the neighbour requested and that were not answered.
    pub requests: UnansweredIds,
    /// Promises that the neighbour broke.
    pub promises: u64,
}

fn no_grafts() -> RefusedGrafts
    ensures { result ≡ no_grafts }
{
    RefusedGrafts {
        explicit: 0,
        backoff: 0,
        score: 0,
        full: 0,
    }
}

fn no_requests() -> UnansweredIds
    ensures { result ≡ no_requests }
{
    UnansweredIds {
        score: 0,
        too_often: 0,
        not_kept: 0,
    }
}

/// Returns the counts of one GRAFT that was refused for this reason.
fn one_graft(why: GraftRefusal) -> RefusedGrafts
    ensures { result ≡ one_graft why }
{
    let mut grafts = no_grafts();
    match why {
        GraftRefusal::Explicit => grafts.explicit = 1,
        GraftRefusal::TooSoon => grafts.backoff = 1,
        GraftRefusal::Negative => grafts.score = 1,
        GraftRefusal::Full => grafts.full = 1,
    }
    grafts
}

/// Returns the counts of one identifier that was not answered for this reason.
fn one_request(why: NoAnswer) -> UnansweredIds
    ensures { result ≡ one_request why }
{
    let mut requests = no_requests();
    match why {
        NoAnswer::Ignored => requests.score = 1,
        NoAnswer::TooOften => requests.too_often = 1,
        NoAnswer::NotKept => requests.not_kept = 1,
    }
    requests
}

impl RefusedGrafts {
    fn plus(self, other: RefusedGrafts) -> RefusedGrafts
        ensures { result ≡ grafts_plus self other }
    {
        RefusedGrafts {
            explicit: self.explicit.saturating_add(other.explicit),
            backoff: self.backoff.saturating_add(other.backoff),
            score: self.score.saturating_add(other.score),
            full: self.full.saturating_add(other.full),
        }
    }
}

impl UnansweredIds {
    fn plus(self, other: UnansweredIds) -> UnansweredIds
        ensures { result ≡ requests_plus self other }
    {
        UnansweredIds {
            score: self.score.saturating_add(other.score),
            too_often: self.too_often.saturating_add(other.too_often),
            not_kept: self.not_kept.saturating_add(other.not_kept),
        }
    }
}

impl Falls {
    /// Returns the counts for nothing at all: each is 0.
    pub(crate) fn none() -> Falls
        ensures { result ≡ no_falls }
    {
        Falls {
            graylisted: 0,
            late: 0,
            grafts: no_grafts(),
            requests: no_requests(),
            promises: 0,
        }
    }

    /// Returns the counts of one thing that had no effect, whichever neighbour sent or promised it.
    fn with(fallen: &Fallen) -> Falls
        ensures { result ≡ falls_with fallen.now }
    {
        let mut falls = Falls::none();
        match fallen {
            Fallen::Graylisted(_) => falls.graylisted = 1,
            Fallen::Late(_) => falls.late = 1,
            Fallen::Graft(_, _, why) => falls.grafts = one_graft(*why),
            Fallen::Request(_, _, why) => falls.requests = one_request(*why),
            Fallen::Broken(_) => falls.promises = 1,
        }
        falls
    }

    /// Returns the counts of one thing that had no effect, if this neighbour sent or promised it. Else each count is 0.
    pub(crate) fn by(neighbour: PeerNo, fallen: &Fallen) -> Falls
        ensures { result ≡ falls_by neighbour fallen.now }
    {
        if of_whom(fallen) == neighbour {
            return Falls::with(fallen);
        }
        Falls::none()
    }

    pub(crate) fn plus(self, other: Falls) -> Falls
        ensures { result ≡ falls_plus self other }
    {
        Falls {
            graylisted: self.graylisted.saturating_add(other.graylisted),
            late: self.late.saturating_add(other.late),
            grafts: self.grafts.plus(other.grafts),
            requests: self.requests.plus(other.requests),
            promises: self.promises.saturating_add(other.promises),
        }
    }
}

/// Returns the neighbour that sent or promised it.
fn of_whom(fallen: &Fallen) -> PeerNo
    ensures { result ≡ of_whom fallen.now }
{
    match fallen {
        Fallen::Graylisted(from) => *from,
        Fallen::Late(from) => *from,
        Fallen::Graft(from, _, _) => *from,
        Fallen::Request(from, _, _) => *from,
        Fallen::Broken(promise) => promise.from,
    }
}
