//! All peers of a run.
ghost use Rattle.std.specs.Prelude.{◌≡◌, ◌≤◌, [], suc, false, List, IfErr, IfOk, OnErr, OnOk, length, map};
ghost use Rattle.std.specs.List.{AllByRecursion, AllZip};
ghost use Rattle.gs_base.specs.declared.names.PeerNo.{PeerNo as PeerNoValue};
ghost use Rattle.gs_plan.specs.Plans.{IsInRange};
ghost use Rattle.gs_report.specs.Seen.{remains_of};
ghost use Rattle.gs_report.specs.declared.finished.Finished.{Finished as FinishedValue};
ghost use Rattle.gs_report.specs.declared.report.Report.{Report as ReportValue};
ghost use Rattle.gs_rules.specs.Rounds.{Closing, moment_of};
ghost use Rattle.gs_rules.specs.Tables.{Entries};
ghost use Rattle.gs_router.specs.Following.{AreInOrder};
ghost use Rattle.gs_seats.specs.Faults.{number_of};
ghost use Rattle.gs_seats.specs.Reports.{IsReport};
ghost use Rattle.gs_seats.specs.Rounds.{IsRun, numbers, peer_no, seat_in, trace_of};
ghost use Rattle.gs_direct.specs.Observing.{HasSeen, HasSeenReport, HaveGrown};
ghost use Rattle.gs_direct.specs.Peers.{IsNewPeer};
ghost use Rattle.gs_direct.specs.Runs.{AreAt, HaveClosed, HaveEnded, IsRoomFor, numbered, trace_at};
ghost use Rattle.gs_direct.specs.Stages.{AreFirstStages, AreStages, HasShownAll, HasShownFirst, HasShownLives, HasShownMore};
ghost use Rattle.gs_direct.specs.declared.stages.Stage.{Stage as StageValue};

use crate::peer::Peer;
use crate::post::Post;
use crate::stages::{Gauge, Stage, delivered_by_now};
use gs_base::{Millis, PeerNo};
use gs_plan::Plan;
use gs_report::{Finished, Remains, Report};
use gs_router::{LastRound, Retention, WholeTrace};
use gs_seats::{Neighbourhoods, NetFault, Nobody, Observer, lines_by_peer, take_list};
use std::alloc::{AllocError, Global};

/// Runs the peers of a plan on this thread, without links. In each round, one peer after the other hears what its neighbours
/// said in the round before, and does what it has to do. It has no handle to wait for a thread, so the prover shows that it
/// ends, and no clause says so. Each report of the plan has the text of this one (`a_plan_has_one_report`). A gauge shows how
/// far the run is, at the end of each round.
///
/// # Errors
/// `NoMemory` when out of memory. It names no peer, and the clause leaves that open. The gauge has shown some first rounds by
/// then.
pub fn run_direct<G: Gauge>(alloc: Global, plan: &Plan, gauge: &mut G) -> Result<Report, NetFault>
    requires { IsInRange plan.now }
    ensures report { IfOk result (IsReport plan.now) }
    ensures shown { IfOk result (HasShownAll G.has_shown gauge.old gauge.new plan.now) }
    ensures memory { IfErr result (λ fault. number_of fault ≡ 24) }
    ensures stopped { OnErr result (HasShownFirst G.has_shown gauge.old gauge.new plan.now) }
{
    match lives_of(alloc, plan, gauge) {
        Ok(peers) => Ok(Report {
            peers,
            settled: 2 * plan.dials.len() as u64,
        }),
        Err(_) => Err(NetFault::NoMemory(None)),
    }
}

/// Runs the peers of a plan as `run_direct` does. An observer sees all that they do, and no trace is kept. It has seen
/// nothing before. What is returned is what the run leaves of each peer besides its trace, by number. There is a report of
/// the plan that has just these traces and just this. A gauge shows how far the run is, at the end of each round.
///
/// # Errors
/// `NoMemory` when out of memory. It names no peer, and the clause leaves that open. The gauge has shown some first rounds by
/// then.
pub fn run_observed<O: Observer, G: Gauge>(
    alloc: Global,
    plan: &Plan,
    observer: &mut O,
    gauge: &mut G,
) -> Result<Vec<(PeerNo, Remains)>, NetFault>
    requires range { IsInRange plan.now }
    requires new { O.saw observer.old (λ p. []) }
    ensures run { IfOk result (λ remains. (report : ReportValue)
        × IsReport plan.now report
        × HasSeenReport (O.saw observer.new) plan.now report
        × (remains.items ≡ map (λ x. (x.0, remains_of x.1)) report.peers.items)
        × HasShownAll G.has_shown gauge.old gauge.new plan.now report) }
    ensures question { OnOk result (O.question observer.new ≡ O.question observer.old) }
    ensures memory { IfErr result (λ fault. number_of fault ≡ 24) }
    ensures stopped { OnErr result (HasShownFirst G.has_shown gauge.old gauge.new plan.now) }
{
    match remains_seen(alloc, plan, observer, gauge) {
        Ok(remains) => Ok(remains),
        Err(_) => Err(NetFault::NoMemory(None)),
    }
}

/// Runs the peers before an observer, and returns what the run leaves of each besides its trace, by number.
fn remains_seen<O: Observer, G: Gauge>(
    alloc: Global,
    plan: &Plan,
    observer: &mut O,
    gauge: &mut G,
) -> Result<Vec<(PeerNo, Remains)>, AllocError>
    requires range { IsInRange plan.now }
    requires new { O.saw observer.old (λ p. []) }
    ensures run { IfOk result (λ remains. (lives : List (PeerNoValue × FinishedValue))
        × (map (λ x. x.0) lives ≡ numbers plan.now)
        × IsRun plan.now (map (λ x. x.1) lives)
        × HasSeen (O.saw observer.new) (trace_of (map (λ x. x.1) lives))
        × (remains.items ≡ map (λ x. (x.0, remains_of x.1)) lives)
        × HasShownLives G.has_shown gauge.old gauge.new plan.now (map (λ x. x.1) lives)) }
    ensures question { OnOk result (O.question observer.new ≡ O.question observer.old) }
    ensures stopped { OnErr result (HasShownFirst G.has_shown gauge.old gauge.new plan.now) }
{
    let mut peers = peers_of::<LastRound>(alloc, plan)?;
    let mut post = Post::new(alloc, plan.peers.len())?;
    run_all(plan, &mut peers, &mut post, observer, gauge)?;
    remains_of_all(alloc, plan, peers)
}

/// Runs the peers, and returns what the run leaves of each, by number.
fn lives_of<G: Gauge>(
    alloc: Global,
    plan: &Plan,
    gauge: &mut G,
) -> Result<Vec<(PeerNo, Finished)>, AllocError>
    requires { IsInRange plan.now }
    ensures numbers { IfOk result (λ lives. map (λ x. x.0) lives.items ≡ numbers plan.now) }
    ensures run { IfOk result (λ lives. IsRun plan.now (map (λ x. x.1) lives.items)) }
    ensures shown { IfOk result (λ lives.
        HasShownLives G.has_shown gauge.old gauge.new plan.now (map (λ x. x.1) lives.items)) }
    ensures stopped { OnErr result (HasShownFirst G.has_shown gauge.old gauge.new plan.now) }
{
    let mut peers = peers_of::<WholeTrace>(alloc, plan)?;
    let mut post = Post::new(alloc, plan.peers.len())?;
    run_all(plan, &mut peers, &mut post, &mut Nobody, gauge)?;
    finish_all(alloc, plan, peers)
}

/// Returns the peers of a plan, which have done nothing.
fn peers_of<K: Retention>(alloc: Global, plan: &Plan) -> Result<Vec<Peer<K>>, AllocError>
    requires { IsInRange plan.now }
    ensures { IfOk result (λ peers. AllZip (IsNewPeer plan.now) (numbers plan.now) peers.items) }
{
    let neighbourhoods = Neighbourhoods::of(alloc, plan)?;
    let mut lines = lines_by_peer(alloc, plan)?;
    let mut peers = Vec::with_capacity(alloc, plan.peers.len())?;
    let count = plan.peers.len() as u16;
    for number in 0..count {
        let peer = PeerNo(number);
        let neighbours = neighbourhoods.neighbours(alloc, plan, peer)?;
        let own = take_list(alloc, &mut lines, peer);
        peers.push(Peer::new(alloc, plan, peer, neighbours, own)?)?;
    }
    Ok(peers)
}

/// Plays all rounds, and shuts all peers down. An observer sees all that they do, and a gauge shows the rounds.
fn run_all<K: Retention, O: Observer, G: Gauge>(
    plan: &Plan,
    peers: &mut [Peer<K>],
    post: &mut Post,
    observer: &mut O,
    gauge: &mut G,
) -> Result<(), AllocError>
    requires range { IsInRange plan.now }
    requires begun { AreAt plan.now 0 peers.old post.old.mail.items }
    requires next { IsRoomFor plan.now post.old.next.items }
    requires saw { HasSeen (O.saw observer.old) (trace_at peers.old) }
    ensures ended { OnOk result (HaveEnded plan.now peers.new) }
    ensures saw { OnOk result (HasSeen (O.saw observer.new) (trace_at peers.new)) }
    ensures question { OnOk result (O.question observer.new ≡ O.question observer.old) }
    ensures shown { OnOk result ((stages : List StageValue) × HasShownMore G.has_shown gauge.old gauge.new stages
        × AreFirstStages plan.now stages
        × AreStages plan.now (trace_at peers.new) (suc plan.now.rounds) stages) }
    ensures stopped { OnErr result (HasShownFirst G.has_shown gauge.old gauge.new plan.now) }
{
    play_all(plan, peers, post, observer, gauge)?;
    close_all(plan, peers, post)?;
    observe(plan, peers, observer)?;
    Ok(())
}

/// Plays all rounds, which an observer sees and a gauge shows. After that, what was said in the last round is on its way.
fn play_all<K: Retention, O: Observer, G: Gauge>(
    plan: &Plan,
    peers: &mut [Peer<K>],
    post: &mut Post,
    observer: &mut O,
    gauge: &mut G,
) -> Result<(), AllocError>
    requires range { IsInRange plan.now }
    requires begun { AreAt plan.now 0 peers.old post.old.mail.items }
    requires next { IsRoomFor plan.now post.old.next.items }
    requires saw { HasSeen (O.saw observer.old) (trace_at peers.old) }
    ensures played { OnOk result (AreAt plan.now (suc plan.now.rounds) peers.new post.new.mail.items) }
    ensures saw { OnOk result (HasSeen (O.saw observer.new) (trace_at peers.new)) }
    ensures question { OnOk result (O.question observer.new ≡ O.question observer.old) }
    ensures shown { OnOk result ((stages : List StageValue) × HasShownMore G.has_shown gauge.old gauge.new stages
        × AreFirstStages plan.now stages
        × AreStages plan.now (trace_at peers.new) (suc plan.now.rounds) stages) }
    ensures stopped { OnErr result (HasShownFirst G.has_shown gauge.old gauge.new plan.now) }
{
    let mut deliveries = 0u64;
    for round in 0..plan.rounds + 1 {
        play_round(plan, peers, post, round)?;
        observe(plan, peers, observer)?;
        deliveries = delivered_by_now(plan, peers, deliveries);
        gauge.show(Stage { round, deliveries });
    }
    Ok(())
}

/// Shows an observer what each peer did in the round in which it is.
fn observe<K: Retention, O: Observer>(
    plan: &Plan,
    peers: &[Peer<K>],
    observer: &mut O,
) -> Result<(), AllocError>
    requires range { IsInRange plan.now }
    requires many { length peers.now ≡ length plan.now.peers }
    requires order { AllByRecursion (λ peer. AreInOrder peer.router.trace) peers.now }
    requires saw { (before : PeerNoValue → Entries)
        × HasSeen (O.saw observer.old) before × HaveGrown before (trace_at peers.now) }
    ensures saw { OnOk result (HasSeen (O.saw observer.new) (trace_at peers.now)) }
    ensures question { OnOk result (O.question observer.new ≡ O.question observer.old) }
{
    let count = plan.peers.len() as u16;
    for number in 0..count {
        let round = peers[usize::from(number)].router.round();
        observer.see(PeerNo(number), round)?;
    }
    Ok(())
}

/// Plays a round: one peer after the other.
fn play_round<K: Retention>(
    plan: &Plan,
    peers: &mut [Peer<K>],
    post: &mut Post,
    round: u64,
) -> Result<(), AllocError>
    requires range { IsInRange plan.now }
    requires round { round ≤ plan.now.rounds }
    requires before { AreAt plan.now round peers.old post.old.mail.items }
    requires next { IsRoomFor plan.now post.old.next.items }
    ensures after { OnOk result (AreAt plan.now (suc round) peers.new post.new.mail.items) }
    ensures next { OnOk result (IsRoomFor plan.now post.new.next.items) }
    ensures grown { OnOk result (HaveGrown (trace_at peers.old) (trace_at peers.new)) }
{
    let now = Millis(round * plan.round_ms);
    let count = plan.peers.len() as u16;
    for number in 0..count {
        let peer = &mut peers[usize::from(number)];
        post.play(peer, PeerNo(number), round, now)?;
    }
    post.turn();
    Ok(())
}

/// Shuts all peers down, and has them hear what is still on its way.
fn close_all<K: Retention>(
    plan: &Plan,
    peers: &mut [Peer<K>],
    post: &mut Post,
) -> Result<(), AllocError>
    requires range { IsInRange plan.now }
    requires last { AreAt plan.now (suc plan.now.rounds) peers.old post.old.mail.items }
    ensures { OnOk result (HaveClosed (moment_of (seat_in plan.now (peer_no 0)) Closing)
        peers.old post.old.mail.items (length plan.now.peers) peers.new) }
{
    let now = Millis(plan.rounds * plan.round_ms);
    let count = plan.peers.len() as u16;
    for number in 0..count {
        let letters = post.take(PeerNo(number));
        peers[usize::from(number)].close(now, letters)?;
    }
    Ok(())
}

/// Returns what the run leaves of the peers, each with its number.
fn finish_all(
    alloc: Global,
    plan: &Plan,
    peers: Vec<Peer<WholeTrace>>,
) -> Result<Vec<(PeerNo, Finished)>, AllocError>
    requires range { IsInRange plan.now }
    requires running { AllByRecursion (λ peer. peer.router.is_stopped ≡ false) peers.items }
    ensures { IfOk result (λ lives. lives.items ≡ map (numbered plan.now) peers.items) }
{
    let now = Millis(plan.rounds * plan.round_ms);
    let mut lives = Vec::with_capacity(alloc, peers.len())?;
    for peer in peers {
        let number = peer.number;
        lives.push((number, peer.finish(now)?))?;
    }
    Ok(lives)
}

/// Returns what the run leaves of the peers besides their traces, each with its number.
fn remains_of_all(
    alloc: Global,
    plan: &Plan,
    peers: Vec<Peer<LastRound>>,
) -> Result<Vec<(PeerNo, Remains)>, AllocError>
    requires range { IsInRange plan.now }
    requires running { AllByRecursion (λ peer. peer.router.is_stopped ≡ false) peers.items }
    ensures { IfOk result (λ remains.
        remains.items ≡ map (λ x. (x.0, remains_of x.1)) (map (numbered plan.now) peers.items)) }
{
    let now = Millis(plan.rounds * plan.round_ms);
    let mut all = Vec::with_capacity(alloc, peers.len())?;
    for peer in peers {
        let number = peer.number;
        all.push((number, peer.remains(now)?))?;
    }
    Ok(all)
}
