ghost use Rattle.std.specs.Prelude.{◌≡◌, true, IfErr, IfOk, OnOk, [], Some, length};
ghost use Rattle.std.specs.Arc.{arc_value};
ghost use Rattle.std.specs.List.{AllByRecursion, AllZip, IsDistinct};
ghost use Rattle.gs_base.specs.Names.{peers_of, same_peer};
ghost use Rattle.gs_plan.specs.Plans.{IsInRange};
ghost use Rattle.gs_ends.specs.Pairs.{joints_of, peers_in};
ghost use Rattle.gs_seats.specs.Rounds.{lines_in, neighbours_in, numbers, peer_no};
ghost use Rattle.gs_net.specs.Tasks.{AreParts, AreUsable, IsAssignedIn, IsTask, IsTaskFor, first_numbers};

use gs_base::{Neighbour, PeerNo};
use gs_cache::Payloads;
use gs_ends::{Ends, LinkEnds};
use gs_link::{LinkRx, LinkTx};
use gs_peer::{Assignment, Gate, PeerTask, Surroundings};
use gs_plan::{Line, Plan};
use gs_player::Agenda;
use gs_seats::{NetFault, first_words, neighbours_of, phase_of, router_of, take_list};
use gs_workers::StopFlag;
use std::alloc::{AllocError, Global};
use std::sync::{Arc, Mutex, Wait};

/// What all tasks of a run are built from.
#[derive(Drop)]
pub struct Builder<'p, G: Gate + Copy, R: Wait + Drop + Copy> {
    pub rt: R,
    pub alloc: Global,
    pub plan: &'p Plan,
    pub gate: G,
    pub stop: &'p Arc<StopFlag>,
    /// What is known about payloads on each worker.
    pub payloads: &'p [Arc<Mutex<Payloads>>],
}

impl<'p, G: Gate + Copy, R: Wait + Drop + Copy> Builder<'p, G, R> {
    /// Returns the tasks of all peers, by number. Each task is given the list of its lines and the list of its ends.
    ///
    /// # Errors
    /// `NoMemory` with the lowest peer whose task was not built, if memory runs out.
    pub fn tasks(
        &self,
        lines: Vec<Vec<(usize, Line)>>,
        ends: Vec<Vec<(PeerNo, LinkTx, LinkRx)>>,
    ) -> Result<Vec<PeerTask<G, LinkEnds<R>>>, NetFault>
        requires range { IsInRange self.now.plan.now }
        requires parts { AreParts self.now.plan.now lines.items ends.items }
        ensures { IfOk result (λ tasks. AllZip
            (IsTaskFor ⟦<LinkEnds<R> as Ends>⟧ self.now.plan.now (arc_value self.now.stop.now) ends.items)
            (numbers self.now.plan.now) tasks.items) }
    {
        let mut tasks = Vec::new(self.alloc);
        self.build_all(lines, ends, &mut tasks)?;
        Ok(tasks)
    }

    /// Builds the tasks of all peers, by number, as long as there is memory.
    ///
    /// # Errors
    /// `NoMemory` with the lowest peer whose task was not built.
    fn build_all(
        &self,
        lines: Vec<Vec<(usize, Line)>>,
        ends: Vec<Vec<(PeerNo, LinkTx, LinkRx)>>,
        tasks: &mut Vec<PeerTask<G, LinkEnds<R>>>,
    ) -> Result<(), NetFault>
        requires range { IsInRange self.now.plan.now }
        requires parts { AreParts self.now.plan.now lines.items ends.items }
        requires none { tasks.old.items ≡ [] }
        ensures built { AllZip (IsTaskFor ⟦<LinkEnds<R> as Ends>⟧ self.now.plan.now (arc_value self.now.stop.now) ends.items)
            (first_numbers (length tasks.new.items)) tasks.new.items }
        ensures all { OnOk result (length tasks.new.items ≡ length self.now.plan.now.peers) }
        ensures fault { IfErr result (λ fault.
            fault ≡ NetFault.NoMemory (Some (peer_no (length tasks.new.items)))) }
    {
        let mut lines = lines;
        let mut ends = ends;
        let count = self.plan.peers.len() as u16;
        for number in 0..count {
            let peer = PeerNo(number);
            let own_lines = take_list(self.alloc, &mut lines, peer);
            let own_ends = take_list(self.alloc, &mut ends, peer);
            let Ok(task) = self.task(peer, own_lines, own_ends) else {
                return Err(NetFault::NoMemory(Some(peer)));
            };
            let Ok(()) = tasks.push(task) else {
                return Err(NetFault::NoMemory(Some(peer)));
            };
        }
        Ok(())
    }

    /// Returns what is known about payloads on a worker.
    fn payloads_of(&self, worker: usize) -> Result<Arc<Mutex<Payloads>>, AllocError> {
        let payloads = match self.payloads.get(worker) {
            Some(payloads) => Arc::try_clone(payloads)?,
            None => Arc::new(self.alloc, Mutex::new(Payloads::new(self.alloc)))?,
        };
        Ok(payloads)
    }

    fn task(
        &self,
        number: PeerNo,
        lines: Vec<(usize, Line)>,
        ends: Vec<(PeerNo, LinkTx, LinkRx)>,
    ) -> Result<PeerTask<G, LinkEnds<R>>, AllocError>
        requires range { IsInRange self.now.plan.now }
        requires own { lines.items ≡ lines_in self.now.plan.now number }
        requires usable { AreUsable self.now.plan.now number ends.items }
        ensures { IfOk result (IsTask ⟦<LinkEnds<R> as Ends>⟧
            self.now.plan.now number (arc_value self.now.stop.now) (joints_of ends.items)) }
    {
        let words = first_words(self.alloc, self.plan, number)?;
        let stop = Arc::try_clone(self.stop)?;
        let neighbours = neighbours_of(self.alloc, self.plan, number)?;
        let assignment = assignment_of(self.alloc, self.plan, number, &neighbours, lines)?;
        let payloads = self.payloads_of(assignment.worker)?;
        // (last, so that no exit has a router to drop)
        let router = router_of(self.alloc, self.plan, number, neighbours)?;
        let surroundings = Surroundings {
            ends: LinkEnds::new(self.rt, ends),
            gate: self.gate,
            stop,
            payloads,
        };
        match PeerTask::new(self.alloc, assignment, router, words, surroundings) {
            Ok(task) => Ok(task),
            Err(_) => Err(AllocError),
        }
    }
}

/// Creates, for each of this many workers, what its tasks share about payloads. Nothing is known about any payload yet.
///
/// # Errors
/// `AllocError` if memory runs out.
pub fn payloads_of_workers(
    alloc: Global,
    workers: u64,
) -> Result<Vec<Arc<Mutex<Payloads>>>, AllocError> {
    let mut all = Vec::new(alloc);
    for _ in 0..workers {
        all.push(Arc::new(alloc, Mutex::new(Payloads::new(alloc)))?)?;
    }
    Ok(all)
}

/// Returns what a peer is given, with these neighbours and its lines.
fn assignment_of(
    alloc: Global,
    plan: &Plan,
    number: PeerNo,
    neighbours: &[Neighbour],
    lines: Vec<(usize, Line)>,
) -> Result<Assignment, AllocError>
    requires range { IsInRange plan.now }
    requires neighbours { neighbours.now ≡ neighbours_in plan.now number }
    requires own { lines.items ≡ lines_in plan.now number }
    ensures { IfOk result (IsAssignedIn plan.now number) }
{
    Ok(Assignment {
        number,
        neighbours: numbers_of(alloc, neighbours)?,
        lines: Agenda::of(alloc, lines)?,
        round_ms: plan.round_ms,
        rounds: plan.rounds,
        phase_ms: phase_of(plan, number),
        worker: (u64::from(number.0) % plan.workers) as usize,
    })
}

fn numbers_of(alloc: Global, neighbours: &[Neighbour]) -> Result<Vec<PeerNo>, AllocError>
    ensures { IfOk result (λ found. found.items ≡ peers_of neighbours.now) }
{
    let mut found = Vec::with_capacity(alloc, neighbours.len())?;
    for neighbour in neighbours {
        found.push(neighbour.peer)?;
    }
    Ok(found)
}
