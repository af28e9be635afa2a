//! The happenings of a peer's trace, entry by entry.
ghost use Rattle.std.specs.Prelude.{◌≡◌, ◌≤◌, ◌++◌, ◌∷◌, [], IfOk, List, OnOk, false, map, reverse, true};
ghost use Rattle.std.specs.List.{flat_map};
ghost use Rattle.gs_base.specs.Names.{peers_of};
ghost use Rattle.gs_base.specs.declared.names.PeerNo.{PeerNo as PeerNoValue};
ghost use Rattle.gs_plan.specs.Plans.{IsInRange};
ghost use Rattle.gs_plan.specs.declared.plan.Plan.{Plan as PlanValue};
ghost use Rattle.gs_rules.specs.Events.{of_round_end};
ghost use Rattle.gs_rules.specs.FellAway.{fell_away};
ghost use Rattle.gs_rules.specs.Tables.{Entries, last_moment};
ghost use Rattle.gs_seats.specs.Own.{AreNeighbourhoods};
ghost use Rattle.gs_seats.specs.Rounds.{neighbours, peer_in};
ghost use Rattle.gs_counts.specs.declared.happening.Happening.{Happening as HappeningValue};
ghost use Rattle.gs_counts.specs.Changes.{refusal_happenings};
ghost use Rattle.gs_counts.specs.Fates.{known_fate};
ghost use Rattle.gs_counts.specs.Lanes.{new_lane};
ghost use Rattle.gs_counts.specs.Reading.{AreLater, IsCounterAfter, IsNoted, ShowsLater};
ghost use Rattle.gs_counts.specs.Runs.{done_happenings, entry_happenings, entry_sizes, known_sizes, sizes_of};
ghost use Rattle.gs_counts.specs.Standing.{MeshSize, Shows};
ghost use Rattle.gs_counts.specs.Topics.{subscribed};

use crate::changes::{note_deliveries, note_marks, note_refusals};
use crate::happening::{Happening, Scene};
use crate::heard::{Did, note_all_fallen, note_event};
use crate::lane::{Lane, tell_all};
use crate::memory::Memory;
use crate::meshes::members_in;
use crate::sent::{is_answer, note_sends};
use crate::tables::Tables;
use gs_base::{Millis, Neighbour, PeerNo, Topic};
use gs_plan::Plan;
use gs_router::Watcher;
use gs_rules::{Event, Fallen, RefusedLine, StoredEntry};
use gs_seats::{Neighbourhoods, watcher_among};
use std::alloc::{AllocError, Global};

/// It counts what a peer does, entry by entry.
#[derive(Drop)]
pub(crate) struct PeerCounter {
    notes: Notes,
    /// It says what came to nothing at each entry.
    watcher: Watcher,
    /// The moment of the entry that was seen last, or 0 if there is none.
    last: Millis,
}

/// What is known about a peer whose entries are seen, and what goes out to its neighbours.
#[derive(Drop)]
struct Notes {
    peer: PeerNo,
    memory: Memory,
    lanes: Vec<Lane>,
}

/// Notes the lines of the script that a peer refused.
pub(crate) fn note_refused(
    tables: &mut Tables,
    list: &mut Vec<Happening>,
    peer: PeerNo,
    refused: &[RefusedLine],
) -> Result<(), AllocError>
    ensures { OnOk result ((plan : PlanValue) (hs : List HappeningValue) (sizes : List MeshSize)
        → Shows plan tables.old hs sizes
        → Shows plan tables.new (hs ++ flat_map (refusal_happenings peer) refused.now) sizes) }
{
    list.clear();
    note_refusals(list, peer, refused)?;
    tables.note_all(list)
}

impl PeerCounter {
    /// The counter of a peer that has done nothing.
    pub(crate) fn new(
        alloc: Global,
        plan: &Plan,
        neighbourhoods: &Neighbourhoods,
        peer: PeerNo,
    ) -> Result<PeerCounter, AllocError>
        requires range { IsInRange plan.now }
        requires sorted { AreNeighbourhoods plan.now neighbourhoods.now }
        ensures { IfOk result (λ counter. IsCounterAfter plan.now peer counter []) }
    {
        let watcher = watcher_among(alloc, plan, neighbourhoods, peer)?;
        let notes = Notes::new(alloc, plan, neighbourhoods, peer)?;
        Ok(PeerCounter {
            notes,
            watcher,
            last: Millis(0),
        })
    }

    /// The topics that the peer is subscribed to.
    pub(crate) fn topics(&self) -> &[Topic]
        ensures { (plan : PlanValue) (p : PeerNoValue) (L : Entries)
            → IsCounterAfter plan p self.now L → result.now ≡ subscribed L }
    {
        &self.notes.memory.meshes.topics
    }

    /// Notes what the next entries say, the oldest first.
    pub(crate) fn see(
        &mut self,
        tables: &mut Tables,
        list: &mut Vec<Happening>,
        entries: &[StoredEntry],
    ) -> Result<(), AllocError>
        requires { (plan : PlanValue) × (p : PeerNoValue) × (L : Entries)
            × IsCounterAfter plan p self.old L × AreLater (last_moment L) entries.now }
        ensures counter { OnOk result ((plan : PlanValue) (p : PeerNoValue) (L : Entries)
            → IsCounterAfter plan p self.old L
            → IsCounterAfter plan p self.new (reverse entries.now ++ L)) }
        ensures tables { OnOk result ((plan : PlanValue) (p : PeerNoValue) (L : Entries)
            → IsCounterAfter plan p self.old L
            → ShowsLater plan p tables.old tables.new L entries.now) }
    {
        for entry in entries {
            self.see_one(tables, list, entry)?;
        }
        Ok(())
    }

    /// Notes what the next entry says.
    fn see_one(
        &mut self,
        tables: &mut Tables,
        list: &mut Vec<Happening>,
        entry: &StoredEntry,
    ) -> Result<(), AllocError>
        requires { (plan : PlanValue) × (p : PeerNoValue) × (L : Entries)
            × IsCounterAfter plan p self.old L × (last_moment L ≤ entry.now.at.0) }
        ensures counter { OnOk result ((plan : PlanValue) (p : PeerNoValue) (L : Entries)
            → IsCounterAfter plan p self.old L
            → IsCounterAfter plan p self.new (entry.now ∷ L)) }
        ensures tables { OnOk result ((plan : PlanValue) (p : PeerNoValue) (L : Entries)
            → IsCounterAfter plan p self.old L
            → ShowsLater plan p tables.old tables.new L (entry.now ∷ [])) }
    {
        let fallen = self.watcher.see(entry)?;
        note_entry(tables, &mut self.notes, list, entry, &fallen)?;
        self.last = entry.at();
        Ok(())
    }
}

/// Notes what an entry says at which this came to nothing.
fn note_entry(
    tables: &mut Tables,
    notes: &mut Notes,
    list: &mut Vec<Happening>,
    entry: &StoredEntry,
    fallen: &[Fallen],
) -> Result<(), AllocError>
    ensures notes { OnOk result ((plan : PlanValue) (p : PeerNoValue) (L : Entries)
        → IsNoted plan p notes.old L
        → IsNoted plan p notes.new (entry.now ∷ L)) }
    ensures tables { OnOk result ((plan : PlanValue) (p : PeerNoValue) (L : Entries)
        (hs : List HappeningValue) (sizes : List MeshSize)
        → IsNoted plan p notes.old L
        → fallen.now ≡ fell_away (peer_in plan p) L entry.now.at entry.now.event
        → Shows plan tables.old hs sizes
        → Shows plan tables.new (hs ++ entry_happenings plan p L entry.now)
        (sizes ++ entry_sizes L entry.now)) }
{
    list.clear();
    notes.list_entry(list, entry, fallen)?;
    tables.note_all(list)?;
    note_sizes(tables, &notes.memory, entry.at(), entry.event());
    Ok(())
}

/// Notes the sizes of the meshes of a peer that ends a round.
fn note_sizes(tables: &mut Tables, memory: &Memory, at: Millis, event: &Event)
    ensures { (plan : PlanValue) (hs : List HappeningValue) (sizes : List MeshSize)
        → Shows plan tables.old hs sizes
        → Shows plan tables.new hs (sizes ++ known_sizes memory.now at event.now) }
{
    if !ends_round(event) {
        return;
    }
    note_meshes(tables, &memory.meshes.members, &memory.meshes.topics, at);
}

/// Notes how many of these members the mesh of each of these topics has.
fn note_meshes(tables: &mut Tables, members: &[(Topic, PeerNo)], topics: &[Topic], at: Millis)
    ensures { (plan : PlanValue) (hs : List HappeningValue) (sizes : List MeshSize)
        → Shows plan tables.old hs sizes
        → Shows plan tables.new hs (sizes ++ sizes_of at members.now topics.now) }
{
    for topic in topics {
        tables.note_size(at, members_in(members, topic));
    }
}

/// Whether an event ends a round. Each event is named, so that a new one must be decided on.
fn ends_round(event: &Event) -> bool
    ensures { result ≡ of_round_end (λ r. true) false event.now }
{
    match event {
        Event::RoundEnd(_) => true,
        Event::Heard(_, _) => false,
        Event::Late(_, _) => false,
        Event::Part(_, _) => false,
        Event::BeatBegin => false,
        Event::Step(_) => false,
        Event::Own(_) => false,
        Event::Lost(_, _) => false,
        Event::Decay => false,
        Event::Shut => false,
    }
}

impl Notes {
    /// What is known before the first entry.
    fn new(
        alloc: Global,
        plan: &Plan,
        neighbourhoods: &Neighbourhoods,
        peer: PeerNo,
    ) -> Result<Notes, AllocError>
        requires range { IsInRange plan.now }
        requires sorted { AreNeighbourhoods plan.now neighbourhoods.now }
        ensures { IfOk result (λ notes. IsNoted plan.now peer notes []) }
    {
        let lanes = lanes_of(alloc, plan, neighbourhoods, peer)?;
        Ok(Notes {
            peer,
            memory: Memory::new(alloc),
            lanes,
        })
    }

    /// Lists what happens at an entry at which this came to nothing, and notes what the entry says.
    fn list_entry(
        &mut self,
        list: &mut Vec<Happening>,
        entry: &StoredEntry,
        fallen: &[Fallen],
    ) -> Result<(), AllocError>
        ensures list { OnOk result ((plan : PlanValue) (p : PeerNoValue) (L : Entries)
            → IsNoted plan p self.old L
            → fallen.now ≡ fell_away (peer_in plan p) L entry.now.at entry.now.event
            → list.new.items ≡ list.old.items ++ entry_happenings plan p L entry.now) }
        ensures notes { OnOk result ((plan : PlanValue) (p : PeerNoValue) (L : Entries)
            → IsNoted plan p self.old L
            → IsNoted plan p self.new (entry.now ∷ L)) }
    {
        let scene = Scene::of(entry.at(), self.peer);
        list_done(list, &self.memory, scene, entry, fallen)?;
        tell_all(&mut self.lanes, list, scene, entry)?;
        self.memory.note(entry)
    }
}

/// Lists what happens at an entry, except what goes out over links.
fn list_done(
    list: &mut Vec<Happening>,
    memory: &Memory,
    scene: Scene,
    entry: &StoredEntry,
    fallen: &[Fallen],
) -> Result<(), AllocError>
    ensures { OnOk result (list.new.items
        ≡ list.old.items ++ done_happenings (known_fate memory.now) scene fallen.now entry.now) }
{
    let (event, marks) = (entry.event(), entry.marks());
    let did = Did {
        event,
        marks,
        fallen,
    };
    note_all_fallen(list, scene, fallen)?;
    note_event(list, memory, scene, did)?;
    note_sends(list, scene, is_answer(event), entry.sends())?;
    note_deliveries(list, scene, entry.delivered())?;
    note_marks(list, scene, event, marks)
}

/// The lanes to the neighbours of a peer, ascending.
fn lanes_of(
    alloc: Global,
    plan: &Plan,
    neighbourhoods: &Neighbourhoods,
    peer: PeerNo,
) -> Result<Vec<Lane>, AllocError>
    requires range { IsInRange plan.now }
    requires sorted { AreNeighbourhoods plan.now neighbourhoods.now }
    ensures { IfOk result (λ lanes. lanes.items ≡ map new_lane (neighbours plan.now peer)) }
{
    let neighbours = neighbourhoods.neighbours(alloc, plan, peer)?;
    let lanes = lanes_to(alloc, &neighbours)?;
    Ok(lanes)
}

/// The lanes to these neighbours.
fn lanes_to(alloc: Global, neighbours: &[Neighbour]) -> Result<Vec<Lane>, AllocError>
    ensures { IfOk result (λ lanes. lanes.items ≡ map new_lane (peers_of neighbours.now)) }
{
    let mut lanes = Vec::new(alloc);
    for neighbour in neighbours {
        lanes.push(Lane::new(alloc, neighbour.peer))?;
    }
    Ok(lanes)
}
