//! What goes out to a neighbour, entry by entry: frames, and raw bytes.
ghost use Rattle.std.specs.Prelude.{◌≡◌, ◌∷◌, [], ◌++◌, OnOk, false, map, None, option_to_list, true};
ghost use Rattle.std.specs.List.{flat_map};
ghost use Rattle.gs_rules.specs.Saying.{gather};
ghost use Rattle.gs_rules.specs.Tables.{is_lost};
ghost use Rattle.gs_rules.specs.declared.event.Event.TheVariants as events;
ghost use Rattle.gs_wire.specs.Codec.{codec};
ghost use Rattle.gs_counts.specs.Lanes.{IsSilent, closed_lane, cut_lane, cut_off, end_happenings, fitting_to, frame_happenings, frames_out, lane_after, lane_behind, lane_happenings, lane_sent, let_out, new_lane, raw_out};

use crate::happening::{Happening, Scene, note};
use crate::kind::Kind;
use crate::lengths::{body_len, frame_len};
use gs_base::{PeerNo, Rpc, Shared};
use gs_plan::Act;
use gs_rules::{Event, StoredEntry};
use gs_wire::GatheredRpcs;
use std::alloc::{AllocError, Global};

/// What goes out to a neighbour: the RPC that is gathered for it, and whether more may be said.
#[derive(Drop)]
pub(crate) struct Lane {
    to: PeerNo,
    gathered: GatheredRpcs,
    is_open: bool,
}

/// What an entry puts out to each neighbour, one after the other.
pub(crate) fn tell_all(
    lanes: &mut [Lane],
    list: &mut Vec<Happening>,
    scene: Scene,
    entry: &StoredEntry,
) -> Result<(), AllocError>
    ensures list { OnOk result (list.new.items
        ≡ list.old.items ++ flat_map (λ lane. lane_happenings scene lane entry.now) lanes.old) }
    ensures lanes { OnOk result (lanes.new ≡ map (lane_after entry.now) lanes.old) }
{
    if is_silent(entry) {
        return Ok(());
    }
    for lane in lanes.iter_mut() {
        lane.tell(list, scene, entry)?;
    }
    Ok(())
}

/// Whether an entry puts out nothing to any neighbour, regardless of what is gathered. Each event is named, so that a new
/// one must be decided on.
fn is_silent(entry: &StoredEntry) -> bool
    ensures { result ≡ true → IsSilent entry.now }
{
    if !entry.sends().is_empty() {
        return false;
    }
    match entry.event() {
        Event::Heard(_, _) => true,
        Event::Late(_, _) => true,
        Event::Part(_, _) => true,
        Event::BeatBegin => true,
        Event::Step(_) => true,
        Event::Decay => true,
        Event::Own(_) => false,
        Event::Lost(_, _) => false,
        Event::RoundEnd(_) => false,
        Event::Shut => false,
    }
}

impl Lane {
    /// A lane to a neighbour before anything was sent to it.
    pub(crate) fn new(alloc: Global, to: PeerNo) -> Lane
        ensures { result ≡ new_lane to }
    {
        Lane {
            to,
            gathered: GatheredRpcs::new(alloc),
            is_open: true,
        }
    }

    /// Notes what an entry puts out to the neighbour.
    fn tell(
        &mut self,
        list: &mut Vec<Happening>,
        scene: Scene,
        entry: &StoredEntry,
    ) -> Result<(), AllocError>
        ensures list { OnOk result (list.new.items
            ≡ list.old.items ++ lane_happenings scene self.old entry.now) }
        ensures lane { OnOk result (self.new ≡ lane_after entry.now self.old) }
    {
        if !self.is_open {
            return Ok(());
        }
        let scene = scene.with(self.to);
        self.send_all(list, scene, entry.sends())?;
        self.tell_event(list, scene, entry.event())
    }

    fn send_all(
        &mut self,
        list: &mut Vec<Happening>,
        scene: Scene,
        sends: &[(PeerNo, Shared<Rpc>)],
    ) -> Result<(), AllocError>
        ensures list { OnOk result (list.new.items
            ≡ list.old.items ++ frames_out scene (let_out self.old.gathered (fitting_to self.old.to sends.now))) }
        ensures lane { OnOk result (self.new ≡ lane_sent self.old (fitting_to self.old.to sends.now)) }
    {
        for send in sends {
            self.send_one(list, scene, send)?;
        }
        Ok(())
    }

    /// Gathers a send, if it is to the neighbour. An RPC that fits no frame does not count.
    fn send_one(
        &mut self,
        list: &mut Vec<Happening>,
        scene: Scene,
        send: &(PeerNo, Shared<Rpc>),
    ) -> Result<(), AllocError>
        ensures list { OnOk result (list.new.items
            ≡ list.old.items ++ frames_out scene (let_out self.old.gathered (fitting_to self.old.to (send.now ∷ [])))) }
        ensures lane { OnOk result (self.new ≡ lane_sent self.old (fitting_to self.old.to (send.now ∷ []))) }
    {
        let (to, rpc) = send;
        let own = self.to;
        if *to != own {
            return Ok(());
        }
        match body_len(*list.allocator(), rpc.get())? {
            Some(_) => self.send(list, scene, rpc),
            None => Ok(()),
        }
    }

    fn send(
        &mut self,
        list: &mut Vec<Happening>,
        scene: Scene,
        rpc: &Shared<Rpc>,
    ) -> Result<(), AllocError>
        requires fits { codec.fits rpc.now ≡ true }
        ensures list { OnOk result (list.new.items
            ≡ list.old.items ++ frames_out scene (gather codec self.old.gathered rpc.now).0) }
        ensures lane { OnOk result (self.new
            ≡ record self.old { gathered = (gather codec self.old.gathered rpc.now).1 }) }
    {
        if self.gathered.gather(rpc)? {
            return Ok(());
        }
        self.put_out(list, scene)?;
        self.gathered.gather(rpc)?;
        Ok(())
    }

    /// Puts out what is gathered as one frame, if anything is.
    fn put_out(&mut self, list: &mut Vec<Happening>, scene: Scene) -> Result<(), AllocError>
        ensures list { OnOk result (list.new.items
            ≡ list.old.items ++ frames_out scene (option_to_list self.old.gathered)) }
        ensures lane { OnOk result (self.new ≡ record self.old { gathered = None }) }
    {
        let alloc = *list.allocator();
        match self.gathered.take(alloc)? {
            Some(rpc) => note_frame(list, scene, frame_len(alloc, rpc.get())?),
            None => Ok(()),
        }
    }

    fn tell_event(
        &mut self,
        list: &mut Vec<Happening>,
        scene: Scene,
        event: &Event,
    ) -> Result<(), AllocError>
        ensures list { OnOk result (list.new.items
            ≡ list.old.items ++ end_happenings scene self.old event.now) }
        ensures lane { OnOk result (self.new ≡ lane_behind event.now self.old) }
    {
        match event {
            Event::RoundEnd(_) => self.put_out(list, scene),
            Event::Shut => self.close(list, scene),
            Event::Own(act) => self.tell_act(list, scene, act.get()),
            other => self.close_lost(list, scene, other.lost()),
        }
    }

    fn tell_act(
        &mut self,
        list: &mut Vec<Happening>,
        scene: Scene,
        act: &Act,
    ) -> Result<(), AllocError>
        ensures list { OnOk result (list.new.items
            ≡ list.old.items ++ end_happenings scene self.old (events.Own act.now)) }
        ensures lane { OnOk result (self.new ≡ lane_behind (events.Own act.now) self.old) }
    {
        let own = self.to;
        match act {
            Act::Raw(to, bytes) => self.put_raw(list, scene, *to == own, bytes.len() as u64),
            Act::HangUp(to) => self.close_lost(list, scene, Some(*to)),
            Act::Subscribe(_) => Ok(()),
            Act::Unsubscribe(_) => Ok(()),
            Act::Publish(_, _) => Ok(()),
        }
    }

    /// Puts out this many raw bytes after what is gathered, if they go to the neighbour.
    fn put_raw(
        &mut self,
        list: &mut Vec<Happening>,
        scene: Scene,
        is_for: bool,
        count: u64,
    ) -> Result<(), AllocError>
        ensures list { OnOk result (list.new.items
            ≡ list.old.items ++ frames_out scene (cut_off is_for self.old.gathered) ++ raw_out scene is_for count) }
        ensures lane { OnOk result (self.new ≡ cut_lane is_for self.old) }
    {
        if !is_for {
            return Ok(());
        }
        self.put_out(list, scene)?;
        note(list, scene, Kind::BytesSent, count)?;
        note(list, scene, Kind::RawBytesSent, count)
    }

    fn close_lost(
        &mut self,
        list: &mut Vec<Happening>,
        scene: Scene,
        lost: Option<PeerNo>,
    ) -> Result<(), AllocError>
        ensures list { OnOk result (list.new.items
            ≡ list.old.items ++ frames_out scene (cut_off (is_lost self.old.to lost) self.old.gathered)) }
        ensures lane { OnOk result (self.new ≡ closed_lane (is_lost self.old.to lost) self.old) }
    {
        if lost != Some(self.to) {
            return Ok(());
        }
        self.close(list, scene)
    }

    fn close(&mut self, list: &mut Vec<Happening>, scene: Scene) -> Result<(), AllocError>
        ensures list { OnOk result (list.new.items
            ≡ list.old.items ++ frames_out scene (option_to_list self.old.gathered)) }
        ensures lane { OnOk result (self.new ≡ record self.old { gathered = None; is_open = false }) }
    {
        self.put_out(list, scene)?;
        self.is_open = false;
        Ok(())
    }
}

/// Notes a frame of this many bytes.
fn note_frame(list: &mut Vec<Happening>, scene: Scene, bytes: u64) -> Result<(), AllocError>
    ensures { OnOk result (list.new.items ≡ list.old.items ++ frame_happenings scene bytes) }
{
    note(list, scene, Kind::RpcsSent, 1)?;
    note(list, scene, Kind::BytesSent, bytes)
}
