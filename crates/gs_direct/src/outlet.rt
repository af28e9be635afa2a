//! What a peer sends to one neighbour.
ghost use Rattle.std.specs.Prelude.{◌≡◌, [], None, true, map, OnOk, if◌then◌else◌, option_to_list};
ghost use Rattle.gs_base.specs.Names.{same_peer};
ghost use Rattle.gs_base.specs.Tokens.{Byte};
ghost use Rattle.gs_wire.specs.Codec.{codec};
ghost use Rattle.gs_rules.specs.declared.event.Event.TheVariants.{Own};
ghost use Rattle.gs_rules.specs.Modes.{sent_to};
ghost use Rattle.gs_rules.specs.Saying.{cut_out, saying, sending, sending_all};
ghost use Rattle.gs_direct.specs.Outlets.{Closes, Follows, IsHandedOver, IsNew, IsWritten, Says, SendsWritten, Tells, ending_of, letters_of};

use crate::letter::{Ending, Letter};
use crate::link_reader::LinkReader;
use bytes::Bytes;
use gs_base::{PeerNo, Rpc, Shared};
use gs_plan::Act;
use gs_rules::{Event, StoredEntry};
use gs_wire::GatheredRpcs;
use std::alloc::{AllocError, Global};
use std::mem;

/// What a peer sends to one neighbour. RPCs go as shared values. Once raw bytes are put on the link, everything goes through
/// a reader of frames. Raw bytes may end within a frame, and what follows then begins within it.
#[derive(Drop)]
pub struct Outlet {
    /// The neighbour.
    pub to: PeerNo,
    /// Whether more may be sent to it.
    pub is_open: bool,
    /// What is gathered and not yet out.
    pub gathered: GatheredRpcs,
    /// What reads the bytes of the link, where raw bytes were put on it.
    pub reader: Option<LinkReader>,
    /// The RPCs that are out in this round, in order.
    pub rpcs: Vec<Shared<Rpc>>,
    /// Whether the neighbour was sent the ending.
    pub is_over: bool,
}

impl Outlet {
    /// Returns an outlet to a neighbour to which nothing was said. It takes no memory.
    pub fn new(alloc: Global, to: PeerNo) -> Outlet
        ensures { IsNew to result }
    {
        Outlet {
            to,
            is_open: true,
            gathered: GatheredRpcs::new(alloc),
            reader: None,
            rpcs: Vec::new(alloc),
            is_over: false,
        }
    }

    /// Sends the neighbour what an entry says.
    ///
    /// # Errors
    /// `AllocError` when out of memory.
    pub fn tell(&mut self, alloc: Global, entry: &StoredEntry) -> Result<(), AllocError>
        requires { SendsWritten entry.now.effects.sends }
        ensures { OnOk result (Says entry.now self.old self.new) }
    {
        if !self.is_open {
            return Ok(());
        }
        self.send_all(alloc, entry.sends())?;
        self.tell_event(alloc, entry.event())?;
        Ok(())
    }

    /// Gathers those RPCs that are for the neighbour.
    fn send_all(&mut self, alloc: Global, sends: &[(PeerNo, Shared<Rpc>)]) -> Result<(), AllocError>
        requires { SendsWritten sends.now }
        ensures { OnOk result (Follows (λ goes. sending_all codec goes (sent_to self.old.to sends.now)) self.old self.new) }
    {
        for (to, rpc) in sends {
            if *to == self.to {
                self.send(alloc, rpc)?;
            }
        }
        Ok(())
    }

    /// Gathers an RPC. Where it does not fit a frame together with what is gathered, the gathered RPC goes out first.
    fn send(&mut self, alloc: Global, rpc: &Shared<Rpc>) -> Result<(), AllocError>
        requires { IsWritten rpc.now }
        ensures { OnOk result (Follows (λ goes. sending codec goes rpc.now) self.old self.new) }
    {
        if self.gathered.gather(rpc)? {
            return Ok(());
        }
        self.put_out(alloc)?;
        self.gathered.gather(rpc)?;
        Ok(())
    }

    /// Puts out what is gathered, as one RPC.
    fn put_out(&mut self, alloc: Global) -> Result<(), AllocError>
        ensures follows { OnOk result (Follows (cut_out codec) self.old self.new) }
        ensures none { OnOk result (self.new.gathered ≡ None) }
    {
        let Some(rpc) = self.gathered.take(alloc)? else {
            return Ok(());
        };
        match &mut self.reader {
            None => {
                self.rpcs.push(rpc)?;
                Ok(())
            }
            Some(reader) => reader.read_frame(alloc, rpc.get(), &mut self.rpcs),
        }
    }

    /// Sends what an event says, where more may be sent to the neighbour.
    fn tell_event(&mut self, alloc: Global, event: &Event) -> Result<(), AllocError>
        requires { self.old.is_open ≡ true }
        ensures { OnOk result (Tells event.now self.old self.new) }
    {
        match event {
            Event::RoundEnd(_) => self.put_out(alloc),
            Event::Shut => self.close(alloc),
            Event::Own(act) => self.tell_act(alloc, act.get()),
            Event::Lost(peer, _) => self.close_lost(alloc, *peer),
            Event::Heard(_, _) => Ok(()),
            Event::Late(_, _) => Ok(()),
            Event::Part(_, _) => Ok(()),
            Event::BeatBegin => Ok(()),
            Event::Step(_) => Ok(()),
            Event::Decay => Ok(()),
        }
    }

    /// Sends what an act of the peer's own user says, where more may be sent to the neighbour.
    fn tell_act(&mut self, alloc: Global, act: &Act) -> Result<(), AllocError>
        requires { self.old.is_open ≡ true }
        ensures { OnOk result (Tells (Own act.now) self.old self.new) }
    {
        match act {
            Act::Raw(to, bytes) => self.put_raw(alloc, *to, bytes),
            Act::HangUp(peer) => self.close_lost(alloc, *peer),
            Act::Subscribe(_) => Ok(()),
            Act::Unsubscribe(_) => Ok(()),
            Act::Publish(_, _) => Ok(()),
        }
    }

    /// Puts raw bytes on the link unchanged, where they are for the neighbour.
    fn put_raw(&mut self, alloc: Global, to: PeerNo, bytes: &Bytes) -> Result<(), AllocError>
        ensures { OnOk result (Follows (λ goes.
            if same_peer to self.old.to then saying (cut_out codec goes) (map Byte bytes.now) else goes) self.old self.new) }
    {
        if to != self.to {
            return Ok(());
        }
        self.put_out(alloc)?;
        self.read(alloc, bytes.as_slice())?;
        Ok(())
    }

    /// Reads bytes of the link.
    fn read(&mut self, alloc: Global, bytes: &[u8]) -> Result<(), AllocError>
        ensures { OnOk result (Follows (λ goes. saying goes (map Byte bytes.now)) self.old self.new) }
    {
        match &mut self.reader {
            Some(reader) => reader.read(alloc, bytes, &mut self.rpcs),
            None => {
                let mut reader = LinkReader::new(alloc);
                reader.read(alloc, bytes, &mut self.rpcs)?;
                self.reader = Some(reader);
                Ok(())
            }
        }
    }

    /// Sends the neighbour only what is gathered, and then the close, where it is the one that is lost.
    fn close_lost(&mut self, alloc: Global, lost: PeerNo) -> Result<(), AllocError>
        requires { self.old.is_open ≡ true }
        ensures { OnOk result (Closes (same_peer lost self.old.to) self.old self.new) }
    {
        if lost != self.to {
            return Ok(());
        }
        self.close(alloc)
    }

    /// Sends the neighbour only what is gathered, and then the close.
    fn close(&mut self, alloc: Global) -> Result<(), AllocError>
        ensures { OnOk result (Closes true self.old self.new) }
    {
        self.put_out(alloc)?;
        self.is_open = false;
        Ok(())
    }

    /// Returns how the peer's side of the link ends, where the neighbour was not sent the ending yet. Bytes that spell no
    /// RPC are a fault, and so is a close within a frame.
    fn ending(&self) -> Option<Ending>
        ensures { result ≡ ending_of self.now }
    {
        if self.is_over {
            return None;
        }
        match &self.reader {
            Some(reader) if reader.has_failed() => Some(Ending::Fault),
            _ if self.is_open => None,
            Some(reader) if reader.pending() != 0 => Some(Ending::Fault),
            _ => Some(Ending::Gone),
        }
    }

    /// Returns the letter of a round from this peer, if there is anything to say. The next round begins with none.
    pub fn hand_over(&mut self, alloc: Global, from: PeerNo) -> Option<Letter>
        ensures letter { option_to_list result ≡ letters_of from self.old }
        ensures handed { IsHandedOver self.old self.new }
    {
        let ending = self.ending();
        if self.rpcs.is_empty() && ending.is_none() {
            return None;
        }
        self.is_over = self.is_over || ending.is_some();
        let rpcs = mem::replace(&mut self.rpcs, Vec::new(alloc));
        Some(Letter { from, rpcs, ending })
    }
}
