//! RPCs that are gathered in three ways, and go out as one.
use crate::tests::wire::said::{Says, is_said, is_said_on_news};
use crate::tests::wire::sizes::{add_frame, published};
use gs_base::{Rpc, Shared};
use gs_wire::{Gathered, GatheredRpcs, WireFault, WrittenRpc, decode, encode_frame, join};
use std::alloc::Global;

/// A step with the RPCs that are gathered, and how it ends.
pub enum Act {
    /// An RPC with this body is gathered, or it would not fit a frame with the others.
    Body(&'static [u8], bool),
    /// The same for a message with a payload of this length on the topic `t`.
    Message(usize, bool),
    /// This frame goes out.
    Frame(&'static [u8]),
    /// A frame of this length goes out, whose messages have payloads of these lengths.
    Messages(usize, &'static [usize]),
    /// Nothing goes out, since nothing was gathered.
    Nothing,
}

/// A way to gather RPCs.
pub trait Gathers: Drop {
    /// Says whether the RPC is gathered. If not, it would not fit a frame with the others.
    fn add(&mut self, alloc: Global, rpc: &Shared<Rpc>) -> Result<bool, WireFault>;

    /// Takes what was gathered, and adds its frame. It returns false where nothing was gathered.
    fn send(&mut self, alloc: Global, frame: &mut Vec<u8>) -> Result<bool, WireFault>;
}

/// Each RPC is gathered with its bytes.
impl Gathers for Gathered {
    fn add(&mut self, alloc: Global, rpc: &Shared<Rpc>) -> Result<bool, WireFault> {
        let written = match WrittenRpc::new(alloc, rpc) {
            Ok(written) => Shared::new(alloc, written)?,
            Err(WireFault::TooLong) => return Ok(false),
            Err(fault) => return Err(fault),
        };
        let fits = self.gather(&written)?;
        Ok(fits)
    }

    fn send(&mut self, alloc: Global, frame: &mut Vec<u8>) -> Result<bool, WireFault> {
        let Some(text) = self.take_frame(alloc)? else {
            return Ok(false);
        };
        frame.extend_from_slice(&text)?;
        Ok(true)
    }
}

/// RPCs are gathered as values.
impl Gathers for GatheredRpcs {
    fn add(&mut self, _alloc: Global, rpc: &Shared<Rpc>) -> Result<bool, WireFault> {
        let fits = self.gather(rpc)?;
        Ok(fits)
    }

    fn send(&mut self, alloc: Global, frame: &mut Vec<u8>) -> Result<bool, WireFault> {
        let Some(rpc) = self.take(alloc)? else {
            return Ok(false);
        };
        encode_frame(rpc.get(), frame)?;
        Ok(true)
    }
}

/// Each RPC is joined to the earlier ones at once. Where nothing is said, nothing was gathered.
impl Gathers for Rpc {
    fn add(&mut self, alloc: Global, rpc: &Shared<Rpc>) -> Result<bool, WireFault> {
        join(alloc, self, rpc.get())
    }

    fn send(&mut self, alloc: Global, frame: &mut Vec<u8>) -> Result<bool, WireFault> {
        if is_said(self, &Says::Nothing) {
            return Ok(false);
        }
        encode_frame(self, frame)?;
        *self = Rpc::empty(alloc);
        Ok(true)
    }
}

/// Whether the RPC is gathered, or isn't if it must not fit.
fn is_added<G: Gathers>(
    alloc: Global,
    gathered: &mut G,
    rpc: Result<Rpc, WireFault>,
    fits: bool,
) -> Result<bool, WireFault> {
    let shared = Shared::new(alloc, rpc?)?;
    Ok(gathered.add(alloc, &shared)? == fits)
}

/// Whether this frame goes out, or nothing if nothing was gathered.
fn is_sent<G: Gathers>(
    alloc: Global,
    gathered: &mut G,
    sent: bool,
    wanted: &[u8],
) -> Result<bool, WireFault> {
    let mut frame = Vec::new(alloc);
    Ok(gathered.send(alloc, &mut frame)? == sent && frame.as_slice() == wanted)
}

/// Whether a frame of this length goes out, whose messages have payloads of these lengths.
fn are_sent<G: Gathers>(
    alloc: Global,
    gathered: &mut G,
    len: usize,
    payloads: &[usize],
) -> Result<bool, WireFault> {
    let mut wanted = Vec::new(alloc);
    add_frame(alloc, &mut wanted, payloads)?;
    Ok(is_sent(alloc, gathered, true, &wanted)? && wanted.len() == len)
}

/// Does what the act says, and says whether it ends so.
fn does<G: Gathers>(alloc: Global, gathered: &mut G, act: &Act) -> Result<bool, WireFault> {
    match act {
        Act::Body(body, fits) => is_added(alloc, gathered, decode(alloc, body), *fits),
        Act::Message(len, fits) => is_added(alloc, gathered, published(alloc, *len), *fits),
        Act::Frame(frame) => is_sent(alloc, gathered, true, frame),
        Act::Messages(len, payloads) => are_sent(alloc, gathered, *len, payloads),
        Act::Nothing => is_sent(alloc, gathered, false, b""),
    }
}

/// Whether each of these acts ends as it says.
pub fn does_all<G: Gathers>(
    alloc: Global,
    gathered: &mut G,
    acts: &[Act],
) -> Result<bool, WireFault> {
    for act in acts {
        if !does(alloc, gathered, act)? {
            return Ok(false);
        }
    }
    Ok(true)
}

/// The same for what has gathered nothing yet.
pub fn all_done<G: Gathers>(alloc: Global, gathered: G, acts: &[Act]) -> bool {
    let mut gathered = gathered;
    let done = does_all(alloc, &mut gathered, acts);
    drop(gathered);
    matches!(done, Ok(true))
}

/// Whether an RPC is taken after these acts, which says the three things on `news` or must not.
pub fn is_news(
    alloc: Global,
    gathered: &mut GatheredRpcs,
    acts: &[Act],
    same: bool,
) -> Result<bool, WireFault> {
    let done = does_all(alloc, gathered, acts)?;
    match gathered.take(alloc)? {
        Some(rpc) => Ok(done && is_said_on_news(rpc.get()) == same),
        None => Ok(false),
    }
}
