//! RPCs that are gathered, and handed over as one RPC. That RPC is never written as bytes.
ghost use Rattle.std.specs.Prelude.{◌≡◌, None, Some, Ok, true, false, IfOk, OnOk, OnErr, Option, is_none};
ghost use Rattle.gs_base.specs.declared.control.Control.{Control as ControlValue};
ghost use Rattle.gs_wire.specs.Codec.{codec};
ghost use Rattle.gs_wire.specs.Gathering.{as_one};
ghost use Rattle.gs_wire.specs.Joining.{joined_controls, joined_to};
ghost use Rattle.gs_wire.specs.Sections.{control_length_within};

use crate::joining::joined;
use crate::rpc::{MAX_BODY, control_len, control_record_len, plain_len};
use gs_base::{Rpc, Shared, clone_of};
use std::alloc::{AllocError, Global};
use std::marker::Model;

/// RPCs that are handed over as one. Contracts see the RPC that they are joined to, or none where none was gathered.
#[derive(Drop)]
pub struct GatheredRpcs {
    rpcs: Vec<Shared<Rpc>>,
    /// The length, when written, of everything that they say outside of their control messages.
    plain: usize,
    /// The length of all their control messages, where they have some.
    control: Option<usize>,
}

impl Model for GatheredRpcs {
    ghost use Rattle.std.specs.Prelude.{Option};
    ghost use Rattle.gs_base.specs.declared.rpc.Rpc.{Rpc as RpcValue};
    ghost use Rattle.gs_wire.specs.Joining.{joined_rpcs};
    ghost use Rattle.gs_wire.specs.Gathering.{IsMeasured, as_one};

    ghost Value = { Option RpcValue };

    ghost view = { λ g. joined_rpcs g.rpcs.items };

    ghost invariant = { λ g. IsMeasured (as_one (joined_rpcs g.rpcs.items)) g.plain g.control };
}

impl GatheredRpcs {
    /// Returns a value that has gathered nothing. It takes no memory.
    pub fn new(alloc: Global) -> GatheredRpcs
        ensures { result ≡ None }
    {
        GatheredRpcs {
            rpcs: Vec::new(alloc),
            plain: 0,
            control: None,
        }
    }

    /// Says whether nothing is gathered.
    pub fn is_empty(&self) -> bool
        ensures { result ≡ is_none self.now }
    {
        self.rpcs.is_empty()
    }

    /// Joins one more RPC to the gathered ones and returns true, or returns false where that would not fit a frame.
    ///
    /// # Errors
    /// `AllocError` when out of memory. After an error, and after false, nothing has changed.
    pub fn gather(&mut self, rpc: &Shared<Rpc>) -> Result<bool, AllocError>
        ensures fits { IfOk result (λ fits. fits ≡ codec.fits (joined_to self.old rpc.now)) }
        ensures joined { result ≡ Ok true → self.new ≡ Some (joined_to self.old rpc.now) }
        ensures too_long { result ≡ Ok false → self.new ≡ self.old }
        ensures kept { OnErr result (self.new ≡ self.old) }
    {
        let plain = self.plain.saturating_add(plain_len(rpc.get()));
        let control = joined_control_len(self.control, control_len(rpc.get()));
        if plain.saturating_add(control_record_len(control)) > MAX_BODY {
            return Ok(false);
        }
        self.rpcs.push(clone_of(rpc)?)?;
        self.plain = plain;
        self.control = control;
        Ok(true)
    }

    /// Takes what was gathered as one RPC, and returns none where nothing was gathered. A single RPC is handed over as it
    /// is, and not copied.
    ///
    /// # Errors
    /// `AllocError` when out of memory. Nothing changes then.
    pub fn take(&mut self, alloc: Global) -> Result<Option<Shared<Rpc>>, AllocError>
        ensures rpc { IfOk result (λ found. found ≡ self.old) }
        ensures taken { OnOk result (self.new ≡ None) }
        ensures kept { OnErr result (self.new ≡ self.old) }
    {
        if self.rpcs.len() > 1 {
            let joined = Shared::new(alloc, self.joined(alloc)?)?;
            self.clear();
            return Ok(Some(joined));
        }
        let alone = self.rpcs.pop();
        self.plain = 0;
        self.control = None;
        Ok(alone)
    }

    /// Forgets what was gathered, and keeps the memory for later RPCs.
    fn clear(&mut self)
        ensures { self.new ≡ None }
    {
        self.rpcs.clear();
        self.plain = 0;
        self.control = None;
    }

    /// Returns the joined RPC. The kept length says whether one of the RPCs has control messages, so they need not be
    /// searched.
    fn joined(&self, alloc: Global) -> Result<Rpc, AllocError>
        ensures { IfOk result (λ rpc. rpc ≡ as_one self.now) }
    {
        let rpc = joined(alloc, self.rpcs.as_slice(), self.control.is_some())?;
        Ok(rpc)
    }
}

/// Returns the length of joined control messages from both lengths, or none where neither RPC has some. Lengths stop at the
/// largest `usize`.
fn joined_control_len(first: Option<usize>, second: Option<usize>) -> Option<usize>
    ensures { (c d : Option ControlValue)
        → first ≡ control_length_within usize.MAX c
        → second ≡ control_length_within usize.MAX d
        → result ≡ control_length_within usize.MAX (joined_controls c d) }
{
    match (first, second) {
        (Some(first), Some(second)) => Some(first.saturating_add(second)),
        (Some(only), None) => Some(only),
        (None, only) => only,
    }
}
