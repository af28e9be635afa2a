//! RPCs that are joined into one.
ghost use Rattle.std.specs.Prelude.{◌≡◌, ◌++◌, Ok, true, false, IfOk, IfErr, OnOk, OnErr, is_some, length, map, min};
ghost use Rattle.std.specs.List.{flat_map};
ghost use Rattle.gs_base.specs.declared.rpc.Rpc.{Rpc as RpcValue};
ghost use Rattle.gs_wire.specs.Codec.{codec};
ghost use Rattle.gs_wire.specs.Controls.{all_control};
ghost use Rattle.gs_wire.specs.Gathering.{as_one};
ghost use Rattle.gs_wire.specs.Joining.{joined_rpc, joined_rpcs};

use crate::fault::WireFault;
use crate::rpc::{MAX_BODY, control_len, full_len};
use gs_base::{Control, ExactClone, Part, Rpc, Seq, Shared, clone_of};
use std::alloc::{AllocError, Global};

/// Joins the second RPC to the first and returns true, or returns false where that would not fit a frame. In each list, the
/// elements of the first RPC come before those of the second. The result has control messages where either RPC has some.
///
/// # Errors
/// `NoMemory` when out of memory. After an error, and after false, the first RPC is as it was.
pub fn join(alloc: Global, rpc: &mut Rpc, more: &Rpc) -> Result<bool, WireFault>
    ensures fits { IfOk result (λ fits. fits ≡ codec.fits (joined_rpc rpc.old more.now)) }
    ensures joined { result ≡ Ok true → rpc.new ≡ joined_rpc rpc.old more.now }
    ensures too_long { result ≡ Ok false → rpc.new ≡ rpc.old }
    ensures kept { OnErr result (rpc.new ≡ rpc.old) }
    ensures no_memory { IfErr result (λ fault. fault ≡ WireFault.NoMemory) }
{
    let joined = joined_rpc(alloc, rpc, more)?;
    if full_len(&joined, control_len(&joined)) > MAX_BODY {
        return Ok(false);
    }
    *rpc = joined;
    Ok(true)
}

fn joined_rpc(alloc: Global, first: &Rpc, second: &Rpc) -> Result<Rpc, AllocError>
    ensures { IfOk result (λ rpc. rpc ≡ joined_rpc first.now second.now) }
{
    let controlled = first.control.is_some() || second.control.is_some();
    let rpc = joined(alloc, &[first, second], controlled)?;
    Ok(rpc)
}

/// A type that holds an RPC, by a reference or shared.
pub(crate) trait HoldsRpc {
    /// The RPC.
    ghost held: { Self → RpcValue };

    /// Returns the RPC.
    fn held(&self) -> &Rpc
        ensures { result.now ≡ held self.now };
}

impl HoldsRpc for &Rpc {
    ghost held = { λ r. r.now };

    fn held(&self) -> &Rpc {
        self
    }
}

impl HoldsRpc for Shared<Rpc> {
    ghost held = { λ r. r };

    fn held(&self) -> &Rpc {
        self.get()
    }
}

/// Returns one RPC that says what all of these say. In each list, the elements of earlier RPCs come first. The caller knows
/// whether one of them has control messages.
pub(crate) fn joined<R: HoldsRpc>(
    alloc: Global,
    rpcs: &[R],
    controlled: bool,
) -> Result<Rpc, AllocError>
    requires { controlled ≡ is_some (as_one (joined_rpcs (map R.held rpcs.now))).control }
    ensures { IfOk result (λ rpc. rpc ≡ as_one (joined_rpcs (map R.held rpcs.now))) }
{
    Ok(Rpc {
        subs: all_of(alloc, rpcs)?,
        publish: all_of(alloc, rpcs)?,
        control: joined_control(alloc, rpcs, controlled)?,
    })
}

fn joined_control<R: HoldsRpc>(
    alloc: Global,
    rpcs: &[R],
    controlled: bool,
) -> Result<Option<Control>, AllocError>
    requires { controlled ≡ is_some (as_one (joined_rpcs (map R.held rpcs.now))).control }
    ensures { IfOk result (λ control. control ≡ (as_one (joined_rpcs (map R.held rpcs.now))).control) }
{
    if !controlled {
        return Ok(None);
    }
    let control = all_control(alloc, rpcs)?;
    Ok(Some(control))
}

fn all_control<R: HoldsRpc>(alloc: Global, rpcs: &[R]) -> Result<Control, AllocError>
    ensures { IfOk result (λ control. control ≡ all_control R.held rpcs.now) }
{
    Ok(Control {
        ihave: all_of(alloc, rpcs)?,
        iwant: all_of(alloc, rpcs)?,
        graft: all_of(alloc, rpcs)?,
        prune: all_of(alloc, rpcs)?,
    })
}

/// Returns everything that the RPCs have in their lists of one kind, in order.
fn all_of<P: Part + ExactClone, R: HoldsRpc>(
    alloc: Global,
    rpcs: &[R],
) -> Result<Seq<P>, AllocError>
    ensures { IfOk result (λ parts. parts ≡ flat_map (λ r. P.parts (R.held r)) rpcs.now) }
{
    let mut parts = Vec::with_capacity(alloc, count_of::<P, R>(rpcs))?;
    for rpc in rpcs {
        push_clones(&mut parts, P::parts_of(rpc.held()))?;
    }
    Ok(Seq::from(parts))
}

/// Returns how many parts of one kind the RPCs have, up to the largest `usize`.
fn count_of<P: Part, R: HoldsRpc>(rpcs: &[R]) -> usize
    ensures { result ≡ min usize.MAX (length (flat_map (λ r. P.parts (R.held r)) rpcs.now)) }
{
    let mut count: usize = 0;
    for rpc in rpcs {
        count = count.saturating_add(P::parts_of(rpc.held()).len());
    }
    count
}

/// Appends a clone of each element. After an error, some of them were appended.
fn push_clones<T: ExactClone + Drop>(items: &mut Vec<T>, more: &[T]) -> Result<(), AllocError>
    ensures { OnOk result (items.new.items ≡ items.old.items ++ more.now) }
{
    for item in more {
        items.push(clone_of(item)?)?;
    }
    Ok(())
}
