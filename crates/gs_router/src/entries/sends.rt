//! What goes to several neighbours.
ghost use Rattle.std.specs.Prelude.{◌≡◌, ◌++◌, IfOk, OnOk};
ghost use Rattle.gs_rules.specs.Rules.{to_each};

use gs_base::{PeerNo, Rpc, Seq, Shared, clone_of};
use std::alloc::{AllocError, Global};

/// Returns one send of an RPC to each of these, which share it.
pub fn to_each(
    alloc: Global,
    rpc: Rpc,
    receivers: &[PeerNo],
) -> Result<Seq<(PeerNo, Shared<Rpc>)>, AllocError>
    ensures { IfOk result (λ sends. sends ≡ to_each rpc receivers.now) }
{
    let mut sends = Seq::from(Vec::with_capacity(alloc, receivers.len())?);
    send_to_each(alloc, &mut sends, rpc, receivers)?;
    Ok(sends)
}

/// Adds what `to_each` returns after what is already sent.
pub fn send_to_each(
    alloc: Global,
    sends: &mut Seq<(PeerNo, Shared<Rpc>)>,
    rpc: Rpc,
    receivers: &[PeerNo],
) -> Result<(), AllocError>
    ensures { OnOk result (sends.new ≡ sends.old ++ to_each rpc receivers.now) }
{
    let shared = Shared::new(alloc, rpc)?;
    for receiver in receivers {
        sends.push((*receiver, clone_of(&shared)?))?;
    }
    Ok(())
}
