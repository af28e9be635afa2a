//! The frames of RPCs. The last one is kept for the next neighbour that gets the same RPC.
ghost use Rattle.std.specs.Prelude.{◌≡◌, true, IfOk};
ghost use Rattle.gs_wire.specs.Codec.{codec};

use gs_base::{Rpc, Shared, clone_of};
use gs_wire::{WireFault, WrittenRpc};
use std::alloc::{AllocError, Global};

/// Returns an RPC with its frame. That is the last one if it has the same RPC. Otherwise a new one is written, and becomes
/// the last.
pub(crate) fn written_for(
    alloc: Global,
    last: &mut Option<Shared<WrittenRpc>>,
    rpc: &Shared<Rpc>,
) -> Result<Shared<WrittenRpc>, AllocError>
    requires { codec.fits rpc.now ≡ true }
    ensures { IfOk result (λ written. written ≡ rpc.now) }
{
    if let Some(known) = last {
        if is_same(known.get().rpc(), rpc.get()) {
            let again = clone_of(known)?;
            return Ok(again);
        }
    }
    let written = written(alloc, rpc)?;
    *last = Some(clone_of(&written)?);
    Ok(written)
}

fn is_same(known: &Rpc, rpc: &Rpc) -> bool
    ensures { result ≡ true → known.now ≡ rpc.now }
{
    known == rpc
}

fn written(alloc: Global, rpc: &Shared<Rpc>) -> Result<Shared<WrittenRpc>, AllocError>
    requires { codec.fits rpc.now ≡ true }
    ensures { IfOk result (λ written. written ≡ rpc.now) }
{
    match WrittenRpc::new(alloc, rpc) {
        Ok(written) => {
            let shared = Shared::new(alloc, written)?;
            Ok(shared)
        }
        Err(WireFault::NoMemory) => Err(AllocError),
        Err(_) => unreachable!(),
    }
}
