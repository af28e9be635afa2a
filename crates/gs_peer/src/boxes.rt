ghost use Rattle.std.specs.Prelude.{◌≡◌, [], true, map, None, IfOk};
ghost use Rattle.std.specs.List.{AllByRecursion};
ghost use Rattle.gs_base.specs.declared.names.PeerNo.{PeerNo as PeerNoValue};
ghost use Rattle.gs_peer.specs.Inboxes.{new_inbox};
ghost use Rattle.gs_peer.specs.Outboxes.{gathered_in, is_neighbour, is_open, waiting};

use crate::inbox::Inbox;
use crate::outboxes::Outboxes;
use gs_base::PeerNo;
use std::alloc::{AllocError, Global};

/// What comes from each neighbour, and what goes to it.
#[derive(Drop)]
pub struct Boxes {
    pub inboxes: Vec<Inbox>,
    pub outboxes: Outboxes,
}

/// Creates boxes for these neighbours. Nothing was taken from them, nothing waits for them, and nothing is gathered.
pub fn boxes_of(alloc: Global, neighbours: &[PeerNo]) -> Result<Boxes, AllocError>
    ensures inboxes { IfOk result (λ boxes. boxes.inboxes.items ≡ map new_inbox neighbours.now) }
    ensures open { IfOk result (λ boxes. AllByRecursion (λ q. is_open boxes.outboxes q ≡ true) neighbours.now) }
    ensures alone { IfOk result (λ boxes. (q : PeerNoValue) → is_open boxes.outboxes q ≡ is_neighbour neighbours.now q) }
    ensures silent { IfOk result (λ boxes. (q : PeerNoValue) → waiting boxes.outboxes q ≡ []) }
    ensures nothing { IfOk result (λ boxes. (q : PeerNoValue) → gathered_in boxes.outboxes q ≡ None) }
{
    let inboxes = inboxes_of(alloc, neighbours)?;
    let outboxes = Outboxes::new(alloc, neighbours)?;
    Ok(Boxes { inboxes, outboxes })
}

fn inboxes_of(alloc: Global, neighbours: &[PeerNo]) -> Result<Vec<Inbox>, AllocError>
    ensures { IfOk result (λ inboxes. inboxes.items ≡ map new_inbox neighbours.now) }
{
    neighbours
        .iter()
        .map(move |neighbour| Inbox::new(alloc, *neighbour))
        .collect(alloc)
}
