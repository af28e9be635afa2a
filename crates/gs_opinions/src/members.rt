//! Which peers are in a group, by number.
ghost use Rattle.std.specs.Prelude.{◌≡◌, IfOk};
ghost use Rattle.gs_base.specs.declared.names.PeerNo.{PeerNo as PeerNoValue};
ghost use Rattle.gs_plan.specs.Plans.{IsInRange};
ghost use Rattle.gs_reach.specs.Chosen.{is_chosen};
ghost use Rattle.gs_opinions.specs.Noting.{is_member, member_flags};

use crate::cells::Cells;
use gs_base::PeerNo;
use gs_plan::Plan;
use gs_reach::Chosen;
use std::alloc::{AllocError, Global};

/// A group, and for each peer of a plan whether it is in the group. A look-up takes the same time for a group of any size.
#[derive(Drop)]
pub(crate) struct Members<'a> {
    group: &'a Chosen,
    flags: Cells<bool>,
}

impl<'a> Members<'a> {
    pub(crate) fn new(
        alloc: Global,
        plan: &Plan,
        group: &'a Chosen,
    ) -> Result<Members<'a>, AllocError>
        requires { IsInRange plan.now }
        ensures { IfOk result (λ members. (q : PeerNoValue) → is_member members q ≡ is_chosen group.now q) }
    {
        let flags = flags_of(alloc, plan.peers.len() as u16, group)?;
        Ok(Members { group, flags })
    }

    /// Whether a peer is in the group.
    pub(crate) fn contains(&self, peer: PeerNo) -> bool
        ensures { result ≡ is_member self.now peer }
    {
        match self.flags.get(usize::from(peer.0)) {
            Some(flag) => flag,
            None => self.group.contains(peer),
        }
    }
}

/// Whether each peer with a number below a count is in a group.
fn flags_of(alloc: Global, count: u16, group: &Chosen) -> Result<Cells<bool>, AllocError>
    ensures { IfOk result (λ flags. flags ≡ member_flags group.now count) }
{
    let mut flags = Cells::new(alloc);
    for number in 0..count {
        flags.push(group.contains(PeerNo(number)))?;
    }
    Ok(flags)
}
