ghost use Rattle.std.specs.Prelude.{◌≡◌, length};
ghost use Rattle.gs_mesh.specs.Cuts.{outbound_of};
ghost use Rattle.gs_mesh.specs.MeshSteps.{condition_of};

use crate::members::Member;
use gs_params::Degrees;

/// The state of a mesh, judged by its members (gossipsub v1.0, "Mesh maintenance"; v1.1, "Outbound Mesh Quotas").
#[derive(Clone, Copy, Debug, PartialEq, Eq)]
pub enum Condition {
    /// The members are fewer than `d_low`.
    Few,
    /// The members are more than `d_high`.
    Many,
    /// The members are neither, and fewer than `d_out` of them are outbound.
    FewOutbound,
    /// Nothing is lacking.
    Balanced,
}

impl Condition {
    pub(crate) fn of(degrees: &Degrees, members: &[Member]) -> Condition
        ensures { result ≡ condition_of degrees.now members.now }
    {
        let size = members.len() as u64;
        if size < degrees.d_low {
            return Condition::Few;
        }
        if degrees.d_high < size {
            return Condition::Many;
        }
        if outbound_count(members) < degrees.d_out {
            return Condition::FewOutbound;
        }
        Condition::Balanced
    }
}

pub(crate) fn outbound_count(members: &[Member]) -> u64
    ensures { result ≡ length (outbound_of members.now) }
{
    members.iter().filter(|member| member.outbound).count() as u64
}
