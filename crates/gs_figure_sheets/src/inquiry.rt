//! What is asked of a run.
ghost use Rattle.std.specs.Prelude.{◌≡◌, ◌≤◌, IfOk, length};
ghost use Rattle.gs_figure_sheets.specs.FigureSheets.{inquiry_of};
ghost use Rattle.gs_figure_sheets.specs.Wishes.{wishes_of};
ghost use Rattle.gs_report.specs.Seen.{numbers_below};

use crate::choice::chosen_among;
use crate::party::{Party, groups_of, parties_of};
use crate::wanted::{Layout, Subject, Wanted};
use gs_base::{PeerNo, Seq};
use gs_plan::{MOST_PEERS, Plan};
use gs_reach::Chosen;
use std::alloc::{AllocError, Global};

/// What is asked of a run of a plan. Names stand for peers of the plan here.
#[derive(Debug, Drop)]
pub struct Inquiry {
    pub subject: Subject,
    pub layout: Layout,
    /// In the sheets of messages, only messages that these peers published first count.
    pub by: Chosen,
    /// Only the traces of these peers count.
    pub among: Chosen,
    pub parties: Seq<Party>,
    /// The peers of each group.
    pub groups: Seq<Chosen>,
}

impl Inquiry {
    /// Returns what is asked of a run of a plan, where these sheets are wanted.
    ///
    /// # Errors
    /// `AllocError` when out of memory.
    pub fn of(alloc: Global, plan: &Plan, wanted: &Wanted<'_>) -> Result<Inquiry, AllocError>
        requires { length plan.now.peers ≤ MOST_PEERS }
        ensures { IfOk result (λ inquiry.
            inquiry ≡ inquiry_of plan.now (numbers_below (length plan.now.peers)) (wishes_of wanted.now)) }
    {
        let peers = numbers_below(alloc, plan.peers.len() as u16)?;
        let by = chosen_among(alloc, plan, &peers, wanted.by)?;
        let among = chosen_among(alloc, plan, &peers, wanted.among)?;
        let parties = parties_of(alloc, plan, &peers, &among, wanted.groups.as_slice())?;
        let groups = groups_of(alloc, plan, &peers, wanted.groups.as_slice())?;
        Ok(Inquiry {
            subject: wanted.subject,
            layout: wanted.layout,
            by,
            among,
            parties,
            groups,
        })
    }
}

/// Returns the numbers of this many peers.
fn numbers_below(alloc: Global, count: u16) -> Result<Vec<PeerNo>, AllocError>
    ensures { IfOk result (λ numbers. numbers.items ≡ numbers_below count) }
{
    let mut numbers = Vec::new(alloc);
    for number in 0..count {
        numbers.push(PeerNo(number))?;
    }
    Ok(numbers)
}
