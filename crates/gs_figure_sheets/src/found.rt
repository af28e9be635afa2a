//! What a run shows, as far as the sheets about a whole run need it.
ghost use Rattle.std.specs.Prelude.{◌≡◌, IfOk};
ghost use Rattle.gs_figure_sheets.specs.FigureSheets.{dealt_in, lines_of_peers};
ghost use Rattle.gs_figure_sheets.specs.Groups.{dealt_of};

use crate::figures::Line;
use crate::groups::Dealings;
use crate::inquiry::Inquiry;
use crate::known::Known;
use crate::lines::{figures_of_peers, peer_lines};
use crate::standing::Standing;
use gs_base::Seq;
use gs_plan::Plan;
use gs_reach::MessageReach;
use std::alloc::{AllocError, Global};

/// What a run shows, as far as the sheets about a whole run need it.
#[derive(Drop)]
pub struct Found {
    pub messages: Seq<MessageReach>,
    pub known: Known,
    /// Each peer, in the order of the report.
    pub standings: Seq<Standing>,
}

impl Found {
    /// Returns the rows of peers, of groups, and of all peers together.
    ///
    /// # Errors
    /// `AllocError` when out of memory.
    pub(crate) fn peer_lines(
        &self,
        alloc: Global,
        plan: &Plan,
        inquiry: &Inquiry,
    ) -> Result<Seq<Line>, AllocError>
        ensures { IfOk result (λ lines. lines ≡ lines_of_peers plan.now inquiry.now self.now) }
    {
        let rows = figures_of_peers(
            alloc,
            &self.known,
            &inquiry.among,
            self.standings.as_slice(),
        )?;
        peer_lines(alloc, plan, inquiry.parties.as_slice(), &rows)
    }

    /// Returns the facts that the rows of groups need.
    pub(crate) fn dealings(&self) -> Dealings<'_>
        ensures { dealt_of result ≡ dealt_in self.now }
    {
        Dealings {
            messages: self.messages.as_slice(),
            links: self.known.counts.links.as_slice(),
            peers: self.standings.as_slice(),
            opinions: self.known.opinions.pairs.as_slice(),
        }
    }
}
