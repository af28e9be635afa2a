//! The lines of a run's trace, round by round.
ghost use Rattle.std.specs.Io.KnownBytes.{Appends};
ghost use Rattle.std.specs.Prelude.{◌≤◌, ◌++◌, suc, OnErr, OnOk};
ghost use Rattle.std.specs.List.{AllByRecursion};
ghost use Rattle.gs_base.specs.declared.names.PeerNo.{PeerNo as PeerNoValue};
ghost use Rattle.gs_plan.specs.Plans.{IsInRange};
ghost use Rattle.gs_report.specs.declared.finished.Finished.{Finished as FinishedValue};
ghost use Rattle.gs_router.specs.Following.{AreInOrder};
ghost use Rattle.gs_streams.specs.Streams.{AppendsFront};
ghost use Rattle.gs_trace.specs.Pages.{Adds};
ghost use Rattle.gs_trace.specs.Starts.{StandAt, StandsAt};
ghost use Rattle.gs_trace.specs.Turns.{round_text, rounds_text, turn_text};
ghost use Rattle.gs_trace.specs.Wanted.{wanted_text, wishes_of};

use crate::fault::TraceFault;
use crate::head::push_head;
use crate::pages::{write_lines, write_page};
use crate::readers::{entries_of_round, readers_of};
use crate::turn::Turn;
use crate::wanted::Wanted;
use gs_base::PeerNo;
use gs_plan::Plan;
use gs_report::{Finished, Report};
use gs_router::Follower;
use std::alloc::Global;
use std::io::Write;

/// A walk over the peers of a run, round by round.
#[derive(Clone, Copy)]
struct Walk<'a> {
    plan: &'a Plan,
    wanted: &'a Wanted<'a>,
    peers: &'a [(PeerNo, Finished)],
}

/// Writes the trace of a run as JSON Lines (docs/OUTPUTS.md has each field). The first line says who the peers are. Then
/// comes a line for each entry, by round, then by peer, then in order. The lines of the script that a peer refused in a
/// round come after its entries. Of these lines it writes those that are wanted. At most about 64 KiB of lines wait to be
/// written, and one line more. In each trace no entry may be earlier than the one before it.
///
/// # Errors
/// `TraceFault` when out of memory, or if a write failed. A front of the text has then been written.
pub fn write_trace<W: Write>(
    alloc: Global,
    plan: &Plan,
    report: &Report,
    wanted: &Wanted<'_>,
    output: &mut W,
) -> Result<(), TraceFault>
    requires range { IsInRange plan.now }
    requires order { AllByRecursion (λ (x : PeerNoValue × FinishedValue). AreInOrder x.1.trace) report.now.peers.items }
    ensures whole { OnOk result (Appends (W.contents output.old) (W.contents output.new)
        (wanted_text (wishes_of wanted.now) plan.now report.now)) }
    ensures front { OnErr result (AppendsFront (W.contents output.old) (W.contents output.new)
        (wanted_text (wishes_of wanted.now) plan.now report.now)) }
{
    let mut page = Vec::new(alloc);
    let mut readers = readers_of(alloc, plan, &report.peers)?;
    push_head(plan, &mut page)?;
    let walk = Walk {
        plan,
        wanted,
        peers: &report.peers,
    };
    write_rounds(&walk, &mut readers, &mut page, output)?;
    write_page(&mut page, output)?;
    Ok(())
}

/// Writes the lines of all rounds.
fn write_rounds<W: Write>(
    walk: &Walk<'_>,
    readers: &mut [Follower<'_>],
    page: &mut Vec<u8>,
    output: &mut W,
) -> Result<(), TraceFault>
    requires { StandAt walk.now.plan.now 0 0 walk.now.peers.now readers.old }
    ensures added { OnOk result (Adds (rounds_text walk.now)
        page.old.items page.new.items (W.contents output.old) (W.contents output.new)) }
    ensures front { OnErr result (AppendsFront (W.contents output.old) (W.contents output.new)
        (page.old.items ++ rounds_text walk.now)) }
{
    for round in 0..walk.plan.rounds {
        write_round(walk, round, readers, page, output)?;
    }
    write_round(walk, walk.plan.rounds, readers, page, output)
}

/// Writes the lines of a round. The readers stand at its beginning, and after it at the beginning of the next round.
fn write_round<W: Write>(
    walk: &Walk<'_>,
    round: u64,
    readers: &mut [Follower<'_>],
    page: &mut Vec<u8>,
    output: &mut W,
) -> Result<(), TraceFault>
    requires round { round ≤ walk.now.plan.now.rounds }
    requires readers { StandAt walk.now.plan.now round 0 walk.now.peers.now readers.old }
    ensures added { OnOk result (Adds (round_text walk.now round)
        page.old.items page.new.items (W.contents output.old) (W.contents output.new)) }
    ensures readers { OnOk result (StandAt walk.now.plan.now (suc round) 0 walk.now.peers.now readers.new) }
    ensures front { OnErr result (AppendsFront (W.contents output.old) (W.contents output.new)
        (page.old.items ++ round_text walk.now round)) }
{
    for place in 0..walk.peers.len() {
        let (peer, life) = &walk.peers[place];
        let turn = Turn {
            plan: walk.plan,
            wanted: walk.wanted,
            round,
            peer: *peer,
        };
        write_turn(&turn, life, &mut readers[place], page, output)?;
    }
    Ok(())
}

/// Writes the lines of a peer's turn. The reader of its trace stands at the beginning of the round, and after it at the
/// beginning of the next one.
fn write_turn<W: Write>(
    turn: &Turn<'_>,
    life: &Finished,
    reader: &mut Follower<'_>,
    page: &mut Vec<u8>,
    output: &mut W,
) -> Result<(), TraceFault>
    requires round { turn.now.round ≤ turn.now.plan.now.rounds }
    requires reader { StandsAt turn.now.plan.now turn.now.round (turn.now.peer, life.now) reader.old }
    ensures added { OnOk result (Adds (turn_text turn.now life.now)
        page.old.items page.new.items (W.contents output.old) (W.contents output.new)) }
    ensures next { OnOk result (StandsAt turn.now.plan.now (suc turn.now.round) (turn.now.peer, life.now) reader.new) }
    ensures front { OnErr result (AppendsFront (W.contents output.old) (W.contents output.new)
        (page.old.items ++ turn_text turn.now life.now)) }
{
    let is_last = turn.round == turn.plan.rounds;
    let entries = entries_of_round(*page.allocator(), reader, is_last)?;
    write_lines(turn, &entries, page, output)?;
    write_lines(turn, life.refused.as_slice(), page, output)?;
    Ok(())
}
