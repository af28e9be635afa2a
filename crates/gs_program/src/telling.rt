//! The lines that say why there is no text.
ghost use Rattle.std.specs.Prelude.{◌≡◌, IfOk, string_bytes};
ghost use Rattle.gs_program.specs.Program.{TellsFault, TellsRefusal, nameless, peer_of, refusal_line, run_refusal_line, spaced_name};

use gs_base::PeerNo;
use gs_plan::Plan;
use gs_report::name_of;
use gs_scenario::ScenarioFault;
use gs_seats::NetFault;
use gs_streams::try_to_write;
use std::alloc::{AllocError, Global};
use std::io::Write;

/// Writes the line of a refusal, or a front of it. When out of memory for that line, it writes that it is out of memory.
pub fn tell_refusal<E: Write>(alloc: Global, errors: &mut E, fault: &ScenarioFault)
    ensures { TellsRefusal fault.now (E.contents errors.old) (E.contents errors.new) }
{
    match refusal_line(alloc, fault) {
        Ok(line) => try_to_write(errors, line.as_str()),
        Err(_) => try_to_write(errors, "scenario refused: 32\n"),
    }
}

fn refusal_line(alloc: Global, fault: &ScenarioFault) -> Result<String, AllocError>
    ensures { IfOk result (λ line. string_bytes line ≡ refusal_line fault.now) }
{
    format!(in alloc; "scenario refused: {fault}\n")
}

/// Writes the line of a run's fault, or a front of it. When out of memory for that line, it writes one without the name of a
/// peer.
pub fn tell_fault<E: Write>(alloc: Global, errors: &mut E, plan: &Plan, fault: NetFault)
    ensures { TellsFault plan.now fault (E.contents errors.old) (E.contents errors.new) }
{
    match fault_line(alloc, plan, fault) {
        Ok(line) => try_to_write(errors, line.as_str()),
        Err(_) => try_to_write(errors, nameless_line(fault)),
    }
}

/// Returns the line of a fault without the name of a peer. It takes no memory.
fn nameless_line(fault: NetFault) -> &'static str
    ensures { (plan : Plan) → result.now ≡ run_refusal_line plan (nameless fault) }
{
    match fault {
        NetFault::NoMemory(_) => "run refused: 24\n",
        NetFault::NoThread => "run refused: 25\n",
    }
}

fn fault_line(alloc: Global, plan: &Plan, fault: NetFault) -> Result<String, AllocError>
    ensures { IfOk result (λ line. string_bytes line ≡ run_refusal_line plan.now fault) }
{
    let number = fault.number();
    let name = spaced_name(alloc, plan, peer_of(fault))?;
    Ok(format!(in alloc; "run refused: {number}{name}\n")?)
}

/// Returns the name of a peer after a space, or nothing where there is no peer.
fn spaced_name(alloc: Global, plan: &Plan, peer: Option<PeerNo>) -> Result<String, AllocError>
    ensures { IfOk result (λ text. string_bytes text ≡ spaced_name plan.now peer) }
{
    match peer {
        Some(number) => {
            let name = name_of(plan, number);
            format!(in alloc; " {name}")
        }
        None => Ok(String::new(alloc)),
    }
}

fn peer_of(fault: NetFault) -> Option<PeerNo>
    ensures { result ≡ peer_of fault }
{
    match fault {
        NetFault::NoMemory(peer) => peer,
        NetFault::NoThread => None,
    }
}
