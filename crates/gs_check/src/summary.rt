//! What the program says about a scenario that is fine.
ghost use Rattle.std.specs.Prelude.{◌≡◌, IfOk, OnOk, Some, ◌++◌, string_bytes};
ghost use Rattle.gs_plan.specs.Plans.{IsInRange};
ghost use Rattle.gs_check.specs.Summary.{connections_text, counted, length_text, links_text, peers_text, rounds_text, script_text, seconds, summary, three_digits, time_text, topics_text};

use gs_plan::Plan;
use std::alloc::{AllocError, Global};
use std::fmt;

/// How many there are of something.
#[derive(Clone, Copy)]
struct Count<'a> {
    number: u64,
    one: &'a str,
    many: &'a str,
}

impl<'a> fmt::Display for Count<'a> {
    ghost output = { λ count. Some (counted count.number count.one.now count.many.now) };

    fn fmt<W: fmt::Write>(&self, f: &mut fmt::Formatter<W>) -> fmt::Result {
        if self.number == 1 {
            return write!(f, "{} {}", self.number, self.one);
        }
        write!(f, "{} {}", self.number, self.many)
    }
}

impl<'a> Count<'a> {
    fn of(number: usize, one: &'a str, many: &'a str) -> Count<'a>
        ensures number { result.number ≡ number }
        ensures one { result.one.now ≡ one.now }
        ensures many { result.many.now ≡ many.now }
    {
        Count {
            number: number as u64,
            one,
            many,
        }
    }
}

/// Milliseconds, which are shown as seconds.
#[derive(Clone, Copy)]
struct Seconds(u64);

impl fmt::Display for Seconds {
    ghost output = { λ time. Some (seconds time.0) };

    fn fmt<W: fmt::Write>(&self, f: &mut fmt::Formatter<W>) -> fmt::Result {
        let (whole, part) = (self.0 / 1000, self.0 % 1000);
        if part == 0 {
            return write!(f, "{whole} s");
        }
        write!(f, "{whole}.{} s", Thousandths(part))
    }
}

/// A number below 1000, which is shown in three digits.
#[derive(Clone, Copy)]
struct Thousandths(u64);

impl fmt::Display for Thousandths {
    ghost output = { λ part. Some (three_digits part.0) };

    fn fmt<W: fmt::Write>(&self, f: &mut fmt::Formatter<W>) -> fmt::Result {
        let (hundreds, tens, ones) = (self.0 / 100, self.0 / 10 % 10, self.0 % 10);
        write!(f, "{hundreds}{tens}{ones}")
    }
}

/// Returns `ok` and a summary of a plan: who takes part, what happens, and for how long.
pub fn summary(alloc: Global, plan: &Plan) -> Result<Vec<u8>, AllocError>
    requires { IsInRange plan.now }
    ensures { IfOk result (λ text. text.items ≡ summary plan.now) }
{
    let mut text = Vec::new(alloc);
    text.extend_from_slice(b"ok\n")?;
    text.extend_from_slice(peers_text(alloc, plan)?.as_bytes())?;
    text.extend_from_slice(connections_text(alloc, plan)?.as_bytes())?;
    text.extend_from_slice(links_text(alloc, plan)?.as_bytes())?;
    text.extend_from_slice(topics_text(alloc, plan)?.as_bytes())?;
    text.extend_from_slice(rounds_text(alloc, plan)?.as_bytes())?;
    text.extend_from_slice(length_text(alloc, plan)?.as_bytes())?;
    text.extend_from_slice(time_text(alloc, plan)?.as_bytes())?;
    text.extend_from_slice(script_text(alloc, plan)?.as_bytes())?;
    Ok(text)
}

fn peers_text(alloc: Global, plan: &Plan) -> Result<String, AllocError>
    ensures { IfOk result (λ text. string_bytes text ≡ peers_text plan.now) }
{
    let peers = Count::of(plan.peers.len(), "peer", "peers");
    format!(in alloc; "{peers}, ")
}

fn connections_text(alloc: Global, plan: &Plan) -> Result<String, AllocError>
    ensures { IfOk result (λ text. string_bytes text ≡ connections_text plan.now) }
{
    let connections = Count::of(plan.dials.len(), "connection", "connections");
    format!(in alloc; "{connections} (")
}

/// Says how many links a plan has: two for each dial.
fn links_text(alloc: Global, plan: &Plan) -> Result<String, AllocError>
    ensures { IfOk result (λ text. string_bytes text ≡ links_text plan.now) }
{
    let links = Count::of(plan.dials.len().saturating_mul(2), "link", "links");
    format!(in alloc; "{links}), ")
}

fn topics_text(alloc: Global, plan: &Plan) -> Result<String, AllocError>
    ensures { IfOk result (λ text. string_bytes text ≡ topics_text plan.now) }
{
    let topics = Count::of(plan.params.topics.len(), "topic", "topics");
    format!(in alloc; "{topics}\n")
}

/// Says how many rounds a plan has. They begin with round 0, so there is one more than the number of the last.
fn rounds_text(alloc: Global, plan: &Plan) -> Result<String, AllocError>
    requires { IsInRange plan.now }
    ensures { IfOk result (λ text. string_bytes text ≡ rounds_text plan.now) }
{
    let rounds = Count {
        number: plan.rounds + 1,
        one: "round",
        many: "rounds",
    };
    format!(in alloc; "{rounds} of ")
}

fn length_text(alloc: Global, plan: &Plan) -> Result<String, AllocError>
    ensures { IfOk result (λ text. string_bytes text ≡ length_text plan.now) }
{
    let length = plan.round_ms;
    format!(in alloc; "{length} ms: ")
}

fn time_text(alloc: Global, plan: &Plan) -> Result<String, AllocError>
    requires { IsInRange plan.now }
    ensures { IfOk result (λ text. string_bytes text ≡ time_text plan.now) }
{
    let time = Seconds((plan.rounds + 1) * plan.round_ms);
    format!(in alloc; "{time} of simulated time\n")
}

fn script_text(alloc: Global, plan: &Plan) -> Result<String, AllocError>
    ensures { IfOk result (λ text. string_bytes text ≡ script_text plan.now) }
{
    let lines = Count::of(plan.script.len(), "line", "lines");
    format!(in alloc; "{lines} in the script\n")
}
