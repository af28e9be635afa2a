//! The numbers and the texts of faults and refusals.
use gs_base::PeerNo;
use gs_link::{CloseRefused, Item, LinkFault, SendRefused};
use gs_peer::{Gate, NoGate, PeerFault};
use gs_router::RouterFault;
use gs_rules::Refusal;
use gs_seats::NetFault;
use gs_workers::{StopFlag, WorkerFault};
use std::alloc::{AllocError, Global};
use std::fmt::Display;

/// Adds a line with a number and the text of a fault.
fn add<T: Display>(
    alloc: Global,
    lines: &mut String,
    number: u8,
    fault: &T,
) -> Result<(), AllocError> {
    let line = format!(in alloc; "{number} {fault}\n")?;
    lines.push_str(line.as_str())
}

/// Adds all refusals of a router, and its lack of memory.
fn add_refusals(alloc: Global, lines: &mut String) -> Result<(), AllocError> {
    for why in [
        Refusal::AlreadySeen,
        Refusal::TooLong,
        Refusal::Joined,
        Refusal::NotJoined,
        Refusal::Stopped,
        Refusal::NotOpen,
        Refusal::TooMany,
    ] {
        add(alloc, lines, why.number(), &why)?;
        let fault = RouterFault::Refused(why);
        add(alloc, lines, fault.number(), &fault)?;
    }
    let fault = RouterFault::NoMemory;
    add(alloc, lines, fault.number(), &fault)
}

/// Adds the refusals of links.
fn add_links(alloc: Global, lines: &mut String) -> Result<(), AllocError> {
    let fault = LinkFault::NoMemory;
    add(alloc, lines, fault.number(), &fault)?;
    let full = SendRefused::Full(Item::Round(0));
    add(alloc, lines, full.number(), &full)?;
    let closed = SendRefused::Closed(Item::Round(0));
    add(alloc, lines, closed.number(), &closed)?;
    for refused in [CloseRefused::Full, CloseRefused::Closed] {
        add(alloc, lines, refused.number(), &refused)?;
    }
    Ok(())
}

/// Adds the faults of runs.
fn add_runs(alloc: Global, lines: &mut String) -> Result<(), AllocError> {
    for fault in [
        NetFault::NoMemory(None),
        NetFault::NoMemory(Some(PeerNo(7))),
        NetFault::NoThread,
    ] {
        add(alloc, lines, fault.number(), &fault)?;
    }
    Ok(())
}

/// Adds the faults of a task whose flag is set, and of its workers, which have no number.
fn add_tasks(alloc: Global, lines: &mut String) -> Result<(), AllocError> {
    let stop = StopFlag::new(alloc)?;
    let raised = stop.set();
    let Err(found) = stop.look() else {
        return Err(AllocError);
    };
    let faults = [
        PeerFault::NoMemory(raised),
        PeerFault::Stopped(found),
        PeerFault::Over,
    ];
    for fault in &faults {
        add(alloc, lines, fault.number(), fault)?;
    }
    let faults = [
        WorkerFault::NoMemory(stop.set()),
        WorkerFault::NoThread(stop.set()),
    ];
    for fault in &faults {
        add(alloc, lines, 0, fault)?;
    }
    Ok(())
}

fn all_lines(alloc: Global) -> Result<String, AllocError> {
    let mut lines = String::new(alloc);
    add_refusals(alloc, &mut lines)?;
    add_links(alloc, &mut lines)?;
    add_runs(alloc, &mut lines)?;
    add_tasks(alloc, &mut lines)?;
    Ok(lines)
}

/// As docs/REFUSALS.md lists the numbers.
const LINES: &str = "\
16 the message was seen lately
16 the message was seen lately
17 the topic or the message is too long
17 the topic or the message is too long
18 the topic is joined
18 the topic is joined
19 the topic is not joined
19 the topic is not joined
21 the peer has stopped
21 the peer has stopped
33 the link to the neighbour is not open
33 the link to the neighbour is not open
34 too many topics were joined
34 too many topics were joined
20 there was no memory
9 there was no memory for a link
10 the link is full
11 the link is closed
10 the link is full
11 the link is closed
24 there was no memory
24 there was no memory
25 a worker thread was missing
22 there was no memory
23 the task was stopped
23 the task had ended
0 there was no memory
0 a worker thread was missing
";

#[test]
fn each_fault_has_its_number_and_text(rt: HostRuntime) -> Result<(), AllocError> {
    assert_eq!(rt; all_lines(rt.alloc())?.as_str(), LINES);
    // (a gate that does nothing can be called)
    NoGate.begin_round(3, 7);
    Ok(())
}
