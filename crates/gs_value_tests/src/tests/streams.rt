//! Inputs and outputs that are slow, that stall, or that fail, and the most peers of a scenario.
use gs_plan::Limits;
use gs_streams::fakes::{Broken, Narrow};
use gs_streams::{ReadFault, plan_from, read_input, try_to_write, write_text};
use std::alloc::{AllocError, Global};
use std::io;
use std::io::{ErrorKind, Read};

/// Gives nothing, and doesn't end. It counts how often it is read.
#[derive(Drop)]
struct Stalled {
    reads: u64,
}

impl Read for Stalled {
    fn read(&mut self, _buf: &mut [u8]) -> io::Result<usize> {
        self.reads = self.reads.saturating_add(1);
        Err(io::Error::from(ErrorKind::Interrupted))
    }
}

/// Gives `left` single bytes, and is interrupted before each of them and before its end.
#[derive(Drop)]
struct Trickle {
    left: usize,
    is_ready: bool,
}

impl Read for Trickle {
    fn read(&mut self, buf: &mut [u8]) -> io::Result<usize> {
        self.is_ready = !self.is_ready;
        if self.is_ready {
            return Err(io::Error::from(ErrorKind::Interrupted));
        }
        match buf.first_mut() {
            Some(first) if self.left > 0 => {
                self.left -= 1;
                *first = b'x';
                Ok(1)
            }
            _ => Ok(0),
        }
    }
}

/// How many bytes are read from an input, or why it was not read to its end.
fn read_of<R: Read>(alloc: Global, input: &mut R) -> Result<usize, ReadFault> {
    Ok(read_input(alloc, Limits::Standard, input)?.len())
}

fn reads_whole(alloc: Global, text: &[u8]) -> bool {
    let mut input = text;
    match read_input(alloc, Limits::Standard, &mut input) {
        Ok(read) => read.as_slice() == text && input.is_empty(),
        Err(_) => false,
    }
}

#[test]
fn an_input_is_read_to_its_end(rt: HostRuntime) {
    assert!(rt; reads_whole(rt.alloc(), b""));
    assert!(rt; reads_whole(rt.alloc(), b"round_ms = 100\n"));
    assert!(rt; reads_whole(rt.alloc(), &[7; 20_000]));
}

#[test]
fn an_input_is_read_so_often_at_most(rt: HostRuntime) {
    let mut stalled = Stalled { reads: 0 };
    assert_eq!(rt; read_of(rt.alloc(), &mut stalled), Err(ReadFault::Failed));
    assert_eq!(rt; stalled.reads, 10_000_000);
    let mut trickle = Trickle {
        left: 5_000_000,
        is_ready: true,
    };
    assert_eq!(rt; read_of(rt.alloc(), &mut trickle), Err(ReadFault::Failed));
}

#[test]
fn interruptions_are_read_over_and_faults_are_not(rt: HostRuntime) {
    for length in 0..5usize {
        let mut trickle = Trickle {
            left: length,
            is_ready: true,
        };
        assert_eq!(rt; read_of(rt.alloc(), &mut trickle), Ok(length));
        let mut broken = Broken {
            rest: &[7; 5][..length],
        };
        assert_eq!(rt; read_of(rt.alloc(), &mut broken), Err(ReadFault::Failed));
    }
}

/// What a narrow writer took from `abcdef`, and whether that was all.
fn written(alloc: Global, step: usize, room: usize, fails: bool) -> (Vec<u8>, bool) {
    let mut output = Narrow {
        taken: Vec::new(alloc),
        step,
        room,
        fails,
    };
    let is_whole = write_text(&mut output, b"abcdef").is_ok();
    (output.taken, is_whole)
}

fn writes(alloc: Global, output: (usize, usize, bool), front: &[u8], is_whole: bool) -> bool {
    let (step, room, fails) = output;
    let (taken, was_whole) = written(alloc, step, room, fails);
    taken.as_slice() == front && was_whole == is_whole
}

#[test]
fn a_text_is_written_piece_by_piece(rt: HostRuntime) {
    let alloc = rt.alloc();
    assert!(rt; writes(alloc, (100, 100, false), b"abcdef", true));
    assert!(rt; writes(alloc, (1, 100, false), b"abcdef", true));
    assert!(rt; writes(alloc, (4, 6, false), b"abcdef", true));
    assert!(rt; writes(alloc, (4, 5, false), b"abcde", false));
    assert!(rt; writes(alloc, (4, 5, true), b"abcde", false));
    assert!(rt; writes(alloc, (0, 5, false), b"", false));
    assert!(rt; writes(alloc, (0, 5, true), b"", false));
}

#[test]
fn a_line_is_told_as_far_as_there_is_room(rt: HostRuntime) {
    for room in 0..8 {
        let mut errors = Narrow {
            taken: Vec::new(rt.alloc()),
            step: 4,
            room,
            fails: true,
        };
        try_to_write(&mut errors, "failed\n");
        assert!(rt; errors.taken.as_slice() == &b"failed\n"[..room]);
    }
}

// ---- the most peers

/// The number of peers in the plan that bytes describe within these limits, or the number of their refusal.
fn peers_in(alloc: Global, limits: Limits, bytes: &[u8]) -> Result<usize, u8> {
    if bytes.len() > limits.longest_input() {
        return Err(0);
    }
    match plan_from(alloc, limits, bytes) {
        Ok(plan) => Ok(plan.peers.len()),
        Err(fault) => Err(fault.number()),
    }
}

/// A scenario with this number of peers.
fn crowd(alloc: Global, count: usize) -> Result<String, AllocError> {
    let mut text = String::from_str(
        alloc,
        "round_ms = 1\nrounds = 1\nworkers = 1\ncapacity = 1\nseed = 0\n[[topic]]\nname = \"t\"\n",
    )?;
    for number in 0..count {
        let peer = format!(in alloc; "[[peer]]\nname = \"p{number}\"\n")?;
        text.push_str(peer.as_str())?;
    }
    Ok(text)
}

/// The number of peers in a plan of as many, or the number of its refusal.
fn crowd_in(alloc: Global, limits: Limits, count: usize) -> Result<Result<usize, u8>, AllocError> {
    let text = crowd(alloc, count)?;
    Ok(peers_in(alloc, limits, text.as_bytes()))
}

#[test]
fn a_peer_too_many_is_refused(rt: HostRuntime) -> Result<(), AllocError> {
    let alloc = rt.alloc();
    assert_eq!(rt; crowd_in(alloc, Limits::Standard, 64)?, Ok(64));
    assert_eq!(rt; crowd_in(alloc, Limits::Standard, 65)?, Err(29));
    assert_eq!(rt; crowd_in(alloc, Limits::Large, 4_096)?, Ok(4_096));
    assert_eq!(rt; crowd_in(alloc, Limits::Large, 4_097)?, Err(29));
    Ok(())
}
