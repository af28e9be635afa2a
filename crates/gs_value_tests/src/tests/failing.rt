//! Checks and edits of scenarios, where the input or the output fails, or the input is no text.
use gs_plan::Limits;
use gs_streams::ExitStatus;
use gs_streams::fakes::{Broken, Narrow};
use std::alloc::{AllocError, Global};

/// What is wrong with the scenario `round_ms = 0.5`, up to the end of a place.
const ANSWER: &[u8] = b"29 round_ms\n`round_ms`";

/// The scenario `a = 1` with another key.
const CHANGED: &[u8] = b"a = 1\nb = 2\n";

/// An output with this much room.
fn narrow(alloc: Global, room: usize) -> Narrow {
    Narrow {
        taken: Vec::new(alloc),
        step: 3,
        room,
        fails: true,
    }
}

/// Whether these are the first bytes of a text, and there are as many as there was room for.
fn is_front(taken: &[u8], room: usize, text: &[u8]) -> bool {
    taken.len() == room && text.starts_with(taken)
}

/// Whether a check writes an answer as far as there is room, and reports the failure.
fn checks(alloc: Global, room: usize) -> bool {
    let mut output = narrow(alloc, room);
    let mut errors = Vec::new(alloc);
    let mut input = b"round_ms = 0.5".as_slice();
    let ended = gs_check::run(
        alloc,
        Limits::Standard,
        &mut input,
        &mut output,
        &mut errors,
    );
    ended == ExitStatus::OutputFailed
        && is_front(&output.taken, room, ANSWER)
        && errors.as_slice() == b"output failed\n".as_slice()
}

/// Whether a check of an input that fails writes no answer.
fn fails_to_check(alloc: Global, rest: &[u8]) -> bool {
    let mut output = Vec::new(alloc);
    let mut errors = Vec::new(alloc);
    let mut input = Broken { rest };
    let ended = gs_check::run(alloc, Limits::Large, &mut input, &mut output, &mut errors);
    ended == ExitStatus::InputFailed
        && output.is_empty()
        && errors.as_slice() == b"input failed\n".as_slice()
}

#[test]
fn a_check_ends_where_a_stream_fails(rt: HostRuntime) {
    assert!(rt; fails_to_check(rt.alloc(), b""));
    assert!(rt; fails_to_check(rt.alloc(), b"round_ms = 0.5"));
    for room in 0..ANSWER.len() {
        assert!(rt; checks(rt.alloc(), room), "{room}");
    }
}

/// The argument that sets `b` to 2.
fn arguments(alloc: Global) -> Result<Vec<String>, AllocError> {
    let mut arguments = Vec::new(alloc);
    arguments.push(String::from_str(alloc, "b=2")?)?;
    Ok(arguments)
}

/// Whether an edit writes the changed scenario as far as there is room, and reports the failure.
fn edits(alloc: Global, arguments: &[String], room: usize) -> bool {
    let mut output = narrow(alloc, room);
    let mut errors = Vec::new(alloc);
    let mut input = b"a = 1".as_slice();
    let ended = gs_edit::run(alloc, arguments, &mut input, &mut output, &mut errors);
    ended == ExitStatus::OutputFailed
        && is_front(&output.taken, room, CHANGED)
        && errors.as_slice() == b"output failed\n".as_slice()
}

/// Whether an edit of an input that fails writes no scenario.
fn fails_to_edit(alloc: Global, arguments: &[String], rest: &[u8]) -> bool {
    let mut output = Vec::new(alloc);
    let mut errors = Vec::new(alloc);
    let mut input = Broken { rest };
    let ended = gs_edit::run(alloc, arguments, &mut input, &mut output, &mut errors);
    ended == ExitStatus::InputFailed
        && output.is_empty()
        && errors.as_slice() == b"input failed\n".as_slice()
}

/// Whether an edit of these bytes, which are no UTF-8, is refused.
fn is_refused(alloc: Global, arguments: &[String], bytes: &[u8]) -> bool {
    let mut output = Vec::new(alloc);
    let mut errors = Vec::new(alloc);
    let mut input = bytes;
    let ended = gs_edit::run(alloc, arguments, &mut input, &mut output, &mut errors);
    ended == ExitStatus::Refused
        && output.is_empty()
        && errors.as_slice() == b"edit refused: the scenario is no TOML\n".as_slice()
}

/// Whether an edit without arguments reads nothing.
fn reads_nothing(alloc: Global) -> bool {
    let mut output = Vec::new(alloc);
    let mut errors = Vec::new(alloc);
    let mut input = b"a = 1".as_slice();
    let ended = gs_edit::run(alloc, &[], &mut input, &mut output, &mut errors);
    ended == ExitStatus::WrongArguments && output.is_empty() && input.len() == 5
}

#[test]
fn an_edit_ends_where_a_stream_fails(rt: HostRuntime) -> Result<(), AllocError> {
    let arguments = arguments(rt.alloc())?;
    assert!(rt; fails_to_edit(rt.alloc(), &arguments, b"a = 1"));
    assert!(rt; is_refused(rt.alloc(), &arguments, b"a = \"\xff\"\n"));
    assert!(rt; reads_nothing(rt.alloc()));
    for room in 0..CHANGED.len() {
        assert!(rt; edits(rt.alloc(), &arguments, room), "{room}");
    }
    Ok(())
}
