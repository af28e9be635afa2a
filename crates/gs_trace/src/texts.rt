//! Values as JSON.
ghost use Rattle.std.specs.Prelude.{◌≡◌, ◌++◌, List, ℕ, OnOk, decimal};
ghost use Rattle.std.specs.List.{flat_map};
ghost use Rattle.gs_trace.specs.Texts.{after_comma, escaped, hex_text, id_text, items_text, list_text, moment_text, name_or_number, names_of, optional_text, peer_text, quoted, topic_text, truth_text, whole_text};

use bytes::Bytes;
use gs_base::{Millis, MsgId, PeerNo, Seq, Shared, Topic};
use gs_plan::Plan;
use std::alloc::AllocError;

/// A value that is shown as JSON. Its peers have the names that a plan gives them.
pub trait Shown {
    /// Its text.
    ghost text: { List (List ℕ) → Self → List ℕ };

    /// Adds its text.
    ///
    /// # Errors
    /// `AllocError` when out of memory. A part of the text may have been added then.
    fn push(&self, plan: &Plan, out: &mut Vec<u8>) -> Result<(), AllocError>
        ensures { OnOk result (out.new.items ≡ out.old.items ++ text (names_of plan.now) self.now) };
}

impl Shown for bool {
    ghost text = { λ names truth. truth_text truth };

    fn push(&self, _plan: &Plan, out: &mut Vec<u8>) -> Result<(), AllocError> {
        match *self {
            true => push_code(out, b"true"),
            false => push_code(out, b"false"),
        }
    }
}

impl Shown for u64 {
    ghost text = { λ names number. decimal number };

    fn push(&self, _plan: &Plan, out: &mut Vec<u8>) -> Result<(), AllocError> {
        push_number(out, *self)
    }
}

impl Shown for Bytes {
    ghost text = { λ names bytes. hex_text bytes };

    fn push(&self, _plan: &Plan, out: &mut Vec<u8>) -> Result<(), AllocError> {
        push_hex(out, self.as_slice())
    }
}

impl Shown for Topic {
    ghost text = { λ names topic. topic_text topic };

    fn push(&self, _plan: &Plan, out: &mut Vec<u8>) -> Result<(), AllocError> {
        push_quoted(out, self.0.as_slice())
    }
}

impl Shown for MsgId {
    ghost text = { λ names id. id_text id };

    fn push(&self, _plan: &Plan, out: &mut Vec<u8>) -> Result<(), AllocError> {
        push_hex(out, &self.0)
    }
}

impl Shown for Millis {
    ghost text = { λ names at. moment_text at };

    fn push(&self, _plan: &Plan, out: &mut Vec<u8>) -> Result<(), AllocError> {
        push_number(out, self.0)
    }
}

impl Shown for PeerNo {
    ghost text = { peer_text };

    fn push(&self, plan: &Plan, out: &mut Vec<u8>) -> Result<(), AllocError> {
        match plan.peers.as_slice().get(self.0 as usize) {
            Some(planned) => push_quoted(out, planned.name.as_str().as_bytes()),
            None => push_number(out, self.0 as u64),
        }
    }
}

impl<T: Shown> Shown for Option<T> {
    ghost text = { λ names value. optional_text (T.text names) value };

    fn push(&self, plan: &Plan, out: &mut Vec<u8>) -> Result<(), AllocError> {
        match self {
            Some(value) => value.push(plan, out),
            None => push_code(out, b"null"),
        }
    }
}

impl<T: Shown> Shown for Seq<T> {
    ghost text = { λ names values. list_text (T.text names) values };

    fn push(&self, plan: &Plan, out: &mut Vec<u8>) -> Result<(), AllocError> {
        push_list(plan, out, self.as_slice())
    }
}

impl<T: Shown + Drop> Shown for Shared<T> {
    ghost text = { T.text };

    fn push(&self, plan: &Plan, out: &mut Vec<u8>) -> Result<(), AllocError> {
        self.get().push(plan, out)
    }
}

/// Adds the name of a peer in quotes, or its number if the plan has no such peer.
///
/// # Errors
/// `AllocError` when out of memory. A part of the text may have been added then.
pub fn push_peer(plan: &Plan, out: &mut Vec<u8>, peer: PeerNo) -> Result<(), AllocError>
    ensures { OnOk result (out.new.items ≡ out.old.items ++ peer_text (names_of plan.now) peer) }
{
    peer.push(plan, out)
}

/// Adds a text unchanged.
///
/// # Errors
/// `AllocError` when out of memory. A part of the text may have been added then.
pub fn push_code(out: &mut Vec<u8>, code: &[u8]) -> Result<(), AllocError>
    ensures { OnOk result (out.new.items ≡ out.old.items ++ code.now) }
{
    out.extend_from_slice(code)
}

/// Adds values as a JSON list.
///
/// # Errors
/// `AllocError` when out of memory. A part of the text may have been added then.
pub fn push_list<T: Shown>(plan: &Plan, out: &mut Vec<u8>, values: &[T]) -> Result<(), AllocError>
    ensures { OnOk result (out.new.items ≡ out.old.items ++ list_text (T.text (names_of plan.now)) values.now) }
{
    push_code(out, b"[")?;
    push_items(plan, out, values)?;
    push_code(out, b"]")
}

fn push_items<T: Shown>(plan: &Plan, out: &mut Vec<u8>, values: &[T]) -> Result<(), AllocError>
    ensures { OnOk result (out.new.items ≡ out.old.items ++ items_text (T.text (names_of plan.now)) values.now) }
{
    let [first, more @ ..] = values else {
        return Ok(());
    };
    first.push(plan, out)?;
    for value in more {
        push_next(plan, out, value)?;
    }
    Ok(())
}

fn push_next<T: Shown>(plan: &Plan, out: &mut Vec<u8>, value: &T) -> Result<(), AllocError>
    ensures { OnOk result (out.new.items ≡ out.old.items ++ after_comma (T.text (names_of plan.now)) value.now) }
{
    push_code(out, b",")?;
    value.push(plan, out)
}

/// Adds a whole number.
///
/// # Errors
/// `AllocError` when out of memory. A part of the text may have been added then.
pub fn push_number(out: &mut Vec<u8>, number: u64) -> Result<(), AllocError>
    ensures { OnOk result (out.new.items ≡ out.old.items ++ decimal number) }
{
    let digits = format!(in *out.allocator(); "{number}")?;
    out.extend_from_slice(digits.as_bytes())
}

/// Adds a place or a count.
pub(crate) fn push_size(out: &mut Vec<u8>, size: usize) -> Result<(), AllocError>
    ensures { OnOk result (out.new.items ≡ out.old.items ++ decimal size) }
{
    push_number(out, size as u64)
}

pub(crate) fn push_whole(out: &mut Vec<u8>, number: &i128) -> Result<(), AllocError>
    ensures { OnOk result (out.new.items ≡ out.old.items ++ whole_text number.now) }
{
    if *number < 0 {
        push_code(out, b"-")?;
    }
    let magnitude = number.unsigned_abs();
    let digits = format!(in *out.allocator(); "{magnitude}")?;
    out.extend_from_slice(digits.as_bytes())
}

pub(crate) fn push_hex(out: &mut Vec<u8>, bytes: &[u8]) -> Result<(), AllocError>
    ensures { OnOk result (out.new.items ≡ out.old.items ++ hex_text bytes.now) }
{
    let digits = hex::encode(*out.allocator(), bytes)?;
    push_code(out, b"\"")?;
    out.extend_from_slice(digits.as_bytes())?;
    push_code(out, b"\"")
}

/// Adds bytes as a text in quotes.
///
/// # Errors
/// `AllocError` when out of memory. A part of the text may have been added then.
pub fn push_quoted(out: &mut Vec<u8>, bytes: &[u8]) -> Result<(), AllocError>
    ensures { OnOk result (out.new.items ≡ out.old.items ++ quoted bytes.now) }
{
    push_code(out, b"\"")?;
    for byte in bytes {
        push_escaped(out, *byte)?;
    }
    push_code(out, b"\"")
}

/// Adds a byte of a text within quotes.
fn push_escaped(out: &mut Vec<u8>, byte: u8) -> Result<(), AllocError>
    ensures { OnOk result (out.new.items ≡ out.old.items ++ escaped byte) }
{
    if byte < 32 || (byte == b'"' || (byte == b'\\' || byte > 126)) {
        let digits = hex::encode(*out.allocator(), &[byte])?;
        push_code(out, b"\\u00")?;
        return out.extend_from_slice(digits.as_bytes());
    }
    out.extend_from_slice(&[byte])
}
