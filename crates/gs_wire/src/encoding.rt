//! Messages as records. The length is measured first. Then the message is written at the end of a buffer that has room for
//! it. Lengths are exact up to the largest `usize`, and stop there.
ghost use Rattle.std.specs.Prelude.{◌≡◌, ◌+◌, ◌*◌, ◌<◌, ◌≤◌, ◌∷◌, ◌++◌, List, ℕ, min, length, map, option_copied, option_map, vec_len, vec_capacity};
ghost use Rattle.gs_wire.specs.Varint.{varint};
ghost use Rattle.gs_wire.specs.Records.{Record as Spelled, records_text, record_text};
ghost use Rattle.gs_wire.specs.Fields.{bool_number, number_records, bytes_records, topic_bytes, repeated_records, part_records, len_record};

use crate::varint::{put_varint, varint_len};
use bytes::Bytes;
use gs_base::{Shared, Topic};

/// A message that is written as records.
pub(crate) trait Encode {
    /// The records of the message, in order.
    ghost records: { Self → List Spelled };

    /// Returns how many bytes `put` writes.
    fn encoded_len(&self) -> usize
        ensures { result ≡ min usize.MAX (length (records_text (records self.now))) };

    /// Writes the message.
    fn put(&self, buffer: &mut Vec<u8>)
        requires { vec_len buffer.old + length (records_text (records self.now)) ≤ vec_capacity buffer.old }
        ensures written { buffer.new.items ≡ buffer.old.items ++ records_text (records self.now) }
        ensures capacity { vec_capacity buffer.old ≤ vec_capacity buffer.new };
}

pub(crate) fn bytes_of(value: &Option<Bytes>) -> Option<&[u8]>
    ensures { option_copied result ≡ value.now }
{
    match value {
        Some(bytes) => Some(bytes.as_slice()),
        None => None,
    }
}

pub(crate) fn shared_bytes_of(value: &Option<Shared<Bytes>>) -> Option<&[u8]>
    ensures { option_copied result ≡ value.now }
{
    match value {
        Some(bytes) => Some(bytes.get().as_slice()),
        None => None,
    }
}

pub(crate) fn bytes_of_topic(value: &Option<Topic>) -> Option<&[u8]>
    ensures { option_copied result ≡ topic_bytes value.now }
{
    match value {
        Some(topic) => Some(topic.0.as_slice()),
        None => None,
    }
}

/// Returns the length of a record with a value of `len` bytes, in a field whose tag is one byte.
pub(crate) fn len_record_len(len: usize) -> usize
    ensures { (field : ℕ) (bytes : List ℕ)
        → field < 16
        → len ≡ min usize.MAX (length bytes)
        → result ≡ min usize.MAX (length (record_text (len_record field bytes))) }
{
    (1 + varint_len(len as u64)).saturating_add(len)
}

pub(crate) fn optional_len(value: Option<&[u8]>) -> usize
    ensures { (field : ℕ)
        → field < 16
        → result ≡ min usize.MAX (length (records_text (bytes_records field (option_copied value.entry)))) }
{
    match value {
        Some(bytes) => len_record_len(bytes.len()),
        None => 0,
    }
}

/// Returns 1 for true and 0 for false (Protocol Buffers, Encoding, "Bools and Enums").
pub(crate) fn bool_number(value: Option<bool>) -> Option<u64>
    ensures { result ≡ option_map bool_number value }
{
    match value {
        Some(true) => Some(1),
        Some(false) => Some(0),
        None => None,
    }
}

pub(crate) fn number_len(value: Option<u64>) -> usize
    ensures { (field : ℕ) → field < 16 → result ≡ min usize.MAX (length (records_text (number_records field value))) }
{
    match value {
        Some(number) => 1 + varint_len(number),
        None => 0,
    }
}

pub(crate) fn repeated_len(values: &[Bytes]) -> usize
    ensures { (field : ℕ)
        → field < 16
        → result ≡ min usize.MAX (length (records_text (repeated_records field values.now))) }
{
    let mut total: usize = 0;
    for bytes in values {
        total = total.saturating_add(len_record_len(bytes.len()));
    }
    total
}

pub(crate) fn parts_len<M: Encode>(parts: &[M]) -> usize
    ensures { (field : ℕ)
        → field < 16
        → result ≡ min usize.MAX (length (records_text (part_records M.records field parts.now))) }
{
    let mut total: usize = 0;
    for part in parts {
        total = total.saturating_add(len_record_len(part.encoded_len()));
    }
    total
}

/// Writes the tag and the length of a record of `len` bytes, in a field whose tag is one byte.
pub(crate) fn put_len(buffer: &mut Vec<u8>, field: u64, len: usize)
    requires small { field < 16 }
    requires room { vec_len buffer.old + (1 + length (varint len)) ≤ vec_capacity buffer.old }
    ensures written { buffer.new.items ≡ buffer.old.items ++ (8 * field + 2) ∷ varint len }
    ensures capacity { vec_capacity buffer.new ≡ vec_capacity buffer.old }
{
    buffer.push_reserved((8 * field + 2) as u8);
    put_varint(buffer, len as u64);
}

pub(crate) fn put_number(buffer: &mut Vec<u8>, field: u64, value: Option<u64>)
    requires small { field < 16 }
    requires room { vec_len buffer.old + length (records_text (number_records field value)) ≤ vec_capacity buffer.old }
    ensures written { buffer.new.items ≡ buffer.old.items ++ records_text (number_records field value) }
    ensures capacity { vec_capacity buffer.old ≤ vec_capacity buffer.new }
{
    if let Some(number) = value {
        buffer.push_reserved((8 * field) as u8);
        put_varint(buffer, number);
    }
}

fn put_bytes(buffer: &mut Vec<u8>, field: u64, bytes: &[u8])
    requires small { field < 16 }
    requires room { vec_len buffer.old + length (record_text (len_record field bytes.now)) ≤ vec_capacity buffer.old }
    ensures written { buffer.new.items ≡ buffer.old.items ++ record_text (len_record field bytes.now) }
    ensures capacity { vec_capacity buffer.old ≤ vec_capacity buffer.new }
{
    put_len(buffer, field, bytes.len());
    let _fits = buffer.extend_from_slice(bytes);
}

pub(crate) fn put_optional(buffer: &mut Vec<u8>, field: u64, value: Option<&[u8]>)
    requires small { field < 16 }
    requires room { vec_len buffer.old + length (records_text (bytes_records field (option_copied value)))
        ≤ vec_capacity buffer.old }
    ensures written { buffer.new.items ≡ buffer.old.items
        ++ records_text (bytes_records field (option_copied value.entry)) }
    ensures capacity { vec_capacity buffer.old ≤ vec_capacity buffer.new }
{
    if let Some(bytes) = value {
        put_bytes(buffer, field, bytes);
    }
}

pub(crate) fn put_repeated(buffer: &mut Vec<u8>, field: u64, values: &[Bytes])
    requires small { field < 16 }
    requires room { vec_len buffer.old + length (records_text (repeated_records field values.now))
        ≤ vec_capacity buffer.old }
    ensures written { buffer.new.items ≡ buffer.old.items ++ records_text (repeated_records field values.now) }
    ensures capacity { vec_capacity buffer.old ≤ vec_capacity buffer.new }
{
    for bytes in values {
        put_bytes(buffer, field, bytes.as_slice());
    }
}

/// Writes a part whose length is known, so that the part is measured once.
pub(crate) fn put_sized_part<M: Encode>(buffer: &mut Vec<u8>, field: u64, part: &M, len: usize)
    requires small { field < 16 }
    requires sized { len ≡ min usize.MAX (length (records_text (M.records part.now))) }
    requires room { vec_len buffer.old + length (record_text (len_record field (records_text (M.records part.now))))
        ≤ vec_capacity buffer.old }
    ensures written { buffer.new.items ≡ buffer.old.items
        ++ record_text (len_record field (records_text (M.records part.now))) }
    ensures capacity { vec_capacity buffer.old ≤ vec_capacity buffer.new }
{
    put_len(buffer, field, len);
    part.put(buffer);
}

pub(crate) fn put_parts<M: Encode>(buffer: &mut Vec<u8>, field: u64, parts: &[M])
    requires small { field < 16 }
    requires room { vec_len buffer.old + length (records_text (part_records M.records field parts.now))
        ≤ vec_capacity buffer.old }
    ensures written { buffer.new.items ≡ buffer.old.items ++ records_text (part_records M.records field parts.now) }
    ensures capacity { vec_capacity buffer.old ≤ vec_capacity buffer.new }
{
    for part in parts {
        put_sized_part(buffer, field, part, part.encoded_len());
    }
}
