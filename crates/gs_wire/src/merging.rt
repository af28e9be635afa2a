//! Fields into which records are merged. Each field takes what a record of its number and wire type holds. Any other record
//! leaves it unchanged.
ghost use Rattle.std.specs.Prelude.{◌≡◌, List, [], ◌∷◌, ◌++◌, OnOk, IsErrOf};
ghost use Rattle.std.specs.List.{AllZip};
ghost use Rattle.gs_wire.specs.Records.{Record as Spelled, len_values};
ghost use Rattle.gs_wire.specs.Fields.{Spells, bool_of, bytes_of, number_of, topic_of};
ghost use Rattle.gs_wire.specs.Views.{view};

use crate::decoding::{Decode, DecodeError, push_message};
use crate::record::Record;
use bytes::Bytes;
use gs_base::{Seq, Shared, Topic};
use std::alloc::{AllocError, Global};

/// Adds the message that a record holds to a repeated field. After an error, the list is of no use.
pub(crate) fn merge_part<M: Decode>(
    alloc: Global,
    record: &Record<'_>,
    wanted: u64,
    parts: &mut Seq<M>,
) -> Result<(), DecodeError>
    ensures merged { OnOk result ((before : List Spelled)
        → AllZip (Spells M.says) (len_values wanted before) parts.old
        → AllZip (Spells M.says) (len_values wanted (before ++ view «record».now ∷ [])) parts.new) }
    ensures malformed { IsErrOf result DecodeError.Malformed
        → (before after : List Spelled) (others : List M)
        → ¬ AllZip (Spells M.says) (len_values wanted (before ++ view «record».now ∷ after)) others }
{
    let Some(bytes) = record.bytes_in(wanted) else {
        return Ok(());
    };
    push_message(alloc, bytes, parts)?;
    Ok(())
}

/// Adds the bytes that a record holds to a repeated field.
#[inline(always)]
pub(crate) fn merge_item(
    record: &Record<'_>,
    wanted: u64,
    items: &mut Seq<Bytes>,
) -> Result<(), AllocError>
    ensures { OnOk result ((before : List Spelled)
        → items.old ≡ len_values wanted before
        → items.new ≡ len_values wanted (before ++ view «record».now ∷ [])) }
{
    let Some(bytes) = record.bytes_in(wanted) else {
        return Ok(());
    };
    items.push(bytes.to_bytes()?)?;
    Ok(())
}

#[inline(always)]
pub(crate) fn merge_topic(
    record: &Record<'_>,
    wanted: u64,
    topic: &mut Option<Topic>,
) -> Result<(), AllocError>
    ensures { OnOk result ((before : List Spelled)
        → topic.old ≡ topic_of wanted before
        → topic.new ≡ topic_of wanted (before ++ view «record».now ∷ [])) }
{
    let Some(bytes) = record.bytes_in(wanted) else {
        return Ok(());
    };
    *topic = Some(Topic(bytes.to_bytes()?));
    Ok(())
}

#[inline(always)]
pub(crate) fn merge_bytes(
    record: &Record<'_>,
    wanted: u64,
    found: &mut Option<Bytes>,
) -> Result<(), AllocError>
    ensures { OnOk result ((before : List Spelled)
        → found.old ≡ bytes_of wanted before
        → found.new ≡ bytes_of wanted (before ++ view «record».now ∷ [])) }
{
    let Some(bytes) = record.bytes_in(wanted) else {
        return Ok(());
    };
    *found = Some(bytes.to_bytes()?);
    Ok(())
}

/// Sets a field of bytes that is rarely present to the bytes that a record holds.
#[inline(always)]
pub(crate) fn merge_shared(
    alloc: Global,
    record: &Record<'_>,
    wanted: u64,
    found: &mut Option<Shared<Bytes>>,
) -> Result<(), AllocError>
    ensures { OnOk result ((before : List Spelled)
        → found.old ≡ bytes_of wanted before
        → found.new ≡ bytes_of wanted (before ++ view «record».now ∷ [])) }
{
    let Some(bytes) = record.bytes_in(wanted) else {
        return Ok(());
    };
    *found = Some(Shared::new(alloc, bytes.to_bytes()?)?);
    Ok(())
}

#[inline(always)]
pub(crate) fn merge_number(record: &Record<'_>, wanted: u64, number: &mut Option<u64>)
    ensures { (before : List Spelled)
        → number.old ≡ number_of wanted before
        → number.new ≡ number_of wanted (before ++ view «record».now ∷ []) }
{
    if let Some(found) = record.number_in(wanted) {
        *number = Some(found);
    }
}

/// Sets a truth value from a record. It is true where the number isn't 0.
#[inline(always)]
pub(crate) fn merge_bool(record: &Record<'_>, wanted: u64, truth: &mut Option<bool>)
    ensures { (before : List Spelled)
        → truth.old ≡ bool_of wanted before
        → truth.new ≡ bool_of wanted (before ++ view «record».now ∷ []) }
{
    if let Some(found) = record.number_in(wanted) {
        *truth = Some(found != 0);
    }
}
