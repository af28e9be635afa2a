//! Messages from records: each record is merged into the message when it is read.
ghost use Rattle.std.specs.Prelude.{◌≡◌, List, [], ◌∷◌, ◌++◌, OnOk, IsErrOf};
ghost use Rattle.gs_wire.specs.Records.{Record as Spelled, SpellRecords};
ghost use Rattle.gs_wire.specs.Fields.{Spells};
ghost use Rattle.gs_wire.specs.Views.{view};

use crate::reader::Reader;
use crate::record::{Record, read_record};
use gs_base::Seq;
use std::alloc::{AllocError, Global};
use std::mem;

/// Why bytes were not read as a message.
#[derive(Clone, Copy, Debug, PartialEq, Eq)]
pub(crate) enum DecodeError {
    Malformed,
    NoMemory,
}

impl From<AllocError> for DecodeError {
    ghost use Rattle.gs_wire.specs.declared.decoding.DecodeError.TheVariants.{NoMemory};

    ghost from_gives = { λ _ error. error ≡ NoMemory };

    fn from(_error: AllocError) -> DecodeError {
        DecodeError::NoMemory
    }
}

/// A message that is read from records.
pub(crate) trait Decode: Drop {
    /// The records say the value.
    ghost says: { List Spelled → Self → Type 0 };

    /// Returns the message of an empty list of records.
    fn empty(alloc: Global) -> Self
        ensures { says [] result };

    /// Merges one more record into the message.
    fn merge(&mut self, alloc: Global, record: Record<'_>) -> Result<(), DecodeError>
        ensures merged { OnOk result ((before : List Spelled)
            → says before self.old
            → says (before ++ view «record».entry ∷ []) self.new) }
        ensures malformed { IsErrOf result DecodeError.Malformed
            → (before after : List Spelled) (message : Self)
            → ¬ says (before ++ view «record».entry ∷ after) message };
}

/// Reads everything that is left, and merges each record into the message.
pub(crate) fn merge_all<M: Decode>(
    alloc: Global,
    reader: Reader<'_>,
    message: &mut M,
) -> Result<(), DecodeError>
    ensures merged { OnOk result ((records : List Spelled)
        × SpellRecords reader.entry records
        × ((before : List Spelled) → M.says before message.old → M.says (before ++ records) message.new)) }
    ensures malformed { IsErrOf result DecodeError.Malformed
        → (before records after : List Spelled) (other : M)
        → SpellRecords reader.entry records
        → ¬ M.says (before ++ (records ++ after)) other }
{
    let mut reader = reader;
    while !reader.is_empty() {
        let Some(record) = read_record(&mut reader) else {
            return Err(DecodeError::Malformed);
        };
        message.merge(alloc, record)?;
    }
    Ok(())
}

/// Makes room for one element where there is none yet. Most lists of an RPC have one element, and would otherwise get room
/// for more.
fn make_room<M: Drop>(items: &mut Vec<M>) -> Result<(), AllocError>
    ensures { items.new.items ≡ items.old.items }
{
    if !items.is_empty() {
        return Ok(());
    }
    items.reserve_exact(1)?;
    Ok(())
}

/// Adds the message that the bytes spell to a list. An empty message is added first, and the records are merged into it in
/// its place, so that no message is moved. After an error, the list is of no use.
pub(crate) fn push_message<M: Decode>(
    alloc: Global,
    reader: Reader<'_>,
    list: &mut Seq<M>,
) -> Result<(), DecodeError>
    ensures pushed { OnOk result ((message : M)
        × Spells M.says reader.entry message
        × (list.new ≡ list.old ++ message ∷ [])) }
    ensures malformed { IsErrOf result DecodeError.Malformed → (message : M) → ¬ Spells M.says reader.entry message }
{
    let mut items = mem::replace(list, Seq::new(alloc)).into_vec();
    make_room(&mut items)?;
    let last = items.len();
    if items.push(M::empty(alloc)).is_err() {
        return Err(DecodeError::NoMemory);
    }
    merge_all(alloc, reader, &mut items[last])?;
    *list = Seq::from(items);
    Ok(())
}
