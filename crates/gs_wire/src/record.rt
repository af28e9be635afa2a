//! Records: a field number and a value (Protocol Buffers, Encoding, "Message Structure").
ghost use Rattle.std.specs.Prelude.{◌≡◌, option_map};
ghost use Rattle.gs_wire.specs.Reading.{value_at, record_at};
ghost use Rattle.gs_wire.specs.Records.{len_in, varint_in};
ghost use Rattle.gs_wire.specs.Views.{view, view_value};

use crate::reader::Reader;

/// What a record holds, by its wire type.
#[derive(Drop)]
pub(crate) enum Value<'a> {
    Varint(u64),
    I64(Reader<'a>),
    Len(Reader<'a>),
    I32(Reader<'a>),
}

#[derive(Drop)]
pub(crate) struct Record<'a> {
    pub field: u64,
    pub value: Value<'a>,
}

impl<'a> Record<'a> {
    /// Returns what a record of this field holds, where that is bytes.
    #[inline(always)]
    pub(crate) fn bytes_in(&self, wanted: u64) -> Option<Reader<'a>>
        ensures { result ≡ len_in wanted self.now.field (view_value self.now.value) }
    {
        let Record { field, value } = self;
        let Value::Len(bytes) = value else {
            return None;
        };
        if *field != wanted {
            return None;
        }
        Some(bytes.again())
    }

    /// Returns what a record of this field holds, where that is a number.
    #[inline(always)]
    pub(crate) fn number_in(&self, wanted: u64) -> Option<u64>
        ensures { result ≡ varint_in wanted self.now.field (view_value self.now.value) }
    {
        let Record { field, value } = self;
        let Value::Varint(number) = value else {
            return None;
        };
        if *field != wanted {
            return None;
        }
        Some(*number)
    }
}

/// Reads the value of a wire type. Groups, 3 and 4, are deprecated, and have no value here.
#[inline(always)]
#[tactic(auto, unfolding(crate::specs::Reading::value_at))]
fn read_value<'a>(reader: &mut Reader<'a>, wire_type: u64) -> Option<Value<'a>>
    ensures { option_map (λ value. (view_value value, reader.new)) result ≡ value_at wire_type reader.old }
{
    match wire_type {
        0 => Some(Value::Varint(reader.varint()?)),
        1 => Some(Value::I64(reader.bytes(8)?)),
        2 => {
            let len = reader.varint()?;
            Some(Value::Len(reader.bytes(len)?))
        }
        5 => Some(Value::I32(reader.bytes(4)?)),
        _ => None,
    }
}

#[inline(always)]
#[tactic(auto, unfolding(crate::specs::Reading::record_at))]
pub(crate) fn read_record<'a>(reader: &mut Reader<'a>) -> Option<Record<'a>>
    ensures { option_map (λ found. (view found, reader.new)) result ≡ record_at reader.old }
{
    let tag = reader.varint()?;
    if tag < 8 {
        return None;
    }
    let value = read_value(reader, tag % 8)?;
    Some(Record {
        field: tag / 8,
        value,
    })
}
