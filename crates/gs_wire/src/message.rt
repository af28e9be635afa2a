//! Messages as records (`Message`), with the numbers of their fields in `rpc.proto`.
ghost use Rattle.gs_wire.specs.Messages.{SaysMessage, message_records};

use crate::decoding::{Decode, DecodeError};
use crate::encoding::{
    Encode, bytes_of, bytes_of_topic, optional_len, put_optional, shared_bytes_of,
};
use crate::merging::{merge_bytes, merge_shared, merge_topic};
use crate::record::Record;
use gs_base::Message;
use std::alloc::Global;

/// `Message.from`.
const MESSAGE_FROM: u64 = 1;
/// `Message.data`.
const MESSAGE_DATA: u64 = 2;
/// `Message.seqno`.
const MESSAGE_SEQNO: u64 = 3;
/// `Message.topic`.
const MESSAGE_TOPIC: u64 = 4;
/// `Message.signature`.
const MESSAGE_SIGNATURE: u64 = 5;
/// `Message.key`.
const MESSAGE_KEY: u64 = 6;

impl Decode for Message {
    ghost says = { SaysMessage };

    fn empty(_alloc: Global) -> Message {
        Message::bare()
    }

    fn merge(&mut self, alloc: Global, record: Record<'_>) -> Result<(), DecodeError> {
        merge_shared(alloc, &record, MESSAGE_FROM, &mut self.origin)?;
        merge_bytes(&record, MESSAGE_DATA, &mut self.payload)?;
        merge_shared(alloc, &record, MESSAGE_SEQNO, &mut self.seqno)?;
        merge_topic(&record, MESSAGE_TOPIC, &mut self.topic)?;
        merge_shared(alloc, &record, MESSAGE_SIGNATURE, &mut self.signature)?;
        merge_shared(alloc, &record, MESSAGE_KEY, &mut self.key)?;
        Ok(())
    }
}

impl Encode for Message {
    ghost records = { message_records };

    fn encoded_len(&self) -> usize {
        optional_len(shared_bytes_of(&self.origin))
            .saturating_add(optional_len(bytes_of(&self.payload)))
            .saturating_add(optional_len(shared_bytes_of(&self.seqno)))
            .saturating_add(optional_len(bytes_of_topic(&self.topic)))
            .saturating_add(optional_len(shared_bytes_of(&self.signature)))
            .saturating_add(optional_len(shared_bytes_of(&self.key)))
    }

    fn put(&self, buffer: &mut Vec<u8>) {
        put_optional(buffer, MESSAGE_FROM, shared_bytes_of(&self.origin));
        put_optional(buffer, MESSAGE_DATA, bytes_of(&self.payload));
        put_optional(buffer, MESSAGE_SEQNO, shared_bytes_of(&self.seqno));
        put_optional(buffer, MESSAGE_TOPIC, bytes_of_topic(&self.topic));
        put_optional(buffer, MESSAGE_SIGNATURE, shared_bytes_of(&self.signature));
        put_optional(buffer, MESSAGE_KEY, shared_bytes_of(&self.key));
    }
}
