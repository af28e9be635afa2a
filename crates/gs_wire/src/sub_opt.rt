//! Changes of subscription as records (`RPC.SubOpts`), with the numbers of their fields in `rpc.proto`.
ghost use Rattle.gs_wire.specs.Messages.{SaysSub, sub_records};

use crate::decoding::{Decode, DecodeError};
use crate::encoding::{
    Encode, bool_number, bytes_of_topic, number_len, optional_len, put_number, put_optional,
};
use crate::merging::{merge_bool, merge_topic};
use crate::record::Record;
use gs_base::SubOpt;
use std::alloc::Global;

/// `SubOpts.subscribe`, a truth value.
const SUB_SUBSCRIBE: u64 = 1;
/// `SubOpts.topicid`.
const SUB_TOPIC: u64 = 2;

impl Decode for SubOpt {
    ghost says = { SaysSub };

    fn empty(_alloc: Global) -> SubOpt {
        SubOpt {
            subscribe: None,
            topic: None,
        }
    }

    fn merge(&mut self, _alloc: Global, record: Record<'_>) -> Result<(), DecodeError> {
        merge_bool(&record, SUB_SUBSCRIBE, &mut self.subscribe);
        merge_topic(&record, SUB_TOPIC, &mut self.topic)?;
        Ok(())
    }
}

impl Encode for SubOpt {
    ghost records = { sub_records };

    fn encoded_len(&self) -> usize {
        number_len(bool_number(self.subscribe)).saturating_add(optional_len(bytes_of_topic(
            &self.topic,
        )))
    }

    fn put(&self, buffer: &mut Vec<u8>) {
        put_number(buffer, SUB_SUBSCRIBE, bool_number(self.subscribe));
        put_optional(buffer, SUB_TOPIC, bytes_of_topic(&self.topic));
    }
}
