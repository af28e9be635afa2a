//! Control messages and their parts as records (`ControlMessage`, `ControlIHave`, `ControlIWant`, `ControlGraft` and
//! `ControlPrune`), with the numbers of their fields in `rpc.proto`.
ghost use Rattle.gs_wire.specs.Controls.{SaysControl, SaysIHave, SaysIWant, SaysGraft, SaysPrune, control_records, ihave_records, iwant_records, graft_records, prune_records};

use crate::decoding::{Decode, DecodeError};
use crate::encoding::{
    Encode, bytes_of_topic, number_len, optional_len, parts_len, put_number, put_optional,
    put_parts, put_repeated, repeated_len,
};
use crate::merging::{merge_item, merge_number, merge_part, merge_topic};
use crate::record::Record;
use gs_base::{Control, Graft, IHave, IWant, Prune, Seq};
use std::alloc::Global;

/// `ControlMessage.ihave`, repeated `ControlIHave`.
pub(crate) const CONTROL_IHAVE: u64 = 1;
/// `ControlMessage.iwant`, repeated `ControlIWant`.
pub(crate) const CONTROL_IWANT: u64 = 2;
/// `ControlMessage.graft`, repeated `ControlGraft`.
pub(crate) const CONTROL_GRAFT: u64 = 3;
/// `ControlMessage.prune`, repeated `ControlPrune`.
pub(crate) const CONTROL_PRUNE: u64 = 4;

/// `ControlIHave.topicID`.
const IHAVE_TOPIC: u64 = 1;
/// `ControlIHave.messageIDs`, repeated.
const IHAVE_IDS: u64 = 2;

/// `ControlIWant.messageIDs`, repeated.
const IWANT_IDS: u64 = 1;

/// `ControlGraft.topicID`.
const GRAFT_TOPIC: u64 = 1;

/// `ControlPrune.topicID`.
const PRUNE_TOPIC: u64 = 1;
/// `ControlPrune.backoff`, in seconds. Field 2 of `ControlPrune`, the peers for peer exchange, is skipped.
const PRUNE_BACKOFF: u64 = 3;

impl Decode for Control {
    ghost says = { SaysControl };

    fn empty(alloc: Global) -> Control {
        Control::empty(alloc)
    }

    fn merge(&mut self, alloc: Global, record: Record<'_>) -> Result<(), DecodeError> {
        merge_part(alloc, &record, CONTROL_IHAVE, &mut self.ihave)?;
        merge_part(alloc, &record, CONTROL_IWANT, &mut self.iwant)?;
        merge_part(alloc, &record, CONTROL_GRAFT, &mut self.graft)?;
        merge_part(alloc, &record, CONTROL_PRUNE, &mut self.prune)?;
        Ok(())
    }
}

impl Encode for Control {
    ghost records = { control_records };

    fn encoded_len(&self) -> usize {
        parts_len(self.ihave.as_slice())
            .saturating_add(parts_len(self.iwant.as_slice()))
            .saturating_add(parts_len(self.graft.as_slice()))
            .saturating_add(parts_len(self.prune.as_slice()))
    }

    fn put(&self, buffer: &mut Vec<u8>) {
        put_parts(buffer, CONTROL_IHAVE, self.ihave.as_slice());
        put_parts(buffer, CONTROL_IWANT, self.iwant.as_slice());
        put_parts(buffer, CONTROL_GRAFT, self.graft.as_slice());
        put_parts(buffer, CONTROL_PRUNE, self.prune.as_slice());
    }
}

impl Decode for IHave {
    ghost says = { SaysIHave };

    fn empty(alloc: Global) -> IHave {
        IHave {
            topic: None,
            ids: Seq::new(alloc),
        }
    }

    fn merge(&mut self, _alloc: Global, record: Record<'_>) -> Result<(), DecodeError> {
        merge_topic(&record, IHAVE_TOPIC, &mut self.topic)?;
        merge_item(&record, IHAVE_IDS, &mut self.ids)?;
        Ok(())
    }
}

impl Encode for IHave {
    ghost records = { ihave_records };

    fn encoded_len(&self) -> usize {
        optional_len(bytes_of_topic(&self.topic)).saturating_add(repeated_len(self.ids.as_slice()))
    }

    fn put(&self, buffer: &mut Vec<u8>) {
        put_optional(buffer, IHAVE_TOPIC, bytes_of_topic(&self.topic));
        put_repeated(buffer, IHAVE_IDS, self.ids.as_slice());
    }
}

impl Decode for IWant {
    ghost says = { SaysIWant };

    fn empty(alloc: Global) -> IWant {
        IWant {
            ids: Seq::new(alloc),
        }
    }

    fn merge(&mut self, _alloc: Global, record: Record<'_>) -> Result<(), DecodeError> {
        merge_item(&record, IWANT_IDS, &mut self.ids)?;
        Ok(())
    }
}

impl Encode for IWant {
    ghost records = { iwant_records };

    fn encoded_len(&self) -> usize {
        repeated_len(self.ids.as_slice())
    }

    fn put(&self, buffer: &mut Vec<u8>) {
        put_repeated(buffer, IWANT_IDS, self.ids.as_slice());
    }
}

impl Decode for Graft {
    ghost says = { SaysGraft };

    fn empty(_alloc: Global) -> Graft {
        Graft { topic: None }
    }

    fn merge(&mut self, _alloc: Global, record: Record<'_>) -> Result<(), DecodeError> {
        merge_topic(&record, GRAFT_TOPIC, &mut self.topic)?;
        Ok(())
    }
}

impl Encode for Graft {
    ghost records = { graft_records };

    fn encoded_len(&self) -> usize {
        optional_len(bytes_of_topic(&self.topic))
    }

    fn put(&self, buffer: &mut Vec<u8>) {
        put_optional(buffer, GRAFT_TOPIC, bytes_of_topic(&self.topic));
    }
}

impl Decode for Prune {
    ghost says = { SaysPrune };

    fn empty(_alloc: Global) -> Prune {
        Prune {
            topic: None,
            backoff: None,
        }
    }

    fn merge(&mut self, _alloc: Global, record: Record<'_>) -> Result<(), DecodeError> {
        merge_topic(&record, PRUNE_TOPIC, &mut self.topic)?;
        merge_number(&record, PRUNE_BACKOFF, &mut self.backoff);
        Ok(())
    }
}

impl Encode for Prune {
    ghost records = { prune_records };

    fn encoded_len(&self) -> usize {
        optional_len(bytes_of_topic(&self.topic)).saturating_add(number_len(self.backoff))
    }

    fn put(&self, buffer: &mut Vec<u8>) {
        put_optional(buffer, PRUNE_TOPIC, bytes_of_topic(&self.topic));
        put_number(buffer, PRUNE_BACKOFF, self.backoff);
    }
}
