//! RPCs as bytes: the encoding of Protocol Buffers for gossipsub's `rpc.proto`, and frames.
#![tactic(auto)]

mod control;
mod decoding;
mod encoding;
mod fault;
mod frame_reader;
mod frames;
mod gathered;
mod gathered_rpcs;
mod joining;
mod laws;
mod merging;
mod message;
mod reader;
mod record;
mod rpc;
mod sections;
mod sub_opt;
mod varint;

pub use fault::WireFault;
pub use frame_reader::FrameReader;
pub use frames::End;
pub use gathered::Gathered;
pub use gathered_rpcs::GatheredRpcs;
pub use joining::join;
pub use laws::{
    a_body_spells_its_rpc, a_graft_fits_a_frame, a_joined_body_is_no_longer,
    a_message_by_itself_is_no_longer, a_prune_fits_a_frame, a_reader_holds_the_unread_end,
    a_request_fits_a_frame, a_stream_is_one, a_stream_may_be_cut_anywhere,
    a_written_frame_is_read_back, an_offer_fits_a_frame, bodies_in_a_row_spell_the_joined_rpc,
    bytes_spell_one_list_of_records, bytes_spell_one_rpc, every_list_of_bytes_is_a_stream,
    no_frame_begins_another, rpcs_are_joined_in_any_grouping, the_written_varint_is_shortest,
    what_was_read_fits_a_frame, what_was_read_is_no_longer_when_written,
};
pub use rpc::{MAX_BODY, decode, encode, encode_frame, publish_len};
pub use sections::WrittenRpc;
