//! Laws of the wire format. Each law is only about definitions, and its function does nothing.
ghost use Rattle.std.specs.Prelude.{[], ◌∷◌, ◌≡◌, ◌<◌, ◌≤◌, ◌+◌, ◌^◌, ◌++◌, ◌↔◌, List, ℕ, length, Some, None};
ghost use Rattle.gs_wire.specs.Joining.{joined_options, joined_rpc, joined_rpcs};
ghost use Rattle.gs_base.specs.declared.names.Topic.{Topic};
ghost use Rattle.gs_base.specs.declared.rpc.Message.{Message};
ghost use Rattle.gs_base.specs.declared.rpc.Rpc.{Rpc};
ghost use Rattle.gs_base.specs.Names.{longest_topic, HasIdentifierLength};
ghost use Rattle.gs_wire.specs.Varint.{IsVarint, varint};
ghost use Rattle.gs_wire.specs.Records.{Record, SpellRecords};
ghost use Rattle.std.specs.List.{concat, AllByRecursion, IsAmong};
ghost use Rattle.gs_wire.specs.declared.frames.End.{End};
ghost use Rattle.gs_wire.specs.Stream.{IsStream, FindsIn, Holding, FeedsAll, HasRead};
ghost use Rattle.gs_wire.specs.Messages.{SpellsRpc, IsInMemory, body, frame, longest_body};
ghost use Rattle.gs_base.specs.Rpcs.{grafting, most_identifiers, offering, passed_on, pruning, requesting};

/// Bytes spell at most one list of records.
pub fn bytes_spell_one_list_of_records()
    ensures { (bytes : List ℕ) (rs qs : List Record) → SpellRecords bytes rs → SpellRecords bytes qs → rs ≡ qs }
{}

/// Bytes spell at most one RPC.
pub fn bytes_spell_one_rpc()
    ensures { (bytes : List ℕ) (v w : Rpc) → SpellsRpc bytes v → SpellsRpc bytes w → v ≡ w }
{}

/// The body that is written for an RPC spells it.
pub fn a_body_spells_its_rpc()
    ensures { (v : Rpc) → IsInMemory v → SpellsRpc (body v) v }
{}

/// No frame is the front of another frame. Whatever follows a frame, its RPC is read, and what follows the frame is left.
pub fn no_frame_begins_another()
    ensures { (v w : Rpc) (x y : List ℕ)
        → IsInMemory v
        → IsInMemory w
        → frame v ++ x ≡ frame w ++ y
        → (v ≡ w) × (x ≡ y) }
{}

/// A written varint spells its number, and no spelling is shorter.
pub fn the_written_varint_is_shortest()
    ensures spells { (n : ℕ) → n < 2 ^ 64 → IsVarint (varint n) n }
    ensures shortest { (text : List ℕ) (n : ℕ) → IsVarint text n → length (varint n) ≤ length text }
{}

/// A stream of bytes is one list of frames, with one rest, and goes on in one way.
pub fn a_stream_is_one()
    ensures { (limit : ℕ) (bytes : List ℕ) (vs ws : List Rpc) (r s : List ℕ) (e d : End)
        → IsStream limit bytes vs r e
        → IsStream limit bytes ws s d
        → (vs ≡ ws) × (r ≡ s) × (e ≡ d) }
{}

/// However a stream is cut into pieces, a reader finds in them what the whole stream has.
pub fn a_stream_may_be_cut_anywhere()
    ensures { (limit : ℕ) (pieces : List (List ℕ)) (vs : List Rpc) (end : End)
        → FindsIn limit [] pieces vs end
        → (rest : List ℕ) × IsStream limit (concat pieces) vs rest end }
{}

/// However bytes are fed, a reader holds the unread end of all of them, unless they have a fault. So a stream that is closed
/// there ends after unread bytes.
pub fn a_reader_holds_the_unread_end()
    ensures { (limit : ℕ) (pieces : List (List ℕ)) (reader : Holding) (vs : List Rpc)
        → FeedsAll (record { limit = limit; held = Some [] }) pieces reader vs
        → HasRead limit (concat pieces) reader vs }
{}

/// Every list of bytes is a stream, and by `a_stream_is_one` in only one way.
pub fn every_list_of_bytes_is_a_stream()
    ensures { (limit : ℕ) (bytes : List ℕ)
        → (vs : List Rpc) × (rest : List ℕ) × (end : End) × IsStream limit bytes vs rest end }
{}

/// A written frame whose body is within a reader's limit is read back, whatever follows it.
pub fn a_written_frame_is_read_back()
    ensures { (limit : ℕ) (v : Rpc) (more : List ℕ) (vs : List Rpc) (rest : List ℕ) (end : End)
        → IsInMemory v
        → length (body v) ≤ limit
        → IsStream limit more vs rest end
        → IsStream limit (frame v ++ more) (v ∷ vs) rest end }
{}

/// An RPC that was read doesn't get longer when it is written. Its body has at most as many bytes as the bytes that spelled it.
pub fn what_was_read_is_no_longer_when_written()
    ensures { (bytes : List ℕ) (v : Rpc) → SpellsRpc bytes v → length (body v) ≤ length bytes }
{}

/// Each RPC of a stream fits the stream's limit when it is written again.
pub fn what_was_read_fits_a_frame()
    ensures { (limit : ℕ) (bytes : List ℕ) (vs : List Rpc) (rest : List ℕ) (end : End)
        → IsStream limit bytes vs rest end
        → AllByRecursion (λ v. length (body v) ≤ limit) vs }
{}

/// A message by itself is not longer than an RPC that has it. So a message that was heard fits a frame when it is passed on.
pub fn a_message_by_itself_is_no_longer()
    ensures { (v : Rpc) (m : Message)
        → IsAmong v.publish m
        → length (body (passed_on m)) ≤ length (body v) }
{}

/// An offer of at most 5,000 messages, on a topic within its limit, fits a frame.
pub fn an_offer_fits_a_frame()
    ensures { (topic : Topic) (ids : List (List ℕ))
        → length topic.0 ≤ longest_topic
        → length ids ≤ most_identifiers
        → AllByRecursion HasIdentifierLength ids
        → length (body (offering topic ids)) ≤ longest_body }
{}

/// A request for at most 5,000 messages fits a frame.
pub fn a_request_fits_a_frame()
    ensures { (ids : List (List ℕ))
        → length ids ≤ most_identifiers
        → AllByRecursion HasIdentifierLength ids
        → length (body (requesting ids)) ≤ longest_body }
{}

/// A GRAFT on a topic within its limit fits a frame.
pub fn a_graft_fits_a_frame()
    ensures { (topic : Topic) → length topic.0 ≤ longest_topic → length (body (grafting topic)) ≤ longest_body }
{}

/// A PRUNE on a topic within its limit fits a frame.
pub fn a_prune_fits_a_frame()
    ensures { (topic : Topic) (seconds : ℕ)
        → length topic.0 ≤ longest_topic
        → length (body (pruning topic seconds)) ≤ longest_body }
{}

/// Two bodies, one after the other, spell the RPC that results from joining the two RPCs.
pub fn bodies_in_a_row_spell_the_joined_rpc()
    ensures spelled { (x y : List ℕ) (v w : Rpc)
        → SpellsRpc x v
        → SpellsRpc y w
        → SpellsRpc (x ++ y) (joined_rpc v w) }
    ensures written { (v w : Rpc) → IsInMemory v → IsInMemory w → SpellsRpc (body v ++ body w) (joined_rpc v w) }
{}

/// The body of a joined RPC is no longer than the two bodies together.
pub fn a_joined_body_is_no_longer()
    ensures { (v w : Rpc) → length (body (joined_rpc v w)) ≤ length (body v) + length (body w) }
{}

/// RPCs may be joined in any grouping, if their order is kept. Joined control messages are absent exactly where neither RPC
/// has some. Joined RPCs are absent exactly where there are none.
pub fn rpcs_are_joined_in_any_grouping()
    ensures grouping { (u v w : Rpc) → joined_rpc (joined_rpc u v) w ≡ joined_rpc u (joined_rpc v w) }
    ensures lists { (vs ws : List Rpc)
        → joined_options (joined_rpcs vs) (joined_rpcs ws) ≡ joined_rpcs (vs ++ ws) }
    ensures alone { (v : Rpc) → joined_rpcs (v ∷ []) ≡ Some v }
    ensures pairs { (v w : Rpc) → joined_rpcs (v ∷ w ∷ []) ≡ Some (joined_rpc v w) }
    ensures control { (v w : Rpc)
        → ((joined_rpc v w).control ≡ None) ↔ ((v.control ≡ None) × (w.control ≡ None)) }
    ensures absent { (vs : List Rpc) → (joined_rpcs vs ≡ None) ↔ (vs ≡ []) }
{}
