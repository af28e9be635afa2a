//! What is counted for a link is what the peer's trace says to the neighbour.
ghost use Rattle.std.specs.Prelude.{◌≡◌, length, map};
ghost use Rattle.gs_base.specs.declared.names.PeerNo.{PeerNo as PeerNoValue};
ghost use Rattle.gs_rules.specs.Legal.{Legal};
ghost use Rattle.gs_rules.specs.Peers.{Peer};
ghost use Rattle.gs_rules.specs.Saying.{bytes_of, out};
ghost use Rattle.gs_rules.specs.Tables.{Entries};
ghost use Rattle.gs_wire.specs.Codec.{codec};
ghost use Rattle.gs_counts.specs.declared.kind.Kind.TheVariants.{BytesSent};
ghost use Rattle.gs_counts.specs.Lanes.{fitting};
ghost use Rattle.gs_counts.specs.Rows.{amount_in};
ghost use Rattle.gs_counts.specs.Said.{lane_told};

/// As many bytes are counted for a link as the peer's trace says to the neighbour, without sends that fit no frame.
pub fn bytes_that_are_counted_are_said()
    ensures { (p q : PeerNoValue) (L : Entries)
        → amount_in (lane_told p q L) BytesSent ≡ length (bytes_of (out codec (map fitting L) q)) }
{}

/// A legal trace sends nothing that fits no frame, so all that it says is counted. Each trace of a run is legal.
pub fn all_of_a_legal_trace_counts()
    ensures { (p : Peer) (L : Entries) → Legal p L → map fitting L ≡ L }
{}
