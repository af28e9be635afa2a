//! What goes out over a link comes in at its other end.
ghost use Rattle.std.specs.Prelude.{◌≡◌, length, List};
ghost use Rattle.std.specs.List.{AllByRecursion};
ghost use Rattle.gs_base.specs.declared.names.PeerNo.{PeerNo as PeerNoValue};
ghost use Rattle.gs_base.specs.declared.rpc.Rpc.{Rpc as RpcValue};
ghost use Rattle.gs_plan.specs.declared.plan.Plan.{Plan as PlanValue};
ghost use Rattle.gs_reach.specs.declared.chosen.Chosen.{Chosen as ChosenValue};
ghost use Rattle.gs_report.specs.declared.report.Report.{Report as ReportValue};
ghost use Rattle.gs_rules.specs.Hearing.{Spell};
ghost use Rattle.gs_rules.specs.Legal.{Legal};
ghost use Rattle.gs_rules.specs.Peers.{Peer};
ghost use Rattle.gs_rules.specs.Saying.{SaysOnlyFrames, bytes_of, handled, out};
ghost use Rattle.gs_rules.specs.Tables.{Entries};
ghost use Rattle.gs_seats.specs.Reports.{IsReport};
ghost use Rattle.gs_wire.specs.Codec.{codec};
ghost use Rattle.gs_counts.specs.declared.kind.Kind.TheVariants.{RpcsSent};
ghost use Rattle.gs_counts.specs.declared.run.LinkCounts.{LinkCounts as LinkCountsValue};
ghost use Rattle.gs_counts.specs.Exchanges.{AllCame, CameInRow, IsWhole, PutsOnlyFrames, over_link, rpcs_that_came};
ghost use Rattle.gs_counts.specs.Rows.{amount_in};
ghost use Rattle.gs_counts.specs.Runs.{happenings, run_counts, trace_happenings};
ghost use Rattle.gs_counts.specs.Said.{lane_told};
ghost use Rattle.gs_counts.specs.Sums.{linked};

/// Each RPC from a neighbour that a trace handles is counted once: as heard, as graylisted or as late.
pub fn rpcs_that_are_handled_came()
    ensures { (plan : PlanValue) (p q : PeerNoValue) (L : Entries)
        → rpcs_that_came (over_link q p (trace_happenings plan p L)) ≡ length (handled L q) }
{}

/// If a legal trace puts no raw bytes on a link, as many RPCs are counted as sent as the bytes on that link spell.
pub fn rpcs_that_are_counted_are_said()
    ensures { (peer : Peer) (p q : PeerNoValue) (L : Entries) (rpcs : List RpcValue)
        → Legal peer L
        → SaysOnlyFrames q L
        → Spell (bytes_of (out codec L q)) rpcs
        → amount_in (lane_told p q L) RpcsSent ≡ length rpcs }
{}

/// If the script has no raw bytes for a link, its RPCs sent are as many as its RPCs heard, graylisted and late together
/// (`amounts`). The same holds in the rows of links, if both ends are counted (`rows`).
pub fn rpcs_that_were_sent_came()
    ensures amounts { (plan : PlanValue) (report : ReportValue)
        → IsReport plan report
        → AllByRecursion (λ (link : PeerNoValue × PeerNoValue).
        PutsOnlyFrames plan link.0 link.1 → AllCame (happenings plan report.peers.items) link.0 link.1) (linked plan) }
    ensures rows { (plan : PlanValue) (report : ReportValue) (of : ChosenValue)
        → IsReport plan report
        → AllByRecursion (λ (row : LinkCountsValue).
        IsWhole of row → PutsOnlyFrames plan row.from row.to → CameInRow row.counts) (run_counts plan report of).links }
{}
