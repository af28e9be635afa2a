//! Laws about the text of a trace, and about what had no effect. Each law is only about its definitions, and its function
//! does nothing.
ghost use Rattle.std.specs.Prelude.{◌≡◌, ℕ, ◌+◌, List, [], ◌∷◌, length, map};
ghost use Rattle.gs_base.specs.declared.mark.Mark.TheVariants.{Misbehaviour};
ghost use Rattle.gs_base.specs.declared.names.Millis.{Millis as MillisValue};
ghost use Rattle.gs_base.specs.declared.names.MsgId.{MsgId as MsgIdValue};
ghost use Rattle.gs_base.specs.declared.names.PeerNo.{PeerNo as PeerNoValue};
ghost use Rattle.gs_base.specs.declared.rpc.Rpc.{Rpc as RpcValue};
ghost use Rattle.gs_plan.specs.Plans.{IsInRange};
ghost use Rattle.gs_plan.specs.declared.plan.Plan.{Plan as PlanValue};
ghost use Rattle.gs_rules.specs.FellAway.{broken, fell_away, without_answers};
ghost use Rattle.gs_rules.specs.Gossip.{all_charges};
ghost use Rattle.gs_rules.specs.Owed.{PartsOf, owes};
ghost use Rattle.gs_rules.specs.Peers.{Peer};
ghost use Rattle.gs_rules.specs.Rules.{answers};
ghost use Rattle.gs_rules.specs.Tables.{Entries};
ghost use Rattle.gs_rules.specs.declared.event.Event.TheVariants.{Heard};
ghost use Rattle.gs_rules.specs.declared.fallen.Fallen.{Fallen as FallenValue};
ghost use Rattle.gs_rules.specs.declared.trace.Promise.{Promise as PromiseValue};
ghost use Rattle.gs_report.specs.declared.finished.Finished.{Finished as FinishedValue};
ghost use Rattle.gs_report.specs.declared.report.Report.{Report as ReportValue};
ghost use Rattle.gs_seats.specs.Reports.{IsReport};
ghost use Rattle.gs_trace.specs.Lines.{told, trace_text};
ghost use Rattle.gs_trace.specs.Texts.{names_of};
ghost use Rattle.gs_trace.specs.Traces.{IsReportOf, refusals_in, traces};
ghost use Rattle.gs_trace.specs.Wanted.{no_wish, wanted_text};

/// The text of a run's trace has each peer's whole trace. If two runs have the same text, their peers have the same names, and
/// their rounds and dials are the same. The same is said about both, and each peer has the same trace in both.
pub fn a_trace_tells_all()
    ensures names { (p q : PlanValue) (r s : ReportValue)
        → IsReportOf p r
        → IsReportOf q s
        → trace_text p r ≡ trace_text q s
        → names_of p ≡ names_of q }
    ensures rounds { (p q : PlanValue) (r s : ReportValue)
        → IsReportOf p r
        → IsReportOf q s
        → trace_text p r ≡ trace_text q s
        → (p.round_ms ≡ q.round_ms) × (p.rounds ≡ q.rounds) }
    ensures dials { (p q : PlanValue) (r s : ReportValue)
        → IsReportOf p r
        → IsReportOf q s
        → trace_text p r ≡ trace_text q s
        → p.dials ≡ q.dials }
    ensures told { (p q : PlanValue) (r s : ReportValue)
        → IsReportOf p r
        → IsReportOf q s
        → trace_text p r ≡ trace_text q s
        → told p r ≡ told q s }
    ensures traces { (p q : PlanValue) (r s : ReportValue)
        → IsReportOf p r
        → IsReportOf q s
        → trace_text p r ≡ trace_text q s
        → traces r ≡ traces s }
{}

/// If no option asks for certain lines, the text has all lines.
pub fn wanting_all_tells_all()
    ensures { (p : PlanValue) (r : ReportValue) → wanted_text no_wish p r ≡ trace_text p r }
{}

/// For each peer of a run, the trace has the lines of the script that it refused, each once and in their order.
pub fn each_refused_line_is_told_once()
    ensures { (p : PlanValue) (r : ReportValue)
        → IsInRange p
        → IsReport p r
        → map (λ (x : PeerNoValue × FinishedValue). refusals_in x.0 (told p r)) r.peers.items
        ≡ map (λ (x : PeerNoValue × FinishedValue). x.1.refused) r.peers.items }
{}

/// A heartbeat charges exactly the makers of the promises that are broken at it, once for each promise and in the same order.
pub fn broken_promises_are_charged()
    ensures { (p : Peer) (L : Entries) (at : ℕ)
        → map (λ (x : PromiseValue). Misbehaviour x.from) (broken p L at) ≡ all_charges p L at }
{}

/// The answers to a request and its identifiers without an answer are together as many as its identifiers.
pub fn each_identifier_is_answered_or_told()
    ensures { (p : Peer) (L : Entries) (q : PeerNoValue) (ids : List MsgIdValue)
        → length (answers p L q [] ids) + length (without_answers p L q [] ids) ≡ length ids }
{}

/// If nothing falls away when an RPC is heard, its parts must come next. If something falls away, the RPC owes no events.
pub fn what_came_to_nothing_owes_no_parts()
    ensures follow { (p : Peer) (L : Entries) (at : MillisValue) (q : PeerNoValue) (rpc : RpcValue)
        → fell_away p L at (Heard q rpc) ≡ []
        → owes p L at.0 (Heard q rpc) ≡ PartsOf q rpc ∷ [] }
    ensures none { (p : Peer) (L : Entries) (at : MillisValue) (q : PeerNoValue) (rpc : RpcValue)
        (one : FallenValue) (more : List FallenValue)
        → fell_away p L at (Heard q rpc) ≡ one ∷ more
        → owes p L at.0 (Heard q rpc) ≡ [] }
{}
