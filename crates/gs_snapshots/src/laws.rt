//! Laws about snapshots of scores and their summaries. Each law is about definitions only, and its function does nothing.
ghost use Rattle.std.specs.Prelude.{◌≡◌, [], int_lt, false, map, List, None, Some};
ghost use Rattle.gs_base.specs.declared.names.PeerNo.{PeerNo as PeerNoValue};
ghost use Rattle.gs_score.specs.Accounts.{total};
ghost use Rattle.gs_rules.specs.Peers.{Peer};
ghost use Rattle.gs_rules.specs.Scoring.{score};
ghost use Rattle.gs_rules.specs.Tables.{Entries};
ghost use Rattle.gs_snapshots.specs.Snapshots.{snapshot_of};
ghost use Rattle.gs_snapshots.specs.declared.moments.Moment.{Moment as MomentValue};
ghost use Rattle.gs_snapshots.specs.declared.snapshot.OnTopic.{OnTopic as OnTopicValue};
ghost use Rattle.std.specs.List.{AllByRecursion};
ghost use Rattle.gs_params.specs.declared.params.Params.{Params as ParamsValue};
ghost use Rattle.gs_snapshots.specs.declared.snapshot.Snapshot.{Snapshot as SnapshotValue};
ghost use Rattle.gs_snapshots.specs.Loads.{Load, amount_of, heaviest, loads};
ghost use Rattle.gs_snapshots.specs.Lowest.{lowest};
ghost use Rattle.gs_snapshots.specs.Summary.{score_in};

/// The scores of a snapshot's topics add up to its sum over topics. The score of a snapshot is the one that the rules use
/// at that moment, after that trace.
pub fn a_snapshot_adds_up()
    ensures sum { (p : Peer) (m : MomentValue × Entries) (q : PeerNoValue)
        → (snapshot_of p m q).parts.topic_sum
        ≡ total (map (λ (x : OnTopicValue). x.parts.topic_score) (snapshot_of p m q).topics) }
    ensures decides { (p : Peer) (m : MomentValue × Entries) (q : PeerNoValue)
        → (snapshot_of p m q).parts.score ≡ score p m.1 m.0.at.0 q }
{}

/// No score in a list of snapshots is below the lowest score, and no part of a score is below the part that adds least.
/// Only an empty list has no lowest score.
pub fn nothing_is_below_the_lowest()
    ensures scores { (ss : List SnapshotValue) (s : SnapshotValue)
        → lowest score_in ss ≡ Some s
        → AllByRecursion (λ (other : SnapshotValue). int_lt other.parts.score s.parts.score ≡ false) ss }
    ensures some_score { (ss : List SnapshotValue) → lowest score_in ss ≡ None → ss ≡ [] }
    ensures parts { (params : ParamsValue) (s : SnapshotValue) (x : Load)
        → heaviest params s ≡ Some x
        → AllByRecursion (λ (other : Load). int_lt other.amount x.amount ≡ false) (loads params s) }
{}
