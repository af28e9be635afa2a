//! What the definitions of reach say in other words.
ghost use Rattle.std.specs.Prelude.{◌≡◌, ◌≤◌, ◌<◌, ◌+◌, ◌-◌, ℕ, List, Some, None, length, filter, false, not};
ghost use Rattle.std.specs.List.{AllByRecursion};
ghost use Rattle.gs_base.specs.Names.{same_peer};
ghost use Rattle.gs_plan.specs.declared.plan.Plan.{Plan as PlanValue};
ghost use Rattle.gs_report.specs.declared.report.Report.{Report as ReportValue};
ghost use Rattle.gs_reach.specs.Chosen.{is_by};
ghost use Rattle.gs_reach.specs.Messages.{messages};
ghost use Rattle.gs_reach.specs.Reached.{fewest, missed, percentile, reached, reached_within};
ghost use Rattle.gs_reach.specs.declared.chosen.Chosen.{Chosen as ChosenValue};
ghost use Rattle.gs_reach.specs.declared.messages.MessageReach.{MessageReach as MessageReachValue};
ghost use Rattle.gs_reach.specs.declared.pairs.Pair.{Pair as PairValue};

/// The subscribers that were reached and those that were not are together all subscribers.
pub fn reached_and_missed_are_all()
    ensures { (pairs : List PairValue) → reached pairs + missed pairs ≡ length pairs }
{}

/// Within more rounds, at least as many subscribers are reached.
pub fn more_rounds_reach_no_less()
    ensures { (pairs : List PairValue) (few many : ℕ)
        → few ≤ many → reached_within few pairs ≤ reached_within many pairs }
{}

/// If a rank has a number of rounds, at least as many subscribers as the rank are reached within that number. Within one
/// round less, fewer than the rank are reached. If it has no number of rounds, fewer than the rank are reached at all.
pub fn a_percentile_has_its_rank()
    ensures within { (rank n : ℕ) (pairs : List PairValue)
        → 1 ≤ rank → fewest rank pairs ≡ Some n → rank ≤ reached_within n pairs }
    ensures not_before { (rank n : ℕ) (pairs : List PairValue)
        → 1 ≤ rank → 1 ≤ n → fewest rank pairs ≡ Some n → reached_within (n - 1) pairs < rank }
    ensures none { (rank : ℕ) (pairs : List PairValue)
        → 1 ≤ rank → fewest rank pairs ≡ None → reached pairs < rank }
{}

/// If two ranks have numbers of rounds, the higher rank has no smaller one. The same holds for two percentages. The first rank
/// has no more rounds than any percentage.
pub fn more_subscribers_take_no_fewer_rounds()
    ensures ranks { (lower higher m n : ℕ) (pairs : List PairValue)
        → 1 ≤ lower → lower ≤ higher → fewest lower pairs ≡ Some m → fewest higher pairs ≡ Some n → m ≤ n }
    ensures percentages { (lower higher m n : ℕ) (pairs : List PairValue)
        → lower ≤ higher → percentile lower pairs ≡ Some m → percentile higher pairs ≡ Some n → m ≤ n }
    ensures first { (percent m n : ℕ) (pairs : List PairValue)
        → fewest 1 pairs ≡ Some m → percentile percent pairs ≡ Some n → m ≤ n }
{}

/// The first publisher of a message is not one of its subscribers.
pub fn publishers_are_no_subscribers()
    ensures { (plan : PlanValue) (report : ReportValue)
        → AllByRecursion (λ (m : MessageReachValue).
        AllByRecursion (λ (x : PairValue). same_peer x.subscriber m.publication.peer ≡ false) m.pairs)
        (messages plan report) }
{}

/// The messages by a group of peers and the messages by others are together as many as all messages.
pub fn all_messages_are_by_a_group_or_by_others()
    ensures { (group : ChosenValue) (list : List MessageReachValue)
        → length (filter (is_by group) list) + length (filter (λ m. not (is_by group m)) list) ≡ length list }
{}
