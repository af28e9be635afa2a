//! What the definitions of counts say in other words.
ghost use Rattle.std.specs.Prelude.{◌≡◌, ℕ, filter, is_none, length, List};
ghost use Rattle.std.specs.List.{list_any, range_with_len, sum_by};
ghost use Rattle.gs_base.specs.Names.{payload_of, same_topic};
ghost use Rattle.gs_base.specs.declared.mark.Mark.{Mark as MarkValue};
ghost use Rattle.gs_base.specs.declared.names.Topic.{Topic as TopicValue};
ghost use Rattle.gs_base.specs.declared.names.Millis.{Millis as MillisValue};
ghost use Rattle.gs_base.specs.declared.names.PeerNo.{PeerNo as PeerNoValue};
ghost use Rattle.gs_base.specs.declared.rpc.Message.{Message as MessageValue};
ghost use Rattle.gs_plan.specs.declared.plan.Plan.{Plan as PlanValue};
ghost use Rattle.gs_rules.specs.declared.event.RpcPart.TheVariants.{Msg};
ghost use Rattle.gs_rules.specs.Meshes.{mesh};
ghost use Rattle.gs_rules.specs.Outcomes.{message_rule};
ghost use Rattle.gs_rules.specs.Peers.{Peer};
ghost use Rattle.gs_rules.specs.Tables.{Entries, ascending, joined};
ghost use Rattle.gs_seats.specs.Rounds.{numbers};
ghost use Rattle.gs_counts.specs.declared.fate.Fate.{Fate as FateValue};
ghost use Rattle.gs_counts.specs.declared.happening.Happening.{Happening as HappeningValue};
ghost use Rattle.gs_counts.specs.declared.happening.Scene.{Scene as SceneValue};
ghost use Rattle.gs_counts.specs.Fates.{fate_after, ruled_fate};
ghost use Rattle.gs_counts.specs.Heard.{part_happenings};
ghost use Rattle.gs_counts.specs.Kinds.{ends_of_messages, payloads_of_messages};
ghost use Rattle.gs_counts.specs.Meshes.{members, members_in};
ghost use Rattle.gs_counts.specs.Rows.{amount_in};
ghost use Rattle.gs_counts.specs.Standing.{goes_over, is_at, is_in, link_of, topics_in};
ghost use Rattle.gs_counts.specs.Sums.{MakeUp, in_none, linked, stands_on};
ghost use Rattle.gs_counts.specs.Topics.{subscribed};

/// If the entry of a message has the marks of the rule, the message is counted as what the rule makes of it.
pub fn fates_are_those_of_the_rule()
    ensures { (p : Peer) (L : Entries) (at : MillisValue) (q : PeerNoValue) (m : MessageValue)
        → fate_after L m (message_rule p L at q m).marks ≡ ruled_fate p L at.0 m }
{}

/// The topics for which a peer's meshes are counted are the topics that the peer has joined, according to its trace.
pub fn subscribed_topics_are_joined()
    ensures { (t : TopicValue) (L : Entries) → list_any (same_topic t) (subscribed L) ≡ joined L t }
{}

/// As many members of a mesh are counted as the trace has in that mesh.
pub fn members_are_those_of_meshes()
    ensures { (t : TopicValue) (L : Entries) → members_in (members L) t ≡ length (mesh L t) }
{}

/// The rows of peers, with what no peer of the plan did, add up to the whole.
pub fn rows_of_peers_make_up_the_whole()
    ensures { (plan : PlanValue) (hs : List HappeningValue) → MakeUp is_at (numbers plan) hs }
{}

/// The rows of rounds, with what lies after the last round, add up to the whole.
pub fn rows_of_rounds_make_up_the_whole()
    ensures { (round_ms count : ℕ) (hs : List HappeningValue) → MakeUp (is_in round_ms) (range_with_len 0 count) hs }
{}

/// The rows of topics, with what is on no topic, add up to the whole.
pub fn rows_of_topics_make_up_the_whole()
    ensures whole { (hs : List HappeningValue) → MakeUp stands_on (ascending (topics_in hs)) hs }
    ensures none { (hs : List HappeningValue)
        → filter (in_none stands_on (ascending (topics_in hs))) hs ≡ filter (λ h. is_none h.topic) hs }
{}

/// Each message that is heard counts as exactly one kind of message, and the bytes of its payload count once.
pub fn each_message_becomes_one_thing()
    ensures one { (fate : MessageValue → List MarkValue → FateValue)
        (s : SceneValue) (m : MessageValue) (marks : List MarkValue)
        → sum_by (amount_in (part_happenings fate s (Msg m) marks)) ends_of_messages ≡ 1 }
    ensures payload { (fate : MessageValue → List MarkValue → FateValue)
        (s : SceneValue) (m : MessageValue) (marks : List MarkValue)
        → sum_by (amount_in (part_happenings fate s (Msg m) marks)) payloads_of_messages ≡ length (payload_of m) }
{}

/// The rows of links, with what concerns no link of the plan, add up to the whole.
pub fn rows_of_links_make_up_the_whole()
    ensures { (plan : PlanValue) (hs : List HappeningValue)
        → MakeUp (λ x h. goes_over x.0 x.1 (link_of h)) (linked plan) hs }
{}
