//! Laws about scores. Each states facts about definitions only, and its function does nothing.
ghost use Rattle.std.specs.Prelude.{◌≡◌, ℕ, ◌+◌, ◌+ℤ◌, ◌≤◌, pos, Bool, true, [], List, length, map};
ghost use Rattle.std.specs.List.{AllByRecursion, list_any};
ghost use Rattle.gs_base.specs.Names.{most_topics, same_peer, same_topic};
ghost use Rattle.gs_base.specs.declared.names.PeerNo.{PeerNo as PeerNoValue};
ghost use Rattle.gs_base.specs.declared.names.Topic.{Topic as TopicValue};
ghost use Rattle.gs_base.specs.declared.neighbour.Neighbour.{Neighbour as NeighbourValue};
ghost use Rattle.gs_params.specs.declared.params.Params.{Params as ParamsValue};
ghost use Rattle.gs_score.specs.Accounts.{Covers, rules_of, total};
ghost use Rattle.gs_score.specs.Formula.{capped};
ghost use Rattle.gs_score.specs.Histories.{Agrees, History, Setting, held_by, named, named_after, score_in};
ghost use Rattle.gs_score.specs.Counters.{Stored, decayed, most_counted, read_at};
ghost use Rattle.gs_score.specs.Ledgers.{Kept, has_room};
ghost use Rattle.gs_score.specs.Millionths.{scaled, times};
ghost use Rattle.gs_score.specs.Parts.{score_parts, topic_parts};
ghost use Rattle.gs_score.specs.Ranges.{IsUpTo};
ghost use Rattle.gs_score.specs.Standings.{Held, decayed_held, held};
ghost use Rattle.gs_score.specs.declared.rules.TopicRules.{TopicRules as TopicRulesValue};
ghost use Rattle.gs_score.specs.declared.standing.Standing.{Standing as StandingValue};
ghost use Rattle.gs_score.specs.declared.counter.Decay.{Decay as DecayValue};

use crate::counter::MOST_COUNTED;

/// `times` and `scaled` give the same product if no factor is negative.
pub fn products_of_amounts_are_scaled()
    ensures { (a b : ℕ) → times (pos a) (pos b) ≡ pos (scaled a b) }
{}

/// A later read gives what the further steps of decay leave of the earlier read.
pub fn a_later_read_decays_on()
    ensures { (d : DecayValue) (c : Stored) (decays n : ℕ)
        → c.decays ≤ decays
        → read_at d (decays + n) c ≡ decayed d n (read_at d decays c) }
{}

/// A step of decay changes what a standing holds as it changes each counter.
pub fn a_standing_decays_by_its_counters()
    ensures { (r : TopicRulesValue) (decays : ℕ) (s : StandingValue)
        → IsUpTo decays s
        → held r (decays + 1) s ≡ decayed_held r (held r decays s) }
{}

/// A history names each topic on which a neighbour has something. So its score is the score over these topics.
pub fn named_topics_leave_none_out()
    ensures { (params : ParamsValue) (H : History) (q : PeerNoValue) → Covers (held_by params H q) (named H q) }
{}

/// If each topic that a change of a history names passes a test, each topic that the history names passes it.
pub fn changes_name_all_that_is_named()
    ensures { (test : TopicValue → Bool) (H : History) (q : PeerNoValue)
        → AllByRecursion (λ change. AllByRecursion (λ t. test t ≡ true) (named_after q change [])) H
        → AllByRecursion (λ t. test t ≡ true) (named H q) }
{}

/// A neighbour has room for a topic if a list of at most 1,024 topics holds it and all that the history names for the
/// neighbour.
pub fn there_is_room_for_what_fits_a_list()
    ensures { (s : Setting) (k : Kept) (H : History) (q : PeerNoValue) (t : TopicValue) (ts : List TopicValue)
        → list_any (λ (n : NeighbourValue). same_peer q n.peer) s.neighbours ≡ true
        → length ts ≤ most_topics
        → AllByRecursion (λ u. list_any (same_topic u) ts ≡ true) (named H q)
        → list_any (same_topic t) ts ≡ true
        → Agrees s k H
        → has_room k.accounts q t ≡ true }
{}

/// A topic gives the sum of what its parts weigh, times its own weight. A score is the capped sum of what the topics give,
/// plus what the other parts weigh.
pub fn parts_make_up_a_score()
    ensures topic { (r : TopicRulesValue) (now : ℕ) (h : Held)
        → (topic_parts r now h).topic_score
        ≡ times r.factors.topic_weight
        ((topic_parts r now h).time_in_mesh.weighed
        +ℤ (topic_parts r now h).first_message_deliveries.weighed
        +ℤ (topic_parts r now h).mesh_message_deliveries.weighed
        +ℤ (topic_parts r now h).mesh_failure_penalty.weighed
        +ℤ (topic_parts r now h).invalid_message_deliveries.weighed) }
    ensures sum { (s : Setting) (now : ℕ) (H : History) (q : PeerNoValue) (ts : List TopicValue)
        → (score_parts s now H q ts).topic_sum
        ≡ total (map (λ t. (topic_parts (rules_of s.params t) now (held_by s.params H q t)).topic_score) ts) }
    ensures cap { (s : Setting) (now : ℕ) (H : History) (q : PeerNoValue) (ts : List TopicValue)
        → (score_parts s now H q ts).capped_topic_sum
        ≡ capped s.params.factors.topic_cap (score_parts s now H q ts).topic_sum }
    ensures score { (s : Setting) (now : ℕ) (H : History) (q : PeerNoValue) (ts : List TopicValue)
        → (score_parts s now H q ts).score
        ≡ (score_parts s now H q ts).capped_topic_sum
        +ℤ (score_parts s now H q ts).app_specific_score.weighed
        +ℤ (score_parts s now H q ts).ip_colocation_factor
        +ℤ (score_parts s now H q ts).behaviour_penalty.weighed }
    ensures same { (s : Setting) (now : ℕ) (H : History) (q : PeerNoValue) (ts : List TopicValue)
        → (score_parts s now H q ts).score ≡ score_in s now H q ts }
{}

/// The limit of counters in code equals that in the definitions.
pub fn limits_of_counters()
    ensures { MOST_COUNTED ≡ most_counted }
{}
