//! Finds the part that adds least to a score.
ghost use Rattle.std.specs.Prelude.{◌≡◌, ◌≤◌, ◌^◌, ◌∷◌, [], ℤ, Some, option_map, unsigned_abs};
ghost use Rattle.gs_params.specs.Params.{IsReward};
ghost use Rattle.gs_snapshots.specs.Loads.{amount_of, heaviest, limited, load_of, loads_of_no_topic, loads_on_topic, part_word, share};
ghost use Rattle.gs_snapshots.specs.Noting.{lower, lower_of_all};

use crate::snapshot::{OnTopic, Snapshot};
use gs_base::Topic;
use gs_score::{Part, Rulebook, ScoreParts, times};

/// A part of a score.
#[derive(Clone, Copy, Debug, PartialEq, Eq)]
pub enum PartName {
    /// P1.
    TimeInMesh,
    /// P2.
    FirstMessageDeliveries,
    /// P3.
    MeshMessageDeliveries,
    /// P3b.
    MeshFailurePenalty,
    /// P4.
    InvalidMessageDeliveries,
    /// P5.
    AppSpecificScore,
    /// P6.
    IpColocationFactor,
    /// P7.
    BehaviourPenalty,
}

/// What a part adds to a score, in millionths.
#[derive(Clone, Copy, Debug, Drop)]
pub(crate) struct Load<'a> {
    /// The part.
    pub part: PartName,
    /// The topic, if the part belongs to one.
    pub topic: Option<&'a Topic>,
    /// What the part adds, with the weight of its topic and before the cap on all topics.
    pub amount: i128,
}

/// Returns the part that adds least to the score of a snapshot. Among equals, it is the first in the order of the lines of
/// scores.
pub(crate) fn heaviest<'a>(rules: &Rulebook, snapshot: &'a Snapshot) -> Option<Load<'a>>
    ensures { option_map load_of result ≡ heaviest rules.now snapshot.now }
{
    let mut found = None;
    for told in snapshot.topics.as_slice() {
        found = heavier_on_topic(rules, found, told);
    }
    heavier_of_no_topic(found, &snapshot.parts)
}

/// Returns the part that adds least, among the one found so far and the five parts of a topic.
fn heavier_on_topic<'a>(
    rules: &Rulebook,
    found: Option<Load<'a>>,
    told: &'a OnTopic,
) -> Option<Load<'a>>
    ensures { option_map load_of result
        ≡ lower_of_all amount_of (option_map load_of found.entry) (loads_on_topic rules.now told.now) }
{
    let parts = &told.parts;
    let found = heavier(
        found,
        topic_load(rules, told, PartName::TimeInMesh, &parts.time_in_mesh),
    );
    let found = heavier(
        found,
        topic_load(
            rules,
            told,
            PartName::FirstMessageDeliveries,
            &parts.first_message_deliveries,
        ),
    );
    let found = heavier(
        found,
        topic_load(
            rules,
            told,
            PartName::MeshMessageDeliveries,
            &parts.mesh_message_deliveries,
        ),
    );
    let found = heavier(
        found,
        topic_load(
            rules,
            told,
            PartName::MeshFailurePenalty,
            &parts.mesh_failure_penalty,
        ),
    );
    heavier(
        found,
        topic_load(
            rules,
            told,
            PartName::InvalidMessageDeliveries,
            &parts.invalid_message_deliveries,
        ),
    )
}

/// Returns the part that adds least, among the one found so far and the three parts that belong to no single topic.
fn heavier_of_no_topic<'a>(found: Option<Load<'a>>, parts: &ScoreParts) -> Option<Load<'a>>
    ensures { option_map load_of result
        ≡ lower_of_all amount_of (option_map load_of found.entry) (loads_of_no_topic parts.now) }
{
    let found = heavier(
        found,
        plain_load(
            PartName::AppSpecificScore,
            &parts.app_specific_score.weighed,
        ),
    );
    let found = heavier(
        found,
        plain_load(PartName::IpColocationFactor, &parts.ip_colocation_factor),
    );
    heavier(
        found,
        plain_load(PartName::BehaviourPenalty, &parts.behaviour_penalty.weighed),
    )
}

/// Returns the part that was found, or the next one if that adds less.
fn heavier<'a>(found: Option<Load<'a>>, next: Load<'a>) -> Option<Load<'a>>
    ensures { option_map load_of result
        ≡ lower amount_of (option_map load_of found.entry) (load_of next.entry) }
{
    match found {
        None => Some(next),
        Some(before) => {
            if next.amount < before.amount {
                return Some(next);
            }
            Some(before)
        }
    }
}

/// Returns a part that belongs to no single topic.
fn plain_load<'a>(part: PartName, amount: &i128) -> Load<'a>
    ensures { load_of result ≡ record { part = part; topic = None; amount = amount.now } }
{
    Load {
        part,
        topic: None,
        amount: *amount,
    }
}

/// Returns a part of a topic, with the weight of the topic.
fn topic_load<'a>(rules: &Rulebook, told: &'a OnTopic, name: PartName, part: &Part) -> Load<'a>
    ensures { load_of result
        ≡ record { part = name; topic = Some told.now.topic; amount = share rules.now told.now.topic part.now } }
{
    Load {
        part: name,
        topic: Some(&told.topic),
        amount: share(rules, &told.topic, part),
    }
}

/// Returns what a part of a topic adds to a score.
fn share(rules: &Rulebook, topic: &Topic, part: &Part) -> i128
    ensures { result ≡ share rules.now topic.now part.now }
{
    times(rules.of(topic).factors.topic_weight, limited(&part.weighed))
}

/// Returns an amount, limited to the range from -10^24 to 10^24.
fn limited(amount: &i128) -> i128
    ensures value { result ≡ limited amount.now }
    ensures bound { unsigned_abs result ≤ 10 ^ 24 }
{
    (*amount).clamp(-MOST_WEIGHED, MOST_WEIGHED)
}

/// A bound above the amount of any part of a topic.
const MOST_WEIGHED: i128 = 1_000_000_000_000_000_000_000_000;

/// Returns the word of a part, which is its key in the lines of scores.
pub(crate) fn part_word(part: PartName) -> &'static [u8]
    ensures { result.now ≡ part_word part }
{
    match part {
        PartName::TimeInMesh => b"time_in_mesh",
        PartName::FirstMessageDeliveries => b"first_message_deliveries",
        PartName::MeshMessageDeliveries => b"mesh_message_deliveries",
        PartName::MeshFailurePenalty => b"mesh_failure_penalty",
        PartName::InvalidMessageDeliveries => b"invalid_message_deliveries",
        PartName::AppSpecificScore => b"app_specific_score",
        PartName::IpColocationFactor => b"ip_colocation_factor",
        PartName::BehaviourPenalty => b"behaviour_penalty",
    }
}
