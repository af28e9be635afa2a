ghost use Rattle.std.specs.Prelude.{◌≡◌, ◌≤◌, ◌^◌, ℕ, pos, false};
ghost use Rattle.gs_params.specs.Params.{AreInRange, TopicFactorsAreInRange};
ghost use Rattle.gs_params.specs.declared.params.Params.{Params as ParamsValue};
ghost use Rattle.gs_score.specs.Formula.{is_active, p1, topic_part};
ghost use Rattle.gs_score.specs.Ranges.{RulesAreInRange};
ghost use Rattle.gs_score.specs.Rulebooks.{NothingWeighs};
ghost use Rattle.gs_score.specs.Standings.{Held, cap_of, decay_of};
ghost use Rattle.gs_score.specs.declared.rules.TopicRules.{TopicRules as TopicRulesValue};

use crate::counter::{Decay, MOST_COUNTED};
use crate::standing::Kind;
use gs_base::{Millis, Topic};
use gs_params::{TopicFactors, TopicParams, TopicTiming};

/// How a topic is scored (gossipsub v1.1, Peer Scoring, Topic Parameters).
#[derive(Clone, Copy, Debug, PartialEq, Eq)]
pub struct TopicRules {
    /// Its weights, factors and caps.
    pub factors: TopicFactors,
    /// Its times, in milliseconds.
    pub timing: TopicTiming,
    /// A counter that decays below this becomes 0, in millionths: 0 to 10^12. It is the same for all topics.
    pub decay_to_zero: u64,
}

impl TopicRules {
    /// Returns the factor by which a counter of this kind decays, and the floor below which it becomes 0, both in
    /// millionths.
    pub fn decay_of(&self, kind: Kind) -> Decay
        requires in_range { RulesAreInRange self.now }
        ensures value { result ≡ decay_of self.now kind }
        ensures factor { result.factor ≤ 10 ^ 6 }
    {
        let factor = match kind {
            Kind::First => self.factors.p2_decay,
            Kind::Near => self.factors.p3_decay,
            Kind::Deficit => self.factors.p3b_decay,
            Kind::Invalid => self.factors.p4_decay,
        };
        Decay {
            factor,
            floor: self.decay_to_zero,
        }
    }

    /// Returns the most to which a counter is raised, in millionths: its cap, or 10^12 for P3b and P4, which have no own
    /// cap.
    pub fn cap_of(&self, kind: Kind) -> u64
        requires in_range { RulesAreInRange self.now }
        ensures value { result ≡ cap_of self.now kind }
        ensures most { result ≤ 10 ^ 12 }
    {
        match kind {
            Kind::First => self.factors.p2_cap,
            Kind::Near => self.factors.p3_cap,
            Kind::Deficit => MOST_COUNTED,
            Kind::Invalid => MOST_COUNTED,
        }
    }

    /// Says whether a member has been in the mesh for the activation time (P3).
    pub(crate) fn is_active(&self, since: Option<Millis>, now: Millis) -> bool
        ensures { result ≡ is_active self.now now.0 since }
    {
        match since {
            Some(since) => self.timing.p3_activation_ms <= now.0.saturating_sub(since.0),
            None => false,
        }
    }

    /// Returns what the time in the mesh counts, in millionths (P1): 0 to 10^12.
    pub(crate) fn presence(&self, since: Option<Millis>, now: Millis) -> u64
        requires in_range { RulesAreInRange self.now }
        ensures value { result ≡ p1 self.now now.0 since }
        ensures most { result ≤ 10 ^ 12 }
    {
        match since {
            Some(since) => {
                let quanta = now.0.saturating_sub(since.0) / self.timing.p1_quantum_ms;
                quanta.saturating_mul(1_000_000).min(self.factors.p1_cap)
            }
            None => 0,
        }
    }
}

/// Says whether anything that is counted on any of these topics weighs. All other topics have the defaults, which weigh nothing.
pub(crate) fn any_weighs(topics: &[(Topic, TopicParams)]) -> bool
    ensures { result ≡ false
        → (params : ParamsValue)
        → AreInRange params
        → params.topics ≡ topics.now
        → NothingWeighs params }
{
    for entry in topics {
        if weighs(&entry.1.factors) {
            return true;
        }
    }
    false
}

/// Says whether anything that is counted on a topic weighs: the time in the mesh (P1) or a counter (P2 to P4). Nothing does
/// if the topic's weight is 0, or if each of the five weights is 0.
fn weighs(factors: &TopicFactors) -> bool
    ensures { result ≡ false
        → TopicFactorsAreInRange factors.now
        → (r : TopicRulesValue) (now : ℕ) (h : Held)
        → r.factors ≡ factors.now
        → topic_part r now h ≡ pos 0 }
{
    if factors.topic_weight == 0 {
        return false;
    }
    if factors.w1 != 0 {
        return true;
    }
    if factors.w2 != 0 {
        return true;
    }
    if factors.w3 != 0 {
        return true;
    }
    if factors.w3b != 0 {
        return true;
    }
    if factors.w4 != 0 {
        return true;
    }
    false
}
