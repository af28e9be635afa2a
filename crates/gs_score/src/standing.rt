ghost use Rattle.std.specs.Prelude.{◌≡◌, ◌≤◌, ◌^◌, ℕ, pos, unsigned_abs};
ghost use Rattle.gs_score.specs.Formula.{p3, topic_part};
ghost use Rattle.gs_score.specs.Millionths.{squared, times};
ghost use Rattle.gs_score.specs.Parts.{first_message_deliveries, invalid_message_deliveries, mesh_failure_penalty};
ghost use Rattle.gs_score.specs.Parts.{mesh_message_deliveries, time_in_mesh, topic_parts};
ghost use Rattle.gs_score.specs.Ranges.{RulesAreInRange};
ghost use Rattle.gs_score.specs.Standings.{count, fresh, grafted, held, pruned, raised_by, raised_held, stored};
ghost use Rattle.gs_score.specs.Standings.{with_stored};

use crate::counter::Counter;
use crate::millionths::{squared, sum_of_five, weighed, weighed_sum};
use crate::parts::{Part, TopicParts};
use crate::rules::TopicRules;
use gs_base::Millis;

/// The counters of a neighbour on a topic (gossipsub v1.1, Peer Scoring).
#[derive(Clone, Copy, Debug, PartialEq, Eq)]
pub enum Kind {
    /// Messages that it was the first to deliver (P2).
    First,
    /// Messages that it delivered as a mesh member, first or soon after the first (P3).
    Near,
    /// How many of those were missing when it left the mesh, squared (P3b).
    Deficit,
    /// Invalid messages (P4).
    Invalid,
}

/// By how much a counter is raised, and by which rules.
#[derive(Clone, Copy)]
pub struct Raise<'a> {
    /// The counter.
    pub kind: Kind,
    /// The amount, in millionths.
    pub by: u64,
    /// How its topic is scored.
    pub rules: &'a TopicRules,
    /// The raise comes after this number of decays.
    pub decays: u64,
}

/// What a neighbour has on a topic: since when it is in the mesh, and its counters.
#[derive(Clone, Copy, Debug, PartialEq, Eq)]
pub struct Standing {
    /// Since when it is in the mesh, if it is in it.
    pub since: Option<Millis>,
    pub first: Counter,
    pub near: Counter,
    pub deficit: Counter,
    pub invalid: Counter,
}

impl Standing {
    /// Returns a standing outside the mesh, with all counters 0.
    pub fn new() -> Standing
        ensures { result ≡ fresh }
    {
        Standing {
            since: None,
            first: Counter::new(),
            near: Counter::new(),
            deficit: Counter::new(),
            invalid: Counter::new(),
        }
    }

    /// Returns a counter as it is stored, which may lack steps of decay.
    pub fn counter(&self, kind: Kind) -> Counter
        ensures { result ≡ stored kind self.now }
    {
        match kind {
            Kind::First => self.first,
            Kind::Near => self.near,
            Kind::Deficit => self.deficit,
            Kind::Invalid => self.invalid,
        }
    }

    /// Returns a counter's value after these decays, in millionths.
    pub fn count(&self, kind: Kind, rules: &TopicRules, decays: u64) -> u64
        requires in_range { RulesAreInRange rules.now }
        ensures value { result ≡ count kind (held rules.now decays self.now) }
        ensures most { result ≤ 10 ^ 12 }
    {
        self.counter(kind).read(rules.decay_of(kind), decays)
    }

    /// Raises a counter by an amount, up to its cap.
    pub fn raise(&mut self, raise: Raise<'_>)
        requires in_range { RulesAreInRange raise.rules.now }
        ensures raises { held raise.entry.rules.now raise.entry.decays self.new
            ≡ raised_held raise.entry.rules.now raise.entry.kind raise.entry.by
            (held raise.entry.rules.now raise.entry.decays self.old) }
        ensures keeps { self.new ≡ raised_by raise.entry self.old }
    {
        let Raise {
            kind,
            by,
            rules,
            decays,
        } = raise;
        let mut counter = self.counter(kind);
        counter.raise(by, rules.cap_of(kind), rules.decay_of(kind), decays);
        self.put(kind, counter);
    }

    fn put(&mut self, kind: Kind, counter: Counter)
        ensures { self.new ≡ with_stored kind counter self.old }
    {
        match kind {
            Kind::First => self.first = counter,
            Kind::Near => self.near = counter,
            Kind::Deficit => self.deficit = counter,
            Kind::Invalid => self.invalid = counter,
        }
    }

    /// Puts the neighbour into the mesh at this moment. Its time in the mesh (P1) and its activation (P3) are counted from
    /// it.
    pub fn graft(&mut self, now: Millis)
        ensures { self.new ≡ grafted now self.old }
    {
        self.since = Some(now);
    }

    /// Takes the neighbour out of the mesh. Its counters stay.
    pub fn prune(&mut self)
        ensures { self.new ≡ pruned self.old }
    {
        self.since = None;
    }

    /// Returns the square of its missing deliveries in the mesh, in millionths (P3): 0 to 10^18.
    pub fn missing(&self, rules: &TopicRules, decays: u64, now: Millis) -> u64
        requires in_range { RulesAreInRange rules.now }
        ensures value { result ≡ p3 rules.now now.0 (held rules.now decays self.now) }
        ensures most { result ≤ 10 ^ 18 }
    {
        let threshold = rules.factors.p3_threshold;
        let near = self.count(Kind::Near, rules, decays);
        if rules.is_active(self.since, now) && near < threshold {
            return squared(threshold - near);
        }
        0
    }

    /// Returns a counter times a weight, in millionths: at most 10^21 either way. If the weight is 0, the counter is not
    /// read.
    fn weighed_count(&self, weight: i64, kind: Kind, rules: &TopicRules, decays: u64) -> i128
        requires in_range { RulesAreInRange rules.now }
        requires weight { unsigned_abs weight ≤ 10 ^ 9 }
        ensures value { result ≡ times weight (pos (count kind (held rules.now decays self.now))) }
        ensures bound { unsigned_abs result ≤ 10 ^ 21 }
    {
        if weight == 0 {
            return 0;
        }
        weighed(weight, self.count(kind, rules, decays))
    }

    /// Returns the square of a counter times a weight, in the same way.
    fn weighed_square(&self, weight: i64, kind: Kind, rules: &TopicRules, decays: u64) -> i128
        requires in_range { RulesAreInRange rules.now }
        requires weight { unsigned_abs weight ≤ 10 ^ 9 }
        ensures value { result ≡ times weight (pos (squared (count kind (held rules.now decays self.now)))) }
        ensures bound { unsigned_abs result ≤ 10 ^ 21 }
    {
        if weight == 0 {
            return 0;
        }
        weighed(weight, squared(self.count(kind, rules, decays)))
    }

    /// Returns the square of what is missing times a weight, in the same way.
    // Each score calls this. Inlined, it costs as much as code with only one caller.
    #[inline(always)]
    fn weighed_missing(&self, weight: i64, rules: &TopicRules, decays: u64, now: Millis) -> i128
        requires in_range { RulesAreInRange rules.now }
        requires weight { unsigned_abs weight ≤ 10 ^ 9 }
        ensures value { result ≡ times weight (pos (p3 rules.now now.0 (held rules.now decays self.now))) }
        ensures bound { unsigned_abs result ≤ 10 ^ 21 }
    {
        if weight == 0 {
            return 0;
        }
        weighed(weight, self.missing(rules, decays, now))
    }

    /// Returns what the topic gives, in millionths: at most 10^25 either way.
    // Each score calls this. Inlined, it costs as much as code with only one caller.
    #[inline(always)]
    #[tactic(auto, unfolding(crate::specs::Formula::topic_part))]
    pub fn part(&self, rules: &TopicRules, decays: u64, now: Millis) -> i128
        requires in_range { RulesAreInRange rules.now }
        ensures value { result ≡ topic_part rules.now now.0 (held rules.now decays self.now) }
        ensures bound { unsigned_abs result ≤ 10 ^ 25 }
    {
        let factors = &rules.factors;
        let present = weighed(factors.w1, rules.presence(self.since, now));
        let first = self.weighed_count(factors.w2, Kind::First, rules, decays);
        let missing = self.weighed_missing(factors.w3, rules, decays, now);
        let deficit = self.weighed_count(factors.w3b, Kind::Deficit, rules, decays);
        let invalid = self.weighed_square(factors.w4, Kind::Invalid, rules, decays);
        let sum = sum_of_five(present, first, missing, deficit, invalid);
        weighed_sum(factors.topic_weight, sum)
    }

    /// Returns the parts of what the topic gives, each as it is counted and weighed, in millionths. `topic_score` is what
    /// `part` gives.
    pub fn parts(&self, rules: &TopicRules, decays: u64, now: Millis) -> TopicParts
        requires in_range { RulesAreInRange rules.now }
        ensures { result ≡ topic_parts rules.now now.0 (held rules.now decays self.now) }
    {
        TopicParts {
            time_in_mesh: self.time_in_mesh(rules, now),
            first_message_deliveries: self.first_message_deliveries(rules, decays),
            mesh_message_deliveries: self.mesh_message_deliveries(rules, decays, now),
            mesh_failure_penalty: self.mesh_failure_penalty(rules, decays),
            invalid_message_deliveries: self.invalid_message_deliveries(rules, decays),
            topic_score: self.part(rules, decays, now),
        }
    }

    fn time_in_mesh(&self, rules: &TopicRules, now: Millis) -> Part
        requires in_range { RulesAreInRange rules.now }
        ensures { (decays : ℕ) → result ≡ time_in_mesh rules.now now.0 (held rules.now decays self.now) }
    {
        let presence = rules.presence(self.since, now);
        Part {
            counted: presence as i128,
            weighed: weighed(rules.factors.w1, presence),
        }
    }

    fn first_message_deliveries(&self, rules: &TopicRules, decays: u64) -> Part
        requires in_range { RulesAreInRange rules.now }
        ensures { result ≡ first_message_deliveries rules.now (held rules.now decays self.now) }
    {
        Part {
            counted: self.count(Kind::First, rules, decays) as i128,
            weighed: self.weighed_count(rules.factors.w2, Kind::First, rules, decays),
        }
    }

    fn mesh_message_deliveries(&self, rules: &TopicRules, decays: u64, now: Millis) -> Part
        requires in_range { RulesAreInRange rules.now }
        ensures { result ≡ mesh_message_deliveries rules.now now.0 (held rules.now decays self.now) }
    {
        Part {
            counted: self.count(Kind::Near, rules, decays) as i128,
            weighed: self.weighed_missing(rules.factors.w3, rules, decays, now),
        }
    }

    fn mesh_failure_penalty(&self, rules: &TopicRules, decays: u64) -> Part
        requires in_range { RulesAreInRange rules.now }
        ensures { result ≡ mesh_failure_penalty rules.now (held rules.now decays self.now) }
    {
        Part {
            counted: self.count(Kind::Deficit, rules, decays) as i128,
            weighed: self.weighed_count(rules.factors.w3b, Kind::Deficit, rules, decays),
        }
    }

    fn invalid_message_deliveries(&self, rules: &TopicRules, decays: u64) -> Part
        requires in_range { RulesAreInRange rules.now }
        ensures { result ≡ invalid_message_deliveries rules.now (held rules.now decays self.now) }
    {
        Part {
            counted: self.count(Kind::Invalid, rules, decays) as i128,
            weighed: self.weighed_square(rules.factors.w4, Kind::Invalid, rules, decays),
        }
    }
}
