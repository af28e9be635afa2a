ghost use Rattle.std.specs.Prelude.{◌≡◌, ◌≤◌, ◌^◌, pos, unsigned_abs};
ghost use Rattle.gs_params.specs.Params.{FactorsAreInRange, IsCap};
ghost use Rattle.gs_score.specs.Formula.{capped, p5, p6, p7, score_of};
ghost use Rattle.gs_score.specs.Millionths.{times};
ghost use Rattle.gs_score.specs.Parts.{score_parts_of};

use crate::millionths::{squared, sum_of_four, weighed, weighed_sum};
use crate::parts::{Part, ScoreParts};
use gs_params::Factors;

/// Returns the score of a neighbour, in millionths (gossipsub v1.1, Peer Scoring, The Score Function). `topics` is the sum
/// of what its topics give, at most 10^29 either way. `app` is the score that the application gives it (P5), at most 10^12
/// either way. `number` is how many neighbours are at its address (P6), at most 10^6. `misbehaviour` (P7) is at most 10^12.
/// The score is at most 10^30 either way.
// Each score calls this. Inlined, it costs as much as code with only one caller.
#[inline(always)]
#[tactic(auto, unfolding(crate::specs::Formula::score_of))]
pub fn score_of(factors: &Factors, topics: i128, app: i128, number: u64, misbehaviour: u64) -> i128
    requires in_range { FactorsAreInRange factors.now }
    requires topics { unsigned_abs topics ≤ 10 ^ 29 }
    requires app { unsigned_abs app ≤ 10 ^ 12 }
    requires number { number ≤ 10 ^ 6 }
    requires misbehaviour { misbehaviour ≤ 10 ^ 12 }
    ensures value { result ≡ score_of factors.now topics app number misbehaviour }
    ensures bound { unsigned_abs result ≤ 10 ^ 30 }
{
    let held = capped(factors.topic_cap, topics);
    let given = weighed_app(factors, app);
    let crowded = weighed_crowd(factors, number);
    let misbehaved = weighed_misbehaviour(factors, misbehaviour);
    sum_of_four(held, given, crowded, misbehaved)
}

/// Returns the parts of the score that `score_of` gives for the same arguments, each as it is counted and weighed.
pub(crate) fn score_parts_of(
    factors: &Factors,
    topics: i128,
    app: i128,
    number: u64,
    misbehaviour: u64,
) -> ScoreParts
    requires in_range { FactorsAreInRange factors.now }
    requires topics { unsigned_abs topics ≤ 10 ^ 29 }
    requires app { unsigned_abs app ≤ 10 ^ 12 }
    requires number { number ≤ 10 ^ 6 }
    requires misbehaviour { misbehaviour ≤ 10 ^ 12 }
    ensures { result ≡ score_parts_of factors.now topics app number misbehaviour }
{
    ScoreParts {
        topic_sum: topics,
        capped_topic_sum: capped(factors.topic_cap, topics),
        app_specific_score: Part {
            counted: app,
            weighed: weighed_app(factors, app),
        },
        neighbours_at_address: number,
        ip_colocation_factor: weighed_crowd(factors, number),
        behaviour_penalty: Part {
            counted: misbehaviour as i128,
            weighed: weighed_misbehaviour(factors, misbehaviour),
        },
        score: score_of(factors, topics, app, number, misbehaviour),
    }
}

/// Returns what the score of the application weighs (P5).
// Each score calls this. Inlined, it costs as much as code with only one caller.
#[inline(always)]
fn weighed_app(factors: &Factors, app: i128) -> i128
    requires in_range { FactorsAreInRange factors.now }
    requires app { unsigned_abs app ≤ 10 ^ 12 }
    ensures value { result ≡ times factors.now.w5 (p5 app) }
    ensures bound { unsigned_abs result ≤ 10 ^ 25 }
{
    weighed_sum(factors.w5, app)
}

/// Returns what the neighbours at an address weigh (P6).
// Each score calls this. Inlined, it costs as much as code with only one caller.
#[inline(always)]
fn weighed_crowd(factors: &Factors, number: u64) -> i128
    requires in_range { FactorsAreInRange factors.now }
    requires number { number ≤ 10 ^ 6 }
    ensures value { result ≡ times factors.now.w6 (pos (p6 factors.now.p6_threshold number)) }
    ensures bound { unsigned_abs result ≤ 10 ^ 21 }
{
    weighed(factors.w6, crowd(factors.p6_threshold, number))
}

/// Returns what misbehaviour weighs (P7).
// Each score calls this. Inlined, it costs as much as code with only one caller.
#[inline(always)]
fn weighed_misbehaviour(factors: &Factors, misbehaviour: u64) -> i128
    requires in_range { FactorsAreInRange factors.now }
    requires misbehaviour { misbehaviour ≤ 10 ^ 12 }
    ensures value { result ≡ times factors.now.w7 (pos (p7 misbehaviour)) }
    ensures bound { unsigned_abs result ≤ 10 ^ 21 }
{
    weighed(factors.w7, squared(misbehaviour))
}

/// Returns the square of the number by which the neighbours at an address exceed the threshold, in millionths (P6): 0 to 10^18.
fn crowd(threshold: u64, number: u64) -> u64
    requires { number ≤ 10 ^ 6 }
    ensures value { result ≡ p6 threshold number }
    ensures most { result ≤ 10 ^ 18 }
{
    if threshold < number {
        return squared(1_000_000 * (number - threshold));
    }
    0
}

/// Returns a sum over topics, limited to the cap if there is one.
fn capped(cap: u64, sum: i128) -> i128
    requires cap { IsCap cap }
    requires sum { unsigned_abs sum ≤ 10 ^ 29 }
    ensures value { result ≡ capped cap sum }
    ensures bound { unsigned_abs result ≤ 10 ^ 29 }
{
    if 0 < cap {
        return sum.min(cap as i128);
    }
    sum
}
