//! What validation says about a payload.
ghost use Rattle.std.specs.Prelude.{◌≡◌, Some};
ghost use Rattle.std.specs.Map.{lookup};
ghost use Rattle.gs_base.specs.Names.{same_topic};
ghost use Rattle.gs_rules.specs.Outcomes.{begins_with_one, verdict_by};

use bytes::Bytes;
use gs_base::{Topic, Verdict};
use gs_params::TopicParams;

/// What validation says about a payload on a topic. The first parameters of the topic count. If there are none, the payload
/// is accepted.
pub(crate) fn verdict_on(topics: &[(Topic, TopicParams)], topic: &Topic, payload: &Bytes) -> Verdict
    ensures { result ≡ verdict_by (lookup (same_topic topic.now) topics.now) payload.now }
{
    for known in topics {
        if *topic == known.0 {
            return verdict_with(&known.1, payload.as_slice());
        }
    }
    Verdict::Accept
}

/// What validation says about a payload by these parameters. Rejection takes precedence over ignoring.
fn verdict_with(params: &TopicParams, payload: &[u8]) -> Verdict
    ensures { result ≡ verdict_by (Some params.now) payload.now }
{
    if begins_with_one(params.reject.as_slice(), payload) {
        return Verdict::Reject;
    }
    if begins_with_one(params.ignore.as_slice(), payload) {
        return Verdict::Ignore;
    }
    Verdict::Accept
}

fn begins_with_one(prefixes: &[Bytes], payload: &[u8]) -> bool
    ensures { result ≡ begins_with_one prefixes.now payload.now }
{
    prefixes
        .iter()
        .any(|prefix| payload.starts_with(prefix.as_slice()))
}
