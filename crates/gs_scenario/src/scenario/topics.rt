//! The topics of a scenario.
ghost use Rattle.std.specs.Prelude.{◌≡◌, [], option_map, is_some, map};
ghost use Rattle.std.specs.Option.{option_copied};
ghost use Rattle.toml.specs.View.{view, items_view};
ghost use Rattle.gs_scenario.specs.declared.reason.NameKind.TheVariants as names;
ghost use Rattle.gs_scenario.specs.Refusal.{GivesSame};
ghost use Rattle.gs_scenario.specs.Keys.{read_each};
ghost use Rattle.gs_scenario.specs.Kinds.{reference};
ghost use Rattle.gs_scenario.specs.Views.{read_as};
ghost use Rattle.gs_scenario.specs.PlanOf.{topic_in, topic_keys, topic_named};

use crate::fault::ScenarioFault;
use crate::reason::NameKind;
use crate::scenario::elements::read_each;
use crate::scenario::field::{Field, table_of};
use crate::scenario::place::Element;
use crate::scenario::tables::TableKind;
use crate::scenario::topic_params::topic_params_in;
use bytes::Bytes;
use gs_base::{Seq, Topic, clone_of};
use gs_params::TopicParams;
use std::alloc::Global;
use toml::Value;

/// A topic with its parameters. Lines and look-ups name it.
pub type TopicEntry = (Topic, TopicParams);

/// Returns the keys of a topic's table.
pub fn keys() -> &'static [&'static str]
    ensures { map (λ key. key.now) result.now ≡ topic_keys }
{
    &[
        "name",
        "topic_weight",
        "w1",
        "w2",
        "w3",
        "w3b",
        "w4",
        "p2_decay",
        "p3_decay",
        "p3b_decay",
        "p4_decay",
        "p1_cap",
        "p2_cap",
        "p3_cap",
        "p3_threshold",
        "p1_quantum_ms",
        "p3_window_ms",
        "p3_activation_ms",
        "reject",
        "ignore",
    ]
}

/// Returns the topics of a list, in its order.
pub fn topics_in(alloc: Global, list: &[Value]) -> Result<Seq<TopicEntry>, ScenarioFault>
    ensures { GivesSame result (read_each topic_in [] (items_view list.now)) }
{
    read_each(
        alloc,
        list,
        |earlier, value| topic_in(alloc, earlier, value),
    )
}

/// Returns the topic that stands in the list after the earlier ones.
#[tactic(auto, unfolding(crate::specs::PlanOf::topic_in))]
fn topic_in(
    alloc: Global,
    earlier: &[TopicEntry],
    value: &Value,
) -> Result<TopicEntry, ScenarioFault>
    ensures { GivesSame result (topic_in earlier.now (view value.now)) }
{
    let element = Element {
        list: "topic",
        index: earlier.len(),
    };
    let section = table_of(alloc, element, value)?;
    section.only(TableKind::Topic)?;
    let field = section.required("name")?;
    let name = field.name()?;
    if topic_named(earlier, name).is_some() {
        return Err(field.repeated()?);
    }
    let topic = Topic(Bytes::copy_from_slice(alloc, name.as_bytes())?);
    let params = topic_params_in(&section)?;
    Ok((topic, params))
}

/// Returns the topic that a value names.
pub fn topic_of(topics: &[TopicEntry], field: &Field<'_>) -> Result<Topic, ScenarioFault>
    ensures { GivesSame result
        (read_as (reference names.Topic (topic_named topics.now)) field.now) }
{
    let name = field.name()?;
    match topic_named(topics, name) {
        Some(topic) => Ok(clone_of(topic)?),
        None => Err(field.unknown(name, NameKind::Topic)?),
    }
}

fn topic_named<'a>(topics: &'a [TopicEntry], name: &str) -> Option<&'a Topic>
    ensures { option_map (λ topic. topic.now) result ≡ topic_named topics.now name.now }
{
    let (topic, _params) = topics
        .iter()
        .find(|entry| entry.0.0.as_slice() == name.as_bytes())?;
    Some(topic)
}
