//! The topics that a peer is subscribed to.
ghost use Rattle.std.specs.Prelude.{◌≡◌, [], ◌∷◌, ◌++◌, filter, if◌then◌else◌, not, OnOk};
ghost use Rattle.std.specs.List.{list_any};
ghost use Rattle.gs_base.specs.Names.{same_topic};
ghost use Rattle.gs_counts.specs.Topics.{act_subscribed, subscribed_after};

use gs_base::{Topic, clone_of};
use gs_plan::Act;
use gs_rules::Event;
use std::alloc::AllocError;

/// Notes how an event changes the topics that a peer is subscribed to.
pub(crate) fn note(topics: &mut Vec<Topic>, event: &Event) -> Result<(), AllocError>
    ensures { OnOk result (topics.new.items ≡ subscribed_after event.now topics.old.items) }
{
    match event {
        Event::Own(act) => note_act(topics, act.get()),
        Event::Heard(_, _) => Ok(()),
        Event::Late(_, _) => Ok(()),
        Event::Part(_, _) => Ok(()),
        Event::BeatBegin => Ok(()),
        Event::Step(_) => Ok(()),
        Event::Lost(_, _) => Ok(()),
        Event::Decay => Ok(()),
        Event::RoundEnd(_) => Ok(()),
        Event::Shut => Ok(()),
    }
}

fn note_act(topics: &mut Vec<Topic>, act: &Act) -> Result<(), AllocError>
    ensures { OnOk result (topics.new.items ≡ act_subscribed act.now topics.old.items) }
{
    match act {
        Act::Subscribe(topic) => join(topics, topic),
        Act::Unsubscribe(topic) => {
            leave(topics, topic);
            Ok(())
        }
        Act::Publish(_, _) => Ok(()),
        Act::Raw(_, _) => Ok(()),
        Act::HangUp(_) => Ok(()),
    }
}

fn join(topics: &mut Vec<Topic>, topic: &Topic) -> Result<(), AllocError>
    ensures { OnOk result (topics.new.items
        ≡ (if list_any (same_topic topic.now) topics.old.items
        then topics.old.items
        else topics.old.items ++ topic.now ∷ [])) }
{
    if topics.contains(topic) {
        return Ok(());
    }
    topics.push(clone_of(topic)?)?;
    Ok(())
}

fn leave(topics: &mut Vec<Topic>, topic: &Topic)
    ensures { topics.new.items ≡ filter (λ u. not (same_topic topic.now u)) topics.old.items }
{
    topics.retain(|other| *topic != *other);
}
