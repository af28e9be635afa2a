//! The topic of a picture where none is named.
ghost use Rattle.std.specs.Prelude.{◌≡◌};
ghost use Rattle.std.specs.Option.{option_copied};
ghost use Rattle.gs_picture.specs.Topics.{first_topic, subscribes_to};

use gs_base::Topic;
use gs_plan::{Act, Line};

/// Returns the first topic that the lines of a script subscribe to, in file order. Returns None where they subscribe to
/// none.
pub fn first_topic(script: &[Line]) -> Option<&Topic>
    ensures { option_copied result ≡ first_topic script.now }
{
    for line in script {
        if let Some(topic) = subscribes_to(&line.what) {
            return Some(topic);
        }
    }
    None
}

fn subscribes_to(act: &Act) -> Option<&Topic>
    ensures { option_copied result ≡ subscribes_to act.now }
{
    match act {
        Act::Subscribe(topic) => Some(topic),
        Act::Unsubscribe(_) => None,
        Act::Publish(_, _) => None,
        Act::Raw(_, _) => None,
        Act::HangUp(_) => None,
    }
}
