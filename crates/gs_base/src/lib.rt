//! Names of peers, topics and messages, neighbours, and the RPCs that gossipsub peers send each other. Contracts see lists
//! as their elements, and texts as their bytes.
#![tactic(auto)]

mod control;
mod exact;
mod mark;
mod names;
mod neighbour;
mod part;
mod rpc;
mod seq;
mod shared;
mod text;
mod verdict;

pub use control::{Control, Graft, IHave, IWant, Prune};
pub use exact::{ExactClone, clone_of, clone_option};
pub use mark::Mark;
pub use names::{LONGEST_TOPIC, MOST_TOPICS, Millis, MsgId, PeerNo, Topic, limits_of_topics};
pub use neighbour::Neighbour;
pub use part::{Part, SharedPart};
pub use rpc::{LONGEST_BACKOFF, MOST_IDENTIFIERS, Message, Rpc, SubOpt, limits_of_rpcs};
pub use seq::Seq;
pub use shared::Shared;
pub use text::Text;
pub use verdict::Verdict;
