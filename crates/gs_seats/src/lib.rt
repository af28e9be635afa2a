//! What each peer of a plan is given before a run: its neighbours, its lines, its router and its words. It also defines what
//! the report of a run says.
#![tactic(auto)]

mod fault;
mod followers;
mod joining;
mod known;
mod lines;
mod lists_by_peer;
mod neighbourhoods;
mod neighbours;
mod observer;
mod own;
mod routers;

pub use fault::NetFault;
pub use followers::{follower_of, traces_of_a_report_are_in_order, watcher_among};
pub use lines::lines_by_peer;
pub use lists_by_peer::{empty_lists, put_last, take_last, take_list};
pub use neighbourhoods::Neighbourhoods;
pub use neighbours::neighbours_of;
pub use observer::{Nobody, Observer};
pub use own::{Concerning, own_of};
pub use routers::{first_words, phase_of, router_of};
