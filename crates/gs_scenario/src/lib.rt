//! Scenarios: the plan that a TOML text describes, or why the text is refused.
#![tactic(auto)]

mod fault;
mod reason;
mod scenario;

pub use fault::ScenarioFault;
pub use reason::{Found, NameKind, Wanted};
pub use scenario::{TableKind, read_plan};
