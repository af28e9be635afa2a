//! A scenario with some keys changed: each key that an argument names is set to the argument's value.
#![tactic(auto)]

mod change;
mod edits;
mod keys;
mod laws;
mod nesting;
mod places;
mod program;
mod reasons;

pub use laws::{a_set_key_holds_its_value, other_keys_stay};
pub use program::run;
