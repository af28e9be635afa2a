//! The links of all dials of a plan. They are opened before a run, and settled after it.
mod settlement;
mod wiring;

pub use settlement::settle_all;
pub use wiring::wire_all;
