//! Tests by the crates that they call.
mod cache;
mod ends;
mod net;
mod peer;
mod router;
mod texts;
mod traces;
mod workers;
