//! Tests by the crates that they call.
mod base;
mod counters;
mod failing;
mod params;
mod standings;
mod streams;
mod tables;
mod wire;
