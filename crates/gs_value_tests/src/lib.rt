//! Tests of basic values, parameters, and the bytes of RPCs. The prover proves a crate again with its own tests, so
//! these have a crate of their own.
#![tactic(auto)]

#[cfg(test)]
mod tests;
