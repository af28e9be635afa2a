//! Tests of links, of the tasks of peers, and of whole runs. The prover proves a crate again with its own tests, so
//! these have a crate of their own.
#![tactic(auto)]

#[cfg(test)]
mod tests;
