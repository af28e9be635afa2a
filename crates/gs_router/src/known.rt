//! What a router reads to decide what it does.
use crate::setup::Setup;
use crate::tables::Tables;
use std::alloc::Global;

/// What a router reads to decide what it does: its setup, and what its tables say about its trace.
#[derive(Drop)]
pub struct Known {
    /// Where entries get their memory.
    pub alloc: Global,
    /// The parameters and the neighbours, which never change.
    pub setup: Setup,
    /// What the trace says, by look-up.
    pub tables: Tables,
}
