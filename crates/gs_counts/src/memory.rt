//! What is known about a peer after a part of its trace.
ghost use Rattle.std.specs.Prelude.{[], ◌∷◌, OnOk};
ghost use Rattle.gs_counts.specs.Memories.{Remembers};
ghost use Rattle.gs_rules.specs.Tables.{Entries};

use crate::meshes::Meshes;
use crate::verdicts::Verdicts;
use gs_rules::StoredEntry;
use std::alloc::{AllocError, Global};

/// What is known about a peer after a part of its trace. These are the topics that it is subscribed to, the members of their
/// meshes, and the messages that it ignored.
#[derive(Drop)]
pub(crate) struct Memory {
    pub meshes: Meshes,
    pub verdicts: Verdicts,
}

impl Memory {
    /// What is known before the first entry.
    pub(crate) fn new(alloc: Global) -> Memory
        ensures { Remembers result [] }
    {
        Memory {
            meshes: Meshes::new(alloc),
            verdicts: Verdicts::new(alloc),
        }
    }

    /// Notes what one more entry says.
    pub(crate) fn note(&mut self, entry: &StoredEntry) -> Result<(), AllocError>
        ensures { OnOk result ((L : Entries) → Remembers self.old L → Remembers self.new (entry.now ∷ L)) }
    {
        self.meshes.note(entry)?;
        self.verdicts.note_marks(entry.marks())
    }
}
