ghost use Rattle.std.specs.Prelude.{◌≡◌, ◌++◌, IfOk, OnOk, map};
ghost use Rattle.gs_base.specs.declared.names.PeerNo.{PeerNo as PeerNoValue};
ghost use Rattle.gs_rules.specs.Tables.{Entries};
ghost use Rattle.gs_rules.specs.Meshes.{mesh};
ghost use Rattle.gs_router.specs.Tables.{Agrees};
ghost use Rattle.gs_rules.specs.Results.{meshes_of};

use crate::log::Retention;
use crate::state::State;
use gs_base::{PeerNo, Seq, Topic, clone_of};
use std::alloc::AllocError;

impl<K: Retention> State<K> {
    /// Returns the members of the meshes of the router's own topics. Topics stand by their bytes, members by number.
    pub fn meshes(&self) -> Result<Seq<(Topic, PeerNo)>, AllocError>
        ensures { IfOk result (λ meshes. (L : Entries) → Agrees self.now.known.tables L → meshes ≡ meshes_of L) }
    {
        let topics = self.known.tables.topics.joined(self.known.alloc)?;
        let mut meshes = Seq::new(self.known.alloc);
        for topic in topics.as_slice() {
            self.list_members(&mut meshes, topic)?;
        }
        Ok(meshes)
    }

    fn list_members(
        &self,
        meshes: &mut Seq<(Topic, PeerNo)>,
        topic: &Topic,
    ) -> Result<(), AllocError>
        ensures { OnOk result ((L : Entries)
            → Agrees self.now.known.tables L
            → meshes.new ≡ meshes.old ++ map (λ (q : PeerNoValue). (topic.now, q)) (mesh L topic.now)) }
    {
        for member in self.known.tables.memberships.members(topic) {
            meshes.push((clone_of(topic)?, *member))?;
        }
        Ok(())
    }
}
