//! The meshes and fanouts of topics, and the neighbours that may not be grafted yet (gossipsub v1.0, "Router State"; v1.1,
//! "Prune Backoff").
#![tactic(auto)]

mod backoffs;
mod condition;
mod cut;
mod heartbeat;
mod members;
mod meshes;
mod peer_list;
mod topic_mesh;

pub use backoffs::Backoffs;
pub use condition::Condition;
pub use cut::a_cut_by_words_is_a_cut;
pub use heartbeat::{Heartbeat, MeshChange, a_choice_by_words_is_a_mesh_step, choose_heartbeat};
pub use members::Member;
pub use meshes::Meshes;
pub use peer_list::PeerList;
pub use topic_mesh::TopicMesh;
