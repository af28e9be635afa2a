//! A picture of a run: the mesh edges of a topic, the scores that some peers give each peer, and how many rounds each
//! accepted message took to reach those peers.
#![tactic(auto)]

mod chart;
mod circle;
mod courses;
mod discs;
mod edges;
mod frame;
mod laws;
mod legend;
mod pen;
mod picture;
mod pieces;
mod places;
mod table;
mod topic;

pub use laws::the_thick_line_is_of_all_thin_ones;
pub use picture::picture_svg;
pub use topic::first_topic;
