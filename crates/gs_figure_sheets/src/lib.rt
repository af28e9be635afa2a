//! Figures of a run as sheets. They state how many subscribers each message reached, and in how many rounds. They state
//! what each peer heard and sent, what had no effect and why, its meshes and its scores. The same figures come by rounds, by
//! topics and by links. Another sheet states what passes from group to group.
#![tactic(auto)]

mod between;
mod choice;
mod columns;
mod concern;
mod figure;
mod figures;
mod found;
mod gathering;
mod groups;
mod inquiry;
mod known;
mod laws;
mod lines;
mod pages;
mod party;
mod reach;
mod received;
mod rows;
mod section;
mod sheets;
mod span;
mod standing;
mod wanted;

pub use choice::{Choice, chosen_by};
pub use columns::Column;
pub use concern::Concern;
pub use figure::Figure;
pub use figures::{Label, Line, PeerFigures, RowFigures};
pub use found::Found;
pub use gathering::Gathering;
pub use inquiry::Inquiry;
pub use known::Known;
pub use laws::{columns_of_a_table_have_headers_of_their_own, rows_have_a_value_for_each_column};
pub use party::Party;
pub use section::Section;
pub use standing::Standing;
pub use wanted::{Group, Layout, Subject, Wanted};
