//! From which written nodes those of an expansion stem.
#![tactic(auto)]

mod laws;
mod making;
mod stem;

pub use laws::{
    likeness_by_hand, nodes_have_stems, stems_by_hand, ways_lead_to_written_places,
    written_nodes_by_hand,
};
pub use making::WrittenNode;
pub use stem::stem_in;
