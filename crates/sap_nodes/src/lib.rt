//! Of which node of a head a flaw speaks.
#![tactic(auto)]

mod bound;
mod clash;
mod finding;
mod flawed;
mod full;
mod laws;
mod part;
mod signed;
mod site;
mod trail;
mod unbound;

pub use bound::rebound_node;
pub use clash::clash_node;
pub use finding::word_node;
pub use flawed::flaw_node;
pub use full::{Spoken, full_node};
pub use laws::{filled_by_hand, filled_scopes, nodes_by_hand, nodes_of_flaws};
pub use part::Part;
pub use signed::signed_node;
pub use site::node_at;
pub use unbound::unbound_node;
