//! What is told of a file that is refused: where its cause stands, what is shown of that, and what to change.
#![tactic(auto)]

mod advice;
mod cure;
mod expected_told;
mod explain;
mod laws;
mod lock_told;
mod other_told;
mod told;

pub use advice::length_advice;
pub use explain::push_explanation;
pub use laws::{
    causes_with_other_places, causes_with_places, explanations_by_hand, one_explanation,
    one_other_place, one_place,
};
pub use other_told::other_place_of;
pub use sap_read_places::Reached;
pub use told::place_of;
