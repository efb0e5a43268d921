//! Stretches of the bytes of a file: those of tokens, their line and column, and what is shown of them.
#![tactic(auto)]

mod laws;
mod line;
mod picture;
mod position;
mod stretch;

pub use laws::{one_place_text, positions_by_hand};
pub use line::{Line, line_behind, line_of};
pub use picture::{push_place, push_place_in};
pub use position::{Position, position_of};
pub use stretch::{Stretch, stretch_at};
