//! Rows of the layers below the program: what their calls answer on small inputs.
#![tactic(auto)]

mod copies;
mod derivations;
mod desk;
mod files;
mod formulas;
mod guards;
mod notation;
mod piles;
mod processes;
mod runs;
mod sharing;
mod short_runs;
mod show;
mod tables;
mod terms;
mod theories;
mod tokens;
mod undisturbed;

pub use desk::{Desk, empty_desk};
pub use tables::show_of_layers;
