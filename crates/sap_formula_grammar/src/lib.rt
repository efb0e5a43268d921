//! Formulas as text: the grammar and its reader.
#![tactic(auto)]

mod formula;
mod laws;

pub use formula::{read_formula, read_short_formula};
pub use laws::{formulas_are_read, one_formula};
