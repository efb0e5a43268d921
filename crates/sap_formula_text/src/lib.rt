//! Formulas as they are printed.
#![tactic(auto)]

mod formulas;

pub use formulas::push_formula;
