//! What the seven restrictions of a theory say, as shapes of formulas.
#![tactic(auto)]

mod formulas;
mod shape;

pub use formulas::{
    each_equal, each_found, each_lock, each_missed, each_served, each_unequal, one_start,
};
pub use shape::Shape;
