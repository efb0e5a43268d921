//! Why uses of definitions can't be expanded: which argument is too large, and the causes in their order.
#![tactic(auto)]

mod body_flaw;
mod by_hand;
mod counts;
mod expanding;
mod fault;
mod flawed;
mod large;
mod laws;
mod met;
mod reached;
mod sizes;

pub use body_flaw::params_of;
pub use by_hand::{
    causes_by_hand, flawed_by_hand, kept_sizes_by_hand, large_by_hand, sizes_by_hand,
};
pub use counts::{count, counts_of, first_other_count, first_parameter_twice};
pub use expanding::expand;
pub use fault::MacroFault;
pub use flawed::first_flawed;
pub use large::first_large;
pub use laws::{
    accepted_definitions_are_closed, names_cost_their_bodies, one_macro_cause, some_macro_cause,
    unflawed_bodies_are_closed, unflawed_processes_are_closed,
};
pub use sizes::{Sizes, argument_sizes, has_large_argument};
