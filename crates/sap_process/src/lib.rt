//! Processes.
#![tactic(auto)]

mod binding;
mod by_hand;
mod checking;
mod copying;
mod embedded_rules;
mod flaw;
mod found;
mod heads;
mod joining;
mod laws;
mod met;
mod naming;
mod occurrences;
mod places;
mod process;
mod replacing;
mod scope;
mod scope_flaw;
mod sorting;
mod substituting;
mod walk;

pub use by_hand::{flaws_by_hand, instances_by_hand, places_by_hand, scopes_by_hand};
pub use checking::{well_formed, well_formed_boxed};
pub use embedded_rules::rule_vars;
pub use flaw::{Flaw, Ill};
pub use laws::{
    choices_are_bindings, exact_steps_by_hand, instances_of_processes, no_steps_by_hand,
    no_traces_by_hand, one_flaw, rule_traces_by_hand, runs_stay_ground, sites_are_the_places,
    some_flaw, sorting_keeps, steps_by_hand, traces_by_hand,
};
pub use places::{HandsDown, ScopeBelow, places_are_by_path, places_are_ordered};
pub use process::{Children, Process};
pub use replacing::{
    Deed, Replacing, Transfer, creating, embedding, ended, looking_up, over_term, over_terms,
    repeated, replaced_term, replaced_terms, showing, side_by_side, testing,
};
pub use scope_flaw::{first_scope_flaw, one_scope_flaw, scope_flaws_by_hand, some_scope_flaw};
pub use substituting::substitute;
