//! Multiset rewrite rules, theories, and what it means that rules run.
#![tactic(auto)]

mod laws;
mod rule;
mod theory;
mod variables;
mod well_made;

pub use laws::{
    exact_steps_by_hand, exact_uses_by_hand, names_by_hand, owned_names_by_hand, runs_by_hand,
    runs_reach_messages, steps_by_hand, steps_keep_messages, taken_facts_are_messages,
};
pub use rule::{Rule, RuleList};
pub use theory::Theory;
pub use variables::open_vars;
pub use well_made::{is_rule_over, is_well_made, is_well_shaped};
