//! Runs of multiset rewrite rules, step by step.
#![tactic(auto)]

mod adversary;
mod cited;
mod evaluation;
mod fault;
mod firing;
mod laws;
mod pile;
mod prepared;
mod single;
mod state;
mod taking;
mod using;

pub use fault::RFault;
pub use laws::{
    inner_actions_by_hand, limit_excludes, lines_are_steps, lines_have_one_answer,
    lines_have_one_outcome, lines_have_some_answer, marks_by_hand, steps_have_lines,
};
pub use state::RuleState;
