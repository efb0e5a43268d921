//! Attacks as provers show them: short runs of rules, what their lines mean, and what is so of them.
#![tactic(auto)]

mod by_hand;
mod laws;
mod rule_fill_fault;
mod short_rule_step;

pub use by_hand::{lines_by_hand, refused_by_hand, settling_by_hand};
pub use laws::{given_messages_serve, one_short_rule_answer, pending_decides, settling_is_one};
pub use rule_fill_fault::RuleFillFault;
pub use short_rule_step::{ShortRuleStep, ShortRuleSteps};
