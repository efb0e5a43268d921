//! Lines of rules, as a conversion writes them: the first, those that use a rule on facts, and the names of which Fr is made.
#![tactic(auto)]

mod head;
mod names;
mod rule_line;

pub use head::head_lines;
pub use names::{Names, names_of};
pub use rule_line::{later, push_rule, push_rule_on_one, push_rule_on_two};
