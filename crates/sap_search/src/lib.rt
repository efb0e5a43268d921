//! Formulas made ready for a trace, and their test: a search through the facts that fit the guards of quantifiers; and the
//! choices that show what is claimed of them.
#![tactic(auto)]

mod claim;
mod explaining;
mod plan;
mod testing;

pub use claim::{Chosen, Claim, Slotted};
pub use explaining::reason_by;
pub use plan::{GuardPlan, Plan};
pub use testing::is_true;
