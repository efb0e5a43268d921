//! Written steps of short runs of rules.
use sap_terms::{Bindings, Copied, Items, Mem, Name, Term};
use std::alloc::Global;

/// A written step of a short run of rules, as a prover shows it: no fact and no entry is cited, and the lines by which the adversary
/// comes to know what it gives are left out.
#[derive(Drop)]
pub enum ShortRuleStep {
    /// The rule of this name is used, or was used by now where it is one that may be left out; these of its variables stand for these
    /// terms, in any order.
    Rule(Name, Bindings),
    /// The adversary shows that it knows what this term is.
    Know(Term),
    /// It draws the fresh name with this number.
    Name(u64),
}

/// Steps of short runs of rules, in order.
pub type ShortRuleSteps = Items<ShortRuleStep>;

impl Copied for ShortRuleStep {
    fn copy(&self, alloc: Global) -> Result<ShortRuleStep, Mem> {
        match self {
            ShortRuleStep::Rule(name, bindings) => {
                let name = name.copy(alloc)?;
                Ok(ShortRuleStep::Rule(name, bindings.copy(alloc)?))
            }
            ShortRuleStep::Know(term) => Ok(ShortRuleStep::Know(term.copy(alloc)?)),
            ShortRuleStep::Name(n) => Ok(ShortRuleStep::Name(*n)),
        }
    }
}
