//! Multiset rewrite rules.
use sap_terms::{Copied, FactList, Items, Mem, Name};
use std::alloc::Global;

/// A multiset rewrite rule: it takes the facts of its left side, shows its acts, and adds the facts of its right side.
#[derive(Drop)]
pub struct Rule {
    pub name: Name,
    pub left: FactList,
    pub acts: FactList,
    pub right: FactList,
}

impl Copied for Rule {
    fn copy(&self, alloc: Global) -> Result<Rule, Mem> {
        Ok(Rule {
            name: self.name.copy(alloc)?,
            left: self.left.copy(alloc)?,
            acts: self.acts.copy(alloc)?,
            right: self.right.copy(alloc)?,
        })
    }
}

/// Rules, in order.
pub type RuleList = Items<Rule>;
