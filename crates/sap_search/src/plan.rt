//! Formulas made ready for a trace: variables are slots, and guards have the facts of their names.
use sap_match::{AtomPlan, Marks, Sighted};
use sap_terms::{Items, Name, Term};

/// An action atom that is a guard, and the facts of its name.
#[derive(Drop)]
pub struct GuardPlan<'a> {
    pub atom: AtomPlan<'a>,
    pub facts: &'a [Sighted<'a>],
}

/// A formula made ready.
#[derive(Drop)]
pub enum Plan<'a> {
    Always(bool),
    /// An action atom that is no guard, with the name of its fact.
    Shows(&'a Name, AtomPlan<'a>),
    /// The terms are the same; with the marks of each.
    Equals(&'a Term, &'a Term, Marks, Marks),
    /// Two times are the same.
    AtOnce(Option<u64>, Option<u64>),
    /// The first time is before the second.
    Before(Option<u64>, Option<u64>),
    Not(Box<Plan<'a>>),
    And(Box<Plan<'a>>, Box<Plan<'a>>),
    Or(Box<Plan<'a>>, Box<Plan<'a>>),
    Imp(Box<Plan<'a>>, Box<Plan<'a>>),
    Iff(Box<Plan<'a>>, Box<Plan<'a>>),
    /// A quantifier: its answer is the truth value unless some choice of facts for its guards leads to the other.
    Search(bool, Items<GuardPlan<'a>>, Box<Plan<'a>>),
}
