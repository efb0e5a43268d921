//! Formulas over traces, restrictions and lemmas: what it means that they are true, their check, and what judging them costs.
#![tactic(auto)]

mod binder;
mod checking;
mod empty_times;
mod fault;
mod formula;
mod guards;
mod laws;
mod lemma;
mod remaking;
mod restriction;
mod scope;
mod search;
mod sorting;
mod tuples;
mod visible;

pub use binder::{Binder, Binders};
pub use checking::check;
pub use empty_times::{empty_times_are_not_seen, empty_times_by_hand};
pub use fault::{FormulaFault, FormulaFlaw};
pub use formula::Formula;
pub use laws::{
    binders_are_found, checked_terms_are_normal, checks_by_hand, faultless_formulas_are_checked,
    hiding_keeps_truth, lemmas_by_hand, one_fault, some_fault, truth_by_hand,
    variables_range_over_subterms,
};
pub use lemma::{Lemma, LemmaList, Mode};
pub use remaking::both;
pub use restriction::{Restriction, RestrictionList};
pub use tuples::{CountsFacts, cost, cost_on};
pub use visible::hide;
