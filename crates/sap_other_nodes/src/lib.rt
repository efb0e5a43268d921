//! Of the other place of a flaw or a lock, where it has two: which node of the process it is.
#![tactic(auto)]

mod fact_laws;
mod laws;
mod lock_laws;
mod other_binder;
mod other_fact;
mod other_lock;
mod seek;

pub use fact_laws::{other_facts, other_facts_by_hand};
pub use laws::{binders, binders_by_hand};
pub use lock_laws::{locks_over, locks_over_by_hand};
pub use other_binder::{Binder, OtherNode, binder_of_node};
pub use other_fact::{OtherFact, differing_fact};
pub use other_lock::open_lock;
