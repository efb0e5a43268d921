//! Action atoms whose variables are slots.
use sap_terms::{Items, Term, TermList};

/// For each occurrence of a variable, from the left, its slot; none where the occurrence fills the next slot.
pub type Marks = Items<Option<u64>>;

/// An action atom: the arguments of its fact, and the slot of its time, none where it fills the next one.
#[derive(Drop)]
pub struct AtomPlan<'a> {
    pub args: &'a TermList,
    pub marks: Marks,
    pub time: Option<u64>,
}

/// What a slot holds.
#[derive(Clone, Copy)]
pub enum Value<'a> {
    Term(&'a Term),
    Time(u64),
}
