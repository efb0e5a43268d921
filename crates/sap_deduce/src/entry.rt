//! An entry of what the adversary knows.
use crate::stored::StoredOrigin;
use sap_terms::Term;

// A term, its number in the table, and how it came to be known.
#[derive(Drop)]
pub(crate) struct Entry {
    pub(crate) number: u64,
    pub(crate) term: Term,
    pub(crate) way: StoredOrigin,
}
