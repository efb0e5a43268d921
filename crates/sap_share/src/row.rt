//! What a table keeps of a number, beside its node.
use sap_terms::Term;

/// The term of a number, the number of its normal form, and how many nodes it has, up to the greatest u64.
#[derive(Drop)]
pub(crate) struct Row {
    pub term: Term,
    pub form: u64,
    pub size: u64,
}
