//! What is kept of a name that was drawn.
use sap_terms::Name;

/// The word of a name, and which one of that word it is, from 1.
#[derive(Drop)]
pub(crate) struct Drawn {
    pub word: Name,
    pub which: u64,
}
