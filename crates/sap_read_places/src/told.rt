//! What is told of where a cause stands.
use sap_stretches::Stretch;
use sap_terms::Items;

/// Where a cause stands, and the names of the uses through which one comes there, the innermost first.
#[derive(Drop)]
pub struct Told {
    pub word: Stretch,
    pub uses: Items<Stretch>,
}
