//! How an entry came to be known.
use sap_terms::{Name, Numbers};

/// How an entry came to be known, as contracts say it.
#[derive(Drop)]
pub enum Origin {
    /// A name that the adversary made, by its number.
    Name(u64),
    /// A public name.
    Public,
    /// A term that was sent.
    Output,
    /// A public symbol on the entries of these numbers.
    Apply(Name, Numbers),
}
