//! Nodes: terms one level deep, over numbers.
use sap_terms::{Name, Numbers};

/// A node of a term over the numbers of other nodes. Two are the same where their names and numbers are.
#[derive(PartialEq, Eq, Drop)]
pub enum Node {
    /// A name that everybody knows.
    Public(Name),
    /// A name that somebody made, by its number.
    Fresh(u64),
    /// A symbol on the nodes of these numbers.
    App(Name, Numbers),
}
