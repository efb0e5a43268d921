//! Words of a line.
use sap_terms::{Binding, Name};

/// A word of a line.
#[derive(Drop)]
pub(crate) enum WrittenWord {
    /// An identifier.
    Identifier(Name),
    /// A number.
    Number(u64),
    /// A fresh name by its number.
    Fresh(u64),
    /// A public name.
    Public(Name),
    /// A variable with the term that stands for it.
    Bound(Binding),
}
