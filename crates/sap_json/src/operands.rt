//! What stands behind the first word of a step.
use sap_terms::{Bindings, Name, Numbers};

/// What stands behind the first word in the array of a step.
#[derive(Drop)]
pub(crate) enum Operands {
    /// A number.
    Number(u64),
    /// Two numbers.
    Numbers(u64, u64),
    /// A number, and a fresh name by its number.
    NumberAndFresh(u64, u64),
    /// A fresh name by its number.
    Fresh(u64),
    /// A public name.
    Public(Name),
    /// A name, and numbers in an array.
    Applied(Name, Numbers),
    /// A number, numbers in an array, and bindings in an array.
    Embedded(u64, Numbers, Bindings),
    /// A name, numbers in an array, and bindings in an array.
    Named(Name, Numbers, Bindings),
}
