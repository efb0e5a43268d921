//! What of a formula is left to test.

// How much of a formula is left to test where guards have matched.
#[derive(Clone, Copy)]
pub(crate) enum Extent {
    // All of it.
    Whole,
    // The body of an `All`, whose guards stand on the left of an implication.
    Body,
    // Conjuncts that are no guards.
    Rest,
}
