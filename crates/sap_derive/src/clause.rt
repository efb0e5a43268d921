//! Clauses over numbers.
use crate::line::Line;

// A line over numbers of terms, and the number of the term that it gives.
#[derive(Drop)]
pub(crate) struct Clause {
    pub(crate) line: Line,
    pub(crate) gives: u64,
}
