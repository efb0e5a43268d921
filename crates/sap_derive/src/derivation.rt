//! Derivations that were found.
use crate::line::LineList;

/// Lines by which an adversary comes to know a term, and the number of the entry that the term is, old or new. Entries are
/// numbered from 0; a line's term is the entry behind those before it.
#[derive(Drop)]
pub struct Derivation {
    pub lines: LineList,
    pub entry: u64,
}
