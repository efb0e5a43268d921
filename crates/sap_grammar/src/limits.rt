//! What readers allow.

/// The limits that a text keeps to: those of a file, of a theory or of a run, whoever reads it passes its own.
#[derive(Clone, Copy, Debug, PartialEq, Eq)]
pub struct Limits {
    /// The longest name, quotes not counted, in bytes. Tokens are read by it.
    pub name_bytes: u64,
    /// The most levels of a term; a leaf has 1. Readers recurse a few calls for each.
    pub term_levels: u32,
    /// The most nodes of a term, where they are limited.
    pub term_nodes: Option<u32>,
    /// The most levels of the text of a formula; an atom has 1, and parentheses count. Readers recurse a few calls for each.
    pub formula_levels: u32,
}
