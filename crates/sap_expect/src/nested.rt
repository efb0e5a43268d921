//! What has levels.

/// What a file has in levels, each with a limit of its own: terms, processes and formulas.
#[derive(Clone, Copy)]
pub enum Nested {
    /// A term, which has at most 100.
    Term,
    /// A process, which has at most 300.
    Process,
    /// A formula, which has at most 100.
    Formula,
}
