//! What a term or a fact at the head of a process is for.

/// What a term or a fact at the head of a process is for.
#[derive(Clone, Copy, PartialEq, Eq)]
pub enum Part {
    /// An input has to fit it, or an embedded rule takes it.
    Pattern,
    /// An event or an embedded rule shows it.
    Shown,
    /// It is evaluated for anything else, or an embedded rule adds it.
    Given,
}
