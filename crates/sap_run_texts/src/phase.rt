//! How far a reader has come in a text.
use crate::RunFault;

/// How far a reader has come.
#[derive(Clone, Copy)]
pub enum Phase {
    /// Memory was wanting.
    Failed,
    /// The text has this fault, whatever follows.
    Faulty(RunFault),
    /// In the first line.
    Head,
    /// Behind the head of a run of a process.
    Process,
    /// Behind the head of a run of rules.
    Rules,
}
