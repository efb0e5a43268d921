//! The limits that readers, runs and theories keep to. Contracts cite them by these names, so that each stands once.

/// The most nodes of a term that a line of a run writes, and of each normal form that a step of a run evaluates, in nodes.
pub const MOST_TERM_NODES: u64 = 256;

/// The most levels of a term that a file, a theory or a run writes, in levels; a leaf has 1.
pub const MOST_TERM_LEVELS: u64 = 100;

/// The most names in scope at a place of a process, one more for each lock that is set above it, whether it was unlocked or
/// not, in names.
pub const MOST_SCOPE_NAMES: u64 = 64;

/// The longest name of a file, quotes not counted, in bytes.
pub const MOST_FILE_NAME_BYTES: u64 = 64;

/// The longest name of a theory and of a run, in bytes.
pub const MOST_THEORY_NAME_BYTES: u64 = 400;

/// The most levels of a process that a file writes, in levels; `0` has 1.
pub const MOST_PROCESS_LEVELS: u64 = 300;

/// The most places of a process that a file means, in places.
pub const MOST_PROCESS_PLACES: u64 = 4_000;

/// The greatest arity of a symbol that a file or a theory declares, in arguments.
pub const MOST_ARITY: u64 = 64;
