//! How long the names of a file's process may be.

/// The most bytes of a name in the process of a file: those of a name of the file, and, where it is new, `_` and a number below 2^64.
pub const MOST_NEW_NAME_BYTES: u64 = 85;
