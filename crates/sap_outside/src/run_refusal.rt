//! Why the bytes of a run are none.

/// Why the bytes of a run are none. Want of memory is no such cause.
#[derive(Clone, Copy)]
pub enum RunRefusal {
    /// They are more than a run may have.
    TooLong,
    /// The first line isn't the head of a run of the kind that is asked for.
    BadHead,
    /// This line, the head's being 1, is the first that is no step's.
    BadLine { line: u64 },
    /// Bytes follow as many steps as a run of this kind may have.
    TooManySteps { most: u64 },
}
