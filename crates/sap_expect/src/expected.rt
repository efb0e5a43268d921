//! What is expected in place of a word with which no file goes on.

use crate::kind::WordKind;
use crate::nested::Nested;

/// What is expected in place of a wrong word.
#[derive(Drop)]
pub enum Expected {
    /// A word of one of these kinds.
    OneOf(Vec<WordKind>),
    /// Fewer levels of what is nested: by the words alone this one might stand.
    FewerLevels(Nested),
}
