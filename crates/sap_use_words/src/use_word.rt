//! Words of uses.
use sap_origin::FileWord;

/// The word of a file that is the name of a use, and those of the uses above it, by which one comes to it, the innermost first.
#[derive(Drop)]
pub struct UseWord {
    pub word: FileWord,
    pub above: Vec<FileWord>,
}
