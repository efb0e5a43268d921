//! What to write instead, where a file that is refused has what another tool's syntax has: rows of words and of bytes that stand round a
//! place, and for each a sentence.
#![tactic(auto)]

mod at_byte;
mod at_word;
mod byte_rows;
mod formula_rows;
mod item_rows;
mod laws;
mod process_rows;
mod test;
mod words;

pub use at_byte::byte_cure;
pub use at_word::word_cure;
pub use laws::{
    byte_cures_by_hand, formula_cures_by_hand, item_cures_by_hand, process_cures_by_hand,
};
pub use test::{ByteRow, Test, WordRow};
