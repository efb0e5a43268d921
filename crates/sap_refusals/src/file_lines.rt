//! The lines that refuse files.

ghost use Rattle.std.specs.Prelude.{◌≡◌, codes, IfOk};
ghost use Rattle.sap_read.specs.declared.fault.ReadFault.TheVariants as faults;
ghost use Rattle.sap_refusals.specs.Refusals.{refused_line, fault_text};
ghost use Rattle.sap_refusals.specs.code.Words.{words_text};

use crate::fault_text::fault_words;
use crate::words::{Words, begun, ended, push_words};
use sap_read::ReadFault;
use sap_terms::Mem;
use sap_text::Text;
use std::alloc::Global;

/// The line that refuses a file of too many bytes.
pub fn long_file_line(alloc: Global) -> Result<Text, Mem>
    ensures { IfOk result (λ line. line ≡ refused_line (codes "longer than 1048576 bytes")) }
{
    begun(alloc, b"file refused: longer than 1048576 bytes\n")
}

/// The line that refuses a file for this fault. Want of memory refuses none, and so has no line.
pub fn file_line(alloc: Global, fault: &ReadFault) -> Result<Text, Mem>
    ensures { IfOk result (λ line. (fault.now ≡ faults.Mem → ⊥) × (line ≡ refused_line (fault_text fault.now))) }
{
    match fault_words(fault) {
        None => Err(Mem),
        Some(words) => line_of(alloc, &words),
    }
}

/// The line that refuses a file or a theory with these words.
pub fn line_of(alloc: Global, words: &Words) -> Result<Text, Mem>
    ensures { IfOk result (λ line. line ≡ refused_line (words_text words.now)) }
{
    let mut line = begun(alloc, b"file refused: ")?;
    let written = push_words(&mut line, words);
    ended(line, written)
}
