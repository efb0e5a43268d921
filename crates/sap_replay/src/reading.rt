//! Files that are read, or refused with the line that says why.

ghost use Rattle.std.specs.Prelude.{◌≤◌, ℕ, List, length, IfOk, IsErrOf};
ghost use Rattle.sap_read.specs.Files.{told_by};
ghost use Rattle.sap_answer.specs.declared.refusal.Refusal.TheVariants as refusals;
ghost use Rattle.sap_replay.specs.AcceptedFile.{most_bytes, IsAcceptedFile, IsRefusal};

use sap_read::{File, read_file_boxed};
use sap_refusals::{Refusal, file_line, long_file_line, told};
use std::alloc::Global;

/// How many bytes a file may have.
pub const MOST_BYTES: u64 = 1_048_576;

/// The file that these bytes are, unless they are too many or are read as none.
pub fn accepted_file(alloc: Global, bytes: &[u8]) -> Result<Box<File>, Refusal>
    ensures found { IfOk result (λ f. IsAcceptedFile bytes.now (told_by f.value)) }
    ensures refused { (line : List ℕ) → IsErrOf result (refusals.Told line) → IsRefusal bytes.now line }
{
    if bytes.len() as u64 > MOST_BYTES {
        Err(told(long_file_line(alloc)))
    } else {
        read(alloc, bytes)
    }
}

/// The file that the bytes are read as.
fn read(alloc: Global, bytes: &[u8]) -> Result<Box<File>, Refusal>
    requires { length bytes.now ≤ most_bytes }
    ensures found { IfOk result (λ f. IsAcceptedFile bytes.now (told_by f.value)) }
    ensures refused { (line : List ℕ) → IsErrOf result (refusals.Told line) → IsRefusal bytes.now line }
{
    match read_file_boxed(alloc, bytes) {
        Ok(file) => Ok(file),
        Err(fault) => Err(told(file_line(alloc, &fault))),
    }
}
