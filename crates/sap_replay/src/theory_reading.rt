//! Theories that are read, or refused with the line that says why.

ghost use Rattle.std.specs.Prelude.{◌≤◌, ℕ, List, length, IfOk, IsErrOf};
ghost use Rattle.sap_answer.specs.declared.refusal.Refusal.TheVariants as refusals;
ghost use Rattle.sap_replay.specs.AcceptedTheory.{most_theory_bytes, IsAcceptedTheory};
ghost use Rattle.sap_replay.specs.AcceptedTheory.{IsTheoryRefusal};

use sap_outside::MOST_RUN_BYTES;
use sap_refusals::{Refusal, long_theory_line, theory_line, told};
use sap_rule::Theory;
use sap_terms::boxed;
use sap_theory::read_theory;
use std::alloc::Global;

/// How many bytes a theory may have.
pub const MOST_THEORY_BYTES: u64 = MOST_RUN_BYTES;

/// The theory that these bytes are, unless they are too many or are read as none.
pub fn accepted_theory(alloc: Global, bytes: &[u8]) -> Result<Box<Theory>, Refusal>
    ensures found { IfOk result (λ t. IsAcceptedTheory bytes.now t.value) }
    ensures refused { (line : List ℕ) → IsErrOf result (refusals.Told line) → IsTheoryRefusal bytes.now line }
{
    if bytes.len() as u64 > MOST_THEORY_BYTES {
        Err(told(long_theory_line(alloc)))
    } else {
        read(alloc, bytes)
    }
}

/// The theory that the bytes are read as.
fn read(alloc: Global, bytes: &[u8]) -> Result<Box<Theory>, Refusal>
    requires { length bytes.now ≤ most_theory_bytes }
    ensures found { IfOk result (λ t. IsAcceptedTheory bytes.now t.value) }
    ensures refused { (line : List ℕ) → IsErrOf result (refusals.Told line) → IsTheoryRefusal bytes.now line }
{
    match read_theory(alloc, bytes) {
        Ok(theory) => Ok(boxed(alloc, theory)?),
        Err(fault) => Err(told(theory_line(alloc, &fault))),
    }
}
