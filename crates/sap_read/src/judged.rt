//! What is judged of a file whose processes are lent: its uses, its process, and its formulas.
ghost use Rattle.std.specs.Prelude.{◌≡◌, ℕ, List, [], Ok, Err, IfOk, OnOk, IsErrOf};
ghost use Rattle.sap_macro.specs.Order.{AreInOrder};
ghost use Rattle.sap_macro.specs.Sources.{definitions};
ghost use Rattle.sap_process.specs.Proc.{proc};
ghost use Rattle.sap_read.specs.FileExpansions.{IsFileExpansion};
ghost use Rattle.sap_read.specs.Files.{FileContent, IsRead};
ghost use Rattle.sap_read.specs.SaidFiles.{IsJudged, IsOfUses};
ghost use Rattle.sap_read.specs.WrittenFiles.{IsWrittenFile};
ghost use Rattle.sap_read.specs.declared.fault.ReadFault.{ReadFault};
ghost use Rattle.sap_read.specs.declared.fault.ReadFault.TheVariants.{Mem as OutOfMemory};

use crate::fault::ReadFault;
use crate::file::{check_formulas, judge};
use crate::written::WrittenFile;
use sap_process::Process;
use sap_uses::expand;
use std::alloc::Global;

/// The process of a file with its uses replaced, or the first cause of uses and limits that refuses it. What is written is lent, so that
/// it is there where the place of a cause is asked for. It takes time in proportion to what is written and, where there is no cause, to
/// the answer.
pub fn file_process(alloc: Global, file: &WrittenFile) -> Result<Box<Process>, ReadFault>
    requires { AreInOrder [] (definitions file.now.processes.definitions) }
    ensures process { IfOk result (λ p. IsFileExpansion file.now (proc p.value)) }
    ensures refused { (z : List ℕ) (e : ReadFault) → IsWrittenFile z file.now → IsErrOf result e
        → (e ≡ OutOfMemory → ⊥) → IsRead z (Err e) }
    ensures uses { (e : ReadFault) → IsErrOf result e → (e ≡ OutOfMemory → ⊥) → IsOfUses e }
{
    Ok(expand(
        alloc,
        &file.processes.definitions,
        &file.processes.main,
        &file.identifiers,
    )?)
}

/// Refuses a file for the first cause that is found in its process, whose uses are replaced, or in a formula; where there is none, it is
/// a file that is read. What is judged is lent.
pub fn check_written(alloc: Global, file: &WrittenFile, process: &Process) -> Result<(), ReadFault>
    requires { IsFileExpansion file.now (proc process.now) }
    ensures accepted { (z : List ℕ) → IsWrittenFile z file.now
        → OnOk result ((told : FileContent) × IsRead z (Ok told)) }
    ensures refused { (z : List ℕ) (e : ReadFault) → IsWrittenFile z file.now → IsErrOf result e
        → (e ≡ OutOfMemory → ⊥) → IsRead z (Err e) }
    ensures judged { (e : ReadFault) → IsErrOf result e → (e ≡ OutOfMemory → ⊥) → IsJudged e }
{
    let annotated = judge(alloc, &file.declared.signature, process)?;
    drop(annotated);
    let checked = check_formulas(alloc, &file.declared.signature, &file.statements)?;
    drop(checked);
    Ok(())
}
