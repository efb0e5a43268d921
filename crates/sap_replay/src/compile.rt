//! From the bytes of a file to the text of its theory.

ghost use Rattle.std.specs.Prelude.{◌≡◌, ℕ, List, IfOk, IsErrOf};
ghost use Rattle.sap_read.specs.Files.{IsRunnable, told_by};
ghost use Rattle.sap_rule.specs.declared.theory.Theory.{Theory as TheoryOf};
ghost use Rattle.sap_theory.specs.TheoryText.{theory_text};
ghost use Rattle.sap_answer.specs.declared.refusal.Refusal.TheVariants as refusals;
ghost use Rattle.sap_replay.specs.AcceptedFile.{IsRefusal, IsCompiledTheory, IsTheoryOf};

use crate::reading::accepted_file;
use crate::way::Way;
use sap_gen::{shorten, theory_of};
use sap_read::{File, files_are_runnable};
use sap_refusals::Refusal;
use sap_rule::Theory;
use sap_terms::Mem;
use sap_text::Text;
use sap_theory::print;
use std::alloc::Global;

/// The text of the theory of these bytes, written in this way, or why they have none.
pub fn theory_text_of(alloc: Global, way: Way, bytes: &[u8]) -> Result<Text, Refusal>
    ensures given { IfOk result (IsTheoryOf way bytes.now) }
    ensures refused { (line : List ℕ) → IsErrOf result (refusals.Told line) → IsRefusal bytes.now line }
{
    files_are_runnable();
    let file = accepted_file(alloc, bytes)?;
    let text = text_of(alloc, way, &file)?;
    Ok(text)
}

/// The text of the theory of a file.
fn text_of(alloc: Global, way: Way, file: &File) -> Result<Text, Mem>
    requires { IsRunnable (told_by file.now) }
    ensures { IfOk result (λ text. (t : TheoryOf) × IsCompiledTheory way (told_by file.now) t × (text ≡ theory_text t)) }
{
    let theory = Box::new(alloc, theory_written(alloc, way, file)?)?;
    print(alloc, &theory)
}

/// The theory of a file.
fn theory_written(alloc: Global, way: Way, file: &File) -> Result<Theory, Mem>
    requires { IsRunnable (told_by file.now) }
    ensures { IfOk result (IsCompiledTheory way (told_by file.now)) }
{
    match way {
        Way::Plain => theory_of(alloc, file, false),
        Way::Inlined => theory_of(alloc, file, true),
        Way::Short => shorten(alloc, file),
    }
}
