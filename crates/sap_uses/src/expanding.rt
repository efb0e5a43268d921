//! Expansions, and why there is none.
ghost use Rattle.std.specs.Prelude.{◌≡◌, ◌≤◌, ℕ, List, [], IfOk, IsErrOf};
ghost use Rattle.sap_terms.specs.Signature.{Sig};
ghost use Rattle.sap_terms.specs.declared.limits.TheConstants.{MOST_PROCESS_LEVELS, MOST_PROCESS_PLACES};
ghost use Rattle.sap_process.specs.Proc.{level_count, node_count, proc};
ghost use Rattle.sap_macro.specs.Expansion.{expansion};
ghost use Rattle.sap_macro.specs.Order.{AreInOrder};
ghost use Rattle.sap_macro.specs.Sources.{definitions, written};
ghost use Rattle.sap_uses.specs.FaultCauses.{Holds, IsMacroCause};
ghost use Rattle.sap_uses.specs.code.Checked.{AreAbsent, IsCauseFrom};
ghost use Rattle.sap_uses.specs.declared.fault.MacroFault.{MacroFault as Fault};
ghost use Rattle.sap_uses.specs.declared.fault.MacroFault.TheVariants.{Mem as OutOfMemory};

use crate::counts::{first_other_count, first_parameter_twice};
use crate::fault::MacroFault;
use crate::flawed::first_flawed;
use crate::large::first_large;
use sap_macro::{DefinitionList, Source, build, expanded_size};
use sap_process::Process;
use sap_terms::{MOST_PROCESS_LEVELS, MOST_PROCESS_PLACES, NameList};
use std::alloc::Global;

// Looks for what stands twice, and for other numbers of arguments.
fn check_counts(alloc: Global, defs: &DefinitionList, main: &Source) -> Result<(), MacroFault>
    ensures fine { (g : Sig) → IfOk result (λ _. AreAbsent g (definitions defs.now) (written main.now) 1 3) }
    ensures refused { (g : Sig) (e : Fault) → IsErrOf result e → ¬ (e ≡ OutOfMemory)
        → IsCauseFrom g (definitions defs.now) (written main.now) 1 e }
{
    if let Some(name) = first_parameter_twice(alloc, defs)? {
        return Err(MacroFault::Parameters { name });
    }
    if let Some(name) = first_other_count(alloc, defs, main)? {
        return Err(MacroFault::Arguments { name });
    }
    Ok(())
}

// Looks how large the expansion is.
fn check_size(alloc: Global, defs: &DefinitionList, main: &Source) -> Result<(), MacroFault>
    requires { AreInOrder [] (definitions defs.now) }
    ensures small { (identifiers : List (List ℕ)) → IfOk result (λ _.
        (node_count (expansion (definitions defs.now) identifiers (written main.now)).process ≤ MOST_PROCESS_PLACES)
        × (level_count (expansion (definitions defs.now) identifiers (written main.now)).process ≤ MOST_PROCESS_LEVELS)) }
    ensures refused { (g : Sig) (e : Fault) → IsErrOf result e → ¬ (e ≡ OutOfMemory)
        → IsCauseFrom g (definitions defs.now) (written main.now) 3 e }
{
    let size = expanded_size(alloc, defs, main)?;
    if MOST_PROCESS_PLACES < size.nodes {
        return Err(MacroFault::TooMany);
    }
    if MOST_PROCESS_LEVELS < size.levels {
        return Err(MacroFault::TooDeep);
    }
    Ok(())
}

// Looks for large arguments, and for flawed bodies.
fn check_uses(alloc: Global, defs: &DefinitionList, main: &Source) -> Result<(), MacroFault>
    requires { AreInOrder [] (definitions defs.now) }
    ensures fine { (g : Sig) → IfOk result (λ _. AreAbsent g (definitions defs.now) (written main.now) 5 7) }
    ensures refused { (g : Sig) (e : Fault) → IsErrOf result e → ¬ (e ≡ OutOfMemory)
        → IsCauseFrom g (definitions defs.now) (written main.now) 5 e }
{
    if let Some(name) = first_large(alloc, defs, main)? {
        return Err(MacroFault::Large { name });
    }
    if let Some((name, which, path)) = first_flawed(alloc, defs, main)? {
        return Err(MacroFault::Flawed { name, which, path });
    }
    Ok(())
}

/// The expansion of the process behind these definitions, where these are the names of the file; or the first of the causes that
/// holds, in the order of `MacroFault`. Want of memory can come before any. Sizes are known before anything that grows with the
/// expansion is done, so it takes time in proportion to what is written and to the most places that an expansion may have.
pub fn expand(
    alloc: Global,
    defs: &DefinitionList,
    main: &Source,
    identifiers: &NameList,
) -> Result<Box<Process>, MacroFault>
    requires order { AreInOrder [] (definitions defs.now) }
    ensures expanded { IfOk result (λ p. proc p.value
        ≡ (expansion (definitions defs.now) identifiers.now (written main.now)).process) }
    ensures accepted { (g : Sig) → IfOk result (λ p. (e : Fault) → ¬ Holds g (definitions defs.now) (written main.now) e) }
    ensures small { IfOk result (λ p. (node_count (proc p.value) ≤ MOST_PROCESS_PLACES)
        × (level_count (proc p.value) ≤ MOST_PROCESS_LEVELS)) }
    ensures refused { (g : Sig) (e : Fault) → IsErrOf result e → ¬ (e ≡ OutOfMemory)
        → IsMacroCause g (definitions defs.now) (written main.now) e }
{
    check_counts(alloc, defs, main)?;
    check_size(alloc, defs, main)?;
    check_uses(alloc, defs, main)?;
    let made = build(alloc, defs, main, identifiers)?;
    Ok(made)
}
