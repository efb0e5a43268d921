//! Whether a process is well formed, and with which sorts.
ghost use Rattle.std.specs.Prelude.{◌≡◌, ℕ, List, [], IfOk, IsErrOf};
ghost use Rattle.sap_process.specs.Proc.{proc};
ghost use Rattle.sap_process.specs.Flaws.{IsWellFormed, IsFirstFlaw};
ghost use Rattle.sap_process.specs.Ready.{IsReady};
ghost use Rattle.sap_process.specs.Sorted.{with_sorts};
ghost use Rattle.sap_process.specs.code.Walks.{AreRanked, IsCounted};
ghost use Rattle.sap_process.specs.declared.flaw.Flaw.{Flaw};
ghost use Rattle.sap_process.specs.declared.flaw.Ill.TheVariants.{At};

use crate::Process;
use crate::flaw::{Flaw, Ill};
use crate::scope::Scope;
use crate::sorting::sorted;
use crate::walk::first_flaw;
use sap_terms::{Mem, Path, Signature, Vars};
use std::alloc::Global;

/// The process with each variable carrying the sort of its binder, where it has no flaw; else the flaw that counts, with
/// the path of its place. `new` binds a fresh name and `lookup` any term; a pattern binds those of its names that are not in
/// scope, with the sort that the first occurrence has; an embedded rule binds the names of its left side and, on its other
/// sides, those that are first written `$x`.
///
/// It takes time in proportion to the process, in two passes, where names are looked up by hashing; it recurses as deep as the
/// process and its terms.
pub fn well_formed(alloc: Global, sig: &Signature, p: &Process) -> Result<Process, Ill>
    ensures sorted { IfOk result (λ q. proc q ≡ with_sorts [] (proc p.now)) }
    ensures sound { IfOk result (λ q. IsWellFormed sig.now (proc p.now)) }
    ensures well { IfOk result (λ q. IsReady sig.now (proc q)) }
    ensures flawed { (which : Flaw) (path : List ℕ) → IsErrOf result (At which path) → IsFirstFlaw sig.now (proc p.now) which path }
{
    Ok(Box::into_inner(well_formed_boxed(alloc, sig, p)?))
}

/// The same, in a box.
pub fn well_formed_boxed(alloc: Global, sig: &Signature, p: &Process) -> Result<Box<Process>, Ill>
    ensures sorted { IfOk result (λ q. proc q.value ≡ with_sorts [] (proc p.now)) }
    ensures sound { IfOk result (λ q. IsWellFormed sig.now (proc p.now)) }
    ensures well { IfOk result (λ q. IsReady sig.now (proc q.value)) }
    ensures flawed { (which : Flaw) (path : List ℕ) → IsErrOf result (At which path) → IsFirstFlaw sig.now (proc p.now) which path }
{
    let flaws = [
        Flaw::BadFunction,
        Flaw::ReservedVar,
        Flaw::ReservedFact,
        Flaw::FactClash,
        Flaw::PatternDestructor,
        Flaw::Unbound,
        Flaw::Rebound,
        Flaw::SortClash,
        Flaw::ScopeFull,
    ];
    match flaw_that_counts(alloc, sig, p, &flaws)? {
        Some((which, path)) => Err(Ill::At { which, path }),
        None => Ok(sorted_whole(alloc, p)?),
    }
}

// The process with the sorts of binders.
fn sorted_whole(alloc: Global, p: &Process) -> Result<Box<Process>, Mem>
    ensures { IfOk result (λ q. proc q.value ≡ with_sorts [] (proc p.now)) }
{
    let mut scope = Scope::new(alloc);
    sorted(alloc, &mut scope, p)
}

// The flaw that counts, with the path of its first place.
fn flaw_that_counts(
    alloc: Global,
    sig: &Signature,
    p: &Process,
    flaws: &[Flaw],
) -> Result<Option<(Flaw, Path)>, Mem>
    requires in_order { AreRanked 1 flaws.now }
    ensures { IfOk result (λ o. IsCounted sig.now (proc p.now) o) }
{
    let nothing = Vars::new(alloc);
    first_flaw(alloc, sig, &nothing, p, flaws)
}
