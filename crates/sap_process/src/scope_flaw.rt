//! Flaws that scope alone decides.
ghost use Rattle.std.specs.Prelude.{◌≡◌, ◌⊎◌, ℕ, List, [], ◌∷◌, IfOk, IfSome, IfNone};
ghost use Rattle.sap_terms.specs.Signature.{Sig};
ghost use Rattle.sap_terms.specs.Tree.{variable};
ghost use Rattle.sap_terms.specs.declared.var.Var.{Var};
ghost use Rattle.sap_process.specs.FlawExamples.{AreScopeFlawed, HaveNoScopeFlaw, giving, scope_flawed, scope_right};
ghost use Rattle.sap_process.specs.Flaws.{HasNoScopeFlaw, IsFirstScopeFlaw};
ghost use Rattle.sap_process.specs.Proc.{Proc, nil, proc};
ghost use Rattle.sap_process.specs.StepExamples.{fresh_x, public_x, var_x, x};
ghost use Rattle.sap_process.specs.declared.flaw.Flaw.{Flaw};
ghost use Rattle.sap_process.specs.declared.flaw.Flaw.TheVariants.{SortClash, Unbound};

use crate::walk::first_flaw;
use crate::{Flaw, Process};
use sap_terms::{Mem, Path, Signature, Vars};
use std::alloc::Global;

/// Of the flaws `Unbound`, `Rebound` and `SortClash` the one that counts, with the path of its first place, where these variables are
/// in scope at the root; of those that have one name the first binds it. Other flaws aren't looked at, and no signature is asked.
/// Want of memory is the only error.
pub fn first_scope_flaw(
    alloc: Global,
    scope: &Vars,
    p: &Process,
) -> Result<Option<(Flaw, Path)>, Mem>
    ensures found { (g : Sig) → IfOk result (λ o. IfSome o (λ f. IsFirstScopeFlaw g scope.now (proc p.now) f.0 f.1)) }
    ensures none { (g : Sig) → IfOk result (λ o. IfNone o (HasNoScopeFlaw g scope.now (proc p.now))) }
{
    let sig = Signature::new(alloc)?;
    let flaws = [Flaw::Unbound, Flaw::Rebound, Flaw::SortClash];
    first_flaw(alloc, &sig, scope, p, &flaws)
}

/// A law: whatever is in scope at its root, no place of a process has one of the three flaws, or one of them counts.
pub fn some_scope_flaw()
    ensures { (g : Sig) (scope : List Var) (p : Proc) → HasNoScopeFlaw g scope p
        ⊎ ((w : Flaw) × (path : List ℕ) × IsFirstScopeFlaw g scope p w path) }
{}

/// A law: one of the three flaws counts at most, at one place.
pub fn one_scope_flaw()
    ensures { (g : Sig) (scope : List Var) (p : Proc) (w v : Flaw) (path other : List ℕ) → IsFirstScopeFlaw g scope p w path
        → IsFirstScopeFlaw g scope p v other → (w ≡ v) × (path ≡ other) }
{}

/// A law: small processes where x is in scope as a plain variable, which binds it: a `new` or a look-up of that name binds it again,
/// and a sign clashes. Of the three flaws the first in their order counts, wherever it is, and of one flaw the first place. Other
/// flaws don't count: a function that isn't held, a reserved name, facts that clash, a pattern with a destructor, and more names than
/// may be in scope.
pub fn scope_flaws_by_hand()
    ensures flawed { (g : Sig) (w : Flaw) → AreScopeFlawed g (x ∷ []) w (scope_flawed w) }
    ensures near { (g : Sig) → HaveNoScopeFlaw g (x ∷ []) scope_right }
    ensures in_scope_alone { (g : Sig) → IsFirstScopeFlaw g [] (giving var_x nil) Unbound [] }
    ensures by_sort { (g : Sig) → IsFirstScopeFlaw g (fresh_x ∷ []) (giving (variable public_x) nil) SortClash [] }
{}
