//! The binders round a part of a formula.
ghost use Rattle.std.specs.Prelude.{◌≡◌, ◌++◌, List, IfOk};
ghost use Rattle.std.specs.Option.{option_copied};
ghost use Rattle.sap_formula.specs.code.Scoped.{binders};
ghost use Rattle.sap_formula.specs.code.Tests.{binds_message, binds_time};
ghost use Rattle.sap_formula.specs.declared.binder.Binder.{Binder};
ghost use Rattle.sap_formula.specs.Checked.{enter, find_binder};

use crate::{Binder, Binders};
use sap_terms::{Copied, Mem, Name, Named, Sort, Var};
use std::alloc::Global;

// The quantifiers round a part of a formula, the innermost first. Each has its binders last to first.
#[derive(Clone, Copy)]
pub(crate) enum Scope<'a> {
    Outside,
    Inside(&'a Named<Binder>, &'a Scope<'a>),
}

// The binders of a quantifier, last to first, so that the first of a name is its last binder there.
pub(crate) fn entered(alloc: Global, bs: &Binders) -> Result<Named<Binder>, Mem>
    ensures { IfOk result (λ turned. (scope : List Binder) → enter bs.now scope ≡ turned ++ scope) }
{
    let mut turned = Named::new(alloc);
    let mut k = bs.len();
    while k > 0 {
        k -= 1;
        turned.push(bs.at(k).copy(alloc)?)?;
    }
    Ok(turned)
}

// The innermost binder of the name.
#[tactic(auto, using(crate::proofs::Firsts::scope_laws))]
pub(crate) fn find_binder<'a>(scope: &'a Scope<'a>, name: &Name) -> Option<&'a Binder>
    ensures { option_copied result ≡ find_binder (binders scope.now) name.now }
{
    match scope {
        Scope::Outside => None,
        Scope::Inside(inner, outer) => match inner.named(name) {
            Some(b) => Some(b),
            None => find_binder(outer, name),
        },
    }
}

// Whether the variable's innermost binder binds a message, and a sign of the variable is its sort.
pub(crate) fn binds_message(scope: &Scope<'_>, v: &Var) -> bool
    ensures { result ≡ binds_message (find_binder (binders scope.now) v.now.name) v.now.sort }
{
    match find_binder(scope, &v.name) {
        Some(Binder::Message(b)) => v.sort == Sort::Msg || v.sort == b.sort,
        _ => false,
    }
}

// Whether the name's innermost binder binds a time.
pub(crate) fn binds_time(scope: &Scope<'_>, n: &Name) -> bool
    ensures { result ≡ binds_time (find_binder (binders scope.now) n.now) }
{
    match find_binder(scope, n) {
        Some(Binder::Time(_)) => true,
        _ => false,
    }
}
