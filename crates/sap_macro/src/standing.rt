//! What stands for names while a process is expanded.
ghost use Rattle.std.specs.Prelude.{◌≡◌, IfOk, []};
ghost use Rattle.sap_macro.specs.UpToNames.{named};
ghost use Rattle.sap_macro.specs.code.Standings.{choice_of, name_of};

use sap_process::Replacing;
use sap_terms::{Copied, Mem, Name, NameMap, Term, Var};
use std::alloc::Global;

/// What stands for the names of a body: terms for its parameters, and new names for what it binds. Other names stay.
#[derive(Drop)]
pub(crate) struct Standing {
    pub(crate) terms: NameMap<Term>,
    pub(crate) names: NameMap<Name>,
}

/// What stands for names where nothing is put in.
pub(crate) fn nothing_put(alloc: Global) -> Standing
    ensures terms { result.terms ≡ [] }
    ensures names { result.names ≡ [] }
{
    Standing {
        terms: NameMap::new(alloc),
        names: NameMap::new(alloc),
    }
}

// The name that stands for this one.
fn name_in(alloc: Global, s: &Standing, x: &Name) -> Result<Name, Mem>
    ensures { IfOk result (λ y. y ≡ name_of s.now x.now) }
{
    match s.names.get(x) {
        Some(y) => y.copy(alloc),
        None => x.copy(alloc),
    }
}

/// What is bound in place of this variable.
pub(crate) fn bound_in(alloc: Global, s: &Standing, x: &Var) -> Result<Var, Mem>
    ensures { IfOk result (λ y. y ≡ named (name_of s.now x.now.name) x.now.sort) }
{
    let sort = x.sort;
    let name = name_in(alloc, s, &x.name)?;
    Ok(Var { name, sort })
}

impl Replacing for Standing {
    ghost choice = { choice_of };

    ghost bound = { λ s x. named (name_of s x.name) x.sort };

    // What stands for the variable.
    fn at(&self, alloc: Global, x: &Var) -> Result<Term, Mem> {
        match self.terms.get(&x.name) {
            Some(t) => t.copy(alloc),
            None => Ok(Term::Var(bound_in(alloc, self, x)?)),
        }
    }

    fn bound(&self, alloc: Global, x: &Var) -> Result<Var, Mem> {
        bound_in(alloc, self, x)
    }
}
