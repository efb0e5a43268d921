//! Variables in scope at a place, found by name.
ghost use Rattle.std.specs.Prelude.{◌≡◌, [], ◌∷◌, ◌++◌, length, take, drop, OnOk, option_map, not};
ghost use Rattle.std.specs.List.{list_any};
ghost use Rattle.sap_terms.specs.Same.{same_sort};
ghost use Rattle.sap_terms.specs.Variables.{is_known};
ghost use Rattle.sap_terms.specs.declared.var.Sort.TheVariants.{Pub};
ghost use Rattle.sap_process.specs.code.Binders.{with_new};
ghost use Rattle.sap_process.specs.Flaws.{binder_of};
ghost use Rattle.sap_process.specs.Sites.{var_names};

use sap_terms::{Copied, Mem, Name, Named, Sort, Var, Vars};
use std::alloc::Global;
use std::marker::Model;

// The variables in scope, in order of binding. The first one of a name is found without a pass over them.
#[derive(Drop)]
pub(crate) struct Scope {
    vars: Named<Var>,
}

impl Model for Scope {
    ghost use Rattle.std.specs.Prelude.{List};
    ghost use Rattle.sap_terms.specs.declared.var.Var.{Var};

    ghost Value = { List Var };

    ghost view = { λ a. a.vars };
}

impl Scope {
    // Nothing in scope. It takes no memory.
    pub(crate) fn new(alloc: Global) -> Scope
        ensures { result ≡ [] }
    {
        Scope {
            vars: Named::new(alloc),
        }
    }

    // The number of variables.
    pub(crate) fn len(&self) -> u64
        ensures { result ≡ length self.now }
    {
        self.vars.len()
    }

    // The sort of the name's binder.
    pub(crate) fn sort_of(&self, name: &Name) -> Option<Sort>
        ensures { result ≡ option_map (λ v. v.sort) (binder_of self.now name.now) }
    {
        match self.vars.named(name) {
            Some(v) => Some(v.sort),
            None => None,
        }
    }

    // Whether the name is in scope.
    pub(crate) fn knows(&self, name: &Name) -> bool
        ensures { result ≡ is_known (var_names self.now) name.now }
    {
        self.vars.named(name).is_some()
    }

    // Whether a variable from place `first` on, counted from 0, isn't `$x`.
    pub(crate) fn has_unsigned_from(&self, first: u64) -> bool
        ensures { result ≡ list_any (λ v. not (same_sort v.sort Pub)) (drop first self.now) }
    {
        let vars = self.vars.as_slice();
        for k in first..vars.len() as u64 {
            if vars[k as usize].sort != Sort::Pub {
                return true;
            }
        }
        false
    }

    // Binds the variable. Refused, the scope is as it was.
    pub(crate) fn push(&mut self, v: Var) -> Result<(), Mem>
        ensures { OnOk result (self.new ≡ self.old ++ v ∷ []) }
    {
        self.vars.push(v)
    }

    // Binds the variable, where its name isn't in scope.
    pub(crate) fn push_new(&mut self, alloc: Global, v: &Var) -> Result<(), Mem>
        ensures { OnOk result (self.new ≡ with_new self.old (v.now ∷ [])) }
    {
        if self.knows(&v.name) {
            return Ok(());
        }
        self.push(v.copy(alloc)?)
    }

    // Binds the variables.
    pub(crate) fn push_all(&mut self, alloc: Global, vars: &Vars) -> Result<(), Mem>
        ensures { OnOk result (self.new ≡ self.old ++ vars.now) }
    {
        for v in vars.as_slice() {
            self.push(v.copy(alloc)?)?;
        }
        Ok(())
    }

    // Leaves the first `len` variables in scope.
    pub(crate) fn cut(&mut self, len: u64)
        ensures { self.new ≡ take len self.old }
    {
        self.vars.cut(len);
    }
}
