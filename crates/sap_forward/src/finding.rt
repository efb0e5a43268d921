// The line of a process by which a key is found to be set.
ghost use Rattle.std.specs.Prelude.{◌≡◌, [], ◌∷◌, IfOk, OnOk};
ghost use Rattle.std.specs.Option.{option_copied};
ghost use Rattle.sap_process.specs.Sites.{message_var};
ghost use Rattle.sap_forward.specs.code.Steps as spec;
ghost use Rattle.sap_forward.specs.code.Steps.{Finds};

use crate::desk::Desk;
use sap_lines::Form;
use sap_rule_lines::push_rule;
use sap_runs::RSteps;
use sap_terms::{Binding, Bindings, Copied, Mem, Numbers, Sort, Term, Var};
use std::alloc::Global;

// The variable that is bound where a key is set.
fn bound_var(form: &Form) -> Option<&Var>
    ensures { option_copied result ≡ spec.bound_var form.now }
{
    match form {
        Form::Lookup(_, var) => Some(var),
        _ => None,
    }
}

// The variable, for any message, bound to the term, alone.
fn bound(alloc: Global, var: &Var, term: Term) -> Result<Bindings, Mem>
    ensures { IfOk result (λ b. b ≡ record { var = message_var var.now; term = term } ∷ []) }
{
    let name = var.name.copy(alloc)?;
    let mut bindings = Bindings::new(alloc);
    bindings.push(Binding {
        var: Var {
            name,
            sort: Sort::Msg,
        },
        term,
    })?;
    Ok(bindings)
}

impl Desk {
    /// What is bound where a key is set: the variable of the place stands for the term that was found.
    pub(crate) fn bind(
        &mut self,
        alloc: Global,
        t: u64,
        found: Option<Term>,
        lines: &mut RSteps,
    ) -> Result<(), Mem>
        ensures { OnOk result (Finds self.old self.new t found lines.old lines.new) }
    {
        let Some(term) = found else {
            return Ok(());
        };
        let Some((seat, place)) = self.at(t) else {
            return Ok(());
        };
        let Some(var) = bound_var(&place.form) else {
            return Ok(());
        };
        let next = place.first;
        let bindings = bound(alloc, var, term)?;
        let mut facts = Numbers::new(alloc);
        facts.push(seat.number)?;
        push_rule(alloc, b"Found_", &seat.path, facts, bindings, lines)?;
        self.go(t, 1, next, 0)
    }
}
