//! Processes with variables replaced by terms.
ghost use Rattle.std.specs.Prelude.{◌≡◌, false, IfOk};
ghost use Rattle.sap_terms.specs.Subst.{bound_to};
ghost use Rattle.sap_terms.specs.View.{tree};
ghost use Rattle.sap_process.specs.code.Headed.{headed, forked};
ghost use Rattle.sap_process.specs.Instance.{process_instance, without};
ghost use Rattle.sap_process.specs.Proc.{proc, lookup};

use crate::joining::{both, push_copy, unboxed};
use crate::replacing::{Replacing, ended, looking_up, over, over_both};
use crate::{Children, Process};
use sap_terms::{Bindings, Copied, Mem, Term, Var, subst};
use std::alloc::Global;

/// The process with each bound variable replaced by its term, in patterns too. Variables are known by their names. Below
/// `new x`, and in the first branch of `lookup M as x`, the variables named x are another's, and stay (the substitution of the
/// applied pi calculus of Abadi, Blanchet and Fournet). Names in the terms that are put in are not guarded against capture.
///
/// Want of memory is the only error. It recurses as deep as the process and its terms. Each variable costs a scan of the
/// bindings, of which a scope has at most `MOST_SCOPE_NAMES`; they are copied only where a name that they bind is bound again.
pub fn substitute(alloc: Global, p: &Process, b: &Bindings) -> Result<Process, Mem>
    ensures { IfOk result (λ q. proc q ≡ process_instance (bound_to b.now) (proc p.now)) }
{
    unboxed(replaced(alloc, p, b))
}

impl Replacing for Bindings {
    ghost choice = { bound_to };

    ghost bound = { λ b x. x };

    fn at(&self, alloc: Global, x: &Var) -> Result<Term, Mem> {
        let variable = Term::Var(x.copy(alloc)?);
        let made = subst(alloc, &variable, self);
        drop(variable);
        made
    }

    fn bound(&self, alloc: Global, x: &Var) -> Result<Var, Mem> {
        x.copy(alloc)
    }
}

// The process with the bound variables replaced, in a box.
#[cycle(replaced)]
pub(crate) fn replaced(alloc: Global, p: &Process, b: &Bindings) -> Result<Box<Process>, Mem>
    ensures { IfOk result (λ q. proc q.value ≡ process_instance (bound_to b.now) (proc p.now)) }
{
    match p {
        Process::Lookup(t, x, q, r) => replaced_lookup(alloc, t, x, q, r, b),
        Process::New(x, q) => replaced_name(alloc, p, x, q, b),
        _ => match p.children() {
            Children::Nothing => ended(alloc),
            Children::One(q) => replaced_over(alloc, p, q, b),
            Children::Two(q, r) => replaced_both(alloc, p, q, r, b),
        },
    }
}

// The head of the process over what follows it.
#[cycle(replaced)]
fn replaced_over(alloc: Global, p: &Process, q: &Process, b: &Bindings) -> Result<Box<Process>, Mem>
    ensures { IfOk result (λ made. proc made.value
        ≡ headed (bound_to b.now) (λ x. x) (proc p.now) (process_instance (bound_to b.now) (proc q.now))) }
{
    let below = replaced(alloc, q, b)?;
    over(alloc, b, p, below)
}

// The same of `new x`, below which the variables named x stay.
#[cycle(replaced)]
fn replaced_name(
    alloc: Global,
    p: &Process,
    x: &Var,
    q: &Process,
    b: &Bindings,
) -> Result<Box<Process>, Mem>
    ensures { IfOk result (λ made. proc made.value
        ≡ headed (bound_to b.now) (λ x. x) (proc p.now) (process_instance (without (bound_to b.now) x.now) (proc q.now))) }
{
    let below = replaced_below(alloc, q, x, b)?;
    over(alloc, b, p, below)
}

// The same of a head that two processes follow and that binds nothing.
#[cycle(replaced)]
fn replaced_both(
    alloc: Global,
    p: &Process,
    q: &Process,
    r: &Process,
    b: &Bindings,
) -> Result<Box<Process>, Mem>
    ensures { IfOk result (λ made. proc made.value ≡ forked (bound_to b.now) (proc p.now)
        (process_instance (bound_to b.now) (proc q.now)) (process_instance (bound_to b.now) (proc r.now))) }
{
    let (first, second) = both(replaced(alloc, q, b), replaced(alloc, r, b))?;
    over_both(alloc, b, p, first, second)
}

// The same of `lookup M as x`, in whose first branch the variables named x stay.
#[cycle(replaced)]
fn replaced_lookup(
    alloc: Global,
    t: &Term,
    x: &Var,
    p: &Process,
    q: &Process,
    b: &Bindings,
) -> Result<Box<Process>, Mem>
    ensures { IfOk result (λ made. proc made.value
        ≡ process_instance (bound_to b.now) (lookup (tree t.now) x.now (proc p.now) (proc q.now))) }
{
    let below = both(replaced_below(alloc, p, x, b), replaced(alloc, q, b));
    let (x, (first, second)) = both(x.copy(alloc), below)?;
    looking_up(alloc, b, t, x, first, second)
}

// What stands below the binder of x.
#[cycle(replaced)]
fn replaced_below(alloc: Global, p: &Process, x: &Var, b: &Bindings) -> Result<Box<Process>, Mem>
    ensures { IfOk result (λ q. proc q.value ≡ process_instance (without (bound_to b.now) x.now) (proc p.now)) }
{
    if !binds(b, x) {
        return replaced(alloc, p, b);
    }
    let rest = hiding(alloc, b, x)?;
    replaced(alloc, p, &rest)
}

// Whether the name of x is bound.
fn binds(b: &Bindings, x: &Var) -> bool
    ensures { result ≡ false → bound_to b.now ≡ without (bound_to b.now) x.now }
{
    for e in b.as_slice() {
        if x.name.same(&e.var.name) {
            return true;
        }
    }
    false
}

// The bindings of other names than that of x.
fn hiding(alloc: Global, b: &Bindings, x: &Var) -> Result<Bindings, Mem>
    ensures { IfOk result (λ r. bound_to r ≡ without (bound_to b.now) x.now) }
{
    let mut rest = Bindings::new(alloc);
    for e in b.as_slice() {
        if !x.name.same(&e.var.name) {
            push_copy(alloc, &mut rest, e)?;
        }
    }
    Ok(rest)
}
