//! Scopes and open locks with what an action adds.
ghost use Rattle.std.specs.Prelude.{◌≡◌, ◌++◌, ◌∷◌, [], IfOk, codes, decimal, filter, not, nat_eq};
ghost use Rattle.sap_terms.specs.Variables.{tree_vars, facts_vars, is_known, new_vars};
ghost use Rattle.sap_terms.specs.View.{tree};
ghost use Rattle.sap_process.specs.Proc.{proc};
ghost use Rattle.sap_process.specs.Sites.{var_names};
ghost use Rattle.sap_process.specs.Scopes.{lock_var, with_new};
ghost use Rattle.sap_place.specs.code.Below.{head_locks, head_scope};

use sap_process::{Process, rule_vars};
use sap_terms::{Copied, FactList, Mem, Name, Numbers, Sort, Term, Var, Vars, push_vars};
use std::alloc::Global;

/// The scope with the variable, of this sort, last. Want of memory is the only error, as in all these.
pub fn with_var(alloc: Global, scope: &Vars, x: &Var, sort: Sort) -> Result<Vars, Mem>
    ensures { IfOk result (λ v. v ≡ scope.now ++ record { name = x.now.name; sort = sort } ∷ []) }
{
    let mut out = scope.copy(alloc)?;
    let name = x.name.copy(alloc)?;
    out.push(Var { name, sort })?;
    Ok(out)
}

/// The scope with the new variables of a pattern. It recurses as deep as the pattern.
pub fn with_pattern(alloc: Global, scope: &Vars, t: &Term) -> Result<Vars, Mem>
    ensures { IfOk result (λ v. v ≡ with_new scope.now (tree_vars (tree t.now))) }
{
    let mut vars = Vars::new(alloc);
    push_vars(alloc, t, &mut vars)?;
    with_new_of(alloc, scope, &vars)
}

/// The scope with the new variables of an embedded rule, the left side's first. It recurses as deep as the terms.
pub fn with_rule(
    alloc: Global,
    scope: &Vars,
    l: &FactList,
    e: &FactList,
    r: &FactList,
) -> Result<Vars, Mem>
    ensures { IfOk result (λ v. v ≡ with_new scope.now (facts_vars (l.now ++ (e.now ++ r.now)))) }
{
    let vars = rule_vars(alloc, l, e, r)?;
    with_new_of(alloc, scope, &vars)
}

fn with_new_of(alloc: Global, scope: &Vars, vars: &Vars) -> Result<Vars, Mem>
    ensures { IfOk result (λ v. v ≡ scope.now ++ new_vars (var_names scope.now) vars.now) }
{
    let mut out = scope.copy(alloc)?;
    for v in vars.as_slice() {
        if !knows(&out, &v.name) {
            out.push(v.copy(alloc)?)?;
        }
    }
    Ok(out)
}

fn knows(scope: &Vars, name: &Name) -> bool
    ensures { result ≡ is_known (var_names scope.now) name.now }
{
    for v in scope.as_slice() {
        if v.name.same(name) {
            return true;
        }
    }
    false
}

/// The scope with the variable of the lock of this label last.
pub fn with_lock(alloc: Global, scope: &Vars, label: u32) -> Result<Vars, Mem>
    ensures { IfOk result (λ v. v ≡ scope.now ++ lock_var label ∷ []) }
{
    let mut out = scope.copy(alloc)?;
    out.push(lock_var(alloc, label)?)?;
    Ok(out)
}

/// The variable of the lock of this label.
pub fn lock_var(alloc: Global, label: u32) -> Result<Var, Mem>
    ensures { IfOk result (λ v. v ≡ lock_var label) }
{
    let name = lock_name(alloc, label)?;
    Ok(Var {
        name,
        sort: Sort::Fresh,
    })
}

fn lock_name(alloc: Global, label: u32) -> Result<Name, Mem>
    ensures { IfOk result (λ n. n ≡ codes "sapic_lock" ++ decimal label) }
{
    let text = format!(in alloc; "sapic_lock{label}")?;
    Name::from_bytes(alloc, text.as_bytes())
}

// With the label last.
fn with_label(alloc: Global, locks: &Numbers, label: u32) -> Result<Numbers, Mem>
    ensures { IfOk result (λ ls. ls ≡ locks.now ++ label ∷ []) }
{
    let mut out = locks.copy(alloc)?;
    out.push(label as u64)?;
    Ok(out)
}

// Without the label.
fn without_label(alloc: Global, locks: &Numbers, label: u32) -> Result<Numbers, Mem>
    ensures { IfOk result (λ ls. ls ≡ filter (λ l. not (nat_eq l label)) locks.now) }
{
    let mut out = Numbers::new(alloc);
    for l in locks.as_slice() {
        if *l != label as u64 {
            out.push(*l)?;
        }
    }
    Ok(out)
}

// The scope behind the head of a process that one process follows.
pub(crate) fn with_head(alloc: Global, scope: &Vars, p: &Process) -> Result<Vars, Mem>
    ensures { IfOk result (λ v. v ≡ head_scope scope.now (proc p.now)) }
{
    match p {
        Process::New(x, _) => with_var(alloc, scope, x, Sort::Fresh),
        Process::In(t, _) | Process::Recv(_, t, _) => with_pattern(alloc, scope, t),
        Process::Embedded(l, e, r, _) => with_rule(alloc, scope, l, e, r),
        Process::Lock(_, n, _) => with_lock(alloc, scope, *n),
        _ => scope.copy(alloc),
    }
}

// The labels of the locks that are open behind it.
pub(crate) fn with_locks(alloc: Global, locks: &Numbers, p: &Process) -> Result<Numbers, Mem>
    ensures { IfOk result (λ ls. ls ≡ head_locks locks.now (proc p.now)) }
{
    match p {
        Process::Lock(_, n, _) => with_label(alloc, locks, *n),
        Process::Unlock(_, n, _) => without_label(alloc, locks, *n),
        _ => locks.copy(alloc),
    }
}
