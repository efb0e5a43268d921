//! The terms that rules of a place speak of.
ghost use Rattle.std.specs.Prelude.{◌≡◌, [], ◌∷◌, ◌++◌, IfOk, OnOk};
ghost use Rattle.sap_terms.specs.Equations.{app2, pair_name};
ghost use Rattle.sap_terms.specs.Tree.{variable};
ghost use Rattle.sap_terms.specs.View.{tree};
ghost use Rattle.sap_terms.specs.declared.var.Var.{Var as VarType};
ghost use Rattle.sap_process.specs.Proc.{proc};
ghost use Rattle.sap_place.specs.StateFacts.{tag};
ghost use Rattle.sap_outlines.specs.Outlines.{terms_at};
ghost use Rattle.sap_templates.specs.code.Made.{Makes};

use sap_place::{lock_var, tag};
use sap_process::Process;
use sap_terms::{Copied, Mem, Name, Sort, Term, TermList, Var};
use std::alloc::Global;

/// The terms of the place, in the order of their numbers.
pub fn terms_of(alloc: Global, p: &Process) -> Result<TermList, Mem>
    ensures { IfOk result (λ ts. ts ≡ terms_at (proc p.now)) }
{
    let mut terms = TermList::new(alloc);
    push_terms(alloc, p, &mut terms)?;
    Ok(terms)
}

// Puts them last.
fn push_terms(alloc: Global, p: &Process, terms: &mut TermList) -> Result<(), Mem>
    ensures { OnOk result (terms.new ≡ terms.old ++ terms_at (proc p.now)) }
{
    match p {
        Process::New(x, _) => push_var(sorted(alloc, x, Sort::Fresh), terms),
        Process::Out(t, _) | Process::In(t, _) | Process::Delete(t, _) => push_copy(
            alloc, t, terms,
        ),
        Process::Send(t, u, _) => push_sent(alloc, t, u, terms),
        Process::Recv(t, u, _) => push_received(alloc, t, u, terms),
        Process::If(t, u, _, _) | Process::Insert(t, u, _) => push_two(alloc, t, u, terms),
        Process::Lookup(t, x, _, _) => push_with(alloc, t, sorted(alloc, x, Sort::Msg), terms),
        Process::Lock(t, l, _) | Process::Unlock(t, l, _) => {
            push_with(alloc, t, lock_var(alloc, *l), terms)
        }
        _ => Ok(()),
    }
}

// The variable with this sort.
fn sorted(alloc: Global, x: &Var, sort: Sort) -> Result<Var, Mem>
    ensures { IfOk result (λ v. v ≡ record { name = x.now.name; sort = sort }) }
{
    let name = x.name.copy(alloc)?;
    Ok(Var { name, sort })
}

// Puts the variable last.
fn push_var(v: Result<Var, Mem>, terms: &mut TermList) -> Result<(), Mem>
    ensures { (x : VarType) → Makes v x → OnOk result (terms.new ≡ terms.old ++ variable x ∷ []) }
{
    terms.push(Term::Var(v?))
}

// Puts a copy of the term last.
fn push_copy(alloc: Global, t: &Term, terms: &mut TermList) -> Result<(), Mem>
    ensures { OnOk result (terms.new ≡ terms.old ++ tree t.now ∷ []) }
{
    terms.push(t.copy(alloc)?)
}

// A copy of the term, and the variable behind it.
fn push_with(alloc: Global, t: &Term, v: Result<Var, Mem>, terms: &mut TermList) -> Result<(), Mem>
    ensures { (x : VarType) → Makes v x
        → OnOk result (terms.new ≡ terms.old ++ tree t.now ∷ variable x ∷ []) }
{
    push_copy(alloc, t, terms)?;
    push_var(v, terms)
}

// Copies of two.
fn push_two(alloc: Global, t: &Term, u: &Term, terms: &mut TermList) -> Result<(), Mem>
    ensures { OnOk result (terms.new ≡ terms.old ++ tree t.now ∷ tree u.now ∷ []) }
{
    push_copy(alloc, t, terms)?;
    push_copy(alloc, u, terms)
}

// The channel, what is sent there, and the tag.
fn push_sent(alloc: Global, t: &Term, u: &Term, terms: &mut TermList) -> Result<(), Mem>
    ensures { OnOk result (terms.new
        ≡ terms.old ++ tree t.now ∷ tree u.now ∷ variable tag ∷ []) }
{
    push_two(alloc, t, u, terms)?;
    push_var(tag(alloc), terms)
}

// The same, and the pair of the first two.
fn push_received(alloc: Global, t: &Term, u: &Term, terms: &mut TermList) -> Result<(), Mem>
    ensures { OnOk result (terms.new ≡ terms.old
        ++ tree t.now ∷ tree u.now ∷ variable tag ∷ app2 pair_name (tree t.now) (tree u.now) ∷ []) }
{
    push_sent(alloc, t, u, terms)?;
    terms.push(pair(alloc, t, u)?)
}

// The pair of the two.
fn pair(alloc: Global, t: &Term, u: &Term) -> Result<Term, Mem>
    ensures { IfOk result (λ p. tree p ≡ app2 pair_name (tree t.now) (tree u.now)) }
{
    let mut args = TermList::new(alloc);
    push_two(alloc, t, u, &mut args)?;
    Ok(Term::App(Name::from_bytes(alloc, b"pair")?, args))
}
