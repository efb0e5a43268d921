//! Terms put in for variables.
ghost use Rattle.std.specs.Prelude.{◌≡◌, IfOk, map};
ghost use Rattle.sap_terms.specs.Tree.{variable};
ghost use Rattle.sap_terms.specs.View.{tree};
ghost use Rattle.sap_terms.specs.Subst.{bound_to, subst_tree};

use crate::{Bindings, Copied, Mem, Term, TermList, Var};
use std::alloc::Global;

// The term that this variable's name is bound to first, else the variable, which is this term.
fn bound_to<'a>(b: &'a Bindings, v: &Var, t: &'a Term) -> &'a Term
    requires { tree t.now ≡ variable v.now }
    ensures { tree result.now ≡ bound_to b.now v.now }
{
    for e in b.as_slice() {
        if e.var.name.same(&v.name) {
            return &e.term;
        }
    }
    t
}

/// The term with each bound variable replaced by its term. Variables are known by their names.
/// It recurses as deep as the terms that it is given.
#[cycle(subst)]
#[tactic(auto, using(crate::proofs::PlainLaws::Trees::list_laws))]
pub fn subst(alloc: Global, t: &Term, b: &Bindings) -> Result<Term, Mem>
    ensures { IfOk result (λ r. tree r ≡ subst_tree b.now (tree t.now)) }
{
    match t {
        Term::Var(v) => bound_to(b, v, t).copy(alloc),
        Term::App(f, args) => {
            let name = f.copy(alloc)?;
            match subst_all(alloc, args, b) {
                Ok(args) => Ok(Term::App(name, args)),
                Err(e) => Err(e),
            }
        }
        _ => t.copy(alloc),
    }
}

#[cycle(subst)]
#[tactic(auto, using(crate::proofs::PlainLaws::Trees::list_laws))]
fn subst_all(alloc: Global, ts: &TermList, b: &Bindings) -> Result<TermList, Mem>
    ensures { IfOk result (λ r. r ≡ map (subst_tree b.now) ts.now) }
{
    let mut out = TermList::with_room(alloc, ts.len())?;
    for k in 0..ts.len() {
        match subst(alloc, ts.at(k), b) {
            Ok(t) => out.push(t)?,
            Err(e) => return Err(e),
        }
    }
    Ok(out)
}
