//! Normal forms of terms, and equality under equations.
ghost use Rattle.std.specs.Prelude.{◌≡◌, ◌↔◌, IsTrue, IfOk, map};
ghost use Rattle.sap_terms.specs.View.{tree};
ghost use Rattle.sap_terms.specs.Equations.{equations};
ghost use Rattle.sap_terms.specs.Equal.{IsTheoryEqual};
ghost use Rattle.sap_terms.specs.Normal.{IsNormalForm};
ghost use Rattle.sap_rewrite.specs.code.Reduce.{nf};

use crate::reduce::reduce;
use sap_terms::{Copied, Mem, Signature, Term, TermList};
use std::alloc::Global;

/// The normal form of a term under a signature's equations, which are used from left to right. It looks at each
/// subterm once, in time linear in the term where no keys and messages have to be compared, and recurses as deep as
/// the term.
pub fn normal(alloc: Global, sig: &Signature, t: &Term) -> Result<Term, Mem>
    ensures { IfOk result (λ r. IsNormalForm (equations sig.now) (tree t.now) (tree r)) }
{
    normal_term(alloc, sig, t)
}

#[cycle(normal)]
#[tactic(auto, using(crate::proofs::ListLaws::list_laws))]
fn normal_term(alloc: Global, sig: &Signature, t: &Term) -> Result<Term, Mem>
    ensures { IfOk result (λ r. tree r ≡ nf (equations sig.now) (tree t.now)) }
{
    match t {
        Term::Var(v) => Ok(Term::Var(v.copy(alloc)?)),
        Term::Public(n) => Ok(Term::Public(n.copy(alloc)?)),
        Term::Fresh(k) => Ok(Term::Fresh(*k)),
        Term::App(f, args) => {
            let parts = normal_all(alloc, sig, args)?;
            reduce(alloc, sig, f, parts)
        }
    }
}

#[cycle(normal)]
#[tactic(auto, using(crate::proofs::ListLaws::list_laws))]
fn normal_all(alloc: Global, sig: &Signature, ts: &TermList) -> Result<TermList, Mem>
    ensures { IfOk result (λ r. r ≡ map (nf (equations sig.now)) ts.now) }
{
    let mut out = TermList::new(alloc);
    for k in 0..ts.len() {
        out.push(normal_term(alloc, sig, ts.at(k))?)?;
    }
    Ok(out)
}

/// Whether a signature's equations make the two terms equal. It recurses as deep as the terms that it is given.
pub fn same_modulo(alloc: Global, sig: &Signature, a: &Term, b: &Term) -> Result<bool, Mem>
    ensures { IfOk result (λ r. IsTrue r ↔ IsTheoryEqual (equations sig.now) (tree a.now) (tree b.now)) }
{
    let x = normal(alloc, sig, a)?;
    let y = normal(alloc, sig, b)?;
    Ok(x.same(&y))
}
