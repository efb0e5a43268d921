//! Matching: what a pattern is a term by.
ghost use Rattle.std.specs.Prelude.{◌≡◌, IfOk, MatchOption, Some, None, if◌then◌else◌, option_map};
ghost use Rattle.std.specs.Option.{option_copied};
ghost use Rattle.sap_terms.specs.View.{tree};
ghost use Rattle.sap_terms.specs.Tree.{trees_of};
ghost use Rattle.sap_terms.specs.Choice.{fits_sort};
ghost use Rattle.sap_rewrite.specs.Around.{HasNoFit, IsOnlyFit};
ghost use Rattle.sap_rewrite.specs.Match.{IsOnlyMatch, HasNoMatch};
ghost use Rattle.sap_rewrite.specs.code.Walk.{bound, match_variable, match_tree, match_trees, skipped};

use sap_terms::{Binding, Bindings, Copied, Mem, Name, Signature, Sort, Term, TermList, Var};
use std::alloc::Global;

/// The match of a pattern: the bindings b, and then a term for each of the pattern's variables that b doesn't bind, in
/// order of first occurrence, which turn the pattern into the term. None where there is no match. Terms are compared as
/// trees, so a pattern's subterms that a destructor heads are to be ground and normal, as t and the bound terms are.
/// It makes copies only of what is bound, and recurses as deep as the pattern.
pub fn match_pattern(
    alloc: Global,
    pattern: &Term,
    t: &Term,
    b: &Bindings,
) -> Result<Option<Bindings>, Mem>
    ensures { IfOk result (λ o. MatchOption o
        (HasNoMatch (tree pattern.now) (tree t.now) b.now)
        (λ c. IsOnlyMatch (tree pattern.now) (tree t.now) b.now c)) }
{
    let mut c = b.copy(alloc)?;
    if extend(alloc, None, pattern, t, &mut c)? {
        Ok(Some(c))
    } else {
        Ok(None)
    }
}

/// The match of a pattern around the subterms that a destructor of the signature heads: the bindings b, and then a term
/// for each of the pattern's variables outside these subterms that b doesn't bind, in order of first occurrence, which
/// turn the pattern outside them into the term. None where there is no such match. Whether the subterms that were left
/// out are equal to what stands in their places is for the caller to test, once all variables are bound. It makes
/// copies only of what is bound, and recurses as deep as the pattern.
pub fn match_around(
    alloc: Global,
    sig: &Signature,
    pattern: &Term,
    t: &Term,
    b: Bindings,
) -> Result<Option<Bindings>, Mem>
    ensures { IfOk result (λ o. MatchOption o
        (HasNoFit sig.now (tree pattern.now) (tree t.now) b)
        (λ c. IsOnlyFit sig.now (tree pattern.now) (tree t.now) b c)) }
{
    let mut c = b;
    if extend(alloc, Some(sig), pattern, t, &mut c)? {
        Ok(Some(c))
    } else {
        Ok(None)
    }
}

// Whether a variable of this sort may stand for the term.
pub(crate) fn fits(sort: Sort, t: &Term) -> bool
    ensures { result ≡ fits_sort sort (tree t.now) }
{
    match sort {
        Sort::Msg => true,
        Sort::Fresh => matches!(t, Term::Fresh(_)),
        Sort::Pub => matches!(t, Term::Public(_)),
    }
}

// The term that is bound to a name.
fn find_bound<'a>(b: &'a Bindings, name: &Name) -> Option<&'a Term>
    ensures { option_map tree (option_copied result) ≡ bound b.now name.now }
{
    for e in b.as_slice() {
        if e.var.name.same(name) {
            return Some(&e.term);
        }
    }
    None
}

// Binds the variable to the term; true where it is bound to it then.
fn extend_variable(alloc: Global, v: &Var, t: &Term, b: &mut Bindings) -> Result<bool, Mem>
    ensures { IfOk result (λ r. match_variable v.now (tree t.now) b.old (bound b.old v.now.name) ≡ (if r then Some b.new else None)) }
{
    match find_bound(b, &v.name) {
        Some(u) => Ok(u.same(t)),
        None => {
            if !fits(v.sort, t) {
                return Ok(false);
            }
            let var = v.copy(alloc)?;
            let term = t.copy(alloc)?;
            b.push(Binding { var, term })?;
            Ok(true)
        }
    }
}

// Whether the walk skips what the symbol heads: where a signature is given, its destructors.
fn skips(sig: Option<&Signature>, f: &Name) -> bool
    ensures { result ≡ skipped (option_copied sig.entry) f.now }
{
    match sig {
        Some(g) => g.is_destructor(f),
        None => false,
    }
}

// Binds the pattern's variables outside what is skipped; true where the pattern is turned into the term there then.
#[cycle(extend)]
#[tactic(auto, using(crate::proofs::ListLaws::list_laws))]
fn extend(
    alloc: Global,
    sig: Option<&Signature>,
    p: &Term,
    t: &Term,
    b: &mut Bindings,
) -> Result<bool, Mem>
    ensures { IfOk result (λ r. match_tree (skipped (option_copied sig.entry)) (tree p.now) (tree t.now) b.old ≡ (if r then Some b.new else None)) }
{
    match (p, t) {
        (Term::Var(v), _) => extend_variable(alloc, v, t, b),
        (Term::App(f, _), _) if skips(sig, f) => Ok(true),
        (Term::App(f, ps), Term::App(g, ts)) => {
            if !f.same(g) {
                return Ok(false);
            }
            extend_all(alloc, sig, ps, ts, b)
        }
        (Term::App(_, _), _) => Ok(false),
        (_, _) => Ok(p.same(t)),
    }
}

#[cycle(extend)]
#[tactic(auto, using(crate::proofs::ListLaws::list_laws))]
fn extend_all(
    alloc: Global,
    sig: Option<&Signature>,
    ps: &TermList,
    ts: &TermList,
    b: &mut Bindings,
) -> Result<bool, Mem>
    ensures { IfOk result (λ r. match_trees (skipped (option_copied sig.entry)) (trees_of ps.now) (trees_of ts.now) b.old ≡ (if r then Some b.new else None)) }
{
    if ps.len() != ts.len() {
        return Ok(false);
    }
    for k in 0..ps.len() {
        if !extend(alloc, sig, ps.at(k), ts.at(k), b)? {
            return Ok(false);
        }
    }
    Ok(true)
}
