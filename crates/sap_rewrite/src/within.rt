//! Normal forms under a limit on their nodes.
ghost use Rattle.std.specs.Prelude.{◌≡◌, ◌<◌, ◌≤◌, IfOk, OnOk, OnErr, IsErrOf, map, min, true, false};
ghost use Rattle.sap_terms.specs.View.{tree};
ghost use Rattle.sap_terms.specs.Tree.{apply, node_count, trees_of, trees_count};
ghost use Rattle.sap_terms.specs.Equations.{equations};
ghost use Rattle.sap_terms.specs.Normal.{IsNormalForm};
ghost use Rattle.sap_rewrite.specs.code.Reduce.{nf, reduced};
ghost use Rattle.sap_rewrite.specs.code.Fit.{each_fits, all_fit};
ghost use Rattle.sap_rewrite.specs.Large.{HasLargeSubterm};

use crate::Cut;
use crate::reduce::{is_left_side, reduce};
use sap_terms::{Copied, Mem, Name, Signature, Term, TermList};
use std::alloc::Global;

// A term and how many nodes it has, up to the greatest u64.
#[derive(Drop)]
struct Counted {
    term: Term,
    nodes: u64,
}

// Terms and how many nodes they have together, up to the greatest u64.
#[derive(Drop)]
struct CountedList {
    terms: TermList,
    nodes: u64,
}

/// The normal form of a term, where none of a subterm, the whole term included, has more than `most` nodes; where one
/// has, `Large`. Each subterm's normal form is counted as soon as it stands, so that none is made of a larger one. It
/// recurses as deep as the term.
pub fn normal_within(alloc: Global, sig: &Signature, t: &Term, most: u64) -> Result<Term, Cut>
    requires { most < u64.MAX }
    ensures form { IfOk result (λ r. IsNormalForm (equations sig.now) (tree t.now) (tree r)) }
    ensures within { OnOk result (HasLargeSubterm (equations sig.now) most (tree t.now) → ⊥) }
    ensures large { IsErrOf result Cut.Large → HasLargeSubterm (equations sig.now) most (tree t.now) }
{
    match within_term(alloc, sig, t, most) {
        Ok(form) => Ok(form.term),
        Err(cut) => Err(cut),
    }
}

// The term, where it has no more nodes than the limit.
fn limited(c: Counted, most: u64) -> Result<Counted, Cut>
    ensures ok { IfOk result (λ r. r ≡ c) }
    ensures within { OnOk result (c.nodes ≤ most) }
    ensures large { OnErr result (most < c.nodes) }
{
    if c.nodes > most {
        return Err(Cut::Large);
    }
    Ok(c)
}

// The term, counted.
fn count_nodes(term: Term) -> Counted
    ensures term { result.term ≡ term }
    ensures nodes { result.nodes ≡ min (node_count (tree term)) u64.MAX }
{
    let nodes = term.nodes();
    Counted { term, nodes }
}

// What the equations make of a symbol on normal terms, counted anew.
fn made_counted(alloc: Global, sig: &Signature, f: &Name, terms: TermList) -> Result<Counted, Mem>
    ensures form { IfOk result (λ r. tree r.term ≡ reduced (equations sig.now) f.now (trees_of terms)) }
    ensures count { IfOk result (λ r. r.nodes ≡ min (node_count (tree r.term)) u64.MAX) }
{
    let term = reduce(alloc, sig, f, terms)?;
    Ok(count_nodes(term))
}

// A symbol on terms that are counted, counted.
fn symbol_counted(alloc: Global, f: &Name, terms: TermList, nodes: u64) -> Result<Counted, Mem>
    requires { nodes ≡ min (trees_count (trees_of terms)) u64.MAX }
    ensures form { IfOk result (λ r. tree r.term ≡ apply f.now (trees_of terms)) }
    ensures count { IfOk result (λ r. r.nodes ≡ min (node_count (tree r.term)) u64.MAX) }
{
    let head = f.copy(alloc)?;
    Ok(Counted {
        term: Term::App(head, terms),
        nodes: nodes.saturating_add(1),
    })
}

// The normal form of a symbol on normal terms, counted. Only what an equation leaves is counted anew.
fn reduce_counted(
    alloc: Global,
    sig: &Signature,
    f: &Name,
    parts: CountedList,
) -> Result<Counted, Mem>
    requires { parts.nodes ≡ min (trees_count (trees_of parts.terms)) u64.MAX }
    ensures form { IfOk result (λ r. tree r.term ≡ reduced (equations sig.now) f.now (trees_of parts.terms)) }
    ensures count { IfOk result (λ r. r.nodes ≡ min (node_count (tree r.term)) u64.MAX) }
{
    let CountedList { terms, nodes } = parts;
    if is_left_side(sig, f, &terms) {
        made_counted(alloc, sig, f, terms)
    } else {
        symbol_counted(alloc, f, terms, nodes)
    }
}

#[cycle(within)]
#[tactic(auto)]
fn within_term(alloc: Global, sig: &Signature, t: &Term, most: u64) -> Result<Counted, Cut>
    requires { most < u64.MAX }
    ensures form { IfOk result (λ r. tree r.term ≡ nf (equations sig.now) (tree t.now)) }
    ensures count { IfOk result (λ r. r.nodes ≡ min (node_count (nf (equations sig.now) (tree t.now))) u64.MAX) }
    ensures fits { OnOk result (each_fits (equations sig.now) most (tree t.now) ≡ true) }
    ensures large { IsErrOf result Cut.Large → each_fits (equations sig.now) most (tree t.now) ≡ false }
{
    match t {
        Term::App(f, args) => {
            let parts = within_all(alloc, sig, args, most)?;
            limited(reduce_counted(alloc, sig, f, parts)?, most)
        }
        leaf => {
            let term = leaf.copy(alloc)?;
            limited(Counted { term, nodes: 1 }, most)
        }
    }
}

#[cycle(within)]
#[tactic(auto)]
fn within_all(alloc: Global, sig: &Signature, ts: &TermList, most: u64) -> Result<CountedList, Cut>
    requires { most < u64.MAX }
    ensures forms { IfOk result (λ r. r.terms ≡ map (nf (equations sig.now)) ts.now) }
    ensures count { IfOk result (λ r. r.nodes ≡ min (trees_count (trees_of r.terms)) u64.MAX) }
    ensures fits { OnOk result (all_fit (equations sig.now) most (trees_of ts.now) ≡ true) }
    ensures large { IsErrOf result Cut.Large → all_fit (equations sig.now) most (trees_of ts.now) ≡ false }
{
    let mut terms = TermList::new(alloc);
    let mut nodes: u64 = 0;
    for k in 0..ts.len() {
        let form = within_term(alloc, sig, ts.at(k), most)?;
        nodes = nodes.saturating_add(form.nodes);
        terms.push(form.term)?;
    }
    Ok(CountedList { terms, nodes })
}
