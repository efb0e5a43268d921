//! Digests of facts, and of atoms where slots hold what they hold.
ghost use Rattle.std.specs.Prelude.{◌≡◌, Some, IfSome, drop, map};
ghost use Rattle.sap_match.specs.code.Digests.{IsDigestOf, fact_digest, fed_by, fed_by_all};
ghost use Rattle.sap_match.specs.View.{atom, held};
ghost use Rattle.sap_terms.specs.Tree.{trees_of, variable};
ghost use Rattle.sap_terms.specs.View.{tree};

use crate::agreeing::next_term;
use crate::atom::{AtomPlan, Marks, Value};
use sap_terms::{Fact, Name, Term, TermList, Var};
use std::hash::{FoldHasher, Hash, Hasher};

// The digest of a fact's name and arguments.
pub(crate) fn fact_digest(x: &Fact) -> u64
    ensures { result ≡ fact_digest x.now }
{
    let mut state = FoldHasher::default();
    x.name.hash(&mut state);
    x.args.hash(&mut state);
    state.finish()
}

// Feeds the term of the next occurrence to the hasher; the place of the mark behind it.
fn feed_slot(
    values: &Vec<Value<'_>>,
    marks: &Marks,
    at: u64,
    v: &Var,
    state: &mut FoldHasher,
) -> Option<u64>
    ensures { IfSome result (λ next. fed_by (variable v.now) (drop at marks.now) (map held values.now.items) state.old ≡ Some (record { hasher = state.new; marks = drop next marks.now })) }
{
    match next_term(values, marks, at) {
        Some(t) => {
            t.hash(state);
            Some(at + 1)
        }
        None => None,
    }
}

// Feeds the term to the hasher, where variables are what their slots hold; the place of the next mark. None where a
// variable has no term.
#[cycle(feed)]
fn feed(
    values: &Vec<Value<'_>>,
    marks: &Marks,
    at: u64,
    p: &Term,
    state: &mut FoldHasher,
) -> Option<u64>
    ensures { IfSome result (λ next. fed_by (tree p.now) (drop at marks.now) (map held values.now.items) state.old ≡ Some (record { hasher = state.new; marks = drop next marks.now })) }
{
    match p {
        Term::Var(v) => feed_slot(values, marks, at, v, state),
        Term::App(f, ps) => {
            state.write_u8(3);
            f.hash(state);
            feed_each(values, marks, at, ps, state)
        }
        _ => {
            p.hash(state);
            Some(at)
        }
    }
}

// The same of these, one by one.
#[cycle(feed)]
#[tactic(auto, using(crate::proofs::Digests::feed_laws))]
fn feed_each(
    values: &Vec<Value<'_>>,
    marks: &Marks,
    at: u64,
    ps: &TermList,
    state: &mut FoldHasher,
) -> Option<u64>
    ensures { IfSome result (λ next. fed_by_all (trees_of ps.now) (drop at marks.now) (map held values.now.items) state.old ≡ Some (record { hasher = state.new; marks = drop next marks.now })) }
{
    let mut place = at;
    for k in 0..ps.len() {
        match feed(values, marks, place, ps.at(k), state) {
            Some(next) => place = next,
            None => return None,
        }
    }
    Some(place)
}

/// The digest that each fact has that fits the atom; none where a variable has no term.
pub(crate) fn digest_of(values: &Vec<Value<'_>>, n: &Name, a: &AtomPlan<'_>) -> Option<u64>
    ensures { IfSome result (λ d. IsDigestOf d n.now (atom a.now) (map held values.now.items)) }
{
    let mut state = FoldHasher::default();
    n.hash(&mut state);
    match feed_each(values, &a.marks, 0, &*a.args, &mut state) {
        Some(_) => Some(state.finish()),
        None => None,
    }
}
