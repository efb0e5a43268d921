//! Equations between terms whose variables are slots.
ghost use Rattle.std.specs.Prelude.{◌≡◌, ◌<◌, IfOk, OnOk, IfSome, drop, length, map, option_map};
ghost use Rattle.std.specs.Option.{option_copied};
ghost use Rattle.sap_match.specs.View.{held};
ghost use Rattle.sap_match.specs.Matched.{agreed, agreed_all, agreed_left, agreed_leaf, agreed_right, matched, next_term};
ghost use Rattle.sap_match.specs.code.Reached.{left_marks, two_at};
ghost use Rattle.sap_terms.specs.Tree.{trees_of};
ghost use Rattle.sap_terms.specs.View.{tree};

use crate::atom::{Marks, Value};
use crate::matching::{fits, term_in};
use sap_terms::{Mem, Term, TermList};

// The places up to which the marks of two terms are read.
#[derive(Clone, Copy)]
pub(crate) struct Places {
    pub(crate) left: u64,
    pub(crate) right: u64,
}

// The place up to which marks are read, where the pattern fits the term. No slot stays filled.
#[tactic(auto, using(crate::proofs::Agreements::still_laws))]
fn fits_still<'a>(
    values: &mut Vec<Value<'a>>,
    marks: &Marks,
    at: u64,
    p: &Term,
    t: &'a Term,
) -> Result<Option<u64>, Mem>
    ensures read { IfOk result (λ o. option_map (λ k. drop k marks.now) o ≡ left_marks (matched (tree p.now) (tree t.now) (record { marks = drop at marks.now; held = map held values.old.items }))) }
    ensures same { OnOk result (values.new.items ≡ values.old.items) }
{
    let count = values.len();
    let read = fits(values, marks, at, p, t)?;
    values.truncate(count);
    Ok(read)
}

// The term of the next occurrence.
#[tactic(auto, using(crate::proofs::Agreements::next_laws))]
pub(crate) fn next_term<'a>(values: &Vec<Value<'a>>, marks: &Marks, at: u64) -> Option<&'a Term>
    ensures term { option_map tree (option_copied result) ≡ next_term (drop at marks.now) (map held values.now.items) }
    ensures within { IfSome result (λ _. at < length marks.now) }
    ensures fits { IfSome result (λ _. at < u64.MAX) }
{
    if at >= marks.len() {
        return None;
    }
    match *marks.at(at) {
        Some(slot) => term_in(values, slot),
        None => None,
    }
}

// Where the left term is a variable.
#[tactic(auto, using(crate::proofs::Agreements::left_laws))]
fn agree_left<'a>(
    values: &mut Vec<Value<'a>>,
    left: &Marks,
    right: &Marks,
    at: Places,
    t: &'a Term,
) -> Result<Option<Places>, Mem>
    ensures read { IfOk result (λ o. option_map (two_at left.now right.now) o ≡ agreed_left (tree t.now) (two_at left.now right.now at) (map held values.old.items)) }
    ensures same { OnOk result (values.new.items ≡ values.old.items) }
{
    match next_term(values, left, at.left) {
        None => Ok(None),
        Some(u) => match fits_still(values, right, at.right, t, u)? {
            None => Ok(None),
            Some(next) => Ok(Some(Places {
                left: at.left + 1,
                right: next,
            })),
        },
    }
}

// Where the right term is a variable, and the left isn't.
#[tactic(auto, using(crate::proofs::Agreements::right_laws))]
fn agree_right<'a>(
    values: &mut Vec<Value<'a>>,
    left: &Marks,
    right: &Marks,
    at: Places,
    s: &'a Term,
) -> Result<Option<Places>, Mem>
    ensures read { IfOk result (λ o. option_map (two_at left.now right.now) o ≡ agreed_right (tree s.now) (two_at left.now right.now at) (map held values.old.items)) }
    ensures same { OnOk result (values.new.items ≡ values.old.items) }
{
    match next_term(values, right, at.right) {
        None => Ok(None),
        Some(u) => match fits_still(values, left, at.left, s, u)? {
            None => Ok(None),
            Some(next) => Ok(Some(Places {
                left: next,
                right: at.right + 1,
            })),
        },
    }
}

// Where the left term is a leaf without a variable.
#[tactic(auto, using(crate::proofs::Agreements::leaf_laws))]
fn agree_leaf<'a>(
    values: &mut Vec<Value<'a>>,
    left: &Marks,
    right: &Marks,
    at: Places,
    s: &'a Term,
    t: &'a Term,
) -> Result<Option<Places>, Mem>
    ensures read { IfOk result (λ o. option_map (two_at left.now right.now) o ≡ agreed_leaf (tree s.now) (tree t.now) (two_at left.now right.now at) (map held values.old.items)) }
    ensures same { OnOk result (values.new.items ≡ values.old.items) }
{
    match fits_still(values, right, at.right, t, s)? {
        None => Ok(None),
        Some(next) => Ok(Some(Places {
            left: at.left,
            right: next,
        })),
    }
}

// The places up to which the marks are read, where the two terms are one once variables are what their slots hold.
#[cycle(agree)]
pub(crate) fn agree<'a>(
    values: &mut Vec<Value<'a>>,
    left: &Marks,
    right: &Marks,
    at: Places,
    s: &'a Term,
    t: &'a Term,
) -> Result<Option<Places>, Mem>
    ensures read { IfOk result (λ o. option_map (two_at left.now right.now) o ≡ agreed (tree s.now) (tree t.now) (two_at left.now right.now at) (map held values.old.items)) }
    ensures same { OnOk result (values.new.items ≡ values.old.items) }
{
    match s {
        Term::Var(_) => agree_left(values, left, right, at, t),
        Term::App(f, ss) => match t {
            Term::Var(_) => agree_right(values, left, right, at, s),
            Term::App(g, ts) => {
                if f.same(g) {
                    return agree_each(values, left, right, at, ss, ts);
                }
                Ok(None)
            }
            _ => Ok(None),
        },
        _ => agree_leaf(values, left, right, at, s, t),
    }
}

// The same of these, one by one.
#[cycle(agree)]
#[tactic(auto, using(crate::proofs::Agreements::each_laws))]
fn agree_each<'a>(
    values: &mut Vec<Value<'a>>,
    left: &Marks,
    right: &Marks,
    at: Places,
    ss: &'a TermList,
    ts: &'a TermList,
) -> Result<Option<Places>, Mem>
    ensures read { IfOk result (λ o. option_map (two_at left.now right.now) o ≡ agreed_all (trees_of ss.now) (trees_of ts.now) (two_at left.now right.now at) (map held values.old.items)) }
    ensures same { OnOk result (values.new.items ≡ values.old.items) }
{
    if ss.len() != ts.len() {
        return Ok(None);
    }
    let mut place = at;
    for k in 0..ss.len() {
        match agree(values, left, right, place, ss.at(k), ts.at(k))? {
            Some(next) => place = next,
            None => return Ok(None),
        }
    }
    Ok(Some(place))
}
