//! Whether a trace shows what an atom says, and whether terms are one.
ghost use Rattle.std.specs.Prelude.{◌≡◌, IfOk, OnOk, map};
ghost use Rattle.std.specs.List.{list_any};
ghost use Rattle.sap_formula.specs.Truth.{facts_at};
ghost use Rattle.sap_match.specs.Matched.{agreed, fits_atom, is_there, time_at};
ghost use Rattle.sap_match.specs.View.{atom, held};
ghost use Rattle.sap_match.specs.code.Digests.{fact_in};
ghost use Rattle.sap_terms.specs.View.{tree};

use crate::agreeing::{Places, agree};
use crate::atom::{AtomPlan, Marks, Value};
use crate::digest::digest_of;
use crate::matching::{fits_each, time_in};
use crate::moment::{Moment, Moments, bucket_in};
use sap_terms::{Fact, FactList, Mem, Name, Term};

/// The time of a time variable, 0 where it has no slot.
pub fn time_at(values: &Vec<Value<'_>>, time: Option<u64>) -> u64
    ensures { result ≡ time_at time (map held values.now.items) }
{
    match time {
        Some(slot) => time_in(values, slot),
        None => 0,
    }
}

/// Whether the two terms are one. It recurses as deep as they are.
#[tactic(auto, using(crate::proofs::ShownFacts::equal_laws))]
pub fn are_equal<'a>(
    values: &mut Vec<Value<'a>>,
    s: &'a Term,
    t: &'a Term,
    left: &Marks,
    right: &Marks,
) -> Result<bool, Mem>
    ensures answer { IfOk result (λ b. b ≡ is_there (agreed (tree s.now) (tree t.now) (record { left = left.now; right = right.now }) (map held values.old.items))) }
    ensures same { OnOk result (values.new.items ≡ values.old.items) }
{
    let start = Places { left: 0, right: 0 };
    Ok(agree(values, left, right, start, s, t)?.is_some())
}

// Whether the fact has the name and fits the pattern. No slot stays filled.
#[tactic(auto, using(crate::proofs::ShownFacts::fact_laws))]
fn is_shown_by<'a>(
    values: &mut Vec<Value<'a>>,
    n: &Name,
    a: &AtomPlan<'a>,
    x: &'a Fact,
) -> Result<bool, Mem>
    ensures answer { IfOk result (λ b. b ≡ fits_atom n.now (atom a.now) (map held values.old.items) x.now) }
    ensures same { OnOk result (values.new.items ≡ values.old.items) }
{
    if !n.same(&x.name) {
        return Ok(false);
    }
    let count = values.len();
    let read = fits_each(values, &a.marks, 0, &*a.args, &x.args)?;
    values.truncate(count);
    Ok(read.is_some())
}

// Whether one of the facts is.
#[tactic(auto, using(crate::proofs::ShownFacts::any_laws))]
fn is_shown_among<'a>(
    values: &mut Vec<Value<'a>>,
    n: &Name,
    a: &AtomPlan<'a>,
    facts: &'a FactList,
) -> Result<bool, Mem>
    ensures answer { IfOk result (λ b. b ≡ list_any (fits_atom n.now (atom a.now) (map held values.old.items)) facts.now) }
    ensures same { OnOk result (values.new.items ≡ values.old.items) }
{
    for x in facts.as_slice() {
        if is_shown_by(values, n, a, x)? {
            return Ok(true);
        }
    }
    Ok(false)
}

// Whether one of the facts of this digest is.
#[tactic(auto, using(crate::proofs::ShownFacts::any_laws))]
fn is_shown_in<'a>(
    values: &mut Vec<Value<'a>>,
    n: &Name,
    a: &AtomPlan<'a>,
    facts: &'a [&'a Fact],
) -> Result<bool, Mem>
    ensures answer { IfOk result (λ b. b ≡ list_any (fits_atom n.now (atom a.now) (map held values.old.items)) (map fact_in facts.now)) }
    ensures same { OnOk result (values.new.items ≡ values.old.items) }
{
    for x in facts {
        if is_shown_by(values, n, a, *x)? {
            return Ok(true);
        }
    }
    Ok(false)
}

// Whether one of the facts of a time is. Where there are many, those of the atom's digest alone are tried.
fn is_shown_at<'a>(
    values: &mut Vec<Value<'a>>,
    n: &Name,
    a: &AtomPlan<'a>,
    moment: &'a Moment<'_>,
) -> Result<bool, Mem>
    ensures answer { IfOk result (λ b. b ≡ list_any (fits_atom n.now (atom a.now) (map held values.old.items)) moment.now) }
    ensures same { OnOk result (values.new.items ≡ values.old.items) }
{
    match moment.buckets() {
        Some(buckets) => match digest_of(values, n, a) {
            Some(digest) => is_shown_in(values, n, a, bucket_in(buckets, digest)),
            None => is_shown_among(values, n, a, moment.facts()),
        },
        None => is_shown_among(values, n, a, moment.facts()),
    }
}

/// Whether the trace shows the fact at the atom's time. No slot stays filled. It recurses as deep as the terms.
#[tactic(auto, using(crate::proofs::ShownFacts::time_laws))]
pub fn is_shown<'a>(
    trace: &'a Moments<'_>,
    values: &mut Vec<Value<'a>>,
    n: &Name,
    a: &AtomPlan<'a>,
) -> Result<bool, Mem>
    ensures answer { IfOk result (λ b. b ≡ list_any (fits_atom n.now (atom a.now) (map held values.old.items)) (facts_at trace.now (time_at a.now.time (map held values.old.items)))) }
    ensures same { OnOk result (values.new.items ≡ values.old.items) }
{
    match trace.get(time_at(values, a.time)) {
        Some(moment) => is_shown_at(values, n, a, moment),
        None => Ok(false),
    }
}
