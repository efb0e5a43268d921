//! The test of a formula made ready: its search through the facts that fit its guards.
ghost use Rattle.std.specs.Prelude.{◌≡◌, ◌<◌, [], IfOk, OnOk, drop, length, map};
ghost use Rattle.sap_match.specs.Matched.{StaysInFront};
ghost use Rattle.sap_match.specs.View.{held, sight};
ghost use Rattle.sap_search.specs.Planned.{any_or_all, planned, searched};
ghost use Rattle.sap_search.specs.View.{guard, plan};
ghost use Rattle.sap_search.specs.code.Chosen.{IsOnlyMet, chosen};
ghost use Rattle.sap_search.specs.code.Connectives.{joined, last_of, settled};

use crate::plan::{GuardPlan, Plan};
use sap_match::{Moments, Sighted, Value, are_equal, is_shown, meets, time_at};
use sap_terms::{Items, Mem};
use std::alloc::Global;

// How two formulas are joined.
#[derive(Clone, Copy)]
enum Connective {
    And,
    Or,
    Imp,
    Iff,
}

// The answer that the first of the two settles.
fn settled(how: Connective, first: bool) -> Option<bool>
    ensures { result ≡ settled how first }
{
    match (how, first) {
        (Connective::And, false) => Some(false),
        (Connective::Or, true) => Some(true),
        (Connective::Imp, false) => Some(true),
        _ => None,
    }
}

// The answer where it doesn't.
fn last_of(how: Connective, first: bool, second: bool) -> bool
    ensures { result ≡ last_of how first second }
{
    match how {
        Connective::Iff => first == second,
        _ => second,
    }
}

/// Whether the formula made ready is true on the trace, before any slot is filled. Want of memory for the slots is the only
/// error. It recurses as deep as the formula is nested, terms included, and with each guard whose name has two facts or more.
pub fn is_true<'a>(alloc: Global, trace: &'a Moments<'_>, p: &Plan<'a>) -> Result<bool, Mem>
    ensures { IfOk result (λ b. b ≡ planned trace.now (plan p.now) []) }
{
    let mut values = Vec::new(alloc);
    test(trace, p, &mut values)
}

// Whether the formula is true where slots hold what they hold.
#[cycle(tested)]
#[tactic(auto, using(crate::proofs::SearchSteps::test_laws))]
pub(crate) fn test<'a>(
    trace: &'a Moments<'_>,
    p: &Plan<'a>,
    values: &mut Vec<Value<'a>>,
) -> Result<bool, Mem>
    ensures answer { IfOk result (λ b. b ≡ planned trace.now (plan p.now) (map held values.old.items)) }
    ensures same { OnOk result (values.new.items ≡ values.old.items) }
{
    match p {
        Plan::Always(b) => Ok(*b),
        Plan::Shows(n, a) => is_shown(trace, values, &**n, a),
        Plan::Equals(s, t, left, right) => are_equal(values, &**s, &**t, left, right),
        Plan::AtOnce(i, j) => Ok(time_at(values, *i) == time_at(values, *j)),
        Plan::Before(i, j) => Ok(time_at(values, *i) < time_at(values, *j)),
        Plan::Not(q) => Ok(!test(trace, q, values)?),
        Plan::And(q, r) => joined(trace, Connective::And, q, r, values),
        Plan::Or(q, r) => joined(trace, Connective::Or, q, r, values),
        Plan::Imp(q, r) => joined(trace, Connective::Imp, q, r, values),
        Plan::Iff(q, r) => joined(trace, Connective::Iff, q, r, values),
        Plan::Search(d, guards, body) => search(trace, *d, guards, 0, body, values),
    }
}

// The two, joined. The second isn't tested where the first settles the answer.
#[cycle(tested)]
#[tactic(auto, using(crate::proofs::SearchSteps::connective_laws))]
fn joined<'a>(
    trace: &'a Moments<'_>,
    how: Connective,
    p: &Plan<'a>,
    q: &Plan<'a>,
    values: &mut Vec<Value<'a>>,
) -> Result<bool, Mem>
    ensures answer { IfOk result (λ b. b ≡ joined how (planned trace.now (plan p.now) (map held values.old.items)) (planned trace.now (plan q.now) (map held values.old.items))) }
    ensures same { OnOk result (values.new.items ≡ values.old.items) }
{
    let first = test(trace, p, values)?;
    match settled(how, first) {
        Some(b) => Ok(b),
        None => Ok(last_of(how, first, test(trace, q, values)?)),
    }
}

// The answer of a quantifier, from this guard on. No slot stays filled.
#[cycle(tested)]
#[tactic(auto, using(crate::proofs::SearchSteps::search_laws))]
fn search<'a>(
    trace: &'a Moments<'_>,
    d: bool,
    guards: &Items<GuardPlan<'a>>,
    from: u64,
    body: &Plan<'a>,
    values: &mut Vec<Value<'a>>,
) -> Result<bool, Mem>
    ensures answer { IfOk result (λ b. b ≡ searched d (map guard (drop from guards.now)) (map held values.old.items) (planned trace.now (plan body.now))) }
    ensures same { OnOk result (values.new.items ≡ values.old.items) }
{
    let count = values.len();
    let answer = pass(trace, d, guards, from, body, values)?;
    values.truncate(count);
    Ok(answer)
}

// Whether the guard fits the one fact of its name; variables that come first fill slots.
#[tactic(auto, using(crate::proofs::SearchSteps::only_laws))]
fn meets_only<'a>(values: &mut Vec<Value<'a>>, g: &GuardPlan<'a>) -> Result<bool, Mem>
    requires { length g.now.facts.now ≡ 1 }
    ensures met { IfOk result (λ b. IsOnlyMet (guard g.now) (map held values.old.items) (map held values.new.items) b) }
    ensures front { OnOk result (StaysInFront values.old.items values.new.items) }
{
    meets(values, &g.atom, &g.facts[0])
}

// The same. Guards whose name has one fact alone are matched in a loop.
#[cycle(tested)]
#[tactic(auto, using(crate::proofs::SearchSteps::pass_laws))]
fn pass<'a>(
    trace: &'a Moments<'_>,
    d: bool,
    guards: &Items<GuardPlan<'a>>,
    from: u64,
    body: &Plan<'a>,
    values: &mut Vec<Value<'a>>,
) -> Result<bool, Mem>
    ensures answer { IfOk result (λ b. b ≡ searched d (map guard (drop from guards.now)) (map held values.old.items) (planned trace.now (plan body.now))) }
    ensures front { OnOk result (StaysInFront values.old.items values.new.items) }
{
    for at in from..guards.len() {
        let g = guards.at(at);
        if g.facts.len() != 1 {
            return Ok(branch(trace, d, guards, at, g.facts, body, values)?);
        }
        if !meets_only(values, g)? {
            return Ok(d);
        }
    }
    test(trace, body, values)
}

// The answer where the guard at this index picks one of these facts after another.
#[cycle(tested)]
#[tactic(auto, using(crate::proofs::SearchSteps::branch_laws))]
fn branch<'a>(
    trace: &'a Moments<'_>,
    d: bool,
    guards: &Items<GuardPlan<'a>>,
    at: u64,
    facts: &[Sighted<'a>],
    body: &Plan<'a>,
    values: &mut Vec<Value<'a>>,
) -> Result<bool, Mem>
    requires { at < length guards.now }
    ensures answer { IfOk result (λ b. b ≡ any_or_all d (λ s. chosen d (map guard (drop at guards.now)) s (map held values.old.items) (planned trace.now (plan body.now))) (map sight facts.now)) }
    ensures same { OnOk result (values.new.items ≡ values.old.items) }
{
    for s in facts {
        if choose(trace, d, guards, at, s, body, values)? != d {
            return Ok(!d);
        }
    }
    Ok(d)
}

// The answer where it picks this fact. No slot stays filled.
#[cycle(tested)]
#[tactic(auto, using(crate::proofs::SearchSteps::choose_laws))]
fn choose<'a>(
    trace: &'a Moments<'_>,
    d: bool,
    guards: &Items<GuardPlan<'a>>,
    at: u64,
    s: &Sighted<'a>,
    body: &Plan<'a>,
    values: &mut Vec<Value<'a>>,
) -> Result<bool, Mem>
    requires { at < length guards.now }
    ensures answer { IfOk result (λ b. b ≡ chosen d (map guard (drop at guards.now)) (sight s.now) (map held values.old.items) (planned trace.now (plan body.now))) }
    ensures same { OnOk result (values.new.items ≡ values.old.items) }
{
    let count = values.len();
    if !meets(values, &guards.at(at).atom, s)? {
        values.truncate(count);
        return Ok(d);
    }
    if at >= guards.len() {
        return Ok(d);
    }
    let answer = search(trace, d, guards, at + 1, body, values)?;
    values.truncate(count);
    Ok(answer)
}
