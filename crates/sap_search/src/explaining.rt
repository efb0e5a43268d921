//! The choices that show a claim: a search through the facts that fit its guards, which keeps what it passes.
ghost use Rattle.std.specs.Prelude.{◌≡◌, ◌<◌, ◌++◌, [], IfOk, OnOk, drop, length, map};
ghost use Rattle.std.specs.Option.{option_map};
ghost use Rattle.sap_match.specs.Matched.{StaysInFront, onward};
ghost use Rattle.sap_match.specs.View.{held, sight};
ghost use Rattle.sap_search.specs.Explained.{explained, first_led, first_some, got, in_front, or_next, told, with_value};
ghost use Rattle.sap_search.specs.View.{chosen_value, claim, guard, reason_of, slotted};
ghost use Rattle.sap_search.specs.code.Answers.{Answers, IsOnlyLed, led_by};

use crate::claim::{Chosen, Claim, Slotted};
use crate::plan::GuardPlan;
use crate::testing::test;
use sap_match::{Moments, Sighted, Value, meets};
use sap_terms::{Items, Mem};
use std::alloc::Global;

/// The choices that show the claim on the trace, before any slot is filled, none where nothing shows it. Each quantifier's
/// facts are gone through once, as `is_true` goes through them. Want of memory is the only error. It recurses as
/// deep as the claim and the formulas in it, terms included, and with each guard whose name has two facts or more.
pub fn reason_by<'a>(
    alloc: Global,
    trace: &'a Moments<'_>,
    c: &Claim<'a>,
) -> Result<Option<Vec<Chosen<'a>>>, Mem>
    ensures { IfOk result (λ r. reason_of r ≡ explained trace.now (claim c.now) []) }
{
    let mut values = Vec::new(alloc);
    let mut out = Vec::new(alloc);
    if explain(trace, c, &mut values, &mut out)? {
        return Ok(Some(out));
    }
    Ok(None)
}

// Whether choices show the claim where slots hold what they hold; these are put last.
#[cycle(explained)]
#[tactic(auto, using(crate::proofs::ExplainSteps::explain_laws))]
fn explain<'a>(
    trace: &'a Moments<'_>,
    c: &Claim<'a>,
    values: &mut Vec<Value<'a>>,
    out: &mut Vec<Chosen<'a>>,
) -> Result<bool, Mem>
    ensures answer { IfOk result (λ b. Answers b (map chosen_value out.old.items) (map chosen_value out.new.items) (explained trace.now (claim c.now) (map held values.old.items))) }
    ensures same { OnOk result (values.new.items ≡ values.old.items) }
{
    match c {
        Claim::Tested(b, p) => Ok(test(trace, p, values)? == *b),
        Claim::Each(d, e) => both(trace, d, e, values, out),
        Claim::First(d, e) => either(trace, d, e, values, out),
        Claim::Choosing(guards, slots, d) => search(trace, guards, 0, slots, d, values, out),
    }
}

// Those of both, where each has some.
#[cycle(explained)]
fn both<'a>(
    trace: &'a Moments<'_>,
    c: &Claim<'a>,
    d: &Claim<'a>,
    values: &mut Vec<Value<'a>>,
    out: &mut Vec<Chosen<'a>>,
) -> Result<bool, Mem>
    ensures answer { IfOk result (λ b. Answers b (map chosen_value out.old.items) (map chosen_value out.new.items) (onward (explained trace.now (claim c.now) (map held values.old.items)) (λ cs. in_front cs (explained trace.now (claim d.now) (map held values.old.items))))) }
    ensures same { OnOk result (values.new.items ≡ values.old.items) }
{
    let count = out.len();
    if !explain(trace, c, values, out)? {
        return Ok(false);
    }
    if explain(trace, d, values, out)? {
        return Ok(true);
    }
    out.truncate(count);
    Ok(false)
}

// Those of the first that has some.
#[cycle(explained)]
fn either<'a>(
    trace: &'a Moments<'_>,
    c: &Claim<'a>,
    d: &Claim<'a>,
    values: &mut Vec<Value<'a>>,
    out: &mut Vec<Chosen<'a>>,
) -> Result<bool, Mem>
    ensures answer { IfOk result (λ b. Answers b (map chosen_value out.old.items) (map chosen_value out.new.items) (or_next (explained trace.now (claim c.now) (map held values.old.items)) (explained trace.now (claim d.now) (map held values.old.items)))) }
    ensures same { OnOk result (values.new.items ≡ values.old.items) }
{
    if explain(trace, c, values, out)? {
        return Ok(true);
    }
    explain(trace, d, values, out)
}

// Puts the binders with what their slots hold last, from the end on.
fn tell<'a>(
    slots: &Items<Slotted<'a>>,
    values: &Vec<Value<'a>>,
    out: &mut Vec<Chosen<'a>>,
) -> Result<(), Mem>
    ensures { OnOk result (map chosen_value out.new.items ≡ map chosen_value out.old.items ++ told (map slotted slots.now) (map held values.now.items)) }
{
    for k in 0..slots.len() {
        tell_one(slots.at(slots.len() - 1 - k), values, out)?;
    }
    Ok(())
}

// Puts the binder last, if its slot holds something.
fn tell_one<'a>(
    s: &Slotted<'a>,
    values: &Vec<Value<'a>>,
    out: &mut Vec<Chosen<'a>>,
) -> Result<(), Mem>
    ensures { OnOk result (map chosen_value out.new.items ≡ map chosen_value out.old.items ++ with_value s.now.binder.now (got s.now.slot (map held values.now.items))) }
{
    match held_in(s.slot, values) {
        Some(value) => {
            out.push(Chosen {
                binder: s.binder,
                value,
            })?;
            Ok(())
        }
        None => Ok(()),
    }
}

// What the slot holds.
fn held_in<'a>(slot: Option<u64>, values: &Vec<Value<'a>>) -> Option<Value<'a>>
    ensures { option_map held result ≡ got slot (map held values.now.items) }
{
    match slot {
        Some(k) => match values.get(k as usize) {
            Some(value) => Some(*value),
            None => None,
        },
        None => None,
    }
}

// Those of the claim behind the values of these binders.
#[cycle(explained)]
fn under<'a>(
    trace: &'a Moments<'_>,
    slots: &Items<Slotted<'a>>,
    c: &Claim<'a>,
    values: &mut Vec<Value<'a>>,
    out: &mut Vec<Chosen<'a>>,
) -> Result<bool, Mem>
    ensures answer { IfOk result (λ b. Answers b (map chosen_value out.old.items) (map chosen_value out.new.items) (in_front (told (map slotted slots.now) (map held values.old.items)) (explained trace.now (claim c.now) (map held values.old.items)))) }
    ensures same { OnOk result (values.new.items ≡ values.old.items) }
{
    let count = out.len();
    tell(slots, values, out)?;
    if explain(trace, c, values, out)? {
        return Ok(true);
    }
    out.truncate(count);
    Ok(false)
}

// Those of a quantifier, from this guard on. No slot stays filled.
#[cycle(explained)]
#[tactic(auto, using(crate::proofs::SearchSteps::search_laws))]
fn search<'a>(
    trace: &'a Moments<'_>,
    guards: &Items<GuardPlan<'a>>,
    from: u64,
    slots: &Items<Slotted<'a>>,
    c: &Claim<'a>,
    values: &mut Vec<Value<'a>>,
    out: &mut Vec<Chosen<'a>>,
) -> Result<bool, Mem>
    ensures answer { IfOk result (λ b. Answers b (map chosen_value out.old.items) (map chosen_value out.new.items) (first_led (map guard (drop from guards.now)) (map held values.old.items) (λ h. in_front (told (map slotted slots.now) h) (explained trace.now (claim c.now) h)))) }
    ensures same { OnOk result (values.new.items ≡ values.old.items) }
{
    let count = values.len();
    let answer = pass(trace, guards, from, slots, c, values, out)?;
    values.truncate(count);
    Ok(answer)
}

// The same. Guards whose name has one fact alone are matched in a loop.
#[cycle(explained)]
#[tactic(auto, using(crate::proofs::SearchSteps::front_laws))]
fn pass<'a>(
    trace: &'a Moments<'_>,
    guards: &Items<GuardPlan<'a>>,
    from: u64,
    slots: &Items<Slotted<'a>>,
    c: &Claim<'a>,
    values: &mut Vec<Value<'a>>,
    out: &mut Vec<Chosen<'a>>,
) -> Result<bool, Mem>
    ensures answer { IfOk result (λ b. Answers b (map chosen_value out.old.items) (map chosen_value out.new.items) (first_led (map guard (drop from guards.now)) (map held values.old.items) (λ h. in_front (told (map slotted slots.now) h) (explained trace.now (claim c.now) h)))) }
    ensures front { OnOk result (StaysInFront values.old.items values.new.items) }
{
    for at in from..guards.len() {
        let g = guards.at(at);
        if g.facts.len() != 1 {
            return Ok(branch(trace, guards, at, g.facts, slots, c, values, out)?);
        }
        if !fits_only(values, g)? {
            return Ok(false);
        }
    }
    under(trace, slots, c, values, out)
}

// Whether the guard fits the one fact of its name; variables that come first fill slots.
#[tactic(auto, using(crate::proofs::ExplainSteps::only_led_laws))]
fn fits_only<'a>(values: &mut Vec<Value<'a>>, g: &GuardPlan<'a>) -> Result<bool, Mem>
    requires { length g.now.facts.now ≡ 1 }
    ensures met { IfOk result (λ b. IsOnlyLed (guard g.now) (map held values.old.items) (map held values.new.items) b) }
    ensures front { OnOk result (StaysInFront values.old.items values.new.items) }
{
    meets(values, &g.atom, &g.facts[0])
}

// Those where the guard at this index picks one of these facts after another.
#[cycle(explained)]
fn branch<'a>(
    trace: &'a Moments<'_>,
    guards: &Items<GuardPlan<'a>>,
    at: u64,
    facts: &[Sighted<'a>],
    slots: &Items<Slotted<'a>>,
    c: &Claim<'a>,
    values: &mut Vec<Value<'a>>,
    out: &mut Vec<Chosen<'a>>,
) -> Result<bool, Mem>
    requires { at < length guards.now }
    ensures answer { IfOk result (λ b. Answers b (map chosen_value out.old.items) (map chosen_value out.new.items) (first_some (λ s. led_by (map guard (drop at guards.now)) s (map held values.old.items) (λ h. in_front (told (map slotted slots.now) h) (explained trace.now (claim c.now) h))) (map sight facts.now))) }
    ensures same { OnOk result (values.new.items ≡ values.old.items) }
{
    for s in facts {
        if choose(trace, guards, at, s, slots, c, values, out)? {
            return Ok(true);
        }
    }
    Ok(false)
}

// Those where it picks this fact. No slot stays filled.
#[cycle(explained)]
#[tactic(auto, using(crate::proofs::SearchSteps::search_laws))]
fn choose<'a>(
    trace: &'a Moments<'_>,
    guards: &Items<GuardPlan<'a>>,
    at: u64,
    s: &Sighted<'a>,
    slots: &Items<Slotted<'a>>,
    c: &Claim<'a>,
    values: &mut Vec<Value<'a>>,
    out: &mut Vec<Chosen<'a>>,
) -> Result<bool, Mem>
    requires { at < length guards.now }
    ensures answer { IfOk result (λ b. Answers b (map chosen_value out.old.items) (map chosen_value out.new.items) (led_by (map guard (drop at guards.now)) (sight s.now) (map held values.old.items) (λ h. in_front (told (map slotted slots.now) h) (explained trace.now (claim c.now) h)))) }
    ensures same { OnOk result (values.new.items ≡ values.old.items) }
{
    let count = values.len();
    if !meets(values, &guards.at(at).atom, s)? {
        values.truncate(count);
        return Ok(false);
    }
    if at >= guards.len() {
        return Ok(false);
    }
    let answer = search(trace, guards, at + 1, slots, c, values, out)?;
    values.truncate(count);
    Ok(answer)
}
