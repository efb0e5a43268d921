//! Whether a rule can be run.
ghost use Rattle.std.specs.Prelude.{◌≡◌, ◌↔◌, ℕ, List, All, IfOk, IsTrue, true, false, Some, if◌then◌else◌};
ghost use Rattle.std.specs.Str.{bytes_eq};
ghost use Rattle.sap_terms.specs.NameMap.{value_at};
ghost use Rattle.sap_terms.specs.Message.{IsFactOver};
ghost use Rattle.sap_rewrite.specs.Match.{HaveOneSort};
ghost use Rattle.sap_rule.specs.code.Checks.{IsOtherSort};
ghost use Rattle.sap_rule.specs.WellMade.{IsSingle, IsKnowledge, IsLeftFact, IsRightFact, IsActFact, IsRuleOver, IsWellShaped, IsWellMade};

use crate::Rule;
use crate::variables::vars_of;
use sap_terms::{Copied, Fact, FactList, Mem, Name, NameMap, Signature, Sort, Var, Vars};
use std::alloc::Global;

/// Whether the rule can be run: it is over the signature and well-shaped. It takes time in proportion to the rule, where
/// each symbol in it is looked for among those of the signature and each variable among the others by the order of their names,
/// and recurses as deep as its terms.
pub fn is_well_made(alloc: Global, sig: &Signature, r: &Rule) -> Result<bool, Mem>
    ensures { IfOk result (λ b. IsTrue b ↔ IsWellMade sig.now r.now) }
{
    if !is_rule_over(sig, r) {
        return Ok(false);
    }
    is_well_shaped(alloc, r)
}

/// Whether each symbol of the rule is held with its arity. It recurses as deep as the rule's terms.
pub fn is_rule_over(sig: &Signature, r: &Rule) -> bool
    ensures { IsTrue result ↔ IsRuleOver sig.now r.now }
{
    are_over(sig, &r.left) && are_over(sig, &r.acts) && are_over(sig, &r.right)
}

/// Whether `Fr` and `In` stand only on the rule's left side, `Out` only on its right side, each linear with one argument;
/// `K`, `KU` and `KD` nowhere; and no name of a variable with two sorts. It recurses as deep as the rule's terms.
pub fn is_well_shaped(alloc: Global, r: &Rule) -> Result<bool, Mem>
    ensures { IfOk result (λ b. IsTrue b ↔ IsWellShaped r.now) }
{
    if !are_left_facts(&r.left) {
        return Ok(false);
    }
    if !are_act_facts(&r.acts) {
        return Ok(false);
    }
    if !are_right_facts(&r.right) {
        return Ok(false);
    }
    let all = vars_of(alloc, r)?;
    let one_sort = have_one_sort(alloc, &all)?;
    Ok(one_sort)
}

fn are_left_facts(fs: &FactList) -> bool
    ensures { IsTrue result ↔ All IsLeftFact fs.now }
{
    fs.as_slice().iter().all(|f| is_left_fact(f))
}

fn are_act_facts(fs: &FactList) -> bool
    ensures { IsTrue result ↔ All IsActFact fs.now }
{
    fs.as_slice().iter().all(|f| is_act_fact(f))
}

fn are_right_facts(fs: &FactList) -> bool
    ensures { IsTrue result ↔ All IsRightFact fs.now }
{
    fs.as_slice().iter().all(|f| is_right_fact(f))
}

// Whether the fact may stand on a left side.
fn is_left_fact(f: &Fact) -> bool
    ensures { IsTrue result ↔ IsLeftFact f.now }
{
    if is_knowledge(&f.name) || f.name.is(b"Out") {
        return false;
    }
    if f.name.is(b"Fr") || f.name.is(b"In") {
        return is_single(f);
    }
    true
}

// Whether it may be shown.
fn is_act_fact(f: &Fact) -> bool
    ensures { IsTrue result ↔ IsActFact f.now }
{
    if f.name.is(b"Fr") || f.name.is(b"In") || f.name.is(b"Out") {
        return false;
    }
    !is_knowledge(&f.name)
}

// Whether it may stand on a right side.
fn is_right_fact(f: &Fact) -> bool
    ensures { IsTrue result ↔ IsRightFact f.now }
{
    if is_knowledge(&f.name) || f.name.is(b"Fr") || f.name.is(b"In") {
        return false;
    }
    if f.name.is(b"Out") {
        return is_single(f);
    }
    true
}

// Whether each of these is over the signature.
fn are_over(sig: &Signature, fs: &FactList) -> bool
    ensures { IsTrue result ↔ All (IsFactOver sig.now) fs.now }
{
    fs.as_slice().iter().all(|f| is_fact_over(sig, f))
}

// Whether the fact is over the signature.
fn is_fact_over(sig: &Signature, f: &Fact) -> bool
    ensures { IsTrue result ↔ IsFactOver sig.now f.now }
{
    sig.are_over(&f.args)
}

fn is_knowledge(name: &Name) -> bool
    ensures { IsTrue result ↔ IsKnowledge name.now }
{
    name.is(b"K") || name.is(b"KU") || name.is(b"KD")
}

// Whether the fact is linear and has one argument.
fn is_single(f: &Fact) -> bool
    ensures { IsTrue result ↔ IsSingle f.now }
{
    !f.persistent && f.args.len() == 1
}

// Whether no name stands with two sorts.
fn have_one_sort(alloc: Global, vars: &Vars) -> Result<bool, Mem>
    ensures { IfOk result (λ b. IsTrue b ↔ HaveOneSort vars.now) }
{
    let mut sorts = NameMap::new(alloc);
    for v in vars.as_slice() {
        if !note_sort(alloc, &mut sorts, v)? {
            return Ok(false);
        }
    }
    Ok(true)
}

// Notes the sort of the variable's name; false where another one is noted.
fn note_sort(alloc: Global, sorts: &mut NameMap<Sort>, v: &Var) -> Result<bool, Mem>
    ensures other { IfOk result (λ b. b ≡ false ↔ IsOtherSort (value_at sorts.old v.now.name) v.now.sort) }
    ensures noted { IfOk result (λ b. b ≡ true → (n : List ℕ) → value_at sorts.new n ≡ (if bytes_eq v.now.name n then Some v.now.sort else value_at sorts.old n)) }
{
    if let Some(s) = sorts.get(&v.name) {
        return Ok(*s == v.sort);
    }
    let name = v.name.copy(alloc)?;
    sorts.insert(name, v.sort)?;
    Ok(true)
}
