// Rules that are used on facts.
ghost use Rattle.std.specs.Prelude.{◌++◌, IfOk, IfErr, All, Contains, length, map};
ghost use Rattle.sap_terms.specs.Destructors.{HasDestructor};
ghost use Rattle.sap_terms.specs.Tree.{Tree};
ghost use Rattle.sap_terms.specs.Equations.{equations};
ghost use Rattle.sap_terms.specs.Message.{IsOver};
ghost use Rattle.sap_terms.specs.Modulo.{instance_facts};
ghost use Rattle.sap_terms.specs.Variables.{facts_vars};
ghost use Rattle.sap_rewrite.specs.Match.{HaveOneSort};
ghost use Rattle.sap_process.specs.Heads.{facts_terms};
ghost use Rattle.sap_share.specs.Env.{given, AreBound, AreSmallForms};
ghost use Rattle.sap_share.specs.Shared.{Keeps};
ghost use Rattle.sap_sides.specs.Messages.{IsSmallMessageFact};
ghost use Rattle.sap_sides.specs.SharedFacts.{fact_seen, AreFactsBelow};
ghost use Rattle.sap_heads.specs.code.Rules.{AreFactsFormed, IsRuleEnv, HasNoRuleEnv};
ghost use Rattle.sap_heads.specs.Used.{IsUsed, IsUnused};
ghost use Rattle.sap_heads.specs.Values.{CanEvaluate, IsValueFault};

use crate::bindings::{open_of, test_bindings};
use crate::fitting::{bind_small, found};
use sap_lines::PFault;
use sap_process::instances_of_processes;
use sap_rewrite::{
    Cut, bindings_give_choices, matching_is_modulo, normal_forms_are_unique, patterns_stay,
    variables_named_once_stay_so,
};
use sap_share::{Env, Table};
use sap_sides::{SharedFact, Sides, form_sides};
use sap_terms::{Bindings, FactList, MOST_TERM_NODES};
use std::alloc::Global;

// What is bound for a rule: what was bound, then by the match of the left side with the cited facts, then by the
// bindings of what it leaves open.
fn environment(
    alloc: Global,
    table: &mut Table,
    env: &Env,
    cited: &[SharedFact],
    l: &FactList,
    e: &FactList,
    r: &FactList,
    b: &Bindings,
) -> Result<Env, PFault>
    requires env { AreBound (length table.old.trees) env.now }
    requires below { AreFactsBelow (length table.old.trees) cited.now }
    ensures ok { IfOk result (IsRuleEnv table.new env.now (map (fact_seen table.old.trees) cited.now) l.now e.now r.now b.now) }
    ensures refused { IfErr result (HasNoRuleEnv table.new env.now (map (fact_seen table.old.trees) cited.now) l.now e.now r.now b.now) }
    ensures keeps { Keeps table.old table.new }
{
    match open_of(alloc, env, l, e, r) {
        Err(_) => Err(PFault::Mem),
        Ok(vars) => match test_bindings(alloc, table.signature(), &vars, b) {
            Err(fault) => Err(fault),
            Ok(()) => match found(alloc, table, env, l, cited) {
                Err(fault) => Err(fault),
                Ok(new) => match bind_small(alloc, table, new, b) {
                    Err(fault) => Err(fault),
                    Ok(longer) => Ok(longer),
                },
            },
        },
    }
}

// What the rule shows and adds under what is bound.
fn sides(
    alloc: Global,
    table: &mut Table,
    env: &Env,
    e: &FactList,
    r: &FactList,
) -> Result<Sides, PFault>
    requires env { AreSmallForms (equations table.old.sig) MOST_TERM_NODES table.old.trees env.now }
    requires acts { All (CanEvaluate table.old env.now) (facts_terms e.now) }
    requires right { All (CanEvaluate table.old env.now) (facts_terms r.now) }
    ensures acts { IfOk result (λ x. AreFactsFormed table.old env.now e.now x.acts) }
    ensures right { IfOk result (λ x. AreFactsFormed table.old env.now r.now (map (fact_seen table.new.trees) x.right.items)) }
    ensures below { IfOk result (λ x. AreFactsBelow (length table.new.trees) x.right.items) }
    ensures fine { IfOk result (λ x. All (IsSmallMessageFact table.new.sig) (map (fact_seen table.new.trees) x.right.items)) }
    ensures refused { IfErr result (IsValueFault table.old.sig (facts_terms (instance_facts (given table.old.trees env.now) (e.now ++ r.now)))) }
    ensures keeps { Keeps table.old table.new }
{
    match form_sides(table, alloc, env, e, r) {
        Err(Cut::Large) => Err(PFault::TermLarge),
        Err(Cut::Mem) => Err(PFault::Mem),
        Ok(sides) => {
            table.each_is_ground();
            table.each_is_over();
            Ok(sides)
        }
    }
}

/// What is bound where the rule with these three lists is used on the cited facts, and what it shows and adds. What its left
/// side leaves open stands for the terms of the bindings. No cited term is walked but where the left side's own symbols stand.
/// It recurses as deep as the terms of the rule and of the bindings.
pub fn used(
    alloc: Global,
    table: &mut Table,
    env: &Env,
    cited: &[SharedFact],
    l: &FactList,
    e: &FactList,
    r: &FactList,
    b: &Bindings,
) -> Result<(Env, Sides), PFault>
    requires env { AreSmallForms (equations table.old.sig) MOST_TERM_NODES table.old.trees env.now }
    requires below { AreFactsBelow (length table.old.trees) cited.now }
    requires messages { All (IsSmallMessageFact table.old.sig) (map (fact_seen table.old.trees) cited.now) }
    requires sorts { HaveOneSort (facts_vars (l.now ++ (e.now ++ r.now))) }
    requires over { All (IsOver table.old.sig) (facts_terms (l.now ++ (e.now ++ r.now))) }
    requires plain { (t : Tree) → Contains (facts_terms l.now) t → HasDestructor table.old.sig t → ⊥ }
    ensures ok { IfOk result (λ x. IsUsed table.new env.now (map (fact_seen table.old.trees) cited.now) l.now e.now r.now b.now x.0 x.1.acts (map (fact_seen table.new.trees) x.1.right.items)) }
    ensures below { IfOk result (λ x. AreFactsBelow (length table.new.trees) x.1.right.items) }
    ensures refused { IfErr result (IsUnused table.new env.now (map (fact_seen table.old.trees) cited.now) l.now e.now r.now b.now) }
    ensures keeps { Keeps table.old table.new }
{
    instances_of_processes();
    variables_named_once_stay_so();
    bindings_give_choices();
    matching_is_modulo();
    patterns_stay();
    normal_forms_are_unique();
    match environment(alloc, table, env, cited, l, e, r, b) {
        Err(fault) => {
            table.each_is_ground();
            Err(fault)
        }
        Ok(new) => {
            table.each_is_ground();
            match sides(alloc, table, &new, e, r) {
                Err(fault) => {
                    table.each_is_ground();
                    Err(fault)
                }
                Ok(sides) => {
                    table.each_is_ground();
                    Ok((new, sides))
                }
            }
        }
    }
}
