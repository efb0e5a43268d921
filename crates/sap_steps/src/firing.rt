// Rules used on cited facts.
ghost use Rattle.std.specs.Prelude.{◌≡◌, length, map, IfOk, IfErr, IsSome, All};
ghost use Rattle.sap_facts.specs.Cited.{cited_at};
ghost use Rattle.sap_facts.specs.Facts.{fact_at};
ghost use Rattle.sap_rule.specs.Variables.{facts_outer_vars};
ghost use Rattle.sap_share.specs.Env.{AreBound, AreSmallForms, bindings_of};
ghost use Rattle.sap_share.specs.Shared.{Keeps};
ghost use Rattle.sap_sides.specs.Fitting.{FactsFit, IsOnlyChoice};
ghost use Rattle.sap_sides.specs.Messages.{HasNoDestructor, HoldsSmallMessages, IsSmallMessageFact};
ghost use Rattle.sap_sides.specs.SharedFacts.{fact_seen, AreFactsBelow};
ghost use Rattle.sap_steps.specs.Faults.{AreRight, IsRuleRefusal};
ghost use Rattle.sap_steps.specs.Lines.{Fires, HasFewNodes};
ghost use Rattle.sap_steps.specs.code.Firing.{IsLeftSame, Laws};
ghost use Rattle.sap_steps.specs.code.Piled.{table_of};
ghost use Rattle.sap_steps.specs.code.Ready.{IsReady};
ghost use Rattle.sap_terms.specs.Equations.{equations};
ghost use Rattle.sap_terms.specs.Subst.{bound_to};

use crate::RFault;
use crate::cited::cited_facts;
use crate::evaluation::{BuiltSides, fire_trees, is_left_same};
use crate::pile::{SharedPile, fit_facts};
use crate::prepared::Prepared;
use sap_rewrite::{
    agreeing_choices_substitute, bindings_give_choices, fitting_gives_messages, forms_are_messages,
    matching_around_is_modulo, normal_forms_are_unique, variables_named_once_stay_so,
};
use sap_share::Env;
use sap_sides::{
    Sides, are_messages, are_of, large_facts_are_in_parts, match_facts, message_facts_are_forms,
    numbers_give_terms, plain_facts_are_met,
};
use sap_terms::{Bindings, Copied, FactList, MOST_TERM_NODES, Numbers, Signature};
use std::alloc::Global;

// What the rule shows and adds, where it takes the facts with these numbers and its open variables stand for these terms.
// A plain rule is matched by numbers, another on trees; what it shows and adds is made by numbers where each bound term is
// normal and has at most 256 nodes.
#[tactic(auto, using(crate::proofs::Kept::table_laws))]
pub(crate) fn fire(
    alloc: Global,
    sig: &Signature,
    rule: &Prepared,
    facts: &mut SharedPile,
    numbers: &Numbers,
    b: &Bindings,
) -> Result<Sides, RFault>
    requires ready { IsReady sig.now rule.now }
    requires sig { facts.old.sig ≡ sig.now }
    requires count { length numbers.now ≡ length rule.now.rule.left }
    requires live { All (λ k. IsSome (fact_at facts.old.slots k)) numbers.now }
    requires held { HoldsSmallMessages sig.now facts.old.slots }
    ensures fires { IfOk result (λ x. Fires sig.now HasFewNodes rule.now.rule b.now (cited_at facts.old.slots numbers.now) x.acts (map (fact_seen facts.new.trees) x.right.items)) }
    ensures held { IfOk result (λ x. All (IsSmallMessageFact sig.now) (map (fact_seen facts.new.trees) x.right.items)) }
    ensures below { IfOk result (λ x. AreFactsBelow (length facts.new.trees) x.right.items) }
    ensures keeps { Keeps (table_of facts.old) (table_of facts.new) }
    ensures refused { IfErr result (IsRuleRefusal sig.now rule.now.rule b.now (cited_at facts.old.slots numbers.now)) }
    ensures sig { facts.new.sig ≡ facts.old.sig }
    ensures slots { facts.new.slots ≡ facts.old.slots }
{
    if !are_of(b, &rule.open_vars) {
        return Err(RFault::BadBinding);
    }
    if !are_messages(alloc, sig, b)? {
        return Err(RFault::BadBinding);
    }
    if rule.plain {
        fire_plain(alloc, sig, rule, facts, numbers, b)
    } else {
        fire_built(alloc, sig, rule, facts, numbers, b)
    }
}

// The same with trees for the facts that are cited, which are matched around destructors.
#[tactic(auto, using(crate::proofs::Kept::table_laws))]
fn fire_built(
    alloc: Global,
    sig: &Signature,
    rule: &Prepared,
    facts: &mut SharedPile,
    numbers: &Numbers,
    b: &Bindings,
) -> Result<Sides, RFault>
    requires ready { IsReady sig.now rule.now }
    requires right { AreRight sig.now rule.now.rule b.now }
    requires sig { facts.old.sig ≡ sig.now }
    requires count { length numbers.now ≡ length rule.now.rule.left }
    requires live { All (λ k. IsSome (fact_at facts.old.slots k)) numbers.now }
    requires held { HoldsSmallMessages sig.now facts.old.slots }
    ensures fires { IfOk result (λ x. Fires sig.now HasFewNodes rule.now.rule b.now (cited_at facts.old.slots numbers.now) x.acts (map (fact_seen facts.new.trees) x.right.items)) }
    ensures held { IfOk result (λ x. All (IsSmallMessageFact sig.now) (map (fact_seen facts.new.trees) x.right.items)) }
    ensures below { IfOk result (λ x. AreFactsBelow (length facts.new.trees) x.right.items) }
    ensures keeps { Keeps (table_of facts.old) (table_of facts.new) }
    ensures refused { IfErr result (IsRuleRefusal sig.now rule.now.rule b.now (cited_at facts.old.slots numbers.now)) }
    ensures sig { facts.new.sig ≡ facts.old.sig }
    ensures slots { facts.new.slots ≡ facts.old.slots }
{
    let cited = cited_facts(alloc, facts, numbers)?;
    match match_facts(alloc, sig, &rule.rule.left, &cited, b.copy(alloc)?)? {
        Some(c) => fire_matched(alloc, sig, rule, facts, numbers, &cited, b, &c),
        None => Err(RFault::NoMatch),
    }
}

// What the rule shows and adds under the bindings that were found: by numbers, or on trees where a bound term isn't normal,
// or has more than 256 nodes.
#[tactic(auto, using(crate::proofs::Kept::table_laws))]
fn fire_matched(
    alloc: Global,
    sig: &Signature,
    rule: &Prepared,
    facts: &mut SharedPile,
    numbers: &Numbers,
    cited: &FactList,
    b: &Bindings,
    c: &Bindings,
) -> Result<Sides, RFault>
    requires ready { IsReady sig.now rule.now }
    requires right { AreRight sig.now rule.now.rule b.now }
    requires are { cited.now ≡ cited_at facts.old.slots numbers.now }
    requires found { IsOnlyChoice (FactsFit sig.now rule.now.rule.left (cited_at facts.old.slots numbers.now)) (facts_outer_vars sig.now rule.now.rule.left) b.now c.now }
    requires sig { facts.old.sig ≡ sig.now }
    requires count { length cited.now ≡ length rule.now.rule.left }
    requires held { HoldsSmallMessages sig.now facts.old.slots }
    ensures fires { IfOk result (λ x. Fires sig.now HasFewNodes rule.now.rule b.now (cited_at facts.old.slots numbers.now) x.acts (map (fact_seen facts.new.trees) x.right.items)) }
    ensures held { IfOk result (λ x. All (IsSmallMessageFact sig.now) (map (fact_seen facts.new.trees) x.right.items)) }
    ensures below { IfOk result (λ x. AreFactsBelow (length facts.new.trees) x.right.items) }
    ensures keeps { Keeps (table_of facts.old) (table_of facts.new) }
    ensures refused { IfErr result (IsRuleRefusal sig.now rule.now.rule b.now (cited_at facts.old.slots numbers.now)) }
    ensures sig { facts.new.sig ≡ facts.old.sig }
    ensures slots { facts.new.slots ≡ facts.old.slots }
{
    laws_below();
    let env = facts.number(alloc, &rule.order, c)?;
    if !facts.binds_small_forms(&env) {
        drop(env);
        return fire_on_trees(alloc, sig, rule, facts, numbers, cited, b, c);
    }
    let same = is_left_same(alloc, sig, &rule.rule, cited, c)?;
    let fired = fire_bound(alloc, sig, rule, facts, numbers, b, &env, same);
    drop(env);
    fired
}

// The same on trees.
#[tactic(auto, using(crate::proofs::Kept::table_laws))]
fn fire_on_trees(
    alloc: Global,
    sig: &Signature,
    rule: &Prepared,
    facts: &mut SharedPile,
    numbers: &Numbers,
    cited: &FactList,
    b: &Bindings,
    c: &Bindings,
) -> Result<Sides, RFault>
    requires ready { IsReady sig.now rule.now }
    requires right { AreRight sig.now rule.now.rule b.now }
    requires are { cited.now ≡ cited_at facts.old.slots numbers.now }
    requires found { IsOnlyChoice (FactsFit sig.now rule.now.rule.left (cited_at facts.old.slots numbers.now)) (facts_outer_vars sig.now rule.now.rule.left) b.now c.now }
    requires sig { facts.old.sig ≡ sig.now }
    requires count { length cited.now ≡ length rule.now.rule.left }
    requires held { HoldsSmallMessages sig.now facts.old.slots }
    ensures fires { IfOk result (λ x. Fires sig.now HasFewNodes rule.now.rule b.now (cited_at facts.old.slots numbers.now) x.acts (map (fact_seen facts.new.trees) x.right.items)) }
    ensures held { IfOk result (λ x. All (IsSmallMessageFact sig.now) (map (fact_seen facts.new.trees) x.right.items)) }
    ensures below { IfOk result (λ x. AreFactsBelow (length facts.new.trees) x.right.items) }
    ensures keeps { Keeps (table_of facts.old) (table_of facts.new) }
    ensures refused { IfErr result (IsRuleRefusal sig.now rule.now.rule b.now (cited_at facts.old.slots numbers.now)) }
    ensures sig { facts.new.sig ≡ facts.old.sig }
    ensures slots { facts.new.slots ≡ facts.old.slots }
{
    let BuiltSides { acts, right } = fire_trees(alloc, sig, rule, cited, b, c)?;
    let right = facts.share_all(alloc, &right)?;
    Ok(Sides { acts, right })
}

// The same of a rule in whose left side no destructor stands.
#[tactic(auto, using(crate::proofs::Kept::table_laws))]
fn fire_plain(
    alloc: Global,
    sig: &Signature,
    rule: &Prepared,
    facts: &mut SharedPile,
    numbers: &Numbers,
    b: &Bindings,
) -> Result<Sides, RFault>
    requires ready { IsReady sig.now rule.now }
    requires plain { All (HasNoDestructor sig.now) rule.now.rule.left }
    requires right { AreRight sig.now rule.now.rule b.now }
    requires sig { facts.old.sig ≡ sig.now }
    requires count { length numbers.now ≡ length rule.now.rule.left }
    requires live { All (λ k. IsSome (fact_at facts.old.slots k)) numbers.now }
    requires held { HoldsSmallMessages sig.now facts.old.slots }
    ensures fires { IfOk result (λ x. Fires sig.now HasFewNodes rule.now.rule b.now (cited_at facts.old.slots numbers.now) x.acts (map (fact_seen facts.new.trees) x.right.items)) }
    ensures held { IfOk result (λ x. All (IsSmallMessageFact sig.now) (map (fact_seen facts.new.trees) x.right.items)) }
    ensures below { IfOk result (λ x. AreFactsBelow (length facts.new.trees) x.right.items) }
    ensures keeps { Keeps (table_of facts.old) (table_of facts.new) }
    ensures refused { IfErr result (IsRuleRefusal sig.now rule.now.rule b.now (cited_at facts.old.slots numbers.now)) }
    ensures sig { facts.new.sig ≡ facts.old.sig }
    ensures slots { facts.new.slots ≡ facts.old.slots }
{
    let mut env = facts.number(alloc, &rule.order, b)?;
    let fired = fire_numbered(alloc, sig, rule, facts, numbers, b, &mut env);
    drop(env);
    fired
}

// The same, where the bindings have numbers for their terms. Trees are built where a bound term isn't normal, or has more
// than 256 nodes.
#[tactic(auto, using(crate::proofs::Kept::table_laws))]
fn fire_numbered(
    alloc: Global,
    sig: &Signature,
    rule: &Prepared,
    facts: &mut SharedPile,
    numbers: &Numbers,
    b: &Bindings,
    env: &mut Env,
) -> Result<Sides, RFault>
    requires ready { IsReady sig.now rule.now }
    requires plain { All (HasNoDestructor sig.now) rule.now.rule.left }
    requires right { AreRight sig.now rule.now.rule b.now }
    requires are { bindings_of facts.old.trees env.old ≡ b.now }
    requires bound { AreBound (length facts.old.trees) env.old }
    requires sig { facts.old.sig ≡ sig.now }
    requires count { length numbers.now ≡ length rule.now.rule.left }
    requires live { All (λ k. IsSome (fact_at facts.old.slots k)) numbers.now }
    requires held { HoldsSmallMessages sig.now facts.old.slots }
    ensures fires { IfOk result (λ x. Fires sig.now HasFewNodes rule.now.rule b.now (cited_at facts.old.slots numbers.now) x.acts (map (fact_seen facts.new.trees) x.right.items)) }
    ensures held { IfOk result (λ x. All (IsSmallMessageFact sig.now) (map (fact_seen facts.new.trees) x.right.items)) }
    ensures below { IfOk result (λ x. AreFactsBelow (length facts.new.trees) x.right.items) }
    ensures keeps { Keeps (table_of facts.old) (table_of facts.new) }
    ensures refused { IfErr result (IsRuleRefusal sig.now rule.now.rule b.now (cited_at facts.old.slots numbers.now)) }
    ensures sig { facts.new.sig ≡ facts.old.sig }
    ensures slots { facts.new.slots ≡ facts.old.slots }
{
    if !fit_facts(alloc, &rule.rule.left, facts, numbers, env)? {
        return Err(RFault::NoMatch);
    }
    if !facts.binds_small_forms(env) {
        return fire_built(alloc, sig, rule, facts, numbers, b);
    }
    laws_below();
    fire_bound(alloc, sig, rule, facts, numbers, b, env, true)
}

// What a rule shows and adds under what is bound, which are normal forms of at most 256 nodes. It was found whether its left
// side then has the arguments of the cited facts.
fn fire_bound(
    alloc: Global,
    sig: &Signature,
    rule: &Prepared,
    facts: &mut SharedPile,
    numbers: &Numbers,
    b: &Bindings,
    env: &Env,
    same: bool,
) -> Result<Sides, RFault>
    requires ready { IsReady sig.now rule.now }
    requires right { AreRight sig.now rule.now.rule b.now }
    requires found { IsOnlyChoice (FactsFit sig.now rule.now.rule.left (cited_at facts.old.slots numbers.now)) (facts_outer_vars sig.now rule.now.rule.left) b.now (bindings_of facts.old.trees env.now) }
    requires env { AreSmallForms (equations sig.now) MOST_TERM_NODES facts.old.trees env.now }
    requires same { IsLeftSame sig.now (bound_to (bindings_of facts.old.trees env.now)) rule.now.rule.left (cited_at facts.old.slots numbers.now) same }
    requires sig { facts.old.sig ≡ sig.now }
    requires held { HoldsSmallMessages sig.now facts.old.slots }
    ensures fires { IfOk result (λ x. Fires sig.now HasFewNodes rule.now.rule b.now (cited_at facts.old.slots numbers.now) x.acts (map (fact_seen facts.new.trees) x.right.items)) }
    ensures held { IfOk result (λ x. All (IsSmallMessageFact sig.now) (map (fact_seen facts.new.trees) x.right.items)) }
    ensures below { IfOk result (λ x. AreFactsBelow (length facts.new.trees) x.right.items) }
    ensures keeps { Keeps (table_of facts.old) (table_of facts.new) }
    ensures refused { IfErr result (IsRuleRefusal sig.now rule.now.rule b.now (cited_at facts.old.slots numbers.now)) }
    ensures sig { facts.new.sig ≡ facts.old.sig }
    ensures slots { facts.new.slots ≡ facts.old.slots }
{
    laws_below();
    sig.builtins_are_held();
    let sides = facts.form(alloc, env, &rule.rule)?;
    if !same {
        drop(sides);
        return Err(RFault::Unequal);
    }
    Ok(sides)
}

// What the layers below say of matching, normal forms and messages.
pub(crate) fn laws_below()
    ensures { Laws }
{
    matching_around_is_modulo();
    fitting_gives_messages();
    variables_named_once_stay_so();
    bindings_give_choices();
    agreeing_choices_substitute();
    normal_forms_are_unique();
    forms_are_messages();
    plain_facts_are_met();
    message_facts_are_forms();
    large_facts_are_in_parts();
    numbers_give_terms();
}
