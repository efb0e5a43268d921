// Rules evaluated on trees.
ghost use Rattle.std.specs.Prelude.{◌≡◌, length, map, IfOk, IfErr, IsErrOf, All};
ghost use Rattle.sap_rule.specs.Variables.{facts_outer_vars};
ghost use Rattle.sap_sides.specs.Fitting.{FactsFit, IsOnlyChoice};
ghost use Rattle.sap_sides.specs.Forms.{SomeLarge, args_of};
ghost use Rattle.sap_sides.specs.Messages.{IsSmallMessageFact};
ghost use Rattle.sap_steps.specs.Faults.{AreRight, IsRuleRefusal};
ghost use Rattle.sap_steps.specs.Lines.{Fires, HasFewNodes};
ghost use Rattle.sap_steps.specs.code.Firing.{Evaluates, IsEvaluationFault, IsLeftSame};
ghost use Rattle.sap_steps.specs.code.Ready.{IsReady};
ghost use Rattle.sap_terms.specs.Subst.{bound_to, subst_tree};

use crate::RFault;
use crate::firing::laws_below;
use crate::prepared::Prepared;
use sap_rewrite::Cut;
use sap_rule::Rule;
use sap_sides::{forms_of_facts, have_args, large_facts_are_in_parts};
use sap_terms::{Bindings, FactList, Signature};
use std::alloc::Global;

// What a rule shows and adds.
#[derive(Drop)]
pub(crate) struct BuiltSides {
    pub(crate) acts: FactList,
    pub(crate) right: FactList,
}

// What the rule shows and adds under the bindings that were found.
pub(crate) fn fire_trees(
    alloc: Global,
    sig: &Signature,
    rule: &Prepared,
    cited: &FactList,
    b: &Bindings,
    c: &Bindings,
) -> Result<BuiltSides, RFault>
    requires ready { IsReady sig.now rule.now }
    requires right { AreRight sig.now rule.now.rule b.now }
    requires count { length cited.now ≡ length rule.now.rule.left }
    requires held { All (IsSmallMessageFact sig.now) cited.now }
    requires found { IsOnlyChoice (FactsFit sig.now rule.now.rule.left cited.now) (facts_outer_vars sig.now rule.now.rule.left) b.now c.now }
    ensures fires { IfOk result (λ x. Fires sig.now HasFewNodes rule.now.rule b.now cited.now x.acts x.right) }
    ensures held { IfOk result (λ x. All (IsSmallMessageFact sig.now) x.right) }
    ensures refused { IfErr result (IsRuleRefusal sig.now rule.now.rule b.now cited.now) }
{
    laws_below();
    sig.builtins_are_held();
    evaluate(alloc, sig, &rule.rule, cited, c)
}

// What the rule shows and adds under the bindings, where its left side has the arguments of the cited facts.
fn evaluate(
    alloc: Global,
    sig: &Signature,
    rule: &Rule,
    cited: &FactList,
    c: &Bindings,
) -> Result<BuiltSides, RFault>
    requires count { length cited.now ≡ length rule.now.left }
    ensures evaluates { IfOk result (λ x. Evaluates sig.now (bound_to c.now) rule.now cited.now x.acts x.right) }
    ensures refused { IfErr result (IsEvaluationFault sig.now (bound_to c.now) rule.now cited.now) }
{
    large_facts_are_in_parts();
    let same = is_left_same(alloc, sig, rule, cited, c)?;
    let acts = forms_of_facts(alloc, sig, &rule.acts, c)?;
    let right = forms_of_facts(alloc, sig, &rule.right, c)?;
    if !same {
        drop(acts);
        drop(right);
        return Err(RFault::Unequal);
    }
    Ok(BuiltSides { acts, right })
}

// Whether the rule's left side has the arguments of the cited facts.
pub(crate) fn is_left_same(
    alloc: Global,
    sig: &Signature,
    rule: &Rule,
    cited: &FactList,
    c: &Bindings,
) -> Result<bool, Cut>
    requires count { length cited.now ≡ length rule.now.left }
    ensures same { IfOk result (IsLeftSame sig.now (bound_to c.now) rule.now.left cited.now) }
    ensures large { IsErrOf result Cut.Large → SomeLarge sig.now (map (subst_tree c.now) (args_of rule.now.left)) }
{
    let left = forms_of_facts(alloc, sig, &rule.left, c)?;
    Ok(have_args(&left, cited))
}
