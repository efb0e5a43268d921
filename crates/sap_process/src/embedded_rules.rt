//! The variables of an embedded rule.
ghost use Rattle.std.specs.Prelude.{◌≡◌, ◌++◌, IfOk};
ghost use Rattle.sap_terms.specs.Variables.{facts_vars};

use sap_terms::{FactList, Mem, Vars, push_facts_vars};
use std::alloc::Global;

/// The variables of an embedded rule's left side, of what it shows and of its right side, each as often as it stands there. It
/// recurses as deep as the terms. Want of memory is the only error.
#[tactic(auto, using(crate::proofs::RuleVars::vars_of_rule))]
pub fn rule_vars(alloc: Global, l: &FactList, e: &FactList, r: &FactList) -> Result<Vars, Mem>
    ensures { IfOk result (λ vs. vs ≡ facts_vars (l.now ++ (e.now ++ r.now))) }
{
    let mut vars = Vars::new(alloc);
    push_facts_vars(alloc, l, &mut vars)?;
    push_facts_vars(alloc, e, &mut vars)?;
    push_facts_vars(alloc, r, &mut vars)?;
    Ok(vars)
}
