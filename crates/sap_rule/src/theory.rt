//! Theories: rules with restrictions and lemmas.
ghost use Rattle.std.specs.Prelude.{◌≡◌, ◌↔◌, All, IfOk, IsTrue};
ghost use Rattle.std.specs.Option.{option_copied};
ghost use Rattle.sap_rule.specs.Named.{rule_named};
ghost use Rattle.sap_rule.specs.WellMade.{IsWellMade};

use crate::{Rule, RuleList, is_well_made};
use sap_formula::{LemmaList, RestrictionList};
use sap_terms::{Copied, Mem, Name, Signature};
use std::alloc::Global;

/// Rules over a signature, with the restrictions that a trace has to keep to count, and lemmas on the traces.
#[derive(Drop)]
pub struct Theory {
    pub name: Name,
    pub signature: Signature,
    pub rules: RuleList,
    pub restrictions: RestrictionList,
    pub lemmas: LemmaList,
}

impl Copied for Theory {
    fn copy(&self, alloc: Global) -> Result<Theory, Mem> {
        let (restrictions, lemmas) = statements_of(alloc, self)?;
        let rules = self.rules.copy(alloc)?;
        let (name, signature) = head_of(alloc, self)?;
        Ok(Theory {
            name,
            signature,
            rules,
            restrictions,
            lemmas,
        })
    }
}

// Copies of the theory's name and signature.
fn head_of(alloc: Global, t: &Theory) -> Result<(Name, Signature), Mem>
    ensures { IfOk result (λ p. (p.0 ≡ t.now.name) × (p.1 ≡ t.now.signature)) }
{
    let name = t.name.copy(alloc)?;
    Ok((name, t.signature.copy(alloc)?))
}

// Copies of its restrictions and lemmas.
fn statements_of(alloc: Global, t: &Theory) -> Result<(RestrictionList, LemmaList), Mem>
    ensures { IfOk result (λ p. (p.0 ≡ t.now.restrictions) × (p.1 ≡ t.now.lemmas)) }
{
    let restrictions = t.restrictions.copy(alloc)?;
    Ok((restrictions, t.lemmas.copy(alloc)?))
}

impl Theory {
    /// The rule of this name that stands first, if one has it. It takes no memory, and time in proportion to the rules.
    pub fn rule_named(&self, name: &Name) -> Option<&Rule>
        ensures { option_copied result ≡ rule_named self.now.rules name.now }
    {
        for r in self.rules.as_slice() {
            if r.name.same(name) {
                return Some(r);
            }
        }
        None
    }

    /// Whether each rule is well made, so that the theory's rules can be run. It takes time in proportion to the rules.
    /// It recurses as deep as the rules' terms.
    pub fn can_run(&self, alloc: Global) -> Result<bool, Mem>
        ensures { IfOk result (λ b. IsTrue b ↔ All (IsWellMade self.now.signature) self.now.rules) }
    {
        for k in 0..self.rules.len() {
            if !is_well_made(alloc, &self.signature, self.rules.at(k))? {
                return Ok(false);
            }
        }
        Ok(true)
    }
}
