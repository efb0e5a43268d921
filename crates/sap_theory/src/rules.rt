//! Rules as text.
ghost use Rattle.std.specs.Prelude.{◌≡◌, ◌++◌, OnOk};
ghost use Rattle.sap_theory.specs.RuleText.{rule_text, rules_text};

use sap_grammar::{push_arrow, push_facts};
use sap_rule::{Rule, RuleList};
use sap_terms::Mem;
use sap_text::Text;

pub(crate) fn push_rules(text: &mut Text, rules: &RuleList) -> Result<(), Mem>
    ensures { OnOk result (text.new ≡ text.old ++ rules_text rules.now) }
{
    for rule in rules.as_slice() {
        push_rule(text, rule)?;
    }
    Ok(())
}

fn push_rule(text: &mut Text, rule: &Rule) -> Result<(), Mem>
    ensures { OnOk result (text.new ≡ text.old ++ rule_text rule.now) }
{
    text.push_bytes(b"\nrule ")?;
    text.push_bytes(rule.name.as_bytes())?;
    text.push_bytes(b":\n  ")?;
    push_facts(text, &rule.left)?;
    push_arrow(text, &rule.acts)?;
    push_facts(text, &rule.right)?;
    text.push_bytes(b"\n")
}
