//! A theory whose rules are others.
ghost use Rattle.std.specs.Prelude.{◌≡◌};

use sap_rule::{RuleList, Theory};
use std::mem;

/// Puts these rules in place of the theory's own, and answers its own.
pub fn replace_rules(t: &mut Theory, rules: RuleList) -> RuleList
    ensures theory { t.new ≡ record t.old { rules = rules } }
    ensures own { result ≡ t.old.rules }
{
    mem::replace(&mut t.rules, rules)
}
