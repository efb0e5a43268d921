//! Lines of rule runs, read.
ghost use Rattle.std.specs.Prelude.{◌≡◌, IfOk};
ghost use Rattle.sap_run_lines.specs.StepLines.{IsRuleStepLine, IsLineRead};
ghost use Rattle.sap_run_lines.specs.code.StepTaking.{rule_line_of};

use crate::take::identifier_at;
use crate::take_steps::rule_named;
use sap_runs::RStep;
use sap_terms::Mem;
use std::alloc::Global;

#[tactic(auto, unfolding(crate::specs::code::Taking::after))]
fn rule_line(alloc: Global, bytes: &[u8]) -> Result<Option<RStep>, Mem>
    ensures { IfOk result (λ o. o ≡ rule_line_of bytes.now) }
{
    match identifier_at(bytes) {
        None => Ok(None),
        Some((word, rest)) => rule_named(alloc, word, rest),
    }
}

/// The step of rules whose line, without its line feed, these bytes are; `None` exactly where they are no step's. The work
/// is linear in the bytes; it recurses a few calls for each node of a term.
pub fn read_rule_line(alloc: Global, bytes: &[u8]) -> Result<Option<RStep>, Mem>
    ensures { IfOk result (IsLineRead IsRuleStepLine bytes.now) }
{
    rule_line(alloc, bytes)
}
