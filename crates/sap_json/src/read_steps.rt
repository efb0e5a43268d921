//! Steps, read from their arrays.
ghost use Rattle.std.specs.Prelude.{IfOk};
ghost use Rattle.serde_json.specs.View.{view};
ghost use Rattle.sap_run_lines.specs.WholeWords.{IsReadAs};
ghost use Rattle.sap_json.specs.Arrays.{IsProcessArray, IsRuleArray};

use crate::listed::Listed;
use crate::read_operands::read_operands;
use crate::step_of::{process_of, rule_of};
use crate::values::word_first;
use sap_run_lines::{one_run_term, one_run_word};
use sap_runs::{PStep, RStep};
use sap_terms::Mem;
use serde_json::Value;
use std::alloc::Global;

fn process_step(alloc: Global, value: &Value) -> Result<Option<PStep>, Mem>
    ensures { IfOk result (IsReadAs IsProcessArray (view value.now)) }
{
    one_run_term();
    one_run_word();
    match word_first(value) {
        None => Ok(None),
        Some((word, rest)) => match read_operands(alloc, rest)? {
            None => Ok(None),
            Some(operands) => Ok(process_of(word, operands)),
        },
    }
}

fn rule_step(alloc: Global, value: &Value) -> Result<Option<RStep>, Mem>
    ensures { IfOk result (IsReadAs IsRuleArray (view value.now)) }
{
    one_run_term();
    one_run_word();
    match word_first(value) {
        None => Ok(None),
        Some((word, rest)) => match read_operands(alloc, rest)? {
            None => Ok(None),
            Some(operands) => Ok(rule_of(word, operands)),
        },
    }
}

impl Listed for PStep {
    ghost use Rattle.sap_json.specs.Arrays.{IsProcessArray};

    ghost is = { IsProcessArray };

    fn read(alloc: Global, value: &Value) -> Result<Option<PStep>, Mem> {
        process_step(alloc, value)
    }
}

impl Listed for RStep {
    ghost use Rattle.sap_json.specs.Arrays.{IsRuleArray};

    ghost is = { IsRuleArray };

    fn read(alloc: Global, value: &Value) -> Result<Option<RStep>, Mem> {
        rule_step(alloc, value)
    }
}
