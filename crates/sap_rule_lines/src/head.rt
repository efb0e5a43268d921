//! What stands before the lines of rules for each line of a process.
ghost use Rattle.std.specs.Prelude.{◌≡◌, IfOk};
ghost use Rattle.sap_rule_lines.specs.RuleLines.{head_for, init_line};

use sap_runs::{PSteps, RStep, RSteps};
use sap_terms::{Bindings, Mem, Name, Numbers};
use std::alloc::Global;

// The line that starts the rules.
fn first_line(alloc: Global) -> Result<RStep, Mem>
    ensures { IfOk result (λ line. line ≡ init_line) }
{
    let name = Name::from_bytes(alloc, b"Init")?;
    Ok(RStep::Rule(name, Numbers::new(alloc), Bindings::new(alloc)))
}

/// The lines of rules that stand before those for each line of the run: the one that starts the rules. None stand opposite to
/// none. Want of memory is the only error.
pub fn head_lines(alloc: Global, run: &PSteps) -> Result<RSteps, Mem>
    ensures { IfOk result (λ lines. lines ≡ head_for run.now) }
{
    let mut lines = RSteps::new(alloc);
    if run.len() == 0 {
        return Ok(lines);
    }
    lines.push(first_line(alloc)?)?;
    Ok(lines)
}
