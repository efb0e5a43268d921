//! Lines of rules, as a conversion makes them.
ghost use Rattle.std.specs.Prelude.{◌≡◌, ◌+◌, [], ◌∷◌, ◌++◌, IfOk, OnOk};
ghost use Rattle.sap_rule_lines.specs.RuleLines.{uses};

use sap_place::with_digits;
use sap_runs::{RStep, RSteps};
use sap_terms::{Bindings, Mem, Numbers, Path};
use std::alloc::Global;

/// The number so much later; beyond the greatest u64 it is want of memory.
pub fn later(number: u64, by: u64) -> Result<u64, Mem>
    ensures { IfOk result (λ n. n ≡ number + by) }
{
    number.checked_add(by).ok_or(Mem)
}

/// Puts the rule of this word last, at the place with this path, on these facts.
pub fn push_rule(
    alloc: Global,
    word: &[u8],
    path: &Path,
    facts: Numbers,
    bindings: Bindings,
    lines: &mut RSteps,
) -> Result<(), Mem>
    ensures { OnOk result (lines.new ≡ lines.old ++ uses word.now path.now facts bindings ∷ []) }
{
    let name = with_digits(alloc, word, path)?;
    lines.push(RStep::Rule(name, facts, bindings))
}

/// That rule on one fact.
pub fn push_rule_on_one(
    alloc: Global,
    word: &[u8],
    path: &Path,
    fact: u64,
    lines: &mut RSteps,
) -> Result<(), Mem>
    ensures { OnOk result (lines.new ≡ lines.old ++ uses word.now path.now (fact ∷ []) [] ∷ []) }
{
    let mut facts = Numbers::new(alloc);
    facts.push(fact)?;
    push_rule(alloc, word, path, facts, Bindings::new(alloc), lines)
}

/// That rule on two facts.
pub fn push_rule_on_two(
    alloc: Global,
    word: &[u8],
    path: &Path,
    first: u64,
    second: u64,
    lines: &mut RSteps,
) -> Result<(), Mem>
    ensures { OnOk result (lines.new
        ≡ lines.old ++ uses word.now path.now (first ∷ second ∷ []) [] ∷ []) }
{
    let mut facts = Numbers::new(alloc);
    facts.push(first)?;
    facts.push(second)?;
    push_rule(alloc, word, path, facts, Bindings::new(alloc), lines)
}
