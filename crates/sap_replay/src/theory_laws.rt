//! A law of theories that are read.
ghost use Rattle.std.specs.Prelude.{ℕ, List, Ok};
ghost use Rattle.sap_terms.specs.Signature.{HoldsBuiltins};
ghost use Rattle.sap_theory.specs.ReadTheory.{IsTheoryRead};
ghost use Rattle.sap_rule.specs.declared.theory.Theory.{Theory};
ghost use Rattle.sap_replay.specs.Replays.{IsCheckable};

use sap_formula::faultless_formulas_are_checked;
use sap_theory::read_theories_are_spelled;

/// A law: a theory that is read can be run, and its formulas are closed.
pub fn read_theories_can_run()
    ensures builtins { (z : List ℕ) (t : Theory) → IsTheoryRead z (Ok t) → HoldsBuiltins t.signature }
    ensures checkable { (z : List ℕ) (t : Theory) → IsTheoryRead z (Ok t) → IsCheckable t }
{
    read_theories_are_spelled();
    faultless_formulas_are_checked();
}
