//! Laws of verdicts and their lines.
ghost use Rattle.std.specs.Prelude.{◌≡◌, ◌∷◌, ◌↔◌, List, [], codes};
ghost use Rattle.sap_formula.specs.Truth.{EachIn};
ghost use Rattle.sap_verdicts.specs.Findings.{Found};
ghost use Rattle.sap_verdicts.specs.Modes.{FindingsDecide, OneRunDecides};
ghost use Rattle.sap_verdicts.specs.OneFinding.{OneFinding};
ghost use Rattle.sap_verdicts.specs.Standing.{IsBroken, IsKept, SomeIn, standing};
ghost use Rattle.sap_verdicts.specs.VerdictExamples.{five_and_twenty, lines, secret, standings, two_lines};
ghost use Rattle.sap_verdicts.specs.VerdictText.{verdict_marks, verdicts_text};
ghost use Rattle.sap_verdicts.specs.declared.standing.Standing.TheVariants.{Counts, Excluded, Undecided};

use sap_judge::{one_verdict, there_is_a_reason};
use sap_lines::lines_are_steps;

/// Where all restrictions are true on what a legal run shows, a formula that isn't true there is no lemma of all traces, and one that
/// is true there is one of some trace; so it is where the lines say it.
pub fn one_run_decides()
    ensures run { OneRunDecides }
    ensures lines { FindingsDecide }
{
    lines_are_steps();
}

/// One thing is found of formulas that are closed on a trace of messages.
pub fn one_finding()
    ensures { OneFinding }
{
    one_verdict();
    there_is_a_reason();
}

/// A run counts exactly where each restriction holds on it, and is excluded exactly where one fails.
pub fn standings_say()
    ensures counts { (ys : List Found) → (standing ys ≡ Counts) ↔ EachIn IsKept ys }
    ensures excluded { (ys : List Found) → (standing ys ≡ Excluded) ↔ SomeIn IsBroken ys }
{}

/// Whether a run counts, by hand.
pub fn standings_by_hand()
    ensures { EachIn (λ e. standing e.0 ≡ e.1) standings }
{}

/// Lines of verdicts by hand, alone, and two that have line feeds.
pub fn verdict_lines_by_hand()
    ensures alone { EachIn (λ e. e.0 ≡ e.1) lines }
    ensures two { two_lines }
{}

/// Which rows a reason names, by hand.
pub fn marks_by_hand()
    ensures { verdict_marks five_and_twenty (secret ∷ secret ∷ []) ≡ (5, codes "secret #i") ∷ (20, codes "secret #j") ∷ (5, codes "secret #i") ∷ (20, codes "secret #j") ∷ [] }
{}
