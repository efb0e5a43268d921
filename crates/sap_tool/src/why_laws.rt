//! Laws of what is told of files, and of the command that tells it.

ghost use Rattle.std.specs.Prelude.{◌≡◌, ℕ, codes, List, [], ◌∷◌};
ghost use Rattle.sap_tool.specs.Commands.{Allows, Input, Refuses, RefusesRun, TakesRun, and_run, explain, run_alone, spelled};
ghost use Rattle.sap_tool.specs.WhyTexts.{IsWhyText};

use sap_explain::one_explanation;
use sap_notes::one_notes_text;
use sap_read::one_file;

/// A law: of some bytes one text is told.
pub fn one_why_text()
    ensures { (bytes text other : List ℕ) → IsWhyText bytes text → IsWhyText bytes other
        → text ≡ other }
{
    one_file();
    one_explanation();
    one_notes_text();
}

/// A law: the command tried by hand. What words ask for it; that it refuses no file and no run, takes no run, and allows nothing where a
/// run is read.
pub fn why_by_hand()
    ensures words { spelled (explain (codes "a")) ≡ codes "why" ∷ codes "a" ∷ [] }
    ensures no_refusal { (file bytes why : List ℕ) → Refuses (explain file) bytes why → ⊥ }
    ensures no_run_refusal { (file why : List ℕ) (input : Input) → RefusesRun (explain file) input why → ⊥ }
    ensures no_run { (file : List ℕ) (input : Input) → TakesRun (explain file) input → ⊥ }
    ensures no_pieces { (file z text : List ℕ) → Allows (explain file) (run_alone z) text → ⊥ }
    ensures no_both { (file bytes z text : List ℕ) → Allows (explain file) (and_run bytes z) text → ⊥ }
{}
