//! The commands that read and write runs as JSON, tried by hand.

ghost use Rattle.std.specs.Prelude.{◌≡◌, ℕ, codes, List, [], ◌∷◌};
ghost use Rattle.sap_json.specs.Written.{json_text};
ghost use Rattle.sap_run_texts.specs.declared.run.Run.TheVariants as run;
ghost use Rattle.sap_tool.specs.Commands.{Allows, Refuses, RefusesRun, alone, and_run, from_json, run_alone, spelled, to_json};
ghost use Rattle.sap_replay.specs.JsonRuns.{IsJsonOf};

/// A law: the two commands tried by hand. What words ask for them; what `to-json` writes of the run of rules without steps; that it
/// refuses a text without a head. Neither refuses a file, `to-json` allows nothing for what is fetched, and `from-json` nothing for a
/// run that is read in pieces, and refuses none.
pub fn json_by_hand()
    ensures to_words { spelled (to_json (codes "a")) ≡ codes "to-json" ∷ codes "a" ∷ [] }
    ensures from_words { spelled (from_json (codes "a")) ≡ codes "from-json" ∷ codes "a" ∷ [] }
    ensures empty { IsJsonOf (codes "rule-run\n") (json_text (run.Rules [])) }
    ensures headless { (run : List ℕ)
        → RefusesRun (to_json run) (run_alone (codes "x")) (codes "wrong head") }
    ensures no_file { (name bytes why : List ℕ) → Refuses (to_json name) bytes why → ⊥ }
    ensures no_file_too { (name bytes why : List ℕ) → Refuses (from_json name) bytes why → ⊥ }
    ensures no_fetch { (run bytes text : List ℕ) → Allows (to_json run) (alone bytes) text → ⊥ }
    ensures no_pieces { (json z text : List ℕ) → Allows (from_json json) (run_alone z) text → ⊥ }
    ensures no_refusal { (json bytes z why : List ℕ)
        → RefusesRun (from_json json) (and_run bytes z) why → ⊥ }
{}
