//! What is so of runs as JSON.
ghost use Rattle.std.specs.Prelude.{◌≡◌, ℕ, codes, List, [], ◌∷◌, Result, Ok};
ghost use Rattle.serde_json.specs.Data.{string, array, number, null, unsigned};
ghost use Rattle.serde_json.specs.View.{items_of};
ghost use Rattle.sap_terms.specs.declared.var.Sort.TheVariants.{Pub};
ghost use Rattle.sap_terms.specs.declared.term.Term.TheVariants as term;
ghost use Rattle.sap_runs.specs.declared.process_step.PStep.{PStep};
ghost use Rattle.sap_runs.specs.declared.process_step.PStep.TheVariants as step;
ghost use Rattle.sap_run_texts.specs.declared.run.Run.{Run};
ghost use Rattle.sap_run_texts.specs.declared.run.Run.TheVariants as run;
ghost use Rattle.sap_json.specs.declared.json_fault.JsonFault.{JsonFault};
ghost use Rattle.sap_json.specs.RunValues.{IsJsonRead};
ghost use Rattle.sap_json.specs.Arrays.{IsProcessArray};
ghost use Rattle.sap_json.specs.Written.{process_data, json_text, CanBeWritten, HasFewSteps};

use sap_run_lines::{
    one_run_term, one_run_word, run_words_are_decided, spelled_terms_can_be_written,
    written_lines_are_read, written_words_are_ascii,
};

/// A law: bytes have one answer at most.
pub fn one_json_run()
    ensures { (z : List ℕ) (o u : Result Run JsonFault) → IsJsonRead z o → IsJsonRead z u → o ≡ u }
{
    one_run_term();
    one_run_word();
}

/// A law: each bytes have an answer.
pub fn some_json_run()
    ensures { (z : List ℕ) → ((o : Result Run JsonFault) × IsJsonRead z o) }
{
    one_run_term();
    one_run_word();
    run_words_are_decided();
}

/// A law: what is written of a run is read as this run, where each of its steps can be written and they aren't more than a run
/// may have.
pub fn written_json_is_read()
    ensures { (r : Run) → CanBeWritten r → HasFewSteps r → IsJsonRead (json_text r) (Ok r) }
{
    written_lines_are_read();
    written_words_are_ascii();
}

/// A law: each step of a run that was read can be written.
pub fn json_runs_can_be_written()
    ensures { (z : List ℕ) (r : Run) → IsJsonRead z (Ok r) → CanBeWritten r }
{
    spelled_terms_can_be_written();
}

/// A law: runs and arrays tried by hand. Steps as data: a public name; a symbol on two entries, whose numbers stand in an array;
/// an embedded rule with no fact and one binding. The text of a run of one step. And arrays that are no step's: with null in place
/// of a number, with a number in a string, with a number in place of an array of numbers, with two words in one string.
pub fn arrays_by_hand()
    ensures public { process_data (step.Public (codes "a"))
        ≡ array (items_of (string (codes "pub") ∷ string (codes "'a'") ∷ [])) }
    ensures apply { process_data (step.Apply (codes "pair") (0 ∷ 0 ∷ []))
        ≡ array (items_of (string (codes "app") ∷ string (codes "pair")
        ∷ array (items_of (number (unsigned 0) ∷ number (unsigned 0) ∷ [])) ∷ [])) }
    ensures embedded { process_data (step.Embedded 0 [] (record {
      var = record { name = codes "a"; sort = Pub };
      term = term.Public (codes "b");
    } ∷ []))
        ≡ array (items_of (string (codes "rule") ∷ number (unsigned 0) ∷ array (items_of [])
        ∷ array (items_of (array (items_of (string (codes "$a") ∷ string (codes "'b'") ∷ [])) ∷ [])) ∷ [])) }
    ensures text { json_text (run.Process (step.In 0 1 ∷ []))
        ≡ codes "{\"kind\":\"process-run\",\"steps\":[[\"in\",0,1]]}\n" }
    ensures no_null { (s : PStep)
        → IsProcessArray s (array (items_of (string (codes "nil") ∷ null ∷ []))) → ⊥ }
    ensures no_string { (s : PStep) → IsProcessArray s (array (items_of (string (codes "in")
        ∷ string (codes "0") ∷ number (unsigned 1) ∷ []))) → ⊥ }
    ensures no_list { (s : PStep) → IsProcessArray s (array (items_of (string (codes "app")
        ∷ string (codes "h") ∷ number (unsigned 1) ∷ []))) → ⊥ }
    ensures no_blank { (s : PStep) → IsProcessArray s (array (items_of (string (codes "app")
        ∷ string (codes "h 0") ∷ array (items_of (number (unsigned 1) ∷ [])) ∷ []))) → ⊥ }
{}
