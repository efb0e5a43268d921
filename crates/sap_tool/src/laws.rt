//! Laws of theories that keep their files, and of files as they are written.
ghost use Rattle.std.specs.Prelude.{◌≡◌, ◌↔◌, ℕ, List, [], ◌∷◌};
ghost use Rattle.sap_terms.specs.Trace.{Trace};
ghost use Rattle.sap_formula.specs.Form.{LemmaForm};
ghost use Rattle.sap_formula.specs.HoldsOf.{HoldsOf};
ghost use Rattle.sap_inline.specs.Inline.{formulas};
ghost use Rattle.sap_process.specs.ProcessSteps.{IsProcessTrace};
ghost use Rattle.sap_macro.specs.Expansion.{plain};
ghost use Rattle.sap_macro.specs.Written.{Definition, Written};
ghost use Rattle.sap_macro.specs.WrittenExamples.{testing, use_testing};
ghost use Rattle.sap_macro.specs.WrittenRuns.{HasArgumentsInScope, IsFileTrace};
ghost use Rattle.sap_rule.specs.declared.theory.Theory.{Theory};
ghost use Rattle.sap_read.specs.AsWritten.{IsWrittenAs};
ghost use Rattle.sap_read.specs.Files.{FileContent};
ghost use Rattle.sap_translate.specs.Faithful.{IsShownBy};
ghost use Rattle.sap_gen.specs.Kept.{KeepsFile};
ghost use Rattle.sap_tool.specs.AsWritten.{HoldsAsWritten, ShowsAsWritten};
ghost use Rattle.sap_tool.specs.AsWrittenExamples.{about_nothing, never, none_apart, sometimes};

use sap_macro::files_by_hand_as_written;
use sap_read::files_show_as_they_are_written;

/// A law: where a file has no restrictions of its own, a theory that keeps it shows exactly what the file's process shows, on the
/// runs on whose full traces the theory's restrictions are true.
pub fn unrestricted_files_are_shown()
    ensures { (f : FileContent) (t : Theory) (tr : Trace) → KeepsFile f t → f.restrictions ≡ []
        → IsProcessTrace f.signature f.process tr ↔ IsShownBy t tr }
{}

/// A law: of which bytes a file as it is written speaks, and of what. Where bytes show as they are written what a file tells, they are
/// written with some definitions and one process. With whichever they are, if each use in the process names in its arguments what is in
/// scope there, that process shows, where a use runs as its definition's instance, what the file's process shows, and nothing else; and a
/// lemma holds of its traces, among those on which the file's restrictions are true, exactly where it holds of those of the file's process.
pub fn these_bytes_are_meant()
    ensures written { (z : List ℕ) (f : FileContent) → ShowsAsWritten z f
        → (ds : List Definition) × (p : Written) × IsWrittenAs z ds p }
    ensures traces { (z : List ℕ) (f : FileContent) (ds : List Definition) (p : Written) (tr : Trace) → ShowsAsWritten z f
        → IsWrittenAs z ds p → HasArgumentsInScope [] (plain ds p)
        → IsFileTrace f.signature ds p tr ↔ IsProcessTrace f.signature f.process tr }
    ensures lemmas { (z : List ℕ) (f : FileContent) (ds : List Definition) (p : Written) (l : LemmaForm) → ShowsAsWritten z f
        → IsWrittenAs z ds p → HasArgumentsInScope [] (plain ds p)
        → HoldsOf f.signature (IsFileTrace f.signature ds p) (formulas f.restrictions) l.mode l.formula
        ↔ HoldsOf f.signature (IsProcessTrace f.signature f.process) (formulas f.restrictions) l.mode l.formula }
{
    files_show_as_they_are_written();
}

/// A law: what holds of a small process as it is written, `A('a','b')` behind `let A(x,y) = if x = y then event Same(x) else event
/// Apart(x,y)`, whatever process its file is read as. Some trace shows `Apart('a','b')`, so that it isn't so of all that none does; and
/// under the restriction that none does, none does.
pub fn lemmas_as_written_by_hand()
    ensures some_trace { HoldsAsWritten (about_nothing []) (testing ∷ []) use_testing sometimes }
    ensures not_all { ¬ HoldsAsWritten (about_nothing []) (testing ∷ []) use_testing never }
    ensures not_restricted { ¬ HoldsAsWritten (about_nothing (none_apart ∷ [])) (testing ∷ []) use_testing sometimes }
{
    files_by_hand_as_written();
}
