//! Laws of the theories of a file, as contracts of functions that only call the laws below.
ghost use Rattle.std.specs.Prelude.{All, List, [], false, ◌≡◌, ◌↔◌};
ghost use Rattle.sap_formula.specs.Form.{Form};
ghost use Rattle.sap_formula.specs.HoldsOf.{HoldsOf};
ghost use Rattle.sap_formula.specs.declared.lemma.Mode.{Mode};
ghost use Rattle.sap_process.specs.Proc.{Proc};
ghost use Rattle.sap_process.specs.ProcessSteps.{IsProcessTrace};
ghost use Rattle.sap_restrict.specs.Inline.{inlined};
ghost use Rattle.sap_rule.specs.RuleSteps.{IsFullTrace};
ghost use Rattle.sap_terms.specs.Signature.{Sig};
ghost use Rattle.sap_theory.specs.ReadAgain.{PassesChecks};
ghost use Rattle.sap_gen.specs.Kept.{IsClosedTheory, KeepsFile, KeepsFileInlined, file_theory, inlined_file_theory};
ghost use Rattle.sap_read.specs.OwnNames.{HaveOwnNames, IsNamedApart};
ghost use Rattle.sap_read.specs.Files.{FileContent, IsRunnable};
ghost use Rattle.sap_read.specs.Printable.{IsPrintableFile};
ghost use Rattle.sap_read.specs.declared.limits.TheConstants.{MOST_NEW_NAME_BYTES};
ghost use Rattle.sap_templates.specs.Templates.{rules_of};
ghost use Rattle.sap_rule.specs.declared.rule.Rule.{Rule};
ghost use Rattle.sap_terms.specs.declared.fact.Fact.{Fact};
ghost use Rattle.sap_terms.specs.declared.limits.TheConstants.{MOST_FILE_NAME_BYTES, MOST_THEORY_NAME_BYTES};
ghost use Rattle.sap_theory.specs.PrintableTheory.{IsPrintable};

use sap_formula::{faultless_formulas_are_checked, hiding_keeps_truth};
use sap_restrict::{inlining_keeps_lemmas, restrictions_are_closed};
use sap_terms::leaves_are_normal;
use sap_translate::{
    annotations_are_settled, rules_are_well_made, rules_show_the_process, sound_processes_are_shown,
};

/// A law: the theory of a file that can be run keeps it. It has the file's name, signature and lemmas, and its restrictions
/// behind those that the process needs; admitted runs of its rules show exactly the traces of the process, and runs on whose
/// full traces its restrictions are true show exactly those on which the file's are; and each lemma holds of the theory exactly
/// where it holds of the file. The theory whose lemmas carry all these restrictions keeps it in the same way: it has none
/// itself.
pub fn theories_keep_files()
    ensures plain { (f : FileContent) → IsRunnable f → KeepsFile f (file_theory f) }
    ensures inlined { (f : FileContent) → IsRunnable f → KeepsFileInlined f (inlined_file_theory f) }
{
    leaves_are_normal();
    rules_show_the_process();
    sound_processes_are_shown();
    hiding_keeps_truth();
    inlining_keeps_lemmas();
}

/// A law: each restriction and each lemma of both theories of a file that can be run is checked where facts may have any names,
/// so that who reads them back without looking for reserved names refuses none.
pub fn theories_are_closed()
    ensures plain { (f : FileContent) → IsRunnable f → IsClosedTheory (file_theory f) }
    ensures inlined { (f : FileContent) → IsRunnable f → IsClosedTheory (inlined_file_theory f) }
{
    restrictions_are_closed();
    faultless_formulas_are_checked();
}

/// A law: both theories of a file that can be run and printed can be printed: each name that stands in them is one, of at most
/// MOST_THEORY_NAME_BYTES bytes, no plain variable is a constant of the signature, and each formula has the sorts of its binders.
/// The rules show linear facts alone.
pub fn theories_are_printable()
    ensures plain { (f : FileContent) → IsRunnable f → IsPrintableFile MOST_FILE_NAME_BYTES MOST_NEW_NAME_BYTES f
        → IsPrintable MOST_THEORY_NAME_BYTES (file_theory f) }
    ensures inlined { (f : FileContent) → IsRunnable f → IsPrintableFile MOST_FILE_NAME_BYTES MOST_NEW_NAME_BYTES f
        → IsPrintable MOST_THEORY_NAME_BYTES (inlined_file_theory f) }
    ensures linear { (f : FileContent) → IsRunnable f → IsPrintableFile MOST_FILE_NAME_BYTES MOST_NEW_NAME_BYTES f
        → All (λ (r : Rule). All (λ (h : Fact). h.persistent ≡ false) r.acts) (rules_of f.process) }
{
    annotations_are_settled();
}

/// A law: a lemma holds of all full traces of rules, or of all traces of a process, among those on which some restrictions are
/// true, exactly where the lemma that carries them holds of the same traces under none.
pub fn inlined_lemmas_hold()
    ensures rules { (g : Sig) (rules : List Rule) (us : List Form) (mode : Mode) (f : Form)
        → HoldsOf g (IsFullTrace g rules) us mode f ↔ HoldsOf g (IsFullTrace g rules) [] mode (inlined mode us f) }
    ensures process { (g : Sig) (p : Proc) (us : List Form) (mode : Mode) (f : Form)
        → HoldsOf g (IsProcessTrace g p) us mode f ↔ HoldsOf g (IsProcessTrace g p) [] mode (inlined mode us f) }
{
    inlining_keeps_lemmas();
}

/// A law: where no two of a file's restrictions and lemmas have one name, and none has that of one of the seven, no two of those
/// of either theory have one name.
pub fn theories_are_named_apart()
    ensures plain { (f : FileContent) → IsNamedApart f
        → HaveOwnNames (file_theory f).restrictions (file_theory f).lemmas }
    ensures inlined { (f : FileContent) → IsNamedApart f
        → HaveOwnNames (inlined_file_theory f).restrictions (inlined_file_theory f).lemmas }
{}

/// A law: both theories of such a file pass the checks of who reads them back: no two rules have one name, and no two restrictions
/// or lemmas; each rule is over the signature, each of its facts stands where it may, and those that it shows are linear; no
/// formula has a fault, where facts may have any names.
pub fn theories_pass_checks()
    ensures plain { (f : FileContent) → IsRunnable f → IsPrintableFile MOST_FILE_NAME_BYTES MOST_NEW_NAME_BYTES f
        → IsNamedApart f → PassesChecks (file_theory f) }
    ensures inlined { (f : FileContent) → IsRunnable f → IsPrintableFile MOST_FILE_NAME_BYTES MOST_NEW_NAME_BYTES f
        → IsNamedApart f → PassesChecks (inlined_file_theory f) }
{
    restrictions_are_closed();
    faultless_formulas_are_checked();
    annotations_are_settled();
    rules_are_well_made();
}
