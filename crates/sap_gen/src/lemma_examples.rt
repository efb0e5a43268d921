//! Lemmas of a small file by hand, as contracts of a function that only calls the laws below.
ghost use Rattle.std.specs.Prelude.{[], ◌≡◌};
ghost use Rattle.sap_gen.specs.Kept.{HoldsOfFile, HoldsOfTheory, KeepsFile, file_theory, inlined_file_lemma, inlined_file_theory};
ghost use Rattle.sap_gen.specs.LemmaExamples.{idle_file, is_reached, secret_file, starts, stays_secret};
ghost use Rattle.sap_rule.specs.declared.theory.Theory.{Theory};
ghost use Rattle.sap_terms.specs.Signature.{HoldsBuiltins, Sig};

use sap_formula::hiding_keeps_truth;
use sap_restrict::inlining_keeps_lemmas;
use sap_terms::leaves_are_normal;
use sap_translate::sound_processes_are_shown;

/// A law: `new ~s; event Secret(~s); out(~s)` doesn't keep its secret, and reaches its event: the file, its theory, and the
/// theory whose lemmas carry all restrictions. The file with the process `0` has no trace that shows `Init()`, and the rules of its
/// theory have one: a lemma that speaks of a hidden fact may hold of the theory alone. And no theory without rules keeps the
/// first file.
pub fn lemmas_by_hand()
    ensures fails { (g : Sig) → ¬ HoldsOfFile (secret_file g) stays_secret }
    ensures reaches { (g : Sig) → HoldsOfFile (secret_file g) is_reached }
    ensures theory_fails { (g : Sig) → HoldsBuiltins g → ¬ HoldsOfTheory (file_theory (secret_file g)) stays_secret }
    ensures theory_reaches { (g : Sig) → HoldsBuiltins g → HoldsOfTheory (file_theory (secret_file g)) is_reached }
    ensures inlined_fails { (g : Sig) → HoldsBuiltins g
        → ¬ HoldsOfTheory (inlined_file_theory (secret_file g)) (inlined_file_lemma (secret_file g) stays_secret) }
    ensures inlined_reaches { (g : Sig) → HoldsBuiltins g
        → HoldsOfTheory (inlined_file_theory (secret_file g)) (inlined_file_lemma (secret_file g) is_reached) }
    ensures never_starts { (g : Sig) → HoldsBuiltins g → ¬ HoldsOfFile (idle_file g) starts }
    ensures theory_starts { (g : Sig) → HoldsOfTheory (file_theory (idle_file g)) starts }
    ensures rules_needed { (g : Sig) (t : Theory) → t.rules ≡ [] → ¬ KeepsFile (secret_file g) t }
{
    leaves_are_normal();
    sound_processes_are_shown();
    hiding_keeps_truth();
    inlining_keeps_lemmas();
}
