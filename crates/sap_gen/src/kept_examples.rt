//! What theories keep of small files by hand, as contracts of functions that only call the laws below.
ghost use Rattle.std.specs.Prelude.{[], ◌∷◌, ◌≡◌};
ghost use Rattle.sap_gen.specs.Kept.{KeepsFile, KeepsFileInlined, file_theory, inlined_file_theory};
ghost use Rattle.sap_gen.specs.KeptExamples.{anyway, ever, ever_of_some, ever_otherwise, ever_renamed, ever_with_attribute, over_signature, renamed, restricted_idle_file, small_file, with_lemmas, with_restrictions};
ghost use Rattle.sap_gen.specs.LemmaExamples.{idle_file, sends_secret};
ghost use Rattle.sap_restrict.specs.Restrictions.{needed_restrictions};
ghost use Rattle.sap_terms.specs.Signature.{HoldsBuiltins, Sig};

use sap_formula::hiding_keeps_truth;
use sap_restrict::inlining_keeps_lemmas;
use sap_terms::leaves_are_normal;
use sap_translate::sound_processes_are_shown;

/// A law: a small file with the restriction and the lemma `T` is kept by its theory, and by none that differs from that in one
/// thing: in its name or its signature; without the file's restriction, or with it before the one that the process needs; without
/// the lemma, or with one of another name, other attributes, another mode or another formula, though that holds where `T` does.
/// And where a file speaks of a hidden fact, in its restriction or in its lemma, its own theory doesn't keep it.
pub fn kept_by_hand()
    ensures kept { (g : Sig) → HoldsBuiltins g → KeepsFile (small_file g) (file_theory (small_file g)) }
    ensures other_name { (g : Sig) → ¬ KeepsFile (small_file g) (renamed (file_theory (small_file g))) }
    ensures other_signature { (g h : Sig) → ¬ (h ≡ g) → ¬ KeepsFile (small_file g) (over_signature (file_theory (small_file g)) h) }
    ensures own_restriction_left_out { (g : Sig)
        → ¬ KeepsFile (small_file g) (with_restrictions (file_theory (small_file g)) (needed_restrictions sends_secret)) }
    ensures own_restriction_first { (g : Sig)
        → ¬ KeepsFile (small_file g) (with_restrictions (file_theory (small_file g)) (anyway ∷ needed_restrictions sends_secret)) }
    ensures lemma_left_out { (g : Sig) → ¬ KeepsFile (small_file g) (with_lemmas (file_theory (small_file g)) []) }
    ensures other_lemma_name { (g : Sig)
        → ¬ KeepsFile (small_file g) (with_lemmas (file_theory (small_file g)) (ever_renamed ∷ [])) }
    ensures other_attributes { (g : Sig)
        → ¬ KeepsFile (small_file g) (with_lemmas (file_theory (small_file g)) (ever_with_attribute ∷ [])) }
    ensures other_mode { (g : Sig)
        → ¬ KeepsFile (small_file g) (with_lemmas (file_theory (small_file g)) (ever_of_some ∷ [])) }
    ensures other_formula { (g : Sig)
        → ¬ KeepsFile (small_file g) (with_lemmas (file_theory (small_file g)) (ever_otherwise ∷ [])) }
    ensures hidden_restriction { (g : Sig) → ¬ KeepsFile (restricted_idle_file g) (file_theory (restricted_idle_file g)) }
    ensures hidden_lemma { (g : Sig) → HoldsBuiltins g → ¬ KeepsFile (idle_file g) (file_theory (idle_file g)) }
{
    leaves_are_normal();
    sound_processes_are_shown();
    hiding_keeps_truth();
    inlining_keeps_lemmas();
}

/// A law: the same of the theory whose lemmas carry the restrictions: it keeps the small file, and it doesn't under another name,
/// over another signature, with the restriction `T` beside its lemmas, or where its lemma doesn't carry the restrictions.
pub fn kept_inlined_by_hand()
    ensures kept { (g : Sig) → HoldsBuiltins g → KeepsFileInlined (small_file g) (inlined_file_theory (small_file g)) }
    ensures other_name { (g : Sig) → ¬ KeepsFileInlined (small_file g) (renamed (inlined_file_theory (small_file g))) }
    ensures other_signature { (g h : Sig) → ¬ (h ≡ g)
        → ¬ KeepsFileInlined (small_file g) (over_signature (inlined_file_theory (small_file g)) h) }
    ensures some_restriction { (g : Sig)
        → ¬ KeepsFileInlined (small_file g) (with_restrictions (inlined_file_theory (small_file g)) (anyway ∷ [])) }
    ensures plain_lemma { (g : Sig)
        → ¬ KeepsFileInlined (small_file g) (with_lemmas (inlined_file_theory (small_file g)) (ever ∷ [])) }
{
    leaves_are_normal();
    sound_processes_are_shown();
    hiding_keeps_truth();
    inlining_keeps_lemmas();
}
