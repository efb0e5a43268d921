//! Small files by hand, as laws: what each shows as it is written, and what it doesn't.
ghost use Rattle.std.specs.Prelude.{codes, [], ◌∷◌, Contains};
ghost use Rattle.sap_terms.specs.AdversaryFacts.{k_fact};
ghost use Rattle.sap_terms.specs.Signature.{Sig, pairs_alone};
ghost use Rattle.sap_terms.specs.Trace.{Trace};
ghost use Rattle.sap_terms.specs.Tree.{Tree, fresh};
ghost use Rattle.sap_terms.specs.declared.var.Sort.TheVariants.{Msg};
ghost use Rattle.sap_macro.specs.Expansion.{plain};
ghost use Rattle.sap_macro.specs.ExpansionExamples.{a, b, of_name, comparing, taking, using_plain};
ghost use Rattle.sap_macro.specs.NameExamples.{both};
ghost use Rattle.sap_macro.specs.SortedExamples.{finds_x, using_b};
ghost use Rattle.sap_macro.specs.Written.{nil, parallel, replicated, test};
ghost use Rattle.sap_macro.specs.WrittenExamples.{telling_x, use_twin, told, told_both, new_at, got_at, two_apart, put_at, using_a, use_a, naming_x, use_named, naming_z, naming_often, taking_twice, taking_other, use_taken, testing, use_testing, telling_y, use_plain, putting, x_name, use_store, w, public_w, doing_nothing, ruling, one_s, ruling_x};
ghost use Rattle.sap_macro.specs.WrittenRuns.{HasArgumentsInScope, IsFileTrace};

use sap_rewrite::{equality_is_kept, normal_forms_are_unique};
use sap_terms::leaves_are_normal;

/// A law: traces that small files have as they are written, and traces that they lack. A use makes names of its own, and each copy of a
/// replicated use too; an argument that a use hands on reaches the inner body; the sort of a pattern's first occurrence counts, in a body
/// and above a use; what a body's pattern binds isn't the argument of the same name; a test takes its parameters in their order; a name
/// without parameters stands for its body before anything runs, so it sees what is bound above it, or the parameters of the body in which
/// it stands; and of two uses side by side each locks, puts and shows its own arguments.
pub fn files_by_hand_as_written()
    ensures new_names { (g : Sig) → IsFileTrace g (naming_x ∷ []) use_named ((told_both (fresh 0) (fresh 1) ∷ []) ∷ []) }
    ensures not_one_name { (g : Sig) (tr : Trace) (t : Tree) → IsFileTrace g (naming_x ∷ []) use_named tr → ¬ Contains tr (told_both t t ∷ []) }
    ensures each_copy { (g : Sig) → IsFileTrace g (naming_z ∷ naming_often ∷ []) use_a
        ((new_at a (fresh 0) ∷ []) ∷ (new_at a (fresh 1) ∷ []) ∷ []) }
    ensures not_of_other { (g : Sig) (tr : Trace) (t : Tree) → IsFileTrace g (naming_z ∷ naming_often ∷ []) use_a tr → ¬ Contains tr (new_at b t ∷ []) }
    ensures one_sort { IsFileTrace pairs_alone (taking_twice ∷ []) use_a
        ((k_fact (both (fresh 1) (fresh 1)) ∷ []) ∷ (got_at (fresh 1) a ∷ []) ∷ []) }
    ensures not_two_sorts { (g : Sig) (t : Tree) (tr : Trace) → ¬ IsFileTrace g (taking_twice ∷ []) use_a
        ((k_fact (both (fresh 1) a) ∷ []) ∷ (got_at t a ∷ []) ∷ tr) }
    ensures own_binder { IsFileTrace pairs_alone (taking_other ∷ []) use_taken
        ((k_fact a ∷ []) ∷ (k_fact (both b a) ∷ []) ∷ (told_both a b ∷ []) ∷ []) }
    ensures not_own_argument { (g : Sig) (s t : Tree) (tr : Trace) → ¬ IsFileTrace g (taking_other ∷ []) use_taken
        ((k_fact a ∷ []) ∷ (k_fact (both a b) ∷ []) ∷ (told_both s t ∷ []) ∷ tr) }
    ensures apart { (g : Sig) → IsFileTrace g (testing ∷ []) use_testing ((two_apart a b ∷ []) ∷ []) }
    ensures not_swapped { (g : Sig) (tr : Trace) → IsFileTrace g (testing ∷ []) use_testing tr → ¬ Contains tr (two_apart b a ∷ []) }
    ensures plain_name { (g : Sig) → IsFileTrace g (telling_y ∷ []) use_plain ((k_fact a ∷ []) ∷ (told a ∷ []) ∷ []) }
    ensures not_variable { (g : Sig) (tr : Trace) → IsFileTrace g (telling_y ∷ []) use_plain tr → ¬ Contains tr (told (of_name (codes "y")) ∷ []) }
    ensures plain_body { (g : Sig) → IsFileTrace g (telling_y ∷ using_plain ∷ []) use_a ((told a ∷ []) ∷ []) }
    ensures not_open { (g : Sig) (tr : Trace) → IsFileTrace g (telling_y ∷ using_plain ∷ []) use_a tr → ¬ Contains tr (told (of_name (codes "y")) ∷ []) }
    ensures sort_above { IsFileTrace pairs_alone (telling_x ∷ []) use_twin
        ((k_fact (both (fresh 1) (fresh 1)) ∷ []) ∷ (told (fresh 1) ∷ []) ∷ []) }
    ensures not_other_sort { (g : Sig) (t : Tree) (tr : Trace) → ¬ IsFileTrace g (telling_x ∷ []) use_twin
        ((k_fact (both (fresh 1) a) ∷ []) ∷ (told t ∷ []) ∷ tr) }
    ensures store { (g : Sig) → IsFileTrace g (putting ∷ []) use_store ((put_at a (fresh 0) ∷ []) ∷ (put_at b x_name ∷ []) ∷ []) }
    ensures not_put { (g : Sig) (tr : Trace) → IsFileTrace g (putting ∷ []) use_store tr → ¬ Contains tr (put_at a x_name ∷ []) }
{
    equality_is_kept();
    leaves_are_normal();
    normal_forms_are_unique();
}

/// A law: in each of these files a use names in its arguments what is in scope there; in a file with an argument that nothing binds it
/// doesn't, whatever its definition does with it, and in whatever form the use stands. What an embedded rule names on its left, among
/// its actions or on its right is in scope behind it; an argument that the body of the definition puts into one isn't, at the use.
pub fn arguments_of_files_by_hand()
    ensures new_names { HasArgumentsInScope [] (plain (naming_x ∷ []) use_named) }
    ensures each_copy { HasArgumentsInScope [] (plain (naming_z ∷ naming_often ∷ []) use_a) }
    ensures one_sort { HasArgumentsInScope [] (plain (taking_twice ∷ []) use_a) }
    ensures own_binder { HasArgumentsInScope [] (plain (taking_other ∷ []) use_taken) }
    ensures apart { HasArgumentsInScope [] (plain (testing ∷ []) use_testing) }
    ensures plain_name { HasArgumentsInScope [] (plain (telling_y ∷ []) use_plain) }
    ensures plain_body { HasArgumentsInScope [] (plain (telling_y ∷ using_plain ∷ []) use_a) }
    ensures sort_above { HasArgumentsInScope [] (plain (telling_x ∷ []) use_twin) }
    ensures store { HasArgumentsInScope [] (plain (putting ∷ []) use_store) }
    ensures not_taken { ¬ HasArgumentsInScope [] (plain (comparing ∷ doing_nothing ∷ []) (using_a w)) }
    ensures not_unused { ¬ HasArgumentsInScope [] (plain (comparing ∷ doing_nothing ∷ []) (using_b w)) }
    ensures each_form { HasArgumentsInScope (codes "w" ∷ [])
        (replicated (parallel (using_b w) (test a b (using_b w) (finds_x Msg (using_b w) (taking a (using_b w)))))) }
    ensures not_copied { ¬ HasArgumentsInScope [] (replicated (using_b w)) }
    ensures not_left { ¬ HasArgumentsInScope [] (parallel (using_b w) nil) }
    ensures not_right { ¬ HasArgumentsInScope [] (parallel nil (using_b w)) }
    ensures not_equal { ¬ HasArgumentsInScope [] (test a b (using_b w) nil) }
    ensures not_apart { ¬ HasArgumentsInScope [] (test a b nil (using_b w)) }
    ensures not_found { ¬ HasArgumentsInScope [] (finds_x Msg (using_b w) nil) }
    ensures not_missed { ¬ HasArgumentsInScope [] (finds_x Msg nil (using_b w)) }
    ensures not_behind { ¬ HasArgumentsInScope [] (taking a (using_b w)) }
    ensures ruled_above { HasArgumentsInScope [] (plain (ruling_x ∷ []) (ruling [] (one_s public_w) [] (using_a public_w))) }
    ensures taken_above { HasArgumentsInScope [] (plain (ruling_x ∷ []) (ruling (one_s public_w) [] [] (using_a public_w))) }
    ensures added_above { HasArgumentsInScope [] (plain (ruling_x ∷ []) (ruling [] [] (one_s public_w) (using_a public_w))) }
    ensures not_ruled_above { ¬ HasArgumentsInScope [] (plain (ruling_x ∷ []) (ruling [] (one_s a) [] (using_a public_w))) }
    ensures not_ruled { ¬ HasArgumentsInScope [] (plain (ruling_x ∷ []) (using_a public_w)) }
{}
