//! Small processes by hand, as laws.
ghost use Rattle.std.specs.Prelude.{◌≡◌, ℕ, codes, Contains, List, [], ◌∷◌, None, Some};
ghost use Rattle.sap_terms.specs.Signature.{Sig};
ghost use Rattle.sap_terms.specs.Trace.{Trace};
ghost use Rattle.sap_terms.specs.Tree.{Tree, fresh, public};
ghost use Rattle.sap_terms.specs.declared.fact.Fact.{Fact};
ghost use Rattle.sap_process.specs.Action.{event, out};
ghost use Rattle.sap_process.specs.Configuration.{Config, ConfigOf, initial, makes as makes_name, spawns};
ghost use Rattle.sap_process.specs.Head as head;
ghost use Rattle.sap_process.specs.Head.{Head};
ghost use Rattle.sap_process.specs.Proc as whole;
ghost use Rattle.sap_process.specs.ProcessSteps.{ProcessStep, ProcessRun};
ghost use Rattle.sap_process.specs.StepExamples.{alone, only, shown_fact};
ghost use Rattle.sap_macro.specs.AlikeConfigurations.{AlikeThreads, HasGroundStore, AreAlikeConfigs};
ghost use Rattle.sap_macro.specs.AlikeExamples.{gives_new_x, gives_new_y, alike_lists, other_lists, AreAllAlike, AreNoneAlike, AreNoneAlikeTo, busy, other_parts, storing, looking};
ghost use Rattle.sap_macro.specs.Expansion.{expansion};
ghost use Rattle.sap_macro.specs.ExpansionExamples.{a, b, of_name, fresh_of, news, taking, makes, takes, gives, making, making_twice, making_x, comparing, pairing, giving_y, using_plain, inner, outer, all_forms, all_forms_put, twice_two, twice_z, using_wrongly, using_none, in_first, in_second};
ghost use Rattle.sap_macro.specs.MacroCauses.{first_other_count, first_parameter_twice};
ghost use Rattle.sap_macro.specs.NameExamples.{x, fresh_y, both, AreAllSame, AreNoneSame, equal_pairs, other_pairs};
ghost use Rattle.sap_macro.specs.NewNames.{new_name};
ghost use Rattle.sap_macro.specs.Written.{Written, nil, call, parallel};
ghost use Rattle.sap_macro.specs.WrittenExamples.{told, telling, telling_x, telling_again, told_by_two, use_a, use_b, use_c};
ghost use Rattle.sap_macro.specs.WrittenRuns.{StartsWith, IsWrittenTrace, writing};

use sap_rewrite::normal_forms_are_unique;
use sap_terms::leaves_are_normal;

/// A law: eight pairs of processes that are equal up to names, and fourteen that aren't.
pub fn equal_up_to_names_by_hand()
    ensures equal { AreAllSame equal_pairs }
    ensures other { AreNoneSame other_pairs }
{}

/// A law: small configurations with threads that are alike, and some without; a store that is ground, whatever its keys, and one that
/// isn't; two configurations that are alike, some that differ in one part each, and one with a store that isn't ground, which isn't
/// alike to itself. And why the store has to be ground: where it has `~y` at `'a'`, the threads
/// `lookup 'a' as x in new ~y; event A(x)` and the same with `new ~z` are equal up to names, but the first shows `A` of the name that
/// it makes, and the second `A` of no name, whatever else is shown.
pub fn alike_configurations_by_hand()
    ensures alike { AreAllAlike alike_lists }
    ensures other { AreNoneAlike other_lists }
    ensures ground { HasGroundStore (storing (both a (fresh 3)) whole.nil) }
    ensures any_key { HasGroundStore (record (alone whole.nil) { store = only x a }) }
    ensures no_ground { ¬ HasGroundStore (storing (both a x) whole.nil) }
    ensures all_parts { AreAlikeConfigs (busy (gives_new_x ∷ [])) (busy (gives_new_y ∷ [])) }
    ensures no_other_part { AreNoneAlikeTo (busy (gives_new_x ∷ [])) other_parts }
    ensures no_ground_parts { ¬ AreAlikeConfigs (storing (both a x) whole.nil) (storing (both a x) whole.nil) }
    ensures looks_alike { AlikeThreads (storing fresh_y (looking (codes "y"))).threads (storing fresh_y (looking (codes "z"))).threads }
    ensures shows_new { (g : Sig) → (d : Config) × ProcessRun g (storing fresh_y (looking (codes "y"))) d ((shown_fact (fresh 7) ∷ []) ∷ []) }
    ensures never_shows_new { (g : Sig) (d : Config) (tr : Trace) (n : ℕ) → ProcessRun g (storing fresh_y (looking (codes "z"))) d tr
        → ¬ Contains tr (shown_fact (fresh n) ∷ []) }
{
    leaves_are_normal();
    normal_forms_are_unique();
}

/// A law: expansions of small files. What a use's body binds gets new names, the first that aren't taken, one for each name and use,
/// in the order of their first binders, and uses inside of it later ones; the names of arguments stay what they are. Parameters are
/// replaced all at once, and names without parameters before anything else. A pattern that compares with a parameter binds nothing,
/// so it takes no name; a parameter without an argument is `''`. Each form stays what it is, and each that binds has its new name.
pub fn expansions_by_hand()
    ensures renames { (expansion (making ∷ []) (codes "n" ∷ codes "x" ∷ []) (news (codes "n") (call (codes "A") (fresh_of (codes "n") ∷ [])))).process
        ≡ makes (codes "n") (makes (codes "n_1") (gives (both (fresh_of (codes "n")) (fresh_of (codes "n_1"))))) }
    ensures first_free { (expansion (making ∷ []) (codes "n" ∷ codes "n_1" ∷ []) (call (codes "A") (a ∷ []))).process
        ≡ makes (codes "n_2") (gives (both a (fresh_of (codes "n_2")))) }
    ensures once_a_use { (expansion (making_twice ∷ []) (codes "n" ∷ []) (parallel (call (codes "A") (a ∷ [])) (call (codes "A") (b ∷ [])))).process
        ≡ whole.parallel (whole.parallel (makes (codes "n_1") (gives (fresh_of (codes "n_1")))) (makes (codes "n_1") (gives (both (fresh_of (codes "n_1")) a))))
        (whole.parallel (makes (codes "n_2") (gives (fresh_of (codes "n_2")))) (makes (codes "n_2") (gives (both (fresh_of (codes "n_2")) b)))) }
    ensures at_once { (expansion (pairing ∷ []) [] (taking (of_name (codes "y")) (call (codes "A") (of_name (codes "y") ∷ b ∷ [])))).process
        ≡ takes (of_name (codes "y")) (gives (both (of_name (codes "y")) b)) }
    ensures plain_first { (expansion (giving_y ∷ using_plain ∷ []) [] (call (codes "A") (a ∷ []))).process ≡ gives a }
    ensures inner_later { (expansion (inner ∷ outer ∷ []) (codes "n" ∷ []) (call (codes "A") (a ∷ []))).process
        ≡ takes (both a (of_name (codes "n_1"))) (whole.parallel (makes (codes "n_2") (gives (of_name (codes "n_1")))) (makes (codes "n_3") (gives a))) }
    ensures no_new_parameter { (expansion (comparing ∷ making_x ∷ []) [] (parallel (call (codes "A") (a ∷ [])) (call (codes "B") (b ∷ [])))).process
        ≡ whole.parallel (takes a whole.nil) (makes (codes "x_1") (gives b)) }
    ensures no_argument { (expansion (pairing ∷ []) [] (call (codes "A") (a ∷ []))).process ≡ gives (both a (public [])) }
    ensures each_form { (expansion (all_forms ∷ []) [] (call (codes "A") (b ∷ []))).process ≡ all_forms_put }
    ensures sapic { new_name [] (codes "sapic") ≡ codes "sapic1" }
    ensures sapic_alone { new_name [] (codes "sapics") ≡ codes "sapics_1" }
{}

/// A law: why small definitions can't be used as they are written. Of parameters that stand twice the first in order counts, of
/// definitions that have such the first; one name in two definitions is none. Uses count in the bodies first, in order, wherever they
/// stand, and a definition without parameters takes no arguments.
pub fn macro_causes_by_hand()
    ensures twice { first_parameter_twice (making ∷ twice_two ∷ []) ≡ Some (codes "x") }
    ensures first_definition { first_parameter_twice (twice_z ∷ twice_two ∷ []) ≡ Some (codes "z") }
    ensures once { first_parameter_twice (making ∷ pairing ∷ []) ≡ None }
    ensures more { first_other_count (making ∷ []) (parallel (call (codes "A") (a ∷ [])) (call (codes "A") (a ∷ b ∷ []))) ≡ Some (codes "A") }
    ensures fewer { first_other_count (pairing ∷ []) (call (codes "A") (a ∷ [])) ≡ Some (codes "A") }
    ensures plain { first_other_count (giving_y ∷ []) (call (codes "C") (a ∷ [])) ≡ Some (codes "C") }
    ensures body_first { first_other_count (giving_y ∷ using_wrongly ∷ []) (call (codes "A") []) ≡ Some (codes "C") }
    ensures bodies_in_order { first_other_count (giving_y ∷ using_wrongly ∷ using_none ∷ []) (call (codes "B") []) ≡ Some (codes "C") }
    ensures in_order { first_other_count (giving_y ∷ pairing ∷ []) (parallel (call (codes "C") (a ∷ [])) (call (codes "A") [])) ≡ Some (codes "C") }
    ensures in_first { first_other_count (giving_y ∷ []) (in_first (call (codes "C") (a ∷ []))) ≡ Some (codes "C") }
    ensures in_second { first_other_count (giving_y ∷ []) (in_second (call (codes "C") (a ∷ []))) ≡ Some (codes "C") }
    ensures right { first_other_count (giving_y ∷ using_plain ∷ []) (parallel (call (codes "A") (a ∷ [])) (call (codes "C") [])) ≡ None }
{}

/// A law: what starts with what, and how a use runs. With `let A(x) = event E(x)` and `let B(y) = A(<y,y>)` the use `A('a')` starts with
/// the event alone, and `B('a')` with that of `<'a','a'>`; what nothing defines starts with nothing, and stays; each other form starts with
/// itself alone. Parameters are replaced all at once. A use has no step of its own: where nothing is shown its thread is still the use, and
/// in one step it shows `E('a')`, behind which nothing is left. A name that is made is put into the arguments of a use behind. A
/// replication that a use stands for stays the use, and its copy is the body's.
pub fn written_runs_by_hand()
    ensures use_starts { StartsWith told_by_two use_a (head.act (event (told a)) nil) }
    ensures use_alone { (h : Head Written) → StartsWith told_by_two use_a h → h ≡ head.act (event (told a)) nil }
    ensures use_of_use { StartsWith told_by_two use_b (head.act (event (told (both a a))) nil) }
    ensures use_of_use_alone { (h : Head Written) → StartsWith told_by_two use_b h → h ≡ head.act (event (told (both a a))) nil }
    ensures undefined { (ts : List Tree) (h : Head Written) → ¬ StartsWith told_by_two (call (codes "C") ts) h }
    ensures undefined_stays { (g : Sig) (label : List Fact) (d : ConfigOf (writing told_by_two)) → ProcessStep g (initial use_c) label d
        → d.threads ≡ Some use_c ∷ [] }
    ensures form { (p q : Written) (h : Head Written) → StartsWith told_by_two (parallel p q) h → h ≡ head.parallel p q }
    ensures at_once { (h : Head Written) → StartsWith (pairing ∷ []) (call (codes "A") (of_name (codes "y") ∷ b ∷ [])) h
        → h ≡ head.act (out (both (of_name (codes "y")) b)) nil }
    ensures shows { (g : Sig) → ProcessStep g {kind = writing told_by_two} (initial use_a) (told a ∷ []) (initial nil) }
    ensures trace { (g : Sig) → IsWrittenTrace g told_by_two use_a ((told a ∷ []) ∷ []) }
    ensures no_own_step { (g : Sig) (d : ConfigOf (writing told_by_two)) → ProcessStep g (initial use_a) [] d → d.threads ≡ Some use_a ∷ [] }
    ensures replaces { (g : Sig) → ProcessStep g {kind = writing told_by_two}
        (initial (news (codes "n") (call (codes "A") (fresh_of (codes "n") ∷ [])))) [] (makes_name (initial (call (codes "A") (fresh 7 ∷ []))) 7) }
    ensures copies { (g : Sig) → ProcessStep g {kind = writing (telling_again ∷ [])} (initial use_a) [] (spawns (initial use_a) (telling a)) }
{
    leaves_are_normal();
}
