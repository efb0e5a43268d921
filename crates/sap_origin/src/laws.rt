//! Laws of written places, as contracts of functions that do nothing.
ghost use Rattle.std.specs.Prelude.{◌≡◌, ℕ, false, List, [], ◌∷◌, ◌++◌, None, Some, length, map, reverse, slice_get, slice_index_or, take};
ghost use Rattle.sap_terms.specs.Variables.{is_known};
ghost use Rattle.sap_process.specs.Proc.{Proc};
ghost use Rattle.sap_macro.specs.Expansion.{expansion};
ghost use Rattle.sap_macro.specs.Indexed.{IsIndex, defined};
ghost use Rattle.sap_macro.specs.Located.{Located, without_numbers};
ghost use Rattle.sap_macro.specs.Order.{AreInOrder, UsesOnly};
ghost use Rattle.sap_macro.specs.Sources.{definitions};
ghost use Rattle.sap_macro.specs.Written.{Definition as PlainDefinition};
ghost use Rattle.sap_macro.specs.declared.definition.Definition.{Definition};
ghost use Rattle.sap_macro.specs.declared.definition.Definition.{Definition as KeptDefinition};
ghost use Rattle.sap_origin.specs.Definitions.{LocatedDefinition, located_definitions, plain_definition, with_words};
ghost use Rattle.sap_origin.specs.Examples.{ComesTo, both, out_in_p, p_use, q_use, small};
ghost use Rattle.sap_origin.specs.Meant.{Means, definition_of};
ghost use Rattle.sap_origin.specs.Origins.{IsOrigin, words_left};
ghost use Rattle.sap_origin.specs.Reached.{IsForm, Reaches, ReachesBy, Standing, process_at};
ghost use Rattle.sap_origin.specs.Trails.{IsTrailBy, use_word};
ghost use Rattle.sap_origin.specs.UsesAlong.{uses_along, word_of};
ghost use Rattle.sap_origin.specs.declared.origin.Origin.{Origin};
ghost use Rattle.sap_origin.specs.declared.trail.Replaced.{Replaced};
ghost use Rattle.sap_origin.specs.declared.trail.Trail.{Trail};

use sap_macro::{located_is_written, plain_names_stand_for_bodies};

/// A law: definitions with the words of their places are, without these, what is written.
pub fn located_definitions_are_written()
    ensures { (ds : List Definition) (ns : List ℕ) → length ns ≡ length ds
        → map plain_definition (located_definitions ds ns) ≡ definitions ds }
{
    located_is_written();
}

/// A law: what is written means its expansion, whatever names the file has, where no definition has the name of an earlier one, each
/// uses earlier ones alone, and the process uses these.
pub fn expansions_are_meant()
    ensures { (ds : List LocatedDefinition) (p : Located) (identifiers : List (List ℕ))
        → AreInOrder [] (map plain_definition ds)
        → UsesOnly (defined (map plain_definition ds)) (without_numbers p)
        → Means ds p (expansion (map plain_definition ds) identifiers (without_numbers p)).process }
{
    plain_names_stand_for_bodies();
}

/// A law: the definition of a number has the words of its places and as many behind it as are counted for this number, and has the name of
/// which an index tells the number.
pub fn located_definitions_by_number()
    ensures located { (ds : List KeptDefinition) (ns : List ℕ) (k : ℕ) (d : KeptDefinition)
        → length ns ≡ length ds → slice_get ds k ≡ Some d
        → slice_get (located_definitions ds ns) k ≡ Some (with_words d (slice_index_or ns k 0)) }
    ensures named { (ds : List KeptDefinition) (f : List ℕ) (k : ℕ) (d : KeptDefinition)
        → slice_get ds k ≡ Some d → IsIndex (definitions ds) f (Some k) → d.name ≡ f }
{}

/// A law: where no definition has the name of an earlier one, each name stands for the definition that has it, and a name that none has for
/// nothing.
pub fn names_stand_for_definitions()
    ensures stand { (ds : List LocatedDefinition) (k : ℕ) (d : LocatedDefinition)
        → AreInOrder [] (map plain_definition ds) → slice_get ds k ≡ Some d
        → definition_of ds d.name ≡ Some d }
    ensures nothing { (ds : List LocatedDefinition) (f : List ℕ)
        → is_known (defined (map plain_definition ds)) f ≡ false → definition_of ds f ≡ None }
{}

/// A law: the body of each of such definitions uses names of earlier ones alone, so names that are defined.
pub fn bodies_use_earlier_names()
    ensures earlier { (ds : List PlainDefinition) (k : ℕ) (d : PlainDefinition) → AreInOrder [] ds
        → slice_get ds k ≡ Some d → UsesOnly (defined (take k ds)) d.body }
    ensures defined { (ds : List PlainDefinition) (k : ℕ) (d : PlainDefinition) → AreInOrder [] ds
        → slice_get ds k ≡ Some d → UsesOnly (defined ds) d.body }
{}

/// A law: the uses through which one comes along a path are those above the place, which has the innermost first, each by its name; and so
/// are those that a trail has.
pub fn trails_are_uses()
    ensures along { (ds : List LocatedDefinition) (v : Replaced) (s z : Standing) (p q : Located)
        (path : List ℕ) (r : ReachesBy ds v s p path z q)
        → z.uses ≡ reverse (map word_of (uses_along r)) ++ s.uses }
    ensures words { (ds : List LocatedDefinition) (v : Replaced) (p : Located) (behind : ℕ) (path : List ℕ)
        (t : Trail) (h : IsTrailBy ds v p behind path t)
        → reverse (map words_left (map use_word t.uses)) ≡ h.standing.uses }
{}

/// A law: to each place of a process that is meant one comes along its path by one written place, and through one chain of uses; and
/// this place means what is there, so that it has its form. Along no other path one comes to a place. It is one place too where names
/// without parameters alone are replaced.
pub fn one_written_place()
    ensures some { (ds : List LocatedDefinition) (s : Standing) (p : Located) (x y : Proc)
        (path : List ℕ) → Means ds p x → process_at x path ≡ Some y
        → (z : Standing) × (q : Located) × Reaches ds s p path z q × IsForm q × Means ds q y }
    ensures one { (ds : List LocatedDefinition) (v : Replaced) (s z w : Standing) (p q r : Located)
        (path : List ℕ) → ReachesBy ds v s p path z q → ReachesBy ds v s p path w r → (z ≡ w) × (q ≡ r) }
    ensures only { (ds : List LocatedDefinition) (s z : Standing) (p q : Located) (x : Proc)
        (path : List ℕ) → Means ds p x → Reaches ds s p path z q
        → (y : Proc) × (process_at x path ≡ Some y) × Means ds q y }
{}

/// A law: in a small file the places of its process, each with the word that tells it and the uses through which one comes there; and
/// which words and uses these aren't: the use in place of the body, a place that looks alike, the uses in the other order, the
/// innermost or the outermost alone, none.
pub fn places_by_hand()
    ensures sign { ComesTo [] 6 [] }
    ensures through_both { ComesTo (1 ∷ []) 20 (13 ∷ 7 ∷ []) }
    ensures beside { ComesTo (2 ∷ []) 5 [] }
    ensures missing { ComesTo (1 ∷ 1 ∷ []) 20 (13 ∷ 7 ∷ []) × ComesTo (2 ∷ 1 ∷ []) 5 [] }
    ensures no_use { (us : List ℕ) → (ComesTo (1 ∷ []) 13 us → ⊥) × (ComesTo (1 ∷ []) 7 us → ⊥) }
    ensures no_other { (us : List ℕ) → ComesTo (1 ∷ []) 5 us → ⊥ }
    ensures no_words_behind { (us : List ℕ) → ComesTo (1 ∷ []) 4 us → ⊥ }
    ensures no_other_order { (k : ℕ) → ComesTo (1 ∷ []) k (7 ∷ 13 ∷ []) → ⊥ }
    ensures no_fewer { (k : ℕ) → (ComesTo (1 ∷ []) k (13 ∷ []) → ⊥) × (ComesTo (1 ∷ []) k (7 ∷ []) → ⊥)
        × (ComesTo (1 ∷ []) k [] → ⊥) }
    ensures no_use_beside { (k : ℕ) → (ComesTo (2 ∷ []) k (7 ∷ []) → ⊥) × (ComesTo [] k (7 ∷ []) → ⊥) }
    ensures origin { IsOrigin both small 1 (1 ∷ []) (out_in_p (q_use ∷ p_use ∷ [])) }
    ensures one_word { (o : Origin) → IsOrigin both small 1 (1 ∷ []) o → words_left o.word ≡ 20 }
    ensures no_origin { (IsOrigin both small 1 (1 ∷ []) (out_in_p (p_use ∷ q_use ∷ [])) → ⊥)
        × (IsOrigin both small 1 (1 ∷ []) (out_in_p (p_use ∷ [])) → ⊥)
        × (IsOrigin both small 1 (1 ∷ []) (out_in_p []) → ⊥) }
    ensures nowhere { (k : ℕ) (us : List ℕ) → (ComesTo (3 ∷ []) k us → ⊥) × (ComesTo (1 ∷ 2 ∷ []) k us → ⊥) }
{}
