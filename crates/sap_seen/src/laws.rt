//! Laws of what is seen, as contracts of functions that do nothing.
ghost use Rattle.std.specs.Prelude.{◌≡◌, ℕ, List, [], ◌∷◌, Some, length, map};
ghost use Rattle.sap_process.specs.Proc.{Proc, nil};
ghost use Rattle.sap_macro.specs.Indexed.{defined};
ghost use Rattle.sap_macro.specs.Located.{Located, nil_at, without_numbers};
ghost use Rattle.sap_macro.specs.Order.{AreInOrder, UsesOnly};
ghost use Rattle.sap_nodes.specs.HeadNodes.{head_nodes};
ghost use Rattle.sap_origin.specs.Definitions.{LocatedDefinition, plain_definition};
ghost use Rattle.sap_origin.specs.Origins.{start};
ghost use Rattle.sap_origin.specs.Reached.{Standing, process_at};
ghost use Rattle.sap_stems.specs.WrittenNodes.{written_nodes};
ghost use Rattle.sap_stems.specs.WrittenPlaces.{IsPlaceOf};
ghost use Rattle.sap_seen.specs.Examples.{SeesAt, a_body, b_body, b_left, b_right, b_use, q_body, r_body};
ghost use Rattle.sap_seen.specs.SeenNodes.{seen_nodes, seen_numbers};
ghost use Rattle.sap_seen.specs.SeenPlaces.{ComesSeen, seen_of};

use sap_macro::plain_names_stand_for_bodies;
use sap_origin::one_written_place;
use sap_stems::ways_lead_to_written_places;

/// A law: where no definition has the name of an earlier one, each uses earlier ones alone, and the process uses these, one comes to each
/// place of what is seen but a `0` along its path, to a written place that has its nodes. Along a path one comes to one place, through one
/// chain of uses, and what is seen of this place is there. It is a place of the process, or of a definition's body, behind whose item as many
/// words of the file are as where one stands.
pub fn seen_places()
    ensures some { (ds : List LocatedDefinition) (s : Standing) (p : Located) (path : List ℕ) (y : Proc)
        → AreInOrder [] (map plain_definition ds)
        → UsesOnly (defined (map plain_definition ds)) (without_numbers p)
        → process_at (seen_of ds p) path ≡ Some y → ¬ (y ≡ nil)
        → (z : Standing) × (q : Located) × ComesSeen ds s p path z q × (head_nodes y ≡ seen_nodes q) }
    ensures one { (ds : List LocatedDefinition) (s z w : Standing) (p q r : Located) (path : List ℕ)
        → ComesSeen ds s p path z q → ComesSeen ds s p path w r → (z ≡ w) × (q ≡ r) }
    ensures only { (ds : List LocatedDefinition) (s z : Standing) (p q : Located) (path : List ℕ)
        → AreInOrder [] (map plain_definition ds) → ComesSeen ds s p path z q
        → (process_at (seen_of ds p) path ≡ Some (seen_of ds q)) × (head_nodes (seen_of ds q) ≡ seen_nodes q) }
    ensures written { (ds : List LocatedDefinition) (p q : Located) (behind : ℕ) (path : List ℕ)
        (z : Standing) → ComesSeen ds (start behind) p path z q → IsPlaceOf ds p behind z.behind q }
{
    plain_names_stand_for_bodies();
    one_written_place();
    ways_lead_to_written_places();
}

/// A law: the nodes that are seen at a place have as many numbers as there are of them, where those that are written there have.
pub fn seen_nodes_have_numbers()
    ensures { (q : Located) (ns : List ℕ) → length ns ≡ length (written_nodes q)
        → length (seen_numbers q ns) ≡ length (seen_nodes q) }
{}

/// A law: in a small file the places that are seen of a body, through one and two names without parameters and through none, and which
/// aren't: the use of such a name, the body behind a use that is left, the other use that is left, the other branch, with the words
/// or the uses of another place; below a use that is left there is none. Of a use that is left the name is the first node.
pub fn seen_by_hand()
    ensures sign { SeesAt [] b_body 7 [] }
    ensures through_both { SeesAt (1 ∷ []) r_body 28 (25 ∷ 18 ∷ []) }
    ensures beside { SeesAt (2 ∷ []) b_right 7 [] }
    ensures left { SeesAt (2 ∷ 1 ∷ []) b_use 7 [] }
    ensures no_use { (n : ℕ) (us : List ℕ) → (SeesAt (1 ∷ []) b_left n us → ⊥) × (SeesAt (1 ∷ []) q_body n us → ⊥) }
    ensures no_body { (n : ℕ) (us : List ℕ) → (SeesAt (1 ∷ []) a_body n us → ⊥) × (SeesAt (2 ∷ 1 ∷ []) a_body n us → ⊥) }
    ensures no_other_use { (n : ℕ) (us : List ℕ) → (SeesAt (1 ∷ []) b_use n us → ⊥) × (SeesAt (2 ∷ 1 ∷ []) r_body n us → ⊥) }
    ensures no_other_branch { (n : ℕ) (us : List ℕ) → SeesAt (1 ∷ []) b_right n us → ⊥ }
    ensures no_other_words { (q : Located) (us : List ℕ) → (SeesAt (1 ∷ []) q 7 us → ⊥) × (SeesAt (1 ∷ []) q 35 us → ⊥) }
    ensures no_other_uses { (q : Located) (n : ℕ) → (SeesAt (1 ∷ []) q n [] → ⊥)
        × (SeesAt (1 ∷ []) q n (18 ∷ 25 ∷ []) → ⊥) × (SeesAt (2 ∷ 1 ∷ []) q n (11 ∷ []) → ⊥) }
    ensures nothing_below { (q : Located) (n : ℕ) (us : List ℕ) → (SeesAt (1 ∷ 1 ∷ []) q n us → ⊥)
        × (SeesAt (2 ∷ 1 ∷ 1 ∷ []) q n us → ⊥) }
    ensures numbers { seen_numbers r_body (2 ∷ []) ≡ 4 ∷ 2 ∷ [] }
    ensures numbers_of_form { seen_numbers b_right (7 ∷ []) ≡ 7 ∷ [] }
{
    one_written_place();
}
