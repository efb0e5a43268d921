//! Where a flaw of a definition's body stands, as the contract of a function that does nothing.
ghost use Rattle.std.specs.Prelude.{◌≡◌, ℕ, List, [], ◌∷◌, Err};
ghost use Rattle.sap_terms.specs.Signature.{Sig};
ghost use Rattle.sap_text.specs.declared.token.Token.{Token};
ghost use Rattle.sap_process.specs.declared.flaw.Flaw.{Flaw};
ghost use Rattle.sap_read.specs.Files.{IsRead};
ghost use Rattle.sap_read.specs.declared.fault.ReadFault.TheVariants.{Flawed};
ghost use Rattle.sap_seen.specs.Examples.{all_four};
ghost use Rattle.sap_read_places.specs.BodyFlawExamples.{IsUseSpelled, b_is, q, r, told_before};
ghost use Rattle.sap_read_places.specs.BodyFlawPlaces.{IsBodyFlawPlace, IsSeenNodeTold};
ghost use Rattle.sap_read_places.specs.declared.told.Told.{Told};

use crate::laws::one_placed_file;
use sap_head_words::{one_head, some_head};
use sap_macro::plain_names_stand_for_bodies;
use sap_nodes::nodes_of_flaws;
use sap_origin::{bodies_use_earlier_names, names_stand_for_definitions};
use sap_process::{ScopeBelow, places_are_by_path};
use sap_read::{
    bodies_are_spelled, definitions_are_in_order, located_items, one_list_of_items, one_parting,
};
use sap_seen::{seen_by_hand, seen_nodes_have_numbers, seen_places};

/// A law: a flaw of a definition's body stands at one place, and each file that is refused for one has its place.
pub fn body_flaw_places()
    ensures one { (z name : List ℕ) (w : Flaw) (path : List ℕ) (s t : Told) → IsBodyFlawPlace z name w path s
        → IsBodyFlawPlace z name w path t → s ≡ t }
    ensures some { (z name : List ℕ) (w : Flaw) (path : List ℕ) → IsRead z (Err (Flawed name w path))
        → (t : Told) × IsBodyFlawPlace z name w path t }
{
    one_placed_file();
    one_parting();
    one_list_of_items();
    bodies_are_spelled();
    definitions_are_in_order();
    located_items();
    seen_places();
    seen_nodes_have_numbers();
    one_head();
    some_head();
    nodes_of_flaws();
    plain_names_stand_for_bodies();
    names_stand_for_definitions();
    bodies_use_earlier_names();
    places_are_by_path::<ScopeBelow>();
}

/// A law: by hand, what is told of the nodes of two uses that are left in a body: of the one, to which one comes through two names without
/// parameters, the word of its name and that of its argument, with both names above; of the other, in the body itself, the word of its
/// argument, with none; and nothing else. The use has no third node.
pub fn body_flaws_by_hand()
    ensures name { (g : Sig) (z : List ℕ) (ts : List Token) → IsUseSpelled g z ts r 28
        → IsSeenNodeTold g z ts all_four b_is (1 ∷ []) 0 (told_before ts 32 (25 ∷ 18 ∷ [])) }
    ensures argument { (g : Sig) (z : List ℕ) (ts : List Token) → IsUseSpelled g z ts r 28
        → IsSeenNodeTold g z ts all_four b_is (1 ∷ []) 1 (told_before ts 30 (25 ∷ 18 ∷ [])) }
    ensures beside { (g : Sig) (z : List ℕ) (ts : List Token) → IsUseSpelled g z ts q 7
        → IsSeenNodeTold g z ts all_four b_is (2 ∷ 1 ∷ []) 1 (told_before ts 9 []) }
    ensures no_other_name { (g : Sig) (z : List ℕ) (ts : List Token) (t : Told) → IsUseSpelled g z ts r 28
        → IsSeenNodeTold g z ts all_four b_is (1 ∷ []) 0 t → t ≡ told_before ts 32 (25 ∷ 18 ∷ []) }
    ensures no_other_argument { (g : Sig) (z : List ℕ) (ts : List Token) (t : Told) → IsUseSpelled g z ts r 28
        → IsSeenNodeTold g z ts all_four b_is (1 ∷ []) 1 t → t ≡ told_before ts 30 (25 ∷ 18 ∷ []) }
    ensures no_other_beside { (g : Sig) (z : List ℕ) (ts : List Token) (t : Told) → IsUseSpelled g z ts q 7
        → IsSeenNodeTold g z ts all_four b_is (2 ∷ 1 ∷ []) 1 t → t ≡ told_before ts 9 [] }
    ensures no_third { (g : Sig) (z : List ℕ) (ts : List Token) (t : Told) → IsUseSpelled g z ts r 28
        → IsSeenNodeTold g z ts all_four b_is (1 ∷ []) 2 t → ⊥ }
{
    seen_by_hand();
    seen_places();
    one_head();
}
