//! Laws of where a process becomes larger than it may be, as contracts of functions that do nothing.
ghost use Rattle.std.specs.Prelude.{◌≡◌, ◌∷◌, ℕ, List, [], Err};
ghost use Rattle.sap_text.specs.declared.token.Token.{Token};
ghost use Rattle.sap_read.specs.Files.{IsRead};
ghost use Rattle.sap_read.specs.declared.fault.ReadFault.TheVariants.{TooDeep, TooMany};
ghost use Rattle.sap_read_places.specs.LimitExamples.{beside, copies_of, doublings, of_copies, thirty_three, thirty_two};
ghost use Rattle.sap_read_places.specs.LimitPlaces.{IsLevelBeyond, IsPlaceBeyond};
ghost use Rattle.sap_read_places.specs.Placed.{IsPlaced};
ghost use Rattle.sap_read_places.specs.UseExamples.{told_before};
ghost use Rattle.sap_read_places.specs.declared.told.Told.{Told};

use crate::laws::{one_placed_file, path_places};
use sap_beyond::{one_first_deep, one_numbered};
use sap_origin::{expansions_are_meant, one_written_place};
use sap_process::sites_are_the_places;
use sap_read::{definitions_are_in_order, located_items};

/// A law: the first place beyond the most that there may be is one at most, and so is the first on a level beyond the deepest; and each
/// file that is refused for having too many places, or too many levels, has that place.
pub fn limit_places()
    ensures one_place { (z : List ℕ) (s t : Told) → IsPlaceBeyond z s → IsPlaceBeyond z t → s ≡ t }
    ensures some_place { (z : List ℕ) → IsRead z (Err TooMany) → (t : Told) × IsPlaceBeyond z t }
    ensures one_level { (z : List ℕ) (s t : Told) → IsLevelBeyond z s → IsLevelBeyond z t → s ≡ t }
    ensures some_level { (z : List ℕ) → IsRead z (Err TooDeep) → (t : Told) × IsLevelBeyond z t }
{
    one_placed_file();
    path_places();
    one_numbered();
    one_first_deep();
    expansions_are_meant();
    one_written_place();
    sites_are_the_places();
    definitions_are_in_order();
    located_items();
}

/// A law: of a file with 351 levels, 150 of its process and the others of a definition that is used there, what is told is the place on
/// level 301, in the definition, as it is counted by hand, and the use; and nothing else is told; and of a file with 300 levels nothing. So of a file
/// with 4,001 places, of which the last one is told, below four uses, the innermost first, and of one with 4,000.
pub fn limits_by_hand()
    ensures level { (z : List ℕ) (ts : List Token) → IsPlaced z ts (of_copies 150) (copies_of 150)
        → IsLevelBeyond z (told_before ts 205 (2 ∷ [])) }
    ensures nothing_else { (z : List ℕ) (ts : List Token) → IsPlaced z ts (of_copies 150) (copies_of 150)
        → (t : Told) → IsLevelBeyond z t → t ≡ told_before ts 205 (2 ∷ []) }
    ensures not_yet { (z : List ℕ) (ts : List Token) → IsPlaced z ts (of_copies 99) (copies_of 99)
        → (t : Told) → IsLevelBeyond z t → ⊥ }
    ensures place { (z : List ℕ) (ts : List Token) → IsPlaced z ts (doublings 23) (beside 7 thirty_three)
        → IsPlaceBeyond z (told_before ts 79 (73 ∷ 67 ∷ 61 ∷ 6 ∷ [])) }
    ensures no_other { (z : List ℕ) (ts : List Token) → IsPlaced z ts (doublings 23) (beside 7 thirty_three)
        → (t : Told) → IsPlaceBeyond z t → t ≡ told_before ts 79 (73 ∷ 67 ∷ 61 ∷ 6 ∷ []) }
    ensures no_place { (z : List ℕ) (ts : List Token) → IsPlaced z ts (doublings 22) (beside 6 thirty_two)
        → (t : Told) → IsPlaceBeyond z t → ⊥ }
{
    limit_places();
    one_placed_file();
    one_numbered();
    one_first_deep();
}
