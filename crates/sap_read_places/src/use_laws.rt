//! Laws of where uses stand of which causes speak, as contracts of functions that do nothing but call those below.
ghost use Rattle.std.specs.Prelude.{◌≡◌, ◌∷◌, ℕ, List, [], Err, codes};
ghost use Rattle.sap_text.specs.declared.token.Token.{Token};
ghost use Rattle.sap_read.specs.Files.{IsRead};
ghost use Rattle.sap_read.specs.declared.fault.ReadFault.TheVariants.{Arguments, Large};
ghost use Rattle.sap_use_words.specs.Examples.{body_doubles, directly_first, through_plain, two_wrong, using_through, wrong_in_body};
ghost use Rattle.sap_read_places.specs.Placed.{IsPlaced};
ghost use Rattle.sap_read_places.specs.UseExamples.{told_before};
ghost use Rattle.sap_read_places.specs.UsePlaces.{IsLargeUsePlace, IsOtherUsePlace};
ghost use Rattle.sap_read_places.specs.declared.told.Told.{Told};

use crate::laws::one_placed_file;
use sap_read::{definitions_are_in_order, located_items};
use sap_use_words::{large_uses_are_named, written_uses_are_written};

/// A law: in a file one use stands as the first with another number of arguments than its definition has parameters, and one as the first
/// that has an argument that is too large, each at one place, whatever name is asked for; and each file that is refused for such a use of
/// a name has this place.
pub fn use_places()
    ensures one_other { (z x y : List ℕ) (s t : Told) → IsOtherUsePlace z x s → IsOtherUsePlace z y t → s ≡ t }
    ensures one_large { (z x y : List ℕ) (s t : Told) → IsLargeUsePlace z x s → IsLargeUsePlace z y t → s ≡ t }
    ensures some_other { (z x : List ℕ) → IsRead z (Err (Arguments x)) → (t : Told) × IsOtherUsePlace z x t }
    ensures some_large { (z x : List ℕ) → IsRead z (Err (Large x)) → (t : Told) × IsLargeUsePlace z x t }
{
    one_placed_file();
    located_items();
    definitions_are_in_order();
    written_uses_are_written();
    large_uses_are_named();
}

/// A law: in small files what is told of uses: of one in a body with another number of arguments, rather than of one in the process, its
/// word alone; of one in a body whose caller hands on what is too large its word, below the word of the caller; of one in the body of a
/// name without parameters its word, below that of this name and of its caller, the innermost first. And of uses of other names than the
/// first one's nothing is.
pub fn use_places_by_hand()
    ensures other { (z : List ℕ) (ts : List Token) → IsPlaced z ts wrong_in_body (record { process = two_wrong; behind = 1 })
        → IsOtherUsePlace z (codes "A") (told_before ts 17 []) }
    ensures no_other { (z : List ℕ) (ts : List Token) → IsPlaced z ts wrong_in_body (record { process = two_wrong; behind = 1 })
        → (t : Told) → IsOtherUsePlace z (codes "B") t → ⊥ }
    ensures large { (z : List ℕ) (ts : List Token) → IsPlaced z ts (body_doubles 39 89) (record { process = directly_first 39 89; behind = 1 })
        → IsLargeUsePlace z (codes "A") (told_before ts 280 (185 ∷ [])) }
    ensures no_large { (z : List ℕ) (ts : List Token) → IsPlaced z ts (body_doubles 39 89) (record { process = directly_first 39 89; behind = 1 })
        → (t : Told) → IsLargeUsePlace z (codes "B") t → ⊥ }
    ensures through { (z : List ℕ) (ts : List Token) → IsPlaced z ts through_plain (record { process = using_through; behind = 1 })
        → IsLargeUsePlace z (codes "A") (told_before ts 206 (190 ∷ 187 ∷ [])) }
{
    one_placed_file();
}
