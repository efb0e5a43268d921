//! Laws of where a name that nothing defines is used first, as contracts of functions that do nothing.
ghost use Rattle.std.specs.Prelude.{◌≡◌, ◌∷◌, ℕ, List, [], Err, codes};
ghost use Rattle.sap_text.specs.declared.token.Token.{Token};
ghost use Rattle.sap_read.specs.Files.{IsRead};
ghost use Rattle.sap_read.specs.LocatedItems.{LocatedBody};
ghost use Rattle.sap_read.specs.UndefinedExamples.{p_is, r_is, uses_r};
ghost use Rattle.sap_read.specs.UndefinedNames.{HasBodies};
ghost use Rattle.sap_read.specs.declared.fault.ReadFault.TheVariants.{UnknownProcess};
ghost use Rattle.sap_read_places.specs.NameExamples.{uses_itself, uses_p};
ghost use Rattle.sap_read_places.specs.UndefinedPlaces.{IsUndefinedPlace};
ghost use Rattle.sap_read_places.specs.UseExamples.{told_before};
ghost use Rattle.sap_read_places.specs.declared.told.Told.{Told};

use sap_read::{located_items, one_file, one_list_of_items, one_parting, undefined_names};

/// A law: bytes are a file of tokens, whose items say of processes what they say, in one way at most.
pub(crate) fn one_list_of_bodies()
    ensures tokens { (z : List ℕ) (ts us : List Token) (bs cs : List LocatedBody)
        → HasBodies z ts bs → HasBodies z us cs → ts ≡ us }
    ensures bodies { (z : List ℕ) (ts us : List Token) (bs cs : List LocatedBody)
        → HasBodies z ts bs → HasBodies z us cs → bs ≡ cs }
{
    one_parting();
    one_list_of_items();
    located_items();
}

/// A law: a name that nothing before it defines is used first at one word at most; and each file that is refused for such a name uses it
/// first somewhere.
pub fn undefined_places()
    ensures one { (z x : List ℕ) (s t : Told) → IsUndefinedPlace z x s → IsUndefinedPlace z x t → s ≡ t }
    ensures some { (z x : List ℕ) → IsRead z (Err (UnknownProcess x)) → (t : Told) × IsUndefinedPlace z x t }
{
    one_list_of_bodies();
    located_items();
    undefined_names();
}

/// A law: in small files what is told of the first name that nothing before it defines: its word, as it is counted by hand, and no use:
/// of the second use of a parallel in a definition, of a name that a later item defines, and of one in its own definition. Nothing is
/// told of another name or at another word, nor where each name is defined before, nor where the file is refused before its names are
/// looked at, for two processes.
pub fn undefined_by_hand()
    ensures second { (z : List ℕ) (ts : List Token) → HasBodies z ts (p_is ∷ r_is ∷ uses_r ∷ [])
        → IsUndefinedPlace z (codes "Q") (told_before ts 6 []) }
    ensures later { (z : List ℕ) (ts : List Token) → HasBodies z ts (r_is ∷ p_is ∷ uses_r ∷ [])
        → IsUndefinedPlace z (codes "P") (told_before ts 9 []) }
    ensures own { (z : List ℕ) (ts : List Token) → HasBodies z ts (uses_itself ∷ uses_r ∷ [])
        → IsUndefinedPlace z (codes "P") (told_before ts 6 []) }
    ensures nothing_else { (z : List ℕ) (ts : List Token) → HasBodies z ts (p_is ∷ r_is ∷ uses_r ∷ [])
        → (x : List ℕ) (t : Told) → IsUndefinedPlace z x t → (x ≡ codes "Q") × (t ≡ told_before ts 6 []) }
    ensures none { (z : List ℕ) (ts : List Token) → HasBodies z ts (p_is ∷ uses_p ∷ [])
        → (x : List ℕ) (t : Told) → IsUndefinedPlace z x t → ⊥ }
    ensures not_before { (z : List ℕ) (ts : List Token) → HasBodies z ts (uses_r ∷ uses_r ∷ [])
        → (x : List ℕ) (t : Told) → IsUndefinedPlace z x t → ⊥ }
{
    one_list_of_bodies();
    one_file();
    located_items();
}
