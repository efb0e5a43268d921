//! Laws of where paths lead in a file, as contracts of functions that do nothing.
ghost use Rattle.std.specs.Prelude.{◌≡◌, ◌∷◌, ℕ, List, [], Some, None, Err};
ghost use Rattle.sap_text.specs.declared.token.Token.{Token};
ghost use Rattle.sap_grammar.specs.Cut.{Placed};
ghost use Rattle.sap_locks.specs.declared.fault.LockFault.TheVariants.{LockOverParallel, UnlockWithoutLock};
ghost use Rattle.sap_process.specs.declared.flaw.Flaw.{Flaw};
ghost use Rattle.sap_origin.specs.Definitions.{LocatedDefinition};
ghost use Rattle.sap_origin.specs.Examples.{both, small};
ghost use Rattle.sap_origin.specs.Reached.{process_at};
ghost use Rattle.sap_process.specs.Proc.{Proc};
ghost use Rattle.sap_read.specs.Causes.{cause_of};
ghost use Rattle.sap_read.specs.Files.{IsFileProcess, IsParted, IsRead};
ghost use Rattle.sap_read.specs.LocatedItems.{LocatedMain};
ghost use Rattle.sap_read.specs.Item.{Standing, signature_of};
ghost use Rattle.sap_read.specs.ItemGrammar.{AreItems};
ghost use Rattle.sap_read.specs.declared.fault.ReadFault.{ReadFault};
ghost use Rattle.sap_read.specs.declared.fault.ReadFault.TheVariants.{Ill, Lock};
ghost use Rattle.sap_stretches.specs.StretchExamples.{stretch};
ghost use Rattle.sap_read_places.specs.PathExamples.{beside_it, through_uses, two_names_tokens};
ghost use Rattle.sap_read_places.specs.Placed.{IsAtPath, IsPlaced, path_of, stretch_before};
ghost use Rattle.sap_read_places.specs.declared.told.Told.{Told};

use sap_locks::lock_places_are_by_path;
use sap_origin::{expansions_are_meant, one_written_place};
use sap_read::{definitions_are_in_order, located_items, one_list_of_items, one_parting};

/// A law: bytes are a file of tokens, definitions and a process in one way at most.
pub fn one_placed_file()
    ensures tokens { (z : List ℕ) (ts us : List Token) (ds es : List LocatedDefinition) (m n : LocatedMain)
        → IsPlaced z ts ds m → IsPlaced z us es n → ts ≡ us }
    ensures definitions { (z : List ℕ) (ts us : List Token) (ds es : List LocatedDefinition)
        (m n : LocatedMain) → IsPlaced z ts ds m → IsPlaced z us es n → ds ≡ es }
    ensures main { (z : List ℕ) (ts us : List Token) (ds es : List LocatedDefinition) (m n : LocatedMain)
        → IsPlaced z ts ds m → IsPlaced z us es n → m ≡ n }
{
    one_parting();
    one_list_of_items();
    located_items();
}

/// A law: along a path one comes to a place of the file that is told by one word, through uses of the same names. To each place of the
/// process of a file one comes along its path; so each file that is refused for a cause at the place of a path has this place.
pub fn path_places()
    ensures one { (z : List ℕ) (path : List ℕ) (s t : Told) → IsAtPath z path s → IsAtPath z path t → s ≡ t }
    ensures some { (z : List ℕ) (ts : List Token) (x : List ℕ) (cut : List (List Placed))
        (is : List Standing) (p y : Proc) (path : List ℕ) → IsParted z ts x cut
        → AreItems (signature_of is) cut is → cause_of is ≡ None → IsFileProcess z ts is p
        → process_at p path ≡ Some y → (t : Told) × IsAtPath z path t }
    ensures refused { (z : List ℕ) (e : ReadFault) (path : List ℕ) → path_of e ≡ Some path
        → IsRead z (Err e) → (t : Told) × IsAtPath z path t }
{
    one_placed_file();
    located_items();
    definitions_are_in_order();
    expansions_are_meant();
    one_written_place();
    lock_places_are_by_path();
}

/// A law: which causes have a path, which word of a small file is the one from which so many are left, and where paths lead in another,
/// through two uses and beside them.
pub fn paths_by_hand()
    ensures paths { (path : List ℕ) (w : Flaw) → (path_of (Lock (UnlockWithoutLock path)) ≡ Some path)
        × (path_of (Lock (LockOverParallel path)) ≡ Some path) × (path_of (Ill w path) ≡ None) }
    ensures left { (stretch_before two_names_tokens 3 ≡ stretch 0 3)
        × (stretch_before two_names_tokens 1 ≡ stretch 6 7)
        × (stretch_before two_names_tokens 1 ≡ stretch 4 5 → ⊥) }
    ensures along { (z : List ℕ) (ts : List Token) → IsPlaced z ts both (record { process = small; behind = 1 })
        → IsAtPath z (1 ∷ []) (through_uses ts) × IsAtPath z (2 ∷ []) (beside_it ts) }
{}
