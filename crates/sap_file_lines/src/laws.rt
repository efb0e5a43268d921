//! Laws of lines, as contracts of functions that do nothing.
ghost use Rattle.std.specs.Prelude.{◌≡◌, ◌∷◌, ℕ, List, [], Option, Some, None, map};
ghost use Rattle.sap_text.specs.declared.token.Token.{Token};
ghost use Rattle.sap_macro.specs.Indexed.{defined};
ghost use Rattle.sap_macro.specs.Located.{Located, without_numbers};
ghost use Rattle.sap_macro.specs.Order.{AreInOrder, UsesOnly};
ghost use Rattle.sap_origin.specs.Definitions.{LocatedDefinition, plain_definition};
ghost use Rattle.sap_origin.specs.Origins.{start};
ghost use Rattle.sap_origin.specs.Reached.{Reaches, Standing};
ghost use Rattle.sap_file_lines.specs.FileLines.{AreLinesByPath, IsMissing, line_before, words_from};
ghost use Rattle.sap_file_lines.specs.LineExamples.{HasLine, HasNoLine};
ghost use Rattle.sap_file_lines.specs.Places.{ArePlaces, AreTheirLines};
ghost use Rattle.sap_file_lines.specs.declared.places.FilePlaces.{FilePlaces};

use sap_macro::located_is_written;
use sap_origin::{expansions_are_meant, located_definitions_are_written, one_written_place};

/// A law: the lines of a file's places are one function of their paths, and there is one, where no definition has the name of an earlier
/// one, each uses earlier ones alone, and the process uses these: a place that somebody wrote has the line of its word, a `0` that nobody
/// wrote has none, nor has a path along which one comes nowhere.
pub fn lines_are_one()
    ensures one { (bytes : List ℕ) (ts : List Token) (ds : List LocatedDefinition) (p : Located) (behind : ℕ)
        (a b : List ℕ → Option ℕ) → AreLinesByPath bytes ts ds p behind a → AreLinesByPath bytes ts ds p behind b
        → a ≡ b }
    ensures some { (bytes : List ℕ) (ts : List Token) (ds : List LocatedDefinition) (p : Located) (behind : ℕ)
        → AreInOrder [] (map plain_definition ds)
        → UsesOnly (defined (map plain_definition ds)) (without_numbers p)
        → (lines : List ℕ → Option ℕ) × AreLinesByPath bytes ts ds p behind lines }
    ensures places { (f : FilePlaces) (h : ArePlaces f)
        → (lines : List ℕ → Option ℕ) × AreTheirLines f h.bytes lines }
    ensures written { (bytes : List ℕ) (ts : List Token) (ds : List LocatedDefinition) (p q : Located)
        (behind : ℕ) (lines : List ℕ → Option ℕ) (path : List ℕ) (z : Standing)
        → AreLinesByPath bytes ts ds p behind lines → Reaches ds (start behind) p path z q
        → (IsMissing ds p behind path z q → ⊥) → lines path ≡ Some (line_before bytes ts (words_from z q)) }
    ensures missing { (bytes : List ℕ) (ts : List Token) (ds : List LocatedDefinition) (p q : Located)
        (behind : ℕ) (lines : List ℕ → Option ℕ) (path : List ℕ) (z : Standing)
        → AreLinesByPath bytes ts ds p behind lines → Reaches ds (start behind) p path z q
        → IsMissing ds p behind path z q → lines path ≡ None }
    ensures nowhere { (bytes : List ℕ) (ts : List Token) (ds : List LocatedDefinition) (p : Located)
        (behind : ℕ) (lines : List ℕ → Option ℕ) (path : List ℕ) → AreLinesByPath bytes ts ds p behind lines
        → ((z : Standing) (q : Located) → Reaches ds (start behind) p path z q → ⊥) → lines path ≡ None }
{
    expansions_are_meant();
    one_written_place();
    located_definitions_are_written();
    located_is_written();
}

/// A law: lines in a small file, and what they aren't. A parallel stands on the line of its sign; both uses of a definition with a parameter
/// lead into its body, through a mere other name too; a `0` has its line, also where it is all of a definition, and as many words
/// of its item are left from it as of that of the place above. A `0` that is missing behind
/// an action or for `else` has none, nor has a path that leads nowhere. The lines of uses, of a `let` and of the left side of a parallel are
/// those of no place.
pub fn lines_by_hand()
    ensures sign { HasLine [] 8 × HasLine (2 ∷ []) 9 × HasLine (2 ∷ 2 ∷ []) 10 }
    ensures no_left_side { (HasLine [] 7 → ⊥) × (HasLine (2 ∷ []) 8 → ⊥) }
    ensures through_both { HasLine (1 ∷ []) 3 }
    ensures no_use { (HasLine (1 ∷ []) 7 → ⊥) × (HasLine (1 ∷ []) 4 → ⊥) × (HasLine (1 ∷ []) 2 → ⊥) }
    ensures other_use { HasLine (2 ∷ 1 ∷ []) 3 × (HasLine (2 ∷ 1 ∷ []) 8 → ⊥) }
    ensures copies { HasLine (2 ∷ 2 ∷ 1 ∷ []) 9 × HasLine (2 ∷ 2 ∷ 1 ∷ 1 ∷ []) 9 }
    ensures test { HasLine (2 ∷ 2 ∷ 2 ∷ []) 10 }
    ensures whole_definition { HasLine (2 ∷ 2 ∷ 2 ∷ 1 ∷ []) 5 × (HasLine (2 ∷ 2 ∷ 2 ∷ 1 ∷ []) 10 → ⊥) }
    ensures missing { HasNoLine (1 ∷ 1 ∷ []) × HasNoLine (2 ∷ 1 ∷ 1 ∷ []) × HasNoLine (2 ∷ 2 ∷ 2 ∷ 2 ∷ []) }
    ensures nowhere { HasNoLine (2 ∷ 2 ∷ 1 ∷ 2 ∷ []) × HasNoLine (3 ∷ []) }
{
    one_written_place();
}
