//! Laws of uses and their words, as contracts of functions that do nothing.
ghost use Rattle.std.specs.Prelude.{◌≡◌, ℕ, List, [], ◌∷◌, Some, None, map, Contains};
ghost use Rattle.std.specs.Option.{option_map};
ghost use Rattle.sap_macro.specs.Located.{Located, nil_at, without_numbers};
ghost use Rattle.sap_macro.specs.MacroCauses.{all_uses, first_other_count};
ghost use Rattle.sap_macro.specs.Order.{AreInOrder};
ghost use Rattle.sap_origin.specs.Definitions.{LocatedDefinition, plain_definition};
ghost use Rattle.sap_origin.specs.Origins.{start};
ghost use Rattle.sap_uses.specs.UseCauses.{first_large};
ghost use Rattle.sap_use_words.specs.Examples.{at, body_doubles, directly_first, directly_second, none_wrong, plain_alone, plain_with_argument, right_bodies, second_wrong, through_plain, two_wrong, using_through, wrong_in_body};
ghost use Rattle.sap_use_words.specs.ExpandedUses.{expanded_uses, large_use, words_of};
ghost use Rattle.sap_use_words.specs.Passing.{IsPassed};
ghost use Rattle.sap_use_words.specs.WrittenUses.{LocatedUse, other_use, plain_use, written_uses};

use sap_origin::names_stand_for_definitions;

/// A law: uses with their words are, without these, the uses in the bodies in order and then in the process; so the first that has another
/// number of arguments than its definition has parameters is there exactly where that cause holds, and has the name of which it speaks.
pub fn written_uses_are_written()
    ensures uses { (ds : List LocatedDefinition) (n : ℕ) (p : Located)
        → map plain_use (written_uses ds n p) ≡ all_uses (map plain_definition ds) (without_numbers p) }
    ensures other { (ds : List LocatedDefinition) (n : ℕ) (p : Located)
        → option_map (λ (u : LocatedUse). u.name) (other_use ds n p)
        ≡ first_other_count (map plain_definition ds) (without_numbers p) }
{}

/// A law: of definitions of which none has the name of an earlier one and each uses earlier ones alone, the first use in the expansion that
/// has a large argument is there exactly where that cause holds, and has the name of which it speaks.
pub fn large_uses_are_named()
    ensures { (ds : List LocatedDefinition) (n : ℕ) (p : Located) → AreInOrder [] (map plain_definition ds)
        → option_map (λ (u : LocatedUse). u.name) (large_use ds n p)
        ≡ first_large (map plain_definition ds) (without_numbers p) }
{}

/// A law: of definitions in the same order, through each use in the expansion of a process one comes along some path to a place, and before
/// it through those above it alone.
pub fn uses_are_passed()
    ensures { (ds : List LocatedDefinition) (n : ℕ) (p : Located) (u : LocatedUse) → AreInOrder [] (map plain_definition ds)
        → Contains (expanded_uses ds n p) u → IsPassed ds (start n) p u }
{
    names_stand_for_definitions();
}

/// A law: in small files the words of uses, with those of the uses above them. With another number of arguments: a use in a body before one
/// in the process, the first of two, the second where the first is right, and none. Too large: a use in a body by the argument that its
/// caller hands on, rather than one in the process before it that isn't too large or behind it that is; one in the process before it that is
/// too large; the caller itself rather than the use in its body; a use in the body of a name without parameters, by what stands for the
/// caller's parameters, below both names. And none where no argument is too large, where one is handed to a name without parameters, and
/// where nothing is used.
pub fn use_words_by_hand()
    ensures other_in_body { option_map words_of (other_use wrong_in_body 1 two_wrong) ≡ Some (at 17 []) }
    ensures other_first { option_map words_of (other_use (right_bodies 11) 1 two_wrong) ≡ Some (at 9 []) }
    ensures other_second { option_map words_of (other_use (right_bodies 9) 1 second_wrong) ≡ Some (at 2 []) }
    ensures no_other { other_use (right_bodies 12) 1 none_wrong ≡ None }
    ensures in_body { option_map words_of (large_use (body_doubles 39 89) 1 (directly_first 39 89)) ≡ Some (at 280 (185 ∷ [])) }
    ensures body_first { option_map words_of (large_use (body_doubles 128 89) 1 (directly_second 128 89)) ≡ Some (at 458 (448 ∷ [])) }
    ensures body_second { option_map words_of (large_use (body_doubles 128 89) 1 (directly_first 128 89)) ≡ Some (at 448 []) }
    ensures caller { option_map words_of (large_use (body_doubles 39 128) 1 (directly_first 39 128)) ≡ Some (at 263 []) }
    ensures through_plain { option_map words_of (large_use through_plain 1 using_through) ≡ Some (at 206 (190 ∷ 187 ∷ [])) }
    ensures none_large { large_use (body_doubles 39 39) 1 (directly_first 39 39) ≡ None }
    ensures none_handed { large_use plain_alone 1 plain_with_argument ≡ None }
    ensures none_used { large_use (body_doubles 39 89) 1 (nil_at 1) ≡ None }
{}
