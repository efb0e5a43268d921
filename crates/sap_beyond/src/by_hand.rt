//! Numbers and digits of places in a small file, worked out by hand.
ghost use Rattle.std.specs.Prelude.{ℕ, List, [], ◌∷◌};
ghost use Rattle.sap_beyond.specs.Numbered.{IsFirstDeep, IsNumbered};
ghost use Rattle.sap_beyond.specs.Examples.{both, small};

use crate::laws::{one_first_deep, one_numbered};

/// A law: in a small file which places have which numbers, through one use, through two and beside them; which place is the first of so
/// many digits; and which they aren't: the place before, the place behind, the other branch, the last, the place of the use.
pub fn places_beyond_by_hand()
    ensures root { IsNumbered both small 0 [] }
    ensures through_both { IsNumbered both small 1 (1 ∷ []) }
    ensures within { IsNumbered both small 5 (1 ∷ 1 ∷ 2 ∷ 1 ∷ []) }
    ensures beside { IsNumbered both small 6 (2 ∷ []) × IsNumbered both small 7 (2 ∷ 1 ∷ []) }
    ensures last { IsNumbered both small 11 (2 ∷ 1 ∷ 1 ∷ 2 ∷ 1 ∷ []) }
    ensures none_behind { (path : List ℕ) → ¬ IsNumbered both small 12 path }
    ensures not_before { ¬ IsNumbered both small 5 (1 ∷ 1 ∷ 2 ∷ []) }
    ensures not_behind { ¬ IsNumbered both small 5 (2 ∷ []) }
    ensures not_other { ¬ IsNumbered both small 5 (2 ∷ 1 ∷ 1 ∷ []) }
    ensures no_use { ¬ IsNumbered both small 1 [] × ¬ IsNumbered both small 2 (1 ∷ []) }
    ensures deep { IsFirstDeep both small 3 (1 ∷ 1 ∷ 1 ∷ []) }
    ensures deeper { IsFirstDeep both small 4 (1 ∷ 1 ∷ 2 ∷ 1 ∷ []) }
    ensures deepest { IsFirstDeep both small 5 (2 ∷ 1 ∷ 1 ∷ 2 ∷ 1 ∷ []) }
    ensures none_deeper { (path : List ℕ) → ¬ IsFirstDeep both small 6 path }
    ensures not_second { ¬ IsFirstDeep both small 3 (1 ∷ 1 ∷ 2 ∷ []) }
    ensures not_last { ¬ IsFirstDeep both small 3 (2 ∷ 1 ∷ 1 ∷ []) × ¬ IsFirstDeep both small 4 (2 ∷ 1 ∷ 1 ∷ 2 ∷ []) }
    ensures no_digit_less { ¬ IsFirstDeep both small 4 (1 ∷ 1 ∷ 1 ∷ []) }
    ensures no_digit_more { ¬ IsFirstDeep both small 3 (1 ∷ 1 ∷ 2 ∷ 1 ∷ []) }
{
    one_numbered();
    one_first_deep();
}
