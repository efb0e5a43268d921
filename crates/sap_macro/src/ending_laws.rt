//! Laws of the ends of chains of names, as contracts of functions that do nothing.
ghost use Rattle.std.specs.Prelude.{◌≡◌, codes, List, [], ◌∷◌};
ghost use Rattle.sap_macro.specs.Ends.{IsEnd};
ghost use Rattle.sap_macro.specs.EndExamples.{naming_c, use_c, use_d, use_two};
ghost use Rattle.sap_macro.specs.Expansion.{plain};
ghost use Rattle.sap_macro.specs.ExpansionExamples.{giving, giving_y, of_name, pairing};
ghost use Rattle.sap_macro.specs.Order.{AreInOrder};
ghost use Rattle.sap_macro.specs.Written.{Definition, Written, parallel};

/// A law: of definitions in order a chain of names without parameters has one end, and at its end stands what it stands for, once such
/// names are replaced.
pub fn chains_have_one_end()
    ensures one { (ds : List Definition) (w p q : Written) → AreInOrder [] ds → IsEnd ds w p → IsEnd ds w q → p ≡ q }
    ensures same { (ds : List Definition) (w p : Written) → AreInOrder [] ds → IsEnd ds w p → plain ds p ≡ plain ds w }
{}

/// A law: ends in small files. With `let C = out(y)` and `let D = C` both names end with `out(y)`: not with themselves, and `D` not with
/// `C`. The name of a definition with parameters ends its chain, and nothing else does; so does a name that nothing defines, and each form.
pub fn ends_by_hand()
    ensures body { IsEnd (giving_y ∷ []) use_c (giving (of_name (codes "y"))) }
    ensures itself { ¬ IsEnd (giving_y ∷ []) use_c use_c }
    ensures through { IsEnd (giving_y ∷ naming_c ∷ []) use_d (giving (of_name (codes "y"))) }
    ensures half_way { ¬ IsEnd (giving_y ∷ naming_c ∷ []) use_d use_c }
    ensures parameters { IsEnd (pairing ∷ []) use_two use_two }
    ensures parameters_alone { (p : Written) → IsEnd (pairing ∷ []) use_two p → p ≡ use_two }
    ensures unknown { IsEnd [] use_c use_c }
    ensures form { (p q r : Written) → IsEnd (giving_y ∷ []) (parallel p q) r → r ≡ parallel p q }
{}
