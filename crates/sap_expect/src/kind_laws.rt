//! Laws of what may stand behind words of a file, as contracts of functions that do nothing.
ghost use Rattle.std.specs.Prelude.{◌≡◌, true, codes, List, [], ◌∷◌};
ghost use Rattle.std.specs.List.{list_any};
ghost use Rattle.sap_grammar.specs.Words.{Word, mark};
ghost use Rattle.sap_expect.specs.ItemExamples.{headed, running};
ghost use Rattle.sap_expect.specs.KindExamples.{behind_builtins, behind_event, behind_new, behind_out, behind_slash, behind_variable, deep_formula, deep_process, deep_term, in_longer_tuple, in_tuple, no_file, whole_file};
ghost use Rattle.sap_expect.specs.Kinds.{Kind, a_formula, a_name, a_process, a_term, a_zero, an_arity, an_item, capital_name, is_of, quoted_name, this_mark, this_name};
ghost use Rattle.sap_expect.specs.Letters.{AreLettered, IsLettered};
ghost use Rattle.sap_expect.specs.MayStand.{IsWantedList, MayStand};

/// A law: behind words there is one list of kinds at most, and the words that may stand there are those of its kinds; words of the same
/// kinds may stand alike. Where names begin with letters, as those of tokens do.
pub fn kinds_are_what_may_stand()
    ensures one { (ws : List Word) (those others : List Kind) → IsWantedList ws those
        → IsWantedList ws others → those ≡ others }
    ensures all { (ws : List Word) (those : List Kind) (w : Word) → AreLettered ws → IsLettered w
        → IsWantedList ws those → MayStand ws w → list_any (λ k. is_of k w) those ≡ true }
    ensures only { (ws : List Word) (those : List Kind) (w : Word) → IsWantedList ws those
        → list_any (λ k. is_of k w) those ≡ true → MayStand ws w }
    ensures whole { (ws : List Word) (v w : Word) → AreLettered ws → IsLettered v
        → ((k : Kind) → is_of k v ≡ is_of k w) → MayStand ws v → MayStand ws w }
{}

/// A law: what may stand behind small files.
pub fn kinds_by_hand()
    ensures begin { IsWantedList (headed []) (an_item ∷ this_mark (codes "end") ∷ []) }
    ensures process { IsWantedList (running []) (a_process ∷ []) }
    ensures out { IsWantedList behind_out (a_term ∷ [])
        × IsWantedList behind_variable (this_mark (codes ",") ∷ this_mark (codes "(")
        ∷ this_mark (codes ")") ∷ []) }
    ensures tuple { IsWantedList in_tuple (this_mark (codes ",") ∷ [])
        × IsWantedList in_longer_tuple (this_mark (codes ",") ∷ this_mark (codes ">") ∷ []) }
    ensures names { IsWantedList behind_builtins (this_name (codes "hashing") ∷ this_name (codes "symmetric")
        ∷ this_name (codes "asymmetric") ∷ this_name (codes "signing") ∷ this_name (codes "revealing") ∷ [])
        × IsWantedList behind_slash (an_arity ∷ []) × IsWantedList behind_event (capital_name ∷ [])
        × IsWantedList behind_new (a_name ∷ this_mark (codes "~") ∷ []) }
    ensures nothing { IsWantedList whole_file [] × IsWantedList no_file [] }
    ensures not_these { (IsWantedList (headed []) (an_item ∷ []) → ⊥)
        × (IsWantedList (running []) (a_process ∷ a_name ∷ []) → ⊥)
        × (IsWantedList in_tuple (this_mark (codes ",") ∷ this_mark (codes ">") ∷ []) → ⊥)
        × (IsWantedList behind_new (this_mark (codes "~") ∷ a_name ∷ []) → ⊥) }
{}

/// A law: what may stand at the last level of a term, a process and a formula, and at the one before it: at the hundredth of a term no
/// pair.
pub fn kinds_at_limits_by_hand()
    ensures term { IsWantedList (deep_term 98) (a_term ∷ [])
        × IsWantedList (deep_term 99) (a_name ∷ quoted_name ∷ this_mark (codes "~")
        ∷ this_mark (codes "$") ∷ []) }
    ensures process { IsWantedList (deep_process 298) (a_process ∷ [])
        × IsWantedList (deep_process 299) (a_name ∷ a_zero ∷ []) }
    ensures formula { IsWantedList (deep_formula 98) (a_formula ∷ [])
        × IsWantedList (deep_formula 99) (a_term ∷ this_mark (codes "#") ∷ []) }
    ensures pair { MayStand (deep_term 98) (mark (codes "<")) × (MayStand (deep_term 99) (mark (codes "<")) → ⊥) }
    ensures not_these { IsWantedList (deep_term 99) (a_term ∷ []) → ⊥ }
{}
