//! A law on the names of silent rules, as the contract of a function that does nothing.
ghost use Rattle.std.specs.Prelude.{◌≡◌, ◌++◌, ℕ, List, [], ◌∷◌, codes, false, map, true};
ghost use Rattle.sap_silent.specs.SilentNames.{is_silent_name};

/// A law: the words of silent rules, whatever place stands behind them; and words of others, some of which begin alike: of copies and
/// of outputs on a channel, of events and of embedded rules, and the name of the rule that starts a process.
pub fn names_by_hand()
    ensures silent { (digits : List ℕ) → map (λ word. is_silent_name (word ++ digits))
        (codes "Nil_" ∷ codes "Par_" ∷ codes "Out_" ∷ codes "RepStart_" ∷ []) ≡ true ∷ true ∷ true ∷ true ∷ [] }
    ensures begins_alike { (digits : List ℕ) → map (λ word. is_silent_name (word ++ digits))
        (codes "RepCopy_" ∷ codes "OutAdv_" ∷ codes "OutMsg_" ∷ codes "OutAck_" ∷ []) ≡ false ∷ false ∷ false ∷ false ∷ [] }
    ensures others { (digits : List ℕ) → map (λ word. is_silent_name (word ++ digits))
        (codes "Event_" ∷ codes "Rule_" ∷ codes "In_" ∷ codes "Init" ∷ []) ≡ false ∷ false ∷ false ∷ false ∷ [] }
{}
