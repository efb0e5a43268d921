//! Laws of the first name of a process that nothing before it defines, as contracts of functions that do nothing.
ghost use Rattle.std.specs.Prelude.{◌≡◌, ◌∷◌, ℕ, List, [], codes, map};
ghost use Rattle.std.specs.Option.{option_map};
ghost use Rattle.sap_macro.specs.Located.{call_at, nil_at};
ghost use Rattle.sap_read.specs.Causes.{unknown_from};
ghost use Rattle.sap_read.specs.LocatedItems.{LocatedBody, plain_body};
ghost use Rattle.sap_read.specs.UndefinedExamples.{HaveNone, IsUndefinedAt, defined, deletes, looks_up, own, p_is, r_is, tests, uses_r};
ghost use Rattle.sap_read.specs.UndefinedNames.{UsedName, first_undefined};

/// A law: without its word, the first name that nothing before it defines is the unknown name of the items, whatever is known before them.
pub fn undefined_names()
    ensures { (known : List (List ℕ)) (bs : List LocatedBody)
        → option_map (λ (u : UsedName). u.name) (first_undefined known bs) ≡ unknown_from known (map plain_body bs) }
{}

/// A law: of small files the first name that nothing before it defines, with its word, or that there is none: the second use of a
/// parallel, not the first, which is defined, nor that in a later item; a name in its own definition; one that is defined later; the
/// first of two; one behind an action; one in each branch of a test and of a lookup; and none where each is defined before.
pub fn undefined_names_by_hand()
    ensures second { IsUndefinedAt (p_is ∷ r_is ∷ uses_r ∷ []) (codes "Q") 6 }
    ensures own { IsUndefinedAt (defined (codes "P") (call_at 1 (codes "P") []) 5 ∷ []) (codes "P") 6 }
    ensures later { IsUndefinedAt (r_is ∷ p_is ∷ []) (codes "P") 9 }
    ensures first { IsUndefinedAt (uses_r ∷ r_is ∷ []) (codes "R") 2 }
    ensures behind { IsUndefinedAt (deletes ∷ []) (codes "Q") 2 }
    ensures branches { IsUndefinedAt (tests ∷ []) (codes "P") 4 × IsUndefinedAt (p_is ∷ tests ∷ []) (codes "Q") 2
        × IsUndefinedAt (looks_up ∷ []) (codes "P") 4 × IsUndefinedAt (p_is ∷ looks_up ∷ []) (codes "Q") 2 }
    ensures none { HaveNone (p_is ∷ own (call_at 1 (codes "P") []) ∷ []) × HaveNone (own (nil_at 1) ∷ []) × HaveNone [] }
{}
