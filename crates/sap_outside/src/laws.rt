//! What a shelf is asked for, tried by hand.
ghost use Rattle.std.specs.Prelude.{◌≡◌, ◌≤◌, ℕ, List, [], ◌∷◌, ◌++◌, length, Option, None, Some};
ghost use Rattle.std.specs.FinMap as map;
ghost use Rattle.sap_outside.specs.Outside.{Files, piece_bytes};
ghost use Rattle.sap_outside.specs.Requests.{Request, Requested, begin, next};
ghost use Rattle.sap_outside.specs.RunPieces.{WasRead, WasGivenUp};

/// A law: requests tried by hand, over a shelf that wasn't asked before and tells what it is asked for. Reading a run of no bytes
/// opens it and asks for one piece; who asks for two, or opens another run before, doesn't read it so; and of bytes that came at once
/// a second, empty piece is asked for. Where the shelf tells that it doesn't hold the run, reading it is given up after two requests at
/// most.
pub fn calls_by_hand()
    ensures empty { (name : List ℕ)
        → WasRead None name [] (Some []) (Some (begin name ∷ next piece_bytes ∷ [])) [] }
    ensures no_second { (holds : Option Files) (name : List ℕ)
        → WasRead holds name [] (Some [])
        (Some (begin name ∷ next piece_bytes ∷ next piece_bytes ∷ [])) [] → ⊥ }
    ensures no_other { (holds : Option Files) (name other z : List ℕ) (more : List Request)
        → WasRead holds name [] (Some []) (Some (begin other ∷ more)) z → name ≡ other }
    ensures one_piece { (name : List ℕ)
        → WasRead None name [] (Some [])
        (Some (begin name ∷ next piece_bytes ∷ next piece_bytes ∷ [])) (7 ∷ []) }
    ensures no_end { (holds : Option Files) (name : List ℕ)
        → WasRead holds name [] (Some []) (Some (begin name ∷ next piece_bytes ∷ [])) (7 ∷ []) → ⊥ }
    ensures given_up { (files : Files) (name : List ℕ) (asked : List Request)
        → map.get files name ≡ None → WasGivenUp (Some files) name [] (Some []) (Some asked) → length asked ≤ 2 }
{}

/// A law: requests that were made, and then others, were made one behind another.
pub fn requests_are_joined()
    ensures { (first more : List Request) (before mid after : Option (List Request))
        → Requested first before mid → Requested more mid after
        → Requested (first ++ more) before after }
{}
