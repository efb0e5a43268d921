//! Laws of places as values and of the facts of control, as contracts of functions that do nothing.
ghost use Rattle.std.specs.Prelude.{◌≡◌, [], ◌∷◌};
ghost use Rattle.sap_process.specs.Proc.{nil};
ghost use Rattle.sap_process.specs.ScopeExamples.{two_locks};
ghost use Rattle.sap_place.specs.PlaceExamples.{at_root, semi_12_linear, semi_12_stays, semi_12_waits, state_12, state_root, twelfth, two_locks_places, two_locks_turned};
ghost use Rattle.sap_place.specs.PlaceLists.{places_of};
ghost use Rattle.sap_place.specs.StateFacts.{semi_of, state_of};
ghost use Rattle.sap_place.specs.declared.place.Form.{Form};
ghost use Rattle.sap_place.specs.declared.place.Form.TheVariants.{Nil, Rep, Send};
ghost use Rattle.sap_place.specs.declared.place.Place.{Place};

/// A law: a fact of control says which place it is of. Facts of places with one name have one path, so equal ones do; equal state
/// facts are of places with the same variables in scope; and no state fact has the name of a fact of what is halfway through or stays.
pub fn facts_name_their_places()
    ensures states { (s t : Place) → (state_of s).name ≡ (state_of t).name → s.path ≡ t.path }
    ensures scopes { (s t : Place) → state_of s ≡ state_of t → s.scope ≡ t.scope }
    ensures semis { (f h : Form) (s t : Place) → (semi_of f s).name ≡ (semi_of h t).name → s.path ≡ t.path }
    ensures apart { (f : Form) (s t : Place) → ¬ ((state_of s).name ≡ (semi_of f t).name) }
{}

/// A law: the places of a process with two locks that stay open over a parallel and a replication, by hand, each with its form, the
/// variables in scope and the open locks, the outermost first and not the innermost; and the one place of `0`.
pub fn places_by_hand()
    ensures two_locks { places_of two_locks ≡ two_locks_places }
    ensures not_innermost_first { ¬ (places_of two_locks ≡ two_locks_turned) }
    ensures nothing { places_of nil ≡ at_root Nil ∷ [] }
{}

/// A law: facts of control by hand. That of a replication stays, and has no tag; that of a sender doesn't stay, and has the tag last.
pub fn facts_by_hand()
    ensures state { (f : Form) → state_of (twelfth f) ≡ state_12 }
    ensures root { (f : Form) → state_of (at_root f) ≡ state_root }
    ensures copies { semi_of Rep (twelfth Rep) ≡ semi_12_stays }
    ensures waits { semi_of Send (twelfth Send) ≡ semi_12_waits }
    ensures copies_stay { ¬ (semi_of Rep (twelfth Rep) ≡ semi_12_linear) }
    ensures waits_with_tag { ¬ (semi_of Send (twelfth Send) ≡ semi_12_linear) }
{}
