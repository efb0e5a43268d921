//! What places hand down.
ghost use Rattle.std.specs.Prelude.{◌≡◌, ◌<◌, ◌⊎◌, ℕ, List, ◌∷◌, ◌++◌, Some, Contains, slice_get};
ghost use Rattle.sap_process.specs.Places.{Descent, Place, places, place_at, IsBefore};
ghost use Rattle.sap_process.specs.Proc.{Proc};

/// What each place of a process hands down to its children. It is named in laws, as the type of `places_are_by_path`; values of
/// such a type say nothing.
pub trait HandsDown {
    ghost Above: { Type 0 };

    ghost below: { Descent Above };
}

/// A law, whatever is handed down: the list of places has each place that a path leads to, with its path and with what was
/// handed down to it, and nothing else, in preorder; so it has each place once.
pub fn places_are_by_path<D: HandsDown>()
    ensures at_path { (p : Proc) (s : D.Above) (x : Place D.Above) → Contains (places D.below s p) x
        → place_at D.below s p x.path ≡ Some x }
    ensures listed { (p : Proc) (s : D.Above) (path : List ℕ) (x : Place D.Above) → place_at D.below s p path ≡ Some x
        → Contains (places D.below s p) x }
    ensures path { (p : Proc) (s : D.Above) (path : List ℕ) (x : Place D.Above) → place_at D.below s p path ≡ Some x
        → x.path ≡ path }
    ensures in_order { (p : Proc) (s : D.Above) (i j : ℕ) (x y : Place D.Above) → i < j
        → slice_get (places D.below s p) i ≡ Some x → slice_get (places D.below s p) j ≡ Some y → IsBefore x.path y.path }
{}

/// A law: no place stands before itself, of two places one stands before the other or they are one and the same, and what
/// stands before a place stands before what comes after that. A place stands before those below it; and what is below one child
/// stands before what is below a child with a greater digit.
pub fn places_are_ordered()
    ensures not_itself { (v : List ℕ) → ¬ IsBefore v v }
    ensures ordered { (v w : List ℕ) → IsBefore v w ⊎ ((v ≡ w) ⊎ IsBefore w v) }
    ensures onward { (v w u : List ℕ) → IsBefore v w → IsBefore w u → IsBefore v u }
    ensures above { (v : List ℕ) (d : ℕ) (w : List ℕ) → IsBefore v (v ++ d ∷ w) }
    ensures left { (v w u : List ℕ) (d e : ℕ) → d < e → IsBefore (v ++ d ∷ w) (v ++ e ∷ u) }
{}

/// The variables that places bind and the locks that they set, as what is handed down.
#[derive(Drop)]
pub struct ScopeBelow;

impl HandsDown for ScopeBelow {
    ghost use Rattle.sap_process.specs.Sites.{Above, scope_below};

    ghost Above = { Above };

    ghost below = { scope_below };
}
