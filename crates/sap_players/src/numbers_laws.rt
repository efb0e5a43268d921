//! Laws of numbers, as contracts of functions that do nothing.
ghost use Rattle.std.specs.Prelude.{◌≡◌, ◌↔◌, ℕ, suc, List, [], ◌∷◌, ◌++◌, Some, slice_get};
ghost use Rattle.sap_players.specs.Numbers.{Player, IsRoleNumber, role_number};
ghost use Rattle.sap_players.specs.NumberExamples.{interleaved, none_done};

/// A law: a thread is one of its role at most, and no two are the same one; each that does something in a role is one of it, there is none
/// between that isn't one, and each stays what it is, whatever is done later.
pub fn numbers_are_one()
    ensures one { (ds : List Player) (r t k j : ℕ) → IsRoleNumber ds r t k → IsRoleNumber ds r t j → k ≡ j }
    ensures other { (ds : List Player) (r t u k : ℕ) → IsRoleNumber ds r t k → IsRoleNumber ds r u k → t ≡ u }
    ensures some { (ds : List Player) (r t k : ℕ) → slice_get ds k ≡ Some (t, r)
        → (n : ℕ) × IsRoleNumber ds r t n }
    ensures only { (ds : List Player) (r t k : ℕ) → IsRoleNumber ds r t k
        → (i : ℕ) × (slice_get ds i ≡ Some (t, r)) }
    ensures before { (ds : List Player) (r t k : ℕ) → IsRoleNumber ds r t (suc (suc k))
        → (u : ℕ) × IsRoleNumber ds r u (suc k) }
    ensures found { (ds : List Player) (r t k : ℕ) → role_number ds r t ≡ Some k ↔ IsRoleNumber ds r t k }
    ensures stays { (ds es : List Player) (r t k : ℕ) → IsRoleNumber ds r t k
        → IsRoleNumber (ds ++ es) r t k }
{}

/// A law: of threads 4, 2 and 7 that do something in roles 0 and 1, which one of its role each is, and which not: not by its number, nor by
/// the order of numbers, nor by how many lines there are, nor over all roles, nor by who did something last; none is number 0.
pub fn numbers_by_hand()
    ensures first { IsRoleNumber interleaved 0 4 1 × IsRoleNumber interleaved 1 2 1 }
    ensures second { IsRoleNumber interleaved 0 7 2 × IsRoleNumber interleaved 1 4 2 }
    ensures third { IsRoleNumber interleaved 0 2 3 }
    ensures no_number { (IsRoleNumber interleaved 0 4 4 → ⊥) × (IsRoleNumber interleaved 0 7 7 → ⊥)
        × (IsRoleNumber interleaved 0 4 0 → ⊥) }
    ensures no_order_of_numbers { (IsRoleNumber interleaved 0 2 1 → ⊥) × (IsRoleNumber interleaved 1 4 1
        → ⊥) }
    ensures no_count_of_lines { (IsRoleNumber interleaved 0 2 4 → ⊥) × (IsRoleNumber interleaved 0 2 6
        → ⊥) }
    ensures no_count_over_roles { (IsRoleNumber interleaved 0 7 3 → ⊥) × (IsRoleNumber interleaved 0 2 2
        → ⊥) }
    ensures no_last { (IsRoleNumber interleaved 0 7 1 → ⊥) × (IsRoleNumber interleaved 0 4 2 → ⊥) }
    ensures nothing_done { (k : ℕ) → (IsRoleNumber interleaved 1 7 k → ⊥)
        × (IsRoleNumber interleaved 2 4 k → ⊥)
        × (IsRoleNumber none_done 0 4 k → ⊥) }
{}
