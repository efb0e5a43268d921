// Laws of facts that differ, as contracts of functions that do nothing.
ghost use Rattle.std.specs.Prelude.{◌≡◌, ℕ, List, [], ◌∷◌, Some, take, slice_get};
ghost use Rattle.sap_terms.specs.Signature.{Sig};
ghost use Rattle.sap_process.specs.Proc.{Proc};
ghost use Rattle.sap_process.specs.Sites.{Site, sites};
ghost use Rattle.sap_process.specs.declared.flaw.Flaw.TheVariants.{FactClash};
ghost use Rattle.sap_nodes.specs.FlawNodes.{IsNodeOf};
ghost use Rattle.sap_other_nodes.specs.OtherFacts.{IsEarlier, IsOtherFact};
ghost use Rattle.sap_other_nodes.specs.OtherFactExamples.{three_events, alike, side_by_side, both_forms, shown_between, three_rules};

use sap_process::{ScopeBelow, places_are_by_path, places_are_ordered};

/// A law: a fact has one other at most that is the first which differs from it; and where a flaw of a process is that a fact clashes with
/// one before it, that fact has one, and it stands before it.
pub fn other_facts()
    ensures one { (p : Proc) (path : List ℕ) (k : ℕ) (v w : List ℕ) (m n : ℕ) → IsOtherFact p path k v m → IsOtherFact p path k w n
        → (v ≡ w) × (m ≡ n) }
    ensures some { (g : Sig) (p : Proc) (i : ℕ) (s : Site) (k : ℕ) → slice_get (sites p) i ≡ Some s
        → IsNodeOf g (take i (sites p)) s FactClash k → (v : List ℕ) × (m : ℕ) × IsOtherFact p s.path k v m × IsEarlier v m s.path k }
{
    places_are_by_path::<ScopeBelow>();
    places_are_ordered();
}

/// A law: which fact others of small processes differ from first, and that it isn't another: of three events the first, not the last; for the
/// first of them the second; in the first process of two that are side by side; of a rule what it takes, where it adds a fact of that name
/// that lasts, by its node, which counts the arguments in front of it, and not what it shows, though that has as many arguments; of three rules
/// the left side of the first. None differs where those of one name that are shown have as many arguments, where names are others, or
/// where the node isn't a fact.
pub fn other_facts_by_hand()
    ensures first { IsOtherFact three_events (1 ∷ []) 0 [] 0 }
    ensures not_last { IsOtherFact three_events (1 ∷ []) 0 (1 ∷ 1 ∷ []) 0 → ⊥ }
    ensures behind { IsOtherFact three_events [] 0 (1 ∷ []) 0 }
    ensures not_alike { IsOtherFact three_events [] 0 (1 ∷ 1 ∷ []) 0 → ⊥ }
    ensures beside { IsOtherFact side_by_side (2 ∷ []) 0 (1 ∷ []) 0 }
    ensures form { IsOtherFact both_forms [] 2 [] 0 }
    ensures not_itself { IsOtherFact both_forms [] 2 [] 2 → ⊥ }
    ensures counted { IsOtherFact shown_between [] 9 [] 4 }
    ensures not_shown { IsOtherFact shown_between [] 9 [] 6 → ⊥ }
    ensures shown_alone { (v : List ℕ) (m : ℕ) → IsOtherFact shown_between [] 6 v m → ⊥ }
    ensures left { IsOtherFact three_rules (1 ∷ []) 0 [] 0 }
    ensures not_right { IsOtherFact three_rules (1 ∷ []) 0 [] 2 → ⊥ }
    ensures as_many { (v : List ℕ) (m : ℕ) → IsOtherFact alike [] 0 v m → ⊥ }
    ensures other_name { (v : List ℕ) (m : ℕ) → IsOtherFact alike (1 ∷ 1 ∷ []) 0 v m → ⊥ }
    ensures no_fact { (v : List ℕ) (m : ℕ) → IsOtherFact three_events (1 ∷ []) 1 v m → ⊥ }
{
    places_are_by_path::<ScopeBelow>();
    places_are_ordered();
}
