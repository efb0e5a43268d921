// Laws of the lock that is held over a parallel or a replication, as contracts of functions that do nothing.
ghost use Rattle.std.specs.Prelude.{◌≡◌, ℕ, List, [], ◌∷◌};
ghost use Rattle.sap_process.specs.Proc.{Proc};
ghost use Rattle.sap_locks.specs.Annotation.{IsFirstLockFlaw, over};
ghost use Rattle.sap_other_nodes.specs.OtherLocks.{IsLockOver};
ghost use Rattle.sap_other_nodes.specs.OtherLockExamples.{over_one, lower_ended, both_ended, two_terms, upper_term, ended_above, held_inside, in_branch, twice_over, other_branch, no_fork};

use sap_locks::lock_places_are_by_path;

/// A law: over a parallel or a replication at most one lock is the first that an unlock below ends; and where a process can't be annotated
/// since a lock is open over one, there is such a lock.
pub fn locks_over()
    ensures one { (p : Proc) (path : List ℕ) (d e : ℕ) → IsLockOver p path d → IsLockOver p path e → d ≡ e }
    ensures some { (p : Proc) (path : List ℕ) → IsFirstLockFlaw p over path → (d : ℕ) × IsLockOver p path d }
{
    lock_places_are_by_path();
}

/// A law: in small processes the lock that is held over a parallel or a replication, and that it isn't another: of two of one term the
/// lower, where one unlock stands below, and the upper, where two do; of two terms the upper one, whichever is unlocked first, also where
/// the lower one stays open; not one that is ended above; by how deep it stands, not by its number, which counts those beside the way
/// too; one for each fork that it is held over. There is none where the lock is set below the fork, where the unlock stands in another
/// branch, at a place that is no fork, and where the path leads nowhere.
pub fn locks_over_by_hand()
    ensures one { IsLockOver over_one (1 ∷ []) 0 }
    ensures lower { IsLockOver lower_ended (1 ∷ 1 ∷ []) 1 }
    ensures not_upper { IsLockOver lower_ended (1 ∷ 1 ∷ []) 0 → ⊥ }
    ensures upper { IsLockOver both_ended (1 ∷ 1 ∷ []) 0 }
    ensures not_lower { IsLockOver both_ended (1 ∷ 1 ∷ []) 1 → ⊥ }
    ensures first_lock { IsLockOver two_terms (1 ∷ 1 ∷ []) 0 }
    ensures not_first_unlock { IsLockOver two_terms (1 ∷ 1 ∷ []) 1 → ⊥ }
    ensures ended { IsLockOver upper_term (1 ∷ 1 ∷ []) 0 }
    ensures not_open { IsLockOver upper_term (1 ∷ 1 ∷ []) 1 → ⊥ }
    ensures open { IsLockOver ended_above (1 ∷ 1 ∷ 1 ∷ []) 2 }
    ensures not_ended_above { IsLockOver ended_above (1 ∷ 1 ∷ 1 ∷ []) 0 → ⊥ }
    ensures by_depth { IsLockOver in_branch (2 ∷ 1 ∷ []) 1 }
    ensures not_beside { IsLockOver in_branch (2 ∷ 1 ∷ []) 0 → ⊥ }
    ensures outer_fork { IsLockOver twice_over (1 ∷ []) 0 }
    ensures inner_fork { IsLockOver twice_over (1 ∷ 1 ∷ []) 0 }
    ensures not_inside { (d : ℕ) → IsLockOver held_inside (1 ∷ []) d → ⊥ }
    ensures not_in_other_branch { (d : ℕ) → IsLockOver other_branch (1 ∷ 2 ∷ []) d → ⊥ }
    ensures not_without_fork { (d : ℕ) → IsLockOver no_fork (1 ∷ []) d → ⊥ }
    ensures nowhere { (d : ℕ) → IsLockOver over_one (2 ∷ []) d → ⊥ }
{
    lock_places_are_by_path();
}
