//! Laws of the definitions.
ghost use Rattle.std.specs.Prelude.{◌≡◌, ◌<◌, ◌^◌, ◌⊎◌, ℕ, List, [], ◌∷◌, Some, Contains, false, slice_get};
ghost use Rattle.sap_terms.specs.Signature.{Sig};
ghost use Rattle.sap_terms.specs.Tree.{Tree};
ghost use Rattle.sap_terms.specs.Variables.{is_known};
ghost use Rattle.sap_process.specs.Flaws.{IsWellFormed};
ghost use Rattle.sap_process.specs.Places.{place_at, IsBefore};
ghost use Rattle.sap_process.specs.Ready.{IsReady};
ghost use Rattle.sap_process.specs.Sites.{var_names};
ghost use Rattle.sap_process.specs.Proc.{Proc, nil, node_count, parallel, replicated, test, lookup};
ghost use Rattle.sap_locks.specs.OpenLocks.{HasOpenLocks};
ghost use Rattle.sap_process.specs.Scopes.{Spot, lock_scope, lock_scope_below, lock_var, spots};
ghost use Rattle.sap_locks.specs.Ways.{IsLockOf, LockSite, lock_sites, way_above, way_below};
ghost use Rattle.sap_locks.specs.LockExamples.{s, t, x, locking, unlocking, showing};
ghost use Rattle.sap_locks.specs.Annotation.{IsAnnotated, IsAnnotation, IsFirstLockFlaw, LockFlaw, lock_at, unlock_at, without, over};

use crate::descents::{LockScopeBelow, WayBelow};
use sap_process::places_are_by_path;

/// A law: each process has exactly one annotation, or exactly one place that is the first that can't be annotated, for one
/// cause, and never both.
pub fn annotations_of_processes()
    ensures some { (p : Proc) → ((q : Proc) × IsAnnotation p q) ⊎ ((w : LockFlaw) × (path : List ℕ) × IsFirstLockFlaw p w path) }
    ensures one { (p q r : Proc) → IsAnnotation p q → IsAnnotation p r → q ≡ r }
    ensures one_path { (p : Proc) (u w : LockFlaw) (a b : List ℕ) → IsFirstLockFlaw p u a → IsFirstLockFlaw p w b → a ≡ b }
    ensures one_cause { (p : Proc) (u w : LockFlaw) (a b : List ℕ) → IsFirstLockFlaw p u a → IsFirstLockFlaw p w b → u ≡ w }
    ensures never_both { (p q : Proc) (w : LockFlaw) (path : List ℕ) → IsAnnotation p q → ¬ IsFirstLockFlaw p w path }
{}

/// A law: small processes tried by hand. An unlock has the lowest open lock of its term; a lock may stay open over a parallel
/// where nothing below unlocks it; else the parallel or the replication is refused, before what stands below it; and an
/// unlock of a term that isn't locked, or isn't any more, is refused.
pub fn annotations_by_hand()
    ensures lowest { IsAnnotation (locking s 0 (locking s 0 (unlocking s 0 nil))) (locking s 1 (locking s 2 (unlocking s 2 nil))) }
    ensures outer_next { IsAnnotation (locking s 0 (locking s 0 (unlocking s 0 (unlocking s 0 nil))))
        (locking s 1 (locking s 2 (unlocking s 2 (unlocking s 1 nil)))) }
    ensures by_term { IsAnnotation (locking s 0 (locking t 0 (unlocking s 0 nil))) (locking s 1 (locking t 2 (unlocking s 1 nil))) }
    ensures preorder { IsAnnotation (parallel (locking s 0 nil) (locking s 0 nil)) (parallel (locking s 1 nil) (locking s 2 nil)) }
    ensures stays { IsAnnotation (locking s 0 (parallel showing showing)) (locking s 1 (parallel showing showing)) }
    ensures inside { IsAnnotation (locking s 0 (parallel (locking s 0 (unlocking s 0 nil)) nil))
        (locking s 1 (parallel (locking s 2 (unlocking s 2 nil)) nil)) }
    ensures no_lock { IsFirstLockFlaw (unlocking s 0 nil) without [] }
    ensures no_more { IsFirstLockFlaw (locking s 0 (unlocking s 0 (unlocking s 0 nil))) without (1 ∷ 1 ∷ []) }
    ensures other_term { IsFirstLockFlaw (locking s 0 (unlocking t 0 nil)) without (1 ∷ []) }
    ensures over_parallel { IsFirstLockFlaw (locking s 0 (parallel nil (parallel (unlocking s 0 nil) nil))) over (1 ∷ []) }
    ensures over_replication { IsFirstLockFlaw (locking s 0 (replicated (unlocking s 0 nil))) over (1 ∷ []) }
    ensures above_first { IsFirstLockFlaw (locking s 0 (parallel (unlocking t 0 nil) (unlocking s 0 nil))) over (1 ∷ []) }
{}

/// A law: the same of small processes with an `if` and a look-up. Each branch may unlock what was locked above, in the one as in
/// the other, so that both unlocks have one label and no other; locks of the second branch are numbered on from those of the
/// first; and a lock of the first branch is none for an unlock in the second. A branch that unlocks below a parallel is refused at
/// the parallel, and not at the `if`. And no other labels are an annotation. `0` is its own.
pub fn branches_by_hand()
    ensures nothing { IsAnnotation nil nil }
    ensures both_unlock { IsAnnotation (locking s 0 (test s t (unlocking s 0 nil) (unlocking s 0 nil)))
        (locking s 1 (test s t (unlocking s 1 nil) (unlocking s 1 nil))) }
    ensures one_unlocks { IsAnnotation (locking s 0 (test s t (unlocking s 0 (locking s 0 nil)) (locking s 0 (unlocking s 0 nil))))
        (locking s 1 (test s t (unlocking s 1 (locking s 2 nil)) (locking s 3 (unlocking s 3 nil)))) }
    ensures looked_up { IsAnnotation (locking s 0 (lookup t x (locking t 0 (unlocking s 0 nil)) (locking t 0 (unlocking t 0 nil))))
        (locking s 1 (lookup t x (locking t 2 (unlocking s 1 nil)) (locking t 3 (unlocking t 3 nil)))) }
    ensures not_beside { IsFirstLockFlaw (test s t (locking s 0 nil) (unlocking s 0 nil)) without (2 ∷ []) }
    ensures not_beside_in_lookup { IsFirstLockFlaw (lookup t x (locking s 0 nil) (unlocking s 0 nil)) without (2 ∷ []) }
    ensures twice_in_lookup { IsFirstLockFlaw (locking s 0 (lookup t x (unlocking s 0 (unlocking s 0 nil)) (unlocking s 0 nil)))
        without (1 ∷ 1 ∷ 1 ∷ []) }
    ensures over_in_branch { IsFirstLockFlaw (locking s 0 (test s t nil (parallel nil (unlocking s 0 nil)))) over (1 ∷ 2 ∷ []) }
    ensures no_other_label { ¬ IsAnnotation (locking s 0 (test s t (unlocking s 0 nil) (unlocking s 0 nil)))
        (locking s 1 (test s t (unlocking s 1 nil) (unlocking s 2 nil))) }
    ensures not_numbered_again { ¬ IsAnnotation (lookup t x (locking s 0 nil) (locking s 0 nil))
        (lookup t x (locking s 1 nil) (locking s 1 nil)) }
    ensures not_without_labels { ¬ IsAnnotation (lookup t x (locking s 0 (unlocking s 0 nil)) nil)
        (lookup t x (locking s 0 (unlocking s 0 nil)) nil) }
    ensures no_other_process { ¬ IsAnnotation (test s t (locking s 0 nil) nil) (test t s (locking s 1 nil) nil) }
{}

/// A law: labels are no flaw and change no sort. So the annotation of a well-formed process is well-formed, and that of a
/// process that is ready to run is ready to run.
pub fn annotations_are_ready()
    ensures well_formed { (g : Sig) (p q : Proc) → IsWellFormed g p → IsAnnotation p q → IsWellFormed g q }
    ensures ready { (g : Sig) (p q : Proc) → IsReady g p → IsAnnotation p q → IsReady g q }
{}

/// A law: in an annotated process the locks that a place holds as open are those that are open there by the way to it. It pins which
/// locks scopes hold as open, `locks_behind`, by the definition that annotation goes by, `IsOpen`: a scope whose unlock ends no
/// lock, or another one than its own, is refused here. In which order they are listed it doesn't say; `scopes_by_hand` of
/// `sap_process` does.
pub fn open_locks_are_by_ways()
    ensures { (p : Proc) (k : ℕ) (a : Spot) (s : LockSite) → IsAnnotated p → slice_get (spots p) k ≡ Some a
        → slice_get (lock_sites p) k ≡ Some s → HasOpenLocks a s }
{}

/// A law: in the annotation of a well-formed process the variable of a lock isn't in scope where the lock stands; and in an
/// annotated process the label of an unlock is that of a lock of the same term that is open there. It pins that locks
/// above one another have labels of their own: if locks weren't counted on the way, the variable of the first would be in scope
/// where the second stands. And it pins that what an unlock ends is open by scopes too.
pub fn labels_are_right()
    ensures not_in_scope { (g : Sig) (p q : Proc) (a : Spot) (t : Tree) (n : ℕ) → IsWellFormed g p → node_count p < 2 ^ 64
        → IsAnnotation p q → Contains (spots q) a → lock_at a.body ≡ Some (t, n)
        → is_known (var_names a.above.scope) (lock_var n).name ≡ false }
    ensures ends_open_lock { (p : Proc) (k : ℕ) (a : Spot) (s : LockSite) (t : Tree) (n : ℕ) → IsAnnotated p
        → slice_get (spots p) k ≡ Some a → slice_get (lock_sites p) k ≡ Some s → unlock_at a.body ≡ Some (t, n)
        → Contains a.above.open_locks n × IsLockOf s.above.way n t }
{}

/// A law: the list of places with their scopes and open locks has each place that a path leads to, with what is handed down on
/// the way there, and nothing else, in preorder; and so has that of the places with their ways. This holds of whatever is handed
/// down, so it says nothing of which variables are in scope, which locks are open, or what a way meets: `places_by_hand` and
/// `scopes_by_hand` of `sap_process` say it of small processes, `open_locks_are_by_ways` and `annotations_by_hand` of locks.
pub fn lock_places_are_by_path()
    ensures scopes { (p : Proc) (a : Spot) → Contains (spots p) a → place_at lock_scope_below (lock_scope [] []) p a.path ≡ Some a }
    ensures scopes_listed { (p : Proc) (path : List ℕ) (a : Spot) → place_at lock_scope_below (lock_scope [] []) p path ≡ Some a
        → Contains (spots p) a × (a.path ≡ path) }
    ensures scopes_in_order { (p : Proc) (i j : ℕ) (a b : Spot) → i < j → slice_get (spots p) i ≡ Some a → slice_get (spots p) j ≡ Some b
        → IsBefore a.path b.path }
    ensures ways { (p : Proc) (s : LockSite) → Contains (lock_sites p) s → place_at way_below (way_above [] 0) p s.path ≡ Some s }
    ensures ways_listed { (p : Proc) (path : List ℕ) (s : LockSite) → place_at way_below (way_above [] 0) p path ≡ Some s
        → Contains (lock_sites p) s × (s.path ≡ path) }
    ensures ways_in_order { (p : Proc) (i j : ℕ) (s u : LockSite) → i < j → slice_get (lock_sites p) i ≡ Some s
        → slice_get (lock_sites p) j ≡ Some u → IsBefore s.path u.path }
{
    places_are_by_path::<LockScopeBelow>();
    places_are_by_path::<WayBelow>();
}
