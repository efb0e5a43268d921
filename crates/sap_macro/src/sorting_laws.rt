//! Laws of sorts, as contracts of functions that do nothing: they may be set before uses are replaced, or behind it.
ghost use Rattle.std.specs.Prelude.{◌≡◌, ℕ, List, [], ◌∷◌, codes, map};
ghost use Rattle.sap_terms.specs.declared.var.Sort.TheVariants.{Fresh, Msg};
ghost use Rattle.sap_terms.specs.declared.var.Var.{Var};
ghost use Rattle.sap_process.specs.Sorted.{with_sorts};
ghost use Rattle.sap_macro.specs.Expansion.{expanded, meaning_of, plain, plain_bodies, same_name, unchanged};
ghost use Rattle.sap_macro.specs.ExpansionExamples.{taking};
ghost use Rattle.sap_macro.specs.Indexed.{defined};
ghost use Rattle.sap_macro.specs.Instances.{AreClosedAmong, AreTaken, IsClosed};
ghost use Rattle.sap_macro.specs.NameExamples.{both, x, fresh_x};
ghost use Rattle.sap_macro.specs.Order.{AreInOrder, UsesOnly};
ghost use Rattle.sap_macro.specs.SortedExamples.{finds_x, got, k, makes_x, using_b, with_param};
ghost use Rattle.sap_macro.specs.Written.{Definition, Written, call, parallel};
ghost use Rattle.sap_macro.specs.WrittenRuns.{HasArgumentsInScope, sorted, sorted_definition};

/// A law: take a process that uses what it binds alone, and binds nothing again, behind definitions of which those that it comes to
/// use do so too, but for their parameters. Its expansion with the sorts of its binders is the expansion of the process as it is
/// written, with the sorts of its binders, behind definitions with those of theirs, where the same names are taken.
pub fn sorts_are_exchanged()
    ensures { (names : List (List ℕ)) (ds : List Definition) (p : Written) (taken : List (List ℕ)) → AreClosedAmong names ds → UsesOnly names p
        → IsClosed [] p → AreTaken taken [] p → with_sorts [] (expanded (meaning_of ds) unchanged same_name p taken).process
        ≡ (expanded (meaning_of (map sorted_definition ds)) unchanged same_name (sorted [] p) taken).process }
{}

/// A law: what is written with the sorts of its binders, whatever is in scope there, is closed where it was, uses what it used, and
/// binds what it bound; so do definitions, which keep their names.
pub fn sorting_keeps_scopes()
    ensures closed { (scope : List (List ℕ)) (bound : List Var) (p : Written) → IsClosed scope p → IsClosed scope (sorted bound p) }
    ensures uses { (names : List (List ℕ)) (bound : List Var) (p : Written) → UsesOnly names p → UsesOnly names (sorted bound p) }
    ensures taken { (taken scope : List (List ℕ)) (bound : List Var) (p : Written) → AreTaken taken scope p → AreTaken taken scope (sorted bound p) }
    ensures definitions { (names : List (List ℕ)) (ds : List Definition) → AreClosedAmong names ds → AreClosedAmong names (map sorted_definition ds) }
    ensures order { (names : List (List ℕ)) (ds : List Definition) → AreInOrder names ds → AreInOrder names (map sorted_definition ds) }
    ensures names { (ds : List Definition) → defined (map sorted_definition ds) ≡ defined ds }
{}

/// A law: definitions in order are in order with plain bodies too; and what uses names alone that they define does so once names
/// without parameters are replaced.
pub fn plain_bodies_are_in_order()
    ensures order { (names : List (List ℕ)) (ds : List Definition) → AreInOrder names ds → AreInOrder names (plain_bodies call ds) }
    ensures uses { (ds : List Definition) (p : Written) → AreInOrder [] ds → UsesOnly (defined ds) p
        → UsesOnly (defined (plain_bodies call ds)) (plain ds p) }
{}

/// A law: sorts by hand. The first occurrence of a name in a pattern is its binder, and each later one gets its sort; `new` binds a
/// fresh name and `lookup` a message, however they are written, a look-up in its first branch alone. What nothing binds stays as it
/// is written, also beside its binder; what is in scope above a pattern keeps its sort there. Parameters are messages.
pub fn sorted_by_hand()
    ensures fresh { sorted [] (got (both fresh_x x) x) ≡ got (both fresh_x fresh_x) fresh_x }
    ensures message { sorted [] (got (both x fresh_x) fresh_x) ≡ got (both x x) x }
    ensures first_counts { ¬ (sorted [] (got (both x fresh_x) x) ≡ got (both fresh_x fresh_x) fresh_x) }
    ensures new_name { sorted [] (makes_x Msg (taking (both x k) (using_b x))) ≡ makes_x Fresh (taking (both fresh_x k) (using_b fresh_x)) }
    ensures found { sorted [] (finds_x Fresh (using_b fresh_x) (using_b fresh_x)) ≡ finds_x Msg (using_b x) (using_b fresh_x) }
    ensures beside { sorted [] (parallel (makes_x Fresh (using_b x)) (using_b x)) ≡ parallel (makes_x Fresh (using_b fresh_x)) (using_b x) }
    ensures not_beside { ¬ (sorted [] (parallel (makes_x Fresh (using_b x)) (using_b x)) ≡ parallel (makes_x Fresh (using_b fresh_x)) (using_b fresh_x)) }
    ensures parameter { sorted_definition (with_param fresh_x fresh_x) ≡ with_param x x }
{}

/// A law: what uses name in their arguments by hand: what a pattern, `new` or a look-up above binds, a look-up in its first branch
/// alone, and nothing that stands beside. What isn't an argument of a use isn't asked.
pub fn arguments_by_hand()
    ensures nothing_asked { HasArgumentsInScope [] (got k x) }
    ensures pattern { HasArgumentsInScope [] (taking (both fresh_x k) (using_b (both x k))) }
    ensures new_name { HasArgumentsInScope [] (makes_x Fresh (using_b x)) }
    ensures above { HasArgumentsInScope (codes "x" ∷ []) (using_b x) }
    ensures open { ¬ HasArgumentsInScope [] (using_b x) }
    ensures beside { ¬ HasArgumentsInScope [] (parallel (makes_x Fresh (using_b x)) (using_b x)) }
    ensures found { HasArgumentsInScope (codes "k" ∷ []) (finds_x Msg (using_b x) (using_b k)) }
    ensures other_branch { ¬ HasArgumentsInScope [] (finds_x Msg (using_b x) (using_b x)) }
{}
