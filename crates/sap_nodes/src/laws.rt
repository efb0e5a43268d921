// Laws of the definitions, as contracts of functions that do nothing.
ghost use Rattle.std.specs.Prelude.{◌≡◌, ◌≤◌, ℕ, List, [], ◌∷◌, Option, Some, None, length, slice_get};
ghost use Rattle.sap_terms.specs.Signature.{Sig, pairs_alone};
ghost use Rattle.sap_terms.specs.declared.limits.TheConstants.{MOST_SCOPE_NAMES};
ghost use Rattle.sap_terms.specs.declared.var.Var.{Var};
ghost use Rattle.sap_process.specs.Flaws.{HasFlaw};
ghost use Rattle.sap_process.specs.Proc.{Proc};
ghost use Rattle.sap_process.specs.Sites.{Site, sites_in};
ghost use Rattle.sap_process.specs.declared.flaw.Flaw.{Flaw};
ghost use Rattle.sap_process.specs.declared.flaw.Flaw.TheVariants.{BadFunction, ReservedVar, ReservedFact, FactClash, PatternDestructor, Unbound, Rebound, SortClash, ScopeFull};
ghost use Rattle.sap_nodes.specs.FlawNodes.{IsNodeOf, IsOfHead};
ghost use Rattle.sap_nodes.specs.FullScope.{IsFilling};
ghost use Rattle.sap_nodes.specs.NodeExamples.{SpeaksOf, c_and_x, at_root, destructors, unknown_symbols, two_variables, with_public, two_signs, twice_reserved, reserved_facts, clashing, found_again, many, three_names, locked};

use sap_process::{ScopeBelow, places_are_by_path};

/// A law: a flaw speaks of one node of a head alone; where a place has a flaw, there is such a node at its head; and where there is
/// one, the place has the flaw.
pub fn nodes_of_flaws()
    ensures one { (g : Sig) (before : List Site) (s : Site) (w : Flaw) (j k : ℕ) → IsNodeOf g before s w j → IsNodeOf g before s w k
        → j ≡ k }
    ensures some { (g : Sig) (before : List Site) (s : Site) (w : Flaw) → IsOfHead w → HasFlaw g before s w
        → (k : ℕ) × IsNodeOf g before s w k }
    ensures place { (g : Sig) (before : List Site) (s : Site) (w : Flaw) (k : ℕ) → IsOfHead w → IsNodeOf g before s w k → HasFlaw g before s w }
{}

/// A law: of small heads where two nodes could be meant, the one of which the flaw speaks, and that it isn't the other: the
/// destructor in the pattern, not that on the channel; the first of two symbols that aren't held; the variable that nothing binds, not
/// one that is bound, nor one that the rule binds as `$x` before; the other sign, not the binder's own; the first of two reserved
/// variables and, as a rule is written, of two reserved facts; a fact that is stored with another form than before, not one of that
/// name that is shown; and what a look-up binds, not its key.
pub fn nodes_by_hand()
    ensures destructor { SpeaksOf c_and_x destructors PatternDestructor 4 }
    ensures not_on_channel { ¬ SpeaksOf c_and_x destructors PatternDestructor 0 }
    ensures symbol { SpeaksOf c_and_x unknown_symbols BadFunction 1 }
    ensures not_second_symbol { ¬ SpeaksOf c_and_x unknown_symbols BadFunction 3 }
    ensures unbound { SpeaksOf c_and_x two_variables Unbound 2 }
    ensures not_bound_one { ¬ SpeaksOf c_and_x two_variables Unbound 1 }
    ensures unbound_in_rule { SpeaksOf [] with_public Unbound 4 }
    ensures not_public_one { ¬ SpeaksOf [] with_public Unbound 3 }
    ensures sign { SpeaksOf c_and_x two_signs SortClash 2 }
    ensures not_own_sign { ¬ SpeaksOf c_and_x two_signs SortClash 1 }
    ensures reserved_variable { SpeaksOf [] twice_reserved ReservedVar 2 }
    ensures not_second_variable { ¬ SpeaksOf [] twice_reserved ReservedVar 3 }
    ensures reserved_fact { SpeaksOf c_and_x reserved_facts ReservedFact 2 }
    ensures not_added_fact { ¬ SpeaksOf c_and_x reserved_facts ReservedFact 4 }
    ensures fact { SpeaksOf c_and_x clashing FactClash 5 }
    ensures not_shown_fact { ¬ SpeaksOf c_and_x clashing FactClash 2 }
    ensures binder { IsNodeOf pairs_alone [] (at_root c_and_x found_again) Rebound 1 }
    ensures not_key { ¬ IsNodeOf pairs_alone [] (at_root c_and_x found_again) Rebound 0 }
{}

/// A law: on the way to a place in whose scope more names and locks are than may be one place alone has room and hands down too much,
/// where no more than may be are in scope at the root; and of its head one name, or its lock, is the first too many. Where there is
/// one on the way to a place, too many are in scope there.
pub fn filled_scopes()
    ensures one { (scope : List Var) (p : Proc) (path : List ℕ) (d k : ℕ) (o r : Option ℕ) → IsFilling scope p path d o → IsFilling scope p path k r
        → (d ≡ k) × (o ≡ r) }
    ensures some { (g : Sig) (before : List Site) (scope : List Var) (p : Proc) (k : ℕ) (s : Site) → slice_get (sites_in scope p) k ≡ Some s
        → length scope ≤ MOST_SCOPE_NAMES → HasFlaw g before s ScopeFull → (d : ℕ) × (o : Option ℕ) × IsFilling scope p s.path d o }
    ensures place { (g : Sig) (before : List Site) (scope : List Var) (p : Proc) (k : ℕ) (s : Site) (d : ℕ) (o : Option ℕ)
        → slice_get (sites_in scope p) k ≡ Some s → IsFilling scope p s.path d o → HasFlaw g before s ScopeFull }
{
    places_are_by_path::<ScopeBelow>();
}

/// A law: what is the first too many in small processes where so many names are in scope at the root: of 62 the third name of a pattern,
/// not the second; of 64 a lock, not the name below it; and of 63 that name, not the lock.
pub fn filled_by_hand()
    ensures third { IsFilling (many 62) three_names (1 ∷ []) 0 (Some 4) }
    ensures not_second { ¬ IsFilling (many 62) three_names (1 ∷ []) 0 (Some 3) }
    ensures lock { IsFilling (many 64) locked (1 ∷ 1 ∷ []) 0 None }
    ensures not_below { ¬ IsFilling (many 64) locked (1 ∷ 1 ∷ []) 1 (Some 0) }
    ensures below { IsFilling (many 63) locked (1 ∷ 1 ∷ []) 1 (Some 0) }
    ensures not_lock { ¬ IsFilling (many 63) locked (1 ∷ 1 ∷ []) 0 None }
{}
