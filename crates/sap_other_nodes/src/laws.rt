//! Laws of the definitions, as contracts of functions that do nothing.
ghost use Rattle.std.specs.Prelude.{◌≡◌, ◌<◌, ◌⊎◌, ℕ, List, [], ◌∷◌, ◌++◌, Some, codes, length, slice_get, true};
ghost use Rattle.sap_terms.specs.Signature.{Sig};
ghost use Rattle.sap_terms.specs.Variables.{is_known};
ghost use Rattle.sap_terms.specs.declared.var.Var.{Var};
ghost use Rattle.sap_process.specs.Proc.{Proc};
ghost use Rattle.sap_process.specs.Sites.{Site, scope_below, sites_in, var_names};
ghost use Rattle.sap_process.specs.declared.flaw.Flaw.{Flaw};
ghost use Rattle.sap_nodes.specs.FlawNodes.{IsNodeOf};
ghost use Rattle.sap_nodes.specs.HeadNodes.{head_nodes};
ghost use Rattle.sap_other_nodes.specs.OtherBinders.{IsBinderNode, IsBinderOf, IsBoundOn, IsOfBinding};
ghost use Rattle.sap_other_nodes.specs.BinderExamples.{in_both_branches, name_x, new_twice, twice_in_pattern};
ghost use Rattle.sap_other_nodes.specs.declared.other_binder.Binder.{Binder as BinderOf};

use sap_process::{ScopeBelow, places_are_by_path};

/// A law: a name that a node has is bound by one thing at most; where a flaw of a place speaks of a node whose name is in scope, something
/// binds it; a name that is in scope through the head of a place is in scope at the root, or a head on the way binds it; and the node by which a
/// head does is one of the head.
pub fn binders()
    ensures one { (scope : List Var) (p : Proc) (s : Site) (k : ℕ) (b c : BinderOf) → IsBinderOf scope p s k b → IsBinderOf scope p s k c → b ≡ c }
    ensures some { (g : Sig) (before : List Site) (scope : List Var) (p : Proc) (i : ℕ) (s : Site) (w : Flaw) (k : ℕ)
        → slice_get (sites_in scope p) i ≡ Some s → IsOfBinding w → IsNodeOf g before s w k → (b : BinderOf) × IsBinderOf scope p s k b }
    ensures in_head { (p : Proc) (e : ℕ) (n : List ℕ) (j : ℕ) → IsBinderNode p e n j → j < length (head_nodes p) }
    ensures in_scope { (scope : List Var) (p : Proc) (i : ℕ) (s : Site) (n : List ℕ) → slice_get (sites_in scope p) i ≡ Some s
        → is_known (var_names (scope_below s.above s.body 1).scope) n ≡ true
        → (is_known (var_names scope) n ≡ true) ⊎ ((d : ℕ) × (j : ℕ) × IsBoundOn p (s.path ++ 1 ∷ []) n d j) }
{
    places_are_by_path::<ScopeBelow>();
}

/// A law: by hand, in small processes, which node binds the name x: of two in a pattern the first, not the second, nor a name on the
/// channel; of two heads the outer, not the inner; of `lookup` its own in the first branch alone, behind the key, and in the second the
/// head below.
pub fn binders_by_hand()
    ensures pattern { IsBinderNode twice_in_pattern 1 name_x 2 }
    ensures not_second { ¬ IsBinderNode twice_in_pattern 1 name_x 3 }
    ensures not_channel { (k : ℕ) → ¬ IsBinderNode twice_in_pattern 1 (codes "c") k }
    ensures outer { IsBoundOn new_twice (1 ∷ 1 ∷ []) name_x 0 0 }
    ensures not_inner { ¬ IsBoundOn new_twice (1 ∷ 1 ∷ []) name_x 1 0 }
    ensures found { IsBoundOn in_both_branches (1 ∷ 1 ∷ []) name_x 0 1 }
    ensures missing { IsBoundOn in_both_branches (2 ∷ 1 ∷ []) name_x 1 0 }
    ensures not_missing { ¬ IsBoundOn in_both_branches (2 ∷ 1 ∷ []) name_x 0 1 }
{}
