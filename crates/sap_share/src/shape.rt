// The shapes of nodes, over numbers: what stands under a symbol, where it does.
ghost use Rattle.std.specs.Prelude.{◌≡◌, ◌<◌, ◌↔◌, [], ◌∷◌, length, IfSome, IfNone, IsTrue};
ghost use Rattle.sap_terms.specs.Equations.{app1, app2};
ghost use Rattle.sap_terms.specs.Tree.{Tree, Trees, apply, trees_of};
ghost use Rattle.sap_share.specs.Shared.{tree_at, trees_at, AreBelow};

use crate::{Node, Table};
use sap_terms::Numbers;

impl Table {
    /// Whether the trees of two numbers are the same. The numbers alone are compared.
    pub fn same(&self, i: u64, j: u64) -> bool
        requires i_below { i < length self.now.trees }
        requires j_below { j < length self.now.trees }
        ensures { IsTrue result ↔ (tree_at self.now.trees i ≡ tree_at self.now.trees j) }
    {
        self.each_has_one_number();
        i == j
    }

    // The number that stands alone.
    #[tactic(auto, using(crate::proofs::Shapes::shape_laws))]
    pub(crate) fn one(&self, ks: &Numbers) -> Option<u64>
        requires { AreBelow (length self.now.trees) ks.now }
        ensures some { IfSome result (λ a. (a < length self.now.trees) × (trees_at self.now.trees ks.now ≡ tree_at self.now.trees a ∷ [])) }
        ensures none { IfNone result ((x : Tree) → trees_at self.now.trees ks.now ≡ x ∷ [] → ⊥) }
    {
        if ks.len() == 1 { Some(*ks.at(0)) } else { None }
    }

    // The two numbers of a list of two.
    #[tactic(auto, using(crate::proofs::Shapes::shape_laws))]
    pub(crate) fn two(&self, ks: &Numbers) -> Option<(u64, u64)>
        requires { AreBelow (length self.now.trees) ks.now }
        ensures some { IfSome result (λ p. (p.0 < length self.now.trees) × (p.1 < length self.now.trees)
            × (trees_at self.now.trees ks.now ≡ tree_at self.now.trees p.0 ∷ tree_at self.now.trees p.1 ∷ [])) }
        ensures none { IfNone result ((x y : Tree) → trees_at self.now.trees ks.now ≡ x ∷ y ∷ [] → ⊥) }
    {
        if ks.len() == 2 {
            Some((*ks.at(0), *ks.at(1)))
        } else {
            None
        }
    }

    // The three numbers of a list of three.
    #[tactic(auto, using(crate::proofs::Shapes::shape_laws))]
    pub(crate) fn three(&self, ks: &Numbers) -> Option<(u64, u64, u64)>
        requires { AreBelow (length self.now.trees) ks.now }
        ensures some { IfSome result (λ p. (p.0 < length self.now.trees) × (p.1 < length self.now.trees) × (p.2 < length self.now.trees)
            × (trees_at self.now.trees ks.now ≡ tree_at self.now.trees p.0 ∷ tree_at self.now.trees p.1 ∷ tree_at self.now.trees p.2 ∷ [])) }
        ensures none { IfNone result ((x y z : Tree) → trees_at self.now.trees ks.now ≡ x ∷ y ∷ z ∷ [] → ⊥) }
    {
        if ks.len() == 3 {
            Some((*ks.at(0), *ks.at(1), *ks.at(2)))
        } else {
            None
        }
    }

    // What a symbol of this name stands on.
    #[tactic(auto, using(crate::proofs::Shapes::shape_laws))]
    fn under(&self, name: &[u8], id: u64) -> Option<&Numbers>
        requires { id < length self.now.trees }
        ensures some { IfSome result (λ ks. AreBelow (length self.now.trees) ks.now
            × (tree_at self.now.trees id ≡ apply name.now (trees_of (trees_at self.now.trees ks.now)))) }
        ensures none { IfNone result ((ts : Trees) → tree_at self.now.trees id ≡ apply name.now ts → ⊥) }
    {
        match self.node(id) {
            Node::App(f, ks) => { if f.is(name) { Some(ks) } else { None } }
            Node::Public(_) | Node::Fresh(_) => None,
        }
    }

    // The one number under a symbol of this name.
    pub(crate) fn one_under(&self, name: &[u8], id: u64) -> Option<u64>
        requires { id < length self.now.trees }
        ensures some { IfSome result (λ a. (a < length self.now.trees) × (tree_at self.now.trees id ≡ app1 name.now (tree_at self.now.trees a))) }
        ensures none { IfNone result ((x : Tree) → tree_at self.now.trees id ≡ app1 name.now x → ⊥) }
    {
        match self.under(name, id) {
            Some(ks) => self.one(ks),
            None => None,
        }
    }

    // The two numbers under a symbol of this name.
    pub(crate) fn two_under(&self, name: &[u8], id: u64) -> Option<(u64, u64)>
        requires { id < length self.now.trees }
        ensures some { IfSome result (λ p. (p.0 < length self.now.trees) × (p.1 < length self.now.trees)
            × (tree_at self.now.trees id ≡ app2 name.now (tree_at self.now.trees p.0) (tree_at self.now.trees p.1))) }
        ensures none { IfNone result ((x y : Tree) → tree_at self.now.trees id ≡ app2 name.now x y → ⊥) }
    {
        match self.under(name, id) {
            Some(ks) => self.two(ks),
            None => None,
        }
    }
}
