// One symbol on numbers of normal terms, made normal.
ghost use Rattle.std.specs.Prelude.{◌≡◌, ◌<◌, ◌≤◌, length, All, Some, IfOk, OnOk, OnErr, IsErrOf};
ghost use Rattle.sap_terms.specs.Equations.{equations, app0, true_name};
ghost use Rattle.sap_terms.specs.Normal.{IsNormal, IsNormalForm};
ghost use Rattle.sap_terms.specs.Signature.{arity_of};
ghost use Rattle.sap_terms.specs.Tree.{apply, node_count, trees_of};
ghost use Rattle.sap_rewrite.specs.Large.{HasLargeForm};
ghost use Rattle.sap_share.specs.Shared.{tree_at, trees_at, node_tree, AreBelow, StandsBelow, IsHeld, Keeps, Gives, ComesAlone};

use crate::side::Side;
use crate::{Node, Table};
use sap_rewrite::{Cut, equality_is_kept, forms_are_messages, symbols_reduce_once};
use sap_terms::{Copied, Name, Numbers};
use std::alloc::Global;

impl Table {
    // The number of a normal node, if it has no more nodes than the limit.
    fn small_number(&mut self, alloc: Global, node: Node, most: u64) -> Result<u64, Cut>
        requires most { most < u64.MAX }
        requires below { StandsBelow (length self.old.trees) node }
        requires held { IsHeld self.old.sig node }
        requires normal { IsNormal (equations self.old.sig) (node_tree self.old.trees node) }
        ensures ok { IfOk result (λ k. Gives self.old self.new k (node_tree self.old.trees node)) }
        ensures alone { IfOk result (ComesAlone self.old self.new) }
        ensures within { OnOk result (node_count (node_tree self.old.trees node) ≤ most) }
        ensures large { IsErrOf result Cut.Large → most < node_count (node_tree self.old.trees node) }
        ensures err { OnErr result (self.new ≡ self.old) }
    {
        equality_is_kept();
        if self.size_of(&node) > most {
            drop(node);
            return Err(Cut::Large);
        }
        let number = self.put_own(alloc, node)?;
        Ok(number)
    }

    // The constant `true`'s number, if that is what is left of a symbol on these.
    fn truth_number(&mut self, alloc: Global, f: &Name, ks: &Numbers, most: u64) -> Result<u64, Cut>
        requires most { most < u64.MAX }
        requires below { AreBelow (length self.old.trees) ks.now }
        requires held { arity_of self.old.sig f.now ≡ Some (length ks.now) }
        requires form { IsNormalForm (equations self.old.sig) (apply f.now (trees_of (trees_at self.old.trees ks.now))) (app0 true_name) }
        ensures ok { IfOk result (λ k. Gives self.old self.new k (app0 true_name)) }
        ensures alone { IfOk result (ComesAlone self.old self.new) }
        ensures within { OnOk result (node_count (app0 true_name) ≤ most) }
        ensures large { IsErrOf result Cut.Large → most < node_count (app0 true_name) }
        ensures err { OnErr result (self.new ≡ self.old) }
    {
        forms_are_messages();
        self.signature().builtins_are_held();
        self.each_is_ground();
        self.each_is_over();
        let name = Name::from_bytes(alloc, b"true")?;
        self.small_number(alloc, Node::App(name, Numbers::new(alloc)), most)
    }

    /// The number of the normal form of a symbol on numbers of normal terms, if that has at most `most` nodes; `Large` if it
    /// has more. No number comes but the form's: where an equation fits, the symbol on the numbers gets none. Refused, the
    /// table is as it was.
    pub fn normal_on(&mut self, alloc: Global, f: &Name, ks: Numbers, most: u64) -> Result<u64, Cut>
        requires most { most < u64.MAX }
        requires below { AreBelow (length self.old.trees) ks }
        requires held { arity_of self.old.sig f.now ≡ Some (length ks) }
        requires normal { All (IsNormal (equations self.old.sig)) (trees_at self.old.trees ks) }
        ensures below { IfOk result (λ k. k < length self.new.trees) }
        ensures form { IfOk result (λ k. IsNormalForm (equations self.old.sig) (apply f.now (trees_of (trees_at self.old.trees ks))) (tree_at self.new.trees k)) }
        ensures within { IfOk result (λ k. node_count (tree_at self.new.trees k) ≤ most) }
        ensures large { IsErrOf result Cut.Large → HasLargeForm (equations self.old.sig) most (apply f.now (trees_of (trees_at self.old.trees ks))) }
        ensures keeps { Keeps self.old self.new }
        ensures alone { IfOk result (ComesAlone self.old self.new) }
        ensures err { OnErr result (self.new ≡ self.old) }
    {
        symbols_reduce_once();
        match self.side(f, &ks) {
            Side::Part(k) => {
                drop(ks);
                if self.size(k) > most {
                    return Err(Cut::Large);
                }
                Ok(k)
            }
            Side::Truth => {
                let number = self.truth_number(alloc, f, &ks, most);
                drop(ks);
                number
            }
            Side::Nothing => match f.copy(alloc) {
                Ok(name) => self.small_number(alloc, Node::App(name, ks), most),
                Err(_) => {
                    drop(ks);
                    Err(Cut::Mem)
                }
            },
        }
    }
}
