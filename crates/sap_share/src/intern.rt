// Nodes with their numbers and the numbers of their normal forms.
ghost use Rattle.std.specs.Prelude.{◌≡◌, ◌<◌, ◌≤◌, ◌+◌, length, IfOk, OnErr};
ghost use Rattle.std.specs.List.{AllZip};
ghost use Rattle.sap_terms.specs.Equations.{equations};
ghost use Rattle.sap_terms.specs.Normal.{IsNormalForm};
ghost use Rattle.sap_share.specs.Shared.{tree_at, trees_at, node_tree, AreBelow, StandsBelow, IsHeld, Gives, Came};
ghost use Rattle.sap_share.specs.code.Forms.{IsFormOf};
ghost use Rattle.sap_share.specs.code.Inside.{IsNew};
ghost use Rattle.sap_share.specs.declared.node.Node.TheVariants.{App as OnNumbers};
ghost use Rattle.sap_share.specs.declared.intern.Reduct.TheVariants.{Like as LikeNode};

use crate::side::Side;
use crate::{Node, Table};
use sap_rewrite::{equality_is_kept, forms_are_messages, symbols_reduce_once};
use sap_terms::{Copied, Mem, Name, Numbers, leaves_are_normal};
use std::alloc::Global;

// What a new node's normal form is: the node itself, or what a number stands for, or another node.
#[derive(Drop)]
enum Reduct {
    Itself,
    Old(u64),
    Like(Node),
}

impl Table {
    // The numbers of the normal forms of these.
    #[tactic(auto, using(crate::proofs::Reduced::form_laws))]
    fn forms_of(&self, alloc: Global, ks: &Numbers) -> Result<Numbers, Mem>
        requires { AreBelow (length self.now.trees) ks.now }
        ensures forms { IfOk result (λ js. AllZip (IsNormalForm (equations self.now.sig)) (trees_at self.now.trees ks.now) (trees_at self.now.trees js)) }
        ensures below { IfOk result (AreBelow (length self.now.trees)) }
    {
        let mut forms = Numbers::with_room(alloc, ks.len())?;
        for k in ks.as_slice() {
            forms.push(self.normal_of(*k))?;
        }
        Ok(forms)
    }

    // The normal form of a symbol on these, whose normal forms are given.
    fn reduct_on(
        &self,
        alloc: Global,
        f: &Name,
        ks: &Numbers,
        forms: Numbers,
    ) -> Result<Reduct, Mem>
        requires below { AreBelow (length self.now.trees) ks.now }
        requires forms_below { AreBelow (length self.now.trees) forms }
        requires forms { AllZip (IsNormalForm (equations self.now.sig)) (trees_at self.now.trees ks.now) (trees_at self.now.trees forms) }
        ensures { IfOk result (IsFormOf self.now (OnNumbers f.now ks.now)) }
    {
        equality_is_kept();
        symbols_reduce_once();
        self.each_has_one_number();
        match self.side(f, &forms) {
            Side::Part(k) => {
                drop(forms);
                Ok(Reduct::Old(k))
            }
            Side::Truth => {
                drop(forms);
                let name = Name::from_bytes(alloc, b"true")?;
                Ok(Reduct::Like(Node::App(name, Numbers::new(alloc))))
            }
            Side::Nothing => {
                if *ks == forms {
                    drop(forms);
                    return Ok(Reduct::Itself);
                }
                match f.copy(alloc) {
                    Ok(name) => Ok(Reduct::Like(Node::App(name, forms))),
                    Err(e) => {
                        drop(forms);
                        Err(e)
                    }
                }
            }
        }
    }

    // The normal form of a node.
    fn reduct_of(&self, alloc: Global, node: &Node) -> Result<Reduct, Mem>
        requires { StandsBelow (length self.now.trees) node.now }
        ensures { IfOk result (IsFormOf self.now node.now) }
    {
        equality_is_kept();
        leaves_are_normal();
        match node {
            Node::Public(_) | Node::Fresh(_) => Ok(Reduct::Itself),
            Node::App(f, ks) => {
                let forms = self.forms_of(alloc, ks)?;
                self.reduct_on(alloc, f, ks, forms)
            }
        }
    }

    // Gives a new node a number, where its normal form is another node.
    fn add_like(&mut self, alloc: Global, form: Node, node: Node) -> Result<u64, Mem>
        requires below { StandsBelow (length self.old.trees) node }
        requires held { IsHeld self.old.sig node }
        requires new { IsNew self.old.trees node }
        requires form { IsFormOf self.old node (LikeNode form) }
        ensures ok { IfOk result (λ k. Gives self.old self.new k (node_tree self.old.trees node)) }
        ensures came { IfOk result (Came self.old self.new) }
        ensures err { OnErr result (self.new ≡ self.old) }
    {
        forms_are_messages();
        self.signature().builtins_are_held();
        self.each_is_ground();
        self.each_is_over();
        match self.number_of(&form) {
            Some(k) => {
                drop(form);
                self.add(alloc, node, k)
            }
            None => self.add_both(alloc, form, node),
        }
    }

    /// The number of a node: the old one where the node is there, else the next, and then the number of its normal form is
    /// remembered, which is given at the same time, before the node's, where there is none. Refused, the table is as it was.
    pub fn intern(&mut self, alloc: Global, node: Node) -> Result<u64, Mem>
        requires below { StandsBelow (length self.old.trees) node }
        requires held { IsHeld self.old.sig node }
        ensures ok { IfOk result (λ k. Gives self.old self.new k (node_tree self.old.trees node)) }
        ensures came { IfOk result (Came self.old self.new) }
        ensures few { length self.new.trees ≤ length self.old.trees + 2 }
        ensures err { OnErr result (self.new ≡ self.old) }
    {
        match self.number_of(&node) {
            Some(k) => {
                drop(node);
                Ok(k)
            }
            None => match self.reduct_of(alloc, &node) {
                Ok(Reduct::Itself) => self.add_own(alloc, node),
                Ok(Reduct::Old(k)) => self.add(alloc, node, k),
                Ok(Reduct::Like(form)) => self.add_like(alloc, form, node),
                Err(e) => {
                    drop(node);
                    Err(e)
                }
            },
        }
    }
}
