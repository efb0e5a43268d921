// Terms evaluated to the numbers of their normal forms.
ghost use Rattle.std.specs.Prelude.{◌<◌, ◌≤◌, ◌+◌, ◌*◌, length, map, IfOk, OnOk, IsErrOf};
ghost use Rattle.std.specs.List.{AllZip};
ghost use Rattle.sap_terms.specs.View.{tree};
ghost use Rattle.sap_terms.specs.Choice.{instance};
ghost use Rattle.sap_terms.specs.Equations.{equations};
ghost use Rattle.sap_terms.specs.Ground.{IsGround, AreGround};
ghost use Rattle.sap_terms.specs.Message.{IsOver, AreOver};
ghost use Rattle.sap_terms.specs.Normal.{IsNormalForm};
ghost use Rattle.sap_terms.specs.Subterms.{SomeSubtermWithin};
ghost use Rattle.sap_terms.specs.Tree.{trees_of, node_count, trees_count};
ghost use Rattle.sap_rewrite.specs.Large.{HasLargeForm, HasLargeSubterm};
ghost use Rattle.sap_share.specs.Shared.{tree_at, trees_at, node_tree, AreBelow, StandsBelow, IsHeld, Keeps};
ghost use Rattle.sap_share.specs.Env.{given, AreSmallForms};

use crate::env::{Env, find_bound};
use crate::{Node, Table};
use sap_rewrite::{Cut, equality_is_kept, normal_forms_are_unique};
use sap_terms::{Copied, Numbers, Term, TermList};
use std::alloc::Global;

impl Table {
    // The number of a node's normal form, if that has no more nodes than the limit.
    fn form_within(&mut self, alloc: Global, node: Node, most: u64) -> Result<u64, Cut>
        requires below { StandsBelow (length self.old.trees) node }
        requires held { IsHeld self.old.sig node }
        requires most { most < u64.MAX }
        ensures below { IfOk result (λ k. k < length self.new.trees) }
        ensures form { IfOk result (λ k. IsNormalForm (equations self.old.sig) (node_tree self.old.trees node) (tree_at self.new.trees k)) }
        ensures keeps { Keeps self.old self.new }
        ensures few { length self.new.trees ≤ length self.old.trees + 2 }
        ensures within { IfOk result (λ k. node_count (tree_at self.new.trees k) ≤ most) }
        ensures large { IsErrOf result Cut.Large → HasLargeForm (equations self.old.sig) most (node_tree self.old.trees node) }
    {
        let id = self.intern(alloc, node)?;
        let form = self.normal_of(id);
        if self.size(form) > most {
            return Err(Cut::Large);
        }
        Ok(form)
    }

    /// The number of the normal form of a term under what is bound, if no subterm's normal form has more nodes than the
    /// limit; `Large` where one has. No tree is built. Refused, the table may have more numbers than before, and those given
    /// before mean what they meant. It recurses as deep as the terms that it is given.
    #[cycle(evaluate)]
    #[tactic(auto, using(crate::proofs::Evaluated::evaluate_laws))]
    pub fn evaluate(&mut self, alloc: Global, env: &Env, t: &Term, most: u64) -> Result<u64, Cut>
        requires most { most < u64.MAX }
        requires env { AreSmallForms (equations self.old.sig) most self.old.trees env.now }
        requires ground { IsGround (instance (given self.old.trees env.now) (tree t.now)) }
        requires over { IsOver self.old.sig (tree t.now) }
        ensures below { IfOk result (λ k. k < length self.new.trees) }
        ensures form { IfOk result (λ k. IsNormalForm (equations self.old.sig) (instance (given self.old.trees env.now) (tree t.now)) (tree_at self.new.trees k)) }
        ensures keeps { Keeps self.old self.new }
        ensures few { length self.new.trees ≤ length self.old.trees + 2 * node_count (tree t.now) }
        ensures within { OnOk result (HasLargeSubterm (equations self.old.sig) most (instance (given self.old.trees env.now) (tree t.now)) → ⊥) }
        ensures large { IsErrOf result Cut.Large → HasLargeSubterm (equations self.old.sig) most (instance (given self.old.trees env.now) (tree t.now)) }
    {
        equality_is_kept();
        normal_forms_are_unique();
        match t {
            Term::Var(v) => match find_bound(env, &v.name) {
                Some(k) => Ok(k),
                None => unreachable!(),
            },
            Term::Public(n) => {
                let name = n.copy(alloc)?;
                self.form_within(alloc, Node::Public(name), most)
            }
            Term::Fresh(k) => self.form_within(alloc, Node::Fresh(*k), most),
            Term::App(f, ts) => {
                let name = f.copy(alloc)?;
                match self.evaluate_all(alloc, env, ts, most) {
                    Ok(ks) => self.form_within(alloc, Node::App(name, ks), most),
                    Err(cut) => Err(cut),
                }
            }
        }
    }

    /// The same of terms, one by one. Refused, the table may have more numbers than before. It recurses as deep as the terms
    /// that it is given.
    #[cycle(evaluate)]
    #[tactic(auto, using(crate::proofs::Evaluated::evaluate_laws))]
    pub fn evaluate_all(
        &mut self,
        alloc: Global,
        env: &Env,
        ts: &TermList,
        most: u64,
    ) -> Result<Numbers, Cut>
        requires most { most < u64.MAX }
        requires env { AreSmallForms (equations self.old.sig) most self.old.trees env.now }
        requires ground { AreGround (trees_of (map (instance (given self.old.trees env.now)) ts.now)) }
        requires over { AreOver self.old.sig (trees_of ts.now) }
        ensures below { IfOk result (AreBelow (length self.new.trees)) }
        ensures forms { IfOk result (λ ks. AllZip (IsNormalForm (equations self.old.sig)) (map (instance (given self.old.trees env.now)) ts.now) (trees_at self.new.trees ks)) }
        ensures keeps { Keeps self.old self.new }
        ensures few { length self.new.trees ≤ length self.old.trees + 2 * trees_count (trees_of ts.now) }
        ensures within { OnOk result (SomeSubtermWithin (HasLargeForm (equations self.old.sig) most) (trees_of (map (instance (given self.old.trees env.now)) ts.now)) → ⊥) }
        ensures large { IsErrOf result Cut.Large → SomeSubtermWithin (HasLargeForm (equations self.old.sig) most) (trees_of (map (instance (given self.old.trees env.now)) ts.now)) }
    {
        let mut ks = Numbers::with_room(alloc, ts.len())?;
        for i in 0..ts.len() {
            match self.evaluate(alloc, env, ts.at(i), most) {
                Ok(k) => ks.push(k)?,
                Err(cut) => return Err(cut),
            }
        }
        Ok(ks)
    }
}
