// Whole terms.
ghost use Rattle.std.specs.Prelude.{◌≡◌, ◌<◌, ◌≤◌, ◌+◌, ◌*◌, length, IfOk};
ghost use Rattle.sap_terms.specs.View.{tree};
ghost use Rattle.sap_terms.specs.Tree.{trees_of, trees_count, node_count};
ghost use Rattle.sap_terms.specs.Ground.{IsGround, AreGround};
ghost use Rattle.sap_terms.specs.Message.{IsOver, AreOver};
ghost use Rattle.sap_share.specs.Shared.{tree_at, trees_at, AreBelow, Keeps, Gives};

use crate::{Node, Table};
use sap_terms::{Copied, Mem, Numbers, Term, TermList};
use std::alloc::Global;

impl Table {
    /// The number of a ground term. Refused, the table may have more numbers than before, at most two for each node.
    /// It recurses as deep as the terms that it is given.
    #[cycle(put)]
    #[tactic(auto, using(crate::proofs::Kept::put_laws))]
    pub fn put(&mut self, alloc: Global, t: &Term) -> Result<u64, Mem>
        requires ground { IsGround (tree t.now) }
        requires over { IsOver self.old.sig (tree t.now) }
        ensures gives { IfOk result (λ k. Gives self.old self.new k (tree t.now)) }
        ensures keeps { Keeps self.old self.new }
        ensures few { length self.new.trees ≤ length self.old.trees + 2 * node_count (tree t.now) }
    {
        match t {
            Term::Var(_) => unreachable!(),
            Term::Public(n) => {
                let name = n.copy(alloc)?;
                self.intern(alloc, Node::Public(name))
            }
            Term::Fresh(k) => self.intern(alloc, Node::Fresh(*k)),
            Term::App(f, ts) => {
                let name = f.copy(alloc)?;
                match self.put_all(alloc, ts) {
                    Ok(ks) => self.intern(alloc, Node::App(name, ks)),
                    Err(e) => Err(e),
                }
            }
        }
    }

    /// The numbers of ground terms. Refused, the table may have more numbers than before, at most two for each node.
    /// It recurses as deep as the terms that it is given.
    #[cycle(put)]
    #[tactic(auto, using(crate::proofs::Kept::put_laws))]
    pub fn put_all(&mut self, alloc: Global, ts: &TermList) -> Result<Numbers, Mem>
        requires ground { AreGround (trees_of ts.now) }
        requires over { AreOver self.old.sig (trees_of ts.now) }
        ensures trees { IfOk result (λ ks. trees_at self.new.trees ks ≡ ts.now) }
        ensures below { IfOk result (AreBelow (length self.new.trees)) }
        ensures keeps { Keeps self.old self.new }
        ensures few { length self.new.trees ≤ length self.old.trees + 2 * trees_count (trees_of ts.now) }
    {
        let mut ks = Numbers::with_room(alloc, ts.len())?;
        for i in 0..ts.len() {
            match self.put(alloc, ts.at(i)) {
                Ok(k) => ks.push(k)?,
                Err(e) => return Err(e),
            }
        }
        Ok(ks)
    }

    /// A copy of the term of a number, which shares its memory. It takes a time that doesn't depend on the term.
    pub fn tree(&self, alloc: Global, id: u64) -> Result<Term, Mem>
        requires { id < length self.now.trees }
        ensures { IfOk result (λ t. tree t ≡ tree_at self.now.trees id) }
    {
        self.term(id).copy(alloc)
    }
}
