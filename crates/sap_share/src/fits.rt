// Patterns matched against numbers.
ghost use Rattle.std.specs.Prelude.{◌≡◌, ◌<◌, ℕ, List, length, true, false, IfOk};
ghost use Rattle.sap_terms.specs.Choice.{fits_sort};
ghost use Rattle.sap_terms.specs.Tree.{variable, apply, trees_of};
ghost use Rattle.sap_terms.specs.View.{tree};
ghost use Rattle.sap_rewrite.specs.Match.{IsOnlyMatch, HasNoMatch};
ghost use Rattle.sap_share.specs.Env.{AreBound, bindings_of};
ghost use Rattle.sap_share.specs.Shared.{tree_at, trees_at, AreBelow};
ghost use Rattle.sap_share.specs.code.Matching.{Finds, Fails, FindsAll, FailsAll};

use crate::env::{Bound, Env, find_bound};
use crate::{Node, Table};
use sap_rewrite::extensions_join;
use sap_terms::{Copied, Mem, Numbers, Sort, Term, TermList, Var};
use std::alloc::Global;

impl Table {
    // Whether a variable of this sort may stand for the term.
    #[tactic(auto, using(crate::proofs::Fitting::fit_laws))]
    fn may_stand(&self, sort: Sort, id: u64) -> bool
        requires { id < length self.now.trees }
        ensures { result ≡ fits_sort sort (tree_at self.now.trees id) }
    {
        match sort {
            Sort::Msg => true,
            Sort::Fresh => match self.node(id) {
                Node::Fresh(_) => true,
                Node::Public(_) | Node::App(_, _) => false,
            },
            Sort::Pub => match self.node(id) {
                Node::Public(_) => true,
                Node::Fresh(_) | Node::App(_, _) => false,
            },
        }
    }

    // Binds the variable to the number, where its name isn't bound; true where it is bound to it then.
    fn fit_variable(&self, alloc: Global, v: &Var, id: u64, env: &mut Env) -> Result<bool, Mem>
        requires id { id < length self.now.trees }
        requires env { AreBound (length self.now.trees) env.old }
        ensures yes { IfOk result (λ r. r ≡ true → Finds (variable v.now) (tree_at self.now.trees id) (bindings_of self.now.trees env.old) (bindings_of self.now.trees env.new)) }
        ensures not { IfOk result (λ r. r ≡ false → Fails (variable v.now) (tree_at self.now.trees id) (bindings_of self.now.trees env.old)) }
        ensures below { IfOk result (λ _. AreBound (length self.now.trees) env.new) }
    {
        match find_bound(env, &v.name) {
            Some(k) => Ok(self.same(k, id)),
            None => {
                if !self.may_stand(v.sort, id) {
                    return Ok(false);
                }
                let var = v.copy(alloc)?;
                env.push(Bound { var, id })?;
                Ok(true)
            }
        }
    }

    // Binds the pattern's variables; true where the pattern is turned into the number's term then.
    #[cycle(fit)]
    fn fit(&self, alloc: Global, pattern: &Term, id: u64, env: &mut Env) -> Result<bool, Mem>
        requires id { id < length self.now.trees }
        requires env { AreBound (length self.now.trees) env.old }
        ensures yes { IfOk result (λ r. r ≡ true → Finds (tree pattern.now) (tree_at self.now.trees id) (bindings_of self.now.trees env.old) (bindings_of self.now.trees env.new)) }
        ensures not { IfOk result (λ r. r ≡ false → Fails (tree pattern.now) (tree_at self.now.trees id) (bindings_of self.now.trees env.old)) }
        ensures below { IfOk result (λ _. AreBound (length self.now.trees) env.new) }
    {
        match pattern {
            Term::Var(v) => self.fit_variable(alloc, v, id, env),
            Term::Public(n) => match self.node(id) {
                Node::Public(m) => Ok(n.same(m)),
                Node::Fresh(_) | Node::App(_, _) => Ok(false),
            },
            Term::Fresh(k) => match self.node(id) {
                Node::Fresh(j) => Ok(*k == *j),
                Node::Public(_) | Node::App(_, _) => Ok(false),
            },
            Term::App(f, ps) => match self.node(id) {
                Node::App(g, ks) => {
                    if !f.same(g) {
                        return Ok(false);
                    }
                    self.fit_all(alloc, ps, ks, env)
                }
                Node::Public(_) | Node::Fresh(_) => Ok(false),
            },
        }
    }

    #[cycle(fit)]
    fn fit_all(
        &self,
        alloc: Global,
        ps: &TermList,
        ks: &Numbers,
        env: &mut Env,
    ) -> Result<bool, Mem>
        requires ks { AreBelow (length self.now.trees) ks.now }
        requires env { AreBound (length self.now.trees) env.old }
        ensures yes { IfOk result (λ r. r ≡ true → FindsAll (trees_of ps.now) (trees_of (trees_at self.now.trees ks.now)) (bindings_of self.now.trees env.old) (bindings_of self.now.trees env.new)) }
        ensures not { IfOk result (λ r. r ≡ false → FailsAll (trees_of ps.now) (trees_of (trees_at self.now.trees ks.now)) (bindings_of self.now.trees env.old)) }
        ensures below { IfOk result (λ _. AreBound (length self.now.trees) env.new) }
    {
        extensions_join();
        if ps.len() != ks.len() {
            return Ok(false);
        }
        for i in 0..ps.len() {
            if !self.fit(alloc, ps.at(i), *ks.at(i), env)? {
                return Ok(false);
            }
        }
        Ok(true)
    }

    /// The match of a pattern with the term of a number: what is bound, and then a number for each of the pattern's variables
    /// that isn't bound, in order of first occurrence, which turn the pattern into the term; false where there is none.
    /// Where it is false or fails, more may be bound than before. It recurses as deep as the terms that it is given.
    pub fn fits(&self, alloc: Global, pattern: &Term, id: u64, env: &mut Env) -> Result<bool, Mem>
        requires id { id < length self.now.trees }
        requires env { AreBound (length self.now.trees) env.old }
        ensures yes { IfOk result (λ r. r ≡ true → IsOnlyMatch (tree pattern.now) (tree_at self.now.trees id) (bindings_of self.now.trees env.old) (bindings_of self.now.trees env.new)) }
        ensures not { IfOk result (λ r. r ≡ false → HasNoMatch (tree pattern.now) (tree_at self.now.trees id) (bindings_of self.now.trees env.old)) }
        ensures below { IfOk result (λ _. AreBound (length self.now.trees) env.new) }
    {
        self.fit(alloc, pattern, id, env)
    }

    /// The match of patterns with the terms of numbers, one by one: that of a symbol on the patterns with the same symbol on the
    /// terms, whatever the symbol is. Where it is false or fails, more may be bound than before.
    /// It recurses as deep as the terms that it is given.
    pub fn fits_each(
        &self,
        alloc: Global,
        patterns: &TermList,
        ids: &Numbers,
        env: &mut Env,
    ) -> Result<bool, Mem>
        requires ids { AreBelow (length self.now.trees) ids.now }
        requires env { AreBound (length self.now.trees) env.old }
        ensures yes { IfOk result (λ r. r ≡ true → (f : List ℕ) → IsOnlyMatch (apply f (trees_of patterns.now)) (apply f (trees_of (trees_at self.now.trees ids.now))) (bindings_of self.now.trees env.old) (bindings_of self.now.trees env.new)) }
        ensures not { IfOk result (λ r. r ≡ false → (f : List ℕ) → HasNoMatch (apply f (trees_of patterns.now)) (apply f (trees_of (trees_at self.now.trees ids.now))) (bindings_of self.now.trees env.old)) }
        ensures below { IfOk result (λ _. AreBound (length self.now.trees) env.new) }
    {
        self.fit_all(alloc, patterns, ids, env)
    }
}
