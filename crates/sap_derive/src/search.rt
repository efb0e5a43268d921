//! Searches for derivations.
ghost use Rattle.std.specs.Prelude.{◌≡◌, ◌≤◌, ◌↔◌, [], ◌∷◌, ◌++◌, IsTrue, IfOk, IfSome, IfNone, OnOk, OnErr};
ghost use Rattle.sap_terms.specs.Deduce.{IsDeducible};
ghost use Rattle.sap_terms.specs.Message.{IsMessage};
ghost use Rattle.sap_terms.specs.Tree.{node_count};
ghost use Rattle.sap_terms.specs.View.{tree};
ghost use Rattle.sap_derive.specs.Found.{IsFoundIn};
ghost use Rattle.sap_terms.specs.declared.var.Sort.TheVariants.{Msg};

use crate::derivation::Derivation;
use crate::state::State;
use sap_terms::{MOST_TERM_NODES, Mem, Signature, Term};
use std::alloc::Global;
use std::marker::Model;

/// A search for what can be deduced from entries, terms that are numbered from 0 as they come. What was found once is kept for
/// later goals. Contracts see the signature and the entries' terms.
#[derive(Drop)]
pub struct Search {
    state: State,
}

impl Model for Search {
    ghost use Rattle.std.specs.Coded.{codes};
    ghost use Rattle.sap_terms.specs.Codes.{tree_code};
    ghost use Rattle.sap_derive.specs.Searched.{Searched};

    ghost Value = { Searched };

    ghost coded = { Prim.hlevel (codes, tree_code) };

    ghost use Rattle.sap_derive.specs.code.States.{IsState, seen};

    ghost view = { λ a. seen a.state };

    ghost invariant = { λ a. IsState a.state };
}

impl Search {
    /// A search without entries, over a signature.
    pub fn new(alloc: Global, sig: &Signature) -> Result<Search, Mem>
        ensures { IfOk result (λ s. (s.sig ≡ sig.now) × (s.entries ≡ [])) }
    {
        let state = State::new(alloc, sig)?;
        Ok(Search { state })
    }

    /// Makes a message of at most 256 nodes the last entry. Refused, the search is as it was. It recurses as deep as the term.
    pub fn enter(&mut self, alloc: Global, t: &Term) -> Result<(), Mem>
        requires message { IsMessage self.old.sig Msg (tree t.now) }
        requires within { node_count (tree t.now) ≤ MOST_TERM_NODES }
        ensures ok { OnOk result (self.new ≡ record self.old { entries = self.old.entries ++ tree t.now ∷ [] }) }
        ensures err { OnErr result (self.new ≡ self.old) }
    {
        let n = self.state.put(alloc, t)?;
        self.state.enter(n)
    }

    /// Whether a message of at most 256 nodes can be deduced from the entries. It recurses as deep as the term.
    pub fn deduces(&mut self, alloc: Global, goal: &Term) -> Result<bool, Mem>
        requires message { IsMessage self.old.sig Msg (tree goal.now) }
        requires within { node_count (tree goal.now) ≤ MOST_TERM_NODES }
        ensures answer { IfOk result (λ b. IsTrue b ↔ IsDeducible self.old.sig [] self.old.entries (tree goal.now)) }
        ensures kept { self.new ≡ self.old }
    {
        let n = self.state.put(alloc, goal)?;
        self.state.settle(alloc)?;
        Ok(self.state.is_known(n))
    }

    /// Lines that lead from the entries to a message of at most 256 nodes, if it can be deduced from them; what they give is
    /// entered. Otherwise, and refused, the search is as it was. It recurses as deep as the term.
    pub fn find(&mut self, alloc: Global, goal: &Term) -> Result<Option<Derivation>, Mem>
        requires message { IsMessage self.old.sig Msg (tree goal.now) }
        requires within { node_count (tree goal.now) ≤ MOST_TERM_NODES }
        ensures some { IfOk result (λ o. IfSome o (λ d. IsFoundIn self.old (tree goal.now) d self.new)) }
        ensures none { IfOk result (λ o. IfNone o (¬ IsDeducible self.old.sig [] self.old.entries (tree goal.now))) }
        ensures stays { IfOk result (λ o. IfNone o (self.new ≡ self.old)) }
        ensures err { OnErr result (self.new ≡ self.old) }
    {
        let n = self.state.put(alloc, goal)?;
        self.state.settle(alloc)?;
        if !self.state.is_known(n) {
            return Ok(None);
        }
        let found = self.state.write(alloc, n)?;
        Ok(Some(found))
    }
}
