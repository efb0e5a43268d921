//! Derivations of one goal.
ghost use Rattle.std.specs.Prelude.{◌≡◌, [], All, IfOk, IfSome, IfNone, OnOk};
ghost use Rattle.sap_terms.specs.Deduce.{IsDeducible};
ghost use Rattle.sap_terms.specs.View.{tree};
ghost use Rattle.sap_derive.specs.Found.{IsSmallMessage, IsFound};

use crate::derivation::Derivation;
use crate::search::Search;
use sap_terms::{Mem, Signature, Term, TermList};
use std::alloc::Global;

// Enters each term in turn, of a search without entries.
fn enter_all(alloc: Global, search: &mut Search, entries: &TermList) -> Result<(), Mem>
    requires none { search.old.entries ≡ [] }
    requires messages { All (IsSmallMessage search.old.sig) entries.now }
    ensures sig { search.new.sig ≡ search.old.sig }
    ensures entries { OnOk result (search.new.entries ≡ entries.now) }
{
    for k in 0..entries.len() {
        search.enter(alloc, entries.at(k))?;
    }
    Ok(())
}

/// Lines that lead from the entries to the goal, if it can be deduced from them: a search for one goal. All are messages of at
/// most 256 nodes. It recurses as deep as the terms.
pub fn derive(
    alloc: Global,
    sig: &Signature,
    entries: &TermList,
    goal: &Term,
) -> Result<Option<Derivation>, Mem>
    requires entries { All (IsSmallMessage sig.now) entries.now }
    requires goal { IsSmallMessage sig.now (tree goal.now) }
    ensures some { IfOk result (λ o. IfSome o (λ d. IsFound sig.now entries.now (tree goal.now) d)) }
    ensures none { IfOk result (λ o. IfNone o (¬ IsDeducible sig.now [] entries.now (tree goal.now))) }
{
    let mut search = Search::new(alloc, sig)?;
    match enter_all(alloc, &mut search, entries) {
        Ok(()) => {
            let found = search.find(alloc, goal);
            drop(search);
            found
        }
        Err(e) => {
            drop(search);
            Err(e)
        }
    }
}
