// What a search holds: terms with their numbers, entries, and what follows from these.
ghost use Rattle.std.specs.Prelude.{◌≡◌, ◌<◌, ◌≤◌, ◌+◌, ◌⊎◌, ◌↔◌, IsTrue, ℕ, [], ◌∷◌, ◌++◌, length, slice_get, Some, IfOk, OnOk, OnErr};
ghost use Rattle.sap_terms.specs.Deduce.{IsDeducible};
ghost use Rattle.sap_terms.specs.Message.{IsMessage};
ghost use Rattle.sap_terms.specs.Tree.{node_count};
ghost use Rattle.sap_terms.specs.View.{tree};
ghost use Rattle.sap_terms.specs.declared.var.Sort.TheVariants.{Msg};
ghost use Rattle.sap_share.specs.Shared.{tree_at, Keeps};
ghost use Rattle.sap_derive.specs.Found.{IsFoundIn};
ghost use Rattle.sap_derive.specs.code.Clauses.{ArePartsListed};
ghost use Rattle.sap_derive.specs.code.Closed.{IsClosedUnder};
ghost use Rattle.sap_derive.specs.code.Listed.{IsListed, AreListed};
ghost use Rattle.sap_derive.specs.code.States.{IsTerm, IsBrought, IsState, Stays, seen};

use crate::bring::bring;
use crate::closure::Closure;
use crate::derivation::Derivation;
use crate::listing::{Listing, list};
use crate::openers::Openers;
use crate::write::{place_of, write};
use sap_rewrite::{normal_forms_are_unique, symbols_reduce_once};
use sap_share::{Node, Table};
use sap_terms::{MOST_TERM_NODES, Mem, Numbers, Signature, Term};
use std::alloc::Global;

// Terms that have numbers, of which the first have brought their clauses; the entries, of which the first are known; and what
// follows.
#[derive(Drop)]
pub(crate) struct State {
    pub(crate) table: Table,
    pub(crate) entries: Listing,
    pub(crate) terms: Listing,
    pub(crate) brought: u64,
    pub(crate) given: u64,
    pub(crate) closure: Closure,
    pub(crate) openers: Openers,
    // the ranks that the last goal needed; nothing holds of them between calls
    ranks: Listing,
}

// Puts those of these numbers last that aren't in the list.
fn list_all(items: &mut Listing, ns: &[u64]) -> Result<(), Mem>
    ensures only { (m : ℕ) → IsListed items.new m → IsListed items.old m ⊎ IsListed ns.now m }
    ensures places { (k m : ℕ) → slice_get items.old k ≡ Some m → slice_get items.new k ≡ Some m }
    ensures ok { OnOk result (AreListed items.new ns.now) }
{
    for n in ns {
        list(items, *n)?;
    }
    Ok(())
}

// Puts the parts of a term last that aren't in the list.
fn list_parts(table: &Table, terms: &mut Listing, n: u64) -> Result<(), Mem>
    requires { IsTerm table.now.sig table.now.trees n }
    ensures only { (m : ℕ) → IsListed terms.new m → IsListed terms.old m ⊎ IsTerm table.now.sig table.now.trees m }
    ensures places { (k m : ℕ) → slice_get terms.old k ≡ Some m → slice_get terms.new k ≡ Some m }
    ensures ok { OnOk result (ArePartsListed table.now.trees terms.new (tree_at table.now.trees n)) }
{
    match table.node(n) {
        Node::App(_, ks) => list_all(terms, ks.as_slice()),
        Node::Public(_) | Node::Fresh(_) => Ok(()),
    }
}

impl State {
    // Nothing is known but a signature.
    pub(crate) fn new(alloc: Global, sig: &Signature) -> Result<State, Mem>
        ensures state { IfOk result IsState }
        ensures sig { IfOk result (λ s. s.table.sig ≡ sig.now) }
        ensures entries { IfOk result (λ s. s.entries ≡ []) }
    {
        let table = Table::new(alloc, sig)?;
        match Openers::of(alloc, sig) {
            Ok(openers) => Ok(State {
                table,
                entries: Listing::new(alloc),
                terms: Listing::new(alloc),
                brought: 0,
                given: 0,
                closure: Closure::new(alloc),
                openers,
                ranks: Listing::new(alloc),
            }),
            Err(e) => {
                drop(table);
                Err(e)
            }
        }
    }

    // The number of a term, which is among the terms then.
    pub(crate) fn put(&mut self, alloc: Global, t: &Term) -> Result<u64, Mem>
        requires state { IsState self.old }
        requires message { IsMessage self.old.table.sig Msg (tree t.now) }
        requires within { node_count (tree t.now) ≤ MOST_TERM_NODES }
        ensures state { IsState self.new }
        ensures stays { Stays self.old self.new }
        ensures below { IfOk result (λ n. n < length self.new.table.trees) }
        ensures tree { IfOk result (λ n. tree_at self.new.table.trees n ≡ tree t.now) }
        ensures listed { IfOk result (IsListed self.new.terms) }
    {
        let n = self.table.put(alloc, t)?;
        list(&mut self.terms, n)?;
        Ok(n)
    }

    // Makes a term bring its parts and its clauses.
    fn bring_one(&mut self, alloc: Global, n: u64) -> Result<(), Mem>
        requires state { IsState self.old }
        requires listed { IsListed self.old.terms n }
        ensures state { IsState self.new }
        ensures stays { Stays self.old self.new }
        ensures places { (k m : ℕ) → slice_get self.old.terms k ≡ Some m → slice_get self.new.terms k ≡ Some m }
        ensures brought { self.new.brought ≡ self.old.brought }
        ensures ok { OnOk result (IsBrought self.new.table.sig self.new.table.trees self.new.terms self.new.closure n) }
    {
        list_parts(&self.table, &mut self.terms, n)?;
        bring(&self.table, &self.openers, &mut self.closure, alloc, n)
    }

    // Makes the next term bring its parts and its clauses.
    fn bring_next(&mut self, alloc: Global) -> Result<(), Mem>
        requires state { IsState self.old }
        requires next { self.old.brought < length self.old.terms }
        requires count { self.old.brought < u64.MAX }
        ensures state { IsState self.new }
        ensures stays { Stays self.old self.new }
        ensures ok { OnOk result (self.new.brought ≡ self.old.brought + 1) }
    {
        let brought = self.brought;
        let n = self.terms.at(brought);
        self.bring_one(alloc, n)?;
        self.brought = brought + 1;
        Ok(())
    }

    // Makes each term bring its parts and its clauses.
    fn bring_all(&mut self, alloc: Global) -> Result<(), Mem>
        requires { IsState self.old }
        ensures state { IsState self.new }
        ensures stays { Stays self.old self.new }
        ensures ok { OnOk result (length self.new.terms ≤ self.new.brought) }
    {
        for _ in self.brought..u64::MAX {
            if self.brought >= self.terms.len() {
                return Ok(());
            }
            self.bring_next(alloc)?;
        }
        let _count = self.terms.len();
        Ok(())
    }

    // Makes the next entry known.
    fn give_next(&mut self) -> Result<(), Mem>
        requires state { IsState self.old }
        requires next { self.old.given < length self.old.entries }
        requires count { self.old.given < u64.MAX }
        ensures state { IsState self.new }
        ensures stays { Stays self.old self.new }
        ensures terms { self.new.terms ≡ self.old.terms }
        ensures brought { self.new.brought ≡ self.old.brought }
        ensures ok { OnOk result (self.new.given ≡ self.old.given + 1) }
    {
        let given = self.given;
        let n = self.entries.at(given);
        self.closure.give(n)?;
        self.given = given + 1;
        Ok(())
    }

    // Makes each entry known.
    fn give_all(&mut self) -> Result<(), Mem>
        requires { IsState self.old }
        ensures state { IsState self.new }
        ensures stays { Stays self.old self.new }
        ensures terms { self.new.terms ≡ self.old.terms }
        ensures brought { self.new.brought ≡ self.old.brought }
        ensures ok { OnOk result (length self.new.entries ≤ self.new.given) }
    {
        for _ in self.given..self.entries.len() {
            self.give_next()?;
        }
        Ok(())
    }

    // Makes known all that follows from the entries, of the terms.
    pub(crate) fn settle(&mut self, alloc: Global) -> Result<(), Mem>
        requires { IsState self.old }
        ensures state { IsState self.new }
        ensures stays { Stays self.old self.new }
        ensures brought { OnOk result (length self.new.terms ≤ self.new.brought) }
        ensures given { OnOk result (length self.new.entries ≤ self.new.given) }
        ensures closed { OnOk result (IsClosedUnder self.new.closure.clauses self.new.closure.known) }
    {
        self.bring_all(alloc)?;
        self.give_all()?;
        self.closure.close(alloc)
    }
}

impl State {
    // Whether a term among the terms is deducible from the entries, once all that follows is known.
    pub(crate) fn is_known(&self, n: u64) -> bool
        requires state { IsState self.now }
        requires brought { length self.now.terms ≤ self.now.brought }
        requires given { length self.now.entries ≤ self.now.given }
        requires closed { IsClosedUnder self.now.closure.clauses self.now.closure.known }
        requires listed { IsListed self.now.terms n }
        ensures deducible { IsTrue result ↔ IsDeducible self.now.table.sig [] (seen self.now).entries (tree_at self.now.table.trees n) }
        ensures known { IsTrue result → IsListed self.now.closure.known n }
    {
        normal_forms_are_unique();
        symbols_reduce_once();
        self.table.signature().builtins_are_held();
        self.table.each_has_one_number();
        self.closure.known.place(n).is_some()
    }

    // Makes a term the last entry, which is among the terms.
    pub(crate) fn enter(&mut self, n: u64) -> Result<(), Mem>
        requires state { IsState self.old }
        requires listed { IsListed self.old.terms n }
        ensures state { IsState self.new }
        ensures table { self.new.table ≡ self.old.table }
        ensures ok { OnOk result (self.new.entries ≡ self.old.entries ++ n ∷ []) }
        ensures err { OnErr result (self.new.entries ≡ self.old.entries) }
    {
        self.entries.push(n)
    }

    // The lines that lead from the entries to a known term, which is among the terms; what they give is entered. Refused, the
    // entries are as they were.
    pub(crate) fn write(&mut self, alloc: Global, n: u64) -> Result<Derivation, Mem>
        requires state { IsState self.old }
        requires brought { length self.old.terms ≤ self.old.brought }
        requires listed { IsListed self.old.terms n }
        requires known { IsListed self.old.closure.known n }
        ensures state { IsState self.new }
        ensures err { OnErr result (seen self.new ≡ seen self.old) }
        ensures found { IfOk result (λ d. IsFoundIn (seen self.old) (tree_at self.old.table.trees n) d (seen self.new)) }
    {
        self.table.each_has_one_number();
        let count = self.entries.len();
        let rank = place_of(&self.closure.known, n);
        match write(
            alloc,
            &self.closure,
            &mut self.entries,
            &mut self.ranks,
            rank,
        ) {
            Ok(lines) => {
                let entry = place_of(&self.entries, n);
                Ok(Derivation { lines, entry })
            }
            Err(e) => {
                self.entries.cut(count);
                Err(e)
            }
        }
    }
}
