//! What the adversary knows, entry by entry.
ghost use Rattle.std.specs.Prelude.{◌≡◌, ◌<◌, ◌≤◌, [], length, IfOk, OnOk, OnErr, IfErr, IfSome, IfNone, option_map, slice_get, find, nat_le, All, Some};
ghost use Rattle.std.specs.Option.{option_copied};
ghost use Rattle.sap_terms.specs.View.{tree};
ghost use Rattle.sap_terms.specs.Tree.{node_count, fresh, public, apply, trees_of};
ghost use Rattle.sap_terms.specs.Message.{IsMessage};
ghost use Rattle.sap_terms.specs.Normal.{IsNormal, IsNormalForm};
ghost use Rattle.sap_terms.specs.Equations.{equations};
ghost use Rattle.sap_terms.specs.declared.var.Sort.TheVariants.{Msg};
ghost use Rattle.sap_share.specs.Shared.{Shared, tree_at, trees_at, AreBelow, Keeps};
ghost use Rattle.sap_rewrite.specs.Large.{HasLargeForm};
ghost use Rattle.sap_deduce.specs.Entries.{Gains, Adds, terms_of, AreNumbered, AreTermsAt, Applies, IsCause};
ghost use Rattle.sap_deduce.specs.Laws.{NumbersTellTerms};
ghost use Rattle.sap_deduce.specs.code.Large.{IsLargeOn};
ghost use Rattle.sap_deduce.specs.code.Lines.{origin_given};
ghost use Rattle.sap_terms.specs.Signature.{IsPublic, arity_of};
ghost use Rattle.sap_deduce.specs.declared.origin.Origin.TheVariants.{Name as NameOrigin, Public as PublicOrigin, Output as OutputOrigin, Apply as ApplyOrigin};

use crate::Deny;
use crate::lines::Lines;
use crate::stored::Given;
use sap_rewrite::{Cut, forms_are_messages};
use sap_share::{Node, Table};
use sap_terms::{
    Copied, MOST_TERM_NODES, Mem, Name, Numbers, Signature, Term, leaves_are_normal,
    names_are_messages,
};
use std::alloc::Global;
use std::marker::Model;

/// The terms that an adversary knows, as entries that are numbered from 0 and stay. Each keeps how it came to be known, and
/// the number of its term in a table of shared terms that the caller holds.
#[derive(Drop)]
pub struct Knowledge {
    sig: Signature,
    entries: Lines,
}

impl Model for Knowledge {
    ghost use Rattle.std.specs.Coded.{codes};
    ghost use Rattle.sap_terms.specs.Codes.{tree_code};
    ghost use Rattle.sap_deduce.specs.Entries.{Entries};

    ghost Value = { Entries };

    ghost coded = { Prim.hlevel (codes, tree_code) };

    ghost use Rattle.sap_deduce.specs.Entries.{AreEntries};
    ghost use Rattle.sap_deduce.specs.code.Views.{seen};

    ghost view = { λ a. seen a.sig a.entries };

    ghost invariant = { λ a. AreEntries (seen a.sig a.entries) };
}

impl Knowledge {
    /// Knowledge without entries, of terms over a signature.
    pub fn new(alloc: Global, sig: &Signature) -> Result<Knowledge, Mem>
        ensures empty { IfOk result (λ k. (k.sig ≡ sig.now) × (k.entries ≡ [])) }
        ensures numbered { IfOk result (λ k. (s : Shared) → s.sig ≡ sig.now → AreNumbered s k) }
    {
        let sig = sig.copy(alloc)?;
        Ok(Knowledge {
            sig,
            entries: Lines::new(alloc),
        })
    }

    /// The signature that the terms are over.
    pub fn signature(&self) -> &Signature
        ensures { result.now ≡ self.now.sig }
    {
        &self.sig
    }

    /// The number of entries.
    pub fn len(&self) -> u64
        ensures { result ≡ length self.now.entries }
    {
        self.entries.len()
    }

    /// The term of an entry; None where no entry has the number.
    #[tactic(auto, using(crate::proofs::Entered::entry_laws))]
    pub fn at(&self, k: u64) -> Option<&Term>
        ensures { option_map tree (option_copied result) ≡ slice_get (terms_of self.now.entries) k }
    {
        self.entries.term(k)
    }

    // The number in the table of an entry's term.
    fn number_at(&self, table: &Table, k: u64) -> u64
        requires numbered { AreNumbered table.now self.now }
        requires within { k < length self.now.entries }
        ensures number { slice_get self.now.numbers k ≡ Some result }
        ensures below { result < length table.now.trees }
        ensures term { slice_get (terms_of self.now.entries) k ≡ Some (tree_at table.now.trees result) }
    {
        self.entries.number(k)
    }

    /// The number in the table of an entry's term; None where no entry has the number.
    pub fn number(&self, table: &Table, k: u64) -> Option<u64>
        requires { AreNumbered table.now self.now }
        ensures number { result ≡ slice_get self.now.numbers k }
        ensures some { IfSome result (λ n. (n < length table.now.trees) × (slice_get (terms_of self.now.entries) k ≡ Some (tree_at table.now.trees n))) }
        ensures none { IfNone result (length self.now.entries ≤ k) }
    {
        if k < self.len() {
            Some(self.number_at(table, k))
        } else {
            None
        }
    }

    /// Two entries have one number exactly where they have one term.
    pub fn numbers_tell_terms(&self, table: &Table)
        requires { AreNumbered table.now self.now }
        ensures { NumbersTellTerms self.now }
    {
        table.each_has_one_number();
    }

    // Adds an entry that came without others, whose term has this number.
    fn enter(&mut self, table: &Table, number: u64, given: Given) -> Result<u64, Mem>
        requires numbered { AreNumbered table.now self.old }
        requires below { number < length table.now.trees }
        requires adds { Adds self.old.sig self.old.entries (origin_given given) (tree_at table.now.trees number) }
        requires within { node_count (tree_at table.now.trees number) ≤ MOST_TERM_NODES }
        ensures number { IfOk result (λ k. k ≡ length self.old.entries) }
        ensures ok { OnOk result (Gains self.old self.new (origin_given given) (tree_at table.now.trees number)) }
        ensures numbered { AreNumbered table.now self.new }
        ensures err { OnErr result (self.new ≡ self.old) }
    {
        let alloc = self.entries.allocator();
        let place = self.entries.len();
        let term = table.tree(alloc, number)?;
        self.entries.push(number, term, given)?;
        Ok(place)
    }

    // Adds an entry that came by a symbol on entries, whose term has this number.
    fn enter_applied(
        &mut self,
        table: &Table,
        number: u64,
        f: &Name,
        numbers: &Numbers,
    ) -> Result<u64, Mem>
        requires numbered { AreNumbered table.now self.old }
        requires below { number < length table.now.trees }
        requires adds { Adds self.old.sig self.old.entries (ApplyOrigin f.now numbers.now) (tree_at table.now.trees number) }
        requires within { node_count (tree_at table.now.trees number) ≤ MOST_TERM_NODES }
        ensures number { IfOk result (λ k. k ≡ length self.old.entries) }
        ensures ok { OnOk result (Gains self.old self.new (ApplyOrigin f.now numbers.now) (tree_at table.now.trees number)) }
        ensures numbered { AreNumbered table.now self.new }
        ensures err { OnErr result (self.new ≡ self.old) }
    {
        let alloc = self.entries.allocator();
        let place = self.entries.len();
        let term = table.tree(alloc, number)?;
        self.entries.push_applied(number, term, f, numbers)?;
        Ok(place)
    }

    /// Adds a name that the adversary made, and gives the entry's number.
    pub fn name(&mut self, table: &mut Table, n: u64) -> Result<u64, Mem>
        requires { AreNumbered table.old self.old }
        ensures number { IfOk result (λ k. k ≡ length self.old.entries) }
        ensures ok { OnOk result (Gains self.old self.new (NameOrigin n) (fresh n)) }
        ensures keeps { Keeps table.old table.new }
        ensures numbered { AreNumbered table.new self.new }
        ensures err { OnErr result (self.new ≡ self.old) }
    {
        let alloc = self.entries.allocator();
        let number = table.intern(alloc, Node::Fresh(n))?;
        self.enter(table, number, Given::Name(n))
    }

    /// Adds a public name, and gives the entry's number.
    pub fn public(&mut self, table: &mut Table, a: Name) -> Result<u64, Mem>
        requires { AreNumbered table.old self.old }
        ensures number { IfOk result (λ k. k ≡ length self.old.entries) }
        ensures ok { OnOk result (Gains self.old self.new PublicOrigin (public a)) }
        ensures keeps { Keeps table.old table.new }
        ensures numbered { AreNumbered table.new self.new }
        ensures err { OnErr result (self.new ≡ self.old) }
    {
        let alloc = self.entries.allocator();
        let number = table.intern(alloc, Node::Public(a))?;
        self.enter(table, number, Given::Public)
    }

    /// Adds a term that was sent, which has this number in the table, and gives the entry's number.
    pub fn output(&mut self, table: &Table, number: u64) -> Result<u64, Mem>
        requires numbered { AreNumbered table.now self.old }
        requires below { number < length table.now.trees }
        requires message { IsMessage self.old.sig Msg (tree_at table.now.trees number) }
        requires within { node_count (tree_at table.now.trees number) ≤ MOST_TERM_NODES }
        ensures number { IfOk result (λ k. k ≡ length self.old.entries) }
        ensures ok { OnOk result (Gains self.old self.new OutputOrigin (tree_at table.now.trees number)) }
        ensures numbered { AreNumbered table.now self.new }
        ensures err { OnErr result (self.new ≡ self.old) }
    {
        self.enter(table, number, Given::Output)
    }

    // The first of these numbers that isn't an entry.
    fn first_unknown(&self, numbers: &Numbers) -> Option<u64>
        ensures { result ≡ find (nat_le (length self.now.entries)) numbers.now }
    {
        let count = self.entries.len();
        for k in numbers.as_slice() {
            if *k >= count {
                return Some(*k);
            }
        }
        None
    }

    // The numbers in the table of these entries' terms.
    fn numbers_at(&self, table: &Table, alloc: Global, numbers: &Numbers) -> Result<Numbers, Mem>
        requires numbered { AreNumbered table.now self.now }
        requires known { All (λ k. k < length self.now.entries) numbers.now }
        ensures count { IfOk result (λ ks. length ks ≡ length numbers.now) }
        ensures below { IfOk result (AreBelow (length table.now.trees)) }
        ensures terms { IfOk result (λ ks. AreTermsAt self.now.entries numbers.now (trees_at table.now.trees ks)) }
    {
        let mut ks = Numbers::with_room(alloc, numbers.len())?;
        for k in numbers.as_slice() {
            ks.push(self.number_at(table, *k))?;
        }
        Ok(ks)
    }

    // Whether the symbol is public and stands on as many entries as its arity says.
    fn check(&self, alloc: Global, f: &Name, numbers: &Numbers) -> Result<(), Deny>
        ensures public_symbol { OnOk result (IsPublic self.now.sig f.now) }
        ensures arity { OnOk result (arity_of self.now.sig f.now ≡ Some (length numbers.now)) }
        ensures known { OnOk result (All (λ k. k < length self.now.entries) numbers.now) }
        ensures denied { IfErr result (IsCause self.now f.now numbers.now) }
    {
        if !self.sig.is_public(f) {
            return Err(Deny::NotPublic { f: f.copy(alloc)? });
        }
        if self.sig.arity(f) != Some(numbers.len()) {
            return Err(Deny::Arity { f: f.copy(alloc)? });
        }
        match self.first_unknown(numbers) {
            Some(k) => Err(Deny::NoEntry { k }),
            None => Ok(()),
        }
    }

    /// Adds the normal form of a symbol on the entries of these numbers, and gives the new entry's number.
    /// Refused, the knowledge is as it was.
    pub fn apply(&mut self, table: &mut Table, f: &Name, numbers: &Numbers) -> Result<u64, Deny>
        requires { AreNumbered table.old self.old }
        ensures number { IfOk result (λ k. k ≡ length self.old.entries) }
        ensures ok { OnOk result (Applies self.old self.new f.now numbers.now) }
        ensures keeps { Keeps table.old table.new }
        ensures numbered { AreNumbered table.new self.new }
        ensures denied { IfErr result (IsCause self.old f.now numbers.now) }
        ensures err { OnErr result (self.new ≡ self.old) }
    {
        leaves_are_normal();
        let alloc = self.entries.allocator();
        self.check(alloc, f, numbers)?;
        let ks = self.numbers_at(table, alloc, numbers)?;
        let number = match form_number(table, alloc, f, ks) {
            Ok(number) => number,
            Err(cause) => return Err(cause),
        };
        let place = self.enter_applied(table, number, f, numbers)?;
        Ok(place)
    }

    ghost use Rattle.sap_deduce.specs.Entries.{AreEntered};
    ghost use Rattle.sap_deduce.specs.Laws.{AreDeducible};

    /// What is true of the entries, whatever was called: they came one after another, and each is a message of at most 256
    /// nodes, which is deducible from the names and the outputs that were given.
    pub fn each_is_deducible(&self)
        ensures entered { AreEntered self.now.sig self.now.entries }
        ensures messages { All (IsMessage self.now.sig Msg) (terms_of self.now.entries) }
        ensures within { All (λ t. node_count t ≤ MOST_TERM_NODES) (terms_of self.now.entries) }
        ensures deducible { AreDeducible self.now }
    {
        names_are_messages();
        leaves_are_normal();
        forms_are_messages();
        self.sig.builtins_are_held();
    }
}

// The number of the normal form of a symbol on numbers of normal terms.
fn form_number(table: &mut Table, alloc: Global, f: &Name, ks: Numbers) -> Result<u64, Deny>
    requires below { AreBelow (length table.old.trees) ks }
    requires held { arity_of table.old.sig f.now ≡ Some (length ks) }
    requires normal { All (IsNormal (equations table.old.sig)) (trees_at table.old.trees ks) }
    ensures below { IfOk result (λ k. k < length table.new.trees) }
    ensures form { IfOk result (λ k. IsNormalForm (equations table.old.sig) (apply f.now (trees_of (trees_at table.old.trees ks))) (tree_at table.new.trees k)) }
    ensures within { IfOk result (λ k. node_count (tree_at table.new.trees k) ≤ MOST_TERM_NODES) }
    ensures keeps { Keeps table.old table.new }
    ensures denied { IfErr result (IsLargeOn (HasLargeForm (equations table.old.sig) MOST_TERM_NODES (apply f.now (trees_of (trees_at table.old.trees ks))))) }
{
    match table.normal_on(alloc, f, ks, MOST_TERM_NODES) {
        Ok(number) => Ok(number),
        Err(Cut::Large) => Err(Deny::TermLarge),
        Err(Cut::Mem) => Err(Deny::Mem),
    }
}
