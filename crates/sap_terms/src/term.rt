//! Terms.
ghost use Rattle.std.specs.Prelude.{◌≡◌, ◌<◌, ◌↔◌, [], ◌∷◌, ◌++◌, length, IsTrue, IfOk, OnOk, OnErr, slice_get, option_map, min, map, Some, slice_index_or, ◌≤◌};
ghost use Rattle.std.specs.Option.{option_copied};
ghost use Rattle.sap_terms.specs.Same.{same_tree};

use crate::items::push_copies;
use crate::{Copied, Mem, Name, Var};
use std::alloc::Global;
use std::hash::{Hash, Hasher};
use std::marker::Model;
use std::mem;
use std::rc::Rc;

/// A term of the symbolic model. Contracts see it as a plain tree, by `tree` of the specs' `View`.
#[cycle(term)]
#[derive(Drop)]
pub enum Term {
    /// `x`, `~x` or `$x`.
    Var(Var),
    /// A name that everybody knows, as `'a'`.
    Public(Name),
    /// A name that somebody made, by its number.
    Fresh(u64),
    /// A symbol on terms. A symbol without terms is a constant.
    App(Name, TermList),
}

/// A list of terms, which contracts see as the list of their trees. Copies share the terms, so a copy of a list, and so of a
/// term, takes no memory and the same time whatever its size.
#[cycle(term)]
#[derive(Drop)]
pub struct TermList {
    alloc: Global,
    // None where there is no term.
    shared: Option<Rc<Vec<Term>>>,
}

impl Model for TermList {
    ghost use Rattle.std.specs.Prelude.{List, map};
    ghost use Rattle.sap_terms.specs.Tree.{Tree};
    ghost use Rattle.sap_terms.specs.Codes.{list_code};

    ghost Value = { List Tree };

    ghost coded = { list_code };

    ghost use Rattle.sap_terms.specs.View.{tree};
    ghost use Rattle.sap_terms.specs.Tree.{trees_of, trees_count};
    ghost use Rattle.sap_terms.specs.code.Held.{held};

    ghost view = { λ a. map tree (held a.shared) };

    ghost size = { λ ts. trees_count (trees_of ts) };

    ghost use Rattle.std.proofs.Common.{arith};
    ghost use Rattle.sap_terms.specs.Falls.{falls};

    ghost size_decreases = { λ a h. falls a.alloc a.shared };
}

// Copies of these terms, with room for one more.
fn copies(alloc: Global, ts: &[Term]) -> Result<Vec<Term>, Mem>
    ensures { IfOk result (λ v. v.items ≡ ts.now) }
{
    let mut items = Vec::with_capacity(alloc, ts.len() + 1)?;
    push_copies(alloc, &mut items, ts)?;
    Ok(items)
}

// These terms and this one, in a list that nothing else shares.
fn with_last(alloc: Global, items: Vec<Term>, item: Term) -> Result<Rc<Vec<Term>>, Mem>
    ensures { IfOk result (λ r. r.value.items ≡ items.items ++ item ∷ []) }
{
    let mut items = items;
    items.push(item)?;
    Ok(Rc::new(alloc, items)?)
}

// Copies of these terms, and this one.
fn copies_with(alloc: Global, ts: &[Term], item: Term) -> Result<Rc<Vec<Term>>, Mem>
    ensures { IfOk result (λ r. r.value.items ≡ ts.now ++ item ∷ []) }
{
    match copies(alloc, ts) {
        Ok(items) => with_last(alloc, items, item),
        Err(e) => {
            drop(item);
            Err(e)
        }
    }
}

// Puts the term last, where no other list has these terms in place, else in a list of its own.
fn push_on(alloc: Global, shared: &mut Rc<Vec<Term>>, item: Term) -> Result<(), Mem>
    ensures ok { OnOk result (shared.new.value.items ≡ shared.old.value.items ++ item ∷ []) }
    ensures err { OnErr result (shared.new.value.items ≡ shared.old.value.items) }
{
    match Rc::get_mut(shared) {
        Some(items) => Ok(items.push(item)?),
        None => {
            let longer = copies_with(alloc, shared.as_slice(), item)?;
            drop(mem::replace(shared, longer));
            Ok(())
        }
    }
}

impl TermList {
    ghost use Rattle.sap_terms.specs.View.{tree};
    ghost use Rattle.sap_terms.specs.Tree.{node_count, trees_of, trees_count, trees_levels};

    /// The empty list. It takes no memory.
    pub fn new(alloc: Global) -> TermList
        ensures { result ≡ [] }
    {
        TermList {
            alloc,
            shared: None,
        }
    }

    /// The empty list, with room for so many terms, which push takes no memory for.
    pub fn with_room(alloc: Global, count: u64) -> Result<TermList, Mem>
        ensures { IfOk result (λ a. a ≡ []) }
    {
        if count == 0 {
            return Ok(TermList::new(alloc));
        }
        let items = Vec::with_capacity(alloc, count as usize)?;
        TermList::of(alloc, items)
    }

    // The list of these terms.
    fn of(alloc: Global, items: Vec<Term>) -> Result<TermList, Mem>
        ensures { IfOk result (λ a. a ≡ map tree items.items) }
    {
        let shared = Rc::new(alloc, items)?;
        Ok(TermList {
            alloc,
            shared: Some(shared),
        })
    }

    /// Puts the term last; a refused term is dropped, and the list is as it was. Where copies share the list's terms, it gets
    /// a list of its own first.
    pub fn push(&mut self, item: Term) -> Result<(), Mem>
        ensures ok { OnOk result (self.new ≡ self.old ++ tree item ∷ []) }
        ensures err { OnErr result (self.new ≡ self.old) }
    {
        let alloc = self.alloc;
        match &mut self.shared {
            Some(shared) => push_on(alloc, shared, item),
            None => {
                let first = with_last(alloc, Vec::new(alloc), item)?;
                drop(mem::replace(&mut self.shared, Some(first)));
                Ok(())
            }
        }
    }

    /// The number of terms.
    pub fn len(&self) -> u64
        ensures { result ≡ length self.now }
    {
        self.as_slice().len() as u64
    }

    /// The term at index k, from 0.
    pub fn get(&self, k: u64) -> Option<&Term>
        ensures { option_map tree (option_copied result) ≡ slice_get self.now k }
    {
        self.as_slice().get(k as usize)
    }

    // The term at an index that the list has.
    fn item(&self, k: u64) -> &Term
        requires { k < length self.now }
        ensures { slice_get self.now k ≡ Some (tree result.now) }
    {
        &self.as_slice()[k as usize]
    }

    /// The term at an index that the list has, which is smaller than the list.
    #[tactic(auto, using(crate::proofs::PlainLaws::Trees::list_laws))]
    pub fn at(&self, k: u64) -> &Term
        requires { k < length self.now }
        ensures got { slice_get self.now k ≡ Some (tree result.now) }
        ensures item { tree result.now ≡ slice_index_or self.now k (tree result.now) }
        ensures smaller { node_count (tree result.now) ≤ trees_count (trees_of self.now) }
    {
        self.item(k)
    }

    /// The terms side by side.
    pub fn as_slice(&self) -> &[Term]
        ensures { map tree result.now ≡ self.now }
    {
        match &self.shared {
            Some(items) => items.as_slice(),
            None => &[],
        }
    }

    #[cycle(nodes)]
    #[tactic(auto, using(crate::proofs::PlainLaws::Trees::list_laws))]
    fn nodes(&self) -> u64
        ensures { result ≡ min (trees_count (trees_of self.now)) u64.MAX }
    {
        let mut total: u64 = 0;
        for k in 0..self.len() {
            total = total.saturating_add(self.at(k).nodes());
        }
        total
    }

    #[cycle(levels)]
    fn levels(&self) -> u64
        ensures { result ≡ min (trees_levels (trees_of self.now)) u64.MAX }
    {
        let mut deepest: u64 = 0;
        for k in 0..self.len() {
            deepest = deepest.max(self.at(k).levels());
        }
        deepest
    }

    #[cycle(same)]
    fn is(&self, other: &TermList) -> bool
        ensures { IsTrue result ↔ (self.now ≡ other.now) }
    {
        if self.len() != other.len() {
            return false;
        }
        for k in 0..self.len() {
            if !self.at(k).is(other.at(k)) {
                return false;
            }
        }
        true
    }
}

impl Term {
    ghost use Rattle.sap_terms.specs.View.{tree};
    ghost use Rattle.sap_terms.specs.Tree.{node_count, level_count};

    /// The number of the tree's nodes; from the greatest u64 on, that number. It recurses as deep as the tree.
    #[cycle(nodes)]
    pub fn nodes(&self) -> u64
        ensures { result ≡ min (node_count (tree self.now)) u64.MAX }
    {
        match self {
            Term::Var(_) | Term::Public(_) | Term::Fresh(_) => 1,
            Term::App(_, args) => args.nodes().saturating_add(1),
        }
    }

    /// How deep the tree is, 1 for a leaf; from the greatest u64 on, that number. It recurses as deep as the tree.
    #[cycle(levels)]
    pub fn levels(&self) -> u64
        ensures { result ≡ min (level_count (tree self.now)) u64.MAX }
    {
        match self {
            Term::App(_, args) => args.levels().saturating_add(1),
            _ => 1,
        }
    }

    /// Whether the two are the same tree, sorts of variables included. It recurses as deep as the trees.
    pub fn same(&self, other: &Term) -> bool
        ensures equal { IsTrue result ↔ (self.now ≡ other.now) }
        ensures test { result ≡ same_tree (tree self.now) (tree other.now) }
    {
        self.is(other)
    }

    #[cycle(same)]
    fn is(&self, other: &Term) -> bool
        ensures { IsTrue result ↔ (self.now ≡ other.now) }
    {
        match (self, other) {
            (Term::Var(v), Term::Var(w)) => v.same(w),
            (Term::Public(a), Term::Public(b)) => a.same(b),
            (Term::Fresh(j), Term::Fresh(k)) => *j == *k,
            (Term::App(f, ts), Term::App(g, us)) => f.same(g) && ts.is(us),
            _ => false,
        }
    }
}

impl Copied for Term {
    fn copy(&self, alloc: Global) -> Result<Term, Mem> {
        match self {
            Term::Var(v) => Ok(Term::Var(v.copy(alloc)?)),
            Term::Public(n) => Ok(Term::Public(n.copy(alloc)?)),
            Term::Fresh(k) => Ok(Term::Fresh(*k)),
            Term::App(f, args) => {
                let name = f.copy(alloc)?;
                match args.copy(alloc) {
                    Ok(args) => Ok(Term::App(name, args)),
                    Err(e) => Err(e),
                }
            }
        }
    }
}

impl Copied for TermList {
    fn copy(&self, _alloc: Global) -> Result<TermList, Mem> {
        match &self.shared {
            Some(items) => Ok(TermList {
                alloc: self.alloc,
                shared: Some(items.clone()?),
            }),
            None => Ok(TermList::new(self.alloc)),
        }
    }
}

impl PartialEq for Term {
    ghost use Rattle.sap_terms.specs.code.Keys.{term_eq, term_per};

    ghost eq = { term_eq };

    ghost laws = { term_per };

    fn eq(&self, other: &Term) -> bool {
        self.same(other)
    }
}

impl Eq for Term {
    ghost use Rattle.sap_terms.specs.code.Keys.{term_equiv};

    ghost laws = { term_equiv };
}

impl Hash for Term {
    ghost use Rattle.std.proofs.Common.{ap};
    ghost use Rattle.sap_terms.specs.View.{tree};
    ghost use Rattle.sap_terms.specs.code.Hashed.{fed_tree};
    ghost use Rattle.sap_terms.specs.code.Keys.{term_decides};

    ghost hash_input = { λ t. fed_tree (tree t) };

    ghost respects_eq = { λ a b h. ap (λ t. fed_tree (tree t)) ((term_decides a b).0 h) };

    #[cycle(hash)]
    fn hash<H: Hasher>(&self, state: &mut H) {
        match self {
            Term::Var(v) => {
                state.write_u8(0);
                v.name.hash(state);
            }
            Term::Public(n) => {
                state.write_u8(1);
                n.hash(state);
            }
            Term::Fresh(k) => {
                state.write_u8(2);
                k.hash(state);
            }
            Term::App(f, ts) => {
                state.write_u8(3);
                f.hash(state);
                ts.feed(state);
            }
        }
    }
}

impl TermList {
    ghost use Rattle.std.specs.List.{fold};
    ghost use Rattle.sap_terms.specs.Tree.{trees_of};
    ghost use Rattle.sap_terms.specs.code.Hashed.{fed_trees};

    // Feeds each term to the hasher.
    #[cycle(hash)]
    fn feed<H: Hasher>(&self, state: &mut H)
        ensures { state.new ≡ fold H.write state.old (fed_trees (trees_of self.now)) }
    {
        for k in 0..self.len() {
            self.at(k).hash(state);
        }
    }
}

impl PartialEq for TermList {
    ghost use Rattle.sap_terms.specs.code.Keys.{terms_eq, terms_per};

    ghost eq = { terms_eq };

    ghost laws = { terms_per };

    fn eq(&self, other: &TermList) -> bool {
        self.is(other)
    }
}

impl Eq for TermList {
    ghost use Rattle.sap_terms.specs.code.Keys.{terms_equiv};

    ghost laws = { terms_equiv };
}

impl Hash for TermList {
    ghost use Rattle.std.proofs.Common.{ap};
    ghost use Rattle.sap_terms.specs.Tree.{trees_of};
    ghost use Rattle.sap_terms.specs.code.Hashed.{fed_trees};
    ghost use Rattle.sap_terms.specs.code.Keys.{terms_decides};

    ghost hash_input = { λ ts. fed_trees (trees_of ts) };

    ghost respects_eq = { λ a b h. ap (λ ts. fed_trees (trees_of ts)) ((terms_decides a b).0 h) };

    fn hash<H: Hasher>(&self, state: &mut H) {
        self.feed(state);
    }
}
