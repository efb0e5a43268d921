// The table of numbered nodes.
ghost use Rattle.std.specs.Prelude.{ℕ, ◌≡◌, ◌<◌, ◌≤◌, ◌+◌, ◌^◌, ◌-◌, [], ◌∷◌, ◌++◌, length, IfOk, OnOk, OnErr, IfSome, IfNone, Some, slice_get, slice_index, min};
ghost use Rattle.std.specs.Vec.{vec_len, vec_capacity};
ghost use Rattle.sap_terms.specs.View.{tree};
ghost use Rattle.sap_terms.specs.Ground.{IsGround};
ghost use Rattle.sap_terms.specs.Message.{IsOver};
ghost use Rattle.sap_terms.specs.Normal.{IsNormal, IsNormalForm};
ghost use Rattle.sap_terms.specs.Equations.{equations};
ghost use Rattle.sap_terms.specs.Tree.{node_count};
ghost use Rattle.sap_share.specs.Shared.{tree_at, trees_at, node_tree, AreBelow, StandsBelow, IsHeld, HaveOneNumber, IsNew, Gives, ComesAlone, Came};
ghost use Rattle.sap_share.specs.code.Inside.{trees_in, forms_in, sizes_in, IsRowOf};

use crate::Node;
use crate::nodes::Nodes;
use crate::row::Row;
use sap_terms::{Copied, Mem, Numbers, Signature, Term, TermList};
use std::alloc::Global;
use std::marker::Model;

/// Ground terms by numbers: one for each, in the order in which they came.
#[derive(Drop)]
pub struct Table {
    sig: Signature,
    nodes: Nodes,
    rows: Vec<Row>,
}

impl Model for Table {
    ghost use Rattle.std.specs.Coded.{codes};
    ghost use Rattle.sap_terms.specs.Codes.{tree_code};
    ghost use Rattle.sap_share.specs.Shared.{Shared};

    ghost Value = { Shared };

    ghost coded = { Prim.hlevel (codes, tree_code) };

    ghost use Rattle.sap_share.specs.code.Inside.{trees_in, forms_in, sizes_in, IsTable};

    ghost view = { λ a. record { sig = a.sig; trees = trees_in a.rows.items } };

    ghost invariant = { λ a. IsTable a.sig a.nodes (trees_in a.rows.items) (forms_in a.rows.items) (sizes_in a.rows.items) };
}

// Puts a row last. There is room.
fn put_row(rows: &mut Vec<Row>, row: Row)
    requires { vec_len rows.old < vec_capacity rows.old }
    ensures rows { rows.new.items ≡ rows.old.items ++ row ∷ [] }
    ensures capacity { vec_capacity rows.old ≤ vec_capacity rows.new }
{
    match rows.push(row) {
        Ok(_) => {}
        Err(_) => unreachable!(),
    }
}

impl Table {
    /// A table without numbers, of terms over a signature.
    pub fn new(alloc: Global, sig: &Signature) -> Result<Table, Mem>
        ensures { IfOk result (λ t. (t.sig ≡ sig.now) × (t.trees ≡ [])) }
    {
        let sig = sig.copy(alloc)?;
        Ok(Table {
            sig,
            nodes: Nodes::new(alloc),
            rows: Vec::new(alloc),
        })
    }

    /// The signature.
    pub fn signature(&self) -> &Signature
        ensures { result.now ≡ self.now.sig }
    {
        &self.sig
    }

    /// How many numbers were given.
    pub fn count(&self) -> u64
        ensures { result ≡ length self.now.trees }
    {
        self.nodes.len()
    }

    /// The number of a term's normal form.
    pub fn normal_of(&self, id: u64) -> u64
        requires { id < length self.now.trees }
        ensures below { result < length self.now.trees }
        ensures form { IsNormalForm (equations self.now.sig) (tree_at self.now.trees id) (tree_at self.now.trees result) }
    {
        self.rows[id as usize].form
    }

    /// How many nodes the term has; from the greatest u64 on, that number.
    pub fn size(&self, id: u64) -> u64
        requires { id < length self.now.trees }
        ensures { result ≡ min (node_count (tree_at self.now.trees id)) u64.MAX }
    {
        self.rows[id as usize].size
    }

    /// The node of a number.
    pub fn node(&self, id: u64) -> &Node
        requires { id < length self.now.trees }
        ensures tree { node_tree self.now.trees result.now ≡ tree_at self.now.trees id }
        ensures below { StandsBelow id result.now }
    {
        self.nodes.at(id)
    }

    /// The term of a number. It is held: no memory is taken.
    pub fn term(&self, id: u64) -> &Term
        requires { id < length self.now.trees }
        ensures { tree result.now ≡ tree_at self.now.trees id }
    {
        &self.rows[id as usize].term
    }

    /// Each term is ground.
    pub fn each_is_ground(&self)
        ensures { (k : ℕ) → k < length self.now.trees → IsGround (tree_at self.now.trees k) }
    {
        let _nodes = &self.nodes;
    }

    /// Each term is over the signature.
    pub fn each_is_over(&self)
        ensures { (k : ℕ) → k < length self.now.trees → IsOver self.now.sig (tree_at self.now.trees k) }
    {
        let _nodes = &self.nodes;
    }

    /// No term has two numbers.
    pub fn each_has_one_number(&self)
        ensures { HaveOneNumber self.now.trees (length self.now.trees) }
    {
        let _nodes = &self.nodes;
    }

    /// The number of a node, where it has one.
    pub fn number_of(&self, node: &Node) -> Option<u64>
        requires { StandsBelow (length self.now.trees) node.now }
        ensures found { IfSome result (λ k. (k < length self.now.trees) × (tree_at self.now.trees k ≡ node_tree self.now.trees node.now)) }
        ensures none { IfNone result (IsNew self.now.trees node.now) }
    {
        self.nodes.find(node)
    }

    /// How many nodes a node's tree has.
    #[tactic(auto, using(crate::proofs::Sizes::size_laws))]
    pub(crate) fn size_of(&self, node: &Node) -> u64
        requires { StandsBelow (length self.now.trees) node.now }
        ensures { result ≡ min (node_count (node_tree self.now.trees node.now)) u64.MAX }
    {
        match node {
            Node::App(_, ks) => {
                let mut total: u64 = 1;
                for k in ks.as_slice() {
                    total = total.saturating_add(self.size(*k));
                }
                total
            }
            _ => 1,
        }
    }

    /// The terms of these numbers, which share their memory with those that the table holds.
    #[tactic(auto, using(crate::proofs::Kept::tree_laws))]
    pub fn terms_of(&self, alloc: Global, ks: &Numbers) -> Result<TermList, Mem>
        requires { AreBelow (length self.now.trees) ks.now }
        ensures { IfOk result (λ ts. ts ≡ trees_at self.now.trees ks.now) }
    {
        let mut terms = TermList::with_room(alloc, ks.len())?;
        for k in ks.as_slice() {
            match self.tree(alloc, *k) {
                Ok(term) => terms.push(term)?,
                Err(e) => return Err(e),
            }
        }
        Ok(terms)
    }

    // The term of a node.
    fn term_of(&self, alloc: Global, node: &Node) -> Result<Term, Mem>
        requires { StandsBelow (length self.now.trees) node.now }
        ensures { IfOk result (λ t. tree t ≡ node_tree self.now.trees node.now) }
    {
        match node {
            Node::Public(n) => Ok(Term::Public(n.copy(alloc)?)),
            Node::Fresh(k) => Ok(Term::Fresh(*k)),
            Node::App(f, ks) => {
                let name = f.copy(alloc)?;
                match self.terms_of(alloc, ks) {
                    Ok(terms) => Ok(Term::App(name, terms)),
                    Err(e) => Err(e),
                }
            }
        }
    }

    // What the table will keep of a node, whose normal form has this number.
    fn row_of(&self, alloc: Global, node: &Node, form: u64) -> Result<Row, Mem>
        requires { StandsBelow (length self.now.trees) node.now }
        ensures { IfOk result (λ r. IsRowOf self.now.trees node.now form r) }
    {
        let size = self.size_of(node);
        let term = self.term_of(alloc, node)?;
        Ok(Row { term, form, size })
    }

    // The same of two nodes whose normal form has this number.
    fn rows_of(
        &self,
        alloc: Global,
        first: &Node,
        second: &Node,
        form: u64,
    ) -> Result<(Row, Row), Mem>
        requires first { StandsBelow (length self.now.trees) first.now }
        requires second { StandsBelow (length self.now.trees) second.now }
        ensures first { IfOk result (λ p. IsRowOf self.now.trees first.now form p.0) }
        ensures second { IfOk result (λ p. IsRowOf self.now.trees second.now form p.1) }
    {
        let row = self.row_of(alloc, first, form)?;
        match self.row_of(alloc, second, form) {
            Ok(other) => Ok((row, other)),
            Err(e) => {
                drop(row);
                Err(e)
            }
        }
    }

    /// Gives a new node a number, and remembers its form's, which may be the new one.
    pub(crate) fn add(&mut self, alloc: Global, node: Node, form: u64) -> Result<u64, Mem>
        requires below { StandsBelow (length self.old.trees) node }
        requires held { IsHeld self.old.sig node }
        requires new { IsNew self.old.trees node }
        requires form_below { form ≤ length self.old.trees }
        requires form { IsNormalForm (equations self.old.sig) (node_tree self.old.trees node) (tree_at (self.old.trees ++ node_tree self.old.trees node ∷ []) form) }
        ensures number { IfOk result (λ k. k ≡ length self.old.trees) }
        ensures ok { OnOk result (self.new ≡ record self.old { trees = self.old.trees ++ node_tree self.old.trees node ∷ [] }) }
        ensures err { OnErr result (self.new ≡ self.old) }
    {
        let number = self.nodes.len();
        let row = match self.row_of(alloc, &node, form) {
            Ok(row) => row,
            Err(e) => {
                drop(node);
                return Err(e);
            }
        };
        match self.rows.reserve(1) {
            Ok(_) => {}
            Err(_) => {
                drop(node);
                drop(row);
                return Err(Mem);
            }
        }
        match self.nodes.push(alloc, node) {
            Ok(()) => {
                put_row(&mut self.rows, row);
                Ok(number)
            }
            Err(e) => {
                drop(row);
                Err(e)
            }
        }
    }

    /// Gives a new node that is its own normal form a number.
    pub(crate) fn add_own(&mut self, alloc: Global, node: Node) -> Result<u64, Mem>
        requires below { StandsBelow (length self.old.trees) node }
        requires held { IsHeld self.old.sig node }
        requires new { IsNew self.old.trees node }
        requires form { IsNormalForm (equations self.old.sig) (node_tree self.old.trees node) (node_tree self.old.trees node) }
        ensures ok { IfOk result (λ k. Gives self.old self.new k (node_tree self.old.trees node)) }
        ensures alone { IfOk result (ComesAlone self.old self.new) }
        ensures came { IfOk result (Came self.old self.new) }
        ensures err { OnErr result (self.new ≡ self.old) }
    {
        let own = self.count();
        self.add(alloc, node, own)
    }

    /// The number of a node that is its own normal form: the old one where the node is there, else the next.
    pub(crate) fn put_own(&mut self, alloc: Global, node: Node) -> Result<u64, Mem>
        requires below { StandsBelow (length self.old.trees) node }
        requires held { IsHeld self.old.sig node }
        requires form { IsNormalForm (equations self.old.sig) (node_tree self.old.trees node) (node_tree self.old.trees node) }
        ensures ok { IfOk result (λ k. Gives self.old self.new k (node_tree self.old.trees node)) }
        ensures alone { IfOk result (ComesAlone self.old self.new) }
        ensures came { IfOk result (Came self.old self.new) }
        ensures err { OnErr result (self.new ≡ self.old) }
    {
        match self.number_of(&node) {
            Some(k) => {
                drop(node);
                Ok(k)
            }
            None => self.add_own(alloc, node),
        }
    }

    /// Gives two new nodes their numbers, the second of which has the first for its normal form.
    pub(crate) fn add_both(&mut self, alloc: Global, first: Node, second: Node) -> Result<u64, Mem>
        requires below { StandsBelow (length self.old.trees) first }
        requires held { IsHeld self.old.sig first }
        requires new { IsNew self.old.trees first }
        requires normal { IsNormal (equations self.old.sig) (node_tree self.old.trees first) }
        requires second_below { StandsBelow (length self.old.trees) second }
        requires second_held { IsHeld self.old.sig second }
        requires second_new { IsNew self.old.trees second }
        requires other { ¬ (node_tree self.old.trees first ≡ node_tree self.old.trees second) }
        requires form { IsNormalForm (equations self.old.sig) (node_tree self.old.trees second) (node_tree self.old.trees first) }
        ensures number { IfOk result (λ k. k ≡ length self.old.trees + 1) }
        ensures ok { OnOk result (self.new ≡ record self.old { trees = self.old.trees ++ node_tree self.old.trees first ∷ node_tree self.old.trees second ∷ [] }) }
        ensures err { OnErr result (self.new ≡ self.old) }
    {
        let form = self.nodes.len();
        let (first_row, second_row) = match self.rows_of(alloc, &first, &second, form) {
            Ok(rows) => rows,
            Err(e) => {
                drop(first);
                drop(second);
                return Err(e);
            }
        };
        match self.rows.reserve(2) {
            Ok(_) => {}
            Err(_) => {
                drop(first);
                drop(second);
                drop(first_row);
                drop(second_row);
                return Err(Mem);
            }
        }
        match self.nodes.push_both(alloc, first, second) {
            Ok(()) => {
                put_row(&mut self.rows, first_row);
                put_row(&mut self.rows, second_row);
                Ok(form + 1)
            }
            Err(e) => {
                drop(first_row);
                drop(second_row);
                Err(e)
            }
        }
    }
}
