//! Nodes by numbers.
ghost use Rattle.std.specs.Prelude.{◌≡◌, ◌<◌, ◌≤◌, ◌+◌, [], ◌∷◌, ◌++◌, length, slice_get, Some, Contains, IfSome, IfNone, IfOk, OnOk, OnErr};
ghost use Rattle.indexmap.specs.IndexSet.{spare};
ghost use Rattle.sap_terms.specs.NameMap.{value_at};
ghost use Rattle.sap_share.specs.code.Numbered.{name_number, KeepsNumbers};

use crate::Node;
use crate::key::{Key, Sought};
use indexmap::IndexSet;
use sap_terms::{Copied, Mem, Name, NameMap};
use std::alloc::Global;
use std::marker::Model;

/// Nodes, each once, by numbers from 0 in the order in which they came. Names are looked up in their order, and have numbers
/// here: a node is hashed by these and by the numbers that it stands on.
#[derive(Drop)]
pub(crate) struct Nodes {
    names: NameMap<u64>,
    keys: IndexSet<Key>,
}

impl Model for Nodes {
    ghost use Rattle.std.specs.Prelude.{List};
    ghost use Rattle.sap_share.specs.declared.node.Node.{Node};

    ghost Value = { List Node };

    ghost use Rattle.sap_share.specs.code.Numbered.{nodes_in, AreNumbered};

    ghost view = { λ a. nodes_in a.keys.keys };

    ghost invariant = { λ a. AreNumbered a.names a.keys.keys };
}

// The number of a node's name, if it has one; 0 where it is a name that somebody made.
fn number_of_name(names: &NameMap<u64>, node: &Node) -> Option<u64>
    ensures { result ≡ name_number names.now node.now }
{
    match node {
        Node::Public(name) => names.get(name).copied(),
        Node::Fresh(_) => Some(0),
        Node::App(name, _) => names.get(name).copied(),
    }
}

// The number of a name, which is the next one if it has none.
fn number(alloc: Global, names: &mut NameMap<u64>, name: &Name, next: u64) -> Result<u64, Mem>
    ensures number { IfOk result (λ k. value_at names.new name.now ≡ Some k) }
    ensures keeps { KeepsNumbers names.old names.new }
{
    if let Some(k) = names.get(name) {
        return Ok(*k);
    }
    let copied = name.copy(alloc)?;
    names.insert(copied, next)?;
    Ok(next)
}

// The number of a node's name, which is the next one if it has none.
fn number_node(alloc: Global, names: &mut NameMap<u64>, node: &Node, next: u64) -> Result<u64, Mem>
    ensures number { IfOk result (λ k. name_number names.new node.now ≡ Some k) }
    ensures keeps { KeepsNumbers names.old names.new }
{
    match node {
        Node::Public(name) => number(alloc, names, name, next),
        Node::Fresh(_) => Ok(0),
        Node::App(name, _) => number(alloc, names, name, next),
    }
}

// Finds memory for one node more, whose name has a number then.
fn ready(
    alloc: Global,
    names: &mut NameMap<u64>,
    keys: &mut IndexSet<Key>,
    node: &Node,
) -> Result<u64, Mem>
    ensures number { IfOk result (λ k. name_number names.new node.now ≡ Some k) }
    ensures keeps { KeepsNumbers names.old names.new }
    ensures keys { keys.new.keys ≡ keys.old.keys }
    ensures room { OnOk result (0 < spare keys.new) }
{
    keys.reserve(1)?;
    number_node(alloc, names, node, keys.len() as u64)
}

// Finds memory for two nodes more, whose names have numbers then.
fn ready_both(
    alloc: Global,
    names: &mut NameMap<u64>,
    keys: &mut IndexSet<Key>,
    first: &Node,
    second: &Node,
) -> Result<(u64, u64), Mem>
    ensures first { IfOk result (λ p. name_number names.new first.now ≡ Some p.0) }
    ensures second { IfOk result (λ p. name_number names.new second.now ≡ Some p.1) }
    ensures keeps { KeepsNumbers names.old names.new }
    ensures keys { keys.new.keys ≡ keys.old.keys }
    ensures room { OnOk result (2 ≤ spare keys.new) }
{
    keys.reserve(2)?;
    let next = keys.len() as u64;
    let name = number_node(alloc, names, first, next)?;
    let other = number_node(alloc, names, second, next + 1)?;
    Ok((name, other))
}

// Puts a key last that isn't there. There is room.
fn put_key(keys: &mut IndexSet<Key>, key: Key)
    requires new { ¬ Contains keys.old.keys key }
    requires room { 0 < spare keys.old }
    ensures keys { keys.new.keys ≡ keys.old.keys ++ key ∷ [] }
    ensures spare { spare keys.old ≤ spare keys.new + 1 }
{
    match keys.insert(key) {
        Ok(_) => {}
        Err(_) => unreachable!(),
    }
}

impl Nodes {
    pub(crate) fn new(alloc: Global) -> Nodes
        ensures { result ≡ [] }
    {
        Nodes {
            names: NameMap::new(alloc),
            keys: IndexSet::new(alloc),
        }
    }

    // How many there are.
    pub(crate) fn len(&self) -> u64
        ensures { result ≡ length self.now }
    {
        self.keys.len() as u64
    }

    // The node of a number.
    pub(crate) fn at(&self, k: u64) -> &Node
        requires { k < length self.now }
        ensures { slice_get self.now k ≡ Some result.now }
    {
        &self.keys[k as usize].node
    }

    // The number of a node, where it has one.
    pub(crate) fn find(&self, node: &Node) -> Option<u64>
        ensures found { IfSome result (λ k. slice_get self.now k ≡ Some node.now) }
        ensures none { IfNone result (¬ Contains self.now node.now) }
    {
        match number_of_name(&self.names, node) {
            Some(name) => match self.keys.get_index_of(Sought { name, node }) {
                Some(k) => Some(k as u64),
                None => None,
            },
            None => None,
        }
    }

    // Puts a node last that isn't there.
    pub(crate) fn push(&mut self, alloc: Global, node: Node) -> Result<(), Mem>
        requires { ¬ Contains self.old node }
        ensures ok { OnOk result (self.new ≡ self.old ++ node ∷ []) }
        ensures err { OnErr result (self.new ≡ self.old) }
    {
        match ready(alloc, &mut self.names, &mut self.keys, &node) {
            Ok(name) => {
                put_key(&mut self.keys, Key { name, node });
                Ok(())
            }
            Err(e) => {
                drop(node);
                Err(e)
            }
        }
    }

    // Puts two nodes last that aren't there; refused, neither.
    pub(crate) fn push_both(&mut self, alloc: Global, first: Node, second: Node) -> Result<(), Mem>
        requires first { ¬ Contains self.old first }
        requires second { ¬ Contains (self.old ++ first ∷ []) second }
        ensures ok { OnOk result (self.new ≡ (self.old ++ first ∷ []) ++ second ∷ []) }
        ensures err { OnErr result (self.new ≡ self.old) }
    {
        match ready_both(alloc, &mut self.names, &mut self.keys, &first, &second) {
            Ok((name, other)) => {
                put_key(&mut self.keys, Key { name, node: first });
                let key = Key {
                    name: other,
                    node: second,
                };
                put_key(&mut self.keys, key);
                Ok(())
            }
            Err(e) => {
                drop(first);
                drop(second);
                Err(e)
            }
        }
    }
}
