//! Nodes as keys of a map.
ghost use Rattle.std.specs.Prelude.{◌≡◌};
ghost use Rattle.std.specs.List.{fold};
ghost use Rattle.sap_share.specs.code.Fed.{fed_node};

use crate::Node;
use indexmap::Equivalent;
use std::hash::{Hash, Hasher};

/// A node, and the number that a table gave its name. It is hashed by numbers alone, so no choice of names makes keys collide.
#[derive(PartialEq, Eq, Drop)]
pub(crate) struct Key {
    pub name: u64,
    pub node: Node,
}

/// What a key is looked for by, with its node lent.
#[derive(Clone, Copy, PartialEq, Eq)]
pub(crate) struct Sought<'a> {
    pub name: u64,
    pub node: &'a Node,
}

// Feeds a hasher the numbers of a node, with that of its name in place of the name.
fn feed<H: Hasher>(name: u64, node: &Node, state: &mut H)
    ensures { state.new ≡ fold H.write state.old (fed_node name node.now) }
{
    match node {
        Node::Public(_) => name.hash(state),
        Node::Fresh(k) => k.hash(state),
        Node::App(_, ks) => {
            name.hash(state);
            ks.hash(state);
        }
    }
}

impl Hash for Key {
    ghost use Rattle.std.proofs.Common.{ap};
    ghost use Rattle.sap_share.specs.code.Keys.{fed_key, key_decides};

    ghost hash_input = { fed_key };

    ghost respects_eq = { λ a b h. ap fed_key ((key_decides a b).0 h) };

    fn hash<H: Hasher>(&self, state: &mut H) {
        feed(self.name, &self.node, state);
    }
}

impl<'a> Hash for Sought<'a> {
    ghost use Rattle.std.proofs.Common.{ap};
    ghost use Rattle.sap_share.specs.code.Keys.{fed_key, key_sought, key_decides};

    ghost hash_input = { λ q. fed_key (key_sought q.name q.node.now) };

    ghost respects_eq = { λ a b h. ap fed_key ((key_decides (key_sought a.name a.node.now) (key_sought b.name b.node.now)).0 h) };

    fn hash<H: Hasher>(&self, state: &mut H) {
        feed(self.name, self.node, state);
    }
}

impl<'a> Equivalent<Key> for Sought<'a> {
    ghost use Rattle.std.proofs.Common.{ap};
    ghost use Rattle.sap_share.specs.code.Keys.{fed_key, key_eq, key_sought, key_decides, key_equiv};

    ghost equivalent = { λ q. key_eq (key_sought q.name q.node.now) };

    ghost respects_hash = { λ q k h. ap fed_key ((key_decides (key_sought q.name q.node.now) k).0 h) };

    ghost respects_eq = { λ q. key_equiv.congr (key_sought q.name q.node.now) };

    fn equivalent(&self, key: &Key) -> bool {
        self.name == key.name && *self.node == key.node
    }
}
