// Which terms can be taken apart.
ghost use Rattle.std.specs.Prelude.{◌≡◌, ◌<◌, length};
ghost use Rattle.sap_terms.specs.Tree.{apply};
ghost use Rattle.sap_terms.specs.Equations.{aenc_name, app2};
ghost use Rattle.sap_share.specs.Shared.{tree_at};
ghost use Rattle.sap_derive.specs.code.Shapes.{IsShapeOf};

use sap_share::{Node, Table};
use sap_terms::Name;

// A term that can be taken apart, by the numbers of its parts.
#[derive(Clone, Copy)]
pub(crate) enum Shape {
    // A pair of these.
    Pair { first: u64, second: u64 },
    // A message under a key.
    Encrypted { message: u64, key: u64 },
    // A message under the public key of a secret.
    EncryptedTo { message: u64, secret: u64 },
    // A message that is signed openly.
    Signed { message: u64, key: u64 },
    // Any other.
    Other,
}

// The shape of a message under the key of a number, encrypted to the holder of a secret.
fn shape_under(table: &Table, message: u64, key: u64) -> Shape
    requires message { message < length table.now.trees }
    requires key { key < length table.now.trees }
    ensures { IsShapeOf table.now.trees (app2 aenc_name (tree_at table.now.trees message) (tree_at table.now.trees key)) result }
{
    match table.node(key) {
        Node::App(f, ks) => {
            if !f.is(b"pk") {
                return Shape::Other;
            }
            if ks.len() != 1 {
                return Shape::Other;
            }
            let secret = *ks.at(0);
            Shape::EncryptedTo { message, secret }
        }
        Node::Public(_) | Node::Fresh(_) => Shape::Other,
    }
}

// The shape of a symbol on two numbers.
fn shape_on(table: &Table, f: &Name, x: u64, y: u64) -> Shape
    requires first { x < length table.now.trees }
    requires second { y < length table.now.trees }
    ensures { IsShapeOf table.now.trees (app2 f.now (tree_at table.now.trees x) (tree_at table.now.trees y)) result }
{
    if f.is(b"pair") {
        return Shape::Pair {
            first: x,
            second: y,
        };
    }
    if f.is(b"senc") {
        return Shape::Encrypted { message: x, key: y };
    }
    if f.is(b"aenc") {
        return shape_under(table, x, y);
    }
    if f.is(b"revealSign") {
        return Shape::Signed { message: x, key: y };
    }
    Shape::Other
}

// The shape of the term of a number.
pub(crate) fn shape_of(table: &Table, n: u64) -> Shape
    requires { n < length table.now.trees }
    ensures { IsShapeOf table.now.trees (tree_at table.now.trees n) result }
{
    match table.node(n) {
        Node::App(f, ks) => {
            if ks.len() != 2 {
                return Shape::Other;
            }
            shape_on(table, f, *ks.at(0), *ks.at(1))
        }
        Node::Public(_) | Node::Fresh(_) => Shape::Other,
    }
}
