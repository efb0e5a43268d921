//! Terms that are shared: each node has one number, and each number remembers its normal form's.
#![tactic(auto)]

mod env;
mod evaluate;
mod fits;
mod index;
mod intern;
mod key;
mod node;
mod nodes;
mod normal_on;
mod order;
mod put;
mod row;
mod shape;
mod side;
mod table;

pub use env::{Bound, Env};
pub use node::Node;
pub use order::Order;
pub use table::Table;
