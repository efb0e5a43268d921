//! Names that a file's patterns take: in an argument of a use a name that a pattern behind it binds, and a pattern that is a variable in scope.
#![tactic(auto)]

mod binding;
mod desk;
mod flags;
mod head;
mod kind;
mod laws;
mod stretches;
mod told;
mod walk;

pub use kind::Kind;
pub use laws::{heads_by_hand, stretches_by_hand};
pub use told::told_stretches;
