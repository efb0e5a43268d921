//! The seven restrictions of a theory: which a process needs, what they say, and the guard that keeps a trace within them.
#![tactic(auto)]

mod choosing;
mod closing_laws;
mod formulas;
mod guard;
mod laws;
mod restrictions;
mod shape;
mod times;
mod uses;
mod which;

pub use choosing::needed;
pub use closing_laws::restrictions_are_closed;
pub use formulas::standard;
pub use guard::{Admit, Guard};
pub use laws::{
    needed_by_hand, one_restriction_breaks, restrictions_by_hand, restrictions_say_sentences,
};
pub use restrictions::{is_generated, needed_restrictions, restriction};
pub use sap_inline::{inline, inlining_keeps_lemmas};
pub use times::has_one_reserved;
pub use which::{Which, WhichList};
