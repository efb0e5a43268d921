//! Names, terms, facts, substitutions and signatures, on which everything else stands.
#![tactic(auto)]

mod binding;
mod boxes;
mod builtins;
mod fact;
mod items;
mod laws;
mod limits;
mod mem;
mod name;
mod name_map;
mod name_set;
mod named;
mod occurrences;
mod path;
mod reserved;
mod signature;
mod substitution;
mod term;
mod term_tests;
mod var;

pub use binding::{Binding, Bindings};
pub use boxes::{boxed, push_boxed};
pub use builtins::Builtins;
pub use fact::{Fact, FactList, Trace};
pub use items::{Copied, Items, Numbers};
pub use laws::{
    builtins_stay_held, destructors_head_left_sides, leaves_are_normal, limits_by_hand,
    names_are_messages,
};
pub use limits::{
    MOST_ARITY, MOST_FILE_NAME_BYTES, MOST_PROCESS_LEVELS, MOST_PROCESS_PLACES, MOST_SCOPE_NAMES,
    MOST_TERM_LEVELS, MOST_TERM_NODES, MOST_THEORY_NAME_BYTES,
};
pub use mem::Mem;
pub use name::{Name, NameList};
pub use name_map::NameMap;
pub use name_set::NameSet;
pub use named::{HasName, Named};
pub use occurrences::{push_all_vars, push_facts_vars, push_vars};
pub use path::Path;
pub use reserved::is_reserved;
pub use signature::{Builtin, SigFault, Signature, Symbol};
pub use substitution::subst;
pub use term::{Term, TermList};
pub use var::{Sort, Var, Vars};
