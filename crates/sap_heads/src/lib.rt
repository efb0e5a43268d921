//! What stands at the head of a process, under what is bound: terms evaluated, patterns fitted, rules used.
#![tactic(auto)]

mod bindings;
mod evaluating;
mod extending;
mod fitting;
mod forms;
mod meeting;
mod taking;
mod using;

pub use evaluating::{name_value, value, value_unless_large, values};
pub use extending::with_bound;
pub use fitting::terms_of_facts;
pub use forms::shown_form;
pub use meeting::met;
pub use taking::{fitted, received};
pub use using::used;
