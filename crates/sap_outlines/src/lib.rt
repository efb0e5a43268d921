//! Which rules a process has: those of each form, as outlines.
#![tactic(auto)]

mod forms;
mod outline;

pub use forms::{init, outlines};
pub use outline::{Control, Outline, Part};
