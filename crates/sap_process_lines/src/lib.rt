//! Lines of a process, as a conversion writes them for lines of rules, by its tables alone.
#![tactic(auto)]

mod cited;
mod desk;
mod kind;
mod knowing;
mod rules;

pub use desk::Desk;
