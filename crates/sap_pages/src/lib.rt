//! Texts that tell how the program is called.
#![tactic(auto)]

mod laws;
mod pages;
mod texts;

pub use laws::{one_page, pages_by_hand};
pub use pages::{commands, page_of, version};
