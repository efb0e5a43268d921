//! Action atoms whose variables are slots: matched with facts of a trace, and their terms compared.
#![tactic(auto)]

mod agreeing;
mod atom;
mod digest;
mod matching;
mod moment;
mod showing;
mod sighted;

pub use atom::{AtomPlan, Marks, Value};
pub use matching::meets;
pub use moment::{Moment, Moments, moments_of};
pub use showing::{are_equal, is_shown, time_at};
pub use sighted::Sighted;
