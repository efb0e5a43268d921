//! The places of a process, and the facts that say where control is.
#![tactic(auto)]

mod laws;
mod place;
mod scoping;
mod state;
mod walking;

pub use laws::{facts_by_hand, facts_name_their_places, places_by_hand};
pub use place::{Form, Place, PlaceList};
pub use scoping::{lock_var, with_lock, with_pattern, with_rule, with_var};
pub use state::{
    copies_at, path_below, semi_fact, state_at, state_below, state_fact, tag, waits_at, with_digits,
};
pub use walking::places;
