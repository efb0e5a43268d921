//! Which role a thread has by where it stands in what is written.
#![tactic(auto)]

mod cast_laws;
mod laws;
mod role;
mod script;

pub use cast_laws::casts_are_one;
pub use laws::{one_role, places_have_their_forms, roles_by_hand, roles_go_down};
pub use role::role_of;
pub use script::Script;
