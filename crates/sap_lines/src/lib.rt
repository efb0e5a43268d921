//! What written lines of processes mean, when they are refused, and the runs that they are.
#![tactic(auto)]

mod at;
mod by_hand;
mod fault;
mod form;
mod laws;
mod place;

pub use at::{At, at_line};
pub use by_hand::marks_of_runs_by_hand;
pub use fault::PFault;
pub use form::{Form, form_of};
pub use laws::{
    channels_are_one, each_run_can_be_written, limit_excludes, lines_are_steps,
    lines_have_one_answer, lines_have_some_answer, lines_look_at_one_entry, names_stand_in_runs,
    runs_match_exactly, sorts_are_one,
};
pub use place::{Place, Places, places_of};
