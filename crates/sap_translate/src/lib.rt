//! Why the rules of a process show what the process shows.
#![tactic(auto)]

mod by_hand;
mod laws;
mod names_by_hand;
mod place_laws;
mod relation_laws;

pub use by_hand::{rule_runs_by_hand, runs_by_hand, shown_by_hand, traces_by_hand};
pub use laws::{
    annotations_are_settled, needed_restrictions_suffice, rules_are_well_made, rules_go_by_places,
    rules_name_their_places, rules_show_the_process, sound_processes_are_shown,
};
pub use names_by_hand::owned_names_by_hand;
pub use place_laws::{
    patterns_are_plain, rules_are_found_by_name, rules_leave_open, terms_stand_under_choices,
};
pub use relation_laws::{process_steps_are_answered, rule_steps_are_followed};
