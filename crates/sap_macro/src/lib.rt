//! Definitions of processes with parameters: which processes are equal up to names, new names, and expansions.
#![tactic(auto)]

mod below;
mod binders;
mod building;
mod by_hand;
mod chosen;
mod definition;
mod ending_laws;
mod ends;
mod heads;
mod index;
mod laws;
mod seeing;
mod sizes;
mod sorting_laws;
mod source;
mod standing;
mod written_files;
mod written_laws;

pub use building::build;
pub use by_hand::{
    alike_configurations_by_hand, equal_up_to_names_by_hand, expansions_by_hand,
    macro_causes_by_hand, written_runs_by_hand,
};
pub use definition::{Definition, DefinitionList};
pub use ending_laws::{chains_have_one_end, ends_by_hand};
pub use ends::{Ends, definition_with_end, end_of, ends_of};
pub use index::{Index, definition_named, index_of};
pub use laws::{
    alike_configurations_show_the_same, expansions_are_one, located_is_written,
    new_names_are_least, new_names_are_short, plain_files_stay, plain_names_stand_for_bodies,
    plain_uses_have_parameters, same_up_to_names_is_symmetric_and_transitive,
    same_up_to_names_show_the_same, sizes_are_one, uses_are_instances, uses_show_their_instances,
};
pub use seeing::{seen, seen_by};
pub use sizes::{Size, expanded_size, use_sizes};
pub use sorting_laws::{
    arguments_by_hand, plain_bodies_are_in_order, sorted_by_hand, sorting_keeps_scopes,
    sorts_are_exchanged,
};
pub use source::{Doing, Source};
pub use written_files::{arguments_of_files_by_hand, files_by_hand_as_written};
pub use written_laws::{what_is_written_runs_as_its_expansion, written_heads_are_one};
