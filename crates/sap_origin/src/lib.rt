//! By which written place, and through which uses, one comes to a place of an expansion.
#![tactic(auto)]

mod laws;
mod origin;
mod trail;

pub use laws::{
    bodies_use_earlier_names, expansions_are_meant, located_definitions_are_written,
    located_definitions_by_number, names_stand_for_definitions, one_written_place, places_by_hand,
    trails_are_uses,
};
pub use origin::{FileWord, Origin, number_of, origin_of, use_words};
pub use trail::{Replaced, Trail, Use, trail_of};
