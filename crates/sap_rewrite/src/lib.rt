//! Normal forms, which decide the equational theory, and matching of patterns.
#![tactic(auto)]

mod cut;
mod laws;
mod matching;
mod message;
mod normal_form;
mod reduce;
mod within;

pub use cut::Cut;
pub use laws::{
    agreeing_choices_substitute, bindings_give_choices, each_term_has_a_normal_form,
    equality_is_kept, extensions_join, fitting_gives_messages, forms_are_messages,
    matching_around_is_modulo, matching_is_modulo, normal_forms_are_unique, normal_forms_decide,
    normal_terms_decide, patterns_stay, symbols_reduce_once, variables_named_once_stay_so,
};
pub use matching::{match_around, match_pattern};
pub use message::is_message;
pub use normal_form::{normal, same_modulo};
pub use within::normal_within;
