//! The theory of a file, a shorter one that shows the same, and what they keep of the file.
#![tactic(auto)]

mod by_hand;
mod kept_examples;
mod laws;
mod lemma_examples;
mod settling;
mod short_laws;
mod short_theory;
mod shortening;
mod takers;
mod theory;
mod trace_examples;

pub use by_hand::short_rules_by_hand;
pub use kept_examples::{kept_by_hand, kept_inlined_by_hand};
pub use laws::{
    inlined_lemmas_hold, theories_are_closed, theories_are_named_apart, theories_are_printable,
    theories_keep_files, theories_pass_checks,
};
pub use lemma_examples::lemmas_by_hand;
pub use short_laws::{
    carried_rules_show_the_same, one_short_theory, short_rules_show_the_same,
    short_theories_are_printable, short_theories_keep_files, short_theories_pass_checks,
    shortenings_show_the_same,
};
pub use short_theory::shorten;
pub use theory::theory_of;
pub use trace_examples::short_traces_by_hand;
