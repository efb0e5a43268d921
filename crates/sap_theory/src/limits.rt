//! What a theory that is read keeps to.
use sap_grammar::Limits;
use sap_terms::{MOST_TERM_LEVELS, MOST_THEORY_NAME_BYTES};

/// The limits of a theory: the longest name and the most levels of a term and of a formula, of which a theory may have equally many.
/// The nodes of a term are not limited.
pub const THEORY_LIMITS: Limits = Limits {
    name_bytes: MOST_THEORY_NAME_BYTES,
    term_levels: MOST_TERM_LEVELS as u32,
    term_nodes: None,
    formula_levels: MOST_TERM_LEVELS as u32,
};
