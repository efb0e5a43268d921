//! What a file keeps to.
use sap_grammar::Limits;
use sap_terms::{MOST_FILE_NAME_BYTES, MOST_TERM_LEVELS};

/// The limits of a file: the longest name and the most levels of a term and of a formula, of which a file may have equally many.
/// The nodes of a term are not limited.
pub const FILE_LIMITS: Limits = Limits {
    name_bytes: MOST_FILE_NAME_BYTES,
    term_levels: MOST_TERM_LEVELS as u32,
    term_nodes: None,
    formula_levels: MOST_TERM_LEVELS as u32,
};
