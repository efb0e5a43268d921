//! What a formula of a file is.
use sap_formula::Mode;

/// A formula of a file is a restriction, or a lemma of one of two modes.
#[derive(Clone, Copy)]
pub enum Statement {
    Restriction,
    Lemma(Mode),
}
