//! Restrictions and lemmas as text: the grammar and its readers.
#![tactic(auto)]

mod checking;
mod laws;
mod reading;
mod statement;

pub use checking::{Checked, Unchecked, check_statements};
pub use laws::{
    faultless_formulas_keep_signs, formulas_are_printable, formulas_by_hand, one_faulty_statement,
    one_statement, same_statements, some_statement, sorts_are_kept, statement_laws,
};
pub use reading::{read_stated, read_statement};
pub use statement::Statement;
