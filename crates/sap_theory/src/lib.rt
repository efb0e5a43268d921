//! Theories as text.
#![tactic(auto)]

mod checking;
mod fault;
mod laws;
mod limits;
mod pieces;
mod read;
mod reading;
mod rules;
mod signature;
mod statements;
mod theory;

pub use fault::TheoryFault;
pub use laws::{
    one_answer_of_theories, one_theory, printed_theories, printed_theories_are_read,
    read_theories_are_printable, read_theories_are_spelled, shallow_theories_are_read, some_theory,
    spelled_theories_are_read,
};
pub use limits::THEORY_LIMITS;
pub use read::read_theory;
pub use theory::print;
