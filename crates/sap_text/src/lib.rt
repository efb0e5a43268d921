//! The tokens of a file's bytes, and a text that is built piece by piece.
#![tactic(auto)]

mod bytes;
mod fault;
mod front;
mod laws;
mod lexer;
mod symbol;
mod text;
mod token;

pub use bytes::{Class, run_len};
pub use fault::Lex;
pub use laws::{
    lines_are_counted, longest_is_taken, longest_tokens, one_answer, some_answer, spans_are_tokens,
    spans_in_order,
};
pub use lexer::{token_bytes, tokens};
pub use text::Text;
pub use token::{Kind, Token};
