//! The lines that refuse theories.

ghost use Rattle.std.specs.Prelude.{◌≡◌, codes, IfOk, IfSome};
ghost use Rattle.sap_theory.specs.declared.fault.TheoryFault.TheVariants as faults;
ghost use Rattle.sap_refusals.specs.Refusals.{refused_line};
ghost use Rattle.sap_refusals.specs.TheoryRefusals.{theory_fault_text};
ghost use Rattle.sap_refusals.specs.code.Words.{words_text};

use crate::fault_text::lex_words;
use crate::file_lines::line_of;
use crate::words::{Words, begun};
use sap_terms::Mem;
use sap_text::Text;
use sap_theory::TheoryFault;
use std::alloc::Global;

/// The line that refuses a theory of too many bytes.
pub fn long_theory_line(alloc: Global) -> Result<Text, Mem>
    ensures { IfOk result (λ line. line ≡ refused_line (codes "longer than 16777216 bytes")) }
{
    begun(alloc, b"file refused: longer than 16777216 bytes\n")
}

/// The line that refuses a theory for this fault. Want of memory refuses none, and so has no line.
pub fn theory_line(alloc: Global, fault: &TheoryFault) -> Result<Text, Mem>
    ensures { IfOk result (λ line. (fault.now ≡ faults.Mem → ⊥) × (line ≡ refused_line (theory_fault_text fault.now))) }
{
    match theory_words(fault) {
        None => Err(Mem),
        Some(words) => line_of(alloc, &words),
    }
}

// Why bytes are read as no theory. Want of memory is no such cause.
fn theory_words<'a>(fault: &'a TheoryFault) -> Option<Words<'a>>
    ensures { IfSome result (λ words. (fault.now ≡ faults.Mem → ⊥)
        × (words_text words ≡ theory_fault_text fault.now)) }
{
    match fault {
        TheoryFault::Mem => None,
        TheoryFault::Lex(fault) => Some(lex_words(*fault, b" is longer than 400 bytes")),
        TheoryFault::Header => Some(Words::Plain(b"no theory header")),
        TheoryFault::Syntax { line } => Some(Words::Numbered(
            b"line ",
            *line,
            b": not in the grammar",
        )),
        TheoryFault::DuplicateName { name } => Some(Words::Named(b"name ", name, b" stands twice")),
        TheoryFault::FunctionClash { name } => Some(Words::Named(
            b"function ",
            name,
            b" is declared otherwise",
        )),
        TheoryFault::BadFunction { name } => Some(Words::Named(b"rule ", name, b": bad function")),
        TheoryFault::BadRule { name } => Some(Words::Named(b"rule ", name, b": bad rule")),
        TheoryFault::Formula { name, fault } => Some(Words::Formula(name, fault)),
    }
}
