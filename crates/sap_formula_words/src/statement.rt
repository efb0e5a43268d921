//! The words of the formula of a restriction or a lemma.
ghost use Rattle.std.specs.Prelude.{◌≡◌, ℕ, Bool, List, slice_get};
ghost use Rattle.sap_terms.specs.Signature.{Sig};
ghost use Rattle.sap_formula.specs.Faults.{IsFirstFault, told};
ghost use Rattle.sap_formula.specs.declared.fault.FormulaFlaw.{FormulaFlaw};
ghost use Rattle.sap_grammar.specs.declared.limits.Limits.{Limits};
ghost use Rattle.sap_grammar.specs.Words.{words_of};
ghost use Rattle.sap_statements.specs.Statements.{IsStatement, formula_of};
ghost use Rattle.sap_formula_words.specs.StatementWords.{statement_words};
ghost use Rattle.sap_formula_words.specs.code.Walk.{behind_quotation};

use crate::faults::faulty_part;
use crate::terms::count;
use crate::walk::part_word;
use sap_formula::FormulaFault;
use sap_grammar::{beyond, starts};
use sap_node_words::nodes_and_words;
use sap_statements::Statement;
use sap_terms::Signature;
use sap_text::Token;

// Behind the first quotation mark.
#[tactic(auto, using(sap_grammar::proofs::ReadingLaws::Tokens::word_steps))]
fn behind_quotation<'a>(bytes: &[u8], tokens: &'a [Token]) -> &'a [Token]
    ensures { words_of bytes.now result.now ≡ behind_quotation (words_of bytes.now tokens.now) }
{
    let mut rest = tokens;
    while rest.len() > 0 && !starts(bytes, rest, "\"") {
        rest = beyond(1, rest);
    }
    beyond(1, rest)
}

/// The word of part number `part` of the formula of the statement that the tokens are, by how many of them are left from it on;
/// parts count from 0 in reading order. None where its formula has no such part. As `part_word` in time and stack.
pub fn statement_part_word(
    bytes: &[u8],
    item: &[Token],
    statement: &Statement,
    part: usize,
) -> Option<usize>
    ensures { (g : Sig) (m : Limits) (r : IsStatement g m statement.now (words_of bytes.now item.now))
        → result ≡ slice_get (statement_words r) part }
{
    part_word(
        bytes,
        behind_quotation(bytes, item),
        statement.formula(),
        part,
    )
}

/// The word of the part that has the fault, where it is the one that counts in the formula of the statement that the tokens are, by
/// how many of them are left from it on. As `faulty_part` and `part_word` in time and stack.
pub fn faulty_word(
    sig: &Signature,
    bytes: &[u8],
    item: &[Token],
    statement: &Statement,
    fault: &FormulaFault,
) -> Option<usize>
    ensures { (g : Sig) (m : Limits) (reserved : Bool) (w : FormulaFlaw) (n : List ℕ)
        (r : IsStatement g m statement.now (words_of bytes.now item.now)) → fault.now ≡ told w n
        → (first : IsFirstFault sig.now reserved (formula_of statement.now) w n)
        → result ≡ slice_get (statement_words r) first.at }
{
    nodes_and_words();
    // a formula has no more parts than words
    let _count = count(item);
    match faulty_part(sig, statement.formula(), fault) {
        Some(part) => statement_part_word(bytes, item, statement, part),
        None => None,
    }
}
