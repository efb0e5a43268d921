//! Where the fault of a formula stands.
ghost use Rattle.std.specs.Prelude.{◌≡◌, ◌≤◌, ◌↔◌, ◌||◌, IsTrue, ℕ, true, codes, List, [], None, IfOk, IfSome, MatchOption, length, drop};
ghost use Rattle.std.specs.List.{All};
ghost use Rattle.sap_text.specs.Spans.{IsWithin};
ghost use Rattle.sap_formula.specs.Faults.{HasNoFault, IsFirstFault, told};
ghost use Rattle.sap_formula.specs.declared.fault.FormulaFlaw.{FormulaFlaw};
ghost use Rattle.sap_grammar.specs.Words.{starts, words_of};
ghost use Rattle.sap_read.specs.FileTokens.{HasTokens};
ghost use Rattle.sap_read.specs.WrittenFiles.{IsWrittenFile};
ghost use Rattle.sap_statements.specs.Statements.{formula_of};
ghost use Rattle.sap_read_places.specs.PartPlaces.{IsPartPlace};
ghost use Rattle.sap_read_places.specs.code.PartWalk.{IsDecided, IsFoundAt, IsFoundIn, IsToldIn};
ghost use Rattle.sap_read_places.specs.declared.told.Told.{Told as ToldOf};

use crate::late::stretch_before;
use crate::part_laws::part_places;
use crate::told::Told;
use sap_formula::{FormulaFault, check, one_fault};
use sap_formula_words::{faulty_word, statements_and_words};
use sap_grammar::{beyond, split_item, starts, words_are_cut};
use sap_origin::FileWord;
use sap_read::{WrittenFile, one_list_of_items};
use sap_statements::Statement;
use sap_terms::{Items, Mem, Name, Signature};
use sap_text::Token;
use std::alloc::Global;

// The fault that counts in the formula of a restriction or a lemma, if it has one.
fn first_fault(
    alloc: Global,
    sig: &Signature,
    statement: &Statement,
) -> Result<Option<FormulaFault>, Mem>
    ensures { IfOk result (λ o. MatchOption o (HasNoFault sig.now true (formula_of statement.now))
        (λ e. (w : FormulaFlaw) × (n : List ℕ) × (e ≡ told w n)
        × IsFirstFault sig.now true (formula_of statement.now) w n)) }
{
    match check(alloc, sig, statement.formula(), true) {
        Ok(formula) => {
            drop(formula);
            Ok(None)
        }
        Err(FormulaFault::Mem) => Err(Mem),
        Err(fault) => Ok(Some(fault)),
    }
}

fn is_same_name(f: &Name, g: &Name) -> bool
    ensures { IsTrue result ↔ (f.now ≡ g.now) }
{
    f.as_bytes() == g.as_bytes()
}

// Whether two faults are one.
fn is_same_fault(fault: &FormulaFault, other: &FormulaFault) -> bool
    ensures { IsTrue result ↔ (fault.now ≡ other.now) }
{
    match (fault, other) {
        (FormulaFault::Mem, FormulaFault::Mem) => true,
        (FormulaFault::BadFunction { f }, FormulaFault::BadFunction { f: g }) => is_same_name(f, g),
        (FormulaFault::Destructor { f }, FormulaFault::Destructor { f: g }) => is_same_name(f, g),
        (FormulaFault::Reserved { fact: f }, FormulaFault::Reserved { fact: g }) => is_same_name(
            f, g,
        ),
        (FormulaFault::UnboundVar { var: f }, FormulaFault::UnboundVar { var: g }) => is_same_name(
            f, g,
        ),
        (FormulaFault::Unguarded { var: f }, FormulaFault::Unguarded { var: g }) => is_same_name(
            f, g,
        ),
        _ => false,
    }
}

// The word of a fault that counts in the formula of a statement, where that one has this name and the fault is the one that is sought.
#[allow(clippy::too_many_arguments)]
fn word_of_fault(
    sig: &Signature,
    bytes: &[u8],
    item: &[Token],
    behind: usize,
    statement: &Statement,
    found: &FormulaFault,
    name: &Name,
    fault: &FormulaFault,
) -> Option<FileWord>
    requires { (w : FormulaFlaw) × (n : List ℕ) × (found.now ≡ told w n)
        × IsFirstFault sig.now true (formula_of statement.now) w n }
    ensures { IsFoundAt sig.now bytes.now item.now behind statement.now name.now fault.now result }
{
    one_fault();
    statements_and_words();
    if !is_same_name(statement.name(), name) {
        return None;
    }
    if !is_same_fault(found, fault) {
        return None;
    }
    match faulty_word(sig, bytes, item, statement, found) {
        Some(left) => Some(FileWord { left, behind }),
        None => None,
    }
}

// Whether the formula of a statement has a fault, and its word.
#[allow(clippy::too_many_arguments)]
fn word_at(
    alloc: Global,
    sig: &Signature,
    bytes: &[u8],
    item: &[Token],
    behind: usize,
    statement: &Statement,
    name: &Name,
    fault: &FormulaFault,
) -> Result<Option<Option<FileWord>>, Mem>
    ensures { IfOk result (λ o. IsDecided sig.now bytes.now item.now behind statement.now name.now
        fault.now o) }
{
    match first_fault(alloc, sig, statement)? {
        Some(found) => {
            let word = word_of_fault(sig, bytes, item, behind, statement, &found, name, fault);
            drop(found);
            Ok(Some(word))
        }
        None => Ok(None),
    }
}

// Whether the item is a restriction or a lemma, by its first word.
fn is_stated(bytes: &[u8], item: &[Token]) -> bool
    ensures { result ≡ starts (codes "restriction") (words_of bytes.now item.now)
        || starts (codes "lemma") (words_of bytes.now item.now) }
{
    starts(bytes, item, "restriction") || starts(bytes, item, "lemma")
}

// The word of the first fault of a formula among the items that these tokens are, where it is the one that is sought.
fn word_in(
    alloc: Global,
    sig: &Signature,
    bytes: &[u8],
    tokens: &[Token],
    statements: &[Statement],
    name: &Name,
    fault: &FormulaFault,
) -> Result<Option<FileWord>, Mem>
    ensures { IfOk result (λ o. IsFoundIn sig.now bytes.now tokens.now statements.now name.now
        fault.now o) }
{
    one_fault();
    let mut rest = tokens;
    let mut later = statements;
    while !rest.is_empty() {
        let (item, behind) = split_item(bytes, rest);
        if starts(bytes, item, "end") {
            return Ok(None);
        }
        if is_stated(bytes, item) {
            let Some((statement, more)) = later.split_first() else {
                return Ok(None);
            };
            if let Some(word) = word_at(
                alloc,
                sig,
                bytes,
                item,
                behind.len(),
                statement,
                name,
                fault,
            )? {
                return Ok(word);
            }
            later = more;
        }
        rest = behind;
    }
    Ok(None)
}

// What is told of it.
#[allow(clippy::too_many_arguments)]
fn told_in(
    alloc: Global,
    sig: &Signature,
    bytes: &[u8],
    tokens: &[Token],
    statements: &[Statement],
    name: &Name,
    fault: &FormulaFault,
) -> Result<Option<Told>, Mem>
    ensures is { IfOk result (λ o. IsToldIn sig.now bytes.now tokens.now (drop 3 tokens.now) statements.now
        name.now fault.now o) }
    ensures inside { (size : ℕ) → All (IsWithin size) tokens.now
        → IfOk result (λ o. IfSome o (λ t. t.word.from ≤ size)) }
    ensures unused { IfOk result (λ o. IfSome o (λ t. t.uses ≡ [])) }
{
    match word_in(
        alloc,
        sig,
        bytes,
        beyond(3, tokens),
        statements,
        name,
        fault,
    )? {
        Some(word) => Ok(Some(Told {
            word: stretch_before(tokens, word),
            uses: Items::new(alloc),
        })),
        None => Ok(None),
    }
}

/// What is told of a fault of a formula: the word of the part that has it, in the first restriction or lemma whose formula has a fault,
/// if nothing refuses the file before its uses are looked at, that one has this name, and the fault is this one. The time is linear in
/// the tokens, but for names and for what `faulty_word` says of formulas. Want of memory is the only error.
pub(crate) fn part_told(
    alloc: Global,
    bytes: &[u8],
    tokens: &[Token],
    written: &WrittenFile,
    name: &Name,
    fault: &FormulaFault,
) -> Result<Option<Told>, Mem>
    requires tokens { HasTokens bytes.now tokens.now }
    requires written { IsWrittenFile bytes.now written.now }
    ensures place { IfOk result (λ o. IfSome o (λ t. IsPartPlace bytes.now name.now fault.now t)) }
    ensures inside { IfOk result (λ o. IfSome o (λ t. t.word.from ≤ length bytes.now)) }
    ensures unused { IfOk result (λ o. IfSome o (λ t. t.uses ≡ [])) }
    ensures none { IfOk result (λ o. o ≡ None → (t : ToldOf) → IsPartPlace bytes.now name.now fault.now t → ⊥) }
{
    words_are_cut();
    one_list_of_items();
    part_places();
    told_in(
        alloc,
        &written.declared.signature,
        bytes,
        tokens,
        written.statements.as_slice(),
        name,
        fault,
    )
}
