//! Reads restrictions and lemmas.
ghost use Rattle.std.specs.Prelude.{◌≡◌, codes, length, IfOk, IfSome, IfNone};
ghost use Rattle.sap_terms.specs.Signature.{Sig};
ghost use Rattle.sap_formula.specs.View.{form};
ghost use Rattle.sap_grammar.specs.Words.{words_of};
ghost use Rattle.sap_grammar.specs.Reading.{Gives, list_of};
ghost use Rattle.sap_statements.specs.Statements.{Statement, restriction, lemma, IsStatement};
ghost use Rattle.sap_statements.specs.Added.{IsStated};
ghost use Rattle.sap_statements.specs.code.StatementReading.{attribute, attributes, dashed, mode, quotation, claimed, a_restriction, a_lemma, statement};

use crate::laws::formula_laws;
use crate::statement::Statement;
use sap_formula::{Formula, Lemma, Mode, Restriction};
use sap_formula_grammar::read_short_formula;
use sap_grammar::{Limits, beyond, name_at, names, read_name, starts, term_laws};
use sap_terms::{Items, Mem, Name, NameList, Signature, boxed, push_boxed};
use sap_text::Token;
use std::alloc::Global;

fn read_attribute<'a>(
    alloc: Global,
    bytes: &[u8],
    tokens: &'a [Token],
) -> Result<Option<(Name, &'a [Token])>, Mem>
    ensures { Gives bytes.now (λ x. x) result (attribute (words_of bytes.now tokens.now)) }
{
    if names(bytes, tokens, "reuse")
        || names(bytes, tokens, "use_induction")
        || names(bytes, tokens, "sources")
    {
        read_name(alloc, bytes, tokens)
    } else {
        Ok(None)
    }
}

#[tactic(auto, using(crate::proofs::Lists::attribute_turns), unfolding(sap_grammar::specs::Reading::after))]
fn read_some_attributes<'a>(
    alloc: Global,
    bytes: &[u8],
    tokens: &'a [Token],
) -> Result<Option<(NameList, &'a [Token])>, Mem>
    ensures { Gives bytes.now (λ xs. xs) result (list_of (codes "]") attribute
        (length tokens.now) (words_of bytes.now tokens.now)) }
{
    let mut attributes = NameList::new(alloc);
    let mut rest = tokens;
    let mut turns = tokens.len();
    while turns > 0 {
        let Some((name, next)) = read_attribute(alloc, bytes, rest)? else {
            return Ok(None);
        };
        attributes.push(name)?;
        if starts(bytes, next, "]") {
            return Ok(Some((attributes, beyond(1, next))));
        }
        if !starts(bytes, next, ",") {
            return Ok(None);
        }
        rest = beyond(1, next);
        turns -= 1;
    }
    Ok(None)
}

#[tactic(auto, using(sap_grammar::proofs::ReadingLaws::Tokens::word_steps))]
fn read_attributes<'a>(
    alloc: Global,
    bytes: &[u8],
    tokens: &'a [Token],
) -> Result<Option<(NameList, &'a [Token])>, Mem>
    ensures { Gives bytes.now (λ xs. xs) result (attributes (words_of bytes.now tokens.now)) }
{
    if starts(bytes, tokens, "[") {
        read_some_attributes(alloc, bytes, beyond(1, tokens))
    } else {
        Ok(Some((NameList::new(alloc), tokens)))
    }
}

// Whether these names stand first, with `-` between them.
#[tactic(auto, using(sap_grammar::proofs::ReadingLaws::Tokens::word_steps))]
fn is_dashed(bytes: &[u8], tokens: &[Token], first: &str, second: &str) -> bool
    ensures { result ≡ dashed first.now second.now (words_of bytes.now tokens.now) }
{
    names(bytes, tokens, first)
        && starts(bytes, beyond(1, tokens), "-")
        && names(bytes, beyond(2, tokens), second)
}

#[tactic(auto, using(sap_grammar::proofs::ReadingLaws::Tokens::word_steps))]
fn read_mode<'a>(bytes: &[u8], tokens: &'a [Token]) -> (Mode, &'a [Token])
    ensures mode { result.0 ≡ (mode (words_of bytes.now tokens.now)).0 }
    ensures rest { words_of bytes.now result.1.now ≡ (mode (words_of bytes.now tokens.now)).1 }
{
    if is_dashed(bytes, tokens, "all", "traces") {
        (Mode::AllTraces, beyond(3, tokens))
    } else if is_dashed(bytes, tokens, "exists", "trace") {
        (Mode::ExistsTrace, beyond(3, tokens))
    } else {
        (Mode::AllTraces, tokens)
    }
}

#[tactic(auto, using(sap_grammar::proofs::ReadingLaws::Tokens::word_steps), unfolding(sap_grammar::specs::Reading::after, sap_grammar::specs::Reading::past))]
fn read_quotation<'a>(
    alloc: Global,
    sig: &Signature,
    limits: Limits,
    bytes: &[u8],
    tokens: &'a [Token],
) -> Result<Option<(Box<Formula>, &'a [Token])>, Mem>
    ensures { Gives bytes.now (λ f. form f.value) result (quotation sig.now limits
        (words_of bytes.now tokens.now)) }
{
    if !starts(bytes, tokens, "\"") {
        return Ok(None);
    }
    match read_short_formula(alloc, sig, limits, bytes, beyond(1, tokens))? {
        None => Ok(None),
        Some((formula, rest)) => {
            if starts(bytes, rest, "\"") {
                Ok(Some((formula, beyond(1, rest))))
            } else {
                Ok(None)
            }
        }
    }
}

fn restriction(alloc: Global, name: &[u8], formula: Box<Formula>) -> Result<Box<Statement>, Mem>
    ensures { IfOk result (λ s. s.value ≡ restriction (record { name = name.now; formula = form formula.value })) }
{
    let name = Name::from_bytes(alloc, name)?;
    boxed(
        alloc,
        Statement::Restriction(Restriction {
            name,
            formula: Box::into_inner(formula),
        }),
    )
}

fn lemma(
    alloc: Global,
    name: &[u8],
    attributes: NameList,
    mode: Mode,
    formula: Box<Formula>,
) -> Result<Box<Statement>, Mem>
    ensures { IfOk result (λ s. s.value ≡ lemma (record { name = name.now; attributes = attributes; mode = mode; formula = form formula.value })) }
{
    let name = Name::from_bytes(alloc, name)?;
    boxed(
        alloc,
        Statement::Lemma(Lemma {
            name,
            attributes,
            mode,
            formula: Box::into_inner(formula),
        }),
    )
}

#[tactic(auto, using(sap_grammar::proofs::ReadingLaws::Tokens::word_steps), unfolding(sap_grammar::specs::Reading::after, sap_grammar::specs::Reading::given, sap_grammar::specs::Reading::past))]
fn read_restriction<'a>(
    alloc: Global,
    sig: &Signature,
    limits: Limits,
    bytes: &[u8],
    tokens: &'a [Token],
) -> Result<Option<(Box<Statement>, &'a [Token])>, Mem>
    ensures { Gives bytes.now (λ s. s.value) result (a_restriction sig.now limits
        (words_of bytes.now tokens.now)) }
{
    let Some(name) = name_at(bytes, tokens) else {
        return Ok(None);
    };
    let rest = beyond(1, tokens);
    if !starts(bytes, rest, ":") {
        return Ok(None);
    }
    match read_quotation(alloc, sig, limits, bytes, beyond(1, rest))? {
        None => Ok(None),
        Some((formula, rest)) => {
            let statement = restriction(alloc, name, formula)?;
            Ok(Some((statement, rest)))
        }
    }
}

#[tactic(auto, using(sap_grammar::proofs::ReadingLaws::Tokens::word_steps), unfolding(sap_grammar::specs::Reading::after, sap_grammar::specs::Reading::past))]
fn read_claimed<'a>(
    alloc: Global,
    sig: &Signature,
    limits: Limits,
    bytes: &[u8],
    name: &[u8],
    attributes: NameList,
    tokens: &'a [Token],
) -> Result<Option<(Box<Statement>, &'a [Token])>, Mem>
    ensures { Gives bytes.now (λ s. s.value) result (claimed sig.now limits name.now attributes
        (words_of bytes.now tokens.now)) }
{
    if !starts(bytes, tokens, ":") {
        return Ok(None);
    }
    let (mode, rest) = read_mode(bytes, beyond(1, tokens));
    match read_quotation(alloc, sig, limits, bytes, rest)? {
        None => Ok(None),
        Some((formula, rest)) => {
            let statement = lemma(alloc, name, attributes, mode, formula)?;
            Ok(Some((statement, rest)))
        }
    }
}

#[tactic(auto, using(sap_grammar::proofs::ReadingLaws::Tokens::word_steps), unfolding(sap_grammar::specs::Reading::after, sap_grammar::specs::Reading::given))]
fn read_lemma<'a>(
    alloc: Global,
    sig: &Signature,
    limits: Limits,
    bytes: &[u8],
    tokens: &'a [Token],
) -> Result<Option<(Box<Statement>, &'a [Token])>, Mem>
    ensures { Gives bytes.now (λ s. s.value) result (a_lemma sig.now limits
        (words_of bytes.now tokens.now)) }
{
    let Some(name) = name_at(bytes, tokens) else {
        return Ok(None);
    };
    match read_attributes(alloc, bytes, beyond(1, tokens))? {
        None => Ok(None),
        Some((attributes, rest)) => {
            read_claimed(alloc, sig, limits, bytes, name, attributes, rest)
        }
    }
}

#[tactic(auto, using(sap_grammar::proofs::ReadingLaws::Tokens::word_steps))]
fn read_any<'a>(
    alloc: Global,
    sig: &Signature,
    limits: Limits,
    bytes: &[u8],
    tokens: &'a [Token],
) -> Result<Option<(Box<Statement>, &'a [Token])>, Mem>
    ensures { Gives bytes.now (λ s. s.value) result (statement sig.now limits
        (words_of bytes.now tokens.now)) }
{
    if starts(bytes, tokens, "restriction") {
        read_restriction(alloc, sig, limits, bytes, beyond(1, tokens))
    } else if starts(bytes, tokens, "lemma") {
        read_lemma(alloc, sig, limits, bytes, beyond(1, tokens))
    } else {
        Ok(None)
    }
}

/// The restriction or lemma within the limits that the tokens spell, all of them, its formula as it is written: each variable
/// has the sort of its sign. None where they spell none, under any signature. The work is linear in the tokens, and it recurses
/// some calls for each level that the limits allow.
pub fn read_statement(
    alloc: Global,
    sig: &Signature,
    limits: Limits,
    bytes: &[u8],
    item: &[Token],
) -> Result<Option<Box<Statement>>, Mem>
    ensures found { IfOk result (λ o. IfSome o (λ s. IsStatement sig.now limits s.value
        (words_of bytes.now item.now))) }
    ensures none { IfOk result (λ o. IfNone o ((h : Sig) (s : Statement)
        → IsStatement h limits s (words_of bytes.now item.now) → ⊥)) }
{
    term_laws();
    formula_laws();
    match read_any(alloc, sig, limits, bytes, item)? {
        None => Ok(None),
        Some((statement, rest)) => {
            if rest.is_empty() {
                Ok(Some(statement))
            } else {
                Ok(None)
            }
        }
    }
}

/// Reads a restriction or a lemma, as `read_statement`, and puts it last; false where the tokens are none.
pub fn read_stated(
    alloc: Global,
    sig: &Signature,
    limits: Limits,
    bytes: &[u8],
    item: &[Token],
    statements: &mut Items<Statement>,
) -> Result<bool, Mem>
    ensures { IfOk result (λ b. IsStated sig.now limits bytes.now item.now
        statements.old statements.new b) }
{
    match read_statement(alloc, sig, limits, bytes, item)? {
        None => Ok(false),
        Some(statement) => {
            push_boxed(statements, statement)?;
            Ok(true)
        }
    }
}
