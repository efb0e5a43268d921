//! What to write at a word, by the words round it.
ghost use Rattle.std.specs.Prelude.{◌≡◌, drop, map};
ghost use Rattle.std.specs.Option.{option_copied, option_or};
ghost use Rattle.std.specs.List.{list_any};
ghost use Rattle.sap_grammar.specs.Words.{is_lower, is_upper, starts, words_of};
ghost use Rattle.sap_cures.specs.WordCures.{closed_cure, first_cure, fits, formula_cure, is_end, is_first, is_such, is_word, item_cure, opened, passes, process_cure, word_cure};
ghost use Rattle.sap_cures.specs.Tests.{simple};
ghost use Rattle.sap_cures.specs.ItemRows.{declaration_rows, head_rows, other_item_rows};
ghost use Rattle.sap_cures.specs.FormulaRows.{fact_rows, sign_rows};
ghost use Rattle.sap_cures.specs.ProcessRows.{closed_rows, condition_rows, end_rows, parenthesis_rows, term_rows};
ghost use Rattle.sap_cures.specs.code.Views.{row_of, test_of, text_of};

use crate::formula_rows::{FACT_ROWS, SIGN_ROWS};
use crate::item_rows::{DECLARATION_ROWS, HEAD_ROWS, OTHER_ITEM_ROWS};
use crate::process_rows::{CLOSED_ROWS, CONDITION_ROWS, END_ROWS, PARENTHESIS_ROWS, TERM_ROWS};
use crate::test::{Test, WordRow};
use sap_grammar::{beyond, is_lower, is_upper, name_at, names, number_at, quoted_at, starts};
use sap_text::Token;

// Whether this sign, reserved word or name stands first.
fn is_word(bytes: &[u8], tokens: &[Token], word: &str) -> bool
    ensures { result ≡ is_word word.now (words_of bytes.now tokens.now) }
{
    starts(bytes, tokens, word) || names(bytes, tokens, word)
}

// Whether one of these does.
fn is_one(bytes: &[u8], tokens: &[Token], words: &[&str]) -> bool
    ensures { result ≡ list_any (λ w. is_word w (words_of bytes.now tokens.now)) (map text_of words.now) }
{
    for word in words {
        if is_word(bytes, tokens, word) {
            return true;
        }
    }
    false
}

fn is_small(name: Option<&[u8]>) -> bool
    ensures { result ≡ is_such is_lower (option_copied name.entry) }
{
    match name {
        Some(name) => is_lower(name),
        None => false,
    }
}

fn is_capital(name: Option<&[u8]>) -> bool
    ensures { result ≡ is_such is_upper (option_copied name.entry) }
{
    match name {
        Some(name) => is_upper(name),
        None => false,
    }
}

// Whether a name or a name in quotes stands first.
fn is_simple(bytes: &[u8], tokens: &[Token]) -> bool
    ensures { result ≡ is_first simple (words_of bytes.now tokens.now) }
{
    name_at(bytes, tokens).is_some() || quoted_at(bytes, tokens).is_some()
}

fn is_end(bytes: &[u8], tokens: &[Token]) -> bool
    ensures { result ≡ is_end (words_of bytes.now tokens.now) }
{
    match tokens.split_first() {
        Some(_) => false,
        None => true,
    }
}

// Whether the first word passes the test.
fn is_first(bytes: &[u8], tokens: &[Token], test: Test) -> bool
    ensures { result ≡ is_first (test_of test) (words_of bytes.now tokens.now) }
{
    match test {
        Test::Is(word) => is_word(bytes, tokens, word),
        Test::OneOf(words) => is_one(bytes, tokens, words),
        Test::Name => name_at(bytes, tokens).is_some(),
        Test::Small => is_small(name_at(bytes, tokens)),
        Test::Capital => is_capital(name_at(bytes, tokens)),
        Test::Number => number_at(bytes, tokens).is_some(),
        Test::Quoted => quoted_at(bytes, tokens).is_some(),
        Test::Simple => is_simple(bytes, tokens),
        Test::Any => !is_end(bytes, tokens),
        Test::End => is_end(bytes, tokens),
    }
}

// The tokens behind the first n.
#[tactic(auto, using(sap_grammar::proofs::ReadingLaws::Tokens::word_steps))]
fn behind<'a>(bytes: &[u8], tokens: &'a [Token], n: usize) -> &'a [Token]
    ensures { words_of bytes.now result.now ≡ drop n (words_of bytes.now tokens.now) }
{
    beyond(n, tokens)
}

// Whether the words pass the tests, the first the first, and so on.
fn passes(bytes: &[u8], tokens: &[Token], tests: &[Test]) -> bool
    ensures { result ≡ passes (map test_of tests.now) (words_of bytes.now tokens.now) }
{
    let mut left = tokens;
    for test in tests {
        if !is_first(bytes, left, *test) {
            return false;
        }
        left = behind(bytes, left, 1);
    }
    true
}

// Whether those from number `at` on do.
fn pass_at(bytes: &[u8], tokens: &[Token], at: usize, tests: &[Test]) -> bool
    ensures { result ≡ passes (map test_of tests.now) (drop at (words_of bytes.now tokens.now)) }
{
    passes(bytes, behind(bytes, tokens, at), tests)
}

// Whether the row fits before token number k and at token number `at`.
fn fits(bytes: &[u8], tokens: &[Token], k: usize, at: usize, row: &WordRow) -> bool
    ensures { result ≡ fits (words_of bytes.now tokens.now) k at (row_of row.now) }
{
    row.before.len() <= k
        && pass_at(
            bytes,
            tokens,
            k.saturating_sub(row.before.len()),
            row.before,
        )
        && pass_at(bytes, tokens, at, row.from)
}

// What the first of the rows says that fits.
fn first_cure(
    bytes: &[u8],
    tokens: &[Token],
    k: usize,
    at: usize,
    rows: &'static [WordRow],
) -> Option<&'static str>
    ensures { option_copied result ≡ first_cure (words_of bytes.now tokens.now) k at (map row_of rows.now) }
{
    for row in rows {
        if fits(bytes, tokens, k, at, row) {
            return Some(row.cure);
        }
    }
    None
}

// Whether this sign stands first from token number k on.
fn stands_at(bytes: &[u8], tokens: &[Token], k: usize, sign: &str) -> bool
    ensures { result ≡ starts sign.now (drop k (words_of bytes.now tokens.now)) }
{
    starts(bytes, behind(bytes, tokens, k), sign)
}

// The number of the token that opens the parenthesis that is closed right before token number `at`.
fn opened(bytes: &[u8], tokens: &[Token], at: usize) -> Option<usize>
    ensures { result ≡ opened (words_of bytes.now tokens.now) at }
{
    if !stands_at(bytes, tokens, at.saturating_sub(1), ")") {
        return None;
    }
    let mut k = at;
    let mut closed: usize = 0;
    while k > 0 {
        k -= 1;
        if stands_at(bytes, tokens, k, ")") {
            closed += 1;
        } else if stands_at(bytes, tokens, k, "(") {
            if closed <= 1 {
                return Some(k);
            }
            closed -= 1;
        }
    }
    None
}

#[tactic(auto, unfolding(crate::specs::ItemRows::head_rows))]
fn all_head_rows() -> &'static [WordRow]
    ensures { map row_of result.now ≡ head_rows }
{
    HEAD_ROWS
}

#[tactic(auto, unfolding(crate::specs::ItemRows::declaration_rows))]
fn all_declaration_rows() -> &'static [WordRow]
    ensures { map row_of result.now ≡ declaration_rows }
{
    DECLARATION_ROWS
}

#[tactic(auto, unfolding(crate::specs::ItemRows::other_item_rows))]
fn all_other_item_rows() -> &'static [WordRow]
    ensures { map row_of result.now ≡ other_item_rows }
{
    OTHER_ITEM_ROWS
}

#[tactic(auto, unfolding(crate::specs::FormulaRows::sign_rows))]
fn all_sign_rows() -> &'static [WordRow]
    ensures { map row_of result.now ≡ sign_rows }
{
    SIGN_ROWS
}

#[tactic(auto, unfolding(crate::specs::FormulaRows::fact_rows))]
fn all_fact_rows() -> &'static [WordRow]
    ensures { map row_of result.now ≡ fact_rows }
{
    FACT_ROWS
}

#[tactic(auto, unfolding(crate::specs::ProcessRows::condition_rows))]
fn all_condition_rows() -> &'static [WordRow]
    ensures { map row_of result.now ≡ condition_rows }
{
    CONDITION_ROWS
}

#[tactic(auto, unfolding(crate::specs::ProcessRows::term_rows))]
fn all_term_rows() -> &'static [WordRow]
    ensures { map row_of result.now ≡ term_rows }
{
    TERM_ROWS
}

#[tactic(auto, unfolding(crate::specs::ProcessRows::parenthesis_rows))]
fn all_parenthesis_rows() -> &'static [WordRow]
    ensures { map row_of result.now ≡ parenthesis_rows }
{
    PARENTHESIS_ROWS
}

#[tactic(auto, unfolding(crate::specs::ProcessRows::closed_rows))]
fn all_closed_rows() -> &'static [WordRow]
    ensures { map row_of result.now ≡ closed_rows }
{
    CLOSED_ROWS
}

#[tactic(auto, unfolding(crate::specs::ProcessRows::end_rows))]
fn all_end_rows() -> &'static [WordRow]
    ensures { map row_of result.now ≡ end_rows }
{
    END_ROWS
}

// The first, or, where it is none, the second.
fn either(first: Option<&'static str>, second: Option<&'static str>) -> Option<&'static str>
    ensures { option_copied result ≡ option_or (option_copied first.entry) (option_copied second.entry) }
{
    match first {
        Some(cure) => Some(cure),
        None => second,
    }
}

fn item_cure(bytes: &[u8], tokens: &[Token], at: usize) -> Option<&'static str>
    ensures { option_copied result ≡ item_cure (words_of bytes.now tokens.now) at }
{
    either(
        first_cure(bytes, tokens, at, at, all_head_rows()),
        either(
            first_cure(bytes, tokens, at, at, all_declaration_rows()),
            first_cure(bytes, tokens, at, at, all_other_item_rows()),
        ),
    )
}

fn formula_cure(bytes: &[u8], tokens: &[Token], at: usize) -> Option<&'static str>
    ensures { option_copied result ≡ formula_cure (words_of bytes.now tokens.now) at }
{
    either(
        first_cure(bytes, tokens, at, at, all_sign_rows()),
        first_cure(bytes, tokens, at, at, all_fact_rows()),
    )
}

// What the first row says that fits before a parenthesis that is closed right before the token, and at the token.
fn closed_cure(bytes: &[u8], tokens: &[Token], at: usize) -> Option<&'static str>
    ensures { option_copied result ≡ closed_cure (words_of bytes.now tokens.now) at (opened (words_of bytes.now tokens.now) at) }
{
    match opened(bytes, tokens, at) {
        Some(k) => first_cure(bytes, tokens, k, at, all_closed_rows()),
        None => None,
    }
}

fn process_cure(bytes: &[u8], tokens: &[Token], at: usize) -> Option<&'static str>
    ensures { option_copied result ≡ process_cure (words_of bytes.now tokens.now) at }
{
    either(
        first_cure(bytes, tokens, at, at, all_condition_rows()),
        either(
            first_cure(bytes, tokens, at, at, all_term_rows()),
            either(
                first_cure(bytes, tokens, at, at, all_parenthesis_rows()),
                either(
                    first_cure(bytes, tokens, at, at, all_end_rows()),
                    closed_cure(bytes, tokens, at),
                ),
            ),
        ),
    )
}

/// What to write at token number `at`, where the words round it look like another tool's way: what the first row says that fits. It is
/// meant for the first word with which the tokens begin no file's words any more, or for the end behind the last.
pub fn word_cure(bytes: &[u8], tokens: &[Token], at: usize) -> Option<&'static str>
    ensures { option_copied result ≡ word_cure (words_of bytes.now tokens.now) at }
{
    either(
        item_cure(bytes, tokens, at),
        either(
            formula_cure(bytes, tokens, at),
            process_cure(bytes, tokens, at),
        ),
    )
}
