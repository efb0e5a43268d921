//! Reads formulas.
ghost use Rattle.std.specs.Prelude.{◌≡◌, ◌-◌, ℕ, length, IfOk, IfSome, IfNone};
ghost use Rattle.sap_formula.specs.Form.{Form};
ghost use Rattle.sap_formula.specs.View.{form};
ghost use Rattle.sap_grammar.specs.Words.{words_of};
ghost use Rattle.sap_grammar.specs.Reading.{Gives};
ghost use Rattle.sap_formula_grammar.specs.FormulaGrammar.{IsFormulaAt};
ghost use Rattle.sap_formula_grammar.specs.FormulaReading.{short_formula};

mod atom;
mod binders;
mod build;
mod grammar;

use crate::formula::grammar::read_iff;
use crate::laws::formulas_are_read;
use sap_formula::Formula;
use sap_grammar::{Limits, beyond, starts};
use sap_terms::{Mem, Signature};
use sap_text::Token;
use std::alloc::Global;

/// The formula within the limits that the tokens begin with, and the tokens behind it; None where there is none. As
/// `read_formula` but for what stands behind it, which may be anything that doesn't go on with the formula.
#[tactic(auto, unfolding(sap_grammar::specs::Reading::after, crate::specs::FormulaReading::short_formula))]
pub fn read_short_formula<'a>(
    alloc: Global,
    sig: &Signature,
    limits: Limits,
    bytes: &[u8],
    tokens: &'a [Token],
) -> Result<Option<(Box<Formula>, &'a [Token])>, Mem>
    ensures { Gives bytes.now (λ f. form f.value) result (short_formula sig.now limits
        (words_of bytes.now tokens.now)) }
{
    let depth = limits.formula_levels as u64;
    match read_iff(alloc, sig, limits, bytes, depth, tokens)? {
        None => Ok(None),
        Some((measured, rest)) => Ok(Some((measured.formula, rest))),
    }
}

// The same in a box.
fn read_boxed(
    alloc: Global,
    sig: &Signature,
    limits: Limits,
    bytes: &[u8],
    tokens: &[Token],
    at: u64,
) -> Result<Option<(Box<Formula>, u64)>, Mem>
    ensures found { IfOk result (λ o. IfSome o (λ r. IsFormulaAt limits sig.now
        (words_of bytes.now tokens.now) at (form r.0.value) r.1)) }
    ensures none { IfOk result (λ o. IfNone o ((f : Form) (e : ℕ)
        → IsFormulaAt limits sig.now (words_of bytes.now tokens.now) at f e → ⊥)) }
{
    formulas_are_read();
    match read_short_formula(alloc, sig, limits, bytes, beyond(at as usize, tokens))? {
        None => Ok(None),
        Some((formula, rest)) => {
            if starts(bytes, rest, "\"") {
                Ok(Some((formula, (tokens.len() - rest.len()) as u64)))
            } else {
                Ok(None)
            }
        }
    }
}

/// The formula within the limits that the tokens spell from number `at`, counted from 0, and the number of the token behind it,
/// which is a closing quotation mark; None where they spell none. The formula is as it is written: each variable has the sort
/// of its sign. Nothing is asked of the tokens: each stands for the bytes in its span. The work is linear in the tokens that
/// are looked at, and it recurses some calls for each level that the limits allow.
pub fn read_formula(
    alloc: Global,
    sig: &Signature,
    limits: Limits,
    bytes: &[u8],
    tokens: &Vec<Token>,
    at: u64,
) -> Result<Option<(Formula, u64)>, Mem>
    ensures found { IfOk result (λ o. IfSome o (λ r. IsFormulaAt limits sig.now
        (words_of bytes.now tokens.now.items) at (form r.0) r.1)) }
    ensures none { IfOk result (λ o. IfNone o ((f : Form) (e : ℕ)
        → IsFormulaAt limits sig.now (words_of bytes.now tokens.now.items) at f e → ⊥)) }
{
    match read_boxed(alloc, sig, limits, bytes, tokens.as_slice(), at)? {
        None => Ok(None),
        Some((formula, end)) => Ok(Some((Box::into_inner(formula), end))),
    }
}
