//! Terms, facts and formulas, as a file writes them.
ghost use Rattle.std.specs.Prelude.{ℕ, IfOk, IfSome, IfNone};
ghost use Rattle.sap_terms.specs.declared.fact.Fact.{Fact};
ghost use Rattle.sap_terms.specs.Tree.{Tree};
ghost use Rattle.sap_terms.specs.View.{tree};
ghost use Rattle.sap_grammar.specs.Words.{words_of};
ghost use Rattle.sap_grammar.specs.Places.{IsTermAt, IsFactAt};
ghost use Rattle.sap_formula.specs.Form.{Form};
ghost use Rattle.sap_formula.specs.View.{form};
ghost use Rattle.sap_formula_grammar.specs.FormulaGrammar.{IsFormulaAt};
ghost use Rattle.sap_draft.specs.declared.limits.TheConstants.{FILE_LIMITS};

use sap_draft::FILE_LIMITS;
use sap_formula::Formula;
use sap_terms::{Fact, Mem, Signature, Term};
use sap_text::Token;
use std::alloc::Global;

/// The term that the tokens spell from number `at`, counted from 0, and the number of the token behind it, which is no
/// `(`; None where they spell none of at most `MOST_TERM_LEVELS` levels. An identifier without sign is the constant of that
/// name where the signature holds one, and a variable otherwise. Nothing is asked of the tokens: each stands for the bytes
/// in its span. The work is linear in the tokens that are looked at.
pub fn read_term(
    alloc: Global,
    sig: &Signature,
    bytes: &[u8],
    tokens: &Vec<Token>,
    at: u64,
) -> Result<Option<(Term, u64)>, Mem>
    ensures found { IfOk result (λ o. IfSome o (λ r. IsTermAt FILE_LIMITS sig.now
        (words_of bytes.now tokens.now.items) at (tree r.0) r.1)) }
    ensures none { IfOk result (λ o. IfNone o ((t : Tree) (e : ℕ)
        → IsTermAt FILE_LIMITS sig.now (words_of bytes.now tokens.now.items) at t e → ⊥)) }
{
    sap_grammar::read_term(alloc, sig, FILE_LIMITS, bytes, tokens, at)
}

/// The fact that the tokens spell from number `at`, counted from 0, and the number of the token behind it, which is no `(`;
/// None where they spell none whose terms have at most `MOST_TERM_LEVELS` levels. The work is as that of `read_term`.
pub fn read_fact(
    alloc: Global,
    sig: &Signature,
    bytes: &[u8],
    tokens: &Vec<Token>,
    at: u64,
) -> Result<Option<(Fact, u64)>, Mem>
    ensures found { IfOk result (λ o. IfSome o (λ r. IsFactAt FILE_LIMITS sig.now
        (words_of bytes.now tokens.now.items) at r.0 r.1)) }
    ensures none { IfOk result (λ o. IfNone o ((f : Fact) (e : ℕ)
        → IsFactAt FILE_LIMITS sig.now (words_of bytes.now tokens.now.items) at f e → ⊥)) }
{
    sap_grammar::read_fact(alloc, sig, FILE_LIMITS, bytes, tokens, at)
}

/// The formula that the tokens spell from number `at`, counted from 0, and the number of the token behind it, which is a
/// closing quotation mark; None where they spell none of at most `MOST_TERM_LEVELS` levels, in its text and in its terms. Its
/// variables have the sorts of their signs, and `check` sets those of binders. The work is as that of `read_term`.
pub fn read_formula(
    alloc: Global,
    sig: &Signature,
    bytes: &[u8],
    tokens: &Vec<Token>,
    at: u64,
) -> Result<Option<(Formula, u64)>, Mem>
    ensures found { IfOk result (λ o. IfSome o (λ r. IsFormulaAt FILE_LIMITS sig.now
        (words_of bytes.now tokens.now.items) at (form r.0) r.1)) }
    ensures none { IfOk result (λ o. IfNone o ((f : Form) (e : ℕ)
        → IsFormulaAt FILE_LIMITS sig.now (words_of bytes.now tokens.now.items) at f e → ⊥)) }
{
    sap_formula_grammar::read_formula(alloc, sig, FILE_LIMITS, bytes, tokens, at)
}
