//! Laws of the words of parts in restrictions and lemmas, as contracts of functions that do nothing.
ghost use Rattle.std.specs.Prelude.{◌≡◌, ◌<◌, ℕ, List, All, length, codes};
ghost use Rattle.sap_terms.specs.Signature.{Sig};
ghost use Rattle.sap_formula.specs.declared.binder.Binder.{Binder};
ghost use Rattle.sap_formula.specs.Parts.{form_parts};
ghost use Rattle.sap_grammar.specs.Words.{Word};
ghost use Rattle.sap_grammar.specs.TermGrammar.{IsConstant};
ghost use Rattle.sap_grammar.specs.declared.limits.Limits.{Limits};
ghost use Rattle.sap_statements.specs.declared.statement.Statement.{Statement};
ghost use Rattle.sap_statements.specs.Statements.{IsStatement, formula_of};
ghost use Rattle.sap_formula_words.specs.StatementWords.{statement_words, HasStatementWords};
ghost use Rattle.sap_formula_words.specs.Examples.{one_of, lemma_words, a_lemma, restriction_words, a_restriction, limits};

use sap_node_words::nodes_and_words;

/// A law: the parts of the formula of a restriction or lemma have one word each, which is a word of the item but neither its first
/// nor its last, and however the item is spelled they have the same; and two worked examples, of words that are no part of the
/// formula too.
pub fn statements_and_words()
    ensures parts { (g : Sig) (m : Limits) (s : Statement) (a : List Word) (r : IsStatement g m s a)
        (scope : List Binder) → length (statement_words r) ≡ length (form_parts scope (formula_of s)) }
    ensures within { (g : Sig) (m : Limits) (s : Statement) (a : List Word) (r : IsStatement g m s a)
        → All (λ k. (1 < k) × (k < length a)) (statement_words r) }
    ensures same { (g h : Sig) (m l : Limits) (s : Statement) (a : List Word)
        (r : IsStatement g m s a) (t : IsStatement h l s a) → statement_words r ≡ statement_words t }
    ensures claimed { (g : Sig) → (IsConstant g (codes "T") → ⊥)
        → HasStatementWords g limits a_lemma lemma_words (one_of 2) }
    ensures not_claimed { (g : Sig) → (IsConstant g (codes "T") → ⊥)
        → HasStatementWords g limits a_lemma lemma_words (one_of 6) → ⊥ }
    ensures restricted { (g : Sig) → (IsConstant g (codes "T") → ⊥)
        → HasStatementWords g limits a_restriction restriction_words (one_of 2) }
    ensures not_restricted { (g : Sig) → (IsConstant g (codes "T") → ⊥)
        → HasStatementWords g limits a_restriction restriction_words (one_of 1) → ⊥ }
{
    nodes_and_words();
}
