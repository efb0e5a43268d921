//! What is so of restrictions and lemmas as text, and of their formulas.
ghost use Rattle.std.specs.Prelude.{◌≡◌, ◌≤◌, ◌⊎◌, ℕ, Bool, List, []};
ghost use Rattle.sap_terms.specs.Signature.{Sig, pairs_alone};
ghost use Rattle.sap_formula.specs.Faults.{HasNoFault};
ghost use Rattle.sap_formula.specs.Form.{Form};
ghost use Rattle.sap_formula.specs.declared.fault.FormulaFault.{FormulaFault};
ghost use Rattle.sap_formula.specs.Sorted.{with_sorts};
ghost use Rattle.sap_grammar.specs.declared.limits.Limits.{Limits};
ghost use Rattle.sap_grammar.specs.Words.{Word};
ghost use Rattle.sap_grammar.specs.Cut.{AreNoItemWords};
ghost use Rattle.sap_grammar.specs.ByteWords.{AreTokenWords};
ghost use Rattle.sap_statements.specs.FormulaExamples.{closing, precedence_words, precedence_formula, left_words, left_formula, right_words, right_formula, body_words, body_formula, chain_words, enclosed_words, enclosed_formula, name_words, name_formula, truth_words, lemma_words, lemma_statement};
ghost use Rattle.sap_formula_grammar.specs.FormulaGrammar.{IsIff, IsShortFormula, Reach, closed, reaching, EndsFormula, IsFormulaAt};
ghost use Rattle.sap_statements.specs.Statements.{Statement, IsStatement};
ghost use Rattle.sap_statements.specs.Stated.{AreFaultless, IsFirstFaulty};
ghost use Rattle.sap_statements.specs.Sorted.{plainly_sorted};
ghost use Rattle.sap_statements.specs.Printable.{IsTidyForm, IsFormOver, FormHasNames};
ghost use Rattle.sap_statements.specs.StatementLaws.{StatementLaws};
ghost use Rattle.sap_statements.specs.code.FormulaLaws.{FormulaLaws};

use sap_formula::{faultless_formulas_are_checked, one_fault, some_fault};
use sap_formula_grammar::{formulas_are_read, one_formula};
use sap_grammar::{printed_words, term_laws};

/// What the law of formulas says, as the proofs on restrictions and lemmas need it.
pub(crate) fn formula_laws()
    ensures { FormulaLaws }
{
    formulas_are_read();
}

/// A law: all of some words are one restriction or lemma at most.
pub fn one_statement()
    ensures { (g : Sig) (m : Limits) (s t : Statement) (a : List Word) → IsStatement g m s a
        → IsStatement g m t a → s ≡ t }
{
    formula_laws();
}

/// A law: which words are a restriction or lemma within the limits is the same under each signature. The signature says only
/// which identifiers are constants.
pub fn same_statements()
    ensures { (g h : Sig) (m : Limits) (s : Statement) (a : List Word) → IsStatement g m s a
        → (t : Statement) × IsStatement h m t a }
{
    term_laws();
}

/// A law: all of some words are a restriction or lemma, or they are none.
pub fn some_statement()
    ensures { (g : Sig) (m : Limits) (a : List Word) → ((s : Statement) × IsStatement g m s a)
        ⊎ ((s : Statement) → IsStatement g m s a → ⊥) }
{
    formula_laws();
}

/// A law: worked examples of which words are a formula or a lemma, and of two lists of words that are none: a `<=>` behind a
/// quantifier whose body has one, and a truth value on the left of `=`.
pub fn formulas_by_hand()
    ensures precedence { (g : Sig) → IsIff g closed precedence_formula 5 precedence_words closing }
    ensures left { (g : Sig) → IsIff g closed left_formula 3 left_words closing }
    ensures right { (g : Sig) → IsIff g closed right_formula 3 right_words closing }
    ensures body { (g : Sig) → IsIff g reaching body_formula 3 body_words closing }
    ensures one_body { (g : Sig) (e : Reach) (n : ℕ) (f : Form)
        → IsIff g e f n body_words closing → f ≡ body_formula }
    ensures chain { (g : Sig) (m : Limits) (f : Form) → IsShortFormula g m f chain_words closing
        → ⊥ }
    ensures enclosed { (g : Sig) → IsIff g closed enclosed_formula 5 enclosed_words closing }
    ensures name { IsIff pairs_alone closed name_formula 1 name_words closing }
    ensures truth { (g : Sig) (m : Limits) (f : Form) → IsShortFormula g m f truth_words closing
        → ⊥ }
    ensures said { (g : Sig) (m : Limits) → 1 ≤ m.formula_levels
        → IsStatement g m lemma_statement lemma_words }
{
    formula_laws();
    one_formula();
}

/// A law: a formula that words of tokens spell has names for names, no item begins among its words, and over the signature it is
/// tidy.
pub fn formulas_are_printable()
    ensures tidy { (g : Sig) (e : Reach) (f : Form) (n : ℕ) (a b : List Word) → IsIff g e f n a b
        → IsFormOver g f → IsTidyForm g f }
    ensures names { (most : ℕ) (g : Sig) (e : Reach) (f : Form) (n : ℕ) (a b : List Word)
        → IsIff g e f n a b → AreTokenWords most a → FormHasNames most f × AreTokenWords most b }
    ensures free { (g : Sig) (e : Reach) (f : Form) (n : ℕ) (a b : List Word) → IsIff g e f n a b
        → AreNoItemWords b → AreNoItemWords a }
{
    printed_words();
}

/// A law: the sorts of binders, given once more, change nothing; and they change neither whether a formula is tidy nor its
/// symbols nor its names.
pub fn sorts_are_kept()
    ensures twice { (f : Form) → plainly_sorted [] (plainly_sorted [] f) ≡ plainly_sorted [] f }
    ensures tidy { (g : Sig) (f : Form) → IsTidyForm g f → IsTidyForm g (plainly_sorted [] f) }
    ensures over { (g : Sig) (f : Form) → IsFormOver g (plainly_sorted [] f) → IsFormOver g f }
    ensures names { (most : ℕ) (f : Form) → FormHasNames most f
        → FormHasNames most (plainly_sorted [] f) }
{}

/// A law: in a formula without a fault each sign is that of its binder, so that the sorts of binders change plain variables alone;
/// and its symbols are held with their arities, as it is written and with those sorts.
pub fn faultless_formulas_keep_signs()
    ensures sorts { (g : Sig) (reserved : Bool) (f : Form) → HasNoFault g reserved f
        → with_sorts [] f ≡ plainly_sorted [] f }
    ensures over { (g : Sig) (reserved : Bool) (f : Form) → HasNoFault g reserved f → IsFormOver g f }
    ensures sorted { (g : Sig) (reserved : Bool) (f : Form) → HasNoFault g reserved f
        → IsFormOver g (with_sorts [] f) }
{
    faultless_formulas_are_checked();
}

/// A law: of restrictions and lemmas none has a formula with a fault, or there is a first that has, refused for one fault, and
/// never both.
pub fn one_faulty_statement()
    ensures one { (g : Sig) (r : Bool) (ss : List Statement) (x y : List ℕ) (f h : FormulaFault)
        → IsFirstFaulty g r ss x f → IsFirstFaulty g r ss y h → (x ≡ y) × (f ≡ h) }
    ensures never { (g : Sig) (r : Bool) (ss : List Statement) (x : List ℕ) (f : FormulaFault)
        → IsFirstFaulty g r ss x f → AreFaultless g r ss → ⊥ }
    ensures some { (g : Sig) (r : Bool) (ss : List Statement) → AreFaultless g r ss
        ⊎ ((x : List ℕ) × (f : FormulaFault) × IsFirstFaulty g r ss x f) }
{
    one_fault();
    some_fault();
}

/// A law: what `one_statement`, `same_statements` and `some_statement` say, as one, which proofs on files and theories build on.
pub fn statement_laws()
    ensures { StatementLaws }
{
    one_statement();
    same_statements();
    some_statement();
}
