//! Laws of the words of parts, as contracts of functions that do nothing.
ghost use Rattle.std.specs.Prelude.{◌≡◌, ◌<◌, ◌≤◌, ℕ, List, All, length, codes};
ghost use Rattle.std.specs.List.{AllZip};
ghost use Rattle.sap_terms.specs.Signature.{Sig};
ghost use Rattle.sap_formula.specs.Form.{Form};
ghost use Rattle.sap_formula.specs.declared.binder.Binder.{Binder};
ghost use Rattle.sap_formula.specs.Parts.{form_parts};
ghost use Rattle.sap_grammar.specs.Words.{Word};
ghost use Rattle.sap_grammar.specs.TermGrammar.{IsConstant};
ghost use Rattle.sap_formula_grammar.specs.FormulaGrammar.{IsIff, Reach, EndsFormula};
ghost use Rattle.sap_node_words.specs.NodeWords.{last_words};
ghost use Rattle.sap_formula_words.specs.PartWords.{part_words, HasPartWords, IsPartAt};
ghost use Rattle.sap_formula_words.specs.Examples.{one_of, two_of, four_of, five_of, truth_words, truth_formula, four_words, four_times, constant_words, constant_formula, enclosed_words, enclosed_formula, enclosed_with, shown_words, shown, shown_with};

use sap_formula_grammar::one_formula;
use sap_node_words::nodes_and_words;

/// A law: each part has one word, which is a word of the formula, and one at which the part stands. However words spell a formula, it has the same words for its parts;
/// and so have any two formulas from one place that nothing goes on with.
pub fn parts_and_words()
    ensures parts { (g : Sig) (e : Reach) (f : Form) (n : ℕ) (a b : List Word) (r : IsIff g e f n a b)
        (scope : List Binder) → length (part_words r) ≡ length (form_parts scope f) }
    ensures few { (g : Sig) (e : Reach) (f : Form) (n : ℕ) (a b : List Word) (r : IsIff g e f n a b)
        → length (part_words r) ≤ length a }
    ensures within { (g : Sig) (e : Reach) (f : Form) (n : ℕ) (a b : List Word) (r : IsIff g e f n a b)
        → All (λ k. (length b < k) × (k ≤ length a)) (part_words r) }
    ensures words { (g : Sig) (e : Reach) (f : Form) (n : ℕ) (a b : List Word) (r : IsIff g e f n a b)
        (scope : List Binder) → AllZip (λ p k. IsPartAt g p (last_words k a)) (form_parts scope f)
        (part_words r) }
    ensures same { (g h : Sig) (d e : Reach) (f : Form) (n k : ℕ) (a b c : List Word)
        (r : IsIff g d f n a b) (s : IsIff h e f k a c) → part_words r ≡ part_words s }
    ensures one { (g : Sig) (d e : Reach) (f h : Form) (n k : ℕ) (a b c : List Word)
        (r : IsIff g d f n a b) (s : IsIff g e h k a c) → EndsFormula b → EndsFormula c
        → part_words r ≡ part_words s }
{
    nodes_and_words();
    one_formula();
}

/// A law: worked examples of the words of parts, and words that these haven't: a truth value in place of a variable of its name, the
/// first of two occurrences in place of the second, the quantifier, a binder's sign, an occurrence of what is bound, the mark `@`,
/// the sign of a time, the other side of `<`, of a pair behind a comma the tuple's `<`, and what a public name has.
pub fn part_words_by_hand()
    ensures variable { (g : Sig) → (IsConstant g (codes "T") → ⊥)
        → HasPartWords g truth_formula truth_words (one_of 1) }
    ensures occurrences { (g : Sig) → (IsConstant g (codes "x") → ⊥)
        → HasPartWords g four_times four_words (four_of 15 11 7 3) }
    ensures constant { (g : Sig) → IsConstant g (codes "c")
        → HasPartWords g constant_formula constant_words (five_of 12 10 8 6 3) }
    ensures enclosed { (g : Sig)
        → HasPartWords g enclosed_formula enclosed_words (enclosed_with 17 15 12 9 4 1) }
    ensures shown { (g : Sig) → (IsConstant g (codes "x") → ⊥)
        → HasPartWords g shown shown_words (shown_with 16 14 13 11 8 5 1) }
    ensures no_truth_value { (g : Sig) → (IsConstant g (codes "T") → ⊥)
        → HasPartWords g truth_formula truth_words (one_of 5) → ⊥ }
    ensures no_public_name { (g : Sig) → (IsConstant g (codes "T") → ⊥)
        → HasPartWords g truth_formula truth_words (two_of 3 1) → ⊥ }
    ensures no_first_occurrence { (g : Sig) → (IsConstant g (codes "x") → ⊥)
        → HasPartWords g four_times four_words (four_of 15 15 7 3) → ⊥ }
    ensures no_other_side { (g : Sig) → (IsConstant g (codes "x") → ⊥)
        → HasPartWords g four_times four_words (four_of 3 7 11 15) → ⊥ }
    ensures no_quantifier { (g : Sig) → IsConstant g (codes "c")
        → HasPartWords g constant_formula constant_words (five_of 13 10 8 6 3) → ⊥ }
    ensures no_binder_sign { (g : Sig) → IsConstant g (codes "c")
        → HasPartWords g constant_formula constant_words (five_of 12 11 8 6 3) → ⊥ }
    ensures no_occurrence { (g : Sig) → IsConstant g (codes "c")
        → HasPartWords g constant_formula constant_words (five_of 6 10 8 6 3) → ⊥ }
    ensures no_binder { (g : Sig) → IsConstant g (codes "c")
        → HasPartWords g constant_formula constant_words (five_of 12 10 8 12 3) → ⊥ }
    ensures no_at { (g : Sig) → IsConstant g (codes "c")
        → HasPartWords g constant_formula constant_words (five_of 12 10 8 6 4) → ⊥ }
    ensures no_fresh_sign { (g : Sig)
        → HasPartWords g enclosed_formula enclosed_words (enclosed_with 18 15 12 9 4 1) → ⊥ }
    ensures no_public_sign { (g : Sig)
        → HasPartWords g enclosed_formula enclosed_words (enclosed_with 17 16 12 9 4 1) → ⊥ }
    ensures no_later_time { (g : Sig)
        → HasPartWords g enclosed_formula enclosed_words (enclosed_with 17 15 9 12 4 1) → ⊥ }
    ensures no_time_sign { (g : Sig)
        → HasPartWords g enclosed_formula enclosed_words (enclosed_with 17 15 12 10 4 1) → ⊥ }
    ensures no_time_inside { (g : Sig)
        → HasPartWords g enclosed_formula enclosed_words (enclosed_with 17 15 12 9 12 9) → ⊥ }
    ensures no_sign_of_same { (g : Sig)
        → HasPartWords g enclosed_formula enclosed_words (enclosed_with 17 15 12 9 5 2) → ⊥ }
    ensures no_tuple_of_rest { (g : Sig) → (IsConstant g (codes "x") → ⊥)
        → HasPartWords g shown shown_words (shown_with 16 14 13 14 8 5 1) → ⊥ }
    ensures no_part_of_rest { (g : Sig) → (IsConstant g (codes "x") → ⊥)
        → HasPartWords g shown shown_words (shown_with 16 14 13 8 8 5 1) → ⊥ }
    ensures no_first_argument { (g : Sig) → (IsConstant g (codes "x") → ⊥)
        → HasPartWords g shown shown_words (shown_with 16 14 13 11 8 13 1) → ⊥ }
{
    nodes_and_words();
}
