//! What is so of formulas as text.
ghost use Rattle.std.specs.Prelude.{◌≡◌, ℕ, List, Some};
ghost use Rattle.sap_terms.specs.Signature.{Sig};
ghost use Rattle.sap_formula.specs.Form.{Form};
ghost use Rattle.sap_grammar.specs.declared.limits.Limits.{Limits};
ghost use Rattle.sap_grammar.specs.Words.{Word};
ghost use Rattle.sap_formula_grammar.specs.FormulaGrammar.{IsIff, IsShortFormula, Reach, EndsFormula, IsFormulaAt};
ghost use Rattle.sap_formula_grammar.specs.FormulaReading.{short_formula};

use sap_grammar::term_laws;

/// A law: from one place words spell at most one formula that nothing goes on with, in one number of levels, and end it at one
/// place.
pub fn one_formula()
    ensures words { (g : Sig) (d e : Reach) (n k : ℕ) (f h : Form) (a b c : List Word)
        → IsIff g d f n a b → IsIff g e h k a c → EndsFormula b → EndsFormula c
        → (f ≡ h) × (n ≡ k) × (b ≡ c) }
    ensures places { (m : Limits) (g : Sig) (ws : List Word) (at e k : ℕ) (f h : Form)
        → IsFormulaAt m g ws at f e → IsFormulaAt m g ws at h k → (f ≡ h) × (e ≡ k) }
{
    term_laws();
}

/// A law: what `short_formula` reads is spelled so, and what is spelled so is read, where nothing goes on with it.
pub fn formulas_are_read()
    ensures sound { (g : Sig) (m : Limits) (f : Form) (a b : List Word)
        → short_formula g m a ≡ Some (f, b) → IsShortFormula g m f a b }
    ensures complete { (g : Sig) (m : Limits) (f : Form) (a b : List Word)
        → IsShortFormula g m f a b → EndsFormula b → short_formula g m a ≡ Some (f, b) }
{
    term_laws();
}
