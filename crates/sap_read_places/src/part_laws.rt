//! Laws of where the fault of a formula stands, as contracts of functions that do nothing.
ghost use Rattle.std.specs.Prelude.{◌≡◌, ◌∷◌, ◌+◌, ℕ, List, [], Err, codes, length};
ghost use Rattle.sap_terms.specs.Signature.{Sig, pairs_alone};
ghost use Rattle.sap_text.specs.declared.token.Token.{Token};
ghost use Rattle.sap_formula.specs.CheckExamples.{sdec_declared, with_symmetric};
ghost use Rattle.sap_formula.specs.declared.fault.FormulaFault.{FormulaFault};
ghost use Rattle.sap_formula.specs.declared.fault.FormulaFault.TheVariants.{BadFunction, Destructor, Reserved, UnboundVar};
ghost use Rattle.sap_formula_words.specs.StatementWords.{HasStatementWords};
ghost use Rattle.sap_grammar.specs.Cut.{Placed, words};
ghost use Rattle.sap_grammar.specs.declared.limits.Limits.{Limits};
ghost use Rattle.sap_macro.specs.Written.{Written};
ghost use Rattle.sap_read.specs.Item.{process, statement};
ghost use Rattle.sap_read.specs.ItemGrammar.{AreItems};
ghost use Rattle.sap_read.specs.Files.{IsRead};
ghost use Rattle.sap_read.specs.declared.fault.ReadFault.TheVariants.{Formula};
ghost use Rattle.sap_statements.specs.declared.statement.Statement.{Statement};
ghost use Rattle.sap_read_places.specs.PartExamples.{HasStatements, decrypts, good, on_line, reserved_name, two_faults, unbound_time};
ghost use Rattle.sap_read_places.specs.PartPlaces.{IsFaultyWord, IsPartPlace, located_statements};
ghost use Rattle.sap_read_places.specs.UseExamples.{told_before};
ghost use Rattle.sap_read_places.specs.declared.told.Told.{Told};

use sap_formula::{checks_by_hand, one_fault};
use sap_formula_words::statements_and_words;
use sap_read::{one_list_of_items, one_parting};

/// A law: a fault of a formula stands at one word of a file at most, and each file that is refused for one has its word.
pub fn part_places()
    ensures one { (z : List ℕ) (y : List ℕ) (f : FormulaFault) (s t : Told) → IsPartPlace z y f s
        → IsPartPlace z y f t → s ≡ t }
    ensures some { (z : List ℕ) (y : List ℕ) (f : FormulaFault) → IsRead z (Err (Formula y f))
        → (t : Told) × IsPartPlace z y f t }
{
    one_parting();
    one_list_of_items();
    one_fault();
    statements_and_words();
}

/// A law: of small formulas which word is told of a fault, counted by hand: that of the part with the fault that counts, not the first
/// part with a fault, and with the words behind its item; of the second of two where the first has none; of a name that is reserved, and
/// over another signature. Nothing is told of another name, another fault or another word, nor of the second fault of two, nor where
/// there is none. Which restrictions and lemmas a file has, and how many words are behind each; and what is told in a file.
pub fn parts_by_hand()
    ensures here { IsFaultyWord pairs_alone (two_faults ∷ unbound_time ∷ []) (codes "R") (BadFunction (codes "f")) 23 }
    ensures later { IsFaultyWord pairs_alone (good ∷ unbound_time ∷ []) (codes "L") (UnboundVar (codes "i")) 6 }
    ensures reserved { IsFaultyWord pairs_alone (good ∷ reserved_name ∷ []) (codes "N") (Reserved (codes "Init")) 11 }
    ensures signature { IsFaultyWord with_symmetric (decrypts ∷ []) (codes "S") (Destructor (codes "sdec")) 14 }
    ensures nothing_else { (y : List ℕ) (f : FormulaFault) (k : ℕ)
        → IsFaultyWord pairs_alone (two_faults ∷ unbound_time ∷ []) y f k
        → (y ≡ codes "R") × (f ≡ BadFunction (codes "f")) × (k ≡ 23) }
    ensures no_other_later { (y : List ℕ) (f : FormulaFault) (k : ℕ)
        → IsFaultyWord pairs_alone (good ∷ unbound_time ∷ []) y f k
        → (y ≡ codes "L") × (f ≡ UnboundVar (codes "i")) × (k ≡ 6) }
    ensures none { (y : List ℕ) (f : FormulaFault) (k : ℕ) → IsFaultyWord pairs_alone (good ∷ []) y f k → ⊥ }
    ensures declared_alone { (y : List ℕ) (f : FormulaFault) (k : ℕ) → IsFaultyWord sdec_declared (decrypts ∷ []) y f k → ⊥ }
    ensures statements { (g h : Sig) (m : Limits) (a b d e : List Placed) (s u : Statement) (p : Written) (ns os : List ℕ) (k l n : ℕ)
        → HasStatementWords h m s (words a) ns → HasStatementWords h m u (words d) os
        → (r : AreItems g (a ∷ b ∷ d ∷ e ∷ []) (on_line (statement s) k ∷ on_line (process p) l ∷ on_line (statement u) n ∷ []))
        → located_statements r ≡ record { statement = s; words = ns; behind = length b + (length d + (length e + 0)) }
        ∷ record { statement = u; words = os; behind = length e + 0 } ∷ [] }
    ensures told { (z : List ℕ) (ts : List Token) → HasStatements z ts pairs_alone (good ∷ unbound_time ∷ [])
        → IsPartPlace z (codes "L") (UnboundVar (codes "i")) (told_before ts 6 []) }
    ensures told_alone { (z : List ℕ) (ts : List Token) → HasStatements z ts pairs_alone (two_faults ∷ unbound_time ∷ [])
        → (y : List ℕ) (f : FormulaFault) (t : Told) → IsPartPlace z y f t
        → (y ≡ codes "R") × (f ≡ BadFunction (codes "f")) × (t ≡ told_before ts 23 []) }
    ensures not_told { (z : List ℕ) (ts : List Token) → HasStatements z ts pairs_alone (good ∷ [])
        → (y : List ℕ) (f : FormulaFault) (t : Told) → IsPartPlace z y f t → ⊥ }
{
    part_places();
    one_parting();
    one_list_of_items();
    one_fault();
    checks_by_hand();
    statements_and_words();
}
