//! What is so of theories as text.
ghost use Rattle.std.specs.Prelude.{◌≡◌, ℕ, List, Result, Ok};
ghost use Rattle.sap_rule.specs.declared.theory.Theory.{Theory};
ghost use Rattle.sap_theory.specs.TheoryText.{theory_text};
ghost use Rattle.sap_theory.specs.TheoryGrammar.{SpellsTheory, AreSameTheories};
ghost use Rattle.sap_theory.specs.TheoryOver.{IsTheoryOver};
ghost use Rattle.sap_theory.specs.PrintableTheory.{IsPrintable};
ghost use Rattle.sap_theory.specs.ReadAgain.{SpellsWithin, PassesChecks};
ghost use Rattle.sap_terms.specs.declared.limits.TheConstants.{MOST_THEORY_NAME_BYTES};
ghost use Rattle.sap_theory.specs.WithinLimits.{IsShallow};
ghost use Rattle.sap_theory.specs.ReadTheory.{IsTheoryRead};
ghost use Rattle.sap_theory.specs.declared.fault.TheoryFault.{TheoryFault};

use sap_grammar::{
    declarations_are_read, facts_are_read, headers_are_read, item_laws, printed_words, term_laws,
    words_are_cut, words_are_written, words_of_bytes,
};
use sap_statements::{
    faultless_formulas_keep_signs, formulas_are_printable, one_faulty_statement, one_statement,
    sorts_are_kept, statement_laws,
};
use sap_terms::builtins_stay_held;
use sap_text::{one_answer, some_answer};

/// A law: bytes spell one theory at most. Two that they spell have the same name, rules, restrictions and lemmas, and signatures
/// that hold the same.
pub fn one_theory()
    ensures { (z : List ℕ) (t u : Theory) → SpellsTheory z t → SpellsTheory z u
        → AreSameTheories t u }
{
    one_answer();
    words_are_cut();
    headers_are_read();
    declarations_are_read();
    facts_are_read();
    one_statement();
}

/// A law: the printed text of a theory spells it, and no other, where the theory can be printed, or where some bytes spell it and
/// its signature holds its symbols.
pub fn printed_theories()
    ensures printable { (most : ℕ) (t : Theory) → IsPrintable most t → SpellsTheory (theory_text t) t }
    ensures spelled { (z : List ℕ) (t : Theory) → SpellsTheory z t → IsTheoryOver t
        → SpellsTheory (theory_text t) t }
    ensures no_other { (most : ℕ) (t u : Theory) → IsPrintable most t → SpellsTheory (theory_text t) u
        → AreSameTheories t u }
{
    one_theory();
    printed_words();
    words_are_written();
    words_of_bytes();
    formulas_are_printable();
    sorts_are_kept();
}

/// A law: bytes are read as one theory at most, or refused for one cause, and never both.
pub fn one_answer_of_theories()
    ensures { (z : List ℕ) (o u : Result Theory TheoryFault) → IsTheoryRead z o → IsTheoryRead z u
        → o ≡ u }
{
    one_answer();
    words_are_cut();
    headers_are_read();
    declarations_are_read();
    facts_are_read();
    one_statement();
    one_faulty_statement();
}

/// A law: each list of bytes is read as something, as a theory or as refused for a cause.
pub fn some_theory()
    ensures { (z : List ℕ) → ((o : Result Theory TheoryFault) × IsTheoryRead z o) }
{
    term_laws();
    item_laws();
    statement_laws();
    headers_are_read();
    some_answer();
    one_faulty_statement();
}

/// A law: bytes that are read as a theory spell it, within the limits of reading, and its signature holds its symbols. So its
/// printed text spells it too.
pub fn read_theories_are_spelled()
    ensures { (z : List ℕ) (t : Theory) → IsTheoryRead z (Ok t) → SpellsWithin z t × IsTheoryOver t }
{
    faultless_formulas_keep_signs();
    builtins_stay_held();
}

/// A law: bytes that spell a theory within the limits of reading are read as that theory, where it passes the checks.
pub fn spelled_theories_are_read()
    ensures { (z : List ℕ) (t : Theory) → SpellsWithin z t → PassesChecks t
        → (u : Theory) × IsTheoryRead z (Ok u) × AreSameTheories t u }
{
    faultless_formulas_keep_signs();
}

/// A law: where the printed text of a theory that was read is read as a theory, that is the same.
pub fn printed_theories_are_read()
    ensures { (z : List ℕ) (t u : Theory) → IsTheoryRead z (Ok t)
        → IsTheoryRead (theory_text t) (Ok u) → AreSameTheories t u }
{
    read_theories_are_spelled();
    printed_theories();
    one_theory();
}

/// A law: a theory that is read can be printed, with names that a reader takes, and passes the checks.
pub fn read_theories_are_printable()
    ensures printable { (z : List ℕ) (t : Theory) → IsTheoryRead z (Ok t)
        → IsPrintable MOST_THEORY_NAME_BYTES t }
    ensures passes { (z : List ℕ) (t : Theory) → IsTheoryRead z (Ok t) → PassesChecks t }
{
    read_theories_are_spelled();
    faultless_formulas_keep_signs();
    printed_words();
    words_of_bytes();
    formulas_are_printable();
    sorts_are_kept();
}

/// A law: the printed text of a theory spells it within the limits of reading, where it can be printed with such names, its terms
/// have few enough levels, and so has the printed text of its formulas. So it is read as that theory, where it passes the checks;
/// and the printed text of a theory that was read is read again, as the same theory.
pub fn shallow_theories_are_read()
    ensures within { (t : Theory) → IsPrintable MOST_THEORY_NAME_BYTES t → IsShallow t
        → SpellsWithin (theory_text t) t }
    ensures read { (t : Theory) → IsPrintable MOST_THEORY_NAME_BYTES t → IsShallow t
        → PassesChecks t
        → (u : Theory) × IsTheoryRead (theory_text t) (Ok u) × AreSameTheories t u }
    ensures again { (z : List ℕ) (t : Theory) → IsTheoryRead z (Ok t) → IsShallow t
        → (u : Theory) × IsTheoryRead (theory_text t) (Ok u) × AreSameTheories t u }
{
    printed_words();
    words_are_written();
    words_of_bytes();
    formulas_are_printable();
    spelled_theories_are_read();
    read_theories_are_printable();
}
