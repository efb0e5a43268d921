//! What is so of words of runs that stand by themselves.
ghost use Rattle.std.specs.Prelude.{◌≡◌, ℕ, List, [], ◌⊎◌};
ghost use Rattle.sap_terms.specs.declared.var.Var.{Var};
ghost use Rattle.sap_terms.specs.Tree.{Tree};
ghost use Rattle.sap_run_lines.specs.RunTerms.{IsRunName, IsRunTerm};
ghost use Rattle.sap_run_lines.specs.LineWords.{LineWord};
ghost use Rattle.sap_run_lines.specs.StepLines.{IsDecided};
ghost use Rattle.sap_run_lines.specs.LineText.{word_text};
ghost use Rattle.sap_run_lines.specs.Spellable.{IsWritable, IsWritableWord};
ghost use Rattle.sap_run_lines.specs.WholeWords.{IsFreshName, IsPublicName, IsRunVariable, IsWholeTerm, IsAsciiText};

/// A law: bytes spell one term at most.
pub fn one_run_term()
    ensures { (t u : Tree) (z : List ℕ) → IsRunTerm t z [] → IsRunTerm u z [] → t ≡ u }
{}

/// A law: bytes are one fresh name, one public name and one variable at most.
pub fn one_run_word()
    ensures fresh { (n m : ℕ) (z : List ℕ) → IsFreshName n z → IsFreshName m z → n ≡ m }
    ensures public { (s u : List ℕ) (z : List ℕ) → IsPublicName s z → IsPublicName u z → s ≡ u }
    ensures variable { (v w : Var) (z : List ℕ) → IsRunVariable v z → IsRunVariable w z → v ≡ w }
{}

/// A law: bytes are a name or none, and so it is with fresh names, public names, variables and terms of at most 256 nodes.
pub fn run_words_are_decided()
    ensures name { (z : List ℕ) → IsRunName z ⊎ (IsRunName z → ⊥) }
    ensures fresh { (z : List ℕ) → IsDecided IsFreshName z }
    ensures public { (z : List ℕ) → IsDecided IsPublicName z }
    ensures variable { (z : List ℕ) → IsDecided IsRunVariable z }
    ensures term { (z : List ℕ) → IsDecided IsWholeTerm z }
{}

/// A law: a term that bytes spell can be written.
pub fn spelled_terms_can_be_written()
    ensures { (t : Tree) (z k : List ℕ) → IsRunTerm t z k → IsWritable t }
{}

/// A law: the text of a word that can be written has bytes below 128 alone.
pub fn written_words_are_ascii()
    ensures { (w : LineWord) → IsWritableWord w → IsAsciiText (word_text w) }
{}
