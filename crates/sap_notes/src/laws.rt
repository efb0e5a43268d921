//! Laws of notes, as contracts of functions that do nothing.
ghost use Rattle.std.specs.Prelude.{◌≡◌, ◌++◌, ◌∷◌, ℕ, Bool, false, true, List, [], Some, None, codes, decimal, take};
ghost use Rattle.sap_terms.specs.Equations.{IsInstance};
ghost use Rattle.sap_terms.specs.Signature.{Sig, added, no_builtins, with_builtin};
ghost use Rattle.sap_terms.specs.Tree.{Tree};
ghost use Rattle.sap_terms.specs.declared.signature.Builtin.TheVariants.{Asymmetric, Hashing, RevealingSigning, Signing, Symmetric};
ghost use Rattle.sap_notes.specs.Contents.{content_symbols};
ghost use Rattle.sap_notes.specs.FactExamples.{facts_text, facts_tokens, nine, showing, spoken};
ghost use Rattle.sap_notes.specs.FactWords.{IsFactAt, in_statement, is_shown, item_before};
ghost use Rattle.sap_notes.specs.Facts.{all_shown, by_arity, formula_facts};
ghost use Rattle.sap_notes.specs.NoteExamples.{a_told, all_actions, all_forms, all_formulas, declared, declared_tokens, note, sdec_told, some_content, two_lines, with_symbol};
ghost use Rattle.sap_notes.specs.NotedWords.{IsDeclaredAt, IsDefinedAt, IsFirstDeclaredAt};
ghost use Rattle.sap_notes.specs.Notes.{AreAscending, IsBefore};
ghost use Rattle.sap_notes.specs.NotesTold.{AreNotesTold, IsNotesText, event_list, event_names, sentence, with_one_event};
ghost use Rattle.sap_notes.specs.OtherSymbols.{IsAnother, speaks_of};
ghost use Rattle.sap_notes.specs.Symbols.{formula_symbols, process_symbols};
ghost use Rattle.sap_notes.specs.declared.note.Kind.TheVariants.{CapturedName, ComparedName, OtherSymbol, UnshownFact, UnspokenEvent, UnusedDefinition, UnusedSymbol};

use sap_stretches::one_place_text;

/// A law: of a file one text of notes is told.
pub fn one_notes_text()
    ensures { (z t u : List ℕ) → IsNotesText z t → IsNotesText z u → t ≡ u }
{
    one_place_text();
}

/// A law: of which symbols equations of builtins speak, each of them, and not with another number of terms, nor of another builtin; that
/// hashing has no equation; and which symbols of a signature are others than those of a builtin, and which aren't: that of a builtin that
/// was added, one with another number of terms, one of which no equation speaks, and one of pairs.
pub fn symbols_of_equations()
    ensures symmetric { (speaks_of Symmetric (codes "senc") 2 ≡ true) × (speaks_of Symmetric (codes "sdec") 2 ≡ true)
        × (speaks_of Symmetric (codes "sdec") 3 ≡ false) × (speaks_of Symmetric (codes "adec") 2 ≡ false) }
    ensures asymmetric { (speaks_of Asymmetric (codes "aenc") 2 ≡ true) × (speaks_of Asymmetric (codes "adec") 2 ≡ true)
        × (speaks_of Asymmetric (codes "pk") 1 ≡ true) × (speaks_of Asymmetric (codes "pk") 2 ≡ false)
        × (speaks_of Asymmetric (codes "sign") 2 ≡ false) }
    ensures signing { (speaks_of Signing (codes "sign") 2 ≡ true) × (speaks_of Signing (codes "verify") 3 ≡ true)
        × (speaks_of Signing (codes "pk") 1 ≡ true) × (speaks_of Signing (codes "true") 0 ≡ true)
        × (speaks_of Signing (codes "verify") 2 ≡ false) × (speaks_of Signing (codes "getMessage") 1 ≡ false) }
    ensures revealing { (speaks_of RevealingSigning (codes "revealSign") 2 ≡ true)
        × (speaks_of RevealingSigning (codes "revealVerify") 3 ≡ true) × (speaks_of RevealingSigning (codes "getMessage") 1 ≡ true)
        × (speaks_of RevealingSigning (codes "pk") 1 ≡ true) × (speaks_of RevealingSigning (codes "true") 0 ≡ true)
        × (speaks_of RevealingSigning (codes "sign") 2 ≡ false) }
    ensures hashing { (l r : Tree) → IsInstance (with_builtin no_builtins Hashing) l r → IsInstance no_builtins l r }
    ensures others { IsAnother (with_symbol (codes "sdec") 2) (codes "sdec") × IsAnother (with_symbol (codes "pk") 1) (codes "pk")
        × IsAnother (added (with_symbol (codes "sdec") 2) Signing) (codes "sdec") }
    ensures not_others { (IsAnother (added (with_symbol (codes "sdec") 2) Symmetric) (codes "sdec") → ⊥)
        × (IsAnother (added (with_symbol (codes "pk") 1) Signing) (codes "pk") → ⊥)
        × (IsAnother (with_symbol (codes "sdec") 3) (codes "sdec") → ⊥) × (IsAnother (with_symbol (codes "h") 1) (codes "h") → ⊥)
        × (IsAnother (with_symbol (codes "pair") 2) (codes "pair") → ⊥)
        × (IsAnother (with_symbol (codes "h") 1) (codes "sdec") → ⊥) }
{}

/// A law: notes tried by hand. Which words of a file declare functions, and first, and which names a definition; which symbols stand in its
/// terms; in which order notes stand; and what is told of two.
pub fn notes_by_hand()
    ensures declared { IsFirstDeclaredAt declared declared_tokens (codes "h") 2 × IsFirstDeclaredAt declared declared_tokens (codes "f") 6
        × IsDeclaredAt declared declared_tokens (codes "h") 13 }
    ensures not_declared { (IsFirstDeclaredAt declared declared_tokens (codes "h") 13 → ⊥)
        × (IsDeclaredAt declared declared_tokens (codes "f") 2 → ⊥) × (IsDeclaredAt declared declared_tokens (codes "private") 10 → ⊥)
        × (IsDeclaredAt declared declared_tokens (codes "A") 17 → ⊥) × (IsDeclaredAt declared declared_tokens (codes "f") 21 → ⊥)
        × (IsDeclaredAt declared declared_tokens (codes "f") 24 → ⊥) }
    ensures defined { IsDefinedAt declared declared_tokens (codes "A") 17 }
    ensures not_defined { (IsDefinedAt declared declared_tokens (codes "h") 2 → ⊥)
        × (IsDefinedAt declared declared_tokens (codes "f") 24 → ⊥) × (IsDefinedAt declared declared_tokens (codes "B") 17 → ⊥) }
    ensures actions { process_symbols all_actions ≡ codes "a" ∷ codes "b" ∷ codes "c" ∷ codes "d" ∷ codes "e" ∷ codes "f" ∷ codes "g"
        ∷ codes "h" ∷ codes "i" ∷ codes "j" ∷ codes "k" ∷ codes "l" ∷ codes "m" ∷ codes "n" ∷ codes "o" ∷ codes "p" ∷ [] }
    ensures forms { process_symbols all_forms ≡ codes "q" ∷ codes "r" ∷ codes "s" ∷ codes "t" ∷ codes "u" ∷ codes "v" ∷ [] }
    ensures formulas { formula_symbols all_formulas ≡ codes "a" ∷ codes "b" ∷ codes "c" ∷ codes "d" ∷ codes "e" ∷ [] }
    ensures content { content_symbols some_content ≡ codes "p" ∷ codes "q" ∷ codes "r" ∷ codes "s" ∷ [] }
    ensures order { AreAscending (note OtherSymbol 3 7 ∷ note UnusedSymbol 3 7 ∷ note UnusedDefinition 9 10 ∷ note OtherSymbol 12 16 ∷ []) }
    ensures two_kinds { AreAscending (note CapturedName 3 4 ∷ note ComparedName 3 4 ∷ []) × (IsBefore (note ComparedName 3 4) (note CapturedName 3 4) → ⊥) }
    ensures not_order { (IsBefore (note OtherSymbol 3 7) (note OtherSymbol 3 7) → ⊥)
        × (IsBefore (note UnusedSymbol 3 7) (note OtherSymbol 3 7) → ⊥) × (IsBefore (note UnusedDefinition 3 7) (note UnusedSymbol 3 7) → ⊥)
        × (IsBefore (note OtherSymbol 9 10) (note UnusedDefinition 3 7) → ⊥) }
    ensures told { AreNotesTold two_lines [] (note OtherSymbol 0 4 ∷ note UnusedDefinition 5 6 ∷ []) (sdec_told ++ (a_told ++ [])) }
    ensures not_told { AreNotesTold two_lines [] [] a_told → ⊥ }
    ensures sentences { (sentence [] UnusedSymbol (codes "f") ≡ codes "No term has this symbol: use it, or leave its declaration out.")
        × (sentence [] UnusedDefinition (codes "A") ≡ codes "The process doesn't lead to this let: use it there, or leave it out.") }
    ensures builtins { (sentence [] OtherSymbol (codes "senc") ≡ sentence [] OtherSymbol (codes "sdec"))
        × (sentence [] OtherSymbol (codes "sdec") ≡ codes "No equation speaks of this symbol, so nothing undoes it: name builtins: symmetric-encryption in place of this declaration.")
        × (sentence [] OtherSymbol (codes "pk") ≡ codes "No equation speaks of this symbol, so nothing undoes it: name builtins: asymmetric-encryption, signing or revealing-signing in place of this declaration.")
        × (sentence [] OtherSymbol (codes "adec") ≡ codes "No equation speaks of this symbol, so nothing undoes it: name builtins: asymmetric-encryption in place of this declaration.")
        × (sentence [] OtherSymbol (codes "verify") ≡ codes "No equation speaks of this symbol, so nothing undoes it: name builtins: signing in place of this declaration.")
        × (sentence [] OtherSymbol (codes "true") ≡ codes "No equation speaks of this symbol, so nothing undoes it: name builtins: signing or revealing-signing in place of this declaration.")
        × (sentence [] OtherSymbol (codes "getMessage") ≡ codes "No equation speaks of this symbol, so nothing undoes it: name builtins: revealing-signing in place of this declaration.") }
{}

/// A law: facts tried by hand. Which a formula of each form has, and which the places of a process of each form show, a rule in its middle
/// alone; where in a small file facts begin that a lemma or a restriction has, which words show what begins there, and which not: what is
/// left and right of an arrow, what a lemma has, the name of a definition, the word behind; in which item a word stands; how many events
/// are told, and at which of them.
pub fn facts_by_hand()
    ensures formula { formula_facts spoken ≡ by_arity (codes "A") 0 ∷ by_arity (codes "B") 2 ∷ by_arity (codes "A") 0 ∷ [] }
    ensures process { all_shown showing ≡ by_arity (codes "K") 1 ∷ by_arity (codes "A") 0 ∷ by_arity (codes "B") 0 ∷ by_arity (codes "C") 2 ∷ by_arity (codes "D") 2 ∷ by_arity (codes "E") 0 ∷ by_arity (codes "F") 0 ∷ [] }
    ensures said { (in_statement facts_text facts_tokens 38 ≡ true) × (in_statement facts_text facts_tokens 43 ≡ true)
        × (in_statement facts_text facts_tokens 47 ≡ true) × (in_statement facts_text facts_tokens 4 ≡ false)
        × (in_statement facts_text facts_tokens 21 ≡ false) }
    ensures shown { (is_shown facts_text facts_tokens 4 ≡ true) × (is_shown facts_text facts_tokens 11 ≡ true)
        × (is_shown facts_text facts_tokens 21 ≡ true) }
    ensures not_shown { (is_shown facts_text facts_tokens 0 ≡ false) × (is_shown facts_text facts_tokens 1 ≡ false)
        × (is_shown facts_text facts_tokens 5 ≡ false) × (is_shown facts_text facts_tokens 26 ≡ false)
        × (is_shown facts_text facts_tokens 38 ≡ false) }
    ensures items { (item_before facts_text facts_tokens 4 ≡ Some 0) × (item_before facts_text facts_tokens 11 ≡ Some 7)
        × (item_before facts_text facts_tokens 14 ≡ Some 7) × (item_before facts_text facts_tokens 21 ≡ Some 14)
        × (item_before facts_text facts_tokens 0 ≡ None) }
    ensures fact { (g : Sig) → IsFactAt g facts_text facts_tokens (by_arity (codes "E") 0) 4 }
    ensures no_fact { (g : Sig) → (IsFactAt g facts_text facts_tokens (by_arity (codes "A") 0) 1 → ⊥)
        × (IsFactAt g facts_text facts_tokens (by_arity (codes "E") 0) 3 → ⊥) }
    ensures one_event { with_one_event (note OtherSymbol 1 2 ∷ note UnspokenEvent 3 4 ∷ note UnusedDefinition 5 6 ∷ note UnspokenEvent 7 8 ∷ note ComparedName 9 10 ∷ [])
        ≡ note OtherSymbol 1 2 ∷ note UnspokenEvent 3 4 ∷ note UnusedDefinition 5 6 ∷ note ComparedName 9 10 ∷ [] }
    ensures names { event_names (codes "ABCDE") (note UnspokenEvent 1 2 ∷ note UnshownFact 2 3 ∷ note UnspokenEvent 3 4 ∷ []) ≡ codes "B" ∷ codes "D" ∷ [] }
    ensures list { (event_list (codes "A" ∷ []) ≡ codes "A") × (event_list (codes "A" ∷ codes "B" ∷ []) ≡ codes "A, B")
        × (event_list (take 8 nine) ≡ codes "A, B, C, D, E, F, G, H") × (event_list nine ≡ codes "A, B, C, D, E, F, G, H and " ++ (decimal 1 ++ codes " more")) }
    ensures sentences { sentence (codes "A" ∷ codes "B" ∷ []) UnspokenEvent [] ≡ codes "No restriction or lemma speaks of these events with as many arguments: A, B. Speak of them there, or leave them out." }
{}
