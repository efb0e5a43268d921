//! What is so of the grammar.
ghost use Rattle.std.specs.Prelude.{◌≡◌, ◌≤◌, ◌++◌, ℕ, Bool, List, Some, None, Ok, drop, false, codes};
ghost use Rattle.sap_text.specs.Tokens.{IsLexed};
ghost use Rattle.sap_terms.specs.declared.fact.Fact.{Fact};
ghost use Rattle.sap_terms.specs.Tree.{Tree, level_count, node_count, trees_of};
ghost use Rattle.sap_terms.specs.Message.{IsOver, AreOver};
ghost use Rattle.sap_terms.specs.Signature.{Sig};
ghost use Rattle.sap_grammar.specs.declared.limits.Limits.{Limits};
ghost use Rattle.sap_terms.specs.declared.signature.Symbol.{Symbol};
ghost use Rattle.sap_terms.specs.declared.signature.Builtin.{Builtin};
ghost use Rattle.sap_text.specs.declared.token.Token.{Token};
ghost use Rattle.sap_grammar.specs.Words.{Word, starts, words_of};
ghost use Rattle.sap_grammar.specs.Cut.{Placed, placed, IsCut, IsHeader};
ghost use Rattle.sap_grammar.specs.Declarations.{Declaration, AreBuiltins, AreSymbols, Declares};
ghost use Rattle.sap_grammar.specs.ItemReading.{cut, header_of, declared_in};
ghost use Rattle.sap_grammar.specs.TermGrammar.{IsTerm, IsShort};
ghost use Rattle.sap_grammar.specs.FactGrammar.{IsFact, IsShortFact, AreFacts, fact_levels};
ghost use Rattle.sap_grammar.specs.Places.{IsTermAt, IsFactAt};
ghost use Rattle.sap_grammar.specs.TermReading.{short_term, short_fact, facts};
ghost use Rattle.sap_grammar.specs.TermText.{tree_text};
ghost use Rattle.sap_grammar.specs.FactText.{fact_text};
ghost use Rattle.sap_grammar.specs.ByteWords.{AreWords, AreTokenWords, AreWritten};
ghost use Rattle.sap_grammar.specs.Printed.{ArePrinted};
ghost use Rattle.sap_grammar.specs.TermLaws.{AreRead, AreSpelled};
ghost use Rattle.sap_grammar.specs.ItemLaws.{ItemLaws};
ghost use Rattle.sap_grammar.specs.TermBytes.{SpellsTerm, SpellsFact};

use sap_text::{longest_tokens, one_answer};

/// A law: from one place words spell at most one term that no opening parenthesis follows, and end it at one place.
pub fn one_term()
    ensures words { (g : Sig) (t u : Tree) (a b c : List Word) → IsTerm g t a b → IsTerm g u a c
        → starts (codes "(") b ≡ false → starts (codes "(") c ≡ false → (t ≡ u) × (b ≡ c) }
    ensures places { (m : Limits) (g : Sig) (ws : List Word) (at e k : ℕ) (t u : Tree)
        → IsTermAt m g ws at t e → IsTermAt m g ws at u k → (t ≡ u) × (e ≡ k) }
{}

/// A law: from one place words spell at most one fact, and end it at one place.
pub fn one_fact()
    ensures words { (g : Sig) (f h : Fact) (a b c : List Word) → IsFact g f a b → IsFact g h a c
        → (f ≡ h) × (b ≡ c) }
    ensures places { (m : Limits) (g : Sig) (ws : List Word) (at e k : ℕ) (f h : Fact)
        → IsFactAt m g ws at f e → IsFactAt m g ws at h k → (f ≡ h) × (e ≡ k) }
{}

/// A law: which words are a term, a fact or a list of facts, of how many levels and nodes, is the same under each signature.
/// The signature says only which identifiers are constants.
pub fn same_grammar()
    ensures terms { (g h : Sig) (t : Tree) (a b : List Word) → IsTerm g t a b
        → (u : Tree) × IsTerm h u a b × (level_count u ≡ level_count t)
        × (node_count u ≡ node_count t) }
    ensures facts { (g h : Sig) (f : Fact) (a b : List Word) → IsFact g f a b
        → (u : Fact) × IsFact h u a b × (fact_levels u ≡ fact_levels f)
        × (u.persistent ≡ f.persistent) }
    ensures short_terms { (g h : Sig) (m : Limits) (t : Tree) (a b : List Word)
        → IsShort g m t a b → (u : Tree) × IsShort h m u a b }
    ensures short_facts { (g h : Sig) (m : Limits) (allowed : Bool) (f : Fact) (a b : List Word)
        → IsShortFact g m allowed f a b → (u : Fact) × IsShortFact h m allowed u a b }
    ensures lists { (g h : Sig) (m : Limits) (allowed : Bool) (closing : List ℕ) (fs : List Fact)
        (a b : List Word) → AreFacts g m allowed closing fs a b
        → (us : List Fact) × AreFacts h m allowed closing us a b }
{}

/// A law: what is read as a term within the limits is one, and one that no opening parenthesis follows is read.
pub fn terms_are_read()
    ensures sound { (g : Sig) (m : Limits) (t : Tree) (a b : List Word)
        → short_term g m a ≡ Some (t, b) → IsShort g m t a b }
    ensures complete { (g : Sig) (m : Limits) (t : Tree) (a b : List Word) → IsShort g m t a b
        → starts (codes "(") b ≡ false → short_term g m a ≡ Some (t, b) }
{}

/// A law: what is read as a fact, or as facts up to a mark, is so, and what is so is read, where the mark is neither a comma
/// nor `!`.
pub fn facts_are_read()
    ensures sound { (g : Sig) (m : Limits) (allowed : Bool) (f : Fact) (a b : List Word)
        → short_fact g m allowed a ≡ Some (f, b) → IsShortFact g m allowed f a b }
    ensures complete { (g : Sig) (m : Limits) (allowed : Bool) (f : Fact) (a b : List Word)
        → IsShortFact g m allowed f a b → short_fact g m allowed a ≡ Some (f, b) }
    ensures lists_sound { (g : Sig) (m : Limits) (allowed : Bool) (closing : List ℕ)
        (fs : List Fact) (a b : List Word) → facts g m allowed closing a ≡ Some (fs, b)
        → AreFacts g m allowed closing fs a b }
    ensures lists_complete { (g : Sig) (m : Limits) (allowed : Bool) (closing : List ℕ)
        (fs : List Fact) (a b : List Word) → (closing ≡ codes "," → ⊥) → (closing ≡ codes "!" → ⊥)
        → AreFacts g m allowed closing fs a b → facts g m allowed closing a ≡ Some (fs, b) }
{}

/// A law: words are cut into items in one way, which is the one that reading from the left finds.
pub fn words_are_cut()
    ensures cut { (ps : List Placed) → IsCut ps (cut ps) }
    ensures one { (ps : List Placed) (is js : List (List Placed)) → IsCut ps is → IsCut ps js
        → is ≡ js }
{}

/// A law: words have one header at most, and it is found where they have one.
pub fn headers_are_read()
    ensures one { (x y : List ℕ) (all rest tail : List Placed) → IsHeader x all rest
        → IsHeader y all tail → (x ≡ y) × (rest ≡ tail) }
    ensures found { (z : List ℕ) (ts : List Token) (x : List ℕ) → header_of (words_of z ts) ≡ Some x
        → IsHeader x (placed z ts) (placed z (drop 3 ts)) }
    ensures none { (z : List ℕ) (ts : List Token) → header_of (words_of z ts) ≡ None
        → (x : List ℕ) (rest : List Placed) → IsHeader x (placed z ts) rest → ⊥ }
{}

/// A law: what is read as an item of builtins or functions is one that declares this, and each is read; words spell one list of
/// builtins at most, and one of symbols.
pub fn declarations_are_read()
    ensures sound { (ws : List Word) (ds : List Declaration) → declared_in ws ≡ Some ds
        → Declares ws ds }
    ensures complete { (ws : List Word) (ds : List Declaration) → Declares ws ds
        → declared_in ws ≡ Some ds }
    ensures builtins { (bs cs : List Builtin) (a : List Word) → AreBuiltins bs a
        → AreBuiltins cs a → bs ≡ cs }
    ensures symbols { (ss us : List Symbol) (a : List Word) → AreSymbols ss a
        → AreSymbols us a → ss ≡ us }
{}

/// A law: bytes are the words of their tokens, and have tokens where they are words; they are one list of words, whatever the
/// limit of names; a greater limit changes nothing; and each word is one that a token can be.
pub fn words_of_bytes()
    ensures tokens { (most : ℕ) (z : List ℕ) (ts : List Token) → IsLexed most 0 1 z (Ok ts)
        → AreWords most z (words_of z ts) }
    ensures lexed { (most : ℕ) (z : List ℕ) (ws : List Word) → AreWords most z ws
        → (ts : List Token) × IsLexed most 0 1 z (Ok ts) × (words_of z ts ≡ ws) }
    ensures one { (m k : ℕ) (z : List ℕ) (ws vs : List Word) → AreWords m z ws → AreWords k z vs
        → ws ≡ vs }
    ensures room { (m k : ℕ) (z : List ℕ) (ws : List Word) → m ≤ k → AreWords m z ws → AreWords k z ws }
    ensures held { (most : ℕ) (z : List ℕ) (ws : List Word) → AreWords most z ws
        → AreTokenWords most ws }
{
    one_answer();
}

/// A law: bytes can be written word by word.
pub fn words_are_written()
    ensures { (most : ℕ) → AreWritten most }
{
    longest_tokens();
}

/// A law: bytes spell one term at most, and where some bytes spell a term over the signature, its printed text does.
pub fn terms_are_printed()
    ensures one { (g : Sig) (m k : ℕ) (z : List ℕ) (t u : Tree) → SpellsTerm g m z t
        → SpellsTerm g k z u → t ≡ u }
    ensures printed { (g : Sig) (most : ℕ) (z : List ℕ) (t : Tree) → SpellsTerm g most z t
        → IsOver g t → SpellsTerm g most (tree_text t) t }
{
    words_of_bytes();
    words_are_written();
}

/// A law: so it is with facts.
pub fn facts_are_printed()
    ensures one { (g : Sig) (m k : ℕ) (z : List ℕ) (f h : Fact) → SpellsFact g m z f
        → SpellsFact g k z h → f ≡ h }
    ensures printed { (g : Sig) (most : ℕ) (z : List ℕ) (f : Fact) → SpellsFact g most z f
        → AreOver g (trees_of f.args) → SpellsFact g most (fact_text f) f }
{
    words_of_bytes();
    words_are_written();
}

/// A law: what is so of the words of printed terms and facts.
pub fn printed_words()
    ensures { ArePrinted }
{
    words_are_written();
}

/// A law: what `terms_are_read`, `facts_are_read` and `same_grammar` say within limits, as one, which proofs on processes,
/// formulas and rules build on.
pub fn term_laws()
    ensures read { AreRead }
    ensures spelled { AreSpelled }
{
    terms_are_read();
    facts_are_read();
    same_grammar();
}

/// A law: what `words_are_cut`, `headers_are_read` and `declarations_are_read` say, as one, which proofs on items build on.
pub fn item_laws()
    ensures { ItemLaws }
{
    words_are_cut();
    headers_are_read();
    declarations_are_read();
}
