//! Laws of the words of nodes, as contracts of functions that do nothing.
ghost use Rattle.std.specs.Prelude.{◌≡◌, ◌<◌, ◌≤◌, ℕ, Bool, List, All, length, sum_by, false, codes};
ghost use Rattle.std.specs.List.{AllZip};
ghost use Rattle.sap_terms.specs.Signature.{Sig};
ghost use Rattle.sap_terms.specs.declared.fact.Fact.{Fact};
ghost use Rattle.sap_terms.specs.Tree.{Tree, node_count, trees_count, trees_of};
ghost use Rattle.sap_grammar.specs.Words.{Word, starts};
ghost use Rattle.sap_grammar.specs.declared.limits.Limits.{Limits};
ghost use Rattle.sap_grammar.specs.FactGrammar.{IsFact, AreFacts};
ghost use Rattle.sap_grammar.specs.TermGrammar.{IsTerm, IsArgs, IsConstant};
ghost use Rattle.sap_node_words.specs.FactWords.{fact_count, fact_words, facts_words};
ghost use Rattle.sap_node_words.specs.NodeWords.{term_words, args_words, nodes, nodes_of, StandsAt, last_words, HasWords};
ghost use Rattle.sap_node_words.specs.Examples.{mixed, mixed_words, mixed_with, inner, inner_words, inner_with, triple, nested_words, flat_words, triple_with, pair_of_two, named_words, signed_words, constant_and_fresh, message_and_fresh, two_with};

use sap_grammar::one_term;

/// A law: each node has one word, which is a word of the term, and one at which the node stands. However words spell a term, it
/// has the same words for its nodes; and so have any two terms from one place that no opening parenthesis follows.
pub fn nodes_and_words()
    ensures nodes { (g : Sig) (t : Tree) (a b : List Word) (r : IsTerm g t a b)
        → length (term_words r) ≡ node_count t }
    ensures within { (g : Sig) (t : Tree) (a b : List Word) (r : IsTerm g t a b)
        → All (λ n. (length b < n) × (n ≤ length a)) (term_words r) }
    ensures words { (g : Sig) (t : Tree) (a b : List Word) (r : IsTerm g t a b)
        → AllZip (λ u n. StandsAt g u (last_words n a)) (nodes t) (term_words r) }
    ensures same { (g h : Sig) (t : Tree) (a b c : List Word) (r : IsTerm g t a b)
        (s : IsTerm h t a c) → term_words r ≡ term_words s }
    ensures one { (g : Sig) (t u : Tree) (a b c : List Word) (r : IsTerm g t a b)
        (s : IsTerm g u a c) → starts (codes "(") b ≡ false → starts (codes "(") c ≡ false
        → term_words r ≡ term_words s }
{
    one_term();
}

/// A law: each node of arguments, of a fact and of facts has one word, of arguments one at which the node stands. Words that spell one term that no opening parenthesis follows, the
/// same arguments, the same fact or the same facts, have the same words for their nodes, and end at one place.
pub fn facts_and_words()
    ensures arguments { (g : Sig) (ts : List Tree) (a b : List Word) (r : IsArgs g ts a b)
        → length (args_words r) ≡ trees_count (trees_of ts) }
    ensures within { (g : Sig) (ts : List Tree) (a b : List Word) (r : IsArgs g ts a b)
        → All (λ n. (length b < n) × (n ≤ length a)) (args_words r) }
    ensures words { (g : Sig) (ts : List Tree) (a b : List Word) (r : IsArgs g ts a b)
        → AllZip (λ u n. StandsAt g u (last_words n a)) (nodes_of (trees_of ts)) (args_words r) }
    ensures fact { (g : Sig) (f : Fact) (a b : List Word) (r : IsFact g f a b)
        → length (fact_words r) ≡ fact_count f }
    ensures facts { (g : Sig) (m : Limits) (s : Bool) (w : List ℕ) (fs : List Fact) (a b : List Word)
        (r : AreFacts g m s w fs a b) → length (facts_words r) ≡ sum_by fact_count fs }
    ensures same_term { (g h : Sig) (t : Tree) (a b c : List Word) (r : IsTerm g t a b)
        (s : IsTerm h t a c) → starts (codes "(") b ≡ false → starts (codes "(") c ≡ false
        → (term_words r ≡ term_words s) × (b ≡ c) }
    ensures same_arguments { (g h : Sig) (ts : List Tree) (a b c : List Word)
        (r : IsArgs g ts a b) (s : IsArgs h ts a c) → (args_words r ≡ args_words s) × (b ≡ c) }
    ensures same_fact { (g h : Sig) (f : Fact) (a b c : List Word) (r : IsFact g f a b)
        (s : IsFact h f a c) → (fact_words r ≡ fact_words s) × (b ≡ c) }
    ensures same_facts { (g h : Sig) (m l : Limits) (s u : Bool) (w v : List ℕ) (fs : List Fact)
        (a b c : List Word) (r : AreFacts g m s w fs a b) (o : AreFacts h l u v fs a c)
        → (facts_words r ≡ facts_words o) × (b ≡ c) }
{}

/// A law: seven worked examples of the words of nodes, and words that these haven't: the sign of a variable, a parenthesis, a comma,
/// the word behind, of a tuple its first part, of the pair behind a comma the name behind its sign, the comma, or the tuple's `<`,
/// and of a variable another of its name.
pub fn node_words_by_hand()
    ensures mixed { (g : Sig) → HasWords g mixed mixed_words (mixed_with 16 13 11 10 8 7 5) }
    ensures inner { (g : Sig) → HasWords g inner inner_words (inner_with 11 10 8 8 7 5 2) }
    ensures nested { (g : Sig) → HasWords g triple nested_words (triple_with 9 8 6 5 3) }
    ensures flat { (g : Sig) → HasWords g triple flat_words (triple_with 7 6 4 4 2) }
    ensures named { (g : Sig) → HasWords g pair_of_two named_words (two_with 6 4 2) }
    ensures constant { (g : Sig) → IsConstant g (codes "c")
        → HasWords g constant_and_fresh signed_words (two_with 6 5 2) }
    ensures message { (g : Sig) → (IsConstant g (codes "c") → ⊥)
        → HasWords g message_and_fresh signed_words (two_with 6 5 2) }
    ensures no_sign { (g : Sig) → HasWords g mixed mixed_words (mixed_with 16 14 11 10 8 7 5) → ⊥ }
    ensures no_public_sign { (g : Sig)
        → HasWords g mixed mixed_words (mixed_with 16 13 11 10 8 8 5) → ⊥ }
    ensures no_parenthesis { (g : Sig)
        → HasWords g mixed mixed_words (mixed_with 15 13 11 10 8 7 5) → ⊥ }
    ensures no_comma { (g : Sig) → HasWords g mixed mixed_words (mixed_with 16 13 11 10 9 7 5) → ⊥ }
    ensures no_name_of_rest { (g : Sig)
        → HasWords g mixed mixed_words (mixed_with 16 13 11 10 7 7 5) → ⊥ }
    ensures no_part_of_tuple { (g : Sig)
        → HasWords g mixed mixed_words (mixed_with 16 13 10 10 8 7 5) → ⊥ }
    ensures no_word_behind { (g : Sig)
        → HasWords g mixed mixed_words (mixed_with 16 13 11 9 8 7 5) → ⊥ }
    ensures no_tuple_of_rest { (g : Sig)
        → HasWords g mixed mixed_words (mixed_with 16 13 11 10 11 7 5) → ⊥ }
    ensures no_closing { (g : Sig)
        → HasWords g mixed mixed_words (mixed_with 16 13 11 10 8 7 3) → ⊥ }
    ensures no_inner_part { (g : Sig)
        → HasWords g inner inner_words (inner_with 11 10 7 8 7 5 2) → ⊥ }
    ensures no_rest_as_tuple { (g : Sig)
        → HasWords g triple nested_words (triple_with 9 8 5 5 3) → ⊥ }
    ensures no_tuple_sign { (g : Sig) → HasWords g triple flat_words (triple_with 7 6 7 4 2) → ⊥ }
    ensures no_first_argument { (g : Sig)
        → HasWords g pair_of_two named_words (two_with 4 4 2) → ⊥ }
    ensures no_sign_in_rest { (g : Sig) → IsConstant g (codes "c")
        → HasWords g constant_and_fresh signed_words (two_with 6 5 3) → ⊥ }
    ensures no_later_name { (g : Sig) → (IsConstant g (codes "c") → ⊥)
        → HasWords g message_and_fresh signed_words (two_with 6 2 2) → ⊥ }
{}
