//! Laws of what is told of patterns, as contracts of functions that do nothing.
ghost use Rattle.std.specs.Prelude.{◌≡◌, ℕ, List, [], ◌∷◌, codes};
ghost use Rattle.sap_terms.specs.Signature.{Sig};
ghost use Rattle.sap_text.specs.declared.token.Token.{Token};
ghost use Rattle.sap_grammar.specs.TermGrammar.{IsConstant};
ghost use Rattle.sap_grammar.specs.Words.{words_of};
ghost use Rattle.sap_process.specs.Action.{insert, new, out};
ghost use Rattle.sap_captures.specs.Captures.{IsFrom, IsWordAt};
ghost use Rattle.sap_captures.specs.Examples.{Binds, Compares, by_x, c, defined, found, inner, main, n_var, on_channel, one, showing, small_words, taking, twice, used, with_n, x, x_var};
ghost use Rattle.sap_captures.specs.Patterns.{IsBindingNode, IsComparedNode};
ghost use Rattle.sap_captures.specs.declared.kind.Kind.TheVariants.{Captured, Compared};

use sap_head_words::one_head;
use sap_stems::nodes_have_stems;

/// A law: by hand, which nodes of small heads bind, and which are compared. `in(x)` binds where `x` isn't in scope, and is compared where it
/// is; so on a channel, whose nodes stand in front. Of `in(<x, ~n>)` no node is compared; of `in(<x, x>)` the first `x` binds; a channel binds
/// nothing; of an embedded rule its left side binds, not what it shows or adds; and other heads have no pattern.
pub fn heads_by_hand()
    ensures binds { Binds [] one 0 }
    ensures binds_no_other { (k : ℕ) → Binds [] one k → k ≡ 0 }
    ensures binds_not { (k : ℕ) → Binds (x_var ∷ []) one k → ⊥ }
    ensures compares { Compares (x_var ∷ []) one 0 }
    ensures compares_no_other { (k : ℕ) → Compares (x_var ∷ []) one k → k ≡ 0 }
    ensures compares_not { (k : ℕ) → Compares [] one k → ⊥ }
    ensures other_name { (k : ℕ) → Compares (n_var ∷ []) one k → ⊥ }
    ensures binds_on_channel { Binds [] on_channel 1 }
    ensures compares_on_channel { Compares (x_var ∷ []) on_channel 1 }
    ensures no_channel { (Binds [] on_channel 0 → ⊥) × (Compares (x_var ∷ []) on_channel 0 → ⊥) }
    ensures inside { Binds (n_var ∷ []) with_n 1 }
    ensures no_known { Binds (n_var ∷ []) with_n 2 → ⊥ }
    ensures no_symbol { Binds [] with_n 0 → ⊥ }
    ensures larger { (k : ℕ) → Compares (x_var ∷ n_var ∷ []) with_n k → ⊥ }
    ensures first { Binds [] twice 1 }
    ensures no_second { Binds [] twice 2 → ⊥ }
    ensures channel { (Binds [] by_x 0 → ⊥) × Binds [] by_x 1 }
    ensures left_side { Binds [] taking 1 }
    ensures no_other_side { (k : ℕ) → Binds [] taking k → k ≡ 1 }
    ensures no_left_side { (k : ℕ) → Binds [] showing k → ⊥ }
    ensures no_rule { (k : ℕ) → Compares (x_var ∷ []) taking k → ⊥ }
    ensures no_pattern { (k : ℕ) → (Binds [] (out x) k → ⊥) × (Binds [] (new x_var) k → ⊥)
        × (Binds [] (insert x x) k → ⊥) }
    ensures no_input { (k : ℕ) → (Compares (x_var ∷ []) (out x) k → ⊥)
        × (Compares (x_var ∷ []) (new x_var) k → ⊥) }
    ensures no_lookup { (k : ℕ) → (IsBindingNode found k → ⊥) × (IsComparedNode found k → ⊥) }
{}

/// A law: by hand, of `let A(x) = in(x)` and `process: A(w)` the node of the input stems from the `w` of the use, from which three words of
/// the file are left; so it is captured there, and from nowhere else. A captured name stems from a use alone, a compared one from anywhere.
pub fn stretches_by_hand()
    ensures argument { (g : Sig) (z : List ℕ) (ts : List Token) → (IsConstant g (codes "w") → ⊥) → words_of z ts ≡ small_words
        → IsWordAt Captured g z ts defined main [] 0 3 }
    ensures no_other { (g : Sig) (z : List ℕ) (ts : List Token) (k n : ℕ) → (IsConstant g (codes "w") → ⊥) → words_of z ts ≡ small_words
        → IsWordAt Captured g z ts defined main [] k n → (k ≡ 0) × (n ≡ 3) }
    ensures from_use { IsFrom Captured used }
    ensures from_no_head { IsFrom Captured inner → ⊥ }
    ensures from_anywhere { IsFrom Compared used × IsFrom Compared inner }
{
    one_head();
    nodes_have_stems();
}
