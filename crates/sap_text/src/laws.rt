//! Laws of tokens, as contracts of functions that do nothing.
ghost use Rattle.std.specs.Prelude.{◌≡◌, ◌≤◌, ◌+◌, ◌-◌, ◌++◌, ◌∷◌, [], ℕ, List, true, length, take, drop, slice_get, Some};
ghost use Rattle.std.specs.List.{list_all};
ghost use Rattle.std.specs.Char.{is_ascii_digit};
ghost use Rattle.sap_text.specs.declared.token.Kind.{Kind};
ghost use Rattle.sap_text.specs.declared.token.Kind.TheVariants as kind;
ghost use Rattle.sap_text.specs.declared.token.Token.{Token};
ghost use Rattle.sap_text.specs.Tokens.{IsToken, IsLongest, Lexed, IsLexed, Stops, is_word, is_content, stands_alone, line_feeds};
ghost use Rattle.sap_text.specs.Spans.{AreTokens, InOrder, text_of};

/// A law: any bytes give an answer.
pub fn some_answer()
    ensures { (most : ℕ) (z : List ℕ) → ((o : Lexed) × IsLexed most 0 1 z o) }
{}

/// A law: the bytes give at most one answer.
pub fn one_answer()
    ensures { (most : ℕ) (z : List ℕ) (o u : Lexed) → IsLexed most 0 1 z o → IsLexed most 0 1 z u → o ≡ u }
{}

/// A law: spans aren't empty, stand in order without overlap, and lie within the bytes.
pub fn spans_in_order()
    ensures { (z : List ℕ) (ts : List Token) → AreTokens z ts → InOrder 0 (length z) ts }
{}

/// A law: the bytes of each token are a token of its kind.
pub fn spans_are_tokens()
    ensures { (z : List ℕ) (ts : List Token) (k : ℕ) (t : Token) → AreTokens z ts → slice_get ts k ≡ Some t
        → IsToken t.kind (text_of z t) }
{}

/// A law: no token that begins where one of the tokens does is longer than it.
pub fn longest_is_taken()
    ensures { (z : List ℕ) (ts : List Token) (k : ℕ) (t : Token) → AreTokens z ts → slice_get ts k ≡ Some t
        → (j : Kind) (q c : List ℕ) → drop t.from z ≡ q ++ c → IsToken j q → length q ≤ t.to - t.from }
{}

/// A law: a token's line is 1 and the line feeds before it.
pub fn lines_are_counted()
    ensures { (z : List ℕ) (ts : List Token) (k : ℕ) (t : Token) → AreTokens z ts → slice_get ts k ≡ Some t
        → t.line ≡ 1 + line_feeds (take t.from z) }
{}

/// A law: what is the longest token where it stands: an identifier or a number before what doesn't go on with it, what stands
/// between quotes, and a symbol that stands alone. So a text can be written token by token.
pub fn longest_tokens()
    ensures names { (p b : List ℕ) → IsToken kind.Ident p → Stops is_word b → IsLongest kind.Ident p b }
    ensures numbers { (p b : List ℕ) → IsToken kind.Number p → Stops is_ascii_digit b → IsLongest kind.Number p b }
    ensures quoted { (s b : List ℕ) → list_all is_content s ≡ true → IsLongest kind.Quoted (39 ∷ (s ++ (39 ∷ []))) b }
    ensures symbols { (s b : List ℕ) → stands_alone s b ≡ true → IsLongest kind.Symbol s b }
{}
