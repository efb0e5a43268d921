//! Where a piece of a file that is no item is wrong.
ghost use Rattle.std.specs.Prelude.{◌≡◌, ◌≤◌, ℕ, length, IfSome, List, None};
ghost use Rattle.sap_grammar.specs.Words.{words_of};
ghost use Rattle.sap_read.specs.FileTokens.{HasTokens};
ghost use Rattle.sap_read.specs.declared.fault.ReadFault.TheVariants.{Syntax};
ghost use Rattle.sap_expect.specs.FileWords.{IsFileWords};
ghost use Rattle.sap_expect.specs.WrongWord.{IsWrongAt};
ghost use Rattle.sap_stretches.specs.declared.stretch.Stretch.{Stretch as StretchOf};
ghost use Rattle.sap_where.specs.Where.{IsWhere};

use sap_stretches::{Stretch, stretch_at};
use sap_text::Token;

/// Where a piece is wrong that is no item: at the first word with which the words of the tokens begin no file's words any more, before
/// which so many stand, or what is behind them all; `None` where they are a file's.
pub(crate) fn item_place(tokens: &[Token], wrong: Option<usize>) -> Option<Stretch>
    ensures place { (z : List ℕ) → HasTokens z tokens.now → IsWrongAt (words_of z tokens.now) wrong
        → IfSome result (λ s. (line : ℕ) → IsWhere z (Syntax line) s) }
    ensures inside { (z : List ℕ) → HasTokens z tokens.now → IfSome result (λ s. s.from ≤ length z) }
    ensures words { (z : List ℕ) → IsWrongAt (words_of z tokens.now) wrong → result ≡ None
        → IsFileWords (words_of z tokens.now) }
    ensures none { (z : List ℕ) → HasTokens z tokens.now → IsWrongAt (words_of z tokens.now) wrong → result ≡ None
        → (line : ℕ) (s : StretchOf) → IsWhere z (Syntax line) s → ⊥ }
{
    match wrong {
        Some(k) => Some(stretch_at(tokens, k)),
        None => None,
    }
}
