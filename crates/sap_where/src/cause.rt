//! Where a cause stands that the words of a file place.
ghost use Rattle.std.specs.Prelude.{◌≡◌, ◌≤◌, ℕ, None, Some, Err, IfOk, IfSome, List, length};
ghost use Rattle.sap_text.specs.declared.fault.Lex.{Lex};
ghost use Rattle.sap_grammar.specs.Words.{words_of};
ghost use Rattle.sap_read.specs.FileTokens.{HasTokens};
ghost use Rattle.sap_read.specs.declared.fault.ReadFault.TheVariants.{FunctionClash, Header, Lex as LexFault, Parameters, Syntax};
ghost use Rattle.sap_read.specs.Files.{IsRead};
ghost use Rattle.sap_terms.specs.Signature.{pairs_alone};
ghost use Rattle.sap_grammar.specs.Signatures.{clash_from};
ghost use Rattle.sap_expect.specs.FileWords.{IsFileWords};
ghost use Rattle.sap_expect.specs.WrongWord.{IsWrongAt};
ghost use Rattle.sap_where.specs.FileDeclarations.{declared_before};
ghost use Rattle.sap_where.specs.Parameters.{IsParameter};
ghost use Rattle.sap_where.specs.Where.{HasStretch, HoldsOnce, IsWhere, StartsFile};
ghost use Rattle.sap_stretches.specs.declared.stretch.Stretch.{Stretch as StretchOf};

use crate::clash::clash_place;
use crate::item_place::item_place;
use crate::walk::{byte_of, place_in};
use sap_expect::files_are_their_words;
use sap_read::ReadFault;
use sap_stretches::Stretch;
use sap_terms::Mem;
use sap_text::Token;
use std::alloc::Global;

// Where the cause stands among the tokens of the bytes.
fn place_among_tokens(
    alloc: Global,
    bytes: &[u8],
    tokens: &[Token],
    fault: &ReadFault,
    wrong: Option<usize>,
) -> Result<Option<Stretch>, Mem>
    requires tokens { HasTokens bytes.now tokens.now }
    requires wrong { (line : ℕ) → fault.now ≡ Syntax line → IsWrongAt (words_of bytes.now tokens.now) wrong }
    requires no_byte { (f : Lex) → fault.now ≡ LexFault f → ⊥ }
    ensures place { IfOk result (λ o. IfSome o (λ s. IsWhere bytes.now fault.now s)) }
    ensures inside { IfOk result (λ o. IfSome o (λ s. s.from ≤ length bytes.now)) }
    ensures header { IfOk result (λ o. fault.now ≡ Header → o ≡ None
        → StartsFile (words_of bytes.now tokens.now)) }
    ensures once { IfOk result (λ o. (x : List ℕ) → fault.now ≡ Parameters x → o ≡ None → (i : ℕ)
        → HoldsOnce (IsParameter bytes.now tokens.now x i)) }
    ensures clash { IfOk result (λ o. (x : List ℕ) → fault.now ≡ FunctionClash x → o ≡ None
        → clash_from pairs_alone (declared_before bytes.now tokens.now (length tokens.now))
        ≡ Some x → ⊥) }
    ensures item { IfOk result (λ o. (line : ℕ) → fault.now ≡ Syntax line → o ≡ None
        → IsFileWords (words_of bytes.now tokens.now)) }
    ensures none { IfOk result (λ o. o ≡ None → (s : StretchOf) → IsWhere bytes.now fault.now s → ⊥) }
{
    match fault {
        ReadFault::Syntax { .. } => Ok(item_place(tokens, wrong)),
        ReadFault::FunctionClash { name } => clash_place(alloc, bytes, tokens, name),
        _ => Ok(place_in(bytes, tokens, fault)),
    }
}

/// Where in the bytes of a file the cause stands for which they are refused, if their words place it: of a fault of bytes the byte;
/// without a header the first word that is wrong in one, or the end of the last word; of a piece that is no item the first word with which
/// no file goes on, or the end of the last word; of a second process its `process`; of a name that is taken the second definition's name,
/// or that of the second restriction or lemma, or of the only one; of a parameter that stands twice the second, in the first definition
/// that has it twice; of a declaration that clashes its first word. `None`, where nothing of this is found in the bytes, and for all other
/// causes. The tokens are those of the bytes; of a fault of bytes, which have none, they aren't looked at. Of a piece that is no item it is
/// handed in how many words stand before the first wrong one (`sap_expect::wrong_word`). The time is linear in the tokens, but for names,
/// which are looked up. Want of memory is the only error.
pub fn cause_stretch(
    alloc: Global,
    bytes: &[u8],
    tokens: &[Token],
    fault: &ReadFault,
    wrong: Option<usize>,
) -> Result<Option<Stretch>, Mem>
    requires tokens { ((f : Lex) → fault.now ≡ LexFault f → ⊥) → HasTokens bytes.now tokens.now }
    requires wrong { (line : ℕ) → fault.now ≡ Syntax line → IsWrongAt (words_of bytes.now tokens.now) wrong }
    ensures place { IfOk result (λ o. IfSome o (λ s. IsWhere bytes.now fault.now s)) }
    ensures inside { IfOk result (λ o. IfSome o (λ s. s.from ≤ length bytes.now)) }
    ensures none { IfOk result (λ o. o ≡ None → (s : StretchOf) → IsWhere bytes.now fault.now s → ⊥) }
    ensures told { HasStretch fault.now → IsRead bytes.now (Err fault.now)
        → IfOk result (λ o. o ≡ None → ⊥) }
{
    files_are_their_words();
    if let ReadFault::Lex(lex) = fault {
        return Ok(byte_of(*lex, bytes.len() as u64));
    }
    place_among_tokens(alloc, bytes, tokens, fault, wrong)
}
