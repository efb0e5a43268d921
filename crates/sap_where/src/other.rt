//! Where the other place of a cause stands, if the words of a file place it.
ghost use Rattle.std.specs.Prelude.{◌≡◌, ◌≤◌, ℕ, None, Some, Err, IfOk, IfSome, List, MatchOption, length};
ghost use Rattle.sap_terms.specs.Signature.{find_symbol, pairs_alone};
ghost use Rattle.sap_text.specs.declared.fault.Lex.{Lex};
ghost use Rattle.sap_grammar.specs.Signatures.{clash_from};
ghost use Rattle.sap_read.specs.FileTokens.{HasTokens};
ghost use Rattle.sap_read.specs.Files.{IsRead};
ghost use Rattle.sap_read.specs.declared.fault.ReadFault.TheVariants.{FunctionClash, Lex as LexFault, Parameters};
ghost use Rattle.sap_stretches.specs.declared.stretch.Stretch.{Stretch as StretchOf};
ghost use Rattle.sap_where.specs.FileDeclarations.{declared_before};
ghost use Rattle.sap_where.specs.OtherPlaces.{HasOtherStretch, IsOtherWhere, IsTakenFirstAt};
ghost use Rattle.sap_where.specs.Parameters.{IsParameter};
ghost use Rattle.sap_where.specs.Where.{HoldsOnce};

use crate::find::{Beginning, first, first_of_two};
use crate::first_declared::first_declaration;
use crate::parameters::first_parameter;
use sap_read::ReadFault;
use sap_stretches::{Stretch, stretch_at};
use sap_terms::Mem;
use sap_text::{Lex, Token};
use std::alloc::Global;

// The number of the token with which the first of two items begins that have this name.
fn taken_first(bytes: &[u8], tokens: &[Token], name: &[u8]) -> Option<usize>
    ensures { MatchOption result
        ((j : ℕ) → IsTakenFirstAt bytes.now tokens.now name.now j → ⊥)
        (λ j. IsTakenFirstAt bytes.now tokens.now name.now j) }
{
    if let Some(j) = first_of_two(bytes, tokens, Beginning::Definition, name) {
        return Some(j);
    }
    first_of_two(bytes, tokens, Beginning::Statement, name)
}

// The other place, if it is told by the beginning of an item.
fn other_item(bytes: &[u8], tokens: &[Token], fault: &ReadFault) -> Option<Stretch>
    requires tokens { HasTokens bytes.now tokens.now }
    requires no_clash { (x : List ℕ) → fault.now ≡ FunctionClash x → ⊥ }
    requires no_parameter { (x : List ℕ) → fault.now ≡ Parameters x → ⊥ }
    ensures place { IfSome result (λ s. IsOtherWhere bytes.now fault.now s) }
    ensures inside { IfSome result (λ s. s.from ≤ length bytes.now) }
    ensures none { result ≡ None → (s : StretchOf) → IsOtherWhere bytes.now fault.now s → ⊥ }
{
    match fault {
        ReadFault::TwoProcesses { .. } => {
            match first_of_two(bytes, tokens, Beginning::Process, &[]) {
                Some(j) => Some(stretch_at(tokens, j)),
                None => None,
            }
        }
        ReadFault::DuplicateName { name } => match taken_first(bytes, tokens, name.as_bytes()) {
            Some(j) => Some(stretch_at(tokens, j + 1)),
            None => None,
        },
        ReadFault::Arguments { name } => {
            match first(bytes, tokens, Beginning::Definition, name.as_bytes()) {
                Some(j) => Some(stretch_at(tokens, j + 1)),
                None => None,
            }
        }
        _ => None,
    }
}

// The other place among the tokens of the bytes.
fn other_among(
    alloc: Global,
    bytes: &[u8],
    tokens: &[Token],
    fault: &ReadFault,
) -> Result<Option<Stretch>, Mem>
    requires { HasTokens bytes.now tokens.now }
    ensures place { IfOk result (λ o. IfSome o (λ s. IsOtherWhere bytes.now fault.now s)) }
    ensures inside { IfOk result (λ o. IfSome o (λ s. s.from ≤ length bytes.now)) }
    ensures once { IfOk result (λ o. (x : List ℕ) → fault.now ≡ Parameters x → o ≡ None → (i : ℕ)
        → HoldsOnce (IsParameter bytes.now tokens.now x i)) }
    ensures declared { IfOk result (λ o. (x : List ℕ) → fault.now ≡ FunctionClash x
        → find_symbol pairs_alone.symbols x ≡ None
        → clash_from pairs_alone (declared_before bytes.now tokens.now (length tokens.now)) ≡ Some x
        → o ≡ None → ⊥) }
    ensures none { IfOk result (λ o. o ≡ None → (s : StretchOf) → IsOtherWhere bytes.now fault.now s → ⊥) }
{
    match fault {
        ReadFault::FunctionClash { name } => first_declaration(alloc, bytes, tokens, name),
        ReadFault::Parameters { name } => Ok(first_parameter(bytes, tokens, name)),
        _ => Ok(other_item(bytes, tokens, fault)),
    }
}

/// Where in the bytes of a file the other place of the cause stands for which they are refused, if their words place it: of a second
/// process the first `process`; of a name that is taken that of the first of two items that have it; of a parameter that stands twice the
/// first; of a declaration that clashes the first word of the first one of its name; of a use with another number of arguments the name
/// behind its `let`. `None`, where nothing of this is found in the bytes, and for all other causes. The tokens are those of the bytes; of
/// a fault of bytes, which have none, they aren't looked at. The time is linear in them, but for names, which are looked up. Want of memory
/// is the only error.
pub fn other_stretch(
    alloc: Global,
    bytes: &[u8],
    tokens: &[Token],
    fault: &ReadFault,
) -> Result<Option<Stretch>, Mem>
    requires { ((f : Lex) → fault.now ≡ LexFault f → ⊥) → HasTokens bytes.now tokens.now }
    ensures place { IfOk result (λ o. IfSome o (λ s. IsOtherWhere bytes.now fault.now s)) }
    ensures inside { IfOk result (λ o. IfSome o (λ s. s.from ≤ length bytes.now)) }
    ensures none { IfOk result (λ o. o ≡ None → (s : StretchOf) → IsOtherWhere bytes.now fault.now s → ⊥) }
    ensures told { HasOtherStretch fault.now → IsRead bytes.now (Err fault.now)
        → IfOk result (λ o. o ≡ None → ⊥) }
{
    match fault {
        ReadFault::Lex(_) => Ok(None),
        _ => other_among(alloc, bytes, tokens, fault),
    }
}
