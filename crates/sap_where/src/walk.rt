//! Where in a file a cause stands.
ghost use Rattle.std.specs.Prelude.{◌≡◌, ◌≤◌, ◌<◌, ℕ, drop, is_some, length, List, Some, None, IfSome, MatchOption};
ghost use Rattle.sap_grammar.specs.Words.{starts, words_of};
ghost use Rattle.sap_grammar.specs.Reading.{name_at};
ghost use Rattle.sap_read.specs.FileTokens.{HasTokens};
ghost use Rattle.sap_read.specs.declared.fault.ReadFault.TheVariants.{FunctionClash, Header, Lex as LexFault, Parameters, Syntax};
ghost use Rattle.sap_text.specs.declared.fault.Lex.{Lex};
ghost use Rattle.sap_where.specs.Parameters.{IsParameter};
ghost use Rattle.sap_stretches.specs.declared.stretch.Stretch.{Stretch};
ghost use Rattle.sap_where.specs.Where.{HoldsOnce, IsTakenAt, IsTakenNowhere, IsWhere, StartsFile, offset_of, one_byte};
ghost use Rattle.sap_expect.specs.FirstWrong.{IsFirstWrong};

use crate::find::{Beginning, first, second};
use crate::parameters::parameter_place;
use sap_grammar::{beyond, name_at, starts};
use sap_read::ReadFault;
use sap_stretches::{Stretch, stretch_at};
use sap_text::{Lex, Token};

// The offset that a fault of bytes names.
fn offset_of(fault: Lex) -> Option<u64>
    ensures { result ≡ offset_of fault }
{
    match fault {
        Lex::Mem => None,
        Lex::BadByte { at } => Some(at),
        Lex::OpenComment { at } => Some(at),
        Lex::OpenQuote { at } => Some(at),
        Lex::NameLong { at } => Some(at),
    }
}

/// The byte of a fault of bytes, where it is one of so many.
pub(crate) fn byte_of(fault: Lex, size: u64) -> Option<Stretch>
    ensures { MatchOption result ((at : ℕ) → offset_of fault ≡ Some at → size ≤ at)
        (λ s. (at : ℕ) × (offset_of fault ≡ Some at) × (at < size) × (s ≡ one_byte at)) }
{
    match offset_of(fault) {
        Some(at) => if at < size {
            Some(Stretch {
                from: at,
                to: at + 1,
            })
        } else {
            None
        },
        None => None,
    }
}

// Whether this symbol or reserved word stands as word number k.
#[tactic(auto, using(crate::proofs::Words::dropped))]
fn stands_at(bytes: &[u8], tokens: &[Token], k: usize, mark: &str) -> bool
    ensures { result ≡ starts mark.now (drop k (words_of bytes.now tokens.now)) }
{
    starts(bytes, beyond(k, tokens), mark)
}

// Whether a name stands there.
#[tactic(auto, using(crate::proofs::Words::dropped))]
fn is_named_at(bytes: &[u8], tokens: &[Token], k: usize) -> bool
    ensures { result ≡ is_some (name_at (drop k (words_of bytes.now tokens.now))) }
{
    match name_at(bytes, beyond(k, tokens)) {
        Some(_) => true,
        None => false,
    }
}

// The number of the first word that is wrong in a header, if one is.
fn wrong_header(bytes: &[u8], tokens: &[Token]) -> Option<usize>
    ensures { MatchOption result (StartsFile (words_of bytes.now tokens.now))
        (λ k. IsFirstWrong StartsFile (words_of bytes.now tokens.now) k) }
{
    if !stands_at(bytes, tokens, 0, "theory") {
        return Some(0);
    }
    if !is_named_at(bytes, tokens, 1) {
        return Some(1);
    }
    if !stands_at(bytes, tokens, 2, "begin") {
        return Some(2);
    }
    None
}

// The number of the token with which the item begins whose name is taken, if there is one.
fn taken(bytes: &[u8], tokens: &[Token], name: &[u8]) -> Option<usize>
    ensures { MatchOption result (IsTakenNowhere bytes.now tokens.now name.now)
        (λ k. IsTakenAt bytes.now tokens.now name.now k) }
{
    if let Some(k) = second(bytes, tokens, Beginning::Definition, name) {
        return Some(k);
    }
    if let Some(k) = second(bytes, tokens, Beginning::Statement, name) {
        return Some(k);
    }
    first(bytes, tokens, Beginning::Statement, name)
}

// Where the cause stands, if it is told by a token.
fn place_among(bytes: &[u8], tokens: &[Token], fault: &ReadFault) -> Option<Stretch>
    requires tokens { HasTokens bytes.now tokens.now }
    requires no_byte { (f : Lex) → fault.now ≡ LexFault f → ⊥ }
    requires no_item { (line : ℕ) → fault.now ≡ Syntax line → ⊥ }
    requires no_clash { (x : List ℕ) → fault.now ≡ FunctionClash x → ⊥ }
    requires no_parameter { (x : List ℕ) → fault.now ≡ Parameters x → ⊥ }
    ensures place { IfSome result (λ s. IsWhere bytes.now fault.now s) }
    ensures inside { IfSome result (λ s. s.from ≤ length bytes.now) }
    ensures header { fault.now ≡ Header → result ≡ None
        → StartsFile (words_of bytes.now tokens.now) }
    ensures none { result ≡ None → (s : Stretch) → IsWhere bytes.now fault.now s → ⊥ }
{
    match fault {
        ReadFault::Header => match wrong_header(bytes, tokens) {
            Some(k) => Some(stretch_at(tokens, k)),
            None => None,
        },
        ReadFault::TwoProcesses { .. } => match second(bytes, tokens, Beginning::Process, &[]) {
            Some(k) => Some(stretch_at(tokens, k)),
            None => None,
        },
        ReadFault::DuplicateName { name } => match taken(bytes, tokens, name.as_bytes()) {
            Some(k) => Some(stretch_at(tokens, k + 1)),
            None => None,
        },
        _ => None,
    }
}

/// The same, or where a parameter stands a second time.
pub(crate) fn place_in(bytes: &[u8], tokens: &[Token], fault: &ReadFault) -> Option<Stretch>
    requires tokens { HasTokens bytes.now tokens.now }
    requires no_byte { (f : Lex) → fault.now ≡ LexFault f → ⊥ }
    requires no_item { (line : ℕ) → fault.now ≡ Syntax line → ⊥ }
    requires no_clash { (x : List ℕ) → fault.now ≡ FunctionClash x → ⊥ }
    ensures place { IfSome result (λ s. IsWhere bytes.now fault.now s) }
    ensures inside { IfSome result (λ s. s.from ≤ length bytes.now) }
    ensures header { fault.now ≡ Header → result ≡ None
        → StartsFile (words_of bytes.now tokens.now) }
    ensures once { (x : List ℕ) → fault.now ≡ Parameters x → result ≡ None → (i : ℕ)
        → HoldsOnce (IsParameter bytes.now tokens.now x i) }
    ensures none { result ≡ None → (s : Stretch) → IsWhere bytes.now fault.now s → ⊥ }
{
    match fault {
        ReadFault::Parameters { name } => parameter_place(bytes, tokens, name),
        _ => place_among(bytes, tokens, fault),
    }
}
