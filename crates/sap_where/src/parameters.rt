//! Where a parameter stands a second time in a definition.
ghost use Rattle.std.specs.Prelude.{◌≡◌, ◌≤◌, ◌<◌, ℕ, None, length, IfSome, MatchOption};
ghost use Rattle.sap_read.specs.FileTokens.{HasTokens};
ghost use Rattle.sap_read.specs.declared.fault.ReadFault.TheVariants.{Parameters};
ghost use Rattle.sap_where.specs.Parameters.{CanBeParameter, IsParameter, goes_on, opens_parameters};
ghost use Rattle.sap_where.specs.Where.{HoldsOnce, IsFirst, IsRepeatedAt, IsSecond, IsWhere};
ghost use Rattle.sap_where.specs.OtherPlaces.{IsOtherWhere, IsRepeatedFirstAt};
ghost use Rattle.sap_stretches.specs.declared.stretch.Stretch.{Stretch};

use crate::items::has_name;
use crate::token_words::{is_named, stands};
use sap_grammar::beyond;
use sap_stretches::{Stretch, stretch_at};
use sap_terms::Name;
use sap_text::Token;

// Whether a definition with parameters begins here.
fn opens_parameters(bytes: &[u8], tokens: &[Token], i: usize) -> bool
    requires { i < length tokens.now }
    ensures { result ≡ opens_parameters bytes.now tokens.now i }
{
    stands(bytes, tokens, "let", i)
        && is_named(bytes, tokens, i + 1)
        && stands(bytes, tokens, "(", i + 2)
}

// Whether a parameter stands here, with a comma behind it.
fn goes_on(bytes: &[u8], tokens: &[Token], n: usize) -> bool
    requires { n < length tokens.now }
    ensures { result ≡ goes_on bytes.now tokens.now n }
{
    is_named(bytes, tokens, n) && stands(bytes, tokens, ",", n + 1)
}

// The first parameter of this name from this token on, in the definition that begins with token i.
fn next(bytes: &[u8], tokens: &[Token], name: &[u8], i: usize, from: usize) -> Option<usize>
    requires { CanBeParameter bytes.now tokens.now i from }
    ensures { MatchOption result
        ((n : ℕ) → from ≤ n → IsParameter bytes.now tokens.now name.now i n → ⊥)
        (λ k. (from ≤ k) × (k < length tokens.now) × IsParameter bytes.now tokens.now name.now i k
        × ((n : ℕ) → from ≤ n → n < k → IsParameter bytes.now tokens.now name.now i n → ⊥)) }
{
    let mut n = from;
    while n < tokens.len() {
        if has_name(bytes, beyond(n, tokens), name) {
            return Some(n);
        }
        if !goes_on(bytes, tokens, n) {
            return None;
        }
        n += 2;
    }
    None
}

// The second parameter of this name in the definition that begins with token i.
fn second(bytes: &[u8], tokens: &[Token], name: &[u8], i: usize) -> Option<usize>
    requires { i < length tokens.now }
    ensures { MatchOption result (HoldsOnce (IsParameter bytes.now tokens.now name.now i))
        (λ k. IsSecond (IsParameter bytes.now tokens.now name.now i) k) }
{
    if !opens_parameters(bytes, tokens, i) {
        return None;
    }
    let Some(k) = next(bytes, tokens, name, i, i + 3) else {
        return None;
    };
    if goes_on(bytes, tokens, k) {
        next(bytes, tokens, name, i, k + 2)
    } else {
        None
    }
}

// The second parameter of this name in the first definition that has it twice.
fn repeated(bytes: &[u8], tokens: &[Token], name: &[u8]) -> Option<usize>
    ensures { MatchOption result
        ((i : ℕ) → HoldsOnce (IsParameter bytes.now tokens.now name.now i))
        (λ k. IsRepeatedAt bytes.now tokens.now name.now k) }
{
    let mut i = 0;
    while i < tokens.len() {
        if let Some(k) = second(bytes, tokens, name, i) {
            return Some(k);
        }
        i += 1;
    }
    None
}

/// Where this name stands a second time among the parameters of a definition, the first that has it twice among them.
pub(crate) fn parameter_place(bytes: &[u8], tokens: &[Token], name: &Name) -> Option<Stretch>
    requires { HasTokens bytes.now tokens.now }
    ensures place { IfSome result (λ s. IsWhere bytes.now (Parameters name.now) s) }
    ensures inside { IfSome result (λ s. s.from ≤ length bytes.now) }
    ensures none { result ≡ None → (s : Stretch) → IsWhere bytes.now (Parameters name.now) s → ⊥ }
    ensures once { result ≡ None → (i : ℕ)
        → HoldsOnce (IsParameter bytes.now tokens.now name.now i) }
{
    match repeated(bytes, tokens, name.as_bytes()) {
        Some(k) => Some(stretch_at(tokens, k)),
        None => None,
    }
}

// The first parameter of this name in the definition that begins with token i, where it has two.
fn first_of_two(bytes: &[u8], tokens: &[Token], name: &[u8], i: usize) -> Option<usize>
    requires { i < length tokens.now }
    ensures { MatchOption result (HoldsOnce (IsParameter bytes.now tokens.now name.now i))
        (λ j. (k : ℕ) × IsSecond (IsParameter bytes.now tokens.now name.now i) k
        × IsFirst (IsParameter bytes.now tokens.now name.now i) j) }
{
    match second(bytes, tokens, name, i) {
        Some(_) => next(bytes, tokens, name, i, i + 3),
        None => None,
    }
}

// The first of two parameters of this name, in the first definition that has it twice.
fn repeated_first(bytes: &[u8], tokens: &[Token], name: &[u8]) -> Option<usize>
    ensures { MatchOption result
        ((i : ℕ) → HoldsOnce (IsParameter bytes.now tokens.now name.now i))
        (λ j. IsRepeatedFirstAt bytes.now tokens.now name.now j) }
{
    let mut i = 0;
    while i < tokens.len() {
        if let Some(j) = first_of_two(bytes, tokens, name, i) {
            return Some(j);
        }
        i += 1;
    }
    None
}

/// Where this name stands first among the parameters of that definition.
pub(crate) fn first_parameter(bytes: &[u8], tokens: &[Token], name: &Name) -> Option<Stretch>
    requires { HasTokens bytes.now tokens.now }
    ensures place { IfSome result (λ s. IsOtherWhere bytes.now (Parameters name.now) s) }
    ensures inside { IfSome result (λ s. s.from ≤ length bytes.now) }
    ensures none { result ≡ None → (s : Stretch) → IsOtherWhere bytes.now (Parameters name.now) s → ⊥ }
    ensures once { result ≡ None → (i : ℕ)
        → HoldsOnce (IsParameter bytes.now tokens.now name.now i) }
{
    match repeated_first(bytes, tokens, name.as_bytes()) {
        Some(j) => Some(stretch_at(tokens, j)),
        None => None,
    }
}
