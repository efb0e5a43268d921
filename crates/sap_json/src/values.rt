//! The parts of a value, read.
ghost use Rattle.std.specs.Prelude.{◌≡◌, IfOk, map, option_map};
ghost use Rattle.serde_json.specs.Find.{as_str};
ghost use Rattle.serde_json.specs.View.{view};
ghost use Rattle.sap_run_lines.specs.WholeWords.{IsReadAs};
ghost use Rattle.sap_json.specs.code.Reading.{list_in, both, pair_in, first_in, IsNumberData, IsFreshData, IsPublicData, IsNameData, IsBindingData, IsBindingOf};

use sap_run_lines::{
    is_run_name, read_fresh_name, read_public_name, read_run_term, read_run_variable,
};
use sap_terms::{Binding, Mem, Name};
use serde_json::Value;
use std::alloc::Global;

/// The items of an array.
pub(crate) fn list(value: &Value) -> Option<&[Value]>
    ensures { option_map (λ s. map view s.now) result ≡ list_in (view value.now) }
{
    match value.as_array() {
        None => None,
        Some(items) => Some(items.as_slice()),
    }
}

/// The bytes of a string.
pub(crate) fn text(value: &Value) -> Option<&[u8]>
    ensures { option_map (λ s. s.now) result ≡ as_str (view value.now) }
{
    match value.as_str() {
        None => None,
        Some(text) => Some(text.as_bytes()),
    }
}

// Both strings.
fn texts<'a>(first: &'a Value, second: &'a Value) -> Option<(&'a [u8], &'a [u8])>
    ensures { option_map (λ p. (p.0.now, p.1.now)) result
        ≡ both (as_str (view first.now)) (as_str (view second.now)) }
{
    match text(first) {
        None => None,
        Some(first) => match text(second) {
            None => None,
            Some(second) => Some((first, second)),
        },
    }
}

// The strings of an array of two.
fn pair(value: &Value) -> Option<(&[u8], &[u8])>
    ensures { option_map (λ p. (p.0.now, p.1.now)) result ≡ pair_in (view value.now) }
{
    match list(value) {
        Some([first, second]) => texts(first, second),
        _ => None,
    }
}

/// The string that an array begins with, and its further items.
pub(crate) fn word_first(value: &Value) -> Option<(&[u8], &[Value])>
    ensures { option_map (λ p. (p.0.now, map view p.1.now)) result ≡ first_in (view value.now) }
{
    let (first, rest) = list(value)?.split_first()?;
    Some((text(first)?, rest))
}

/// A number that is written by digits alone and is of 64 bits.
pub(crate) fn number(value: &Value) -> Option<u64>
    ensures { IsReadAs IsNumberData (view value.now) result }
{
    value.as_u64()
}

/// The number of a fresh name.
pub(crate) fn fresh(value: &Value) -> Option<u64>
    ensures { IsReadAs IsFreshData (view value.now) result }
{
    match text(value) {
        None => None,
        Some(text) => read_fresh_name(text),
    }
}

/// The content of a public name.
pub(crate) fn public(alloc: Global, value: &Value) -> Result<Option<Name>, Mem>
    ensures { IfOk result (IsReadAs IsPublicData (view value.now)) }
{
    match text(value) {
        None => Ok(None),
        Some(text) => read_public_name(alloc, text),
    }
}

/// A name of a symbol or a rule.
pub(crate) fn name(alloc: Global, value: &Value) -> Result<Option<Name>, Mem>
    ensures { IfOk result (IsReadAs IsNameData (view value.now)) }
{
    match text(value) {
        None => Ok(None),
        Some(text) => if is_run_name(text) {
            let name = Name::from_bytes(alloc, text)?;
            Ok(Some(name))
        } else {
            Ok(None)
        },
    }
}

// A binding, from the strings of its variable and of its term.
fn binding_of(alloc: Global, variable: &[u8], term: &[u8]) -> Result<Option<Binding>, Mem>
    ensures { IfOk result (IsReadAs IsBindingOf (variable.now, term.now)) }
{
    match read_run_variable(alloc, variable)? {
        None => Ok(None),
        Some(var) => match read_run_term(alloc, term) {
            Err(mem) => {
                drop(var);
                Err(mem)
            }
            Ok(None) => {
                drop(var);
                Ok(None)
            }
            Ok(Some(term)) => Ok(Some(Binding { var, term })),
        },
    }
}

/// A variable with its term.
pub(crate) fn binding(alloc: Global, value: &Value) -> Result<Option<Binding>, Mem>
    ensures { IfOk result (IsReadAs IsBindingData (view value.now)) }
{
    match pair(value) {
        None => Ok(None),
        Some((variable, term)) => binding_of(alloc, variable, term),
    }
}
