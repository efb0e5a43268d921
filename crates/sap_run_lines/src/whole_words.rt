//! Words of runs that stand by themselves, read from whole bytes.
ghost use Rattle.std.specs.Prelude.{◌≡◌, ◌↔◌, IsTrue, IfOk, is_some};
ghost use Rattle.std.specs.Option.{option_map};
ghost use Rattle.sap_terms.specs.View.{tree};
ghost use Rattle.sap_run_lines.specs.RunTerms.{IsRunName};
ghost use Rattle.sap_run_lines.specs.WholeWords.{IsReadAs, IsFreshName, IsPublicName, IsRunVariable, IsWholeTerm};
ghost use Rattle.sap_run_lines.specs.code.WholeTaking.{is_end, name_alone, fresh_alone, public_alone, sort_first, behind_sign, variable_alone, term_alone};

use crate::take::{behind, content_at, name_at, number_at, starts};
use crate::take_term::small_term;
use sap_terms::{Mem, Name, Sort, Term, Var};
use std::alloc::Global;

fn is_end(bytes: &[u8]) -> bool
    ensures { result ≡ is_end bytes.now }
{
    match bytes.split_first() {
        Some(_) => false,
        None => true,
    }
}

#[tactic(auto, unfolding(crate::specs::code::Taking::after))]
fn name_alone(bytes: &[u8]) -> Option<&[u8]>
    ensures { option_map (λ x. x.now) result ≡ name_alone bytes.now }
{
    let (name, rest) = name_at(bytes)?;
    if is_end(rest) { Some(name) } else { None }
}

#[tactic(auto, unfolding(crate::specs::code::Taking::after))]
fn fresh_alone(bytes: &[u8]) -> Option<u64>
    ensures { result ≡ fresh_alone bytes.now }
{
    if !starts(b'~', bytes) {
        return None;
    }
    let (number, rest) = number_at(behind(1, bytes))?;
    if is_end(rest) { Some(number) } else { None }
}

#[tactic(auto, unfolding(crate::specs::code::Taking::after))]
fn content_alone(bytes: &[u8]) -> Option<&[u8]>
    ensures { option_map (λ x. x.now) result ≡ public_alone bytes.now }
{
    if !starts(b'\'', bytes) {
        return None;
    }
    let (content, rest) = content_at(behind(1, bytes))?;
    if is_end(rest) { Some(content) } else { None }
}

fn public_alone(alloc: Global, bytes: &[u8]) -> Result<Option<Name>, Mem>
    ensures { IfOk result (λ o. o ≡ public_alone bytes.now) }
{
    match content_alone(bytes) {
        None => Ok(None),
        Some(content) => {
            let name = Name::from_bytes(alloc, content)?;
            Ok(Some(name))
        }
    }
}

fn sort_first(bytes: &[u8]) -> Sort
    ensures { result ≡ sort_first bytes.now }
{
    if starts(b'~', bytes) {
        Sort::Fresh
    } else if starts(b'$', bytes) {
        Sort::Pub
    } else {
        Sort::Msg
    }
}

fn behind_sign(bytes: &[u8]) -> &[u8]
    ensures { result.now ≡ behind_sign bytes.now }
{
    if starts(b'~', bytes) {
        behind(1, bytes)
    } else if starts(b'$', bytes) {
        behind(1, bytes)
    } else {
        bytes
    }
}

#[tactic(auto, unfolding(crate::specs::code::Taking::given))]
fn variable_alone(alloc: Global, bytes: &[u8]) -> Result<Option<Var>, Mem>
    ensures { IfOk result (λ o. o ≡ variable_alone bytes.now) }
{
    let sort = sort_first(bytes);
    match name_alone(behind_sign(bytes)) {
        None => Ok(None),
        Some(name) => match Name::from_bytes(alloc, name) {
            Err(mem) => Err(mem),
            Ok(name) => Ok(Some(Var { name, sort })),
        },
    }
}

#[tactic(auto, unfolding(crate::specs::code::Taking::after))]
pub(crate) fn term_alone(alloc: Global, bytes: &[u8]) -> Result<Option<Term>, Mem>
    ensures { IfOk result (λ o. option_map tree o ≡ term_alone bytes.now) }
{
    match small_term(alloc, bytes)? {
        None => Ok(None),
        Some((term, rest)) => if is_end(rest) {
            Ok(Some(term))
        } else {
            drop(term);
            Ok(None)
        },
    }
}

/// Whether the bytes are the name of a symbol, a rule or a variable in a run.
pub fn is_run_name(bytes: &[u8]) -> bool
    ensures { IsTrue result ↔ IsRunName bytes.now }
{
    name_alone(bytes).is_some()
}

/// The number of the fresh name, `~` before its number, that the bytes are; `None` exactly where they are none.
pub fn read_fresh_name(bytes: &[u8]) -> Option<u64>
    ensures { IsReadAs IsFreshName bytes.now result }
{
    fresh_alone(bytes)
}

/// The content of the public name, in quotes, that the bytes are; `None` exactly where they are none.
pub fn read_public_name(alloc: Global, bytes: &[u8]) -> Result<Option<Name>, Mem>
    ensures { IfOk result (IsReadAs IsPublicName bytes.now) }
{
    public_alone(alloc, bytes)
}

/// The variable, with its sign, that the bytes are; `None` exactly where they are none.
pub fn read_run_variable(alloc: Global, bytes: &[u8]) -> Result<Option<Var>, Mem>
    ensures { IfOk result (IsReadAs IsRunVariable bytes.now) }
{
    variable_alone(alloc, bytes)
}

/// The ground term of at most 256 nodes that the bytes spell; `None` exactly where they spell none. The work is linear in the
/// bytes; it recurses a few calls for each node at most.
pub fn read_run_term(alloc: Global, bytes: &[u8]) -> Result<Option<Term>, Mem>
    ensures { IfOk result (λ o. IsReadAs IsWholeTerm bytes.now (option_map tree o)) }
{
    term_alone(alloc, bytes)
}
