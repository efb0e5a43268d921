//! Lines of short runs, read.
ghost use Rattle.std.specs.Prelude.{◌≡◌, IfOk, Some};
ghost use Rattle.std.specs.Option.{option_map};
ghost use Rattle.sap_terms.specs.View.{tree};
ghost use Rattle.sap_runs.specs.declared.short_step.SStep.TheVariants as short;
ghost use Rattle.sap_run_lines.specs.StepLines.{IsLineRead};
ghost use Rattle.sap_run_lines.specs.ShortLines.{IsShortStepLine};
ghost use Rattle.sap_run_lines.specs.code.ShortTaking.{term_behind, input_at, sending_at, knowing_at, is_left_out, as_it_is_at, short_named_at, short_line_of};

use crate::take::{behind, identifier_at, starts};
use crate::take_steps::{is, number_behind, number_of, process_named};
use crate::whole_words::term_alone;
use sap_runs::SStep;
use sap_terms::{Mem, Term};
use std::alloc::Global;

// The term that stands alone behind one blank.
fn term_behind(alloc: Global, bytes: &[u8]) -> Result<Option<Term>, Mem>
    ensures { IfOk result (λ o. option_map tree o ≡ term_behind bytes.now) }
{
    if starts(b' ', bytes) {
        term_alone(alloc, behind(1, bytes))
    } else {
        Ok(None)
    }
}

#[tactic(auto, unfolding(crate::specs::code::Taking::after, crate::specs::code::Taking::given))]
fn take_input(alloc: Global, bytes: &[u8]) -> Result<Option<SStep>, Mem>
    ensures { IfOk result (λ o. o ≡ input_at bytes.now) }
{
    match number_behind(bytes) {
        None => Ok(None),
        Some((t, rest)) => match term_behind(alloc, rest)? {
            None => Ok(None),
            Some(term) => Ok(Some(SStep::In(t, term))),
        },
    }
}

#[tactic(auto, unfolding(crate::specs::code::Taking::given))]
fn take_sending(alloc: Global, bytes: &[u8]) -> Result<Option<SStep>, Mem>
    ensures { IfOk result (λ o. o ≡ sending_at bytes.now) }
{
    match number_of(alloc, bytes)? {
        None => Ok(None),
        Some(t) => Ok(Some(SStep::Send(t))),
    }
}

#[tactic(auto, unfolding(crate::specs::code::Taking::given))]
fn take_knowing(alloc: Global, bytes: &[u8]) -> Result<Option<SStep>, Mem>
    ensures { IfOk result (λ o. o ≡ knowing_at bytes.now) }
{
    match term_behind(alloc, bytes)? {
        None => Ok(None),
        Some(term) => Ok(Some(SStep::Know(term))),
    }
}

// Whether the line writes down a public name or applies a symbol.
fn is_left_out(word: &[u8]) -> bool
    ensures { result ≡ is_left_out word.now }
{
    is(word, b"pub") || is(word, b"app")
}

#[tactic(auto, unfolding(crate::specs::code::Taking::given))]
fn take_as_it_is(alloc: Global, word: &[u8], bytes: &[u8]) -> Result<Option<SStep>, Mem>
    ensures { IfOk result (λ o. o ≡ as_it_is_at word.now bytes.now) }
{
    match process_named(alloc, word, bytes)? {
        None => Ok(None),
        Some(step) => Ok(Some(SStep::Act(step))),
    }
}

// The step that begins with this word, from the bytes behind it.
fn short_named(alloc: Global, word: &[u8], bytes: &[u8]) -> Result<Option<SStep>, Mem>
    ensures { IfOk result (λ o. o ≡ short_named_at word.now bytes.now) }
{
    if is(word, b"in") {
        take_input(alloc, bytes)
    } else if is(word, b"send") {
        take_sending(alloc, bytes)
    } else if is(word, b"know") {
        take_knowing(alloc, bytes)
    } else if is_left_out(word) {
        Ok(None)
    } else {
        take_as_it_is(alloc, word, bytes)
    }
}

#[tactic(auto, unfolding(crate::specs::code::Taking::after))]
fn short_line(alloc: Global, bytes: &[u8]) -> Result<Option<SStep>, Mem>
    ensures { IfOk result (λ o. o ≡ short_line_of bytes.now) }
{
    match identifier_at(bytes) {
        None => Ok(None),
        Some((word, rest)) => short_named(alloc, word, rest),
    }
}

/// The step of a short run whose line, without its line feed, these bytes are; `None` exactly where they are no step's. The work
/// is linear in the bytes; it recurses a few calls for each node of a term.
pub fn read_short_line(alloc: Global, bytes: &[u8]) -> Result<Option<SStep>, Mem>
    ensures { IfOk result (IsLineRead IsShortStepLine bytes.now) }
{
    short_line(alloc, bytes)
}
