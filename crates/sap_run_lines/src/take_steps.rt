//! Steps, from the bytes behind the first word of their lines. Each field is taken straight into its place.
ghost use Rattle.std.specs.Prelude.{◌≡◌, IfOk, Some};
ghost use Rattle.std.specs.Option.{option_map};
ghost use Rattle.std.specs.Str.{bytes_eq};
ghost use Rattle.sap_runs.specs.declared.process_step.PStep.TheVariants as process;
ghost use Rattle.sap_runs.specs.declared.rule_step.RStep.TheVariants as rule;
ghost use Rattle.sap_run_lines.specs.code.Taking.{given, Takes, Finds};
ghost use Rattle.sap_run_lines.specs.code.WordTaking.{line_word, word_at, on_words, behind_blank};
ghost use Rattle.sap_run_lines.specs.code.StepTaking.{as_number, as_fresh, as_public, as_bound, only, number_behind, name_behind, binding_behind, behind_with, AreNumbersFirst, numbers_of, bindings_of, some_bindings, with_of, uses_of, applied_of, named_of, public_of, fresh_of, number_of, process_behind, process_numbered, new_of, embedded_of, process_named_at, rule_numbered, rule_named_at};

use crate::numbered_steps::{process_one, process_two, rule_one};
use crate::take::{behind, identifier_at, name_at, number_at, starts};
use crate::take_word::take_word;
use crate::written_word::WrittenWord;
use sap_runs::{PStep, RStep};
use sap_terms::{Binding, Bindings, Mem, Name, Numbers};
use std::alloc::Global;

fn into_number(word: WrittenWord) -> Option<u64>
    ensures { result ≡ as_number (line_word word) }
{
    match word {
        WrittenWord::Number(n) => Some(n),
        other => {
            drop(other);
            None
        }
    }
}

fn into_fresh(word: WrittenWord) -> Option<u64>
    ensures { result ≡ as_fresh (line_word word) }
{
    match word {
        WrittenWord::Fresh(n) => Some(n),
        other => {
            drop(other);
            None
        }
    }
}

fn into_public(word: WrittenWord) -> Option<Name>
    ensures { result ≡ as_public (line_word word) }
{
    match word {
        WrittenWord::Public(name) => Some(name),
        other => {
            drop(other);
            None
        }
    }
}

#[tactic(auto, using(crate::proofs::StepsTaken::bindings))]
fn into_bound(word: WrittenWord) -> Option<Binding>
    ensures { result ≡ as_bound (line_word word) }
{
    match word {
        WrittenWord::Bound(binding) => Some(binding),
        other => {
            drop(other);
            None
        }
    }
}

// The word behind one blank, and the bytes behind it.
fn word_behind<'a>(alloc: Global, bytes: &'a [u8]) -> Result<Option<(WrittenWord, &'a [u8])>, Mem>
    ensures { Takes line_word result (behind_blank word_at bytes.now) }
{
    if starts(b' ', bytes) {
        take_word(alloc, behind(1, bytes))
    } else {
        Ok(None)
    }
}

pub(crate) fn number_behind(bytes: &[u8]) -> Option<(u64, &[u8])>
    ensures { Finds (λ n. n) result (number_behind bytes.now) }
{
    if starts(b' ', bytes) {
        number_at(behind(1, bytes))
    } else {
        None
    }
}

fn name_behind(bytes: &[u8]) -> Option<(&[u8], &[u8])>
    ensures { Finds (λ x. x.now) result (name_behind bytes.now) }
{
    if starts(b' ', bytes) {
        name_at(behind(1, bytes))
    } else {
        None
    }
}

#[tactic(auto, unfolding(crate::specs::code::Taking::after, crate::specs::code::Taking::given))]
fn binding_behind<'a>(alloc: Global, bytes: &'a [u8]) -> Result<Option<(Binding, &'a [u8])>, Mem>
    ensures { Takes (λ b. b) result (binding_behind bytes.now) }
{
    match word_behind(alloc, bytes)? {
        None => Ok(None),
        Some((word, rest)) => match into_bound(word) {
            None => Ok(None),
            Some(binding) => Ok(Some((binding, rest))),
        },
    }
}

// The only word behind a word.
fn only_word(alloc: Global, bytes: &[u8]) -> Result<Option<WrittenWord>, Mem>
    ensures { IfOk result (λ o. option_map line_word o ≡ on_words only bytes.now) }
{
    match word_behind(alloc, bytes)? {
        None => Ok(None),
        Some((word, rest)) => if rest.is_empty() {
            Ok(Some(word))
        } else {
            drop(word);
            Ok(None)
        },
    }
}

#[tactic(auto, using(crate::proofs::WordsOn::only_number), unfolding(crate::specs::code::Taking::given))]
pub(crate) fn number_of(alloc: Global, bytes: &[u8]) -> Result<Option<u64>, Mem>
    ensures { IfOk result (λ o. o ≡ on_words number_of bytes.now) }
{
    match only_word(alloc, bytes)? {
        None => Ok(None),
        Some(word) => Ok(into_number(word)),
    }
}

#[tactic(auto, using(crate::proofs::WordsOn::only_fresh), unfolding(crate::specs::code::Taking::given))]
fn fresh_of(alloc: Global, bytes: &[u8]) -> Result<Option<u64>, Mem>
    ensures { IfOk result (λ o. o ≡ on_words fresh_of bytes.now) }
{
    match only_word(alloc, bytes)? {
        None => Ok(None),
        Some(word) => Ok(into_fresh(word)),
    }
}

#[tactic(auto, using(crate::proofs::WordsOn::only_public), unfolding(crate::specs::code::Taking::given))]
fn public_of(alloc: Global, bytes: &[u8]) -> Result<Option<Name>, Mem>
    ensures { IfOk result (λ o. o ≡ on_words public_of bytes.now) }
{
    match only_word(alloc, bytes)? {
        None => Ok(None),
        Some(word) => Ok(into_public(word)),
    }
}

// The numbers that stand first behind a word, and the bytes behind them.
fn take_numbers<'a>(alloc: Global, bytes: &'a [u8]) -> Result<(Numbers, &'a [u8]), Mem>
    ensures { IfOk result (λ p. AreNumbersFirst bytes.now p.0 p.1.now) }
{
    let mut numbers = Numbers::new(alloc);
    let mut rest = bytes;
    while let Some((number, next)) = number_behind(rest) {
        numbers.push(number)?;
        rest = next;
    }
    Ok((numbers, rest))
}

#[tactic(auto, using(crate::proofs::WordsOn::numbers_not_whole))]
fn all_numbers(alloc: Global, bytes: &[u8]) -> Result<Option<Numbers>, Mem>
    ensures { IfOk result (λ o. o ≡ on_words numbers_of bytes.now) }
{
    let (numbers, rest) = take_numbers(alloc, bytes)?;
    if rest.is_empty() {
        Ok(Some(numbers))
    } else {
        Ok(None)
    }
}

fn take_bindings(alloc: Global, bytes: &[u8]) -> Result<Option<Bindings>, Mem>
    ensures { IfOk result (λ o. o ≡ on_words bindings_of bytes.now) }
{
    let mut bindings = Bindings::new(alloc);
    let mut rest = bytes;
    while !rest.is_empty() {
        let Some((binding, next)) = binding_behind(alloc, rest)? else {
            return Ok(None);
        };
        bindings.push(binding)?;
        rest = next;
    }
    Ok(Some(bindings))
}

#[tactic(auto, using(crate::proofs::WordsOn::some_bindings_are))]
fn take_some_bindings(alloc: Global, bytes: &[u8]) -> Result<Option<Bindings>, Mem>
    ensures { IfOk result (λ o. o ≡ on_words some_bindings bytes.now) }
{
    if bytes.is_empty() {
        Ok(None)
    } else {
        take_bindings(alloc, bytes)
    }
}

// The bytes behind the word `with`.
#[tactic(auto, unfolding(crate::specs::code::Taking::after))]
fn behind_with(bytes: &[u8]) -> Option<&[u8]>
    ensures { option_map (λ r. r.now) result ≡ behind_with bytes.now }
{
    if !starts(b' ', bytes) {
        return None;
    }
    let (word, rest) = identifier_at(behind(1, bytes))?;
    if is(word, b"with") { Some(rest) } else { None }
}

#[tactic(auto, using(crate::proofs::WordsOn::with_is), unfolding(crate::specs::code::Taking::given))]
fn take_with(alloc: Global, bytes: &[u8]) -> Result<Option<Bindings>, Mem>
    ensures { IfOk result (λ o. o ≡ on_words with_of bytes.now) }
{
    if bytes.is_empty() {
        return Ok(Some(Bindings::new(alloc)));
    }
    match behind_with(bytes) {
        None => Ok(None),
        Some(rest) => take_some_bindings(alloc, rest),
    }
}

fn take_uses(alloc: Global, bytes: &[u8]) -> Result<Option<(Numbers, Bindings)>, Mem>
    ensures { IfOk result (λ o. o ≡ on_words uses_of bytes.now) }
{
    let (numbers, rest) = take_numbers(alloc, bytes)?;
    match take_with(alloc, rest)? {
        None => Ok(None),
        Some(bindings) => Ok(Some((numbers, bindings))),
    }
}

#[tactic(auto, using(crate::proofs::WordsOn::applied_split), unfolding(crate::specs::code::Taking::after, crate::specs::code::Taking::given))]
fn take_applied(alloc: Global, bytes: &[u8]) -> Result<Option<(Name, Numbers)>, Mem>
    ensures { IfOk result (λ o. o ≡ on_words applied_of bytes.now) }
{
    let Some((symbol, rest)) = name_behind(bytes) else {
        return Ok(None);
    };
    match all_numbers(alloc, rest)? {
        None => Ok(None),
        Some(numbers) => {
            let symbol = Name::from_bytes(alloc, symbol)?;
            Ok(Some((symbol, numbers)))
        }
    }
}

#[tactic(auto, using(crate::proofs::WordsOn::named_split), unfolding(crate::specs::code::Taking::after, crate::specs::code::Taking::given))]
fn take_named(alloc: Global, bytes: &[u8]) -> Result<Option<(Name, Numbers, Bindings)>, Mem>
    ensures { IfOk result (λ o. o ≡ on_words named_of bytes.now) }
{
    let Some((name, rest)) = name_behind(bytes) else {
        return Ok(None);
    };
    match take_uses(alloc, rest)? {
        None => Ok(None),
        Some((facts, bindings)) => {
            let name = Name::from_bytes(alloc, name)?;
            Ok(Some((name, facts, bindings)))
        }
    }
}

/// Whether the text is this word.
pub(crate) fn is(text: &[u8], word: &[u8]) -> bool
    ensures { result ≡ bytes_eq text.now word.now }
{
    text == word
}

fn process_behind(alloc: Global, word: &[u8], t: u64, bytes: &[u8]) -> Result<Option<PStep>, Mem>
    ensures { IfOk result (λ o. o ≡ on_words (process_behind word.now t) bytes.now) }
{
    if bytes.is_empty() {
        return Ok(process_one(word, t));
    }
    match number_of(alloc, bytes)? {
        None => Ok(None),
        Some(b) => Ok(process_two(word, t, b)),
    }
}

#[tactic(auto, using(crate::proofs::WordsOn::numbered_split), unfolding(crate::specs::code::Taking::after))]
fn process_numbered(alloc: Global, word: &[u8], bytes: &[u8]) -> Result<Option<PStep>, Mem>
    ensures { IfOk result (λ o. o ≡ on_words (process_numbered word.now) bytes.now) }
{
    match number_behind(bytes) {
        None => Ok(None),
        Some((t, rest)) => process_behind(alloc, word, t, rest),
    }
}

#[tactic(auto, using(crate::proofs::WordsOn::new_split), unfolding(crate::specs::code::Taking::after, crate::specs::code::Taking::given))]
fn new_of(alloc: Global, bytes: &[u8]) -> Result<Option<PStep>, Mem>
    ensures { IfOk result (λ o. o ≡ on_words new_of bytes.now) }
{
    let Some((t, rest)) = number_behind(bytes) else {
        return Ok(None);
    };
    match fresh_of(alloc, rest)? {
        None => Ok(None),
        Some(n) => Ok(Some(PStep::New(t, n))),
    }
}

#[tactic(auto, using(crate::proofs::WordsOn::embedded_split), unfolding(crate::specs::code::Taking::after, crate::specs::code::Taking::given))]
fn embedded_of(alloc: Global, bytes: &[u8]) -> Result<Option<PStep>, Mem>
    ensures { IfOk result (λ o. o ≡ on_words embedded_of bytes.now) }
{
    let Some((t, rest)) = number_behind(bytes) else {
        return Ok(None);
    };
    match take_uses(alloc, rest)? {
        None => Ok(None),
        Some((facts, bindings)) => Ok(Some(PStep::Embedded(t, facts, bindings))),
    }
}

#[tactic(auto, unfolding(crate::specs::code::Taking::given))]
fn process_apply(alloc: Global, bytes: &[u8]) -> Result<Option<PStep>, Mem>
    ensures { IfOk result (λ o. o ≡ given (on_words applied_of bytes.now)
        (λ a. Some (process.Apply a.0 a.1))) }
{
    match take_applied(alloc, bytes)? {
        None => Ok(None),
        Some((symbol, numbers)) => Ok(Some(PStep::Apply(symbol, numbers))),
    }
}

#[tactic(auto, unfolding(crate::specs::code::Taking::given))]
fn process_public(alloc: Global, bytes: &[u8]) -> Result<Option<PStep>, Mem>
    ensures { IfOk result (λ o. o ≡ given (on_words public_of bytes.now)
        (λ s. Some (process.Public s))) }
{
    match public_of(alloc, bytes)? {
        None => Ok(None),
        Some(name) => Ok(Some(PStep::Public(name))),
    }
}

#[tactic(auto, unfolding(crate::specs::code::Taking::given))]
fn process_name(alloc: Global, bytes: &[u8]) -> Result<Option<PStep>, Mem>
    ensures { IfOk result (λ o. o ≡ given (on_words fresh_of bytes.now)
        (λ n. Some (process.Name n))) }
{
    match fresh_of(alloc, bytes)? {
        None => Ok(None),
        Some(n) => Ok(Some(PStep::Name(n))),
    }
}

/// The step of a process that begins with this word, from the bytes behind it.
pub(crate) fn process_named(alloc: Global, word: &[u8], bytes: &[u8]) -> Result<Option<PStep>, Mem>
    ensures { IfOk result (λ o. o ≡ process_named_at word.now bytes.now) }
{
    if is(word, b"rule") {
        embedded_of(alloc, bytes)
    } else if is(word, b"app") {
        process_apply(alloc, bytes)
    } else if is(word, b"pub") {
        process_public(alloc, bytes)
    } else if is(word, b"name") {
        process_name(alloc, bytes)
    } else if is(word, b"new") {
        new_of(alloc, bytes)
    } else {
        process_numbered(alloc, word, bytes)
    }
}

#[tactic(auto, using(crate::proofs::WordsOn::rule_numbered_split), unfolding(crate::specs::code::Taking::given))]
fn rule_numbered(alloc: Global, word: &[u8], bytes: &[u8]) -> Result<Option<RStep>, Mem>
    ensures { IfOk result (λ o. o ≡ on_words (rule_numbered word.now) bytes.now) }
{
    match number_of(alloc, bytes)? {
        None => Ok(None),
        Some(f) => Ok(rule_one(word, f)),
    }
}

#[tactic(auto, unfolding(crate::specs::code::Taking::given))]
fn rule_used(alloc: Global, bytes: &[u8]) -> Result<Option<RStep>, Mem>
    ensures { IfOk result (λ o. o ≡ given (on_words named_of bytes.now)
        (λ u. Some (rule.Rule u.0 u.1 u.2))) }
{
    match take_named(alloc, bytes)? {
        None => Ok(None),
        Some((name, facts, bindings)) => Ok(Some(RStep::Rule(name, facts, bindings))),
    }
}

#[tactic(auto, unfolding(crate::specs::code::Taking::given))]
fn rule_apply(alloc: Global, bytes: &[u8]) -> Result<Option<RStep>, Mem>
    ensures { IfOk result (λ o. o ≡ given (on_words applied_of bytes.now)
        (λ a. Some (rule.Apply a.0 a.1))) }
{
    match take_applied(alloc, bytes)? {
        None => Ok(None),
        Some((symbol, numbers)) => Ok(Some(RStep::Apply(symbol, numbers))),
    }
}

#[tactic(auto, unfolding(crate::specs::code::Taking::given))]
fn rule_public(alloc: Global, bytes: &[u8]) -> Result<Option<RStep>, Mem>
    ensures { IfOk result (λ o. o ≡ given (on_words public_of bytes.now)
        (λ s. Some (rule.Public s))) }
{
    match public_of(alloc, bytes)? {
        None => Ok(None),
        Some(name) => Ok(Some(RStep::Public(name))),
    }
}

#[tactic(auto, unfolding(crate::specs::code::Taking::given))]
fn rule_fresh(alloc: Global, bytes: &[u8]) -> Result<Option<RStep>, Mem>
    ensures { IfOk result (λ o. o ≡ given (on_words fresh_of bytes.now)
        (λ n. Some (rule.Fresh n))) }
{
    match fresh_of(alloc, bytes)? {
        None => Ok(None),
        Some(n) => Ok(Some(RStep::Fresh(n))),
    }
}

/// The step of rules that begins with this word, from the bytes behind it.
pub(crate) fn rule_named(alloc: Global, word: &[u8], bytes: &[u8]) -> Result<Option<RStep>, Mem>
    ensures { IfOk result (λ o. o ≡ rule_named_at word.now bytes.now) }
{
    if is(word, b"rule") {
        rule_used(alloc, bytes)
    } else if is(word, b"app") {
        rule_apply(alloc, bytes)
    } else if is(word, b"pub") {
        rule_public(alloc, bytes)
    } else if is(word, b"fresh") {
        rule_fresh(alloc, bytes)
    } else {
        rule_numbered(alloc, word, bytes)
    }
}
