//! The step with a first word and what stands behind it.
ghost use Rattle.std.specs.Prelude.{◌≡◌};
ghost use Rattle.std.specs.Str.{bytes_eq};
ghost use Rattle.sap_json.specs.code.Operands.{process_of, rule_of};

use crate::operands::Operands;
use sap_run_lines::{process_one, process_two, rule_one};
use sap_runs::{PStep, RStep};

/// Whether the text is this word.
pub(crate) fn is(text: &[u8], word: &[u8]) -> bool
    ensures { result ≡ bytes_eq text.now word.now }
{
    text == word
}

/// The step of a process with this first word and these operands.
pub(crate) fn process_of(word: &[u8], operands: Operands) -> Option<PStep>
    ensures { result ≡ process_of word.now operands }
{
    match operands {
        Operands::Number(t) => process_one(word, t),
        Operands::Numbers(a, b) => process_two(word, a, b),
        Operands::NumberAndFresh(t, n) => if is(word, b"new") {
            Some(PStep::New(t, n))
        } else {
            None
        },
        Operands::Fresh(n) => if is(word, b"name") {
            Some(PStep::Name(n))
        } else {
            None
        },
        Operands::Public(s) => if is(word, b"pub") {
            Some(PStep::Public(s))
        } else {
            None
        },
        Operands::Applied(f, ks) => if is(word, b"app") {
            Some(PStep::Apply(f, ks))
        } else {
            None
        },
        Operands::Embedded(t, facts, bindings) => if is(word, b"rule") {
            Some(PStep::Embedded(t, facts, bindings))
        } else {
            None
        },
        Operands::Named(_, _, _) => None,
    }
}

/// The step of rules with this first word and these operands.
pub(crate) fn rule_of(word: &[u8], operands: Operands) -> Option<RStep>
    ensures { result ≡ rule_of word.now operands }
{
    match operands {
        Operands::Number(t) => rule_one(word, t),
        Operands::Numbers(_, _) => None,
        Operands::NumberAndFresh(_, _) => None,
        Operands::Fresh(n) => if is(word, b"fresh") {
            Some(RStep::Fresh(n))
        } else {
            None
        },
        Operands::Public(s) => if is(word, b"pub") {
            Some(RStep::Public(s))
        } else {
            None
        },
        Operands::Applied(f, ks) => if is(word, b"app") {
            Some(RStep::Apply(f, ks))
        } else {
            None
        },
        Operands::Embedded(_, _, _) => None,
        Operands::Named(name, facts, bindings) => if is(word, b"rule") {
            Some(RStep::Rule(name, facts, bindings))
        } else {
            None
        },
    }
}
