//! Arrays of steps, written.
ghost use Rattle.std.specs.Prelude.{◌≡◌, ◌++◌, ◌∷◌, [], OnOk, codes, decimal};
ghost use Rattle.json.specs.Print.{quoted};
ghost use Rattle.serde_json.specs.Written.{compact_text};
ghost use Rattle.sap_json.specs.Written.{process_data, rule_data};
ghost use Rattle.sap_json.specs.code.Texts.{step_text, uses_text};
ghost use Rattle.sap_json.specs.declared.operands.Operands.TheVariants as op;

use crate::lists::{push_bindings, push_numbers};
use crate::strings::{push_fresh, push_public, push_string};
use sap_runs::{PStep, RStep};
use sap_terms::{Bindings, Mem, Name, Numbers};
use sap_text::Text;
use std::alloc::Global;

// The array's beginning with its first word.
fn push_word(text: &mut Text, word: &[u8]) -> Result<(), Mem>
    ensures { OnOk result (text.new ≡ text.old ++ (91 ∷ quoted word.now)) }
{
    text.push_bytes(b"[")?;
    push_string(text, word)
}

// A comma and a number.
fn push_number(text: &mut Text, number: u64) -> Result<(), Mem>
    ensures { OnOk result (text.new ≡ text.old ++ (44 ∷ decimal number)) }
{
    text.push_bytes(b",")?;
    text.push_number(number)
}

// The word, and a number.
fn push_one(text: &mut Text, word: &[u8], number: u64) -> Result<(), Mem>
    ensures { OnOk result (text.new ≡ text.old ++ step_text word.now (op.Number number)) }
{
    push_word(text, word)?;
    push_number(text, number)?;
    text.push_bytes(b"]")
}

// The word, and two numbers.
fn push_two(text: &mut Text, word: &[u8], first: u64, second: u64) -> Result<(), Mem>
    ensures { OnOk result (text.new ≡ text.old ++ step_text word.now (op.Numbers first second)) }
{
    push_word(text, word)?;
    push_number(text, first)?;
    push_number(text, second)?;
    text.push_bytes(b"]")
}

fn push_new(alloc: Global, text: &mut Text, thread: u64, number: u64) -> Result<(), Mem>
    ensures { OnOk result (text.new
        ≡ text.old ++ step_text (codes "new") (op.NumberAndFresh thread number)) }
{
    push_word(text, b"new")?;
    push_number(text, thread)?;
    text.push_bytes(b",")?;
    push_fresh(alloc, text, number)?;
    text.push_bytes(b"]")
}

// The word, and a fresh name.
fn push_named(alloc: Global, text: &mut Text, word: &[u8], number: u64) -> Result<(), Mem>
    ensures { OnOk result (text.new ≡ text.old ++ step_text word.now (op.Fresh number)) }
{
    push_word(text, word)?;
    text.push_bytes(b",")?;
    push_fresh(alloc, text, number)?;
    text.push_bytes(b"]")
}

fn push_public_step(alloc: Global, text: &mut Text, name: &Name) -> Result<(), Mem>
    ensures { OnOk result (text.new ≡ text.old ++ step_text (codes "pub") (op.Public name.now)) }
{
    push_word(text, b"pub")?;
    text.push_bytes(b",")?;
    push_public(alloc, text, name)?;
    text.push_bytes(b"]")
}

fn push_apply(text: &mut Text, symbol: &Name, entries: &Numbers) -> Result<(), Mem>
    ensures { OnOk result (text.new
        ≡ text.old ++ step_text (codes "app") (op.Applied symbol.now entries.now)) }
{
    push_word(text, b"app")?;
    text.push_bytes(b",")?;
    push_string(text, symbol.as_bytes())?;
    text.push_bytes(b",")?;
    push_numbers(text, entries)?;
    text.push_bytes(b"]")
}

// The facts and bindings of a rule, each behind a comma, and the array's end.
fn push_uses(
    alloc: Global,
    text: &mut Text,
    facts: &Numbers,
    bindings: &Bindings,
) -> Result<(), Mem>
    ensures { OnOk result (text.new ≡ text.old ++ uses_text facts.now bindings.now) }
{
    text.push_bytes(b",")?;
    push_numbers(text, facts)?;
    text.push_bytes(b",")?;
    push_bindings(alloc, text, bindings)?;
    text.push_bytes(b"]")
}

fn push_embedded(
    alloc: Global,
    text: &mut Text,
    thread: u64,
    facts: &Numbers,
    bindings: &Bindings,
) -> Result<(), Mem>
    ensures { OnOk result (text.new
        ≡ text.old ++ step_text (codes "rule") (op.Embedded thread facts.now bindings.now)) }
{
    push_word(text, b"rule")?;
    push_number(text, thread)?;
    push_uses(alloc, text, facts, bindings)
}

fn push_rule(
    alloc: Global,
    text: &mut Text,
    name: &Name,
    facts: &Numbers,
    bindings: &Bindings,
) -> Result<(), Mem>
    ensures { OnOk result (text.new
        ≡ text.old ++ step_text (codes "rule") (op.Named name.now facts.now bindings.now)) }
{
    push_word(text, b"rule")?;
    text.push_bytes(b",")?;
    push_string(text, name.as_bytes())?;
    push_uses(alloc, text, facts, bindings)
}

/// The array of the step.
pub(crate) fn push_process_step(alloc: Global, text: &mut Text, step: &PStep) -> Result<(), Mem>
    ensures { OnOk result (text.new ≡ text.old ++ compact_text (process_data step.now)) }
{
    match step {
        PStep::Nil(t) => push_one(text, b"nil", *t),
        PStep::Par(t) => push_one(text, b"par", *t),
        PStep::Rep(t) => push_one(text, b"rep", *t),
        PStep::New(t, n) => push_new(alloc, text, *t, *n),
        PStep::Out(t) => push_one(text, b"out", *t),
        PStep::Send(t, k) => push_two(text, b"send", *t, *k),
        PStep::In(t, k) => push_two(text, b"in", *t, *k),
        PStep::Sync(s, r) => push_two(text, b"sync", *s, *r),
        PStep::Then(t) => push_one(text, b"then", *t),
        PStep::Else(t) => push_one(text, b"else", *t),
        PStep::Event(t) => push_one(text, b"event", *t),
        PStep::Insert(t) => push_one(text, b"insert", *t),
        PStep::Delete(t) => push_one(text, b"delete", *t),
        PStep::Found(t) => push_one(text, b"found", *t),
        PStep::Missing(t) => push_one(text, b"missing", *t),
        PStep::Lock(t) => push_one(text, b"lock", *t),
        PStep::Unlock(t) => push_one(text, b"unlock", *t),
        PStep::Embedded(t, facts, bindings) => push_embedded(alloc, text, *t, facts, bindings),
        PStep::Name(n) => push_named(alloc, text, b"name", *n),
        PStep::Public(name) => push_public_step(alloc, text, name),
        PStep::Apply(symbol, entries) => push_apply(text, symbol, entries),
        PStep::Know(k) => push_one(text, b"know", *k),
    }
}

/// The array of the step.
pub(crate) fn push_rule_step(alloc: Global, text: &mut Text, step: &RStep) -> Result<(), Mem>
    ensures { OnOk result (text.new ≡ text.old ++ compact_text (rule_data step.now)) }
{
    match step {
        RStep::Fresh(n) => push_named(alloc, text, b"fresh", *n),
        RStep::Learn(f) => push_one(text, b"learn", *f),
        RStep::Own(f) => push_one(text, b"own", *f),
        RStep::Public(name) => push_public_step(alloc, text, name),
        RStep::Apply(symbol, entries) => push_apply(text, symbol, entries),
        RStep::Know(k) => push_one(text, b"know", *k),
        RStep::Rule(name, facts, bindings) => push_rule(alloc, text, name, facts, bindings),
    }
}
