//! Steps of runs as text.
ghost use Rattle.std.specs.Prelude.{◌≡◌, ◌++◌, ◌∷◌, [], OnOk};
ghost use Rattle.std.specs.List.{flat_map};
ghost use Rattle.sap_runs.specs.declared.process_step.PStep.TheVariants as process;
ghost use Rattle.sap_runs.specs.declared.rule_step.RStep.TheVariants as rule;
ghost use Rattle.sap_run_texts.specs.code.StepText.{numbers_text, fresh_text, quoted_text, binding_text, bindings_text, uses_text, public_text, apply_text, know_text, process_step_text, rule_step_text};

use sap_grammar::{push_variable, push_whole_term};
use sap_runs::{PStep, RStep};
use sap_terms::{Binding, Bindings, Mem, Name, Numbers};
use sap_text::Text;

fn push_number(text: &mut Text, number: u64) -> Result<(), Mem>
    ensures { OnOk result (text.new ≡ text.old ++ numbers_text (number ∷ [])) }
{
    text.push_bytes(b" ")?;
    text.push_number(number)
}

fn push_numbers(text: &mut Text, numbers: &Numbers) -> Result<(), Mem>
    ensures { OnOk result (text.new ≡ text.old ++ numbers_text numbers.now) }
{
    for number in numbers.as_slice() {
        push_number(text, *number)?;
    }
    Ok(())
}

fn push_fresh(text: &mut Text, number: u64) -> Result<(), Mem>
    ensures { OnOk result (text.new ≡ text.old ++ fresh_text number) }
{
    text.push_bytes(b" ~")?;
    text.push_number(number)
}

fn push_quoted(text: &mut Text, name: &Name) -> Result<(), Mem>
    ensures { OnOk result (text.new ≡ text.old ++ quoted_text name.now) }
{
    text.push_bytes(b" '")?;
    text.push_bytes(name.as_bytes())?;
    text.push_bytes(b"'")
}

fn push_binding(text: &mut Text, binding: &Binding) -> Result<(), Mem>
    ensures { OnOk result (text.new ≡ text.old ++ binding_text binding.now) }
{
    text.push_bytes(b" ")?;
    push_variable(text, &binding.var)?;
    text.push_bytes(b"=")?;
    push_whole_term(text, &binding.term)
}

fn push_bindings(text: &mut Text, bindings: &Bindings) -> Result<(), Mem>
    ensures { OnOk result (text.new ≡ text.old ++ bindings_text bindings.now) }
{
    let bindings = bindings.as_slice();
    if bindings.is_empty() {
        return Ok(());
    }
    text.push_bytes(b" with")?;
    push_each_binding(text, bindings)
}

fn push_each_binding(text: &mut Text, bindings: &[Binding]) -> Result<(), Mem>
    ensures { OnOk result (text.new ≡ text.old ++ flat_map binding_text bindings.now) }
{
    for binding in bindings {
        push_binding(text, binding)?;
    }
    Ok(())
}

fn push_uses(text: &mut Text, facts: &Numbers, bindings: &Bindings) -> Result<(), Mem>
    ensures { OnOk result (text.new ≡ text.old ++ uses_text facts.now bindings.now) }
{
    push_numbers(text, facts)?;
    push_bindings(text, bindings)
}

// The word, and a number.
fn push_one(text: &mut Text, word: &[u8], number: u64) -> Result<(), Mem>
    ensures { OnOk result (text.new ≡ text.old ++ (word.now ++ numbers_text (number ∷ []))) }
{
    text.push_bytes(word)?;
    push_number(text, number)
}

// The word, and two numbers.
fn push_two(text: &mut Text, word: &[u8], first: u64, second: u64) -> Result<(), Mem>
    ensures { OnOk result (text.new ≡ text.old ++ (word.now ++ numbers_text (first ∷ second ∷ []))) }
{
    push_one(text, word, first)?;
    push_number(text, second)
}

// The word, and a fresh name.
fn push_named(text: &mut Text, word: &[u8], number: u64) -> Result<(), Mem>
    ensures { OnOk result (text.new ≡ text.old ++ (word.now ++ fresh_text number)) }
{
    text.push_bytes(word)?;
    push_fresh(text, number)
}

fn push_new(text: &mut Text, thread: u64, number: u64) -> Result<(), Mem>
    ensures { OnOk result (text.new ≡ text.old ++ process_step_text (process.New thread number)) }
{
    push_one(text, b"new", thread)?;
    push_fresh(text, number)
}

fn push_embedded(
    text: &mut Text,
    thread: u64,
    facts: &Numbers,
    bindings: &Bindings,
) -> Result<(), Mem>
    ensures { OnOk result (text.new ≡ text.old
        ++ process_step_text (process.Embedded thread facts.now bindings.now)) }
{
    push_one(text, b"rule", thread)?;
    push_uses(text, facts, bindings)
}

fn push_rule(text: &mut Text, name: &Name, facts: &Numbers, bindings: &Bindings) -> Result<(), Mem>
    ensures { OnOk result (text.new ≡ text.old
        ++ rule_step_text (rule.Rule name.now facts.now bindings.now)) }
{
    text.push_bytes(b"rule ")?;
    text.push_bytes(name.as_bytes())?;
    push_uses(text, facts, bindings)
}

fn push_public(text: &mut Text, name: &Name) -> Result<(), Mem>
    ensures { OnOk result (text.new ≡ text.old ++ public_text name.now) }
{
    text.push_bytes(b"pub")?;
    push_quoted(text, name)
}

fn push_apply(text: &mut Text, symbol: &Name, entries: &Numbers) -> Result<(), Mem>
    ensures { OnOk result (text.new ≡ text.old ++ apply_text symbol.now entries.now) }
{
    text.push_bytes(b"app ")?;
    text.push_bytes(symbol.as_bytes())?;
    push_numbers(text, entries)
}

/// The line of the step, without its line feed.
pub(crate) fn push_process_step(text: &mut Text, step: &PStep) -> Result<(), Mem>
    ensures { OnOk result (text.new ≡ text.old ++ process_step_text step.now) }
{
    match step {
        PStep::Nil(t) => push_one(text, b"nil", *t),
        PStep::Par(t) => push_one(text, b"par", *t),
        PStep::Rep(t) => push_one(text, b"rep", *t),
        PStep::New(t, n) => push_new(text, *t, *n),
        PStep::Out(t) => push_one(text, b"out", *t),
        PStep::Send(t, k) => push_two(text, b"send", *t, *k),
        PStep::In(t, k) => push_two(text, b"in", *t, *k),
        PStep::Sync(s, r) => push_two(text, b"sync", *s, *r),
        PStep::Then(t) => push_one(text, b"then", *t),
        PStep::Else(t) => push_one(text, b"else", *t),
        PStep::Event(t) => push_one(text, b"event", *t),
        PStep::Insert(t) => push_one(text, b"insert", *t),
        PStep::Delete(t) => push_one(text, b"delete", *t),
        PStep::Found(t) => push_one(text, b"found", *t),
        PStep::Missing(t) => push_one(text, b"missing", *t),
        PStep::Lock(t) => push_one(text, b"lock", *t),
        PStep::Unlock(t) => push_one(text, b"unlock", *t),
        PStep::Embedded(t, facts, bindings) => push_embedded(text, *t, facts, bindings),
        PStep::Name(n) => push_named(text, b"name", *n),
        PStep::Public(name) => push_public(text, name),
        PStep::Apply(symbol, entries) => push_apply(text, symbol, entries),
        PStep::Know(k) => push_one(text, b"know", *k),
    }
}

/// The line of the step, without its line feed.
pub(crate) fn push_rule_step(text: &mut Text, step: &RStep) -> Result<(), Mem>
    ensures { OnOk result (text.new ≡ text.old ++ rule_step_text step.now) }
{
    match step {
        RStep::Fresh(n) => push_named(text, b"fresh", *n),
        RStep::Learn(f) => push_one(text, b"learn", *f),
        RStep::Own(f) => push_one(text, b"own", *f),
        RStep::Public(name) => push_public(text, name),
        RStep::Apply(symbol, entries) => push_apply(text, symbol, entries),
        RStep::Know(k) => push_one(text, b"know", *k),
        RStep::Rule(name, facts, bindings) => push_rule(text, name, facts, bindings),
    }
}
