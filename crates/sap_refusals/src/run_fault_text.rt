//! Why a run is refused, in words.

ghost use Rattle.std.specs.Prelude.{◌≡◌, ◌++◌, codes, decimal, IfOk, IfSome};
ghost use Rattle.sap_json.specs.declared.json_fault.JsonFault.TheVariants as json_faults;
ghost use Rattle.sap_lines.specs.declared.fault.PFault.TheVariants as process_faults;
ghost use Rattle.sap_steps.specs.declared.fault.RFault.TheVariants as rule_faults;
ghost use Rattle.sap_refusals.specs.RunFaultTexts.{at_step, broken_text, json_fault_text, process_fault_text, rule_fault_text, run_refusal_text, run_refused_line};
ghost use Rattle.sap_refusals.specs.code.Words.{words_text};

use crate::words::{Words, begun, ended, push_numbered, push_words};
use sap_json::JsonFault;
use sap_lines::PFault;
use sap_outside::RunRefusal;
use sap_restrict::Which;
use sap_steps::RFault;
use sap_terms::Mem;
use sap_text::Text;
use std::alloc::Global;

/// The line that refuses bytes that are no run.
pub fn no_run_line(alloc: Global, refusal: RunRefusal) -> Result<Text, Mem>
    ensures { IfOk result (λ line. line ≡ run_refused_line (run_refusal_text refusal)) }
{
    line_of(alloc, &refusal_words(refusal))
}

/// The line that refuses bytes of JSON that are no run. Want of memory refuses none, and so has no line.
pub fn json_line(alloc: Global, fault: JsonFault) -> Result<Text, Mem>
    ensures { IfOk result (λ line. (fault ≡ json_faults.Mem → ⊥)
        × (line ≡ run_refused_line (json_fault_text fault))) }
{
    match json_words(fault) {
        None => Err(Mem),
        Some(words) => line_of(alloc, &words),
    }
}

/// The line that refuses a run of a process at this step for this fault. Want of memory refuses none, and so has no line.
pub fn process_line(alloc: Global, step: u64, fault: &PFault) -> Result<Text, Mem>
    ensures { IfOk result (λ line. (fault.now ≡ process_faults.Mem → ⊥)
        × (line ≡ run_refused_line (at_step step (process_fault_text fault.now)))) }
{
    match process_words(fault) {
        None => Err(Mem),
        Some(words) => step_line(alloc, step, &words),
    }
}

/// The line that refuses a run of rules at this step for this fault. Want of memory refuses none, and so has no line.
pub fn rule_line(alloc: Global, step: u64, fault: &RFault) -> Result<Text, Mem>
    ensures { IfOk result (λ line. (fault.now ≡ rule_faults.Mem → ⊥)
        × (line ≡ run_refused_line (at_step step (rule_fault_text fault.now)))) }
{
    match rule_words(fault) {
        None => Err(Mem),
        Some(words) => step_line(alloc, step, &words),
    }
}

/// The line that refuses a run of rules where this step makes this restriction false.
pub fn broken_line(alloc: Global, step: u64, which: Which) -> Result<Text, Mem>
    ensures { IfOk result (λ line. line ≡ run_refused_line (at_step step (broken_text which))) }
{
    step_line(alloc, step, &Words::Plain(broken_words(which)))
}

// The line that refuses a run with these words.
fn line_of(alloc: Global, words: &Words) -> Result<Text, Mem>
    ensures { IfOk result (λ line. line ≡ run_refused_line (words_text words.now)) }
{
    let mut line = begun(alloc, b"run refused: ")?;
    let written = push_words(&mut line, words);
    ended(line, written)
}

/// The line that refuses a run at this step with these words.
pub fn step_line(alloc: Global, step: u64, words: &Words) -> Result<Text, Mem>
    ensures { IfOk result (λ line. line ≡ run_refused_line (at_step step (words_text words.now))) }
{
    let mut line = step_begun(alloc, step)?;
    let written = push_words(&mut line, words);
    ended(line, written)
}

// Such a line as far as the cause.
fn step_begun(alloc: Global, step: u64) -> Result<Text, Mem>
    ensures { IfOk result (λ line. line ≡ codes "run refused: " ++ (codes "step " ++ (decimal step ++ codes ": "))) }
{
    let mut line = begun(alloc, b"run refused: ")?;
    push_numbered(&mut line, b"step ", step, b": ")?;
    Ok(line)
}

// Which of the seven restrictions is broken.
fn broken_words(which: Which) -> &'static [u8]
    ensures { result.now ≡ broken_text which }
{
    match which {
        Which::Init => b"breaks sapic_init",
        Which::Eq => b"breaks sapic_eq",
        Which::NotEq => b"breaks sapic_noteq",
        Which::In => b"breaks sapic_in",
        Which::NotIn => b"breaks sapic_notin",
        Which::Lock => b"breaks sapic_lock",
        Which::InEv => b"breaks sapic_inev",
    }
}

/// Why bytes are no run.
fn refusal_words<'a>(refusal: RunRefusal) -> Words<'a>
    ensures { words_text result ≡ run_refusal_text refusal }
{
    match refusal {
        RunRefusal::TooLong => Words::Plain(b"longer than 16777216 bytes"),
        RunRefusal::BadHead => Words::Plain(b"wrong head"),
        RunRefusal::BadLine { line } => Words::Numbered(b"line ", line, b" is not a step"),
        RunRefusal::TooManySteps { most } => Words::Numbered(b"more than ", most, b" steps"),
    }
}

// Why bytes of JSON are no run. Want of memory is no such cause.
fn json_words<'a>(fault: JsonFault) -> Option<Words<'a>>
    ensures { IfSome result (λ words. (fault ≡ json_faults.Mem → ⊥)
        × (words_text words ≡ json_fault_text fault)) }
{
    match fault {
        JsonFault::Mem => None,
        JsonFault::NotJson => Some(Words::Plain(b"not JSON")),
        JsonFault::NotRun => Some(Words::Plain(b"not a run")),
        JsonFault::BadStep { step } => Some(Words::Numbered(b"step ", step, b" is not a step")),
        JsonFault::TooManySteps { most } => Some(Words::Numbered(b"more than ", most, b" steps")),
    }
}

/// Why a line of a process is refused. Want of memory is no such cause.
pub fn process_words<'a>(fault: &'a PFault) -> Option<Words<'a>>
    ensures { IfSome result (λ words. (fault.now ≡ process_faults.Mem → ⊥)
        × (words_text words ≡ process_fault_text fault.now)) }
{
    match fault {
        PFault::Mem => None,
        PFault::NoThread { t } => Some(Words::Number(b"no thread ", *t)),
        PFault::WrongForm { t } => Some(Words::Numbered(b"thread ", *t, b" has another form")),
        PFault::NoEntry { k } => Some(Words::Number(b"no entry ", *k)),
        PFault::UsedName { n } => Some(Words::Numbered(b"name ", *n, b" is used")),
        PFault::NotPublic { f } => Some(Words::Named(b"function ", f, b" is not public")),
        PFault::Arity { f } => Some(Words::Named(b"function ", f, b" has another arity")),
        PFault::FactCount => Some(Words::Plain(b"wrong number of facts")),
        PFault::FactMissing { place } => Some(Words::Number(b"no fact at place ", *place)),
        PFault::BadBinding => Some(Words::Plain(b"bad binding")),
        PFault::NoMatch => Some(Words::Plain(b"no match")),
        PFault::TermLarge => Some(Words::Plain(b"term is too large")),
        PFault::Unequal => Some(Words::Plain(b"the terms differ")),
        PFault::Equal => Some(Words::Plain(b"the terms are equal")),
        PFault::Held => Some(Words::Plain(b"the lock is held")),
        PFault::Unset => Some(Words::Plain(b"the key is not set")),
        PFault::Set => Some(Words::Plain(b"the key is set")),
    }
}

// Why a line of rules is refused. Want of memory is no such cause.
fn rule_words<'a>(fault: &'a RFault) -> Option<Words<'a>>
    ensures { IfSome result (λ words. (fault.now ≡ rule_faults.Mem → ⊥)
        × (words_text words ≡ rule_fault_text fault.now)) }
{
    match fault {
        RFault::Mem => None,
        RFault::NoRule => Some(Words::Plain(b"no such rule")),
        RFault::FactCount => Some(Words::Plain(b"wrong number of facts")),
        RFault::FactMissing { place } => Some(Words::Number(b"no fact at place ", *place)),
        RFault::BadBinding => Some(Words::Plain(b"bad binding")),
        RFault::NoMatch => Some(Words::Plain(b"no match")),
        RFault::TermLarge => Some(Words::Plain(b"term is too large")),
        RFault::Unequal => Some(Words::Plain(b"the terms differ")),
        RFault::UsedName { n } => Some(Words::Numbered(b"name ", *n, b" is used")),
        RFault::WrongFact { f } => Some(Words::Numbered(b"fact ", *f, b" cannot be used")),
        RFault::NoEntry { k } => Some(Words::Number(b"no entry ", *k)),
        RFault::NotPublic { f } => Some(Words::Named(b"function ", f, b" is not public")),
        RFault::Arity { f } => Some(Words::Named(b"function ", f, b" has another arity")),
    }
}
