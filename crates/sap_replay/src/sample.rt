//! The sample that the program converts by itself.
ghost use Rattle.std.specs.Prelude.{◌≡◌, ◌≤◌, ◌++◌, ◌+◌, ℕ, Ok, length, IfOk, OnOk};
ghost use Rattle.sap_process.specs.Proc.{proc};
ghost use Rattle.sap_read.specs.Files.{IsRead, IsRunnable, told_by};
ghost use Rattle.sap_read.specs.declared.fault.ReadFault.TheVariants.{Mem as OutOfMemory};
ghost use Rattle.sap_forward.specs.Converted.{IsConvertedToRules, IsShownByLines};
ghost use Rattle.sap_back.specs.Converted.{IsConvertedToProcess};
ghost use Rattle.sap_terms.specs.Trace.{Trace as Seen};
ghost use Rattle.sap_replay.specs.Sample.{count_line, counts_text, most_sessions, sample_file_text, sample_lines, sample_text, session, told_sample};

use crate::sample_laws::{sample_is_legal, sample_is_read};
use sap_back::{BackAt, rule_runs_have_one_answer, to_process};
use sap_forward::{At, process_runs_have_one_answer, process_trace, to_rules};
use sap_read::{File, ReadFault, files_are_runnable, one_file, read_file_boxed};
use sap_runs::{PStep, PSteps, RSteps};
use sap_terms::Mem;
use sap_text::Text;
use std::alloc::Global;

/// The file of the sample: sessions of one process, each of which makes a name, stores it under a lock, and shows what it takes.
pub fn sample_file(alloc: Global) -> Result<Box<File>, Mem>
    ensures read { IfOk result (λ f. IsRead sample_file_text (Ok (told_by f.value))) }
    ensures tells { IfOk result (λ f. told_by f.value ≡ told_sample) }
    ensures runnable { IfOk result (λ f. IsRunnable (told_by f.value)) }
{
    files_are_runnable();
    sample_is_read();
    one_file();
    match read_file_boxed(
        alloc,
        b"theory Sample begin\nbuiltins: hashing\nprocess: ! (new ~k; lock 'r'; insert 'r', ~k; unlock 'r'; out(h(~k)); in(x); event Got(x))\nend\n",
    ) {
        Ok(file) => Ok(file),
        Err(fault) => Err(want_of_memory(&fault)),
    }
}

// Want of memory, the one fault that the reader may have with the text of the sample.
fn want_of_memory(_fault: &ReadFault) -> Mem
    requires { _fault.now ≡ OutOfMemory }
{
    Mem
}

/// The run of so many sessions of the sample, one behind the other. Each takes what it has put out.
pub fn sample_run(alloc: Global, n: u64) -> Result<PSteps, Mem>
    requires some { 1 ≤ n }
    requires most { n ≤ most_sessions }
    ensures { IfOk result (λ run. run ≡ sample_lines n) }
{
    let mut run = PSteps::new(alloc);
    let mut before = 0;
    while before < n {
        push_session(&mut run, before)?;
        before += 1;
    }
    Ok(run)
}

// Puts last the lines of the session behind so many others.
fn push_session(run: &mut PSteps, before: u64) -> Result<(), Mem>
    requires { before ≤ most_sessions }
    ensures { OnOk result (run.new ≡ run.old ++ session before) }
{
    let this = before + 1;
    run.push(PStep::Rep(0))?;
    run.push(PStep::New(this, this))?;
    run.push(PStep::Lock(this))?;
    run.push(PStep::Insert(this))?;
    run.push(PStep::Unlock(this))?;
    run.push(PStep::Out(this))?;
    run.push(PStep::In(this, before))?;
    run.push(PStep::Event(this))?;
    run.push(PStep::Nil(this))
}

/// What is told of the sample of so many sessions: its run is converted to one of rules, and that back.
pub fn sample_text(alloc: Global, n: u64) -> Result<Text, Mem>
    requires some { 1 ≤ n }
    requires most { n ≤ most_sessions }
    ensures { IfOk result (λ text. text ≡ sample_text n) }
{
    let file = sample_file(alloc)?;
    let run = sample_run(alloc, n)?;
    converted(alloc, n, &file, &run)
}

// What is told of a run of so many sessions of the file.
fn converted(alloc: Global, n: u64, file: &File, run: &PSteps) -> Result<Text, Mem>
    requires some { 1 ≤ n }
    requires runnable { IsRunnable (told_by file.now) }
    requires tells { told_by file.now ≡ told_sample }
    requires lines { run.now ≡ sample_lines n }
    ensures { IfOk result (λ text. text ≡ sample_text n) }
{
    let shown = shown_times(alloc, file, run)?;
    let rules = rules_opposite(alloc, file, run)?;
    let back = lines_opposite(alloc, file, run, &rules)?;
    let mut text = Text::new(alloc);
    push_counts(&mut text, n, run.len(), rules.len(), back.len(), shown)?;
    Ok(text)
}

// At how many times a run of so many sessions of the file shows something. No line of it is refused.
fn shown_times(alloc: Global, file: &File, run: &PSteps) -> Result<u64, Mem>
    requires runnable { IsRunnable (told_by file.now) }
    requires tells { told_by file.now ≡ told_sample }
    requires lines { (n : ℕ) × (run.now ≡ sample_lines n) }
    ensures { IfOk result (λ times. (tr : Seen) × IsShownByLines file.now.signature (proc file.now.process) run.now tr × (times ≡ length tr)) }
{
    process_runs_have_one_answer();
    sample_is_legal();
    match process_trace(alloc, file, run) {
        Ok(trace) => Ok(trace.len()),
        Err(At::Mem) => Err(Mem),
        Err(At::Step { .. }) => unreachable!(),
    }
}

// The run of rules opposite to a run of the file's process that shows something, of which no line is refused.
fn rules_opposite(alloc: Global, file: &File, run: &PSteps) -> Result<RSteps, Mem>
    requires runnable { IsRunnable (told_by file.now) }
    requires shown { (tr : Seen) × IsShownByLines file.now.signature (proc file.now.process) run.now tr }
    ensures { IfOk result (IsConvertedToRules file.now.signature (proc file.now.process) run.now) }
{
    process_runs_have_one_answer();
    match to_rules(alloc, file, run) {
        Ok(rules) => Ok(rules),
        Err(At::Mem) => Err(Mem),
        Err(At::Step { .. }) => unreachable!(),
    }
}

// The run of the process opposite to a run of its rules that is opposite to one of the process. None of its lines is refused, and
// none breaks a restriction.
fn lines_opposite(alloc: Global, file: &File, run: &PSteps, rules: &RSteps) -> Result<PSteps, Mem>
    requires runnable { IsRunnable (told_by file.now) }
    requires opposite { IsConvertedToRules file.now.signature (proc file.now.process) run.now rules.now }
    ensures { IfOk result (IsConvertedToProcess file.now.signature (proc file.now.process) rules.now) }
{
    rule_runs_have_one_answer();
    match to_process(alloc, file, rules) {
        Ok(lines) => Ok(lines),
        Err(BackAt::Mem) => Err(Mem),
        Err(BackAt::Step { .. }) => unreachable!(),
        Err(BackAt::Broken { .. }) => unreachable!(),
    }
}

// Puts last the lines that tell these numbers.
fn push_counts(
    text: &mut Text,
    n: u64,
    lines: u64,
    rule_lines: u64,
    back_lines: u64,
    shown: u64,
) -> Result<(), Mem>
    ensures { OnOk result (text.new ≡ text.old ++ counts_text n lines rule_lines back_lines shown) }
{
    push_count(text, b"sample ", n)?;
    push_count(text, b"process steps ", lines)?;
    push_count(text, b"rule steps ", rule_lines)?;
    push_count(text, b"back steps ", back_lines)?;
    push_count(text, b"visible events ", shown)
}

// Puts last a number behind a text, on a line.
fn push_count(text: &mut Text, what: &[u8], n: u64) -> Result<(), Mem>
    ensures { OnOk result (text.new ≡ text.old ++ count_line what.now n) }
{
    text.push_bytes(what)?;
    text.push_number(n)?;
    text.push_bytes(b"\n")
}
