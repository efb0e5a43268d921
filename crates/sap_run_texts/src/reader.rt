//! A reader of runs, which is fed their text in pieces.
ghost use Rattle.std.specs.Prelude.{◌≡◌, ◌≤◌, ◌<◌, ◌+◌, ◌^◌, ◌↔◌, ℕ, List, [], ◌∷◌, ◌++◌, length, take, Err, OnOk, OnErr, IsErr, IsTrue, IfOk};
ghost use Rattle.sap_run_texts.specs.RunReading.{StandsFor, HasFailed, HoldsFor, TakesProcess, TakesRules, failed, in_head, in_process, in_rules};
ghost use Rattle.sap_run_texts.specs.declared.run_fault.RunFault.TheVariants as fault;
ghost use Rattle.sap_runs.specs.declared.process_step.PStep.{PStep};
ghost use Rattle.sap_runs.specs.declared.rule_step.RStep.{RStep};
ghost use Rattle.sap_run_texts.specs.declared.run.Kinds.{Kinds};
ghost use Rattle.sap_run_texts.specs.RunTexts.{process_head, rule_head, IsRunRead};
ghost use Rattle.sap_run_texts.specs.code.ReaderView.{held_of, IsPastHead, EmptyAtHead, IsFaulty};
ghost use Rattle.std.specs.List.{prefix_len};
ghost use Rattle.sap_text.specs.Tokens.{is_not_feed};
ghost use Rattle.sap_run_lines.specs.StepLines.{IsOpenLine};

use crate::phase::Phase;
use crate::{Kinds, MOST_PROCESS_STEPS, MOST_RULE_STEPS, Run, RunFault};
use sap_run_lines::{read_process_line, read_rule_line};
use sap_runs::{PSteps, RSteps};
use sap_terms::{Items, Mem};
use std::alloc::Global;
use std::marker::Model;

/// Reads the text of a run, in whatever pieces it comes. It holds the steps of the lines that have ended, and the bytes of
/// the one that hasn't: as any number of facts may stand on a line, a line has no greatest length.
#[derive(Drop)]
pub struct RunReader {
    kinds: Kinds,
    phase: Phase,
    line: Vec<u8>,
    process: PSteps,
    rules: RSteps,
}

impl Model for RunReader {
    ghost use Rattle.std.specs.Coded.{codes};
    ghost use Rattle.sap_terms.specs.Codes.{tree_code};
    ghost use Rattle.sap_run_texts.specs.RunReading.{Reading};
    ghost use Rattle.sap_run_texts.specs.code.ReaderView.{held_of, EmptyAtHead};

    ghost Value = { Reading };

    ghost coded = { Prim.hlevel (codes, tree_code) };

    ghost view = { λ r. record { kinds = r.kinds; held = held_of r.phase r.line.items r.process r.rules } };

    ghost invariant = { λ r. EmptyAtHead r.phase r.process r.rules };
}

// The longest head, in bytes.
const LONGEST_HEAD: usize = 11;

fn is_process_head(kinds: Kinds, line: &[u8]) -> bool
    ensures { IsTrue result ↔ (TakesProcess kinds × (line.now ≡ process_head)) }
{
    match kinds {
        Kinds::Rules => false,
        _ => line == b"process-run".as_slice(),
    }
}

fn is_rule_head(kinds: Kinds, line: &[u8]) -> bool
    ensures { IsTrue result ↔ (TakesRules kinds × (line.now ≡ rule_head)) }
{
    match kinds {
        Kinds::Process => false,
        _ => line == b"rule-run".as_slice(),
    }
}

fn phase_behind_head(kinds: Kinds, line: &[u8]) -> Phase
    ensures { (z : List ℕ) → HoldsFor kinds (in_head line.now) z
        → HoldsFor kinds (held_of result [] [] []) (z ++ 10 ∷ []) }
{
    if is_process_head(kinds, line) {
        return Phase::Process;
    }
    if is_rule_head(kinds, line) {
        return Phase::Rules;
    }
    Phase::Faulty(RunFault::BadHead)
}

// Takes bytes without a line feed into the first line.
fn head_with(line: &mut Vec<u8>, part: &[u8]) -> Result<Phase, Mem>
    requires { IsOpenLine part.now }
    ensures { IfOk result (λ p. (k : Kinds) (z : List ℕ) → HoldsFor k (in_head line.old.items) z
        → HoldsFor k (held_of p line.new.items [] []) (z ++ part.now)) }
{
    if line.len().saturating_add(part.len()) > LONGEST_HEAD {
        return Ok(Phase::Faulty(RunFault::BadHead));
    }
    line.extend_from_slice(part)?;
    Ok(Phase::Head)
}

// Ends the first line.
fn end_head(kinds: Kinds, line: &mut Vec<u8>) -> Phase
    ensures { (z : List ℕ) → HoldsFor kinds (in_head line.old.items) z
        → HoldsFor kinds (held_of result line.new.items [] []) (z ++ 10 ∷ []) }
{
    let phase = phase_behind_head(kinds, line.as_slice());
    line.clear();
    phase
}

// Takes bytes without a line feed into a line of a run of a process.
fn process_with(steps: &PSteps, line: &mut Vec<u8>, part: &[u8]) -> Result<Phase, Mem>
    requires no_feed { IsOpenLine part.now }
    requires some { 0 < length part.now }
    ensures past { IfOk result IsPastHead }
    ensures holds { IfOk result (λ p. (k : Kinds) (rules : List RStep) (z : List ℕ)
        → HoldsFor k (in_process steps.now line.old.items) z
        → HoldsFor k (held_of p line.new.items steps.now rules) (z ++ part.now)) }
{
    if steps.len() >= MOST_PROCESS_STEPS {
        return Ok(Phase::Faulty(RunFault::TooManySteps));
    }
    line.extend_from_slice(part)?;
    Ok(Phase::Process)
}

// Ends a line of a run of a process.
fn end_process(steps: &mut PSteps, line: &mut Vec<u8>) -> Result<Phase, Mem>
    ensures past { IfOk result IsPastHead }
    ensures holds { IfOk result (λ p. (k : Kinds) (rules : List RStep) (z : List ℕ)
        → HoldsFor k (in_process steps.old line.old.items) z
        → HoldsFor k (held_of p line.new.items steps.new rules) (z ++ 10 ∷ [])) }
{
    if steps.len() >= MOST_PROCESS_STEPS {
        return Ok(Phase::Faulty(RunFault::TooManySteps));
    }
    let step = read_process_line(steps.allocator(), line.as_slice())?;
    line.clear();
    match step {
        Some(step) => {
            steps.push(step)?;
            Ok(Phase::Process)
        }
        None => Ok(Phase::Faulty(RunFault::BadLine {
            line: steps.len() + 2,
        })),
    }
}

// Takes bytes without a line feed into a line of a run of rules.
fn rules_with(steps: &RSteps, line: &mut Vec<u8>, part: &[u8]) -> Result<Phase, Mem>
    requires no_feed { IsOpenLine part.now }
    requires some { 0 < length part.now }
    ensures past { IfOk result IsPastHead }
    ensures holds { IfOk result (λ p. (k : Kinds) (process : List PStep) (z : List ℕ)
        → HoldsFor k (in_rules steps.now line.old.items) z
        → HoldsFor k (held_of p line.new.items process steps.now) (z ++ part.now)) }
{
    if steps.len() >= MOST_RULE_STEPS {
        return Ok(Phase::Faulty(RunFault::TooManySteps));
    }
    line.extend_from_slice(part)?;
    Ok(Phase::Rules)
}

// Ends a line of a run of rules.
fn end_rules(steps: &mut RSteps, line: &mut Vec<u8>) -> Result<Phase, Mem>
    ensures past { IfOk result IsPastHead }
    ensures holds { IfOk result (λ p. (k : Kinds) (process : List PStep) (z : List ℕ)
        → HoldsFor k (in_rules steps.old line.old.items) z
        → HoldsFor k (held_of p line.new.items process steps.new) (z ++ 10 ∷ [])) }
{
    if steps.len() >= MOST_RULE_STEPS {
        return Ok(Phase::Faulty(RunFault::TooManySteps));
    }
    let step = read_rule_line(steps.allocator(), line.as_slice())?;
    line.clear();
    match step {
        Some(step) => {
            steps.push(step)?;
            Ok(Phase::Rules)
        }
        None => Ok(Phase::Faulty(RunFault::BadLine {
            line: steps.len() + 2,
        })),
    }
}

// The phase behind bytes without a line feed.
fn phase_with(
    phase: Phase,
    line: &mut Vec<u8>,
    process: &PSteps,
    rules: &RSteps,
    part: &[u8],
) -> Result<Phase, Mem>
    requires no_feed { IsOpenLine part.now }
    requires some { 0 < length part.now }
    ensures empty { IfOk result (λ p. EmptyAtHead phase process.now rules.now
        → EmptyAtHead p process.now rules.now) }
    ensures holds { IfOk result (λ p. EmptyAtHead phase process.now rules.now → (k : Kinds) (z : List ℕ)
        → HoldsFor k (held_of phase line.old.items process.now rules.now) z
        → HoldsFor k (held_of p line.new.items process.now rules.now) (z ++ part.now)) }
{
    match phase {
        Phase::Failed => Err(Mem),
        Phase::Faulty(fault) => Ok(Phase::Faulty(fault)),
        Phase::Head => head_with(line, part),
        Phase::Process => process_with(process, line, part),
        Phase::Rules => rules_with(rules, line, part),
    }
}

// The phase behind a line feed.
fn phase_behind_line(
    kinds: Kinds,
    phase: Phase,
    line: &mut Vec<u8>,
    process: &mut PSteps,
    rules: &mut RSteps,
) -> Result<Phase, Mem>
    ensures empty { IfOk result (λ p. EmptyAtHead phase process.old rules.old
        → EmptyAtHead p process.new rules.new) }
    ensures holds { IfOk result (λ p. EmptyAtHead phase process.old rules.old
        → (z : List ℕ) → HoldsFor kinds (held_of phase line.old.items process.old rules.old) z
        → HoldsFor kinds (held_of p line.new.items process.new rules.new) (z ++ 10 ∷ [])) }
{
    match phase {
        Phase::Failed => Err(Mem),
        Phase::Faulty(fault) => Ok(Phase::Faulty(fault)),
        Phase::Head => Ok(end_head(kinds, line)),
        Phase::Process => end_process(process, line),
        Phase::Rules => end_rules(rules, line),
    }
}

// How many bytes are taken at once, and the phase behind them: those before the next line feed, or the line feed.
fn next_phase(
    kinds: Kinds,
    phase: Phase,
    line: &mut Vec<u8>,
    process: &mut PSteps,
    rules: &mut RSteps,
    bytes: &[u8],
) -> Result<(usize, Phase), Mem>
    requires { 0 < length bytes.now }
    ensures taken { IfOk result (λ p. (0 < p.0) × (p.0 ≤ length bytes.now)) }
    ensures empty { IfOk result (λ p. EmptyAtHead phase process.old rules.old
        → EmptyAtHead p.1 process.new rules.new) }
    ensures holds { IfOk result (λ p. EmptyAtHead phase process.old rules.old
        → (z : List ℕ) → HoldsFor kinds (held_of phase line.old.items process.old rules.old) z
        → HoldsFor kinds (held_of p.1 line.new.items process.new rules.new) (z ++ take p.0 bytes.now)) }
{
    let count = open_len(bytes);
    if count == 0 {
        let behind = phase_behind_line(kinds, phase, line, process, rules)?;
        Ok((1, behind))
    } else {
        let behind = phase_with(phase, line, process, rules, &bytes[..count])?;
        Ok((count, behind))
    }
}

// How many bytes stand before the first line feed.
pub(crate) fn open_len(bytes: &[u8]) -> usize
    ensures is { result ≡ prefix_len is_not_feed bytes.now }
    ensures within { result ≤ length bytes.now }
{
    bytes.iter().take_while(|b| **b != b'\n').count()
}

// The fault of the line behind so many step lines.
fn bad_line(steps: u64) -> RunFault
    ensures { steps + 2 < 2 ^ 64 → result ≡ fault.BadLine (steps + 2) }
{
    RunFault::BadLine {
        line: steps.saturating_add(2),
    }
}

// What is answered at the end.
fn answer(phase: Phase, line: &[u8], process: PSteps, rules: RSteps) -> Result<Run, RunFault>
    ensures told { (k : Kinds) (z : List ℕ) → HoldsFor k (held_of phase line.now process rules) z
        → IsRunRead k z result }
    ensures failed { held_of phase line.now process rules ≡ failed → result ≡ Err fault.Mem }
{
    match phase {
        Phase::Failed => Err(RunFault::Mem),
        Phase::Faulty(fault) => Err(fault),
        Phase::Head => Err(RunFault::BadHead),
        Phase::Process => {
            if line.is_empty() {
                Ok(Run::Process(process))
            } else {
                Err(bad_line(process.len()))
            }
        }
        Phase::Rules => {
            if line.is_empty() {
                Ok(Run::Rules(rules))
            } else {
                Err(bad_line(rules.len()))
            }
        }
    }
}

impl RunReader {
    /// A reader that has been fed nothing. It takes no memory.
    pub fn new(alloc: Global, kinds: Kinds) -> RunReader
        ensures kinds { result.kinds ≡ kinds }
        ensures stands { StandsFor result [] }
    {
        RunReader {
            kinds,
            phase: Phase::Head,
            line: Vec::new(alloc),
            process: Items::new(alloc),
            rules: Items::new(alloc),
        }
    }

    /// Reads these bytes behind those before them. What is wrong with the text `finish` tells, and no byte behind it is looked
    /// at. Where memory is wanting the reader has failed for good.
    pub fn feed(&mut self, piece: &[u8]) -> Result<(), Mem>
        ensures kinds { self.new.kinds ≡ self.old.kinds }
        ensures stands { OnOk result ((z : List ℕ) → StandsFor self.old z
            → StandsFor self.new (z ++ piece.now)) }
        ensures fails { OnErr result (HasFailed self.new) }
        ensures failed { HasFailed self.old → IsErr result }
    {
        if self.has_failed() {
            return Err(Mem);
        }
        let mut taken = 0;
        while taken < piece.len() {
            taken += self.take(&piece[taken..])?;
        }
        Ok(())
    }

    /// What the bytes that it was fed are as a run. It takes no memory.
    pub fn finish(self) -> Result<Run, RunFault>
        ensures told { (z : List ℕ) → StandsFor self z → IsRunRead self.kinds z result }
        ensures failed { HasFailed self → result ≡ Err fault.Mem }
    {
        let line = self.line;
        answer(self.phase, line.as_slice(), self.process, self.rules)
    }

    fn has_failed(&self) -> bool
        ensures { IsTrue result ↔ HasFailed self.now }
    {
        matches!(self.phase, Phase::Failed)
    }

    fn is_faulty(&self) -> bool
        ensures { IsTrue result → IsFaulty self.now }
    {
        matches!(self.phase, Phase::Faulty(_))
    }

    // Takes the next bytes, and answers how many.
    fn take(&mut self, bytes: &[u8]) -> Result<usize, Mem>
        requires { 0 < length bytes.now }
        ensures kinds { self.new.kinds ≡ self.old.kinds }
        ensures taken { IfOk result (λ n. (0 < n) × (n ≤ length bytes.now)) }
        ensures stands { IfOk result (λ n. (z : List ℕ) → StandsFor self.old z
            → StandsFor self.new (z ++ take n bytes.now)) }
        ensures fails { OnErr result (HasFailed self.new) }
    {
        if self.is_faulty() {
            return Ok(bytes.len());
        }
        let next = next_phase(
            self.kinds,
            self.phase,
            &mut self.line,
            &mut self.process,
            &mut self.rules,
            bytes,
        );
        match next {
            Ok((count, phase)) => {
                self.phase = phase;
                Ok(count)
            }
            Err(mem) => {
                self.phase = Phase::Failed;
                Err(mem)
            }
        }
    }
}
