//! Short runs read from a whole text.
ghost use Rattle.std.specs.Prelude.{◌≡◌, ◌+◌, ◌<◌, ◌↔◌, ℕ, List, ◌∷◌, ◌++◌, length, Err, IfOk, IfErr, IfSome, IfNone, IsTrue};
ghost use Rattle.sap_run_lines.specs.StepLines.{IsOpenLine};
ghost use Rattle.sap_run_lines.specs.ShortLines.{IsShortStepLine};
ghost use Rattle.sap_runs.specs.declared.limits.TheConstants.{MOST_SHORT_STEPS as MostShortSteps};
ghost use Rattle.sap_run_texts.specs.declared.run_fault.RunFault.TheVariants as fault;
ghost use Rattle.sap_run_texts.specs.RunTexts.{IsBody, IsHeaded, IsHeadless, IsTold};
ghost use Rattle.sap_run_texts.specs.ShortTexts.{short_head, IsShortRunText};
ghost use Rattle.sap_run_texts.specs.code.ShortReading.{IsBehind};

use crate::RunFault;
use crate::reader::open_len;
use sap_run_lines::read_short_line;
use sap_runs::{MOST_SHORT_STEPS, SSteps};
use std::alloc::Global;

// The line that stands first, without its line feed, and the bytes behind that; None where no line feed stands.
fn first_line(bytes: &[u8]) -> Option<(&[u8], &[u8])>
    ensures line { IfSome result (λ p. bytes.now ≡ p.0.now ++ (10 ∷ p.1.now)) }
    ensures opened { IfSome result (λ p. IsOpenLine p.0.now) }
    ensures none { IfNone result (IsOpenLine bytes.now) }
{
    let count = open_len(bytes);
    if count < bytes.len() {
        Some((&bytes[..count], &bytes[count + 1..]))
    } else {
        None
    }
}

fn is_short_head(line: &[u8]) -> bool
    ensures { IsTrue result ↔ (line.now ≡ short_head) }
{
    line == b"short-run".as_slice()
}

// The bytes behind the head; None where another line stands first.
fn behind_head(bytes: &[u8]) -> Option<&[u8]>
    ensures some { IfSome result (λ r. IsHeaded short_head r.now bytes.now) }
    ensures none { IfNone result (IsHeadless short_head bytes.now) }
{
    let (line, rest) = first_line(bytes)?;
    if is_short_head(line) {
        Some(rest)
    } else {
        None
    }
}

// The fault of the line behind so many steps.
fn bad_line(steps: &SSteps) -> RunFault
    ensures { ((body rest : List ℕ) → IsBehind steps.now rest body → result ≡ fault.BadLine (length steps.now + 2)) }
{
    RunFault::BadLine {
        line: steps.len().saturating_add(2),
    }
}

// Takes the step of the line that stands first, and gives the bytes behind the line.
fn take_line<'a>(steps: &mut SSteps, bytes: &'a [u8]) -> Result<&'a [u8], RunFault>
    requires { 0 < length bytes.now }
    ensures shorter { IfOk result (λ r. length r.now < length bytes.now) }
    ensures behind { IfOk result (λ r. (body : List ℕ) → IsBehind steps.old bytes.now body
        → IsBehind steps.new r.now body) }
    ensures told { IfErr result (λ e. (body : List ℕ) → IsBehind steps.old bytes.now body
        → IsTold (IsBody IsShortStepLine MostShortSteps body) (Err e)) }
{
    if steps.len() >= MOST_SHORT_STEPS {
        return Err(RunFault::TooManySteps);
    }
    let Some((line, rest)) = first_line(bytes) else {
        return Err(bad_line(steps));
    };
    match read_short_line(steps.allocator(), line)? {
        None => Err(bad_line(steps)),
        Some(step) => {
            steps.push(step)?;
            Ok(rest)
        }
    }
}

// The steps of the lines behind the head.
fn read_body(alloc: Global, bytes: &[u8]) -> Result<SSteps, RunFault>
    ensures { IsTold (IsBody IsShortStepLine MostShortSteps bytes.now) result }
{
    let mut steps = SSteps::new(alloc);
    let mut rest = bytes;
    while !rest.is_empty() {
        rest = take_line(&mut steps, rest)?;
    }
    Ok(steps)
}

/// The steps of a short run, from its text. Of several faults the one of the first line is answered. The work is linear in the
/// bytes.
pub fn read_srun(alloc: Global, bytes: &[u8]) -> Result<SSteps, RunFault>
    ensures { IsTold (IsShortRunText bytes.now) result }
{
    match behind_head(bytes) {
        None => Err(RunFault::BadHead),
        Some(body) => read_body(alloc, body),
    }
}
