//! Runs of the rules of a process converted to runs of the process.
ghost use Rattle.std.specs.Prelude.{◌≡◌, IfErr, IfOk, Err, OnOk, ℕ};
ghost use Rattle.sap_process.specs.Proc.{proc};
ghost use Rattle.sap_back.specs.Converted.{IsConvertedToProcess, IsAdmittedRun, IsFirstBroken, IsFirstRefusedOfRules};
ghost use Rattle.sap_back.specs.declared.back_at.BackAt.TheVariants.{Step as StepOf, Broken as BrokenAt};
ghost use Rattle.sap_read.specs.Files.{IsRunnable, told_by};
ghost use Rattle.sap_restrict.specs.declared.which.Which.{Which as Restriction};
ghost use Rattle.sap_rule.specs.RuleSteps.{RuleState as State};
ghost use Rattle.sap_steps.specs.declared.fault.RFault.{RFault as Fault};
ghost use Rattle.sap_restrict.specs.View.{machine};
ghost use Rattle.sap_process_lines.specs.Tables.{first_process_tables};
ghost use Rattle.sap_back.specs.code.Desk.{WritesProcess};
ghost use Rattle.sap_back.specs.code.Taken.{IsConvertedLine};
ghost use Rattle.sap_back.specs.code.Replayed.{IsStopped, ShowOneReserved};

use crate::BackAt;
use crate::laws::{files_are_replayed, lines_are_followed};
use crate::replay::{Replay, begun};
use sap_process_lines::Desk;
use sap_read::File;
use sap_runs::{PSteps, RStep, RSteps};
use sap_terms::{Mem, Trace};
use std::alloc::Global;

/// The run of the file's process opposite to this run of its rules (`IsConvertedToProcess`): legal, within the limit on terms, with
/// the same visible trace, the same marks and at most as many lines; each term that the adversary knows at the end is among
/// its entries. The lines stand in turn, those for each line of the rules, and name what it names. None stands for `rule
/// Init`, `RepStart_`, `OutMsg_`, `OutAck_`, `fresh` and `learn`, and one for a `know` and the rule that takes it; a `know`
/// that no rule takes stays a `know`. `Step` names the first line that is refused, `Broken` the first that makes one of the
/// seven restrictions false; the earlier is answered, and of one line the refusal. `bench/replays.sh` counts that twice the
/// lines take about twice the instructions. It recurses as deep as the file's process and the terms of file and run.
pub fn to_process(alloc: Global, f: &File, run: &RSteps) -> Result<PSteps, BackAt>
    requires { IsRunnable (told_by f.now) }
    ensures ok { IfOk result (IsConvertedToProcess f.now.signature (proc f.now.process) run.now) }
    ensures refused { (step : ℕ) (fault : Fault) → result ≡ Err (StepOf step fault)
        → IsFirstRefusedOfRules f.now.signature (proc f.now.process) run.now step fault }
    ensures broken { (step : ℕ) (which : Restriction) → result ≡ Err (BrokenAt step which)
        → IsFirstBroken f.now.signature (proc f.now.process) run.now step which }
{
    files_are_replayed();
    lines_are_followed();
    let mut replay = begun(alloc, f)?;
    let mut desk = clear_desk(alloc)?;
    let mut lines = PSteps::new(alloc);
    for (at, line) in run.as_slice().iter().enumerate() {
        convert(
            alloc,
            &mut replay,
            &mut desk,
            line,
            at as u64 + 1,
            &mut lines,
        )?;
    }
    desk.finish(&mut lines)?;
    Ok(lines)
}

/// The full trace of a run of the file's rules, one time a line. `Step` and `Broken` are those of `to_process`.
/// It recurses as deep as the file's process and the terms of file and run.
pub fn rule_trace(alloc: Global, f: &File, run: &RSteps) -> Result<Trace, BackAt>
    requires { IsRunnable (told_by f.now) }
    ensures ok { IfOk result (λ full. (s : State) × IsAdmittedRun f.now.signature (proc f.now.process) run.now s full) }
    ensures refused { (step : ℕ) (fault : Fault) → result ≡ Err (StepOf step fault)
        → IsFirstRefusedOfRules f.now.signature (proc f.now.process) run.now step fault }
    ensures broken { (step : ℕ) (which : Restriction) → result ≡ Err (BrokenAt step which)
        → IsFirstBroken f.now.signature (proc f.now.process) run.now step which }
{
    files_are_replayed();
    let mut replay = begun(alloc, f)?;
    let mut full = Trace::new(alloc);
    for (at, line) in run.as_slice().iter().enumerate() {
        let acts = replay.take_up(alloc, line, at as u64 + 1)?;
        full.push(acts)?;
    }
    Ok(full)
}

// The desk before the first line, in memory of its own.
fn clear_desk(alloc: Global) -> Result<Box<Desk>, Mem>
    ensures { IfOk result (λ d. d.value ≡ first_process_tables) }
{
    Ok(Box::new(alloc, Desk::new(alloc))?)
}

// Writes the lines for a line of rules that shows facts or none, behind which so many facts have come. After want of memory nothing
// is said of the desk and of the lines.
fn write(
    alloc: Global,
    desk: &mut Desk,
    line: &RStep,
    shows: bool,
    count: u64,
    lines: &mut PSteps,
) -> Result<(), Mem>
    ensures { OnOk result (WritesProcess desk.old desk.new line.now shows count lines.old lines.new) }
{
    desk.tell(alloc, line, shows, count, lines)
}

// Takes up the line with this number, and writes the lines of the process for it.
fn convert(
    alloc: Global,
    replay: &mut Replay,
    desk: &mut Desk,
    line: &RStep,
    number: u64,
    lines: &mut PSteps,
) -> Result<(), BackAt>
    requires { ShowOneReserved replay.old.state.sig replay.old.state.rules }
    ensures ok { OnOk result (IsConvertedLine replay.old.state replay.new.state (machine replay.old.guard) (machine replay.new.guard) desk.old desk.new line.now lines.old lines.new) }
    ensures err { IfErr result (IsStopped replay.old.state (machine replay.old.guard) line.now number) }
{
    let acts = replay.take_up(alloc, line, number)?;
    let count = replay.state.fact_count();
    write(alloc, desk, line, acts.len() > 0, count, lines)?;
    Ok(())
}
