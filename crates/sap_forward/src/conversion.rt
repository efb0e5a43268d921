//! Runs of a process converted to runs of its rules.
ghost use Rattle.std.specs.Prelude.{◌≡◌, ◌<◌, ◌^◌, [], ◌∷◌, ◌++◌, IfOk, OnOk, Err, ℕ, Some};
ghost use Rattle.sap_locks.specs.Annotation.{IsAnnotation};
ghost use Rattle.sap_process.specs.Proc.{Proc, node_count, proc};
ghost use Rattle.sap_process.specs.Ready.{IsReady};
ghost use Rattle.sap_terms.specs.Signature.{HoldsBuiltins, Sig};
ghost use Rattle.sap_forward.specs.Converted.{IsConvertedToRules};
ghost use Rattle.sap_forward.specs.Answered.{first_rule_tables};
ghost use Rattle.sap_rule_lines.specs.Least.{names_drawn};
ghost use Rattle.sap_forward.specs.code.Desk.{Keeps};
ghost use Rattle.sap_translate.specs.relation.Agents.{running};
ghost use Rattle.sap_translate.specs.relation.Envs.{no_env};
ghost use Rattle.sap_forward.specs.code.Begun.{AreTaken, AreTakenUntil, Begins, EndsConverted, GoesOn};
ghost use Rattle.sap_forward.specs.code.Taken.{IsFoundBy, IsTaken};
ghost use Rattle.sap_lines.specs.declared.at.At.TheVariants.{Step as StepOf};
ghost use Rattle.sap_lines.specs.declared.fault.PFault.{PFault as Fault};
ghost use Rattle.sap_lines.specs.FirstRefused.{IsFirstRefusedOfProcess};
ghost use Rattle.sap_read.specs.Files.{IsRunnable, told_by};
ghost use Rattle.sap_calc.specs.Running.{IsDeniedAt};

use crate::At;
use crate::desk::Desk;
use crate::laws::lines_are_answered;
use crate::trace::{follow, started};
use sap_calc::Config;
use sap_lines::{
    limit_excludes, lines_are_steps, lines_have_one_answer, names_stand_in_runs, runs_match_exactly,
};
use sap_locks::annotations_are_ready;
use sap_read::File;
use sap_restrict::restrictions_say_sentences;
use sap_rewrite::normal_forms_are_unique;
use sap_rule_lines::head_lines;
use sap_runs::{PStep, PSteps, RSteps};
use sap_terms::{Mem, Term};
use sap_translate::process_steps_are_answered;
use std::alloc::Global;

// A law: a conversion begins with the line that starts the rules, goes on with each line that is taken, and ends with what stands
// opposite to all of them.
fn conversions_go_on()
    ensures begins { (g : Sig) (p q : Proc) → IsReady g p → node_count p < 2 ^ 64 → IsAnnotation p q → Begins g q }
    ensures lines { (g : Sig) (p q : Proc) → HoldsBuiltins g → IsReady g p → node_count p < 2 ^ 64
        → IsAnnotation p q → GoesOn g q }
    ensures ends { (g : Sig) (p q : Proc) → HoldsBuiltins g → IsReady g p → node_count p < 2 ^ 64
        → IsAnnotation p q → EndsConverted g q }
    ensures none { (g : Sig) (q : Proc) → IsConvertedToRules g q [] [] }
{
    lines_are_answered();
    process_steps_are_answered();
    annotations_are_ready();
    lines_are_steps();
    lines_have_one_answer();
    runs_match_exactly();
    limit_excludes();
    names_stand_in_runs();
    restrictions_say_sentences();
    normal_forms_are_unique();
}

// The value that a line `found` binds, asked before the line is done.
fn found_by(alloc: Global, config: &mut Config, step: &PStep) -> Result<Option<Term>, Mem>
    ensures ok { IfOk result (IsFoundBy config.old step.now) }
    ensures kept { config.new ≡ config.old }
{
    match step {
        PStep::Found(t) => config.stored(alloc, *t),
        _ => Ok(None),
    }
}

// Does one line of the process, the one with this number from 1, and writes the lines of rules for it.
fn take(
    alloc: Global,
    config: &mut Config,
    desk: &mut Desk,
    lines: &mut RSteps,
    step: &PStep,
    number: u64,
) -> Result<(), At>
    ensures ok { OnOk result (IsTaken config.old config.new desk.old desk.new step.now lines.old lines.new) }
    ensures refused { (n : ℕ) (fault : Fault) → result ≡ Err (StepOf n fault)
        → IsDeniedAt config.old step.now number n fault }
{
    let found = found_by(alloc, config, step)?;
    follow(alloc, config, step, number)?;
    Ok(desk.write(alloc, step, found, lines)?)
}

// Does all lines of the process, and writes the lines of rules for them.
fn take_each(
    alloc: Global,
    config: &mut Config,
    desk: &mut Desk,
    lines: &mut RSteps,
    run: &PSteps,
) -> Result<(), At>
    ensures ok { OnOk result (AreTaken run.now config.old config.new desk.old desk.new lines.old lines.new) }
    ensures refused { (n : ℕ) (fault : Fault) → result ≡ Err (StepOf n fault)
        → AreTakenUntil run.now config.old desk.old lines.old n fault }
{
    for k in 0..run.len() {
        take(alloc, config, desk, lines, run.at(k), k + 1)?;
    }
    Ok(())
}

// What is kept once the rules have started.
fn first_desk(alloc: Global, f: &File, run: &PSteps) -> Result<Box<Desk>, Mem>
    ensures { IfOk result (λ d. Keeps (proc f.now.process) (names_drawn run.now) (Some (running [] no_env (proc f.now.process)) ∷ []) first_rule_tables d.value) }
{
    Ok(Box::new(alloc, Desk::start(alloc, &f.process, run)?)?)
}

/// The run of the file's rules opposite to this run of its process: legal, within the limit on terms, admitted by the
/// restrictions that are generated, with the same visible trace, the same marks and the same entries of knowledge. Its first
/// line is `rule Init`, and behind it stand those for each line in turn, one to four; no lines stand opposite to none. `Fr` is
/// made of what a `new` or a `name` draws, in its own lines, and in those of a `lock` or a `sync` of the name that the lock or
/// tag gets: in turn the least names that no line of the run draws. `Step` names the first illegal line; the file's own
/// restrictions refuse none. `bench/replays.sh` counts that twice the lines take about twice the
/// instructions. It recurses as deep as the file's process and the terms of file and run.
pub fn to_rules(alloc: Global, f: &File, run: &PSteps) -> Result<RSteps, At>
    requires { IsRunnable (told_by f.now) }
    ensures ok { IfOk result (IsConvertedToRules f.now.signature (proc f.now.process) run.now) }
    ensures refused { (step : ℕ) (fault : Fault) → result ≡ Err (StepOf step fault)
        → IsFirstRefusedOfProcess f.now.signature (proc f.now.process) run.now step fault }
{
    conversions_go_on();
    let mut lines = head_lines(alloc, run)?;
    if lines.len() == 0 {
        return Ok(lines);
    }
    let mut config = started(alloc, f)?;
    let mut desk = first_desk(alloc, f, run)?;
    take_each(alloc, &mut config, &mut desk, &mut lines, run)?;
    Ok(lines)
}
