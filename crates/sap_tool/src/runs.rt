//! What a call ends with that reads a run in pieces, behind a file or a theory.

ghost use Rattle.std.specs.Prelude.{◌≤◌, ℕ, List};
ghost use Rattle.sap_read.specs.Files.{IsRunnable, told_by};
ghost use Rattle.sap_replay.specs.Replays.{IsCheckable};
ghost use Rattle.sap_replay.specs.AcceptedFile.{IsAcceptedFile};
ghost use Rattle.sap_replay.specs.AcceptedTheory.{IsAcceptedTheory};
ghost use Rattle.sap_tool.specs.Commands.{check, replay};
ghost use Rattle.sap_tool.specs.code.Endings.{EndsBoth, reading};

use sap_answer::{Ending, of_fault, of_refused, of_run};
use sap_outside::{Shelf, read_run};
use sap_read::{File, files_are_runnable};
use sap_replay::{
    Task, accepted_file, accepted_theory, checked, kinds_of, read_theories_can_run, replayed,
};
use sap_rule::Theory;
use sap_run_texts::Kinds;
use std::alloc::Global;

/// Ends with what the task writes of a run of the file of these bytes.
pub fn replay_bytes<S: Shelf>(
    alloc: Global,
    task: Task,
    shelf: &mut S,
    bytes: &[u8],
    run: &str,
) -> Ending
    ensures ends { (file : List ℕ) → EndsBoth (replay task file run.now) bytes.now
        (reading run.now (S.seen shelf.old) (S.seen shelf.new)) result }
    ensures later { (n : List ℕ) → (S.seen shelf.old).faults n ≤ (S.seen shelf.new).faults n }
{
    files_are_runnable();
    match accepted_file(alloc, bytes) {
        Ok(told) => replay_run(alloc, task, shelf, &told, bytes, run),
        Err(refusal) => of_refused(refusal),
    }
}

// Ends with what the task writes of a run of the file of these bytes.
fn replay_run<S: Shelf>(
    alloc: Global,
    task: Task,
    shelf: &mut S,
    told: &File,
    bytes: &[u8],
    run: &str,
) -> Ending
    requires { IsRunnable (told_by told.now) }
    ensures ends { (file : List ℕ) → IsAcceptedFile bytes.now (told_by told.now)
        → EndsBoth (replay task file run.now) bytes.now
        (reading run.now (S.seen shelf.old) (S.seen shelf.new)) result }
    ensures later { (n : List ℕ) → (S.seen shelf.old).faults n ≤ (S.seen shelf.new).faults n }
{
    match read_run(alloc, shelf, run, kinds_of(task)) {
        Ok(answer) => of_run(replayed(alloc, task, told, bytes, &answer)),
        Err(fault) => of_fault(fault),
    }
}

/// Ends with what the theory of these bytes says of a run of its rules.
pub fn check_bytes<S: Shelf>(alloc: Global, shelf: &mut S, bytes: &[u8], run: &str) -> Ending
    ensures ends { (theory : List ℕ) → EndsBoth (check theory run.now) bytes.now
        (reading run.now (S.seen shelf.old) (S.seen shelf.new)) result }
    ensures later { (n : List ℕ) → (S.seen shelf.old).faults n ≤ (S.seen shelf.new).faults n }
{
    read_theories_can_run();
    match accepted_theory(alloc, bytes) {
        Ok(told) => check_run(alloc, shelf, &told, run),
        Err(refusal) => of_refused(refusal),
    }
}

// Ends with what the theory says of a run of its rules.
fn check_run<S: Shelf>(alloc: Global, shelf: &mut S, told: &Theory, run: &str) -> Ending
    requires { IsCheckable told.now }
    ensures ends { (theory bytes : List ℕ) → IsAcceptedTheory bytes told.now
        → EndsBoth (check theory run.now) bytes
        (reading run.now (S.seen shelf.old) (S.seen shelf.new)) result }
    ensures later { (n : List ℕ) → (S.seen shelf.old).faults n ≤ (S.seen shelf.new).faults n }
{
    match read_run(alloc, shelf, run, Kinds::Rules) {
        Ok(answer) => of_run(checked(alloc, told, &answer)),
        Err(fault) => of_fault(fault),
    }
}
