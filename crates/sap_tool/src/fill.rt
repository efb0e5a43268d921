//! What a call ends with that fetches a short run, behind a file.

ghost use Rattle.std.specs.Prelude.{◌≤◌, ℕ, List};
ghost use Rattle.sap_read.specs.Files.{IsRunnable, told_by};
ghost use Rattle.sap_replay.specs.AcceptedFile.{IsAcceptedFile};
ghost use Rattle.sap_tool.specs.Commands as commands;
ghost use Rattle.sap_tool.specs.code.Endings.{EndsBoth, reading};

use sap_answer::{Ending, fetched, of_fault, of_refused, of_run};
use sap_outside::{MOST_RUN_BYTES, Shelf};
use sap_read::{File, files_are_runnable};
use sap_replay::{accepted_file, filled};
use std::alloc::Global;

/// Ends with the run that a short run of the file of these bytes stands for.
pub fn fill_bytes<S: Shelf>(alloc: Global, shelf: &mut S, bytes: &[u8], run: &str) -> Ending
    ensures ends { (file : List ℕ) → EndsBoth (commands.fill file run.now) bytes.now
        (reading run.now (S.seen shelf.old) (S.seen shelf.new)) result }
    ensures later { (n : List ℕ) → (S.seen shelf.old).faults n ≤ (S.seen shelf.new).faults n }
{
    files_are_runnable();
    match accepted_file(alloc, bytes) {
        Ok(told) => fill_run(alloc, shelf, &told, run),
        Err(refusal) => of_refused(refusal),
    }
}

// Ends with the run that a short run of the file stands for.
fn fill_run<S: Shelf>(alloc: Global, shelf: &mut S, told: &File, run: &str) -> Ending
    requires { IsRunnable (told_by told.now) }
    ensures ends { (file bytes : List ℕ) → IsAcceptedFile bytes (told_by told.now)
        → EndsBoth (commands.fill file run.now) bytes
        (reading run.now (S.seen shelf.old) (S.seen shelf.new)) result }
    ensures later { (n : List ℕ) → (S.seen shelf.old).faults n ≤ (S.seen shelf.new).faults n }
{
    match fetched(alloc, shelf, run, MOST_RUN_BYTES) {
        Ok(bytes) => of_run(filled(alloc, told, &bytes)),
        Err(fault) => of_fault(fault),
    }
}
