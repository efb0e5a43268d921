//! What a call ends with.

ghost use Rattle.std.specs.Prelude.{◌≡◌, ◌≤◌, ℕ, List};
ghost use Rattle.sap_outside.specs.Stream.{Stream};
ghost use Rattle.sap_tool.specs.Call.{bytes_of, call_of};
ghost use Rattle.sap_tool.specs.Commands.{spelled};
ghost use Rattle.sap_tool.specs.code.Asked.{on_file, on_run};
ghost use Rattle.sap_tool.specs.code.Endings.{Ends, EndsBoth, EndsFile, reading};

use crate::command::{Command, OnFile, OnRun, command_of};
use crate::fill::fill_bytes;
use crate::json::end_to_json;
use crate::runs::{check_bytes, replay_bytes};
use crate::sessions::end_sample;
use crate::why::why_text;
use sap_answer::{Ending, fetched, of_fault, of_file, of_run, of_text};
use sap_outside::{Shelf, requests_are_joined};
use sap_replay::{run_of_json, theory_text_of};
use std::alloc::Global;

/// What the call of these words ends with.
pub fn ending<S: Shelf>(alloc: Global, words: &Vec<String>, shelf: &mut S) -> Ending
    ensures { (out err : Stream) → Ends
        (call_of (bytes_of words.now.items) (S.seen shelf.old) (S.seen shelf.new) out err) result }
{
    match command_of(words) {
        None => Ending::Usage,
        Some(Command::File(which, name)) => end_file(alloc, which, shelf, name),
        Some(Command::Run(which, name, run)) => end_run(alloc, which, shelf, name, run),
        Some(Command::ToJson(run)) => end_to_json(alloc, shelf, run),
        Some(Command::Sample(word)) => end_sample(alloc, word),
        Some(Command::Help(text)) => Ending::Help(text),
    }
}

// Ends with what is done with what has this name.
fn end_file<S: Shelf>(alloc: Global, which: OnFile, shelf: &mut S, name: &str) -> Ending
    ensures { (words : List (List ℕ)) (out err : Stream) → words ≡ spelled (on_file which name.now)
        → Ends (call_of words (S.seen shelf.old) (S.seen shelf.new) out err) result }
{
    match fetched(alloc, shelf, name, which.limit()) {
        Ok(bytes) => of_bytes(alloc, which, &bytes),
        Err(fault) => of_fault(fault),
    }
}

// Ends with what is done with these bytes.
fn of_bytes(alloc: Global, which: OnFile, bytes: &[u8]) -> Ending
    ensures { (name : List ℕ) → EndsFile (on_file which name) bytes.now result }
{
    match which {
        OnFile::Compile(way) => of_file(theory_text_of(alloc, way, bytes)),
        OnFile::FromJson => of_run(run_of_json(alloc, bytes)),
        OnFile::Explain => of_text(why_text(alloc, bytes)),
    }
}

// Ends with what is done with a run of what has the first name.
fn end_run<S: Shelf>(alloc: Global, which: OnRun, shelf: &mut S, name: &str, run: &str) -> Ending
    ensures { (words : List (List ℕ)) (out err : Stream) → words ≡ spelled (on_run which name.now run.now)
        → Ends (call_of words (S.seen shelf.old) (S.seen shelf.new) out err) result }
{
    requests_are_joined();
    match fetched(alloc, shelf, name, which.limit()) {
        Ok(bytes) => behind(alloc, which, shelf, &bytes, run),
        Err(fault) => of_fault(fault),
    }
}

// Ends with what is done with a run behind these bytes.
fn behind<S: Shelf>(alloc: Global, which: OnRun, shelf: &mut S, bytes: &[u8], run: &str) -> Ending
    ensures ends { (name : List ℕ) → EndsBoth (on_run which name run.now) bytes.now
        (reading run.now (S.seen shelf.old) (S.seen shelf.new)) result }
    ensures later { (n : List ℕ) → (S.seen shelf.old).faults n ≤ (S.seen shelf.new).faults n }
{
    match which {
        OnRun::Replay(task) => replay_bytes(alloc, task, shelf, bytes, run),
        OnRun::Fill => fill_bytes(alloc, shelf, bytes, run),
        OnRun::Check => check_bytes(alloc, shelf, bytes, run),
    }
}
