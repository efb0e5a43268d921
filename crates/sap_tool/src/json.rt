//! What a call ends with that reads a run alone.

ghost use Rattle.std.specs.Prelude.{◌≡◌, ℕ, List};
ghost use Rattle.sap_outside.specs.Stream.{Stream};
ghost use Rattle.sap_tool.specs.Call.{call_of};
ghost use Rattle.sap_tool.specs.Commands.{spelled, to_json};
ghost use Rattle.sap_tool.specs.code.Endings.{Ends};

use sap_answer::{Ending, of_fault, of_run};
use sap_outside::{Shelf, read_run};
use sap_replay::json_of;
use sap_run_texts::Kinds;
use std::alloc::Global;

/// Ends with a run as JSON.
pub fn end_to_json<S: Shelf>(alloc: Global, shelf: &mut S, run: &str) -> Ending
    ensures { (words : List (List ℕ)) (out err : Stream) → words ≡ spelled (to_json run.now)
        → Ends (call_of words (S.seen shelf.old) (S.seen shelf.new) out err) result }
{
    match read_run(alloc, shelf, run, Kinds::Either) {
        Ok(answer) => of_run(json_of(alloc, &answer)),
        Err(fault) => of_fault(fault),
    }
}
