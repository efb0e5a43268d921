//! Runs read from a shelf, in pieces.
ghost use Rattle.std.specs.Prelude.{◌≡◌, ◌≤◌, ◌+◌, ◌↔◌, ℕ, List, [], ◌∷◌, Err, length, slice_get, Option, OnOk, OnErr, IfOk, IsErrOf, IsTrue, IsSomeAnd, Some};
ghost use Rattle.sap_run_texts.specs.RunReading.{StandsFor};
ghost use Rattle.sap_run_texts.specs.RunTexts.{IsRunRead};
ghost use Rattle.sap_run_texts.specs.declared.run_fault.RunFault.TheVariants as fault;
ghost use Rattle.sap_outside.specs.declared.run_refusal.RunRefusal.TheVariants as refusal;
ghost use Rattle.sap_outside.specs.Outside.{Files, Rose, IsWholeFile, piece_bytes};
ghost use Rattle.sap_outside.specs.Requests.{Request, Requested};
ghost use Rattle.sap_outside.specs.Requests as request;
ghost use Rattle.sap_outside.specs.RunPieces.{most_run_bytes, IsRunAnswer, WasRead, WasGivenUp};
ghost use Rattle.sap_outside.specs.code.RunFed.{IsTallyOf, IsPieceFed, IsRunFed, WasAsked, may_come_of};

use crate::run_refusal::RunRefusal;
use crate::tally::Tally;
use crate::{Shelf, ShelfFault};
use sap_run_texts::{Kinds, MOST_PROCESS_STEPS, MOST_RULE_STEPS, Run, RunFault, RunReader};
use std::alloc::Global;

/// How many bytes a run may have, and most of all that may be fetched.
pub const MOST_RUN_BYTES: u64 = 16_777_216;

/// How many bytes are asked for at once.
const PIECE_BYTES: u64 = 4_096;

/// The run of this name, of the kind that is asked for, or why its bytes are none. It is read in pieces, so that its bytes are
/// never held whole. Bytes that are too many are refused as such, whatever else is wrong with them.
pub fn read_run<S: Shelf>(
    alloc: Global,
    shelf: &mut S,
    name: &str,
    kinds: Kinds,
) -> Result<Result<Run, RunRefusal>, ShelfFault>
    ensures told { IfOk result (λ answer. (z : List ℕ)
        × WasRead (S.seen shelf.old).holds name.now [] (S.seen shelf.old).asked (S.seen shelf.new).asked z
        × IsRunAnswer kinds z answer) }
    ensures given_up { OnErr result
        (WasGivenUp (S.seen shelf.old).holds name.now [] (S.seen shelf.old).asked (S.seen shelf.new).asked) }
    ensures opened { OnOk result ((S.seen shelf.new).opened ≡ Some name.now) }
    ensures same { (S.seen shelf.new).holds ≡ (S.seen shelf.old).holds }
    ensures later { (n : List ℕ) → (S.seen shelf.old).faults n ≤ (S.seen shelf.new).faults n }
    ensures cause { IsErrOf result ShelfFault.Failed
        → Rose ((S.seen shelf.old).faults name.now) ((S.seen shelf.new).faults name.now) }
{
    shelf.begin(alloc, name)?;
    read_open(alloc, shelf, kinds)
}

// The run that the open file is, or why its bytes are none, where the last call opened it.
fn read_open<S: Shelf>(
    alloc: Global,
    shelf: &mut S,
    kinds: Kinds,
) -> Result<Result<Run, RunRefusal>, ShelfFault>
    ensures told { (holds : Option Files) → (name : List ℕ) → (before : Option (List Request))
        → IsWholeFile holds name (S.seen shelf.old).rest
        → Requested (request.begin name ∷ []) before (S.seen shelf.old).asked
        → IfOk result (λ answer. (z : List ℕ)
        × WasRead holds name [] before (S.seen shelf.new).asked z × IsRunAnswer kinds z answer) }
    ensures given_up { (holds : Option Files) → (name : List ℕ) → (before : Option (List Request))
        → IsWholeFile holds name (S.seen shelf.old).rest
        → Requested (request.begin name ∷ []) before (S.seen shelf.old).asked
        → OnErr result (WasGivenUp holds name [] before (S.seen shelf.new).asked) }
    ensures opened { OnOk result ((S.seen shelf.new).opened ≡ (S.seen shelf.old).opened) }
    ensures same { (S.seen shelf.new).holds ≡ (S.seen shelf.old).holds }
    ensures later { (n : List ℕ) → (S.seen shelf.old).faults n ≤ (S.seen shelf.new).faults n }
    ensures cause { IsErrOf result ShelfFault.Failed
        → IsSomeAnd (S.seen shelf.old).opened (λ name. Rose ((S.seen shelf.old).faults name) ((S.seen shelf.new).faults name)) }
{
    let mut reader = RunReader::new(alloc, kinds);
    let tally = feed_pieces(alloc, shelf, &mut reader)?;
    answer(reader, kinds, tally)
}

// Feeds the open file to the reader, up to its end or until it is known to be too long. Each piece that doesn't end it has a
// byte at least.
fn feed_pieces<S: Shelf>(
    alloc: Global,
    shelf: &mut S,
    reader: &mut RunReader,
) -> Result<Tally, ShelfFault>
    ensures fed { IfOk result (λ t. IsRunFed (S.seen shelf.old).rest reader.old reader.new
        t.given t.first (S.seen shelf.old).asked (S.seen shelf.new).asked) }
    ensures given_up { OnErr result
        (WasAsked (may_come_of (S.seen shelf.old).rest + 1) (S.seen shelf.old).asked (S.seen shelf.new).asked) }
    ensures opened { OnOk result ((S.seen shelf.new).opened ≡ (S.seen shelf.old).opened) }
    ensures same { (S.seen shelf.new).holds ≡ (S.seen shelf.old).holds }
    ensures later { (n : List ℕ) → (S.seen shelf.old).faults n ≤ (S.seen shelf.new).faults n }
    ensures cause { IsErrOf result ShelfFault.Failed
        → IsSomeAnd (S.seen shelf.old).opened (λ name. Rose ((S.seen shelf.old).faults name) ((S.seen shelf.new).faults name)) }
{
    let mut tally = Tally::new();
    while tally.given <= MOST_RUN_BYTES {
        let next = feed_piece(alloc, shelf, reader, tally)?;
        if next.given == tally.given {
            return Ok(next);
        }
        tally = next;
    }
    Ok(tally)
}

// Feeds the next piece of the open file to the reader.
fn feed_piece<S: Shelf>(
    alloc: Global,
    shelf: &mut S,
    reader: &mut RunReader,
    tally: Tally,
) -> Result<Tally, ShelfFault>
    requires { tally.given ≤ most_run_bytes }
    ensures fed { IfOk result (λ next. IsPieceFed (S.seen shelf.old).rest (S.seen shelf.new).rest reader.old reader.new
        tally.given tally.first next.given next.first) }
    ensures opened { OnOk result ((S.seen shelf.new).opened ≡ (S.seen shelf.old).opened) }
    ensures same { (S.seen shelf.new).holds ≡ (S.seen shelf.old).holds }
    ensures asked { Requested (request.next piece_bytes ∷ [])
        (S.seen shelf.old).asked (S.seen shelf.new).asked }
    ensures later { (n : List ℕ) → (S.seen shelf.old).faults n ≤ (S.seen shelf.new).faults n }
    ensures cause { IsErrOf result ShelfFault.Failed
        → IsSomeAnd (S.seen shelf.old).opened (λ name. Rose ((S.seen shelf.old).faults name) ((S.seen shelf.new).faults name)) }
{
    let piece = shelf.next(alloc, PIECE_BYTES)?;
    reader.feed(piece.as_slice())?;
    Ok(tally.behind(piece.as_slice()))
}

// What is answered of the bytes that the reader was fed.
fn answer(
    reader: RunReader,
    kinds: Kinds,
    tally: Tally,
) -> Result<Result<Run, RunRefusal>, ShelfFault>
    requires { reader.kinds ≡ kinds }
    ensures told { (z : List ℕ) → StandsFor reader z → IsTallyOf z tally.given tally.first
        → IfOk result (IsRunAnswer kinds z) }
    ensures sound { IsErrOf result ShelfFault.Failed → ⊥ }
{
    if tally.given > MOST_RUN_BYTES {
        return Ok(Err(RunRefusal::TooLong));
    }
    match reader.finish() {
        Ok(run) => Ok(Ok(run)),
        Err(RunFault::Mem) => Err(ShelfFault::Mem),
        Err(RunFault::BadHead) => Ok(Err(RunRefusal::BadHead)),
        Err(RunFault::BadLine { line }) => Ok(Err(RunRefusal::BadLine { line })),
        Err(RunFault::TooManySteps) => Ok(Err(RunRefusal::TooManySteps {
            most: most_steps(kinds, tally.first),
        })),
    }
}

// How many steps a run may have that begins with this byte, where it has too many.
fn most_steps(kinds: Kinds, first: Option<u8>) -> u64
    ensures { (z : List ℕ) → length z ≤ most_run_bytes → first ≡ slice_get z 0 → IsRunRead kinds z (Err fault.TooManySteps)
        → IsRunAnswer kinds z (Err (refusal.TooManySteps result)) }
{
    match kinds {
        Kinds::Process => MOST_PROCESS_STEPS,
        Kinds::Rules => MOST_RULE_STEPS,
        Kinds::Either => {
            if is_of_process(first) {
                MOST_PROCESS_STEPS
            } else {
                MOST_RULE_STEPS
            }
        }
    }
}

// Whether this is the first byte of the head of a run of a process.
fn is_of_process(first: Option<u8>) -> bool
    ensures { IsTrue result ↔ (first ≡ Some 112) }
{
    first == Some(b'p')
}
