//! The promises tried by hand.

ghost use Rattle.std.specs.Prelude.{◌≡◌, ◌<◌, ℕ, codes, List, [], ◌∷◌, ◌++◌, Some, length};
ghost use Rattle.std.specs.FinMap as files;
ghost use Rattle.sap_outside.specs.Outside.{Files, piece_bytes};
ghost use Rattle.sap_outside.specs.Requests.{Request, begin, fetch};
ghost use Rattle.sap_pages.specs.Texts.{version_text};
ghost use Rattle.sap_replay.specs.AcceptedFile.{IsTheoryOf};
ghost use Rattle.sap_replay.specs.declared.way.Way.TheVariants.{Plain};
ghost use Rattle.sap_answer.specs.Answer.{memory_text, read_fault_text, usage_text, write_fault_text};
ghost use Rattle.sap_tool.specs.Promises.{Promises};
ghost use Rattle.sap_tool.specs.PromisesExamples.{asking, compile_words, failed, fetches, got, json_words, judge_words, no_head, opens, piece, run_bytes, run_json, starved, telling, unknown_words, untouched, version_words, why_words};

use sap_json::arrays_by_hand;
use sap_pages::one_page;
use sap_read::one_file;
use sap_replay::texts_mean_what_they_say;
use sap_run_texts::{named_steps_can_be_written, one_run, printed_runs_are_read};

/// A law: calls that keep the promises, one for each status, of 0, 4, 5 and 6 more. The version is told, and a run of one line is given as
/// JSON, read in a piece and an empty one; a file without a word is refused, and a run without a head; unknown words are told so; a run
/// that can't be opened isn't read, nor is a file that can't be fetched; out fails behind five bytes, or err does behind five of its text
/// and five of the last word; memory is wanting before there is a text, with nothing asked for, behind a file, or behind a run that was
/// opened, or out finds none.
pub fn promises_are_kept_by_hand()
    ensures given { Promises (asking version_words [] 0 (got version_text 1) untouched) 0 }
    ensures given_run { Promises (asking json_words (opens (piece ∷ piece ∷ [])) 0 (got run_json 1) untouched) 0 }
    ensures refused { Promises (asking compile_words fetches 0 untouched
        (got (codes "file refused: no theory header\n") 1)) 1 }
    ensures refused_run { Promises (no_head (got (codes "run refused: wrong head\n") 1)) 2 }
    ensures usage { Promises (asking unknown_words [] 0 untouched (got usage_text 1)) 3 }
    ensures unread { Promises (asking json_words (opens []) 1 untouched (got read_fault_text 1)) 4 }
    ensures unread_file { Promises (asking compile_words fetches 1 untouched (got read_fault_text 1)) 4 }
    ensures unwritten { Promises (asking version_words [] 0 (failed 1 (codes "sapic") 1)
        (got write_fault_text 1)) 5 }
    ensures unwritten_err { Promises (asking unknown_words [] 0 untouched
        (failed 2 (codes "usagewrite") 2)) 5 }
    ensures wanting { Promises (asking version_words [] 0 untouched (got memory_text 1)) 6 }
    ensures wanting_file { Promises (asking compile_words fetches 0 untouched (got memory_text 1)) 6 }
    ensures wanting_run { Promises (asking json_words (opens (piece ∷ [])) 0 untouched (got memory_text 1)) 6 }
    ensures wanting_out { Promises (asking version_words [] 0 (starved 1 (codes "sapic") 1)
        (got memory_text 1)) 6 }
{
    one_page();
    arrays_by_hand();
    named_steps_can_be_written();
    printed_runs_are_read();
    texts_mean_what_they_say();
}

/// A law: calls that break them, most beside one that keeps them. Of status 0: a byte more on out, or a text on err beside it; the shelf
/// asked for a file where nothing is read; of a run as JSON a byte more, a text on err beside it, another run opened, alone or first, or one
/// piece too few asked for. A file, and a run, refused where another was asked for; a file, and a run, that the shelf tells it holds,
/// refused for another cause; known words that are told as unknown, or unknown ones with a file asked for, and a text on out beside unknown
/// ones. Of status 4: another run opened, or another file fetched, alone or first, no fault of the run, a text on out, or another text on
/// err. Of status 5: half a last word on err, or one behind another text after one fault; fewer bytes on out by two puts than a piece has,
/// or more by one, whatever the text; bytes that begin another text; a text on out beside a first part of one on err; the shelf asked for a
/// file where nothing is read; or no fault of a sink, whatever the words. Of status 6: another run opened and asked for a piece, or another
/// file fetched; a run opened, and a piece of it asked for, behind a file that is refused; a first part on out that wanted no memory. A
/// status that there isn't.
pub fn promises_are_broken_by_hand()
    ensures more { Promises (asking version_words [] 0 (got (version_text ++ codes "\n") 1) untouched) 0 → ⊥ }
    ensures both_sinks { Promises (asking version_words [] 0 (got version_text 1) (got usage_text 1)) 0 → ⊥ }
    ensures asked { Promises (asking version_words (begin (codes "r") ∷ []) 0 (got version_text 1) untouched) 0 → ⊥ }
    ensures more_json { (held : Files) → files.get held (codes "r") ≡ Some run_bytes
        → Promises (telling held json_words (opens (piece ∷ piece ∷ [])) (got (run_json ++ codes "\n") 1) untouched) 0 → ⊥ }
    ensures both_sinks_json { Promises (asking json_words (opens (piece ∷ piece ∷ [])) 0 (got run_json 1)
        (got usage_text 1)) 0 → ⊥ }
    ensures other_run_given { Promises (asking json_words (begin (codes "s") ∷ opens (piece ∷ piece ∷ [])) 0
        (got run_json 1) untouched) 0 → ⊥ }
    ensures run_of_another_name { Promises (asking json_words (begin (codes "s") ∷ piece ∷ piece ∷ []) 0
        (got run_json 1) untouched) 0 → ⊥ }
    ensures fewer_pieces { Promises (asking json_words (opens (piece ∷ [])) 0 (got run_json 1) untouched) 0 → ⊥ }
    ensures other_file_refused { Promises (asking compile_words (fetch (codes "g") 1048576 ∷ []) 0 untouched
        (got (codes "file refused: no theory header\n") 1)) 1 → ⊥ }
    ensures other_file_cause { (held : Files) → files.get held (codes "f") ≡ Some []
        → Promises (telling held compile_words fetches untouched (got (codes "file refused: no process\n") 1)) 1 → ⊥ }
    ensures other_run_refused { Promises (asking json_words (begin (codes "s") ∷ piece ∷ piece ∷ []) 0 untouched
        (got (codes "run refused: wrong head\n") 1)) 2 → ⊥ }
    ensures other_cause { (held : Files) → files.get held (codes "r") ≡ Some (codes "x")
        → Promises (telling held json_words (opens (piece ∷ piece ∷ [])) untouched
        (got (codes "run refused: line 1 is not a step\n") 1)) 2 → ⊥ }
    ensures unknown_out { Promises (asking unknown_words [] 0 (failed 1 (codes "sapic") 1)
        (got write_fault_text 1)) 5 → ⊥ }
    ensures usage_asked { Promises (asking unknown_words (fetch (codes "x") 1048576 ∷ []) 0 untouched
        (got usage_text 1)) 3 → ⊥ }
    ensures usage_told { Promises (asking version_words [] 0 untouched (got usage_text 1)) 3 → ⊥ }
    ensures other_first { Promises (asking json_words (begin (codes "s") ∷ opens []) 1 untouched
        (got read_fault_text 1)) 4 → ⊥ }
    ensures other_file_first { Promises (asking compile_words (fetch (codes "g") 1048576 ∷ fetches) 1 untouched
        (got read_fault_text 1)) 4 → ⊥ }
    ensures other_run_unread { Promises (asking json_words (begin (codes "s") ∷ []) 1 untouched
        (got read_fault_text 1)) 4 → ⊥ }
    ensures other_file_unread { Promises (asking compile_words (fetch (codes "g") 1048576 ∷ []) 1 untouched
        (got read_fault_text 1)) 4 → ⊥ }
    ensures no_fault { Promises (asking json_words (opens []) 0 untouched (got read_fault_text 1)) 4 → ⊥ }
    ensures out_unread { Promises (asking json_words (opens []) 1 (got (codes "sapic") 1)
        (got read_fault_text 1)) 4 → ⊥ }
    ensures other_text_unread { Promises (asking json_words (opens []) 1 untouched (got usage_text 1)) 4 → ⊥ }
    ensures half_word { Promises (asking version_words [] 0 (failed 1 (codes "sapic") 1)
        (got (codes "write") 1)) 5 → ⊥ }
    ensures one_fault { Promises (asking unknown_words [] 0 untouched
        (failed 1 (codes "usagewrite") 2)) 5 → ⊥ }
    ensures no_write_fault { (words : List (List ℕ)) (made : List Request) (faults : ℕ) (bytes : List ℕ) (puts : ℕ)
        → Promises (asking words made faults (got bytes puts) (got write_fault_text 1)) 5 → ⊥ }
    ensures two_puts { (words : List (List ℕ)) (made : List Request) (faults : ℕ) (bytes : List ℕ)
        → length bytes < piece_bytes
        → Promises (asking words made faults (failed 1 bytes 2) (got write_fault_text 1)) 5 → ⊥ }
    ensures one_put { (words : List (List ℕ)) (made : List Request) (faults : ℕ) (bytes : List ℕ)
        → piece_bytes < length bytes
        → Promises (asking words made faults (failed 1 bytes 1) (got write_fault_text 1)) 5 → ⊥ }
    ensures other_part { Promises (asking version_words [] 0 (failed 1 (codes "usage") 1)
        (got write_fault_text 1)) 5 → ⊥ }
    ensures out_unwritten { Promises (asking json_words (opens []) 1 (got (codes "sapic") 1)
        (failed 1 (codes "readwrite fault\n") 2)) 5 → ⊥ }
    ensures asked_unwritten { Promises (asking version_words (begin (codes "r") ∷ []) 0
        (failed 1 (codes "sapic") 1) (got write_fault_text 1)) 5 → ⊥ }
    ensures other_run { Promises (asking json_words (begin (codes "s") ∷ piece ∷ []) 0 untouched
        (got memory_text 1)) 6 → ⊥ }
    ensures other_file { Promises (asking compile_words (fetch (codes "g") 1048576 ∷ []) 0 untouched
        (got memory_text 1)) 6 → ⊥ }
    ensures behind_refused { (held : Files) → files.get held (codes "f") ≡ Some []
        → Promises (telling held judge_words (fetches ++ opens (piece ∷ [])) untouched (got memory_text 1)) 6 → ⊥ }
    ensures not_starved { Promises (asking version_words [] 0 (got (codes "sapic") 1) (got memory_text 1)) 6 → ⊥ }
    ensures no_status { Promises (asking version_words [] 0 (got version_text 1) untouched) 7 → ⊥ }
{
    one_page();
    arrays_by_hand();
    named_steps_can_be_written();
    one_file();
    one_run();
    printed_runs_are_read();
}

/// A law: calls that break a field that says when a status must come, beside what that status leaves. Unknown words told as a fault of reading; the version
/// not told, with status 5, though out has no fault; `why` that refuses a file that the shelf tells it holds; a run that is one refused where it is
/// to be given as JSON; and of a file with a theory another text, or a refusal.
pub fn answers_must_come_by_hand()
    ensures tell_usage { Promises (asking unknown_words [] 0 untouched (got read_fault_text 1)) 4 → ⊥ }
    ensures tell { Promises (asking version_words [] 0 (got (codes "sapic") 1) (got write_fault_text 1)) 5 → ⊥ }
    ensures answer { (held : Files) → files.get held (codes "f") ≡ Some []
        → Promises (telling held why_words fetches untouched (got (codes "file refused: no theory header\n") 1)) 1 → ⊥ }
    ensures take { (held : Files) → files.get held (codes "r") ≡ Some run_bytes
        → Promises (telling held json_words (opens (piece ∷ piece ∷ [])) untouched
        (got (codes "run refused: wrong head\n") 1)) 2 → ⊥ }
    ensures give { (held : Files) (bytes text other : List ℕ) (puts : ℕ) → files.get held (codes "f") ≡ Some bytes
        → IsTheoryOf Plain bytes text → (other ≡ text → ⊥)
        → Promises (telling held compile_words fetches (got other puts) untouched) 0 → ⊥ }
    ensures give_too { (held : Files) (bytes text : List ℕ) → files.get held (codes "f") ≡ Some bytes
        → IsTheoryOf Plain bytes text
        → Promises (telling held compile_words fetches untouched
        (got (codes "file refused: no theory header\n") 1)) 1 → ⊥ }
{
    arrays_by_hand();
    named_steps_can_be_written();
    printed_runs_are_read();
}
