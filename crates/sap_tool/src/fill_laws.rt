//! The command that fills short runs, tried by hand.

ghost use Rattle.std.specs.Prelude.{◌≡◌, ℕ, codes, List, [], ◌∷◌, Option, None, Some};
ghost use Rattle.sap_outside.specs.Outside.{Files};
ghost use Rattle.sap_outside.specs.RunPieces.{most_run_bytes};
ghost use Rattle.sap_outside.specs.Requests.{Request, begin, fetch};
ghost use Rattle.sap_read.specs.Files.{FileContent};
ghost use Rattle.sap_replay.specs.AcceptedFile.{IsAcceptedFile};
ghost use Rattle.sap_tool.specs.Answers.{WasReadSo};
ghost use Rattle.sap_tool.specs.Commands.{Allows, RefusesRun, alone, at_once, fill, how_read, in_pieces, run_alone, spelled, to_json};
ghost use Rattle.sap_tool.specs.AcceptedRuns.{IsFilledText, IsLegalFilling};
ghost use Rattle.sap_replay.specs.ShortRuns.{IsShortRefusedWith};

use sap_run_texts::one_short_run;

/// A law: the command tried by hand. What words ask for it. It reads its run at once, and `to-json` doesn't; so a run is fetched, and
/// not opened. The short run without steps is filled by the run without lines, and not by the line that writes down the name `b'`, line
/// feed, `know 0`, line feed, `pub 'c`, whose text is another run; a text without a head is refused. It says nothing of a file alone, nor
/// of a run alone.
pub fn fill_by_hand()
    ensures words { spelled (fill (codes "a") (codes "b")) ≡ codes "fill" ∷ codes "a" ∷ codes "b" ∷ [] }
    ensures at_once { (file run : List ℕ) → how_read (fill file run) ≡ at_once }
    ensures in_pieces { (run : List ℕ) → how_read (to_json run) ≡ in_pieces }
    ensures fetched { (name : List ℕ)
        → WasReadSo at_once None name [] (Some []) (Some (fetch name most_run_bytes ∷ [])) (7 ∷ []) }
    ensures not_opened { (holds : Option Files) (name z : List ℕ) (more : List Request)
        → WasReadSo at_once holds name [] (Some []) (Some (begin name ∷ more)) z → ⊥ }
    ensures not_twice { (holds : Option Files) (name z : List ℕ)
        → WasReadSo at_once holds name [] (Some [])
        (Some (fetch name most_run_bytes ∷ fetch name most_run_bytes ∷ [])) z → ⊥ }
    ensures empty { (bytes : List ℕ) (f : FileContent) → IsAcceptedFile bytes f
        → IsFilledText bytes (codes "short-run\n") (codes "process-run\n") }
    ensures another { (bytes : List ℕ)
        → IsFilledText bytes (codes "short-run\n") (codes "process-run\npub 'b'\nknow 0\npub 'c'\n") → ⊥ }
    ensures no_meaning { (bytes : List ℕ)
        → IsLegalFilling bytes (codes "short-run\n") (codes "process-run\npub 'b'\nknow 0\npub 'c'\n") → ⊥ }
    ensures headless { (f : FileContent) → IsShortRefusedWith f (codes "process-run\n") (codes "wrong head") }
    ensures no_file_alone { (file run bytes text : List ℕ) → Allows (fill file run) (alone bytes) text → ⊥ }
    ensures no_run_alone { (file run z why : List ℕ) → RefusesRun (fill file run) (run_alone z) why → ⊥ }
{
    one_short_run();
}
