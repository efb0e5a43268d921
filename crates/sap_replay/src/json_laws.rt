//! Laws of runs as JSON.

ghost use Rattle.std.specs.Prelude.{◌≡◌, ◌≤◌, ℕ, List, length};
ghost use Rattle.sap_json.specs.Written.{json_text};
ghost use Rattle.sap_outside.specs.RunPieces.{most_run_bytes};
ghost use Rattle.sap_replay.specs.JsonRuns.{IsJsonOf, IsReadAsJson, IsReadAsRun, IsRunOfJson, run_text};

use sap_json::one_json_run;

/// A law: of the text that `to-json` writes of a run `from-json` writes the text of this run, where it isn't too long, and no other
/// text; and of the text that `from-json` writes of JSON `to-json` writes the run that the JSON is, where it isn't too long.
pub fn json_comes_back()
    ensures back { (z text : List ℕ) (t : IsReadAsJson z text) → length text ≤ most_run_bytes
        → IsRunOfJson text (run_text t.lines) }
    ensures no_other { (z text other : List ℕ) (t : IsReadAsJson z text) → IsRunOfJson text other
        → other ≡ run_text t.lines }
    ensures forth { (bytes text : List ℕ) (t : IsReadAsRun bytes text) → length text ≤ most_run_bytes
        → IsJsonOf text (json_text t.lines) }
{
    one_json_run();
}
