//! What a call ends with that asks for a sample.
ghost use Rattle.std.specs.Prelude.{◌≡◌, ◌≤◌, ℕ, List, [], ◌∷◌, codes};
ghost use Rattle.sap_replay.specs.Sample.{most_sessions, sample_words};
ghost use Rattle.sap_tool.specs.code.Sampled.{EndsSample};

use sap_answer::Ending;
use sap_replay::{sample_text, sessions_of};
use sap_terms::Mem;
use std::alloc::Global;

/// What a call ends with that asks for a sample of so many sessions as this word says.
pub fn end_sample(alloc: Global, word: &str) -> Ending
    ensures { EndsSample (codes "sample" ∷ word.now ∷ []) result }
{
    match sessions_of(alloc, word) {
        Ok(Some(n)) => told_of(alloc, n),
        Ok(None) => Ending::Usage,
        Err(Mem) => Ending::Mem,
    }
}

// Ends with what is told of the sample of so many sessions.
fn told_of(alloc: Global, n: u64) -> Ending
    requires some { 1 ≤ n }
    requires most { n ≤ most_sessions }
    ensures { (words : List (List ℕ)) → words ≡ sample_words n → EndsSample words result }
{
    match sample_text(alloc, n) {
        Ok(text) => Ending::Given(text),
        Err(Mem) => Ending::Mem,
    }
}
