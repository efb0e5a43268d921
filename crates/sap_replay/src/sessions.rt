//! How many sessions a word asks for.
ghost use Rattle.std.specs.Prelude.{◌≡◌, ◌≢◌, ◌≤◌, ℕ, decimal, IfOk, MatchOption};
ghost use Rattle.sap_replay.specs.Sample.{most_sessions};

use sap_terms::Mem;
use sap_text::Text;
use std::alloc::Global;

/// The greatest number of sessions.
const MOST_SESSIONS: u64 = 500;

/// The number that the word is in decimal, without leading zeros, where there may be so many sessions.
pub fn sessions_of(alloc: Global, word: &str) -> Result<Option<u64>, Mem>
    ensures { IfOk result (λ found. MatchOption found ((n : ℕ) → 1 ≤ n → n ≤ most_sessions → word.now ≢ decimal n)
        (λ n. (1 ≤ n) × (n ≤ most_sessions) × (word.now ≡ decimal n))) }
{
    match word.parse::<u64>() {
        Ok(n) => {
            if 1 <= n && n <= MOST_SESSIONS {
                spelled_as(alloc, n, word)
            } else {
                Ok(None)
            }
        }
        Err(_) => Ok(None),
    }
}

// The number, where the word is it in decimal.
fn spelled_as(alloc: Global, n: u64, word: &str) -> Result<Option<u64>, Mem>
    ensures { IfOk result (λ found. MatchOption found (word.now ≢ decimal n) (λ m. (m ≡ n) × (word.now ≡ decimal n))) }
{
    let mut text = Text::new(alloc);
    text.push_number(n)?;
    if text.as_bytes() == word.as_bytes() {
        Ok(Some(n))
    } else {
        Ok(None)
    }
}
