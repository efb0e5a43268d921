//! Stretches of a file: of a token, or behind all of them.
ghost use Rattle.std.specs.Prelude.{◌≡◌, ◌≤◌, ℕ};
ghost use Rattle.std.specs.List.{All};
ghost use Rattle.sap_text.specs.Spans.{IsWithin};
ghost use Rattle.sap_stretches.specs.Stretches.{end_of, stretch_at};

use sap_text::Token;

/// A stretch of a file: the bytes from one offset up to the one before another, both counted from 0.
#[derive(Clone, Copy)]
pub struct Stretch {
    pub from: u64,
    pub to: u64,
}

// Where the last of the tokens ends.
#[tactic(auto, using(crate::proofs::LastToken::last_ends))]
fn end_of(tokens: &[Token]) -> u64
    ensures { result ≡ end_of tokens.now }
{
    match tokens.last() {
        Some(token) => token.to,
        None => 0,
    }
}

/// The stretch of the token of this number, or what stands behind them all.
#[tactic(auto, using(crate::proofs::LastToken::end_within))]
pub fn stretch_at(tokens: &[Token], k: usize) -> Stretch
    ensures is { result ≡ stretch_at tokens.now k }
    ensures within { (size : ℕ) → All (IsWithin size) tokens.now → result.from ≤ size }
    ensures ends { (size : ℕ) → All (IsWithin size) tokens.now → result.to ≤ size }
    ensures order { (size : ℕ) → All (IsWithin size) tokens.now → result.from ≤ result.to }
{
    if k < tokens.len() {
        let token = tokens[k];
        return Stretch {
            from: token.from,
            to: token.to,
        };
    }
    let end = end_of(tokens);
    Stretch { from: end, to: end }
}
