//! How much of a run was read.
ghost use Rattle.std.specs.Prelude.{◌≡◌, ◌≤◌, [], ◌++◌, ℕ, List, length, slice_get};
ghost use Rattle.sap_outside.specs.Outside.{piece_bytes};
ghost use Rattle.sap_outside.specs.RunPieces.{most_run_bytes};
ghost use Rattle.sap_outside.specs.code.RunFed.{IsTallyOf};

/// How much of a run was read.
#[derive(Clone, Copy, Drop)]
pub struct Tally {
    /// How many bytes.
    pub given: u64,
    /// The first of them.
    pub first: Option<u8>,
}

impl Tally {
    /// Nothing was read.
    pub fn new() -> Tally
        ensures { IsTallyOf [] result.given result.first }
    {
        Tally {
            given: 0,
            first: None,
        }
    }

    /// One more piece was read.
    pub fn behind(self, piece: &[u8]) -> Tally
        requires short { self.given ≤ most_run_bytes }
        requires small { length piece.now ≤ piece_bytes }
        ensures { (z : List ℕ) → IsTallyOf z self.given self.first → IsTallyOf (z ++ piece.now) result.given result.first }
    {
        Tally {
            given: self.given + piece.len() as u64,
            first: first_of(self.first, piece),
        }
    }
}

// The first byte of what was read, with this piece behind it.
#[tactic(auto, using(crate::proofs::RunFed::first_kept, crate::proofs::RunFed::first_new))]
fn first_of(first: Option<u8>, piece: &[u8]) -> Option<u8>
    ensures { (z : List ℕ) → first ≡ slice_get z 0 → result ≡ slice_get (z ++ piece.now) 0 }
{
    match first {
        Some(byte) => Some(byte),
        None => piece.first().copied(),
    }
}
