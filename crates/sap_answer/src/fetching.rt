//! What is fetched.

ghost use Rattle.std.specs.Prelude.{◌≡◌, ◌≤◌, ℕ, List, [], ◌∷◌, IfOk, IsErrOf};
ghost use Rattle.sap_outside.specs.Outside.{IsFetched, Rose};
ghost use Rattle.sap_outside.specs.Requests.{Requested};
ghost use Rattle.sap_outside.specs.Requests as request;
ghost use Rattle.sap_outside.specs.RunPieces.{most_run_bytes};

use sap_outside::{Shelf, ShelfFault};
use std::alloc::Global;

/// Fetches the bytes of this name, and nothing else.
pub fn fetched<S: Shelf>(
    alloc: Global,
    shelf: &mut S,
    name: &str,
    limit: u64,
) -> Result<Vec<u8>, ShelfFault>
    requires { limit ≤ most_run_bytes }
    ensures told { IfOk result (λ v. IsFetched (S.seen shelf.old).holds name.now limit v.items) }
    ensures same { (S.seen shelf.new).holds ≡ (S.seen shelf.old).holds }
    ensures once { Requested (request.fetch name.now limit ∷ [])
        (S.seen shelf.old).asked (S.seen shelf.new).asked }
    ensures later { (n : List ℕ) → (S.seen shelf.old).faults n ≤ (S.seen shelf.new).faults n }
    ensures cause { IsErrOf result ShelfFault.Failed
        → Rose ((S.seen shelf.old).faults name.now) ((S.seen shelf.new).faults name.now) }
{
    shelf.fetch(alloc, name, limit)
}
