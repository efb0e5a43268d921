//! Shelves: where files are fetched from, whole or piece by piece.
ghost use Rattle.std.specs.Prelude.{◌≡◌, ◌≤◌, ◌+◌, ℕ, List, [], ◌∷◌, length, IfOk, OnOk, OnErr, IsErrOf, Option, None, Some, IsSomeAnd};
ghost use Rattle.sap_outside.specs.declared.shelf.ShelfFault.TheVariants.{Mem};
ghost use Rattle.sap_outside.specs.Outside.{Rose, IsFetched, IsWholeFile, IsNextPart};
ghost use Rattle.sap_outside.specs.Requests.{Requested};
ghost use Rattle.sap_outside.specs.Requests as request;
ghost use Rattle.sap_outside.specs.RunPieces.{most_run_bytes};
ghost use Rattle.sap_outside.specs.Seen.{SeenShelf};

use sap_terms::Mem as OutOfMemory;
use std::alloc::{AllocError, AllocFailed, Global};

/// Why a shelf gave no bytes.
#[derive(Clone, Copy)]
pub enum ShelfFault {
    /// Want of memory.
    Mem,
    /// The file couldn't be read.
    Failed,
}

impl From<AllocError> for ShelfFault {
    ghost from_gives = { λ _ e. e ≡ Mem };

    fn from(_: AllocError) -> Self {
        ShelfFault::Mem
    }
}

impl<T: Drop> From<AllocFailed<T>> for ShelfFault {
    ghost from_gives = { λ _ e. e ≡ Mem };

    fn from(_: AllocFailed<T>) -> Self {
        ShelfFault::Mem
    }
}

impl From<OutOfMemory> for ShelfFault {
    ghost from_gives = { λ _ e. e ≡ Mem };

    fn from(_: OutOfMemory) -> Self {
        ShelfFault::Mem
    }
}

/// Files by name, fetched whole, or opened and given in pieces. Where a shelf tells what it holds, no call changes that.
pub trait Shelf {
    /// What is seen of it.
    ghost seen: { Self → SeenShelf };

    /// The first `limit + 1` bytes of the file, or all of it where it has fewer: a file longer than the
    /// limit shows itself by one byte too many. A shelf that tells answers no bytes for a name that it
    /// doesn't hold. An open file stays as it is, whatever is answered.
    fn fetch(&mut self, alloc: Global, name: &str, limit: u64) -> Result<Vec<u8>, ShelfFault>
        requires { limit ≤ most_run_bytes }
        ensures most { IfOk result (λ v. length v.items ≤ limit + 1) }
        ensures told { IfOk result (λ v. IsFetched (seen self.old).holds name.now limit v.items) }
        ensures kept { ((seen self.new).opened ≡ (seen self.old).opened) × ((seen self.new).rest ≡ (seen self.old).rest) }
        ensures same { (seen self.new).holds ≡ (seen self.old).holds }
        ensures asked { Requested (request.fetch name.now limit ∷ [])
            (seen self.old).asked (seen self.new).asked }
        ensures later { (n : List ℕ) → (seen self.old).faults n ≤ (seen self.new).faults n }
        ensures cause { IsErrOf result ShelfFault.Failed → Rose ((seen self.old).faults name.now) ((seen self.new).faults name.now) };

    /// Opens the file of this name, in place of the one that was open. After a refusal none is open. A shelf that tells opens
    /// no file that it doesn't hold.
    fn begin(&mut self, alloc: Global, name: &str) -> Result<(), ShelfFault>
        ensures opened { OnOk result ((seen self.new).opened ≡ Some name.now) }
        ensures told { OnOk result (IsWholeFile (seen self.old).holds name.now (seen self.new).rest) }
        ensures shut { OnErr result ((seen self.new).opened ≡ None) }
        ensures same { (seen self.new).holds ≡ (seen self.old).holds }
        ensures asked { Requested (request.begin name.now ∷ []) (seen self.old).asked (seen self.new).asked }
        ensures later { (n : List ℕ) → (seen self.old).faults n ≤ (seen self.new).faults n }
        ensures cause { IsErrOf result ShelfFault.Failed → Rose ((seen self.old).faults name.now) ((seen self.new).faults name.now) };

    /// The next bytes of the open file, `most` at most, and none only at its end; none where no file is open. After a fault
    /// none is open; after want of memory all is as before.
    fn next(&mut self, alloc: Global, most: u64) -> Result<Vec<u8>, ShelfFault>
        requires { 1 ≤ most }
        ensures most { IfOk result (λ v. length v.items ≤ most) }
        ensures closed { (seen self.old).opened ≡ None → IfOk result (λ v. v.items ≡ []) }
        ensures told { IfOk result (λ v. IsNextPart (seen self.old).rest (seen self.new).rest v.items) }
        ensures opened { OnOk result ((seen self.new).opened ≡ (seen self.old).opened) }
        ensures shut { IsErrOf result ShelfFault.Failed → (seen self.new).opened ≡ None }
        ensures mem { IsErrOf result ShelfFault.Mem
            → ((seen self.new).opened ≡ (seen self.old).opened) × ((seen self.new).rest ≡ (seen self.old).rest) }
        ensures same { (seen self.new).holds ≡ (seen self.old).holds }
        ensures asked { Requested (request.next most ∷ []) (seen self.old).asked (seen self.new).asked }
        ensures later { (n : List ℕ) → (seen self.old).faults n ≤ (seen self.new).faults n }
        ensures cause { IsErrOf result ShelfFault.Failed
            → IsSomeAnd (seen self.old).opened (λ name. Rose ((seen self.old).faults name) ((seen self.new).faults name)) };
}
