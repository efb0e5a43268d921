//! Files in memory, as a shelf that fails when it is told to.
ghost use Rattle.std.specs.Prelude.{◌≡◌, ◌≤◌, ◌+◌, ◌-◌, ◌^◌, ◌++◌, ◌↔◌, ◌⊎◌, [], ◌∷◌, length, take, min, Contains, IsNone, IsSome, IsSomeAnd, IfOk, IfErr, IsErrOf, MatchOption, OnOk, OnErr, None, Some, option_map, string_bytes};
ghost use Rattle.std.specs.FinMap as map;
ghost use Rattle.std.specs.Option.{ForNone};
ghost use Rattle.sap_outside.specs.Outside.{Rose, IsFetched, IsWholeFile, IsNextPart, files_of};
ghost use Rattle.sap_outside.specs.Requests.{Request, Requested};
ghost use Rattle.sap_outside.specs.Requests as request;
ghost use Rattle.sap_outside.specs.Asked.{request_of, told_of};
ghost use Rattle.sap_outside.specs.RunPieces.{most_run_bytes};
ghost use Rattle.sap_outside.specs.Seen.{seen_shelf};

use crate::asked::{Asked, noted};
use crate::{Rest, Shelf, ShelfFault};
use std::alloc::{AllocError, Global};
use std::collections::BTreeMap;

/// A shelf in memory, which tells its files.
#[derive(Drop)]
pub struct MemShelf {
    /// The files by name.
    pub files: BTreeMap<String, Vec<u8>>,
    /// The numbers, from 1, of the calls that fail.
    pub fail_on: Vec<u64>,
    /// What it was asked for, the first request first; none from where there was no memory to note one.
    pub requests: Option<Vec<Asked>>,
    /// How many calls there were; it stops at the greatest u64.
    pub calls: u64,
    /// How many of them failed; it stops at the greatest u64.
    pub count: u64,
    /// The bytes of the open file that weren't given yet; none where no file is open.
    pub rest: Rest,
    /// The name of the open file.
    pub name: Option<String>,
    /// How many bytes a piece has at most; at least one.
    pub piece: u64,
    ghost shut: { ForNone name (rest ≡ []) },
    ghost some: { 1 ≤ piece },
}

impl MemShelf {
    // Notes what it is asked for, and counts the call.
    fn note(&mut self, more: Result<Asked, AllocError>)
        ensures noted { (r : Request) → IfOk more (λ asked. request_of asked ≡ r)
            → Requested (r ∷ []) (told_of self.old.requests) (told_of self.new.requests) }
        ensures calls { self.new.calls ≡ min (self.old.calls + 1) (2 ^ 64 - 1) }
        ensures files { self.new.files ≡ self.old.files }
        ensures list { self.new.fail_on.items ≡ self.old.fail_on.items }
        ensures name { self.new.name ≡ self.old.name }
        ensures rest { self.new.rest ≡ self.old.rest }
        ensures count { self.new.count ≡ self.old.count }
        ensures piece { self.new.piece ≡ self.old.piece }
    {
        self.requests = noted(self.requests.take(), more);
        self.calls = self.calls.saturating_add(1);
    }

    // Closes the open file.
    fn close(&mut self)
        ensures shut { (self.new.name ≡ None) × (self.new.rest ≡ []) }
        ensures files { self.new.files ≡ self.old.files }
        ensures list { self.new.fail_on.items ≡ self.old.fail_on.items }
        ensures requests { self.new.requests ≡ self.old.requests }
        ensures calls { self.new.calls ≡ self.old.calls }
        ensures count { self.new.count ≡ self.old.count }
        ensures piece { self.new.piece ≡ self.old.piece }
    {
        self.rest.clear();
        self.name = None;
    }

    // Counts a failure, after which no file is open.
    fn fail(&mut self)
        ensures shut { (self.new.name ≡ None) × (self.new.rest ≡ []) }
        ensures files { self.new.files ≡ self.old.files }
        ensures list { self.new.fail_on.items ≡ self.old.fail_on.items }
        ensures requests { self.new.requests ≡ self.old.requests }
        ensures calls { self.new.calls ≡ self.old.calls }
        ensures count { self.new.count ≡ min (self.old.count + 1) (2 ^ 64 - 1) }
        ensures later { self.old.count ≤ self.new.count }
        ensures piece { self.new.piece ≡ self.old.piece }
    {
        self.close();
        self.count = self.count.saturating_add(1);
    }

    // The next bytes of the open file, which loses them.
    fn cut(&mut self, alloc: Global, most: u64) -> Result<Vec<u8>, ShelfFault>
        ensures length { IfOk result (λ v. length v.items ≡ min most (min self.old.piece (length self.old.rest))) }
        ensures parts { IfOk result (λ v. self.old.rest ≡ v.items ++ self.new.rest) }
        ensures mem { OnErr result (self.new.rest ≡ self.old.rest) }
        ensures only { IfErr result (λ e. e ≡ ShelfFault.Mem) }
        ensures files { self.new.files ≡ self.old.files }
        ensures list { self.new.fail_on.items ≡ self.old.fail_on.items }
        ensures name { self.new.name ≡ self.old.name }
        ensures requests { self.new.requests ≡ self.old.requests }
        ensures calls { self.new.calls ≡ self.old.calls }
        ensures count { self.new.count ≡ self.old.count }
        ensures piece { self.new.piece ≡ self.old.piece }
    {
        Ok(self.rest.cut(alloc, most.min(self.piece))?)
    }
}

// A name and the bytes of its file.
fn copies(alloc: Global, name: &str, bytes: &[u8]) -> Result<(String, Vec<u8>), AllocError>
    ensures { IfOk result (λ both. (string_bytes both.0 ≡ name.now) × (both.1.items ≡ bytes.now)) }
{
    Ok((String::from_str(alloc, name)?, bytes.to_vec(alloc)?))
}

// The first bytes of a file, one more than the limit at most.
fn first_bytes(alloc: Global, bytes: &[u8], limit: u64) -> Result<Vec<u8>, ShelfFault>
    requires { limit ≤ most_run_bytes }
    ensures bytes { IfOk result (λ v. v.items ≡ take (limit + 1) bytes.now) }
    ensures only { IfErr result (λ e. e ≡ ShelfFault.Mem) }
{
    let most = ((limit + 1) as usize).min(bytes.len());
    Ok(bytes[..most].to_vec(alloc)?)
}

// The file of this name; none where the call is one that fails, or the name isn't held.
#[tactic(auto, using(crate::proofs::Held::held))]
fn file_of_call<'a>(
    files: &'a BTreeMap<String, Vec<u8>>,
    fail_on: &[u64],
    call: u64,
    name: &str,
) -> Option<&'a [u8]>
    ensures { MatchOption result (Contains fail_on.now call ⊎ IsNone (map.get (files_of files.now) name.now))
        (λ bytes. (Contains fail_on.now call → ⊥) × (map.get (files_of files.now) name.now ≡ Some bytes.now)) }
{
    if fail_on.contains(&call) {
        None
    } else {
        match files.get(name) {
            None => None,
            Some(bytes) => Some(bytes.as_slice()),
        }
    }
}

impl Shelf for MemShelf {
    ghost seen = { λ s. seen_shelf (Some (files_of s.files)) (λ _. s.count) (told_of s.requests)
        (option_map string_bytes s.name) (Some s.rest) };

    // It fails exactly where the call is one of `fail_on`, or the name isn't held.
    fn fetch(&mut self, alloc: Global, name: &str, limit: u64) -> Result<Vec<u8>, ShelfFault>
        requires { limit ≤ most_run_bytes }
        ensures most { IfOk result (λ v. length v.items ≤ limit + 1) }
        ensures told { IfOk result (λ v. IsFetched (Some (files_of self.old.files)) name.now limit v.items) }
        ensures same { self.new.files ≡ self.old.files }
        ensures asked { Requested (request.fetch name.now limit ∷ [])
            (told_of self.old.requests) (told_of self.new.requests) }
        ensures later { self.old.count ≤ self.new.count }
        ensures cause { IsErrOf result ShelfFault.Failed → Rose self.old.count self.new.count }
        ensures calls { self.new.calls ≡ min (self.old.calls + 1) (2 ^ 64 - 1) }
        ensures list { self.new.fail_on.items ≡ self.old.fail_on.items }
        ensures exactly { IsErrOf result ShelfFault.Failed
            ↔ (Contains self.old.fail_on.items self.new.calls ⊎ IsNone (map.get (files_of self.old.files) name.now)) }
        ensures counted { IsErrOf result ShelfFault.Failed → self.new.count ≡ min (self.old.count + 1) (2 ^ 64 - 1) }
        ensures uncounted { OnOk result (self.new.count ≡ self.old.count) }
        ensures mem { IsErrOf result ShelfFault.Mem → self.new.count ≡ self.old.count }
        ensures kept { (self.new.name ≡ self.old.name) × (self.new.rest ≡ self.old.rest) }
        ensures piece { self.new.piece ≡ self.old.piece }
    {
        self.note(Asked::fetch(alloc, name, limit));
        match file_of_call(&self.files, &self.fail_on, self.calls, name) {
            None => {
                self.count = self.count.saturating_add(1);
                Err(ShelfFault::Failed)
            }
            Some(bytes) => first_bytes(alloc, bytes, limit),
        }
    }

    // It fails exactly where the call is one of `fail_on`, or the name isn't held.
    fn begin(&mut self, alloc: Global, name: &str) -> Result<(), ShelfFault>
        ensures opened { OnOk result (option_map string_bytes self.new.name ≡ Some name.now) }
        ensures told { OnOk result (IsWholeFile (Some (files_of self.old.files)) name.now (Some self.new.rest)) }
        ensures shut { OnErr result (option_map string_bytes self.new.name ≡ None) }
        ensures same { self.new.files ≡ self.old.files }
        ensures asked { Requested (request.begin name.now ∷ [])
            (told_of self.old.requests) (told_of self.new.requests) }
        ensures later { self.old.count ≤ self.new.count }
        ensures cause { IsErrOf result ShelfFault.Failed → Rose self.old.count self.new.count }
        ensures calls { self.new.calls ≡ min (self.old.calls + 1) (2 ^ 64 - 1) }
        ensures list { self.new.fail_on.items ≡ self.old.fail_on.items }
        ensures exactly { IsErrOf result ShelfFault.Failed
            ↔ (Contains self.old.fail_on.items self.new.calls ⊎ IsNone (map.get (files_of self.old.files) name.now)) }
        ensures counted { IsErrOf result ShelfFault.Failed → self.new.count ≡ min (self.old.count + 1) (2 ^ 64 - 1) }
        ensures uncounted { OnOk result (self.new.count ≡ self.old.count) }
        ensures mem { IsErrOf result ShelfFault.Mem → self.new.count ≡ self.old.count }
        ensures piece { self.new.piece ≡ self.old.piece }
    {
        self.close();
        self.note(Asked::begin(alloc, name));
        match file_of_call(&self.files, &self.fail_on, self.calls, name) {
            None => {
                self.count = self.count.saturating_add(1);
                Err(ShelfFault::Failed)
            }
            Some(bytes) => {
                let (name, rest) = copies(alloc, name, bytes)?;
                self.name = Some(name);
                self.rest = Rest::of(rest);
                Ok(())
            }
        }
    }

    // It fails exactly where the call is one of `fail_on` and a file is open. It gives `most` bytes or `piece` bytes, whichever is
    // fewer, or all that is left where that is fewer still.
    fn next(&mut self, alloc: Global, most: u64) -> Result<Vec<u8>, ShelfFault>
        requires { 1 ≤ most }
        ensures most { IfOk result (λ v. length v.items ≤ most) }
        ensures closed { option_map string_bytes self.old.name ≡ None → IfOk result (λ v. v.items ≡ []) }
        ensures told { IfOk result (λ v. IsNextPart (Some self.old.rest) (Some self.new.rest) v.items) }
        ensures opened { OnOk result (option_map string_bytes self.new.name ≡ option_map string_bytes self.old.name) }
        ensures shut { IsErrOf result ShelfFault.Failed → option_map string_bytes self.new.name ≡ None }
        ensures mem { IsErrOf result ShelfFault.Mem
            → (option_map string_bytes self.new.name ≡ option_map string_bytes self.old.name)
            × (Some self.new.rest ≡ Some self.old.rest) }
        ensures same { self.new.files ≡ self.old.files }
        ensures asked { Requested (request.next most ∷ [])
            (told_of self.old.requests) (told_of self.new.requests) }
        ensures later { self.old.count ≤ self.new.count }
        ensures cause { IsErrOf result ShelfFault.Failed
            → IsSomeAnd (option_map string_bytes self.old.name) (λ name. Rose self.old.count self.new.count) }
        ensures calls { self.new.calls ≡ min (self.old.calls + 1) (2 ^ 64 - 1) }
        ensures list { self.new.fail_on.items ≡ self.old.fail_on.items }
        ensures exactly { IsErrOf result ShelfFault.Failed
            ↔ (Contains self.old.fail_on.items self.new.calls × IsSome self.old.name) }
        ensures length { IfOk result (λ v. length v.items ≡ min most (min self.old.piece (length self.old.rest))) }
        ensures counted { IsErrOf result ShelfFault.Failed → self.new.count ≡ min (self.old.count + 1) (2 ^ 64 - 1) }
        ensures uncounted { OnOk result (self.new.count ≡ self.old.count) }
        ensures mem_count { IsErrOf result ShelfFault.Mem → self.new.count ≡ self.old.count }
        ensures piece { self.new.piece ≡ self.old.piece }
    {
        self.note(Ok(Asked::Next { most }));
        if self.name.is_some() && self.fail_on.contains(&self.calls) {
            self.fail();
            return Err(ShelfFault::Failed);
        }
        self.cut(alloc, most)
    }
}
