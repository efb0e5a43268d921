//! The files of the system, as a shelf.
ghost use Rattle.std.specs.Prelude.{◌≡◌, ◌≢◌, ◌≤◌, ◌+◌, ◌-◌, ◌^◌, ℕ, List, [], min, length, IfOk, OnOk, OnErr, IsErrOf, IsSomeAnd, Option, None, Some, option_map, string_bytes};
ghost use Rattle.sap_outside.specs.Outside.{Rose, IsWholeFile, IsNextPart};
ghost use Rattle.sap_outside.specs.RunPieces.{most_run_bytes};
ghost use Rattle.sap_outside.specs.Seen.{seen_shelf};

use crate::{Shelf, ShelfFault};
use std::alloc::Global;
use std::fs;
use std::io::{ErrorKind, Read};
use std::rt::Files;

/// The files of the system, which tell nothing. Each fault, of whatever file, raises the one count.
#[derive(Drop)]
pub struct FileShelf<'a, R: Files> {
    /// The runtime that opens the files.
    pub rt: &'a R,
    /// How many calls failed; it stops at the greatest u64.
    pub count: u64,
    /// The open file.
    pub file: Option<R::File>,
    /// The name of the open file.
    pub name: Option<String>,
}

impl<'a, R: Files> FileShelf<'a, R> {
    // Closes the open file.
    fn close(&mut self)
        ensures name { self.new.name ≡ None }
        ensures count { self.new.count ≡ self.old.count }
    {
        self.file = None;
        self.name = None;
    }

    // Counts the fault, where it is one that counts.
    fn counted(&mut self, fault: ShelfFault) -> ShelfFault
        ensures same { result ≡ fault }
        ensures name { self.new.name ≡ self.old.name }
        ensures counted { fault ≡ ShelfFault.Failed → self.new.count ≡ min (self.old.count + 1) (2 ^ 64 - 1) }
        ensures uncounted { fault ≡ ShelfFault.Mem → self.new.count ≡ self.old.count }
        ensures later { self.old.count ≤ self.new.count }
    {
        match fault {
            ShelfFault::Mem => (),
            ShelfFault::Failed => self.count = self.count.saturating_add(1),
        }
        fault
    }
}

/// How many bytes there is room for before any is read.
const FIRST_ROOM: usize = 65_536;

/// How often in a row a signal may interrupt a read, or a write.
pub const MOST_TRIES: u64 = 1_000_000;

// Opens the file of this name.
fn open<R: Files>(rt: &R, name: &str) -> Result<R::File, ShelfFault> {
    match fs::open(rt, name) {
        Ok(file) => Ok(file),
        Err(e) => Err(fault_of(e.kind())),
    }
}

// The first bytes of the file of this name. They are read into the buffer itself, which doubles as it fills up.
fn read_up_to<R: Files>(alloc: Global, rt: &R, name: &str, most: u64) -> Result<Vec<u8>, ShelfFault>
    requires { most ≤ most_run_bytes + 1 }
    ensures { IfOk result (λ v. length v.items ≤ most) }
{
    let mut bytes = Vec::with_capacity(alloc, FIRST_ROOM)?;
    match open(rt, name)?.take(most).read_to_end(&mut bytes) {
        Ok(_) => {
            bytes.truncate(most as usize);
            Ok(bytes)
        }
        Err(e) => Err(fault_of(e.kind())),
    }
}

// Reads once, where room was made before. A read that a signal interrupts is tried again.
fn read_piece<F: Read>(alloc: Global, file: &mut F, most: u64) -> Result<Vec<u8>, ShelfFault>
    requires { 1 ≤ most }
    ensures { IfOk result (λ v. length v.items ≤ most) }
{
    let room = most.min(FIRST_ROOM as u64) as usize;
    let mut bytes = Vec::from_elem(alloc, 0u8, room)?;
    for _ in 0..MOST_TRIES {
        match file.read(bytes.as_mut_slice()) {
            Ok(n) => {
                bytes.truncate(n);
                return Ok(bytes);
            }
            Err(e) if e.kind() == ErrorKind::Interrupted => (),
            Err(e) => return Err(fault_of(e.kind())),
        }
    }
    Err(ShelfFault::Failed)
}

// What an error of the system is: want of memory, where it says so, and a fault otherwise.
fn fault_of(kind: ErrorKind) -> ShelfFault
    ensures mem { kind ≡ ErrorKind.OutOfMemory → result ≡ ShelfFault.Mem }
    ensures fault { kind ≢ ErrorKind.OutOfMemory → result ≡ ShelfFault.Failed }
{
    match kind {
        ErrorKind::OutOfMemory => ShelfFault::Mem,
        _ => ShelfFault::Failed,
    }
}

impl<'a, R: Files> Shelf for FileShelf<'a, R> {
    ghost seen = { λ s. seen_shelf None (λ _. s.count) None (option_map string_bytes s.name) None };

    // The count rises exactly where it fails.
    fn fetch(&mut self, alloc: Global, name: &str, limit: u64) -> Result<Vec<u8>, ShelfFault>
        requires { limit ≤ most_run_bytes }
        ensures most { IfOk result (λ v. length v.items ≤ limit + 1) }
        ensures kept { (option_map string_bytes self.new.name ≡ option_map string_bytes self.old.name)
            × (let rest : Option (List ℕ) = None in rest ≡ rest) }
        ensures later { self.old.count ≤ self.new.count }
        ensures cause { IsErrOf result ShelfFault.Failed → Rose self.old.count self.new.count }
        ensures counted { IsErrOf result ShelfFault.Failed → self.new.count ≡ min (self.old.count + 1) (2 ^ 64 - 1) }
        ensures uncounted { OnOk result (self.new.count ≡ self.old.count) }
        ensures mem { IsErrOf result ShelfFault.Mem → self.new.count ≡ self.old.count }
    {
        match read_up_to(alloc, self.rt, name, limit + 1) {
            Ok(bytes) => Ok(bytes),
            Err(fault) => Err(self.counted(fault)),
        }
    }

    // The count rises exactly where it fails. The old file is closed before the new one is opened.
    fn begin(&mut self, alloc: Global, name: &str) -> Result<(), ShelfFault>
        ensures opened { OnOk result (option_map string_bytes self.new.name ≡ Some name.now) }
        ensures told { OnOk result (IsWholeFile None name.now None) }
        ensures shut { OnErr result (option_map string_bytes self.new.name ≡ None) }
        ensures later { self.old.count ≤ self.new.count }
        ensures cause { IsErrOf result ShelfFault.Failed → Rose self.old.count self.new.count }
        ensures counted { IsErrOf result ShelfFault.Failed → self.new.count ≡ min (self.old.count + 1) (2 ^ 64 - 1) }
        ensures uncounted { OnOk result (self.new.count ≡ self.old.count) }
        ensures mem { IsErrOf result ShelfFault.Mem → self.new.count ≡ self.old.count }
    {
        self.close();
        let copy = String::from_str(alloc, name)?;
        match open(self.rt, name) {
            Ok(file) => {
                self.file = Some(file);
                self.name = Some(copy);
                Ok(())
            }
            Err(fault) => Err(self.counted(fault)),
        }
    }

    // The count rises exactly where it fails.
    fn next(&mut self, alloc: Global, most: u64) -> Result<Vec<u8>, ShelfFault>
        requires { 1 ≤ most }
        ensures most { IfOk result (λ v. length v.items ≤ most) }
        ensures closed { option_map string_bytes self.old.name ≡ None → IfOk result (λ v. v.items ≡ []) }
        ensures told { IfOk result (λ v. IsNextPart None None v.items) }
        ensures opened { OnOk result (option_map string_bytes self.new.name ≡ option_map string_bytes self.old.name) }
        ensures shut { IsErrOf result ShelfFault.Failed → option_map string_bytes self.new.name ≡ None }
        ensures mem { IsErrOf result ShelfFault.Mem
            → (option_map string_bytes self.new.name ≡ option_map string_bytes self.old.name)
            × (let rest : Option (List ℕ) = None in rest ≡ rest) }
        ensures later { self.old.count ≤ self.new.count }
        ensures cause { IsErrOf result ShelfFault.Failed
            → IsSomeAnd (option_map string_bytes self.old.name) (λ name. Rose self.old.count self.new.count) }
        ensures counted { IsErrOf result ShelfFault.Failed → self.new.count ≡ min (self.old.count + 1) (2 ^ 64 - 1) }
        ensures uncounted { OnOk result (self.new.count ≡ self.old.count) }
        ensures mem_count { IsErrOf result ShelfFault.Mem → self.new.count ≡ self.old.count }
    {
        if self.name.is_none() {
            return Ok(Vec::new(alloc));
        }
        let Some(file) = &mut self.file else {
            return Ok(Vec::new(alloc));
        };
        match read_piece(alloc, file, most) {
            Ok(bytes) => Ok(bytes),
            Err(fault) => {
                match fault {
                    ShelfFault::Mem => (),
                    ShelfFault::Failed => self.close(),
                }
                Err(self.counted(fault))
            }
        }
    }
}
