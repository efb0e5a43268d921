// Clauses over numbers, and what follows from given numbers by them. Nothing here knows what the numbers stand for.
ghost use Rattle.std.specs.Prelude.{◌≡◌, ◌<◌, ◌≤◌, ◌+◌, ◌⊎◌, ℕ, [], ◌∷◌, ◌++◌, length, slice_get, Some, IfSome, IfNone, OnOk, OnErr};
ghost use Rattle.std.specs.Vec.{vec_len, vec_capacity};
ghost use Rattle.sap_derive.specs.code.Lines.{premises_of};
ghost use Rattle.sap_derive.specs.code.Listed.{IsListed, AreListed, AreListedBefore};
ghost use Rattle.sap_derive.specs.code.Closed.{IsFirstUnlisted, IsWaitAt, IsWait, KeepsWaits, IsParked, IsSound, IsUsed, IsWaiting, IsClosure, IsGiven, KeepsKnown, Learns, Grows, Advances, IsClosedUnder};
ghost use Rattle.sap_derive.specs.declared.grounds.Wait.{Wait as TheWait};
ghost use Rattle.sap_derive.specs.declared.clause.Clause.{Clause as TheClause};

use crate::clause::Clause;
use crate::grounds::{Grounds, Wait};
use crate::listing::Listing;
use sap_terms::{Items, Mem};
use std::alloc::Global;

// Clauses; the numbers that are known, in the order in which they became so, and how; and for each number the clauses that wait
// at it. A clause is looked at when it comes, and again when the number where it waits becomes known.
#[derive(Drop)]
pub(crate) struct Closure {
    pub(crate) clauses: Items<Clause>,
    pub(crate) known: Listing,
    pub(crate) ways: Vec<Grounds>,
    waiting: Vec<Vec<Wait>>,
    // how many clauses have been looked at for the first time
    placed: u64,
    // at how many of the known numbers no clause waits any longer
    done: u64,
    // how many of the clauses that wait at the next known number have been looked at there
    looked: u64,
}

// The place of the first of these numbers, from a place on, that isn't in the list.
fn first_unlisted(known: &Listing, numbers: &[u64], from: u64) -> Option<u64>
    requires { AreListedBefore known.now numbers.now from }
    ensures some { IfSome result (IsFirstUnlisted known.now numbers.now) }
    ensures none { IfNone result (AreListed known.now numbers.now) }
{
    for k in from..numbers.len() as u64 {
        if known.place(numbers[k as usize]).is_none() {
            return Some(k);
        }
    }
    None
}

// Makes the lists reach this number.
fn reach(alloc: Global, waiting: &mut Vec<Vec<Wait>>, n: u64) -> Result<(), Mem>
    ensures kept { KeepsWaits waiting.old.items waiting.new.items }
    ensures only { KeepsWaits waiting.new.items waiting.old.items }
    ensures reached { OnOk result (n < vec_len waiting.new) }
{
    while waiting.len() as u64 <= n {
        waiting.push(Vec::new(alloc))?;
    }
    Ok(())
}

// Puts it last among those that wait at the number.
fn park(alloc: Global, waiting: &mut Vec<Vec<Wait>>, n: u64, wait: Wait) -> Result<(), Mem>
    ensures kept { KeepsWaits waiting.old.items waiting.new.items }
    ensures only { (m k : ℕ) (w : TheWait) → IsWaitAt waiting.new.items m k w → IsWaitAt waiting.old.items m k w ⊎ ((m ≡ n) × (w ≡ wait)) }
    ensures parked { OnOk result (IsParked waiting.new.items n wait) }
{
    reach(alloc, waiting, n)?;
    waiting[n as usize].push(wait)?;
    Ok(())
}

// How many wait at the number.
fn count_at(waiting: &[Vec<Wait>], n: u64) -> u64
    ensures within { (k : ℕ) (w : TheWait) → IsWaitAt waiting.now n k w → k < result }
    ensures all { (k : ℕ) → k < result → (w : TheWait) × IsWaitAt waiting.now n k w }
{
    match waiting.get(n as usize) {
        Some(waits) => waits.len() as u64,
        None => 0,
    }
}

// The one at this index.
fn wait_at(waiting: &[Vec<Wait>], n: u64, k: u64) -> Wait
    requires { (w : TheWait) × IsWaitAt waiting.now n k w }
    ensures { IsWaitAt waiting.now n k result }
{
    waiting[n as usize][k as usize]
}

// Puts a way last. There is room.
fn put_way(ways: &mut Vec<Grounds>, way: Grounds)
    requires { vec_len ways.old < vec_capacity ways.old }
    ensures { ways.new.items ≡ ways.old.items ++ way ∷ [] }
{
    match ways.push(way) {
        Ok(_) => {}
        Err(_) => unreachable!(),
    }
}

// Puts a number last among those that are known, with the way in which it became so.
fn learn(known: &mut Listing, ways: &mut Vec<Grounds>, n: u64, way: Grounds) -> Result<(), Mem>
    ensures learns { Learns known.old ways.old.items n way known.new ways.new.items }
    ensures ok { OnOk result (IsListed known.new n) }
{
    ways.reserve(1)?;
    known.push(n)?;
    put_way(ways, way);
    Ok(())
}

impl Closure {
    // No clauses, and nothing known.
    pub(crate) fn new(alloc: Global) -> Closure
        ensures closure { IsClosure result }
        ensures clauses { result.clauses ≡ [] }
        ensures known { result.known ≡ [] }
        ensures ways { result.ways.items ≡ [] }
    {
        Closure {
            clauses: Items::new(alloc),
            known: Listing::new(alloc),
            ways: Vec::new(alloc),
            waiting: Vec::new(alloc),
            placed: 0,
            done: 0,
            looked: 0,
        }
    }

    // Puts a clause last.
    pub(crate) fn add(&mut self, clause: Clause) -> Result<(), Mem>
        requires { IsClosure self.old }
        ensures closure { IsClosure self.new }
        ensures ok { OnOk result (self.new.clauses ≡ self.old.clauses ++ clause ∷ []) }
        ensures err { OnErr result (self.new.clauses ≡ self.old.clauses) }
        ensures known { self.new.known ≡ self.old.known }
        ensures ways { self.new.ways ≡ self.old.ways }
    {
        self.clauses.push(clause)
    }

    // Makes a number known that is given.
    pub(crate) fn give(&mut self, n: u64) -> Result<(), Mem>
        requires { IsClosure self.old }
        ensures closure { IsClosure self.new }
        ensures clauses { self.new.clauses ≡ self.old.clauses }
        ensures known { KeepsKnown self.old.known self.new.known }
        ensures given { (m : ℕ) → IsGiven self.new m → IsGiven self.old m ⊎ (m ≡ n) }
        ensures ok { OnOk result (IsListed self.new.known n) }
    {
        if self.known.place(n).is_some() {
            return Ok(());
        }
        learn(&mut self.known, &mut self.ways, n, Grounds::Given)
    }

    // Makes known what a clause gives, all of whose numbers are known.
    fn use_clause(&mut self, clause: u64) -> Result<(), Mem>
        requires sound { IsSound self.old }
        requires clause { clause < length self.old.clauses }
        requires known { (k : TheClause) → slice_get self.old.clauses clause ≡ Some k → AreListed self.old.known (premises_of k.line) }
        ensures sound { IsSound self.new }
        ensures advances { Advances self.old self.new }
        ensures used { OnOk result (IsUsed self.new.clauses self.new.known clause) }
    {
        let gives = self.clauses.at(clause).gives;
        if self.known.place(gives).is_some() {
            return Ok(());
        }
        learn(&mut self.known, &mut self.ways, gives, Grounds::By(clause))
    }

    // Lets a clause wait at the first of its numbers that isn't known.
    fn wait(&mut self, alloc: Global, clause: u64, place: u64) -> Result<(), Mem>
        requires sound { IsSound self.old }
        requires clause { clause < length self.old.clauses }
        requires first { (k : TheClause) → slice_get self.old.clauses clause ≡ Some k → IsFirstUnlisted self.old.known (premises_of k.line) place }
        ensures sound { IsSound self.new }
        ensures advances { Advances self.old self.new }
        ensures waits { OnOk result (IsWaiting self.new.known self.new.waiting.items clause) }
    {
        let number = self.clauses.at(clause).line.premises()[place as usize];
        park(alloc, &mut self.waiting, number, Wait { clause, place })
    }

    // Looks at a clause from one of its numbers on.
    fn advance(&mut self, alloc: Global, clause: u64, from: u64) -> Result<(), Mem>
        requires sound { IsSound self.old }
        requires clause { clause < length self.old.clauses }
        requires before { (k : TheClause) → slice_get self.old.clauses clause ≡ Some k → AreListedBefore self.old.known (premises_of k.line) from }
        ensures sound { IsSound self.new }
        ensures advances { Advances self.old self.new }
        ensures settled { OnOk result (IsUsed self.new.clauses self.new.known clause ⊎ IsWaiting self.new.known self.new.waiting.items clause) }
    {
        let premises = self.clauses.at(clause).line.premises();
        match first_unlisted(&self.known, premises, from) {
            Some(place) => self.wait(alloc, clause, place),
            None => self.use_clause(clause),
        }
    }

    // Looks at the next new clause for the first time.
    fn place_next(&mut self, alloc: Global) -> Result<(), Mem>
        requires closure { IsClosure self.old }
        requires next { self.old.placed < length self.old.clauses }
        requires count { self.old.placed < u64.MAX }
        ensures closure { IsClosure self.new }
        ensures grows { Grows self.old self.new }
        ensures ok { OnOk result (self.new.placed ≡ self.old.placed + 1) }
    {
        let clause = self.placed;
        self.advance(alloc, clause, 0)?;
        self.placed = clause + 1;
        Ok(())
    }

    // Looks at each new clause for the first time.
    fn place_all(&mut self, alloc: Global) -> Result<(), Mem>
        requires { IsClosure self.old }
        ensures closure { IsClosure self.new }
        ensures grows { Grows self.old self.new }
        ensures ok { OnOk result (self.new.placed ≡ length self.new.clauses) }
    {
        for _ in self.placed..self.clauses.len() {
            self.place_next(alloc)?;
        }
        Ok(())
    }

    // Looks at the next clause that waits at the number, which is the next known one.
    fn look_next(&mut self, alloc: Global, number: u64) -> Result<(), Mem>
        requires closure { IsClosure self.old }
        requires known { slice_get self.old.known self.old.done ≡ Some number }
        requires wait { (w : TheWait) × IsWaitAt self.old.waiting.items number self.old.looked w }
        requires count { self.old.looked < u64.MAX }
        ensures closure { IsClosure self.new }
        ensures grows { Grows self.old self.new }
        ensures placed { self.new.placed ≡ self.old.placed }
        ensures done { self.new.done ≡ self.old.done }
        ensures kept { KeepsWaits self.old.waiting.items self.new.waiting.items }
        ensures only { (k : ℕ) (w : TheWait) → IsWaitAt self.new.waiting.items number k w → IsWaitAt self.old.waiting.items number k w }
        ensures ok { OnOk result (self.new.looked ≡ self.old.looked + 1) }
    {
        let looked = self.looked;
        let wait = wait_at(self.waiting.as_slice(), number, looked);
        self.advance(alloc, wait.clause, wait.place)?;
        self.looked = looked + 1;
        Ok(())
    }

    // Looks at each clause that waits at the number, which is the next known one.
    fn look_at_all(&mut self, alloc: Global, number: u64) -> Result<(), Mem>
        requires closure { IsClosure self.old }
        requires known { slice_get self.old.known self.old.done ≡ Some number }
        ensures closure { IsClosure self.new }
        ensures grows { Grows self.old self.new }
        ensures placed { self.new.placed ≡ self.old.placed }
        ensures done { self.new.done ≡ self.old.done }
        ensures ok { OnOk result ((k : ℕ) (w : TheWait) → IsWaitAt self.new.waiting.items number k w → k < self.new.looked) }
    {
        let count = count_at(self.waiting.as_slice(), number);
        for _ in self.looked..count {
            self.look_next(alloc, number)?;
        }
        Ok(())
    }

    // Looks at each clause that waits at the next known number, and goes on to the one behind it.
    fn pass(&mut self, alloc: Global) -> Result<(), Mem>
        requires closure { IsClosure self.old }
        requires next { self.old.done < length self.old.known }
        requires count { self.old.done < u64.MAX }
        ensures closure { IsClosure self.new }
        ensures grows { Grows self.old self.new }
        ensures placed { self.new.placed ≡ self.old.placed }
        ensures ok { OnOk result (self.new.done ≡ self.old.done + 1) }
    {
        let done = self.done;
        let number = self.known.at(done);
        self.look_at_all(alloc, number)?;
        self.done = done + 1;
        self.looked = 0;
        Ok(())
    }

    // Makes known all that follows. Refused, some of it may have become known.
    pub(crate) fn close(&mut self, alloc: Global) -> Result<(), Mem>
        requires { IsClosure self.old }
        ensures closure { IsClosure self.new }
        ensures grows { Grows self.old self.new }
        ensures closed { OnOk result (IsClosedUnder self.new.clauses self.new.known) }
    {
        self.place_all(alloc)?;
        for _ in self.done..u64::MAX {
            if self.done >= self.known.len() {
                return Ok(());
            }
            self.pass(alloc)?;
        }
        let _count = self.known.len();
        Ok(())
    }
}
