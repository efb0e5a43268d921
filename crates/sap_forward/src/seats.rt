// Where the threads of a process stand in it.
ghost use Rattle.std.specs.Prelude.{◌≡◌, [], ◌∷◌, ◌++◌, IfOk, OnOk, OnErr, Some, None, true, false, slice_get, slice_set};
ghost use Rattle.std.specs.Option.{option_copied};
ghost use Rattle.sap_terms.specs.Path.{IsDigit};
ghost use Rattle.sap_forward.specs.code.Seats.{seat_at};
ghost use Rattle.sap_forward.specs.declared.seats.Seat.{Seat as SeatType};

use sap_terms::{Mem, Path};
use std::alloc::Global;
use std::marker::Model;

/// Where a thread stands: the number of a place of the process at the start, the path there, the number of the fact that stands
/// for the thread, and whether it is a replication that has started.
#[derive(Drop)]
pub struct Seat {
    pub place: u64,
    pub path: Path,
    pub number: u64,
    pub copying: bool,
}

/// The seats of the threads by their numbers, which contracts see as their list; none where a thread has ended.
#[derive(Drop)]
pub struct Seats {
    items: Vec<Option<Seat>>,
}

impl Model for Seats {
    ghost use Rattle.std.specs.Prelude.{List, Option};
    ghost use Rattle.sap_forward.specs.declared.seats.Seat.{Seat};

    ghost Value = { List (Option Seat) };

    ghost view = { λ a. a.items.items };
}

impl Seats {
    // That of the first thread alone, at this place, under the number of the first fact.
    pub(crate) fn first(alloc: Global, place: u64) -> Result<Seats, Mem>
        ensures { IfOk result (λ seats. seats ≡ Some (record { place = place; path = []; number = 0; copying = false }) ∷ []) }
    {
        let mut items = Vec::new(alloc);
        items.push(Some(Seat {
            place,
            path: Path::new(alloc),
            number: 0,
            copying: false,
        }))?;
        Ok(Seats { items })
    }

    // The seat of this thread, where it has one.
    pub(crate) fn at(&self, t: u64) -> Option<&Seat>
        ensures { option_copied result ≡ seat_at self.now t }
    {
        match self.items.get(t as usize) {
            Some(Some(seat)) => Some(seat),
            Some(None) => None,
            None => None,
        }
    }

    // The thread ends.
    pub(crate) fn leave(&mut self, t: u64)
        ensures { self.new ≡ slice_set self.old t None }
    {
        if (t as usize) < self.items.len() {
            self.items[t as usize] = None;
        }
    }

    // The thread goes on at this place, which is the child of this digit, under this number.
    pub(crate) fn go_on(&mut self, t: u64, place: u64, digit: u8, number: u64) -> Result<(), Mem>
        requires { IsDigit digit }
        ensures { OnOk result ((s : SeatType) → slice_get self.old t ≡ Some (Some s)
            → self.new ≡ slice_set self.old t (Some (record { place = place; path = s.path ++ digit ∷ []; number = number; copying = false }))) }
    {
        if (t as usize) < self.items.len() {
            let was = self.items[t as usize].take();
            if let Some(seat) = was {
                let mut path = seat.path;
                path.push(digit)?;
                self.items[t as usize] = Some(Seat {
                    place,
                    path,
                    number,
                    copying: false,
                });
            }
        }
        Ok(())
    }

    // The replication starts, under this number.
    pub(crate) fn start_copying(&mut self, t: u64, number: u64)
        ensures { (s : SeatType) → slice_get self.old t ≡ Some (Some s)
            → self.new ≡ slice_set self.old t (Some (record s { number = number; copying = true })) }
    {
        if (t as usize) < self.items.len() {
            let was = self.items[t as usize].take();
            if let Some(seat) = was {
                self.items[t as usize] = Some(Seat {
                    place: seat.place,
                    path: seat.path,
                    number,
                    copying: true,
                });
            }
        }
    }

    // One more thread, at this place, with this path, under this number.
    pub(crate) fn add(&mut self, place: u64, path: Path, number: u64) -> Result<(), Mem>
        ensures { OnOk result (self.new ≡ self.old ++ Some (record { place = place; path = path; number = number; copying = false }) ∷ []) }
    {
        self.items.push(Some(Seat {
            place,
            path,
            number,
            copying: false,
        }))?;
        Ok(())
    }
}
