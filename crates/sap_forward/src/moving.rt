// How threads go on at the desk.
ghost use Rattle.std.specs.Prelude.{◌≡◌, ◌+◌, [], ◌∷◌, ◌++◌, Some, OnOk, MatchOption, slice_get};
ghost use Rattle.sap_terms.specs.Path.{IsDigit};
ghost use Rattle.sap_rule_lines.specs.RuleLines.{uses};
ghost use Rattle.sap_forward.specs.code.Steps.{IsAt, HasNone, Goes, goes, joins, starts};
ghost use Rattle.sap_forward.specs.declared.seats.Seat.{Seat as SeatType};

use crate::desk::Desk;
use crate::seats::Seat;
use sap_lines::Place;
use sap_rule_lines::{push_rule_on_one, push_rule_on_two};
use sap_runs::{RStep, RSteps};
use sap_terms::{Mem, Path};
use std::alloc::Global;

impl Desk {
    // The seat of this thread and its place.
    pub(crate) fn at(&self, t: u64) -> Option<(&Seat, &Place)>
        ensures { MatchOption result (HasNone self.now t) (λ r. IsAt self.now t r.0.now r.1.now) }
    {
        let Some(seat) = self.seats.at(t) else {
            return None;
        };
        let Some(place) = self.places.get(seat.place) else {
            return None;
        };
        Some((seat, place))
    }

    // The thread goes on at this place, the child of this digit, and so many facts come before its own.
    pub(crate) fn go(&mut self, t: u64, digit: u8, place: u64, come: u64) -> Result<(), Mem>
        requires { IsDigit digit }
        ensures { OnOk result ((s : SeatType) → slice_get self.old.seats t ≡ Some (Some s) → self.new ≡ goes self.old t s digit place come) }
    {
        let number = self.count.checked_add(come).ok_or(Mem)?;
        let count = number.checked_add(1).ok_or(Mem)?;
        self.seats.go_on(t, place, digit, number)?;
        self.count = count;
        Ok(())
    }

    // One more thread, at this place, with this path.
    pub(crate) fn join(&mut self, path: Path, place: u64) -> Result<(), Mem>
        ensures { OnOk result (self.new ≡ joins self.old path place) }
    {
        let count = self.count.checked_add(1).ok_or(Mem)?;
        self.seats.add(place, path, self.count)?;
        self.count = count;
        Ok(())
    }

    // The replication starts.
    pub(crate) fn start_copying(&mut self, t: u64) -> Result<(), Mem>
        ensures { OnOk result ((s : SeatType) → slice_get self.old.seats t ≡ Some (Some s) → self.new ≡ starts self.old t s) }
    {
        let count = self.count.checked_add(1).ok_or(Mem)?;
        self.seats.start_copying(t, self.count);
        self.count = count;
        Ok(())
    }

    // The thread goes on at the first child of its place, by the rule of this word, and so many facts come before its own.
    pub(crate) fn go_on(
        &mut self,
        alloc: Global,
        t: u64,
        word: &[u8],
        come: u64,
        lines: &mut RSteps,
    ) -> Result<(), Mem>
        ensures { OnOk result (Goes self.old self.new t 1 (λ x. x.first) come lines.old lines.new (λ path k n. uses word.now path (k ∷ []) [] ∷ [])) }
    {
        let Some((seat, place)) = self.at(t) else {
            return Ok(());
        };
        let next = place.first;
        push_rule_on_one(alloc, word, &seat.path, seat.number, lines)?;
        self.go(t, 1, next, come)
    }

    // It goes on at the second.
    pub(crate) fn go_aside(
        &mut self,
        alloc: Global,
        t: u64,
        word: &[u8],
        lines: &mut RSteps,
    ) -> Result<(), Mem>
        ensures { OnOk result (Goes self.old self.new t 2 (λ x. x.second) 0 lines.old lines.new (λ path k n. uses word.now path (k ∷ []) [] ∷ [])) }
    {
        let Some((seat, place)) = self.at(t) else {
            return Ok(());
        };
        let next = place.second;
        push_rule_on_one(alloc, word, &seat.path, seat.number, lines)?;
        self.go(t, 2, next, 0)
    }

    // It goes on at the first, by the rule of this word on the fact of this line too.
    pub(crate) fn go_with(
        &mut self,
        alloc: Global,
        t: u64,
        line: RStep,
        word: &[u8],
        come: u64,
        lines: &mut RSteps,
    ) -> Result<(), Mem>
        ensures { OnOk result (Goes self.old self.new t 1 (λ x. x.first) come lines.old lines.new (λ path k n. line ∷ uses word.now path (k ∷ n ∷ []) [] ∷ [])) }
    {
        lines.push(line)?;
        let Some((seat, place)) = self.at(t) else {
            return Ok(());
        };
        let next = place.first;
        push_rule_on_two(alloc, word, &seat.path, seat.number, self.count, lines)?;
        self.go(t, 1, next, come)
    }
}
