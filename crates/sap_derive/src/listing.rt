// Numbers in a list, in which each is found at once.
ghost use Rattle.std.specs.Prelude.{◌≡◌, ◌<◌, ◌≤◌, ◌⊎◌, ◌↔◌, ℕ, [], ◌∷◌, ◌++◌, length, slice_get, take, Some, IfOk, IfSome, IfNone, OnOk, OnErr};
ghost use Rattle.std.specs.Vec.{vec_len};
ghost use Rattle.sap_derive.specs.code.Listed.{IsListed, StandOnce, TellPlaces, Ascend};

use sap_terms::Mem;
use std::alloc::Global;
use std::marker::Model;

// The numbers in their order. Each that was ever among them has a place; it stands in the list where the list has it there.
#[derive(Drop)]
pub(crate) struct Listing {
    items: Vec<u64>,
    places: Vec<u64>,
}

impl Model for Listing {
    ghost use Rattle.std.specs.Prelude.{ℕ, List};
    ghost use Rattle.sap_derive.specs.code.Listed.{TellPlaces};

    ghost Value = { List ℕ };

    ghost view = { λ a. a.items.items };

    ghost invariant = { λ a. TellPlaces a.places.items a.items.items };
}

// Makes the places reach this number.
fn reach(places: &mut Vec<u64>, items: &[u64], n: u64) -> Result<(), Mem>
    requires { TellPlaces places.old.items items.now }
    ensures tell { TellPlaces places.new.items items.now }
    ensures reached { OnOk result (n < vec_len places.new) }
{
    while places.len() as u64 <= n {
        places.push(0)?;
    }
    Ok(())
}

// The place of a number that stands in the list.
fn place_in(places: &[u64], items: &[u64], n: u64) -> Option<u64>
    requires { TellPlaces places.now items.now }
    ensures some { IfSome result (λ k. slice_get items.now k ≡ Some n) }
    ensures none { IfNone result (¬ IsListed items.now n) }
{
    let place = match places.get(n as usize) {
        Some(place) => *place,
        None => return None,
    };
    match items.get(place as usize) {
        Some(m) if *m == n => Some(place),
        _ => None,
    }
}

impl Listing {
    // No numbers.
    pub(crate) fn new(alloc: Global) -> Listing
        ensures { result ≡ [] }
    {
        Listing {
            items: Vec::new(alloc),
            places: Vec::new(alloc),
        }
    }

    // How many there are.
    pub(crate) fn len(&self) -> u64
        ensures { result ≡ length self.now }
    {
        self.items.len() as u64
    }

    // The number at a place that there is.
    pub(crate) fn at(&self, k: u64) -> u64
        requires { k < length self.now }
        ensures { slice_get self.now k ≡ Some result }
    {
        self.items[k as usize]
    }

    // A place of the number, if it stands in the list.
    pub(crate) fn place(&self, n: u64) -> Option<u64>
        ensures some { IfSome result (λ k. slice_get self.now k ≡ Some n) }
        ensures none { IfNone result (¬ IsListed self.now n) }
    {
        place_in(self.places.as_slice(), self.items.as_slice(), n)
    }

    // Puts a number last.
    pub(crate) fn push(&mut self, n: u64) -> Result<(), Mem>
        ensures ok { OnOk result (self.new ≡ self.old ++ n ∷ []) }
        ensures err { OnErr result (self.new ≡ self.old) }
    {
        let place = self.items.len() as u64;
        let stands = self.place(n).is_some();
        reach(&mut self.places, self.items.as_slice(), n)?;
        self.items.push(n)?;
        if !stands {
            self.places[n as usize] = place;
        }
        Ok(())
    }

    // Leaves the first numbers, so many.
    pub(crate) fn cut(&mut self, count: u64)
        ensures { self.new ≡ take count self.old }
    {
        self.items.truncate(count as usize);
    }

    // The numbers, from the least to the greatest.
    pub(crate) fn sorted(&self) -> Result<Vec<u64>, Mem>
        ensures same { IfOk result (λ v. (n : ℕ) → IsListed v.items n ↔ IsListed self.now n) }
        ensures order { IfOk result (λ v. Ascend v.items) }
    {
        let mut sorted = self.items.clone()?;
        sorted.sort()?;
        Ok(sorted)
    }
}

// Puts a number last that isn't in the list.
pub(crate) fn list(items: &mut Listing, n: u64) -> Result<(), Mem>
    ensures kept { (m : ℕ) → IsListed items.old m → IsListed items.new m }
    ensures only { (m : ℕ) → IsListed items.new m → IsListed items.old m ⊎ (m ≡ n) }
    ensures places { (k m : ℕ) → slice_get items.old k ≡ Some m → slice_get items.new k ≡ Some m }
    ensures once { StandOnce items.old → StandOnce items.new }
    ensures ok { OnOk result (IsListed items.new n) }
{
    if items.place(n).is_some() {
        return Ok(());
    }
    items.push(n)
}
