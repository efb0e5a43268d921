// Entries as lines, with the symbols and the numbers that stand in their origins side by side.
ghost use Rattle.std.specs.Prelude.{◌≡◌, ◌<◌, [], ◌∷◌, ◌++◌, length, IfOk, OnOk, OnErr, IfSome, option_map, slice_get, slice_index_or, map, Some};
ghost use Rattle.std.specs.Option.{option_copied};
ghost use Rattle.sap_terms.specs.View.{tree};
ghost use Rattle.sap_deduce.specs.code.Lines.{Line, IsMore, ArePlaces, origin_given};
ghost use Rattle.sap_deduce.specs.declared.origin.Origin.TheVariants.{Apply as ApplyOrigin};

use crate::entry::Entry;
use crate::stored::{Given, StoredOrigin};
use sap_terms::{Copied, Items, Mem, Name, NameList, NameMap, Numbers, Term};
use std::alloc::Global;
use std::marker::Model;

// The entries, the symbols of those that came by one, with their places in the names' order, and the numbers that they stand on.
#[derive(Drop)]
pub(crate) struct Lines {
    entries: Items<Entry>,
    symbols: NameList,
    places: NameMap<u64>,
    used: Numbers,
}

impl Model for Lines {
    ghost use Rattle.std.specs.Prelude.{List, length};
    ghost use Rattle.std.specs.Coded.{codes};
    ghost use Rattle.sap_terms.specs.Codes.{tree_code};
    ghost use Rattle.sap_deduce.specs.code.Lines.{Line, lines_of, AreStored};

    ghost Value = { List Line };

    ghost coded = { Prim.hlevel (codes, tree_code) };

    ghost view = { λ a. lines_of a.symbols a.used a.entries };

    ghost invariant = { λ a. AreStored a.symbols a.places (length a.used) a.entries };
}

// The place of a name among these, where it comes last if it isn't there.
#[tactic(auto, using(crate::proofs::Lined::place_laws))]
fn place_in(
    alloc: Global,
    names: &mut NameList,
    places: &mut NameMap<u64>,
    f: &Name,
) -> Result<u64, Mem>
    requires { ArePlaces names.old places.old }
    ensures below { IfOk result (λ s. s < length names.new) }
    ensures name { IfOk result (λ s. slice_index_or names.new s [] ≡ f.now) }
    ensures more { IsMore names.old names.new }
    ensures places { ArePlaces names.new places.new }
{
    if let Some(place) = places.get(f) {
        return Ok(*place);
    }
    let place = names.len();
    names.push(f.copy(alloc)?)?;
    places.insert(f.copy(alloc)?, place)?;
    Ok(place)
}

// Puts numbers behind these, and gives the place of the first.
fn append(used: &mut Numbers, numbers: &Numbers) -> Result<u64, Mem>
    ensures from { IfOk result (λ k. k ≡ length used.old) }
    ensures ok { OnOk result (used.new ≡ used.old ++ numbers.now) }
    ensures more { IsMore used.old used.new }
{
    let from = used.len();
    for k in numbers.as_slice() {
        used.push(*k)?;
    }
    Ok(from)
}

impl Lines {
    // No lines.
    pub(crate) fn new(alloc: Global) -> Lines
        ensures { result ≡ [] }
    {
        Lines {
            entries: Items::new(alloc),
            symbols: NameList::new(alloc),
            places: NameMap::new(alloc),
            used: Numbers::new(alloc),
        }
    }

    // How many there are.
    #[tactic(auto, using(crate::proofs::Lined::line_laws))]
    pub(crate) fn len(&self) -> u64
        ensures { result ≡ length self.now }
    {
        self.entries.len()
    }

    // Where their memory comes from.
    pub(crate) fn allocator(&self) -> Global {
        self.entries.allocator()
    }

    // The term of the line at a place.
    #[tactic(auto, using(crate::proofs::Lined::line_laws))]
    pub(crate) fn term(&self, k: u64) -> Option<&Term>
        ensures { option_map tree (option_copied result) ≡ slice_get (map (λ (l : Line). l.term) self.now) k }
    {
        match self.entries.get(k) {
            Some(e) => Some(&e.term),
            None => None,
        }
    }

    // The number of the line at a place that there is.
    #[tactic(auto, using(crate::proofs::Lined::line_laws))]
    pub(crate) fn number(&self, k: u64) -> u64
        requires { k < length self.now }
        ensures { slice_get (map (λ (l : Line). l.number) self.now) k ≡ Some result }
    {
        self.entries.at(k).number
    }

    // Puts a line last whose term came without others.
    pub(crate) fn push(&mut self, number: u64, term: Term, given: Given) -> Result<(), Mem>
        ensures ok { OnOk result (self.new ≡ self.old ++ record { number = number; term = tree term; origin = origin_given given } ∷ []) }
        ensures err { OnErr result (self.new ≡ self.old) }
    {
        self.entries.push(Entry {
            number,
            term,
            way: StoredOrigin::Given(given),
        })?;
        Ok(())
    }

    // Puts a line last whose term came by a symbol on entries.
    pub(crate) fn push_applied(
        &mut self,
        number: u64,
        term: Term,
        f: &Name,
        numbers: &Numbers,
    ) -> Result<(), Mem>
        ensures ok { OnOk result (self.new ≡ self.old ++ record { number = number; term = tree term; origin = ApplyOrigin f.now numbers.now } ∷ []) }
        ensures err { OnErr result (self.new ≡ self.old) }
    {
        let alloc = self.entries.allocator();
        let symbol = match place_in(alloc, &mut self.symbols, &mut self.places, f) {
            Ok(symbol) => symbol,
            Err(e) => {
                drop(term);
                return Err(e);
            }
        };
        let from = match append(&mut self.used, numbers) {
            Ok(from) => from,
            Err(e) => {
                drop(term);
                return Err(e);
            }
        };
        let count = numbers.len();
        self.entries.push(Entry {
            number,
            term,
            way: StoredOrigin::Applied {
                symbol,
                from,
                count,
            },
        })?;
        Ok(())
    }
}
