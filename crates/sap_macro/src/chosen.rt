//! New names, as they are chosen.
ghost use Rattle.std.specs.Prelude.{◌≡◌, ◌∷◌, ◌<◌, ℕ, List, Some, IfOk, OnOk};
ghost use Rattle.std.specs.Option.{unwrap_or};
ghost use Rattle.std.specs.List.{list_any};
ghost use Rattle.std.specs.Str.{bytes_eq};
ghost use Rattle.sap_terms.specs.NameMap.{Puts, value_at};
ghost use Rattle.sap_terms.specs.Variables.{is_known};
ghost use Rattle.sap_macro.specs.NewNames.{candidate, new_name, renamed, taken_after};
ghost use Rattle.sap_macro.specs.code.Taking.{AreBelow, IsFirst};

use sap_terms::{Copied, Mem, Name, NameList, NameMap, NameSet};
use sap_text::Text;
use std::alloc::Global;
use std::marker::Model;

/// The names that are taken, which contracts see as the list of them, the one that was chosen last first and those of the file
/// last. For each name it keeps at which number the search for the next new one begins.
#[derive(Drop)]
pub(crate) struct Chosen {
    identifiers: NameList,
    known: NameSet,
    chosen: NameSet,
    begins: NameMap<u64>,
}

impl Model for Chosen {
    ghost use Rattle.std.specs.Prelude.{ℕ, List};
    ghost use Rattle.sap_macro.specs.code.Taking.{latest_first, IsKept};

    ghost Value = { List (List ℕ) };

    ghost view = { λ a. latest_first a.chosen a.identifiers };

    ghost invariant = { λ a. IsKept a.identifiers a.known a.chosen a.begins };
}

// The names as a set.
fn set_of(alloc: Global, names: &NameList) -> Result<NameSet, Mem>
    ensures { IfOk result (λ s. (x : List ℕ) → list_any (bytes_eq x) s ≡ is_known names.now x) }
{
    let mut set = NameSet::new(alloc);
    for k in 0..names.len() {
        set.insert(names.at(k))?;
    }
    Ok(set)
}

// A candidate for the name.
fn candidate(alloc: Global, x: &Name, number: u64) -> Result<Name, Mem>
    ensures { IfOk result (λ y. y ≡ candidate x.now number) }
{
    let mut text = Text::new(alloc);
    text.push_bytes(x.as_bytes())?;
    if !x.is(b"sapic") {
        text.push_bytes(b"_")?;
    }
    text.push_number(number)?;
    Name::from_bytes(alloc, text.as_bytes())
}

impl Chosen {
    /// Nothing is chosen yet: the names of the file are taken.
    pub(crate) fn new(alloc: Global, identifiers: &NameList) -> Result<Chosen, Mem>
        ensures { IfOk result (λ a. a ≡ identifiers.now) }
    {
        let known = set_of(alloc, identifiers)?;
        let identifiers = identifiers.copy(alloc)?;
        Ok(Chosen {
            identifiers,
            known,
            chosen: NameSet::new(alloc),
            begins: NameMap::new(alloc),
        })
    }

    // Whether the name is taken.
    fn is_taken(&self, name: &Name) -> bool
        ensures { result ≡ is_known self.now name.now }
    {
        self.known.contains(name) || self.chosen.contains(name)
    }

    // The number at which the search for a new name for this one begins.
    fn number_for(&self, x: &Name) -> u64
        ensures positive { 0 < result }
        ensures below { AreBelow self.now x.now result }
    {
        match self.begins.get(x) {
            Some(number) => *number,
            None => 1,
        }
    }

    // The first candidate that isn't taken, and its number.
    fn first_free(&self, alloc: Global, x: &Name) -> Result<(Name, u64), Mem>
        ensures { IfOk result (λ r. IsFirst self.now x.now r.0 r.1) }
    {
        for number in self.number_for(x)..u64::MAX {
            let name = candidate(alloc, x, number)?;
            if !self.is_taken(&name) {
                return Ok((name, number));
            }
        }
        Err(Mem)
    }

    // Keeps that this name is taken, which is the first candidate for the other one.
    fn keep(&mut self, alloc: Global, x: &Name, name: &Name, number: u64) -> Result<(), Mem>
        requires { IsFirst self.old x.now name.now number }
        ensures { OnOk result (self.new ≡ name.now ∷ self.old) }
    {
        self.begins.insert(x.copy(alloc)?, number)?;
        self.chosen.insert(name)?;
        Ok(())
    }

    /// A new name for this one, which is taken then. The search goes on where the last one for it ended, so all searches for one
    /// name take time in proportion to the new names and the names of the file.
    pub(crate) fn choose(&mut self, alloc: Global, x: &Name) -> Result<Name, Mem>
        ensures name { IfOk result (λ n. n ≡ new_name self.old x.now) }
        ensures taken { OnOk result (self.new ≡ new_name self.old x.now ∷ self.old) }
    {
        let (name, number) = self.first_free(alloc, x)?;
        self.keep(alloc, x, &name, number)?;
        Ok(name)
    }
}

// Chooses a new name for this one, and keeps it.
fn choose_into(
    alloc: Global,
    chosen: &mut Chosen,
    names: &mut NameMap<Name>,
    x: &Name,
) -> Result<(), Mem>
    ensures names { OnOk result (Puts names.old names.new x.now (Some (new_name chosen.old x.now))) }
    ensures taken { OnOk result (chosen.new ≡ new_name chosen.old x.now ∷ chosen.old) }
{
    let name = chosen.choose(alloc, x)?;
    names.insert(x.copy(alloc)?, name)
}

/// A new name for each of these, in their order.
pub(crate) fn new_names(
    alloc: Global,
    chosen: &mut Chosen,
    own: &NameSet,
) -> Result<NameMap<Name>, Mem>
    ensures names { IfOk result (λ m. (x : List ℕ) → unwrap_or (value_at m x) x ≡ renamed chosen.old own.now x) }
    ensures taken { OnOk result (chosen.new ≡ taken_after chosen.old own.now) }
{
    let mut names = NameMap::new(alloc);
    for x in own.as_slice() {
        choose_into(alloc, chosen, &mut names, x)?;
    }
    Ok(names)
}
