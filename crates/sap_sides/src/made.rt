// Names that a run has made.
ghost use Rattle.std.specs.Prelude.{◌≡◌, ◌<◌, [], ◌∷◌, ◌++◌, OnOk, IsTrue, ◌↔◌, Contains};
ghost use Rattle.indexmap.specs.IndexSet.{spare};

use indexmap::IndexSet;
use sap_terms::Mem;

/// Whether the name is among these.
pub fn is_among(names: &IndexSet<u64>, n: u64) -> bool
    ensures { IsTrue result ↔ Contains names.now.keys n }
{
    names.contains(&n)
}

/// Finds memory for one name more.
pub fn find_room(names: &mut IndexSet<u64>) -> Result<(), Mem>
    ensures keys { names.new.keys ≡ names.old.keys }
    ensures ok { OnOk result (0 < spare names.new) }
{
    names.reserve(1)?;
    Ok(())
}

/// Puts a name that isn't among these last, where memory was found for it.
pub fn put_last(names: &mut IndexSet<u64>, n: u64)
    requires new { ¬ Contains names.old.keys n }
    requires room { 0 < spare names.old }
    ensures { names.new.keys ≡ names.old.keys ++ n ∷ [] }
{
    match names.insert(n) {
        Ok(_) => {}
        Err(_) => unreachable!(),
    }
}
