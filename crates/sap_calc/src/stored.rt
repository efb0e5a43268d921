// What the store has, and which terms are held, by numbers.
ghost use Rattle.std.specs.Prelude.{◌≡◌, OnOk, OnErr, None, false, unwrap_or, nat_eq};
ghost use Rattle.std.specs.Map.{lookup};
ghost use Rattle.indexmap.specs.IndexMap.{insert_entry};

use indexmap::IndexMap;
use sap_terms::Mem;

// Puts the value at the key, or nothing.
pub(crate) fn put_value(
    store: &mut IndexMap<u64, Option<u64>>,
    key: u64,
    value: Option<u64>,
) -> Result<(), Mem>
    ensures ok { OnOk result (store.new.entries ≡ insert_entry nat_eq store.old.entries key value) }
    ensures err { OnErr result (store.new.entries ≡ store.old.entries) }
{
    store.insert(key, value)?;
    Ok(())
}

// Marks the term as held, or not.
pub(crate) fn put_mark(held: &mut IndexMap<u64, bool>, term: u64, mark: bool) -> Result<(), Mem>
    ensures ok { OnOk result (held.new.entries ≡ insert_entry nat_eq held.old.entries term mark) }
    ensures err { OnErr result (held.new.entries ≡ held.old.entries) }
{
    held.insert(term, mark)?;
    Ok(())
}

// The value at the key, where there is one.
pub(crate) fn value_at(store: &IndexMap<u64, Option<u64>>, key: u64) -> Option<u64>
    ensures { result ≡ unwrap_or (lookup (nat_eq key) store.now.entries) None }
{
    match store.get(&key) {
        Some(value) => *value,
        None => None,
    }
}

// Whether the term is held.
pub(crate) fn is_marked(held: &IndexMap<u64, bool>, term: u64) -> bool
    ensures { result ≡ unwrap_or (lookup (nat_eq term) held.now.entries) false }
{
    match held.get(&term) {
        Some(mark) => *mark,
        None => false,
    }
}
