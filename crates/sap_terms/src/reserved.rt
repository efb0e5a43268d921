//! Names that facts of a process may not have.
ghost use Rattle.std.specs.Prelude.{◌≡◌};
ghost use Rattle.std.specs.List.{list_any};
ghost use Rattle.std.specs.Str.{bytes_eq};
ghost use Rattle.sap_terms.specs.Reserved.{is_reserved};

use crate::Name;

// Whether the name is one of the words.
fn is_one(name: &Name, words: &[&[u8]]) -> bool
    ensures { result ≡ list_any (λ word. bytes_eq name.now word.now) words.now }
{
    for word in words {
        if name.is(word) {
            return true;
        }
    }
    false
}

/// Whether rules and runs use facts of this name themselves, so that no process may.
pub fn is_reserved(name: &Name) -> bool
    ensures { result ≡ is_reserved name.now }
{
    is_one(
        name,
        &[
            b"Init",
            b"Event",
            b"Eq",
            b"NotEq",
            b"Insert",
            b"Delete",
            b"IsIn",
            b"IsNotSet",
            b"Lock",
            b"Unlock",
            b"InEvent",
            b"Msg",
            b"Ack",
            b"Fr",
            b"In",
            b"Out",
            b"K",
            b"KU",
            b"KD",
        ],
    ) || name.as_bytes().starts_with(b"State_")
        || name.as_bytes().starts_with(b"Semi_")
}
