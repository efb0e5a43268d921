//! Which names are those of silent rules.
ghost use Rattle.std.specs.Prelude.{◌≡◌};
ghost use Rattle.sap_silent.specs.SilentNames.{is_silent_name};

use sap_terms::Name;

/// Whether the name is that of a silent rule: of one of a place `0` or `|`, of an output that the adversary is given, or the one that
/// starts a replication. The first word of a rule's name tells, whatever its place.
pub fn is_silent(name: &Name) -> bool
    ensures { result ≡ is_silent_name name.now }
{
    let name = name.as_bytes();
    name.starts_with(b"Nil_")
        || name.starts_with(b"Par_")
        || name.starts_with(b"Out_")
        || name.starts_with(b"RepStart_")
}
