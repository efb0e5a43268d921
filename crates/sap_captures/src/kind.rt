//! The two kinds of names that patterns take.
ghost use Rattle.std.specs.Prelude.{◌↔◌, IsTrue};
ghost use Rattle.sap_macro.specs.Sources.{located};
ghost use Rattle.sap_captures.specs.Captures.{IsFrom};

use sap_macro::Source;

/// What is told of a pattern of the process as it is read.
#[derive(Clone, Copy)]
pub enum Kind {
    /// A name in an argument of a use that a pattern behind it binds.
    Captured,
    /// A whole pattern that is one variable in scope: it is compared.
    Compared,
}

/// Whether a node that stems from this place is told.
pub(crate) fn is_from(kind: Kind, source: &Source) -> bool
    ensures { IsTrue result ↔ IsFrom kind (located source.now) }
{
    match kind {
        Kind::Captured => matches!(source, Source::Call(_, _, _)),
        Kind::Compared => true,
    }
}
