//! Lines of an adversary.
ghost use Rattle.std.specs.Prelude.{◌≡◌};
ghost use Rattle.sap_derive.specs.code.Lines.{premises_of};

use sap_terms::{Items, Name, Numbers};

/// A line by which an adversary comes to know a term.
#[derive(Drop)]
pub enum Line {
    /// A public name is written down.
    Public(Name),
    /// A symbol is applied to the terms of these entries, and what it gives is made normal.
    Apply(Name, Numbers),
}

/// Lines, in the order in which they come.
pub type LineList = Items<Line>;

impl Line {
    // The numbers of the terms that it stands on.
    pub(crate) fn premises(&self) -> &[u64]
        ensures { result.now ≡ premises_of self.now }
    {
        match self {
            Line::Public(_) => &[],
            Line::Apply(_, ks) => ks.as_slice(),
        }
    }
}
