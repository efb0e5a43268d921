//! Which builtins a signature has.
ghost use Rattle.std.specs.Prelude.{◌≡◌};
ghost use Rattle.sap_terms.specs.Signature.{holds, with_builtin, no_builtins};

use crate::Builtin;

/// Which builtins were added. Beside the equations of pairs exactly theirs hold.
#[derive(Clone, Copy)]
pub struct Builtins {
    pub hashing: bool,
    pub symmetric: bool,
    pub asymmetric: bool,
    pub signing: bool,
    pub revealing: bool,
}

impl Builtins {
    // None of them.
    pub(crate) fn none() -> Builtins
        ensures { result ≡ no_builtins }
    {
        Builtins {
            hashing: false,
            symmetric: false,
            asymmetric: false,
            signing: false,
            revealing: false,
        }
    }

    /// Whether the builtin was added.
    pub fn has(self, b: Builtin) -> bool
        ensures { result ≡ holds self b }
    {
        match b {
            Builtin::Hashing => self.hashing,
            Builtin::Symmetric => self.symmetric,
            Builtin::Asymmetric => self.asymmetric,
            Builtin::Signing => self.signing,
            Builtin::RevealingSigning => self.revealing,
        }
    }

    // These and this one.
    pub(crate) fn including(self, b: Builtin) -> Builtins
        ensures { result ≡ with_builtin self b }
    {
        match b {
            Builtin::Hashing => Builtins {
                hashing: true,
                ..self
            },
            Builtin::Symmetric => Builtins {
                symmetric: true,
                ..self
            },
            Builtin::Asymmetric => Builtins {
                asymmetric: true,
                ..self
            },
            Builtin::Signing => Builtins {
                signing: true,
                ..self
            },
            Builtin::RevealingSigning => Builtins {
                revealing: true,
                ..self
            },
        }
    }
}
