//! Why definitions with parameters can't be expanded.
use sap_process::Flaw;
use sap_terms::{Mem, Name, Path};

/// Why a process can't be expanded behind definitions. Of the causes that hold, the one that stands first here counts; want of memory,
/// which merges with none of them, can come before any.
#[derive(Drop)]
pub enum MacroFault {
    /// Want of memory.
    Mem,
    /// The first parameter that its definition has twice, of the first such definition.
    Parameters { name: Name },
    /// The definition of the first use, in the bodies in order and then in the process, with another number of arguments than it has
    /// parameters.
    Arguments { name: Name },
    /// The expansion has more than `MOST_PROCESS_PLACES` places.
    TooMany,
    /// It has more than `MOST_PROCESS_LEVELS` levels.
    TooDeep,
    /// The definition of the first use, in preorder of the expansion, with an argument of more than `MOST_TERM_NODES` nodes.
    Large { name: Name },
    /// The first definition with parameters that the process leads to and whose body has one of the flaws `Unbound`, `Rebound` and
    /// `SortClash`, where its parameters are in scope: the one of these that counts, and the path of its first place.
    Flawed { name: Name, which: Flaw, path: Path },
}

impl From<Mem> for MacroFault {
    ghost use Rattle.std.specs.Prelude.{◌≡◌};
    ghost use Rattle.sap_uses.specs.declared.fault.MacroFault.TheVariants.{Mem as OutOfMemory};

    ghost from_gives = { λ _ e. e ≡ OutOfMemory };

    fn from(_e: Mem) -> MacroFault {
        MacroFault::Mem
    }
}
