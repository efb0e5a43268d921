//! Why a file is refused.
ghost use Rattle.std.specs.Prelude.{◌≡◌};
ghost use Rattle.sap_read.specs.Causes.{fault_of, fault_of_lock, fault_of_statements, fault_of_uses};
ghost use Rattle.sap_read.specs.declared.fault.ReadFault.TheVariants.{Mem as OutOfMemory};

use sap_formula::FormulaFault;
use sap_locks::LockFault;
use sap_process::{Flaw, Ill};
use sap_statements::Unchecked;
use sap_terms::{Mem, Name, Path};
use sap_text::Lex;
use sap_uses::MacroFault;

/// Why a file is refused. Of the causes that hold, the one that stands first here is answered; want of memory, which
/// merges with none of them, can come before any.
#[derive(Drop)]
pub enum ReadFault {
    /// Want of memory.
    Mem,
    /// The bytes are no tokens, or one has a name of more than `MOST_FILE_NAME_BYTES` bytes.
    Lex(Lex),
    /// The file doesn't begin with `theory`, a name and `begin`.
    Header,
    /// The first item that isn't in its grammar begins on this line, counted from 1; where only `end` is missing, the
    /// line of the last token.
    Syntax { line: u64 },
    /// No item is the file's process.
    NoProcess,
    /// The second `process` item begins on this line.
    TwoProcesses { line: u64 },
    /// The first name of a process that no `let` item before the name's own item defines.
    UnknownProcess { name: Name },
    /// A name that stands at two `let` items: the one whose first item comes first. Where there is none, a name that stands
    /// at two restrictions or lemmas, or at one and is that of a generated restriction: the one that comes first.
    DuplicateName { name: Name },
    /// The first function that is declared otherwise than before it, by its name.
    FunctionClash { name: Name },
    /// The first parameter that its definition has twice, of the first such definition.
    Parameters { name: Name },
    /// The definition of the first use, in the bodies in order and then in the file's process, with another number of
    /// arguments than it has parameters.
    Arguments { name: Name },
    /// The process, expanded, has more than `MOST_PROCESS_PLACES` nodes.
    TooMany,
    /// It has more than `MOST_PROCESS_LEVELS` levels.
    TooDeep,
    /// The definition of the first use, in preorder of the expansion, with an argument of more than `MOST_TERM_NODES` nodes.
    Large { name: Name },
    /// The first definition with parameters that the process leads to and whose body has one of the flaws `Unbound`, `Rebound`
    /// and `SortClash`, where its parameters are in scope: the one of these that counts, and the path of its first place.
    Flawed { name: Name, which: Flaw, path: Path },
    /// The process, expanded, isn't well-formed: the flaw that counts, and the path of its first place.
    Ill { which: Flaw, path: Path },
    /// That process, with its sorts, can't be annotated: its first place that can't be, and why.
    Lock(LockFault),
    /// The first restriction or lemma, by its name, whose formula has a fault, reserved names of facts among them, and the
    /// fault that counts; never want of memory.
    Formula { name: Name, fault: FormulaFault },
}

impl From<Mem> for ReadFault {
    ghost from_gives = { λ _ e. e ≡ OutOfMemory };

    fn from(_e: Mem) -> ReadFault {
        ReadFault::Mem
    }
}

impl From<MacroFault> for ReadFault {
    ghost from_gives = { λ f e. e ≡ fault_of_uses f };

    fn from(f: MacroFault) -> ReadFault {
        match f {
            MacroFault::Mem => ReadFault::Mem,
            MacroFault::Parameters { name } => ReadFault::Parameters { name },
            MacroFault::Arguments { name } => ReadFault::Arguments { name },
            MacroFault::TooMany => ReadFault::TooMany,
            MacroFault::TooDeep => ReadFault::TooDeep,
            MacroFault::Large { name } => ReadFault::Large { name },
            MacroFault::Flawed { name, which, path } => ReadFault::Flawed { name, which, path },
        }
    }
}

impl From<Ill> for ReadFault {
    ghost from_gives = { λ i e. e ≡ fault_of i };

    fn from(i: Ill) -> ReadFault {
        match i {
            Ill::Mem => ReadFault::Mem,
            Ill::At { which, path } => ReadFault::Ill { which, path },
        }
    }
}

impl From<LockFault> for ReadFault {
    ghost from_gives = { λ f e. e ≡ fault_of_lock f };

    fn from(f: LockFault) -> ReadFault {
        match f {
            LockFault::Mem => ReadFault::Mem,
            fault => ReadFault::Lock(fault),
        }
    }
}

impl From<Unchecked> for ReadFault {
    ghost from_gives = { λ u e. e ≡ fault_of_statements u };

    fn from(u: Unchecked) -> ReadFault {
        match u {
            Unchecked::Mem => ReadFault::Mem,
            Unchecked::Formula { name, fault } => ReadFault::Formula { name, fault },
        }
    }
}
