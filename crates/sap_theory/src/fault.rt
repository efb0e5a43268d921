//! Why a theory is refused.
use sap_formula::FormulaFault;
use sap_statements::Unchecked;
use sap_terms::{Mem, Name};
use sap_text::Lex;

/// Why a theory is refused. Of the causes that hold, the one that stands first here is answered; want of memory, which
/// merges with none of them, can come before any.
#[derive(Drop)]
pub enum TheoryFault {
    /// Want of memory.
    Mem,
    /// The bytes are no tokens, or one has a name of more than `MOST_THEORY_NAME_BYTES` bytes.
    Lex(Lex),
    /// The theory doesn't begin with `theory`, a name and `begin`.
    Header,
    /// The first item that isn't in its grammar within `THEORY_LIMITS` begins on this line, counted from 1; where only `end` is
    /// missing, the line of the last token.
    Syntax { line: u64 },
    /// A name that stands at two rules: the one whose first rule comes first. Where there is none, a name that stands at two
    /// restrictions or lemmas: the one that comes first.
    DuplicateName { name: Name },
    /// The first function that is declared otherwise than before it, by its name.
    FunctionClash { name: Name },
    /// The first rule, by its name, with a symbol that the signature doesn't hold with its arity.
    BadFunction { name: Name },
    /// The first rule, by its name, in which a fact stands where it mustn't, a fact between its sides is persistent, or a name of a
    /// variable has two sorts.
    BadRule { name: Name },
    /// The first restriction or lemma, by its name, whose formula has a fault, and the fault that counts; never want of memory.
    Formula { name: Name, fault: FormulaFault },
}

impl From<Mem> for TheoryFault {
    ghost use Rattle.std.specs.Prelude.{◌≡◌};
    ghost use Rattle.sap_theory.specs.declared.fault.TheoryFault.TheVariants.{Mem as OutOfMemory};

    ghost from_gives = { λ _ e. e ≡ OutOfMemory };

    fn from(_e: Mem) -> TheoryFault {
        TheoryFault::Mem
    }
}

impl From<Unchecked> for TheoryFault {
    ghost use Rattle.std.specs.Prelude.{◌≡◌};
    ghost use Rattle.sap_theory.specs.TheoryCauses.{fault_of_statements};

    ghost from_gives = { λ u e. e ≡ fault_of_statements u };

    fn from(u: Unchecked) -> TheoryFault {
        match u {
            Unchecked::Mem => TheoryFault::Mem,
            Unchecked::Formula { name, fault } => TheoryFault::Formula { name, fault },
        }
    }
}
