//! Why a file is refused, in words.

ghost use Rattle.std.specs.Prelude.{◌≡◌, IfSome};
ghost use Rattle.sap_read.specs.declared.fault.ReadFault.TheVariants as faults;
ghost use Rattle.sap_refusals.specs.Refusals.{fault_text, lex_text, lock_text};
ghost use Rattle.sap_refusals.specs.code.Words.{words_text};

use crate::words::{Words, flaw_words};
use sap_locks::LockFault;
use sap_read::ReadFault;
use sap_text::Lex;

/// Why bytes are read as no file. Want of memory is no such cause.
pub fn fault_words<'a>(fault: &'a ReadFault) -> Option<Words<'a>>
    ensures { IfSome result (λ words. (fault.now ≡ faults.Mem → ⊥)
        × (words_text words ≡ fault_text fault.now)) }
{
    match fault {
        ReadFault::Mem => None,
        ReadFault::Lex(fault) => Some(lex_words(*fault, b" is longer than 64 bytes")),
        ReadFault::Header => Some(Words::Plain(b"no theory header")),
        ReadFault::Syntax { line } => Some(Words::Numbered(
            b"line ",
            *line,
            b": not in the grammar",
        )),
        ReadFault::NoProcess => Some(Words::Plain(b"no process")),
        ReadFault::TwoProcesses { line } => Some(Words::Numbered(
            b"line ",
            *line,
            b": second process",
        )),
        ReadFault::UnknownProcess { name } => Some(Words::Named(
            b"process ",
            name,
            b" is not defined",
        )),
        ReadFault::DuplicateName { name } => Some(Words::Named(b"name ", name, b" stands twice")),
        ReadFault::FunctionClash { name } => Some(Words::Named(
            b"function ",
            name,
            b" is declared otherwise",
        )),
        ReadFault::Parameters { name } => Some(Words::Named(b"parameter ", name, b" stands twice")),
        ReadFault::Arguments { name } => Some(Words::Named(
            b"process ",
            name,
            b" has another number of arguments",
        )),
        ReadFault::TooMany => Some(Words::Plain(b"more than 4000 nodes")),
        ReadFault::TooDeep => Some(Words::Plain(b"more than 300 levels")),
        ReadFault::Large { name } => Some(Words::Named(
            b"process ",
            name,
            b": argument is too large",
        )),
        ReadFault::Flawed { name, which, path } => Some(Words::Flawed(name, *which, path)),
        ReadFault::Ill { which, path } => Some(Words::Placed(path, flaw_words(*which))),
        ReadFault::Lock(fault) => Some(lock_words(fault)),
        ReadFault::Formula { name, fault } => Some(Words::Formula(name, fault)),
    }
}

/// Why bytes have no tokens, of a name that is too long with these words.
pub fn lex_words<'a>(fault: Lex, long: &'a [u8]) -> Words<'a>
    ensures { words_text result ≡ lex_text long.now fault }
{
    match fault {
        Lex::Mem => Words::Plain(b"out of memory"),
        Lex::BadByte { at } => Words::Numbered(b"byte ", at, b" begins no token"),
        Lex::OpenComment { at } => Words::Numbered(b"comment at byte ", at, b" is not closed"),
        Lex::OpenQuote { at } => Words::Numbered(b"quote at byte ", at, b" is not closed"),
        Lex::NameLong { at } => Words::Numbered(b"name at byte ", at, long),
    }
}

/// Why a process can't be annotated.
fn lock_words<'a>(fault: &'a LockFault) -> Words<'a>
    ensures { words_text result ≡ lock_text fault.now }
{
    match fault {
        LockFault::Mem => Words::Plain(b"out of memory"),
        LockFault::UnlockWithoutLock { path } => Words::Placed(path, b"unlock without lock"),
        LockFault::LockOverParallel { path } => Words::Placed(
            path,
            b"lock over parallel or replication",
        ),
    }
}
