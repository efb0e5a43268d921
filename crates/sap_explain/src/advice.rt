//! What to change in a file that is refused: one sentence for each cause.
ghost use Rattle.std.specs.Prelude.{◌≡◌};
ghost use Rattle.sap_explain.specs.Advice.{advice, body_advice, flaw_advice, formula_advice, length_advice, lex_advice, lock_advice};

use sap_formula::FormulaFault;
use sap_locks::LockFault;
use sap_process::Flaw;
use sap_read::ReadFault;
use sap_text::Lex;

// What to change where bytes have no tokens.
fn lex_advice(fault: Lex) -> &'static [u8]
    ensures { result.now ≡ lex_advice fault }
{
    match fault {
        Lex::Mem => b"",
        Lex::BadByte { .. } =>
            b"Take this byte away: no word begins with it here, and quotes hold printable ASCII alone.",
        Lex::OpenComment { .. } => b"Write the */ that closes this comment.",
        Lex::OpenQuote { .. } => b"Write the ' that closes this name, on the same line.",
        Lex::NameLong { .. } =>
            b"Shorten it: an identifier, a number or a name in quotes has 64 bytes at most.",
    }
}

// What to change where a process has this flaw.
fn flaw_advice(flaw: Flaw) -> &'static [u8]
    ensures { result.now ≡ flaw_advice flaw }
{
    match flaw {
        Flaw::BadFunction =>
            b"Add the builtin of this symbol, or declare it with as many arguments as here; new and lookup bind no constant.",
        Flaw::ReservedVar => b"Begin no name of a variable with sapic_.",
        Flaw::ReservedFact => b"Give the fact another name: rules use this one themselves.",
        Flaw::FactClash =>
            b"Write a fact with as many arguments each time, and with ! always or never.",
        Flaw::PatternDestructor =>
            b"Write no destructor in a pattern: bind a variable there, and apply it behind.",
        Flaw::Unbound =>
            b"Bind the name above, on this side of each |, or put a public name in quotes, or declare a constant.",
        Flaw::Rebound => b"Give one of the two another name.",
        Flaw::SortClash => b"Write the variable without its sign, or with that of its binder.",
        Flaw::ScopeFull =>
            b"Bind fewer names above: 64 are in scope at most, and each lock above counts as one.",
    }
}

// What to change where the definition of a process with parameters has this flaw.
fn body_advice(flaw: Flaw) -> &'static [u8]
    ensures { result.now ≡ body_advice flaw }
{
    match flaw {
        Flaw::Unbound =>
            b"Make the name a parameter, or bind it in this definition, or put it in quotes, or declare a constant.",
        _ => flaw_advice(flaw),
    }
}

// What to change where a process can't be annotated.
fn lock_advice(fault: &LockFault) -> &'static [u8]
    ensures { result.now ≡ lock_advice fault.now }
{
    match fault {
        LockFault::Mem => b"",
        LockFault::UnlockWithoutLock { .. } =>
            b"Lock this term above, written as here, and unlock each lock once on each way down.",
        LockFault::LockOverParallel { .. } =>
            b"Unlock above it, or lock below it, in the thread that unlocks.",
    }
}

// What to change where a formula has this fault.
fn formula_advice(fault: &FormulaFault) -> &'static [u8]
    ensures { result.now ≡ formula_advice fault.now }
{
    match fault {
        FormulaFault::Mem => b"",
        FormulaFault::BadFunction { .. } =>
            b"Add the builtin of this symbol, or declare it with as many arguments as stand here.",
        FormulaFault::Destructor { .. } =>
            b"Let an event of the process show what it gives, and speak of that.",
        FormulaFault::Reserved { .. } =>
            b"Speak of an event of your own; of the reserved facts a formula has K alone.",
        FormulaFault::UnboundVar { .. } =>
            b"Bind it by All or Ex, a time with #, and sign it as its binder does or not at all.",
        FormulaFault::Unguarded { .. } =>
            b"Let an action have it: before ==> under All, joined by & under Ex.",
    }
}

/// What to change where bytes are read as no file, in one sentence. Want of memory has none.
pub(crate) fn advice(fault: &ReadFault) -> &'static [u8]
    ensures { result.now ≡ advice fault.now }
{
    match fault {
        ReadFault::Mem => b"",
        ReadFault::Lex(fault) => lex_advice(*fault),
        ReadFault::Header => b"Begin the file with theory, a name and begin.",
        ReadFault::Syntax { .. } => b"A word is missing, wrong or too many here or before it.",
        ReadFault::NoProcess => b"Add an item process: and the process.",
        ReadFault::TwoProcesses { .. } =>
            b"Make one of the two a let, or both one process with | between them.",
        ReadFault::UnknownProcess { .. } =>
            b"Define the name by a let above this item, or write the action that was meant.",
        ReadFault::DuplicateName { .. } => b"Give this one another name.",
        ReadFault::FunctionClash { .. } =>
            b"Leave out this declaration or the one before it, or give your own symbol another name.",
        ReadFault::Parameters { .. } => b"Give one of the two parameters another name.",
        ReadFault::Arguments { .. } =>
            b"Write as many arguments as its let has parameters, or none where it has no parentheses.",
        ReadFault::TooMany =>
            b"Use a let at fewer places: each use counts in full, with all that it uses itself.",
        ReadFault::TooDeep =>
            b"Nest it less deep: each use of a let counts in full, with all that it uses itself.",
        ReadFault::Large { .. } =>
            b"Hand over less: what stands in a parameter's place has 256 nodes at most in each term.",
        ReadFault::Flawed { which, .. } => body_advice(*which),
        ReadFault::Ill { which, .. } => flaw_advice(*which),
        ReadFault::Lock(fault) => lock_advice(fault),
        ReadFault::Formula { fault, .. } => formula_advice(fault),
    }
}

/// What to change where a file has too many bytes.
pub fn length_advice() -> &'static [u8]
    ensures { result.now ≡ length_advice }
{
    b"Leave out comments, or write once, as a let, what stands twice."
}
