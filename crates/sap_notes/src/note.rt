//! Notes on a file.
use sap_stretches::Stretch;

/// What a note is about, in the order of notes at one word.
#[derive(Clone, Copy)]
pub enum Kind {
    /// A function has name and arity of one that an equation of a builtin speaks of that the file doesn't name.
    OtherSymbol,
    /// A function is in no term of the file.
    UnusedSymbol,
    /// The file's process doesn't lead to a definition.
    UnusedDefinition,
    /// No place of the file's process shows a fact of a restriction or a lemma.
    UnshownFact,
    /// No restriction or lemma speaks of an event.
    UnspokenEvent,
    /// A pattern behind a use binds a name in one of its arguments.
    CapturedName,
    /// A whole pattern of an input is one variable in scope.
    ComparedName,
}

/// What may not be meant in a file that is accepted, and the word at which it stands.
#[derive(Clone, Copy)]
pub struct Note {
    pub kind: Kind,
    pub word: Stretch,
}
