//! What may stand next in a file.

/// What is wanted of the words of a file.
#[derive(Clone, Copy)]
pub(crate) enum Wanted {
    /// This symbol or word of the grammar.
    Mark(&'static str),
    /// This name.
    Named(&'static str),
    /// Any name.
    Name,
    /// A name with a small letter first.
    Lower,
    /// A name with a capital first.
    Upper,
    /// A name in quotes.
    Quoted,
    /// The number 0.
    Zero,
    /// A number that is no greater than `MOST_ARITY`.
    Arity,
    /// The words of this part, with so many levels.
    A(Part, Limit),
    /// No word: what ended here has other levels than what ended last.
    Level(Change),
}

/// The most levels of a part.
#[derive(Clone, Copy)]
pub(crate) enum Limit {
    /// As many as what it stands in may have.
    Same,
    /// One fewer.
    Below,
    /// Those of a file's terms, processes or formulas.
    OfTerm,
    OfProcess,
    OfFormula,
}

/// The levels of what ended here, by those of what ended last.
#[derive(Clone, Copy)]
pub(crate) enum Change {
    /// It has none, one, two.
    Nothing,
    One,
    Two,
    /// One more.
    More,
    /// As many as the deeper of it and of what ended before.
    Deepest,
    /// One more than the deeper.
    Joined,
}

/// Whether a part may begin with a word, by the levels that it may have.
#[derive(Clone, Copy)]
pub(crate) enum Test {
    Always,
    Never,
    /// It may have a level.
    HasLevel,
    /// It may have two.
    HasRoom,
    /// It may have one more than what ended last.
    GoesOn,
}

/// A part of a file, for which the table has rows. `More..` is what is behind one of a list, or its end.
#[derive(Clone, Copy)]
pub(crate) enum Part {
    /// All of it.
    File,
    /// The items from here on, and `end`.
    Items,
    /// A builtin's name.
    Builtin,
    MoreBuiltins,
    /// A symbol, with its arity.
    Function,
    /// What is behind an arity.
    Privacy,
    MoreFunctions,
    /// What is behind the name of a definition, up to its `=`: its parameters, if any.
    Parameters,
    MoreParameters,
    /// A lemma's words in brackets, if any, and what is behind them.
    Lemma,
    /// One of these words.
    Attribute,
    MoreAttributes,
    /// A lemma's mode, if any, and its formula.
    Mode,
    /// A process.
    Process,
    /// What is behind its first sequence.
    Bars,
    /// A process that is no parallel without parentheses.
    Sequence,
    /// What may be behind the name of a process: its arguments.
    Arguments,
    /// What is behind an action.
    Then,
    /// What is behind the first branch of a choice.
    Else,
    /// The variable that `new` binds.
    NewName,
    /// What is behind the first term of an output or input.
    Message,
    /// The facts behind `[`.
    Facts,
    MoreFacts,
    /// A fact, persistent or not.
    Fact,
    /// What is behind the left side of a rule.
    Arrow,
    /// The facts behind `--[`.
    Shown,
    MoreShown,
    /// A term.
    Term,
    /// What may be behind a symbol's name.
    Application,
    /// The terms behind `(`.
    Terms,
    MoreTerms,
    /// What is behind the first part of a tuple.
    Pair,
    /// What is behind another of its parts.
    MoreParts,
    /// A formula, and what is behind its first side.
    Equivalence,
    MoreEquivalence,
    /// What is behind its second side: no third.
    Ended,
    /// The same without `<=>`; without `==>`; without `|`.
    Implication,
    MoreImplication,
    Disjunction,
    MoreDisjunction,
    Conjunction,
    MoreConjunction,
    /// A formula that no connective without parentheses joins.
    Formula,
    /// What may be behind `T` or `F`.
    Truth,
    /// An atom that doesn't begin with `T` or `F`.
    Atom,
    /// What is behind a name that begins one, with a capital or not.
    UpperAtom,
    LowerAtom,
    /// What is behind a time that begins an atom, with its sign.
    Times,
    /// A time variable.
    Time,
    /// The variables that a quantifier binds.
    Binders,
    MoreBinders,
}
