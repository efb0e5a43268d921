//! A table of the words of a file: for each part the words that it may begin with, and what has to stand behind each.

use crate::wanted::Change::{Deepest, Joined, More, Nothing, One, Two};
use crate::wanted::Limit::{Below, OfFormula, OfProcess, OfTerm, Same};
use crate::wanted::Part::{
    Application, Arguments, Arrow, Atom, Attribute, Bars, Binders, Builtin, Conjunction,
    Disjunction, Else, Ended, Equivalence, Fact, Facts, Formula, Function, Implication, Items,
    Lemma, LowerAtom, Message, Mode, MoreAttributes, MoreBinders, MoreBuiltins, MoreConjunction,
    MoreDisjunction, MoreEquivalence, MoreFacts, MoreFunctions, MoreImplication, MoreParameters,
    MoreParts, MoreShown, MoreTerms, NewName, Pair, Parameters, Privacy, Process, Sequence, Shown,
    Term, Terms, Then, Time, Times, Truth, UpperAtom,
};
use crate::wanted::Test::{Always, GoesOn, HasLevel, HasRoom, Never};
use crate::wanted::Wanted::{A, Arity, Level, Lower, Mark, Name, Named, Quoted, Upper, Zero};
use crate::wanted::{Test, Wanted};

/// What a part may begin with, where it may, and what has to stand behind it.
pub(crate) type Row = (Wanted, Test, &'static [Wanted]);

/// What a part is, where it may be that.
pub(crate) type Turn = (Test, &'static [Wanted]);

pub(crate) const FILE: &[Row] = &[(
    Mark("theory"),
    Always,
    &[Name, Mark("begin"), A(Items, Same)],
)];

pub(crate) const ITEMS: &[Row] = &[
    (
        Mark("builtins"),
        Always,
        &[Mark(":"), A(Builtin, Same), A(MoreBuiltins, Same)],
    ),
    (Mark("functions"), Always, &[Mark(":"), A(Function, Same)]),
    (
        Mark("let"),
        Always,
        &[
            Name,
            A(Parameters, Same),
            A(Process, OfProcess),
            A(Items, Same),
        ],
    ),
    (
        Mark("process"),
        Always,
        &[Mark(":"), A(Process, OfProcess), A(Items, Same)],
    ),
    (
        Mark("restriction"),
        Always,
        &[
            Name,
            Mark(":"),
            Mark("\""),
            A(Equivalence, OfFormula),
            Mark("\""),
            A(Items, Same),
        ],
    ),
    (
        Mark("lemma"),
        Always,
        &[Name, A(Lemma, Same), A(Items, Same)],
    ),
    (Mark("end"), Always, &[]),
];

pub(crate) const BUILTIN: &[Row] = &[
    (Named("hashing"), Always, &[]),
    (
        Named("symmetric"),
        Always,
        &[Mark("-"), Named("encryption")],
    ),
    (
        Named("asymmetric"),
        Always,
        &[Mark("-"), Named("encryption")],
    ),
    (Named("signing"), Always, &[]),
    (Named("revealing"), Always, &[Mark("-"), Named("signing")]),
];

pub(crate) const MORE_BUILTINS: &[Row] = &[(
    Mark(","),
    Always,
    &[A(Builtin, Same), A(MoreBuiltins, Same)],
)];

pub(crate) const FUNCTION: &[Row] = &[(Lower, Always, &[Mark("/"), Arity, A(Privacy, Same)])];

pub(crate) const PRIVACY: &[Row] = &[(
    Mark("["),
    Always,
    &[Named("private"), Mark("]"), A(MoreFunctions, Same)],
)];

pub(crate) const MORE_FUNCTIONS: &[Row] = &[(Mark(","), Always, &[A(Function, Same)])];

pub(crate) const PARAMETERS: &[Row] = &[
    (Mark("="), Always, &[]),
    (
        Mark("("),
        Always,
        &[Name, A(MoreParameters, Same), Mark("=")],
    ),
];

pub(crate) const MORE_PARAMETERS: &[Row] = &[
    (Mark(")"), Always, &[]),
    (Mark(","), Always, &[Name, A(MoreParameters, Same)]),
];

pub(crate) const LEMMA: &[Row] = &[
    (
        Mark("["),
        Always,
        &[
            A(Attribute, Same),
            A(MoreAttributes, Same),
            Mark(":"),
            A(Mode, Same),
        ],
    ),
    (Mark(":"), Always, &[A(Mode, Same)]),
];

pub(crate) const ATTRIBUTE: &[Row] = &[
    (Named("reuse"), Always, &[]),
    (Named("use_induction"), Always, &[]),
    (Named("sources"), Always, &[]),
];

pub(crate) const MORE_ATTRIBUTES: &[Row] = &[
    (
        Mark(","),
        Always,
        &[A(Attribute, Same), A(MoreAttributes, Same)],
    ),
    (Mark("]"), Always, &[]),
];

pub(crate) const MODE: &[Row] = &[
    (Mark("\""), Always, &[A(Equivalence, OfFormula), Mark("\"")]),
    (
        Named("all"),
        Always,
        &[
            Mark("-"),
            Named("traces"),
            Mark("\""),
            A(Equivalence, OfFormula),
            Mark("\""),
        ],
    ),
    (
        Named("exists"),
        Always,
        &[
            Mark("-"),
            Named("trace"),
            Mark("\""),
            A(Equivalence, OfFormula),
            Mark("\""),
        ],
    ),
];

pub(crate) const BARS: &[Row] = &[
    (Mark("|"), GoesOn, &[A(Process, Below), Level(Joined)]),
    (Mark("||"), GoesOn, &[A(Process, Below), Level(Joined)]),
];

pub(crate) const SEQUENCE: &[Row] = &[
    (Zero, Always, &[Level(One)]),
    (Name, Always, &[A(Arguments, Same)]),
    (
        Mark("("),
        HasRoom,
        &[A(Process, Below), Mark(")"), Level(More)],
    ),
    (Mark("!"), HasRoom, &[A(Sequence, Below), Level(More)]),
    (Mark("new"), HasRoom, &[A(NewName, Same), A(Then, Same)]),
    (
        Mark("out"),
        HasRoom,
        &[Mark("("), A(Term, OfTerm), A(Message, Same), A(Then, Same)],
    ),
    (
        Mark("in"),
        HasRoom,
        &[Mark("("), A(Term, OfTerm), A(Message, Same), A(Then, Same)],
    ),
    (
        Mark("event"),
        HasRoom,
        &[Upper, Mark("("), A(Terms, OfTerm), A(Then, Same)],
    ),
    (
        Mark("insert"),
        HasRoom,
        &[A(Term, OfTerm), Mark(","), A(Term, OfTerm), A(Then, Same)],
    ),
    (Mark("delete"), HasRoom, &[A(Term, OfTerm), A(Then, Same)]),
    (Mark("lock"), HasRoom, &[A(Term, OfTerm), A(Then, Same)]),
    (Mark("unlock"), HasRoom, &[A(Term, OfTerm), A(Then, Same)]),
    (
        Mark("["),
        HasRoom,
        &[A(Facts, Same), A(Arrow, Same), A(Then, Same)],
    ),
    (
        Mark("if"),
        HasRoom,
        &[
            A(Term, OfTerm),
            Mark("="),
            A(Term, OfTerm),
            Mark("then"),
            A(Sequence, Below),
            A(Else, Same),
        ],
    ),
    (
        Mark("lookup"),
        HasRoom,
        &[
            A(Term, OfTerm),
            Mark("as"),
            Name,
            Mark("in"),
            A(Sequence, Below),
            A(Else, Same),
        ],
    ),
];

pub(crate) const ARGUMENTS: &[Row] = &[(
    Mark("("),
    Always,
    &[A(Term, OfTerm), A(MoreTerms, OfTerm), Level(One)],
)];

pub(crate) const THEN: &[Row] = &[(Mark(";"), Always, &[A(Sequence, Below), Level(More)])];

pub(crate) const ELSE: &[Row] = &[(Mark("else"), Always, &[A(Sequence, Below), Level(Joined)])];

pub(crate) const NEW_NAME: &[Row] = &[(Mark("~"), Always, &[Name]), (Name, Always, &[])];

pub(crate) const MESSAGE: &[Row] = &[
    (Mark(")"), Always, &[]),
    (Mark(","), Always, &[A(Term, OfTerm), Mark(")")]),
];

pub(crate) const FACTS: &[Row] = &[(Mark("]"), Always, &[])];

pub(crate) const MORE_FACTS: &[Row] = &[
    (Mark("]"), Always, &[]),
    (Mark(","), Always, &[A(Fact, Same), A(MoreFacts, Same)]),
];

pub(crate) const FACT: &[Row] = &[
    (Upper, Always, &[Mark("("), A(Terms, OfTerm)]),
    (Mark("!"), Always, &[Upper, Mark("("), A(Terms, OfTerm)]),
];

pub(crate) const ARROW: &[Row] = &[
    (Mark("-->"), Always, &[Mark("["), A(Facts, Same)]),
    (
        Mark("--["),
        Always,
        &[A(Shown, Same), Mark("["), A(Facts, Same)],
    ),
];

pub(crate) const SHOWN: &[Row] = &[
    (Mark("]->"), Always, &[]),
    (
        Upper,
        Always,
        &[Mark("("), A(Terms, OfTerm), A(MoreShown, Same)],
    ),
];

pub(crate) const MORE_SHOWN: &[Row] = &[
    (Mark("]->"), Always, &[]),
    (
        Mark(","),
        Always,
        &[Upper, Mark("("), A(Terms, OfTerm), A(MoreShown, Same)],
    ),
];

pub(crate) const TERM: &[Row] = &[
    (Quoted, Always, &[Level(One)]),
    (Lower, Always, &[A(Application, Same)]),
    (Name, Always, &[Level(One)]),
    (Mark("~"), Always, &[Name, Level(One)]),
    (Mark("$"), Always, &[Name, Level(One)]),
    (Mark("<"), HasRoom, &[A(Term, Below), A(Pair, Same)]),
];

pub(crate) const APPLICATION: &[Row] = &[(Mark("("), Always, &[A(Terms, Below), Level(More)])];

pub(crate) const TERMS: &[Row] = &[(Mark(")"), Always, &[Level(Nothing)])];

pub(crate) const MORE_TERMS: &[Row] = &[
    (Mark(")"), Always, &[]),
    (
        Mark(","),
        Always,
        &[A(Term, Same), Level(Deepest), A(MoreTerms, Same)],
    ),
];

pub(crate) const PAIR: &[Row] = &[(
    Mark(","),
    Always,
    &[A(Term, Below), A(MoreParts, Below), Level(Joined)],
)];

pub(crate) const MORE_PARTS: &[Row] = &[
    (Mark(">"), Always, &[]),
    (
        Mark(","),
        GoesOn,
        &[A(Term, Below), A(MoreParts, Below), Level(Joined)],
    ),
];

pub(crate) const MORE_EQUIVALENCE: &[Row] = &[(
    Mark("<=>"),
    GoesOn,
    &[A(Implication, Below), Level(Joined), A(Ended, Same)],
)];

pub(crate) const ENDED: &[Row] = &[(Mark("<=>"), Never, &[])];

pub(crate) const MORE_IMPLICATION: &[Row] = &[(
    Mark("==>"),
    GoesOn,
    &[A(Implication, Below), Level(Joined)],
)];

pub(crate) const MORE_DISJUNCTION: &[Row] = &[(
    Mark("|"),
    GoesOn,
    &[
        A(Conjunction, Below),
        Level(Joined),
        A(MoreDisjunction, Same),
    ],
)];

pub(crate) const MORE_CONJUNCTION: &[Row] = &[(
    Mark("&"),
    GoesOn,
    &[A(Formula, Below), Level(Joined), A(MoreConjunction, Same)],
)];

pub(crate) const FORMULA: &[Row] = &[
    (Named("T"), Always, &[A(Truth, Same)]),
    (Named("F"), Always, &[A(Truth, Same)]),
    (Mark("not"), HasRoom, &[A(Formula, Below), Level(More)]),
    (
        Mark("All"),
        HasRoom,
        &[A(Binders, Same), A(Equivalence, Below), Level(More)],
    ),
    (
        Mark("Ex"),
        HasRoom,
        &[A(Binders, Same), A(Equivalence, Below), Level(More)],
    ),
    (
        Mark("("),
        HasRoom,
        &[A(Equivalence, Below), Mark(")"), Level(More)],
    ),
];

pub(crate) const TRUTH: &[Row] = &[(
    Mark("("),
    Always,
    &[A(Terms, OfTerm), Mark("@"), A(Time, Same), Level(One)],
)];

pub(crate) const ATOM: &[Row] = &[
    (Upper, Always, &[A(UpperAtom, Same)]),
    (Name, Always, &[A(LowerAtom, Same)]),
    (Mark("#"), Always, &[Name, A(Times, Same)]),
    (Quoted, Always, &[Mark("="), A(Term, Same)]),
    (Mark("~"), Always, &[Name, Mark("="), A(Term, Same)]),
    (Mark("$"), Always, &[Name, Mark("="), A(Term, Same)]),
    (
        Mark("<"),
        HasRoom,
        &[A(Term, Below), A(Pair, Same), Mark("="), A(Term, Same)],
    ),
];

pub(crate) const UPPER_ATOM: &[Row] = &[
    (
        Mark("("),
        Always,
        &[A(Terms, Same), Mark("@"), A(Time, Same)],
    ),
    (Mark("="), Always, &[A(Term, Same)]),
    (Mark("<"), Always, &[A(Time, Same)]),
];

pub(crate) const LOWER_ATOM: &[Row] = &[
    (
        Mark("("),
        Always,
        &[A(Terms, Below), Mark("="), A(Term, Same)],
    ),
    (Mark("="), Always, &[A(Term, Same)]),
    (Mark("<"), Always, &[A(Time, Same)]),
];

pub(crate) const TIMES: &[Row] = &[
    (Mark("="), Always, &[Mark("#"), Name]),
    (Mark("<"), Always, &[A(Time, Same)]),
];

pub(crate) const TIME: &[Row] = &[(Name, Always, &[]), (Mark("#"), Always, &[Name])];

pub(crate) const BINDERS: &[Row] = &[
    (Name, Always, &[A(MoreBinders, Same)]),
    (Mark("~"), Always, &[Name, A(MoreBinders, Same)]),
    (Mark("$"), Always, &[Name, A(MoreBinders, Same)]),
    (Mark("#"), Always, &[Name, A(MoreBinders, Same)]),
];

pub(crate) const MORE_BINDERS: &[Row] = &[(Mark("."), Always, &[])];

// What a part is where none of its rows begins with the next word.

pub(crate) const THE_ITEMS: Turn = (Always, &[A(Items, Same)]);

pub(crate) const THE_FUNCTIONS: Turn = (Always, &[A(MoreFunctions, Same)]);

pub(crate) const A_SEQUENCE: Turn = (Always, &[A(Sequence, Same), A(Bars, Same)]);

pub(crate) const NO_MORE: Turn = (Always, &[]);

pub(crate) const A_LEAF: Turn = (Always, &[Level(One)]);

pub(crate) const A_NIL: Turn = (Always, &[Level(Two)]);

pub(crate) const NO_OTHER_BRANCH: Turn = (Always, &[Level(More)]);

pub(crate) const SOME_FACTS: Turn = (Always, &[A(Fact, Same), A(MoreFacts, Same)]);

pub(crate) const SOME_TERMS: Turn = (HasLevel, &[A(Term, Same), A(MoreTerms, Same)]);

pub(crate) const AN_IMPLICATION: Turn = (Always, &[A(Implication, Same), A(MoreEquivalence, Same)]);

pub(crate) const A_DISJUNCTION: Turn = (Always, &[A(Disjunction, Same), A(MoreImplication, Same)]);

pub(crate) const A_CONJUNCTION: Turn = (Always, &[A(Conjunction, Same), A(MoreDisjunction, Same)]);

pub(crate) const A_FORMULA: Turn = (Always, &[A(Formula, Same), A(MoreConjunction, Same)]);

pub(crate) const AN_ATOM: Turn = (Always, &[A(Atom, OfTerm), Level(One)]);

pub(crate) const SOME_BINDERS: Turn = (Always, &[A(Binders, Same)]);
