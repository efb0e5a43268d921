//! Rows of words for processes and terms.

use crate::test::Test::{Any, Capital, End, Is, Name, Number, OneOf, Simple, Small};
use crate::test::WordRow;
use crate::words::ACTIONS;

// Of look-ups and conditions.
pub(crate) const CONDITION_ROWS: &[WordRow] = &[
    WordRow {
        before: &[Is("as")],
        from: &[OneOf(&["~", "$"])],
        cure: "Write the name behind as without a sign.",
    },
    WordRow {
        before: &[Is("as")],
        from: &[Is("in")],
        cure: "Write the name to bind between as and in.",
    },
    WordRow {
        before: &[Is("as"), Name],
        from: &[OneOf(&[";", "then"])],
        cure: "Write in behind the name.",
    },
    WordRow {
        before: &[Is("as"), Name],
        from: &[OneOf(ACTIONS)],
        cure: "Write in behind the name.",
    },
    WordRow {
        before: &[Is("lookup"), Simple],
        from: &[Is("in")],
        cure: "Write as and the name to bind before in.",
    },
    WordRow {
        before: &[Is("lookup"), OneOf(&["~", "$"]), Name],
        from: &[Is("in")],
        cure: "Write as and the name to bind before in.",
    },
    WordRow {
        before: &[Is(";")],
        from: &[Is("else")],
        cure: "Leave the ; before else out.",
    },
    WordRow {
        before: &[],
        from: &[Is("else")],
        cure: "Leave else and its process out, or write if t = u then before its first branch.",
    },
    WordRow {
        before: &[Is("if")],
        from: &[Is("not")],
        cure: "Turn the branches round: if t = u then 0 else P.",
    },
    WordRow {
        before: &[Is("if")],
        from: &[Is("(")],
        cure: "Leave the parentheses out: a condition is an equation of two terms.",
    },
    WordRow {
        before: &[Is("if"), Capital],
        from: &[Is("(")],
        cure: "Write an equation of two terms for the predicate.",
    },
    WordRow {
        before: &[Is("if"), Simple],
        from: &[Is("then")],
        cure: "Write = and a second term before then.",
    },
    WordRow {
        before: &[Is("if"), OneOf(&["~", "$"]), Name],
        from: &[Is("then")],
        cure: "Write = and a second term before then.",
    },
    WordRow {
        before: &[Is(")")],
        from: &[Is("then")],
        cure: "Write = and a second term before then.",
    },
    WordRow {
        before: &[Is("="), Simple],
        from: &[Is("&")],
        cure: "Write an if for each equation, one behind the then of the other.",
    },
    WordRow {
        before: &[Is("="), OneOf(&["~", "$"]), Name],
        from: &[Is("&")],
        cure: "Write an if for each equation, one behind the then of the other.",
    },
    WordRow {
        before: &[Is("if"), Simple, Is("="), Simple],
        from: &[OneOf(&["|", "||"])],
        cure: "Write an if for each equation, one behind the else of the other.",
    },
    WordRow {
        before: &[Is("if"), Simple, Is("="), Simple],
        from: &[OneOf(ACTIONS)],
        cure: "Write then before it.",
    },
    WordRow {
        before: &[Is("if"), Simple, Is("="), OneOf(&["~", "$"]), Name],
        from: &[OneOf(ACTIONS)],
        cure: "Write then before it.",
    },
];

// Of terms, new names and events.
pub(crate) const TERM_ROWS: &[WordRow] = &[
    WordRow {
        before: &[OneOf(&["(", "<", ","])],
        from: &[Is("=")],
        cure: "Leave the = out: a name that is bound above is compared as it stands.",
    },
    WordRow {
        before: &[OneOf(&["out", "in"]), Is("("), Any, Is(","), Any],
        from: &[Is(",")],
        cure: "Write a tuple for more than a channel and a message: out(c, <m, n>).",
    },
    WordRow {
        before: &[Is("new")],
        from: &[Is("(")],
        cure: "Write new without parentheses: new ~n.",
    },
    WordRow {
        before: &[Is("new")],
        from: &[Is("$")],
        cure: "Write a fresh name: new ~n.",
    },
    WordRow {
        before: &[Is("new"), Name],
        from: &[Is(",")],
        cure: "Write new for each name: new ~n; new ~o.",
    },
    WordRow {
        before: &[Is("new"), Is("~"), Name],
        from: &[Is(",")],
        cure: "Write new for each name: new ~n; new ~o.",
    },
    WordRow {
        before: &[OneOf(&["insert", "delete", "lock", "unlock"])],
        from: &[Is("(")],
        cure: "Leave the parentheses out: insert t, u; delete t; lock t; unlock t.",
    },
    WordRow {
        before: &[OneOf(&[",", "="])],
        from: &[Is("(")],
        cure: "Write <t, u> for a tuple, and a term without parentheses.",
    },
    WordRow {
        before: &[OneOf(&["out", "in"]), Is("(")],
        from: &[Is("(")],
        cure: "Write <t, u> for a tuple, and a term without parentheses.",
    },
    WordRow {
        before: &[Name, Is("(")],
        from: &[Is("(")],
        cure: "Write <t, u> for a tuple, and a term without parentheses.",
    },
    WordRow {
        before: &[
            OneOf(&["(", ",", "<", "~", "$", "#", "new", "All", "Ex"]),
            Name,
        ],
        from: &[Is(":")],
        cure: "Leave the colon and the type out: a name has a sign at most, as ~x, $x or #i.",
    },
    WordRow {
        before: &[Is("event")],
        from: &[Is("!")],
        cure: "Leave the ! out: an event has none.",
    },
    WordRow {
        before: &[Is("event")],
        from: &[Small],
        cure: "Begin the name of an event with a capital letter.",
    },
    WordRow {
        before: &[Is("event"), Capital],
        from: &[Any],
        cure: "Write parentheses behind the name of the event: event A().",
    },
    WordRow {
        before: &[Is("--[")],
        from: &[Is("!")],
        cure: "Leave the ! out: what a rule shows has none.",
    },
    WordRow {
        before: &[OneOf(&["[", "--["])],
        from: &[Small, Is("(")],
        cure: "Begin the name of a fact with a capital letter.",
    },
    WordRow {
        before: &[OneOf(&["(", ",", "<", "="])],
        from: &[Number],
        cure: "Put the number into quotes: a term has no numbers.",
    },
    WordRow {
        before: &[OneOf(&["(", ",", "<", "="])],
        from: &[Is("\"")],
        cure: "Put it into single quotes, as 'a'.",
    },
];

// Of parentheses.
pub(crate) const PARENTHESIS_ROWS: &[WordRow] = &[
    WordRow {
        before: &[Is("as"), Name, Is("in"), Is("("), Name],
        from: &[Is(";")],
        cure: "Put what follows into the definition: behind the use of a process no other stands.",
    },
    WordRow {
        before: &[],
        from: &[Is(","), OneOf(ACTIONS)],
        cure: "Write ; for the comma.",
    },
    WordRow {
        before: &[OneOf(&["out", "in"]), Is("("), Name],
        from: &[Is(";")],
        cure: "Write a ) before it: a parenthesis is open.",
    },
    WordRow {
        before: &[Is("event"), Capital, Is("("), Name],
        from: &[OneOf(&[";", "end"])],
        cure: "Write a ) before it: a parenthesis is open.",
    },
    WordRow {
        before: &[OneOf(&[";", ":", "|", "||", "then", "else", "!"]), Name],
        from: &[Is(";")],
        cure: "Put what follows into the definition: behind the use of a process no other stands.",
    },
    WordRow {
        before: &[Is("let"), Name, Is("="), Name],
        from: &[Is(";")],
        cure: "Put what follows into the definition: behind the use of a process no other stands.",
    },
    WordRow {
        before: &[Is("as"), Name, Is("in"), Name],
        from: &[Is(";")],
        cure: "Put what follows into the definition: behind the use of a process no other stands.",
    },
    WordRow {
        before: &[
            OneOf(&[";", ":", "=", "|", "||", "then", "else", "!"]),
            Is("("),
            Name,
        ],
        from: &[Is(";")],
        cure: "Put what follows into the definition: behind the use of a process no other stands.",
    },
    WordRow {
        before: &[Number],
        from: &[Is(";")],
        cure: "Leave out the 0, or what follows it: 0 ends a process.",
    },
    WordRow {
        before: &[Number],
        from: &[Is(")")],
        cure: "Leave this ) out: no parenthesis is open.",
    },
    WordRow {
        before: &[Name, Is("(")],
        from: &[Is(")")],
        cure: "Leave the empty parentheses out: a process without arguments is its name alone.",
    },
    WordRow {
        before: &[Is("<"), Any, Is(","), Simple],
        from: &[Is(")")],
        cure: "Write > before it: a tuple is open.",
    },
    WordRow {
        before: &[Is("<"), Any, Is(","), OneOf(&["~", "$"]), Name],
        from: &[Is(")")],
        cure: "Write > before it: a tuple is open.",
    },
    WordRow {
        before: &[OneOf(&["out", "in"])],
        from: &[OneOf(&["~", "$", "<"])],
        cure: "Put the message into parentheses, as out(m) and in(x).",
    },
    WordRow {
        before: &[OneOf(&["out", "in"])],
        from: &[Simple],
        cure: "Put the message into parentheses, as out(m) and in(x).",
    },
];

// Of what stands behind a parenthesis that is closed: the words before it are those before the sign that opens it.
pub(crate) const CLOSED_ROWS: &[WordRow] = &[
    WordRow {
        before: &[OneOf(&[";", ":", "=", "|", "||", "then", "else", "!", "("])],
        from: &[Is(";")],
        cure: "Put what follows into the parentheses: behind them no process stands.",
    },
    WordRow {
        before: &[Is("as"), Name, Is("in")],
        from: &[Is(";")],
        cure: "Put what follows into the parentheses: behind them no process stands.",
    },
    WordRow {
        before: &[OneOf(&[";", ":", "|", "||", "then", "else", "!"]), Name],
        from: &[Is(";")],
        cure: "Put what follows into the definition: behind the use of a process no other stands.",
    },
    WordRow {
        before: &[Is("let"), Name, Is("="), Name],
        from: &[Is(";")],
        cure: "Put what follows into the definition: behind the use of a process no other stands.",
    },
    WordRow {
        before: &[Is("as"), Name, Is("in"), Name],
        from: &[Is(";")],
        cure: "Put what follows into the definition: behind the use of a process no other stands.",
    },
    WordRow {
        before: &[
            OneOf(&[";", ":", "=", "|", "||", "then", "else", "!"]),
            Is("("),
            Name,
        ],
        from: &[Is(";")],
        cure: "Put what follows into the definition: behind the use of a process no other stands.",
    },
    WordRow {
        before: &[Is("as"), Name, Is("in"), Is("("), Name],
        from: &[Is(";")],
        cure: "Put what follows into the definition: behind the use of a process no other stands.",
    },
    WordRow {
        before: &[Is("event"), Capital, Is("("), Small],
        from: &[Is(";")],
        cure: "Write a ) before it: a parenthesis is open.",
    },
    WordRow {
        before: &[OneOf(&["out", "in"]), Is("("), Small],
        from: &[Is(";")],
        cure: "Write a ) before it: a parenthesis is open.",
    },
    WordRow {
        before: &[Is("event"), Capital],
        from: &[Is(")")],
        cure: "Leave this ) out: no parenthesis is open.",
    },
    WordRow {
        before: &[OneOf(&["out", "in"])],
        from: &[Is(")")],
        cure: "Leave this ) out: no parenthesis is open.",
    },
    WordRow {
        before: &[Is("event"), Capital],
        from: &[OneOf(&["end", "lemma", "restriction", "let"])],
        cure: "Write a ) before it: a parenthesis is open.",
    },
    WordRow {
        before: &[OneOf(&["out", "in"])],
        from: &[OneOf(&["end", "lemma", "restriction", "let"])],
        cure: "Write a ) before it: a parenthesis is open.",
    },
    WordRow {
        before: &[Is("event"), Capital],
        from: &[OneOf(ACTIONS)],
        cure: "Write ; before it.",
    },
    WordRow {
        before: &[OneOf(&["out", "in"])],
        from: &[OneOf(ACTIONS)],
        cure: "Write ; before it.",
    },
];

// Of ends, and of what stands between actions.
pub(crate) const END_ROWS: &[WordRow] = &[
    WordRow {
        before: &[Is(";")],
        from: &[OneOf(&[
            ")",
            "|",
            "||",
            ";",
            "end",
            "builtins",
            "functions",
            "process",
            "restriction",
            "lemma",
            "rule",
        ])],
        cure: "Leave the ; before it out: behind a ; stands a process.",
    },
    WordRow {
        before: &[Is(";")],
        from: &[End],
        cure: "Leave the ; before it out: behind a ; stands a process.",
    },
    WordRow {
        before: &[],
        from: &[
            Is("in"),
            OneOf(&[
                "out",
                "new",
                "event",
                "insert",
                "delete",
                "lock",
                "unlock",
                "if",
                "lookup",
                "let",
                "in",
                "!",
                "[",
                "process",
                "restriction",
                "lemma",
                "builtins",
                "functions",
                "end",
            ]),
        ],
        cure: "Leave in out: a let ends with its process.",
    },
    WordRow {
        before: &[],
        from: &[Is("in"), Name],
        cure: "Leave in out: a let ends with its process.",
    },
    WordRow {
        before: &[],
        from: &[Is("in"), Number],
        cure: "Leave in out: a let ends with its process.",
    },
    WordRow {
        before: &[Number],
        from: &[OneOf(&["end", "lemma", "restriction", "let"])],
        cure: "Write a ) before it: a parenthesis is open.",
    },
    WordRow {
        before: &[Is("new"), Name],
        from: &[OneOf(ACTIONS)],
        cure: "Write ; before it.",
    },
    WordRow {
        before: &[Is("new"), Is("~"), Name],
        from: &[OneOf(ACTIONS)],
        cure: "Write ; before it.",
    },
    WordRow {
        before: &[],
        from: &[Is("XOR")],
        cure: "Write a symbol of a builtin: there is no exclusive or.",
    },
];
