//! Rows of words for items.

use crate::test::Test::{Any, Capital, Is, Name, Number, OneOf, Quoted, Small};
use crate::test::WordRow;
use crate::words::RESERVED;

// Of words as names, and of the heads of items.
pub(crate) const HEAD_ROWS: &[WordRow] = &[
    WordRow {
        before: &[OneOf(&[
            "new",
            "event",
            "let",
            "lemma",
            "restriction",
            "@",
            "All",
            "Ex",
            "#",
            "~",
            "$",
        ])],
        from: &[OneOf(RESERVED)],
        cure: "Take another name: this word is one of the grammar.",
    },
    WordRow {
        before: &[OneOf(&["(", "<", ","])],
        from: &[OneOf(RESERVED), OneOf(&[")", ",", ">", "@", "="])],
        cure: "Take another name: this word is one of the grammar.",
    },
    WordRow {
        before: &[Is("process")],
        from: &[Name, Is(":")],
        cure: "Write process: without a name, or let P = for a process with one.",
    },
    WordRow {
        before: &[OneOf(&["lemma", "restriction"]), Name],
        from: &[Name],
        cure: "Write one name before the colon.",
    },
    WordRow {
        before: &[Is("restriction"), Name],
        from: &[Is("[")],
        cure: "Leave the brackets out: a restriction has no attributes.",
    },
    WordRow {
        before: &[Is("lemma"), Name, Is("[")],
        from: &[Name],
        cure: "Leave this attribute out: a lemma has reuse, use_induction and sources alone.",
    },
    WordRow {
        before: &[OneOf(&["reuse", "use_induction", "sources"]), Is(",")],
        from: &[Name],
        cure: "Leave this attribute out: a lemma has reuse, use_induction and sources alone.",
    },
    WordRow {
        before: &[OneOf(&["lemma", "restriction"]), Name, Is(":")],
        from: &[OneOf(&["All", "Ex", "not", "(", "#"])],
        cure: "Put the formula into double quotes.",
    },
    WordRow {
        before: &[OneOf(&["lemma", "restriction"]), Name, Is(":")],
        from: &[Quoted],
        cure: "Put the formula into double quotes.",
    },
    WordRow {
        before: &[OneOf(&["lemma", "restriction"]), Name, Is(":")],
        from: &[Capital],
        cure: "Put the formula into double quotes.",
    },
    WordRow {
        before: &[Is("]"), Is(":")],
        from: &[OneOf(&["All", "Ex", "not", "(", "#"])],
        cure: "Put the formula into double quotes.",
    },
    WordRow {
        before: &[Is("-"), OneOf(&["traces", "trace"])],
        from: &[OneOf(&["All", "Ex", "not", "(", "#"])],
        cure: "Put the formula into double quotes.",
    },
];

// Of builtins and functions.
pub(crate) const DECLARATION_ROWS: &[WordRow] = &[
    WordRow {
        before: &[Is("builtins"), Is(":")],
        from: &[Name],
        cure: "Write hashing, signing, symmetric-encryption, asymmetric-encryption or revealing-signing: there is no other builtin.",
    },
    WordRow {
        before: &[OneOf(&["hashing", "signing", "encryption"]), Is(",")],
        from: &[Name],
        cure: "Write hashing, signing, symmetric-encryption, asymmetric-encryption or revealing-signing: there is no other builtin.",
    },
    WordRow {
        before: &[OneOf(&["hashing", "signing", "encryption"])],
        from: &[OneOf(&["hashing", "signing", "symmetric", "asymmetric", "revealing"])],
        cure: "Write a comma between two builtins.",
    },
    WordRow {
        before: &[OneOf(&["hashing", "signing", "encryption"])],
        from: &[Is(";")],
        cure: "Leave the ; out: nothing stands between two items.",
    },
    WordRow {
        before: &[Is("/"), Number],
        from: &[Is(";")],
        cure: "Leave the ; out: nothing stands between two items.",
    },
    WordRow {
        before: &[Is("/")],
        from: &[Number],
        cure: "Give it fewer arguments: a function has 64 at most.",
    },
    WordRow {
        before: &[Is("functions"), Is(":")],
        from: &[Capital],
        cure: "Begin the name of a function with a small letter.",
    },
    WordRow {
        before: &[Is("]"), Is(",")],
        from: &[Capital],
        cure: "Begin the name of a function with a small letter.",
    },
    WordRow {
        before: &[Number, Is(",")],
        from: &[Capital],
        cure: "Begin the name of a function with a small letter.",
    },
    WordRow {
        before: &[Is("functions"), Is(":"), Small],
        from: &[Is("(")],
        cure: "Write the number of arguments for their types, as f/1.",
    },
    WordRow {
        before: &[Number, Is(","), Small],
        from: &[Is("(")],
        cure: "Write the number of arguments for their types, as f/1.",
    },
    WordRow {
        before: &[Is("functions"), Is(":"), Small],
        from: &[Any],
        cure: "Write the number of arguments behind the name, as f/1.",
    },
    WordRow {
        before: &[Number, Is(","), Small],
        from: &[Any],
        cure: "Write the number of arguments behind the name, as f/1.",
    },
    WordRow {
        before: &[Number, Is("[")],
        from: &[Name],
        cure: "Write [private] or nothing there: a function has no other attribute.",
    },
    WordRow {
        before: &[Number, Is("["), Is("private")],
        from: &[Is(",")],
        cure: "Write [private] or nothing there: a function has no other attribute.",
    },
];

// Of definitions, and of items that there are not.
pub(crate) const OTHER_ITEM_ROWS: &[WordRow] = &[
    WordRow {
        before: &[Is("let"), Name, Is("(")],
        from: &[Is(")")],
        cure: "Leave the empty parentheses out: let P = 0.",
    },
    WordRow {
        before: &[Is("let"), Name, Is("=")],
        from: &[OneOf(&["<", "~", "$"])],
        cure: "Write functions: k/0 for a constant, or the term where it is used: a let names a process.",
    },
    WordRow {
        before: &[Is("let"), Name, Is("=")],
        from: &[Quoted],
        cure: "Write functions: k/0 for a constant, or the term where it is used: a let names a process.",
    },
    WordRow {
        before: &[Is(";")],
        from: &[Is("let"), Capital],
        cure: "Leave the ; before it out: behind a ; stands a process.",
    },
    WordRow {
        before: &[OneOf(&[";", "(", "|", "||", "then", "else", "!", "in", "=", ":"])],
        from: &[Is("let"), Name],
        cure: "Write the term where its name stands: inside a process no let names one.",
    },
    WordRow {
        before: &[OneOf(&[";", "(", "|", "||", "then", "else", "!", "in", "=", ":"])],
        from: &[Is("let"), OneOf(&["<", "~", "$", "("])],
        cure: "Write fst and snd where the parts are used: inside a process no let takes a term apart.",
    },
    WordRow {
        before: &[],
        from: &[Is("equations"), Is(":")],
        cure: "Leave this item out: there are no equations but those of the builtins.",
    },
    WordRow {
        before: &[],
        from: &[OneOf(&["predicates", "predicate"]), Is(":")],
        cure: "Leave this item out, and write the condition where it is asked for.",
    },
    WordRow {
        before: &[],
        from: &[
            OneOf(&["heuristic", "tactic", "configuration", "options"]),
            Is(":"),
        ],
        cure: "Leave this item out: how a prover searches is told to the prover.",
    },
    WordRow {
        before: &[],
        from: &[Is("macros"), Is(":")],
        cure: "Leave this item out, and write the term of a macro where it is used.",
    },
    WordRow {
        before: &[],
        from: &[Is("export"), Name, Is(":")],
        cure: "Leave this item out: nothing is exported.",
    },
    WordRow {
        before: &[],
        from: &[OneOf(&["function", "builtin"]), Is(":")],
        cure: "Write functions: or builtins: with an s.",
    },
    WordRow {
        before: &[],
        from: &[Is("axiom"), Name],
        cure: "Write restriction for axiom.",
    },
    WordRow {
        before: &[],
        from: &[OneOf(&["diffLemma", "equivLemma", "diffEquivLemma"])],
        cure: "Leave this item out: there is no equivalence.",
    },
    WordRow {
        before: &[],
        from: &[Is("rule"), Is("(")],
        cure: "Write an embedded rule in the process, as ! [ ] --> [ F('a') ]: a file has no rules of its own.",
    },
    WordRow {
        before: &[],
        from: &[Is("rule"), Name],
        cure: "Write an embedded rule in the process, as ! [ ] --> [ F('a') ]: a file has no rules of its own.",
    },
    WordRow {
        before: &[],
        from: &[
            Is("#"),
            OneOf(&["ifdef", "define", "include", "endif", "else"]),
        ],
        cure: "Leave this line out: there is no preprocessor.",
    },
    WordRow {
        before: &[Is("\"")],
        from: &[OneOf(&["by", "simplify", "induction", "solve", "case", "SOLVED"])],
        cure: "Leave the proof out: a lemma ends behind its formula.",
    },
    WordRow {
        before: &[],
        from: &[Name, Is(":")],
        cure: "Leave this item out: items are builtins, functions, let, process, restriction and lemma.",
    },
];
