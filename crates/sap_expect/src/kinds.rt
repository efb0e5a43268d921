//! Kinds of words of a file, the wider first: for each, words that stand for all of it, and the kinds before it of which it is part.

use crate::kind::WordKind;
use sap_text::Kind;
use sap_text::Kind::{Ident, Number, Quoted, Symbol};

/// A word that stands for others: what token it is, and its bytes.
pub(crate) type Witness = (Kind, &'static str);

/// A kind of words, with words that stand for all of it, and the kinds before it of which it is part.
pub(crate) type KindRow = (WordKind, &'static [Witness], &'static [WordKind]);

pub(crate) const ITEM: &[Witness] = &[
    (Symbol, "builtins"),
    (Symbol, "functions"),
    (Symbol, "let"),
    (Symbol, "process"),
    (Symbol, "restriction"),
    (Symbol, "lemma"),
];

pub(crate) const PROCESS: &[Witness] = &[
    (Ident, "x"),
    (Ident, "X"),
    (Number, "0"),
    (Symbol, "("),
    (Symbol, "!"),
    (Symbol, "["),
    (Symbol, "new"),
    (Symbol, "out"),
    (Symbol, "in"),
    (Symbol, "if"),
    (Symbol, "event"),
    (Symbol, "insert"),
    (Symbol, "delete"),
    (Symbol, "lookup"),
    (Symbol, "lock"),
    (Symbol, "unlock"),
];

pub(crate) const FORMULA: &[Witness] = &[
    (Ident, "x"),
    (Ident, "X"),
    (Quoted, "'x'"),
    (Symbol, "~"),
    (Symbol, "$"),
    (Symbol, "<"),
    (Symbol, "("),
    (Symbol, "#"),
    (Symbol, "All"),
    (Symbol, "Ex"),
    (Symbol, "not"),
];

pub(crate) const TERM: &[Witness] = &[
    (Ident, "x"),
    (Ident, "X"),
    (Quoted, "'x'"),
    (Symbol, "~"),
    (Symbol, "$"),
    (Symbol, "<"),
];

pub(crate) const NAME: &[Witness] = &[(Ident, "x"), (Ident, "X")];

pub(crate) const SMALL: &[Witness] = &[(Ident, "x")];

pub(crate) const CAPITAL: &[Witness] = &[(Ident, "X")];

pub(crate) const ARITY: &[Witness] = &[(Number, "1")];

pub(crate) const QUOTED: &[Witness] = &[(Quoted, "'x'")];

pub(crate) const ZERO: &[Witness] = &[(Number, "0")];

pub(crate) const WIDE_KINDS: &[KindRow] = &[
    (WordKind::Item, ITEM, &[]),
    (WordKind::Process, PROCESS, &[]),
    (WordKind::Formula, FORMULA, &[]),
    (WordKind::Term, TERM, &[WordKind::Formula]),
    (
        WordKind::Name,
        NAME,
        &[WordKind::Process, WordKind::Formula, WordKind::Term],
    ),
    (
        WordKind::Lower,
        SMALL,
        &[
            WordKind::Process,
            WordKind::Formula,
            WordKind::Term,
            WordKind::Name,
        ],
    ),
    (
        WordKind::Upper,
        CAPITAL,
        &[
            WordKind::Process,
            WordKind::Formula,
            WordKind::Term,
            WordKind::Name,
        ],
    ),
    (
        WordKind::Quoted,
        QUOTED,
        &[WordKind::Formula, WordKind::Term],
    ),
    (WordKind::Arity, ARITY, &[]),
    (WordKind::Zero, ZERO, &[WordKind::Process, WordKind::Arity]),
];

pub(crate) const SIGNS: &[KindRow] = &[
    (WordKind::Mark(":"), &[(Symbol, ":")], &[]),
    (WordKind::Mark(","), &[(Symbol, ",")], &[]),
    (WordKind::Mark(";"), &[(Symbol, ";")], &[]),
    (WordKind::Mark("."), &[(Symbol, ".")], &[]),
    (WordKind::Mark("="), &[(Symbol, "=")], &[]),
    (WordKind::Mark("-"), &[(Symbol, "-")], &[]),
    (WordKind::Mark("/"), &[(Symbol, "/")], &[]),
    (
        WordKind::Mark("("),
        &[(Symbol, "(")],
        &[WordKind::Process, WordKind::Formula],
    ),
    (WordKind::Mark(")"), &[(Symbol, ")")], &[]),
    (WordKind::Mark("["), &[(Symbol, "[")], &[WordKind::Process]),
    (WordKind::Mark("]"), &[(Symbol, "]")], &[]),
    (
        WordKind::Mark("<"),
        &[(Symbol, "<")],
        &[WordKind::Formula, WordKind::Term],
    ),
    (WordKind::Mark(">"), &[(Symbol, ">")], &[]),
    (WordKind::Mark("\""), &[(Symbol, "\"")], &[]),
    (WordKind::Mark("!"), &[(Symbol, "!")], &[WordKind::Process]),
    (WordKind::Mark("|"), &[(Symbol, "|")], &[]),
    (WordKind::Mark("||"), &[(Symbol, "||")], &[]),
    (WordKind::Mark("-->"), &[(Symbol, "-->")], &[]),
    (WordKind::Mark("--["), &[(Symbol, "--[")], &[]),
    (WordKind::Mark("]->"), &[(Symbol, "]->")], &[]),
    (
        WordKind::Mark("~"),
        &[(Symbol, "~")],
        &[WordKind::Formula, WordKind::Term],
    ),
    (
        WordKind::Mark("$"),
        &[(Symbol, "$")],
        &[WordKind::Formula, WordKind::Term],
    ),
    (WordKind::Mark("#"), &[(Symbol, "#")], &[WordKind::Formula]),
    (WordKind::Mark("@"), &[(Symbol, "@")], &[]),
    (WordKind::Mark("&"), &[(Symbol, "&")], &[]),
    (WordKind::Mark("==>"), &[(Symbol, "==>")], &[]),
    (WordKind::Mark("<=>"), &[(Symbol, "<=>")], &[]),
];

pub(crate) const WORDS: &[KindRow] = &[
    (WordKind::Mark("theory"), &[(Symbol, "theory")], &[]),
    (WordKind::Mark("begin"), &[(Symbol, "begin")], &[]),
    (WordKind::Mark("end"), &[(Symbol, "end")], &[]),
    (
        WordKind::Mark("builtins"),
        &[(Symbol, "builtins")],
        &[WordKind::Item],
    ),
    (
        WordKind::Mark("functions"),
        &[(Symbol, "functions")],
        &[WordKind::Item],
    ),
    (WordKind::Mark("let"), &[(Symbol, "let")], &[WordKind::Item]),
    (
        WordKind::Mark("process"),
        &[(Symbol, "process")],
        &[WordKind::Item],
    ),
    (
        WordKind::Mark("restriction"),
        &[(Symbol, "restriction")],
        &[WordKind::Item],
    ),
    (
        WordKind::Mark("lemma"),
        &[(Symbol, "lemma")],
        &[WordKind::Item],
    ),
    (
        WordKind::Mark("new"),
        &[(Symbol, "new")],
        &[WordKind::Process],
    ),
    (
        WordKind::Mark("out"),
        &[(Symbol, "out")],
        &[WordKind::Process],
    ),
    (
        WordKind::Mark("in"),
        &[(Symbol, "in")],
        &[WordKind::Process],
    ),
    (
        WordKind::Mark("if"),
        &[(Symbol, "if")],
        &[WordKind::Process],
    ),
    (WordKind::Mark("then"), &[(Symbol, "then")], &[]),
    (WordKind::Mark("else"), &[(Symbol, "else")], &[]),
    (
        WordKind::Mark("event"),
        &[(Symbol, "event")],
        &[WordKind::Process],
    ),
    (
        WordKind::Mark("insert"),
        &[(Symbol, "insert")],
        &[WordKind::Process],
    ),
    (
        WordKind::Mark("delete"),
        &[(Symbol, "delete")],
        &[WordKind::Process],
    ),
    (
        WordKind::Mark("lookup"),
        &[(Symbol, "lookup")],
        &[WordKind::Process],
    ),
    (WordKind::Mark("as"), &[(Symbol, "as")], &[]),
    (
        WordKind::Mark("lock"),
        &[(Symbol, "lock")],
        &[WordKind::Process],
    ),
    (
        WordKind::Mark("unlock"),
        &[(Symbol, "unlock")],
        &[WordKind::Process],
    ),
    (
        WordKind::Mark("All"),
        &[(Symbol, "All")],
        &[WordKind::Formula],
    ),
    (
        WordKind::Mark("Ex"),
        &[(Symbol, "Ex")],
        &[WordKind::Formula],
    ),
    (
        WordKind::Mark("not"),
        &[(Symbol, "not")],
        &[WordKind::Formula],
    ),
];

pub(crate) const NAMES: &[KindRow] = &[
    (
        WordKind::Named("hashing"),
        &[(Ident, "hashing")],
        &[
            WordKind::Process,
            WordKind::Formula,
            WordKind::Term,
            WordKind::Name,
            WordKind::Lower,
        ],
    ),
    (
        WordKind::Named("symmetric"),
        &[(Ident, "symmetric")],
        &[
            WordKind::Process,
            WordKind::Formula,
            WordKind::Term,
            WordKind::Name,
            WordKind::Lower,
        ],
    ),
    (
        WordKind::Named("asymmetric"),
        &[(Ident, "asymmetric")],
        &[
            WordKind::Process,
            WordKind::Formula,
            WordKind::Term,
            WordKind::Name,
            WordKind::Lower,
        ],
    ),
    (
        WordKind::Named("signing"),
        &[(Ident, "signing")],
        &[
            WordKind::Process,
            WordKind::Formula,
            WordKind::Term,
            WordKind::Name,
            WordKind::Lower,
        ],
    ),
    (
        WordKind::Named("revealing"),
        &[(Ident, "revealing")],
        &[
            WordKind::Process,
            WordKind::Formula,
            WordKind::Term,
            WordKind::Name,
            WordKind::Lower,
        ],
    ),
    (
        WordKind::Named("encryption"),
        &[(Ident, "encryption")],
        &[
            WordKind::Process,
            WordKind::Formula,
            WordKind::Term,
            WordKind::Name,
            WordKind::Lower,
        ],
    ),
    (
        WordKind::Named("private"),
        &[(Ident, "private")],
        &[
            WordKind::Process,
            WordKind::Formula,
            WordKind::Term,
            WordKind::Name,
            WordKind::Lower,
        ],
    ),
    (
        WordKind::Named("reuse"),
        &[(Ident, "reuse")],
        &[
            WordKind::Process,
            WordKind::Formula,
            WordKind::Term,
            WordKind::Name,
            WordKind::Lower,
        ],
    ),
    (
        WordKind::Named("use_induction"),
        &[(Ident, "use_induction")],
        &[
            WordKind::Process,
            WordKind::Formula,
            WordKind::Term,
            WordKind::Name,
            WordKind::Lower,
        ],
    ),
    (
        WordKind::Named("sources"),
        &[(Ident, "sources")],
        &[
            WordKind::Process,
            WordKind::Formula,
            WordKind::Term,
            WordKind::Name,
            WordKind::Lower,
        ],
    ),
    (
        WordKind::Named("all"),
        &[(Ident, "all")],
        &[
            WordKind::Process,
            WordKind::Formula,
            WordKind::Term,
            WordKind::Name,
            WordKind::Lower,
        ],
    ),
    (
        WordKind::Named("exists"),
        &[(Ident, "exists")],
        &[
            WordKind::Process,
            WordKind::Formula,
            WordKind::Term,
            WordKind::Name,
            WordKind::Lower,
        ],
    ),
    (
        WordKind::Named("traces"),
        &[(Ident, "traces")],
        &[
            WordKind::Process,
            WordKind::Formula,
            WordKind::Term,
            WordKind::Name,
            WordKind::Lower,
        ],
    ),
    (
        WordKind::Named("trace"),
        &[(Ident, "trace")],
        &[
            WordKind::Process,
            WordKind::Formula,
            WordKind::Term,
            WordKind::Name,
            WordKind::Lower,
        ],
    ),
];
