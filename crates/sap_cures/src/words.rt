//! Words that stand in many rows.

// The reserved words.
pub(crate) const RESERVED: &[&str] = &[
    "theory",
    "begin",
    "end",
    "builtins",
    "functions",
    "let",
    "process",
    "restriction",
    "lemma",
    "rule",
    "new",
    "out",
    "in",
    "if",
    "then",
    "else",
    "event",
    "insert",
    "delete",
    "lookup",
    "as",
    "lock",
    "unlock",
    "All",
    "Ex",
    "not",
];

// Those with which an action, a condition or a look-up begins.
pub(crate) const ACTIONS: &[&str] = &[
    "new", "out", "in", "if", "event", "insert", "delete", "lookup", "lock", "unlock",
];
