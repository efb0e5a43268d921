//! Rows of words for formulas.

use crate::test::Test::{Any, Capital, Is, Name, OneOf, Quoted, Simple, Small};
use crate::test::WordRow;

// Of quantifiers, inequalities and arrows.
pub(crate) const SIGN_ROWS: &[WordRow] = &[
    WordRow {
        before: &[OneOf(&["forall", "exists"])],
        from: &[OneOf(&["#", "~", "$"])],
        cure: "Write All or Ex for this quantifier.",
    },
    WordRow {
        before: &[OneOf(&["forall", "exists"])],
        from: &[Name],
        cure: "Write All or Ex for this quantifier.",
    },
    WordRow {
        before: &[OneOf(&["All", "Ex"]), Name],
        from: &[Is(",")],
        cure: "Leave the comma out: All x y #i.",
    },
    WordRow {
        before: &[OneOf(&["All", "Ex"]), OneOf(&["#", "~", "$"]), Name],
        from: &[Is(",")],
        cure: "Leave the comma out: All x y #i.",
    },
    WordRow {
        before: &[Name, OneOf(&["#", "~", "$"]), Name],
        from: &[Is(",")],
        cure: "Leave the comma out: All x y #i.",
    },
    WordRow {
        before: &[Name, Name],
        from: &[Is(",")],
        cure: "Leave the comma out: All x y #i.",
    },
    WordRow {
        before: &[Is("last"), Is("(")],
        from: &[Is("#")],
        cure: "Leave last out: no formula asks which time is the last.",
    },
    WordRow {
        before: &[OneOf(&["if", "="]), Name],
        from: &[Is("!"), Is("=")],
        cure: "Turn the branches round: if t = u then 0 else P.",
    },
    WordRow {
        before: &[Is("if"), OneOf(&["~", "$"]), Name],
        from: &[Is("!"), Is("=")],
        cure: "Turn the branches round: if t = u then 0 else P.",
    },
    WordRow {
        before: &[],
        from: &[Is("!"), Is("=")],
        cure: "Write not (t = u) in a formula, and turn the branches of an if round.",
    },
    WordRow {
        before: &[OneOf(&["&", "==>", "<=>", "not", ".", "\""])],
        from: &[Is("!"), Capital],
        cure: "Leave the ! out: an action in a formula has none.",
    },
    WordRow {
        before: &[],
        from: &[Is(">"), Is("=")],
        cure: "Write not (#j < #i) for #j >= #i.",
    },
    WordRow {
        before: &[Name, Is("<")],
        from: &[Is("=")],
        cure: "Write not (#j < #i) for #i <= #j.",
    },
    WordRow {
        before: &[Is("]")],
        from: &[Is("-"), Is(">")],
        cure: "Write --> for the arrow of a rule.",
    },
    WordRow {
        before: &[],
        from: &[Is("="), Is(">")],
        cure: "Write ==> for an implication.",
    },
    WordRow {
        before: &[Is("=")],
        from: &[Is(">")],
        cure: "Write ==> for an implication.",
    },
    WordRow {
        before: &[],
        from: &[Is("-"), Is(">")],
        cure: "Write ==> for an implication.",
    },
    WordRow {
        before: &[Is("=")],
        from: &[Is("=")],
        cure: "Write one = between two terms.",
    },
    WordRow {
        before: &[Is("&")],
        from: &[Is("&")],
        cure: "Write one & between two formulas.",
    },
    WordRow {
        before: &[Is("~")],
        from: &[Is("(")],
        cure: "Write not for it: a ~ stands before a name.",
    },
];

// Of orders, tuples, locations and facts.
pub(crate) const FACT_ROWS: &[WordRow] = &[
    WordRow {
        before: &[Is("<"), Simple],
        from: &[Is(">")],
        cure: "Write a second part behind a comma, or the term without < and >.",
    },
    WordRow {
        before: &[Is("<"), Is("~"), Name],
        from: &[Is(">")],
        cure: "Write a second part behind a comma, or the term without < and >.",
    },
    WordRow {
        before: &[Is("if"), Name],
        from: &[OneOf(&["<", ">"])],
        cure: "Write = between the two terms: a condition is an equation.",
    },
    WordRow {
        before: &[Name],
        from: &[Is(">"), Is("#")],
        cure: "Write #i < #j for #j > #i.",
    },
    WordRow {
        before: &[Name],
        from: &[Is(">"), Name],
        cure: "Write #i < #j for #j > #i.",
    },
    WordRow {
        before: &[OneOf(&["out", "in"]), Is("("), Any, Is(")")],
        from: &[Is("@")],
        cure: "Leave the @ and its term out: an action has no location.",
    },
    WordRow {
        before: &[Is("event"), Capital, Is("("), Is(")")],
        from: &[Is("@")],
        cure: "Leave the @ and its term out: an action has no location.",
    },
    WordRow {
        before: &[Is("event"), Capital, Is("("), Any, Is(")")],
        from: &[Is("@")],
        cure: "Leave the @ and its term out: an action has no location.",
    },
    WordRow {
        before: &[],
        from: &[Is("@"), Quoted],
        cure: "Leave the @ and its term out: an action has no location.",
    },
    WordRow {
        before: &[Small, Is("("), Is(")")],
        from: &[Is("@")],
        cure: "Begin the name of a fact with a capital letter.",
    },
    WordRow {
        before: &[Small, Is("("), Any, Is(")")],
        from: &[Is("@")],
        cure: "Begin the name of a fact with a capital letter.",
    },
    WordRow {
        before: &[Small, Is("("), Any, Is(","), Any, Is(")")],
        from: &[Is("@")],
        cure: "Begin the name of a fact with a capital letter.",
    },
    WordRow {
        before: &[Is("last"), Is("("), Name, Is(")")],
        from: &[Any],
        cure: "Leave last out: no formula asks which time is the last.",
    },
    WordRow {
        before: &[Capital, Is("("), Any, Is(")")],
        from: &[OneOf(&["&", "==>", "<=>"])],
        cure: "Write a time behind the fact, as A(x) @ #i.",
    },
    WordRow {
        before: &[Capital, Is("("), Any, Is(","), Any, Is(")")],
        from: &[OneOf(&["&", "==>", "<=>"])],
        cure: "Write a time behind the fact, as A(x) @ #i.",
    },
    WordRow {
        before: &[OneOf(&["true", "false"])],
        from: &[OneOf(&["\"", ")", "&", "==>", "<=>"])],
        cure: "Write T or F for this truth value.",
    },
];
