//! Rows of bytes.

use crate::test::ByteRow;

// Of signs of ASCII.
pub(crate) const MARK_ROWS: &[ByteRow] = &[
    ByteRow {
        before: "text",
        from: "{*",
        cure: "Write a comment, /* and */ for text{* and *}.",
    },
    ByteRow {
        before: "section",
        from: "{*",
        cure: "Write a comment, /* and */ for section{* and *}.",
    },
    ByteRow {
        before: "",
        from: "{*",
        cure: "Write a comment, /* and */ for {* and *}.",
    },
    ByteRow {
        before: "",
        from: "{",
        cure: "Write the arguments in parentheses, as senc(m, k).",
    },
    ByteRow {
        before: "",
        from: "+ event",
        cure: "Let the adversary choose: in(x); if x = 'a' then P else Q.",
    },
    ByteRow {
        before: "",
        from: "+ out",
        cure: "Let the adversary choose: in(x); if x = 'a' then P else Q.",
    },
    ByteRow {
        before: "",
        from: "+ in",
        cure: "Let the adversary choose: in(x); if x = 'a' then P else Q.",
    },
    ByteRow {
        before: "",
        from: "+ new",
        cure: "Let the adversary choose: in(x); if x = 'a' then P else Q.",
    },
    ByteRow {
        before: "",
        from: "+ if",
        cure: "Let the adversary choose: in(x); if x = 'a' then P else Q.",
    },
    ByteRow {
        before: "",
        from: "+ (",
        cure: "Let the adversary choose: in(x); if x = 'a' then P else Q.",
    },
    ByteRow {
        before: "",
        from: "+ !",
        cure: "Let the adversary choose: in(x); if x = 'a' then P else Q.",
    },
    ByteRow {
        before: "",
        from: "+",
        cure: "Write a pair for a sum: there are no multisets.",
    },
    ByteRow {
        before: "",
        from: "^",
        cure: "Write a symbol of a builtin: there are no exponents.",
    },
    ByteRow {
        before: "",
        from: "*",
        cure: "Write a symbol of a builtin: there are no products.",
    },
    ByteRow {
        before: "",
        from: "%+",
        cure: "Write symbols of your own: there are no natural numbers.",
    },
    ByteRow {
        before: "",
        from: "%1",
        cure: "Write symbols of your own: there are no natural numbers.",
    },
    ByteRow {
        before: "",
        from: "_restrict",
        cure: "Write the condition as an if before the rule: a rule shows facts alone.",
    },
    ByteRow {
        before: "",
        from: "_",
        cure: "Begin the name with a letter.",
    },
    ByteRow {
        before: "/",
        from: "\\",
        cure: "Write & for this sign.",
    },
    ByteRow {
        before: "",
        from: "\\/",
        cure: "Write | for this sign.",
    },
];

// Of others.
pub(crate) const SIGN_BYTE_ROWS: &[ByteRow] = &[
    ByteRow {
        before: "",
        from: "∀",
        cure: "Write All for this sign.",
    },
    ByteRow {
        before: "",
        from: "∃",
        cure: "Write Ex for this sign.",
    },
    ByteRow {
        before: "",
        from: "¬",
        cure: "Write not for this sign.",
    },
    ByteRow {
        before: "",
        from: "∧",
        cure: "Write & for this sign.",
    },
    ByteRow {
        before: "",
        from: "∨",
        cure: "Write | for this sign.",
    },
    ByteRow {
        before: "",
        from: "⇒",
        cure: "Write ==> for this sign.",
    },
    ByteRow {
        before: "",
        from: "→",
        cure: "Write ==> for this sign.",
    },
    ByteRow {
        before: "",
        from: "⇔",
        cure: "Write <=> for this sign.",
    },
    ByteRow {
        before: "",
        from: "↔",
        cure: "Write <=> for this sign.",
    },
    ByteRow {
        before: "",
        from: "⊤",
        cure: "Write T for this sign.",
    },
    ByteRow {
        before: "",
        from: "⊥",
        cure: "Write F for this sign.",
    },
    ByteRow {
        before: "",
        from: "≠",
        cure: "Write not (t = u) in a formula, and turn the branches of an if round.",
    },
    ByteRow {
        before: "",
        from: "≤",
        cure: "Write not (#j < #i) for #i before #j or at it.",
    },
    ByteRow {
        before: "",
        from: "⊕",
        cure: "Write a symbol of a builtin: there is no exclusive or.",
    },
    ByteRow {
        before: "",
        from: "‘",
        cure: "Write ' for this sign.",
    },
    ByteRow {
        before: "",
        from: "’",
        cure: "Write ' for this sign.",
    },
    ByteRow {
        before: "",
        from: "“",
        cure: "Write the sign of ASCII for this quotation mark.",
    },
    ByteRow {
        before: "",
        from: "”",
        cure: "Write the sign of ASCII for this quotation mark.",
    },
    ByteRow {
        before: "",
        from: "⟨",
        cure: "Write < for this sign.",
    },
    ByteRow {
        before: "",
        from: "⟩",
        cure: "Write > for this sign.",
    },
];
