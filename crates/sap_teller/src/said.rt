//! Terms told as they stand, with what they are evaluated to behind them where that is another.
ghost use Rattle.std.specs.Prelude.{◌≡◌, ◌+◌, ◌<◌, ◌++◌, [], ◌∷◌, OnOk, MatchOption, codes};
ghost use Rattle.sap_grammar.specs.Pieces.{joined};
ghost use Rattle.sap_tell.specs.Said.{are_few, are_same, beside, is_few, parts_told, said, said_event, said_if, said_lookup, said_out, said_word, taken_on};
ghost use Rattle.sap_tell.specs.ToldText.{fact_told, term_told};
ghost use Rattle.sap_terms.specs.Tree.{node_count, trees_count, trees_of};
ghost use Rattle.sap_terms.specs.View.{tree};
ghost use Rattle.sap_grammar.specs.TermText.{variable_text};
ghost use Rattle.sap_teller.specs.code.Framed.{behind_word, framed, key_text, told_two, trees_of_two};

use sap_called::{Names, push_fact, push_term};
use sap_grammar::push_variable;
use sap_terms::{Fact, Mem, Term, TermList, Var};
use sap_text::Text;

// A term with more nodes isn't told as it stands.
const MOST_NODES: u64 = 256;

// How many of so many nodes are left behind those of the term; none where it has more.
#[cycle(left)]
fn nodes_left(t: &Term, most: u64) -> Option<u64>
    ensures { MatchOption result (most < node_count (tree t.now)) (λ left. node_count (tree t.now) + left ≡ most) }
{
    match most.checked_sub(1) {
        None => None,
        Some(left) => match t {
            Term::App(_, ts) => all_nodes_left(ts, left),
            _ => Some(left),
        },
    }
}

// The same of these.
#[cycle(left)]
fn all_nodes_left(ts: &TermList, most: u64) -> Option<u64>
    ensures { MatchOption result (most < trees_count (trees_of ts.now)) (λ left. trees_count (trees_of ts.now) + left ≡ most) }
{
    let mut left = most;
    for k in 0..ts.len() {
        match nodes_left(ts.at(k), left) {
            None => return None,
            Some(rest) => left = rest,
        }
    }
    Some(left)
}

// Whether the term can be told as it stands.
fn is_few(t: &Term) -> bool
    ensures { result ≡ is_few (tree t.now) }
{
    nodes_left(t, MOST_NODES).is_some()
}

// Whether each of these can.
#[tactic(auto, using(crate::proofs::SaidPieces::loop_laws))]
fn are_few(ts: &TermList) -> bool
    ensures { result ≡ are_few ts.now }
{
    for k in 0..ts.len() {
        if !is_few(ts.at(k)) {
            return false;
        }
    }
    true
}

// Whether each is what it is evaluated to.
#[tactic(auto, using(crate::proofs::SaidPieces::loop_laws))]
fn are_same(ts: &TermList, us: &TermList) -> bool
    ensures { result ≡ are_same ts.now us.now }
{
    if ts.len() != us.len() {
        return false;
    }
    for k in 0..ts.len() {
        if !ts.at(k).same(us.at(k)) {
            return false;
        }
    }
    true
}

// A term, with words before and behind it.
fn push_held(
    text: &mut Text,
    names: &Names,
    before: &[u8],
    after: &[u8],
    t: &Term,
) -> Result<(), Mem>
    ensures { OnOk result (text.new ≡ text.old ++ framed before.now (codes ", ") after.now (term_told names.now (tree t.now) ∷ [])) }
{
    text.push_bytes(before)?;
    push_term(text, names, t)?;
    text.push_bytes(after)
}

/// Words before two terms, between them and behind them.
#[derive(Clone, Copy)]
pub(crate) struct Frame<'a> {
    pub before: &'a [u8],
    pub between: &'a [u8],
    pub after: &'a [u8],
}

/// Two terms of a line.
#[derive(Clone, Copy)]
pub(crate) struct Two<'a> {
    pub left: &'a Term,
    pub right: &'a Term,
}

// Two terms, with words before, between and behind them.
fn push_two(text: &mut Text, names: &Names, frame: Frame<'_>, two: Two<'_>) -> Result<(), Mem>
    ensures { OnOk result (text.new ≡ text.old ++ framed frame.entry.before.now frame.entry.between.now frame.entry.after.now (told_two names.now two.entry)) }
{
    text.push_bytes(frame.before)?;
    push_term(text, names, two.left)?;
    text.push_bytes(frame.between)?;
    push_term(text, names, two.right)?;
    text.push_bytes(frame.after)
}

// A term as it stands and evaluated, with words before and behind it.
fn push_said(
    text: &mut Text,
    names: &Names,
    before: &[u8],
    after: &[u8],
    m: &Term,
    x: &Term,
) -> Result<(), Mem>
    ensures { OnOk result (text.new ≡ text.old
        ++ said (framed before.now (codes ", ") after.now) (joined (codes ", ")) names.now (tree m.now ∷ []) (tree x.now ∷ [])) }
{
    if !is_few(m) {
        return push_held(text, names, before, after, x);
    }
    push_held(text, names, before, after, m)?;
    if m.same(x) {
        return Ok(());
    }
    text.push_bytes(b", that is ")?;
    push_term(text, names, x)
}

// What two terms are evaluated to, behind the two.
fn push_evaluated(text: &mut Text, names: &Names, bare: &[u8], two: Two<'_>) -> Result<(), Mem>
    ensures { OnOk result (text.new ≡ text.old ++ (codes ", that is " ++ joined bare.now (told_two names.now two.entry))) }
{
    text.push_bytes(b", that is ")?;
    push_term(text, names, two.left)?;
    text.push_bytes(bare)?;
    push_term(text, names, two.right)
}

// Two terms as they stand and evaluated, with words before, between and behind them; evaluated they have words between them alone.
fn push_said_two(
    text: &mut Text,
    names: &Names,
    frame: Frame<'_>,
    bare: &[u8],
    stands: Two<'_>,
    is: Two<'_>,
) -> Result<(), Mem>
    ensures { OnOk result (text.new ≡ text.old
        ++ said (framed frame.entry.before.now frame.entry.between.now frame.entry.after.now) (joined bare.now) names.now (trees_of_two stands.entry) (trees_of_two is.entry)) }
{
    if !(is_few(stands.left) && is_few(stands.right)) {
        return push_two(text, names, frame, is);
    }
    push_two(text, names, frame, stands)?;
    if stands.left.same(is.left) && stands.right.same(is.right) {
        return Ok(());
    }
    push_evaluated(text, names, bare, is)
}

/// What is put out.
pub(crate) fn push_sent(text: &mut Text, names: &Names, m: &Term, x: &Term) -> Result<(), Mem>
    ensures { OnOk result (text.new ≡ text.old ++ said_out names.now (tree m.now ∷ []) (tree x.now ∷ [])) }
{
    push_said(text, names, b"out(", b")", m, x)
}

/// What is sent on a channel, behind it.
pub(crate) fn push_sent_on(
    text: &mut Text,
    names: &Names,
    stands: Two<'_>,
    is: Two<'_>,
) -> Result<(), Mem>
    ensures { OnOk result (text.new ≡ text.old ++ said_out names.now (trees_of_two stands.entry) (trees_of_two is.entry)) }
{
    let frame = Frame {
        before: b"out(",
        between: b",",
        after: b")",
    };
    push_said_two(text, names, frame, b", ", stands, is)
}

/// Terms that are compared.
pub(crate) fn push_compared(
    text: &mut Text,
    names: &Names,
    stands: Two<'_>,
    is: Two<'_>,
) -> Result<(), Mem>
    ensures { OnOk result (text.new ≡ text.old ++ said_if names.now (trees_of_two stands.entry) (trees_of_two is.entry)) }
{
    let frame = Frame {
        before: b"if ",
        between: b" = ",
        after: b"",
    };
    push_said_two(text, names, frame, b" = ", stands, is)
}

/// A key and the value that is stored at it.
pub(crate) fn push_inserted(
    text: &mut Text,
    names: &Names,
    stands: Two<'_>,
    is: Two<'_>,
) -> Result<(), Mem>
    ensures { OnOk result (text.new ≡ text.old ++ said_word (codes "insert") names.now (trees_of_two stands.entry) (trees_of_two is.entry)) }
{
    let frame = Frame {
        before: b"insert ",
        between: b", ",
        after: b"",
    };
    push_said_two(text, names, frame, b", ", stands, is)
}

/// A word with a blank behind it, and a term.
pub(crate) fn push_word_said(
    text: &mut Text,
    names: &Names,
    word: &[u8],
    m: &Term,
    x: &Term,
) -> Result<(), Mem>
    ensures { OnOk result (text.new ≡ text.old
        ++ said (behind_word word.now) beside names.now (tree m.now ∷ []) (tree x.now ∷ [])) }
{
    push_said(text, names, word, b"", m, x)
}

// A key that is looked up for a variable.
fn push_key(text: &mut Text, names: &Names, k: &Term, x: &Var) -> Result<(), Mem>
    ensures { OnOk result (text.new ≡ text.old ++ key_text (variable_text x.now) (term_told names.now (tree k.now) ∷ [])) }
{
    text.push_bytes(b"lookup ")?;
    push_term(text, names, k)?;
    text.push_bytes(b" as ")?;
    push_variable(text, x)
}

/// A key that is looked up for a variable, as it stands and evaluated.
pub(crate) fn push_looked(
    text: &mut Text,
    names: &Names,
    m: &Term,
    k: &Term,
    x: &Var,
) -> Result<(), Mem>
    ensures { OnOk result (text.new ≡ text.old ++ said_lookup (variable_text x.now) names.now (tree m.now ∷ []) (tree k.now ∷ [])) }
{
    if !is_few(m) {
        return push_key(text, names, k, x);
    }
    push_key(text, names, m, x)?;
    if m.same(k) {
        return Ok(());
    }
    text.push_bytes(b", that is ")?;
    push_term(text, names, k)
}

// The fact of an event.
fn push_event_fact(text: &mut Text, names: &Names, f: &Fact) -> Result<(), Mem>
    ensures { OnOk result (text.new ≡ text.old ++ (codes "event " ++ fact_told names.now f.now)) }
{
    text.push_bytes(b"event ")?;
    push_fact(text, names, f)
}

/// The fact of an event, as it stands and as it is shown.
pub(crate) fn push_event(text: &mut Text, names: &Names, f: &Fact, h: &Fact) -> Result<(), Mem>
    ensures { OnOk result (text.new ≡ text.old ++ said_event names.now f.now h.now) }
{
    if !are_few(&f.args) {
        return push_event_fact(text, names, h);
    }
    push_event_fact(text, names, f)?;
    if are_same(&f.args, &h.args) {
        return Ok(());
    }
    text.push_bytes(b", that is ")?;
    push_fact(text, names, h)
}

// The parts of a pair, or a term that is none.
fn push_parts(text: &mut Text, names: &Names, x: &Term) -> Result<(), Mem>
    ensures { OnOk result (text.new ≡ text.old ++ joined (codes ",") (parts_told names.now (tree x.now))) }
{
    match x {
        Term::App(_, ts) => if ts.len() == 2 {
            push_term(text, names, ts.at(0))?;
            text.push_bytes(b",")?;
            push_term(text, names, ts.at(1))
        } else {
            push_term(text, names, x)
        },
        _ => push_term(text, names, x),
    }
}

/// What is taken on a channel: the parts of the entry.
pub(crate) fn push_taken_on(text: &mut Text, names: &Names, x: &Term) -> Result<(), Mem>
    ensures { OnOk result (text.new ≡ text.old ++ taken_on names.now (tree x.now)) }
{
    text.push_bytes(b"in(")?;
    push_parts(text, names, x)?;
    text.push_bytes(b")")
}
