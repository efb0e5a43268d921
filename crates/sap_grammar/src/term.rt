//! Terms, read from their tokens.
ghost use Rattle.std.specs.Prelude.{◌≡◌, ℕ, List, codes, [], ◌∷◌, length, Some, IfOk, IfSome, IfNone};
ghost use Rattle.sap_terms.specs.Tree.{Tree, public, node_count};
ghost use Rattle.sap_terms.specs.View.{tree};
ghost use Rattle.sap_terms.specs.Signature.{arity_of};
ghost use Rattle.sap_grammar.specs.Words.{starts, words_of};
ghost use Rattle.sap_grammar.specs.TermGrammar.{pair, sorted};
ghost use Rattle.sap_grammar.specs.Places.{IsTermAt};
ghost use Rattle.sap_grammar.specs.Sizes.{at_most, is_small};
ghost use Rattle.sap_grammar.specs.Reading.{Gives, Read, after, list_of, quoted_at};
ghost use Rattle.sap_grammar.specs.TermReading.{is_no_arity, plain, signed, symbol, named, leaf, args, paired, tuple, term, rest, short_term};

use crate::limits::Limits;
use crate::look::{beyond, is_lower, name_at, quoted_at, starts};
use sap_terms::{Mem, Name, Signature, Sort, Term, TermList, Var};
use sap_text::Token;
use std::alloc::Global;

fn variable(alloc: Global, name: &[u8], sort: Sort) -> Result<Term, Mem>
    ensures { IfOk result (λ t. tree t ≡ sorted sort name.now) }
{
    let name = Name::from_bytes(alloc, name)?;
    Ok(Term::Var(Var { name, sort }))
}

fn is_constant(sig: &Signature, name: &Name) -> bool
    ensures { result ≡ is_no_arity (arity_of sig.now name.now) }
{
    match sig.arity(name) {
        Some(n) => n == 0,
        None => false,
    }
}

fn plain(alloc: Global, sig: &Signature, name: &[u8]) -> Result<Term, Mem>
    ensures { IfOk result (λ t. tree t ≡ plain sig.now name.now) }
{
    let name = Name::from_bytes(alloc, name)?;
    if is_constant(sig, &name) {
        Ok(Term::App(name, TermList::new(alloc)))
    } else {
        Ok(Term::Var(Var {
            name,
            sort: Sort::Msg,
        }))
    }
}

fn two(alloc: Global, left: Term, right: Term) -> Result<TermList, Mem>
    ensures { IfOk result (λ ts. ts ≡ tree left ∷ tree right ∷ []) }
{
    let mut parts = TermList::new(alloc);
    match parts.push(left) {
        Ok(()) => parts.push(right)?,
        Err(mem) => {
            drop(right);
            return Err(mem);
        }
    }
    Ok(parts)
}

fn pair(alloc: Global, left: Term, right: Term) -> Result<Term, Mem>
    ensures { IfOk result (λ t. tree t ≡ pair (tree left) (tree right)) }
{
    match Name::from_bytes(alloc, b"pair") {
        Ok(name) => match two(alloc, left, right) {
            Ok(parts) => Ok(Term::App(name, parts)),
            Err(mem) => Err(mem),
        },
        Err(mem) => {
            drop((left, right));
            Err(mem)
        }
    }
}

// The pair of a term and what was read behind it.
#[tactic(auto, unfolding(crate::specs::Reading::after))]
fn paired<'a>(
    alloc: Global,
    left: Term,
    right: Result<Option<(Term, &'a [Token])>, Mem>,
) -> Result<Option<(Term, &'a [Token])>, Mem>
    ensures { (bytes : List ℕ) (read : Read Tree) → Gives bytes tree right.entry read
        → Gives bytes tree result (after read (λ u z. Some (pair (tree left) u, z))) }
{
    match right {
        Ok(Some((right, end))) => match pair(alloc, left, right) {
            Ok(term) => Ok(Some((term, end))),
            Err(mem) => Err(mem),
        },
        Ok(None) => {
            drop(left);
            Ok(None)
        }
        Err(mem) => {
            drop(left);
            Err(mem)
        }
    }
}

fn quoted(alloc: Global, content: &[u8]) -> Result<Term, Mem>
    ensures { IfOk result (λ t. tree t ≡ public content.now) }
{
    Ok(Term::Public(Name::from_bytes(alloc, content)?))
}

#[tactic(auto, using(crate::proofs::ReadingLaws::Tokens::word_steps), unfolding(crate::specs::Reading::given))]
fn read_signed<'a>(
    alloc: Global,
    bytes: &[u8],
    sort: Sort,
    tokens: &'a [Token],
) -> Result<Option<(Term, &'a [Token])>, Mem>
    ensures { Gives bytes.now tree result (signed sort (words_of bytes.now tokens.now)) }
{
    match name_at(bytes, tokens) {
        None => Ok(None),
        Some(name) => Ok(Some((variable(alloc, name, sort)?, beyond(1, tokens)))),
    }
}

#[cycle(read)]
#[tactic(auto, unfolding(crate::specs::Reading::after))]
fn read_list<'a>(
    alloc: Global,
    sig: &Signature,
    bytes: &[u8],
    depth: u64,
    tokens: &'a [Token],
) -> Result<Option<(TermList, &'a [Token])>, Mem>
    ensures { Gives bytes.now (λ ts. ts) result (list_of (codes ")") (term sig.now depth)
        (length tokens.now) (words_of bytes.now tokens.now)) }
{
    let mut terms = TermList::new(alloc);
    let mut rest = tokens;
    while !rest.is_empty() {
        match read_deep(alloc, sig, bytes, depth, rest) {
            Ok(Some((term, next))) => {
                terms.push(term)?;
                if starts(bytes, next, ")") {
                    return Ok(Some((terms, beyond(1, next))));
                }
                if !starts(bytes, next, ",") {
                    return Ok(None);
                }
                rest = beyond(1, next);
            }
            Ok(None) => return Ok(None),
            Err(mem) => return Err(mem),
        }
    }
    Ok(None)
}

/// Terms, none or more, up to the closing parenthesis, each read so deep at most, and the tokens behind it.
#[cycle(read)]
#[tactic(auto, unfolding(crate::specs::Reading::after))]
pub fn read_args<'a>(
    alloc: Global,
    sig: &Signature,
    bytes: &[u8],
    depth: u64,
    tokens: &'a [Token],
) -> Result<Option<(TermList, &'a [Token])>, Mem>
    ensures { Gives bytes.now (λ ts. ts) result (args (term sig.now depth)
        (words_of bytes.now tokens.now)) }
{
    if starts(bytes, tokens, ")") {
        Ok(Some((TermList::new(alloc), beyond(1, tokens))))
    } else {
        read_list(alloc, sig, bytes, depth, tokens)
    }
}

#[cycle(read)]
#[tactic(auto, unfolding(crate::specs::Reading::after))]
fn read_symbol<'a>(
    alloc: Global,
    sig: &Signature,
    bytes: &[u8],
    depth: u64,
    name: &[u8],
    tokens: &'a [Token],
) -> Result<Option<(Term, &'a [Token])>, Mem>
    ensures { Gives bytes.now tree result (symbol (term sig.now depth) name.now
        (words_of bytes.now tokens.now)) }
{
    if !is_lower(name) {
        return Ok(None);
    }
    match read_args(alloc, sig, bytes, depth, tokens) {
        Ok(Some((args, rest))) => match Name::from_bytes(alloc, name) {
            Ok(name) => Ok(Some((Term::App(name, args), rest))),
            Err(mem) => Err(mem),
        },
        Ok(None) => Ok(None),
        Err(mem) => Err(mem),
    }
}

#[cycle(read)]
#[tactic(auto, unfolding(crate::specs::Reading::after))]
fn read_named<'a>(
    alloc: Global,
    sig: &Signature,
    bytes: &[u8],
    depth: u64,
    name: &[u8],
    tokens: &'a [Token],
) -> Result<Option<(Term, &'a [Token])>, Mem>
    ensures { Gives bytes.now tree result (named sig.now (term sig.now depth) name.now
        (words_of bytes.now tokens.now)) }
{
    if starts(bytes, tokens, "(") {
        read_symbol(alloc, sig, bytes, depth, name, beyond(1, tokens))
    } else {
        match plain(alloc, sig, name) {
            Ok(term) => Ok(Some((term, tokens))),
            Err(mem) => Err(mem),
        }
    }
}

#[cycle(read)]
#[tactic(auto, unfolding(crate::specs::Reading::after))]
fn read_second<'a>(
    alloc: Global,
    sig: &Signature,
    bytes: &[u8],
    depth: u64,
    left: Term,
    tokens: &'a [Token],
) -> Result<Option<(Term, &'a [Token])>, Mem>
    ensures { Gives bytes.now tree result (paired (rest sig.now depth) (tree left)
        (words_of bytes.now tokens.now)) }
{
    if !starts(bytes, tokens, ",") {
        return Ok(None);
    }
    paired(
        alloc,
        left,
        read_rest(alloc, sig, bytes, depth, beyond(1, tokens)),
    )
}

#[cycle(read)]
#[tactic(auto, unfolding(crate::specs::Reading::after))]
fn read_tuple<'a>(
    alloc: Global,
    sig: &Signature,
    bytes: &[u8],
    depth: u64,
    tokens: &'a [Token],
) -> Result<Option<(Term, &'a [Token])>, Mem>
    ensures { Gives bytes.now tree result (tuple (term sig.now depth) (rest sig.now depth)
        (words_of bytes.now tokens.now)) }
{
    match read_deep(alloc, sig, bytes, depth, tokens) {
        Ok(Some((left, next))) => read_second(alloc, sig, bytes, depth, left, next),
        Ok(None) => Ok(None),
        Err(mem) => Err(mem),
    }
}

#[cycle(read)]
#[tactic(auto, unfolding(crate::specs::Reading::after))]
fn read_rest<'a>(
    alloc: Global,
    sig: &Signature,
    bytes: &[u8],
    depth: u64,
    tokens: &'a [Token],
) -> Result<Option<(Term, &'a [Token])>, Mem>
    ensures { Gives bytes.now tree result (rest sig.now depth (words_of bytes.now tokens.now)) }
{
    if depth == 0 {
        return Ok(None);
    }
    match read_deep(alloc, sig, bytes, depth, tokens) {
        Ok(Some((left, next))) => {
            if starts(bytes, next, ">") {
                Ok(Some((left, beyond(1, next))))
            } else {
                read_second(alloc, sig, bytes, depth - 1, left, next)
            }
        }
        Ok(None) => Ok(None),
        Err(mem) => Err(mem),
    }
}

/// A term, read so deep at most, and the tokens behind it. It can have more levels, but each term that has no more is read.
#[cycle(read)]
#[tactic(auto, unfolding(crate::specs::Reading::after))]
pub fn read_deep<'a>(
    alloc: Global,
    sig: &Signature,
    bytes: &[u8],
    depth: u64,
    tokens: &'a [Token],
) -> Result<Option<(Term, &'a [Token])>, Mem>
    ensures { Gives bytes.now tree result (term sig.now depth (words_of bytes.now tokens.now)) }
{
    if depth == 0 {
        return Ok(None);
    }
    if starts(bytes, tokens, "~") {
        read_signed(alloc, bytes, Sort::Fresh, beyond(1, tokens))
    } else if starts(bytes, tokens, "$") {
        read_signed(alloc, bytes, Sort::Pub, beyond(1, tokens))
    } else if starts(bytes, tokens, "<") {
        read_tuple(alloc, sig, bytes, depth - 1, beyond(1, tokens))
    } else {
        read_leaf(alloc, sig, bytes, depth - 1, tokens)
    }
}

#[cycle(read)]
#[tactic(auto, unfolding(crate::specs::Reading::given))]
fn read_leaf<'a>(
    alloc: Global,
    sig: &Signature,
    bytes: &[u8],
    depth: u64,
    tokens: &'a [Token],
) -> Result<Option<(Term, &'a [Token])>, Mem>
    ensures { Gives bytes.now tree result (leaf sig.now (term sig.now depth) (quoted_at
        (words_of bytes.now tokens.now)) (words_of bytes.now tokens.now)) }
{
    match quoted_at(bytes, tokens) {
        Some(content) => match quoted(alloc, content) {
            Ok(term) => Ok(Some((term, beyond(1, tokens)))),
            Err(mem) => Err(mem),
        },
        None => match name_at(bytes, tokens) {
            Some(name) => read_named(alloc, sig, bytes, depth, name, beyond(1, tokens)),
            None => Ok(None),
        },
    }
}

// Whether the term has at most so many nodes, where they are limited.
fn has_few_nodes(most: Option<u32>, term: &Term) -> bool
    ensures { result ≡ at_most most (node_count (tree term.now)) }
{
    match most {
        None => true,
        Some(most) => term.nodes() <= most as u64,
    }
}

/// Whether the term is within the limits.
pub(crate) fn is_small(limits: Limits, term: &Term) -> bool
    ensures { result ≡ is_small limits (tree term.now) }
{
    term.levels() <= limits.term_levels as u64 && has_few_nodes(limits.term_nodes, term)
}

/// The term within the limits that the tokens begin with, and the tokens behind it; None where there is none. As
/// `read_term` but for what stands behind it, which may be anything.
#[tactic(auto, using(crate::proofs::ReadingLaws::Tokens::word_steps), unfolding(crate::specs::Reading::after, crate::specs::TermReading::short_term))]
pub fn read_short_term<'a>(
    alloc: Global,
    sig: &Signature,
    limits: Limits,
    bytes: &[u8],
    tokens: &'a [Token],
) -> Result<Option<(Term, &'a [Token])>, Mem>
    ensures { Gives bytes.now tree result (short_term sig.now limits
        (words_of bytes.now tokens.now)) }
{
    let depth = limits.term_levels as u64;
    match read_deep(alloc, sig, bytes, depth, tokens) {
        Ok(Some((term, rest))) => {
            if is_small(limits, &term) {
                Ok(Some((term, rest)))
            } else {
                drop(term);
                Ok(None)
            }
        }
        Ok(None) => Ok(None),
        Err(mem) => Err(mem),
    }
}

/// The term within the limits that the tokens spell from number `at`, counted from 0, and the number of the token behind it,
/// which is no `(`; None where they spell none. An identifier without sign is the constant of that name where the signature
/// holds one, and a variable otherwise. Nothing is asked of the tokens: each stands for the bytes in its span. The work is
/// linear in the tokens that are looked at, and it recurses a few calls for each level that the limits allow.
pub fn read_term(
    alloc: Global,
    sig: &Signature,
    limits: Limits,
    bytes: &[u8],
    tokens: &Vec<Token>,
    at: u64,
) -> Result<Option<(Term, u64)>, Mem>
    ensures found { IfOk result (λ o. IfSome o (λ r. IsTermAt limits sig.now
        (words_of bytes.now tokens.now.items) at (tree r.0) r.1)) }
    ensures none { IfOk result (λ o. IfNone o ((t : Tree) (e : ℕ)
        → IsTermAt limits sig.now (words_of bytes.now tokens.now.items) at t e → ⊥)) }
{
    let all = tokens.as_slice();
    let tokens = beyond(at as usize, all);
    match read_short_term(alloc, sig, limits, bytes, tokens) {
        Ok(Some((term, rest))) => {
            if starts(bytes, rest, "(") {
                drop(term);
                Ok(None)
            } else {
                Ok(Some((term, (all.len() - rest.len()) as u64)))
            }
        }
        Ok(None) => Ok(None),
        Err(mem) => Err(mem),
    }
}
