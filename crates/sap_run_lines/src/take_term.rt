//! Terms, taken from the left of bytes.
ghost use Rattle.std.specs.Prelude.{◌≡◌, ◌++◌, ◌∷◌, [], IfOk};
ghost use Rattle.sap_terms.specs.Tree.{Tree, public, fresh, apply, none, trees_of, node_count};
ghost use Rattle.sap_terms.specs.View.{tree};
ghost use Rattle.sap_grammar.specs.TermGrammar.{pair};
ghost use Rattle.sap_run_lines.specs.code.Taking.{Takes};
ghost use Rattle.sap_run_lines.specs.code.TermTaking.{public_at, fresh_at, paired, tuple_at, applied, symbol_at, listed, term, rest, terms, small_term};

use crate::take::{behind, content_at, name_at, number_at, starts};
use sap_terms::{MOST_TERM_NODES, Mem, Name, Term, TermList};
use std::alloc::Global;

// The terms, and one more behind them.
fn with(terms: TermList, term: Term) -> Result<TermList, Mem>
    ensures { IfOk result (λ ts. ts ≡ terms ++ tree term ∷ []) }
{
    let mut terms = terms;
    terms.push(term)?;
    Ok(terms)
}

fn two(alloc: Global, left: Term, right: Term) -> Result<TermList, Mem>
    ensures { IfOk result (λ ts. ts ≡ tree left ∷ tree right ∷ []) }
{
    match with(TermList::new(alloc), left) {
        Err(mem) => {
            drop(right);
            Err(mem)
        }
        Ok(parts) => with(parts, right),
    }
}

// The symbol on the terms.
fn on_terms(alloc: Global, symbol: &[u8], terms: TermList) -> Result<Term, Mem>
    ensures { IfOk result (λ t. tree t ≡ apply symbol.now (trees_of terms)) }
{
    match Name::from_bytes(alloc, symbol) {
        Err(mem) => {
            drop(terms);
            Err(mem)
        }
        Ok(name) => Ok(Term::App(name, terms)),
    }
}

fn pair(alloc: Global, left: Term, right: Term) -> Result<Term, Mem>
    ensures { IfOk result (λ t. tree t ≡ pair (tree left) (tree right)) }
{
    match two(alloc, left, right) {
        Err(mem) => Err(mem),
        Ok(parts) => on_terms(alloc, b"pair", parts),
    }
}

#[tactic(auto, unfolding(crate::specs::code::Taking::after))]
fn take_public<'a>(alloc: Global, bytes: &'a [u8]) -> Result<Option<(Term, &'a [u8])>, Mem>
    ensures { Takes tree result (public_at bytes.now) }
{
    match content_at(bytes) {
        None => Ok(None),
        Some((content, rest)) => match Name::from_bytes(alloc, content) {
            Err(mem) => Err(mem),
            Ok(name) => Ok(Some((Term::Public(name), rest))),
        },
    }
}

#[tactic(auto, unfolding(crate::specs::code::Taking::after))]
fn take_fresh<'a>(bytes: &'a [u8]) -> Result<Option<(Term, &'a [u8])>, Mem>
    ensures { Takes tree result (fresh_at bytes.now) }
{
    match number_at(bytes) {
        None => Ok(None),
        Some((number, rest)) => Ok(Some((Term::Fresh(number), rest))),
    }
}

#[cycle(take)]
#[tactic(auto, unfolding(crate::specs::code::Taking::after))]
fn take_paired<'a>(
    alloc: Global,
    calls: u64,
    left: Term,
    bytes: &'a [u8],
) -> Result<Option<(Term, &'a [u8])>, Mem>
    ensures { Takes tree result (paired (rest calls) (tree left) bytes.now) }
{
    if !starts(b',', bytes) {
        drop(left);
        return Ok(None);
    }
    match take_rest(alloc, calls, behind(1, bytes)) {
        Err(mem) => {
            drop(left);
            Err(mem)
        }
        Ok(None) => {
            drop(left);
            Ok(None)
        }
        Ok(Some((right, end))) => match pair(alloc, left, right) {
            Err(mem) => Err(mem),
            Ok(both) => Ok(Some((both, end))),
        },
    }
}

#[cycle(take)]
#[tactic(auto, unfolding(crate::specs::code::Taking::after))]
fn take_rest<'a>(
    alloc: Global,
    calls: u64,
    bytes: &'a [u8],
) -> Result<Option<(Term, &'a [u8])>, Mem>
    ensures { Takes tree result (rest calls bytes.now) }
{
    if calls == 0 {
        return Ok(None);
    }
    match take_term(alloc, calls - 1, bytes)? {
        None => Ok(None),
        Some((left, next)) => {
            if starts(b'>', next) {
                Ok(Some((left, behind(1, next))))
            } else {
                take_paired(alloc, calls - 1, left, next)
            }
        }
    }
}

#[cycle(take)]
#[tactic(auto, unfolding(crate::specs::code::Taking::after))]
fn take_tuple<'a>(
    alloc: Global,
    calls: u64,
    bytes: &'a [u8],
) -> Result<Option<(Term, &'a [u8])>, Mem>
    ensures { Takes tree result (tuple_at (term calls) (rest calls) bytes.now) }
{
    match take_term(alloc, calls, bytes)? {
        None => Ok(None),
        Some((left, next)) => take_paired(alloc, calls, left, next),
    }
}

#[cycle(take)]
#[tactic(auto, unfolding(crate::specs::code::Taking::after))]
fn take_listed<'a>(
    alloc: Global,
    calls: u64,
    before: TermList,
    bytes: &'a [u8],
) -> Result<Option<(TermList, &'a [u8])>, Mem>
    ensures { Takes (λ ts. ts) result (listed (terms calls) before bytes.now) }
{
    if starts(b')', bytes) {
        Ok(Some((before, behind(1, bytes))))
    } else if starts(b',', bytes) {
        take_terms(alloc, calls, before, behind(1, bytes))
    } else {
        drop(before);
        Ok(None)
    }
}

#[cycle(take)]
#[tactic(auto, unfolding(crate::specs::code::Taking::after))]
fn take_terms<'a>(
    alloc: Global,
    calls: u64,
    before: TermList,
    bytes: &'a [u8],
) -> Result<Option<(TermList, &'a [u8])>, Mem>
    ensures { Takes (λ ts. ts) result (terms calls before bytes.now) }
{
    if calls == 0 {
        drop(before);
        return Ok(None);
    }
    match take_term(alloc, calls - 1, bytes) {
        Err(mem) => {
            drop(before);
            Err(mem)
        }
        Ok(None) => {
            drop(before);
            Ok(None)
        }
        Ok(Some((term, next))) => match with(before, term) {
            Err(mem) => Err(mem),
            Ok(terms) => take_listed(alloc, calls - 1, terms, next),
        },
    }
}

#[cycle(take)]
#[tactic(auto, unfolding(crate::specs::code::Taking::after))]
fn take_applied<'a>(
    alloc: Global,
    calls: u64,
    name: &[u8],
    bytes: &'a [u8],
) -> Result<Option<(Term, &'a [u8])>, Mem>
    ensures { Takes tree result (applied (terms calls) name.now bytes.now) }
{
    if !starts(b'(', bytes) {
        return match on_terms(alloc, name, TermList::new(alloc)) {
            Err(mem) => Err(mem),
            Ok(term) => Ok(Some((term, bytes))),
        };
    }
    match take_terms(alloc, calls, TermList::new(alloc), behind(1, bytes)) {
        Err(mem) => Err(mem),
        Ok(None) => Ok(None),
        Ok(Some((terms, rest))) => match on_terms(alloc, name, terms) {
            Err(mem) => Err(mem),
            Ok(term) => Ok(Some((term, rest))),
        },
    }
}

#[cycle(take)]
#[tactic(auto, unfolding(crate::specs::code::Taking::after))]
fn take_symbol<'a>(
    alloc: Global,
    calls: u64,
    bytes: &'a [u8],
) -> Result<Option<(Term, &'a [u8])>, Mem>
    ensures { Takes tree result (symbol_at (terms calls) bytes.now) }
{
    match name_at(bytes) {
        None => Ok(None),
        Some((name, next)) => take_applied(alloc, calls, name, next),
    }
}

#[cycle(take)]
#[tactic(auto, unfolding(crate::specs::code::Taking::after))]
fn take_term<'a>(
    alloc: Global,
    calls: u64,
    bytes: &'a [u8],
) -> Result<Option<(Term, &'a [u8])>, Mem>
    ensures { Takes tree result (term calls bytes.now) }
{
    if calls == 0 {
        return Ok(None);
    }
    if starts(b'\'', bytes) {
        take_public(alloc, behind(1, bytes))
    } else if starts(b'~', bytes) {
        take_fresh(behind(1, bytes))
    } else if starts(b'<', bytes) {
        take_tuple(alloc, calls - 1, behind(1, bytes))
    } else {
        take_symbol(alloc, calls - 1, bytes)
    }
}

/// The term of at most 256 nodes that stands first, and the bytes behind it. It recurses a few calls for each node at most.
#[tactic(auto, unfolding(crate::specs::code::Taking::after, crate::specs::code::TermTaking::small_term))]
pub(crate) fn small_term<'a>(
    alloc: Global,
    bytes: &'a [u8],
) -> Result<Option<(Term, &'a [u8])>, Mem>
    ensures { Takes tree result (small_term bytes.now) }
{
    match take_term(alloc, 2 * MOST_TERM_NODES, bytes)? {
        None => Ok(None),
        Some((term, rest)) => if term.nodes() <= MOST_TERM_NODES {
            Ok(Some((term, rest)))
        } else {
            drop(term);
            Ok(None)
        },
    }
}
