//! Sizes of terms where names have sizes, from the greatest u64 on that number.
ghost use Rattle.std.specs.Prelude.{◌≡◌, ℕ, List, None, IfOk, IfSome, IfNone, map, min, true};
ghost use Rattle.std.specs.Option.{unwrap_or};
ghost use Rattle.sap_terms.specs.Choice.{Choice, instance};
ghost use Rattle.sap_terms.specs.NameMap.{value_at};
ghost use Rattle.sap_terms.specs.Tree.{trees_of};
ghost use Rattle.sap_terms.specs.View.{tree};
ghost use Rattle.sap_macro.specs.Expansion.{put, unchanged};
ghost use Rattle.sap_uses.specs.UseCauses.{has_large};
ghost use Rattle.sap_uses.specs.Sizes.{HaveSizes, cut, size_in};
ghost use Rattle.sap_uses.specs.code.Walks.{has_heavy, put_sizes, weight, weights};

use sap_terms::{Copied, MOST_TERM_NODES, Mem, Name, NameList, NameMap, Term, TermList};
use std::alloc::Global;

/// The size of each name; 1 of a name that has none.
pub type Sizes = NameMap<u64>;

fn size_of_name(sizes: &Sizes, name: &Name) -> u64
    ensures { result ≡ unwrap_or (value_at sizes.now name.now) 1 }
{
    match sizes.get(name) {
        Some(size) => *size,
        None => 1,
    }
}

// The size of the term. It recurses as deep as the term.
#[cycle(size)]
fn size(sizes: &Sizes, t: &Term) -> u64
    ensures { result ≡ min (weight (size_in sizes.now) (tree t.now)) u64.MAX }
{
    match t {
        Term::Var(x) => size_of_name(sizes, &x.name),
        Term::Public(_) | Term::Fresh(_) => 1,
        Term::App(_, ts) => sum(sizes, ts).saturating_add(1),
    }
}

// The sizes of the terms together.
#[cycle(size)]
fn sum(sizes: &Sizes, ts: &TermList) -> u64
    ensures { result ≡ min (weights (size_in sizes.now) (trees_of ts.now)) u64.MAX }
{
    let mut total: u64 = 0;
    for k in 0..ts.len() {
        total = total.saturating_add(size(sizes, ts.at(k)));
    }
    total
}

/// Whether one of the terms has more nodes than a term may have.
pub(crate) fn has_large(sizes: &Sizes, ts: &TermList) -> bool
    ensures { result ≡ has_heavy (size_in sizes.now) ts.now }
{
    for k in 0..ts.len() {
        if MOST_TERM_NODES < size(sizes, ts.at(k)) {
            return true;
        }
    }
    false
}

/// The sizes of the arguments, by their parameters; of parameters that are the same the first counts.
pub(crate) fn by_params(
    alloc: Global,
    params: &NameList,
    sizes: &Sizes,
    args: &TermList,
) -> Result<Sizes, Mem>
    ensures { IfOk result (λ m. size_in m ≡ put_sizes params.now (map (λ t. cut (weight (size_in sizes.now) t)) args.now)) }
{
    let mut inner = NameMap::new(alloc);
    let mut k = params.len().min(args.len());
    while 0 < k {
        k -= 1;
        let name = params.at(k).copy(alloc)?;
        inner.insert(name, size(sizes, args.at(k)))?;
    }
    Ok(inner)
}

/// Whether one of the arguments has more than `MOST_TERM_NODES` nodes, once what stands for variables is put in: terms that have these
/// sizes. It takes no memory, and time in proportion to what is written.
pub fn has_large_argument(sizes: &Sizes, args: &TermList) -> bool
    ensures { (r : Choice) → HaveSizes r sizes.now → result ≡ has_large (map (instance r) args.now) }
{
    has_large(sizes, args)
}

/// The sizes of the arguments by their parameters, once what stands for variables is put in: terms that have these sizes. Want of memory
/// is the only error. It takes time in proportion to what is written.
pub fn argument_sizes(
    alloc: Global,
    params: &NameList,
    sizes: &Sizes,
    args: &TermList,
) -> Result<Sizes, Mem>
    ensures { IfOk result (λ m. (r : Choice) → HaveSizes r sizes.now
        → HaveSizes (put params.now (map (instance r) args.now) unchanged) m) }
{
    let inner = by_params(alloc, params, sizes, args)?;
    Ok(inner)
}
