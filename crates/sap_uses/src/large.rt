//! Arguments that are too large.
ghost use Rattle.std.specs.Prelude.{◌≡◌, [], IfOk};
ghost use Rattle.std.specs.Option.{option_copied};
ghost use Rattle.sap_macro.specs.Order.{AreInOrder};
ghost use Rattle.sap_macro.specs.Sources.{definition_of, definitions, written};
ghost use Rattle.sap_uses.specs.UseCauses.{first_large};
ghost use Rattle.sap_macro.specs.Ends.{AreEnds};
ghost use Rattle.sap_macro.specs.Indexed.{AreIndexed};
ghost use Rattle.sap_uses.specs.code.Met.{IsEntered, IsReached};
ghost use Rattle.sap_uses.specs.Sizes.{size_in};
ghost use Rattle.sap_uses.specs.code.Walks.{heavy};

use crate::counts::copied;
use crate::met::{Met, met_at};
use crate::sizes::{Sizes, by_params, has_large};
use sap_macro::{Definition, DefinitionList, Ends, Index, Source, ends_of, index_of};
use sap_terms::{Mem, Name, NameMap, TermList};
use std::alloc::Global;

/// Where a walk comes through uses.
#[derive(Drop)]
pub(crate) enum Reached<'a> {
    /// an argument of this definition is large
    Large(&'a Name),
    /// sizes of names, and a process
    Body(Sizes, &'a Source),
}

// Behind a use of the definition.
fn entered<'a>(
    alloc: Global,
    sizes: &Sizes,
    d: &'a Definition,
    args: &TermList,
) -> Result<Reached<'a>, Mem>
    ensures { IfOk result (λ r. IsEntered (size_in sizes.now) (definition_of d.now) args.now r) }
{
    if has_large(sizes, args) {
        return Ok(Reached::Large(&d.name));
    }
    let inner = by_params(alloc, &d.params, sizes, args)?;
    Ok(Reached::Body(inner, &d.body))
}

// Behind all uses that follow one another with nothing between them. They are gone through in a loop.
fn behind_uses<'a>(
    alloc: Global,
    defs: &'a DefinitionList,
    index: &Index,
    ends: &Ends,
    sizes: &Sizes,
    d: &'a Definition,
    args: &TermList,
) -> Result<Reached<'a>, Mem>
    requires order { AreInOrder [] (definitions defs.now) }
    requires index { AreIndexed (definitions defs.now) index.now }
    requires ends { AreEnds (definitions defs.now) ends.now }
    ensures { IfOk result (λ r. IsReached (definitions defs.now) (size_in sizes.now) (definition_of d.now) args.now r) }
{
    let mut r = entered(alloc, sizes, d, args)?;
    while let Reached::Body(inner, at) = &r {
        match met_at(defs, index, ends, at) {
            Met::Use(e, further) => r = entered(alloc, inner, e, further)?,
            _ => return Ok(r),
        }
    }
    Ok(r)
}

// The first use with a large argument, where names have these sizes. It recurses as deep as the expansion.
fn large_in<'a>(
    alloc: Global,
    defs: &'a DefinitionList,
    index: &Index,
    ends: &Ends,
    sizes: &Sizes,
    source: &'a Source,
) -> Result<Option<&'a Name>, Mem>
    requires order { AreInOrder [] (definitions defs.now) }
    requires index { AreIndexed (definitions defs.now) index.now }
    requires ends { AreEnds (definitions defs.now) ends.now }
    ensures { IfOk result (λ o. option_copied o ≡ heavy (definitions defs.now) (size_in sizes.now) (written source.now)) }
{
    match met_at(defs, index, ends, source) {
        Met::Nothing => Ok(None),
        Met::Plain(p) | Met::One(p) => large_in(alloc, defs, index, ends, sizes, p),
        Met::Use(d, args) => match behind_uses(alloc, defs, index, ends, sizes, d, args)? {
            Reached::Large(name) => Ok(Some(name)),
            Reached::Body(inner, at) => large_in(alloc, defs, index, ends, &inner, at),
        },
        Met::Two(p, q) => match large_in(alloc, defs, index, ends, sizes, p)? {
            None => large_in(alloc, defs, index, ends, sizes, q),
            found => Ok(found),
        },
    }
}

/// The name of the definition of the first use, in preorder of the expansion, one of whose arguments has more than `MOST_TERM_NODES`
/// nodes, once what stands for parameters of the caller is put in. Nothing is expanded: sizes alone are handed on. Want of memory is
/// the only error. It takes time in proportion to the expansion and to what is written at each use that it comes to, where each name
/// is looked for by its order; uses that follow one another with nothing between them are gone through in a loop.
pub fn first_large(alloc: Global, defs: &DefinitionList, main: &Source) -> Result<Option<Name>, Mem>
    requires { AreInOrder [] (definitions defs.now) }
    ensures { IfOk result (λ o. o ≡ first_large (definitions defs.now) (written main.now)) }
{
    let index = index_of(alloc, defs)?;
    let ends = ends_of(alloc, defs, &index)?;
    let sizes = NameMap::new(alloc);
    let found = large_in(alloc, defs, &index, &ends, &sizes, main)?;
    let name = copied(alloc, found)?;
    Ok(name)
}
