//! The use that has a large argument.
ghost use Rattle.std.specs.Prelude.{◌≡◌, ◌≤◌, ℕ, List, [], IfOk, OnOk, length, take};
ghost use Rattle.std.specs.Option.{option_map};
ghost use Rattle.sap_terms.specs.Choice.{Choice};
ghost use Rattle.sap_macro.specs.Indexed.{AreIndexed};
ghost use Rattle.sap_macro.specs.Order.{AreInOrder};
ghost use Rattle.sap_macro.specs.Sources.{definitions, located};
ghost use Rattle.sap_macro.specs.Written.{Definition as PlainDefinition};
ghost use Rattle.sap_origin.specs.Definitions.{LocatedDefinition, located_definitions};
ghost use Rattle.sap_uses.specs.Sizes.{HaveSizes};
ghost use Rattle.sap_use_words.specs.ExpandedUses.{large_use, words_in, words_of};
ghost use Rattle.sap_use_words.specs.code.Walk.{IsFound, IsReached, found_by, found_from, steps_by, steps_there};

use crate::met::{Entry, Here, Met, met_at};
use crate::use_word::UseWord;
use sap_macro::{DefinitionList, Index, Source};
use sap_origin::FileWord;
use sap_terms::{Mem, NameMap};
use sap_uses::{Sizes, argument_sizes, has_large_argument};
use std::alloc::Global;

/// Where a walk comes through uses.
#[derive(Drop)]
pub(crate) enum Reached<'a> {
    /// an argument is large, of the use at this word
    Large(FileWord),
    /// sizes of names, and where it goes on
    Body(Sizes, Here<'a>),
}

// Behind a use.
fn entered<'a>(
    alloc: Global,
    sizes: &Sizes,
    e: Entry<'a>,
    uses: &mut Vec<FileWord>,
) -> Result<Reached<'a>, Mem>
    ensures reached { IfOk result (λ x. (ds : List LocatedDefinition) (r : Choice) → HaveSizes r sizes.now
        → IsReached ds (found_by ds uses.old.items r e.entry) x uses.new.items) }
    ensures fewer { IfOk result (λ x. (es : List PlainDefinition) → steps_there es x ≤ steps_by es e.entry) }
    ensures front { OnOk result (take (length uses.old.items) uses.new.items ≡ uses.old.items) }
{
    if has_large_argument(sizes, e.args) {
        return Ok(Reached::Large(e.word));
    }
    uses.push(e.word)?;
    let inner = argument_sizes(alloc, &e.definition.params, sizes, e.args)?;
    Ok(Reached::Body(
        inner,
        Here {
            source: &e.definition.body,
            behind: e.behind,
        },
    ))
}

// Behind all uses that follow one another with nothing between them. They are gone through in a loop.
fn behind_uses<'a>(
    alloc: Global,
    defs: &'a DefinitionList,
    index: &Index,
    behind: &[usize],
    sizes: &Sizes,
    e: Entry<'a>,
    uses: &mut Vec<FileWord>,
) -> Result<Reached<'a>, Mem>
    requires order { AreInOrder [] (definitions defs.now) }
    requires index { AreIndexed (definitions defs.now) index.now }
    requires count { length behind.now ≡ length defs.now }
    ensures reached { IfOk result (λ x. (r : Choice) → HaveSizes r sizes.now → IsReached (located_definitions defs.now behind.now)
        (found_by (located_definitions defs.now behind.now) uses.old.items r e.entry) x uses.new.items) }
    ensures fewer { IfOk result (λ x. steps_there (definitions defs.now) x ≤ steps_by (definitions defs.now) e.entry) }
    ensures front { OnOk result (take (length uses.old.items) uses.new.items ≡ uses.old.items) }
{
    let mut r = entered(alloc, sizes, e, uses)?;
    while let Reached::Body(inner, here) = &r {
        let depth = uses.len();
        match met_at(defs, index, behind, *here, uses)? {
            Met::Use(next) => r = entered(alloc, inner, next, uses)?,
            _ => {
                uses.truncate(depth);
                return Ok(r);
            }
        }
    }
    Ok(r)
}

// The word of the first use with a large argument, where names have these sizes; then those of the uses above it stand behind those of the
// uses so far. It recurses as deep as the expansion.
fn large_in<'a>(
    alloc: Global,
    defs: &'a DefinitionList,
    index: &Index,
    behind: &[usize],
    sizes: &Sizes,
    here: Here<'a>,
    uses: &mut Vec<FileWord>,
) -> Result<Option<FileWord>, Mem>
    requires order { AreInOrder [] (definitions defs.now) }
    requires index { AreIndexed (definitions defs.now) index.now }
    requires count { length behind.now ≡ length defs.now }
    ensures found { IfOk result (λ o. (r : Choice) → HaveSizes r sizes.now
        → IsFound (found_from (located_definitions defs.now behind.now) uses.old.items r here.entry) o uses.new.items) }
    ensures front { OnOk result (take (length uses.old.items) uses.new.items ≡ uses.old.items) }
{
    match met_at(defs, index, behind, here, uses)? {
        Met::Nothing => Ok(None),
        Met::One(p) => large_in(alloc, defs, index, behind, sizes, p, uses),
        Met::Use(e) => match behind_uses(alloc, defs, index, behind, sizes, e, uses)? {
            Reached::Large(word) => Ok(Some(word)),
            Reached::Body(inner, p) => large_in(alloc, defs, index, behind, &inner, p, uses),
        },
        Met::Two(p, q) => {
            let depth = uses.len();
            match large_in(alloc, defs, index, behind, sizes, p, uses)? {
                None => {
                    uses.truncate(depth);
                    large_in(alloc, defs, index, behind, sizes, q, uses)
                }
                found => Ok(found),
            }
        }
    }
}

/// The word of the first use, in preorder of the expansion, one of whose arguments has more than `MOST_TERM_NODES` nodes, once what stands
/// for parameters of the caller is put in, with the words of the uses above it. `behind` has how many words of the file are behind the item
/// of each definition; `index` is what `index_of` gives of the definitions. Nothing is expanded: sizes alone are handed on. Want of memory
/// is the only error. It takes time in proportion to the expansion and to what is written at each use that it comes to, where each name is
/// looked for by its order; uses that follow one another with nothing between them are gone through in a loop.
pub fn large_use(
    alloc: Global,
    defs: &DefinitionList,
    index: &Index,
    behind: &[usize],
    main: &Source,
    behind_main: usize,
) -> Result<Option<UseWord>, Mem>
    requires order { AreInOrder [] (definitions defs.now) }
    requires index { AreIndexed (definitions defs.now) index.now }
    requires count { length behind.now ≡ length defs.now }
    ensures { IfOk result (λ o. option_map words_in o
        ≡ option_map words_of (large_use (located_definitions defs.now behind.now) behind_main (located main.now))) }
{
    let sizes = NameMap::new(alloc);
    let mut above = Vec::new(alloc);
    let here = Here {
        source: main,
        behind: behind_main,
    };
    match large_in(alloc, defs, index, behind, &sizes, here, &mut above)? {
        None => Ok(None),
        Some(word) => {
            above.reverse();
            Ok(Some(UseWord { word, above }))
        }
    }
}
