//! The word that tells the place to which one comes along a path of an expansion.
ghost use Rattle.std.specs.Prelude.{◌≡◌, [], length, map, take, IfOk, MatchOption};
ghost use Rattle.sap_macro.specs.Indexed.{AreIndexed, defined};
ghost use Rattle.sap_macro.specs.Located.{Located};
ghost use Rattle.sap_macro.specs.Order.{AreInOrder, UsesOnly};
ghost use Rattle.sap_macro.specs.Sources.{definitions, located, written};
ghost use Rattle.sap_origin.specs.Definitions.{located_definitions};
ghost use Rattle.sap_origin.specs.Origins.{IsOrigin, start};
ghost use Rattle.sap_origin.specs.Reached.{Reaches, Standing, number_of};
ghost use Rattle.sap_origin.specs.Trails.{use_word};

use crate::laws::trails_are_uses;
use crate::trail::{Replaced, Use, trail_of};
use sap_macro::{DefinitionList, Index, Source};
use sap_terms::{Items, Mem};
use std::alloc::Global;

/// A word of a file: how many words of its item are left from it, and how many words of the file are behind the item.
#[derive(Clone, Copy)]
pub struct FileWord {
    pub left: usize,
    pub behind: usize,
}

/// The word that tells a place, and the names of the uses through which one comes there, the outermost first.
#[derive(Drop)]
pub struct Origin {
    pub word: FileWord,
    pub uses: Items<FileWord>,
}

/// The number of the place.
pub fn number_of(source: &Source) -> usize
    ensures { result ≡ number_of (located source.now) }
{
    match source {
        Source::Nil(k)
        | Source::Call(k, _, _)
        | Source::Par(k, _, _)
        | Source::Rep(k, _)
        | Source::Act(k, _, _)
        | Source::If(k, _, _, _, _)
        | Source::Lookup(k, _, _, _, _) => *k,
    }
}

/// The words of the names of the first of these uses, in order. Want of memory is the only error.
pub fn use_words(alloc: Global, uses: &Items<Use<'_>>, count: u64) -> Result<Items<FileWord>, Mem>
    ensures { IfOk result (λ r. r ≡ map use_word (take count uses.now)) }
{
    let mut words = Items::new(alloc);
    for k in 0..uses.len().min(count) {
        let used = uses.at(k);
        words.push(FileWord {
            left: number_of(used.source),
            behind: used.behind,
        })?;
    }
    Ok(words)
}

/// The word that tells the written place to which one comes along the path from this process, behind whose item so many words of the file
/// are, and the uses through which one comes; `None` where one comes nowhere. Else it is as `trail_of` where every name is replaced.
pub fn origin_of(
    alloc: Global,
    defs: &DefinitionList,
    index: &Index,
    behind: &[usize],
    main: &Source,
    behind_main: usize,
    path: &[u8],
) -> Result<Option<Origin>, Mem>
    requires order { AreInOrder [] (definitions defs.now) }
    requires index { AreIndexed (definitions defs.now) index.now }
    requires count { length behind.now ≡ length defs.now }
    requires uses { UsesOnly (defined (definitions defs.now)) (written main.now) }
    ensures { IfOk result (λ r. MatchOption r
        ((z : Standing) (q : Located) → Reaches (located_definitions defs.now behind.now)
        (start behind_main) (located main.now) path.now z q → ⊥)
        (λ o. IsOrigin (located_definitions defs.now behind.now) (located main.now) behind_main
        path.now o)) }
{
    trails_are_uses();
    let every = Replaced::Every;
    match trail_of(alloc, defs, index, behind, main, behind_main, path, every)? {
        None => Ok(None),
        Some(trail) => {
            let word = FileWord {
                left: number_of(trail.source),
                behind: trail.behind,
            };
            let uses = use_words(alloc, &trail.uses, trail.uses.len())?;
            Ok(Some(Origin { word, uses }))
        }
    }
}
