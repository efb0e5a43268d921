//! The written place that is seen at a path.
ghost use Rattle.std.specs.Prelude.{◌≡◌, [], length, IfOk, MatchOption};
ghost use Rattle.sap_macro.specs.Indexed.{AreIndexed, defined};
ghost use Rattle.sap_macro.specs.Located.{Located};
ghost use Rattle.sap_macro.specs.Order.{AreInOrder, UsesOnly};
ghost use Rattle.sap_macro.specs.Sources.{definitions, located, written};
ghost use Rattle.sap_origin.specs.Definitions.{located_definitions};
ghost use Rattle.sap_origin.specs.Origins.{start};
ghost use Rattle.sap_origin.specs.Reached.{Standing};
ghost use Rattle.sap_seen.specs.SeenAt.{IsSeenAt};
ghost use Rattle.sap_seen.specs.SeenPlaces.{ComesSeen};

use sap_macro::{DefinitionList, Index, Source};
use sap_origin::{FileWord, Replaced, trail_of, trails_are_uses, use_words};
use sap_terms::{Items, Mem};
use std::alloc::Global;

/// A written place, how many words of the file are behind its item, and the names of the uses through which one comes there, the outermost
/// first.
#[derive(Drop)]
pub struct SeenPlace<'a> {
    pub source: &'a Source,
    pub behind: usize,
    pub uses: Items<FileWord>,
}

/// The written place to which one comes along the path of what is seen of this process, behind whose item so many words of the file are,
/// and the uses through which one comes; `None` where one comes nowhere. `behind` has how many words of the file are behind the item of each
/// definition; `index` is what `index_of` gives of the definitions. Want of memory is the only error. It takes time in proportion to the path
/// and to the uses on the way, where each name is looked for by its order.
pub fn seen_at<'a>(
    alloc: Global,
    defs: &'a DefinitionList,
    index: &Index,
    behind: &[usize],
    body: &'a Source,
    behind_body: usize,
    path: &[u8],
) -> Result<Option<SeenPlace<'a>>, Mem>
    requires order { AreInOrder [] (definitions defs.now) }
    requires index { AreIndexed (definitions defs.now) index.now }
    requires count { length behind.now ≡ length defs.now }
    requires uses { UsesOnly (defined (definitions defs.now)) (written body.now) }
    ensures { IfOk result (λ r. MatchOption r
        ((z : Standing) (q : Located) → ComesSeen (located_definitions defs.now behind.now)
        (start behind_body) (located body.now) path.now z q → ⊥)
        (λ t. IsSeenAt (located_definitions defs.now behind.now) (located body.now) behind_body
        path.now t)) }
{
    trails_are_uses();
    let plain = Replaced::Plain;
    match trail_of(alloc, defs, index, behind, body, behind_body, path, plain)? {
        None => Ok(None),
        Some(trail) => {
            let uses = use_words(alloc, &trail.uses, trail.uses.len())?;
            Ok(Some(SeenPlace {
                source: trail.source,
                behind: trail.behind,
                uses,
            }))
        }
    }
}
