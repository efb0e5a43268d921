//! Processes as flaws of scope see them.
ghost use Rattle.std.specs.Prelude.{◌≡◌, [], IfOk};
ghost use Rattle.sap_process.specs.Proc.{proc};
ghost use Rattle.sap_macro.specs.Expansion.{plain};
ghost use Rattle.sap_macro.specs.Ends.{AreEnds};
ghost use Rattle.sap_macro.specs.Indexed.{AreIndexed};
ghost use Rattle.sap_macro.specs.Order.{AreInOrder};
ghost use Rattle.sap_macro.specs.Seen.{seen};
ghost use Rattle.sap_macro.specs.Sources.{definitions, written};
ghost use Rattle.sap_macro.specs.code.Heads.{PutsNothing, seen_in};

use crate::below::below;
use crate::definition::DefinitionList;
use crate::ends::{Ends, ends_of, form_of};
use crate::heads::{over_one, over_two, told};
use crate::index::Index;
use crate::source::{Below, Source};
use crate::standing::{Standing, nothing_put};
use sap_process::{Process, ended};
use sap_terms::Mem;
use std::alloc::Global;

// The process with names without parameters replaced, and each use an event, where nothing is put in. It recurses as deep as that.
fn see(
    alloc: Global,
    defs: &DefinitionList,
    index: &Index,
    ends: &Ends,
    s: &Standing,
    source: &Source,
) -> Result<Box<Process>, Mem>
    requires order { AreInOrder [] (definitions defs.now) }
    requires index { AreIndexed (definitions defs.now) index.now }
    requires ends { AreEnds (definitions defs.now) ends.now }
    requires nothing { PutsNothing s.now }
    ensures { IfOk result (λ p. proc p.value ≡ seen_in (definitions defs.now) (written source.now)) }
{
    let form = form_of(defs, index, ends, source);
    match below(form) {
        Below::Nothing => {
            let made = ended(alloc)?;
            Ok(made)
        }
        Below::Use(name, args) => {
            let made = told(alloc, name, args)?;
            Ok(made)
        }
        Below::One(p) => {
            let next = see(alloc, defs, index, ends, s, p)?;
            let made = over_one(alloc, s, form, next)?;
            Ok(made)
        }
        Below::Two(p, q) => {
            let left = see(alloc, defs, index, ends, s, p)?;
            let right = see(alloc, defs, index, ends, s, q)?;
            let made = over_two(alloc, s, form, left, right)?;
            Ok(made)
        }
    }
}

/// The process as flaws of scope see it, behind names without parameters: a use of a definition with parameters is an event of its
/// name with its arguments, and `0` below. `index` and `ends` are what `index_of` and `ends_of` give of the definitions. Want of memory is
/// the only error. It takes time in proportion to what it makes, where each name is looked for by its order; it recurses as deep as that.
pub fn seen_by(
    alloc: Global,
    defs: &DefinitionList,
    index: &Index,
    ends: &Ends,
    source: &Source,
) -> Result<Box<Process>, Mem>
    requires order { AreInOrder [] (definitions defs.now) }
    requires index { AreIndexed (definitions defs.now) index.now }
    requires ends { AreEnds (definitions defs.now) ends.now }
    ensures { IfOk result (λ p. proc p.value ≡ seen (plain (definitions defs.now) (written source.now))) }
{
    let nothing = nothing_put(alloc);
    let made = see(alloc, defs, index, ends, &nothing, source)?;
    Ok(made)
}

/// The same, where no ends are known: they are found first, in time in proportion to the definitions.
pub fn seen(
    alloc: Global,
    defs: &DefinitionList,
    index: &Index,
    source: &Source,
) -> Result<Box<Process>, Mem>
    requires order { AreInOrder [] (definitions defs.now) }
    requires index { AreIndexed (definitions defs.now) index.now }
    ensures { IfOk result (λ p. proc p.value ≡ seen (plain (definitions defs.now) (written source.now))) }
{
    let ends = ends_of(alloc, defs, index)?;
    seen_by(alloc, defs, index, &ends, source)
}
