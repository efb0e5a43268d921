//! The written place to which one comes along a path, and the uses through which one comes.
ghost use Rattle.std.specs.Prelude.{◌≡◌, ◌<◌, ℕ, List, [], length, IfOk, MatchOption, OnOk};
ghost use Rattle.sap_terms.specs.Tree.{Tree};
ghost use Rattle.sap_macro.specs.Indexed.{AreIndexed, defined};
ghost use Rattle.sap_macro.specs.Located.{Located, call_at};
ghost use Rattle.sap_macro.specs.Order.{AreInOrder, UsesOnly};
ghost use Rattle.sap_macro.specs.Sources.{definitions, located, written};
ghost use Rattle.sap_macro.specs.Written.{Definition as PlainDefinition};
ghost use Rattle.sap_origin.specs.Definitions.{LocatedDefinition, located_definitions};
ghost use Rattle.sap_origin.specs.Origins.{start};
ghost use Rattle.sap_origin.specs.Reached.{IsForm, IsLeft, ReachesBy, Standing};
ghost use Rattle.sap_origin.specs.Trails.{IsTrailBy};
ghost use Rattle.sap_origin.specs.code.Steps.{IsBelow, IsReplacing, IsWithin, StepsTo, noted};

use sap_macro::{DefinitionList, Index, Source, located_is_written};
use sap_terms::{Items, Mem, Name};
use std::alloc::Global;

/// Which names are replaced by what they stand for: all, as in an expansion, or those without parameters alone, which are replaced first.
#[derive(Clone, Copy)]
pub enum Replaced {
    Every,
    Plain,
}

/// A use: the name with its arguments, how many words of the file are behind its item, and the number of its definition.
#[derive(Clone, Copy)]
pub struct Use<'a> {
    pub source: &'a Source,
    pub behind: usize,
    pub definition: u64,
}

/// A written place, how many words of the file are behind its item, and the uses through which one comes there, the outermost first.
#[derive(Drop)]
pub struct Trail<'a> {
    pub source: &'a Source,
    pub behind: usize,
    pub uses: Items<Use<'a>>,
}

/// Where a walk is: in a process behind whose item so many words of the file are, and which uses the first definitions alone, before the
/// bound; and how many digits it has gone.
#[derive(Clone, Copy)]
struct Here<'a> {
    source: &'a Source,
    behind: usize,
    bound: u64,
    at: usize,
}

/// Where it comes to by a step: to the end, to nothing, or on, through a use, if it is one.
#[derive(Clone, Copy)]
enum Step<'a> {
    There(Here<'a>),
    Nowhere,
    On(Option<Use<'a>>, Here<'a>),
}

// What stands directly below at a digit, if something does; it uses no other names.
fn below(source: &Source, digit: u8) -> Option<&Source>
    ensures { MatchOption result ((p : Located) → IsBelow (located source.now) digit p → ⊥)
        (λ p. IsBelow (located source.now) digit (located p.now)
        × ((names : List (List ℕ)) → UsesOnly names (written source.now)
        → UsesOnly names (written p.now))) }
{
    match (source, digit) {
        (Source::Par(_, p, _), 1) => Some(p),
        (Source::Par(_, _, p), 2) => Some(p),
        (Source::Rep(_, p), 1) => Some(p),
        (Source::Act(_, _, p), 1) => Some(p),
        (Source::If(_, _, _, p, _), 1) => Some(p),
        (Source::If(_, _, _, _, p), 2) => Some(p),
        (Source::Lookup(_, _, _, p, _), 1) => Some(p),
        (Source::Lookup(_, _, _, _, p), 2) => Some(p),
        _ => None,
    }
}

// The number of the definition of this name, if there is one whose names are replaced.
fn replacing(defs: &DefinitionList, index: &Index, replaced: Replaced, name: &Name) -> Option<u64>
    requires order { AreInOrder [] (definitions defs.now) }
    requires index { AreIndexed (definitions defs.now) index.now }
    ensures { MatchOption result ((ns : List ℕ) → length ns ≡ length defs.now
        → IsLeft (located_definitions defs.now ns) replaced name.now)
        (λ k. IsReplacing replaced defs.now name.now k) }
{
    located_is_written();
    match index.get(name) {
        None => None,
        Some(k) => {
            let params = &defs.at(*k).params;
            match replaced {
                Replaced::Every => Some(*k),
                Replaced::Plain => { if params.len() == 0 { Some(*k) } else { None } }
            }
        }
    }
}

// At a use that is left: there, where names without parameters alone are replaced, else nowhere; nothing is below it.
fn stay<'a>(here: Here<'a>, path: &[u8], replaced: Replaced, name: &Name) -> Step<'a>
    requires is { (k : ℕ) × (ts : List Tree) × (located here.source.now ≡ call_at k name.now ts) }
    ensures { (es : List PlainDefinition) (ds : List LocatedDefinition) (s : Standing)
        → IsLeft ds replaced name.now → StepsTo es ds replaced path.now s here.entry result }
{
    match replaced {
        Replaced::Every => Step::Nowhere,
        Replaced::Plain => {
            if here.at < path.len() {
                Step::Nowhere
            } else {
                Step::There(here)
            }
        }
    }
}

// Through the use of a name, into the body of this definition, which replaces it.
fn enter<'a>(
    defs: &'a DefinitionList,
    behind: &[usize],
    here: Here<'a>,
    replaced: Replaced,
    name: &Name,
    k: u64,
) -> Step<'a>
    requires order { AreInOrder [] (definitions defs.now) }
    requires count { length behind.now ≡ length defs.now }
    requires replacing { IsReplacing replaced defs.now name.now k }
    requires is { (k : ℕ) × (ts : List Tree) × (located here.source.now ≡ call_at k name.now ts) }
    ensures { (path : List ℕ) (s : Standing) → s.behind ≡ here.entry.behind
        → IsWithin (definitions defs.now) path here.entry
        → StepsTo (definitions defs.now) (located_definitions defs.now behind.now) replaced path s
        here.entry result }
{
    located_is_written();
    Step::On(
        Some(Use {
            source: here.source,
            behind: here.behind,
            definition: k,
        }),
        Here {
            source: &defs.at(k).body,
            behind: behind[k as usize],
            bound: k,
            at: here.at,
        },
    )
}

// From a use of a name: into the body of its definition, where that replaces it.
fn from_use<'a>(
    defs: &'a DefinitionList,
    index: &Index,
    behind: &[usize],
    path: &[u8],
    here: Here<'a>,
    replaced: Replaced,
    name: &Name,
) -> Step<'a>
    requires order { AreInOrder [] (definitions defs.now) }
    requires index { AreIndexed (definitions defs.now) index.now }
    requires count { length behind.now ≡ length defs.now }
    requires is { (k : ℕ) × (ts : List Tree) × (located here.source.now ≡ call_at k name.now ts) }
    ensures { (s : Standing) → s.behind ≡ here.entry.behind
        → IsWithin (definitions defs.now) path.now here.entry
        → StepsTo (definitions defs.now) (located_definitions defs.now behind.now) replaced path.now s
        here.entry result }
{
    match replacing(defs, index, replaced, name) {
        None => stay(here, path, replaced, name),
        Some(k) => enter(defs, behind, here, replaced, name, k),
    }
}

// From a form down along the next digit, if there is one.
fn go_below<'a>(here: Here<'a>, path: &[u8]) -> Step<'a>
    requires { IsForm (located here.source.now) }
    ensures { (es : List PlainDefinition) (ds : List LocatedDefinition) (v : Replaced) (s : Standing)
        → s.behind ≡ here.entry.behind → IsWithin es path.now here.entry
        → StepsTo es ds v path.now s here.entry result }
{
    if path.len() <= here.at {
        return Step::There(here);
    }
    match below(here.source, path[here.at]) {
        None => Step::Nowhere,
        Some(source) => Step::On(
            None,
            Here {
                source,
                behind: here.behind,
                bound: here.bound,
                at: here.at + 1,
            },
        ),
    }
}

// One step along the path.
fn step_from<'a>(
    defs: &'a DefinitionList,
    index: &Index,
    behind: &[usize],
    path: &[u8],
    here: Here<'a>,
    replaced: Replaced,
) -> Step<'a>
    requires order { AreInOrder [] (definitions defs.now) }
    requires index { AreIndexed (definitions defs.now) index.now }
    requires count { length behind.now ≡ length defs.now }
    ensures { (s : Standing) → s.behind ≡ here.entry.behind
        → IsWithin (definitions defs.now) path.now here.entry
        → StepsTo (definitions defs.now) (located_definitions defs.now behind.now) replaced path.now s
        here.entry result }
{
    match here.source {
        Source::Call(_, name, _) => from_use(defs, index, behind, path, here, replaced, name),
        _ => go_below(here, path),
    }
}

// Notes the use through which a step goes, if it is one.
fn note<'a>(uses: &mut Items<Use<'a>>, used: Option<Use<'a>>) -> Result<(), Mem>
    ensures { OnOk result (uses.new ≡ noted uses.old used.entry) }
{
    match used {
        Some(used) => uses.push(used),
        None => Ok(()),
    }
}

/// The written place to which one comes along the path from this process, behind whose item so many words of the file are, where these names
/// are replaced, and the uses through which one comes; `None` where one comes nowhere. `behind` has how many words of the file are behind the
/// item of each definition; `index` is what `index_of` gives of the definitions. Want of memory is the only error. It takes time in proportion
/// to the path and to the uses on the way, where each name is looked for by its order.
#[allow(clippy::too_many_arguments)]
pub fn trail_of<'a>(
    alloc: Global,
    defs: &'a DefinitionList,
    index: &Index,
    behind: &[usize],
    main: &'a Source,
    behind_main: usize,
    path: &[u8],
    replaced: Replaced,
) -> Result<Option<Trail<'a>>, Mem>
    requires order { AreInOrder [] (definitions defs.now) }
    requires index { AreIndexed (definitions defs.now) index.now }
    requires count { length behind.now ≡ length defs.now }
    requires uses { UsesOnly (defined (definitions defs.now)) (written main.now) }
    ensures { IfOk result (λ r. MatchOption r
        ((z : Standing) (q : Located) → ReachesBy (located_definitions defs.now behind.now) replaced
        (start behind_main) (located main.now) path.now z q → ⊥)
        (λ t. IsTrailBy (located_definitions defs.now behind.now) replaced (located main.now) behind_main
        path.now t)) }
{
    let here = Here {
        source: main,
        behind: behind_main,
        bound: defs.len(),
        at: 0,
    };
    let mut uses = Items::new(alloc);
    let mut step = step_from(defs, index, behind, path, here, replaced);
    while let Step::On(used, next) = step {
        note(&mut uses, used)?;
        step = step_from(defs, index, behind, path, next, replaced);
    }
    match step {
        Step::There(end) => Ok(Some(Trail {
            source: end.source,
            behind: end.behind,
            uses,
        })),
        _ => Ok(None),
    }
}
