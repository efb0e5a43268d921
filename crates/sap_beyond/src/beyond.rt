//! The place of a number, and the first place of so many digits, found by what is written.
ghost use Rattle.std.specs.Prelude.{◌≡◌, ◌<◌, ◌≤◌, ◌+◌, ◌-◌, ◌^◌, ℕ, List, [], ◌∷◌, ◌++◌, IfOk, MatchOption, Some, min};
ghost use Rattle.sap_terms.specs.NameMap.{value_at};
ghost use Rattle.sap_terms.specs.Path.{IsDigit};
ghost use Rattle.sap_macro.specs.Indexed.{AreIndexed, defined};
ghost use Rattle.sap_macro.specs.Order.{AreInOrder, UsesOnly};
ghost use Rattle.sap_macro.specs.Sources.{definitions, written};
ghost use Rattle.sap_beyond.specs.Numbered.{IsFirstDeep, IsNumbered};
ghost use Rattle.sap_beyond.specs.code.Shapes.{Shape, shape_in, shaped, stands, two};
ghost use Rattle.sap_beyond.specs.code.Steps.{AreBelow, AreKept, ComesTo, IsAt, IsFound, IsPlace, Leads, Names, Uses, UsesOf, extent, kept_at, passed, steps_at, steps_of, wanted_at};

use crate::extents::{extents_of, kept_of};
use crate::laws::shapes_are_one;
use sap_macro::{DefinitionList, Index, Source};
use sap_terms::{Mem, Name, Numbers, Path};
use std::alloc::Global;

/// By what a place is looked for: by its number in preorder, or as the first of so many digits.
#[derive(Clone, Copy)]
pub(crate) enum By {
    Number,
    Digits,
}

/// How far a walk comes: past what it goes through, with so much left of what it wants; to the place; or to the use of a name in whose
/// definition, which has this index, the place stands, with so much left.
#[derive(Clone, Copy)]
enum Step<'a> {
    Past(u64),
    Here,
    In(&'a Name, u64, u64),
}

/// What stands directly below a process as it is written.
#[derive(Clone, Copy)]
enum Below<'a> {
    Nothing,
    One(&'a Source),
    Two(&'a Source, &'a Source),
}

fn stands_below(source: &Source) -> Below<'_>
    requires { IsPlace (written source.now) }
    ensures { AreBelow result (written source.now) }
{
    match source {
        Source::Nil(_) | Source::Call(_, _, _) => Below::Nothing,
        Source::Rep(_, p) | Source::Act(_, _, p) => Below::One(p),
        Source::Par(_, p, q) | Source::If(_, _, _, p, q) | Source::Lookup(_, _, _, p, q) => {
            Below::Two(p, q)
        }
    }
}

// From the use of a name, of whose definition this is the index: into it, where what it stands for has more than is wanted, or past it.
fn into_or_past<'a>(by: By, name: &'a Name, at: u64, kept: u64, wanted: u64) -> Step<'a>
    requires { wanted < u64.MAX }
    ensures leads { (c : List ℕ → Shape) (path : List ℕ) → kept ≡ min (extent by (c name.now)) (2 ^ 64 - 1)
        → Leads by c path path (c name.now) wanted path result }
    ensures less { wanted_at result ≤ wanted }
    ensures same { Names result name.now }
    ensures at { (index : List (List ℕ × ℕ)) → value_at index name.now ≡ Some at → IsAt index result }
{
    if wanted < kept {
        return Step::In(name, at, wanted);
    }
    match by {
        By::Number => Step::Past(wanted - kept),
        By::Digits => Step::Past(wanted),
    }
}

// From the use of a name.
fn at_use<'a>(by: By, index: &Index, extents: &Numbers, name: &'a Name, wanted: u64) -> Step<'a>
    requires { wanted < u64.MAX }
    ensures leads { (c : List ℕ → Shape) (path : List ℕ)
        → kept_at extents.now (value_at index.now name.now) ≡ Some (min (extent by (c name.now)) (2 ^ 64 - 1))
        → Leads by c path path (c name.now) wanted path result }
    ensures less { wanted_at result ≤ wanted }
    ensures same { Names result name.now }
    ensures at { IsAt index.now result }
{
    match kept_of(index, extents, name) {
        None => Step::Past(wanted),
        Some((at, kept)) => into_or_past(by, name, at, kept, wanted),
    }
}

// How far a walk comes from a place, where it comes so far from below it.
fn passed<'a>(by: By, step: Step<'a>) -> Step<'a>
    requires { wanted_at step < u64.MAX }
    ensures { result ≡ passed by step.entry }
{
    match (by, step) {
        (By::Digits, Step::Past(left)) => Step::Past(left + 1),
        (_, step) => step,
    }
}

// From this process on, where the trail leads to it; past it, the trail is as it was. It recurses as deep as the process.
#[cycle(look)]
fn look<'a>(
    by: By,
    index: &Index,
    extents: &Numbers,
    source: &'a Source,
    wanted: u64,
    trail: &mut Path,
) -> Result<Step<'a>, Mem>
    requires { wanted < u64.MAX }
    ensures leads { IfOk result (λ step. (c : List ℕ → Shape) (names : List (List ℕ)) → AreKept by c names index.now extents.now → UsesOnly names (written source.now)
        → Leads by c trail.old trail.old (shaped c (written source.now)) wanted trail.new step) }
    ensures less { IfOk result (λ step. wanted_at step ≤ wanted) }
    ensures uses { IfOk result (λ step. Uses (written source.now) step) }
    ensures at { IfOk result (λ step. IsAt index.now step) }
{
    match source {
        Source::Call(_, name, _) => Ok(at_use(by, index, extents, name, wanted)),
        _ => look_at_place(by, index, extents, source, wanted, trail),
    }
}

// The same from what has a place.
#[cycle(look)]
fn look_at_place<'a>(
    by: By,
    index: &Index,
    extents: &Numbers,
    source: &'a Source,
    wanted: u64,
    trail: &mut Path,
) -> Result<Step<'a>, Mem>
    requires place { IsPlace (written source.now) }
    requires small { wanted < u64.MAX }
    ensures leads { IfOk result (λ step. (c : List ℕ → Shape) (names : List (List ℕ)) → AreKept by c names index.now extents.now → UsesOnly names (written source.now)
        → Leads by c trail.old trail.old (shaped c (written source.now)) wanted trail.new step) }
    ensures less { IfOk result (λ step. wanted_at step ≤ wanted) }
    ensures uses { IfOk result (λ step. Uses (written source.now) step) }
    ensures at { IfOk result (λ step. IsAt index.now step) }
{
    if wanted == 0 {
        return Ok(Step::Here);
    }
    match stands_below(source) {
        Below::Nothing => Ok(passed(by, Step::Past(wanted - 1))),
        Below::One(p) => {
            let step = look_at(by, index, extents, p, 1, wanted - 1, trail)?;
            Ok(passed(by, step))
        }
        Below::Two(p, q) => {
            let step = look_at_both(by, index, extents, p, q, wanted - 1, trail)?;
            Ok(passed(by, step))
        }
    }
}

// The same from two processes on, below the place to which the trail leads.
#[cycle(look)]
fn look_at_both<'a>(
    by: By,
    index: &Index,
    extents: &Numbers,
    first: &'a Source,
    second: &'a Source,
    wanted: u64,
    trail: &mut Path,
) -> Result<Step<'a>, Mem>
    requires { wanted < u64.MAX }
    ensures leads { IfOk result (λ step. (c : List ℕ → Shape) (names : List (List ℕ)) → AreKept by c names index.now extents.now
        → UsesOnly names (written first.now) → UsesOnly names (written second.now)
        → Leads by c trail.old trail.old (two (shaped c (written first.now)) (shaped c (written second.now))) (wanted + 1) trail.new (passed by step)) }
    ensures less { IfOk result (λ step. wanted_at step ≤ wanted) }
    ensures uses { IfOk result (λ step. UsesOf (written first.now) (written second.now) step) }
    ensures at { IfOk result (λ step. IsAt index.now step) }
{
    match look_at(by, index, extents, first, 1, wanted, trail)? {
        Step::Past(left) => {
            let step = look_at(by, index, extents, second, 2, left, trail)?;
            Ok(step)
        }
        step => Ok(step),
    }
}

// The same from the process at this digit on.
#[cycle(look)]
fn look_at<'a>(
    by: By,
    index: &Index,
    extents: &Numbers,
    source: &'a Source,
    digit: u8,
    wanted: u64,
    trail: &mut Path,
) -> Result<Step<'a>, Mem>
    requires digit { IsDigit digit }
    requires small { wanted < u64.MAX }
    ensures leads { IfOk result (λ step. (c : List ℕ → Shape) (names : List (List ℕ)) → AreKept by c names index.now extents.now → UsesOnly names (written source.now)
        → Leads by c trail.old (trail.old ++ digit ∷ []) (shaped c (written source.now)) wanted trail.new step) }
    ensures less { IfOk result (λ step. wanted_at step ≤ wanted) }
    ensures uses { IfOk result (λ step. Uses (written source.now) step) }
    ensures at { IfOk result (λ step. IsAt index.now step) }
{
    trail.push(digit)?;
    match look(by, index, extents, source, wanted, trail)? {
        Step::Past(left) => {
            trail.pop();
            Ok(Step::Past(left))
        }
        step => Ok(step),
    }
}

// From the body of the name's definition on, which has this index.
fn enter<'a>(
    by: By,
    defs: &'a DefinitionList,
    index: &Index,
    extents: &Numbers,
    name: &Name,
    at: u64,
    wanted: u64,
    trail: &mut Path,
) -> Result<Step<'a>, Mem>
    requires order { AreInOrder [] (definitions defs.now) }
    requires index { AreIndexed (definitions defs.now) index.now }
    requires kept { AreKept by (stands (definitions defs.now)) (defined (definitions defs.now)) index.now extents.now }
    requires small { wanted < u64.MAX }
    requires at { value_at index.now name.now ≡ Some at }
    ensures comes { IfOk result (λ step. (s : Shape) (k : ℕ) → wanted < extent by (stands (definitions defs.now) name.now)
        → ((to : List ℕ) → IsFound by trail.old (stands (definitions defs.now) name.now) wanted to → IsFound by [] s k to)
        → ComesTo by (definitions defs.now) s k trail.new step) }
    ensures further { IfOk result (λ step. steps_at (definitions defs.now) step ≤ steps_of (definitions defs.now) name.now) }
    ensures at { IfOk result (λ step. IsAt index.now step) }
{
    match defs.get(at) {
        None => Ok(Step::Past(wanted)),
        Some(d) => {
            let step = look(by, index, extents, &d.body, wanted, trail)?;
            Ok(step)
        }
    }
}

// The path of the place of this number, or of the first of so many digits, if there is one.
fn find(
    by: By,
    alloc: Global,
    defs: &DefinitionList,
    index: &Index,
    main: &Source,
    wanted: u64,
) -> Result<Option<Path>, Mem>
    requires order { AreInOrder [] (definitions defs.now) }
    requires index { AreIndexed (definitions defs.now) index.now }
    requires uses { UsesOnly (defined (definitions defs.now)) (written main.now) }
    requires small { wanted < u64.MAX }
    ensures { IfOk result (λ o. MatchOption o (extent by (shape_in (definitions defs.now) (written main.now)) ≤ wanted)
        (λ path. IsFound by [] (shape_in (definitions defs.now) (written main.now)) wanted path)) }
{
    let extents = extents_of(alloc, by, defs, index)?;
    let mut trail = Path::new(alloc);
    let mut step = look(by, index, &extents, main, wanted, &mut trail)?;
    while let Step::In(name, at, left) = step {
        step = enter(by, defs, index, &extents, name, at, left, &mut trail)?;
    }
    match step {
        Step::Here => Ok(Some(trail)),
        _ => Ok(None),
    }
}

/// The path of the place of this number, from 0 in preorder, of what is written behind these definitions; `None` where it has no more
/// places. `index` is what `index_of` gives of the definitions. Want of memory is the only error. It takes time in proportion to what is
/// written, however large the expansion is, where each name is looked for by its order, and recurses as deep as what is written.
pub fn place_beyond(
    alloc: Global,
    defs: &DefinitionList,
    index: &Index,
    main: &Source,
    number: u64,
) -> Result<Option<Path>, Mem>
    requires order { AreInOrder [] (definitions defs.now) }
    requires index { AreIndexed (definitions defs.now) index.now }
    requires uses { UsesOnly (defined (definitions defs.now)) (written main.now) }
    requires small { number < u64.MAX }
    ensures { IfOk result (λ o. MatchOption o ((path : List ℕ) → IsNumbered (definitions defs.now) (written main.now) number path → ⊥)
        (λ path. IsNumbered (definitions defs.now) (written main.now) number path)) }
{
    shapes_are_one();
    let found = find(By::Number, alloc, defs, index, main, number)?;
    Ok(found)
}

/// The path of the first place, in preorder, that has so many digits, of what is written behind these definitions; `None` where none has
/// as many. Memory and time are those of `place_beyond`.
pub fn level_beyond(
    alloc: Global,
    defs: &DefinitionList,
    index: &Index,
    main: &Source,
    digits: u64,
) -> Result<Option<Path>, Mem>
    requires order { AreInOrder [] (definitions defs.now) }
    requires index { AreIndexed (definitions defs.now) index.now }
    requires uses { UsesOnly (defined (definitions defs.now)) (written main.now) }
    requires small { digits < u64.MAX }
    ensures { IfOk result (λ o. MatchOption o ((path : List ℕ) → IsFirstDeep (definitions defs.now) (written main.now) digits path → ⊥)
        (λ path. IsFirstDeep (definitions defs.now) (written main.now) digits path)) }
{
    shapes_are_one();
    let found = find(By::Digits, alloc, defs, index, main, digits)?;
    Ok(found)
}
