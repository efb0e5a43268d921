//! The role of a thread by the place to which one comes along its path.
ghost use Rattle.std.specs.Prelude.{◌≡◌, ◌<◌, ℕ, List, [], length, None, Some, MatchOption};
ghost use Rattle.sap_terms.specs.Tree.{Tree};
ghost use Rattle.sap_macro.specs.Indexed.{AreIndexed, IsIndex, defined};
ghost use Rattle.sap_macro.specs.Located.{Located, call_at};
ghost use Rattle.sap_macro.specs.Order.{AreInOrder, UsesOnly};
ghost use Rattle.sap_macro.specs.Sources.{definitions, located, written};
ghost use Rattle.sap_macro.specs.Written.{Definition as PlainDefinition};
ghost use Rattle.sap_origin.specs.Definitions.{LocatedDefinition, located_definitions};
ghost use Rattle.sap_origin.specs.Reached.{IsForm, Standing};
ghost use Rattle.sap_roles.specs.Roles.{IsRoleAt};
ghost use Rattle.sap_roles.specs.PlacesAlong.{acts, begins_threads};
ghost use Rattle.sap_roles.specs.code.Steps.{IsBelow, IsWithin, StandsSo, StepsTo};
ghost use Rattle.sap_roles.specs.code.Going.{number_here, number_below};

use sap_macro::{DefinitionList, Index, Source, located_is_written};
use sap_terms::Name;

/// Where a walk is: in a process, in the innermost definition of this number, if it is in one, come to by this role, if by one; it uses the
/// first definitions alone, before the bound; and how many digits it has gone.
#[derive(Clone, Copy)]
struct Here<'a> {
    source: &'a Source,
    inside: Option<u64>,
    role: Option<u64>,
    bound: u64,
    at: usize,
}

/// Where it comes to by a step: to the place, with this role, to nothing, or on.
#[derive(Clone, Copy)]
enum Step<'a> {
    There(Option<u64>),
    Nowhere,
    On(Here<'a>),
}

// Whether a thread does something there else than begin others or end.
fn acts(source: &Source) -> bool
    ensures { result ≡ acts (located source.now) }
{
    match source {
        Source::Act(_, _, _) | Source::If(_, _, _, _, _) | Source::Lookup(_, _, _, _, _) => true,
        Source::Nil(_) | Source::Call(_, _, _) | Source::Par(_, _, _) | Source::Rep(_, _) => false,
    }
}

// Whether threads begin there.
fn begins_threads(source: &Source) -> bool
    ensures { result ≡ begins_threads (located source.now) }
{
    match source {
        Source::Par(_, _, _) | Source::Rep(_, _) => true,
        Source::Nil(_) | Source::Call(_, _, _) | Source::Act(_, _, _) => false,
        Source::If(_, _, _, _, _) | Source::Lookup(_, _, _, _, _) => false,
    }
}

// The role at a place in the innermost definition of this number, if in one, to which one comes with this role, if with one.
fn role_here(source: &Source, inside: Option<u64>, role: Option<u64>) -> Option<u64>
    ensures { result ≡ number_here (acts (located source.now)) inside role }
{
    match role {
        Some(k) => Some(k),
        None if acts(source) => inside,
        None => None,
    }
}

// The role with which one goes on from it.
fn role_below(source: &Source, inside: Option<u64>, role: Option<u64>) -> Option<u64>
    ensures { result
        ≡ number_below (begins_threads (located source.now)) (acts (located source.now))
        inside role }
{
    if begins_threads(source) {
        None
    } else {
        role_here(source, inside, role)
    }
}

// What stands directly below at a digit, if something does; it uses no other names.
fn below(source: &Source, digit: u8) -> Option<&Source>
    ensures { MatchOption result ((p : Located) → IsBelow (located source.now) digit p → ⊥)
        (λ p. IsBelow (located source.now) digit (located p.now)
        × ((names : List (List ℕ)) → UsesOnly names (written source.now)
        → UsesOnly names (written p.now))) }
{
    match (source, digit) {
        (Source::Par(_, p, _), 1) => Some(p),
        (Source::Par(_, _, p), 2) => Some(p),
        (Source::Rep(_, p), 1) => Some(p),
        (Source::Act(_, _, p), 1) => Some(p),
        (Source::If(_, _, _, p, _), 1) => Some(p),
        (Source::If(_, _, _, _, p), 2) => Some(p),
        (Source::Lookup(_, _, _, p, _), 1) => Some(p),
        (Source::Lookup(_, _, _, _, p), 2) => Some(p),
        _ => None,
    }
}

// Through the use of a name: to the body of its definition.
fn through_use<'a>(defs: &'a DefinitionList, index: &Index, here: Here<'a>, name: &Name) -> Step<'a>
    requires order { AreInOrder [] (definitions defs.now) }
    requires index { AreIndexed (definitions defs.now) index.now }
    requires is { (k : ℕ) × (ts : List Tree) × (located here.source.now ≡ call_at k name.now ts) }
    ensures { (ns : List ℕ) (path : List ℕ) (s : Standing) → length ns ≡ length defs.now
        → IsWithin (definitions defs.now) path here.entry
        → StepsTo (definitions defs.now) (located_definitions defs.now ns) path s here.entry result }
{
    located_is_written();
    match index.get(name) {
        None => Step::Nowhere,
        Some(k) => Step::On(Here {
            source: &defs.at(*k).body,
            inside: Some(*k),
            role: here.role,
            bound: *k,
            at: here.at,
        }),
    }
}

// From a form down along the next digit, if there is one.
fn go_below<'a>(here: Here<'a>, path: &[u8]) -> Step<'a>
    requires { IsForm (located here.source.now) }
    ensures { (es : List PlainDefinition) (ds : List LocatedDefinition) (s : Standing)
        → IsWithin es path.now here.entry → StepsTo es ds path.now s here.entry result }
{
    if path.len() <= here.at {
        return Step::There(role_here(here.source, here.inside, here.role));
    }
    let role = role_below(here.source, here.inside, here.role);
    match below(here.source, path[here.at]) {
        None => Step::Nowhere,
        Some(source) => Step::On(Here {
            source,
            inside: here.inside,
            role,
            bound: here.bound,
            at: here.at + 1,
        }),
    }
}

// One step along the path.
fn step_from<'a>(defs: &'a DefinitionList, index: &Index, path: &[u8], here: Here<'a>) -> Step<'a>
    requires order { AreInOrder [] (definitions defs.now) }
    requires index { AreIndexed (definitions defs.now) index.now }
    ensures { (ns : List ℕ) (s : Standing) → length ns ≡ length defs.now
        → IsWithin (definitions defs.now) path.now here.entry
        → StepsTo (definitions defs.now) (located_definitions defs.now ns) path.now s here.entry result }
{
    match here.source {
        Source::Call(_, name, _) => through_use(defs, index, here, name),
        _ => go_below(here, path),
    }
}

/// The role that a thread has at the place to which one comes along the path from this process, by the number of its definition; `None`
/// where it has none, and where one comes nowhere. `index` is what `index_of` gives of the definitions. It takes no memory, and time in
/// proportion to the path and to the uses on the way, where each name is looked for by its order.
pub fn role_of(defs: &DefinitionList, index: &Index, main: &Source, path: &[u8]) -> Option<u64>
    requires order { AreInOrder [] (definitions defs.now) }
    requires index { AreIndexed (definitions defs.now) index.now }
    requires uses { UsesOnly (defined (definitions defs.now)) (written main.now) }
    ensures { (ns : List ℕ) (behind : ℕ) → length ns ≡ length defs.now → MatchOption result
        ((f : List ℕ)
        → IsRoleAt (located_definitions defs.now ns) (located main.now) behind path.now (Some f)
        → ⊥)
        (λ k. (f : List ℕ) × IsIndex (definitions defs.now) f (Some k)
        × IsRoleAt (located_definitions defs.now ns) (located main.now) behind path.now (Some f)) }
{
    let here = Here {
        source: main,
        inside: None,
        role: None,
        bound: defs.len(),
        at: 0,
    };
    let mut step = step_from(defs, index, path, here);
    while let Step::On(next) = step {
        step = step_from(defs, index, path, next);
    }
    match step {
        Step::There(role) => role,
        _ => None,
    }
}
